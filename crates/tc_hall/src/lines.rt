//! The lines of the locks of a hall: who waits for each, in the order of entry.
//!
//! A line is a queue of tc_queue whose words are among those of the hall's table, so that its steps
//! and those of the hall have one order. Each call is one atomic step.

ghost use Rattle.std.specs.Prelude.{◌≡◌, ◌<◌, Some, ℕ};
ghost use Rattle.tc_queue.specs.declared.turn.Turn.{Turn};
ghost use Rattle.tc_queue.specs.declared.turn.Entered.TheVariants.{Behind};
ghost use Rattle.tc_queue.specs.declared.turn.Leave.TheVariants.{Followed};
ghost use Rattle.tc_queue.specs.declared.turn.QueueCall.TheVariants.{Enter, Link, Next};
ghost use Rattle.tc_queue.specs.declared.turn.QueueCall.TheVariants.{Leave as Leave_call};
ghost use Rattle.tc_queue.specs.Words.{IsTurn};
ghost use Rattle.tc_queue.specs.Calls.{IsTail, IsLink, enter_call, next_call, leave_call};
ghost use Rattle.tc_hall.specs.declared.board.PassCall.TheVariants.{Line as Line_call};
ghost use Rattle.tc_hall.specs.Lines.{IsAsked, MayStand, MayLinkAt, tail_word_of, link_word_of};
ghost use Rattle.tc_hall.specs.Rule.{threads, locks};
ghost use Rattle.tc_hall.specs.Standing.{IfLined, EntersAs, LinksAs, StandsAs, loose};
ghost use Rattle.tc_hall.specs.Steps.{IsSamePass, with_call};
ghost use Rattle.tc_queue.specs.Asked.{enter as Ask_enter, link as Ask_link};
ghost use Rattle.tc_queue.specs.Asked.{next as Ask_next, leave as Ask_leave};

use crate::board::word_of;
use crate::hall::Hall;
use crate::pass::Pass;
use crate::plays::{Asking, Line};
use std::marker::Brand;
use tc_queue::{Entered, Leave, Linked, Turn};

impl Hall {
    /// The word of the tail of a lock's line.
    fn tail_of(&self, lock: u32) -> usize
        requires { lock < locks self.now.terms }
        ensures { result ≡ tail_word_of self.now.terms lock }
    {
        word_of(self.threads + self.locks + 2 * lock)
    }

    /// The word of a thread's link in it.
    fn link_of(&self, lock: u32, thread: u32) -> usize
        requires { (lock < locks self.now.terms) × (thread < threads self.now.terms) }
        ensures { result ≡ link_word_of self.now.terms lock thread }
    {
        word_of(self.threads + self.locks + 2 * lock + 1) + thread as usize
    }

    /// Puts the turn at the tail of the lock's line. It is then behind the turn that was there, or
    /// the first if there was none.
    pub fn enter(&self, pass: &mut Pass, lock: u32, turn: Turn) -> Entered
        requires own { pass.old.table ≡ self.now.table }
        requires may { MayStand self.now.terms lock turn }
        requires stands { IfLined self.now.terms pass.old.knows
            (EntersAs pass.old.knows lock turn) }
        ensures own { IsSamePass pass.old pass.new }
        ensures call { pass.new.knows
            ≡ with_call pass.old.knows (Line_call lock (Enter turn result)) }
        ensures behind { (u : Turn) → result ≡ Behind u → IsTurn (threads self.now.terms) u }
    {
        match self.swap_tail::<Brand>(pass, lock, &turn) {
            None => Entered::First,
            Some(before) => Entered::Behind(before),
        }
    }

    /// Links this turn behind the one before it.
    pub fn link(&self, pass: &mut Pass, lock: u32, before: Turn, own: Turn)
        requires own { pass.old.table ≡ self.now.table }
        requires may { MayLinkAt self.now.terms pass.old.knows lock before own }
        requires stands { IfLined self.now.terms pass.old.knows
            (LinksAs pass.old.knows lock own) }
        ensures own { IsSamePass pass.old pass.new }
        ensures call { pass.new.knows
            ≡ with_call pass.old.knows (Line_call lock (Link before own)) }
    {
        self.store_link::<Brand>(pass, lock, &before, &own);
    }

    /// The turn behind this one, once it is linked.
    pub fn next(&self, pass: &mut Pass, lock: u32, own: Turn) -> Option<Turn>
        requires own { pass.old.table ≡ self.now.table }
        requires may { MayStand self.now.terms lock own }
        requires stands { IfLined self.now.terms pass.old.knows
            (StandsAs pass.old.knows lock (loose own)) }
        ensures own { IsSamePass pass.old pass.new }
        ensures call { pass.new.knows
            ≡ with_call pass.old.knows (Line_call lock (Next own result)) }
        ensures turn { (u : Turn) → result ≡ Some u → IsTurn (threads self.now.terms) u }
    {
        match self.load_link::<Brand>(pass, lock, &own) {
            Some(linked) if linked.before == own.number => Some(linked.behind),
            _ => None,
        }
    }

    /// Empties the tail of the lock's line if it is this turn. Another tail stays.
    pub fn leave(&self, pass: &mut Pass, lock: u32, own: Turn) -> Leave
        requires own { pass.old.table ≡ self.now.table }
        requires may { MayStand self.now.terms lock own }
        requires stands { IfLined self.now.terms pass.old.knows
            (StandsAs pass.old.knows lock (loose own)) }
        ensures own { IsSamePass pass.old pass.new }
        ensures call { pass.new.knows
            ≡ with_call pass.old.knows (Line_call lock (Leave_call own result)) }
        ensures turn { (u : Turn) → result ≡ Followed (Some u) → IsTurn (threads self.now.terms) u }
    {
        match self.clear_tail::<Brand>(pass, lock, &own) {
            Some(last) if last == own => Leave::Left,
            tail => Leave::Followed(tail),
        }
    }

    fn swap_tail<J: Asking>(&self, pass: &mut Pass, lock: u32, turn: &Turn) -> Option<Turn>
        requires own { pass.old.table ≡ self.now.table }
        requires may { MayStand self.now.terms lock turn.now }
        requires stands { IfLined self.now.terms pass.old.knows
            (EntersAs pass.old.knows lock turn.now) }
        requires asked { IsAsked (threads self.now.terms) lock (Ask_enter turn.now)
            J.threads J.lock J.ask }
        ensures own { IsSamePass pass.old pass.new }
        ensures tail { IsTail (threads self.now.terms) result }
        ensures call { pass.new.knows
            ≡ with_call pass.old.knows (Line_call lock (enter_call turn.now result)) }
    {
        let place = self.tail_of(lock);
        let words = &self.board.shared;
        let word = words.swap::<Line<J>>(&mut pass.seat, place, turn.to_word());
        Turn::from_word(word)
    }

    fn store_link<J: Asking>(&self, pass: &mut Pass, lock: u32, before: &Turn, own: &Turn)
        requires own { pass.old.table ≡ self.now.table }
        requires may { MayLinkAt self.now.terms pass.old.knows lock before.now own.now }
        requires stands { IfLined self.now.terms pass.old.knows
            (LinksAs pass.old.knows lock own.now) }
        requires asked { IsAsked (threads self.now.terms) lock (Ask_link before.now own.now)
            J.threads J.lock J.ask }
        ensures own { IsSamePass pass.old pass.new }
        ensures call { pass.new.knows
            ≡ with_call pass.old.knows (Line_call lock (Link before.now own.now)) }
    {
        let link = Linked {
            before: before.number,
            behind: *own,
        };
        let place = self.link_of(lock, before.thread);
        let words = &self.board.shared;
        words.store::<Line<J>>(&mut pass.seat, place, link.to_word());
    }

    fn load_link<J: Asking>(&self, pass: &mut Pass, lock: u32, own: &Turn) -> Option<Linked>
        requires own { pass.old.table ≡ self.now.table }
        requires may { MayStand self.now.terms lock own.now }
        requires stands { IfLined self.now.terms pass.old.knows
            (StandsAs pass.old.knows lock (loose own.now)) }
        requires asked { IsAsked (threads self.now.terms) lock (Ask_next own.now)
            J.threads J.lock J.ask }
        ensures own { IsSamePass pass.old pass.new }
        ensures link { IsLink (threads self.now.terms) result }
        ensures call { pass.new.knows
            ≡ with_call pass.old.knows (Line_call lock (next_call own.now result)) }
    {
        let place = self.link_of(lock, own.thread);
        let words = &self.board.shared;
        let word = words.load::<Line<J>>(&mut pass.seat, place);
        Linked::from_word(word)
    }

    fn clear_tail<J: Asking>(&self, pass: &mut Pass, lock: u32, own: &Turn) -> Option<Turn>
        requires own { pass.old.table ≡ self.now.table }
        requires may { MayStand self.now.terms lock own.now }
        requires stands { IfLined self.now.terms pass.old.knows
            (StandsAs pass.old.knows lock (loose own.now)) }
        requires asked { IsAsked (threads self.now.terms) lock (Ask_leave own.now)
            J.threads J.lock J.ask }
        ensures own { IsSamePass pass.old pass.new }
        ensures tail { IsTail (threads self.now.terms) result }
        ensures call { pass.new.knows
            ≡ with_call pass.old.knows (Line_call lock (leave_call own.now result)) }
    {
        let place = self.tail_of(lock);
        let words = &self.board.shared;
        let word = words.compare_exchange::<Line<J>>(&mut pass.seat, place, own.to_word(), 0);
        Turn::from_word(word)
    }
}
