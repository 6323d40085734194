//! The queue of the waiters of one lock, and its seats.

ghost use Rattle.std.specs.Prelude.{◌≡◌, ◌<◌, ◌≤◌, Some, IfOk};
ghost use Rattle.tc_queue.specs.declared.turn.Turn.{Turn};
ghost use Rattle.tc_queue.specs.declared.turn.Entered.TheVariants.{Behind};
ghost use Rattle.tc_queue.specs.declared.turn.Leave.TheVariants.{Followed};
ghost use Rattle.tc_queue.specs.declared.turn.QueueCall.TheVariants.{Enter, Link, Next, Leave as Leave_call};
ghost use Rattle.tc_queue.specs.Words.{IsTurn};
ghost use Rattle.tc_queue.specs.Calls.{IsTail, IsLink, KnowsTurns, DidEnter, DidLeave, enter_call, next_call, leave_call};
ghost use Rattle.tc_queue.specs.View.{IsOpened, MayLinkBehind, seat_with};
ghost use Rattle.tc_queue.specs.Lines.{MayCall, seat_as};
ghost use Rattle.tc_queue.specs.Asked.{enter as Ask_enter, link as Ask_link};
ghost use Rattle.tc_queue.specs.Asked.{next as Ask_next, leave as Ask_leave};

use crate::board::{AddSeat, Asking, Call, QueueTable, QueueTableSeat};
use crate::turn::{Entered, Leave, Turn};
use crate::words::Linked;
use std::alloc::{AllocError, Global};
use std::marker::{Brand, Model};

/// The waiters of one lock, in the order in which they entered.
#[derive(Drop)]
pub struct Queue {
    board: QueueTable,
    threads: u32,
}

impl Model for Queue {
    ghost use Rattle.tc_queue.specs.View.{QueueView, IsTableFor};

    ghost Value = { QueueView };

    ghost view = { λ q. record { table = q.board.shared.table_id; threads = q.threads } };

    ghost invariant = { λ q. IsTableFor q.threads q.board.shared.key q.board.shared.table_id.words };
}

/// A handle through which a caller makes its calls. A seat belongs to one queue; contracts see the
/// list of calls that were made with it.
#[derive(Drop)]
pub struct QueueSeat {
    place: QueueTableSeat,
}

impl Model for QueueSeat {
    ghost use Rattle.std.specs.Prelude.{◌≡◌, []};
    ghost use Rattle.tc_queue.specs.Calls.{KnowsTurns};
    ghost use Rattle.tc_queue.specs.View.{OwnView};

    ghost Value = { OwnView };

    ghost view = { λ s. record { table = s.place.table_id; id = s.place.id; log = s.place.me.0 } };

    ghost invariant = { λ s. (s.place.me.1 ≡ []) × KnowsTurns s.place.me.0 };
}

impl QueueSeat {
    /// Invariant of a seat: a turn that `enter` answered is one of the queue's.
    pub(crate) fn knows(&self)
        ensures { KnowsTurns self.now.log }
    {
        let _place = &self.place;
    }
}

impl Queue {
    /// An empty queue for so many threads, and its seats.
    pub fn new(
        alloc: Global,
        threads: u32,
        seats: u32,
    ) -> Result<(Queue, Vec<QueueSeat>), AllocError>
        requires threads { (0 < threads) × (threads ≤ 64) }
        requires seats { 0 < seats }
        ensures { IfOk result (λ made. IsOpened threads seats made.0 made.1.items) }
    {
        let mut made = Vec::with_capacity(alloc, seats as usize)?;
        let words = Vec::from_elem(alloc, 0u64, threads as usize + 1)?;
        let (board, mut first) = QueueTable::of_words(alloc, words.as_slice(), &threads)?;
        for seated in 1..seats {
            let place = board.shared.split_seat::<AddSeat>(&mut first);
            made.push_reserved(QueueSeat { place });
        }
        made.push_reserved(QueueSeat { place: first });
        Ok((Queue { board, threads }, made))
    }

    /// The number of threads that it was made for.
    pub fn threads(&self) -> u32
        ensures threads { result ≡ self.now.threads }
        ensures few { result ≤ 64 }
    {
        self.threads
    }

    /// Puts the turn at the tail. It is then behind the turn that was there, or the first if there
    /// was none.
    pub fn enter(&self, seat: &mut QueueSeat, turn: Turn) -> Entered
        requires { MayCall self.now (seat_as seat.old) turn }
        ensures call { seat.new ≡ seat_with seat.old (Enter turn result) }
        ensures step { DidEnter self.now.threads turn result seat.old.log seat.new.log }
        ensures behind { (u : Turn) → result ≡ Behind u → IsTurn self.now.threads u }
    {
        match self.swap_tail::<Brand>(seat, &turn) {
            None => Entered::First,
            Some(before) => Entered::Behind(before),
        }
    }

    /// Links this turn behind the one before it.
    pub fn link(&self, seat: &mut QueueSeat, before: Turn, own: Turn)
        requires { MayLinkBehind self.now seat.old before own }
        ensures call { seat.new ≡ seat_with seat.old (Link before own) }
    {
        self.store_link::<Brand>(seat, &before, &own);
    }

    /// The turn behind this one, once it is linked.
    pub fn next(&self, seat: &mut QueueSeat, own: Turn) -> Option<Turn>
        requires { MayCall self.now (seat_as seat.old) own }
        ensures call { seat.new ≡ seat_with seat.old (Next own result) }
        ensures turn { (u : Turn) → result ≡ Some u → IsTurn self.now.threads u }
    {
        match self.load_link::<Brand>(seat, &own) {
            Some(linked) if linked.before == own.number => Some(linked.behind),
            _ => None,
        }
    }

    /// Empties the tail if it is this turn. Another tail stays.
    pub fn leave(&self, seat: &mut QueueSeat, own: Turn) -> Leave
        requires { MayCall self.now (seat_as seat.old) own }
        ensures call { seat.new ≡ seat_with seat.old (Leave_call own result) }
        ensures step { DidLeave self.now.threads own result seat.old.log seat.new.log }
        ensures turn { (u : Turn) → result ≡ Followed (Some u) → IsTurn self.now.threads u }
    {
        match self.clear_tail::<Brand>(seat, &own) {
            Some(last) if last == own => Leave::Left,
            tail => Leave::Followed(tail),
        }
    }

    fn swap_tail<J: Asking>(&self, seat: &mut QueueSeat, turn: &Turn) -> Option<Turn>
        requires may { MayCall self.now (seat_as seat.old) turn.now }
        requires asked { J.ask ≡ Ask_enter turn.now }
        ensures tail { IsTail self.now.threads result }
        ensures call { seat.new ≡ seat_with seat.old (enter_call turn.now result) }
    {
        let word = self
            .board
            .shared
            .swap::<Call<J>>(&mut seat.place, 0, turn.to_word());
        Turn::from_word(word)
    }

    fn store_link<J: Asking>(&self, seat: &mut QueueSeat, before: &Turn, own: &Turn)
        requires may { MayLinkBehind self.now seat.old before.now own.now }
        requires asked { J.ask ≡ Ask_link before.now own.now }
        ensures call { seat.new ≡ seat_with seat.old (Link before.now own.now) }
    {
        let link = Linked {
            before: before.number,
            behind: *own,
        };
        let place = before.thread as usize + 1;
        self.board
            .shared
            .store::<Call<J>>(&mut seat.place, place, link.to_word());
    }

    fn load_link<J: Asking>(&self, seat: &mut QueueSeat, own: &Turn) -> Option<Linked>
        requires may { MayCall self.now (seat_as seat.old) own.now }
        requires asked { J.ask ≡ Ask_next own.now }
        ensures link { IsLink self.now.threads result }
        ensures call { seat.new ≡ seat_with seat.old (next_call own.now result) }
    {
        let place = own.thread as usize + 1;
        let word = self.board.shared.load::<Call<J>>(&mut seat.place, place);
        Linked::from_word(word)
    }

    fn clear_tail<J: Asking>(&self, seat: &mut QueueSeat, own: &Turn) -> Option<Turn>
        requires may { MayCall self.now (seat_as seat.old) own.now }
        requires asked { J.ask ≡ Ask_leave own.now }
        ensures tail { IsTail self.now.threads result }
        ensures call { seat.new ≡ seat_with seat.old (leave_call own.now result) }
    {
        let shared = &self.board.shared;
        let word = shared.compare_exchange::<Call<J>>(&mut seat.place, 0, own.to_word(), 0);
        Turn::from_word(word)
    }
}
