//! A line of waiting turns, each with the node on which it waits.

ghost use Rattle.std.specs.Prelude.{◌≡◌, ◌≢◌, [], IfOk, MatchBool, vec_capacity};
ghost use Rattle.tc_nodes.specs.Line.{IsLetIn, IsRefused, IsSteady, LineView, MayLineUp, arrived, has_turn, line_after, line_without, picked, with_waiting};

use std::alloc::{AllocError, Global};
use std::marker::Model;
use tc_queue::Turn;

/// A turn that waits, with the node on which it waits, and how often it was passed over: how often
/// a turn that came after it was picked.
#[derive(Clone, Copy, Drop)]
pub struct Waiter {
    pub turn: Turn,
    pub node: u32,
    pub passes: u32,
}

/// The waiting turns in the order in which they came.
#[derive(Drop)]
pub struct Line {
    threads: u32,
    bound: u32,
    waiting: Vec<Waiter>,
}

impl Model for Line {
    ghost use Rattle.std.specs.Prelude.{vec_capacity};
    ghost use Rattle.tc_nodes.specs.Line.{LineView, IsLine, line_view};

    ghost Value = { LineView };

    ghost view = { λ l. line_view l.threads l.bound l.waiting.items };

    ghost invariant = { λ l. IsLine l.threads l.bound (vec_capacity l.waiting) l.waiting.items };
}

impl Line {
    /// An empty line for so many threads. Nobody in it is passed over more often than the bound
    /// says; with bound 0 nobody is at all.
    pub fn new(alloc: Global, threads: u32, bound: u32) -> Result<Line, AllocError>
        requires { MayLineUp threads bound }
        ensures { IfOk result (λ l. l ≡ record { threads = threads; bound = bound; waiting = [] }) }
    {
        let waiting = Vec::with_capacity(alloc, threads as usize)?;
        Ok(Line {
            threads,
            bound,
            waiting,
        })
    }

    /// Whether nobody waits.
    pub fn is_empty(&self) -> bool
        ensures { MatchBool result (self.now.waiting ≡ []) (self.now.waiting ≢ []) }
    {
        self.waiting.is_empty()
    }

    /// Whether the turn waits.
    fn has(&self, turn: Turn) -> bool
        ensures { result ≡ has_turn turn self.now.waiting }
    {
        for waiter in &self.waiting {
            if turn == waiter.turn {
                return true;
            }
        }
        false
    }

    /// Puts the turn at the end of the line and answers true. It does nothing and answers false if
    /// and only if the turn waits already or as many turns wait as there are threads.
    #[tactic(auto, using(crate::proofs::Steady::steady_more))]
    pub fn arrive(&mut self, turn: Turn, node: u32) -> bool
        ensures line { self.new ≡ arrived turn node self.old }
        ensures answer { MatchBool result (IsLetIn turn self.old) (IsRefused turn self.old) }
    {
        if self.waiting.len() == self.threads as usize || self.has(turn) {
            return false;
        }
        self.waiting.push_reserved(Waiter {
            turn,
            node,
            passes: 0,
        });
        true
    }

    /// Whom a holder on this node has to pick: the oldest waiter if it was passed over as often as
    /// the bound allows, else the oldest of this node, else the oldest.
    fn chosen(&self, node: u32) -> Option<Turn>
        ensures { result ≡ picked self.now.bound node self.now.waiting }
    {
        let oldest = *self.waiting.first()?;
        if oldest.passes == self.bound {
            return Some(oldest.turn);
        }
        for waiter in &self.waiting {
            if waiter.node == node {
                return Some(waiter.turn);
            }
        }
        Some(oldest.turn)
    }

    /// Takes out the turn that a holder on this node has to pick. None: nobody waits.
    #[tactic(auto, using(crate::proofs::Steady::looser))]
    pub fn pick(&mut self, node: u32) -> Option<Turn>
        ensures answer { result ≡ picked self.old.bound node self.old.waiting }
        ensures line { self.new ≡ with_waiting (line_after result self.old.waiting) self.old }
    {
        let turn = self.chosen(node)?;
        take_out(&mut self.waiting, turn);
        Some(turn)
    }
}

/// Takes the turn out of the line, and counts a bypass for each turn before it.
#[tactic(auto, using(crate::proofs::Steady::steady_at))]
fn take_out(waiting: &mut Vec<Waiter>, turn: Turn)
    requires few { IsSteady 256 waiting.old.items }
    ensures line { waiting.new.items ≡ line_without turn waiting.old.items }
    ensures capacity { vec_capacity waiting.new ≡ vec_capacity waiting.old }
{
    for i in 0..waiting.len() {
        if turn == waiting[i].turn {
            waiting.remove(i);
            return;
        }
        waiting[i].passes += 1;
    }
}
