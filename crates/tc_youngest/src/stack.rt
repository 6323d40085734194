//! Who waits for a lock, and who is served.

ghost use Rattle.std.specs.Prelude.{◌≡◌, ◌<◌, ◌++◌, ◌∷◌, ◌==◌, [], IfOk, length, map, Some, vec_capacity};
ghost use Rattle.tc_queue.specs.declared.turn.Turn.{Turn};
ghost use Rattle.tc_queue.specs.Words.{IsTurn};
ghost use Rattle.tc_youngest.specs.Stack.{WereSpared, newcomer, passed_over, served};

use std::alloc::{AllocError, Global};
use std::marker::Model;
use tc_queue::Turn;

/// The most turns that a stack has room for.
const ROOM: usize = 64;

/// A turn that waits, and how often it may still be passed over.
#[derive(Clone, Copy, Drop)]
pub struct Stacked {
    pub turn: Turn,
    pub left: u32,
}

/// The waiting turns, the oldest first, and how many threads are there: the one that has the lock,
/// those that wait, and those about to wait.
#[derive(Drop)]
pub struct Stack {
    bound: u32,
    present: u32,
    waiting: Vec<Stacked>,
}

impl Model for Stack {
    ghost use Rattle.std.specs.Prelude.{vec_capacity};
    ghost use Rattle.tc_youngest.specs.Stack.{StackView, IsStack, stack_view};

    ghost Value = { StackView };

    ghost view = { λ s. stack_view s.bound s.present s.waiting.items };

    ghost invariant = { λ s. IsStack s.bound (vec_capacity s.waiting) s.waiting.items };
}

impl Stack {
    /// An empty stack. A turn may be passed over as often as the bound says.
    pub(crate) fn new(alloc: Global, bound: u32) -> Result<Stack, AllocError>
        ensures { IfOk result (λ s. s ≡ record { bound = bound; present = 0; waiting = [] }) }
    {
        let waiting = Vec::with_capacity(alloc, ROOM)?;
        Ok(Stack {
            bound,
            present: 0,
            waiting,
        })
    }

    /// Counts one more thread. It answers whether that is the first, which has the lock.
    pub(crate) fn enter(&mut self) -> bool
        ensures first { result ≡ (self.old.present == 0) }
        ensures waiting { self.new.waiting ≡ self.old.waiting }
    {
        let first = self.present == 0;
        self.present = self.present.saturating_add(1);
        first
    }

    /// Puts a turn on the stack.
    pub(crate) fn link(&mut self, turn: Turn)
        requires { IsTurn 64 turn }
        ensures { length self.old.waiting < 64
            → self.new.waiting ≡ self.old.waiting ++ newcomer turn self.old.bound ∷ [] }
    {
        if self.waiting.len() < ROOM {
            let left = self.bound;
            self.waiting.push_reserved(Stacked { turn, left });
        }
    }

    /// Serves the oldest turn if it may not be passed over again, else the youngest. The thread
    /// that had the lock is gone.
    pub(crate) fn next(&mut self) -> Option<Turn>
        ensures order { (result, self.new.waiting) ≡ served self.old.waiting }
        ensures bound { WereSpared self.old.waiting self.new.waiting }
        ensures turn { (u : Turn) → result ≡ Some u → IsTurn 64 u }
    {
        let oldest = *self.waiting.first()?;
        self.present = self.present.saturating_sub(1);
        if oldest.left == 0 {
            self.waiting.remove(0);
            return Some(oldest.turn);
        }
        let youngest = self.waiting.pop()?;
        pass_over(&mut self.waiting);
        Some(youngest.turn)
    }

    /// Leaves, if nobody else is there, and says whether it left.
    pub(crate) fn leave(&mut self) -> bool
        ensures alone { result ≡ (self.old.present == 1) }
        ensures waiting { self.new.waiting ≡ self.old.waiting }
    {
        let alone = self.present == 1;
        if alone {
            self.present = 0;
        }
        alone
    }
}

/// Counts a bypass for each turn.
fn pass_over(waiting: &mut Vec<Stacked>)
    ensures passed { waiting.new.items ≡ map passed_over waiting.old.items }
    ensures capacity { vec_capacity waiting.new ≡ vec_capacity waiting.old }
{
    for i in 0..waiting.len() {
        let waiter = &mut waiting[i];
        waiter.left = waiter.left.saturating_sub(1);
    }
}
