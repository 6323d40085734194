//! The sleepers.

ghost use Rattle.std.specs.Prelude.{◌≡◌, ◌<◌, Some, None, length, replicate, slice_set, IfOk, MatchOption};
ghost use Rattle.tc_park.specs.Order.{Sleeps, IsFirstOf, IsFirstDue, IsEarlier, NoneIsDue, NoneSleeps, IsLeast, without};

use std::alloc::{AllocError, Global};
use std::marker::Model;

#[cfg(test)]
mod tests;

/// A thread that sleeps, and the turn at which it is due.
#[derive(Clone, Copy)]
pub(crate) struct Sleeper {
    pub(crate) thread: u32,
    pub(crate) due: u64,
}

/// Threads that sleep.
#[derive(Drop)]
pub struct Sleepers {
    due: Vec<Option<u64>>,
    room: u32,
    // The first of them, and whether another may sleep beside it.
    first: Option<Sleeper>,
    others: bool,
}

impl Model for Sleepers {
    ghost use Rattle.std.specs.Prelude.{ℕ, List, Option};
    ghost use Rattle.tc_park.specs.Order.{IsKept};

    ghost Value = { List (Option ℕ) };

    ghost view = { λ s. s.due.items };

    ghost invariant = { λ s. IsKept s.room s.due.items s.first s.others };
}

impl Sleepers {
    /// No sleepers yet, and a place for each of so many threads.
    pub fn new(alloc: Global, room: u32) -> Result<Sleepers, AllocError>
        ensures { IfOk result (λ s. s ≡ replicate room None) }
    {
        let due = Vec::from_elem(alloc, None, room as usize)?;
        Ok(Sleepers {
            due,
            room,
            first: None,
            others: false,
        })
    }

    /// The number of threads that it was made for.
    pub fn room(&self) -> u32
        ensures { result ≡ length self.now }
    {
        self.room
    }

    /// The thread sleeps until this turn, whatever it did before.
    pub fn add(&mut self, thread: u32, due: u64)
        requires { thread < length self.old }
        ensures { self.new ≡ slice_set self.old thread (Some due) }
    {
        let slept = self.due[thread as usize].is_some();
        self.due[thread as usize] = Some(due);
        if slept {
            self.first = first_in(&self.due, self.room);
            self.others = true;
        } else {
            self.others = self.first.is_some();
            self.first = Some(earlier(self.first, thread, due));
        }
    }

    /// Removes the first sleeper, if it is due by now.
    pub fn due(&mut self, now: u64) -> Option<u32>
        ensures taken { self.new ≡ without result self.old }
        ensures first { MatchOption result (NoneIsDue now self.old) (λ t. IsFirstDue now self.old t) }
    {
        let sleeper = self.first?;
        if now < sleeper.due {
            return None;
        }
        self.due[sleeper.thread as usize] = None;
        self.first = if self.others {
            first_in(&self.due, self.room)
        } else {
            None
        };
        Some(sleeper.thread)
    }

    /// The turn at which the first sleeper is due.
    pub fn least(&self) -> Option<u64>
        ensures { MatchOption result (NoneSleeps self.now) (IsLeast self.now) }
    {
        match self.first {
            Some(sleeper) => Some(sleeper.due),
            None => None,
        }
    }
}

/// The first of the sleepers, which have so many places.
fn first_in(due: &[Option<u64>], room: u32) -> Option<Sleeper>
    requires { length due.now ≡ room }
    ensures { IsFirstOf (Sleeps due.now) result }
{
    let mut first: Option<Sleeper> = None;
    for thread in 0..room {
        if let Some(turn) = due[thread as usize] {
            first = Some(earlier(first, thread, turn));
        }
    }
    first
}

/// The first of a sleeper, if there is one, and this thread that sleeps until this turn.
fn earlier(first: Option<Sleeper>, thread: u32, due: u64) -> Sleeper
    ensures { IsEarlier first thread due result }
{
    match first {
        Some(sleeper) if sleeper.due < due => sleeper,
        Some(sleeper) if sleeper.due == due && sleeper.thread <= thread => sleeper,
        _ => Sleeper { thread, due },
    }
}
