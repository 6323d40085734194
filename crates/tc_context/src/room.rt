//! Room for blocks that are to come.

ghost use Rattle.std.specs.Prelude.{◌≡◌, ◌-◌, ◌<◌, ◌≤◌, true};
ghost use Rattle.tc_isa.specs.declared.limits.TheConstants.{MAX_TURNS};
ghost use Rattle.tc_context.specs.Locks.{Gives, IsWithin};

use tc_isa::limits::MAX_TURNS;
use tc_segment::state::LockState;

/// For how many entries there is room in each lock of a package, and for how many foreign words. So
/// one look tells of all locks whether the next block has room.
#[derive(Clone, Copy)]
pub(crate) struct Room {
    pub(crate) entries: usize,
    pub(crate) words: usize,
}

impl Room {
    /// None at all.
    pub(crate) fn none() -> Room
        ensures { result ≡ record { entries = 0; words = 0 } }
    {
        Room {
            entries: 0,
            words: 0,
        }
    }

    /// Room for so many entries, with any words.
    pub(crate) fn of(entries: usize) -> Room
        ensures { result.entries ≡ entries }
    {
        Room {
            entries,
            words: u32::MAX as usize,
        }
    }

    /// Whether the next block has room.
    pub(crate) fn is_enough(&self) -> bool
        ensures { result ≡ true → (0 < self.now.entries) × (MAX_TURNS ≤ self.now.words) }
    {
        self.entries > 0 && self.words >= MAX_TURNS as usize
    }

    /// What is left of it behind a block of so many turns, which notes one word a turn at most.
    pub(crate) fn behind(&self, turns: u32) -> Room
        ensures { result ≡ record { entries = self.now.entries - 1; words = self.now.words - turns } }
    {
        Room {
            entries: self.entries.saturating_sub(1),
            words: self.words.saturating_sub(turns as usize),
        }
    }

    /// So much of it as is in this lock too.
    pub(crate) fn with(&self, lock: &LockState) -> Room
        ensures lock { Gives result lock.now }
        ensures rest { IsWithin result self.now }
    {
        Room {
            entries: self.entries.min(lock.entry_room()),
            words: self.words.min(lock.word_room()),
        }
    }
}
