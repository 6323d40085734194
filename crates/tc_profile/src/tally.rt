//! The numbers of one lock and of one thread, updated by each block.

ghost use Rattle.std.specs.Prelude.{◌≡◌, [], true, if◌then◌else◌};
ghost use Rattle.tc_journal.specs.Batch.{is_adopted};
ghost use Rattle.tc_profile.specs.Profile as profile;
ghost use Rattle.tc_profile.specs.Tally as tally;

use tc_journal::block::{Block, Kind};

/// The numbers of a lock in a history. A section's home worker is the one that ran its thread's
/// previous block, or its own worker if there is none.
#[derive(Clone, Copy, Debug, PartialEq, Eq)]
pub struct LockProfile {
    /// How many sections it had.
    pub sections: u64,
    /// How many of them were taken.
    pub taken: u64,
    /// How many were adopted.
    pub adopted: u64,
    /// How many were granted.
    pub granted: u64,
    /// The longest streak: the greatest number of consecutive adopted sections.
    pub longest: u64,
    /// Changes of worker: how many sections, from the second on, began on another worker than the
    /// lock's block before.
    pub changes: u64,
    /// How often the home worker differs between consecutive sections: so often the worker would
    /// have changed, had each section run where its thread ran last.
    pub home: u64,
}

/// The numbers of a thread in a history.
#[derive(Clone, Copy, Debug, PartialEq, Eq)]
pub struct ThreadProfile {
    /// How many blocks it had.
    pub blocks: u64,
    /// How many steps they had.
    pub turns: u64,
    /// How many of them, from the second on, had another worker than the block before.
    pub moves: u64,
}

/// The numbers of a lock, its streak of adopted sections, the worker of its last block, and the home
/// worker of its last section.
#[derive(Clone, Copy, Debug, PartialEq, Eq)]
pub struct LockTally {
    pub(crate) numbers: LockProfile,
    pub(crate) streak: u64,
    pub(crate) last: Option<u32>,
    pub(crate) home: Option<u32>,
}

/// The numbers of a thread, and the worker of its last block.
#[derive(Clone, Copy, Debug, PartialEq, Eq)]
pub struct ThreadTally {
    pub(crate) numbers: ThreadProfile,
    pub(crate) last: Option<u32>,
}

/// A count, incremented if there is one more.
fn plus(more: bool, count: u64) -> u64
    ensures { result ≡ tally.plus more count }
{
    if more { count.saturating_add(1) } else { count }
}

/// Whether there is such a worker, and it is another one.
fn is_other(last: Option<u32>, worker: u32) -> bool
    ensures { result ≡ profile.is_other last worker }
{
    match last {
        None => false,
        Some(before) => before != worker,
    }
}

/// The streak after a section of this kind.
fn streak_after(kind: Kind, streak: u64) -> u64
    ensures { result ≡ (if is_adopted kind then tally.plus true streak else 0) }
{
    if kind == Kind::Adopted {
        plus(true, streak)
    } else {
        0
    }
}

impl LockTally {
    /// The numbers of a lock in an empty history.
    pub fn new() -> LockTally
        ensures { result ≡ tally.lock_tally [] 0 }
    {
        LockTally {
            numbers: LockProfile {
                sections: 0,
                taken: 0,
                adopted: 0,
                granted: 0,
                longest: 0,
                changes: 0,
                home: 0,
            },
            streak: 0,
            last: None,
            home: None,
        }
    }

    /// Adds a section, begun by this block, with this home worker.
    fn begin(self, block: &Block, home: u32) -> LockTally
        ensures { result ≡ tally.with_section block.now home self }
    {
        let LockProfile {
            sections,
            taken,
            adopted,
            granted,
            longest,
            changes,
            home: homes,
        } = self.numbers;
        let streak = streak_after(block.kind, self.streak);
        LockTally {
            numbers: LockProfile {
                sections: plus(true, sections),
                taken: plus(block.kind == Kind::Taken, taken),
                adopted: plus(block.kind == Kind::Adopted, adopted),
                granted: plus(block.kind == Kind::Granted, granted),
                longest: longest.max(streak),
                changes: plus(sections > 0 && is_other(self.last, block.worker), changes),
                home: plus(is_other(self.home, home), homes),
            },
            streak,
            last: self.last,
            home: Some(home),
        }
    }

    /// Adds one block of the lock, with this home worker.
    pub fn with_block(self, lock: u32, block: &Block, home: u32) -> LockTally
        ensures { result ≡ tally.lock_after lock block.now home self }
    {
        let mut now = if block.begins(lock) {
            self.begin(block, home)
        } else {
            self
        };
        now.last = Some(block.worker);
        now
    }
}

impl ThreadTally {
    /// The numbers of a thread in an empty history.
    pub fn new() -> ThreadTally
        ensures { result ≡ tally.thread_tally [] 0 }
    {
        ThreadTally {
            numbers: ThreadProfile {
                blocks: 0,
                turns: 0,
                moves: 0,
            },
            last: None,
        }
    }

    /// Adds one block of the thread.
    pub fn with_block(self, block: &Block) -> ThreadTally
        ensures { result ≡ tally.thread_after block.now self }
    {
        let ThreadProfile {
            blocks,
            turns,
            moves,
        } = self.numbers;
        ThreadTally {
            numbers: ThreadProfile {
                blocks: plus(true, blocks),
                turns: turns.saturating_add(u64::from(block.turns)),
                moves: plus(is_other(self.last, block.worker), moves),
            },
            last: Some(block.worker),
        }
    }

    /// The home worker of the thread's next block.
    pub fn home(&self, block: &Block) -> u32
        ensures { result ≡ tally.home_in self.now.last block.now }
    {
        self.last.unwrap_or(block.worker)
    }
}
