//! The batch rule: which section of a lock may follow the lock's last block.

ghost use Rattle.std.specs.Prelude.{◌≡◌, ◌<◌, ◌≤◌};
ghost use Rattle.tc_isa.specs.declared.limits.TheConstants.{MAX_BATCH};
ghost use Rattle.tc_journal.specs.Batch as batch;

use crate::block::{Block, End, Kind};
use tc_isa::held::Held;

impl Kind {
    /// Whether a block of this kind begins a section.
    pub fn is_section(self) -> bool
        ensures { result ≡ batch.is_section self }
    {
        match self {
            Kind::Start | Kind::On => false,
            Kind::Taken | Kind::Adopted | Kind::Granted => true,
        }
    }
}

impl End {
    /// Whether a block with this end ended its thread.
    pub fn ends_thread(self) -> bool
        ensures { result ≡ batch.ends_thread self }
    {
        match self {
            End::Exit | End::Fault(_) | End::Spent => true,
            End::Wants(_) | End::Unlocked(_) | End::Slept | End::Cut => false,
        }
    }

    /// Whether a block with this end released the lock.
    pub(crate) fn unlocks(self, lock: u32) -> bool
        ensures { result ≡ batch.unlocks lock self }
    {
        match self {
            End::Unlocked(other) => other == lock,
            End::Wants(_) | End::Slept | End::Cut | End::Exit | End::Fault(_) | End::Spent => false,
        }
    }
}

impl Block {
    /// Whether the block, which has the lock, ended a section of it.
    pub fn ends_section(&self, lock: u32) -> bool
        ensures { result ≡ batch.ends_section lock self.now }
    {
        self.end.unlocks(lock) || self.end.ends_thread()
    }

    /// The lock that the block's first step took, if it took one.
    pub fn takes(&self) -> Option<u32>
        ensures { result ≡ batch.takes_of self.now }
    {
        if self.kind.is_section() {
            self.held.greatest()
        } else {
            None
        }
    }

    /// Whether the block begins a section of the lock.
    pub fn begins(&self, lock: u32) -> bool
        ensures { result ≡ batch.begins lock self.now }
    {
        match self.takes() {
            None => false,
            Some(taken) => lock == taken,
        }
    }
}

/// Whether a held set has this lock and no other.
fn is_only(held: Held, lock: u32) -> bool
    ensures { result ≡ batch.is_only held lock }
{
    // So it has no lock past its places.
    prove!(held.bits() <= u32::MAX);
    lock < Held::PLACES && held == Held::none().plus(lock)
}

/// Whether the worker of this last block of the lock has to go on with a waiter: the block released
/// the lock, held no other, and the streak is below the limit. `run` is the streak, the number of
/// consecutive Adopted sections of the lock. Otherwise a waiter is granted the lock.
pub fn may_adopt(block: &Block, lock: u32, run: u32, limit: u32) -> bool
    ensures { result ≡ batch.may_adopt block.now lock run limit }
{
    block.end.unlocks(lock) && is_only(block.held, lock) && run < limit
}

/// Whether a section of this kind, whose first block has this worker, may follow the last block of
/// the lock, given its streak of Adopted sections.
pub fn may_begin(
    lock: u32,
    limit: u32,
    last: Option<Block>,
    run: u32,
    kind: Kind,
    worker: u32,
) -> bool
    ensures { result ≡ batch.may_begin lock limit last run kind worker }
{
    match last {
        None => kind == Kind::Taken,
        Some(block) => match kind {
            Kind::Start | Kind::On => false,
            Kind::Taken => block.ends_section(lock),
            Kind::Adopted => may_adopt(&block, lock, run, limit) && block.worker == worker,
            Kind::Granted => block.ends_section(lock) && !may_adopt(&block, lock, run, limit),
        },
    }
}

/// Whether a section of this kind may be this thread's, given the last block of the lock: a section
/// that is passed on goes to another thread.
pub fn passes_to(last: Option<Block>, kind: Kind, thread: u32) -> bool
    ensures { result ≡ batch.passes_to last kind thread }
{
    let Some(block) = last else {
        return true;
    };
    match kind {
        Kind::Start | Kind::On | Kind::Taken => true,
        Kind::Adopted | Kind::Granted => block.thread != thread,
    }
}

/// The streak of Adopted sections after one more block.
pub fn run_after(lock: u32, run: u32, block: &Block) -> u32
    requires { run ≤ MAX_BATCH }
    ensures { result ≡ batch.run_after lock run block.now }
{
    if !block.begins(lock) {
        return run;
    }
    if block.kind == Kind::Adopted {
        run + 1
    } else {
        0
    }
}
