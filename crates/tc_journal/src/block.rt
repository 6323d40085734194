//! What a block of a history is.

ghost use Rattle.std.specs.Prelude.{◌≡◌};
ghost use Rattle.tc_journal.specs.Told.{with_pc};

use tc_isa::fault::Fault;
use tc_isa::held::Held;

/// How a block began.
#[derive(Clone, Copy, Debug, PartialEq, Eq)]
pub enum Kind {
    /// The first block of its thread, without a lock taken.
    Start,
    /// A later block, without a lock taken.
    On,
    /// Its first step took a lock that nobody passed on.
    Taken,
    /// Its first step took a lock for a waiter, run by the worker that released the lock.
    Adopted,
    /// Its first step took a lock that was passed on to a waiter, for any worker to run.
    Granted,
}

/// How a block ended.
#[derive(Clone, Copy, Debug, PartialEq, Eq)]
pub enum End {
    /// The next step takes the lock of this number.
    Wants(u32),
    /// The last step released the lock of this number.
    Unlocked(u32),
    /// The last step was a SLEEP.
    Slept,
    /// The block has as many steps as a block may have.
    Cut,
    /// The thread exited.
    Exit,
    /// The thread was ended by a fault.
    Fault(Fault),
    /// The thread had no fuel left.
    Spent,
}

/// A block: consecutive steps (turns) of one thread that one worker ran.
#[derive(Clone, Copy, Debug, PartialEq, Eq)]
pub struct Block {
    /// Its place in the history, from 0.
    pub stamp: u64,
    /// The number of its thread.
    pub thread: u32,
    /// How many steps it has.
    pub turns: u32,
    /// The locks that its thread held before its first step, and the one that its first step took.
    pub held: Held,
    pub kind: Kind,
    /// The number of the worker that ran it.
    pub worker: u32,
    /// The thread's `pc` before its first step.
    pub pc: u32,
    pub end: End,
}

/// A block as it was printed before its line had a `pc`: the other fields of `Block`.
#[derive(Clone, Copy, Debug, PartialEq, Eq)]
pub struct BlockV1 {
    pub stamp: u64,
    pub thread: u32,
    pub turns: u32,
    pub held: Held,
    pub kind: Kind,
    pub worker: u32,
    pub end: End,
}

impl BlockV1 {
    /// The same block with its `pc`.
    pub fn with_pc(self, pc: u32) -> Block
        ensures { result ≡ with_pc self pc }
    {
        Block {
            stamp: self.stamp,
            thread: self.thread,
            turns: self.turns,
            held: self.held,
            kind: self.kind,
            worker: self.worker,
            pc,
            end: self.end,
        }
    }
}
