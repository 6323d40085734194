//! Why a history is rejected, and where.

ghost use Rattle.std.specs.Prelude.{◌≡◌};
ghost use Rattle.tc_replay.specs.Reasons.{reason_number, reason_name};
ghost use Rattle.tc_replay.specs.declared.reason.Take.TheVariants.{OutOfMemory};

use std::alloc::AllocError;

/// Why a history is rejected. Of several reasons the first in this list is reported.
#[derive(Clone, Copy, Debug, PartialEq, Eq)]
pub enum Reason {
    /// The text is not that of a history.
    Text,
    /// There is no such thread, or it has ended.
    Thread,
    /// The first step takes a lock that has an owner.
    Owner,
    /// The steps, the held set, the `pc` or the end are not those of the thread's block.
    Block,
    /// The kind is not that of the block, or the batch rule does not allow it.
    Kind,
    /// There is no such worker.
    Worker,
    /// A thread has not ended.
    Incomplete,
}

impl Reason {
    /// The number of a reason, from 1.
    #[tactic(auto, unfolding(crate::specs::Reasons::reason_number))]
    pub fn number(self) -> u32
        ensures { result ≡ reason_number self }
    {
        match self {
            Reason::Text => 1,
            Reason::Thread => 2,
            Reason::Owner => 3,
            Reason::Block => 4,
            Reason::Kind => 5,
            Reason::Worker => 6,
            Reason::Incomplete => 7,
        }
    }

    /// The name of a reason, as it is printed.
    #[tactic(auto, unfolding(crate::specs::Reasons::reason_name))]
    pub fn name(self) -> &'static str
        ensures { result.now ≡ reason_name self }
    {
        match self {
            Reason::Text => "Text",
            Reason::Thread => "Thread",
            Reason::Owner => "Owner",
            Reason::Block => "Block",
            Reason::Kind => "Kind",
            Reason::Worker => "Worker",
            Reason::Incomplete => "Incomplete",
        }
    }
}

/// The first place at which something is wrong with a history.
#[derive(Clone, Copy, Debug, PartialEq, Eq)]
pub struct Rejected {
    /// The number of the block's line, from 1; if the history ends too early, the number of the
    /// missing line.
    pub line: u64,
    pub reason: Reason,
}

/// Why a block was not taken.
#[derive(Clone, Copy, Debug, PartialEq, Eq)]
pub enum Take {
    /// The block is wrong for this reason, or an earlier one was.
    Wrong(Reason),
    /// There was no memory to run the block. It may be given again.
    OutOfMemory,
}

impl From<AllocError> for Take {
    ghost from_gives = { λ _ e. e ≡ OutOfMemory };

    fn from(_: AllocError) -> Self {
        Take::OutOfMemory
    }
}
