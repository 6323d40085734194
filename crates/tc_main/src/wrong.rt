//! Why there is no text for what is asked.

ghost use Rattle.std.specs.Prelude.{◌≡◌};
ghost use Rattle.tc_main.specs.declared.wrong.Wrong.TheVariants.{OutOfMemory};

use std::alloc::AllocError;
use tc_elf::refusal::Refusal;
use tc_replay::reason::Rejected;

/// Why there is no text for what is asked of the bytes that were read.
#[derive(Clone, Copy, Debug, PartialEq, Eq)]
pub enum Wrong {
    /// They end before the guest's file does.
    Short,
    /// The guest's file is refused, for a reason other than memory.
    File(Refusal),
    /// The history is rejected.
    History(Rejected),
    /// Memory ran out.
    OutOfMemory,
}

impl From<AllocError> for Wrong {
    ghost from_gives = { λ _ e. e ≡ OutOfMemory };

    fn from(_: AllocError) -> Self {
        Wrong::OutOfMemory
    }
}
