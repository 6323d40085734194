//! What the records of a block have in common, whichever of its locks they are of.

ghost use Rattle.std.specs.Prelude.{◌≡◌};
ghost use Rattle.tc_segment.specs.Draft.{drafted, end_of, ending_of};

use tc_isa::fault::Fault;
use tc_isa::held::Held;
use tc_journal::block::{Block, End, Kind};

/// How a block ended, in two bytes: the number of a lock takes one.
#[derive(Clone, Copy)]
pub(crate) enum Ending {
    Wants(u8),
    Unlocked(u8),
    Slept,
    Cut,
    Exit,
    Fault(Fault),
    Spent,
}

/// What the records of a block have in common, made once for all its locks. A number that is
/// greater than any lawful block has is cut.
#[derive(Clone, Copy)]
pub struct Draft {
    pub(crate) stamp: u64,
    pub(crate) thread: u32,
    pub(crate) held: Held,
    pub(crate) worker: u32,
    pub(crate) pc: u32,
    pub(crate) turns: u16,
    pub(crate) ending: Ending,
    pub(crate) kind: Kind,
}

impl Ending {
    /// This end, with the low byte of a lock's number.
    fn of(end: End) -> Ending
        ensures { result ≡ ending_of end }
    {
        match end {
            End::Wants(lock) => Ending::Wants((lock % 256) as u8),
            End::Unlocked(lock) => Ending::Unlocked((lock % 256) as u8),
            End::Slept => Ending::Slept,
            End::Cut => Ending::Cut,
            End::Exit => Ending::Exit,
            End::Fault(fault) => Ending::Fault(fault),
            End::Spent => Ending::Spent,
        }
    }

    /// The end of which it is made, if the number of its lock is below 256.
    pub(crate) fn end(self) -> End
        ensures { result ≡ end_of self }
    {
        match self {
            Ending::Wants(lock) => End::Wants(u32::from(lock)),
            Ending::Unlocked(lock) => End::Unlocked(u32::from(lock)),
            Ending::Slept => End::Slept,
            Ending::Cut => End::Cut,
            Ending::Exit => End::Exit,
            Ending::Fault(fault) => End::Fault(fault),
            Ending::Spent => End::Spent,
        }
    }
}

impl Draft {
    /// The draft of this block.
    pub fn of(block: &Block) -> Draft
        ensures { result ≡ drafted block.now }
    {
        Draft {
            stamp: block.stamp,
            thread: block.thread,
            held: block.held,
            worker: block.worker,
            pc: block.pc,
            turns: (block.turns % 65_536) as u16,
            ending: Ending::of(block.end),
            kind: block.kind,
        }
    }
}
