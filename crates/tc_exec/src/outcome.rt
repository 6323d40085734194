//! What an instruction loads, and what it does.

ghost use Rattle.std.specs.Prelude.{◌≡◌};
ghost use Rattle.tc_exec.specs.InPlace.{act_from};

use tc_elf::image::Region;
use tc_isa::fault::Fault;
use tc_isa::regs::Regs;

/// The load that an instruction needs.
#[derive(Clone, Copy, Debug, PartialEq, Eq)]
pub enum Want {
    /// It loads nothing, or it faults.
    Nothing,
    /// A number of `width` bytes, 1, 2 or 4, at the address `addr`, all in one region.
    Load {
        region: Region,
        addr: u32,
        width: u32,
    },
}

/// A store: the low `width` bytes of `value`, 1, 2 or 4, go to the address `addr` in little-endian
/// order, all in one region. `value` has no bit above them.
#[derive(Clone, Copy, Debug, PartialEq, Eq)]
pub struct Put {
    pub region: Region,
    pub addr: u32,
    pub width: u32,
    pub value: u32,
}

/// A guest call that does not fault.
#[derive(Clone, Copy, Debug, PartialEq, Eq)]
pub enum Call {
    /// The thread takes a lock.
    Lock(u32),
    /// The thread gives up a lock that it holds.
    Unlock(u32),
    /// The thread sleeps for a number of blocks, at most 255.
    Sleep(u32),
    /// The thread ends, with its exit code in x10.
    Exit,
}

/// What an instruction does.
#[derive(Clone, Copy, Debug, PartialEq, Eq)]
pub enum Act {
    /// The thread goes on with these registers, after a store if there is one.
    Next { regs: Regs, put: Option<Put> },
    /// A guest call. The registers are those after it.
    Called { call: Call, regs: Regs },
    /// The thread ends, with its registers as they were.
    Faulted(Fault),
}

/// What an instruction does besides its effect on the registers, which is done already.
#[derive(Clone, Copy, Debug, PartialEq, Eq)]
pub enum Done {
    /// The thread goes on.
    Went,
    /// The thread goes on after a store.
    Stored(Put),
    /// A guest call.
    Called(Call),
    /// The thread ends, with its registers as they were.
    Faulted(Fault),
}

impl Done {
    /// The act that did this, and left these registers.
    pub(crate) fn act(self, regs: Regs) -> Act
        ensures { result ≡ act_from self regs }
    {
        match self {
            Done::Went => Act::Next { regs, put: None },
            Done::Stored(put) => Act::Next {
                regs,
                put: Some(put),
            },
            Done::Called(call) => Act::Called { call, regs },
            Done::Faulted(fault) => Act::Faulted(fault),
        }
    }
}
