//! Why a file is refused.

ghost use Rattle.std.specs.Prelude.{◌≡◌};
ghost use Rattle.tc_elf.specs.Refused.{refusal_number, refusal_name};
ghost use Rattle.tc_elf.specs.declared.refusal.Refusal.TheVariants.{OutOfMemory};

use std::alloc::{AllocError, AllocFailed};

/// Why a file is refused. Of several reasons the first in this list is reported; running out of
/// memory has no place in that order.
#[derive(Clone, Copy, Debug, PartialEq, Eq)]
pub enum Refusal {
    /// The file has no room for a header.
    TooShort,
    /// The file doesn't begin with the magic number.
    BadMagic,
    /// The file isn't for 32 bits, little endian, or its identification has another version.
    NotElf32Little,
    /// The file isn't an executable one.
    NotExec,
    /// The file is for another machine.
    NotRiscv,
    /// The file has compressed code, a floating-point calling convention or half the registers.
    BadFlags,
    /// The header has another version, or its program headers aren't as they must be.
    BadHeader,
    /// The file needs a dynamic linker, an interpreter or thread-local storage.
    Dynamic,
    /// A segment runs past the file or the address space, or segments need too much memory.
    BadLoad,
    /// Two segments share an address, or one shares one with the stack.
    Overlap,
    /// A segment is both writable and executable.
    WritableCode,
    /// A note runs past its segment, or the note on threads and guards isn't in order.
    BadNote,
    /// A thread's first instruction isn't in executable memory at a multiple of 4.
    BadEntry,
    /// A guard isn't in one writable segment, isn't of whole words, or overlaps another guard.
    BadGuard,
    /// No memory was left for the image.
    OutOfMemory,
}

impl Refusal {
    /// The number of a refusal, from 1.
    #[tactic(auto, unfolding(crate::specs::Refused::refusal_number))]
    pub fn number(self) -> u32
        ensures { result ≡ refusal_number self }
    {
        match self {
            Refusal::TooShort => 1,
            Refusal::BadMagic => 2,
            Refusal::NotElf32Little => 3,
            Refusal::NotExec => 4,
            Refusal::NotRiscv => 5,
            Refusal::BadFlags => 6,
            Refusal::BadHeader => 7,
            Refusal::Dynamic => 8,
            Refusal::BadLoad => 9,
            Refusal::Overlap => 10,
            Refusal::WritableCode => 11,
            Refusal::BadNote => 12,
            Refusal::BadEntry => 13,
            Refusal::BadGuard => 14,
            Refusal::OutOfMemory => 15,
        }
    }

    /// The name of a refusal, as it is printed.
    #[tactic(auto, unfolding(crate::specs::Refused::refusal_name))]
    pub fn name(self) -> &'static str
        ensures { result.now ≡ refusal_name self }
    {
        match self {
            Refusal::TooShort => "TooShort",
            Refusal::BadMagic => "BadMagic",
            Refusal::NotElf32Little => "NotElf32Little",
            Refusal::NotExec => "NotExec",
            Refusal::NotRiscv => "NotRiscv",
            Refusal::BadFlags => "BadFlags",
            Refusal::BadHeader => "BadHeader",
            Refusal::Dynamic => "Dynamic",
            Refusal::BadLoad => "BadLoad",
            Refusal::Overlap => "Overlap",
            Refusal::WritableCode => "WritableCode",
            Refusal::BadNote => "BadNote",
            Refusal::BadEntry => "BadEntry",
            Refusal::BadGuard => "BadGuard",
            Refusal::OutOfMemory => "OutOfMemory",
        }
    }
}

impl From<AllocError> for Refusal {
    ghost from_gives = { λ _ e. e ≡ OutOfMemory };

    fn from(_: AllocError) -> Self {
        Refusal::OutOfMemory
    }
}

impl<T: Drop> From<AllocFailed<T>> for Refusal {
    ghost from_gives = { λ _ e. e ≡ OutOfMemory };

    fn from(_: AllocFailed<T>) -> Self {
        Refusal::OutOfMemory
    }
}
