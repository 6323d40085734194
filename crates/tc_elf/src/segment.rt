//! Program headers and the segments that they describe (System V gABI, "Program Header").

ghost use Rattle.std.specs.Prelude.{◌≡◌, ◌+◌, ◌≤◌, ◌<◌, false, length};
ghost use Rattle.tc_elf.specs.Elf.{word_at, half_at, segment_at, is_executable, is_writable, is_range, part};
ghost use Rattle.tc_elf.specs.Notes.{is_note, runs_past};
ghost use Rattle.tc_elf.specs.Refusals.{is_dynamic, is_bad_load, load_size, shares, is_on_stack, is_writable_code};

use crate::image::meets;
use crate::limits::{STACK_LENGTH, STACK_START};
use byteorder::{ByteOrder, LittleEndian};

/// The type of a segment that is loaded into memory.
const PT_LOAD: u32 = 1;

/// The type of a segment for a dynamic linker.
const PT_DYNAMIC: u32 = 2;

/// The type of a segment that names an interpreter.
const PT_INTERP: u32 = 3;

/// The type of a segment of notes.
const PT_NOTE: u32 = 4;

/// The type of a segment of thread-local storage.
const PT_TLS: u32 = 7;

/// A segment as its program header describes it, without the fields that nothing reads.
#[derive(Clone, Copy)]
pub struct Segment {
    kind: u32,
    offset: u32,
    pub(crate) address: u32,
    file_size: u32,
    pub(crate) memory_size: u32,
    flags: u32,
}

/// The word at an offset of some bytes.
pub(crate) fn word_at(bytes: &[u8], at: usize) -> u32
    requires { at + 4 ≤ length bytes.now }
    ensures { result ≡ word_at bytes.now at }
{
    LittleEndian::read_u32(&bytes[at..])
}

/// The half word at an offset of some bytes.
pub(crate) fn half_at(bytes: &[u8], at: usize) -> u16
    requires { at + 2 ≤ length bytes.now }
    ensures { result ≡ half_at bytes.now at }
{
    LittleEndian::read_u16(&bytes[at..])
}

impl Segment {
    /// The segment whose program header is at an offset of the file.
    pub(crate) fn at(bytes: &[u8], at: usize) -> Segment
        requires { at + 32 ≤ length bytes.now }
        ensures { result ≡ segment_at bytes.now at }
    {
        Segment {
            kind: word_at(bytes, at),
            offset: word_at(bytes, at + 4),
            address: word_at(bytes, at + 8),
            file_size: word_at(bytes, at + 16),
            memory_size: word_at(bytes, at + 20),
            flags: word_at(bytes, at + 24),
        }
    }

    pub(crate) fn is_executable(&self) -> bool
        ensures { result ≡ is_executable self.now }
    {
        self.flags % 2 == 1
    }

    pub(crate) fn is_writable(&self) -> bool
        ensures { result ≡ is_writable self.now }
    {
        self.flags / 2 % 2 == 1
    }

    /// Whether the segment makes a range of memory.
    pub(crate) fn is_range(&self) -> bool
        ensures { result ≡ is_range self.now }
    {
        self.kind == PT_LOAD && self.memory_size > 0
    }

    pub(crate) fn is_note(&self) -> bool
        ensures { result ≡ is_note self.now }
    {
        self.kind == PT_NOTE
    }

    /// Whether the segment's part of the file ends past the end of the file.
    pub(crate) fn runs_past(&self, bytes: &[u8]) -> bool
        ensures { result ≡ runs_past bytes.now self.now }
    {
        self.offset as usize + self.file_size as usize > bytes.len()
    }

    /// The segment's part of the file.
    pub(crate) fn part<'a>(&self, bytes: &'a [u8]) -> &'a [u8]
        requires { runs_past bytes.now self.now ≡ false }
        ensures { result.now ≡ part bytes.now self.now }
    {
        let start = self.offset as usize;
        &bytes[start..start + self.file_size as usize]
    }

    /// Whether the segment is for a dynamic linker, an interpreter or thread-local storage.
    pub(crate) fn is_dynamic(&self) -> bool
        ensures { result ≡ is_dynamic self.now }
    {
        self.kind == PT_DYNAMIC || self.kind == PT_INTERP || self.kind == PT_TLS
    }

    /// Whether the segment is loaded, and exceeds the file, its size in memory or the address
    /// space.
    pub(crate) fn is_bad_load(&self, bytes: &[u8]) -> bool
        ensures { result ≡ is_bad_load bytes.now self.now }
    {
        self.kind == PT_LOAD
            && (self.file_size > self.memory_size
                || self.runs_past(bytes)
                || self.address as u64 + self.memory_size as u64 > 1 << 32)
    }

    /// The memory that the segment takes.
    pub(crate) fn load_size(&self) -> u32
        ensures { result ≡ load_size self.now }
    {
        if self.kind == PT_LOAD {
            self.memory_size
        } else {
            0
        }
    }

    /// Whether both segments make ranges, and these share an address.
    pub(crate) fn shares(&self, other: &Segment) -> bool
        ensures { result ≡ shares self.now other.now }
    {
        self.is_range()
            && other.is_range()
            && meets(
                self.address,
                self.memory_size,
                other.address,
                other.memory_size,
            )
    }

    /// Whether the segment shares an address with the stacks.
    pub(crate) fn is_on_stack(&self) -> bool
        ensures { result ≡ is_on_stack self.now }
    {
        self.is_range() && meets(self.address, self.memory_size, STACK_START, STACK_LENGTH)
    }

    /// Whether the segment is writable code.
    pub(crate) fn is_writable_code(&self) -> bool
        ensures { result ≡ is_writable_code self.now }
    {
        self.is_range() && self.is_writable() && self.is_executable()
    }
}
