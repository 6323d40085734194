//! A thread's own memory.
//!
//! Access to one part of it is always inlined, since it is in the loop over steps.

ghost use Rattle.std.specs.Prelude.{◌≡◌, true, ◌+◌, ◌≤◌, ◌^◌, ◌<◌, IfOk, OnOk, [], length, map, unwrap_or};
ghost use Rattle.std.specs.Option.{option_map};
ghost use Rattle.tc_turn.specs.Parts.{HasAt, part_has, with_piece, AreApart};
ghost use Rattle.tc_turn.specs.Memory.{IsAccess, number_at, part_with, with_number, own_of, own_at_start, own_bytes, starting_bytes};

pub use crate::number::put_number;
use crate::number::{Bytes, are_there, byte_from, bytewise, number_within, put_within};
use std::alloc::{AllocError, Global};
use std::marker::Model;
use tc_elf::image::{Image, Region};

/// Bytes from a start on.
#[derive(Drop)]
pub struct Part {
    start: u32,
    bytes: Vec<u8>,
}

impl Model for Part {
    ghost use Rattle.tc_turn.specs.Memory.{Part as ShownPart};

    ghost Value = { ShownPart };

    ghost view = { λ p. record { start = p.start; bytes = p.bytes.items } };
}

/// The bytes that the file gives the addresses from one on, each asked for alone.
fn single_bytes(
    alloc: Global,
    image: &Image,
    start: u32,
    length: u32,
) -> Result<Vec<u8>, AllocError>
    requires { start + length ≤ 2 ^ 32 }
    ensures { IfOk result (λ bytes. bytes.items ≡ starting_bytes image.now start length) }
{
    let mut bytes = Vec::with_capacity(alloc, length as usize)?;
    for i in 0..length {
        bytes.push(image.byte(start + i).unwrap_or(0))?;
    }
    Ok(bytes)
}

/// The bytes that the file gives the addresses from one on. If one range has them all, as it has a
/// thread's own memory or a guard, they are copied at once.
pub fn starting_bytes(
    alloc: Global,
    image: &Image,
    start: u32,
    length: u32,
) -> Result<Vec<u8>, AllocError>
    requires { start + length ≤ 2 ^ 32 }
    ensures { IfOk result (λ bytes. bytes.items ≡ starting_bytes image.now start length) }
{
    match image.bytes(start, length) {
        Some(there) => Vec::from_slice(alloc, there),
        None => single_bytes(alloc, image, start, length),
    }
}

impl Part {
    /// Whether it has all of these addresses.
    fn has(&self, start: u32, length: u32) -> bool
        ensures { result ≡ part_has start length self.now }
    {
        are_there(self.start, &self.bytes, start, length)
    }

    /// The same bytes once more.
    fn copy(&self) -> Result<Part, AllocError>
        ensures { IfOk result (λ part. part ≡ self.now) }
    {
        Ok(Part {
            start: self.start,
            bytes: Vec::from_slice(*self.bytes.allocator(), &self.bytes)?,
        })
    }
}

/// The bytes that a thread has for itself: its stack, and the writable ranges outside the
/// guards. They are stored in parts, one for each place of the image, in the order of
/// addresses.
#[derive(Drop)]
pub struct Memory {
    parts: Vec<Part>,
}

impl Model for Memory {
    ghost use Rattle.std.specs.Prelude.{List};
    ghost use Rattle.tc_turn.specs.Parts.{AreApart};
    ghost use Rattle.tc_turn.specs.Memory.{Part as ShownPart};

    ghost Value = { List ShownPart };

    ghost view = { λ m. m.parts.items };

    ghost invariant = { λ m. AreApart m.parts.items };
}

impl Bytes for Memory {
    ghost use Rattle.std.specs.Prelude.{unwrap_or};
    ghost use Rattle.tc_turn.specs.Memory.{own_of};

    ghost bytes = { λ m at. unwrap_or (own_of m at) 0 };

    fn at(&self, addr: u32) -> u8 {
        self.byte(addr).unwrap_or(0)
    }
}

fn byte_in(parts: &[Part], addr: u32) -> Option<u8>
    ensures { result ≡ own_of parts.now addr }
{
    for part in parts {
        if let Some(byte) = byte_from(part.start, &part.bytes, addr) {
            return Some(byte);
        }
    }
    None
}

/// Writes the low `width` bytes of a value in every part.
fn put_in_parts(parts: &mut [Part], addr: u32, width: u32, value: u32)
    requires { addr + width ≤ 2 ^ 32 }
    ensures { parts.new ≡ map (part_with addr width value) parts.old }
{
    for part in parts.iter_mut() {
        put_number(part.start, &mut part.bytes, addr, width, value);
    }
}

/// Whether there is a part of this number that has all of the addresses.
#[inline(always)]
fn has_in(parts: &[Part], part: usize, addr: u32, width: u32) -> bool
    ensures { result ≡ true → HasAt parts.now part addr width }
{
    part < parts.len() && parts[part].has(addr, width)
}

/// Writes the low `width` bytes of a value in every part, where the part of this number may be the
/// only one that has them.
#[inline(always)]
fn put_near(parts: &mut [Part], part: usize, addr: u32, width: u32, value: u32)
    requires apart { AreApart parts.old }
    requires fits { addr + width ≤ 2 ^ 32 }
    ensures { parts.new ≡ map (part_with addr width value) parts.old }
{
    if !has_in(parts, part, addr, width) {
        put_in_parts(parts, addr, width, value);
        return;
    }
    let part = &mut parts[part];
    put_within(part.start, &mut part.bytes, addr, width, value);
}

/// The bytes at the start of addresses that have this place in a thread's own memory, if it has
/// them.
fn own_bytes(
    alloc: Global,
    image: &Image,
    region: Region,
    start: u32,
    length: u32,
) -> Result<Option<Vec<u8>>, AllocError>
    requires { start + length ≤ 2 ^ 32 }
    ensures { IfOk result (λ bytes. option_map (λ v. v.items) bytes ≡ own_bytes image.now region start length) }
{
    Ok(match region {
        Region::Private => Some(starting_bytes(alloc, image, start, length)?),
        Region::Stack => Some(vec![in alloc; 0; length as usize]?),
        Region::Text | Region::Guard(_) | Region::Nothing => None,
    })
}

/// Makes a part of the bytes of one more piece, if it has some.
fn push_piece(parts: &mut Vec<Part>, start: u32, bytes: Option<Vec<u8>>) -> Result<(), AllocError>
    ensures { OnOk result (parts.new.items ≡ with_piece parts.old.items start (option_map (λ v. v.items) bytes)) }
{
    if let Some(bytes) = bytes {
        parts.push(Part { start, bytes })?;
    }
    Ok(())
}

/// How many bytes there are in these parts.
fn size_of(parts: &[Part]) -> usize {
    let mut size: usize = 0;
    for part in parts {
        size = size.saturating_add(part.bytes.len());
    }
    size
}

impl Memory {
    /// A memory without a byte. It takes no memory of the system.
    pub(crate) fn none(alloc: Global) -> Memory
        ensures { result ≡ [] }
    {
        Memory {
            parts: Vec::new(alloc),
        }
    }

    /// The memory of a thread at its start: the writable ranges have the file's bytes, the stack is
    /// 0.
    pub fn start(alloc: Global, image: &Image) -> Result<Memory, AllocError>
        ensures { IfOk result (λ memory. own_of memory ≡ own_at_start image.now) }
    {
        let mut parts = Vec::new(alloc);
        let mut next: u64 = 0;
        'pieces: while next < 1 << 32 {
            let start = next as u32;
            let piece = image.own_piece(start);
            next += piece.0 as u64;
            let bytes = own_bytes(alloc, image, piece.1, start, piece.0)?;
            push_piece(&mut parts, start, bytes)?;
        }
        Ok(Memory { parts })
    }

    /// A copy of the memory.
    pub fn copy(&self) -> Result<Memory, AllocError>
        ensures { IfOk result (λ memory. memory ≡ self.now) }
    {
        let alloc = *self.parts.allocator();
        // Room for all of it is asked for and given back, so that the allocator of a thread of the host,
        // which has little at first, asks the system once, and not for each part.
        let room: Vec<u8> = Vec::with_capacity(alloc, size_of(&self.parts))?;
        drop(room);
        let mut copies = Vec::with_capacity(alloc, self.parts.len())?;
        for part in &self.parts {
            copies.push(part.copy()?)?;
        }
        Ok(Memory { parts: copies })
    }

    /// The byte at an address; None if and only if the address is not in this memory.
    pub fn byte(&self, addr: u32) -> Option<u8>
        ensures { result ≡ own_of self.now addr }
    {
        byte_in(&self.parts, addr)
    }

    /// The number of the part that may have an address: the last that begins no later.
    pub(crate) fn part_of(&self, addr: u32) -> usize {
        let behind = self.parts.partition_point(|part| part.start <= addr);
        behind.saturating_sub(1)
    }

    /// The number in so many bytes from an address on. A byte that is not in this memory counts as
    /// 0. `near` is the number of the part that is tried first; it may be any.
    #[inline(always)]
    pub(crate) fn number(&self, near: usize, addr: u32, width: u32) -> u32
        requires { IsAccess addr width }
        ensures { result ≡ number_at (λ at. unwrap_or (own_of self.now at) 0) addr width }
    {
        let parts = self.parts.as_slice();
        if !has_in(parts, near, addr, width) {
            return bytewise(self, addr, width);
        }
        let part = &parts[near];
        number_within(part.start, &part.bytes, addr, width)
    }

    /// Writes the low `width` bytes of a value, the lowest first, to the addresses from `addr` on.
    /// What is not in this memory is not written. `near` is as in `number`.
    #[inline(always)]
    pub(crate) fn put(&mut self, near: usize, addr: u32, width: u32, value: u32)
        requires { addr + width ≤ 2 ^ 32 }
        ensures { own_of self.new ≡ with_number (own_of self.old) addr width value }
    {
        put_near(&mut self.parts, near, addr, width, value);
    }
}
