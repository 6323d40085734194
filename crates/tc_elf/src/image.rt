//! The image of a guest: its ranges of memory, its threads' entries and its guards.

ghost use Rattle.std.specs.Prelude.{◌≡◌, ℕ, ◌+◌, ◌<◌, ◌≤◌, ◌%◌, true, length, Some, IfSome, position, find, slice_index};
ghost use Rattle.std.specs.List.{list_any};
ghost use Rattle.std.specs.Option.{option_copied};
ghost use Rattle.tc_elf.specs.Shown.{entry_at, guard_at, range_at, outline};
ghost use Rattle.tc_elf.specs.declared.limits.TheConstants.{MAX_HEADERS, MAX_THREADS, MAX_GUARDS};
ghost use Rattle.tc_elf.specs.Kept.{IsRange, IsGuard};
ghost use Rattle.tc_elf.specs.Places.{lies_in, meets, in_range, in_text, in_writable, in_code, in_guard, touches, touches_range, region_of, unguarded_region, fetched, byte_of};

use crate::limits::{STACK_LENGTH, STACK_START};
use crate::places::{AddressRange, place_by, place_number};
use byteorder::{ByteOrder, LittleEndian};
use std::marker::Model;

/// A range of addresses, with its bytes at the start.
#[derive(Drop)]
pub(crate) struct Range {
    pub(crate) start: u32,
    pub(crate) length: u32,
    pub(crate) writable: bool,
    pub(crate) executable: bool,
    pub(crate) bytes: Vec<u8>,
}

impl Model for Range {
    ghost use Rattle.std.specs.Prelude.{◌≡◌, vec_len};
    ghost use Rattle.tc_elf.specs.Shown.{Range as ShownRange};

    ghost Value = { ShownRange };

    ghost view = { λ r. record {
      start = r.start;
      length = r.length;
      writable = r.writable;
      executable = r.executable;
      bytes = r.bytes.items;
    } };

    ghost invariant = { λ r. vec_len r.bytes ≡ r.length };
}

/// The first instruction of a thread, and its argument.
#[derive(Clone, Copy, Drop)]
pub(crate) struct Entry {
    pub(crate) address: u32,
    pub(crate) argument: u32,
}

impl Model for Entry {
    ghost use Rattle.tc_elf.specs.Shown.{Entry as ShownEntry};

    ghost Value = { ShownEntry };

    ghost view = { λ e. record { address = e.address; argument = e.argument } };

    ghost inverse = { λ e. record { address = e.address; argument = e.argument } };
}

/// The addresses that the holder of a lock may use.
#[derive(Clone, Copy, Drop)]
pub(crate) struct Guard {
    pub(crate) start: u32,
    pub(crate) length: u32,
}

impl Model for Guard {
    ghost use Rattle.tc_elf.specs.Shown.{Guard as ShownGuard};

    ghost Value = { ShownGuard };

    ghost view = { λ g. record { start = g.start; length = g.length } };

    ghost inverse = { λ g. record { start = g.start; length = g.length } };
}

/// What a guest's file describes: memory, threads and guards.
#[derive(Drop)]
pub struct Image {
    pub(crate) ranges: Vec<Range>,
    pub(crate) entries: Vec<Entry>,
    pub(crate) guards: Vec<Guard>,
    pub(crate) places: Vec<AddressRange>,
}

impl Model for Image {
    ghost use Rattle.tc_elf.specs.Shown.{Shown};
    ghost use Rattle.tc_elf.specs.Table.{IsTabled};

    ghost Value = { Shown };

    ghost view = { λ i. record {
      ranges = i.ranges.items;
      entries = i.entries.items;
      guards = i.guards.items;
    } };

    ghost invariant = { λ i. IsTabled (record {
      ranges = i.ranges.items;
      entries = i.entries.items;
      guards = i.guards.items;
    }) i.places.items };
}

/// The place that holds all bytes of an access.
#[derive(Clone, Copy, Debug, PartialEq, Eq)]
pub enum Region {
    /// A range that is read only, and shared between the threads.
    Text,
    /// A writable range outside all guards, of which each thread has a copy of its own.
    Private,
    /// A thread's own stack.
    Stack,
    /// The guard of the lock with this number.
    Guard(u32),
    /// No single place.
    Nothing,
}

/// Whether all bytes of an access lie in the addresses of this start and length.
pub(crate) fn lies_in(addr: u32, width: u32, start: u32, length: u32) -> bool
    ensures { result ≡ lies_in addr width start length }
{
    addr >= start && addr as u64 + width as u64 <= start as u64 + length as u64
}

/// Whether two ranges of addresses, each by its start and its length, overlap.
pub(crate) fn meets(a: u32, n: u32, b: u32, m: u32) -> bool
    ensures { result ≡ meets a n b m }
{
    (a as u64) < b as u64 + m as u64 && (b as u64) < a as u64 + n as u64
}

impl Range {
    fn has(&self, addr: u32, width: u32) -> bool
        ensures { result ≡ in_range addr width self.now }
    {
        lies_in(addr, width, self.start, self.length)
    }
}

pub(crate) fn any_text(ranges: &[Range], addr: u32, width: u32) -> bool
    ensures { result ≡ list_any (in_text addr width) ranges.now }
{
    ranges.iter().any(|r| !r.writable && r.has(addr, width))
}

/// Whether one executable range holds the four bytes of an instruction.
pub(crate) fn any_code(ranges: &[Range], pc: u32) -> bool
    ensures { result ≡ list_any (in_code pc 4) ranges.now }
{
    ranges.iter().any(|r| r.executable && r.has(pc, 4))
}

/// Whether one writable range holds all bytes of an access.
pub(crate) fn any_writable(ranges: &[Range], addr: u32, width: u32) -> bool
    ensures { result ≡ list_any (in_writable addr width) ranges.now }
{
    ranges.iter().any(|r| r.writable && r.has(addr, width))
}

pub(crate) fn any_touched(guards: &[Guard], addr: u32, width: u32) -> bool
    ensures { result ≡ list_any (touches addr width) guards.now }
{
    guards.iter().any(|g| meets(addr, width, g.start, g.length))
}

fn guard_with(guards: &[Guard], addr: u32, width: u32) -> Option<usize>
    ensures first { result ≡ position (in_guard addr width) guards.now }
    ensures bound { IfSome result (λ lock. lock < length guards.now) }
{
    guards
        .iter()
        .position(|g| lies_in(addr, width, g.start, g.length))
}

fn range_with(ranges: &[Range], addr: u32) -> Option<&Range>
    ensures first { option_copied result ≡ find (in_range addr 1) ranges.now }
    ensures has { IfSome result (λ r. in_range addr 1 r.now ≡ true) }
{
    ranges.iter().find(|r| r.has(addr, 1))
}

/// The first range that overlaps the addresses of this start and length.
fn range_meeting(ranges: &[Range], start: u32, length: u32) -> Option<&Range>
    ensures first { option_copied result ≡ find (touches_range start length) ranges.now }
{
    ranges
        .iter()
        .find(|r| meets(start, length, r.start, r.length))
}

fn code_with(ranges: &[Range], pc: u32) -> Option<&Range>
    ensures first { option_copied result ≡ find (in_code pc 4) ranges.now }
    ensures has { IfSome result (λ r. in_code pc 4 r.now ≡ true) }
{
    ranges.iter().find(|r| r.executable && r.has(pc, 4))
}

impl Image {
    /// The number of threads.
    pub fn threads(&self) -> u32
        ensures value { result ≡ length self.now.entries }
        ensures least { 1 ≤ result }
        ensures bound { result ≤ MAX_THREADS }
    {
        self.entries.len() as u32
    }

    /// The number of guards, one for each lock.
    pub fn guards(&self) -> u32
        ensures value { result ≡ length self.now.guards }
        ensures bound { result ≤ MAX_GUARDS }
    {
        self.guards.len() as u32
    }

    /// The number of ranges.
    pub fn ranges(&self) -> u32
        ensures value { result ≡ length self.now.ranges }
        ensures bound { result ≤ MAX_HEADERS }
    {
        self.ranges.len() as u32
    }

    /// The address of a thread's first instruction, and the argument that it is given in x10.
    pub fn entry(&self, t: u32) -> (u32, u32)
        requires { t < length self.now.entries }
        ensures value { result ≡ ((entry_at self.now t).address, (entry_at self.now t).argument) }
        ensures aligned { result.0 % 4 ≡ 0 }
        ensures bound { t < MAX_THREADS }
    {
        let entry = self.entries[t as usize];
        (entry.address, entry.argument)
    }

    /// The start and the length of a lock's guard.
    pub fn guard(&self, lock: u32) -> (u32, u32)
        requires { lock < length self.now.guards }
        ensures value { result ≡ ((guard_at self.now lock).start, (guard_at self.now lock).length) }
        ensures kept { IsGuard self.now (guard_at self.now lock) }
        ensures bound { lock < MAX_GUARDS }
    {
        let guard = self.guards[lock as usize];
        (guard.start, guard.length)
    }

    /// The start and the length of a range, and whether it is writable and executable. Ranges
    /// count from 0, in the order of the program headers.
    pub fn range(&self, i: u32) -> (u32, u32, bool, bool)
        requires { i < length self.now.ranges }
        ensures value { result ≡ outline (range_at self.now i) }
        ensures kept { IsRange (range_at self.now i) }
        ensures bound { i < MAX_HEADERS }
    {
        let range = &self.ranges[i as usize];
        (range.start, range.length, range.writable, range.executable)
    }

    /// The place of an access that no guard holds.
    fn unguarded_region(&self, addr: u32, width: u32) -> Region
        ensures { result ≡ unguarded_region self.now addr width }
    {
        if any_text(&self.ranges, addr, width) {
            Region::Text
        } else if any_writable(&self.ranges, addr, width)
            && !any_touched(&self.guards, addr, width)
        {
            Region::Private
        } else if lies_in(addr, width, STACK_START, STACK_LENGTH) {
            Region::Stack
        } else {
            Region::Nothing
        }
    }

    /// The place of an access, searched for in guards and ranges.
    #[tactic(auto, unfolding(crate::specs::Places::region_of))]
    pub(crate) fn searched_region(&self, addr: u32, width: u32) -> Region
        ensures { result ≡ region_of self.now addr width }
    {
        match guard_with(&self.guards, addr, width) {
            Some(lock) => Region::Guard(lock as u32),
            None => self.unguarded_region(addr, width),
        }
    }

    /// The one place that holds all bytes of an access.
    pub fn region(&self, addr: u32, width: u32) -> Region
        ensures { result ≡ region_of self.now addr width }
    {
        if width == 0 {
            return self.searched_region(addr, width);
        }
        match place_by(&self.places, place_number(&self.places, addr), addr, width) {
            Some(region) => region,
            None => self.searched_region(addr, width),
        }
    }

    /// As `region`, but the place with the number `near` is tried first, which is cheaper if the
    /// access lies there. `near` may be any number.
    pub fn region_from(&self, near: usize, addr: u32, width: u32) -> Region
        requires { 0 < width }
        ensures { result ≡ region_of self.now addr width }
    {
        match place_by(&self.places, near, addr, width) {
            Some(region) => region,
            None => self.region(addr, width),
        }
    }

    /// As `region`. `near` remembers the place of the last access, which is tried first; it may be
    /// any number.
    /// Always inlined: it is short, and on the path of each load and store.
    #[inline(always)]
    pub fn region_near(&self, near: &mut usize, addr: u32, width: u32) -> Region
        requires { 0 < width }
        ensures { result ≡ region_of self.now addr width }
    {
        match place_by(&self.places, *near, addr, width) {
            Some(region) => region,
            None => self.region_anew(near, addr, width),
        }
    }

    /// The slow path of `region_near`: searches for the place.
    #[inline(never)]
    fn region_anew(&self, near: &mut usize, addr: u32, width: u32) -> Region
        requires { 0 < width }
        ensures { result ≡ region_of self.now addr width }
    {
        *near = place_number(&self.places, addr);
        self.region_from(*near, addr, width)
    }

    /// From the number that `region_near` leaves: the index of that piece among the pieces of a
    /// thread's own memory, in the order of addresses, if it is one. It is only a hint where to
    /// look first.
    /// Always inlined: it is short.
    #[inline(always)]
    pub fn part(&self, near: usize) -> usize {
        match self.places.get(near) {
            Some(place) => place.part,
            None => 0,
        }
    }

    /// The instruction word at `pc`; None if its four bytes don't lie in one executable
    /// range.
    #[tactic(auto, unfolding(crate::specs::Places::fetched))]
    pub fn fetch(&self, pc: u32) -> Option<u32>
        ensures { result ≡ fetched self.now pc }
    {
        let range = code_with(&self.ranges, pc)?;
        let at = (pc - range.start) as usize;
        Some(LittleEndian::read_u32(&range.bytes[at..]))
    }

    /// The initial byte at an address; None if no range has the address.
    #[tactic(auto, unfolding(crate::specs::Places::byte_of))]
    pub fn byte(&self, addr: u32) -> Option<u8>
        ensures { result ≡ byte_of self.now addr }
    {
        let range = range_with(&self.ranges, addr)?;
        Some(range.bytes[(addr - range.start) as usize])
    }

    /// The initial bytes of one range from an address on, if it has so many there. The cost is that
    /// of the copy; `byte` searches all ranges for each byte.
    #[tactic(auto, unfolding(crate::specs::Places::byte_of))]
    pub fn bytes(&self, start: u32, count: u32) -> Option<&[u8]>
        ensures count { IfSome result (λ bytes. length bytes.now ≡ count) }
        ensures each { IfSome result (λ bytes. (i : ℕ) → i < count
            → byte_of self.now (start + i) ≡ Some (slice_index bytes.now i)) }
    {
        let range = range_meeting(&self.ranges, start, count)?;
        if !range.has(start, count) {
            return None;
        }
        let at = (start - range.start) as usize;
        Some(&range.bytes[at..at + count as usize])
    }
}
