//! A table of the places of accesses: ranges of addresses, each of which lies in one place.
//!
//! The address space is cut at each start and end of a range, a guard and the stack, and each piece
//! has one place.

ghost use Rattle.std.specs.Prelude.{◌≡◌, ℕ, ◌+◌, ◌<◌, ◌≤◌, ◌^◌, false, All, IfOk, IfSome};
ghost use Rattle.std.specs.List.{list_any};
ghost use Rattle.tc_elf.specs.Places.{own_region, region_of};
ghost use Rattle.tc_elf.specs.Shown.{Shown};
ghost use Rattle.tc_elf.specs.Table.{IsPiece, PlacesTell, cuts, guard_cuts, is_cut, range_cuts};
ghost use Rattle.tc_elf.specs.declared.image.Region.TheVariants as region;

use crate::image::{Guard, Image, Range, Region, any_touched, any_writable, lies_in, meets};
use crate::limits::{STACK_LENGTH, STACK_START};
use std::alloc::{AllocError, Global};

/// Addresses from a start up to an end: every access in them has this place.
#[derive(Clone, Copy, Drop)]
pub(crate) struct AddressRange {
    start: u32,
    end: u64,
    region: Region,
    /// How many pieces of a thread's own memory come before it.
    pub(crate) part: usize,
}

/// The nearest edge above an address, of three: the known one, a start, and the end that is so far
/// behind the start.
fn nearest(at: u32, known: u32, start: u32, length: u32) -> u32 {
    let end = start.saturating_add(length);
    if at < start && start < known {
        start
    } else if at < end && end < known {
        end
    } else {
        known
    }
}

/// Whether a range of this start and length contains some of the addresses, but not all.
fn cuts(addr: u32, width: u32, start: u32, length: u32) -> bool
    ensures { result ≡ cuts addr width start length }
{
    meets(addr, width, start, length) && !lies_in(addr, width, start, length)
}

fn any_range_cut(ranges: &[Range], addr: u32, width: u32) -> bool
    ensures { result ≡ list_any (range_cuts addr width) ranges.now }
{
    ranges.iter().any(|r| cuts(addr, width, r.start, r.length))
}

fn any_guard_cut(guards: &[Guard], addr: u32, width: u32) -> bool
    ensures { result ≡ list_any (guard_cuts addr width) guards.now }
{
    guards.iter().any(|g| cuts(addr, width, g.start, g.length))
}

impl Image {
    /// The next edge above an address: where a range, a guard or the stack begins or ends.
    fn edge_above(&self, at: u32) -> u32 {
        let mut edge = nearest(at, u32::MAX, STACK_START, STACK_LENGTH);
        for range in &self.ranges {
            edge = nearest(at, edge, range.start, range.length);
        }
        self.guards.iter().fold(
            edge,
            |edge, guard| nearest(at, edge, guard.start, guard.length),
        )
    }

    fn is_cut(&self, start: u32, length: u32) -> bool
        ensures { result ≡ is_cut self.now start length }
    {
        any_range_cut(&self.ranges, start, length)
            || any_guard_cut(&self.guards, start, length)
            || cuts(start, length, STACK_START, STACK_LENGTH)
    }

    /// How many addresses from one on no edge cuts: those before the next edge. There is at least
    /// one.
    #[tactic(auto, using(crate::proofs::Table::one_whole))]
    fn piece(&self, start: u32) -> u32
        ensures some { 0 < result }
        ensures fits { start + result ≤ 2 ^ 32 }
        ensures whole { is_cut self.now start result ≡ false }
    {
        let length = self.edge_above(start).saturating_sub(start).max(1);
        if self.is_cut(start, length) {
            1
        } else {
            length
        }
    }

    /// The place of an address in a thread's own memory.
    fn own_region(&self, at: u32) -> Region
        ensures { result ≡ own_region self.now at }
    {
        if any_touched(&self.guards, at, 1) {
            Region::Nothing
        } else if any_writable(&self.ranges, at, 1) {
            Region::Private
        } else if lies_in(at, 1, STACK_START, STACK_LENGTH) {
            Region::Stack
        } else {
            Region::Nothing
        }
    }

    /// As `piece`: how many addresses from one on no edge cuts. If an entry of the table begins
    /// there, it is all of that entry.
    fn known_piece(&self, start: u32) -> u32
        ensures some { 0 < result }
        ensures fits { start + result ≤ 2 ^ 32 }
        ensures whole { is_cut self.now start result ≡ false }
    {
        match self.places.get(place_number(&self.places, start)) {
            Some(place) if place.start == start => (place.end - place.start as u64) as u32,
            _ => self.piece(start),
        }
    }

    /// How many addresses from one on have the same place in a thread's own memory, and that place:
    /// `Private`, `Stack`, or `Nothing` if that memory has none of them.
    pub fn own_piece(&self, start: u32) -> (u32, Region)
        ensures some { 0 < result.0 }
        ensures fits { start + result.0 ≤ 2 ^ 32 }
        ensures each { (at : ℕ) → start ≤ at → at < start + result.0
            → own_region self.now at ≡ result.1 }
        ensures past { (at : ℕ) → 2 ^ 32 ≤ at → own_region self.now at ≡ region.Nothing }
    {
        let _ = &self.ranges;
        (self.known_piece(start), self.own_region(start))
    }
}

/// The table of an image, in the order of addresses.
pub(crate) fn places(alloc: Global, image: &Image) -> Result<Vec<AddressRange>, AllocError>
    ensures tells { IfOk result (λ places. PlacesTell image.now places.items) }
    ensures pieces { IfOk result (λ places. All (IsPiece image.now) places.items) }
{
    let mut places = Vec::new(alloc);
    let mut next: u64 = 0;
    let mut part: usize = 0;
    'pieces: while next < 1 << 32 {
        let start = next as u32;
        let length = image.piece(start);
        next += length as u64;
        let region = image.searched_region(start, length);
        places.push(AddressRange {
            start,
            end: next,
            region,
            part,
        })?;
        let is_own = region == Region::Private || region == Region::Stack;
        part = part.saturating_add(usize::from(is_own));
    }
    Ok(places)
}

/// The index of the entry that may hold an access: the last that does not begin behind it.
pub(crate) fn place_number(places: &[AddressRange], addr: u32) -> usize {
    let behind = places.partition_point(|place| place.start <= addr);
    behind.saturating_sub(1)
}

/// The place of an access, if the entry with this index holds it.
/// Always inlined: it is short, and on the path of each load and store.
#[inline(always)]
pub(crate) fn place_by(
    places: &[AddressRange],
    number: usize,
    addr: u32,
    width: u32,
) -> Option<Region>
    requires { 0 < width }
    ensures { (image : Shown) → PlacesTell image places.now
        → IfSome result (λ region. region_of image addr width ≡ region) }
{
    if number >= places.len() {
        return None;
    }
    let place = &places[number];
    if addr < place.start || addr as u64 + width as u64 > place.end {
        return None;
    }
    Some(place.region)
}
