//! What is wrong with the segments, the threads and the guards of a file.

ghost use Rattle.std.specs.Prelude.{◌≡◌, ◌≤◌, ◌^◌, length, sum_by, Some};
ghost use Rattle.std.specs.List.{list_any};
ghost use Rattle.tc_elf.specs.Refusals.{is_dynamic, is_bad_load, load_size, any_pair, shares, is_on_stack, is_writable_code, segment_refusal, is_bad_entry, is_bad_guard, guards_meet, layout_refusal};

use crate::image::{Entry, Guard, Range, any_code, any_writable, meets};
use crate::layout::Layout;
use crate::limits::{MAX_GUARD_LENGTH, MAX_MEMORY, MIN_GUARD_LENGTH};
use crate::refusal::Refusal;
use crate::segment::Segment;

fn any_dynamic(segments: &[Segment]) -> bool
    ensures { result ≡ list_any is_dynamic segments.now }
{
    segments.iter().any(|segment| segment.is_dynamic())
}

fn any_bad_load(bytes: &[u8], segments: &[Segment]) -> bool
    ensures { result ≡ list_any (is_bad_load bytes.now) segments.now }
{
    segments.iter().any(|segment| segment.is_bad_load(bytes))
}

fn total_size(segments: &[Segment]) -> u64
    requires { length segments.now ≤ 2 ^ 16 }
    ensures { result ≡ sum_by load_size segments.now }
{
    segments
        .iter()
        .map(|segment| segment.load_size() as u64)
        .sum()
}

fn shares_any(segment: &Segment, others: &[Segment]) -> bool
    ensures { result ≡ list_any (shares segment.now) others.now }
{
    others.iter().any(|other| segment.shares(other))
}

fn any_shared(segments: &[Segment]) -> bool
    ensures { result ≡ any_pair shares segments.now }
{
    match segments {
        [] => false,
        [segment, others @ ..] => shares_any(segment, others) || any_shared(others),
    }
}

fn any_on_stack(segments: &[Segment]) -> bool
    ensures { result ≡ list_any is_on_stack segments.now }
{
    segments.iter().any(|segment| segment.is_on_stack())
}

fn any_writable_code(segments: &[Segment]) -> bool
    ensures { result ≡ list_any is_writable_code segments.now }
{
    segments.iter().any(|segment| segment.is_writable_code())
}

/// The first thing that is wrong with the segments.
pub(crate) fn segment_refusal(bytes: &[u8], segments: &[Segment]) -> Option<Refusal>
    requires { length segments.now ≤ 2 ^ 16 }
    ensures { result ≡ segment_refusal bytes.now segments.now }
{
    if any_dynamic(segments) {
        Some(Refusal::Dynamic)
    } else if any_bad_load(bytes, segments) || total_size(segments) > MAX_MEMORY {
        Some(Refusal::BadLoad)
    } else if any_shared(segments) || any_on_stack(segments) {
        Some(Refusal::Overlap)
    } else if any_writable_code(segments) {
        Some(Refusal::WritableCode)
    } else {
        None
    }
}

/// Whether a thread's first instruction isn't in executable memory at a multiple of 4.
fn is_bad_entry(ranges: &[Range], entry: &Entry) -> bool
    ensures { result ≡ is_bad_entry ranges.now entry.now }
{
    entry.address % 4 != 0 || !any_code(ranges, entry.address)
}

fn any_bad_entry(ranges: &[Range], entries: &[Entry]) -> bool
    ensures { result ≡ list_any (is_bad_entry ranges.now) entries.now }
{
    entries.iter().any(|entry| is_bad_entry(ranges, entry))
}

/// Whether a guard isn't of whole words, has a wrong length or isn't in one writable range.
fn is_bad_guard(ranges: &[Range], guard: &Guard) -> bool
    ensures { result ≡ is_bad_guard ranges.now guard.now }
{
    guard.start % 4 != 0
        || guard.length % 4 != 0
        || guard.length < MIN_GUARD_LENGTH
        || guard.length > MAX_GUARD_LENGTH
        || !any_writable(ranges, guard.start, guard.length)
}

fn any_bad_guard(ranges: &[Range], guards: &[Guard]) -> bool
    ensures { result ≡ list_any (is_bad_guard ranges.now) guards.now }
{
    guards.iter().any(|guard| is_bad_guard(ranges, guard))
}

fn meets_any(guard: &Guard, others: &[Guard]) -> bool
    ensures { result ≡ list_any (guards_meet guard.now) others.now }
{
    others.iter().any(|other| meets(guard.start, guard.length, other.start, other.length))
}

fn any_meeting(guards: &[Guard]) -> bool
    ensures { result ≡ any_pair guards_meet guards.now }
{
    match guards {
        [] => false,
        [guard, others @ ..] => meets_any(guard, others) || any_meeting(others),
    }
}

/// The first thing that is wrong with the threads and the guards.
pub(crate) fn layout_refusal(ranges: &[Range], layout: &Layout) -> Option<Refusal>
    ensures { result ≡ layout_refusal ranges.now (Some layout.now) }
{
    if any_bad_entry(ranges, &layout.entries) {
        Some(Refusal::BadEntry)
    } else if any_bad_guard(ranges, &layout.guards) || any_meeting(&layout.guards) {
        Some(Refusal::BadGuard)
    } else {
        None
    }
}
