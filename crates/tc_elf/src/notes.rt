//! The notes of a file (System V gABI, "Note Section").

ghost use Rattle.std.specs.Prelude.{◌≡◌, ◌≤◌, ◌<◌, length, drop, Some};
ghost use Rattle.std.specs.Option.{option_copied};
ghost use Rattle.tc_elf.specs.Notes.{padded, descriptor_end, next_at, descriptors_of, segment_descriptors, descriptors_over, single};
ghost use Rattle.tc_elf.specs.Search.{finding_of, first_descriptor, only_one};
ghost use Rattle.tc_elf.specs.declared.refusal.Refusal.TheVariants.{BadNote};

use crate::refusal::Refusal;
use crate::segment::{Segment, word_at};

/// The length of a note before its name, in bytes.
const NOTE_HEADER_LENGTH: usize = 12;

/// The type of a note on threads and guards.
const TCLOCKS_TYPE: u32 = 1;

/// A segment of notes or a note is cut off, or two notes are on threads and guards.
#[derive(Debug, Drop)]
pub(crate) struct BadNotes;

impl From<BadNotes> for Refusal {
    ghost from_gives = { λ _ e. e ≡ BadNote };

    fn from(_: BadNotes) -> Self {
        Refusal::BadNote
    }
}

/// A length rounded up to a multiple of 4.
fn padded(count: u32) -> usize
    ensures { result ≡ padded count }
{
    (count as usize + 3) / 4 * 4
}

/// Where the descriptor of the first note ends.
fn descriptor_end(bytes: &[u8]) -> usize
    requires { NOTE_HEADER_LENGTH ≤ length bytes.now }
    ensures { result ≡ descriptor_end bytes.now }
{
    NOTE_HEADER_LENGTH + padded(word_at(bytes, 0)) + word_at(bytes, 4) as usize
}

/// The descriptor of the first note, if that is on threads and guards.
fn first_descriptor(bytes: &[u8]) -> Option<&[u8]>
    requires { descriptor_end bytes.now ≤ length bytes.now }
    ensures { option_copied result ≡ first_descriptor bytes.now }
{
    let name_length = word_at(bytes, 0);
    let name = &bytes[NOTE_HEADER_LENGTH..NOTE_HEADER_LENGTH + name_length as usize];
    if word_at(bytes, 8) != TCLOCKS_TYPE || name != b"TCLOCKS\0".as_slice() {
        return None;
    }
    let start = NOTE_HEADER_LENGTH + padded(name_length);
    Some(&bytes[start..start + word_at(bytes, 4) as usize])
}

/// What follows the first note.
fn rest_of(bytes: &[u8]) -> &[u8]
    requires { NOTE_HEADER_LENGTH ≤ length bytes.now }
    ensures { result.now ≡ drop (next_at bytes.now) bytes.now }
{
    let next = NOTE_HEADER_LENGTH + padded(word_at(bytes, 0)) + padded(word_at(bytes, 4));
    if next < bytes.len() {
        &bytes[next..]
    } else {
        &[]
    }
}

/// The descriptor that one of two searches found; if both found one, that is an error.
fn only_one<'a>(
    one: Option<&'a [u8]>,
    other: Option<&'a [u8]>,
) -> Result<Option<&'a [u8]>, BadNotes>
    ensures { finding_of result
        ≡ only_one (Some (option_copied one.entry)) (Some (option_copied other.entry)) }
{
    match (one, other) {
        (Some(_), Some(_)) => Err(BadNotes),
        (Some(descriptor), None) | (None, Some(descriptor)) => Ok(Some(descriptor)),
        (None, None) => Ok(None),
    }
}

/// The descriptor in a segment's notes.
fn descriptor_in(bytes: &[u8]) -> Result<Option<&[u8]>, BadNotes>
    ensures { finding_of result ≡ single (descriptors_of bytes.now) }
{
    let mut found = None;
    let mut rest = bytes;
    while rest.len() >= NOTE_HEADER_LENGTH {
        if descriptor_end(rest) > rest.len() {
            return Err(BadNotes);
        }
        found = only_one(found, first_descriptor(rest))?;
        rest = rest_of(rest);
    }
    Ok(found)
}

/// The descriptor in a segment, if that has notes.
fn segment_descriptor<'a>(bytes: &'a [u8], segment: &Segment) -> Result<Option<&'a [u8]>, BadNotes>
    ensures { finding_of result ≡ single (segment_descriptors bytes.now segment.now) }
{
    if !segment.is_note() {
        return Ok(None);
    }
    if segment.runs_past(bytes) {
        return Err(BadNotes);
    }
    descriptor_in(segment.part(bytes))
}

/// The descriptor of the note on threads and guards, if there is one.
#[tactic(auto, using(crate::proofs::NoteSteps::single_both), unfolding(crate::specs::Notes::descriptors_over))]
pub(crate) fn descriptor<'a>(
    bytes: &'a [u8],
    segments: &[Segment],
) -> Result<Option<&'a [u8]>, BadNotes>
    ensures { finding_of result ≡ single (descriptors_over bytes.now segments.now) }
{
    match segments {
        [] => Ok(None),
        [segment, others @ ..] => {
            only_one(
                segment_descriptor(bytes, segment)?,
                descriptor(bytes, others)?,
            )
        }
    }
}
