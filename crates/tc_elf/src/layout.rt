//! The threads and the guards of a file.
//!
//! The descriptor of their note has the words version, number of threads and number of guards. A
//! pair of words for each thread and one for each guard follow. The versions differ only in the
//! greatest numbers of both.

ghost use Rattle.std.specs.Prelude.{◌≡◌, ◌≢◌, ◌≤◌, ◌+◌, ◌*◌, false, length, Some, None, IfOk, IfErr};
ghost use Rattle.tc_elf.specs.Notes.{has_room, is_bad_descriptor, entries_from, guards_from, layout_over, HasBadNote};
ghost use Rattle.tc_elf.specs.declared.refusal.Refusal.TheVariants.{OutOfMemory, BadNote};

use crate::header::HEADER_LENGTH;
use crate::image::{Entry, Guard};
use crate::limits::{FIRST_VERSION_MOST, MAX_GUARDS, MAX_THREADS};
use crate::notes::descriptor;
use crate::refusal::Refusal;
use crate::segment::{Segment, word_at};
use std::alloc::{AllocError, Global};
use std::marker::Model;

/// The length of a descriptor before its pairs, in bytes.
const LAYOUT_HEADER_LENGTH: usize = 12;

/// The versions of the descriptor.
const FIRST_VERSION: u32 = 1;

const SECOND_VERSION: u32 = 2;

/// Which threads and guards a file has.
#[derive(Drop)]
pub(crate) struct Layout {
    pub(crate) entries: Vec<Entry>,
    pub(crate) guards: Vec<Guard>,
}

impl Model for Layout {
    ghost use Rattle.tc_elf.specs.Notes.{Layout as ShownLayout};

    ghost Value = { ShownLayout };

    ghost view = { λ l. record { entries = l.entries.items; guards = l.guards.items } };
}

/// Whether a version of the descriptor may have so many threads and guards.
fn has_room(version: u32, threads: u32, guards: u32) -> bool
    ensures { result ≡ has_room version threads guards }
{
    match version {
        FIRST_VERSION => threads <= FIRST_VERSION_MOST && guards <= FIRST_VERSION_MOST,
        SECOND_VERSION => threads <= MAX_THREADS && guards <= MAX_GUARDS,
        _ => false,
    }
}

fn is_bad_descriptor(descriptor: &[u8]) -> bool
    ensures { result ≡ is_bad_descriptor descriptor.now }
{
    if descriptor.len() < LAYOUT_HEADER_LENGTH {
        return true;
    }
    let threads = word_at(descriptor, 4);
    let guards = word_at(descriptor, 8);
    threads == 0
        || !has_room(word_at(descriptor, 0), threads, guards)
        || descriptor.len() != LAYOUT_HEADER_LENGTH + 8 * threads as usize + 8 * guards as usize
}

/// So many entries, from a place of the descriptor on.
fn entries_from(
    alloc: Global,
    descriptor: &[u8],
    at: usize,
    count: usize,
) -> Result<Vec<Entry>, AllocError>
    requires { at + 8 * count ≤ length descriptor.now }
    ensures { IfOk result (λ v. v.items ≡ entries_from descriptor.now at count) }
{
    let mut entries = Vec::with_capacity(alloc, count)?;
    for i in 0..count {
        entries.push(Entry {
            address: word_at(descriptor, at + 8 * i),
            argument: word_at(descriptor, at + 8 * i + 4),
        })?;
    }
    Ok(entries)
}

/// So many guards, from a place of the descriptor on.
fn guards_from(
    alloc: Global,
    descriptor: &[u8],
    at: usize,
    count: usize,
) -> Result<Vec<Guard>, AllocError>
    requires { at + 8 * count ≤ length descriptor.now }
    ensures { IfOk result (λ v. v.items ≡ guards_from descriptor.now at count) }
{
    let mut guards = Vec::with_capacity(alloc, count)?;
    for i in 0..count {
        guards.push(Guard {
            start: word_at(descriptor, at + 8 * i),
            length: word_at(descriptor, at + 8 * i + 4),
        })?;
    }
    Ok(guards)
}

impl Layout {
    /// The layout of a file, unless its notes are refused. Without a note on threads and guards
    /// there is one thread and no guard.
    pub(crate) fn of(alloc: Global, bytes: &[u8], segments: &[Segment]) -> Result<Layout, Refusal>
        requires { HEADER_LENGTH ≤ length bytes.now }
        ensures value { IfOk result (λ l. layout_over bytes.now segments.now ≡ Some l) }
        ensures cause { IfErr result (λ e. e ≢ OutOfMemory → e ≡ BadNote) }
        ensures notes { IfErr result (λ e. e ≢ OutOfMemory → HasBadNote bytes.now segments.now) }
    {
        match descriptor(bytes, segments)? {
            None => {
                let entry = Entry {
                    address: word_at(bytes, 24),
                    argument: 0,
                };
                Ok(Layout {
                    entries: vec![in alloc; entry]?,
                    guards: Vec::new(alloc),
                })
            }
            Some(descriptor) if is_bad_descriptor(descriptor) => Err(Refusal::BadNote),
            Some(descriptor) => {
                let threads = word_at(descriptor, 4) as usize;
                let guards = word_at(descriptor, 8) as usize;
                let at = LAYOUT_HEADER_LENGTH + 8 * threads;
                Ok(Layout {
                    entries: entries_from(alloc, descriptor, LAYOUT_HEADER_LENGTH, threads)?,
                    guards: guards_from(alloc, descriptor, at, guards)?,
                })
            }
        }
    }
}
