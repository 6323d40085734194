//! Builds the files of guests with one segment of code and one of data.

ghost use Rattle.std.specs.Prelude.{◌≡◌, ◌+◌, ◌*◌, ◌≤◌, ◌<◌, ◌^◌, ◌++◌, IfOk, OnOk, All, length};
ghost use Rattle.std.specs.List.{flat_map};
ghost use Rattle.tc_elf.specs.declared.limits.TheConstants.{MAX_FILE, MAX_GUARDS, MAX_THREADS};
ghost use Rattle.tc_build.specs.Build as spec;
ghost use Rattle.tc_build.specs.Described.{described, StandsFor};

use byteorder::{ByteOrder, LittleEndian};
use std::alloc::{AllocError, Global};
use tc_elf::limits::FIRST_VERSION_MOST;

/// The address of the code of a built guest.
pub const CODE_START: u32 = 0x0010_0000;

/// The address of the data of a built guest.
pub const DATA_START: u32 = 0x0002_0000;

/// The greatest number of words of code of a built guest.
pub const MAX_CODE_WORDS: usize = 200_000;

/// The greatest length of the data of a built guest, in bytes.
pub const MAX_FILL: usize = 65_536;

/// Writes words, the lowest byte of each first.
fn push_words(file: &mut Vec<u8>, words: &[u32]) -> Result<(), AllocError>
    ensures written { OnOk result (spec.Writes file.old.items file.new.items words.now) }
    ensures words { All (λ w. w < 2 ^ 32) words.now }
{
    for word in words {
        let mut bytes = [0; 4];
        LittleEndian::write_u32(&mut bytes, *word);
        file.extend_from_slice(&bytes)?;
    }
    Ok(())
}

/// Writes pairs of words.
fn push_pairs(file: &mut Vec<u8>, pairs: &[(u32, u32)]) -> Result<(), AllocError>
    ensures written { OnOk result (spec.Writes file.old.items file.new.items
        (flat_map spec.pair_words pairs.now)) }
    ensures words { OnOk result (All spec.AreWords pairs.now) }
{
    for pair in pairs {
        let (first, second) = *pair;
        push_words(file, &[first, second])?;
    }
    Ok(())
}

/// Writes a program header.
fn push_segment(
    file: &mut Vec<u8>,
    kind: u32,
    offset: u32,
    address: u32,
    size: u32,
    flags: u32,
) -> Result<(), AllocError>
    ensures { OnOk result (spec.Writes file.old.items file.new.items
        (spec.segment_words kind offset address size flags)) }
{
    push_words(
        file,
        &[kind, offset, address, address, size, size, flags, 4],
    )
}

/// The version of a note on so many threads and guards.
fn note_version(threads: u32, guards: u32) -> u32
    ensures { result ≡ spec.note_version threads guards }
{
    if threads <= FIRST_VERSION_MOST && guards <= FIRST_VERSION_MOST {
        1
    } else {
        2
    }
}

/// Writes the head of the note on threads and guards.
fn push_note_head(file: &mut Vec<u8>, threads: u32, guards: u32) -> Result<(), AllocError>
    requires { 12 + 8 * threads + 8 * guards < 2 ^ 32 }
    ensures { OnOk result (spec.Writes file.old.items file.new.items
        (spec.note_head threads guards)) }
{
    let length = 12 + 8 * threads + 8 * guards;
    push_words(
        file,
        &[
            8,
            length,
            1,
            0x4f4c_4354,
            0x0053_4b43,
            note_version(threads, guards),
            threads,
            guards,
        ],
    )
}

/// Writes the note on threads and guards.
fn push_note(
    file: &mut Vec<u8>,
    entries: &[(u32, u32)],
    guards: &[(u32, u32)],
) -> Result<(), AllocError>
    requires entries { length entries.now ≤ MAX_THREADS }
    requires guards { length guards.now ≤ MAX_GUARDS }
    ensures written { OnOk result (spec.Writes file.old.items file.new.items
        (spec.note_words entries.now guards.now)) }
    ensures entries { OnOk result (All spec.AreWords entries.now) }
    ensures guards { OnOk result (All spec.AreWords guards.now) }
{
    push_note_head(file, entries.len() as u32, guards.len() as u32)?;
    push_pairs(file, entries)?;
    push_pairs(file, guards)?;
    Ok(())
}

/// Writes the file's header.
fn push_header(file: &mut Vec<u8>, entry: u32) -> Result<(), AllocError>
    ensures { OnOk result (spec.Writes file.old.items file.new.items
        (spec.header_words entry)) }
{
    push_words(
        file,
        &[
            0x464c_457f,
            0x0001_0101,
            0,
            0,
            0x00f3_0002,
            1,
            entry,
            52,
            0,
            0,
            0x0020_0034,
            3,
            0,
        ],
    )
}

/// Writes the program headers of the note, the code and the data, which have these sizes.
fn push_segments(file: &mut Vec<u8>, note: u32, code: u32, fill: u32) -> Result<(), AllocError>
    requires { 148 + note + code < 2 ^ 32 }
    ensures { OnOk result (spec.Writes file.old.items file.new.items
        (spec.segments_words note code fill)) }
{
    push_segment(file, 4, 148, 0, note, 4)?;
    push_segment(file, 1, 148 + note, CODE_START, code, 5)?;
    push_segment(file, 1, 148 + note + code, DATA_START, fill, 6)?;
    Ok(())
}

/// The file of a guest with its code at `CODE_START` and its data, `fill`, at `DATA_START`.
/// Each thread has its entry and its argument. Each lock has its guard, by start and
/// length.
pub fn build(
    alloc: Global,
    code: &[u32],
    entries: &[(u32, u32)],
    fill: &[u8],
    guards: &[(u32, u32)],
) -> Result<Vec<u8>, AllocError>
    requires some { 1 ≤ length entries.now }
    requires entries { length entries.now ≤ MAX_THREADS }
    requires guards { length guards.now ≤ MAX_GUARDS }
    requires code { length code.now ≤ MAX_CODE_WORDS }
    requires fill { length fill.now ≤ MAX_FILL }
    ensures bytes { IfOk result (λ file.
        file.items ≡ spec.built code.now entries.now fill.now guards.now) }
    ensures size { IfOk result (λ file. length file.items ≤ MAX_FILE) }
    ensures image { IfOk result (λ file.
        StandsFor file.items (described code.now entries.now fill.now guards.now)) }
{
    let note = 32 + 8 * entries.len() as u32 + 8 * guards.len() as u32;
    let mut file = Vec::new(alloc);
    push_header(&mut file, entries[0].0)?;
    push_segments(&mut file, note, 4 * code.len() as u32, fill.len() as u32)?;
    push_note(&mut file, entries, guards)?;
    push_words(&mut file, code)?;
    file.extend_from_slice(fill)?;
    Ok(file)
}
