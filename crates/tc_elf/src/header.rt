//! The header of the file (System V gABI, "ELF Header"; RISC-V psABI, "ELF Object Files").

ghost use Rattle.std.specs.Prelude.{◌≡◌, ◌≢◌, ◌+◌, ◌*◌, ◌≤◌, None, Some, length, IfOk, IfErr};
ghost use Rattle.tc_elf.specs.Elf.{segments, segments_from};
ghost use Rattle.tc_elf.specs.declared.refusal.Refusal.TheVariants.{OutOfMemory};
ghost use Rattle.tc_elf.specs.Refusals.{header_refusal, is_bad_header};

use crate::limits::MAX_HEADERS;
use crate::refusal::Refusal;
use crate::segment::{Segment, half_at, word_at};
use std::alloc::{AllocError, Global};

/// The length of the file's header in bytes.
pub(crate) const HEADER_LENGTH: usize = 52;

/// The length of a program header in bytes.
const SEGMENT_LENGTH: u16 = 32;

/// The type of an executable file.
const ET_EXEC: u16 = 2;

/// The number of the machine RISC-V.
const EM_RISCV: u16 = 243;

/// Whether the header has another version, or its program headers aren't 1 to 16 of their size in
/// the file.
fn is_bad_header(bytes: &[u8]) -> bool
    requires { HEADER_LENGTH ≤ length bytes.now }
    ensures { result ≡ is_bad_header bytes.now }
{
    let count = half_at(bytes, 44);
    let end = word_at(bytes, 28) as usize + SEGMENT_LENGTH as usize * count as usize;
    word_at(bytes, 20) != 1
        || half_at(bytes, 42) != SEGMENT_LENGTH
        || count == 0
        || count > MAX_HEADERS
        || end > bytes.len()
}

/// The first thing that is wrong with the file's header.
fn header_refusal(bytes: &[u8]) -> Option<Refusal>
    ensures { result ≡ header_refusal bytes.now }
{
    if bytes.len() < HEADER_LENGTH {
        return Some(Refusal::TooShort);
    }
    if bytes[0] != 0x7f || bytes[1] != 0x45 || bytes[2] != 0x4c || bytes[3] != 0x46 {
        return Some(Refusal::BadMagic);
    }
    if bytes[4] != 1 || bytes[5] != 1 || bytes[6] != 1 {
        return Some(Refusal::NotElf32Little);
    }
    if half_at(bytes, 16) != ET_EXEC {
        return Some(Refusal::NotExec);
    }
    if half_at(bytes, 18) != EM_RISCV {
        return Some(Refusal::NotRiscv);
    }
    if word_at(bytes, 36) % 16 != 0 {
        return Some(Refusal::BadFlags);
    }
    if is_bad_header(bytes) {
        return Some(Refusal::BadHeader);
    }
    None
}

/// So many segments, of the program headers from a place of the file on.
fn segments_from(
    alloc: Global,
    bytes: &[u8],
    at: usize,
    count: usize,
) -> Result<Vec<Segment>, AllocError>
    requires { at + 32 * count ≤ length bytes.now }
    ensures { IfOk result (λ v. v.items ≡ segments_from bytes.now at count) }
{
    let mut segments = Vec::with_capacity(alloc, count)?;
    for i in 0..count {
        segments.push(Segment::at(bytes, at + SEGMENT_LENGTH as usize * i))?;
    }
    Ok(segments)
}

/// The segments of a file, unless its header is refused.
pub(crate) fn segments(alloc: Global, bytes: &[u8]) -> Result<Vec<Segment>, Refusal>
    ensures value { IfOk result (λ v. v.items ≡ segments bytes.now) }
    ensures header { IfOk result (λ _. header_refusal bytes.now ≡ None) }
    ensures refused { IfErr result (λ e. e ≢ OutOfMemory → header_refusal bytes.now ≡ Some e) }
{
    if let Some(refusal) = header_refusal(bytes) {
        return Err(refusal);
    }
    let at = word_at(bytes, 28) as usize;
    let count = half_at(bytes, 44) as usize;
    Ok(segments_from(alloc, bytes, at, count)?)
}
