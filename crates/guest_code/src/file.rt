//! The files of guests.

use crate::code::code_of;
use std::alloc::{AllocError, Global};
use tc_build::build::{CODE_START, DATA_START, build};

/// What precedes the size of the code in the smallest guest's file, and what follows it, as code.
const FRONT: &str =
    "464c457f 00010101 00000000 00000000 00f30002 00000001 00010054 00000034 00000000 \
    00000000 00200034 00000001 00000000 00000001 00000054 00010054 00010054";

const BACK: &str = "00000005 00000004";

/// The bytes of words, little-endian.
fn bytes_of(alloc: Global, words: &[u32]) -> Result<Vec<u8>, AllocError> {
    let mut bytes = Vec::new(alloc);
    for word in words {
        bytes.extend_from_slice(&word.to_le_bytes())?;
    }
    Ok(bytes)
}

/// A file with one thread and no locks, as a linker could write it, with the code of this text at
/// 0x00010054. With the code `EXIT` it is the smallest guest's.
pub fn plain(alloc: Global, code: &str) -> Result<Vec<u8>, AllocError> {
    let size = code_of(alloc, code)?.len().min(4096) * 4;
    let text = format!(in alloc; "{FRONT} {size:08x} {size:08x} {BACK} {code}")?;
    bytes_of(alloc, &code_of(alloc, &text)?)
}

/// The entry of a thread from `WORD` or `WORD:ARGUMENT`: the word of code at which it begins, and
/// its argument, 0 if none is written.
fn entry_of(written: &str) -> (u32, u32) {
    let (word, argument) = written.split_once(':').unwrap_or((written, "0"));
    let word = word.parse::<u32>().unwrap_or(0);
    let argument = argument.parse::<u32>().unwrap_or(0);
    (CODE_START + word % 4096 * 4, argument)
}

/// The entries of threads, of which there are at most 32.
fn entries_of(alloc: Global, threads: &str) -> Result<Vec<(u32, u32)>, AllocError> {
    let mut entries = Vec::new(alloc);
    for written in threads.split_ascii_whitespace().take(32) {
        entries.push(entry_of(written))?;
    }
    Ok(entries)
}

/// A guard of one word for each lock, of which there are at most 32.
fn guards_of(alloc: Global, locks: usize) -> Result<Vec<(u32, u32)>, AllocError> {
    let mut guards = Vec::new(alloc);
    for lock in 0..locks.min(32) {
        guards.push((DATA_START + lock as u32 * 4, 4))?;
    }
    Ok(guards)
}

/// The file of these. It is empty if there is no thread, or too much of anything.
fn file_of(
    alloc: Global,
    code: &[u32],
    entries: &[(u32, u32)],
    guards: &[(u32, u32)],
) -> Result<Vec<u8>, AllocError> {
    if entries.is_empty() || entries.len() > 32 || guards.len() > 32 || code.len() > 20_000 {
        return Ok(Vec::new(alloc));
    }
    let zeros = [0; 128];
    build(alloc, code, entries, &zeros[..guards.len() * 4], guards)
}

/// A built file with the code of this text at 0x00100000, and a guard of one zero word for each
/// lock from 0x00020000 on. The threads are `WORD` or `WORD:ARGUMENT` each: the word of code at
/// which one begins, and its argument. It is empty if there is no thread, or too much code.
pub fn built(
    alloc: Global,
    code: &str,
    threads: &str,
    locks: usize,
) -> Result<Vec<u8>, AllocError> {
    let code = code_of(alloc, code)?;
    let entries = entries_of(alloc, threads)?;
    let guards = guards_of(alloc, locks)?;
    file_of(alloc, &code, &entries, &guards)
}
