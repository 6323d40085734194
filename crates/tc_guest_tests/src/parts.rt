//! Images of files of words, and the parts of an image in comparison with lists.

use std::alloc::{AllocError, Global};
use std::test::Fail;
use tc_elf::image::Image;
use tc_elf::limits::MAX_FILE;
use tc_elf::load::load;

/// A file of one segment: `addi x17,x0,93` and `ecall`, at the address 0x00010054.
pub(crate) const SMALLEST: [u32; 23] = [
    0x464c457f, 0x00010101, 0x00000000, 0x00000000, 0x00f30002, 0x00000001, 0x00010054, 0x00000034,
    0x00000000, 0x00000000, 0x00200034, 0x00000001, 0x00000000, 0x00000001, 0x00000054, 0x00010054,
    0x00010054, 0x00000008, 0x00000008, 0x00000005, 0x00000004, 0x05d00893, 0x00000073,
];

/// A test's failure that names a row of a table, unless it is right.
pub(crate) fn check_row(right: bool, row: usize) -> Result<(), Fail> {
    if right {
        return Ok(());
    }
    Err(Fail::new(format_args!("row {row}")))
}

/// The bytes of words, little-endian.
pub(crate) fn bytes_of(alloc: Global, words: &[u32]) -> Result<Vec<u8>, AllocError> {
    let mut bytes = Vec::new(alloc);
    for word in words {
        bytes.extend_from_slice(&word.to_le_bytes())?;
    }
    Ok(bytes)
}

/// The image of a file of these bytes, as far as a file may be long.
pub(crate) fn image_of(alloc: Global, bytes: &[u8]) -> Result<Image, Fail> {
    Ok(load(alloc, &bytes[..bytes.len().min(MAX_FILE)])?)
}

/// The image of a file of these words.
pub(crate) fn image_of_words(alloc: Global, words: &[u32]) -> Result<Image, Fail> {
    let bytes = bytes_of(alloc, words)?;
    image_of(alloc, &bytes)
}

/// Whether an image has these threads, each with its first address and its argument.
pub(crate) fn has_threads(image: &Image, entries: &[(u32, u32)]) -> bool {
    if image.threads() as usize != entries.len() {
        return false;
    }
    for (thread, entry) in entries.iter().enumerate() {
        if image.entry(thread as u32) != *entry {
            return false;
        }
    }
    true
}

/// Whether an image has these guards, each with its address and its length.
pub(crate) fn has_guards(image: &Image, guards: &[(u32, u32)]) -> bool {
    if image.guards() as usize != guards.len() {
        return false;
    }
    for (lock, guard) in guards.iter().enumerate() {
        if image.guard(lock as u32) != *guard {
            return false;
        }
    }
    true
}

/// Whether an image has a range of code and one of data, each with this address and this length.
pub(crate) fn has_code_and_data(image: &Image, code: (u32, u32), data: (u32, u32)) -> bool {
    image.ranges() == 2
        && image.range(0) == (code.0, code.1, false, true)
        && image.range(1) == (data.0, data.1, true, false)
}

/// Whether an image has these words of code at these addresses, or none.
pub(crate) fn has_words(image: &Image, words: &[(u32, Option<u32>)]) -> bool {
    for (addr, word) in words {
        if image.fetch(*addr) != *word {
            return false;
        }
    }
    true
}

/// Whether an image has these bytes at these addresses, or none.
pub(crate) fn has_bytes(image: &Image, bytes: &[(u32, Option<u8>)]) -> bool {
    for (addr, byte) in bytes {
        if image.byte(*addr) != *byte {
            return false;
        }
    }
    true
}
