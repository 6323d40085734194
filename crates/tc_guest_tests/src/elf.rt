use crate::parts::{
    SMALLEST, bytes_of, check_row, has_bytes, has_code_and_data, has_guards, has_threads,
    has_words, image_of, image_of_words,
};
use std::alloc::{AllocError, Global};
use std::test::Fail;
use tc_elf::image::{Image, Region};
use tc_elf::limits::MAX_FILE;
use tc_elf::load::load;
use tc_elf::refusal::Refusal;

/// A file as a linker writes it, with two threads and a guard.
const LINKED: [u32; 114] = [
    // The header.
    0x464c457f, 0x00010101, 0x00000000, 0x00000000, 0x00f30002, 0x00000001, 0x00000000, 0x00000034,
    0x0000013c, 0x00000000, 0x00200034, 0x00280005, 0x00020003,
    // A header that is passed over.
    0x70000003, 0x00000000, 0x00000000, 0x00000000, 0x00000000, 0x00000000, 0x00000004, 0x00000001,
    // Code, with the headers and the notes before it.
    0x00000001, 0x00000000, 0x00010000, 0x00010000, 0x00000138, 0x00000138, 0x00000005, 0x00001000,
    // Data, of which the file has the first 4 bytes.
    0x00000001, 0x00000138, 0x00020000, 0x00020000, 0x00000004, 0x00000020, 0x00000006, 0x00001000,
    // A header that is passed over, and that of the notes.
    0x6474e551, 0x00000000, 0x00000000, 0x00000000, 0x00000000, 0x00000000, 0x00000006, 0x00000010,
    0x00000004, 0x000000d4, 0x000100d4, 0x000100d4, 0x0000005c, 0x0000005c, 0x00000004, 0x00000004,
    // A note that is passed over.
    0x00000004, 0x00000014, 0x00000003, 0x00554e47, 0x11111111, 0x22222222, 0x33333333, 0x44444444,
    0x55555555,
    // The note on threads and guards.
    0x00000008, 0x00000024, 0x00000001, 0x4f4c4354, 0x00534b43, 0x00000001, 0x00000002, 0x00000001,
    0x00010130, 0x00000007, 0x00010134, 0x00000009, 0x00020010, 0x00000010,
    // The code and the data.
    0x05d00893, 0x00000073, 0x0000abcd,
    // The section headers. The first is of no section.
    0x00000000, 0x00000000, 0x00000000, 0x00000000, 0x00000000, 0x00000000, 0x00000000, 0x00000000,
    0x00000000, 0x00000000,
    // Of the code.
    0x00000001, 0x00000001, 0x00000006, 0x00010130, 0x00000130, 0x00000008, 0x00000000, 0x00000000,
    0x00000004, 0x00000000,
    // Of the names of sections.
    0x00000007, 0x00000003, 0x00000000, 0x00000000, 0x000001b4, 0x00000011, 0x00000000, 0x00000000,
    0x00000001, 0x00000000,
    // The names of sections, with zero bytes between: `.text` and `.shstrtab`.
    0x65742e00, 0x2e007478, 0x74736873, 0x62617472, 0x00000000,
];

/// The number of a file's refusal, or 0 if it is loaded.
fn refused(alloc: Global, bytes: &[u8]) -> u32 {
    match load(alloc, &bytes[..bytes.len().min(MAX_FILE)]) {
        Ok(_) => 0,
        Err(refusal) => refusal.number(),
    }
}

/// Whether an image has these regions, each with an address and a width.
fn has_regions(image: &Image, regions: &[(u32, u32, Region)]) -> bool {
    for (addr, width, region) in regions {
        if image.region(*addr, *width) != *region {
            return false;
        }
    }
    true
}

static LINKED_REGIONS: [(u32, u32, Region); 7] = [
    (0x10134, 4, Region::Text),
    (0x10138, 1, Region::Nothing),
    (0x2000c, 4, Region::Private),
    (0x2000e, 4, Region::Nothing),
    (0x2001c, 4, Region::Guard(0)),
    (0x7fff_ffff, 1, Region::Stack),
    (0x7fff_fffe, 4, Region::Nothing),
];

/// Whether an image has the threads, the guard and the ranges of the linked file.
fn has_linked_parts(image: &Image) -> bool {
    has_threads(image, &[(0x10130, 7), (0x10134, 9)])
        && has_guards(image, &[(0x20010, 16)])
        && has_code_and_data(image, (0x10000, 312), (0x20000, 32))
}

#[test]
fn a_linked_file_has_its_threads_guards_and_regions(rt: HostRuntime) -> Result<(), Fail> {
    let image = image_of_words(rt.alloc(), &LINKED)?;
    assert!(rt; has_linked_parts(&image) && has_regions(&image, &LINKED_REGIONS));
    Ok(())
}

static LINKED_BYTES: [(u32, Option<u8>); 3] = [
    (0x10000, Some(0x7f)),
    (0x20001, Some(0xab)),
    (0x20020, None),
];

static LINKED_WORDS: [(u32, Option<u32>); 2] = [(0x10134, Some(0x73)), (0x10136, None)];

/// Whether the bytes of an image from an address to another are 0.
fn has_zeros(image: &Image, from: u32, to: u32) -> bool {
    for addr in from..to {
        if image.byte(addr) != Some(0) {
            return false;
        }
    }
    true
}

#[test]
fn a_linked_file_has_its_bytes_and_words(rt: HostRuntime) -> Result<(), Fail> {
    let image = image_of_words(rt.alloc(), &LINKED)?;
    assert!(rt; has_bytes(&image, &LINKED_BYTES) && has_zeros(&image, 0x20004, 0x20020));
    assert!(rt; has_words(&image, &LINKED_WORDS) && image.bytes(0x2001f, 2).is_none());
    assert!(rt; image.bytes(0x20000, 2) == Some([0xcd, 0xab].as_slice()));
    Ok(())
}

/// The number of the refusal of the smallest file's first bytes, or 0.
fn refused_cut(alloc: Global, length: usize) -> Result<u32, AllocError> {
    let whole = bytes_of(alloc, &SMALLEST)?;
    Ok(refused(alloc, &whole[..whole.len().min(length)]))
}

#[test]
fn refuses_the_smallest_file_cut(rt: HostRuntime) -> Result<(), Fail> {
    for (length, number) in [(0, 1), (51, 1), (52, 7), (83, 7), (84, 9), (91, 9), (92, 0)] {
        check_row(refused_cut(rt.alloc(), length)? == number, length)?;
    }
    Ok(())
}

/// The place of a word, and its value.
type Word = (usize, u32);

/// The words that are changed in a file, and the number of the file's refusal, or 0 if it is loaded.
type Case = (&'static [Word], u32);

/// The number of the refusal of a file of these words with some of them changed, or 0.
fn refused_with(alloc: Global, words: &[u32], changes: &[Word]) -> Result<u32, AllocError> {
    let mut words = Vec::from_slice(alloc, words)?;
    for &(at, value) in changes {
        if at < words.len() {
            words[at] = value;
        }
    }
    Ok(refused(alloc, &bytes_of(alloc, &words)?))
}

/// Checks that a file of these words is refused, or loaded, as each case says.
fn check(alloc: Global, words: &[u32], cases: &[Case]) -> Result<(), Fail> {
    for (i, (changes, number)) in cases.iter().enumerate() {
        check_row(refused_with(alloc, words, changes)? == *number, i)?;
    }
    Ok(())
}

static SMALLEST_CHANGED: [Case; 25] = [
    (&[(0, 0x464c4500)], 2),
    (&[(1, 0x00010102)], 3),
    (&[(1, 0x00010201)], 3),
    (&[(1, 0x00020101)], 3),
    (&[(4, 0x00f30003)], 4),
    (&[(4, 0x003e0002)], 5),
    (&[(9, 1)], 6),
    (&[(9, 2)], 6),
    (&[(9, 4)], 6),
    (&[(9, 8)], 6),
    (&[(9, 16)], 0),
    (&[(5, 2)], 7),
    (&[(7, 0xffff_ffe0)], 7),
    (&[(10, 0x00280034)], 7),
    (&[(11, 0)], 7),
    (&[(13, 2)], 8),
    (&[(13, 3)], 8),
    (&[(13, 7)], 8),
    (&[(17, 9)], 9),
    (&[(15, 0x7fff_c000)], 10),
    (&[(19, 7)], 11),
    (&[(6, 0x10055)], 13),
    (&[(6, 0x1005c)], 13),
    (&[(13, 4)], 13),
    (&[(19, 4)], 13),
];

#[test]
fn refuses_the_smallest_file_changed(rt: HostRuntime) -> Result<(), Fail> {
    assert!(rt; Refusal::WritableCode.name() == "WritableCode");
    check(rt.alloc(), &SMALLEST, &SMALLEST_CHANGED)
}

static LINKED_CHANGED: [Case; 29] = [
    // Code past the file's end, too much memory, data that is longer in the file, and data past
    // the last address.
    (&[(22, 0xffff_ffff)], 9),
    (&[(26, 0x0010_0000)], 9),
    (&[(34, 0)], 9),
    (&[(31, 0xffff_ffe4)], 9),
    // Data over the last byte of the code, and over the first of the stack.
    (&[(31, 0x0001_0137)], 10),
    (&[(31, 0x7fff_bfe1)], 10),
    // Data that touch these, or the last address: only the guard is elsewhere.
    (&[(31, 0x0001_0138)], 14),
    (&[(31, 0x7fff_bfe0)], 14),
    (&[(31, 0xffff_ffe0)], 14),
    // Notes past the file's end; a name or a descriptor past the segment's.
    (&[(46, 0xffff_fff0)], 12),
    (&[(49, 91)], 12),
    (&[(53, 0x50)], 12),
    (&[(53, 0xffff_fffd)], 12),
    (&[(54, 0xffff_fffd)], 12),
    // The descriptor's version, its numbers of threads and guards, and its length.
    (&[(67, 0)], 12),
    (&[(67, 2)], 0),
    (&[(67, 3)], 12),
    (&[(68, 0)], 12),
    (&[(69, 0)], 12),
    (&[(63, 0x20)], 12),
    // A note of another name or type is passed over, so that the file's own entry counts.
    (&[(62, 7)], 13),
    (&[(64, 2)], 13),
    // Entries in the data, at an odd place, behind the code.
    (&[(70, 0x0002_0000)], 13),
    (&[(72, 0x0001_0132)], 13),
    (&[(72, 0x0001_0138)], 13),
    // Guards at an odd place, of an odd length, past the data, in the code.
    (&[(74, 0x0002_0012)], 14),
    (&[(75, 6)], 14),
    (&[(74, 0x0002_0014)], 14),
    (&[(74, 0x0001_0000)], 14),
];

/// Several words changed.
static SEVERAL_CHANGED: [Case; 12] = [
    // Sizes whose sum is 2 ^ 32.
    (&[(26, 0x8000_0000), (34, 0x8000_0000)], 9),
    // A segment without memory: in the code, with the flags of writable code, past the file.
    (&[(37, 1), (39, 0x10010)], 0),
    (&[(37, 1), (43, 7)], 0),
    (&[(37, 1), (38, 0x1c9)], 9),
    // No notes, at the file's end and past it.
    (&[(37, 4), (38, 0x1c8)], 0),
    (&[(37, 4), (38, 0x1c9)], 12),
    // The note on threads and guards twice.
    (&[(37, 4), (38, 0xd4), (41, 92)], 12),
    // Fewer bytes than a note's header are left over; just a header is a note.
    (&[(49, 47), (6, 0x10130)], 0),
    (&[(49, 48), (6, 0x10130)], 12),
    // No guard; two guards that touch, and two that share an address.
    (&[(69, 0), (63, 28)], 0),
    (&[(68, 1), (69, 2), (72, 0x2000c), (73, 4)], 0),
    (&[(68, 1), (69, 2), (72, 0x2000c), (73, 8)], 14),
];

#[test]
fn refuses_the_linked_file_changed(rt: HostRuntime) -> Result<(), Fail> {
    check(rt.alloc(), &LINKED, &LINKED_CHANGED)?;
    check(rt.alloc(), &LINKED, &SEVERAL_CHANGED)
}

/// How much a file has of what is limited: program headers, bytes of memory, threads, guards, and
/// bytes of each guard. Before these the version of its note.
type Amounts = (u32, u32, u32, u32, u32, u32);

/// The program header of what is passed over.
const PASSED_OVER: [u32; 8] = [0x6474_e551, 0, 0, 0, 0, 0, 6, 4];

/// Appends the program headers of a file of these amounts, behind the header's first words: of the
/// note, of the code, of data of which the file has no bytes, and those that are passed over.
fn push_headers(words: &mut Vec<u32>, amounts: Amounts, note_size: u32) -> Result<(), AllocError> {
    let (_, headers, memory, _, _, _) = amounts;
    let note = headers.wrapping_mul(32).wrapping_add(52);
    let code = note.wrapping_add(note_size);
    words.extend_from_slice(&[headers, 0])?;
    words.extend_from_slice(&[4, note, 0, 0, note_size, 0, 4, 4])?;
    words.extend_from_slice(&[1, code, 0x1_0000, 0x1_0000, 8, 8, 5, 4])?;
    let size = memory.wrapping_sub(8);
    words.extend_from_slice(&[1, 0, 0x2_0000, 0x2_0000, 0, size, 6, 4])?;
    for _ in 3..headers {
        words.extend_from_slice(&PASSED_OVER)?;
    }
    Ok(())
}

/// Appends so many guards of this length, 8 bytes apart.
fn push_guards(words: &mut Vec<u32>, guards: u32, length: u32) -> Result<(), AllocError> {
    for lock in 0..guards {
        words.extend_from_slice(&[lock.wrapping_mul(8).wrapping_add(0x2_0000), length])?;
    }
    Ok(())
}

/// Appends the note of a file of these amounts, whose threads and guards have so many bytes.
fn push_note(words: &mut Vec<u32>, amounts: Amounts, pairs: u32) -> Result<(), AllocError> {
    let (version, _, _, threads, guards, length) = amounts;
    let size = pairs.wrapping_add(12);
    words.extend_from_slice(&[
        8,
        size,
        1,
        0x4f4c_4354,
        0x0053_4b43,
        version,
        threads,
        guards,
    ])?;
    for _ in 0..threads {
        words.extend_from_slice(&[0x1_0000, 0])?;
    }
    push_guards(words, guards, length)
}

/// The words of a file of these amounts: a header, program headers, a note, and two words of code
/// at 0x00010000. Its data begin at 0x00020000.
fn words_with(alloc: Global, amounts: Amounts) -> Result<Vec<u32>, AllocError> {
    let (_, _, _, threads, guards, _) = amounts;
    let pairs = threads.wrapping_add(guards).wrapping_mul(8);
    let mut words = Vec::from_slice(alloc, &SMALLEST[..11])?;
    push_headers(&mut words, amounts, pairs.wrapping_add(32))?;
    push_note(&mut words, amounts, pairs)?;
    words.extend_from_slice(&[0x05d0_0893, 0x73])?;
    Ok(words)
}

/// The number of the refusal of a file of these amounts, or 0.
fn refused_of(alloc: Global, amounts: Amounts) -> Result<u32, AllocError> {
    let words = words_with(alloc, amounts)?;
    refused_with(alloc, &words, &[])
}

/// The amounts of a file, and the number of its refusal, or 0.
static LIMITS: [(Amounts, u32); 15] = [
    ((1, 16, 66_000, 1, 0, 0), 0),
    ((1, 17, 66_000, 1, 0, 0), 7),
    ((1, 3, 1_048_576, 1, 0, 0), 0),
    ((1, 3, 1_048_577, 1, 0, 0), 9),
    ((1, 3, 66_000, 16, 16, 4), 0),
    ((1, 3, 66_000, 17, 16, 4), 12),
    ((1, 3, 66_000, 16, 17, 4), 12),
    ((2, 3, 66_000, 1, 0, 0), 0),
    ((2, 3, 66_000, 32, 32, 4), 0),
    ((2, 3, 66_000, 33, 32, 4), 12),
    ((2, 3, 66_000, 32, 33, 4), 12),
    ((2, 3, 66_000, 0, 32, 4), 12),
    ((1, 3, 66_000, 1, 1, 0), 14),
    ((1, 3, 66_000, 1, 1, 65_536), 0),
    ((1, 3, 66_000, 1, 1, 65_540), 14),
];

#[test]
fn loads_up_to_the_limits(rt: HostRuntime) -> Result<(), Fail> {
    for (i, (amounts, number)) in LIMITS.iter().enumerate() {
        check_row(refused_of(rt.alloc(), *amounts)? == *number, i)?;
    }
    Ok(())
}

/// The image of the smallest file with so many zero bytes that no file may be longer.
fn longest(alloc: Global) -> Result<Image, Fail> {
    let mut bytes = bytes_of(alloc, &SMALLEST)?;
    bytes.resize(1_048_576, 0)?;
    image_of(alloc, &bytes)
}

#[test]
fn loads_the_longest_file(rt: HostRuntime) -> Result<(), Fail> {
    let image = longest(rt.alloc())?;
    assert!(rt; MAX_FILE == 1_048_576 && image.ranges() == 1);
    Ok(())
}
