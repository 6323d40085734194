//! The generator's files against what other tools write. The words were assembled by GNU Binutils
//! 2.40 and by LLVM 14, which agree, from text that was written from the description of the guest;
//! readelf finds the headers and the note of the smallest file as described.

use crate::parts::{has_bytes, has_code_and_data, has_guards, has_threads, has_words, image_of};
use std::alloc::{AllocError, Global};
use std::test::Fail;
use tc_build::build::{MAX_CODE_WORDS, MAX_FILL, build};
use tc_build::generate::generate;
use tc_elf::image::Image;

/// Where the code and the data begin.
const CODE: u32 = 0x0010_0000;

const DATA: u32 = 0x0002_0000;

/// The code of one round of each thread.
const ONE_ROUND: [u32; 54] = [
    // Thread 0: `lui x5,0x20`.
    0x000202b7,
    // lock 0: `addi x10,x0,0`, `addi x17,x0,1`, `ecall`.
    0x00000513, 0x00100893, 0x00000073,
    // `lw x7,0(x5)`, `addi x7,x7,1`, `sw x7,0(x5)`.
    0x0002a383, 0x00138393, 0x0072a023,
    // unlock 0.
    0x00000513, 0x00200893, 0x00000073,
    // `addi x17,x0,93`, `ecall`.
    0x05d00893, 0x00000073,
    // Thread 1: lock 1, lock 2.
    0x000202b7, 0x00100513, 0x00100893, 0x00000073, 0x00200513, 0x00100893, 0x00000073,
    // `lw x7,20(x5)`, `addi x7,x7,-2`, `sw x7,20(x5)`.
    0x0142a383, 0xffe38393, 0x0072aa23,
    // `lw x7,36(x5)`, `addi x7,x7,2`, `sw x7,36(x5)`.
    0x0242a383, 0x00238393, 0x0272a223,
    // unlock 1, unlock 2, exit.
    0x00100513, 0x00200893, 0x00000073, 0x00200513, 0x00200893, 0x00000073, 0x05d00893, 0x00000073,
    // Thread 2: lock 2.
    0x000202b7, 0x00200513, 0x00100893, 0x00000073,
    // `lw x7,32(x5)`, `addi x7,x7,1`, `sw x7,32(x5)`.
    0x0202a383, 0x00138393, 0x0272a023,
    // sleep 0, unlock 2, exit.
    0x00000513, 0x00300893, 0x00000073, 0x00200513, 0x00200893, 0x00000073, 0x05d00893, 0x00000073,
    // Thread 3: sleep 0, exit.
    0x000202b7, 0x00000513, 0x00300893, 0x00000073, 0x05d00893, 0x00000073,
];

/// Its threads and its guards.
const ROUND_ENTRIES: [(u32, u32); 4] = [
    (0x0010_0000, 0),
    (0x0010_0030, 0),
    (0x0010_0084, 0),
    (0x0010_00c0, 0),
];

const ROUND_GUARDS: [(u32, u32); 4] = [
    (0x0002_0000, 16),
    (0x0002_0010, 16),
    (0x0002_0020, 16),
    (0x0002_0030, 16),
];

/// The image of one round.
fn one_round(alloc: Global) -> Result<Image, Fail> {
    let file = generate(alloc, 1)?;
    image_of(alloc, &file)
}

#[test]
fn one_round_is_loaded_as_other_tools_write_it(rt: HostRuntime) -> Result<(), Fail> {
    let image = one_round(rt.alloc())?;
    assert!(rt; has_threads(&image, &ROUND_ENTRIES) && has_guards(&image, &ROUND_GUARDS));
    assert!(rt; has_code_and_data(&image, (CODE, 216), (DATA, 64)));
    Ok(())
}

/// Whether an image has the words of one round.
fn has_one_round(image: &Image) -> bool {
    for (i, word) in ONE_ROUND.iter().enumerate() {
        if image.fetch(CODE + 4 * i as u32) != Some(*word) {
            return false;
        }
    }
    true
}

#[test]
fn one_round_has_the_words_that_other_tools_write(rt: HostRuntime) -> Result<(), Fail> {
    let image = one_round(rt.alloc())?;
    assert!(rt; has_one_round(&image));
    assert!(rt; image.bytes(0x0002_0030, 8) == Some([0, 0, 0, 0, 0xe8, 3, 0, 0].as_slice()));
    Ok(())
}

/// The FNV-1a checksum of bytes, of 32 bits.
fn checksum(bytes: &[u8]) -> u32 {
    let mut sum = 0x811c_9dc5u32;
    for byte in bytes {
        sum = (sum ^ u32::from(*byte)).wrapping_mul(0x0100_0193);
    }
    sum
}

#[test]
fn files_are_as_other_tools_write_them(rt: HostRuntime) -> Result<(), Fail> {
    for (rounds, length, sum) in [
        (1, 524, 0xe32f_c760),
        (36, 6_404, 0x30f6_7568),
        (2_000, 336_356, 0xd101_612f),
    ] {
        let file = generate(rt.alloc(), rounds)?;
        assert!(rt; (file.len(), checksum(&file)) == (length, sum));
    }
    Ok(())
}

/// `addi x17,x0,93` and `ecall`.
const EXIT: [u32; 2] = [0x05d0_0893, 0x0000_0073];

/// Two threads begin at them.
const ENTRIES: [(u32, u32); 2] = [(0x0010_0000, 7), (0x0010_0004, 0xffff_ffff)];

const GUARDS: [(u32, u32); 3] = [(0x0002_0000, 4), (0x0002_0004, 8), (0x0002_000c, 12)];

/// The file of these.
fn built(alloc: Global) -> Result<Vec<u8>, AllocError> {
    build(
        alloc,
        &EXIT,
        &ENTRIES,
        b"abcdefghijklmnopqrstuvwxy",
        &GUARDS,
    )
}

/// Words of code at its addresses, and bytes.
static BUILT_WORDS: [(u32, Option<u32>); 4] = [
    (0x0010_0000, Some(0x05d0_0893)),
    (0x0010_0004, Some(0x0000_0073)),
    (0x0010_0008, None),
    (0x0002_0000, None),
];

static BUILT_BYTES: [(u32, Option<u8>); 10] = [
    (0x000f_ffff, None),
    (0x0010_0000, Some(0x93)),
    (0x0010_0003, Some(0x05)),
    (0x0010_0004, Some(0x73)),
    (0x0010_0008, None),
    (0x0001_ffff, None),
    (0x0002_0000, Some(b'a')),
    (0x0002_000c, Some(b'm')),
    (0x0002_0018, Some(b'y')),
    (0x0002_0019, None),
];

/// Whether an image is as described.
fn is_built(image: &Image) -> bool {
    has_threads(image, &ENTRIES)
        && has_guards(image, &GUARDS)
        && has_code_and_data(image, (CODE, 8), (DATA, 25))
        && has_words(image, &BUILT_WORDS)
        && has_bytes(image, &BUILT_BYTES)
}

#[test]
fn a_built_file_is_loaded_as_described(rt: HostRuntime) -> Result<(), Fail> {
    let file = built(rt.alloc())?;
    assert!(rt; file.len() == 253);
    let image = image_of(rt.alloc(), &file)?;
    assert!(rt; is_built(&image));
    Ok(())
}

/// A file with as much code and as many bytes of data as a file may have.
fn largest(alloc: Global) -> Result<Vec<u8>, AllocError> {
    let mut code = Vec::new(alloc);
    code.resize(MAX_CODE_WORDS, 0x0000_0073)?;
    let mut fill = Vec::new(alloc);
    fill.resize(MAX_FILL, b'x')?;
    build(alloc, &code, &[(0x001c_34fc, 0)], &fill, &[])
}

#[test]
fn builds_up_to_the_limits(rt: HostRuntime) -> Result<(), Fail> {
    assert!(rt; MAX_CODE_WORDS == 200_000 && MAX_FILL == 65_536);
    let image = image_of(rt.alloc(), &largest(rt.alloc())?)?;
    assert!(rt; has_threads(&image, &[(0x001c_34fc, 0)]));
    assert!(rt; has_code_and_data(&image, (CODE, 800_000), (DATA, 65_536)));
    Ok(())
}
