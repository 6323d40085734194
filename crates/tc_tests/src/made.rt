//! The file of the generator's guest.

use crate::ran::run_at;
use crate::usher::{Hold, Usher};
use std::alloc::Global;
use std::process::Abort;
use std::test::Fail;
use tc_elf::image::Image;
use tc_elf::load::load;
use tc_elf::refusal::Refusal;

/// Thread and guard of a number are these.
fn check_place<R: Abort>(rt: &R, image: &Image, number: u32, entry: u32) {
    assert!(rt; number < image.threads() && number < image.guards());
    assert!(rt; image.entry(number) == (entry, 0));
    assert!(rt; image.guard(number) == (0x0002_0000 + number % 4 * 16, 16));
}

/// The file of one round has these threads and guards.
fn check_file<R: Abort>(rt: &R, alloc: Global, file: &[u8]) -> Result<(), Refusal> {
    assert!(rt; file.len() == 524);
    let image = load(alloc, file)?;
    assert!(rt; image.threads() == 4 && image.guards() == 4);
    check_place(rt, &image, 0, 0x0010_0000);
    check_place(rt, &image, 1, 0x0010_0030);
    check_place(rt, &image, 2, 0x0010_0084);
    check_place(rt, &image, 3, 0x0010_00c0);
    Ok(())
}

/// The file of one round is loaded, as the image that was meant.
#[test]
fn the_file_of_one_round_is_loaded(rt: HostRuntime) -> Result<(), Fail> {
    let gate = Usher::new(&rt, rt.alloc(), Hold::Claim);
    let ran = run_at(&rt, rt.alloc(), "gen 1", &[], &gate)?;
    ran.check_done(&rt);
    check_file(&rt, rt.alloc(), &ran.written)?;
    Ok(())
}
