use crate::guests::{GUARDED, image_of};
use std::alloc::{AllocError, Global};
use std::process::Abort;
use std::test::Fail;
use tc_elf::image::Image;
use tc_isa::regs::Regs;
use tc_journal::block::Kind;
use tc_segment::state::LockState;

/// A new lock has the bytes of the file.
fn check_new<R: Abort>(rt: &R, alloc: Global, image: &Image) -> Result<(), AllocError> {
    assert!(rt; image.guards() == 1);
    let lock = LockState::new(alloc, image, 0, 2)?;
    assert!(rt; lock.number() == 0 && lock.limit() == 2);
    assert!(rt; lock.bytes() == [0x11, 0x22, 0x33, 0x44, 0x55, 0x66, 0x77, 0x88].as_slice());
    assert!(rt; lock.allows(Kind::Taken, 3) && lock.passes_to(Kind::Taken, 0));
    Ok(())
}

/// A lock that was broken in its first section, in a block that stores to the guard.
fn check_changed<R: Abort>(rt: &R, lock: &LockState) {
    assert!(rt; lock.bytes() == [0x11, 0x22, 0x33, 0x44, 0xfe, 0xca, 0xad, 0x78].as_slice());
    assert!(rt; lock.broken() && lock.sections() == 1);
    assert!(rt; lock.entries() == 0 && lock.run() == 0);
}

/// A block loads from the guard and stores to it, and breaks the lock.
fn change<R: Abort>(rt: &R, alloc: Global, image: &Image) -> Result<(), AllocError> {
    assert!(rt; image.guards() == 1);
    let (start, length) = image.guard(0);
    assert!(rt; start == 0x20004 && length == 8);
    let mut lock = LockState::new(alloc, image, 0, 2)?;
    lock.reserve(2)?;
    lock.open_entry(Regs::start(0x100c4, 7, 0), 5);
    lock.note_foreign(0);
    lock.begin_section();
    assert!(rt; lock.load(0x20006, 2) == 0x4433);
    lock.store(0x20008, 4, 0x0bad_cafe);
    lock.store(0x2000b, 1, 0x1234_5678);
    lock.note_foreign(9);
    assert!(rt; lock.load(0x20008, 4) == 0x78ad_cafe);
    lock.break_lock();
    check_changed(rt, &lock);
    Ok(())
}

#[test]
fn a_block_changes_the_guard(rt: HostRuntime) -> Result<(), Fail> {
    let image = image_of(rt.alloc(), &GUARDED)?;
    check_new(&rt, rt.alloc(), &image)?;
    change(&rt, rt.alloc(), &image)?;
    Ok(())
}
