//! The profiles of two short histories.

ghost use Rattle.std.specs.Prelude.{◌≡◌, ℕ, ◌+◌, ◌<◌, ◌^◌, true, length, IfOk};
ghost use Rattle.tc_isa.specs.Sets.{has};

use std::alloc::Global;
use std::process::Abort;
use std::test::Fail;
use tc_build::build::{DATA_START, build};
use tc_elf::image::Image;
use tc_elf::load::load;
use tc_isa::held::Held;
use tc_isa::limits::MAX_TURNS;
use tc_journal::block::Block;
use tc_journal::reading::read;
use tc_profile::profile::Profile;
use tc_profile::text::profile_text;

/// The code of a thread that adds 1 to the word at 0x00020000 inside one section and exits:
///
/// ```text
/// lui x5,0x20   addi x10,x0,0   addi x17,x0,1   ecall     lock 0, its 4th turn
/// lw x7,0(x5)   addi x7,x7,1    sw x7,0(x5)
/// addi x10,x0,0 addi x17,x0,2   ecall                     unlock 0, its 10th turn
/// addi x17,x0,93                ecall                     exit, its 12th turn
/// ```
const ONE: [u32; 12] = [
    0x000202b7, 0x00000513, 0x00100893, 0x00000073, 0x0002a383, 0x00138393, 0x0072a023, 0x00000513,
    0x00200893, 0x00000073, 0x05d00893, 0x00000073,
];

/// A run of two threads with that code: the worker that released the lock adopted the section of
/// the other thread.
const ADOPTED: &str = "\
block 0 thread 0 turns 3 held - kind start worker 0 pc 00100000 end wants 0
block 1 thread 0 turns 7 held 0 kind taken worker 0 pc 0010000c end unlocked 0
block 2 thread 1 turns 3 held - kind start worker 1 pc 00100000 end wants 0
block 3 thread 1 turns 7 held 0 kind adopted worker 0 pc 0010000c end unlocked 0
block 4 thread 0 turns 2 held - kind on worker 0 pc 00100028 end exit
block 5 thread 1 turns 2 held - kind on worker 1 pc 00100028 end exit
";

/// Its profile: the lock never changed its worker, and would have once had the adopted section run
/// where its thread came from; that thread moved there and back.
const ADOPTED_PROFILE: &str = "\
tclocks profile 1
lock 0 sections 2 taken 1 adopted 1 granted 0 longest 1 changes 0 home 1
thread 0 blocks 3 turns 12 moves 0
thread 1 blocks 3 turns 12 moves 2
end
";

/// The code of a thread that releases its locks in the order in which it took them:
///
/// ```text
/// addi x10,x0,0   addi x17,x0,1   ecall   lock 0, its 3rd turn
/// addi x10,x0,1   addi x17,x0,1   ecall   lock 1, its 6th turn
/// addi x10,x0,0   addi x17,x0,2   ecall   unlock 0, its 9th turn
/// addi x10,x0,1   addi x17,x0,2   ecall   unlock 1, its 12th turn
/// addi x17,x0,93                  ecall   exit, its 14th turn
/// ```
const TWO_LOCKS: [u32; 14] = [
    0x00000513, 0x00100893, 0x00000073, 0x00100513, 0x00100893, 0x00000073, 0x00000513, 0x00200893,
    0x00000073, 0x00100513, 0x00200893, 0x00000073, 0x05d00893, 0x00000073,
];

/// A run of one thread with that code.
const ALONE: &str = "\
block 0 thread 0 turns 2 held - kind start worker 0 pc 00100000 end wants 0
block 1 thread 0 turns 3 held 0 kind taken worker 0 pc 00100008 end wants 1
block 2 thread 0 turns 4 held 0,1 kind taken worker 0 pc 00100014 end unlocked 0
block 3 thread 0 turns 3 held 1 kind on worker 0 pc 00100024 end unlocked 1
block 4 thread 0 turns 2 held - kind on worker 0 pc 00100030 end exit
";

/// Its profile: a block with two locks begins a section of the one that its first turn took.
const ALONE_PROFILE: &str = "\
tclocks profile 1
lock 0 sections 1 taken 1 adopted 0 granted 0 longest 0 changes 0 home 0
lock 1 sections 1 taken 1 adopted 0 granted 0 longest 0 changes 0 home 0
thread 0 blocks 5 turns 14 moves 0
end
";

/// Whether the locks of a set are among the first so many.
fn is_within(held: Held, locks: u32) -> bool
    ensures { result ≡ true → (k : ℕ) → has held k ≡ true → k < locks }
{
    match held.greatest() {
        None => true,
        Some(greatest) => greatest < locks,
    }
}

/// Adds a block of a thread and of locks that the image has.
fn add<R: Abort>(rt: &R, image: &Image, profile: &mut Profile, block: &Block)
    requires few { length profile.old.history < 2 ^ 32 }
    requires threads { profile.old.threads ≡ length image.now.entries }
    requires locks { profile.old.locks ≡ length image.now.guards }
    ensures history { length profile.new.history ≡ length profile.old.history + 1 }
    ensures threads { profile.new.threads ≡ profile.old.threads }
    ensures locks { profile.new.locks ≡ profile.old.locks }
{
    assert!(rt; block.thread < image.threads());
    assert!(rt; block.turns <= MAX_TURNS);
    assert!(rt; is_within(block.held, image.guards()));
    profile.add(block);
}

/// Adds the blocks of a history in their order.
fn add_all<R: Abort>(rt: &R, image: &Image, profile: &mut Profile, history: &[Block])
    requires few { length profile.old.history + length history.now < 2 ^ 32 }
    requires threads { profile.old.threads ≡ length image.now.entries }
    requires locks { profile.old.locks ≡ length image.now.guards }
    ensures threads { profile.new.threads ≡ profile.old.threads }
    ensures locks { profile.new.locks ≡ profile.old.locks }
{
    for block in history {
        add(rt, image, profile, block);
    }
}

/// The profile of a history.
fn profile_of<R: Abort>(rt: &R, alloc: Global, image: &Image, lines: &str) -> Result<Profile, Fail>
    ensures threads { IfOk result (λ p. p.threads ≡ length image.now.entries) }
    ensures locks { IfOk result (λ p. p.locks ≡ length image.now.guards) }
{
    let history = read(alloc, lines.as_bytes())?;
    assert!(rt; history.len() < 1000);
    let mut profile = Profile::new(alloc, image)?;
    add_all(rt, image, &mut profile, &history);
    Ok(profile)
}

/// Whether the profile of a history has this text.
fn is_told<R: Abort>(
    rt: &R,
    alloc: Global,
    image: &Image,
    lines: &str,
    text: &str,
) -> Result<bool, Fail> {
    let profile = profile_of(rt, alloc, image, lines)?;
    let written = profile_text(alloc, image, &profile)?;
    Ok(written.as_slice() == text.as_bytes())
}

#[test]
fn an_adopted_section_is_no_change_of_worker(rt: HostRuntime) -> Result<(), Fail> {
    let alloc = rt.alloc();
    let entries = [(0x0010_0000, 0); 2];
    let file = build(alloc, &ONE, &entries, &[0; 4], &[(DATA_START, 4)])?;
    let image = load(alloc, &file)?;
    assert!(rt; is_told(&rt, alloc, &image, ADOPTED, ADOPTED_PROFILE)?);
    Ok(())
}

#[test]
fn two_locks_of_one_thread_are_told_apart(rt: HostRuntime) -> Result<(), Fail> {
    let alloc = rt.alloc();
    let guards = [(DATA_START, 4), (DATA_START + 4, 4)];
    let file = build(alloc, &TWO_LOCKS, &[(0x0010_0000, 0)], &[0; 8], &guards)?;
    let image = load(alloc, &file)?;
    assert!(rt; is_told(&rt, alloc, &image, ALONE, ALONE_PROFILE)?);
    Ok(())
}
