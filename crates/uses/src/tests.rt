ghost use Rattle.std.specs.Prelude.{◌≡◌};

use crate::checks::check_own;
use crate::queues::enter_all;
use crate::runs::run_and_read;
use std::alloc::{AllocError, Global};
use std::test::*;
use tc_build::build::build;
use tc_elf::image::Image;
use tc_elf::load::load;
use tc_isa::held::Held;
use tc_isa::options::Options;
use tc_journal::block::{Block, End, Kind};
use tc_queue::{Queue, Turn};
use tc_replay::{Reason, Rejected, Terms};

/// The first turn of a thread.
fn first_of(thread: u32) -> Turn
    ensures { (result.thread ≡ thread) × (result.number ≡ 1) }
{
    Turn { thread, number: 1 }
}

/// Three turns enter: the first finds nobody, and each of the others is linked.
#[test]
fn three_turns_enter_with_five_calls(rt: HostRuntime) -> Result<(), Fail> {
    let (queue, seats) = Queue::new(rt.alloc(), 3, 1)?;
    let turns = [first_of(0), first_of(1), first_of(2)];
    for mut seat in seats {
        let calls = enter_all(&queue, &mut seat, &turns);
        assert!(rt; calls == 5, "{calls}");
    }
    Ok(())
}

/// `addi x17,x0,93` and `ecall`: an exit in the second turn.
const EXIT: [u32; 2] = [0x05d0_0893, 0x0000_0073];

/// A block of a thread of EXIT, of so many turns.
fn exits(thread: u32, turns: u32) -> Block {
    Block {
        stamp: 0,
        thread,
        turns,
        held: Held::none(),
        kind: Kind::Start,
        worker: 0,
        pc: 0x0010_0000,
        end: End::Exit,
    }
}

/// One worker, fuel 100 and batch limit 0.
const ALONE: Terms = Terms {
    workers: 1,
    fuel: 100,
    limit: 0,
};

/// The image of two threads of EXIT.
fn two_exits(alloc: Global) -> Result<Image, Fail> {
    let entries = [(0x0010_0000, 0); 2];
    let file = build(alloc, &EXIT, &entries, &[], &[])?;
    Ok(load(alloc, &file)?)
}

/// What is wrong with a history of two blocks.
fn judged(
    alloc: Global,
    image: &Image,
    first: Block,
    second: Block,
) -> Result<Option<Rejected>, AllocError> {
    let mut blocks = [first, second];
    check_own(alloc, image, ALONE, &mut blocks)
}

/// Two threads exit in either order; a block of three turns is wrong, at its line.
#[test]
fn own_histories_are_checked(rt: HostRuntime) -> Result<(), Fail> {
    let image = two_exits(rt.alloc())?;
    let wrong = Rejected {
        line: 2,
        reason: Reason::Block,
    };
    let found = judged(rt.alloc(), &image, exits(0, 2), exits(1, 2))?;
    assert!(rt; found.is_none());
    let found = judged(rt.alloc(), &image, exits(1, 2), exits(0, 2))?;
    assert!(rt; found.is_none());
    let found = judged(rt.alloc(), &image, exits(1, 2), exits(0, 3))?;
    assert!(rt; found == Some(wrong));
    Ok(())
}

/// A thread adds 1 to the word of lock 0 inside a section, and exits.
const ONE: [u32; 12] = [
    0x0002_02b7,
    0x0000_0513,
    0x0010_0893,
    0x0000_0073,
    0x0002_a383,
    0x0013_8393,
    0x0072_a023,
    0x0000_0513,
    0x0020_0893,
    0x0000_0073,
    0x05d0_0893,
    0x0000_0073,
];

/// The image of two threads of ONE.
fn two_sections(alloc: Global) -> Result<Image, Fail> {
    let entries = [(0x0010_0000, 0); 2];
    let file = build(alloc, &ONE, &entries, &[0; 4], &[(0x0002_0000, 4)])?;
    Ok(load(alloc, &file)?)
}

/// By one worker each of two threads has three blocks: up to its section, the section, and the rest.
/// Both sections are taken, and each is by the worker of its thread.
#[test]
fn a_run_is_read_as_values(rt: HostRuntime) -> Result<(), Fail> {
    let image = two_sections(rt.alloc())?;
    let options = Options {
        workers: 1,
        fuel: 100,
        limit: 8,
    };
    assert!(rt; image.guards() == 1);
    let (blocks, lock) = run_and_read(&rt, rt.alloc(), &image, options, 0)?;
    assert!(rt; blocks == 6, "{blocks}");
    let is_so = lock.sections == 2 && lock.taken == 2 && lock.adopted == 0;
    assert!(rt; is_so, "{lock:?}");
    Ok(())
}
