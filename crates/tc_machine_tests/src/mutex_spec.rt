ghost use Rattle.std.specs.Prelude.{◌≡◌, ◌<◌, length, IfOk};

use crate::guests::{ONE, image_of};
use std::alloc::{AllocError, Global};
use std::process::Abort;
use std::test::Fail;
use tc_elf::image::Image;
use tc_elf::load::load;
use tc_isa::held::Held;
use tc_isa::reg::Reg;
use tc_journal::block::{Block, BlockV1, End, Kind};
use tc_journal::reading::read_v1;
use tc_mutex_spec::slow::{Slow, SlowStatus};
use tc_mutex_spec::upgrade::upgrade;

/// A guest's file of one segment at the address 0x00010054: `addi x17,x0,93` and `ecall`.
static SMALLEST: [u8; 92] = [
    0x7f, 0x45, 0x4c, 0x46, 0x01, 0x01, 0x01, 0x00, 0x00, 0x00, 0x00, 0x00, 0x00, 0x00, 0x00, 0x00,
    0x02, 0x00, 0xf3, 0x00, 0x01, 0x00, 0x00, 0x00, 0x54, 0x00, 0x01, 0x00, 0x34, 0x00, 0x00, 0x00,
    0x00, 0x00, 0x00, 0x00, 0x00, 0x00, 0x00, 0x00, 0x34, 0x00, 0x20, 0x00, 0x01, 0x00, 0x00, 0x00,
    0x00, 0x00, 0x00, 0x00, 0x01, 0x00, 0x00, 0x00, 0x54, 0x00, 0x00, 0x00, 0x54, 0x00, 0x01, 0x00,
    0x54, 0x00, 0x01, 0x00, 0x08, 0x00, 0x00, 0x00, 0x08, 0x00, 0x00, 0x00, 0x05, 0x00, 0x00, 0x00,
    0x04, 0x00, 0x00, 0x00, 0x93, 0x08, 0xd0, 0x05, 0x73, 0x00, 0x00, 0x00,
];

/// Whether thread 0 has this status, fuel and pc, and no lock.
fn is_at(slow: &Slow, status: SlowStatus, left: u32, pc: u32) -> bool
    requires { 0 < length slow.now.threads }
{
    slow.status(0) == status
        && slow.fuel(0) == left
        && slow.regs(0).pc() == pc
        && slow.held(0) == Held::none()
}

/// Fuel and turns, and then the status, the fuel and the pc of the smallest guest.
type Run = (u32, u32, SlowStatus, u32, u32);

static RUNS: [Run; 4] = [
    (100, 0, SlowStatus::Running, 100, 0x10054),
    (100, 1, SlowStatus::Running, 99, 0x10058),
    (100, 2, SlowStatus::Exited, 98, 0x10058),
    (1, 2, SlowStatus::SpentFuel, 0, 0x10058),
];

fn check_run<R: Abort>(rt: &R, alloc: Global, image: &Image, row: Run) -> Result<(), AllocError> {
    let (fuel, turns, status, left, pc) = row;
    assert!(rt; image.threads() == 1);
    let Some(slow) = Slow::run(alloc, image, fuel, &[(0, 0), (0, turns)])? else {
        panic!(rt; "{turns} turns are defined")
    };
    assert!(rt; is_at(&slow, status, left, pc), "after {turns} turns");
    Ok(())
}

/// Whether all of these turns are defined.
fn is_defined(alloc: Global, image: &Image, schedule: &[(u32, u32)]) -> Result<bool, AllocError> {
    Ok(Slow::run(alloc, image, 100, schedule)?.is_some())
}

/// Each has a turn of no thread, or of one that has ended.
static UNDEFINED: [[(u32, u32); 2]; 3] = [[(0, 2), (0, 1)], [(0, 3), (0, 0)], [(0, 1), (1, 1)]];

fn check_undefined<R: Abort>(rt: &R, alloc: Global, image: &Image) -> Result<(), AllocError> {
    for schedule in &UNDEFINED {
        assert!(rt; !is_defined(alloc, image, schedule)?);
    }
    Ok(())
}

fn check_runs<R: Abort>(rt: &R, alloc: Global, image: &Image) -> Result<(), AllocError> {
    for row in &RUNS {
        check_run(rt, alloc, image, *row)?;
    }
    Ok(())
}

#[test]
fn runs_the_smallest_guest(rt: HostRuntime) -> Result<(), Fail> {
    let image = load(rt.alloc(), &SMALLEST)?;
    check_runs(&rt, rt.alloc(), &image)?;
    check_undefined(&rt, rt.alloc(), &image)?;
    check_old_texts(&rt, rt.alloc(), &image)
}

/// The guest of two threads after these turns. All of them are defined.
fn after<R: Abort>(
    rt: &R,
    alloc: Global,
    image: &Image,
    fuel: u32,
    schedule: &[(u32, u32)],
) -> Result<Slow, AllocError>
    ensures threads { IfOk result (λ slow. length slow.threads ≡ 2) }
    ensures locks { IfOk result (λ slow. length slow.locks ≡ 1) }
{
    assert!(rt; image.threads() == 2 && image.guards() == 1);
    let Some(slow) = Slow::run(alloc, image, fuel, schedule)? else {
        panic!(rt; "each turn is defined")
    };
    Ok(slow)
}

static IN_TURN: [(u32, u32); 6] = [(0, 3), (0, 7), (1, 3), (1, 7), (0, 2), (1, 2)];

/// Both threads have ended their sections.
fn see_sections<R: Abort>(rt: &R, slow: &Slow)
    requires threads { length slow.now.threads ≡ 2 }
    requires locks { length slow.now.locks ≡ 1 }
{
    assert!(rt; slow.bytes(0) == [2, 0, 0, 0].as_slice());
    assert!(rt; slow.owner(0).is_none() && !slow.broken(0));
    assert!(rt; slow.sections(0) == 2);
    assert!(rt; slow.status(1) == SlowStatus::Exited && slow.fuel(1) == 88);
}

/// Two threads take one lock in turn.
fn check_sections<R: Abort>(rt: &R, alloc: Global, image: &Image) -> Result<(), AllocError> {
    let slow = after(rt, alloc, image, 100, &IN_TURN)?;
    see_sections(rt, &slow);
    Ok(())
}

/// A lock has one owner. The fourth turn of thread 1 is its LOCK, and is undefined while another one
/// owns the lock.
fn check_owner<R: Abort>(rt: &R, alloc: Global, image: &Image) -> Result<(), AllocError> {
    assert!(rt; !is_defined(alloc, image, &[(0, 9), (1, 4)])?);
    let slow = after(rt, alloc, image, 100, &[(0, 9), (1, 3)])?;
    assert!(rt; slow.owner(0) == Some(0));
    assert!(rt; slow.held(0).has(0) && !slow.held(1).has(0));
    Ok(())
}

/// The first thread has ended inside its section, and the second one has taken the lock.
fn see_broken<R: Abort>(rt: &R, slow: &Slow)
    requires threads { length slow.now.threads ≡ 2 }
    requires locks { length slow.now.locks ≡ 1 }
{
    assert!(rt; slow.status(0) == SlowStatus::SpentFuel);
    // The next one to take it is told.
    let words = [slow.regs(0).pc(), slow.regs(1).get(Reg::of(10))];
    assert!(rt; words == [0x0010_0024, 1]);
    assert!(rt; slow.broken(0) && slow.owner(0) == Some(1));
    assert!(rt; slow.bytes(0) == [1, 0, 0, 0].as_slice());
}

/// A lock is broken by a thread that ends inside.
fn check_broken<R: Abort>(rt: &R, alloc: Global, image: &Image) -> Result<(), AllocError> {
    let slow = after(rt, alloc, image, 9, &[(0, 10), (1, 4)])?;
    see_broken(rt, &slow);
    Ok(())
}

#[test]
fn two_threads_share_a_lock(rt: HostRuntime) -> Result<(), Fail> {
    let image = image_of(rt.alloc(), &ONE)?;
    check_sections(&rt, rt.alloc(), &image)?;
    check_owner(&rt, rt.alloc(), &image)?;
    check_broken(&rt, rt.alloc(), &image)?;
    check_pcs(&rt, rt.alloc(), &image)?;
    Ok(())
}

/// A block of an old history of the smallest guest, or of the thread of this number.
fn old_block(thread: u32, turns: u32) -> BlockV1
    ensures { result.turns ≡ turns }
{
    BlockV1 {
        stamp: 0,
        thread,
        turns,
        held: Held::none(),
        kind: Kind::Start,
        worker: 0,
        end: End::Exit,
    }
}

/// The block of an old text of one line, with its pc after a run of the smallest guest.
fn upgraded<R: Abort>(
    rt: &R,
    alloc: Global,
    image: &Image,
    line: &str,
) -> Result<Option<Block>, Fail> {
    let old = read_v1(alloc, line.as_bytes())?;
    assert!(rt; old.len() == 1 && old[0].turns >= 1);
    let new = upgrade(alloc, image, 100, &[old[0]])?;
    Ok(new.and_then(|blocks| blocks.first().copied()))
}

/// An old text is read, and its block gets the pc; if the run is undefined, there is none.
fn check_old_texts<R: Abort>(rt: &R, alloc: Global, image: &Image) -> Result<(), Fail> {
    let line = "block 0 thread 0 turns 2 held - kind start worker 0 end exit\n";
    let want = Block {
        stamp: 0,
        thread: 0,
        turns: 2,
        held: Held::none(),
        kind: Kind::Start,
        worker: 0,
        pc: 0x0001_0054,
        end: End::Exit,
    };
    assert!(rt; upgraded(rt, alloc, image, line)? == Some(want));
    let line = "block 0 thread 0 turns 3 held - kind start worker 0 end exit\n";
    assert!(rt; upgraded(rt, alloc, image, line)?.is_none());
    Ok(())
}

/// Where the blocks of two threads begin that each have one section, one thread after the other but
/// for their last blocks.
static PCS: [u32; 6] = [
    0x0010_0000,
    0x0010_000c,
    0x0010_0000,
    0x0010_000c,
    0x0010_0028,
    0x0010_0028,
];

/// Each block has the pc of its row.
fn see_pcs<R: Abort>(rt: &R, blocks: &[Block]) {
    assert!(rt; blocks.len() == PCS.len());
    for (block, pc) in blocks.iter().zip(&PCS) {
        assert!(rt; block.pc == *pc);
    }
}

/// The blocks of two threads that each have one section get their pcs.
fn check_pcs<R: Abort>(rt: &R, alloc: Global, image: &Image) -> Result<(), AllocError> {
    let old = [
        old_block(0, 3),
        old_block(0, 7),
        old_block(1, 3),
        old_block(1, 7),
        old_block(0, 2),
        old_block(1, 2),
    ];
    match upgrade(alloc, image, 100, &old)? {
        Some(blocks) => see_pcs(rt, &blocks),
        None => panic!(rt; "the run is defined"),
    }
    Ok(())
}
