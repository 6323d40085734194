ghost use Rattle.std.specs.Prelude.{◌≡◌, ◌==◌, ℕ, true, false, None, OnOk, if◌then◌else◌};
ghost use Rattle.tc_segment.specs.View.{IsAtRest};
ghost use Rattle.tc_context.specs.Whole.{set_of};

use crate::guests::{SLEEPING, TWO_LOCKS, WITH_OWN, image_of};
use std::alloc::{AllocError, Global};
use std::process::Abort;
use std::test::Fail;
use tc_context::package::{MAX_NUMBER, Package};
use tc_elf::image::Image;
use tc_isa::held::Held;
use tc_isa::reg::Reg;
use tc_journal::block::{Block, End, Kind};
use tc_segment::state::LockState;
use tc_turn::status::Status;

/// Runs a block of a package by worker 0, which ends so, and seals it.
fn step<R: Abort>(
    rt: &R,
    package: &mut Package,
    image: &Image,
    stamp: u64,
    end: End,
) -> Result<(), AllocError>
    requires image { «package».old.image ≡ image.now }
    ensures image { «package».new.image ≡ «package».old.image }
    ensures locks { OnOk result ((k : ℕ) → set_of «package».new.context k ≡ set_of «package».old.context k) }
{
    package.reserve()?;
    let want = package.want(image);
    assert!(rt; !package.pending() && package.status() == Status::Running);
    assert!(rt; want == package.granted() && package.fits(0));
    package.keeps();
    prove!(image.guards() <= 32);
    let ended = package.run_block(image);
    assert!(rt; package.pending() && ended == end);
    package.seal(stamp, 0);
    assert!(rt; !package.pending());
    Ok(())
}

/// Grants a package the lock that it wants, in this way, as the queue turn of this number.
fn grant_as<R: Abort>(
    rt: &R,
    package: &mut Package,
    image: &Image,
    state: LockState,
    kind: Kind,
    number: u64,
)
    requires image { «package».old.image ≡ image.now }
    requires rest { IsAtRest image.now state.number state }
    requires absent { set_of «package».old.context state.number ≡ false }
    ensures image { «package».new.image ≡ «package».old.image }
    ensures locks { (k : ℕ) → set_of «package».new.context k ≡ (if k == state.number then true else set_of «package».old.context k) }
{
    let lock = state.number();
    assert!(rt; !package.pending() && package.granted().is_none());
    assert!(rt; 1 <= number && number <= MAX_NUMBER);
    assert!(rt; package.want(image) == Some(lock));
    assert!(rt; kind.is_section() && state.passes_to(kind, package.thread()));
    package.grant(state, kind, number);
    assert!(rt; package.granted() == Some(lock));
}

/// Grants a package the lock that it wants, with the bytes of the file and no section yet, as the
/// queue turn of this number.
fn grant_new<R: Abort>(
    rt: &R,
    alloc: Global,
    package: &mut Package,
    image: &Image,
    lock: u32,
    number: u64,
) -> Result<(), AllocError>
    requires image { «package».old.image ≡ image.now }
    requires absent { set_of «package».old.context lock ≡ false }
    ensures image { «package».new.image ≡ «package».old.image }
    ensures locks { OnOk result ((k : ℕ) → set_of «package».new.context k ≡ (if k == lock then true else set_of «package».old.context k)) }
{
    assert!(rt; lock < image.guards());
    let state = LockState::new(alloc, image, lock, 4)?;
    assert!(rt; state.allows(Kind::Taken, 7) && !state.allows(Kind::Granted, 7));
    grant_as(rt, package, image, state, Kind::Taken, number);
    Ok(())
}

/// Takes out a lock that a package gave up. It came with the queue turn of this number.
fn take_out<R: Abort>(rt: &R, package: &mut Package, lock: u32, number: u64) -> LockState
    requires here { set_of «package».old.context lock ≡ true }
    ensures image { «package».new.image ≡ «package».old.image }
    ensures locks { (k : ℕ) → set_of «package».new.context k ≡ (if k == lock then false else set_of «package».old.context k) }
    ensures rest { IsAtRest «package».old.image lock result }
{
    assert!(rt; package.number_of(lock) == number);
    assert!(rt; !package.pending() && package.granted().is_none());
    assert!(rt; !package.held().has(lock));
    package.take_out(lock)
}

/// A block of thread 0 that worker 0 ran.
fn block(stamp: u64, turns: u32, held: Held, kind: Kind, pc: u32, end: End) -> Block {
    Block {
        stamp,
        thread: 0,
        turns,
        held,
        kind,
        worker: 0,
        pc,
        end,
    }
}

/// What a lock's journal has of a block: the block, the fuel before it, and the words that came from
/// elsewhere.
type Entry<'a> = (Block, u32, &'a [u32]);

/// Asserts that a lock's journal has these entries.
fn check_journal<R: Abort>(rt: &R, lock: &LockState, entries: &[Entry<'_>]) {
    assert!(rt; lock.entries() == entries.len());
    for (i, (block, fuel, foreign)) in entries.iter().enumerate() {
        let entry = lock.entry(i);
        assert!(rt; entry.block == *block && entry.fuel == *fuel);
        assert!(rt; entry.foreign == *foreign);
    }
}

/// A package before its first block, of a thread with the argument 7.
fn check_start<R: Abort>(rt: &R, package: &Package) {
    let numbers = [
        package.thread(),
        package.fuel(),
        package.regs().get(Reg::of(10)),
    ];
    assert!(rt; numbers == [0, 100, 7]);
    assert!(rt; package.status() == Status::Running && package.held() == Held::none());
    let empty = [package.log().is_empty(), package.granted().is_none()];
    assert!(rt; empty == [true, true]);
    assert!(rt; [package.pending(), package.fits(7)] == [false, true]);
}

/// The bytes of a thread: a guard and the code are not its own.
static BYTES: [(u32, Option<u8>); 6] = [
    (0x0002_0008, Some(0x99)),
    (0x0002_000b, Some(0xcc)),
    (0x7fff_c000, Some(0)),
    (0x0002_0000, None),
    (0x0002_0007, None),
    (0x0010_0000, None),
];

/// A package has the bytes of its thread.
fn check_bytes<R: Abort>(rt: &R, package: &Package) {
    for (addr, byte) in &BYTES {
        assert!(rt; package.byte(*addr) == *byte, "at {addr}");
    }
}

/// Starts a package of that guest.
fn start<R: Abort>(rt: &R, alloc: Global, image: &Image) -> Result<(), AllocError> {
    assert!(rt; image.threads() == 1);
    let mut package = Package::start(alloc, image, 0, 100)?;
    check_start(rt, &package);
    assert!(rt; package.want(image).is_none());
    check_bytes(rt, &package);
    let numbers = [
        package.next_number(),
        package.next_number(),
        package.next_number(),
    ];
    assert!(rt; numbers == [1, 2, 3]);
    Ok(())
}

#[test]
fn a_package_starts_without_a_lock(rt: HostRuntime) -> Result<(), Fail> {
    let image = image_of(rt.alloc(), &WITH_OWN)?;
    start(&rt, rt.alloc(), &image)?;
    Ok(())
}

/// Runs a package to its sleep of 9 blocks.
fn sleep<R: Abort>(rt: &R, alloc: Global, image: &Image) -> Result<(), AllocError> {
    assert!(rt; image.threads() == 1);
    let mut package = Package::start(alloc, image, 0, 100)?;
    step(rt, &mut package, image, 0, End::Slept)?;
    assert!(rt; !package.log().is_empty());
    let last = package.last();
    assert!(rt; last == block(0, 3, Held::none(), Kind::Start, 0x0010_0000, End::Slept));
    assert!(rt; package.regs().get(Reg::of(10)) == 0);
    match last.end {
        End::Slept => assert!(rt; package.slept() == 9),
        _ => panic!(rt; "it sleeps"),
    }
    Ok(())
}

#[test]
fn a_package_sleeps(rt: HostRuntime) -> Result<(), Fail> {
    let image = image_of(rt.alloc(), &SLEEPING)?;
    sleep(&rt, rt.alloc(), &image)?;
    Ok(())
}

/// Grants a package lock 0 with the greatest number of a queue turn.
fn grant_last<R: Abort>(rt: &R, alloc: Global, image: &Image) -> Result<(), AllocError> {
    assert!(rt; image.threads() == 1);
    let mut package = Package::start(alloc, image, 0, 100)?;
    step(rt, &mut package, image, 0, End::Wants(0))?;
    grant_new(rt, alloc, &mut package, image, 0, 16_777_215)?;
    assert!(rt; package.number_of(0) == 16_777_215);
    Ok(())
}

/// Runs a package to a LOCK, and grants it that lock.
fn grant_next<R: Abort>(
    rt: &R,
    alloc: Global,
    package: &mut Package,
    image: &Image,
    stamp: u64,
    lock: u32,
) -> Result<(), AllocError>
    requires image { «package».old.image ≡ image.now }
    requires absent { set_of «package».old.context lock ≡ false }
    ensures image { «package».new.image ≡ «package».old.image }
    ensures locks { OnOk result ((k : ℕ) → set_of «package».new.context k ≡ (if k == lock then true else set_of «package».old.context k)) }
{
    step(rt, package, image, stamp, End::Wants(lock))?;
    let number = package.next_number();
    grant_new(rt, alloc, package, image, lock, number)
}

/// Runs a package to its UNLOCK of lock 0, and takes that lock out.
fn leave_zero<R: Abort>(rt: &R, package: &mut Package, image: &Image) -> Result<(), AllocError>
    requires image { «package».old.image ≡ image.now }
    requires here { set_of «package».old.context 0 ≡ true }
    ensures image { «package».new.image ≡ «package».old.image }
    ensures locks { OnOk result ((k : ℕ) → set_of «package».new.context k ≡ (if k == 0 then false else set_of «package».old.context k)) }
{
    step(rt, package, image, 2, End::Unlocked(0))?;
    let lock = take_out(rt, package, 0, 1);
    check_zero(rt, &lock);
    Ok(())
}

/// Runs a package from its UNLOCK of lock 0 to that of lock 1, and takes that lock out.
fn leave_one<R: Abort>(rt: &R, package: &mut Package, image: &Image) -> Result<(), AllocError>
    requires image { «package».old.image ≡ image.now }
    requires here { set_of «package».old.context 1 ≡ true }
    ensures image { «package».new.image ≡ «package».old.image }
{
    step(rt, package, image, 3, End::Unlocked(1))?;
    let lock = take_out(rt, package, 1, 2);
    check_one(rt, &lock);
    Ok(())
}

/// Runs a package through both sections to its end.
fn run_through<R: Abort>(rt: &R, alloc: Global, image: &Image) -> Result<(), AllocError> {
    assert!(rt; image.threads() == 1);
    let mut package = Package::start(alloc, image, 0, 100)?;
    grant_next(rt, alloc, &mut package, image, 0, 0)?;
    grant_next(rt, alloc, &mut package, image, 1, 1)?;
    leave_zero(rt, &mut package, image)?;
    leave_one(rt, &mut package, image)?;
    step(rt, &mut package, image, 4, End::Exit)?;
    check_end(rt, &package);
    Ok(())
}

/// The blocks of a package from its start to its end, and the journals of its locks; and a lock that
/// comes with the greatest number.
#[test]
fn a_package_takes_two_locks(rt: HostRuntime) -> Result<(), Fail> {
    let image = image_of(rt.alloc(), &TWO_LOCKS)?;
    run_through(&rt, rt.alloc(), &image)?;
    grant_last(&rt, rt.alloc(), &image)?;
    Ok(())
}

/// The blocks of the package.
fn whole_log() -> [Block; 5] {
    let none = Held::none();
    [
        block(0, 2, none, Kind::Start, 0x0010_0000, End::Wants(0)),
        block(1, 3, none.plus(0), Kind::Taken, 0x0010_0008, End::Wants(1)),
        block(
            2,
            4,
            none.plus(0).plus(1),
            Kind::Taken,
            0x0010_0014,
            End::Unlocked(0),
        ),
        block(3, 3, none.plus(1), Kind::On, 0x0010_0024, End::Unlocked(1)),
        block(4, 2, none, Kind::On, 0x0010_0030, End::Exit),
    ]
}

/// The package after its exit.
fn check_end<R: Abort>(rt: &R, package: &Package) {
    assert!(rt; package.log() == whole_log().as_slice());
    assert!(rt; package.status() == Status::Exited && package.fuel() == 86);
    let regs = package.regs();
    let words = [regs.pc(), regs.get(Reg::of(10)), regs.get(Reg::of(17))];
    assert!(rt; words == [0x0010_0034, 0, 93]);
}

/// A lock of this number after one section, in which nobody wrote to its guard.
fn check_lock<R: Abort>(rt: &R, lock: &LockState, number: u32) {
    assert!(rt; [lock.number(), lock.limit(), lock.run()] == [number, 4, 0]);
    assert!(rt; lock.bytes() == [0, 0, 0, 0].as_slice());
    assert!(rt; lock.sections() == 1 && !lock.broken());
}

/// Lock 0 after its section. Its foreign words are the answer of its own LOCK, in block 1, and that
/// of lock 1's LOCK, in block 2. It was not the only lock that block 2 held, so no Adopted section
/// may follow.
fn check_zero<R: Abort>(rt: &R, lock: &LockState) {
    let first = Held::none().plus(0);
    let both = first.plus(1);
    let taken = block(1, 3, first, Kind::Taken, 0x0010_0008, End::Wants(1));
    let released = block(2, 4, both, Kind::Taken, 0x0010_0014, End::Unlocked(0));
    check_journal(rt, lock, &[(taken, 98, &[0]), (released, 95, &[0])]);
    check_lock(rt, lock, 0);
    let allowed = [
        lock.allows(Kind::Taken, 3),
        lock.allows(Kind::Granted, 3),
        lock.allows(Kind::Adopted, 0),
    ];
    assert!(rt; allowed == [true, true, false]);
}

/// Lock 1 after its section. Its only foreign word is the answer of its own LOCK, in block 2. Block
/// 3 of worker 0 gave it up as the only lock, so an Adopted section of that worker may follow.
fn check_one<R: Abort>(rt: &R, lock: &LockState) {
    let second = Held::none().plus(1);
    let both = second.plus(0);
    let taken = block(2, 4, both, Kind::Taken, 0x0010_0014, End::Unlocked(0));
    let released = block(3, 3, second, Kind::On, 0x0010_0024, End::Unlocked(1));
    check_journal(rt, lock, &[(taken, 95, &[0]), (released, 91, &[])]);
    check_lock(rt, lock, 1);
    let allowed = [
        lock.allows(Kind::Taken, 3),
        lock.allows(Kind::Granted, 0),
        lock.allows(Kind::Adopted, 0),
        lock.allows(Kind::Adopted, 1),
    ];
    assert!(rt; allowed == [true, false, true, false]);
    // But not to the same thread.
    let passes = [
        lock.passes_to(Kind::Adopted, 0),
        lock.passes_to(Kind::Adopted, 1),
    ];
    assert!(rt; passes == [false, true]);
}
