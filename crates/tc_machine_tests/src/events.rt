ghost use Rattle.tc_core.specs.View.{IsCoreOf};

use crate::deeds::Deed::{
    Adopt, Back, Claim, Commit, Enter, Finish, Grant, Leave, Park, SetFree, Ship, Take, Turn,
};
use crate::deeds::{Deed, event_of, times_of};
use crate::guests::{ALIKE, DOZE, NEST, ONE, OUT_OF_ORDER, image_of};
use std::alloc::{AllocError, Global};
use std::process::Abort;
use std::test::Fail;
use tc_core::machine::Core;
use tc_core::place::LockPlace::{Free, Granted, Loose, With};
use tc_core::place::ThreadPlace::{At, Done, Parked, Ready, Waiting};
use tc_core::place::{LockPlace, ThreadPlace};
use tc_elf::image::Image;
use tc_isa::held::Held;
use tc_isa::limits::MAX_BATCH;
use tc_journal::block::End;

/// A worker, a thread, and what the one does with the other.
type Row = (u32, u32, Deed);

/// The places of threads 0 to 2, and of locks 0 and 1.
type Threads = (ThreadPlace, ThreadPlace, ThreadPlace);

type Locks = (LockPlace, LockPlace);

/// A row, and the places of threads and locks afterwards. Numbers that the guest lacks are Ready, or Free.
type Scene = (Row, Threads, Locks);

/// Does what a row says, and says whether it was enabled each time.
fn repeat(core: &mut Core, image: &Image, row: Row) -> bool
    requires { IsCoreOf image.now core.old }
    ensures { IsCoreOf image.now core.new }
{
    let (worker, thread, deed) = row;
    let event = event_of(worker, thread, deed);
    for done in 0..times_of(deed) {
        if !core.step(image, event) {
            return false;
        }
    }
    true
}

fn lock_place(core: &Core, lock: u32) -> LockPlace {
    match core.custody(lock) {
        Some(custody) => custody.place,
        None => Free,
    }
}

fn is_at(core: &Core, threads: Threads, locks: Locks) -> bool {
    let (first, second, third) = (core.course(0), core.course(1), core.course(2));
    [first.place, second.place, third.place] == [threads.0, threads.1, threads.2]
        && [lock_place(core, 0), lock_place(core, 1)] == [locks.0, locks.1]
}

/// Each row goes as it is written.
fn walk<R: Abort>(rt: &R, core: &mut Core, image: &Image, name: &str, rows: &[Scene])
    requires { IsCoreOf image.now core.old }
    ensures { IsCoreOf image.now core.new }
{
    for (number, scene) in rows.iter().enumerate() {
        let (row, threads, locks) = *scene;
        let went = repeat(core, image, row) && is_at(core, threads, locks);
        assert!(rt; went, "{name}: row {number}");
    }
}

/// A row, and whether it is enabled each time: where a waiter is adopted, and where it is granted the
/// lock. There an Adopt is a Grant, and a Grant is an Adopt.
type Try = (Row, (bool, bool));

const YES: (bool, bool) = (true, true);

const NO: (bool, bool) = (false, false);

const ADOPTED: (bool, bool) = (true, false);

/// The deed where a waiter is granted the lock.
fn granted(deed: Deed) -> Deed {
    match deed {
        Adopt(lock) => Grant(lock),
        Grant(lock) => Adopt(lock),
        other => other,
    }
}

/// A try where a waiter is adopted, or else is granted the lock.
fn try_as(adopted: bool, one: Try) -> (Row, bool) {
    let (row, enabled) = one;
    if adopted {
        (row, enabled.0)
    } else {
        ((row.0, row.1, granted(row.2)), enabled.1)
    }
}

/// Each is enabled, or not, as it is written beside it. A waiter is adopted where the case has a
/// limit.
fn try_all<R: Abort>(rt: &R, core: &mut Core, image: &Image, case: &Case)
    requires { IsCoreOf image.now core.old }
    ensures { IsCoreOf image.now core.new }
{
    for (number, one) in case.tries.iter().enumerate() {
        let (row, enabled) = try_as(case.limit > 0, *one);
        assert!(rt;
            repeat(core, image, row) == enabled,
            "{}: try {number}",
            case.name
        );
    }
}

/// A guest, how many workers, and the limit of sections in a row. It goes as these rows say, the one
/// part behind the other, and then these tries do.
struct Case {
    name: &'static str,
    guest: &'static [u32],
    workers: u32,
    limit: u32,
    rows: (&'static [Scene], &'static [Scene]),
    tries: &'static [Try],
}

/// Does the rows of a case, and then its tries.
fn go<R: Abort>(rt: &R, core: &mut Core, image: &Image, case: &Case)
    requires { IsCoreOf image.now core.old }
    ensures { IsCoreOf image.now core.new }
{
    walk(rt, core, image, case.name, case.rows.0);
    walk(rt, core, image, case.name, case.rows.1);
    try_all(rt, core, image, case);
}

/// What `check` shows, of the guest's image.
fn check_image<R: Abort>(
    rt: &R,
    alloc: Global,
    image: &Image,
    case: &Case,
) -> Result<(), AllocError> {
    let (workers, limit) = (case.workers, case.limit);
    assert!(rt; 1 <= workers && workers <= 3);
    assert!(rt; limit <= MAX_BATCH);
    let mut core = Core::new(alloc, image, 100, workers, limit)?;
    go(rt, &mut core, image, case);
    Ok(())
}

/// A case goes as it says.
fn check<R: Abort>(rt: &R, alloc: Global, case: &Case) -> Result<(), Fail> {
    let image = image_of(alloc, case.guest)?;
    check_image(rt, alloc, &image, case)?;
    Ok(())
}

#[test]
fn events_go_as_the_cases_say(rt: HostRuntime) -> Result<(), Fail> {
    for case in &CASES {
        check(&rt, rt.alloc(), case)?;
    }
    Ok(())
}

static CASES: [Case; 7] = [
    Case {
        name: "a waiter is adopted",
        guest: &ONE,
        workers: 2,
        limit: 4,
        rows: (&UP_TO_THE_WAIT, &FROM_THE_ADOPTION),
        tries: &[],
    },
    Case {
        name: "a waiter is granted the lock",
        guest: &ONE,
        workers: 2,
        limit: 0,
        rows: (&UP_TO_THE_WAIT, &FROM_THE_GRANT),
        tries: &[],
    },
    Case {
        name: "a thread sleeps with its lock",
        guest: &DOZE,
        workers: 2,
        limit: 4,
        rows: (&UP_TO_THE_WAIT, &FROM_THE_SLEEP),
        tries: &[],
    },
    Case {
        name: "each condition of a waiter that is adopted counts",
        guest: &ALIKE,
        workers: 3,
        limit: 4,
        rows: (&[], &[]),
        tries: &CONDITIONS,
    },
    Case {
        name: "each condition of a waiter that is granted the lock counts",
        guest: &ALIKE,
        workers: 3,
        limit: 0,
        rows: (&[], &[]),
        tries: &CONDITIONS,
    },
    Case {
        name: "a thread that ended at a lock enters no line",
        guest: &OUT_OF_ORDER,
        workers: 3,
        limit: 4,
        rows: (&[], &[]),
        tries: &TO_THE_FAULT,
    },
    Case {
        name: "only a thread that has slept is parked",
        guest: &DOZE,
        workers: 2,
        limit: 4,
        rows: (&UP_TO_THE_WAIT, &[]),
        tries: &AROUND_THE_SLEEP,
    },
];

/// Thread 0 runs to its lock and takes it, and thread 1 waits for it.
const UP_TO_THE_WAIT: [Scene; 11] = [
    ((0, 0, Claim), (At(0), Ready, Ready), (Free, Free)),
    ((0, 0, Turn(3)), (At(0), Ready, Ready), (Free, Free)),
    ((0, 0, Commit), (At(0), Ready, Ready), (Free, Free)),
    ((0, 0, Enter(0)), (At(0), Ready, Ready), (Free, Free)),
    ((0, 0, Take(0)), (At(0), Ready, Ready), (Granted(0), Free)),
    ((0, 0, Turn(1)), (At(0), Ready, Ready), (With(0), Free)),
    ((1, 1, Claim), (At(0), At(1), Ready), (With(0), Free)),
    ((1, 1, Turn(3)), (At(0), At(1), Ready), (With(0), Free)),
    ((1, 1, Commit), (At(0), At(1), Ready), (With(0), Free)),
    ((1, 1, Enter(0)), (At(0), At(1), Ready), (With(0), Free)),
    ((1, 1, Ship(0)), (At(0), Waiting(0), Ready), (With(0), Free)),
];

/// Thread 1 is adopted by worker 0, and both threads end.
const FROM_THE_ADOPTION: [Scene; 16] = [
    ((0, 0, Turn(6)), (At(0), Waiting(0), Ready), (With(0), Free)),
    ((0, 0, Commit), (At(0), Waiting(0), Ready), (Loose(0), Free)),
    ((0, 1, Adopt(0)), (At(0), At(0), Ready), (Granted(1), Free)),
    ((0, 1, Turn(1)), (At(0), At(0), Ready), (With(1), Free)),
    ((0, 1, Turn(6)), (At(0), At(0), Ready), (With(1), Free)),
    ((0, 1, Commit), (At(0), At(0), Ready), (Loose(0), Free)),
    ((0, 0, Leave(0)), (At(0), At(0), Ready), (Loose(0), Free)),
    ((0, 0, SetFree(0)), (At(0), At(0), Ready), (Free, Free)),
    ((0, 1, Back), (At(0), Ready, Ready), (Free, Free)),
    ((0, 0, Turn(2)), (At(0), Ready, Ready), (Free, Free)),
    ((0, 0, Commit), (At(0), Ready, Ready), (Free, Free)),
    ((0, 0, Finish), (Done, Ready, Ready), (Free, Free)),
    ((1, 1, Claim), (Done, At(1), Ready), (Free, Free)),
    ((1, 1, Turn(2)), (Done, At(1), Ready), (Free, Free)),
    ((1, 1, Commit), (Done, At(1), Ready), (Free, Free)),
    ((1, 1, Finish), (Done, Done, Ready), (Free, Free)),
];

/// Thread 1 is granted the lock, and worker 1 runs its section.
const FROM_THE_GRANT: [Scene; 8] = [
    ((0, 0, Turn(6)), (At(0), Waiting(0), Ready), (With(0), Free)),
    ((0, 0, Commit), (At(0), Waiting(0), Ready), (Loose(0), Free)),
    ((0, 1, Grant(0)), (At(0), Ready, Ready), (Granted(1), Free)),
    ((1, 1, Claim), (At(0), At(1), Ready), (Granted(1), Free)),
    ((1, 1, Turn(7)), (At(0), At(1), Ready), (With(1), Free)),
    ((1, 1, Commit), (At(0), At(1), Ready), (Loose(1), Free)),
    ((1, 1, Leave(0)), (At(0), At(1), Ready), (Loose(1), Free)),
    ((1, 1, SetFree(0)), (At(0), At(1), Ready), (Free, Free)),
];

/// Thread 0 sleeps with its lock, and worker 1 runs the rest of its section.
const FROM_THE_SLEEP: [Scene; 7] = [
    ((0, 0, Turn(3)), (At(0), Waiting(0), Ready), (With(0), Free)),
    ((0, 0, Commit), (At(0), Waiting(0), Ready), (With(0), Free)),
    ((0, 0, Park), (Parked, Waiting(0), Ready), (With(0), Free)),
    ((1, 0, Claim), (At(1), Waiting(0), Ready), (With(0), Free)),
    ((1, 0, Turn(3)), (At(1), Waiting(0), Ready), (With(0), Free)),
    ((1, 0, Commit), (At(1), Waiting(0), Ready), (Loose(1), Free)),
    ((1, 1, Adopt(0)), (At(1), At(1), Ready), (Granted(1), Free)),
];

/// Thread 0 takes lock 1 and thread 1 takes lock 0, each at its worker. Thread 2 waits for lock 0.
static UP_TO_THE_NEST: [Scene; 17] = [
    ((0, 0, Claim), (At(0), Ready, Ready), (Free, Free)),
    ((0, 0, Turn(2)), (At(0), Ready, Ready), (Free, Free)),
    ((0, 0, Commit), (At(0), Ready, Ready), (Free, Free)),
    ((0, 0, Enter(1)), (At(0), Ready, Ready), (Free, Free)),
    ((0, 0, Take(1)), (At(0), Ready, Ready), (Free, Granted(0))),
    ((1, 1, Claim), (At(0), At(1), Ready), (Free, Granted(0))),
    ((1, 1, Turn(2)), (At(0), At(1), Ready), (Free, Granted(0))),
    ((1, 1, Commit), (At(0), At(1), Ready), (Free, Granted(0))),
    ((1, 1, Enter(0)), (At(0), At(1), Ready), (Free, Granted(0))),
    (
        (1, 1, Take(0)),
        (At(0), At(1), Ready),
        (Granted(1), Granted(0)),
    ),
    (
        (0, 0, Turn(4)),
        (At(0), At(1), Ready),
        (Granted(1), With(0)),
    ),
    ((1, 1, Turn(4)), (At(0), At(1), Ready), (With(1), With(0))),
    ((2, 2, Claim), (At(0), At(1), At(2)), (With(1), With(0))),
    ((2, 2, Turn(2)), (At(0), At(1), At(2)), (With(1), With(0))),
    ((2, 2, Commit), (At(0), At(1), At(2)), (With(1), With(0))),
    ((2, 2, Enter(0)), (At(0), At(1), At(2)), (With(1), With(0))),
    (
        (2, 2, Ship(0)),
        (At(0), At(1), Waiting(0)),
        (With(1), With(0)),
    ),
];

/// Thread 2 is adopted with lock 0, waits for lock 1 with it, is adopted with that one too, and gives
/// both back.
static THROUGH_THE_NEST: [Scene; 14] = [
    (
        (1, 1, Commit),
        (At(0), At(1), Waiting(0)),
        (Loose(1), With(0)),
    ),
    (
        (1, 2, Adopt(0)),
        (At(0), At(1), At(1)),
        (Granted(2), With(0)),
    ),
    ((1, 2, Turn(3)), (At(0), At(1), At(1)), (With(2), With(0))),
    ((1, 2, Commit), (At(0), At(1), At(1)), (With(2), With(0))),
    ((1, 2, Enter(1)), (At(0), At(1), At(1)), (With(2), With(0))),
    (
        (1, 2, Ship(1)),
        (At(0), At(1), Waiting(1)),
        (With(2), With(0)),
    ),
    (
        (0, 0, Commit),
        (At(0), At(1), Waiting(1)),
        (With(2), Loose(0)),
    ),
    (
        (0, 2, Adopt(1)),
        (At(0), At(1), At(0)),
        (With(2), Granted(2)),
    ),
    ((0, 2, Turn(4)), (At(0), At(1), At(0)), (With(2), With(2))),
    ((0, 2, Commit), (At(0), At(1), At(0)), (With(2), Loose(0))),
    ((0, 0, Leave(1)), (At(0), At(1), At(0)), (With(2), Loose(0))),
    ((0, 0, SetFree(1)), (At(0), At(1), At(0)), (With(2), Free)),
    ((0, 2, Turn(3)), (At(0), At(1), At(0)), (With(2), Free)),
    ((0, 2, Commit), (At(0), At(1), At(0)), (Loose(0), Free)),
];

/// Whether the lock was last released by a block that had these locks.
fn was_released_by(core: &Core, lock: u32, held: Held) -> bool {
    match core.custody(lock).and_then(|custody| custody.last) {
        Some(release) => release.held == held && release.end == End::Unlocked(lock),
        None => false,
    }
}

/// Lock 1 is last released by the block that has both, lock 0 by the one that has it alone.
fn go_through_the_nest<R: Abort>(rt: &R, alloc: Global, image: &Image) -> Result<(), AllocError> {
    let first = Held::none().plus(0);
    let mut core = Core::new(alloc, image, 100, 3, 4)?;
    walk(rt, &mut core, image, "up to the nest", &UP_TO_THE_NEST);
    walk(rt, &mut core, image, "through the nest", &THROUGH_THE_NEST);
    assert!(rt; was_released_by(&core, 1, first.plus(1)) && was_released_by(&core, 0, first));
    Ok(())
}

#[test]
fn a_waiter_is_shipped_with_the_lock_that_it_holds(rt: HostRuntime) -> Result<(), Fail> {
    let image = image_of(rt.alloc(), &NEST)?;
    go_through_the_nest(&rt, rt.alloc(), &image)?;
    Ok(())
}

/// Each event is tried where just one of its conditions fails. A condition that never fails alone
/// has no row: a number out of range is at no worker and in no line, and a LOCK within a block ends
/// the block before it. That a thread which enters a line runs fails alone in `TO_THE_FAULT`.
const CONDITIONS: [Try; 88] = [
    // Up to the event in which thread 0 enters the queue of lock 1.
    // No such worker, no such thread; at no worker.
    ((3, 0, Claim), NO),
    ((0, 3, Claim), NO),
    ((0, 0, Turn(1)), NO),
    ((0, 0, Claim), YES),
    // At a worker; at another one; the block goes on; no lock is next; it runs; no sleep.
    ((1, 0, Claim), NO),
    ((1, 0, Turn(1)), NO),
    ((1, 0, Back), NO),
    ((0, 0, Commit), NO),
    ((0, 0, Enter(1)), NO),
    ((0, 0, Finish), NO),
    ((0, 0, Park), NO),
    ((0, 0, Turn(1)), YES),
    // Inside a block; then it has ended, and the next one takes lock 1.
    ((0, 0, Back), NO),
    ((0, 0, Turn(1)), YES),
    ((1, 0, Commit), NO),
    ((0, 0, Enter(1)), NO),
    ((0, 0, Commit), YES),
    // Not granted; at another worker; another lock.
    ((0, 0, Turn(1)), NO),
    ((1, 0, Enter(1)), NO),
    ((0, 0, Enter(0)), NO),
    ((0, 0, Enter(1)), YES),
    // Up to the event in which thread 0 releases lock 1, while threads 1 and 2 are in its queue.
    // In the line, and the lock is free; first in it; at another worker.
    ((0, 0, Enter(1)), NO),
    ((0, 0, Back), NO),
    ((0, 0, Ship(1)), NO),
    ((1, 0, Take(1)), NO),
    ((1, 1, Claim), YES),
    ((1, 1, Turn(2)), YES),
    ((1, 1, Commit), YES),
    // Not in the line; then not the first; at another worker.
    ((1, 1, Ship(1)), NO),
    ((1, 1, Enter(1)), YES),
    ((1, 1, Take(1)), NO),
    ((0, 1, Ship(1)), NO),
    ((0, 0, Take(1)), YES),
    // Not free; in the queue of a lock that was granted to another.
    ((0, 0, Take(1)), NO),
    ((1, 1, Back), NO),
    ((0, 0, Turn(4)), YES),
    // The block has ended.
    ((0, 0, Turn(1)), NO),
    ((0, 0, Commit), YES),
    ((2, 2, Claim), YES),
    ((2, 2, Turn(2)), YES),
    ((2, 2, Commit), YES),
    ((2, 2, Enter(1)), YES),
    ((2, 2, Ship(1)), YES),
    // Lock 1 goes to thread 1, and thread 0 leaves lock 0.
    // The second of the line does not wait yet.
    ((0, 1, Adopt(1)), NO),
    ((1, 1, Ship(1)), YES),
    // At another worker; not the second; the batch rule; the line has three; not left.
    ((1, 1, Adopt(1)), NO),
    ((0, 2, Adopt(1)), NO),
    ((0, 1, Grant(1)), NO),
    ((0, 0, Leave(1)), NO),
    ((0, 0, SetFree(1)), NO),
    ((0, 1, Adopt(1)), YES),
    // At the worker where it was adopted; at none where it was granted the lock.
    ((0, 1, Back), ADOPTED),
    ((0, 0, Turn(4)), YES),
    ((0, 0, Commit), YES),
    ((0, 0, Enter(0)), YES),
    ((0, 0, Take(0)), YES),
    ((0, 0, Turn(4)), YES),
    // With its thread still; then at another worker.
    ((0, 0, Leave(0)), NO),
    ((0, 0, Commit), YES),
    ((1, 1, Leave(0)), NO),
    ((0, 0, Leave(0)), YES),
    // Lock 1 goes on to thread 2, which waits for lock 0 behind thread 1.
    ((1, 1, Claim), YES),
    ((1, 1, Turn(4)), YES),
    ((1, 1, Commit), YES),
    ((1, 1, Turn(4)), YES),
    ((1, 1, Commit), YES),
    ((1, 1, Enter(0)), YES),
    // The first in the queue of a lock that was left and is not free: it was not granted.
    ((1, 1, Back), NO),
    // Left already, and the line has one again; at another worker.
    ((0, 0, Leave(0)), NO),
    ((1, 1, SetFree(0)), NO),
    ((1, 2, Adopt(1)), YES),
    ((1, 2, Back), ADOPTED),
    ((2, 2, Claim), YES),
    ((2, 2, Turn(4)), YES),
    ((2, 2, Commit), YES),
    ((2, 2, Turn(4)), YES),
    ((2, 2, Commit), YES),
    ((2, 2, Enter(0)), YES),
    ((2, 2, Ship(0)), YES),
    // Thread 0 ends.
    // Left, though the second waits.
    ((0, 2, Adopt(0)), NO),
    ((0, 0, Turn(2)), YES),
    // The last block is not committed; then the thread has ended; at another worker; done.
    ((0, 0, Finish), NO),
    ((0, 0, Commit), YES),
    ((0, 0, Turn(1)), NO),
    ((0, 0, Back), NO),
    ((1, 0, Finish), NO),
    ((0, 0, Finish), YES),
    ((0, 0, Claim), NO),
];

/// Thread 2 ends in a fault at a LOCK of lock 0, with lock 1.
const TO_THE_FAULT: [Try; 13] = [
    ((0, 2, Claim), YES),
    ((0, 2, Turn(2)), YES),
    ((0, 2, Commit), YES),
    ((0, 2, Enter(1)), YES),
    ((0, 2, Take(1)), YES),
    // LOCK 1 and three turns more: the last is a fault.
    ((0, 2, Turn(4)), YES),
    ((0, 2, Commit), YES),
    // It holds nothing now, and its pc is at a LOCK of lock 0.
    ((0, 2, Turn(1)), NO),
    ((0, 2, Enter(0)), NO),
    ((0, 2, Back), NO),
    ((0, 0, Leave(1)), YES),
    ((0, 0, SetFree(1)), YES),
    ((0, 2, Finish), YES),
];

/// Thread 0 sleeps, and then releases its lock.
const AROUND_THE_SLEEP: [Try; 8] = [
    ((0, 0, Turn(3)), YES),
    ((0, 0, Commit), YES),
    // At another worker; inside a block; after an UNLOCK.
    ((1, 0, Park), NO),
    ((0, 0, Turn(1)), YES),
    ((0, 0, Park), NO),
    ((0, 0, Turn(2)), YES),
    ((0, 0, Commit), YES),
    ((0, 0, Park), NO),
];
