ghost use Rattle.std.specs.Prelude.{◌≡◌, IfOk, false};
ghost use Rattle.tc_hall.specs.Rule.{threads, locks};

use crate::guests::{TWO_THREADS, image_of};
use std::alloc::Global;
use std::process::Abort;
use std::test::Fail;
use std::thread;
use std::thread::Threads;
use tc_elf::image::Image;
use tc_hall::hall::{Hall, LockOut, NotReady, NotWaiting};
use tc_hall::pass::Pass;
use tc_hall::place::Origin;

/// A hall of two workers over that guest, with the pass of each.
fn open<R: Abort>(rt: &R, alloc: Global) -> Result<(Hall, Pass, Pass), Fail>
    ensures two { IfOk result (λ r. threads r.0.terms ≡ 2) }
    ensures one { IfOk result (λ r. locks r.0.terms ≡ 1) }
    ensures apart { IfOk result (λ r. r.0.terms.lined ≡ false) }
    ensures own { IfOk result (λ r. (r.1.table ≡ r.0.table) × (r.2.table ≡ r.0.table)) }
{
    let image = image_of(alloc, &TWO_THREADS)?;
    assert!(rt; image.threads() == 2 && image.guards() == 1);
    let (hall, mut passes) = Hall::new(alloc, &image, 100, 2, 4)?;
    let other = passes.pop().expect(rt, "the second pass");
    let zero = passes.pop().expect(rt, "the first pass");
    Ok((hall, zero, other))
}

/// Looks at the words of both threads, and at the one for a stop, which is 0.
fn look_around<R: Abort>(rt: &R, hall: &Hall, pass: &mut Pass, words: [u64; 2])
    requires two { threads hall.now.terms ≡ 2 }
    requires own { pass.old.table ≡ hall.now.table }
    ensures own { pass.new.table ≡ hall.now.table }
{
    assert!(rt; [hall.look(pass, 0), hall.look(pass, 1)] == words && !hall.stopped(pass));
}

/// A pass misses lock 0, which is out while thread 0 is.
fn miss_lock<R: Abort>(rt: &R, hall: &Hall, pass: &mut Pass)
    requires two { threads hall.now.terms ≡ 2 }
    requires one { locks hall.now.terms ≡ 1 }
    requires apart { hall.now.terms.lined ≡ false }
    requires own { pass.old.table ≡ hall.now.table }
    ensures own { pass.new.table ≡ hall.now.table }
{
    match hall.take(pass, 0) {
        Ok(_) => panic!(rt; "lock 0 is out"),
        Err(word) => assert!(rt; word == LockOut(1)),
    }
    look_around(rt, hall, pass, [512, 0]);
}

/// A pass misses thread 0, which is out, and thread 1, which does not wait.
fn miss_threads<R: Abort>(rt: &R, hall: &Hall, pass: &mut Pass)
    requires two { threads hall.now.terms ≡ 2 }
    requires one { locks hall.now.terms ≡ 1 }
    requires apart { hall.now.terms.lined ≡ false }
    requires own { pass.old.table ≡ hall.now.table }
    ensures own { pass.new.table ≡ hall.now.table }
{
    match hall.claim(pass, 0, Origin::Ready) {
        Ok(_) => panic!(rt; "thread 0 is out"),
        Err(word) => assert!(rt; word == NotReady(512)),
    }
    look_around(rt, hall, pass, [512, 0]);
    match hall.adopt(pass, 1, 0) {
        Ok(_) => panic!(rt; "thread 1 does not wait"),
        Err(word) => assert!(rt; word == NotWaiting(0)),
    }
    look_around(rt, hall, pass, [512, 0]);
}

/// What two passes see in a new hall while the first of them has thread 0 and lock 0 out. What is
/// refused changes no word.
fn see_words<R: Abort>(rt: &R, hall: &Hall, zero: &mut Pass, other: &mut Pass)
    requires two { threads hall.now.terms ≡ 2 }
    requires one { locks hall.now.terms ≡ 1 }
    requires apart { hall.now.terms.lined ≡ false }
    requires own { (zero.old.table ≡ hall.now.table) × (other.old.table ≡ hall.now.table) }
{
    assert!(rt; zero.worker() == 0 && other.worker() == 1);
    look_around(rt, hall, other, [0, 0]);
    let Ok(package) = hall.claim(zero, 0, Origin::Ready) else {
        panic!(rt; "thread 0 is ready")
    };
    look_around(rt, hall, other, [512, 0]);
    assert!(rt; package.thread() == 0);
    miss_threads(rt, hall, other);
    let Ok(lock) = hall.take(zero, 0) else {
        panic!(rt; "lock 0 is home")
    };
    assert!(rt; lock.number() == 0);
    look_around(rt, hall, other, [512, 0]);
    miss_lock(rt, hall, other);
    miss_lock(rt, hall, other);
    hall.stop(zero);
    assert!(rt; hall.stopped(other));
}

#[test]
fn words_are_seen(rt: HostRuntime) -> Result<(), Fail> {
    let (hall, mut zero, mut other) = open(&rt, rt.alloc())?;
    see_words(&rt, &hall, &mut zero, &mut other);
    Ok(())
}

/// Claims thread 0, and returns the word that was read if that failed.
fn refused(hall: &Hall, mut pass: Pass) -> Option<u64>
    requires two { threads hall.now.terms ≡ 2 }
    requires apart { hall.now.terms.lined ≡ false }
    requires own { pass.table ≡ hall.now.table }
{
    match hall.claim(&mut pass, 0, Origin::Ready) {
        Ok(_) => None,
        Err(word) => Some(word.0),
    }
}

/// Claims thread 0 from two threads of the host at once.
fn race<R: Threads>(rt: &R, hall: &Hall, zero: Pass, other: Pass) -> (Option<u64>, Option<u64>)
    requires two { threads hall.now.terms ≡ 2 }
    requires apart { hall.now.terms.lined ≡ false }
    requires own { (zero.table ≡ hall.now.table) × (other.table ≡ hall.now.table) }
{
    thread::join(
        rt,
        move || -> Option<u64>
            requires two { threads hall.now.terms ≡ 2 }
            requires apart { hall.now.terms.lined ≡ false }
            requires own { zero.table ≡ hall.now.table }
        { refused(hall, zero) },
        move || -> Option<u64>
            requires two { threads hall.now.terms ≡ 2 }
            requires apart { hall.now.terms.lined ≡ false }
            requires own { other.table ≡ hall.now.table }
        { refused(hall, other) },
    )
}

/// One of them gets it, and the other sees with which worker it is out.
#[test]
fn one_of_two_threads_of_the_host_claims(rt: HostRuntime) -> Result<(), Fail> {
    let (hall, zero, other) = open(&rt, rt.alloc())?;
    match race(&rt, &hall, zero, other) {
        (None, Some(word)) => assert!(rt; word == 512),
        (Some(word), None) => assert!(rt; word == 513),
        _ => panic!(rt; "one worker gets the thread"),
    }
    Ok(())
}
