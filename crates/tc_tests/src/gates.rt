//! Two workers at observers: one is held until the other has come so far.

use crate::committed::{are_of_two, are_reported, shipments};
use crate::ran::{Ran, run_at};
use crate::usher::{Hold, Usher, claimer, is_released};
use guest_code::file::built;
use guest_code::lines::{blocks, count, turns_of};
use std::alloc::{AllocError, Global};
use std::process::Abort;
use std::sync::Wait;
use std::test::Fail;
use tc_main::status::Status;

/// The code of threads that count to 100 each under one lock. Before and behind the words of a section
/// stand addi x6,x0,100, and addi x6,x6,-1 with bne x6,x0,-40. At word 13 a thread ends at once.
const COUNTING: &str = "DATA 06400313 LOCK_0 ADD UNLOCK_0 fff30313 fc031ce3 EXIT";

/// The end of the report of two threads that count to 100 each under lock 0.
const COUNTED_TO_200: &str = "lock 0 sections 200 broken 0 bytes 4\ndata 00020000 c8000000\nend\n";

/// The summary of one round of the generator's guest, on whatever workers.
const ONE_ROUND: &str = "\
tclocks demo 1
blocks 14 turns 54
thread 0 exit fuel 65524
thread 1 exit fuel 65515
thread 2 exit fuel 65521
thread 3 exit fuel 65530
lock 0 sections 1 broken 0 bytes 16
data 00020000 01000000e80300000000000000000000
lock 1 sections 1 broken 0 bytes 16
data 00020010 00000000e60300000000000000000000
lock 2 sections 2 broken 0 bytes 16
data 00020020 01000000ea0300000000000000000000
lock 3 sections 0 broken 0 bytes 16
data 00020030 00000000e80300000000000000000000
end
";

/// Threads 0 and 1 were claimed, each by another worker, and a worker was held in time.
fn check_claims<R: Wait + Sync + Abort>(rt: &R, gate: &Usher<'_, R>) {
    assert!(rt; gate.was_in_time());
    let reports = gate.reports.lock(rt);
    let (first, second) = (claimer(&reports, 0), claimer(&reports, 1));
    assert!(rt; first.is_some() && second.is_some() && first != second);
}

/// Two threads are claimed by two workers: the first waits until the second has its thread.
#[test]
fn two_workers_claim_a_thread_each(rt: HostRuntime) -> Result<(), Fail> {
    let alloc = rt.alloc();
    let file = built(alloc, "EXIT", "0 0", 0)?;
    let gate = Usher::new(&rt, alloc, Hold::Claim);
    let ran = run_at(&rt, alloc, "run 2 100 4", &file, &gate)?;
    ran.check_done(&rt);
    assert!(rt; blocks(ran.text()) == Some(2));
    check_claims(&rt, &gate);
    Ok(())
}

/// Four threads are claimed by four workers: none is idle while the others work.
#[test]
fn each_of_four_workers_claims_a_thread(rt: HostRuntime) -> Result<(), Fail> {
    let alloc = rt.alloc();
    let file = built(alloc, "EXIT", "0 0 0 0", 0)?;
    let gate = Usher::new(&rt, alloc, Hold::Crew);
    let ran = run_at(&rt, alloc, "run 4 100 4", &file, &gate)?;
    ran.check_done(&rt);
    assert!(rt; gate.was_in_time());
    assert!(rt; blocks(ran.text()) == Some(4));
    Ok(())
}

/// Two threads of a demonstration are claimed by two workers. Its summary is as on one worker.
#[test]
fn two_workers_run_a_demonstration(rt: HostRuntime) -> Result<(), Fail> {
    let gate = Usher::new(&rt, rt.alloc(), Hold::Claim);
    let ran = run_at(&rt, rt.alloc(), "demo 1 2", &[], &gate)?;
    ran.check(&rt, Status::Done, ONE_ROUND);
    check_claims(&rt, &gate);
    Ok(())
}

/// A thread that counted to 100 has run so many steps, and has so much fuel left.
fn check_counted<R: Abort>(
    rt: &R,
    alloc: Global,
    ran: &Ran,
    thread: &str,
) -> Result<(), AllocError> {
    let line = format!(in alloc; "thread {thread} exit fuel 896 pc 00100038")?;
    assert!(rt; count(ran.text(), &line) == 1);
    assert!(rt; turns_of(alloc, ran.text(), thread)? == 1104);
    Ok(())
}

/// The printed blocks of each of two workers are those that it reported.
fn check_reported<R: Wait + Sync + Abort>(
    rt: &R,
    alloc: Global,
    ran: &Ran,
    gate: &Usher<'_, R>,
) -> Result<(), AllocError> {
    let reports = gate.reports.lock(rt);
    assert!(rt; is_released(&reports));
    for worker in 0..2 {
        assert!(rt;
            are_reported(alloc, ran, worker, &reports)?,
            "worker {worker}"
        );
    }
    Ok(())
}

/// Two threads counted to 100 each, and a waiter was adopted.
fn check_adopted<R: Wait + Sync + Abort>(
    rt: &R,
    alloc: Global,
    ran: &Ran,
    gate: &Usher<'_, R>,
) -> Result<(), AllocError> {
    assert!(rt; blocks(ran.text()) == Some(402));
    assert!(rt; gate.was_in_time());
    check_counted(rt, alloc, ran, "0")?;
    check_counted(rt, alloc, ran, "1")?;
    assert!(rt; ran.text().ends_with(COUNTED_TO_200));
    let second = ran.second(" held 0 ");
    assert!(rt; second.contains(" kind adopted "), "{second}");
    check_reported(rt, alloc, ran, gate)
}

/// Two workers count under one lock. The worker that releases it first waits until the other thread
/// is shipped, and then runs that thread's section. The printed blocks of each worker are those that
/// it reported.
#[test]
fn a_thread_that_waits_is_adopted(rt: HostRuntime) -> Result<(), Fail> {
    let alloc = rt.alloc();
    let file = built(alloc, COUNTING, "0 0", 1)?;
    let gate = Usher::new(&rt, alloc, Hold::Release);
    let ran = run_at(&rt, alloc, "run 2 2000 8", &file, &gate)?;
    ran.check_done(&rt);
    check_adopted(&rt, alloc, &ran, &gate)?;
    Ok(())
}

/// Workers 0 and 1 shipped threads, each right behind its own report that the thread wants a lock.
fn check_shipped<R: Wait + Sync + Abort>(rt: &R, gate: &Usher<'_, R>) {
    assert!(rt; gate.was_in_time());
    let reports = gate.reports.lock(rt);
    assert!(rt; is_released(&reports) && are_of_two(&reports));
    let by_0 = shipments(&reports, 0);
    let by_1 = shipments(&reports, 1);
    assert!(rt; by_0.is_some() && by_1.is_some(), "{by_0:?} and {by_1:?}");
    assert!(rt; by_0 != Some(0) || by_1 != Some(0));
}

/// Workers 0 and 1 ship threads 2 and 3 alone, since threads 0 and 1 end at once. Each is shipped by
/// the worker that ran its last block, right behind that block.
#[test]
fn a_thread_is_shipped_behind_its_wish(rt: HostRuntime) -> Result<(), Fail> {
    let alloc = rt.alloc();
    let file = built(alloc, COUNTING, "13 13 0 0", 1)?;
    let gate = Usher::new(&rt, alloc, Hold::Release);
    let ran = run_at(&rt, alloc, "run 2 2000 8", &file, &gate)?;
    ran.check_done(&rt);
    check_shipped(&rt, &gate);
    Ok(())
}
