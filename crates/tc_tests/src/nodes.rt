//! Runs by workers that belong to NUMA nodes.

use crate::ran::{Ran, run_at};
use crate::usher::{Hold, Report, Usher, claimed_by};
use guest_code::file::built;
use std::alloc::{AllocError, Global};
use std::process::Abort;
use std::sync::Wait;
use std::test::Fail;
use std::thread::Threads;

/// The file of three threads of one section each.
pub(crate) fn three_sections(alloc: Global) -> Result<Vec<u8>, AllocError> {
    built(alloc, "DATA LOCK_0 ADD UNLOCK_0 EXIT", "0 0 0", 1)
}

/// Which of workers 1 and 2 shipped the thread whose adopted section this line shows; 0 if neither
/// did.
fn shipper(alloc: Global, reports: &[Report], line: &str) -> Result<u32, AllocError> {
    for worker in 1..3 {
        let thread = claimed_by(reports, worker).unwrap_or(0);
        let name = format!(in alloc; " thread {thread} turns 7 held 0 kind adopted worker 0 ")?;
        if line.contains(name.as_str()) {
            return Ok(worker);
        }
    }
    Ok(0)
}

/// In a run of these threads worker 0 released the lock while worker 1's thread waited for it, and
/// after that worker 2's. It returns the worker that shipped the thread of the next section.
pub(crate) fn first_shipper<R: Abort + Wait + Sync>(
    rt: &R,
    alloc: Global,
    ran: &Ran,
    gate: &Usher<'_, R>,
) -> Result<u32, AllocError> {
    ran.check_done(rt);
    assert!(rt; gate.was_in_time());
    let reports = gate.reports.lock(rt);
    shipper(alloc, &reports, ran.second(" held 0 "))
}

/// Three workers of two nodes, of which worker 1 is alone on its node, run the threads. It returns
/// the worker whose thread was served first.
fn served_first<R: Abort + Threads + Wait + Sync>(
    rt: &R,
    alloc: Global,
    words: &str,
) -> Result<u32, AllocError> {
    let file = three_sections(alloc)?;
    let gate = Usher::new(rt, alloc, Hold::InTurn);
    let ran = run_at(rt, alloc, words, &file, &gate)?;
    first_shipper(rt, alloc, &ran, &gate)
}

/// A waiter of the releaser's node is served before an older one of another node, if and only if
/// the bound lets the older one be passed over.
#[test]
fn a_waiter_of_the_node_is_preferred_within_the_bound(rt: HostRuntime) -> Result<(), Fail> {
    let alloc = rt.alloc();
    assert!(rt; served_first(&rt, alloc, "nodes 2 0 3 100 8")? == 1);
    assert!(rt; served_first(&rt, alloc, "nodes 2 1 3 100 8")? == 2);
    Ok(())
}
