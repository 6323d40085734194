//! Runs with the waiters of tc_youngest.

use crate::nodes::{first_shipper, three_sections};
use crate::ran::Ran;
use crate::usher::{Hold, Usher};
use std::alloc::{AllocError, Global};
use std::process::Abort;
use std::sync::Wait;
use std::test::Fail;
use std::thread::Threads;
use tc_io::{MemSink, MemSource};
use tc_isa::options::Options;
use tc_main::run_guest;
use tc_youngest::Youngest;

/// Three workers run the file at this observer, with this bound.
fn run_youngest<R: Threads + Wait + Sync>(
    rt: &R,
    alloc: Global,
    bound: u32,
    file: Vec<u8>,
    gate: &Usher<'_, R>,
) -> Result<Ran, AllocError> {
    let options = Options {
        workers: 3,
        fuel: 100,
        limit: 8,
    };
    let mut source = MemSource::new(file, 4096, Vec::new(alloc));
    let mut sink = MemSink::new(alloc, 65_536, 4096, Vec::new(alloc))?;
    let maker = Youngest { rt, bound };
    let status = run_guest(rt, alloc, options, &maker, &mut source, &mut sink, gate);
    let written = Vec::from_slice(alloc, sink.written())?;
    Ok(Ran { status, written })
}

/// Which of workers 1 and 2, whose threads wait in this order, has its thread served first.
fn served_first<R: Abort + Threads + Wait + Sync>(
    rt: &R,
    alloc: Global,
    bound: u32,
) -> Result<u32, AllocError> {
    let file = three_sections(alloc)?;
    let gate = Usher::new(rt, alloc, Hold::InTurn);
    let ran = run_youngest(rt, alloc, bound, file, &gate)?;
    first_shipper(rt, alloc, &ran, &gate)
}

/// The youngest waiter is served first, if and only if the bound lets the older one be passed over.
#[test]
fn the_youngest_waiter_is_served_first_within_the_bound(rt: HostRuntime) -> Result<(), Fail> {
    let alloc = rt.alloc();
    assert!(rt; served_first(&rt, alloc, 0)? == 1);
    assert!(rt; served_first(&rt, alloc, 1)? == 2);
    Ok(())
}
