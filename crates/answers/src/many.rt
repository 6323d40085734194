//! Lines that ask the last arguments again, for each call of a source or a sink that may fail.
//!
//! - `sources N`: a source gives up to N bytes in a call. If it fails in one of its calls, nothing
//!   is written, with the status `read-fault`: the last call finds nothing left.
//! - `sinks N STATUS`: a sink takes up to N bytes in a call. If it fails in one, it has as many
//!   pieces of the faultless text as calls came before, with this status.

use crate::answer::is_status;
use crate::ask::Tally;
use crate::outside::{Outside, Ran, run};
use crate::row::{Row, number, split};
use std::alloc::{AllocError, Global};
use std::sync::Wait;
use std::thread::Threads;
use tc_main::status::Status;

/// Asks with a source that gives up to `most` bytes in a call, and fails in this call.
fn source<R: Threads + Wait + Sync>(
    rt: &R,
    alloc: Global,
    row: &Row,
    tally: &mut Tally,
    most: usize,
    call: usize,
) -> Result<(), AllocError> {
    let outside = Outside {
        most,
        failing_read: Some(call as u64),
        ..row.outside
    };
    let ran = run(rt, alloc, &row.words, &row.file, &outside)?;
    if call <= row.file.len().div_ceil(most.max(1)) {
        let agrees = ran.status == Status::ReadFault && ran.written.is_empty();
        return tally.count(agrees, "sources");
    }
    tally.compare(alloc, row, ran, "sources", 1)
}

/// Whether a run has so many bytes of the whole one, with this status, or is as the whole one, if that
/// has no more.
fn is_cut(
    alloc: Global,
    ran: &Ran,
    whole: &Ran,
    count: usize,
    cut: &str,
) -> Result<bool, AllocError> {
    let all = whole.written.as_slice();
    match all.get(..count) {
        Some(front) if front.len() < all.len() => {
            Ok(ran.written.as_slice() == front && is_status(alloc, ran.status, cut)?)
        }
        _ => Ok(ran.written.as_slice() == all && ran.status == whole.status),
    }
}

/// Asks with a sink that takes up to `most` bytes in a call, and fails in this call. Without a
/// fault the arguments are answered as `whole` is.
fn sink<R: Threads + Wait + Sync>(
    rt: &R,
    alloc: Global,
    row: &Row,
    whole: &Ran,
    fault: (usize, usize, &str),
) -> Result<bool, AllocError> {
    let (most, call, cut) = fault;
    let outside = Outside {
        most,
        failing_write: Some(call as u64),
        ..row.outside
    };
    let ran = run(rt, alloc, &row.words, &row.file, &outside)?;
    is_cut(alloc, &ran, whole, call.saturating_mul(most), cut)
}

/// Asks for each call of a source.
fn sources<R: Threads + Wait + Sync>(
    rt: &R,
    alloc: Global,
    row: &Row,
    tally: &mut Tally,
    most: usize,
) -> Result<(), AllocError> {
    for call in 0..row.file.len().saturating_add(2) {
        source(rt, alloc, row, tally, most, call)?;
    }
    Ok(())
}

/// Asks for each call of a sink.
fn sinks<R: Threads + Wait + Sync>(
    rt: &R,
    alloc: Global,
    row: &Row,
    tally: &mut Tally,
    most: usize,
    cut: &str,
) -> Result<(), AllocError> {
    let whole = run(rt, alloc, &row.words, &row.file, &row.outside)?;
    let calls = whole.written.len().div_ceil(most.max(1));
    for call in 0..=calls.saturating_add(1) {
        let agrees = sink(rt, alloc, row, &whole, (most, call, cut))?;
        tally.count(agrees, "sinks")?;
    }
    Ok(())
}

/// Reads a line that asks for each call. False for any other line.
pub fn asks<R: Threads + Wait + Sync>(
    rt: &R,
    alloc: Global,
    row: &Row,
    tally: &mut Tally,
    line: (&str, &str),
) -> Result<bool, AllocError> {
    let (key, rest) = line;
    let (most, cut) = split(rest);
    match key {
        "sources" => sources(rt, alloc, row, tally, number(most))?,
        "sinks" => sinks(rt, alloc, row, tally, number(most), cut)?,
        _ => return Ok(false),
    }
    Ok(true)
}
