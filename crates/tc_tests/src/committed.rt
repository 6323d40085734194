//! The blocks that workers reported, compared with those that were printed.

use crate::ran::Ran;
use crate::usher::Report;
use std::alloc::{AllocError, Global};
use tc_journal::block::End;
use tc_main::gate::Point;

/// The end of a block's line that has this end.
fn end_of(alloc: Global, end: End) -> Result<String, AllocError> {
    match end {
        End::Wants(lock) => format!(in alloc; " end wants {lock}"),
        End::Unlocked(lock) => format!(in alloc; " end unlocked {lock}"),
        End::Exit => String::from_str(alloc, " end exit"),
        _ => String::from_str(alloc, " end other"),
    }
}

/// Whether a line is of the block that was committed here.
fn is_line_of(alloc: Global, line: &str, point: Point) -> Result<bool, AllocError> {
    let Point::Committed(thread, end) = point else {
        return Ok(false);
    };
    let thread = format!(in alloc; " thread {thread} turns ")?;
    let end = end_of(alloc, end)?;
    Ok(line.contains(thread.as_str()) && line.ends_with(end.as_str()))
}

/// The blocks that a worker committed, in their order.
fn committed(alloc: Global, worker: u32, reports: &[Report]) -> Result<Vec<Point>, AllocError> {
    let mut own = Vec::new(alloc);
    for (by, point) in reports {
        if let Point::Committed(_, _) = point {
            if *by == worker {
                own.push(*point)?;
            }
        }
    }
    Ok(own)
}

/// Whether the lines that contain this are those of these blocks, one for each, in their order.
fn are_lines_of(
    alloc: Global,
    ran: &Ran,
    part: &str,
    points: &[Point],
) -> Result<bool, AllocError> {
    let mut count = 0;
    for line in ran.text().lines() {
        if line.contains(part) {
            let Some(point) = points.get(count) else {
                return Ok(false);
            };
            if !is_line_of(alloc, line, *point)? {
                return Ok(false);
            }
            count += 1;
        }
    }
    Ok(count == points.len())
}

/// Whether the lines of a worker's blocks are those that it committed, in their order.
pub(crate) fn are_reported(
    alloc: Global,
    ran: &Ran,
    worker: u32,
    reports: &[Report],
) -> Result<bool, AllocError> {
    let own = committed(alloc, worker, reports)?;
    let by_worker = format!(in alloc; " worker {worker} ")?;
    are_lines_of(alloc, ran, &by_worker, &own)
}

/// Whether the block that this worker reported last is this thread's, and ended with
/// `wants`.
fn is_wish(last: Option<Point>, thread: u32) -> bool {
    match last {
        Some(Point::Committed(by, End::Wants(_))) => by == thread,
        _ => false,
    }
}

/// How many threads a worker has shipped, each right after its own report that the thread wants a
/// lock. None: it has shipped another one.
pub(crate) fn shipments(reports: &[Report], worker: u32) -> Option<usize> {
    let mut last = None;
    let mut count: usize = 0;
    for (by, point) in reports {
        if *by != worker {
            continue;
        }
        if let Point::Shipped(thread) = point {
            if !is_wish(last, *thread) {
                return None;
            }
            count = count.saturating_add(1);
        }
        last = Some(*point);
    }
    Some(count)
}

/// Whether all reports are of workers 0 and 1.
pub(crate) fn are_of_two(reports: &[Report]) -> bool {
    for (worker, _) in reports {
        if *worker > 1 {
            return false;
        }
    }
    true
}
