//! An observer that keeps all reports, and holds a worker until others have come so far.

use std::alloc::Global;
use std::sync::atomic::{AtomicBool, Ordering};
use std::sync::{Mutex, Wait};
use std::thread::yield_now;
use tc_journal::block::End;
use tc_main::gate::{Gate, Point};

/// How often a held worker checks whether it may go on. If workers do not come as expected, one
/// reaches this limit, and the test fails there.
const LOOKS: u32 = 10_000_000;

/// A worker's number, and where it is.
pub(crate) type Report = (u32, Point);

/// Where workers are held, and until what.
#[derive(Clone, Copy)]
pub(crate) enum Hold {
    /// Where thread 0 was claimed, until thread 1 is.
    Claim,
    /// Where a block released lock 0, until a thread is shipped.
    Release,
    /// Where each of four workers claims its first thread, until all have.
    Crew,
    /// Each of three workers claims a thread. Worker 0 then runs its thread's section, and ends it only
    /// when worker 1 and after it worker 2 have shipped theirs.
    InTurn,
}

impl Hold {
    /// Whether the worker may go on at the point, after these reports.
    fn may_go_on(self, reports: &[Report], worker: u32, point: Point) -> bool {
        match (self, point) {
            (Hold::Claim, Point::Claimed(0)) => claimer(reports, 1).is_some(),
            (Hold::Release, Point::Committed(_, End::Unlocked(0))) => {
                has_shipped(reports, 0) || has_shipped(reports, 1)
            }
            (Hold::Crew, Point::Claimed(_)) => have_claimed(reports, 4),
            (Hold::InTurn, _) => comes_in_turn(reports, worker, point),
            _ => true,
        }
    }
}

/// Whether one of three workers may go on at the point, if they come in turn.
fn comes_in_turn(reports: &[Report], worker: u32, point: Point) -> bool {
    match (worker, point) {
        (0, Point::Claimed(_)) => have_claimed(reports, 3),
        (0, Point::Committed(_, End::Unlocked(0))) => has_shipped(reports, 2),
        (1, Point::Claimed(_)) => is_released(reports),
        (2, Point::Claimed(_)) => has_shipped(reports, 1),
        _ => true,
    }
}

/// The worker that claimed a thread first.
pub(crate) fn claimer(reports: &[Report], thread: u32) -> Option<u32> {
    let claimed = Point::Claimed(thread);
    for (worker, point) in reports {
        if *point == claimed {
            return Some(*worker);
        }
    }
    None
}

/// The thread that a worker claimed first.
pub(crate) fn claimed_by(reports: &[Report], worker: u32) -> Option<u32> {
    for (by, point) in reports {
        if let Point::Claimed(thread) = *point {
            if *by == worker {
                return Some(thread);
            }
        }
    }
    None
}

/// Whether each of so many workers has claimed a thread.
fn have_claimed(reports: &[Report], workers: u32) -> bool {
    for worker in 0..workers {
        if claimed_by(reports, worker).is_none() {
            return false;
        }
    }
    true
}

/// Whether a worker has shipped a thread.
fn has_shipped(reports: &[Report], worker: u32) -> bool {
    for (by, point) in reports {
        if let Point::Shipped(_) = point {
            if *by == worker {
                return true;
            }
        }
    }
    false
}

/// Whether lock 0 was released.
pub(crate) fn is_released(reports: &[Report]) -> bool {
    for (_, point) in reports {
        if let Point::Committed(_, End::Unlocked(0)) = *point {
            return true;
        }
    }
    false
}

/// Keeps all reports, holds each worker until it may go on, and notes whether one reached the limit.
#[derive(Drop)]
pub(crate) struct Usher<'a, R: Wait + Sync> {
    pub rt: &'a R,
    pub hold: Hold,
    pub reports: Mutex<Vec<Report>>,
    pub gave_up: AtomicBool,
}

impl<'a, R: Wait + Sync> Usher<'a, R> {
    pub(crate) fn new(rt: &'a R, alloc: Global, hold: Hold) -> Self {
        Usher {
            rt,
            hold,
            reports: Mutex::new(Vec::new(alloc)),
            gave_up: AtomicBool::new(false),
        }
    }

    /// Whether each worker that was held was released before the limit.
    pub(crate) fn was_in_time(&self) -> bool {
        !self.gave_up.load(Ordering::SeqCst)
    }
}

impl<R: Wait + Sync> Gate for Usher<'_, R> {
    fn at(&self, worker: u32, point: Point) {
        let _ = self.reports.lock(self.rt).push((worker, point));
        for _ in 0..LOOKS {
            if self
                .hold
                .may_go_on(&self.reports.lock(self.rt), worker, point)
            {
                return;
            }
            yield_now();
        }
        self.gave_up.store(true, Ordering::SeqCst);
    }
}
