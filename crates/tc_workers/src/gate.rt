//! Gates: observers of workers.

use tc_journal::block::End;

/// How far a worker is.
#[derive(Clone, Copy, Debug, PartialEq, Eq)]
pub enum Point {
    /// It has claimed the package of this thread.
    Claimed(u32),
    /// It has sealed a block of this thread, with this end, and not settled it yet.
    Committed(u32, End),
    /// This thread waits for a lock, and its package is in the hall.
    Shipped(u32),
}

/// An observer that each worker calls at certain points, with its number: a test may watch the
/// workers there, or delay one. Contracts do not depend on it: they hold for every gate.
pub trait Gate: Sync {
    /// The worker of this number is at the point.
    fn at(&self, worker: u32, point: Point);
}

/// The observer that does nothing.
#[derive(Clone, Copy, Debug)]
pub struct Open;

impl Gate for Open {
    fn at(&self, _worker: u32, _point: Point) {}
}
