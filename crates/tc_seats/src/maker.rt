//! How the queues of an order of waiters are made.

ghost use Rattle.std.specs.Prelude.{◌≡◌, ◌<◌, ◌≤◌, All, IfOk, length};
ghost use Rattle.tc_queue.specs.Lines.{IsSeatOf};

use std::alloc::{AllocError, Global};
use tc_queue::{Queue, Waiters};

/// A queue that was just made, and its seats.
pub type Made<Q> = Result<(Q, Vec<<Q as Waiters>::Seat>), AllocError>;

/// An order of waiters, by the queues that it makes: a run has one for each lock.
pub trait QueueMaker {
    /// Its queues.
    type Queue: Waiters + Drop;

    /// A queue for so many threads, and so many seats of it.
    fn make(&self, alloc: Global, threads: u32, seats: u32) -> Made<Self::Queue>
        requires threads { (0 < threads) × (threads ≤ 64) }
        requires seats { 0 < seats }
        ensures threads { IfOk result (λ made. (Self.Queue.queue made.0).threads ≡ threads) }
        ensures count { IfOk result (λ made. length made.1.items ≡ seats) }
        ensures seats { IfOk result (λ made. All
            (λ s. IsSeatOf (Self.Queue.queue made.0) (Self.Queue.seen s)) made.1.items) };
}

/// The order of entry, by the queues of tc_queue.
#[derive(Clone, Copy, Debug)]
pub struct ByEntry;

impl QueueMaker for ByEntry {
    type Queue = Queue;

    fn make(&self, alloc: Global, threads: u32, seats: u32) -> Made<Queue> {
        Queue::new(alloc, threads, seats)
    }
}
