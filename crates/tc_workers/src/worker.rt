//! Workers.

use tc_combiner::Desk;
use tc_order::Order;
use tc_ready::Ready;

/// A worker: its desk, and the threads that it may try next.
#[derive(Drop)]
pub struct Worker<Q: Order> {
    /// The desk.
    pub desk: Desk<Q>,
    /// The threads.
    pub ready: Ready,
}
