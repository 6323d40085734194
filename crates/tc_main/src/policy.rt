//! The order in which the waiters of a lock are served.

/// The greatest number of times that a waiter may be passed over.
pub const MAX_PASSES: u32 = 256;

/// The order in which the waiters of a lock are served.
#[derive(Clone, Copy, Debug, PartialEq, Eq)]
pub enum Policy {
    /// In the order in which they entered the lock's queue (FIFO).
    Entry,
    /// By the queues of tc_nodes: a releaser prefers a waiter that entered from its own node.
    /// Worker w is on node w modulo the number of nodes.
    Nodes {
        /// The number of nodes.
        nodes: u32,
        /// How often a waiter in the line may be passed over for a later one.
        bound: u32,
    },
}
