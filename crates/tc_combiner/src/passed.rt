//! Locks that a block released, and what became of them.

use tc_context::package::Package;
use tc_journal::block::Block;

/// A lock, and the block that released it.
#[derive(Clone, Copy)]
pub(crate) struct Released<'a> {
    pub(crate) lock: u32,
    pub(crate) block: &'a Block,
}

/// What became of a released lock.
#[derive(Drop)]
pub(crate) enum Passed {
    /// It is free: nobody was behind.
    Home,
    /// It was granted to a waiter, which is now ready.
    Granted,
    /// It was granted to a waiter, which is the worker's current package.
    Adopted(Package),
    /// The run was stopped, and the lock is free.
    Stopped,
}
