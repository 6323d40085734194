//! What became of a package.

use tc_context::package::Package;

/// What `acquire` and `settle` answer: what became of the current package.
#[derive(Drop)]
pub enum Settled {
    /// This package goes on: the same one, or the one that was set aside.
    GoesOn(Package),
    /// This package of a waiter runs now: it was granted the released lock.
    Adopted(Package),
    /// It waits for the lock that it wants, with all its locks.
    Shipped,
    /// It sleeps, with all its locks.
    Parked,
    /// Its thread has ended, and its locks were passed on.
    Ended,
    /// The run was stopped. The current package and the one set aside were put back.
    Stopped,
}
