//! What a worker does next.

use tc_context::package::Package;

/// What a worker does after a step.
#[derive(Drop)]
pub enum Step {
    /// It goes on with its current package, or looks for one.
    On(Option<Package>),
    /// It has seen that each thread has ended.
    AllDone,
    /// The run was stopped, and the worker has put back all that it had.
    Stopped,
}
