//! The result of a worker.

use tc_hall::pass::Pass;

/// The result of a worker: its pass, with nothing out.
#[derive(Drop)]
pub struct Finished {
    /// The pass.
    pub pass: Pass,
    /// Whether the worker has seen that each thread has ended. Otherwise the run was stopped: by
    /// another worker, or by this one when memory ran out.
    pub all_done: bool,
}
