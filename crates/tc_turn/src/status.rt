//! Whether and how a thread has ended.

use tc_isa::fault::Fault;

/// Whether and how a thread has ended.
#[derive(Clone, Copy, Debug, PartialEq, Eq)]
pub enum Status {
    /// It has not ended.
    Running,
    /// It called EXIT. Its exit code is in x10.
    Exited,
    /// An instruction faulted.
    Faulted(Fault),
    /// It had no fuel left for its next step.
    SpentFuel,
}
