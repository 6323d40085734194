//! The result of one try of a wait.

/// The result of one try of a wait.
#[derive(Drop)]
pub(crate) enum Attempt<T> {
    /// What was asked for.
    Came(T),
    /// Nothing, and the run goes on: try again.
    Refused,
    /// Nothing, and the run was stopped.
    Stopped,
}
