//! Who is behind a turn.

use tc_queue::Turn;

/// Who is behind a turn, asked once.
#[derive(Clone, Copy)]
pub(crate) enum Asked {
    /// Nobody: the queue was left.
    Nobody,
    /// This turn.
    Next(Turn),
    /// Somebody who is not linked yet.
    Unlinked,
}

/// Who is behind a turn, once it is known.
#[derive(Clone, Copy)]
pub(crate) enum Found {
    /// Nobody: the queue was left.
    Nobody,
    /// This turn.
    Next(Turn),
    /// It is not known: the run was stopped.
    Stopped,
}
