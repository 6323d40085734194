//! The limit of a deque.

/// The greatest number of offers that one worker may make. It suffices for 32 threads with the
/// greatest fuel: a thread is offered at most once a section, and a section costs two instructions.
pub const MAX_ROOM: u32 = 1_048_640;
