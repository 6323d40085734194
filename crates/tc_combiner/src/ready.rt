//! The threads that a call made ready.

use arrayvec::ArrayVec;
use tc_isa::limits::MAX_HELD;

/// How many threads a list has room for: as many as a thread may hold locks.
const ROOM: usize = MAX_HELD as usize;

/// Threads that were put as ready, in order. A call puts at most one for each lock of the block,
/// and a block has at most `MAX_HELD`; an unlock may also put back the adopted package.
pub(crate) type ReadyList = ArrayVec<u32, ROOM>;
