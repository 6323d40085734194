//! The limits of a run that no guest file sets.

/// The greatest number of workers of a run. The least is 1.
pub const MAX_WORKERS: u32 = 8;

/// The greatest fuel of a thread, in instructions. The least is 1.
pub const MAX_FUEL: u32 = 65_536;

/// The greatest batch limit: the number of consecutive adopted sections of one lock. The least is
/// 0.
pub const MAX_BATCH: u32 = 256;

/// The greatest number of steps (turns) of a block, in instructions. Each block has at least 1.
pub const MAX_TURNS: u32 = 4_096;

/// The greatest number that a SLEEP may ask for: how many blocks of its worker a thread sleeps.
pub const MAX_SLEEP: u32 = 255;

/// How many locks one thread may hold at a time.
pub const MAX_HELD: u32 = 4;
