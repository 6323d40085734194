//! The limits of a guest's file, and where a stack lies.

/// The greatest length of a file in bytes.
pub const MAX_FILE: usize = 1_048_576;

/// The greatest number of program headers; there is one at least.
pub const MAX_HEADERS: u16 = 16;

/// The greatest sum of the sizes in memory of a file's segments, in bytes.
pub const MAX_MEMORY: u64 = 1_048_576;

/// The greatest number of threads; there is one at least.
pub const MAX_THREADS: u32 = 32;

/// The greatest number of guards.
pub const MAX_GUARDS: u32 = 32;

/// The greatest number of threads, and that of guards, in a note of version 1.
pub const FIRST_VERSION_MOST: u32 = 16;

/// The least length of a guard in bytes.
pub const MIN_GUARD_LENGTH: u32 = 4;

/// The greatest length of a guard in bytes.
pub const MAX_GUARD_LENGTH: u32 = 65_536;

/// Where each thread's own stack begins.
pub const STACK_START: u32 = 0x7fff_c000;

/// The length of a stack in bytes.
pub const STACK_LENGTH: u32 = 0x4000;
