//! The options of a run.

ghost use Rattle.std.specs.Prelude.{◌≤◌};
ghost use Rattle.tc_isa.specs.declared.limits.TheConstants.{MAX_BATCH, MAX_FUEL, MAX_WORKERS};

/// The options of a run.
#[derive(Clone, Copy, Debug, PartialEq, Eq)]
pub struct Options {
    /// The number of workers.
    pub workers: u32,
    /// The fuel of each thread, in instructions.
    pub fuel: u32,
    /// The batch limit: the greatest number of consecutive adopted sections of one lock.
    pub limit: u32,
    ghost some_workers: { 1 ≤ workers },
    ghost most_workers: { workers ≤ MAX_WORKERS },
    ghost some_fuel: { 1 ≤ fuel },
    ghost most_fuel: { fuel ≤ MAX_FUEL },
    ghost most_adopted: { limit ≤ MAX_BATCH },
}
