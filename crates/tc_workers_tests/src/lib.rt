//! Tests of workers: of whole runs, and of desks (per-worker combiners) that are driven by hand.
//!
//! - `runs`: whole runs, by one worker alone and by several in parallel. `scripts`: desks that are
//!   driven by hand on one thread, in the order written, with their whole histories. `stops`: desks
//!   that wait in vain, and crews that are stopped in the middle of a run.
//! - `specs/Scripts.antt`: what holds for a desk that is driven by hand.
#![tactic(auto)]

#[cfg(test)]
mod runs;
#[cfg(test)]
mod scripts;
#[cfg(test)]
mod stops;
