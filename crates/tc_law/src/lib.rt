//! The invariant of packages and lock states beside a history.
//!
//! Layers that run packages on many workers keep one invariant: there is a history that is a
//! trace of ordinary mutexes and obeys the batch limit, and each package and lock state agrees
//! with it. This crate promises that a block which a package ran preserves it once it is sealed
//! and appended, whatever the other packages and locks are. The logs determine the history, and
//! it is short. No worker, queue or table occurs here, and no code runs: each function is a
//! lemma.
//!
//! - `specs/History.antt`: one thread and one lock state beside a history, and a block appended.
//!   `specs/Lawful.antt`: the invariant over a history, all packages and all lock states;
//!   `specs/Account.antt`: these as one value.
//! - `law`: what a block preserves of one package, and of all.
#![tactic(auto)]

pub mod law;

pub use crate::law::{follow, keep};
