//! Sleeping threads, and which of them wakes first.
//!
//! A worker keeps its sleeping threads, each with the turn at which it is due. The first one is
//! taken: the one with the least due turn, and of several due together the one with the least
//! number. Contracts see the sleepers as a list with an entry for each thread (`specs/Order.antt`).
//! Only `new` allocates memory.
//!
//! - `sleepers`: the sleepers and their calls.
#![tactic(auto)]

mod sleepers;

pub use sleepers::Sleepers;
