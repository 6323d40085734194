//! Lock states: a lock with the bytes of its guard and the journal of the blocks that ran with it.
//!
//! Invariants of each lock state, wherever it is: The entries of its journal replay; RV32IM runs
//! from the registers and the foreign words of each entry, and the guard that results is the one
//! that the lock state has. Its sealed blocks obey its batch limit. If its journal is strict, a
//! section that is passed on goes to another thread. `LockState::keeps` states this;
//! `specs/View.antt` is what contracts see.
//!
//! - `state`: a lock state with its calls. `entry`: an entry, borrowed from it.
//! - `packed`: registers in few words, packed once for all locks of a block.
//! - `at_rest`: what a lock at rest is. `record`: how entries are stored; `draft`: what those of one
//!   block have in common; `stamp`: stamps in halves; `edges`: how registers are stored; `room`: how
//!   capacity for more entries is made.
#![tactic(auto)]

pub mod at_rest;
pub mod draft;
mod edges;
pub mod entry;
pub mod packed;
mod record;
mod room;
mod stamp;
pub mod state;

pub use crate::entry::Entry;
pub use crate::state::LockState;
