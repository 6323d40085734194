//! What delegation did in a history: exact numbers for each lock and each thread.
//!
//! A profile takes the blocks of a history one by one and keeps only numbers. It allocates when it
//! is made, by the threads and locks of a guest, and never afterwards. Promises: each number is the
//! one that `specs/Profile.antt` defines over the history of all blocks that were added, whatever
//! history that is, and its text shows these numbers. The history is a list that only contracts
//! read (`Noted` of tc_noted).
//!
//! - `specs/Profile.antt`: the numbers, as functions of a history. `specs/Tally.antt`: what is
//!   carried from block to block. `specs/Stands.antt`: a profile as a caller sees it, and its
//!   invariant over its history. `specs/Text.antt`: the text of a profile.
//! - `tally`: the numbers of one lock and of one thread. `profile`: those of all. `text`: their
//!   text. `law`: how the numbers are related to one another, and to the history.
#![tactic(auto)]

pub mod law;
pub mod profile;
pub mod tally;
pub mod text;

pub use crate::law::profiling;
pub use crate::profile::Profile;
pub use crate::tally::{LockProfile, ThreadProfile};
pub use crate::text::profile_text;
