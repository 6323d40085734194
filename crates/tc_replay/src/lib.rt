//! A checker of finished histories: it runs their blocks under ordinary mutexes, and reports the
//! first thing that is wrong.
//!
//! A history comes from anywhere: a file, another program, a run by many workers. The
//! checker takes its blocks in order, and runs each on the threads and locks that the
//! blocks before it left. It promises: a history is accepted if and only if it is a
//! trace of a complete run of the guest, obeys the batch limit and its workers exist.
//! Otherwise it is rejected at its first wrong line, for the first reason that applies
//! there. The checker hands out the threads and locks as an accepted history leaves
//! them. A section may be passed on to any thread, also to the one that released the
//! lock.
//!
//! - `specs/Rejected.antt`: what is wrong with a history, and where. `specs/Taken.antt`: a checker
//!   as a caller sees it, and its packages and locks after the blocks that it has taken.
//!   `specs/Run.antt`: a recorded block beside the one that ran. `specs/Reasons.antt`: numbers and
//!   names of reasons.
//! - `reason`: why a history is rejected. `judge`: one block of one thread. `checker`: all threads,
//!   block by block. `checking`: a whole history. `law`: which histories are accepted.
//!
//! The options of a run say with what a history was made (workers, fuel and batch limit).
#![tactic(auto)]

pub mod checker;
pub mod checking;
pub(crate) mod judge;
pub mod law;
pub mod reason;

pub use crate::checker::Checker;
pub use crate::checking::{Verdict, check, checked};
pub use crate::law::rejecting;
pub use crate::reason::{Reason, Rejected, Take};
pub use tc_isa::options::Options as Terms;
