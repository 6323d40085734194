//! The machine of ordinary mutexes: a run of the guest in which threads never leave a worker and
//! each lock is a mutex with one owner field.
//!
//! Delegation of locks is proved to refine this machine. The layers above get its definitions,
//! lemmas about them, and an executable specification that is proved to meet them:
//!
//! - `specs/Machine.antt`: the state, a step, a run of a schedule. `specs/Locality.antt`: what two
//!   states share. `specs/Blocks.antt`: a block of steps, and the histories that are traces of
//!   runs. `specs/Entries.antt`: the entries that a history gives the journal of each lock.
//!   `specs/Progress.antt`: how a run goes on to the end of every thread.
//! - `law`: the lemmas, as functions without effect whose contracts hold.
//! - `slow`: the executable specification, `Slow::run`; `locks`: its locks.
//! - `upgrade`: adds the pc of each block to an old history, found by a run.
#![tactic(auto)]

pub mod law;
mod locks;
pub mod slow;
pub mod upgrade;

pub use crate::slow::Slow;
