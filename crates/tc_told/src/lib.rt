//! Histories and the abstract machine of delegation: which printed histories are its traces.
//!
//! A Commit event writes one block: its thread, worker, steps, held set and end are those of
//! the machine's state, its kind is that of the event that gave the thread its lock, and its
//! `pc` is the thread's at its previous Commit. So every list of events writes a history.
//! `realization::realization` says that a history is written by enabled events if and only if
//! it is a trace of ordinary mutexes that obeys the rules of its locks, whoever runs an
//! adopted section. So events are enabled neither too seldom nor too often. The theorem says
//! what the machine can do, not what the workers did: the events are constructed from the
//! history.
//!
//! `handover::handover` says what a history that obeys the rules shows of delegation, if it also
//! obeys those of tc_journal's `specs/Handing.antt`: who had the lock before an adopted section,
//! since when its thread was at its LOCK, and where a section runs.
//!
//! - `specs/Written.antt`: what events write, which histories obey the rules, and how events end.
//! - `realization`, `handover`: the theorems; `specs/Handover.antt` has the definitions of the
//!   second. `existence`: every guest has such a history.
//! - `writer`: an executable form, `Writer`, over tc_core's `Core`; `specs/View.antt` says what it
//!   represents.
#![tactic(auto)]

pub mod existence;
pub mod handover;
pub mod realization;
pub mod writer;

pub use crate::writer::Writer;
