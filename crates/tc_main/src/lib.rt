//! The program as a library: from the command-line arguments and the bytes of a guest file to the
//! printed report.
//!
//! `top::tclocks` does all that the program does. Promises: the report of a run is written only for
//! a legal run of the source's guest, a summary only for one of the generator's guest, and the
//! report or profile of a history only if it is a trace of a complete run. For every other status
//! the contract says why it comes and what was written. `IsLegalRun` defines the legal runs.
//! `IsCompleteRun` defines the histories that are replayed; it requires less, since the texts do
//! not depend on the rest.
//!
//! - `words`: what the arguments ask for. `policy`: the order in which a lock's waiters are served.
//!   `run`: a run by workers, from the image to the report. `nodes`: a run by workers that belong
//!   to NUMA nodes. `own`: runs for your own programs, to a report or to values. `demo`: a run of
//!   the generator's guest, to the summary. `replay`: a finished history, to its report or its
//!   profile. `wrong`: why there is no text. `answer`: the answer to the arguments and the source.
//! - `build`, `generate`: files of guests, of tc_build. `options`: the options of a run, of tc_isa.
//!   `gate`: observers of its workers, of tc_workers. `report`, `summary`: the texts of a report
//!   and of a summary, of tc_report.
//! - `status`: how the program ends. `top`: the top call. `program`: the command-line arguments,
//!   and the exit status of the process.
//! - `delegation`: the history of a legal run as a trace of the machine of tc_core, and what it
//!   shows of each section. `existence`: there is a legal run. `round_trip`: `replay` writes again
//!   what `run` wrote. `rejection`: a history is rejected in one way at most. `counts`: a history's
//!   profile agrees with its report.
#![tactic(auto)]

mod answer;
pub mod counts;
pub mod delegation;
mod demo;
pub mod existence;
mod nodes;
pub mod own;
pub mod policy;
pub mod program;
pub mod rejection;
pub mod replay;
pub mod round_trip;
pub mod run;
pub mod status;
pub mod top;
mod words;
mod wrong;

pub use crate::own::{run_guest, run_values};
pub use crate::status::Status;
pub use crate::top::tclocks;
pub use crate::words::options_of;
pub use tc_build::{build, generate};
pub use tc_isa::options;
pub use tc_report::{report, summary};
pub use tc_seats::ByEntry;
pub use tc_workers::gate;
