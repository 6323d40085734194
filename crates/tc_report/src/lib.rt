//! The report of a run, and how it is written.
//!
//! The layer above has a history, and the packages and lock states that a run left. Promises: the
//! text made of them is the report, or the summary, of the machine's run with this history. Writing
//! a report writes exactly this text, or a prefix of it if a write fails. All memory is allocated
//! before the first byte.
//!
//! - `report`: the text of a report. `summary`: the text of a summary.
//! - `write`: several threads write a report. `ring`: where they make the lines of the history,
//!   while one writes them in order. `piece`: the lines of some blocks, which `row` finds in the
//!   threads' logs and puts in order. `written`: how writing went.
#![tactic(auto)]

mod piece;
pub mod report;
mod ring;
mod row;
pub mod summary;
mod write;
pub mod written;
