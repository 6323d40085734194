//! Histories: the blocks in which threads run, their printed lines, and how these are read back.
//!
//! A thread runs in blocks of at least one step. All layers above use one rule for where a
//! block ends: the abstract machine, a package and a reader of a journal mean the same by a
//! block. Promises: logs are merged in the order of their stamps. A history is printed as
//! `specs/Line.antt` says. `read` accepts a text if and only if it is that of a history,
//! which it returns; otherwise it names the first wrong line. `read_v1` does so for the old
//! form. `specs/Batch.antt` says which sections of a lock may follow one another; `batch`
//! tests it.
//!
//! - `block`: what a block is, and one without its pc; `form`: the two forms of a block's line.
//! - `batch`: which section of a lock may follow its last block; `law`: the lemmas of that rule.
//! - `rule`: where a block ends.
//! - `line`: its printed line, written in one array (`buffer`), and how those of a hundred stamps
//!   begin (`head`); `digits`: words and bytes as reports print them.
//! - `history`: merges logs, prints histories.
//! - `reading`: reads histories back, by the block that a line may be (`spelling`).
#![tactic(auto)]

pub mod batch;
pub mod block;
mod buffer;
pub mod digits;
mod form;
mod head;
pub mod history;
pub mod law;
pub mod line;
pub mod reading;
pub mod rule;
mod spelling;

pub use crate::block::{Block, BlockV1, End, Kind};
pub use crate::history::{merge, text};
pub use crate::reading::{BadText, read, read_v1};
pub use crate::rule::Outcome;
