//! Halls: tables through which workers hand packages and lock states to one another.
//!
//! A hall is one table of words and slots that the workers share. With its pass (access token) a
//! worker takes packages and lock states out of their slots, seals the blocks that it ran, and puts
//! back what it has out. Each call takes effect in one atomic step on one word; none waits for
//! another, and after `new` none allocates.
//!
//! Promises, for every interleaving: each package and each lock state is in one place. What a pass
//! takes is as it was put. The blocks that all passes sealed are, in the order of their stamps, a
//! history: a trace of ordinary mutexes that obeys the batch limit. `close` returns the packages
//! and lock states as that history leaves them.
//!
//! - `specs/Order.antt`: the invariant of the table, a total order of all operations.
//!   `specs/Rule.antt`: what holds between any two of them. `specs/Steps.antt`: what each call says
//!   of its pass. `specs/Standing.antt`: what the calls of a pass show of the line of a lock, and what
//!   each call asks of it. `specs/Lines.antt`: the words of the lines. `specs/Outs.antt`: what a pass
//!   has out. `specs/Effects.antt`: the effect of each kind of operation on the table.
//!   `specs/Outline.antt`, `specs/Shown.antt`, `specs/Ties.antt`: the simulation of an operation by
//!   the machine of tc_core; `specs/Lift.antt`: that of a whole order. `specs/Made.antt`: what
//!   `new` makes. `specs/Closing.antt`: what `close` gives, with the order that sealed its history.
//!   `specs/Places.antt`: the words of the places. `specs/PassView.antt`: passes and
//!   halls as contracts see them.
//! - `hall`: halls and their calls. `lines`: the lines of the locks. `pass`: a worker's access token. `place`: where packages are
//!   put and from where they are claimed. `closed`: what a hall had at its end.
//! - `showing`: `order`, what holds after every order of operations; `tie`, the simulation: each
//!   operation is events of the abstract machine or none; `lift`, the same for whole orders.
//!   `board`: the table, and the ghost state of a pass. `plays`: what each kind of step on it says.
//!
//! The files of proofs/, by what they prove:
//!
//! - `order`: `Ordering`, from `Opening` (a new hall), `Moves` (packages), `Taking` (locks),
//!   `Telling` (words), `Sealing` (`commit`) and `Making` (passes); `Parts`, the lists of passes;
//!   `Exact` and `Words`, the words. They use `Placing` (where packages are), `Packing` (where locks are),
//!   `Listing` (lists of blocks) and `Ranks` (passes).
//! - `tie` and `lift`: `Lifting`, from `Tying` and, for `commit`, `Committing`, `Through` and
//!   `Alike`; and `Allowing`, for `lift` (when events are enabled). They use `Shows` (which state a
//!   hall represents) and `Outlines` (how events change it).
//! - The calls of a hall: `Stepping`, and `Lining` for those on lines, each step is an operation; `Holding` and `Putting`, what is
//!   done with a slot that was taken; `Outs`, what is out; `Left`, what is in a slot; `Waiting` for
//!   `adopt`; `Ended` and, for the order, `OneOrder` for `close`.
//! - For the crates above: `Behind`, `Crossing`, `Dealt`, `Standing`, `Stops` and `Turns`. For all:
//!   `Cases`, `LockLists`, and `Vocabulary`, which has the shared definitions.
#![tactic(auto)]

pub mod board;
pub mod closed;
pub mod hall;
mod lines;
pub mod pass;
pub mod place;
mod plays;
pub mod showing;

pub use crate::closed::Closed;
pub use crate::hall::{Hall, LockOut, NotReady, NotWaiting};
pub use crate::pass::Pass;
pub use crate::place::{Origin, Place};
pub use crate::showing::{lift, order, tie};
