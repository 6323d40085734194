//! A NUMA-aware waiting queue of one lock: it knows on which node each waiter is.
//!
//! Workers belong to nodes, and a lock costs less while it stays on its node. So a holder prefers a
//! waiter of its own node, but a waiter in the line is passed over at most as often as the bound
//! says. An entrant gets a number from one atomic count and puts its turn into the cell of that
//! number. A holder takes the line out of the table, moves cells into it in the order of their
//! numbers, picks from it, and puts it back. So `next` and `leave` wait while another seat has the
//! line; `enter` and `link` wait for nobody.
//!
//! The layer above makes its calls with seats (queue handles); contracts see in each the
//! list of its steps with their answers. Promises: the steps of all seats have one total
//! order in which a sequential queue gives the same answers (`specs/Order.antt`). Each
//! `next` picks from the line that the seat has taken. No turn in the line is lost or
//! passed over more often than the bound says. It implements `Waiters` of tc_queue. If
//! each thread has one turn at a time and no turn comes twice, who is served is defined
//! over all arrivals, and turns arrive in the order of entry (`serving`,
//! `specs/Served.antt`). They are served in that order (FIFO) only if the bound is 0 or
//! all are on one node.
//!
//! - `line`: a line of waiting turns, and which of them is picked.
//! - `picks`: a line over a whole list of arrivals and picks.
//! - `cells`: how a turn and its node are packed into a word.
//! - `step`: the steps that a seat makes.
//! - `board`: the table, its invariant, and what each kind of step says.
//! - `queue`: the queue and its seats. `waiters`: the queue as an order of waiters.
//! - `laws`: the lemmas about all seats together.
#![tactic(auto)]

mod board;
mod cells;
mod laws;
mod line;
mod picks;
mod queue;
mod step;
mod waiters;

pub use cells::Placed;
pub use laws::{keeping, serving};
pub use line::{Line, Waiter};
pub use picks::{Op, run_line};
pub use queue::{NodeQueue, NodeSeat};
pub use step::{Entered, LineStep};
