//! Seats for an order of waiters that a lock of std protects.
//!
//! An order of waiters (`Waiters` of tc_queue) has to know of each seat its queue and the list of
//! calls made with it. An order of atomic words has that from its table. One that a Mutex protects
//! takes it from here: `Seats` makes the seats of one queue, and `note` appends a call with its
//! answer to a seat's list. It knows nothing of who is served.
//!
//! The list takes no memory: it is what a table of atomic_table knows of a seat. `Seats` has only
//! that table, with one word that nobody writes and no invariant; noting a call reads that word. So
//! two queues never share a seat, and a seat's list has its own calls only.
//!
//! - `seats`: seats, and the lists of their calls. `maker`: makes the queues of an order, for a run
//!   with an order of your own (`run_guest` of tc_main), and those of the order of entry.
#![tactic(auto)]

mod maker;
mod seats;

pub use maker::{ByEntry, Made, QueueMaker};
pub use seats::{NotedSeat, Seats};
