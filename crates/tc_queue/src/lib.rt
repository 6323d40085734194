//! The waiting queue of one lock, as MCS words.
//!
//! A waiter enters the lock's queue with a turn (its queue node) and links itself behind the turn
//! that it found there. Its predecessor learns from that link who is next. The words are a tail and
//! one link for each thread, in one table that all threads share. Each call is one atomic step on
//! one word, waits for nobody and allocates nothing.
//!
//! The layer above makes its calls with seats (queue handles); contracts see in each the list of
//! its calls with their answers. Promises: the calls of all seats have one total order, in which a
//! sequential queue gives the same answers (`specs/Order.antt`). The word of its step determines
//! the answer of each call. What `next` answers is a turn that entered behind the one that was
//! asked for.
//!
//! - `turn`: turns, and what the calls answer.
//! - `queue`: the queue and its seats.
//! - `waiters`: the trait of any order of waiters, and the queue as one.
//! - `words`: how turns are kept in words.
//! - `board`: the table, its invariant, and what each kind of step says.
//! - `laws`: the packing, the order of service, and the tail beside the waiting queue of a lock.
#![tactic(auto)]

mod board;
mod laws;
mod queue;
mod turn;
mod waiters;
pub mod words;

pub use laws::{line, packing, serving};
pub use queue::{Queue, QueueSeat};
pub use turn::{Arrival, Departure, Entered, Leave, QueueCall, Turn};
pub use waiters::Waiters;
pub use words::Linked;
