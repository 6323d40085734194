//! Runnable threads, on work-stealing deques.
//!
//! Each worker of a crew has a first-in first-out deque of thread numbers and an end of every other
//! worker's deque. It offers the threads that it makes ready on its own deque, and asks for the
//! next thread to try: one that it offered, else one that another worker offered, else the first
//! that the hall shows as ready. The answer is a proposal; the hall's `claim` decides.
//!
//! Promises: each offer is taken at most once, by any worker. An offer is refused if and only if
//! the room for offers is used up. A thread is proposed only because of an offer that was taken or
//! a word that was read; such a call adds only looks to the pass's list. Only `crew` allocates
//! memory, and no call waits.
//!
//! - `specs/Rule.antt`: the invariant of one deque. `specs/Law.antt`: what follows for its offers.
//!   `specs/EndView.antt`, `specs/ReadyView.antt`: ends and workers as contracts see them.
//!   `specs/Scan.antt`: what a scan of the hall adds to a pass's list. `specs/Crew.antt`: a crew
//!   while it is made.
//! - `ready`: a worker's ready threads. `ends`: the two ends of a deque. `law`: what the invariant
//!   says, and what it can't. `limits`: how many offers a deque may have.
#![tactic(auto)]

mod ends;
mod law;
pub mod limits;
mod ready;

pub use ends::{Log, Offer, Ruled};
pub use law::{each_once, limit};
pub use ready::Ready;
