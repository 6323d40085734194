//! An example of an order of waiters: the youngest first (LIFO), with a bound on bypasses.
//!
//! Who came last is served first, as in Malthusian locks, but nobody is passed over more often than
//! the bound says. One Mutex of std protects the order, so its code is sequential. `enter` and
//! `link` wait for that Mutex too, so a queue has a handle to wait with. The stack has room for 64
//! turns, more than there are threads, and a thread has one waiting turn at a time. So `link`
//! allocates nothing.
//!
//! The layer above makes its calls with seats; contracts see in each the list of its calls with
//! their answers, as in any order of waiters (`Waiters` of tc_queue). `specs/Stack.antt` says whom
//! `next` serves, with the stack as a plain value.
//!
//! - `stack`: who waits, and who is served. `queue`: the stack as an order of waiters, with the seats
//!   of tc_seats.
#![tactic(auto)]

mod queue;
mod stack;

pub use queue::{Youngest, YoungestQueue};
