//! The order of the waiters of a lock, as the desks of workers use it.
//!
//! An order has two forms. In the hall: its words are among those of the hall's table, so its calls
//! and those of the hall have one order, and a pass's list has both. Apart: any order of waiters of
//! tc_queue, which has a table of its own, and of which a pass knows nothing.
//!
//! - `specs/Order.antt`: what a call says of the pass beside it. `order`: the trait. `in_hall`: the line of a lock in a hall with lines. `apart`: any order of
//!   waiters.
#![tactic(auto)]

mod apart;
mod in_hall;
mod order;

pub use apart::Apart;
pub use in_hall::InHall;
pub use order::Order;
