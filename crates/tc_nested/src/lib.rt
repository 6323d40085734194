//! Who gets a released lock next.
//!
//! The desks (a combiner for each worker) ask here after a block that released locks. They are
//! promised the answer of the batch rule. A released lock stays free if nobody waits; else its
//! worker adopts a waiter if the rule lets it; else a waiter is granted the lock. Every lock state
//! whose journal ends with that block allows such a section. A thread that has ended passes its
//! locks on in ascending order.
//!
//! - `next`: what becomes of a released lock, and of all locks of a thread that has ended.
//! - `law`: the batch rule allows what comes next.
#![tactic(auto)]

mod law;
mod next;

pub use law::allowed;
pub use next::{Next, first_release, plan};
