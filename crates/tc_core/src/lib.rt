//! The abstract machine of delegation: workers that hand threads and locks to one another. The main
//! theorem: delegation refines ordinary mutexes.
//!
//! One event is one step of one worker. `specs/Events.antt` is the event table: for each event,
//! one equation says when it is enabled and one says what it does. No scheduler is fixed, so every
//! interleaving of the workers is a list of events. `theorem::theorem` promises the layers above:
//! Refinement: erasing workers and delegation from a list of enabled events gives a run of
//! ordinary mutexes, step by step and block by block. Locks are given in the order of entry. No
//! more consecutive sections are adopted than the batch limit says. A block's held set is its
//! thread's.
//!
//! - `event`: the events. `place`: where threads and locks are. `specs/Core.antt`: the state.
//! - `theorem`: the theorem. `specs/Stories.antt` defines the lists of events, `specs/Theorem.antt`
//!   what they refine.
//! - `alive`: progress: a thread waits for few sections, the work is bounded, and every list of
//!   events can be continued until all threads have ended; `specs/Alive.antt` has the definitions.
//! - `machine`: an executable form, `Core`, whose `step` answers whether the event was enabled. `line`,
//!   `courses` and `custodies` are its parts; `specs/View.antt` says which abstract state it represents.
#![tactic(auto)]

pub mod alive;
mod courses;
mod custodies;
pub mod event;
mod line;
pub mod machine;
pub mod place;
pub mod theorem;

pub use crate::event::Event;
pub use crate::machine::Core;
