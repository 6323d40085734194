//! One step (turn) of a guest thread: what the thread does, and the new state of it and of each lock.
//!
//! `specs/Turn.antt` has the definitions that the abstract machine, a package and the replay of a
//! journal share: the state of a thread, the state of a lock, what the next step does, and both
//! states after it. A step is one act of tc_exec; the thread and each lock change by that act
//! alone, independently. `specs/Memory.antt` defines memory. `specs/Replay.antt` says how a block
//! replays from what one lock saw of it.
//!
//! - `status`: whether and how a thread has ended. `outcome`: how a step came out for its block.
//! - `number`: numbers in bytes. `memory`: a thread's own memory. `thread`: a thread, which
//!   executes acts. `own_turns`: its steps, one at a time in a loop.
//! - `answer`: the answer that a step needs from its surroundings.
//! - `turn_laws`: lemmas on what a step reads and what it leaves alone.
#![tactic(auto)]

pub mod answer;
pub mod memory;
pub mod number;
pub mod outcome;
pub mod own_turns;
pub mod status;
pub mod thread;
pub mod turn_laws;

pub use crate::answer::Surroundings;
pub use crate::status::Status;
pub use crate::thread::GuestThread;
