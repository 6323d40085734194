//! Workers: they run the threads of a guest through one hall, until each has ended.
//!
//! A worker with its desk (combiner) runs and settles packages until every thread is Done or the run is stopped.
//! Promise: a run returns the threads and locks of a complete legal run of ordinary mutexes (`IsWholeRun`); where
//! the waiters stand in the hall's lines, it is a run of the abstract machine (`IsMachineRun`).
//!
//! - `specs/Worker.antt`: the invariant of a worker at work. `specs/Search.antt`: the result of a
//!   search for a package, and why. `specs/StepWith.antt`: what is done with a current package, what
//!   a worker does after its desk's answer, and the threads that it offers. `specs/Turns.antt`: its
//!   steps, and its end. `specs/Crew.antt`: a crew of workers and their queues. `specs/Rows.antt`:
//!   rows of seats. `specs/Run.antt`: the result of a whole run, and what its crew did.
//!   `specs/Machine.antt`: what its steps were.
//! - `gate`: observers of workers. `worker`: workers. `work`: a worker's steps, in their order.
//!   `find`, `step_with`, `leave`: how it finds a package, makes a step with one, and leaves.
//!   `calls`: the calls of the hall, as workers make them. `step`, `finished`: the results of a
//!   step and of a worker.
//! - `crew`: all workers in parallel. `bell`: their start barrier. `idling`: the back-off of one
//!   that finds nothing. `lines`: the queues of all locks, and their seats. `run`: whole runs.
//!
//! The files of proofs/: `Passes`, `Desks`, `Running` and `Turning`, the steps of a worker; `Stances`, how
//! its pass stands at the lines; `Leaving` and `Unstopped`, stops; `Hiring`, `Rows`, `Crossing` and
//! `Joining`, a crew; `Machine`, its run as one of the abstract machine.
//!
//! The parts of a run are public, so that others can drive desks by hand, as tc_workers_tests does:
//! `hire` makes a crew and `together` runs it; `try_claim`, `wanted_lock`, `seal_block` and `next`
//! are what a worker does between the calls of its desk.
#![tactic(auto)]

pub mod bell;
mod calls;
pub mod crew;
pub mod find;
pub mod finished;
pub mod gate;
mod idling;
mod leave;
pub mod lines;
mod run;
pub mod step;
pub mod step_with;
mod work;
pub mod worker;

pub use gate::{Gate, Open, Point};
pub use run::{run_all, run_made, run_with};
pub use tc_isa::options::Options;
