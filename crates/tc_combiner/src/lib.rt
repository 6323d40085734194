//! Desks (per-worker combiners): the lock's holder runs the critical sections of waiters.
//!
//! A desk owns its worker's pass, a seat at the queue of each lock, its sleepers, its clock, and
//! the package that it set aside, if any. `acquire` takes the lock that a package wants, or ships
//! the package to the lock's holder. `settle` does what the end of a package's last block requires:
//! it passes locks on to waiters, adopts one of them, parks a sleeper. Only these two may wait, and
//! each of their waits checks the stop flag.
//!
//! Promises, for any order of waiters and any number of held locks: for each answer, the calls of
//! the pass that led to it, in order and no others except checks of the stop flag that found it
//! clear. It checked that flag at least as often as its tries failed (`LooksEachTime`), except for
//! the first question at a released lock, after which it leaves the queue. Contracts also say what
//! the seats record, which package the desk has afterwards, fit for its worker, and that nothing
//! else that was out changed.
//!
//! - `specs/View.antt`: desks and benches as contracts see them, and when a desk fits a bench.
//!   `specs/Change.antt`: the states before and after. `specs/Steps.antt`: one step at a desk with
//!   its current package, and what changed at the seats and set aside; the files below say of such
//!   a step what became of packages and locks. `specs/Walks.antt`: what some calls of a pass and of
//!   a seat did, one by one, and what a desk may do. `specs/Packages.antt`: what is required and
//!   said of packages. `specs/Stances.antt`: how the pass stands at the lines of the locks, in a hall
//!   with lines: as the packages in hand show. `specs/Answers.antt`: what became of a package that
//!   wants a lock, and of one that is put back. `specs/Release.antt`: what became of a released lock,
//!   and of all locks of a thread that ended. `specs/Settling.antt`: all of it by the end of the
//!   block.
//!   `specs/Ties.antt`: the tail of a queue simulates the queue of the abstract machine;
//!   `specs/Tails.antt`: the same over a whole order of calls and events. `specs/Vocabulary.antt`:
//!   definitions of the layers below that these use.
//! - `desk`: desks and benches. `parts`: the state of a desk, and what it shares. `settle`: what
//!   `settle` does, over the parts of a desk. `acquire`, `unlock`, `ends`: what is done for a
//!   package that wants a lock, at an unlock, and at a sleep or a thread's end. `release`: what
//!   becomes of a released lock. `waits`: the three waits, and one try of each. `calls`: the calls
//!   of the hall that several of these make. `tie`: the simulation of waiting queues.
//! - `settled`, `passed`, `found`, `attempt`, `ready`: what became of a package, of a lock, who is
//!   behind, the result of one try, and which threads were made ready.
//!
//! The files of proofs/, by what they prove:
//!
//! - The calls of a desk: `Acting` (calls one after another), `Looking` and `Telling` (stops),
//!   `Owning` (what is out), `Packages`, `Seats`, `Fitting` (a desk still fits its bench).
//! - How its pass stands at the lines: `Stances` (calls), `Lining` (packages in hand), `Releasing` (a
//!   released lock), `Leaving` (a thread's end), `Sealing` (`commit`).
//! - What its calls answer: `Acquiring`, `PassedOn`, `Unlocking`, `Ending`, `Settling`, `Answering`.
//! - `Ties` and `Tails`, the laws of `tie`; `Vocabulary`, the shared definitions.
#![tactic(auto)]

mod acquire;
mod attempt;
mod calls;
mod desk;
mod ends;
mod found;
mod parts;
mod passed;
mod ready;
mod release;
mod settle;
mod settled;
mod tie;
mod unlock;
mod waits;

pub use desk::{Bench, Desk};
pub use settled::Settled;
pub use tie::{line_tie, order_tie};
