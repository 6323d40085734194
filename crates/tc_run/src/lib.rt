//! A run of a hall with lines is a run of the abstract machine of tc_core.
//!
//! tc_hall shows that each operation of a hall is events of the machine, or none, if those events
//! are enabled. Where the lines of the locks are words of the hall's table too, the calls on the
//! lines and the operations of the hall have one order. This crate promises that in that order all
//! events are enabled: the lines and the passes give the machine what it asks of queues, grants and
//! the batch rule. No word is read or written here, and no code runs: the function is a law.
//!
//! - `specs/Run.antt`: the events and the lines of an order of operations, and the law.
//!   `specs/End.antt`: the same of the order that a hall had at its end, a lemma for the crates above.
//!
//! The files of proofs/, by what they prove:
//!
//! - The law: `Law`, by induction over the order, from the invariant of `Agree`; `Moving`, the
//!   invariant after one operation; `End`, for a hall that was closed.
//! - The parts of the invariant after an operation: `Passes`, how passes stand at the lines;
//!   `Slots`, what lies in slots; `Covers`, who waits for a lock is found by its unlock; `Counting`,
//!   the numbers of turns; `Committing` and `Sealed`, the history and its blocks.
//! - What these use: `Lifting`, that the lines allow the events of each operation; `After`, what
//!   those events make of the machine; `Hands`, what a hall and its order say of who has what;
//!   `Queues`, lists of turns.
#![tactic(auto)]

ghost use Rattle.tc_run.specs.Run.{RunsAsMachine};

/// All operations of all passes of a hall with lines, in their one order, up to the first stop, are
/// enabled events of the abstract machine, which write the history of the blocks that the passes
/// sealed; each lock goes to the turns that entered its line, in the order of entry. A theorem: the
/// function has no effect when it is called.
pub fn run()
    ensures runs { RunsAsMachine }
{}
