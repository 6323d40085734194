//! The steps that a seat makes, with their answers.

use crate::cells::Placed;
use tc_queue::{Departure, Turn};

/// What `enter` found: nobody, or how many had entered since nobody was there.
#[derive(Clone, Copy, Debug, PartialEq, Eq)]
pub enum Entered {
    First,
    Behind(u64),
}

/// A step that a seat made. The answer of `next` or `leave` belongs to the step that decides it:
/// the one that puts the line back, or the compare-and-swap of `leave`.
#[derive(Clone, Copy)]
pub enum LineStep {
    /// A turn entered, with the answer.
    Enter(Turn, Entered),
    /// The place, the turn that was put there, and its node.
    Link(u64, Turn, u32),
    /// Whether the line was in its slot, and was taken.
    Take(bool),
    /// The number of the cell, what was found there, and whether the line accepted it.
    Read(u64, Option<Placed>, bool),
    /// `next` of a turn, for this node, put the line back with this answer.
    Next(Turn, u32, Option<Turn>),
    /// `leave` of a turn put the line back while somebody waited in it. The answer is that others
    /// follow.
    Stay(Turn),
    /// The compare-and-swap of `leave` of a turn while nobody waits, with the answer.
    Leave(Turn, Departure),
    /// The line was put back after that.
    Back,
}
