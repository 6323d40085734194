//! A line over a whole list of arrivals and picks: its executable specification.

ghost use Rattle.std.specs.Prelude.{◌≡◌, IfOk};
ghost use Rattle.tc_nodes.specs.Picks.{IsBounded, IsOnce, MayRun, picks};

use crate::line::Line;
use std::alloc::{AllocError, Global};
use tc_queue::Turn;

/// What happens to a line.
#[derive(Clone, Copy)]
pub enum Op {
    /// A turn arrives, on a node.
    Arrive(Turn, u32),
    /// A holder on this node picks.
    Pick(u32),
}

/// The answers of the picks, in order, for a line that is empty at first. This defines a line over
/// a whole list of operations; bypasses are counted over all of them.
#[tactic(auto, using(crate::proofs::Ran::bounded))]
pub fn run_line(alloc: Global, bound: u32, ops: &[Op]) -> Result<Vec<Option<Turn>>, AllocError>
    requires { MayRun bound ops.now }
    ensures picks { IfOk result (λ v. v.items ≡ picks bound ops.now) }
    ensures once { IfOk result (λ v. IsOnce v.items) }
    ensures bounded { IsBounded bound ops.now }
{
    let mut line = Line::new(alloc, 64, bound)?;
    let mut answers = Vec::with_capacity(alloc, ops.len())?;
    for op in ops {
        match *op {
            Op::Arrive(turn, node) => {
                line.arrive(turn, node);
            }
            Op::Pick(node) => answers.push_reserved(line.pick(node)),
        }
    }
    Ok(answers)
}
