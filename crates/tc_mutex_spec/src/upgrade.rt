//! Adds the pc of each block to an old history, by a run of its schedule.

ghost use Rattle.std.specs.Prelude.{◌≡◌, ◌≤◌, IfOk, IfSome, is_some};
ghost use Rattle.std.specs.List.{All};
ghost use Rattle.tc_journal.specs.History.{schedule_v1};
ghost use Rattle.tc_journal.specs.declared.block.BlockV1.{BlockV1 as BlockV1Value};
ghost use Rattle.tc_mutex_spec.specs.Blocks.{with_pcs};
ghost use Rattle.tc_mutex_spec.specs.Machine.{run, start};
ghost use Rattle.tc_mutex_spec.specs.Slow.{Suits};
ghost use Rattle.tc_mutex_spec.specs.Turned.{TookBlock};

use crate::slow::Slow;
use std::alloc::{AllocError, Global};
use tc_elf::image::Image;
use tc_journal::block::{Block, BlockV1};

/// The pc of a thread before so many of its steps, which it then takes; None if one of them is
/// undefined.
fn take_block(slow: &mut Slow, image: &Image, t: u32, count: u32) -> Option<u32>
    requires suits { Suits image.now slow.old }
    requires some { 1 ≤ count }
    ensures { TookBlock image.now slow.old slow.new t count result }
{
    if t >= image.threads() {
        return None;
    }
    let pc = slow.regs(t).pc();
    if slow.turns(image, t, count) {
        Some(pc)
    } else {
        None
    }
}

/// The same blocks, each with its thread's pc before it in the run of their schedule. None if
/// and only if that run is undefined. The kinds, held locks and ends of the old history are
/// ignored.
pub fn upgrade(
    alloc: Global,
    image: &Image,
    fuel: u32,
    old: &[BlockV1],
) -> Result<Option<Vec<Block>>, AllocError>
    requires { All (λ (b : BlockV1Value). 1 ≤ b.turns) old.now }
    ensures run { IfOk result
        (λ o. is_some o ≡ is_some (run image.now fuel (schedule_v1 old.now))) }
    ensures pcs { IfOk result (λ o. IfSome o
        (λ h. h.items ≡ with_pcs image.now (start image.now fuel) old.now)) }
{
    let mut slow = Slow::start(alloc, image, fuel)?;
    let mut blocks = Vec::new(alloc);
    for block in old {
        let Some(pc) = take_block(&mut slow, image, block.thread, block.turns) else {
            return Ok(None);
        };
        blocks.push(block.with_pc(pc))?;
    }
    Ok(Some(blocks))
}
