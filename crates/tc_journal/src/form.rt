//! The two forms of a block's line: with the block's pc, and the old one without.

ghost use Rattle.std.specs.Prelude.{◌≡◌, is_some};
ghost use Rattle.tc_journal.specs.Told.{told_if, block_of};

use crate::block::{Block, BlockV1};

/// A block whose line has one of the forms.
pub(crate) trait Form: Drop {
    ghost use Rattle.std.specs.Prelude.{Bool};
    ghost use Rattle.tc_journal.specs.Told.{Told};

    // The content of the block's line.
    ghost told: { Self → Told };

    // Whether it has a pc.
    ghost has_pc: { Bool };

    /// Whether the lines of such blocks have a pc.
    fn has_pc() -> bool
        ensures value { result ≡ has_pc }
        ensures each { (b : Self) → is_some (told b).pc ≡ has_pc };

    /// The block as a line of this form shows it.
    fn of(block: Block) -> Self
        ensures same { told result ≡ told_if has_pc block }
        ensures only { (b : Self) → block_of (told b) ≡ block → result ≡ b };
}

impl Form for Block {
    ghost use Rattle.std.specs.Prelude.{true};
    ghost use Rattle.tc_journal.specs.Told as spec;

    ghost told = { spec.told };

    ghost has_pc = { true };

    fn has_pc() -> bool {
        true
    }

    fn of(block: Block) -> Block {
        block
    }
}

impl Form for BlockV1 {
    ghost use Rattle.std.specs.Prelude.{false};
    ghost use Rattle.tc_journal.specs.Told as spec;

    ghost told = { spec.told_v1 };

    ghost has_pc = { false };

    fn has_pc() -> bool {
        false
    }

    fn of(block: Block) -> BlockV1 {
        BlockV1 {
            stamp: block.stamp,
            thread: block.thread,
            turns: block.turns,
            held: block.held,
            kind: block.kind,
            worker: block.worker,
            end: block.end,
        }
    }
}
