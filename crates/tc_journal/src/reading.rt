//! Histories read back from their text.

ghost use Rattle.std.specs.Prelude.{◌≡◌, ℕ, ◌⊎◌, List, IfOk, IfSome, IsErrOf, MatchOption, MatchResult};
ghost use Rattle.tc_journal.specs.Reading.{BeginsWith, IsTextOf, IsFirstWrong};
ghost use Rattle.tc_journal.specs.Told.{told, told_v1};
ghost use Rattle.tc_journal.specs.declared.block.Block.{Block as BlockValue};
ghost use Rattle.tc_journal.specs.declared.block.BlockV1.{BlockV1 as BlockV1Value};
ghost use Rattle.tc_journal.specs.declared.reading.BadText.TheVariants.{OutOfMemory};

use crate::block::{Block, BlockV1};
use crate::buffer::{Buffer, ROOM};
use crate::form::Form;
use crate::line::put_line;
use crate::spelling::block_at_front;
use std::alloc::{AllocError, Global};

/// Why a text was refused.
#[derive(Clone, Copy, Debug, PartialEq, Eq)]
pub enum BadText {
    /// The line of this number, from 1, is the first that is not the line of a block with its
    /// stamp. A last line without its newline is wrong.
    Line(u64),
    /// There was no memory for the blocks.
    OutOfMemory,
}

impl From<AllocError> for BadText {
    ghost from_gives = { λ _ e. e ≡ OutOfMemory };

    fn from(_: AllocError) -> Self {
        BadText::OutOfMemory
    }
}

/// The block with this stamp whose line is a prefix of a text, and what follows that line. The line
/// is printed again and compared.
fn first_block<'a, B: Form>(
    room: &mut [u8; ROOM],
    text: &'a [u8],
    stamp: u64,
) -> Option<(B, &'a [u8])>
    ensures some { IfSome result
        (λ r. (begins : BeginsWith text.now stamp (B.told r.0)) × (begins.more ≡ r.1.now)) }
    ensures every { (b : B) → BeginsWith text.now stamp (B.told b)
        → MatchOption result ⊥ (λ r. r.0 ≡ b) }
{
    let has_pc = B::has_pc();
    let block = block_at_front(text, has_pc)?;
    if block.stamp != stamp {
        return None;
    }
    let mut line = Buffer::new(room);
    put_line(&mut line, &block, has_pc.then_some(block.pc));
    let behind = text.strip_prefix(line.into_str().as_bytes())?;
    Some((B::of(block), behind))
}

/// The blocks of a text whose lines have this form.
fn read_lines<B: Form>(alloc: Global, bytes: &[u8]) -> Result<Vec<B>, BadText>
    ensures ok { IfOk result (λ blocks. IsTextOf B.told bytes.now blocks.items) }
    ensures line { (n : ℕ) → IsErrOf result (BadText.Line n) → IsFirstWrong B.told bytes.now n }
    ensures read_back { (h : List B) → IsTextOf B.told bytes.now h
        → MatchResult result (λ blocks. blocks.items ≡ h) (λ e. e ≡ BadText.OutOfMemory) }
    ensures wrong { (n : ℕ) → IsFirstWrong B.told bytes.now n
        → IsErrOf result (BadText.Line n) ⊎ IsErrOf result BadText.OutOfMemory }
{
    let mut blocks = Vec::new(alloc);
    let mut room = [0; ROOM];
    let mut rest = bytes;
    while !rest.is_empty() {
        let stamp = blocks.len() as u64;
        let Some((block, behind)) = first_block(&mut room, rest, stamp) else {
            return Err(BadText::Line(stamp + 1));
        };
        if blocks.push(block).is_err() {
            return Err(BadText::OutOfMemory);
        }
        rest = behind;
    }
    Ok(blocks)
}

/// The history of a text, if it is one: one line for each block, each with its newline, in the
/// order of their stamps 0, 1, 2 and so on, with numbers that fit a block.
pub fn read(alloc: Global, bytes: &[u8]) -> Result<Vec<Block>, BadText>
    ensures ok { IfOk result (λ blocks. IsTextOf told bytes.now blocks.items) }
    ensures line { (n : ℕ) → IsErrOf result (BadText.Line n) → IsFirstWrong told bytes.now n }

    // Complete: it accepts the text of every history, unless memory runs out.
    ensures read_back { (h : List BlockValue) → IsTextOf told bytes.now h
        → MatchResult result (λ blocks. blocks.items ≡ h) (λ e. e ≡ BadText.OutOfMemory) }
    ensures wrong { (n : ℕ) → IsFirstWrong told bytes.now n
        → IsErrOf result (BadText.Line n) ⊎ IsErrOf result BadText.OutOfMemory }
{
    read_lines(alloc, bytes)
}

/// The history of a text in the old form, whose lines have no pc. Otherwise it is as
/// `read`.
pub fn read_v1(alloc: Global, bytes: &[u8]) -> Result<Vec<BlockV1>, BadText>
    ensures ok { IfOk result (λ blocks. IsTextOf told_v1 bytes.now blocks.items) }
    ensures line { (n : ℕ) → IsErrOf result (BadText.Line n) → IsFirstWrong told_v1 bytes.now n }

    // Complete: it accepts the text of every history, unless memory runs out.
    ensures read_back { (h : List BlockV1Value) → IsTextOf told_v1 bytes.now h
        → MatchResult result (λ blocks. blocks.items ≡ h) (λ e. e ≡ BadText.OutOfMemory) }
    ensures wrong { (n : ℕ) → IsFirstWrong told_v1 bytes.now n
        → IsErrOf result (BadText.Line n) ⊎ IsErrOf result BadText.OutOfMemory }
{
    read_lines(alloc, bytes)
}
