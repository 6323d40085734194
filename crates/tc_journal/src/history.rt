//! Histories merged and printed.

ghost use Rattle.std.specs.Prelude.{◌≡◌, ◌<◌, All, IfOk, length, map};
ghost use Rattle.std.specs.List.{flat_map};
ghost use Rattle.std.specs.List.Sorted.{IsPermutation};
ghost use Rattle.tc_journal.specs.History.{all_blocks, HasEachStamp, IsInOrder, placed};
ghost use Rattle.tc_journal.specs.Line as spec;

use crate::block::Block;
use crate::line::push_lent;
use std::alloc::{AllocError, Global};

/// The blocks of all logs, in the order of their stamps.
pub fn merge(alloc: Global, logs: &[Vec<Block>]) -> Result<Vec<Block>, AllocError>
    requires { HasEachStamp (all_blocks logs.now) }
    ensures blocks { IfOk result (λ history. IsPermutation (all_blocks logs.now) history.items) }
    ensures order { IfOk result (λ history. IsInOrder history.items) }
{
    let parts = lent(alloc, logs)?;
    merge_lent(alloc, &parts)
}

/// Logs, borrowed.
fn lent(alloc: Global, logs: &[Vec<Block>]) -> Result<Vec<&[Block]>, AllocError>
    ensures { IfOk result (λ parts. map (λ log. log.now) parts.items ≡ map (λ log. log.items) logs.now) }
{
    let mut parts = Vec::new(alloc);
    for log in logs {
        parts.push(log.as_slice())?;
    }
    Ok(parts)
}

/// How many blocks the logs have.
fn count_of(logs: &[&[Block]]) -> usize {
    let mut count: usize = 0;
    for log in logs {
        count = count.saturating_add(log.len());
    }
    count
}

/// The blocks of all logs, borrowed, log after log.
fn one_by_one<'a>(alloc: Global, logs: &[&'a [Block]]) -> Result<Vec<&'a Block>, AllocError>
    ensures { IfOk result (λ blocks.
        map (λ b. b.now) blocks.items ≡ flat_map (λ log. log.now) logs.now) }
{
    let mut blocks: Vec<&Block> = Vec::with_capacity(alloc, count_of(logs))?;
    for log in logs {
        blocks.extend(log.iter())?;
    }
    Ok(blocks)
}

/// Puts each block of the log at the place of its stamp.
fn place<'a>(history: &mut [&'a Block], log: &'a [Block])
    requires { All (λ b. b.stamp < length history.old) log.now }
    ensures { map (λ b. b.now) history.new ≡ placed (map (λ b. b.now) history.old) log.now }
{
    for block in log {
        history[block.stamp as usize] = block;
    }
}

/// The blocks of all logs, borrowed, in the order of their stamps.
pub fn in_order<'a>(alloc: Global, logs: &[&'a [Block]]) -> Result<Vec<&'a Block>, AllocError>
    requires { HasEachStamp (flat_map (λ log. log.now) logs.now) }
    ensures blocks { IfOk result (λ history.
        IsPermutation (flat_map (λ log. log.now) logs.now) (map (λ b. b.now) history.items)) }
    ensures order { IfOk result (λ history. IsInOrder (map (λ b. b.now) history.items)) }
{
    let mut history = one_by_one(alloc, logs)?;
    for log in logs {
        place(&mut history, log);
    }
    Ok(history)
}

/// As `merge`, of logs that are stored in different places.
pub fn merge_lent(alloc: Global, logs: &[&[Block]]) -> Result<Vec<Block>, AllocError>
    requires { HasEachStamp (flat_map (λ log. log.now) logs.now) }
    ensures blocks { IfOk result (λ history.
        IsPermutation (flat_map (λ log. log.now) logs.now) history.items) }
    ensures order { IfOk result (λ history. IsInOrder history.items) }
{
    in_order(alloc, logs)?
        .iter()
        .map(|block| **block)
        .collect(alloc)
}

/// The lines of the blocks, each with its newline.
pub fn text(alloc: Global, history: &[Block]) -> Result<Vec<u8>, AllocError>
    ensures { IfOk result (λ bytes. bytes.items ≡ spec.history_text history.now) }
{
    let blocks: Vec<&Block> = history.iter().collect(alloc)?;
    let mut lines = String::new(alloc);
    push_lent(&mut lines, &blocks)?;
    Ok(lines.into_bytes())
}
