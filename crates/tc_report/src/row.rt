//! The blocks of a piece of the history, which the logs have in parts, in the order of their stamps.

ghost use Rattle.std.specs.Prelude.{◌≡◌, ◌+◌, ◌<◌, ◌≤◌, All, IfOk, drop, filter, length, map, take};
ghost use Rattle.std.specs.List.Sorted.{IsNonDecreasingBy};
ghost use Rattle.tc_report.specs.Logs.{AreLogs, blocks_in, is_between, merged, put_from};

use std::alloc::{AllocError, Global};
use tc_journal::block::Block;

/// How many blocks the logs have.
pub(crate) fn count_of(logs: &[&[Block]]) -> usize
    requires { AreLogs logs.now }
    ensures { result ≡ length (blocks_in logs.now) }
{
    let mut count = 0;
    for log in logs {
        count += log.len();
    }
    count
}

/// A row of so many places, with some blocks of the logs at them, until others are put there.
pub(crate) fn row_of<'a>(
    alloc: Global,
    logs: &[&'a [Block]],
    size: usize,
) -> Result<Vec<&'a Block>, AllocError>
    requires { size ≤ length (blocks_in logs.now) }
    ensures { IfOk result (λ row. length row.items ≡ size) }
{
    let mut row: Vec<&Block> = Vec::with_capacity(alloc, size)?;
    for log in logs {
        let more = log.len().min(size - row.len());
        row.extend(log[..more].iter())?;
    }
    Ok(row)
}

/// The blocks of a log whose stamps are from one number on and below another.
fn between(log: &[Block], from: u64, to: u64) -> &[Block]
    requires { IsNonDecreasingBy (λ b. b.stamp) log.now }
    ensures { result.now ≡ filter (is_between from to) log.now }
{
    let first = log.partition_point(|block| block.stamp < from);
    let rest = &log[first..];
    &rest[..rest.partition_point(|block| block.stamp < to)]
}

/// Puts each of the blocks at its place in a row that begins at this stamp.
fn place<'a>(row: &mut [&'a Block], from: u64, blocks: &'a [Block])
    requires { All (λ b. (from ≤ b.stamp) × (b.stamp < from + length row.old)) blocks.now }
    ensures { map (λ b. b.now) row.new ≡ put_from from (map (λ b. b.now) row.old) blocks.now }
{
    for block in blocks {
        row[(block.stamp - from) as usize] = block;
    }
}

/// Puts the blocks of the logs whose stamps follow one another from this one on into a row, until it
/// is full.
pub(crate) fn fill_row<'a>(row: &mut [&'a Block], from: usize, logs: &[&'a [Block]])
    requires logs { AreLogs logs.now }
    requires within { from + length row.old ≤ length (blocks_in logs.now) }
    ensures { map (λ b. b.now) row.new ≡ take (length row.old) (drop from (merged logs.now)) }
{
    let to = (from + row.len()) as u64;
    let from = from as u64;
    for log in logs {
        place(row, from, between(log, from, to));
    }
}

/// The blocks of all logs, in the order of their stamps.
pub(crate) fn whole_row<'a>(
    alloc: Global,
    logs: &[&'a [Block]],
) -> Result<Vec<&'a Block>, AllocError>
    requires { AreLogs logs.now }
    ensures { IfOk result (λ row. map (λ b. b.now) row.items ≡ merged logs.now) }
{
    let mut row = row_of(alloc, logs, count_of(logs))?;
    fill_row(&mut row, 0, logs);
    Ok(row)
}
