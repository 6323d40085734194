//! How entries are stored: their registers in one list, and their foreign words in another.

ghost use Rattle.std.specs.Prelude.{◌≡◌, ◌≤◌, length, map, take};
ghost use Rattle.tc_journal.specs.Batch.{last_of};
ghost use Rattle.tc_segment.specs.Kept.{block_of, shown, sealed_record, sums_of, AreSmall, Fits, IsRecordOf};
ghost use Rattle.tc_segment.specs.Lent.{entry_lent};

use crate::draft::{Draft, Ending};
use crate::edges::Edges;
use crate::entry::Entry;
use crate::stamp::Stamp;
use std::snapshot::Snapshot;
use tc_isa::held::Held;
use tc_journal::block::{Block, Kind};

/// A block, and where the registers and the foreign words of its entry stand. The registers after
/// the block stand right behind those before it, and the words right behind those of the entry
/// before. A run keeps a record for each lock of each block, so it is small: a place takes no memory
/// of its own, since the steps and the counts of the records before tell it.
#[derive(Drop)]
pub(crate) struct Record {
    stamp: Stamp,
    thread: u32,
    held: Held,
    worker: u32,
    pc: u32,
    fuel: u32,
    turns: u16,
    ending: Ending,
    kind: Kind,
    // How far behind those of the record before the registers before the block begin, and how many
    // foreign words there are.
    step: u8,
    words: u16,
    // Where the registers of the record before begin, and where the foreign words do.
    before: Snapshot<u32>,
    from: Snapshot<u32>,
}

/// The entry of a block that runs: where its registers before it and its foreign words begin, and
/// where the registers of the entry before do.
#[derive(Clone, Copy)]
pub(crate) struct Opening {
    pub(crate) fuel: u32,
    pub(crate) start: u32,
    pub(crate) from: u32,
    pub(crate) before: u32,
}

/// What the steps and the numbers of foreign words of some records are in sum.
#[derive(Clone, Copy)]
pub(crate) struct Sums {
    pub(crate) steps: u32,
    pub(crate) words: u32,
}

impl Record {
    /// The record of an open entry whose block is drafted so, with its step and the number of its
    /// foreign words.
    pub(crate) fn of(draft: &Draft, next: &Opening, step: u8, words: u16) -> Record
        ensures { IsRecordOf draft.now next.now step words result }
    {
        Record {
            stamp: Stamp::of(draft.stamp),
            thread: draft.thread,
            held: draft.held,
            worker: draft.worker,
            pc: draft.pc,
            fuel: next.fuel,
            turns: draft.turns,
            ending: draft.ending,
            kind: draft.kind,
            step,
            words,
            before: Snapshot::of(&next.before),
            from: Snapshot::of(&next.from),
        }
    }

    /// Its block.
    pub(crate) fn block(&self) -> Block
        ensures { result ≡ block_of self.now }
    {
        Block {
            stamp: self.stamp.number(),
            thread: self.thread,
            turns: u32::from(self.turns),
            held: self.held,
            kind: self.kind,
            worker: self.worker,
            pc: self.pc,
            end: self.ending.end(),
        }
    }

    /// Gives its block this stamp and worker.
    pub(crate) fn stamp(&mut self, stamp: u64, worker: u32)
        ensures { self.new ≡ sealed_record stamp worker self.old }
    {
        self.stamp = Stamp::of(stamp);
        self.worker = worker;
    }

    /// The entry, which lends its part of all words. The sums are those of the records before.
    pub(crate) fn entry<'a>(&self, sums: &Sums, edges: &Edges, words: &'a [u32]) -> Entry<'a>
        requires before { sums.now.steps ≡ self.now.before.value }
        requires from { sums.now.words ≡ self.now.from.value }
        requires fits { Fits edges.now.words words.now self.now }
        ensures { entry_lent result ≡ shown edges.now.words words.now self.now }
    {
        let start = sums.steps + u32::from(self.step);
        let from = sums.words as usize;
        Entry {
            block: self.block(),
            start: edges.at(start),
            fuel: self.fuel,
            end: edges.behind(start),
            foreign: &words[from..from + usize::from(self.words)],
        }
    }
}

/// The block of the last of the first so many records.
pub(crate) fn last_block(records: &[Record], sealed: usize) -> Option<Block>
    requires { sealed ≤ length records.now }
    ensures { result ≡ last_of (map block_of (take sealed records.now)) }
{
    match sealed {
        0 => None,
        _ => Some(records[sealed - 1].block()),
    }
}

/// The sums of these records.
pub(crate) fn sums_of(records: &[Record]) -> Sums
    requires { AreSmall (sums_of records.now) }
    ensures { result ≡ sums_of records.now }
{
    let mut sums = Sums { steps: 0, words: 0 };
    for record in records {
        sums.steps += u32::from(record.step);
        sums.words += u32::from(record.words);
    }
    sums
}
