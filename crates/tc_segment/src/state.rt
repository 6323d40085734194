//! Lock states.

ghost use Rattle.std.specs.Prelude.{◌≡◌, ◌<◌, [], ◌∷◌, true, false, is_some, length, slice_get, OnOk, OnErr, IfOk, Some, None};
ghost use Rattle.tc_isa.specs.declared.held.TheConstants.Held.{PLACES};
ghost use Rattle.tc_elf.specs.Places.{in_guard};
ghost use Rattle.tc_exec.specs.Told.{IsWidth};
ghost use Rattle.tc_journal.specs.Batch.{ends_thread, run_of};
ghost use Rattle.tc_segment.specs.Draft.{drafted};
ghost use Rattle.tc_segment.specs.Kept.{IsClosed};
ghost use Rattle.tc_segment.specs.Lent.{entry_lent};
ghost use Rattle.tc_segment.specs.View.{CanStart, IsSoundLock, allows_in, passes_in, number_of_guard, ClosesWith, MayFollow, MayPass, lock_of, guard_of, with_store, with_section, with_break, with_end, with_journal, EndedAt, HasRoomFor, opened_at, noted, closed_with, sealed_as, sealed_with, kept, strict_as, blocks_of, entries, fresh_state};

use crate::draft::Draft;
use crate::edges::Edges;
use crate::entry::Entry;
use crate::packed::{MOST_WORDS, Packed};
use crate::record::{Opening, Record, last_block, sums_of};
use crate::room::{make_records, make_words, room_in};
use std::alloc::{AllocError, Global};
use std::marker::Model;
use std::snapshot::Snapshot;
use tc_elf::image::Image;
use tc_isa::regs::Regs;
use tc_journal::batch::{may_begin, passes_to, run_after};
use tc_journal::block::{Block, End, Kind};
use tc_turn::memory::{put_number, starting_bytes};
use tc_turn::number::number_from;

/// For how many entries room is made at once.
const MORE_ENTRIES: usize = 64;

/// What a lock state has, in one piece of memory.
#[derive(Drop)]
struct Contents {
    of: Snapshot<Image>,
    number: u32,
    limit: u32,
    start: u32,
    bytes: Vec<u8>,
    broken: bool,
    strict: bool,
    sections: u64,
    run: u32,
    // Those of all entries, of which so many are sealed. There may be so many, before room is made
    // again.
    records: Vec<Record>,
    sealed: usize,
    most: usize,
    // Whether an entry is open, and what the open one has, or the next one.
    opened: bool,
    next: Opening,
    edges: Edges,
    words: Vec<u32>,
}

/// A lock with the bytes of its guard, and the journal of the blocks that ran with it.
///
/// While a block runs, its entry is open: the steps of the block change the lock and note the
/// values that came from elsewhere. The entry is closed with the block, and sealed once the block
/// has its stamp and worker; `close_drafted` does both at once.
#[derive(Drop)]
pub struct LockState {
    contents: Box<Contents>,
}

impl Model for LockState {
    ghost use Rattle.tc_segment.specs.View.{LockView};

    ghost Value = { LockView };

    ghost use Rattle.tc_segment.specs.Kept.{view_of, KeptLock};

    ghost view = { λ a. view_of a.contents.value };

    ghost invariant = { λ a. KeptLock a.contents.value };
}

impl LockState {
    /// The lock of this number at the start, with an empty journal. The journal is strict: a
    /// section that is passed on goes to another thread than that of the section before.
    pub fn new(alloc: Global, image: &Image, lock: u32, limit: u32) -> Result<LockState, AllocError>
        requires { CanStart image.now lock limit }
        ensures { IfOk result (λ l. l ≡ fresh_state image.now lock limit) }
    {
        LockState::at_start(alloc, image, lock, limit, true)
    }

    /// Like `new`, but the journal is not strict: the batch rule lets a thread be passed a lock
    /// that it released itself. No run makes such a section, but a history may contain one, so
    /// checkers of histories use this.
    pub fn lenient(
        alloc: Global,
        image: &Image,
        lock: u32,
        limit: u32,
    ) -> Result<LockState, AllocError>
        requires { CanStart image.now lock limit }
        ensures { IfOk result
            (λ l. l ≡ with_journal (strict_as false) (fresh_state image.now lock limit)) }
    {
        LockState::at_start(alloc, image, lock, limit, false)
    }

    fn at_start(
        alloc: Global,
        image: &Image,
        lock: u32,
        limit: u32,
        strict: bool,
    ) -> Result<LockState, AllocError>
        requires { CanStart image.now lock limit }
        ensures { IfOk result
            (λ l. l ≡ with_journal (strict_as strict) (fresh_state image.now lock limit)) }
    {
        prove!(image.guards() <= 32);
        let (start, length) = image.guard(lock);
        let contents = Contents {
            of: Snapshot::of(image),
            number: lock,
            limit,
            start,
            bytes: starting_bytes(alloc, image, start, length)?,
            broken: false,
            strict,
            sections: 0,
            run: 0,
            records: Vec::new(alloc),
            sealed: 0,
            most: 0,
            opened: false,
            next: Opening {
                fuel: 0,
                start: 0,
                from: 0,
                before: 0,
            },
            edges: Edges::new(alloc),
            words: Vec::new(alloc),
        };
        Ok(LockState {
            contents: Box::new(alloc, contents)?,
        })
    }

    /// The invariants of each lock state, wherever it is. A lemma: the function has no effect.
    pub fn keeps(&self)
        ensures { IsSoundLock self.now }
    {
        let _ = &self.contents.number;
    }

    /// The number of the lock.
    pub fn number(&self) -> u32
        ensures is { result ≡ self.now.number }
        ensures small { result < PLACES }
    {
        self.contents.number
    }

    /// The batch limit: the greatest number of consecutive Adopted sections.
    pub fn limit(&self) -> u32
        ensures { result ≡ self.now.journal.limit }
    {
        self.contents.limit
    }

    /// Whether the lock is broken (poisoned): a thread ended while it held the lock.
    pub fn broken(&self) -> bool
        ensures { result ≡ self.now.broken }
    {
        self.contents.broken
    }

    /// The streak: the number of consecutive Adopted sections at the end.
    pub fn run(&self) -> u32
        ensures { result ≡ run_of self.now.number (blocks_of self.now) }
    {
        self.contents.run
    }

    /// How many sections began.
    pub fn sections(&self) -> u64
        ensures { result ≡ self.now.sections }
    {
        self.contents.sections
    }

    /// The bytes of the guard.
    pub fn bytes(&self) -> &[u8]
        ensures { result.now ≡ self.now.bytes }
    {
        &self.contents.bytes
    }

    /// The number of entries, including one that is closed and not sealed yet.
    pub fn entries(&self) -> usize
        ensures { result ≡ length (entries self.now.journal) }
    {
        self.contents.records.len()
    }

    /// The entry with an index, from 0, in the order in which they were closed.
    pub fn entry(&self, i: usize) -> Entry<'_>
        requires { i < length (entries self.now.journal) }
        ensures { slice_get (entries self.now.journal) i ≡ Some (entry_lent result) }
    {
        let contents = &*self.contents;
        let record = &contents.records[i];
        let sums = sums_of(&contents.records[..i]);
        record.entry(&sums, &contents.edges, &contents.words)
    }

    /// Whether the batch rule allows the next section to have this kind, and its first block this
    /// worker.
    pub fn allows(&self, kind: Kind, worker: u32) -> bool
        ensures { result ≡ allows_in self.now kind worker }
    {
        let contents = &*self.contents;
        may_begin(
            contents.number,
            contents.limit,
            last_block(&contents.records, contents.sealed),
            contents.run,
            kind,
            worker,
        )
    }

    /// Whether the next section may be of this kind and this thread. If the journal is strict, one
    /// that is passed on goes to another thread than that of the section before it.
    pub fn passes_to(&self, kind: Kind, thread: u32) -> bool
        ensures { result ≡ passes_in self.now kind thread }
    {
        let contents = &*self.contents;
        let last = last_block(&contents.records, contents.sealed);
        !contents.strict || passes_to(last, kind, thread)
    }

    /// For how many entries more there is room.
    pub fn entry_room(&self) -> usize
        ensures { result ≡ self.now.journal.entry_room }
    {
        let contents = &*self.contents;
        contents.most - contents.records.len() - usize::from(contents.opened)
    }

    /// For how many foreign words more there is room.
    pub fn word_room(&self) -> usize
        ensures { result ≡ self.now.journal.word_room }
    {
        room_in(&self.contents.words)
    }

    /// Makes room for many entries, and for at least as many foreign words. An index in a journal
    /// has 32 bits, so more words than that are refused as if memory had run out. Nothing but
    /// capacities changes, and after a refusal nothing at all.
    pub fn reserve(&mut self, turns: usize) -> Result<(), AllocError>
        ensures ok { OnOk result (HasRoomFor turns self.new.journal) }
        ensures err { OnErr result (self.new ≡ self.old) }
        ensures same { kept self.new ≡ kept self.old }
    {
        let contents = &mut *self.contents;
        // With the registers before and after each. One of them may be open.
        make_records(&mut contents.records, MORE_ENTRIES)?;
        contents.edges.reserve(2 * MORE_ENTRIES * MOST_WORDS)?;
        make_words(&mut contents.words, turns)?;
        contents.most = contents.records.len() + MORE_ENTRIES;
        Ok(())
    }

    /// Opens the entry of a block, given the registers and the fuel of its thread before it. If
    /// several locks share packed registers, see `open_packed`.
    pub fn open_entry(&mut self, start: Regs, fuel: u32)
        requires opened { self.old.journal.opened ≡ None }
        requires closed { self.old.journal.closed ≡ None }
        requires room { 0 < self.old.journal.entry_room }
        ensures { self.new ≡ with_journal (opened_at (lock_of self.old) start fuel) self.old }
    {
        self.open_packed(&Packed::of(&start), fuel);
    }

    /// Like `open_entry`, with registers that are packed once for several locks.
    pub fn open_packed(&mut self, start: &Packed, fuel: u32)
        requires opened { self.old.journal.opened ≡ None }
        requires closed { self.old.journal.closed ≡ None }
        requires room { 0 < self.old.journal.entry_room }
        ensures { self.new ≡ with_journal (opened_at (lock_of self.old) start.now fuel) self.old }
    {
        let contents = &mut *self.contents;
        contents.next.start = contents.edges.note(start);
        contents.next.fuel = fuel;
        contents.opened = true;
    }

    /// Like `open_entry`, if the last entry ended with these registers, as it did when the block
    /// continues a section. They are not stored again.
    /// To compare the packed registers instead took some sixty instructions for each lock of a block.
    pub fn open_on(&mut self, start: &Regs, fuel: u32)
        requires opened { self.old.journal.opened ≡ None }
        requires closed { self.old.journal.closed ≡ None }
        requires room { 0 < self.old.journal.entry_room }
        requires on { EndedAt start.now self.old.journal }
        ensures { self.new ≡ with_journal (opened_at (lock_of self.old) start.now fuel) self.old }
    {
        let _ = start;
        let contents = &mut *self.contents;
        contents.next.fuel = fuel;
        contents.opened = true;
    }

    /// The little-endian number of 1, 2 or 4 bytes of the guard.
    pub fn load(&self, addr: u32, width: u32) -> u32
        requires width { IsWidth width }
        requires inside { in_guard addr width (guard_of self.now) ≡ true }
        ensures { result ≡ number_of_guard self.now addr width }
    {
        number_from(self.contents.start, &self.contents.bytes, addr, width)
    }

    /// Writes the low 1, 2 or 4 bytes of a value into the guard, little-endian.
    pub fn store(&mut self, addr: u32, width: u32, value: u32)
        requires width { IsWidth width }
        requires inside { in_guard addr width (guard_of self.old) ≡ true }
        requires opened { is_some self.old.journal.opened ≡ true }
        ensures { self.new ≡ with_store addr width value self.old }
    {
        put_number(
            self.contents.start,
            &mut self.contents.bytes,
            addr,
            width,
            value,
        );
    }

    /// Notes a value that came from elsewhere: a load outside the guard, or the answer to a LOCK.
    pub fn note_foreign(&mut self, value: u32)
        requires opened { is_some self.old.journal.opened ≡ true }
        requires room { 0 < self.old.journal.word_room }
        ensures { self.new ≡ with_journal (noted (value ∷ [])) self.old }
    {
        let contents = &mut *self.contents;
        contents.words.push_reserved(value);
    }

    /// Counts a section: the step took the lock.
    pub fn begin_section(&mut self)
        requires { is_some self.old.journal.opened ≡ true }
        ensures { self.new ≡ with_section self.old }
    {
        self.contents.sections = self.contents.sections.saturating_add(1);
    }

    /// Breaks (poisons) the lock: its thread ended while it held it.
    pub fn break_lock(&mut self)
        requires { is_some self.old.journal.opened ≡ true }
        ensures { self.new ≡ with_break self.old }
    {
        self.contents.broken = true;
    }

    /// Closes the open entry with its block and the registers after it. If the block ended its
    /// thread, the lock is broken from then on. The block's stamp and worker are not valid yet. If
    /// several locks share packed registers, see `close_packed`.
    pub fn close_entry(&mut self, image: &Image, block: Block, end: Regs)
        requires image { self.old.journal.image ≡ image.now }
        requires opened { is_some self.old.journal.opened ≡ true }
        requires closes { ClosesWith block end self.old }
        ensures { self.new ≡ with_end block.end (with_journal (closed_with block end) self.old) }
    {
        self.close_packed(image, &block, &Packed::of(&end));
    }

    /// Like `close_entry`, with registers that are packed once for several locks.
    pub fn close_packed(&mut self, image: &Image, block: &Block, end: &Packed)
        requires image { self.old.journal.image ≡ image.now }
        requires opened { is_some self.old.journal.opened ≡ true }
        requires closes { ClosesWith block.now end.now self.old }
        ensures { self.new
            ≡ with_end block.now.end (with_journal (closed_with block.now end.now) self.old) }
    {
        let _ = image;
        self.break_at(block.end);
        self.close(block, &Draft::of(block), end);
    }

    /// Breaks the lock where a block with this end ended its thread.
    fn break_at(&mut self, end: End)
        requires { is_some self.old.journal.opened ≡ true }
        ensures { self.new ≡ with_end end self.old }
    {
        if end.ends_thread() {
            self.contents.broken = true;
        }
    }

    /// Closes the open entry of a lock that is as the block's end leaves it, with a record made from
    /// the block's draft.
    fn close(&mut self, block: &Block, draft: &Draft, end: &Packed)
        requires draft { draft.now ≡ drafted block.now }
        requires opened { is_some self.old.journal.opened ≡ true }
        requires ended { ends_thread block.now.end ≡ true → self.old.broken ≡ true }
        requires closes { ClosesWith block.now end.now self.old }
        ensures { self.new ≡ with_journal (closed_with block.now end.now) self.old }
    {
        let _ = block;
        let contents = &mut *self.contents;
        let finish = contents.edges.note(end);
        let start = contents.next.start;
        let step = (start - contents.next.before) as u8;
        let to = contents.words.len() as u32;
        let words = (to - contents.next.from) as u16;
        let record = Record::of(draft, &contents.next, step, words);
        contents.records.push_reserved(record);
        contents.next.before = start;
        contents.next.start = finish;
        contents.next.from = to;
        contents.opened = false;
    }

    /// Seals the closed entry: its block gets this stamp and worker.
    pub fn seal(&mut self, stamp: u64, worker: u32)
        requires closed { is_some self.old.journal.closed ≡ true }
        requires follows { MayFollow stamp worker self.old }
        requires passes { MayPass self.old }
        ensures { self.new ≡ with_journal (sealed_as stamp worker) self.old }
    {
        let contents = &mut *self.contents;
        let record = &mut contents.records[contents.sealed];
        record.stamp(stamp, worker);
        contents.run = run_after(contents.number, contents.run, &record.block());
        contents.sealed += 1;
    }

    /// Seals the closed entry, whose block has its stamp and worker.
    fn count(&mut self, block: &Block)
        requires closed { IsClosed block.now self.old }
        requires follows { MayFollow block.now.stamp block.now.worker self.old }
        requires passes { MayPass self.old }
        ensures { self.new ≡ with_journal (sealed_as block.now.stamp block.now.worker) self.old }
    {
        let contents = &mut *self.contents;
        contents.run = run_after(contents.number, contents.run, block);
        contents.sealed += 1;
    }

    /// Closes the open entry with a block that has its stamp and worker, and seals it. The lock is as the
    /// block's end leaves it. The draft is made once for all locks of the block.
    pub fn close_drafted(&mut self, block: &Block, draft: &Draft, end: &Packed)
        requires draft { draft.now ≡ drafted block.now }
        requires opened { is_some self.old.journal.opened ≡ true }
        requires ended { ends_thread block.now.end ≡ true → self.old.broken ≡ true }
        requires closes { ClosesWith block.now end.now self.old }
        requires follows { MayFollow block.now.stamp block.now.worker
            (with_journal (closed_with block.now end.now) self.old) }
        requires passes { MayPass (with_journal (closed_with block.now end.now) self.old) }
        ensures { self.new ≡ with_journal (sealed_with block.now end.now) self.old }
    {
        self.close(block, draft, end);
        self.count(block);
    }
}
