//! The lock states that a package has.

ghost use Rattle.std.specs.Prelude.{◌≡◌, ℕ, ◌<◌, ◌≤◌, ◌==◌, [], ◌∷◌, true, false, is_some, length, set, Some, None, IfOk, IfSome, OnOk};
ghost use Rattle.std.specs.Option.{option_map};
ghost use Rattle.tc_isa.specs.Sets.{has};
ghost use Rattle.tc_isa.specs.declared.limits.TheConstants.{MAX_TURNS};
ghost use Rattle.tc_isa.specs.declared.held.TheConstants.Held.{PLACES};
ghost use Rattle.tc_elf.specs.Places.{in_guard};
ghost use Rattle.tc_elf.specs.declared.image.Region.TheVariants.{Private};
ghost use Rattle.tc_exec.specs.Told.{IsWidth};
ghost use Rattle.tc_exec.specs.declared.outcome.Want.TheVariants.{Load};
ghost use Rattle.tc_turn.specs.Replay.{takes_word as takes};
ghost use Rattle.tc_segment.specs.Draft.{drafted};
ghost use Rattle.tc_segment.specs.View.{guard_of, lock_of, noted, opened_at, sealed_with, with_break, with_journal, with_section, with_store, HasRoomFor, LockView};
ghost use Rattle.tc_mutex_spec.specs.Blocks.{locks_of_block};
ghost use Rattle.tc_context.specs.Locks.{lock_in, turned, put_in, TurnReady, PutReady, TurnFits, StoreFits};
ghost use Rattle.tc_context.specs.Locks.{Changed, HoldsAt, EachHeld, EachLock, IsReady, MayGoOn, CanSeal, IsPlaced, SameLocks, at_place, when_in};
ghost use Rattle.tc_context.specs.Locks.{broken_in, opened_in, noted_in, sealed_in, Gives, IsWithin};

use crate::room::Room;
use std::alloc::{AllocError, Global};
use std::marker::Model;
use tc_elf::image::{Image, Region};
use tc_exec::outcome::{Call, Done, Put, Want};
use tc_isa::held::Held;
use tc_isa::limits::MAX_TURNS;
use tc_isa::regs::Regs;
use tc_journal::block::Block;
use tc_segment::draft::Draft;
use tc_segment::packed::Packed;
use tc_segment::state::LockState;

/// Lock states, each at the place of its number.
#[derive(Drop)]
pub struct LockSet {
    places: Vec<Option<LockState>>,
}

impl Model for LockSet {
    ghost use Rattle.std.specs.Prelude.{◌≡◌, List, Option, length};
    ghost use Rattle.tc_isa.specs.declared.held.TheConstants.Held.{PLACES};
    ghost use Rattle.tc_segment.specs.View.{LockView};

    ghost Value = { List (Option LockView) };

    ghost view = { λ a. a.places.items };

    ghost invariant = { λ a. length a.places.items ≡ PLACES };
}

impl LockSet {
    /// No lock state, with room for all.
    pub fn new(alloc: Global) -> Result<LockSet, AllocError>
        ensures none { IfOk result (λ s. (k : ℕ) → lock_in s k ≡ None) }
        ensures places { IfOk result (λ s. length s ≡ PLACES) }
    {
        let mut places = Vec::with_capacity(alloc, Held::PLACES as usize)?;
        for lock in 0..Held::PLACES {
            places.push(None)?;
        }
        Ok(LockSet { places })
    }

    /// Nothing is stored past the last place. A lemma: the function has no effect.
    pub fn bound(&self)
        ensures past { (k : ℕ) → PLACES ≤ k → lock_in self.now k ≡ None }
        ensures places { length self.now ≡ PLACES }
    {
        let _ = &self.places;
    }

    /// The lock state of that number.
    pub fn find(&self, lock: u32) -> Option<&LockState>
        ensures { option_map (λ l. l.now) result ≡ lock_in self.now lock }
    {
        self.places.get(lock as usize)?.as_ref()
    }

    /// Puts a lock state at the place of its number.
    pub fn put_in(&mut self, lock: LockState)
        ensures is { self.new ≡ set self.old lock.number (Some lock) }
        ensures locks { IsPlaced lock.number (Some lock) self.old self.new }
    {
        let number = lock.number();
        self.places[number as usize] = Some(lock);
    }

    /// Removes the lock state of that number.
    pub fn take_out(&mut self, lock: u32) -> Option<LockState>
        requires { lock < PLACES }
        ensures taken { result ≡ lock_in self.old lock }
        ensures is { self.new ≡ set self.old lock None }
        ensures left { IsPlaced lock None self.old self.new }
    {
        self.places[lock as usize].take()
    }

    fn store(&mut self, lock: u32, addr: u32, width: u32, value: u32)
        requires width { IsWidth width }
        requires inside { HoldsAt lock (λ l. in_guard addr width (guard_of l) ≡ true) self.old }
        requires opened { HoldsAt lock (λ l. is_some l.journal.opened ≡ true) self.old }
        ensures { Changed (at_place lock (with_store addr width value)) self.old self.new }
    {
        if let Some(state) = &mut self.places[lock as usize] {
            state.store(addr, width, value);
        }
    }

    pub(crate) fn begin(&mut self, lock: u32)
        requires { HoldsAt lock (λ l. is_some l.journal.opened ≡ true) self.old }
        ensures { Changed (at_place lock with_section) self.old self.new }
    {
        if let Some(state) = &mut self.places[lock as usize] {
            state.begin_section();
        }
    }

    fn break_one(&mut self, lock: u32)
        requires { HoldsAt lock (λ l. is_some l.journal.opened ≡ true) self.old }
        ensures { Changed (at_place lock with_break) self.old self.new }
    {
        if let Some(state) = &mut self.places[lock as usize] {
            state.break_lock();
        }
    }

    /// Breaks each of these locks.
    fn give_up(&mut self, held: Held)
        requires ready { EachHeld (has held) (λ l. is_some l.journal.opened ≡ true) self.old }
        ensures { Changed (broken_in (has held)) self.old self.new }
    {
        let mut left = held;
        while let Some(lock) = left.least() {
            self.break_one(lock);
            left = left.less(lock);
        }
    }

    fn open_one(&mut self, lock: u32, start: &Packed, fuel: u32)
        requires { HoldsAt lock (λ l. IsReady l.journal) self.old }
        ensures { Changed (at_place lock (λ l. with_journal (opened_at (lock_of l) start.now fuel) l))
            self.old self.new }
    {
        if let Some(state) = &mut self.places[lock as usize] {
            state.open_packed(start, fuel);
        }
    }

    fn open_on(&mut self, lock: u32, start: &Regs, fuel: u32)
        requires { HoldsAt lock (MayGoOn start.now) self.old }
        ensures { Changed (at_place lock (λ l. with_journal (opened_at (lock_of l) start.now fuel) l))
            self.old self.new }
    {
        if let Some(state) = &mut self.places[lock as usize] {
            state.open_on(start, fuel);
        }
    }

    fn open_held(&mut self, held: Held, start: &Regs, fuel: u32)
        requires { EachHeld (has held) (MayGoOn start.now) self.old }
        ensures { Changed (opened_in (has held) start.now fuel) self.old self.new }
    {
        let mut left = held;
        while let Some(lock) = left.least() {
            self.open_on(lock, start, fuel);
            left = left.less(lock);
        }
    }

    /// Opens an entry in each of these locks, which the thread holds, and in that which its first
    /// turn takes: these are the locks of the block. Only for that one the registers are packed, in
    /// `edge`, unless they are `packed` there already.
    pub(crate) fn open_entries(
        &mut self,
        held: Held,
        takes: Option<u32>,
        edge: &mut Packed,
        packed: bool,
        start: &Regs,
        fuel: u32,
    ) -> Held
        requires packed { packed ≡ true → edge.old ≡ start.now }
        requires held { EachHeld (has held) (MayGoOn start.now) self.old }
        requires takes { IfSome takes (λ lock. (has held lock ≡ false) × HoldsAt lock (λ l. IsReady l.journal) self.old) }
        ensures opened { Changed (opened_in (locks_of_block (has held) takes) start.now fuel) self.old self.new }
        ensures block { (k : ℕ) → has result k ≡ locks_of_block (has held) takes k }
    {
        self.open_held(held, start, fuel);
        match takes {
            None => held,
            Some(lock) => {
                pack(edge, packed, start);
                self.open_one(lock, edge, fuel);
                held.plus(lock)
            }
        }
    }

    fn note_one(&mut self, lock: u32, want: Want, next: Option<u32>, value: u32)
        requires opened { HoldsAt lock (λ l. is_some l.journal.opened ≡ true) self.old }
        requires room { HoldsAt lock (λ l. 0 < l.journal.word_room) self.old }
        ensures { Changed (at_place lock
            (when_in (takes lock want next) (with_journal (noted (value ∷ []))))) self.old self.new }
    {
        if let Some(state) = &mut self.places[lock as usize] {
            if takes_word(lock, want, next) {
                state.note_foreign(value);
            }
        }
    }

    /// As `note`, with a look at each lock.
    /// Always inlined: it has few callers, one of which runs once a section.
    #[inline(always)]
    pub(crate) fn note_each(&mut self, held: Held, want: Want, next: Option<u32>, value: u32)
        requires opened { EachHeld (has held) (λ l. is_some l.journal.opened ≡ true) self.old }
        requires room { EachHeld (has held) (λ l. 0 < l.journal.word_room) self.old }
        ensures { Changed (noted_in (has held) want next value) self.old self.new }
    {
        let mut left = held;
        while let Some(lock) = left.least() {
            self.note_one(lock, want, next, value);
            left = left.less(lock);
        }
    }

    /// Notes a number of the thread's own memory in the entry of each of these locks. Any place that is
    /// no guard says so.
    #[inline(always)]
    pub(crate) fn note_own(&mut self, held: Held, number: u32)
        requires opened { EachHeld (has held) (λ l. is_some l.journal.opened ≡ true) self.old }
        requires room { EachHeld (has held) (λ l. 0 < l.journal.word_room) self.old }
        ensures { Changed (noted_in (has held) (Load Private 0 1) None number) self.old self.new }
    {
        let want = Want::Load {
            region: Region::Private,
            addr: 0,
            width: 1,
        };
        self.note_each(held, want, None, number);
    }

    /// Notes the value in the entry of each of these locks for which it comes from elsewhere.
    pub(crate) fn note(&mut self, held: Held, want: Want, next: Option<u32>, value: u32)
        requires opened { EachHeld (has held) (λ l. is_some l.journal.opened ≡ true) self.old }
        requires room { EachHeld (has held) (λ l. 0 < l.journal.word_room) self.old }
        ensures { Changed (noted_in (has held) want next value) self.old self.new }
    {
        if takes_any(want, next) {
            self.note_each(held, want, next, value);
        }
    }

    fn seal_one(&mut self, lock: u32, block: &Block, draft: &Draft, finish: &Packed)
        requires draft { draft.now ≡ drafted block.now }
        requires lock { HoldsAt lock (CanSeal block.now finish.now) self.old }
        ensures { Changed (at_place lock (with_journal (sealed_with block.now finish.now)))
            self.old self.new }
    {
        if let Some(state) = &mut self.places[lock as usize] {
            state.close_drafted(block, draft, finish);
        }
    }

    fn seal_each(&mut self, block: &Block, finish: &Packed)
        requires { EachHeld (has block.now.held) (CanSeal block.now finish.now) self.old }
        ensures { Changed (sealed_in (has block.now.held) block.now finish.now) self.old self.new }
    {
        let draft = Draft::of(block);
        let mut left = block.held;
        while let Some(lock) = left.least() {
            self.seal_one(lock, block, &draft, finish);
            left = left.less(lock);
        }
    }

    /// Closes the entry of each lock of this block, which has its stamp and worker, and seals it. The
    /// registers are packed once for all of them, in `edge`, and not at all where there is no lock.
    /// Whether they were.
    pub(crate) fn seal(&mut self, block: &Block, edge: &mut Packed, finish: &Regs) -> bool
        requires { EachHeld (has block.now.held) (CanSeal block.now finish.now) self.old }
        ensures sealed { Changed (sealed_in (has block.now.held) block.now finish.now) self.old self.new }
        ensures packed { result ≡ true → edge.new ≡ finish.now }
    {
        if is_empty(block.held) {
            return false;
        }
        edge.set(finish);
        self.seal_each(block, edge);
        true
    }

    fn reserve_one(&mut self, lock: u32) -> Result<(), AllocError>
        requires { lock < PLACES }
        ensures ok { OnOk result
            ((l : LockView) → lock_in self.new lock ≡ Some l → HasRoomFor MAX_TURNS l.journal) }
        ensures same { SameLocks self.old self.new }
        ensures others { (k : ℕ) → (k == lock) ≡ false → lock_in self.new k ≡ lock_in self.old k }
    {
        match &mut self.places[lock as usize] {
            Some(state) => state.reserve(MAX_TURNS as usize),
            None => Ok(()),
        }
    }

    /// Makes room for many entries and for the words of a block in each of these locks. Nothing but
    /// rooms changes.
    pub fn reserve(&mut self, held: Held) -> Result<(), AllocError>
        ensures ok { OnOk result
            (EachHeld (has held) (λ l. HasRoomFor MAX_TURNS l.journal) self.new) }
        ensures same { SameLocks self.old self.new }
    {
        let mut left = held;
        while let Some(lock) = left.least() {
            self.reserve_one(lock)?;
            left = left.less(lock);
        }
        Ok(())
    }

    /// So much of `most` as is in the lock of that number too, where it is there.
    fn room_at(&self, lock: u32, most: Room) -> Room
        ensures lock { (l : LockView) → lock_in self.now lock ≡ Some l → Gives result l }
        ensures most { IsWithin result most }
    {
        match self.find(lock) {
            Some(state) => most.with(state),
            None => most,
        }
    }

    /// So much of `most` as is in each of these locks too.
    pub(crate) fn room(&self, held: Held, most: Room) -> Room
        ensures locks { EachHeld (has held) (Gives result) self.now }
        ensures most { IsWithin result most }
    {
        let mut room = most;
        let mut left = held;
        while let Some(lock) = left.least() {
            room = self.room_at(lock, room);
            left = left.less(lock);
        }
        room
    }

    /// Each lock after a turn that did this, of a thread that held these locks before it.
    /// Always inlined: it has two callers, one of which is rare.
    #[inline(always)]
    pub(crate) fn take_turn(&mut self, held: Held, done: &Option<Done>)
        requires fits { TurnFits done.now }
        requires ready { EachLock (TurnReady (has held) done.now) self.old }
        ensures { Changed (turned (has held) done.now) self.old self.new }
    {
        let Some(done) = done else {
            self.give_up(held);
            return;
        };
        match done {
            Done::Went => {}
            Done::Stored(put) => self.put(put),
            Done::Called(call) => match call {
                Call::Lock(lock) => self.begin(*lock),
                Call::Unlock(_) | Call::Sleep(_) => {}
                Call::Exit => self.give_up(held),
            },
            Done::Faulted(_) => self.give_up(held),
        }
    }

    fn put(&mut self, put: &Put)
        requires fits { StoreFits put.now.region put.now.width }
        requires ready { EachLock (PutReady put.now) self.old }
        ensures { Changed (put_in put.now) self.old self.new }
    {
        match put.region {
            Region::Guard(lock) => self.store(lock, put.addr, put.width, put.value),
            Region::Text | Region::Private | Region::Stack | Region::Nothing => {}
        }
    }
}

/// Packs these registers, where they are not `packed` already.
fn pack(edge: &mut Packed, packed: bool, regs: &Regs)
    requires { packed ≡ true → edge.old ≡ regs.now }
    ensures { edge.new ≡ regs.now }
{
    if !packed {
        edge.set(regs);
    }
}

/// Whether there is no lock in a set.
pub(crate) fn is_empty(held: Held) -> bool
    ensures { result ≡ true → (k : ℕ) → has held k ≡ false }
{
    held == Held::none()
}

/// Whether the value of a turn may come from elsewhere for a lock.
fn takes_any(want: Want, next: Option<u32>) -> bool
    ensures { result ≡ false → (lock : ℕ) → takes lock want next ≡ false }
{
    match want {
        Want::Load { .. } => true,
        Want::Nothing => next.is_some(),
    }
}

/// Whether the value of a turn comes from elsewhere for the lock.
fn takes_word(lock: u32, want: Want, next: Option<u32>) -> bool
    ensures { result ≡ takes lock want next }
{
    match want {
        Want::Load { region, .. } => match region {
            Region::Guard(guard) => guard != lock,
            Region::Text | Region::Private | Region::Stack | Region::Nothing => true,
        },
        Want::Nothing => next.is_some(),
    }
}
