//! Halls and their calls. In a hall with lines each asks, unless its pass knows of a stop, how the pass
//! stands at the line of the lock (`specs/Standing.antt`).

ghost use Rattle.std.specs.Prelude.{◌≡◌, ◌≢◌, ◌<◌, ◌≤◌, ◌+◌, ◌*◌, if◌then◌else◌, true, false};
ghost use Rattle.std.specs.Prelude.{length, MatchResult, IfOk, Some};
ghost use Rattle.tc_isa.specs.declared.limits.TheConstants.{MAX_FUEL, MAX_WORKERS, MAX_BATCH};
ghost use Rattle.tc_elf.specs.declared.limits.TheConstants.{MAX_THREADS, MAX_GUARDS};
ghost use Rattle.tc_elf.specs.Shown.{Shown};
ghost use Rattle.tc_context.specs.View.{IsWaiting, with_seal};
ghost use Rattle.tc_hall.specs.declared.place.TheConstants.{WAITING};
ghost use Rattle.tc_hall.specs.Places.{IsInRange, origin_code, place_of, slot_word};
ghost use Rattle.tc_hall.specs.declared.place.Place.TheVariants.{Waiting};
ghost use Rattle.tc_hall.specs.Standing.{IfLined, ClaimsAs, FreesAs, PutsAs, SealsPending, TakesAs};
ghost use Rattle.tc_hall.specs.Rule.{threads, locks};
ghost use Rattle.tc_hall.specs.Steps.{IsSamePass, IsPackage, IsLock, HoldsPackage, HoldsLock, Gets, MayPut, Gave, IsAsLeft, IsStateAsLeft, Missed, Takes, MayFree, Freed, Seals, DidSeal, after_look, after_stop, SawStopped, merged, IsFree, IsLast, HasSeenAll};
ghost use Rattle.tc_hall.specs.Order.{IsClaimable};
ghost use Rattle.tc_hall.specs.Closing.{IsEnd};
ghost use Rattle.tc_hall.specs.Made.{IsHallOf, AreDealt, AreStocked};

use crate::board::{CLOCK, Cargo, HallTable, HallTerms, STOP, Slot, word_of};
use crate::closed::Closed;
use crate::pass::Pass;
use crate::place::{OUT, Origin, Place, WAITING};
use crate::plays::{
    Claim, Deal, Fill, Free, Lay, Look, Merge, Picked, Reach, Seal, Stop, Stopped, TakeLock, Under,
};
use atomic_table::{Refused, Table};
use std::alloc::{AllocError, Global};
use std::marker::{Brand, Model};
use std::snapshot::Snapshot;
use std::sync::Arc;
use tc_context::package::Package;
use tc_elf::image::Image;
use tc_exec::code::Code;
use tc_segment::state::LockState;
use tc_turn::memory::Memory;

/// What `claim` answers if the thread was not where it is claimed from: the word that was read.
#[derive(Clone, Copy, PartialEq, Eq, Debug)]
pub struct NotReady(
    /// The word that was read.
    pub u64,
);

/// What `adopt` answers if the thread was not waiting for the lock: the word that was read.
#[derive(Clone, Copy, PartialEq, Eq, Debug)]
pub struct NotWaiting(
    /// The word that was read.
    pub u64,
);

/// What `take` answers if the lock was out: the word that was read.
#[derive(Clone, Copy, PartialEq, Eq, Debug)]
pub struct LockOut(
    /// The word that was read.
    pub u64,
);

/// A table of packages and lock states, which workers take out and put back. The workers share it; each
/// calls it with its own pass (access token). After `new` no call allocates, and none waits for another.
#[derive(Drop)]
pub struct Hall {
    pub(crate) board: HallTable,
    pub(crate) threads: u32,
    pub(crate) locks: u32,
    // Capacity for what is taken out at the end.
    packages: Vec<Package>,
    lock_states: Vec<LockState>,
}

impl Model for Hall {
    ghost use Rattle.std.specs.Prelude.{◌≡◌, ◌≤◌, ◌+◌, [], length, vec_capacity};
    ghost use Rattle.tc_elf.specs.declared.limits.TheConstants.{MAX_THREADS, MAX_GUARDS};
    ghost use Rattle.tc_hall.specs.PassView.{HallView};
    ghost use Rattle.tc_hall.specs.Rule.{words_of};

    ghost Value = { HallView };

    ghost view = { λ h. record { table = h.board.shared.table_id; terms = h.board.shared.key } };

    ghost invariant = { λ h. (h.threads ≡ length h.board.shared.key.image.value.entries)
        × (h.board.shared.table_id.words ≡ words_of h.board.shared.key)
        × (h.board.shared.table_id.slots ≡ h.threads + h.locks)
        × (h.locks ≡ length h.board.shared.key.image.value.guards)
        × (h.packages.items ≡ [])
        × (h.threads ≤ vec_capacity h.packages)
        × (h.lock_states.items ≡ [])
        × (h.locks ≤ vec_capacity h.lock_states)
        × (h.threads ≤ MAX_THREADS)
        × (h.locks ≤ MAX_GUARDS) };
}

/// The package that lay in a slot.
fn package_of(cargo: Option<Cargo>) -> Package
    requires { IsPackage cargo }
    ensures { HoldsPackage cargo result }
{
    match cargo {
        Some(Cargo::Package(package)) => package,
        Some(Cargo::Lock(_)) => unreachable!(),
        None => unreachable!(),
    }
}

/// The lock state that lay in a slot.
fn lock_of(cargo: Option<Cargo>) -> LockState
    requires { IsLock cargo }
    ensures { HoldsLock cargo result }
{
    match cargo {
        Some(Cargo::Lock(lock)) => lock,
        Some(Cargo::Package(_)) => unreachable!(),
        None => unreachable!(),
    }
}

/// The packages of all threads, ready, and then the states of all locks. The packages share the
/// code, which is decoded here, and their initial memory.
fn stock(alloc: Global, image: &Image, fuel: u32, limit: u32) -> Result<Vec<Slot>, AllocError>
    requires { (1 ≤ fuel) × (fuel ≤ MAX_FUEL) × (limit ≤ MAX_BATCH) }
    ensures { IfOk result (λ v. AreStocked image.now (length image.now.entries)
        (length image.now.guards) fuel limit v.items) }
{
    let threads = image.threads();
    let locks = image.guards();
    let code = Arc::new(alloc, Code::of(alloc, image)?)?;
    let first = Arc::new(alloc, Memory::start(alloc, image)?)?;
    let mut slots = Vec::with_capacity(alloc, threads as usize + locks as usize)?;
    for t in 0..threads {
        let package = Package::start_with(alloc, image, &code, &first, t, fuel)?;
        slots.push_reserved(Slot::of(Cargo::Package(package)));
    }
    for i in 0..locks {
        let lock = LockState::new(alloc, image, i, limit)?;
        slots.push_reserved(Slot::of(Cargo::Lock(lock)));
    }
    Ok(slots)
}

/// How many places the lines of so many locks have, each of two pairs of cache lines.
fn line_places(locks: u32, lined: bool) -> u32
    requires { locks ≤ MAX_GUARDS }
    ensures { result ≡ (if lined then 2 * locks else 0) }
{
    if lined { 2 * locks } else { 0 }
}

impl Hall {
    /// A hall of so many workers, and a pass for each of them. Each thread is at its start and
    /// ready; its package and the states of all locks are in their slots. All memory that the hall
    /// ever needs is allocated here, so running out of memory is the only error.
    pub fn new(
        alloc: Global,
        image: &Image,
        fuel: u32,
        workers: u32,
        limit: u32,
    ) -> Result<(Hall, Vec<Pass>), AllocError>
        requires fuel { (1 ≤ fuel) × (fuel ≤ MAX_FUEL) }
        requires workers { (1 ≤ workers) × (workers ≤ MAX_WORKERS) }
        requires limit { limit ≤ MAX_BATCH }
        ensures hall { IfOk result (λ r. IsHallOf image.now fuel workers limit r.0) }
        ensures lined { IfOk result (λ r. r.0.terms.lined ≡ false) }
        ensures passes { IfOk result (λ r. AreDealt image.now (length image.now.entries)
            (length image.now.guards) workers r.0.table r.1.items) }
    {
        Hall::make(alloc, image, fuel, workers, limit, false)
    }

    /// As `new`, and the line of each lock, which is empty, is among the words of the hall's table:
    /// `enter`, `link`, `next` and `leave` are calls of its passes.
    pub fn with_lines(
        alloc: Global,
        image: &Image,
        fuel: u32,
        workers: u32,
        limit: u32,
    ) -> Result<(Hall, Vec<Pass>), AllocError>
        requires fuel { (1 ≤ fuel) × (fuel ≤ MAX_FUEL) }
        requires workers { (1 ≤ workers) × (workers ≤ MAX_WORKERS) }
        requires limit { limit ≤ MAX_BATCH }
        ensures hall { IfOk result (λ r. IsHallOf image.now fuel workers limit r.0) }
        ensures lined { IfOk result (λ r. r.0.terms.lined ≡ true) }
        ensures passes { IfOk result (λ r. AreDealt image.now (length image.now.entries)
            (length image.now.guards) workers r.0.table r.1.items) }
    {
        Hall::make(alloc, image, fuel, workers, limit, true)
    }

    fn make(
        alloc: Global,
        image: &Image,
        fuel: u32,
        workers: u32,
        limit: u32,
        lined: bool,
    ) -> Result<(Hall, Vec<Pass>), AllocError>
        requires fuel { (1 ≤ fuel) × (fuel ≤ MAX_FUEL) }
        requires workers { (1 ≤ workers) × (workers ≤ MAX_WORKERS) }
        requires limit { limit ≤ MAX_BATCH }
        ensures hall { IfOk result (λ r. IsHallOf image.now fuel workers limit r.0) }
        ensures lined { IfOk result (λ r. r.0.terms.lined ≡ lined) }
        ensures passes { IfOk result (λ r. AreDealt image.now (length image.now.entries)
            (length image.now.guards) workers r.0.table r.1.items) }
    {
        let threads = image.threads() as usize;
        let locks = image.guards() as usize;
        let packages = Vec::with_capacity(alloc, threads)?;
        let lock_states = Vec::with_capacity(alloc, locks)?;
        let mut passes = Vec::with_capacity(alloc, workers as usize)?;
        let guards = image.guards();
        let places = image.threads() + guards + line_places(guards, lined);
        let words = Vec::from_elem(alloc, 0u64, word_of(places))?;
        let slots = stock(alloc, image, fuel, limit)?;
        let terms = HallTerms {
            image: Snapshot::of(image),
            fuel,
            workers,
            limit,
            lined,
        };
        let (board, mut first) = match Table::new(alloc, words.as_slice(), slots, &terms) {
            Ok(made) => made,
            Err(Refused { slots: _ }) => return Err(AllocError),
        };
        for worker in 0..workers - 1 {
            let seat = board.shared.split_seat::<Deal>(&mut first);
            passes.push_reserved(Pass {
                seat,
                number: worker,
            });
        }
        passes.push_reserved(Pass {
            seat: first,
            number: workers - 1,
        });
        let hall = Hall {
            board,
            threads: image.threads(),
            locks: image.guards(),
            packages,
            lock_states,
        };
        Ok((hall, passes))
    }

    /// Joins another pass of the hall into this one and ends it: its blocks and calls follow those
    /// of this pass, and its worker number counts as joined. In a hall with lines neither has anything
    /// out.
    pub fn join(&self, pass: &mut Pass, other: Pass)
        requires own { (pass.old.table ≡ self.now.table) × (other.table ≡ self.now.table) }
        requires free { IsFree other.knows }
        requires both { self.now.terms.lined ≡ true → IsFree pass.old.knows }
        ensures own { IsSamePass pass.old pass.new }
        ensures merged { pass.new.knows ≡ merged pass.old.knows other.knows }
    {
        let Pass { seat, number: _ } = other;
        self.board.shared.join_seat::<Merge>(&mut pass.seat, seat);
    }

    /// Ends the hall. It returns all packages and all lock states, in order of number, as the
    /// history of all sealed blocks leaves them. The stamps in the logs are 0, 1, 2 and so on, each
    /// once. Each lock state is strict. That history is what the operations of all passes sealed, in
    /// their one order. It goes over the slots, and allocates nothing.
    pub fn close(self, pass: Pass) -> Closed
        requires last { IsLast self pass }
        requires done { HasSeenAll (threads self.terms) pass.knows }
        ensures { IsEnd self.terms pass.knows result.packages result.locks }
    {
        let Hall {
            board,
            threads,
            locks,
            mut packages,
            mut lock_states,
        } = self;
        let Pass { seat, number: _ } = pass;
        let mut closed = board.close_with(seat);
        for t in 0..threads as usize {
            packages.push_reserved(package_of(closed.take(t).into_cargo()));
        }
        for i in 0..locks as usize {
            lock_states.push_reserved(lock_of(closed.take(threads as usize + i).into_cargo()));
        }
        closed.free();
        Closed {
            packages,
            locks: lock_states,
        }
    }

    /// Ends the hall before its threads have ended, and drops all packages and lock states.
    pub fn abandon(self, pass: Pass)
        requires { IsLast self pass }
    {
        drop(pass);
        drop(self);
    }

    /// The package of a thread whose word is this, in a hall of J's terms.
    fn claim_from<J: Under>(&self, pass: &mut Pass, t: u32, code: u64) -> Result<Package, u64>
        requires own { pass.old.table ≡ self.now.table }
        requires picked { J.terms ≡ Some self.now.terms }
        requires thread { t < threads self.now.terms }
        requires code { IsClaimable self.now.terms code }
        requires stands { IfLined self.now.terms pass.old.knows
            (ClaimsAs pass.old.knows t (place_of code)) }
        ensures own { IsSamePass pass.old pass.new }
        ensures result { MatchResult result
            (λ p. Gets code t p pass.old.knows pass.new.knows)
            (λ e. Missed code (slot_word t) e pass.old.knows pass.new.knows) }
        ensures left { IfOk result (λ p. IsAsLeft self.now.terms pass.old.knows p) }
    {
        let at = OUT + u64::from(pass.number);
        let words = &self.board.shared;
        let word = word_of(t);
        let found = words.compare_exchange::<Claim<J>>(&mut pass.seat, word, code, at);
        if found != code {
            return Err(found);
        }
        let cargo = pass.seat.slot_mut(words, t as usize).take();
        words.load::<Lay>(&mut pass.seat, word);
        let package = package_of(cargo);
        Ok(package)
    }

    /// Takes the package of a ready or a parked thread, by one compare-and-swap on the thread's
    /// word, which then has the pass's worker. It fails if and only if the word was another; then
    /// nothing changes but that the pass records the miss. It does not retry.
    ///
    /// The package is as it was stored: the pass records it among those that it has claimed.
    pub fn claim(&self, pass: &mut Pass, t: u32, from: Origin) -> Result<Package, NotReady>
        requires own { pass.old.table ≡ self.now.table }
        requires thread { t < threads self.now.terms }
        requires stands { IfLined self.now.terms pass.old.knows
            (ClaimsAs pass.old.knows t (place_of (origin_code from))) }
        ensures own { IsSamePass pass.old pass.new }
        ensures result { MatchResult result
            (λ p. Gets (origin_code from) t p pass.old.knows pass.new.knows)
            (λ e. Missed (origin_code from) (slot_word t) e.0 pass.old.knows pass.new.knows) }
        ensures left { IfOk result (λ p. IsAsLeft self.now.terms pass.old.knows p) }
    {
        match self.claim_from::<Brand>(pass, t, from.code()) {
            Ok(package) => Ok(package),
            Err(word) => Err(NotReady(word)),
        }
    }

    /// Takes the package of a thread that waits for the lock, by one compare-and-swap on the
    /// thread's word, which then has the pass's worker. The lock's state is not in the package,
    /// and may be granted to it. It fails if and only if the word was another, and does not
    /// retry.
    pub fn adopt(&self, pass: &mut Pass, t: u32, lock: u32) -> Result<Package, NotWaiting>
        requires own { pass.old.table ≡ self.now.table }
        requires thread { t < threads self.now.terms }
        requires lock { lock < locks self.now.terms }
        requires stands { IfLined self.now.terms pass.old.knows
            (ClaimsAs pass.old.knows t (Waiting lock)) }
        ensures own { IsSamePass pass.old pass.new }
        ensures result { MatchResult result
            (λ p. Gets (WAITING + lock) t p pass.old.knows pass.new.knows)
            (λ e. Missed (WAITING + lock) (slot_word t) e.0 pass.old.knows pass.new.knows) }
        ensures left { IfOk result (λ p. IsAsLeft self.now.terms pass.old.knows p) }
        ensures waiting { IfOk result (λ p. IsWaiting p lock) }
    {
        match self.claim_from::<Brand>(pass, t, WAITING + u64::from(lock)) {
            Ok(package) => {
                package.keeps();
                Ok(package)
            }
            Err(word) => Err(NotWaiting(word)),
        }
    }

    /// Puts the package, in a hall of J's terms.
    fn put_as<J: Under>(&self, pass: &mut Pass, package: Package, place: Place)
        requires own { pass.old.table ≡ self.now.table }
        requires picked { J.terms ≡ Some self.now.terms }
        requires places { («package».context.thread < threads self.now.terms)
            × IsInRange (locks self.now.terms) place }
        requires ready { MayPut place pass.old.knows «package» }
        requires stands { IfLined self.now.terms pass.old.knows
            (PutsAs pass.old.knows «package» place) }
        ensures own { IsSamePass pass.old pass.new }
        ensures put { Gave place «package» pass.old.knows pass.new.knows }
        ensures left { IsAsLeft self.now.terms pass.old.knows «package» }
    {
        let t = package.thread();
        let code = place.code();
        let words = &self.board.shared;
        words.load::<Reach>(&mut pass.seat, word_of(t));
        let slot = pass.seat.slot_mut(words, t as usize);
        match slot.replace(Cargo::Package(package)) {
            None => {}
            Some(_) => unreachable!(),
        }
        words.store::<Fill<J>>(&mut pass.seat, word_of(t), code);
    }

    /// Puts a package that the pass has out into its thread's slot, with all locks that are in it.
    /// Its linearization point is the store of the place to the thread's word, after the slot is
    /// filled: from then on any pass may take it. The package is as the history of the blocks
    /// sealed by then leaves its thread.
    pub fn put(&self, pass: &mut Pass, package: Package, place: Place)
        requires own { pass.old.table ≡ self.now.table }
        requires thread { «package».context.thread < threads self.now.terms }
        requires place { IsInRange (locks self.now.terms) place }
        requires ready { MayPut place pass.old.knows «package» }
        requires stands { IfLined self.now.terms pass.old.knows
            (PutsAs pass.old.knows «package» place) }
        ensures own { IsSamePass pass.old pass.new }
        ensures put { Gave place «package» pass.old.knows pass.new.knows }
        ensures left { IsAsLeft self.now.terms pass.old.knows «package» }
    {
        self.put_as::<Brand>(pass, package, place);
    }

    /// Takes a lock, in a hall of J's terms.
    fn take_as<J: Under>(&self, pass: &mut Pass, lock: u32) -> Result<LockState, LockOut>
        requires own { pass.old.table ≡ self.now.table }
        requires picked { J.terms ≡ Some self.now.terms }
        requires lock { lock < locks self.now.terms }
        requires stands { IfLined self.now.terms pass.old.knows (TakesAs pass.old.knows lock) }
        ensures own { IsSamePass pass.old pass.new }
        ensures result { MatchResult result
            (λ l. Takes lock l pass.old.knows pass.new.knows)
            (λ e. Missed 0 (slot_word (threads self.now.terms + lock)) e.0
            pass.old.knows pass.new.knows) }
        ensures left { IfOk result (λ l. IsStateAsLeft self.now.terms pass.old.knows lock l) }
    {
        let place = self.threads + lock;
        let words = &self.board.shared;
        let word = word_of(place);
        let found = words.compare_exchange::<TakeLock<J>>(&mut pass.seat, word, 0, 1);
        if found != 0 {
            return Err(LockOut(found));
        }
        let cargo = pass.seat.slot_mut(words, place as usize).take();
        words.load::<Lay>(&mut pass.seat, word);
        Ok(lock_of(cargo))
    }

    /// Takes the state of a lock that is not out, by one compare-and-swap on the lock's word from 0
    /// to 1. It fails if and only if the word was not 0, and does not retry.
    pub fn take(&self, pass: &mut Pass, lock: u32) -> Result<LockState, LockOut>
        requires own { pass.old.table ≡ self.now.table }
        requires lock { lock < locks self.now.terms }
        requires stands { IfLined self.now.terms pass.old.knows (TakesAs pass.old.knows lock) }
        ensures own { IsSamePass pass.old pass.new }
        ensures result { MatchResult result
            (λ l. Takes lock l pass.old.knows pass.new.knows)
            (λ e. Missed 0 (slot_word (threads self.now.terms + lock)) e.0
            pass.old.knows pass.new.knows) }
        ensures left { IfOk result (λ l. IsStateAsLeft self.now.terms pass.old.knows lock l) }
    {
        self.take_as::<Brand>(pass, lock)
    }

    /// Puts the state of a lock back into its slot. Its linearization point is the store of 0 to
    /// the lock's word, after the slot is filled: from then on any pass may take it.
    pub fn free(&self, pass: &mut Pass, lock: LockState)
        requires own { pass.old.table ≡ self.now.table }
        requires lock { lock.number < locks self.now.terms }
        requires ready { MayFree pass.old.knows lock }
        requires stands { IfLined self.now.terms pass.old.knows
            (FreesAs pass.old.knows lock.number) }
        ensures own { IsSamePass pass.old pass.new }
        ensures freed { Freed lock pass.old.knows pass.new.knows }
    {
        let place = self.threads + lock.number();
        let words = &self.board.shared;
        words.load::<Reach>(&mut pass.seat, word_of(place));
        let slot = pass.seat.slot_mut(words, place as usize);
        match slot.replace(Cargo::Lock(lock)) {
            None => {}
            Some(_) => unreachable!(),
        }
        words.store::<Free>(&mut pass.seat, word_of(place), 0);
    }

    /// The word of a thread, by one load: [`READY`](crate::place::READY), `PARKED`, `DONE`,
    /// `WAITING` and the lock's number, or `OUT` and the worker's number. The pass's list records
    /// what was read.
    pub fn look(&self, pass: &mut Pass, t: u32) -> u64
        requires own { pass.old.table ≡ self.now.table }
        requires thread { t < threads self.now.terms }
        ensures own { IsSamePass pass.old pass.new }
        ensures look { pass.new.knows ≡ after_look pass.old.knows t result }
    {
        let words = &self.board.shared;
        words.load::<Look>(&mut pass.seat, word_of(t))
    }

    /// Asks all workers to stop, by one store of 1 to the stop word, which no call clears.
    pub fn stop(&self, pass: &mut Pass)
        requires own { pass.old.table ≡ self.now.table }
        ensures own { IsSamePass pass.old pass.new }
        ensures stop { pass.new.knows ≡ after_stop pass.old.knows }
    {
        self.board.shared.store::<Stop>(&mut pass.seat, STOP, 1);
    }

    /// Whether a stop was requested, by one load of the stop word. It was, if the pass took a
    /// package that is pinned to one worker, since such a package comes only from a stop.
    pub fn stopped(&self, pass: &mut Pass) -> bool
        requires own { pass.old.table ≡ self.now.table }
        ensures own { IsSamePass pass.old pass.new }
        ensures stopped { SawStopped result pass.old.knows pass.new.knows }
    {
        self.board.shared.load::<Stopped>(&mut pass.seat, STOP) == 1
    }

    /// The step that seals the block of J's package.
    fn seal_as<J: Picked>(&self, pass: &mut Pass, package: &Package) -> u64
        requires own { pass.old.table ≡ self.now.table }
        requires picked { J.picked ≡ Some «package».now }
        requires ready { Seals pass.old.knows «package».now }
        requires stands { IfLined self.now.terms pass.old.knows
            (SealsPending pass.old.knows «package».now) }
        ensures own { IsSamePass pass.old pass.new }
        ensures seals { DidSeal «package».now result pass.old.knows pass.new.knows }
    {
        let _ = package;
        self.board
            .shared
            .fetch_add::<Seal<J>>(&mut pass.seat, CLOCK, 1)
    }

    /// Seals the pending block of a package that the pass has out, by one fetch-and-add on the
    /// clock. The old number is the block's stamp and the answer, and the pass's worker is the
    /// block's.
    pub fn commit(&self, pass: &mut Pass, package: &mut Package) -> u64
        requires own { pass.old.table ≡ self.now.table }
        requires ready { Seals pass.old.knows «package».old }
        requires stands { IfLined self.now.terms pass.old.knows
            (SealsPending pass.old.knows «package».old) }
        ensures own { IsSamePass pass.old pass.new }
        ensures seals { DidSeal «package».old result pass.old.knows pass.new.knows }
        ensures context { «package».new ≡ with_seal result pass.old.knows.worker «package».old }
    {
        let stamp = self.seal_as::<Brand>(pass, package);
        package.seal(stamp, pass.number);
        stamp
    }
}
