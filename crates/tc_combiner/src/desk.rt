//! Desks (per-worker combiners) and benches (what they share).

ghost use Rattle.std.specs.Prelude.{ℕ, ◌≡◌, ◌<◌, ◌≤◌, ◌+◌, ◌-◌, ◌^◌, [], ◌∷◌, None, Some, min, length, map};
ghost use Rattle.std.specs.Borrow.{Lends, sem};
ghost use Rattle.tc_isa.specs.declared.limits.TheConstants.{MAX_HELD};
ghost use Rattle.tc_context.specs.View.{with_seal};
ghost use Rattle.tc_hall.specs.contracts.pass.Pass.{the_row as pass_row};
ghost use Rattle.tc_park.specs.contracts.sleepers.Sleepers.{the_row as sleepers_row};
ghost use Rattle.tc_combiner.specs.contracts.desk.Desk.{the_row};
ghost use Rattle.tc_hall.specs.Outs.{Pack};
ghost use Rattle.tc_hall.specs.Steps.{DidSeal, IsSamePass};
ghost use Rattle.tc_combiner.specs.Answers.{EntersFirst, next_turn};
ghost use Rattle.tc_combiner.specs.Packages.{Wants};
ghost use Rattle.tc_combiner.specs.Stances.{KnowsLines};
ghost use Rattle.tc_combiner.specs.View.{FitsBench, desk_of};
ghost use Rattle.tc_combiner.specs.Walks.{packed};
ghost use Rattle.tc_combiner.specs.Settling.{HasAcquired, HasSettled, IfWants, IsInHand, Keeps};
ghost use Rattle.tc_combiner.specs.Settling.{KeepsSealed, MayAcquire, MayCommit, MaySettle};

use crate::parts::{DeskParts, Shared, Sleeping};
use crate::ready::ReadyList;
use crate::settle::{acquire_at, settle_with};
use crate::settled::Settled;
use std::marker::Model;
use std::sync::Wait;
use tc_context::package::Package;
use tc_elf::image::Image;
use tc_hall::hall::Hall;
use tc_hall::pass::Pass;
use tc_journal::block::End;
use tc_order::Order;
use tc_park::Sleepers;

/// What the workers share: the image, the hall, and a queue for each lock.
#[derive(Drop)]
pub struct Bench<'a, Q: Order> {
    /// The guest that runs.
    pub image: &'a Image,
    /// The table through which packages and lock states change hands.
    pub hall: &'a Hall,
    /// The queues of the locks, in order of number.
    pub queues: &'a [Q],
}

impl<'a, Q: Order> Model for Bench<'a, Q> {
    ghost use Rattle.std.specs.Prelude.{All, map};
    ghost use Rattle.tc_order.specs.Order.{AreInOrder};
    ghost use Rattle.tc_combiner.specs.View.{BenchView};

    ghost Value = { BenchView };

    ghost view = { λ b. record { image = b.image.now; hall = b.hall.now; queues = map Q.queue b.queues.now } };

    ghost invariant = { λ b. All (λ q. Q.fits q b.hall.now) b.queues.now
        × AreInOrder Q.of b.queues.now };
}

/// The combiner of a worker.
#[derive(Drop)]
pub struct Desk<Q: Order> {
    parts: DeskParts,
    seats: Vec<Q::Seat>,
    sleeping: Sleeping,
}

impl<Q: Order> Model for Desk<Q> {
    ghost use Rattle.std.specs.Prelude.{map};
    ghost use Rattle.tc_combiner.specs.View.{DeskView};

    ghost Value = { DeskView };

    ghost view = { λ d. record { pass = d.parts.pass; seats = map Q.seen d.seats.items; sleepers = d.sleeping.sleepers; now = d.sleeping.clock; aside = d.parts.aside; handed = d.parts.ready.items } };
}

impl<Q: Order> Desk<Q> {
    /// The desk of the pass's worker, with one seat of each queue, in order of lock. Its clock
    /// starts at 0, nothing is set aside, and it has put no thread as ready.
    pub fn new(pass: Pass, seats: Vec<Q::Seat>, sleepers: Sleepers) -> Desk<Q>
        ensures { result ≡ desk_of pass (map Q.seen seats.items) sleepers 0 None [] }
    {
        Desk {
            parts: DeskParts {
                pass,
                aside: None,
                ready: ReadyList::new(),
            },
            seats,
            sleeping: Sleeping { sleepers, clock: 0 },
        }
    }

    /// The pass.
    pub fn pass(&mut self) -> &mut Pass
        ensures* writes_back { sem 𝓛 (Lends (the_row Q.row Q.Seat.row Q.Place.row Q.Order) pass_row self.entry result (λ pass. record self.old { pass = pass })) }
        ensures value { result.now ≡ self.old.pass }
    {
        &mut self.parts.pass
    }

    /// The sleepers.
    pub fn sleepers(&mut self) -> &mut Sleepers
        ensures* writes_back { sem 𝓛 (Lends (the_row Q.row Q.Seat.row Q.Place.row Q.Order) sleepers_row self.entry result (λ sleepers. record self.old { sleepers = sleepers })) }
        ensures value { result.now ≡ self.old.sleepers }
    {
        &mut self.sleeping.sleepers
    }

    /// The clock: how many blocks it has committed, unless it was advanced.
    pub fn now(&self) -> u64
        ensures { result ≡ self.now.now }
    {
        self.sleeping.clock
    }

    /// Advances the clock to a turn that is not before now.
    pub fn advance(&mut self, to: u64)
        requires { self.old.now ≤ to }
        ensures { self.new ≡ record self.old { now = to } }
    {
        self.sleeping.clock = to;
    }

    /// Seals the package's pending block, and returns its stamp. The clock is incremented; it
    /// saturates at the greatest u64.
    pub fn commit(&mut self, bench: &Bench<'_, Q>, package: &mut Package) -> u64
        requires fits { FitsBench bench.now self.old }
        requires may { MayCommit bench.now.hall.terms self.old «package».old }
        ensures same { IsSamePass self.old.pass self.new.pass }
        ensures keeps { KeepsSealed bench.now.hall.terms «package».old «package».new self.old self.new }
        ensures sealed { DidSeal «package».old result self.old.pass.knows self.new.pass.knows }
        ensures context { «package».new
            ≡ with_seal result self.old.pass.knows.worker «package».old }
        ensures rest { self.new ≡ record self.old
            { pass = self.new.pass; now = min (self.old.now + 1) (2 ^ 64 - 1) } }
        ensures fits { FitsBench bench.now self.new }
    {
        let stamp = bench.hall.commit(&mut self.parts.pass, package);
        self.sleeping.clock = self.sleeping.clock.saturating_add(1);
        stamp
    }

    /// Enters the queue of the lock that the package wants. If nobody is there, it takes the lock,
    /// once that is free, and the package goes on. Otherwise the package waits with all its locks
    /// and is linked. The call may wait for the lock, until the run is stopped. Before all else it
    /// enters: that is the first that a queue in the hall notes in the pass.
    pub fn acquire<R: Wait>(&mut self, rt: &R, bench: &Bench<'_, Q>, package: Package) -> Settled
        requires fits { FitsBench bench.now self.old }
        requires hand { IsInHand self.old «package» }
        requires knows { KnowsLines bench.now.hall.terms self.old.pass.knows
            (Pack «package» ∷ packed self.old.aside) }
        requires may { MayAcquire bench.now.image «package» }
        ensures keeps { Keeps bench.now «package» self.old self.new result }
        ensures acquired { HasAcquired «package» self.old self.new result }
        ensures enters { (i : ℕ) × Wants «package» i × EntersFirst
            (λ q. Q.fits q bench.now.hall × Q.of q i) Q.notes (next_turn «package»)
            self.old.pass self.new.pass }
    {
        package.keeps();
        match package.want(bench.image) {
            Some(lock) => self.acquire_lock(rt, bench, package, lock),
            None => unreachable!(),
        }
    }

    /// As `acquire`, for a caller who has asked the package which lock it wants.
    pub fn acquire_lock<R: Wait>(
        &mut self,
        rt: &R,
        bench: &Bench<'_, Q>,
        package: Package,
        lock: u32,
    ) -> Settled
        requires fits { FitsBench bench.now self.old }
        requires hand { IsInHand self.old «package» }
        requires knows { KnowsLines bench.now.hall.terms self.old.pass.knows
            (Pack «package» ∷ packed self.old.aside) }
        requires may { MayAcquire bench.now.image «package» }
        requires wants { Wants «package» lock }
        ensures keeps { Keeps bench.now «package» self.old self.new result }
        ensures acquired { HasAcquired «package» self.old self.new result }
        ensures enters { EntersFirst (λ q. Q.fits q bench.now.hall × Q.of q lock) Q.notes
            (next_turn «package») self.old.pass self.new.pass }
    {
        self.parts.ready.clear();
        package.keeps();
        let shared = Shared {
            hall: bench.hall,
            queues: bench.queues,
        };
        acquire_at(
            rt,
            &shared,
            &mut self.parts,
            self.seats.as_mut_slice(),
            package,
            lock,
        )
    }

    /// Does with a package what the end of its last block requires. It may wait: for a lock that is
    /// not free yet, or for a waiter that is not linked or not put yet, until the run is stopped.
    /// At a LOCK it enters before all else, as `acquire` does.
    pub fn settle<R: Wait>(
        &mut self,
        rt: &R,
        bench: &Bench<'_, Q>,
        package: Package,
        end: End,
    ) -> Settled
        requires fits { FitsBench bench.now self.old }
        requires hand { IsInHand self.old «package» }
        requires knows { KnowsLines bench.now.hall.terms self.old.pass.knows
            (Pack «package» ∷ packed self.old.aside) }
        requires may { MaySettle bench.now.image self.old.pass.knows.worker end «package» }
        ensures keeps { Keeps bench.now «package» self.old self.new result }
        ensures settled { HasSettled end «package» self.old self.new result }
        ensures enters { IfWants end (λ i. EntersFirst (λ q. Q.fits q bench.now.hall × Q.of q i)
            Q.notes (next_turn «package») self.old.pass self.new.pass) }
    {
        let shared = Shared {
            hall: bench.hall,
            queues: bench.queues,
        };
        settle_with(
            rt,
            &shared,
            &mut self.parts,
            self.seats.as_mut_slice(),
            &mut self.sleeping,
            package,
            end,
        )
    }

    /// Gives back the package that was set aside.
    pub fn back(&mut self) -> Option<Package>
        ensures given { result ≡ self.old.aside }
        ensures rest { self.new ≡ record self.old { aside = None } }
    {
        // Most calls find none, and write nothing.
        if self.parts.aside.is_none() {
            return None;
        }
        self.parts.aside.take()
    }

    /// The threads that the last `acquire` or `settle` put as ready, in that order: a waiter that
    /// was granted a lock, and an adopted package that was given back. Empty if the run was stopped.
    pub fn handed(&self) -> &[u32]
        ensures threads { result.now ≡ self.now.handed }
        ensures few { length result.now ≤ MAX_HELD }
    {
        self.parts.ready.as_slice()
    }

    /// Ends the desk.
    pub fn finish(self) -> (Pass, Vec<Q::Seat>)
        requires { self.aside ≡ None }
        ensures pass { result.0 ≡ self.pass }
        ensures seats { map Q.seen result.1.items ≡ self.seats }
    {
        let Desk {
            parts,
            seats,
            sleeping: _,
        } = self;
        let DeskParts {
            pass,
            aside: _,
            ready: _,
        } = parts;
        (pass, seats)
    }
}
