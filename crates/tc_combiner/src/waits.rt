//! The three waits of a desk, and one try of each. Each checks STOP after each failed try.

ghost use Rattle.std.specs.Prelude.{ℕ, ◌≡◌, ◌+◌, ◌<◌, ◌≤◌, [], ◌∷◌, Some};
ghost use Rattle.tc_hall.specs.Rule.{threads, locks};
ghost use Rattle.tc_hall.specs.Outs.{Pack, Loose};
ghost use Rattle.tc_hall.specs.Standing.{ClaimsAs, IfLined, StandsAs, TakesAs, loose};
ghost use Rattle.tc_hall.specs.Steps.{claim_call};
ghost use Rattle.tc_hall.specs.declared.board.PassCall.TheVariants.{Line, Take};
ghost use Rattle.tc_hall.specs.declared.place.Place.TheVariants.{Waiting};
ghost use Rattle.tc_hall.specs.declared.place.TheConstants.{WAITING};
ghost use Rattle.tc_queue.specs.declared.turn.QueueCall.TheVariants.{Next as Own_next};
ghost use Rattle.tc_queue.specs.Lines.{MayCall, Next, with_line};
ghost use Rattle.tc_queue.specs.Words.{IsTurn};
ghost use Rattle.tc_combiner.specs.Packages.{IsWaiter};
ghost use Rattle.tc_combiner.specs.Stances.{AskedSo, FoundSo, TriedSo, WaitedSo};
ghost use Rattle.tc_combiner.specs.Walks.{AskedAs, AskedTimes, Acts, Tried, FoundAs, LooksAfterFirst, IsTaken, TriedAs, WaitedAs, came_of, saw_at_stop};
ghost use Rattle.tc_combiner.specs.declared.found.Asked.TheVariants.{Unlinked};

use crate::attempt::Attempt;
use crate::calls;
use crate::found::{Asked, Found};
use crossbeam_utils::Backoff;
use std::sync::Wait;
use tc_context::package::Package;
use tc_hall::hall::{Hall, LockOut, NotWaiting};
use tc_hall::pass::Pass;
use tc_order::Order;
use tc_queue::{Departure, Turn};
use tc_segment::state::LockState;

/// Tries to take the lock, and checks STOP if it is out.
fn try_take(hall: &Hall, pass: &mut Pass, lock: u32) -> Attempt<LockState>
    requires own { pass.old.table ≡ hall.now.table }
    requires place { lock < locks hall.now.terms }
    requires stands { IfLined hall.now.terms pass.old.knows (TakesAs pass.old.knows lock) }
    ensures tried { TriedAs 1 (λ l. Loose l ∷ []) (IsTaken hall.now lock) pass.old pass.new result }
    ensures so { TriedSo hall.now.terms (λ l. Take lock) pass.old.knows pass.new.knows result }
{
    match hall.take(pass, lock) {
        Ok(state) => Attempt::Came(state),
        Err(LockOut(_)) => {
            if calls::stopped(hall, pass) {
                return Attempt::Stopped;
            }
            Attempt::Refused
        }
    }
}

/// Tries to take the waiter's package, and checks STOP if it does not wait.
fn try_adopt(hall: &Hall, pass: &mut Pass, t: u32, lock: u32) -> Attempt<Package>
    requires own { pass.old.table ≡ hall.now.table }
    requires places { (t < threads hall.now.terms) × (lock < locks hall.now.terms) }
    requires stands { IfLined hall.now.terms pass.old.knows
        (ClaimsAs pass.old.knows t (Waiting lock)) }
    ensures tried { TriedAs 1 (λ q. Pack q ∷ []) (λ p q. IsWaiter t lock p.knows.image q) pass.old pass.new result }
    ensures so { TriedSo hall.now.terms (λ q. claim_call pass.old.knows q (WAITING + lock))
        pass.old.knows pass.new.knows result }
{
    match hall.adopt(pass, t, lock) {
        Ok(waiter) => {
            waiter.keeps();
            Attempt::Came(waiter)
        }
        Err(NotWaiting(_)) => {
            if calls::stopped(hall, pass) {
                return Attempt::Stopped;
            }
            Attempt::Refused
        }
    }
}

/// Asks for the turn behind, and checks STOP if it is not linked.
fn try_next<R: Wait, Q: Order>(
    rt: &R,
    hall: &Hall,
    pass: &mut Pass,
    queue: &Q,
    seat: &mut Q::Seat,
    own: Turn,
) -> Attempt<Turn>
    requires line { Q.fits queue.now hall.now }
    requires own { pass.old.table ≡ hall.now.table }
    requires asks { MayCall (Q.queue queue.now) (Q.seen seat.old) own }
    requires stands { (i : ℕ) → Q.of queue.now i → IfLined hall.now.terms pass.old.knows
        (StandsAs pass.old.knows i (loose own)) }
    ensures line { Q.seen seat.new ≡ with_line (Q.seen seat.old) (Next own (came_of result)) }
    ensures tried { TriedAs 0 (λ u. []) (λ p u. IsTurn (Q.queue queue.now).threads u) pass.old pass.new result }
    ensures so { (i : ℕ) → Q.of queue.now i → TriedSo hall.now.terms
        (λ u. Line i (Own_next own (Some u))) pass.old.knows pass.new.knows result }
{
    match queue.next(rt, hall, pass, seat, own) {
        Some(next) => Attempt::Came(next),
        None => {
            if calls::stopped(hall, pass) {
                return Attempt::Stopped;
            }
            Attempt::Refused
        }
    }
}

/// Takes the lock once it is free. None: the run was stopped.
pub(crate) fn await_lock<R: Wait>(
    rt: &R,
    hall: &Hall,
    pass: &mut Pass,
    lock: u32,
) -> Option<LockState>
    requires own { pass.old.table ≡ hall.now.table }
    requires place { lock < locks hall.now.terms }
    requires stands { IfLined hall.now.terms pass.old.knows (TakesAs pass.old.knows lock) }
    ensures waited { WaitedAs (λ l. Loose l ∷ []) (IsTaken hall.now lock) pass.old pass.new result }
    ensures so { WaitedSo hall.now.terms (λ l. Take lock) pass.old.knows pass.new.knows result }
{
    let pause = Backoff::new();
    for _ in rt.forever() {
        match try_take(hall, pass, lock) {
            Attempt::Came(state) => return Some(state),
            Attempt::Stopped => return None,
            Attempt::Refused => pause.snooze(),
        }
    }
    unreachable!()
}

/// Takes the waiter's package once it waits. None: the run was stopped.
pub(crate) fn await_package<R: Wait>(
    rt: &R,
    hall: &Hall,
    pass: &mut Pass,
    t: u32,
    lock: u32,
) -> Option<Package>
    requires own { pass.old.table ≡ hall.now.table }
    requires places { (t < threads hall.now.terms) × (lock < locks hall.now.terms) }
    requires stands { IfLined hall.now.terms pass.old.knows
        (ClaimsAs pass.old.knows t (Waiting lock)) }
    ensures waited { WaitedAs (λ q. Pack q ∷ []) (λ p q. IsWaiter t lock p.knows.image q) pass.old pass.new result }
    ensures so { WaitedSo hall.now.terms (λ q. claim_call pass.old.knows q (WAITING + lock))
        pass.old.knows pass.new.knows result }
{
    let pause = Backoff::new();
    for _ in rt.forever() {
        match try_adopt(hall, pass, t, lock) {
            Attempt::Came(waiter) => return Some(waiter),
            Attempt::Stopped => return None,
            Attempt::Refused => pause.snooze(),
        }
    }
    unreachable!()
}

/// Asks once for the turn behind, and leaves if there is none.
fn ask<R: Wait, Q: Order>(
    rt: &R,
    hall: &Hall,
    pass: &mut Pass,
    queue: &Q,
    seat: &mut Q::Seat,
    own: Turn,
) -> Asked
    requires own { (pass.old.table ≡ hall.now.table) × Q.fits queue.now hall.now }
    requires asks { MayCall (Q.queue queue.now) (Q.seen seat.old) own }
    requires stands { (i : ℕ) → Q.of queue.now i → IfLined hall.now.terms pass.old.knows
        (StandsAs pass.old.knows i (loose own)) }
    ensures asked { AskedAs own (Q.seen seat.old) (Q.seen seat.new) result }
    ensures once { (n : ℕ) × AskedTimes n own (Q.seen seat.old) (Q.seen seat.new) × (n ≤ 1)
        × (result ≡ Unlinked → n ≡ 1) }
    ensures acts { Acts [] [] [] pass.old pass.new × Tried 0 0 pass.old.knows pass.new.knows }
    ensures so { (i : ℕ) → Q.of queue.now i → AskedSo i own hall.now.terms
        pass.old.knows pass.new.knows result }
{
    if let Some(next) = queue.next(rt, hall, pass, seat, own) {
        return Asked::Next(next);
    }
    match queue.leave(rt, hall, pass, seat, own) {
        Departure::Left => Asked::Nobody,
        Departure::Followed => Asked::Unlinked,
    }
}

/// Finds the turn behind this one, once it is linked, or leaves the queue if nobody is behind.
pub(crate) fn find_next<R: Wait, Q: Order>(
    rt: &R,
    hall: &Hall,
    pass: &mut Pass,
    queue: &Q,
    seat: &mut Q::Seat,
    own: Turn,
) -> Found
    requires line { Q.fits queue.now hall.now }
    requires own { pass.old.table ≡ hall.now.table }
    requires asks { MayCall (Q.queue queue.now) (Q.seen seat.old) own }
    requires stands { (i : ℕ) → Q.of queue.now i → IfLined hall.now.terms pass.old.knows
        (StandsAs pass.old.knows i (loose own)) }
    ensures acts { Acts (saw_at_stop result) [] [] pass.old pass.new }
    ensures found { FoundAs own (Q.seen seat.old) (Q.seen seat.new) result }
    ensures looks { LooksAfterFirst own (Q.seen seat.old) (Q.seen seat.new)
        pass.old.knows pass.new.knows }
    ensures so { (i : ℕ) → Q.of queue.now i → FoundSo i own hall.now.terms
        pass.old.knows pass.new.knows result }
{
    match ask(rt, hall, pass, queue, seat, own) {
        Asked::Nobody => return Found::Nobody,
        Asked::Next(next) => return Found::Next(next),
        Asked::Unlinked => {}
    }
    let pause = Backoff::new();
    for _ in rt.forever() {
        match try_next(rt, hall, pass, queue, seat, own) {
            Attempt::Came(next) => return Found::Next(next),
            Attempt::Stopped => return Found::Stopped,
            Attempt::Refused => pause.snooze(),
        }
    }
    unreachable!()
}
