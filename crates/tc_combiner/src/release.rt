//! What becomes of a released lock.

ghost use Rattle.std.specs.Prelude.{ℕ, ◌≡◌, ◌≢◌, ◌<◌, [], ◌∷◌, Some, true};
ghost use Rattle.tc_context.specs.View.{PackageView};
ghost use Rattle.tc_hall.specs.Rule.{threads};
ghost use Rattle.tc_queue.specs.declared.turn.Turn.{Turn};
ghost use Rattle.tc_hall.specs.Standing.{turns_of};
ghost use Rattle.tc_hall.specs.Outs.{outs, Pack, Loose};
ghost use Rattle.tc_combiner.specs.Packages.{IsWaiter};
ghost use Rattle.tc_combiner.specs.Release.{DidGrantNext, DidPass, MayGrantNext, MayPassOn};
ghost use Rattle.tc_combiner.specs.Change.{change};
ghost use Rattle.tc_combiner.specs.Stances.{FollowedBy, GrantsSo, KnowsLines, PassedSo, SameTurns};
ghost use Rattle.tc_combiner.specs.View.{IsSeatFor};

use crate::calls;
use crate::found::Found;
use crate::parts::DeskParts;
use crate::passed::{Passed, Released};
use crate::waits::{await_package, find_next};
use std::sync::Wait;
use tc_context::package::Package;
use tc_hall::hall::Hall;
use tc_hall::place::Place;
use tc_journal::block::{Block, Kind};
use tc_nested::{Next, plan};
use tc_order::Order;
use tc_queue::Turn;
use tc_segment::state::LockState;

/// Grants the lock to the waiter, as adopted or as granted; a granted one is put as ready.
fn grant_to(
    hall: &Hall,
    parts: &mut DeskParts,
    mut waiter: Package,
    state: LockState,
    block: &Block,
    next: Turn,
) -> Passed
    requires may { MayGrantNext hall.now state block.now next (Pack waiter ∷ Loose state ∷ []) parts.old }
    requires waiter { IsWaiter next.thread state.number hall.now.terms.image.value waiter }
    requires other { block.now.thread ≢ next.thread }
    requires lines { (q : PackageView) × (q.context.thread ≡ block.now.thread)
        × GrantsSo hall.now.terms parts.old.pass.knows state next waiter q }
    ensures granted { DidGrantNext hall.now.terms state block.now next
        (Pack waiter ∷ Loose state ∷ []) (change parts.old parts.new) result }
    ensures lines { (q : PackageView) → q.context.thread ≡ block.now.thread
        → GrantsSo hall.now.terms parts.old.pass.knows state next waiter q
        → PassedSo hall.now.terms parts.new.pass.knows (Pack q ∷ []) result }
    ensures turns { (t : ℕ) → turns_of t parts.new.pass.knows.calls ≡ turns_of t parts.old.pass.knows.calls }
{
    let lock = state.number();
    if let Next::Adopt = plan(block, lock, state.run(), state.limit(), true) {
        waiter.grant(state, Kind::Adopted, next.number);
        return Passed::Adopted(waiter);
    }
    waiter.grant(state, Kind::Granted, next.number);
    parts.ready.push(waiter.thread());
    calls::put(hall, &mut parts.pass, waiter, Place::Ready);
    Passed::Granted
}

/// Grants a released lock to the turn behind, once its package waits.
fn grant_next<R: Wait>(
    rt: &R,
    hall: &Hall,
    parts: &mut DeskParts,
    state: LockState,
    block: &Block,
    next: Turn,
) -> Passed
    requires may { MayGrantNext hall.now state block.now next (Loose state ∷ []) parts.old }
    requires beside { (q : PackageView)
        × ((outs parts.old.pass.knows).context block.now.thread ≡ Some q) }
    requires lines { (q : PackageView) × (own : Turn) × (q.context.thread ≡ block.now.thread)
        × FollowedBy hall.now.terms parts.old.pass.knows state.number own next q }
    ensures granted { DidGrantNext hall.now.terms state block.now next
        (Loose state ∷ []) (change parts.old parts.new) result }
    ensures lines { (q : PackageView) (own : Turn) → q.context.thread ≡ block.now.thread
        → FollowedBy hall.now.terms parts.old.pass.knows state.number own next q
        → PassedSo hall.now.terms parts.new.pass.knows (Pack q ∷ []) result }
    ensures turns { hall.now.terms.lined ≡ true → SameTurns parts.old.pass.knows parts.new.pass.knows }
{
    let lock = state.number();
    match await_package(rt, hall, &mut parts.pass, next.thread, lock) {
        Some(waiter) => grant_to(hall, parts, waiter, state, block, next),
        None => {
            calls::free(hall, &mut parts.pass, state);
            Passed::Stopped
        }
    }
}

/// Takes a released lock out of its package, and grants it to the turn behind or frees it.
pub(crate) fn pass_on<R: Wait, Q: Order>(
    rt: &R,
    hall: &Hall,
    parts: &mut DeskParts,
    queue: &Q,
    seat: &mut Q::Seat,
    package: &mut Package,
    released: Released<'_>,
) -> Passed
    requires line { Q.fits queue.now hall.now × Q.of queue.now released.lock }
    requires may { MayPassOn hall.now released.lock released.block.now «package».old parts.old }
    requires seat { IsSeatFor (threads hall.now.terms) (Q.queue queue.now) (Q.seen seat.old) }
    requires lines { KnowsLines hall.now.terms parts.old.pass.knows (Pack «package».old ∷ []) }
    ensures passed { DidPass hall.now.terms released.entry.lock released.entry.block.now
        (change «package».old «package».new) (change (Q.seen seat.old) (Q.seen seat.new))
        (change parts.old parts.new) result }
    ensures lines { PassedSo hall.now.terms parts.new.pass.knows (Pack «package».new ∷ []) result }
    ensures turns { hall.now.terms.lined ≡ true → SameTurns parts.old.pass.knows parts.new.pass.knows }
{
    package.keeps();
    let own = Turn {
        thread: package.thread(),
        number: package.number_of(released.lock),
    };
    let state = package.take_out(released.lock);
    match find_next(rt, hall, &mut parts.pass, queue, seat, own) {
        Found::Next(next) => grant_next(rt, hall, parts, state, released.block, next),
        Found::Nobody => {
            calls::free(hall, &mut parts.pass, state);
            Passed::Home
        }
        Found::Stopped => {
            calls::free(hall, &mut parts.pass, state);
            Passed::Stopped
        }
    }
}
