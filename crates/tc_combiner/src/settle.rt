//! What `settle` does, by the end of the block, over the parts of a desk.

ghost use Rattle.std.specs.Prelude.{All, ◌≤◌, ◌∷◌, ◌++◌, length, map};
ghost use Rattle.tc_hall.specs.Outs.{Pack};
ghost use Rattle.tc_hall.specs.Rule.{threads};
ghost use Rattle.tc_order.specs.Order.{AreInOrder};
ghost use Rattle.tc_combiner.specs.Walks.{packed, IsAtHall, MayAct};
ghost use Rattle.tc_combiner.specs.Answers.{Acquires, EntersFirst, MayAsk, carried, next_turn};
ghost use Rattle.tc_combiner.specs.Release.{AtSeat, MayUnlock, Unlocks};
ghost use Rattle.tc_combiner.specs.Change.{change};
ghost use Rattle.tc_combiner.specs.Stances.{IfRuns, KnowsLines};
ghost use Rattle.tc_combiner.specs.View.{desk_with, HasSeats};
ghost use Rattle.tc_combiner.specs.Settling.{HasInHand, HasSettled, IfWants, KeepsParts, MaySettle};

use crate::acquire::acquire_with;
use crate::ends::{ended_with, park};
use crate::parts::{DeskParts, Shared, Sleeping};
use crate::passed::Released;
use crate::settled::Settled;
use crate::unlock::unlocked_with;
use std::sync::Wait;
use tc_context::package::Package;
use tc_journal::block::{Block, End};
use tc_order::Order;

/// What `acquire` does, at the lock's place in the bench.
/// Always inlined into both callers, since the compiler by itself inlines what has one caller.
#[inline(always)]
pub(crate) fn acquire_at<R: Wait, Q: Order>(
    rt: &R,
    shared: &Shared<'_, Q>,
    parts: &mut DeskParts,
    seats: &mut [Q::Seat],
    package: Package,
    lock: u32,
) -> Settled
    requires lines { All (λ q. Q.fits q shared.now.hall.now) shared.now.queues.now
        × AreInOrder Q.of shared.now.queues.now }
    requires parts { IsAtHall shared.now.hall.now (Pack «package» ∷ packed parts.old.aside) parts.old }
    requires may { MayAsk shared.now.hall.now.terms lock «package» }
    requires knows { KnowsLines shared.now.hall.now.terms parts.old.pass.knows
        (Pack «package» ∷ packed parts.old.aside) }
    requires seats { HasSeats Q.queue Q.seen shared.now.hall.now.terms shared.now.queues.now seats.old }
    ensures acquired { AtSeat lock (map Q.seen seats.old) (map Q.seen seats.new)
        (λ s t. Acquires shared.now.hall.now.terms lock «package»
        (change s t) (change parts.old parts.new) result) }
    ensures enters { EntersFirst (λ q. Q.fits q shared.now.hall.now × Q.of q lock) Q.notes
        (next_turn «package») parts.old.pass parts.new.pass }
    ensures knows { IfRuns result (KnowsLines shared.now.hall.now.terms parts.new.pass.knows
        (carried result ++ packed parts.new.aside)) }
{
    let queue = &shared.queues[lock as usize];
    let seat = &mut seats[lock as usize];
    acquire_with(rt, shared.hall, parts, queue, seat, package, lock)
}

/// What `settle` does at an unlock, at the lock's place in the bench.
fn unlocked_at<R: Wait, Q: Order>(
    rt: &R,
    shared: &Shared<'_, Q>,
    parts: &mut DeskParts,
    seats: &mut [Q::Seat],
    package: Package,
    lock: u32,
    block: Block,
) -> Settled
    requires lines { All (λ q. Q.fits q shared.now.hall.now) shared.now.queues.now }
    requires parts { MayAct shared.now.hall.now (Pack «package» ∷ packed parts.old.aside) 2 parts.old }
    requires may { MayUnlock shared.now.hall.now.terms parts.old.pass.knows lock block «package» }
    requires knows { KnowsLines shared.now.hall.now.terms parts.old.pass.knows
        (Pack «package» ∷ packed parts.old.aside) }
    requires order { AreInOrder Q.of shared.now.queues.now }
    requires seats { HasSeats Q.queue Q.seen shared.now.hall.now.terms shared.now.queues.now seats.old }
    ensures unlocks { AtSeat lock (map Q.seen seats.old) (map Q.seen seats.new)
        (λ s t. Unlocks shared.now.hall.now.terms lock block «package»
        (change s t) (change parts.old parts.new) result) }
    ensures knows { IfRuns result (KnowsLines shared.now.hall.now.terms parts.new.pass.knows
        (carried result ++ packed parts.new.aside)) }
{
    let queue = &shared.queues[lock as usize];
    let seat = &mut seats[lock as usize];
    let block = &block;
    unlocked_with(
        rt,
        shared.hall,
        parts,
        queue,
        seat,
        package,
        Released { lock, block },
    )
}

/// What `settle` does, over the parts of a desk.
pub(crate) fn settle_with<R: Wait, Q: Order>(
    rt: &R,
    shared: &Shared<'_, Q>,
    parts: &mut DeskParts,
    seats: &mut [Q::Seat],
    sleeping: &mut Sleeping,
    package: Package,
    end: End,
) -> Settled
    requires lines { All (λ q. Q.fits q shared.now.hall.now) shared.now.queues.now
        × AreInOrder Q.of shared.now.queues.now }
    requires parts { HasInHand shared.now.hall.now «package» parts.old }
    requires seats { HasSeats Q.queue Q.seen shared.now.hall.now.terms shared.now.queues.now seats.old }
    requires room { threads shared.now.hall.now.terms ≤ length sleeping.old.sleepers }
    requires may { MaySettle shared.now.hall.now.terms.image.value parts.old.pass.knows.worker end «package» }
    ensures keeps { KeepsParts shared.now.hall.now.terms «package»
        (desk_with parts.old (map Q.seen seats.old) sleeping.old)
        (desk_with parts.new (map Q.seen seats.new) sleeping.new) result }
    ensures settled { HasSettled end «package» (desk_with parts.old (map Q.seen seats.old) sleeping.old)
        (desk_with parts.new (map Q.seen seats.new) sleeping.new) result }
    ensures enters { IfWants end (λ i. EntersFirst (λ q. Q.fits q shared.now.hall.now × Q.of q i)
        Q.notes (next_turn «package») parts.old.pass parts.new.pass) }
{
    parts.ready.clear();
    // For the proofs only: the package's invariant. The same at each `keeps`; no code runs.
    package.keeps();
    match end {
        End::Wants(lock) => acquire_at(rt, shared, parts, seats, package, lock),
        End::Unlocked(lock) => {
            let block = package.last();
            unlocked_at(rt, shared, parts, seats, package, lock, block)
        }
        End::Slept => {
            park(shared.hall, parts, sleeping, package);
            Settled::Parked
        }
        End::Cut => Settled::GoesOn(package),
        // An exit, a fault, or spent fuel.
        _ => {
            let block = package.last();
            ended_with(rt, shared, parts, seats, package, block)
        }
    }
}
