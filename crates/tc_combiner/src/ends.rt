//! What `settle` does when a thread sleeps, and when it has ended.

ghost use Rattle.std.specs.Prelude.{All, ◌≡◌, ◌<◌, ◌≤◌, ◌-◌, ◌+◌, ◌^◌, [], ◌∷◌, ◌++◌, Some, true, min, length, map, slice_set, false};
ghost use Rattle.tc_isa.specs.Sets.{locks_of};
ghost use Rattle.tc_isa.specs.declared.limits.TheConstants.{MAX_HELD};
ghost use Rattle.tc_journal.specs.Batch.{ends_thread};
ghost use Rattle.tc_hall.specs.Rule.{threads};
ghost use Rattle.tc_queue.specs.Lines.{SeatView};
ghost use Rattle.tc_hall.specs.Outs.{Pack};
ghost use Rattle.tc_hall.specs.Steps.{HasStop};
ghost use Rattle.tc_combiner.specs.Stances.{IfRuns, KnowsLines, LeftSo};
ghost use Rattle.tc_combiner.specs.Walks.{packed, IsAtHall, MayAct};
ghost use Rattle.tc_order.specs.Order.{AreInOrder};
ghost use Rattle.tc_combiner.specs.Answers.{MayPark, Parks, carried};
ghost use Rattle.tc_combiner.specs.Release.{MayPassOn, DidLeave, DidLeaveAll, Ends, MayEnd};
ghost use Rattle.tc_combiner.specs.Change.{change};
ghost use Rattle.tc_combiner.specs.View.{HasSeats, IsSeatFor};

use crate::acquire::put_all_back;
use crate::calls;
use crate::parts::{DeskParts, Shared, Sleeping};
use crate::passed::{Passed, Released};
use crate::release::pass_on;
use crate::settled::Settled;
use std::sync::Wait;
use tc_context::package::Package;
use tc_hall::hall::Hall;
use tc_hall::place::Place;
use tc_journal::block::Block;
use tc_nested::first_release;
use tc_order::Order;

/// Puts the package as parked, and adds its thread to the sleepers.
pub(crate) fn park(hall: &Hall, parts: &mut DeskParts, sleeping: &mut Sleeping, package: Package)
    requires parts { IsAtHall hall.now (Pack «package» ∷ packed parts.old.aside) parts.old }
    requires room { threads hall.now.terms ≤ length sleeping.old.sleepers }
    requires may { MayPark hall.now.terms «package» }
    requires lines { KnowsLines hall.now.terms parts.old.pass.knows
        (Pack «package» ∷ packed parts.old.aside) }
    ensures lines { KnowsLines hall.now.terms parts.new.pass.knows (packed parts.new.aside) }
    ensures calls { Parks hall.now.terms «package» (change parts.old parts.new) }
    ensures sleeper { sleeping.new ≡ record sleeping.old {
      sleepers = slice_set sleeping.old.sleepers «package».context.thread
          (Some (min (sleeping.old.clock + «package».slept) (2 ^ 64 - 1)));
    } }
{
    let due = sleeping.clock.saturating_add(u64::from(package.slept()));
    let thread = package.thread();
    calls::put(hall, &mut parts.pass, package, Place::Parked);
    sleeping.sleepers.add(thread, due);
}

/// Frees one lock of a thread that has ended, after a stop: no waiter is asked for.
fn free_one(hall: &Hall, parts: &mut DeskParts, package: &mut Package, released: Released<'_>)
    requires may { MayPassOn hall.now released.lock released.block.now «package».old parts.old }
    requires stop { HasStop parts.old.pass.knows }
    ensures { (s : SeatView) → DidLeave hall.now.terms released.entry.lock released.entry.block.now
        (change «package».old «package».new) (change s s) (change parts.old parts.new) (change true true) }
{
    package.keeps();
    let state = package.take_out(released.lock);
    calls::free(hall, &mut parts.pass, state);
}

/// Passes on one lock of a thread that has ended, and says whether the run was stopped.
fn end_one<R: Wait, Q: Order>(
    rt: &R,
    hall: &Hall,
    parts: &mut DeskParts,
    queue: &Q,
    seat: &mut Q::Seat,
    package: &mut Package,
    released: Released<'_>,
) -> bool
    requires line { Q.fits queue.now hall.now × Q.of queue.now released.lock }
    requires may { MayPassOn hall.now released.lock released.block.now «package».old parts.old }
    requires ended { ends_thread released.block.now.end ≡ true }
    requires seat { IsSeatFor (threads hall.now.terms) (Q.queue queue.now) (Q.seen seat.old) }
    requires lines { KnowsLines hall.now.terms parts.old.pass.knows (Pack «package».old ∷ []) }
    ensures lines { LeftSo hall.now.terms parts.old.pass.knows parts.new.pass.knows «package».new result }
    ensures left { DidLeave hall.now.terms released.entry.lock released.entry.block.now
        (change «package».old «package».new) (change (Q.seen seat.old) (Q.seen seat.new))
        (change parts.old parts.new) (change false result) }
{
    match pass_on(rt, hall, parts, queue, seat, package, released) {
        Passed::Home | Passed::Granted => false,
        Passed::Adopted(_) => unreachable!(),
        Passed::Stopped => true,
    }
}

/// Passes on the locks of a thread that has ended in ascending order; says whether the run was stopped.
fn end_all<R: Wait, Q: Order>(
    rt: &R,
    shared: &Shared<'_, Q>,
    parts: &mut DeskParts,
    seats: &mut [Q::Seat],
    package: &mut Package,
    block: &Block,
) -> bool
    requires lines { All (λ q. Q.fits q shared.now.hall.now) shared.now.queues.now }
    requires parts { MayAct shared.now.hall.now (Pack «package».old ∷ [])
        (length (locks_of block.now.held)) parts.old }
    requires may { MayEnd shared.now.hall.now.terms parts.old.pass.knows block.now «package».old }
    requires knows { KnowsLines shared.now.hall.now.terms parts.old.pass.knows (Pack «package».old ∷ []) }
    requires order { AreInOrder Q.of shared.now.queues.now }
    requires seats { HasSeats Q.queue Q.seen shared.now.hall.now.terms shared.now.queues.now seats.old }
    ensures knows { LeftSo shared.now.hall.now.terms parts.old.pass.knows parts.new.pass.knows «package».new result }
    ensures left { DidLeaveAll shared.now.hall.now.terms block.now (change «package».old «package».new)
        (change (map Q.seen seats.old) (map Q.seen seats.new)) (change parts.old parts.new) result }
{
    let mut stopped = false;
    let mut rest = block.held;
    while let Some(lock) = first_release(rest) {
        package.keeps();
        rest = rest.less(lock);
        let released = Released { lock, block };
        if stopped {
            free_one(shared.hall, parts, package, released);
            continue;
        }
        let queue = &shared.queues[lock as usize];
        let seat = &mut seats[lock as usize];
        stopped = end_one(rt, shared.hall, parts, queue, seat, package, released);
    }
    stopped
}

/// What `settle` does at a thread's end.
pub(crate) fn ended_with<R: Wait, Q: Order>(
    rt: &R,
    shared: &Shared<'_, Q>,
    parts: &mut DeskParts,
    seats: &mut [Q::Seat],
    mut package: Package,
    block: Block,
) -> Settled
    requires lines { All (λ q. Q.fits q shared.now.hall.now) shared.now.queues.now }
    requires parts { MayAct shared.now.hall.now (Pack «package» ∷ packed parts.old.aside) MAX_HELD parts.old }
    requires may { MayEnd shared.now.hall.now.terms parts.old.pass.knows block «package» }
    requires knows { KnowsLines shared.now.hall.now.terms parts.old.pass.knows
        (Pack «package» ∷ packed parts.old.aside) }
    requires order { AreInOrder Q.of shared.now.queues.now }
    requires seats { HasSeats Q.queue Q.seen shared.now.hall.now.terms shared.now.queues.now seats.old }
    ensures knows { IfRuns result (KnowsLines shared.now.hall.now.terms parts.new.pass.knows
        (carried result ++ packed parts.new.aside)) }
    ensures ends { Ends shared.now.hall.now.terms block «package»
        (change (map Q.seen seats.old) (map Q.seen seats.new)) (change parts.old parts.new) result }
{
    package.keeps();
    if end_all(rt, shared, parts, seats, &mut package, &block) {
        put_all_back(shared.hall, parts, package);
        return Settled::Stopped;
    }
    calls::put(shared.hall, &mut parts.pass, package, Place::Done);
    Settled::Ended
}
