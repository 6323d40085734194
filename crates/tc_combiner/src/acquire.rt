//! What `acquire` does, and how packages are put back when the run was stopped.

ghost use Rattle.std.specs.Prelude.{◌≡◌, ◌<◌, [], ◌∷◌, ◌++◌, None};
ghost use Rattle.tc_turn.specs.Turn.{is_running};
ghost use Rattle.tc_hall.specs.Rule.{threads};
ghost use Rattle.tc_hall.specs.Standing.{turn_by};
ghost use Rattle.tc_hall.specs.Steps.{HasStop, put_call};
ghost use Rattle.tc_hall.specs.Outs.{Pack};
ghost use Rattle.tc_combiner.specs.Packages.{IsPlain};
ghost use Rattle.tc_combiner.specs.Walks.{packed, Acts, IsAtHall};
ghost use Rattle.tc_combiner.specs.Answers.{Acquires, BeginsAs, DidFirst, MayAsk, MayPutBack, carried};
ghost use Rattle.tc_combiner.specs.Answers.{PutAllBack, place_back, MayGetFirst, next_turn};
ghost use Rattle.tc_queue.specs.Lines.{Enter, Entered};
ghost use Rattle.tc_combiner.specs.Change.{change};
ghost use Rattle.tc_combiner.specs.Stances.{EnteredAs, IfGot, IfRuns, KnowsLines};
ghost use Rattle.tc_combiner.specs.View.{IsSeatFor};

use crate::calls;
use crate::parts::DeskParts;
use crate::settled::Settled;
use crate::waits::await_lock;
use std::sync::Wait;
use tc_context::package::Package;
use tc_hall::hall::Hall;
use tc_hall::pass::Pass;
use tc_hall::place::Place;
use tc_journal::block::Kind;
use tc_order::Order;
use tc_queue::{Arrival, Turn};
use tc_turn::status::Status;

/// Whether the package's thread has not ended.
fn is_running(package: &Package) -> bool
    ensures { result ≡ is_running «package».now.context.guest.status }
{
    matches!(package.status(), Status::Running)
}

/// Puts a package back, as ready or, if its thread has ended, as done.
fn put_back(hall: &Hall, pass: &mut Pass, package: Package)
    requires may { MayPutBack hall.now pass.old «package» }
    requires stop { HasStop pass.old.knows }
    ensures { Acts (put_call «package» (place_back «package») ∷ []) (Pack «package» ∷ []) []
        pass.old pass.new }
{
    if is_running(&package) {
        calls::put(hall, pass, package, Place::Ready);
        return;
    }
    calls::put(hall, pass, package, Place::Done);
}

/// Puts back the current package and the one set aside, and offers no thread as ready.
pub(crate) fn put_all_back(hall: &Hall, parts: &mut DeskParts, package: Package)
    requires parts { IsAtHall hall.now (Pack «package» ∷ packed parts.old.aside) parts.old }
    requires plain { IsPlain (threads hall.now.terms) «package» }
    requires stop { HasStop parts.old.pass.knows }
    ensures { PutAllBack «package» (change parts.old parts.new) }
{
    parts.ready.clear();
    put_back(hall, &mut parts.pass, package);
    if let Some(other) = parts.aside.take() {
        put_back(hall, &mut parts.pass, other);
    }
}

/// Takes the lock for a turn that is first in its queue. None: the run was stopped.
/// Always inlined, as `acquire_at` is.
#[inline(always)]
fn acquire_first<R: Wait>(
    rt: &R,
    hall: &Hall,
    parts: &mut DeskParts,
    mut package: Package,
    lock: u32,
    number: u64,
) -> Option<Package>
    requires parts { IsAtHall hall.now (Pack «package» ∷ packed parts.old.aside) parts.old }
    requires may { MayGetFirst hall.now.terms lock number «package» }
    requires lines { EnteredAs hall.now.terms parts.old.pass.knows lock
        (turn_by «package».context.thread number) None (Pack «package» ∷ packed parts.old.aside) }
    ensures first { DidFirst hall.now.terms lock number «package» (change parts.old parts.new) result }
    ensures lines { IfGot result (λ r. KnowsLines hall.now.terms parts.new.pass.knows
        (Pack r ∷ packed parts.new.aside)) }
{
    match await_lock(rt, hall, &mut parts.pass, lock) {
        Some(state) => {
            package.grant(state, Kind::Taken, number);
            Some(package)
        }
        None => {
            put_all_back(hall, parts, package);
            None
        }
    }
}

/// What `acquire` does, with what it needs of the desk.
/// Always inlined, as `acquire_at` is.
#[inline(always)]
pub(crate) fn acquire_with<R: Wait, Q: Order>(
    rt: &R,
    hall: &Hall,
    parts: &mut DeskParts,
    queue: &Q,
    seat: &mut Q::Seat,
    mut package: Package,
    lock: u32,
) -> Settled
    requires line { Q.fits queue.now hall.now × Q.of queue.now lock }
    requires parts { IsAtHall hall.now (Pack «package» ∷ packed parts.old.aside) parts.old }
    requires lines { KnowsLines hall.now.terms parts.old.pass.knows
        (Pack «package» ∷ packed parts.old.aside) }
    requires may { MayAsk hall.now.terms lock «package» }
    requires seat { IsSeatFor (threads hall.now.terms) (Q.queue queue.now) (Q.seen seat.old) }
    ensures acquired { Acquires hall.now.terms lock «package»
        (change (Q.seen seat.old) (Q.seen seat.new)) (change parts.old parts.new) result }
    // So it enters before it takes the lock: both are told to the pass.
    ensures enters { (a : Entered) × BeginsAs (Q.notes queue.now (Enter (next_turn «package») a))
        parts.old.pass parts.new.pass }
    ensures lines { IfRuns result (KnowsLines hall.now.terms parts.new.pass.knows
        (carried result ++ packed parts.new.aside)) }
{
    package.keeps();
    let own = Turn {
        number: package.next_number(),
        thread: package.thread(),
    };
    match queue.enter(hall, &mut parts.pass, seat, own) {
        Arrival::First => match acquire_first(rt, hall, parts, package, lock, own.number) {
            Some(package) => Settled::GoesOn(package),
            None => Settled::Stopped,
        },
        Arrival::Behind(place) => {
            calls::ship(hall, &mut parts.pass, package, lock);
            queue.link(hall, &mut parts.pass, seat, place, own);
            Settled::Shipped
        }
    }
}
