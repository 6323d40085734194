//! What `settle` does after an unlock.

ghost use Rattle.std.specs.Prelude.{◌≡◌, ◌≢◌, ◌∷◌, ◌++◌, true, false};
ghost use Rattle.tc_hall.specs.Rule.{threads};
ghost use Rattle.tc_hall.specs.Outs.{Pack};
ghost use Rattle.tc_combiner.specs.Packages.{HoldsNone, IsAside, MayGoOn};
ghost use Rattle.tc_combiner.specs.Walks.{packed, MayAct};
ghost use Rattle.tc_context.specs.View.{PackageView};
ghost use Rattle.tc_combiner.specs.Answers.{Goes, PutsAside, carried};
ghost use Rattle.tc_combiner.specs.Stances.{IfRuns, KnowsLines};
ghost use Rattle.tc_combiner.specs.Release.{MayUnlock, Unlocks};
ghost use Rattle.tc_combiner.specs.Change.{change};
ghost use Rattle.tc_combiner.specs.View.{IsSeatFor};

use crate::acquire::put_all_back;
use crate::calls;
use crate::parts::DeskParts;
use crate::passed::{Passed, Released};
use crate::release::pass_on;
use crate::settled::Settled;
use std::sync::Wait;
use tc_context::package::Package;
use tc_hall::hall::Hall;
use tc_hall::place::Place;
use tc_nested::first_release;
use tc_order::Order;

/// Whether the package holds no lock.
fn holds_none(package: &Package) -> bool
    ensures none { result ≡ true → HoldsNone «package».now }
    ensures some { result ≡ false → HoldsNone «package».now → ⊥ }
{
    first_release(package.held()).is_none()
}

/// The package goes on. An adopted one that holds no lock is given back, and the one that was set
/// aside goes on.
fn resume(hall: &Hall, parts: &mut DeskParts, package: Package) -> Settled
    requires parts { MayAct hall.now (Pack «package» ∷ packed parts.old.aside) 1 parts.old }
    requires may { MayGoOn hall.now.terms «package» }
    requires lines { KnowsLines hall.now.terms parts.old.pass.knows
        (Pack «package» ∷ packed parts.old.aside) }
    ensures lines { IfRuns result (KnowsLines hall.now.terms parts.new.pass.knows
        (carried result ++ packed parts.new.aside)) }
    ensures goes { Goes hall.now.terms «package» (change parts.old parts.new) result }
{
    if !holds_none(&package) {
        return Settled::GoesOn(package);
    }
    match parts.aside.take() {
        None => Settled::GoesOn(package),
        Some(other) => {
            parts.ready.push(package.thread());
            calls::put(hall, &mut parts.pass, package, Place::Ready);
            Settled::GoesOn(other)
        }
    }
}

/// Sets the package aside, or gives it back if one is set aside already.
fn set_aside(hall: &Hall, parts: &mut DeskParts, package: Package)
    requires parts { MayAct hall.now (Pack «package» ∷ packed parts.old.aside) 1 parts.old }
    requires may { IsAside hall.now.terms «package» }
    requires lines { (q : PackageView) × KnowsLines hall.now.terms parts.old.pass.knows
        (Pack q ∷ Pack «package» ∷ packed parts.old.aside) × (q.context.thread ≢ «package».context.thread) }
    ensures lines { (q : PackageView) → KnowsLines hall.now.terms parts.old.pass.knows
        (Pack q ∷ Pack «package» ∷ packed parts.old.aside) → q.context.thread ≢ «package».context.thread
        → KnowsLines hall.now.terms parts.new.pass.knows (Pack q ∷ packed parts.new.aside) }
    ensures set { PutsAside hall.now.terms «package» (change parts.old parts.new) }
{
    if parts.aside.is_some() {
        parts.ready.push(package.thread());
        calls::put(hall, &mut parts.pass, package, Place::Ready);
        return;
    }
    parts.aside = Some(package);
}

/// What `settle` does at an unlock.
pub(crate) fn unlocked_with<R: Wait, Q: Order>(
    rt: &R,
    hall: &Hall,
    parts: &mut DeskParts,
    queue: &Q,
    seat: &mut Q::Seat,
    mut package: Package,
    released: Released<'_>,
) -> Settled
    requires line { Q.fits queue.now hall.now × Q.of queue.now released.lock }
    requires parts { MayAct hall.now (Pack «package» ∷ packed parts.old.aside) 2 parts.old }
    requires may { MayUnlock hall.now.terms parts.old.pass.knows released.lock
        released.block.now «package» }
    requires seat { IsSeatFor (threads hall.now.terms) (Q.queue queue.now) (Q.seen seat.old) }
    requires lines { KnowsLines hall.now.terms parts.old.pass.knows
        (Pack «package» ∷ packed parts.old.aside) }
    ensures lines { IfRuns result (KnowsLines hall.now.terms parts.new.pass.knows
        (carried result ++ packed parts.new.aside)) }
    ensures unlocks { Unlocks hall.now.terms released.entry.lock released.entry.block.now «package»
        (change (Q.seen seat.old) (Q.seen seat.new)) (change parts.old parts.new) result }
{
    package.keeps();
    match pass_on(rt, hall, parts, queue, seat, &mut package, released) {
        Passed::Home => resume(hall, parts, package),
        Passed::Granted => resume(hall, parts, package),
        Passed::Adopted(waiter) => {
            set_aside(hall, parts, package);
            Settled::Adopted(waiter)
        }
        Passed::Stopped => {
            put_all_back(hall, parts, package);
            Settled::Stopped
        }
    }
}
