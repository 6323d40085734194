//! How a worker without a package finds one.

ghost use Rattle.std.specs.Prelude.{◌≡◌, ◌<◌, None};
ghost use Rattle.tc_hall.specs.Rule.{threads};
ghost use Rattle.tc_park.specs.Order.{NoneSleeps};
ghost use Rattle.tc_workers.specs.Search.{Chooses, Finds, IsPause, IsSearch, IsTakenUp, IsTry, MaySearch};
ghost use Rattle.tc_workers.specs.Worker.{DeskSteps, HasClaimed, IsAtWork, IsIdle, WorkerSteps, view_of};

use crate::calls;
use crate::gate::{Gate, Point};
use crate::idling::Idling;
use crate::leave::leave;
use crate::step::Step;
use crate::worker::Worker;
use tc_combiner::{Bench, Desk};
use tc_context::package::Package;
use tc_hall::place::Origin;
use tc_order::Order;

/// The number of the desk's worker.
pub(crate) fn number<Q: Order>(desk: &mut Desk<Q>) -> u32
    ensures number { result ≡ desk.old.pass.knows.worker }
    ensures same { desk.new ≡ desk.old }
{
    desk.pass().worker()
}

/// Goes on with a package that was claimed. One that is pinned to one worker comes from a stop, which
/// the worker sees then: it puts the package back.
fn take_up<Q: Order>(bench: &Bench<'_, Q>, desk: &mut Desk<Q>, package: Package) -> Step
    requires claimed { HasClaimed bench.now «package» desk.old }
    ensures steps { DeskSteps bench.now desk.old desk.new result }
    ensures taken { IsTakenUp desk.old desk.new «package» result }
    ensures rest { desk.new ≡ record desk.old { pass = desk.new.pass } }
{
    if !package.is_pinned() {
        return Step::On(Some(package));
    }
    if calls::sees_stop(bench, desk) {
        leave(bench, desk, Some(package));
        return Step::Stopped;
    }
    unreachable!()
}

/// Claims a thread that another worker may have claimed meanwhile.
pub fn try_claim<G: Gate, Q: Order>(
    bench: &Bench<'_, Q>,
    gate: &G,
    desk: &mut Desk<Q>,
    t: u32,
    from: Origin,
) -> Step
    requires idle { IsIdle bench.now desk.old }
    requires thread { t < threads bench.now.hall.terms }
    ensures steps { DeskSteps bench.now desk.old desk.new result }
    ensures tried { IsTry from t desk.old.pass.knows desk.new.pass.knows result }
    ensures rest { desk.new ≡ record desk.old { pass = desk.new.pass } }
{
    match bench.hall.claim(desk.pass(), t, from) {
        Ok(package) => {
            gate.at(number(desk), Point::Claimed(t));
            take_up(bench, desk, package)
        }
        Err(_) => Step::On(None),
    }
}

/// There is nothing to do and nobody sleeps: ends where each thread is seen to have ended, and else asks
/// for a pause before the next step.
fn end_or_pause<Q: Order>(bench: &Bench<'_, Q>, idling: &mut Idling<'_>, desk: &mut Desk<Q>) -> Step
    requires idle { IsIdle bench.now desk.old }
    requires sleepers { NoneSleeps desk.old.sleepers }
    ensures steps { DeskSteps bench.now desk.old desk.new result }
    ensures pause { IsPause (threads bench.now.hall.terms) desk.old desk.new result }
{
    if calls::all_done(bench.hall, desk.pass(), bench.image.threads()) {
        return Step::AllDone;
    }
    idling.ask();
    Step::On(None)
}

/// There is nothing to do: moves the clock to the first sleeper.
fn idle<Q: Order>(bench: &Bench<'_, Q>, idling: &mut Idling<'_>, desk: &mut Desk<Q>) -> Step
    requires idle { IsIdle bench.now desk.old }
    ensures steps { DeskSteps bench.now desk.old desk.new result }
    ensures pause { IsPause (threads bench.now.hall.terms) desk.old desk.new result }
{
    let now = desk.now();
    match desk.sleepers().least() {
        None => end_or_pause(bench, idling, desk),
        Some(due) => {
            desk.advance(due.max(now));
            Step::On(None)
        }
    }
}

/// The thread that the worker tries next, and where: a sleeper that is due, else one that is ready.
fn choose<Q: Order>(
    bench: &Bench<'_, Q>,
    idling: &mut Idling<'_>,
    worker: &mut Worker<Q>,
) -> Option<(u32, Origin)>
    requires { MaySearch bench.now (view_of worker.old) }
    ensures { Chooses bench.now (view_of worker.old) (view_of worker.new) result }
{
    let now = worker.desk.now();
    if let Some(t) = worker.desk.sleepers().due(now) {
        idling.found_sleeper();
        return Some((t, Origin::Parked));
    }
    let t = worker.ready.next(bench.hall, worker.desk.pass())?;
    idling.found_ready();
    Some((t, Origin::Ready))
}

/// Tries the next thread, where there is one, else idles.
fn seek<G: Gate, Q: Order>(
    bench: &Bench<'_, Q>,
    gate: &G,
    idling: &mut Idling<'_>,
    worker: &mut Worker<Q>,
) -> Step
    requires { MaySearch bench.now (view_of worker.old) }
    ensures steps { WorkerSteps bench.now (view_of worker.old) (view_of worker.new) result }
    ensures search { IsSearch (threads bench.now.hall.terms) (view_of worker.old) (view_of worker.new) result }
{
    match choose(bench, idling, worker) {
        None => idle(bench, idling, &mut worker.desk),
        Some((t, from)) => try_claim(bench, gate, &mut worker.desk, t, from),
    }
}

/// Goes on with the package that is set aside, else with a sleeper that is due, else with a thread
/// that is ready. Where there is none, a pause is asked for.
pub(crate) fn find<G: Gate, Q: Order>(
    bench: &Bench<'_, Q>,
    gate: &G,
    idling: &mut Idling<'_>,
    worker: &mut Worker<Q>,
) -> Step
    requires work { IsAtWork bench.now None (view_of worker.old) }
    ensures steps { WorkerSteps bench.now (view_of worker.old) (view_of worker.new) result }
    ensures found { Finds bench.now worker.old.desk.aside (view_of worker.old) (view_of worker.new) result }
{
    match worker.desk.back() {
        None => seek(bench, gate, idling, worker),
        Some(package) => Step::On(Some(package)),
    }
}
