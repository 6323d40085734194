//! A worker's work: its steps, until it ends.

ghost use Rattle.std.specs.ControlFlow.{MatchControlFlow};
ghost use Rattle.std.specs.Prelude.{◌≡◌, Some, None};
ghost use Rattle.tc_workers.specs.declared.step.Step.TheVariants.{On};
ghost use Rattle.tc_workers.specs.Worker.{HasLeft, IsAtWork, WorkerSteps, view_of};
ghost use Rattle.tc_workers.specs.Turns.{Begins, HasBegun, HasWorked, IsFinished, MakesStep, TakesStep};

use crate::bell::Bell;
use crate::calls;
use crate::find::find;
use crate::finished::Finished;
use crate::gate::Gate;
use crate::idling::Idling;
use crate::leave::leave;
use crate::step::Step;
use crate::step_with::step_with;
use crate::worker::Worker;
use std::ops::ControlFlow;
use std::ops::ControlFlow::{Break, Continue};
use std::sync::Wait;
use tc_combiner::Bench;
use tc_context::package::Package;
use tc_order::Order;

/// Begins a step: looks at STOP, and continues with the package in hand. Where the worker has none, or
/// sees the stop, this is the whole step: it finds one, or leaves.
/// Always inlined into `begin`, which calls it twice.
#[inline(always)]
fn begin_step<G: Gate, Q: Order>(
    bench: &Bench<'_, Q>,
    gate: &G,
    idling: &mut Idling<'_>,
    worker: &mut Worker<Q>,
    hand: Option<Package>,
) -> ControlFlow<Step, Package>
    requires work { IsAtWork bench.now hand (view_of worker.old) }
    ensures steps { MatchControlFlow result
        (λ p. WorkerSteps bench.now (view_of worker.old) (view_of worker.new) (On (Some «p»)))
        (λ s. WorkerSteps bench.now (view_of worker.old) (view_of worker.new) s) }
    ensures takes { MatchControlFlow result (λ p. HasBegun hand «p» (view_of worker.old) (view_of worker.new))
        (λ s. TakesStep bench.now hand (view_of worker.old) (view_of worker.new) s) }
{
    if calls::sees_stop(bench, &mut worker.desk) {
        leave(bench, &mut worker.desk, hand);
        return Break(Step::Stopped);
    }
    match hand {
        None => Break(find(bench, gate, idling, worker)),
        Some(package) => Continue(package),
    }
}

/// Begins a step. Where it finds a package, that is a whole step, and the next one is begun with it at
/// once, unless a pause was asked for: so most steps cost no turn of the worker's loop.
fn begin<G: Gate, Q: Order>(
    bench: &Bench<'_, Q>,
    gate: &G,
    idling: &mut Idling<'_>,
    worker: &mut Worker<Q>,
    hand: Option<Package>,
) -> ControlFlow<Step, Package>
    requires work { IsAtWork bench.now hand (view_of worker.old) }
    ensures { Begins bench.now hand (view_of worker.old) (view_of worker.new) result }
{
    match begin_step(bench, gate, idling, worker, hand) {
        Continue(package) => Continue(package),
        Break(Step::On(Some(package))) => {
            if idling.is_asked() {
                return Break(Step::On(Some(package)));
            }
            begin_step(bench, gate, idling, worker, Some(package))
        }
        Break(Step::On(None)) => Break(Step::On(None)),
        Break(step) => Break(step),
    }
}

/// Makes a step, or two. Where a pause was asked for, the worker pauses after it.
fn make_step<R: Wait, G: Gate, Q: Order>(
    rt: &R,
    bench: &Bench<'_, Q>,
    gate: &G,
    idling: &mut Idling<'_>,
    worker: &mut Worker<Q>,
    hand: Option<Package>,
) -> Step
    requires work { IsAtWork bench.now hand (view_of worker.old) }
    ensures { MakesStep bench.now hand (view_of worker.old) (view_of worker.new) result }
{
    match begin(bench, gate, idling, worker, hand) {
        Continue(package) => step_with(rt, bench, gate, worker, package),
        Break(step) => {
            if idling.is_asked() {
                idling.pause(rt, worker.desk.now());
            }
            step
        }
    }
}

/// What the end of a worker gives that has left.
fn finished<Q: Order>(worker: Worker<Q>, all_done: bool) -> Finished
    requires { HasLeft worker.desk }
    ensures pass { result.pass ≡ worker.desk.pass }
    ensures done { result.all_done ≡ all_done }
{
    let Worker { desk, ready: _ } = worker;
    let (pass, _) = desk.finish();
    Finished { pass, all_done }
}

/// Runs the worker until it has seen every thread Done, or the run is stopped. It may wait, for a
/// lock, for a waiter, and for other workers to finish their packages.
pub fn work<R: Wait, G: Gate, Q: Order>(
    rt: &R,
    bench: &Bench<'_, Q>,
    gate: &G,
    bell: &Bell,
    mut worker: Worker<Q>,
) -> Finished
    requires work { IsAtWork bench.now None (view_of worker) }
    ensures finished { IsFinished bench.now.hall.terms worker.desk.pass result.pass result.all_done }
    ensures worked { HasWorked bench.now (view_of worker) result.pass result.all_done }
{
    let mut idling = Idling::new(bell);
    let mut hand = None;
    for _ in rt.forever() {
        match make_step(rt, bench, gate, &mut idling, &mut worker, hand) {
            Step::On(next) => hand = next,
            Step::AllDone => return finished(worker, true),
            Step::Stopped => return finished(worker, false),
        }
    }
    unreachable!()
}
