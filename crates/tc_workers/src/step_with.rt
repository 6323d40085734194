//! A worker's step with a current package.

ghost use Rattle.std.specs.Prelude.{◌≡◌, ◌<◌, Some, None, All, MatchOption, MatchResult};
ghost use Rattle.tc_context.specs.View.{IsRoomier, WantIsGranted};
ghost use Rattle.tc_hall.specs.Rule.{threads};
ghost use Rattle.tc_workers.specs.Worker.{DeskSteps, HasSealed, IsAtDesk, IsAtWork, IsStill, WorkerSteps, view_of};
ghost use Rattle.tc_workers.specs.StepWith.{Acquires, AsksForLock, GivesUp, HasOffered, HasRunBlock, MayRun, RanOne, StepsWith, step_of};

use crate::find::number;
use crate::gate::{Gate, Point};
use crate::leave::leave;
use crate::step::Step;
use crate::worker::Worker;
use std::alloc::AllocError;
use std::sync::Wait;
use tc_combiner::{Bench, Desk, Settled};
use tc_context::package::Package;
use tc_elf::image::Image;
use tc_journal::block::End;
use tc_order::Order;
use tc_ready::Ready;

/// The lock that the package wants, if it is not granted to it.
pub fn wanted_lock(package: &Package, image: &Image) -> Option<u32>
    requires { «package».now.image ≡ image.now }
    ensures { MatchOption result (WantIsGranted image.now «package».now)
        (AsksForLock «package».now) }
{
    package.keeps();
    if package.granted().is_some() {
        return None;
    }
    package.want(image)
}

/// What the worker does after its desk's answer.
pub fn next(settled: Settled) -> Step
    ensures { result ≡ step_of settled }
{
    match settled {
        Settled::GoesOn(package) => Step::On(Some(package)),
        Settled::Adopted(package) => Step::On(Some(package)),
        Settled::Shipped => Step::On(None),
        Settled::Parked => Step::On(None),
        Settled::Ended => Step::On(None),
        Settled::Stopped => Step::Stopped,
    }
}

/// Offers each of these threads. Few blocks make one ready: those that do pay for a call, and the
/// others don't.
#[inline(never)]
fn offer_all(threads: &[u32], ready: &mut Ready)
    requires known { All (λ t. t < ready.old.threads) threads.now }
    ensures { HasOffered threads.now ready.old ready.new }
{
    for t in threads {
        ready.offer(*t);
    }
}

/// Goes on by the desk's answer: tells the gate where the thread was shipped, and offers each thread
/// that the desk put as ready.
fn conclude<G: Gate>(
    gate: &G,
    worker: u32,
    t: u32,
    handed: &[u32],
    ready: &mut Ready,
    settled: Settled,
) -> Step
    requires known { All (λ t. t < ready.old.threads) handed.now }
    ensures step { result ≡ step_of settled }
    ensures offered { HasOffered handed.now ready.old ready.new }
{
    if let Settled::Shipped = &settled {
        gate.at(worker, Point::Shipped(t));
    }
    if !handed.is_empty() {
        offer_all(handed, ready);
    }
    next(settled)
}

/// Takes this lock, which the package wants, or ships the package.
fn ask_for_lock<R: Wait, G: Gate, Q: Order>(
    rt: &R,
    bench: &Bench<'_, Q>,
    gate: &G,
    worker: &mut Worker<Q>,
    package: Package,
    lock: u32,
) -> Step
    requires work { IsAtWork bench.now (Some «package») (view_of worker.old) }
    requires wants { AsksForLock «package» lock }
    ensures steps { DeskSteps bench.now worker.old.desk worker.new.desk result }
    ensures acquires { Acquires «package» worker.old.desk worker.new.desk result }
    ensures offered { HasOffered worker.new.desk.handed worker.old.ready worker.new.ready }
{
    package.keeps();
    let t = package.thread();
    let number = number(&mut worker.desk);
    let settled = worker.desk.acquire_lock(rt, bench, package, lock);
    let handed = worker.desk.handed();
    conclude(gate, number, t, handed, &mut worker.ready, settled)
}

/// Makes room for a block of the package, and runs it. It knows no queue of waiters, so that there is
/// one of it in a program, however many kinds of them there are.
fn run_one(package: &mut Package, image: &Image) -> Result<End, AllocError>
    requires may { MayRun image.now «package».old }
    ensures { MatchResult result (λ end. RanOne image.now end «package».old «package».new)
        (λ e. IsRoomier «package».old «package».new) }
{
    package.reserve()?;
    package.keeps();
    Ok(package.run_block(image))
}

/// Makes room for a block of the package, runs it and seals it.
pub fn seal_block<Q: Order>(
    bench: &Bench<'_, Q>,
    desk: &mut Desk<Q>,
    package: &mut Package,
) -> Result<End, AllocError>
    requires work { IsAtDesk bench.now (Some «package».old) desk.old }
    requires want { WantIsGranted bench.now.image «package».old }
    ensures still { IsStill desk.old.pass desk.new.pass }
    ensures sealed { MatchResult result (λ end. HasSealed bench.now end «package».new desk.new)
        (λ e. IsAtDesk bench.now (Some «package».new) desk.new) }
    ensures ran { MatchResult result (λ end. HasRunBlock bench.now.image end «package».old «package».new desk.old desk.new)
        (λ e. IsRoomier «package».old «package».new × (desk.new ≡ desk.old)) }
{
    let end = run_one(package, bench.image)?;
    desk.commit(bench, package);
    Ok(end)
}

/// Memory was refused: stops the others first, and then puts all back.
fn give_up<Q: Order>(bench: &Bench<'_, Q>, desk: &mut Desk<Q>, package: Package)
    requires work { IsAtDesk bench.now (Some «package») desk.old }
    ensures { GivesUp «package» desk.old desk.new }
{
    bench.hall.stop(desk.pass());
    leave(bench, desk, Some(package));
}

/// Acquires the lock that the package wants, where it is not granted; else runs a block of it, where
/// there is room for one, and settles it.
pub(crate) fn step_with<R: Wait, G: Gate, Q: Order>(
    rt: &R,
    bench: &Bench<'_, Q>,
    gate: &G,
    worker: &mut Worker<Q>,
    mut package: Package,
) -> Step
    requires work { IsAtWork bench.now (Some «package») (view_of worker.old) }
    ensures steps { WorkerSteps bench.now (view_of worker.old) (view_of worker.new) result }
    ensures steps_with { StepsWith bench.now.image «package» (view_of worker.old) (view_of worker.new) result }
{
    if let Some(lock) = wanted_lock(&package, bench.image) {
        return ask_for_lock(rt, bench, gate, worker, package, lock);
    }
    let t = package.thread();
    let number = number(&mut worker.desk);
    match seal_block(bench, &mut worker.desk, &mut package) {
        Ok(end) => {
            gate.at(number, Point::Committed(t, end));
            let settled = worker.desk.settle(rt, bench, package, end);
            let handed = worker.desk.handed();
            conclude(gate, number, t, handed, &mut worker.ready, settled)
        }
        Err(_) => {
            give_up(bench, &mut worker.desk, package);
            Step::Stopped
        }
    }
}
