//! All workers of a run, in parallel.

ghost use Rattle.std.specs.Prelude.{◌<◌, None, IfOk, length, map};
ghost use denote.Param.Send.{IsSend, IsSync};
ghost use Rattle.tc_workers.specs.Worker.{IsAtWork, view_of};
ghost use Rattle.tc_workers.specs.Turns.{HasWorked, IsFinished};
ghost use Rattle.tc_workers.specs.Crew.{AreAtWork, AreForHire, AreHired, HaveFinished, IsForHire, IsHired};

use crate::bell::Bell;
use crate::finished::Finished;
use crate::gate::Gate;
use crate::work::work;
use crate::worker::Worker;
use std::alloc::{AllocError, Global};
use std::sync::Wait;
use std::thread::{Threads, join};
use tc_combiner::{Bench, Desk};
use tc_hall::pass::Pass;
use tc_order::Order;
use tc_park::Sleepers;
use tc_ready::Ready;

/// The worker of the pass, who has not begun.
fn hire_one<Q: Order>(
    alloc: Global,
    bench: &Bench<'_, Q>,
    pass: Pass,
    seats: Vec<Q::Seat>,
    ready: Ready,
) -> Result<Worker<Q>, AllocError>
    requires { IsForHire bench.now pass (map Q.seen seats.items) ready }
    ensures { IfOk result (λ w. IsHired bench.now pass.knows.worker (map Q.seen seats.items)
        ready (view_of w)) }
{
    let sleepers = Sleepers::new(alloc, bench.image.threads())?;
    let desk = Desk::new(pass, seats, sleepers);
    Ok(Worker { desk, ready })
}

/// A worker for each pass, not started, with its row of seats and its ready threads. The one with
/// the greatest number comes first.
pub fn hire<Q: Order>(
    alloc: Global,
    bench: &Bench<'_, Q>,
    mut passes: Vec<Pass>,
    mut seats: Vec<Vec<Q::Seat>>,
    mut crew: Vec<Ready>,
) -> Result<Vec<Worker<Q>>, AllocError>
    requires { AreForHire bench.now (λ row. map Q.seen row.items) passes.items seats.items
        crew.items }
    ensures { IfOk result (λ ws. AreHired bench.now (map (λ row. map Q.seen row.items) seats.items)
        crew.items (length passes.items) (map view_of ws.items)) }
{
    let mut workers = Vec::with_capacity(alloc, passes.len())?;
    for hired in 0..passes.len() {
        let Some(pass) = passes.pop() else {
            unreachable!();
        };
        let Some(row) = seats.pop() else {
            unreachable!();
        };
        let Some(ready) = crew.pop() else {
            unreachable!();
        };
        let worker = hire_one(alloc, bench, pass, row, ready)?;
        workers.push_reserved(worker);
    }
    Ok(workers)
}

/// Runs the worker once all have begun, and rings the bell for those who sleep when it has ended.
fn serve<R: Wait, G: Gate, Q: Order>(
    rt: &R,
    bench: &Bench<'_, Q>,
    gate: &G,
    bell: &Bell,
    worker: Worker<Q>,
) -> Finished
    requires work { IsAtWork bench.now None (view_of worker) }
    ensures finished { IsFinished bench.now.hall.terms worker.desk.pass result.pass result.all_done }
    ensures worked { HasWorked bench.now (view_of worker) result.pass result.all_done }
{
    bell.wait(rt);
    let finished = work(rt, bench, gate, bell, worker);
    bell.leave();
    finished
}

/// Runs the workers in parallel until all have ended, and joins their passes into one. All is done
/// if each of them saw so; after a stop none does.
/// The caller starts one thread after another and works last itself, so that no new thread has to wait for
/// a thread that is already at work.
#[cycle(crew)]
pub fn together<R: Threads + Wait + Sync, G: Gate, Q: Order>(
    rt: &R,
    bench: &Bench<'_, Q>,
    gate: &G,
    bell: &Bell,
    mut crew: Vec<Worker<Q>>,
) -> Finished
where
    Q::Place: Send,
    requires some { 0 < length crew.items }
    requires work { AreAtWork bench.now crew.items }
    ensures { HaveFinished bench.now (map view_of crew.items) result.pass result.all_done }
{
    let Some(worker) = crew.pop() else {
        unreachable!();
    };
    if crew.is_empty() {
        return serve(rt, bench, gate, bell, worker);
    }
    let others = move || -> Finished
        requires { (0 < length crew.items) × AreAtWork bench.now crew.items }
        ensures { HaveFinished bench.entry.now (map view_of crew.items) result.pass result.all_done }
    { together(rt, bench, gate, bell, crew) };
    let own = move || -> Finished
        requires { IsSync R.row × IsSync G.row × IsSync Q.row × IsSend Q.Seat.row × IsSend Q.Place.row × IsAtWork bench.now None (view_of worker) }
        ensures { IsFinished bench.entry.now.hall.terms worker.desk.pass result.pass result.all_done × HasWorked bench.entry.now (view_of worker) result.pass result.all_done }
    { serve(rt, bench, gate, bell, worker) };
    let (own, rest) = join(rt, own, others);
    let Finished { mut pass, all_done } = own;
    let Finished {
        pass: other,
        all_done: others_done,
    } = rest;
    bench.hall.join(&mut pass, other);
    Finished {
        pass,
        all_done: all_done && others_done,
    }
}
