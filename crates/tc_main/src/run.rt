//! A run of a guest, from its image to the report.

ghost use Rattle.std.specs.Prelude.{◌≡◌, ◌<◌, ◌^◌, All, IfOk, OnErr, length, map};
ghost use Rattle.std.specs.List.Sorted.{IsPermutation};
ghost use Rattle.tc_journal.specs.History.{HasEachStamp, IsInOrder};
ghost use Rattle.tc_segment.specs.View.{IsSoundLock};
ghost use Rattle.tc_report.specs.Legal.{IsLegalRun, results_after};
ghost use Rattle.tc_main.specs.Accepted.{CanAllBeAdded};
ghost use Rattle.tc_main.specs.Orders.{IsOrderFor};
ghost use Rattle.tc_report.specs.Outcome.{IsOutcome, log_in, logs_of};
ghost use Rattle.tc_main.specs.Top.{IsReportOf};
ghost use Rattle.tc_report.specs.Written.{Wrote};
ghost use Rattle.tc_workers.specs.Run.{IsWholeRun};

use crate::nodes::run_nodes;
use crate::policy::Policy;
use std::alloc::{AllocError, Global};
use std::sync::Wait;
use std::thread::Threads;
use tc_context::package::Package;
use tc_elf::image::Image;
use tc_hall::closed::Closed;
use tc_io::Sink;
use tc_isa::options::Options;
use tc_journal::block::Block;
use tc_journal::history::merge_lent;
use tc_queue::Waiters;
use tc_report::report::{tail_of, write_report};
use tc_report::written::Written;
use tc_seats::QueueMaker;
use tc_segment::state::LockState;
use tc_workers::gate::Gate;
use tc_workers::{run_all, run_made};

/// The invariant of each of the lock states. A lemma: it goes over them without effect.
fn keep(locks: &[LockState])
    ensures { All IsSoundLock locks.now }
{
    for lock in locks {
        lock.keeps();
    }
}

/// The logs of the packages.
fn logs_in(alloc: Global, packages: &[Package]) -> Result<Vec<&[Block]>, AllocError>
    ensures { IfOk result (λ logs. map (λ log. log.now) logs.items ≡ map log_in packages.now) }
{
    let mut logs = Vec::new(alloc);
    for package in packages {
        logs.push(package.log())?;
    }
    Ok(logs)
}

/// The blocks of all packages, in the order of their stamps.
fn history_of(alloc: Global, packages: &[Package]) -> Result<Vec<Block>, AllocError>
    requires { HasEachStamp (logs_of packages.now) }
    ensures blocks { IfOk result (λ history. IsPermutation (logs_of packages.now) history.items) }
    ensures order { IfOk result (λ history. IsInOrder history.items) }
{
    let logs = logs_in(alloc, packages)?;
    merge_lent(alloc, &logs)
}

/// The parameters of a run: which queues stand for `Policy::Entry`, and which observer its workers
/// call.
#[derive(Drop)]
pub(crate) struct Setting<'a, M, G> {
    /// Makes the queues. None: the waiters stand in the lines of the hall.
    pub maker: Option<&'a M>,
    pub gate: &'a G,
}

/// Runs the guest until each thread has ended, with the queues of the order.
fn run_in<R: Threads + Wait + Sync, M: QueueMaker, G: Gate>(
    rt: &R,
    alloc: Global,
    image: &Image,
    order: Policy,
    options: Options,
    setting: &Setting<'_, M, G>,
) -> Result<Closed, AllocError>
where
    <M::Queue as Waiters>::Place: Send,
    requires { IsOrderFor options.workers order }
    ensures { IfOk result (λ closed. IsWholeRun image.now options closed) }
{
    let gate = setting.gate;
    match order {
        Policy::Entry => match setting.maker {
            Some(maker) => run_made(rt, alloc, image, options, maker, gate),
            None => run_all(rt, alloc, image, options, gate),
        },
        Policy::Nodes { nodes, bound } => run_nodes(rt, alloc, image, nodes, bound, options, gate),
    }
}

/// Runs the guest until each thread has ended, and states the invariant of its lock states.
fn run_closed<R: Threads + Wait + Sync, M: QueueMaker, G: Gate>(
    rt: &R,
    alloc: Global,
    image: &Image,
    order: Policy,
    options: Options,
    setting: &Setting<'_, M, G>,
) -> Result<Closed, AllocError>
where
    <M::Queue as Waiters>::Place: Send,
    requires { IsOrderFor options.workers order }
    ensures whole { IfOk result (λ closed. IsWholeRun image.now options closed) }
    ensures sound { IfOk result (λ closed. All IsSoundLock closed.locks) }
{
    let closed = run_in(rt, alloc, image, order, options, setting)?;
    keep(closed.locks());
    Ok(closed)
}

/// The result of a run to the end of every thread, and its history.
#[derive(Drop)]
pub struct WholeRun {
    /// All threads and locks, as the workers left them.
    pub closed: Closed,
    /// The blocks of all threads, in the order of their stamps.
    pub history: Vec<Block>,
}

/// Runs the guest, in the order of entry, until each thread has ended.
pub(crate) fn run_whole<R: Threads + Wait + Sync, M: QueueMaker, G: Gate>(
    rt: &R,
    alloc: Global,
    image: &Image,
    options: Options,
    setting: &Setting<'_, M, G>,
) -> Result<WholeRun, AllocError>
where
    <M::Queue as Waiters>::Place: Send,
    ensures outcome { IfOk result (λ run. IsOutcome image.now options.fuel
        run.history.items run.closed.packages run.closed.locks) }
    ensures legal { IfOk result (λ run. IsLegalRun image.now options
        (results_after image.now options.fuel run.history.items)) }
    ensures few { IfOk result (λ run. length run.history.items < 2 ^ 32) }
    ensures addable { IfOk result (λ run. CanAllBeAdded image.now run.history.items) }
{
    let _threads = image.threads();
    let closed = run_closed(rt, alloc, image, Policy::Entry, options, setting)?;
    let history = history_of(alloc, closed.packages())?;
    Ok(WholeRun { closed, history })
}

/// Runs the guest, and writes the report of the run, made of the hall after all workers have ended.
/// The final threads and locks are printed first, so that the lock states with their journals are
/// dropped before the blocks are put in order. The packages stay until the report is written: the
/// blocks are read in their logs, and are not copied.
pub(crate) fn run_report<R: Threads + Wait + Sync, M: QueueMaker, G: Gate, K: Sink>(
    rt: &R,
    alloc: Global,
    image: &Image,
    order: Policy,
    options: Options,
    setting: &Setting<'_, M, G>,
    sink: &mut K,
) -> Result<Written, AllocError>
where
    <M::Queue as Waiters>::Place: Send,
    requires { IsOrderFor options.workers order }
    ensures wrote { IfOk result (λ written. (text : _) × IsReportOf image.now options text
        × Wrote (K.stream sink.old) (K.stream sink.new) text written) }
    ensures memory { OnErr result (K.stream sink.new ≡ K.stream sink.old) }
{
    let _threads = image.threads();
    let closed = run_closed(rt, alloc, image, order, options, setting)?;
    let (packages, locks) = closed.into_parts();
    let tail = tail_of(alloc, image, &packages, &locks)?;
    drop(locks);
    let logs = logs_in(alloc, &packages)?;
    write_report(rt, alloc, image, options, &logs, &tail, sink)
}
