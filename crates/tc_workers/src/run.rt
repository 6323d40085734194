//! Whole runs.

ghost use Rattle.std.specs.Prelude.{◌≡◌, ℕ, ◌<◌, ◌≤◌, ◌*◌, true, false, All, IfOk, List};
ghost use Rattle.std.specs.Prelude.{MatchResult, length, map, min};
ghost use Rattle.tc_isa.specs.declared.limits.TheConstants.{MAX_FUEL};
ghost use Rattle.tc_elf.specs.declared.limits.TheConstants.{MAX_THREADS};
ghost use Rattle.tc_hall.specs.Made.{AreDealt, IsHallOf};
ghost use Rattle.tc_hall.specs.Closing.{IsEnd};
ghost use Rattle.tc_queue.specs.Lines.{SeatView};
ghost use Rattle.tc_order.specs.Order.{AreInOrder};
ghost use Rattle.tc_workers.specs.Crew.{AreForHire, AreLines, CrewRan, HasRun};
ghost use Rattle.tc_workers.specs.StepWith.{CanHave};
ghost use Rattle.tc_workers.specs.Machine.{IsMachineRun};
ghost use Rattle.tc_workers.specs.Run.{IsCrewsRun, IsWholeRun};

use crate::bell::Bell;
use crate::crew::{hire, together};
use crate::finished::Finished;
use crate::gate::Gate;
use crate::lines::{Lines, line_up, line_up_in_hall, set_apart};
use std::alloc::{AllocError, Global};
use std::sync::Wait;
use std::thread::Threads;
use tc_combiner::Bench;
use tc_elf::image::Image;
use tc_hall::closed::Closed;
use tc_hall::hall::Hall;
use tc_hall::pass::Pass;
use tc_isa::options::Options;
use tc_order::Order;
use tc_queue::Waiters;
use tc_ready::Ready;
use tc_seats::QueueMaker;

/// The most offers that there is room for. A deque uses each of its places once, and writes all of
/// them when it is made, before the run begins.
/// Long runs on hot locks took as long with 256 places as with 1,024, and begin sooner.
const MAX_OFFERS: u32 = 256;

/// For how many offers a worker gets room: for one for each section that the threads can have, since
/// it makes at most one for each, but no more than MAX_OFFERS. A thread that is not offered for want
/// of room is found by the look over all threads.
fn room_of(threads: u32, fuel: u32) -> u32
    requires threads { (1 ≤ threads) × (threads ≤ MAX_THREADS) }
    requires fuel { fuel ≤ MAX_FUEL }
    ensures enough { (sections : ℕ) → CanHave fuel sections
        → min (threads * sections) 256 ≤ result }
    ensures few { result ≤ 256 }
    ensures least { 1 ≤ result }
{
    (threads * (fuel / 2 + 2)).min(MAX_OFFERS)
}

/// Ends a hall whose workers have all ended. It is closed exactly where each of them saw that all is
/// done.
fn finish(hall: Hall, finished: Finished) -> Result<Closed, AllocError>
    requires { HasRun hall hall.terms.workers finished.pass finished.all_done }
    ensures end { IfOk result (λ c. IsEnd hall.terms finished.pass.knows c.packages c.locks) }
    ensures done { MatchResult result (λ c. finished.all_done ≡ true)
        (λ e. finished.all_done ≡ false) }
{
    let Finished { pass, all_done } = finished;
    if all_done {
        Ok(hall.close(pass))
    } else {
        hall.abandon(pass);
        Err(AllocError)
    }
}

/// Hires the workers at the bench, and lets them run until all have ended.
fn run_at<R: Threads + Wait + Sync, Q: Order, G: Gate>(
    rt: &R,
    alloc: Global,
    bench: &Bench<'_, Q>,
    passes: Vec<Pass>,
    seats: Vec<Vec<Q::Seat>>,
    ready: Vec<Ready>,
    gate: &G,
) -> Result<Finished, AllocError>
where
    Q::Place: Send,
    requires some { 0 < length passes.items }
    requires hire { AreForHire bench.now (λ row. map Q.seen row.items) passes.items seats.items
        ready.items }
    ensures { IfOk result (λ f. CrewRan bench.now (map (λ row. map Q.seen row.items) seats.items)
        ready.items f.pass f.all_done) }
{
    let crew = hire(alloc, bench, passes, seats, ready)?;
    let bell = Bell::new(crew.len() as u64);
    Ok(together(rt, bench, gate, &bell, crew))
}

/// Runs the threads of an image to their ends in a hall that was just made, at these lines, and
/// closes the hall.
fn run_opened<R: Threads + Wait + Sync, Q: Order + Drop, G: Gate>(
    rt: &R,
    alloc: Global,
    image: &Image,
    options: Options,
    opened: (Hall, Vec<Pass>),
    lines: Lines<Q, Q::Seat>,
    gate: &G,
) -> Result<Closed, AllocError>
where
    Q::Place: Send,
    requires hall { IsHallOf image.now options.fuel options.workers options.limit opened.0 }
    requires passes { AreDealt image.now (length image.now.entries) (length image.now.guards)
        options.workers opened.0.table opened.1.items }
    requires lines { AreLines image.now options.workers (map Q.queue lines.queues.items)
        (λ row. map Q.seen row.items) lines.rows.items }
    requires fits { All (λ q. Q.fits q opened.0) lines.queues.items }
    requires order { AreInOrder Q.of lines.queues.items }
    ensures whole { IfOk result (λ closed. IsWholeRun image.now options closed) }
    ensures crew { IfOk result (λ closed. IsCrewsRun image.now options
        (map (λ row. map Q.seen row.items) lines.rows.items) closed) }
    ensures runs { opened.0.terms.lined ≡ true → IfOk result (λ closed. IsMachineRun image.now
        options (map (λ row. map Q.seen row.items) lines.rows.items) closed) }
{
    let (hall, passes) = opened;
    let Lines { queues, rows } = lines;
    let threads = image.threads();
    let room = room_of(threads, options.fuel);
    let ready = Ready::crew(alloc, options.workers, threads, room)?;
    let bench = Bench {
        image,
        hall: &hall,
        queues: queues.as_slice(),
    };
    let finished = run_at(rt, alloc, &bench, passes, rows, ready, gate)?;
    finish(hall, finished)
}

/// Runs the threads of an image to their ends, by so many workers in parallel, with these queues of
/// waiters: one for each lock, and for each worker a list with one seat of each. Each thread has
/// the fuel, and the batch limit is that of the options. It may wait, as a desk may.
///
/// No place leaves its thread. `Send` is required of it since a worker goes to its thread as a whole, and the
/// type of a worker names the queue and with it the place.
///
/// Its only error is that memory ran out.
pub fn run_with<R: Threads + Wait + Sync, Q: Waiters + Drop, G: Gate>(
    rt: &R,
    alloc: Global,
    image: &Image,
    options: Options,
    queues: Vec<Q>,
    seats: Vec<Vec<Q::Seat>>,
    gate: &G,
) -> Result<Closed, AllocError>
where
    Q::Place: Send,
    requires { AreLines image.now options.workers (map Q.queue queues.items)
        (λ row. map Q.seen row.items) seats.items }
    ensures whole { IfOk result (λ closed. IsWholeRun image.now options closed) }
    ensures crew { IfOk result (λ closed. IsCrewsRun image.now options
        (map (λ row. map Q.seen row.items) seats.items) closed) }
{
    let queues = set_apart(alloc, queues)?;
    let (fuel, workers) = (options.fuel, options.workers);
    let opened = Hall::new(alloc, image, fuel, workers, options.limit)?;
    let lines = Lines {
        queues,
        rows: seats,
    };
    run_opened(rt, alloc, image, options, opened, lines, gate)
}

/// Runs the threads of an image to their ends, by so many workers in parallel, with the maker's
/// queues. Each thread has the fuel, and the batch limit is that of the options. It may wait, as a
/// desk may.
///
/// Its only error is that memory ran out.
pub fn run_made<R: Threads + Wait + Sync, M: QueueMaker, G: Gate>(
    rt: &R,
    alloc: Global,
    image: &Image,
    options: Options,
    maker: &M,
    gate: &G,
) -> Result<Closed, AllocError>
where
    <M::Queue as Waiters>::Place: Send,
    ensures whole { IfOk result (λ closed. IsWholeRun image.now options closed) }
    ensures crew { IfOk result (λ closed. (rows : List (List SeatView))
        × IsCrewsRun image.now options rows closed) }
{
    let Lines { queues, rows } = line_up(alloc, image, options.workers, maker)?;
    run_with(rt, alloc, image, options, queues, rows, gate)
}

/// Runs the threads of an image to their ends, by so many workers in parallel, in the order of
/// entry: the waiters stand in the lines of the hall. The workers' steps, in their one order, are a
/// run of the abstract machine, which writes the history. Each thread has the fuel, and the batch limit
/// is that of the options. It may wait, as a desk may.
///
/// Its only error is that memory ran out.
pub fn run_all<R: Threads + Wait + Sync, G: Gate>(
    rt: &R,
    alloc: Global,
    image: &Image,
    options: Options,
    gate: &G,
) -> Result<Closed, AllocError>
    ensures whole { IfOk result (λ closed. IsWholeRun image.now options closed) }
    ensures crew { IfOk result (λ closed. (rows : List (List SeatView))
        × IsCrewsRun image.now options rows closed) }
    ensures runs { IfOk result (λ closed. (rows : List (List SeatView))
        × IsMachineRun image.now options rows closed) }
{
    let (fuel, workers) = (options.fuel, options.workers);
    let opened = Hall::with_lines(alloc, image, fuel, workers, options.limit)?;
    let lines = line_up_in_hall(alloc, image, workers)?;
    run_opened(rt, alloc, image, options, opened, lines, gate)
}
