//! Runs with the queues of tc_nodes, by workers that belong to NUMA nodes.

ghost use Rattle.std.specs.Prelude.{◌≡◌, ◌≤◌, ◌%◌, All, IfOk, length, map};
ghost use Rattle.tc_main.specs.Orders.{AreOnNodes};
ghost use Rattle.tc_main.specs.declared.policy.TheConstants.{MAX_PASSES as MOST};
ghost use Rattle.tc_nodes.specs.Lines.{queue_as, seat_as};
ghost use Rattle.tc_isa.specs.declared.limits.TheConstants.{MAX_WORKERS};
ghost use Rattle.tc_workers.specs.Crew.{AreQueues, AreSeatsOf};
ghost use Rattle.tc_workers.specs.Run.{IsWholeRun};

use std::alloc::{AllocError, Global};
use std::sync::Wait;
use std::thread::Threads;
use tc_elf::image::Image;
use tc_hall::closed::Closed;
use tc_isa::options::Options;
use tc_nodes::{NodeQueue, NodeSeat};
use tc_workers::gate::Gate;
use tc_workers::lines::{Lines, deal, empty_rows};
use tc_workers::run_with;

/// The queues of the image's locks, with seats for so many workers: a worker's seats are on the
/// node of its number modulo the number of nodes.
fn line_up_nodes(
    alloc: Global,
    image: &Image,
    workers: u32,
    nodes: u32,
    bound: u32,
) -> Result<Lines<NodeQueue, NodeSeat>, AllocError>
    requires workers { workers ≤ MAX_WORKERS }
    requires nodes { (1 ≤ nodes) × (nodes ≤ workers) }
    requires bound { bound ≤ MOST }
    ensures queues { IfOk result (λ lines. AreQueues image.now (map queue_as lines.queues.items)) }
    ensures bound { IfOk result (λ lines. All (λ q. q.bound ≡ bound) lines.queues.items) }
    ensures count { IfOk result (λ lines. length lines.rows.items ≡ workers) }
    ensures rows { IfOk result (λ lines. All (λ row. AreSeatsOf (map queue_as lines.queues.items)
        (map seat_as row.items)) lines.rows.items) }
    ensures nodes { IfOk result (λ lines. AreOnNodes nodes (λ row. row.items) lines.rows.items) }
{
    let mut queues = Vec::with_capacity(alloc, image.guards() as usize)?;
    let mut rows = empty_rows(alloc, workers)?;
    for lock in 0..image.guards() {
        let (queue, seats) = NodeQueue::new(alloc, image.threads(), workers, nodes, bound)?;
        deal(&mut rows, seats)?;
        queues.push_reserved(queue);
    }
    Ok(Lines { queues, rows })
}

/// Runs the threads of an image to their ends, by so many workers in parallel, each on the node of
/// its number modulo the number of nodes. It may wait, as a desk may.
///
/// Its only error is that memory ran out.
pub(crate) fn run_nodes<R: Threads + Wait + Sync, G: Gate>(
    rt: &R,
    alloc: Global,
    image: &Image,
    nodes: u32,
    bound: u32,
    options: Options,
    gate: &G,
) -> Result<Closed, AllocError>
    requires nodes { (1 ≤ nodes) × (nodes ≤ options.workers) }
    requires bound { bound ≤ MOST }
    ensures { IfOk result (λ closed. IsWholeRun image.now options closed) }
{
    let Lines { queues, rows } = line_up_nodes(alloc, image, options.workers, nodes, bound)?;
    run_with(rt, alloc, image, options, queues, rows, gate)
}
