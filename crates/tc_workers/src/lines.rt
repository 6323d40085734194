//! The queues of all locks, and their seats.

ghost use Rattle.std.specs.Prelude.{◌≡◌, ◌≤◌, [], All, IfOk, OnOk, length, map};
ghost use Rattle.tc_queue.specs.Lines.{seat_as};
ghost use Rattle.tc_workers.specs.Crew.{AreLines};
ghost use Rattle.tc_workers.specs.Rows.{AreDealtOut, AreInPlace};

use std::alloc::{AllocError, Global};
use tc_elf::image::Image;
use tc_order::{Apart, InHall};
use tc_queue::Waiters;
use tc_seats::{NotedSeat, QueueMaker};

/// A queue for each lock, in order of number, and for each worker a row with a seat at each queue.
#[derive(Drop)]
pub struct Lines<Q: Drop, S: Drop> {
    /// The queues, in order of lock.
    pub queues: Vec<Q>,
    /// The rows, in order of worker. A row has its seats in order of lock.
    pub rows: Vec<Vec<S>>,
}

/// A row without a seat for each worker.
pub fn empty_rows<S: Drop>(alloc: Global, workers: u32) -> Result<Vec<Vec<S>>, AllocError>
    ensures count { IfOk result (λ rows. length rows.items ≡ workers) }
    ensures rows { IfOk result (λ rows. All (λ row. row.items ≡ []) rows.items) }
{
    let mut rows = Vec::with_capacity(alloc, workers as usize)?;
    for worker in 0..workers {
        rows.push_reserved(Vec::new(alloc));
    }
    Ok(rows)
}

/// Appends one seat to each row: the seat of the row's number.
pub fn deal<S: Drop>(rows: &mut Vec<Vec<S>>, mut seats: Vec<S>) -> Result<(), AllocError>
    requires { length seats.items ≡ length rows.old.items }
    ensures { OnOk result (AreDealtOut (λ row. row.items)
        rows.old.items seats.items rows.new.items) }
{
    for dealt in 0..rows.len() {
        let Some(seat) = seats.pop() else {
            unreachable!();
        };
        rows[seats.len()].push(seat)?;
    }
    Ok(())
}

/// The maker's queues of the image's locks, with seats for so many workers.
pub fn line_up<M: QueueMaker>(
    alloc: Global,
    image: &Image,
    workers: u32,
    maker: &M,
) -> Result<Lines<M::Queue, <M::Queue as Waiters>::Seat>, AllocError>
    requires { 1 ≤ workers }
    ensures { IfOk result (λ lines. AreLines image.now workers
        (map M.Queue.queue lines.queues.items)
        (λ row. map M.Queue.seen row.items) lines.rows.items) }
{
    let mut queues = Vec::with_capacity(alloc, image.guards() as usize)?;
    let mut rows = empty_rows(alloc, workers)?;
    for lock in 0..image.guards() {
        let (queue, seats) = maker.make(alloc, image.threads(), workers)?;
        deal(&mut rows, seats)?;
        queues.push_reserved(queue);
    }
    Ok(Lines { queues, rows })
}

/// The lines of the image's locks in a hall with lines, with seats for so many workers.
pub fn line_up_in_hall(
    alloc: Global,
    image: &Image,
    workers: u32,
) -> Result<Lines<InHall, NotedSeat>, AllocError>
    requires { 1 ≤ workers }
    ensures lines { IfOk result (λ lines. AreLines image.now workers
        (map (λ l. l.seats) lines.queues.items) (λ row. map seat_as row.items) lines.rows.items) }
    ensures places { IfOk result
        (λ lines. AreInPlace (length image.now.entries) lines.queues.items) }
{
    let mut queues = Vec::with_capacity(alloc, image.guards() as usize)?;
    let mut rows = empty_rows(alloc, workers)?;
    for lock in 0..image.guards() {
        let (line, seats) = InHall::new(alloc, lock, image.threads(), workers)?;
        deal(&mut rows, seats)?;
        queues.push_reserved(line);
    }
    Ok(Lines { queues, rows })
}

/// The queues, each apart from the hall.
pub fn set_apart<Q: Waiters + Drop>(
    alloc: Global,
    queues: Vec<Q>,
) -> Result<Vec<Apart<Q>>, AllocError>
    ensures { IfOk result
        (λ apart. map (λ a. Q.queue a.queue) apart.items ≡ map Q.queue queues.items) }
{
    let mut apart = Vec::with_capacity(alloc, queues.len())?;
    for queue in queues {
        apart.push_reserved(Apart { queue });
    }
    Ok(apart)
}
