//! Four threads of the host count, and a queue is their lock.

ghost use Rattle.std.specs.Prelude.{◌≡◌};
ghost use Rattle.tc_queue.specs.Words.{IsTurn};
ghost use Rattle.tc_queue.specs.Lines.{IsSeatOf};

use std::sync::Wait;
use std::sync::atomic::{AtomicU64, Ordering};
use std::thread;
use tc_queue::{Arrival, Departure, Turn, Waiters};

pub(crate) fn turn(thread: u32, number: u64) -> Turn
    ensures { (result.thread ≡ thread) × (result.number ≡ number) }
{
    Turn { thread, number }
}

pub(crate) const ROUNDS: u64 = 1000;

/// What the threads share beside the queue: the last turn to which the lock was handed, as a word,
/// how many threads started, and the count. The count is read and written in two steps, so that it
/// falls short if two threads have the lock at once.
#[derive(Drop)]
pub(crate) struct Shared {
    handed: AtomicU64,
    started: AtomicU64,
    pub(crate) count: AtomicU64,
}

/// What they share at the start.
pub(crate) fn at_the_start() -> Shared {
    Shared {
        handed: AtomicU64::new(0),
        started: AtomicU64::new(0),
        count: AtomicU64::new(0),
    }
}

/// The word of a turn of four threads. That of a first turn is not 0.
fn word_of(turn: Turn) -> u64 {
    turn.number.wrapping_mul(4) | turn.thread as u64
}

/// Only who has the lock hands it over, so the word stays until the thread that awaits it reads it.
fn await_lock<R: Wait>(rt: &R, shared: &Shared, own: Turn) {
    let word = word_of(own);
    for _ in rt.forever() {
        if shared.handed.load(Ordering::SeqCst) == word {
            return;
        }
        thread::yield_now();
    }
}

fn lock<R: Wait, Q: Waiters>(rt: &R, queue: &Q, shared: &Shared, seat: &mut Q::Seat, own: Turn)
    requires threads { (Q.queue queue.now).threads ≡ 4 }
    requires seat { IsSeatOf (Q.queue queue.now) (Q.seen seat.old) }
    requires turn { IsTurn 4 own }
    ensures { IsSeatOf (Q.queue queue.now) (Q.seen seat.new) }
{
    if let Arrival::Behind(place) = queue.enter(seat, own) {
        queue.link(seat, place, own);
        await_lock(rt, shared, own);
    }
}

fn unlock<R: Wait, Q: Waiters>(rt: &R, queue: &Q, shared: &Shared, seat: &mut Q::Seat, own: Turn)
    requires threads { (Q.queue queue.now).threads ≡ 4 }
    requires seat { IsSeatOf (Q.queue queue.now) (Q.seen seat.old) }
    requires turn { IsTurn 4 own }
    ensures { IsSeatOf (Q.queue queue.now) (Q.seen seat.new) }
{
    for _ in rt.forever() {
        if let Some(next) = queue.next(rt, seat, own) {
            shared.handed.store(word_of(next), Ordering::SeqCst);
            return;
        }
        if let Departure::Left = queue.leave(rt, seat, own) {
            return;
        }
        thread::yield_now();
    }
}

pub(crate) fn count_under<R: Wait, Q: Waiters>(
    rt: &R,
    queue: &Q,
    shared: &Shared,
    mut seat: Q::Seat,
)
    requires threads { (Q.queue queue.now).threads ≡ 4 }
    requires seat { IsSeatOf (Q.queue queue.now) (Q.seen seat) }
{
    let thread = (shared.started.fetch_add(1, Ordering::SeqCst) % 4) as u32;
    for number in 1..=ROUNDS {
        let own = turn(thread, number);
        lock(rt, queue, shared, &mut seat, own);
        let count = shared.count.load(Ordering::SeqCst);
        shared.count.store(count.wrapping_add(1), Ordering::SeqCst);
        unlock(rt, queue, shared, &mut seat, own);
    }
}
