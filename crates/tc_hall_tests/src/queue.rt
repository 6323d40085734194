ghost use Rattle.std.specs.Prelude.{◌≡◌, All};
ghost use Rattle.tc_queue.specs.View.{IsOwnSeatOf, IsNewSeatOf};

use crate::counting::{ROUNDS, at_the_start, count_under, turn};
use std::alloc::AllocError;
use std::process::Abort;
use std::sync::Wait;
use std::sync::atomic::Ordering;
use std::test::*;
use std::thread;
use std::thread::Threads;
use tc_queue::{Entered, Leave, Queue, QueueSeat};

/// Seat 0 makes its calls for thread 0, and seat 1 for thread 1.
fn take_turns<R: Abort>(rt: &R, queue: &Queue, zero: &mut QueueSeat, one: &mut QueueSeat)
    requires threads { queue.now.threads ≡ 2 }
    requires seats { IsOwnSeatOf queue.now zero.old × IsOwnSeatOf queue.now one.old }
{
    let (first, second) = (turn(0, 1), turn(1, 1));
    assert!(rt; queue.enter(zero, first) == Entered::First);
    let Entered::Behind(before) = queue.enter(one, second) else {
        panic!(rt; "the second turn is not behind the first one")
    };
    assert!(rt; before == first);
    assert!(rt; queue.next(zero, first).is_none());
    assert!(rt; queue.leave(zero, first) == Leave::Followed(Some(second)));
    queue.link(one, before, second);
    assert!(rt; queue.next(zero, first) == Some(second));
    assert!(rt; queue.next(one, second).is_none());
    assert!(rt; queue.leave(one, second) == Leave::Left);
    assert!(rt; queue.enter(zero, turn(0, 2)) == Entered::First);
}

#[test]
fn two_seats(rt: HostRuntime) -> Result<(), Fail> {
    let (queue, seats) = Queue::new(rt.alloc(), 2, 2)?;
    let mut seats = seats.into_iter();
    let mut zero = seats.next().expect(&rt, "the first seat");
    let mut one = seats.next().expect(&rt, "the second seat");
    take_turns(&rt, &queue, &mut zero, &mut one);
    Ok(())
}

fn count_of<R: Threads + Wait + Sync>(
    rt: &R,
    queue: &Queue,
    seats: Vec<QueueSeat>,
) -> Result<u64, AllocError>
    requires threads { queue.now.threads ≡ 4 }
    requires seats { All (IsNewSeatOf queue.now) seats.items }
{
    let shared = at_the_start();
    let board = &shared;
    thread::map_vec(
        rt,
        seats,
        &|seat: QueueSeat| -> ()
            requires { (queue.now.threads ≡ 4) × IsNewSeatOf queue.now seat }
        { count_under(rt, queue, board, seat) },
    )?;
    Ok(shared.count.load(Ordering::SeqCst))
}

#[test]
fn four_threads(rt: HostRuntime) -> Result<(), Fail> {
    let (queue, seats) = Queue::new(rt.alloc(), 4, 4)?;
    let counted = count_of(&rt, &queue, seats)?;
    assert!(rt; counted == 4 * ROUNDS);
    Ok(())
}
