ghost use Rattle.std.specs.Prelude.{◌≡◌, ◌≤◌, All};
ghost use Rattle.tc_nodes.specs.View.{IsSeatOf};

use crate::counting::{ROUNDS, at_the_start, count_under, turn};
use std::alloc::{AllocError, Global};
use std::process::Abort;
use std::sync::Wait;
use std::sync::atomic::Ordering;
use std::test::*;
use std::thread;
use std::thread::Threads;
use tc_nodes::{Entered, NodeQueue, NodeSeat, Op, run_line};
use tc_queue::{Departure, Turn};

/// Three turns arrive, thread 0's on node 1 and those of threads 1 and 2 on node 0; then node 0 picks
/// four times.
fn picks(alloc: Global, bound: u32) -> Result<Vec<Option<Turn>>, AllocError>
    requires { bound ≤ 256 }
{
    let ops = [
        Op::Arrive(turn(0, 1), 1),
        Op::Arrive(turn(1, 1), 0),
        Op::Arrive(turn(2, 1), 0),
        Op::Pick(0),
        Op::Pick(0),
        Op::Pick(0),
        Op::Pick(0),
    ];
    run_line(alloc, bound, &ops)
}

#[test]
fn nobody_is_passed_over_more_often_than_the_bound(rt: HostRuntime) -> Result<(), Fail> {
    let (first, second) = (Some(turn(0, 1)), Some(turn(1, 1)));
    let third = Some(turn(2, 1));
    let rows = [
        (0, [first, second, third, None]),
        (1, [second, first, third, None]),
        (2, [second, third, first, None]),
    ];
    for (bound, wanted) in rows {
        assert!(rt; bound <= 256);
        let picked = picks(rt.alloc(), bound)?;
        assert!(rt; picked.as_slice() == wanted.as_slice(), "bound {bound}");
    }
    Ok(())
}

/// Seat 0 makes its calls for thread 0, and seat 1 for thread 1.
fn take_turns<R: Abort + Wait>(rt: &R, queue: &NodeQueue, zero: &mut NodeSeat, one: &mut NodeSeat)
    requires threads { queue.now.threads ≡ 2 }
    requires seats { IsSeatOf queue.now zero.old × IsSeatOf queue.now one.old }
{
    let (first, second) = (turn(0, 1), turn(1, 1));
    assert!(rt; queue.enter(zero, first) == Entered::First);
    let Entered::Behind(place) = queue.enter(one, second) else {
        panic!(rt; "the second turn found nobody")
    };
    assert!(rt; place == 1);
    assert!(rt; queue.next(rt, zero, first).is_none());
    assert!(rt; queue.leave(rt, zero, first) == Departure::Followed);
    queue.link(one, place, second);
    assert!(rt; queue.next(rt, zero, first) == Some(second));
    assert!(rt; queue.next(rt, one, second).is_none());
    assert!(rt; queue.leave(rt, one, second) == Departure::Left);
}

#[test]
fn two_seats(rt: HostRuntime) -> Result<(), Fail> {
    let (queue, seats) = NodeQueue::new(rt.alloc(), 2, 2, 2, 1)?;
    let mut seats = seats.into_iter();
    let mut zero = seats.next().expect(&rt, "the first seat");
    let mut one = seats.next().expect(&rt, "the second seat");
    take_turns(&rt, &queue, &mut zero, &mut one);
    Ok(())
}

fn count_of<R: Threads + Wait + Sync>(
    rt: &R,
    queue: &NodeQueue,
    seats: Vec<NodeSeat>,
) -> Result<u64, AllocError>
    requires threads { queue.now.threads ≡ 4 }
    requires seats { All (IsSeatOf queue.now) seats.items }
{
    let shared = at_the_start();
    let board = &shared;
    thread::map_vec(
        rt,
        seats,
        &|seat: NodeSeat| -> ()
            requires { (queue.now.threads ≡ 4) × IsSeatOf queue.now seat }
        { count_under(rt, queue, board, seat) },
    )?;
    Ok(shared.count.load(Ordering::SeqCst))
}

#[test]
fn four_threads(rt: HostRuntime) -> Result<(), Fail> {
    let (queue, seats) = NodeQueue::new(rt.alloc(), 4, 4, 2, 3)?;
    let counted = count_of(&rt, &queue, seats)?;
    assert!(rt; counted == 4 * ROUNDS);
    Ok(())
}
