//! Who is served by the order of tc_youngest.

ghost use Rattle.std.specs.Prelude.{◌≡◌};
ghost use Rattle.tc_queue.specs.View.{IsOwnSeatOf};
ghost use Rattle.tc_queue.specs.Words.{IsTurn};

use std::alloc::{AllocError, Global};
use std::process::Abort;
use std::sync::Wait;
use std::test::*;
use tc_queue::{Arrival, Departure, Turn, Waiters};
use tc_seats::{NotedSeat, QueueMaker};
use tc_youngest::{Youngest, YoungestQueue};

/// The first turn of a thread.
fn turn(thread: u32) -> Turn
    ensures { (result.thread ≡ thread) × (result.number ≡ 1) }
{
    Turn { thread, number: 1 }
}

/// The turn comes behind those that are there.
fn come<R: Abort + Wait + Sync>(
    rt: &R,
    queue: &YoungestQueue<'_, R>,
    seat: &mut NotedSeat,
    own: Turn,
)
    requires threads { queue.now.threads ≡ 4 }
    requires seat { IsOwnSeatOf queue.now seat.old }
    requires turn { IsTurn 4 own }
    ensures { IsOwnSeatOf queue.now seat.new }
{
    let Arrival::Behind(place) = queue.enter(seat, own) else {
        panic!(rt; "nobody is there")
    };
    queue.link(seat, place, own);
}

/// Thread 0 has the lock, and threads 1, 2 and 3 wait in this order.
fn three_wait<R: Abort + Wait + Sync>(rt: &R, queue: &YoungestQueue<'_, R>, seat: &mut NotedSeat)
    requires threads { queue.now.threads ≡ 4 }
    requires seat { IsOwnSeatOf queue.now seat.old }
    ensures { IsOwnSeatOf queue.now seat.new }
{
    assert!(rt; queue.enter(seat, turn(0)) == Arrival::First);
    come(rt, queue, seat, turn(1));
    come(rt, queue, seat, turn(2));
    come(rt, queue, seat, turn(3));
}

/// Whoever of the three is served first and second comes again behind the others. Answers who is
/// served, in five goes.
fn goes<R: Abort + Wait + Sync>(
    rt: &R,
    queue: &YoungestQueue<'_, R>,
    seat: &mut NotedSeat,
) -> [u32; 5]
    requires threads { queue.now.threads ≡ 4 }
    requires seat { IsOwnSeatOf queue.now seat.old }
{
    let mut order = [0; 5];
    let mut own = turn(0);
    for go in 0..5 {
        own = queue.next(rt, seat, own).expect(rt, "somebody waits");
        order[go] = own.thread;
        if go < 2 {
            come(rt, queue, seat, own);
        }
    }
    order
}

/// Who is served in five goes with this bound.
fn served<R: Abort + Wait + Sync>(
    rt: &R,
    alloc: Global,
    bound: u32,
) -> Result<[u32; 5], AllocError> {
    let (queue, mut seats) = Youngest { rt, bound }.make(alloc, 4, 1)?;
    let mut seat = seats.pop().expect(rt, "the seat");
    three_wait(rt, &queue, &mut seat);
    Ok(goes(rt, &queue, &mut seat))
}

/// Worked out by hand. With 0 nobody is passed over, which is the order of entry. With 1 thread 3 is
/// served first, and then neither 1 nor 2 may be passed over again. With 2 that comes one go later,
/// and with 9 not at all.
#[test]
fn the_youngest_comes_first_within_the_bound(rt: HostRuntime) -> Result<(), Fail> {
    let rows = [
        (0, [1, 2, 3, 1, 2]),
        (1, [3, 1, 2, 1, 3]),
        (2, [3, 3, 1, 2, 3]),
        (9, [3, 3, 3, 2, 1]),
    ];
    for (bound, wanted) in rows {
        assert!(rt; served(&rt, rt.alloc(), bound)? == wanted, "bound {bound}");
    }
    Ok(())
}

/// Seat 0 makes its calls for thread 0, and seat 1 for thread 1.
fn take_turns<R: Abort + Wait + Sync>(
    rt: &R,
    queue: &YoungestQueue<'_, R>,
    zero: &mut NotedSeat,
    one: &mut NotedSeat,
)
    requires threads { queue.now.threads ≡ 2 }
    requires seats { IsOwnSeatOf queue.now zero.old × IsOwnSeatOf queue.now one.old }
{
    let (first, second) = (turn(0), turn(1));
    assert!(rt; queue.enter(zero, first) == Arrival::First);
    let Arrival::Behind(place) = queue.enter(one, second) else {
        panic!(rt; "the second turn found nobody")
    };
    assert!(rt; queue.next(rt, zero, first) == None);
    assert!(rt; queue.leave(rt, zero, first) == Departure::Followed);
    queue.link(one, place, second);
    assert!(rt; queue.next(rt, zero, first) == Some(second));
    assert!(rt; queue.next(rt, one, second) == None);
    assert!(rt; queue.leave(rt, one, second) == Departure::Left);
}

#[test]
fn two_seats(rt: HostRuntime) -> Result<(), Fail> {
    let order = Youngest { rt: &rt, bound: 1 };
    let (queue, mut seats) = order.make(rt.alloc(), 2, 2)?;
    let mut one = seats.pop().expect(&rt, "the second seat");
    let mut zero = seats.pop().expect(&rt, "the first seat");
    take_turns(&rt, &queue, &mut zero, &mut one);
    Ok(())
}
