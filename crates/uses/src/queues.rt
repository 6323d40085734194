//! An order of waiters, driven by hand.

ghost use Rattle.std.specs.Prelude.{◌≡◌, ◌+◌, ◌*◌, ◌≤◌, All, length};
ghost use Rattle.tc_queue.specs.Lines.{IsSeatOf};
ghost use Rattle.tc_queue.specs.Words.{IsTurn};

use tc_queue::{Arrival, Turn, Waiters};

/// All of these turns enter with one seat, each behind the one that was there. It returns the
/// number of calls: one for each turn, and one more for each that found somebody.
pub fn enter_all<Q: Waiters>(queue: &Q, seat: &mut Q::Seat, turns: &[Turn]) -> usize
    requires seat { IsSeatOf (Q.queue queue.now) (Q.seen seat.old) }
    requires turns { All (λ u. IsTurn (Q.queue queue.now).threads u) turns.now }
    ensures seat { IsSeatOf (Q.queue queue.now) (Q.seen seat.new) }
    ensures calls { length (Q.seen seat.new).calls
        ≡ length (Q.seen seat.old).calls + result }
{
    let mut calls: usize = 0;
    for turn in turns {
        calls += enter_one(queue, seat, *turn);
    }
    calls
}

/// The turn enters, and is linked if somebody is there. It returns the number of calls.
fn enter_one<Q: Waiters>(queue: &Q, seat: &mut Q::Seat, turn: Turn) -> usize
    requires seat { IsSeatOf (Q.queue queue.now) (Q.seen seat.old) }
    requires turn { IsTurn (Q.queue queue.now).threads turn }
    ensures seat { IsSeatOf (Q.queue queue.now) (Q.seen seat.new) }
    ensures calls { length (Q.seen seat.new).calls
        ≡ length (Q.seen seat.old).calls + result }
    ensures few { result ≤ 2 }
{
    match queue.enter(seat, turn) {
        Arrival::First => 1,
        Arrival::Behind(place) => {
            queue.link(seat, place, turn);
            2
        }
    }
}
