//! An order of the waiters of one lock, as the layers above use it.

ghost use Rattle.std.specs.Prelude.{◌≡◌, ℕ, Some};
ghost use Rattle.tc_queue.specs.declared.turn.Turn.{Turn};
ghost use Rattle.tc_queue.specs.Words.{IsTurn};
ghost use Rattle.tc_queue.specs.View.{QueueView};
ghost use Rattle.tc_queue.specs.Lines.{SeatView, MayCall, MayLinkWith, IsLinkable, Enter, Link, Next, Leave as Leave_call, with_line, answer, seat_as, mark_of};

use crate::queue::{Queue, QueueSeat};
use crate::turn::{Arrival, Departure, Entered, Leave, Turn};
use std::sync::Wait;

/// Who waits for one lock, and in which order. Each call appends itself, with its answer, to the
/// list of its seat.
pub trait Waiters: Sync {
    /// A handle through which a caller makes its calls.
    type Seat: Send + Drop;

    /// What `enter` gives and `link` takes: the place of the entrant.
    type Place: Drop;

    /// Which queue it is, and the number of threads that it was made for.
    ghost queue: { Self → QueueView };

    /// Which queue's seat it is, and its calls.
    ghost seen: { Self.Seat → SeatView };

    /// The number that identifies a place in the lists.
    ghost mark: { Self.Place → ℕ };

    /// Enters with a turn. If it answers a place, the caller still has to link it.
    fn enter(&self, seat: &mut Self::Seat, turn: Turn) -> Arrival<Self::Place>
        requires { MayCall (queue self.now) (seen seat.old) turn }
        ensures call { seen seat.new ≡ with_line (seen seat.old) (Enter turn (answer mark result)) }
        ensures may { IsLinkable mark turn result (seen seat.new).calls };

    /// Links this turn behind the one that the place stands for.
    fn link(&self, seat: &mut Self::Seat, place: Self::Place, own: Turn)
        requires { MayLinkWith (queue self.now) (seen seat.old) own (mark place) }
        ensures call { seen seat.new ≡ with_line (seen seat.old) (Link (mark place) own) };

    /// The turn that comes after this one, if it is known.
    fn next<R: Wait>(&self, rt: &R, seat: &mut Self::Seat, own: Turn) -> Option<Turn>
        requires { MayCall (queue self.now) (seen seat.old) own }
        ensures call { seen seat.new ≡ with_line (seen seat.old) (Next own result) }
        ensures turn { (u : Turn) → result ≡ Some u → IsTurn (queue self.now).threads u };

    /// Leaves, if nobody comes after this turn.
    fn leave<R: Wait>(&self, rt: &R, seat: &mut Self::Seat, own: Turn) -> Departure
        requires { MayCall (queue self.now) (seen seat.old) own }
        ensures call { seen seat.new ≡ with_line (seen seat.old) (Leave_call own result) };
}

impl Waiters for Queue {
    type Seat = QueueSeat;

    type Place = Turn;

    ghost queue = { λ q. q };

    ghost seen = { seat_as };

    ghost mark = { mark_of };

    fn enter(&self, seat: &mut QueueSeat, turn: Turn) -> Arrival<Turn> {
        match Queue::enter(self, seat, turn) {
            Entered::First => Arrival::First,
            Entered::Behind(before) => Arrival::Behind(before),
        }
    }

    fn link(&self, seat: &mut QueueSeat, place: Turn, own: Turn) {
        let _threads = self.threads();
        let _thread = place.thread();
        seat.knows();
        Queue::link(self, seat, place, own);
    }

    fn next<R: Wait>(&self, _: &R, seat: &mut QueueSeat, own: Turn) -> Option<Turn> {
        Queue::next(self, seat, own)
    }

    fn leave<R: Wait>(&self, _: &R, seat: &mut QueueSeat, own: Turn) -> Departure {
        match Queue::leave(self, seat, own) {
            Leave::Left => Departure::Left,
            Leave::Followed(_) => Departure::Followed,
        }
    }
}
