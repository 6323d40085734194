//! The stack as an order of the waiters of one lock.

ghost use Rattle.tc_queue.specs.Lines.{mark_of, seat_as};

use crate::stack::Stack;
use std::alloc::Global;
use std::marker::Model;
use std::sync::{Mutex, Wait};
use tc_queue::{Arrival, Departure, Entered, Leave, QueueCall as Call, Turn, Waiters};
use tc_seats::{Made, NotedSeat, QueueMaker, Seats};

/// The order, for runs: a turn is passed over at most as often as the bound says. The calls of its
/// queues wait with the handle.
#[derive(Drop)]
pub struct Youngest<'a, R: Wait> {
    pub rt: &'a R,
    pub bound: u32,
}

/// The waiters of one lock, of whom the youngest is served first.
#[derive(Drop)]
pub struct YoungestQueue<'a, R: Wait> {
    rt: &'a R,
    stack: Mutex<Stack>,
    seats: Seats,
}

impl<'a, R: Wait> Model for YoungestQueue<'a, R> {
    ghost use Rattle.std.specs.Prelude.{◌≤◌};
    ghost use Rattle.tc_queue.specs.View.{QueueView};

    ghost Value = { QueueView };

    ghost view = { λ q. q.seats };

    ghost invariant = { λ q. q.seats.threads ≤ 64 };
}

impl<'a, R: Wait + Sync> QueueMaker for Youngest<'a, R> {
    type Queue = YoungestQueue<'a, R>;

    fn make(&self, alloc: Global, threads: u32, seats: u32) -> Made<YoungestQueue<'a, R>> {
        let rt = self.rt;
        let stack = Mutex::new(Stack::new(alloc, self.bound)?);
        let (seats, made) = Seats::new(alloc, threads, seats)?;
        Ok((YoungestQueue { rt, stack, seats }, made))
    }
}

impl<R: Wait + Sync> Waiters for YoungestQueue<'_, R> {
    type Seat = NotedSeat;

    type Place = Turn;

    ghost queue = { λ q. q };

    ghost seen = { seat_as };

    ghost mark = { mark_of };

    fn enter(&self, seat: &mut NotedSeat, turn: Turn) -> Arrival<Turn> {
        if self.stack.lock(self.rt).enter() {
            self.seats.note(seat, Call::Enter(turn, Entered::First));
            return Arrival::First;
        }
        self.seats
            .note(seat, Call::Enter(turn, Entered::Behind(turn)));
        Arrival::Behind(turn)
    }

    fn link(&self, seat: &mut NotedSeat, place: Turn, own: Turn) {
        self.stack.lock(self.rt).link(own);
        self.seats.note(seat, Call::Link(place, own));
    }

    fn next<W: Wait>(&self, rt: &W, seat: &mut NotedSeat, own: Turn) -> Option<Turn> {
        let next = match self.stack.lock(rt).next() {
            Some(turn) if self.seats.has(turn.thread) => Some(turn),
            _ => None,
        };
        self.seats.note(seat, Call::Next(own, next));
        next
    }

    fn leave<W: Wait>(&self, rt: &W, seat: &mut NotedSeat, own: Turn) -> Departure {
        if self.stack.lock(rt).leave() {
            self.seats.note(seat, Call::Leave(own, Leave::Left));
            return Departure::Left;
        }
        self.seats
            .note(seat, Call::Leave(own, Leave::Followed(None)));
        Departure::Followed
    }
}
