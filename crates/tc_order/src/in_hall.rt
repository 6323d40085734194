//! The line of a lock in a hall with lines.

ghost use Rattle.std.specs.Prelude.{◌≡◌, ◌<◌, ◌≤◌, All, IfOk, length};
ghost use Rattle.tc_queue.specs.View.{IsOwnSeatOf};
ghost use Rattle.tc_queue.specs.Lines.{IsSeatOf, seat_as, mark_of};
ghost use Rattle.tc_hall.specs.Rule.{threads, locks};
ghost use Rattle.tc_order.specs.Order.{IsLineOf, LinksInHall, hall_notes, noted_there, same_lock};

use crate::order::Order;
use std::alloc::{AllocError, Global};
use std::sync::Wait;
use tc_hall::hall::Hall;
use tc_hall::pass::Pass;
use tc_queue::{Arrival, Departure, Entered, Leave, QueueCall, Turn};
use tc_seats::{NotedSeat, Seats};

/// The line of one lock: its words are in the table of the hall.
#[derive(Drop)]
pub struct InHall {
    lock: u32,
    seats: Seats,
}

impl InHall {
    /// The line of this lock in a hall with lines of so many threads, and so many seats of it.
    pub fn new(
        alloc: Global,
        lock: u32,
        threads: u32,
        seats: u32,
    ) -> Result<(InHall, Vec<NotedSeat>), AllocError>
        requires { 0 < seats }
        ensures line { IfOk result
            (λ made. (made.0.lock ≡ lock) × (made.0.seats.threads ≡ threads)) }
        ensures count { IfOk result (λ made. length made.1.items ≡ seats) }
        ensures seats { IfOk result (λ made. All (IsOwnSeatOf made.0.seats) made.1.items) }
    {
        let (seats, made) = Seats::new(alloc, threads, seats)?;
        Ok((InHall { lock, seats }, made))
    }
}

impl Order for InHall {
    type Seat = NotedSeat;

    type Place = Turn;

    ghost queue = { λ l. l.seats };

    ghost seen = { seat_as };

    ghost mark = { mark_of };

    ghost fits = { λ l h. IsLineOf h.terms l.lock l.seats.threads };

    ghost of = { λ l i. l.lock ≡ i };

    ghost notes = { λ l. hall_notes l.lock };

    ghost links = { λ l p s. LinksInHall l.lock l.seats.threads p };

    ghost lined = { λ l h i c cs fits of lined notes. noted_there l.lock i c cs of notes };

    ghost alone = { λ l h i j fits one other lined. same_lock l.lock i j one other };

    fn enter(
        &self,
        hall: &Hall,
        pass: &mut Pass,
        seat: &mut NotedSeat,
        turn: Turn,
    ) -> Arrival<Turn> {
        match hall.enter(pass, self.lock, turn) {
            Entered::First => {
                self.seats
                    .note(seat, QueueCall::Enter(turn, Entered::First));
                Arrival::First
            }
            Entered::Behind(before) => {
                self.seats
                    .note(seat, QueueCall::Enter(turn, Entered::Behind(before)));
                Arrival::Behind(before)
            }
        }
    }

    fn link(&self, hall: &Hall, pass: &mut Pass, seat: &mut NotedSeat, place: Turn, own: Turn) {
        hall.link(pass, self.lock, place, own);
        self.seats.note(seat, QueueCall::Link(place, own));
    }

    fn next<R: Wait>(
        &self,
        _: &R,
        hall: &Hall,
        pass: &mut Pass,
        seat: &mut NotedSeat,
        own: Turn,
    ) -> Option<Turn> {
        let next = hall.next(pass, self.lock, own);
        self.seats.note(seat, QueueCall::Next(own, next));
        next
    }

    fn leave<R: Wait>(
        &self,
        _: &R,
        hall: &Hall,
        pass: &mut Pass,
        seat: &mut NotedSeat,
        own: Turn,
    ) -> Departure {
        match hall.leave(pass, self.lock, own) {
            Leave::Left => {
                self.seats.note(seat, QueueCall::Leave(own, Leave::Left));
                Departure::Left
            }
            Leave::Followed(tail) => {
                self.seats
                    .note(seat, QueueCall::Leave(own, Leave::Followed(tail)));
                Departure::Followed
            }
        }
    }
}
