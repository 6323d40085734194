//! Any order of waiters, apart from the hall.

ghost use Rattle.std.specs.Prelude.{◌≡◌, false};
ghost use Rattle.tc_queue.specs.Lines.{MayLinkWith};
ghost use Rattle.tc_order.specs.Order.{never_both, no_notes};

use crate::order::Order;
use std::sync::Wait;
use tc_hall::hall::Hall;
use tc_hall::pass::Pass;
use tc_queue::{Arrival, Departure, Turn, Waiters};

/// A queue that is apart from the hall, which has no lines.
#[derive(Drop)]
pub struct Apart<Q: Waiters + Drop> {
    /// The queue.
    pub queue: Q,
}

impl<Q: Waiters + Drop> Order for Apart<Q> {
    type Seat = Q::Seat;

    type Place = Q::Place;

    ghost queue = { λ a. Q.queue a.queue };

    ghost seen = { Q.seen };

    ghost mark = { Q.mark };

    ghost fits = { λ a h. h.terms.lined ≡ false };

    ghost of = { λ a i. Unit {0} };

    ghost notes = { λ a. no_notes };

    ghost links = { λ a p s place u. MayLinkWith (Q.queue a.queue) (Q.seen s) u (Q.mark place) };

    ghost lined = { λ a h i c cs apart of lined notes. absurd (never_both h.terms.lined apart lined) };

    ghost alone = { λ a h i j apart one other lined. absurd (never_both h.terms.lined apart lined) };

    fn enter(&self, _: &Hall, _: &mut Pass, seat: &mut Q::Seat, turn: Turn) -> Arrival<Q::Place> {
        self.queue.enter(seat, turn)
    }

    fn link(&self, _: &Hall, _: &mut Pass, seat: &mut Q::Seat, place: Q::Place, own: Turn) {
        self.queue.link(seat, place, own);
    }

    fn next<R: Wait>(
        &self,
        rt: &R,
        _: &Hall,
        _: &mut Pass,
        seat: &mut Q::Seat,
        own: Turn,
    ) -> Option<Turn> {
        self.queue.next(rt, seat, own)
    }

    fn leave<R: Wait>(
        &self,
        rt: &R,
        _: &Hall,
        _: &mut Pass,
        seat: &mut Q::Seat,
        own: Turn,
    ) -> Departure {
        self.queue.leave(rt, seat, own)
    }
}
