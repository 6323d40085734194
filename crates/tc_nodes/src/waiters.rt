//! The NUMA-aware queue as an order of waiters.

ghost use Rattle.tc_nodes.specs.Lines.{queue_as, seat_as};

use crate::queue::{NodeQueue, NodeSeat};
use crate::step::Entered;
use std::sync::Wait;
use tc_queue::{Arrival, Departure, Turn, Waiters};

impl Waiters for NodeQueue {
    type Seat = NodeSeat;

    type Place = u64;

    ghost queue = { queue_as };

    ghost seen = { seat_as };

    ghost mark = { λ place. place };

    fn enter(&self, seat: &mut NodeSeat, turn: Turn) -> Arrival<u64> {
        match NodeQueue::enter(self, seat, turn) {
            Entered::First => Arrival::First,
            Entered::Behind(place) => Arrival::Behind(place),
        }
    }

    fn link(&self, seat: &mut NodeSeat, place: u64, own: Turn) {
        NodeQueue::link(self, seat, place, own);
    }

    fn next<R: Wait>(&self, rt: &R, seat: &mut NodeSeat, own: Turn) -> Option<Turn> {
        NodeQueue::next(self, rt, seat, own)
    }

    fn leave<R: Wait>(&self, rt: &R, seat: &mut NodeSeat, own: Turn) -> Departure {
        NodeQueue::leave(self, rt, seat, own)
    }
}
