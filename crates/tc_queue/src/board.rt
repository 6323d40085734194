//! The shared words as an atomic table with its invariant, and what a step on it says.
//! Word 0 is the tail, and word t + 1 the link of thread t.

ghost use Rattle.tc_queue.specs.Steps.{Asks};

use crate::turn::QueueCall;
use atomic_table::{Play, Seat, Split, Table, TableRule};
use std::alloc::Global;
use std::collections::LinkedList;
use std::marker::{Brand, PhantomData};

/// What contracts know of a seat: the number of threads that its queue was made for, and the calls
/// made with it. No value of this type exists.
pub struct SeatLog {
    pub threads: u32,
    pub calls: LinkedList<QueueCall>,
}

/// The invariant of the words.
pub struct Ordered;

impl TableRule<u8, SeatLog, u32> for Ordered {
    ghost use Rattle.tc_queue.specs.Order.{IsOrdered, first_log};

    ghost holds = { IsOrdered };

    ghost first = { first_log };
}

pub(crate) type QueueTable = Table<u8, SeatLog, u32, Ordered, Global>;

pub(crate) type QueueTableSeat = Seat<u8, SeatLog>;

/// The call, before it is answered. Each call chooses it.
pub trait Asking {
    ghost use Rattle.tc_queue.specs.Asked.{Ask};

    ghost ask: { Ask };
}

impl Asking for Brand {
    ghost use Rattle.tc_queue.specs.Asked.{no_ask};

    ghost ask = { no_ask };
}

pub(crate) struct Call<J> {
    marker: PhantomData<J>,
}

impl<J: Asking> Play<u8, SeatLog> for Call<J> {
    ghost then = { Asks J.ask };
}

/// Adds a seat.
pub(crate) struct AddSeat;

impl Split<SeatLog> for AddSeat {
    ghost use Rattle.tc_queue.specs.Order.{log_beside};

    ghost left = { λ v. v };

    ghost right = { log_beside };
}
