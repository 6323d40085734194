//! Seats, and the lists of their calls.

ghost use Rattle.std.specs.Prelude.{◌≡◌, ◌<◌, ◌≤◌, All, IfOk, MatchBool, length};
ghost use Rattle.tc_queue.specs.declared.turn.QueueCall.{QueueCall};
ghost use Rattle.tc_queue.specs.View.{IsOwnSeatOf, seat_with};
ghost use Rattle.tc_seats.specs.Seats.{Adds};

use atomic_table::{Play, Seat, Split, Table, TableRule};
use std::alloc::{AllocError, Global};
use std::collections::LinkedList;
use std::marker::{Brand, Model, PhantomData};
use tc_queue::QueueCall;

/// What contracts know of a seat: the number of threads that its queue was made for, and the calls
/// made with it. No value of this type exists.
pub struct CallLog {
    pub threads: u32,
    pub calls: LinkedList<QueueCall>,
}

/// The invariant of the seats, which always holds.
pub struct Unruled;

impl TableRule<u8, CallLog, u32> for Unruled {
    ghost use Rattle.tc_seats.specs.Seats.{Anything, no_calls};

    ghost holds = { Anything };

    ghost first = { no_calls };
}

type SeatTable = Table<u8, CallLog, u32, Unruled, Global>;

/// A handle through which a caller makes its calls. A seat belongs to one queue.
#[derive(Drop)]
pub struct NotedSeat {
    place: Seat<u8, CallLog>,
}

impl Model for NotedSeat {
    ghost use Rattle.tc_queue.specs.View.{OwnView};
    ghost use Rattle.tc_seats.specs.Seats.{own_view};

    ghost Value = { OwnView };

    ghost view = { λ s. own_view s.place.table_id s.place.id s.place.me.0 };
}

/// The call that is noted. Each note chooses it.
pub trait Noted {
    ghost call: { QueueCall };
}

impl Noted for Brand {
    ghost use Rattle.tc_seats.specs.Seats.{some_call};

    ghost call = { some_call };
}

struct Note<J> {
    marker: PhantomData<J>,
}

impl<J: Noted> Play<u8, CallLog> for Note<J> {
    ghost then = { Adds J.call };
}

/// Adds a seat.
struct AddSeat;

impl Split<CallLog> for AddSeat {
    ghost use Rattle.tc_seats.specs.Seats.{log_beside};

    ghost left = { λ v. v };

    ghost right = { log_beside };
}

/// The queue that the seats belong to, and the number of its threads.
#[derive(Drop)]
pub struct Seats {
    table: SeatTable,
    threads: u32,
}

impl Model for Seats {
    ghost use Rattle.std.specs.Prelude.{◌≡◌};
    ghost use Rattle.tc_queue.specs.View.{QueueView};

    ghost Value = { QueueView };

    ghost view = { λ s. record { table = s.table.shared.table_id; threads = s.threads } };

    ghost invariant = { λ s. s.table.shared.table_id.words ≡ 1 };
}

impl Seats {
    /// So many seats of a queue for so many threads.
    pub fn new(
        alloc: Global,
        threads: u32,
        seats: u32,
    ) -> Result<(Seats, Vec<NotedSeat>), AllocError>
        requires { 0 < seats }
        ensures threads { IfOk result (λ made. made.0.threads ≡ threads) }
        ensures count { IfOk result (λ made. length made.1.items ≡ seats) }
        ensures seats { IfOk result (λ made. All (IsOwnSeatOf made.0) made.1.items) }
    {
        let mut made = Vec::with_capacity(alloc, seats as usize)?;
        let (table, mut first) = SeatTable::of_words(alloc, &[0], &threads)?;
        for seated in 1..seats {
            let place = table.shared.split_seat::<AddSeat>(&mut first);
            made.push_reserved(NotedSeat { place });
        }
        made.push_reserved(NotedSeat { place: first });
        Ok((Seats { table, threads }, made))
    }

    /// Whether there is such a thread.
    pub fn has(&self, thread: u32) -> bool
        ensures { MatchBool result (thread < self.now.threads) (self.now.threads ≤ thread) }
    {
        thread < self.threads
    }

    fn add<J: Noted>(&self, seat: &mut NotedSeat, call: QueueCall)
        requires seat { IsOwnSeatOf self.now seat.old }
        requires picked { call ≡ J.call }
        ensures { seat.new ≡ seat_with seat.old call }
    {
        let _ = call;
        self.table.shared.load::<Note<J>>(&mut seat.place, 0);
    }

    /// Appends the call to the seat's list.
    pub fn note(&self, seat: &mut NotedSeat, call: QueueCall)
        requires { IsOwnSeatOf self.now seat.old }
        ensures { seat.new ≡ seat_with seat.old call }
    {
        self.add::<Brand>(seat, call);
    }
}
