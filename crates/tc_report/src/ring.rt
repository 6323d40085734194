//! The ring in which several threads make the pieces of a history, and one writes them in order.

ghost use Rattle.std.specs.Prelude.{◌≡◌, ◌<◌, length};
ghost use Rattle.tc_report.specs.Pieces.{AreLines};

use crate::piece::{BLOCKS, History, Piece, Room};
use crate::row::count_of;
use std::alloc::{AllocError, Global};
use std::mem::replace;
use std::sync::{Condvar, Mutex, Wait};
use tc_journal::block::Block;

/// A place of the ring.
#[derive(Drop)]
enum RingSlot<'a, H: History> {
    /// Room for a piece.
    Free(Room<'a, H>),
    /// A piece that can be written.
    Full(Piece<'a, H>),
    /// The room is in use: a piece is being made in it, or written.
    Taken,
}

/// The places, in which piece n has the place of n modulo their number, and which pieces are still to be
/// made.
#[derive(Drop)]
struct Places<'a, H: History> {
    places: Vec<RingSlot<'a, H>>,
    // The first piece that nobody has begun to make.
    next: usize,
    // The number of all pieces.
    count: usize,
    ghost some: { 0 < length places.items },
}

impl<'a, H: History> Places<'a, H> {
    /// Takes what stands at the place of this piece.
    fn take(&mut self, number: usize) -> RingSlot<'a, H> {
        let at = number % self.places.len();
        replace(&mut self.places[at], RingSlot::Taken)
    }

    /// Puts something at the place of this piece.
    fn put(&mut self, number: usize, place: RingSlot<'a, H>) {
        let at = number % self.places.len();
        self.places[at] = place;
    }

    /// Whether each piece is made or being made.
    fn all_begun(&self) -> bool {
        self.next >= self.count
    }

    /// The next piece is being made: its number, and the room for it. None where that is in use.
    fn begin(&mut self) -> Option<(usize, Room<'a, H>)> {
        let number = self.next;
        match self.take(number) {
            RingSlot::Free(room) => {
                self.next = number.saturating_add(1);
                Some((number, room))
            }
            other => {
                self.put(number, other);
                None
            }
        }
    }

    /// The piece of this number, or the room for it where nobody has begun to make it. None where one is
    /// making it.
    fn find(&mut self, number: usize) -> Option<RingSlot<'a, H>> {
        match self.take(number) {
            RingSlot::Taken => None,
            found => {
                self.next = self.next.max(number.saturating_add(1));
                Some(found)
            }
        }
    }
}

/// The pieces of a history, of which as many are made and not yet written as the ring has places.
#[derive(Drop)]
pub(crate) struct Ring<'a, H: History> {
    places: Mutex<Places<'a, H>>,
    changed: Condvar,
}

impl<'a, H: History> Ring<'a, H> {
    /// A ring for the pieces of the history that these logs have, with so many places.
    pub(crate) fn new(
        alloc: Global,
        logs: &[&'a [Block]],
        size: usize,
    ) -> Result<Ring<'a, H>, AllocError>
        requires some { 0 < size }
        requires lines { AreLines logs.now H.lines H.room }
    {
        let mut places = Vec::with_capacity(alloc, size)?;
        while places.len() < size {
            places.push(RingSlot::Free(Room::new(alloc, logs)?))?;
        }
        let places = Places {
            places,
            next: 0,
            count: count_of(logs).div_ceil(BLOCKS),
        };
        Ok(Ring {
            places: Mutex::new(places),
            changed: Condvar::new(),
        })
    }

    /// Puts something at the place of this piece. Whoever waits looks again.
    fn put<R: Wait>(&self, rt: &R, number: usize, place: RingSlot<'a, H>) {
        self.places.lock(rt).put(number, place);
        self.changed.notify_all();
    }

    /// The number of the next piece to be made, with the room for it. It waits while that is in use. None
    /// where no piece is left to be made.
    fn begin<R: Wait>(&self, rt: &R) -> Option<(usize, Room<'a, H>)> {
        let mut places = self.places.lock(rt);
        for _ in rt.forever() {
            if places.all_begun() {
                break;
            }
            let begun = places.begin();
            if begun.is_some() {
                return begun;
            }
            places = self.changed.wait(rt, places);
        }
        None
    }

    /// Makes pieces until none is left to be made. It may wait until one is written.
    pub(crate) fn make<R: Wait>(&self, rt: &R, logs: &[&'a [Block]])
        requires { AreLines logs.now H.lines H.room }
    {
        for _ in rt.forever() {
            let Some((number, room)) = self.begin(rt) else {
                break;
            };
            self.put(rt, number, RingSlot::Full(room.fill(logs, number)));
        }
    }

    /// The piece of this number, or the room for it. It waits while one is making it.
    fn find<R: Wait>(&self, rt: &R, number: usize) -> RingSlot<'a, H> {
        let mut places = self.places.lock(rt);
        for _ in rt.forever() {
            if let Some(found) = places.find(number) {
                return found;
            }
            places = self.changed.wait(rt, places);
        }
        unreachable!()
    }

    /// The piece of this number, to be written. Where nobody has begun to make it, it is made here; where
    /// one is making it, this waits.
    pub(crate) fn piece<R: Wait>(&self, rt: &R, logs: &[&'a [Block]], number: usize) -> Piece<'a, H>
        requires { AreLines logs.now H.lines H.room }
        ensures { result.number ≡ number }
    {
        for _ in rt.forever() {
            match self.find(rt, number) {
                RingSlot::Free(room) => return room.fill(logs, number),
                RingSlot::Full(piece) if piece.number == number => return piece,
                other => self.put(rt, number, other),
            }
        }
        unreachable!()
    }

    /// Gives the room of a piece back, which is written.
    pub(crate) fn give_back<R: Wait>(&self, rt: &R, piece: Piece<'a, H>) {
        let number = piece.number;
        self.put(rt, number, RingSlot::Free(piece.into_room()));
    }

    /// No more pieces are to be made.
    pub(crate) fn stop<R: Wait>(&self, rt: &R) {
        self.places.lock(rt).count = 0;
        self.changed.notify_all();
    }
}
