//! How the lines of blocks begin whose stamps follow one another. The lines of a hundred stamps
//! begin alike, up to the last two digits of the stamp, so the bytes that they share are kept and
//! copied.

ghost use Rattle.std.specs.Prelude.{◌≡◌, ◌+◌, ◌-◌, ◌%◌, ◌^◌, ◌<◌, ◌≤◌, ◌++◌, true, codes, decimal, length};

use crate::buffer::{Buffer, ROOM, ROW, write_text};
use itoa::write_digits;
use std::marker::Model;

/// From this stamp on no head is kept.
const END: u64 = 1_000_000_000_000;

/// The bytes that the lines of a hundred stamps share, at the end of a row. Contracts see the first
/// of the stamps.
#[derive(Drop)]
pub(crate) struct Head {
    first: u64,
    row: [u8; ROW],
    start: usize,
}

impl Model for Head {
    ghost use Rattle.std.specs.Prelude.{◌≡◌, ℕ, ◌≤◌, ◌<◌, ◌/◌, ◌%◌, ◌++◌, codes, decimal, drop};
    ghost use Rattle.tc_journal.specs.declared.buffer.TheConstants.{ROW};
    ghost use Rattle.tc_journal.specs.declared.head.TheConstants.{END};

    ghost Value = { ℕ };

    ghost view = { λ h. h.first };

    ghost invariant = { λ h. (h.start ≤ ROW) × (100 ≤ h.first) × (h.first < END)
        × (h.first % 100 ≡ 0) × (drop h.start h.row ≡ codes "block " ++ decimal (h.first / 100)) };
}

impl Head {
    /// That of the stamps from 100 on.
    pub fn new() -> Head
        ensures { result ≡ 100 }
    {
        Head {
            first: 100,
            row: *b"         block 1",
            start: 9,
        }
    }

    /// Makes this the head of the hundred stamps of which the given one is one, and tells whether
    /// it could: no head is kept for a stamp of one or two digits, nor for a very large one.
    #[inline(always)]
    pub fn fit(&mut self, stamp: u64) -> bool
        ensures { result ≡ true → (self.new ≤ stamp) × (stamp < self.new + 100) }
    {
        stamp.wrapping_sub(self.first) < 100 || self.move_to(stamp)
    }

    /// As `fit`, where the head is that of other stamps.
    #[inline(never)]
    fn move_to(&mut self, stamp: u64) -> bool
        ensures { result ≡ true → (self.new ≤ stamp) × (stamp < self.new + 100) }
    {
        let is_kept = (100..END).contains(&stamp);
        if is_kept {
            self.keep(stamp);
        }
        is_kept
    }

    /// Makes this the head of the hundred stamps of which the given one is one.
    fn keep(&mut self, stamp: u64)
        requires { (100 ≤ stamp) × (stamp < END) }
        ensures { self.new ≡ stamp - stamp % 100 }
    {
        let at = write_digits(stamp / 100, &mut self.row, ROW);
        let start = at - 6;
        write_text(&mut self.row, start, b"block ");
        self.start = start;
        self.first = stamp - stamp % 100;
    }

    /// Prepends the word `block` and one of the hundred stamps.
    #[inline(always)]
    pub fn put(&self, line: &mut Buffer<'_>, stamp: u64)
        requires of { (self.now ≤ stamp) × (stamp < self.now + 100) }
        requires room { 18 + length line.old ≤ ROOM }
        ensures value { line.new ≡ codes "block " ++ (decimal stamp ++ line.old) }
        ensures len { length line.new ≤ 18 + length line.old }
    {
        line.put_pair(stamp - self.first);
        line.put_row(&self.row, self.start);
    }
}
