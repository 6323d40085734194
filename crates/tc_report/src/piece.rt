//! The lines of some blocks of a history, which stand in logs, and their memory.

ghost use Rattle.std.specs.Prelude.{◌≡◌, ◌*◌, ◌≤◌, length, string_bytes, string_capacity};
ghost use Rattle.tc_journal.specs.declared.buffer.TheConstants.{LINE};
ghost use Rattle.tc_report.specs.Pieces.{AreLines};

use crate::row::{count_of, fill_row, row_of};
use std::alloc::{AllocError, Global};
use std::marker::{Brand, PhantomData};
use tc_journal::block::Block;
use tc_journal::line::{LINE, push_lent};

/// How many blocks a piece has lines of at most.
/// Four workers took as long with pieces of 2,048 to 8,192 blocks.
pub(crate) const BLOCKS: usize = 4_096;

/// The lines of each piece of a history, by the piece's number, and for the lines of how many blocks a
/// piece has room. Each report picks it.
pub(crate) trait History {
    ghost use Rattle.std.specs.Prelude.{ℕ, List};

    ghost lines: { ℕ → List ℕ };

    ghost room: { ℕ };
}

impl History for Brand {
    ghost use Rattle.std.specs.Prelude.{[]};

    ghost lines = { λ number. [] };

    ghost room = { 0 };
}

/// Room for the lines of a piece, and a row for its blocks. It is taken before a line is made, so that
/// none can be wanting once a line of the report is written. What no line reaches takes no memory of the
/// host. The row keeps the blocks of the last piece, until those of the next one take their places.
#[derive(Drop)]
pub(crate) struct Room<'a, H: History> {
    text: String,
    row: Vec<&'a Block>,
    history: PhantomData<H>,
    ghost enough: { LINE * H.room ≤ string_capacity text },
    ghost places: { length row.items ≡ H.room },
}

impl<'a, H: History> Room<'a, H> {
    /// Room for the lines of a piece of these logs.
    pub(crate) fn new(alloc: Global, logs: &[&'a [Block]]) -> Result<Room<'a, H>, AllocError>
        requires { AreLines logs.now H.lines H.room }
    {
        let blocks = BLOCKS.min(count_of(logs));
        let text = String::with_capacity(alloc, LINE * blocks)?;
        let row = row_of(alloc, logs, blocks)?;
        Ok(Room {
            text,
            row,
            history: PhantomData,
        })
    }

    /// Puts the blocks of the piece of this number in order, and makes their lines, in place of those that
    /// stood here.
    pub(crate) fn fill(self, logs: &[&'a [Block]], number: usize) -> Piece<'a, H>
        requires { AreLines logs.now H.lines H.room }
        ensures { result.number ≡ number }
    {
        let Room {
            mut text,
            mut row,
            history,
        } = self;
        let count = count_of(logs);
        let from = number.saturating_mul(BLOCKS).min(count);
        let blocks = &mut row[..BLOCKS.min(count - from)];
        fill_row(blocks, from, logs);
        text.clear();
        match push_lent(&mut text, blocks) {
            Ok(()) => Piece {
                number,
                room: Room { text, row, history },
            },
            Err(_) => unreachable!(),
        }
    }
}

/// The piece of a number: its lines.
#[derive(Drop)]
pub(crate) struct Piece<'a, H: History> {
    pub number: usize,
    room: Room<'a, H>,
    ghost lines: { string_bytes room.text ≡ H.lines number },
}

impl<'a, H: History> Piece<'a, H> {
    /// Its lines.
    pub(crate) fn text(&self) -> &str
        ensures { result.now ≡ H.lines self.now.number }
    {
        self.room.text.as_str()
    }

    /// The room that they stood in.
    pub(crate) fn into_room(self) -> Room<'a, H> {
        self.room
    }
}
