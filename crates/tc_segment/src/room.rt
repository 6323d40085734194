//! Capacity for more entries. Most blocks find that there is room, so growth is code of its own.
//! Pages that are not written yet take no memory of the host, and a large vector grows without a
//! copy. The first capacity is small, since a separate allocation costs more than all entries of a
//! small run, and it is copied when it grows. Each later allocation is a power of two of bytes,
//! including the two 8-byte words that an allocator keeps before it, or less by a thousandth or so,
//! so that large ones fill whole large pages of the host.

ghost use Rattle.std.specs.Prelude.{◌≡◌, ◌<◌, ◌^◌, vec_len};
ghost use Rattle.tc_segment.specs.Edges.{room_in, CanHaveRow, HasRow};
ghost use Rattle.tc_segment.specs.Kept.{HasMadeRoom, HasWordRoom};

use crate::packed::MOST_WORDS;
use crate::record::Record;
use std::alloc::AllocError;

/// How the room of a vector grows: what it is at first, what it is then at least, and for how many
/// whole elements the allocator's words stand.
struct Growth {
    first: usize,
    more: usize,
    before: usize,
}

/// How that of records grows.
const RECORDS: Growth = Growth {
    first: 568,
    more: 14_563,
    before: 0,
};

/// How that of words grows.
const WORDS: Growth = Growth {
    first: 8_188,
    more: 131_068,
    before: 4,
};

/// How many words at most become zeros at once. They take memory of the host before they are used.
const ZEROS: usize = 512;

impl Growth {
    /// The room that follows upon this one.
    fn after(&self, room: usize) -> usize {
        match room {
            0 => self.first,
            _ => self
                .more
                .max(room.saturating_mul(2).saturating_add(self.before)),
        }
    }
}

/// Makes room for so many records more.
pub(crate) fn make_records(records: &mut Vec<Record>, more: usize) -> Result<(), AllocError>
    ensures { HasMadeRoom more records.old records.new result }
{
    if more <= records.capacity() - records.len() {
        return Ok(());
    }
    grow_records(records, more)
}

#[cold]
#[inline(never)]
fn grow_records(records: &mut Vec<Record>, more: usize) -> Result<(), AllocError>
    ensures { HasMadeRoom more records.old records.new result }
{
    let room = RECORDS.after(records.capacity());
    let least = room.saturating_sub(records.len());
    records.reserve(more.max(least))
}

/// For how many words more there is room.
pub(crate) fn room_in(words: &Vec<u32>) -> usize
    requires { vec_len words.now < 2 ^ 32 }
    ensures { result ≡ room_in words.now }
{
    words.capacity().min(u32::MAX as usize) - words.len()
}

/// Makes room for so many words more. The place of a word is a number of 32 bits, so more words than
/// that are refused like memory that is not there.
pub(crate) fn make_words(words: &mut Vec<u32>, more: usize) -> Result<(), AllocError>
    requires { vec_len words.old < 2 ^ 32 }
    ensures { HasWordRoom more words.old words.new result }
{
    if more <= room_in(words) {
        return Ok(());
    }
    grow_words(words, more)
}

#[cold]
#[inline(never)]
fn grow_words(words: &mut Vec<u32>, more: usize) -> Result<(), AllocError>
    requires { vec_len words.old < 2 ^ 32 }
    ensures { HasWordRoom more words.old words.new result }
{
    let most = u32::MAX as usize;
    if more > most - words.len() {
        return Err(AllocError);
    }
    let room = WORDS.after(words.capacity());
    let least = room.saturating_sub(words.len());
    words.reserve(more.max(least))
}

/// Sees to it that as many words stand behind the end as registers take at most.
pub(crate) fn make_row(words: &mut Vec<u32>, end: usize)
    requires { CanHaveRow end words.old }
    ensures { HasRow end words.old words.new }
{
    if words.len() - end < MOST_WORDS {
        lengthen(words, end);
    }
}

/// Lengthens the words by zeros, within their room.
#[cold]
#[inline(never)]
fn lengthen(words: &mut Vec<u32>, end: usize)
    requires { CanHaveRow end words.old }
    ensures { HasRow end words.old words.new }
{
    let _ = end;
    let more = room_in(words).min(ZEROS);
    match words.resize(words.len() + more, 0) {
        Ok(()) => {}
        Err(_) => unreachable!(),
    }
}
