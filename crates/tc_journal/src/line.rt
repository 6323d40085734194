//! The printed line of a block, in its form and in the old form.
//!
//! The parts of a line are always inlined, so that the start of the text stays in a register.

ghost use Rattle.std.specs.Prelude.{◌≡◌, ◌+◌, ◌*◌, ◌<◌, ◌≤◌, ◌++◌, [], OnErr, OnOk, codes, decimal, length, map, string_bytes, string_capacity, string_len};
ghost use Rattle.tc_journal.specs.Line as spec;
ghost use Rattle.tc_journal.specs.Told.{Told, without_pc};
ghost use Rattle.tc_isa.specs.Sets.{locks_of};

use crate::block::{Block, End, Kind};
pub use crate::buffer::LINE;
use crate::buffer::{Buffer, LINES, ROOM};
use crate::head::Head;
use std::alloc::AllocError;
use tc_isa::held::Held;

/// Prepends the numbers of a set of locks behind the word `held`, in ascending order with commas
/// between, or a dash.
#[inline(always)]
fn put_held(line: &mut Buffer<'_>, held: Held)
    requires { 120 + length line.old ≤ ROOM }
    ensures value { line.new ≡ codes " held " ++ (spec.numbers_text (locks_of held) ++ line.old) }
    ensures len { length line.new ≤ 106 + length line.old }
{
    let Some(greatest) = held.greatest() else {
        return line.put_str(" held -");
    };
    line.put_number(u64::from(greatest));
    let mut left = held.less(greatest);
    while let Some(lock) = left.greatest() {
        line.put_str(",");
        line.put_number(u64::from(lock));
        left = left.less(lock);
    }
    line.put_str(" held ");
}

/// Prepends a kind, with the words round it.
#[inline(always)]
fn put_kind(line: &mut Buffer<'_>, kind: Kind)
    requires { 21 + length line.old ≤ ROOM }
    ensures value { line.new
        ≡ codes " kind " ++ (spec.kind_text kind ++ (codes " worker " ++ line.old)) }
    ensures len { length line.new ≤ 21 + length line.old }
{
    match kind {
        Kind::Start => line.put_str(" kind start worker "),
        Kind::On => line.put_str(" kind on worker "),
        Kind::Taken => line.put_str(" kind taken worker "),
        Kind::Adopted => line.put_str(" kind adopted worker "),
        Kind::Granted => line.put_str(" kind granted worker "),
    }
}

/// Prepends the end of a line, which is a number behind these words.
#[inline(always)]
fn put_last(line: &mut Buffer<'_>, words: &str, number: u32)
    requires { 21 + length words.now + length line.old ≤ ROOM }
    ensures value { line.new ≡ words.now ++ (decimal number ++ (codes "\n" ++ line.old)) }
    ensures len { length line.new ≤ 11 + length words.now + length line.old }
{
    line.put_str("\n");
    line.put_number(u64::from(number));
    line.put_str(words);
}

/// Prepends an end behind the word `end`, and the newline.
#[inline(always)]
fn put_end(line: &mut Buffer<'_>, end: End)
    requires { 40 + length line.old ≤ ROOM }
    ensures value { line.new
        ≡ codes " end " ++ (spec.end_text end ++ (codes "\n" ++ line.old)) }
    ensures len { length line.new ≤ 25 + length line.old }
{
    match end {
        End::Wants(lock) => put_last(line, " end wants ", lock),
        End::Unlocked(lock) => put_last(line, " end unlocked ", lock),
        End::Slept => line.put_str(" end slept\n"),
        End::Cut => line.put_str(" end cut\n"),
        End::Exit => line.put_str(" end exit\n"),
        End::Fault(fault) => put_last(line, " end fault ", fault.number()),
        End::Spent => line.put_str(" end spent\n"),
    }
}

/// Prepends the part of a line that has a pc, if there is one.
#[inline(always)]
fn put_pc(line: &mut Buffer<'_>, pc: Option<u32>)
    requires { 12 + length line.old ≤ ROOM }
    ensures value { line.new ≡ spec.pc_text pc ++ line.old }
    ensures len { length line.new ≤ 12 + length line.old }
{
    if let Some(pc) = pc {
        line.put_word(pc);
        line.put_str(" pc ");
    }
}

/// Prepends the line of a block behind its stamp, with this pc, or with none in the old form.
#[inline(always)]
fn put_rest(line: &mut Buffer<'_>, block: &Block, pc: Option<u32>)
    requires { 220 + length line.old ≤ ROOM }
    ensures value { (t : Told) → t ≡ record { block = without_pc block.now; pc = pc }
        → codes "block " ++ (decimal t.block.stamp ++ line.new) ≡ spec.told_line t ++ line.old }
    ensures len { length line.new ≤ 210 + length line.old }
{
    put_end(line, block.end);
    put_pc(line, pc);
    line.put_number(u64::from(block.worker));
    put_kind(line, block.kind);
    put_held(line, block.held);
    line.put_number(u64::from(block.turns));
    line.put_str(" turns ");
    line.put_number(u64::from(block.thread));
    line.put_str(" thread ");
}

/// Prepends the line of a block, with this pc, or with none in the old form.
#[inline(always)]
pub(crate) fn put_line(line: &mut Buffer<'_>, block: &Block, pc: Option<u32>)
    requires { LINE + length line.old ≤ ROOM }
    ensures { line.new ≡ spec.told_line (record { block = without_pc block.now; pc = pc }) ++ line.old }
{
    put_rest(line, block, pc);
    line.put_number(block.stamp);
    line.put_str("block ");
}

/// Prepends the word `block` and a stamp. The stamps of a history follow one another, so most lines
/// find the head that they need.
#[inline(always)]
fn put_stamp(line: &mut Buffer<'_>, head: &mut Head, stamp: u64)
    requires { 26 + length line.old ≤ ROOM }
    ensures value { line.new ≡ codes "block " ++ (decimal stamp ++ line.old) }
    ensures len { length line.new ≤ 26 + length line.old }
{
    if head.fit(stamp) {
        head.put(line, stamp);
    } else {
        line.put_number(stamp);
        line.put_str("block ");
    }
}

/// Prepends the lines of a few blocks, the last one first.
fn put_lines(lines: &mut Buffer<'_>, head: &mut Head, blocks: &[&Block])
    requires empty { lines.old ≡ [] }
    requires few { length blocks.now ≤ LINES }
    ensures value { lines.new ≡ spec.history_text (map (λ b. b.now) blocks.now) }
    ensures len { length lines.new ≤ LINE * length blocks.now }
{
    let mut left = blocks.len();
    while left > 0 {
        left -= 1;
        put_rest(lines, blocks[left], Some(blocks[left].pc));
        put_stamp(lines, head, blocks[left].stamp);
    }
}

/// Appends the lines of a history, whose blocks are stored in different places, to a text. Several
/// lines are appended at once. The capacity never shrinks, and the call fails only if memory runs
/// out.
pub fn push_lent(text: &mut String, history: &[&Block]) -> Result<(), AllocError>
    ensures bytes { OnOk result
        (string_bytes text.new ≡ string_bytes text.old
        ++ spec.history_text (map (λ b. b.now) history.now)) }
    ensures capacity { string_capacity text.old ≤ string_capacity text.new }
    ensures full { OnErr result
        (string_capacity text.old < string_len text.old + LINE * length history.now) }
{
    let mut room = [0; ROOM];
    let mut head = Head::new();
    let mut done = 0;
    while done < history.len() {
        let from = done;
        done += LINES.min(history.len() - from);
        let mut lines = Buffer::new(&mut room);
        put_lines(&mut lines, &mut head, &history[from..done]);
        text.push_str(lines.into_str())?;
    }
    Ok(())
}
