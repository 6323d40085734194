//! What a printed line may mean.
//!
//! The functions here find the block of every line that is printed for a block. They may also make
//! a block of another line: `reading` prints the block again, and compares.

ghost use Rattle.std.specs.Prelude.{◌≡◌, ◌==◌, ℕ, ◌^◌, ◌<◌, ◌≤◌, ◌++◌, is_some, List, Option, Some, IfSome, MatchBool, codes, decimal, length, position};
ghost use Rattle.tc_isa.specs.Sets.{locks_of};
ghost use Rattle.tc_isa.specs.declared.limits.TheConstants.{MAX_TURNS};
ghost use Rattle.tc_isa.specs.declared.held.TheConstants.Held.{PLACES};
ghost use Rattle.tc_journal.specs.Digits.{hex8};
ghost use Rattle.tc_journal.specs.History.{IsTold, IsEnd};
ghost use Rattle.tc_journal.specs.Line as spec;
ghost use Rattle.tc_journal.specs.Spelling.{before, behind, value_of, rest_of, end_word, end_number, from_pc};
ghost use Rattle.tc_journal.specs.Told.{Told, block_of, pc_or_0, told_if};
ghost use Rattle.tc_journal.specs.declared.block.Kind.{Kind as KindValue};
ghost use Rattle.tc_journal.specs.declared.block.End.{End as EndValue};

use crate::block::{Block, End, Kind};
use hex::FromHex;
use std::str::from_utf8;
use tc_isa::fault::Fault;
use tc_isa::held::Held;
use tc_isa::limits::MAX_TURNS;

/// The index of the first such byte.
fn place_of(text: &[u8], stop: u8) -> Option<usize>
    ensures { result ≡ position (λ byte. byte == stop) text.now }
{
    text.iter().position(|byte| *byte == stop)
}

/// What comes before the first such byte, or all, and what follows it.
#[tactic(auto, unfolding(crate::specs::Spelling::before, crate::specs::Spelling::behind))]
fn split_at_byte(text: &[u8], stop: u8) -> (&[u8], &[u8])
    ensures before { result.0.now ≡ before stop text.now }
    ensures behind { result.1.now ≡ behind stop text.now }
    ensures shorter { 0 < length text.now → length result.1.now < length text.now }
{
    match place_of(text, stop) {
        Some(at) => (&text[..at], &text[at + 1..]),
        None => (text, &[]),
    }
}

/// The value behind the name at the start, and what follows.
fn field(text: &[u8]) -> (&[u8], &[u8])
    ensures value { result.0.now ≡ value_of text.now }
    ensures rest { result.1.now ≡ rest_of text.now }
{
    let (_, text) = split_at_byte(text, b' ');
    split_at_byte(text, b' ')
}

fn number(word: &[u8]) -> Option<u64>
    ensures { (n : ℕ) → n < 2 ^ 64 → word.now ≡ decimal n → result ≡ Some n }
{
    match from_utf8(word) {
        Ok(text) => text.parse::<u64>().ok(),
        Err(_) => None,
    }
}

fn small_number(word: &[u8]) -> Option<u32>
    ensures { (n : ℕ) → n < 2 ^ 32 → word.now ≡ decimal n → result ≡ Some n }
{
    u32::try_from(number(word)?).ok()
}

fn number_of_turns(word: &[u8]) -> Option<u32>
    ensures value { (n : ℕ) → 1 ≤ n → n ≤ MAX_TURNS → word.now ≡ decimal n → result ≡ Some n }
    ensures bounds { IfSome result (λ turns. (1 ≤ turns) × (turns ≤ MAX_TURNS)) }
{
    small_number(word).filter(|turns| (1..=MAX_TURNS).contains(turns))
}

fn lock(word: &[u8]) -> Option<u32>
    ensures value { (n : ℕ) → n < PLACES → word.now ≡ decimal n → result ≡ Some n }
    ensures bound { IfSome result (λ lock. lock < PLACES) }
{
    small_number(word).filter(|lock| *lock < Held::PLACES)
}

/// Whether a list of locks is empty.
fn is_dash(word: &[u8]) -> bool
    ensures { MatchBool result (word.now ≡ codes "-") (word.now ≡ codes "-" → ⊥) }
{
    word == b"-".as_slice()
}

/// The locks of a list with commas between them, or a dash for none.
fn held(word: &[u8]) -> Option<Held>
    ensures value { (held : ℕ)
        → held < 2 ^ 32 → word.now ≡ spec.numbers_text (locks_of held) → result ≡ Some held }
    ensures bound { IfSome result (λ held. held < 2 ^ 32) }
{
    let mut held = Held::none();
    if is_dash(word) {
        return Some(held);
    }
    let mut rest = word;
    while !rest.is_empty() {
        let (number, behind) = split_at_byte(rest, b',');
        held = held.plus(lock(number)?);
        rest = behind;
    }
    Some(held)
}

fn kind(word: &[u8]) -> Option<Kind>
    ensures { (kind : KindValue) → word.now ≡ spec.kind_text kind → result ≡ Some kind }
{
    match word {
        b"start" => Some(Kind::Start),
        b"on" => Some(Kind::On),
        b"taken" => Some(Kind::Taken),
        b"adopted" => Some(Kind::Adopted),
        b"granted" => Some(Kind::Granted),
        _ => None,
    }
}

fn end(word: &[u8], number: &[u8]) -> Option<End>
    ensures value { (end : EndValue)
        → IsEnd end → word.now ≡ end_word end → number.now ≡ end_number end → result ≡ Some end }
    ensures valid { IfSome result (λ end. IsEnd end) }
{
    match word {
        b"wants" => Some(End::Wants(lock(number)?)),
        b"unlocked" => Some(End::Unlocked(lock(number)?)),
        b"slept" => Some(End::Slept),
        b"cut" => Some(End::Cut),
        b"exit" => Some(End::Exit),
        b"fault" => Some(End::Fault(Fault::of_number(small_number(number)?)?)),
        b"spent" => Some(End::Spent),
        _ => None,
    }
}

/// A word of eight digits.
fn hex_word(word: &[u8]) -> Option<u32>
    ensures { (n : ℕ) → n < 2 ^ 32 → word.now ≡ hex8 n → result ≡ Some n }
{
    let bytes = <[u8; 4] as FromHex>::from_hex(word).ok()?;
    Some(u32::from_be_bytes(bytes))
}

/// The pc at the start of what follows a line's worker, if the form has one, else 0; and the
/// rest.
fn pc_and_rest(text: &[u8], has_pc: bool) -> (Option<u32>, &[u8])
    ensures { (pc : Option ℕ) (more : List ℕ) → is_some pc ≡ has_pc
        → IfSome pc (λ n. n < 2 ^ 32) → text.now ≡ from_pc pc more
        → (result.0 ≡ Some (pc_or_0 pc)) × (result.1.now ≡ more) }
{
    if !has_pc {
        return (Some(0), text);
    }
    let (word, rest) = field(text);
    (hex_word(word), rest)
}

/// A block whose line may be a prefix of a text, with a pc or in the old form.
pub(crate) fn block_at_front(text: &[u8], has_pc: bool) -> Option<Block>
    ensures every { (t : Told) (more : List ℕ)
        → IsTold t → is_some t.pc ≡ has_pc → text.now ≡ spec.told_line t ++ more
        → result ≡ Some (block_of t) }
    ensures valid { IfSome result (λ b. IsTold (told_if has_pc b)) }
{
    let (stamp, rest) = field(text);
    let (thread, rest) = field(rest);
    let (turns, rest) = field(rest);
    let (locks, rest) = field(rest);
    let (kind_word, rest) = field(rest);
    let (worker, rest) = field(rest);
    let (pc, rest) = pc_and_rest(rest, has_pc);
    let (_, rest) = split_at_byte(rest, b' ');
    let (end_text, _) = split_at_byte(rest, b'\n');
    let (end_word, end_number) = split_at_byte(end_text, b' ');
    Some(Block {
        stamp: number(stamp)?,
        thread: small_number(thread)?,
        turns: number_of_turns(turns)?,
        held: held(locks)?,
        kind: kind(kind_word)?,
        worker: small_number(worker)?,
        pc: pc?,
        end: end(end_word, end_number)?,
    })
}
