//! Lines in one array, written from the end to the front. The last digit of a number is computed
//! first, so digits are written where they stay and need not be counted.

ghost use Rattle.std.specs.Prelude.{◌≡◌, ℕ, ◌+◌, ◌/◌, ◌%◌, ◌^◌, ◌<◌, ◌≤◌, ◌∷◌, ◌++◌, [], false, decimal, drop, length, IsUtf8};
ghost use Rattle.std.specs.Fmt.{digit_glyph};
ghost use Rattle.tc_journal.specs.Digits.{hex2, hex8};

use itoa::write_digits;
use std::marker::Model;
use std::str::from_utf8_unchecked;

/// How many bytes the line of a block has at most.
pub const LINE: usize = 240;

/// How many lines a buffer takes.
pub(crate) const LINES: usize = 16;

/// How many bytes a buffer takes: room for so many lines.
pub(crate) const ROOM: usize = 3_840;

/// How many bytes a row has.
pub(crate) const ROW: usize = 16;

/// The text that is written so far. Contracts see its bytes. The array is the caller's, so that the
/// start of the text stays in a register while a line is written.
#[derive(Drop)]
pub(crate) struct Buffer<'a> {
    bytes: &'a mut [u8; ROOM],
    start: usize,
}

impl<'a> Model for Buffer<'a> {
    ghost use Rattle.std.specs.Prelude.{◌≡◌, ℕ, List, ◌≤◌, length, drop, IsUtf8};
    ghost use Rattle.tc_journal.specs.declared.buffer.TheConstants.{ROOM};

    ghost Value = { List ℕ };

    ghost view = { λ b. drop b.start b.bytes.now };

    ghost invariant = { λ b. (length b.bytes.now ≡ ROOM) × (b.start ≤ ROOM)
        × ∥ IsUtf8 (drop b.start b.bytes.now) ∥₁ };
}

/// The two digits of each byte, byte after byte.
static PAIRS: [u8; 512] =
    *b"000102030405060708090a0b0c0d0e0f101112131415161718191a1b1c1d1e1f202122232425262728292a2b2c2d2e2f303132333435363738393a3b3c3d3e3f404142434445464748494a4b4c4d4e4f505152535455565758595a5b5c5d5e5f606162636465666768696a6b6c6d6e6f707172737475767778797a7b7c7d7e7f808182838485868788898a8b8c8d8e8f909192939495969798999a9b9c9d9e9fa0a1a2a3a4a5a6a7a8a9aaabacadaeafb0b1b2b3b4b5b6b7b8b9babbbcbdbebfc0c1c2c3c4c5c6c7c8c9cacbcccdcecfd0d1d2d3d4d5d6d7d8d9dadbdcdddedfe0e1e2e3e4e5e6e7e8e9eaebecedeeeff0f1f2f3f4f5f6f7f8f9fafbfcfdfeff";

/// The two decimal digits of each number below 100, number after number.
static DECIMALS: [u8; 200] =
    *b"00010203040506070809101112131415161718192021222324252627282930313233343536373839404142434445464748495051525354555657585960616263646566676869707172737475767778798081828384858687888990919293949596979899";

/// The two digits of a byte.
fn digits_of(byte: u8) -> (u8, u8)
    ensures high { result.0 ≡ digit_glyph false (byte / 16) }
    ensures low { result.1 ≡ digit_glyph false (byte % 16) }
{
    let from = byte as usize * 2;
    (PAIRS[from], PAIRS[from + 1])
}

/// Writes the digits of a byte from an offset on.
pub(crate) fn write_byte(bytes: &mut [u8], at: usize, byte: u8)
    requires { at + 2 ≤ length bytes.old }
    ensures { drop at bytes.new ≡ hex2 byte ++ drop (at + 2) bytes.old }
{
    let (high, low) = digits_of(byte);
    bytes[at] = high;
    bytes[at + 1] = low;
}

/// The two decimal digits of a number below 100.
fn decimals_of(number: u64) -> (u8, u8)
    requires { number < 100 }
    ensures tens { result.0 ≡ 48 + number / 10 }
    ensures ones { result.1 ≡ 48 + number % 10 }
{
    let from = number as usize * 2;
    (DECIMALS[from], DECIMALS[from + 1])
}

/// Writes the two decimal digits of a number below 100 from an offset on.
fn write_decimals(bytes: &mut [u8], at: usize, number: u64)
    requires small { number < 100 }
    requires room { at + 2 ≤ length bytes.old }
    ensures { drop at bytes.new
        ≡ (48 + number / 10) ∷ (48 + number % 10) ∷ drop (at + 2) bytes.old }
{
    let (tens, ones) = decimals_of(number);
    bytes[at] = tens;
    bytes[at + 1] = ones;
}

/// Writes the digits of a word from an offset on, those of its last byte first.
#[tactic(auto, unfolding(crate::specs::Digits::hex8))]
pub(crate) fn write_word(bytes: &mut [u8], at: usize, word: u32)
    requires { at + 8 ≤ length bytes.old }
    ensures { drop at bytes.new ≡ hex8 word ++ drop (at + 8) bytes.old }
{
    write_byte(bytes, at + 6, (word & 0xff) as u8);
    write_byte(bytes, at + 4, (word >> 8 & 0xff) as u8);
    write_byte(bytes, at + 2, (word >> 16 & 0xff) as u8);
    write_byte(bytes, at, (word >> 24 & 0xff) as u8);
}

/// Writes a text from an offset on, its last byte first. The texts of a line are short constants,
/// so that this compiles to a few stores.
pub(crate) fn write_text(bytes: &mut [u8], at: usize, text: &[u8])
    requires { at + length text.now ≤ length bytes.old }
    ensures { drop at bytes.new ≡ text.now ++ drop (at + length text.now) bytes.old }
{
    let mut left = text.len();
    while left > 0 {
        left -= 1;
        bytes[at + left] = text[left];
    }
}

/// Writes the digits of a number so that they end at an offset, and returns where they start. Most
/// numbers of a line have one digit, so that case comes first.
#[inline(always)]
fn write_number(number: u64, bytes: &mut [u8], end: usize) -> usize
    requires { (length (decimal number) ≤ end) × (end ≤ length bytes.old) }
    ensures start { result + length (decimal number) ≡ end }
    ensures written { drop result bytes.new ≡ decimal number ++ drop end bytes.old }
{
    if number < 10 {
        bytes[end - 1] = b'0' + number as u8;
        return end - 1;
    }
    write_digits(number, bytes, end)
}

impl<'a> Buffer<'a> {
    /// An empty buffer of this room.
    pub fn new(bytes: &'a mut [u8; ROOM]) -> Buffer<'a>
        ensures { result ≡ [] }
    {
        Buffer { bytes, start: ROOM }
    }

    /// Prepends a text.
    pub fn put_str(&mut self, text: &str)
        requires { length text.now + length self.old ≤ ROOM }
        ensures value { self.new ≡ text.now ++ self.old }
        ensures len { length self.new ≡ length text.now + length self.old }
    {
        let at = self.start - text.len();
        write_text(self.bytes, at, text.as_bytes());
        self.start = at;
    }

    /// Prepends a number.
    #[inline(always)]
    pub fn put_number(&mut self, number: u64)
        requires { 20 + length self.old ≤ ROOM }
        ensures value { self.new ≡ decimal number ++ self.old }
        ensures len { length self.new ≤ 20 + length self.old }
        ensures word { number < 2 ^ 32 → length self.new ≤ 10 + length self.old }
        ensures lock { number < 100 → length self.new ≤ 2 + length self.old }
    {
        let end = self.start;
        self.start = write_number(number, self.bytes, end);
    }

    /// Prepends a word, as eight digits.
    #[tactic(auto, unfolding(crate::specs::Digits::hex8))]
    pub fn put_word(&mut self, word: u32)
        requires { 8 + length self.old ≤ ROOM }
        ensures value { self.new ≡ hex8 word ++ self.old }
        ensures len { length self.new ≡ 8 + length self.old }
    {
        let at = self.start - 8;
        write_word(self.bytes, at, word);
        self.start = at;
    }

    /// Prepends a number below 100, as two digits.
    #[inline(always)]
    pub fn put_pair(&mut self, number: u64)
        requires small { number < 100 }
        requires room { 2 + length self.old ≤ ROOM }
        ensures { self.new ≡ (48 + number / 10) ∷ (48 + number % 10) ∷ self.old }
    {
        let at = self.start - 2;
        write_decimals(self.bytes, at, number);
        self.start = at;
    }

    /// Prepends the text that a row has from an index on. The whole row is copied, since a copy of
    /// a fixed length is short: what is then in front of the text is no part of it.
    #[inline(always)]
    pub fn put_row(&mut self, row: &[u8; ROW], from: usize)
        requires text { (from ≤ ROW) × IsUtf8 (drop from row.now) }
        requires room { ROW + length self.old ≤ ROOM }
        ensures { self.new ≡ drop from row.now ++ self.old }
    {
        let at = self.start - ROW;
        write_text(self.bytes, at, row);
        self.start = at + from;
    }

    /// The text that is written. Each part that was prepended is text, so the whole is text too.
    /// That is proved and not tested, since a test would scan each line once more.
    pub fn into_str(self) -> &'a str
        ensures { result.now ≡ self.entry }
    {
        let Buffer { bytes, start } = self;
        unsafe { from_utf8_unchecked(&bytes[start..]) }
    }
}
