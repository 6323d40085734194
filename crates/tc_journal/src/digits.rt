//! Hexadecimal digits of fixed width, as lines and reports print words and bytes.

ghost use Rattle.std.specs.Prelude.{◌≡◌, IsUtf8};
ghost use Rattle.tc_journal.specs.Digits.{hex2, hex8};

use crate::buffer::{write_byte, write_word};
use std::fmt;
use std::str::from_utf8_unchecked;

/// The digits of a byte, which are text.
fn pair_of(byte: u8) -> [u8; 2]
    ensures digits { result ≡ hex2 byte }
    ensures text { IsUtf8 (hex2 byte) }
{
    let mut digits = [0; 2];
    write_byte(&mut digits, 0, byte);
    digits
}

/// A byte as two lower-case hexadecimal digits.
#[derive(Clone, Copy)]
pub struct Hex2(pub u8);

impl fmt::Display for Hex2 {
    ghost use Rattle.std.specs.Prelude.{Some};
    ghost use Rattle.tc_journal.specs.Digits.{hex2};

    ghost output = { λ h. Some (hex2 h.0) };

    fn fmt<W: fmt::Write>(&self, f: &mut fmt::Formatter<W>) -> fmt::Result {
        let digits = pair_of(self.0);
        f.write_str(unsafe { from_utf8_unchecked(&digits) })
    }
}

/// The digits of a word.
fn eight_of(word: u32) -> [u8; 8]
    ensures { result ≡ hex8 word }
{
    let mut digits = [0; 8];
    write_word(&mut digits, 0, word);
    digits
}

/// A word as eight lower-case hexadecimal digits.
#[derive(Clone, Copy)]
pub struct Hex8(pub u32);

impl fmt::Display for Hex8 {
    ghost use Rattle.std.specs.Prelude.{Some};
    ghost use Rattle.tc_journal.specs.Digits.{hex8};

    ghost output = { λ h. Some (hex8 h.0) };

    fn fmt<W: fmt::Write>(&self, f: &mut fmt::Formatter<W>) -> fmt::Result {
        let digits = eight_of(self.0);
        f.write_str(unsafe { from_utf8_unchecked(&digits) })
    }
}
