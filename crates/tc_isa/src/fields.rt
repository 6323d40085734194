//! The fields of an instruction word (RISC-V Unprivileged ISA, "Base Instruction Formats" and
//! "Immediate Encoding Variants").

ghost use Rattle.std.specs.Prelude.{◌≡◌, ℕ, ◌+◌, ◌-◌, ◌*◌, ◌^◌, ◌<◌, ◌≤◌};
ghost use Rattle.tc_isa.specs.Rows.{bits};
ghost use Rattle.tc_isa.specs.Reading.{IsSplit, fields_of, signed};

use crate::reg::Reg;

/// Bits `high` to `low` of a word, both among them, as the number that they write.
pub(crate) fn bits(word: u32, high: u32, low: u32) -> u32
    requires low { low ≤ high }
    requires high { high < 32 }
    ensures value { result ≡ bits high low word }
    ensures bound { result < 2 ^ (high + 1 - low) }
{
    (word >> low) & (u32::MAX >> (31 - (high - low)))
}

/// The bits `high` with a field of `width` bits after them, lower than they.
pub(crate) fn then(high: u32, width: u32, field: u32) -> u32
    requires width { width < 32 }
    requires field { field < 2 ^ width }
    requires fits { high * 2 ^ width + field < 2 ^ 32 }
    ensures { result ≡ high * 2 ^ width + field }
{
    (high << width) | field
}

/// A number of `width` bits, extended from its highest bit to 32 bits in two's complement.
pub(crate) fn sign_extended(width: u32, number: u32) -> u32
    requires low { 1 ≤ width }
    requires high { width < 32 }
    requires number { number < 2 ^ width }
    ensures { result ≡ signed width number }
{
    if number >> (width - 1) == 0 {
        number
    } else {
        number + (u32::MAX - ((1 << width) - 1))
    }
}

/// The six fields of a word in the R form. The other forms have their immediates in the same
/// places.
#[derive(Clone, Copy)]
pub(crate) struct Fields {
    /// Bits 31 to 25.
    pub(crate) funct7: u32,
    /// Bits 24 to 20.
    pub(crate) rs2: Reg,
    /// Bits 19 to 15.
    pub(crate) rs1: Reg,
    /// Bits 14 to 12.
    pub(crate) funct3: u32,
    /// Bits 11 to 7.
    pub(crate) rd: Reg,
    /// Bits 6 to 0.
    pub(crate) opcode: u32,
}

impl Fields {
    /// The fields of a word.
    pub(crate) fn of(word: u32) -> Fields
        ensures value { result ≡ fields_of word }
        ensures split { IsSplit word result }
    {
        Fields {
            funct7: bits(word, 31, 25),
            rs2: Reg::of(bits(word, 24, 20)),
            rs1: Reg::of(bits(word, 19, 15)),
            funct3: bits(word, 14, 12),
            rd: Reg::of(bits(word, 11, 7)),
            opcode: bits(word, 6, 0),
        }
    }
}
