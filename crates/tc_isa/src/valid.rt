//! Which values of `Instr` have a word.

ghost use Rattle.std.specs.Prelude.{◌≡◌, ◌<◌, ◌≤◌, ◌↔◌, IsTrue};
ghost use Rattle.tc_isa.specs.Rows.{IsSigned, IsImmediate, IsValid, IsEven};

use crate::instr::{ImmOp, Instr};

/// Whether a number of 32 bits in two's complement fits in `width` bits.
fn is_signed(width: u32, number: u32) -> bool
    requires low { 1 ≤ width }
    requires high { width ≤ 32 }
    ensures { IsTrue result ↔ IsSigned width number }
{
    let half = 1 << (width - 1);
    number < half || number >= u32::MAX - (half - 1)
}

/// Whether a number is an immediate of the operation.
fn is_immediate(op: ImmOp, number: u32) -> bool
    ensures { IsTrue result ↔ IsImmediate op number }
{
    match op {
        ImmOp::Slli | ImmOp::Srli | ImmOp::Srai => number < 32,
        ImmOp::Addi | ImmOp::Slti | ImmOp::Sltiu | ImmOp::Xori | ImmOp::Ori | ImmOp::Andi =>
            is_signed(12, number),
    }
}

impl Instr {
    /// Whether its fields are in their ranges, so that it has a word.
    ///
    /// Offsets and immediates are read in two's complement: even numbers from -1,048,576 to
    /// 1,048,574 for JAL, even ones from -4,096 to 4,094 for a branch, and from -2,048 to 2,047
    /// elsewhere. A number of places is from 0 to 31, and the low 12 bits of an upper immediate
    /// are 0.
    pub fn is_valid(&self) -> bool
        ensures { IsTrue result ↔ IsValid self.now }
    {
        match *self {
            Instr::Lui { rd, imm } | Instr::Auipc { rd, imm } => rd.number() < 32
                && imm % 4096 == 0,
            Instr::Jal { rd, off } => rd.number() < 32 && is_signed(21, off) && off % 2 == 0,
            Instr::Jalr { rd, rs1, off } | Instr::Load { rd, rs1, off, .. } => {
                rd.number() < 32 && rs1.number() < 32 && is_signed(12, off)
            }
            Instr::Branch { rs1, rs2, off, .. } => {
                rs1.number() < 32 && rs2.number() < 32 && is_signed(13, off) && off % 2 == 0
            }
            Instr::Store { rs1, rs2, off, .. } => {
                rs1.number() < 32 && rs2.number() < 32 && is_signed(12, off)
            }
            Instr::Imm { op, rd, rs1, imm } => {
                rd.number() < 32 && rs1.number() < 32 && is_immediate(op, imm)
            }
            Instr::Op { rd, rs1, rs2, .. } => {
                rd.number() < 32 && rs1.number() < 32 && rs2.number() < 32
            }
            Instr::Fence { rd, rs1, imm } => rd.number() < 32 && rs1.number() < 32 && imm < 4096,
            Instr::Ecall | Instr::Ebreak => true,
        }
    }
}
