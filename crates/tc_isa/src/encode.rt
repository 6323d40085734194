//! From an instruction to its word.

ghost use Rattle.std.specs.Prelude.{◌≡◌, ◌<◌, Some};
ghost use Rattle.tc_isa.specs.Rows.{IsValid, from_fields, i_fields, r_fields, encoded, cond_code, load_code, store_code, op_code};
ghost use Rattle.tc_isa.specs.Reading.{decoded};

use crate::fields::{bits, then};
use crate::instr::{Cond, ImmOp, Instr, LoadKind, RegOp, StoreKind};
use crate::reg::Reg;

/// The code of a condition.
fn cond_code(cond: Cond) -> u32
    ensures value { result ≡ cond_code cond }
    ensures bound { result < 8 }
{
    match cond {
        Cond::Eq => 0,
        Cond::Ne => 1,
        Cond::Lt => 4,
        Cond::Ge => 5,
        Cond::Ltu => 6,
        Cond::Geu => 7,
    }
}

/// The code of a load.
fn load_code(kind: LoadKind) -> u32
    ensures value { result ≡ load_code kind }
    ensures bound { result < 8 }
{
    match kind {
        LoadKind::Lb => 0,
        LoadKind::Lh => 1,
        LoadKind::Lw => 2,
        LoadKind::Lbu => 4,
        LoadKind::Lhu => 5,
    }
}

/// The code of a store.
fn store_code(kind: StoreKind) -> u32
    ensures value { result ≡ store_code kind }
    ensures bound { result < 8 }
{
    match kind {
        StoreKind::Sb => 0,
        StoreKind::Sh => 1,
        StoreKind::Sw => 2,
    }
}

/// The codes of an operation on two registers.
fn op_code(op: RegOp) -> (u32, u32)
    ensures value { result ≡ op_code op }
    ensures bound { (result.0 < 128) × (result.1 < 8) }
{
    match op {
        RegOp::Add => (0, 0),
        RegOp::Sub => (32, 0),
        RegOp::Sll => (0, 1),
        RegOp::Slt => (0, 2),
        RegOp::Sltu => (0, 3),
        RegOp::Xor => (0, 4),
        RegOp::Srl => (0, 5),
        RegOp::Sra => (32, 5),
        RegOp::Or => (0, 6),
        RegOp::And => (0, 7),
        RegOp::Mul => (1, 0),
        RegOp::Mulh => (1, 1),
        RegOp::Mulhsu => (1, 2),
        RegOp::Mulhu => (1, 3),
        RegOp::Div => (1, 4),
        RegOp::Divu => (1, 5),
        RegOp::Rem => (1, 6),
        RegOp::Remu => (1, 7),
    }
}

/// A word whose lower fields are those of the I form.
fn i_word(high: u32, rs1: Reg, funct3: u32, rd: Reg, opcode: u32) -> u32
    requires high { high < 4096 }
    requires funct3 { funct3 < 8 }
    requires opcode { opcode < 128 }
    ensures { result ≡ from_fields (i_fields high rs1 funct3 rd opcode) }
{
    let word = then(high, 5, rs1.number());
    let word = then(word, 3, funct3);
    then(then(word, 5, rd.number()), 7, opcode)
}

/// A word of the R form.
fn r_word(funct7: u32, rs2: Reg, rs1: Reg, funct3: u32, low: u32, opcode: u32) -> u32
    requires funct7 { funct7 < 128 }
    requires funct3 { funct3 < 8 }
    requires low { low < 32 }
    requires opcode { opcode < 128 }
    ensures { result ≡ from_fields (r_fields funct7 rs2 rs1 funct3 low opcode) }
{
    let word = then(funct7, 5, rs2.number());
    let word = then(word, 5, rs1.number());
    let word = then(word, 3, funct3);
    then(then(word, 5, low), 7, opcode)
}

/// The word of an operation on an immediate.
fn imm_word(op: ImmOp, rd: Reg, rs1: Reg, imm: u32) -> u32
    requires { IsValid (Instr.Imm op rd rs1 imm) }
    ensures { result ≡ encoded (Instr.Imm op rd rs1 imm) }
{
    match op {
        ImmOp::Addi => i_word(bits(imm, 11, 0), rs1, 0, rd, 0x13),
        ImmOp::Slti => i_word(bits(imm, 11, 0), rs1, 2, rd, 0x13),
        ImmOp::Sltiu => i_word(bits(imm, 11, 0), rs1, 3, rd, 0x13),
        ImmOp::Xori => i_word(bits(imm, 11, 0), rs1, 4, rd, 0x13),
        ImmOp::Ori => i_word(bits(imm, 11, 0), rs1, 6, rd, 0x13),
        ImmOp::Andi => i_word(bits(imm, 11, 0), rs1, 7, rd, 0x13),
        ImmOp::Slli => i_word(imm, rs1, 1, rd, 0x13),
        ImmOp::Srli => i_word(imm, rs1, 5, rd, 0x13),
        ImmOp::Srai => i_word(then(32, 5, imm), rs1, 5, rd, 0x13),
    }
}

/// The word of a JAL.
fn jal_word(rd: Reg, off: u32) -> u32
    ensures { result ≡ encoded (Instr.Jal rd off) }
{
    let word = then(bits(off, 20, 20), 10, bits(off, 10, 1));
    let word = then(word, 1, bits(off, 11, 11));
    let word = then(word, 8, bits(off, 19, 12));
    then(then(word, 5, rd.number()), 7, 0x6f)
}

/// The word of a branch.
fn branch_word(cond: Cond, rs1: Reg, rs2: Reg, off: u32) -> u32
    ensures { result ≡ encoded (Instr.Branch cond rs1 rs2 off) }
{
    let high = then(bits(off, 12, 12), 6, bits(off, 10, 5));
    let low = then(bits(off, 4, 1), 1, bits(off, 11, 11));
    r_word(high, rs2, rs1, cond_code(cond), low, 0x63)
}

/// The word of an instruction, whatever `decode` answers at it.
fn word_of(instr: &Instr) -> u32
    requires { IsValid instr.now }
    ensures { result ≡ encoded instr.now }
{
    match *instr {
        Instr::Lui { rd, imm } => then(then(bits(imm, 31, 12), 5, rd.number()), 7, 0x37),
        Instr::Auipc { rd, imm } => then(then(bits(imm, 31, 12), 5, rd.number()), 7, 0x17),
        Instr::Jal { rd, off } => jal_word(rd, off),
        Instr::Jalr { rd, rs1, off } => i_word(bits(off, 11, 0), rs1, 0, rd, 0x67),
        Instr::Branch {
            cond,
            rs1,
            rs2,
            off,
        } => branch_word(cond, rs1, rs2, off),
        Instr::Load { kind, rd, rs1, off } => {
            i_word(bits(off, 11, 0), rs1, load_code(kind), rd, 0x03)
        }
        Instr::Store {
            kind,
            rs1,
            rs2,
            off,
        } => {
            r_word(
                bits(off, 11, 5),
                rs2,
                rs1,
                store_code(kind),
                bits(off, 4, 0),
                0x23,
            )
        }
        Instr::Imm { op, rd, rs1, imm } => imm_word(op, rd, rs1, imm),
        Instr::Op { op, rd, rs1, rs2 } => {
            let (funct7, funct3) = op_code(op);
            r_word(funct7, rs2, rs1, funct3, rd.number(), 0x33)
        }
        Instr::Fence { rd, rs1, imm } => i_word(imm, rs1, 0, rd, 0x0f),
        Instr::Ecall => 0x73,
        Instr::Ebreak => 0x0010_0073,
    }
}

/// The word of an instruction whose fields are in their ranges, as `is_valid` tests.
pub fn encode(instr: &Instr) -> u32
    requires { IsValid instr.now }
    ensures word { result ≡ encoded instr.now }
    // `decode` gives the instruction back.
    ensures decodes { decoded result ≡ Some instr.now }
{
    word_of(instr)
}
