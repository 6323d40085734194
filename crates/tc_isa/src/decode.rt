//! From a word to its instruction (RISC-V Unprivileged ISA, chapter "RV32/64G Instruction Set
//! Listings", tables "RV32I Base Instruction Set" and "RV32M Standard Extension").

ghost use Rattle.std.specs.Prelude.{◌≡◌, Some, IfSome};
ghost use Rattle.tc_isa.specs.Rows.{Decodes};
ghost use Rattle.tc_isa.specs.Reading as reading;
ghost use Rattle.tc_isa.specs.declared.instr.Instr.{Instr as Instruction};

use crate::fields::{Fields, bits, sign_extended, then};
use crate::instr::{Cond, ImmOp, Instr, LoadKind, RegOp, StoreKind};

/// The condition of a branch by its code.
fn cond_of(code: u32) -> Option<Cond>
    ensures { result ≡ reading.cond_of code }
{
    match code {
        0 => Some(Cond::Eq),
        1 => Some(Cond::Ne),
        4 => Some(Cond::Lt),
        5 => Some(Cond::Ge),
        6 => Some(Cond::Ltu),
        7 => Some(Cond::Geu),
        _ => None,
    }
}

/// The load of a code.
fn load_of(code: u32) -> Option<LoadKind>
    ensures { result ≡ reading.load_of code }
{
    match code {
        0 => Some(LoadKind::Lb),
        1 => Some(LoadKind::Lh),
        2 => Some(LoadKind::Lw),
        4 => Some(LoadKind::Lbu),
        5 => Some(LoadKind::Lhu),
        _ => None,
    }
}

/// The store of a code.
fn store_of(code: u32) -> Option<StoreKind>
    ensures { result ≡ reading.store_of code }
{
    match code {
        0 => Some(StoreKind::Sb),
        1 => Some(StoreKind::Sh),
        2 => Some(StoreKind::Sw),
        _ => None,
    }
}

/// The operation on an immediate by its codes. Only shifts use funct7.
fn imm_of(funct7: u32, funct3: u32) -> Option<ImmOp>
    ensures { result ≡ reading.imm_of funct7 funct3 }
{
    match (funct3, funct7) {
        (0, _) => Some(ImmOp::Addi),
        (2, _) => Some(ImmOp::Slti),
        (3, _) => Some(ImmOp::Sltiu),
        (4, _) => Some(ImmOp::Xori),
        (6, _) => Some(ImmOp::Ori),
        (7, _) => Some(ImmOp::Andi),
        (1, 0) => Some(ImmOp::Slli),
        (5, 0) => Some(ImmOp::Srli),
        (5, 32) => Some(ImmOp::Srai),
        _ => None,
    }
}

/// The operation on two registers by its codes.
fn op_of(funct7: u32, funct3: u32) -> Option<RegOp>
    ensures { result ≡ reading.op_of funct7 funct3 }
{
    match (funct7, funct3) {
        (0, 0) => Some(RegOp::Add),
        (32, 0) => Some(RegOp::Sub),
        (0, 1) => Some(RegOp::Sll),
        (0, 2) => Some(RegOp::Slt),
        (0, 3) => Some(RegOp::Sltu),
        (0, 4) => Some(RegOp::Xor),
        (0, 5) => Some(RegOp::Srl),
        (32, 5) => Some(RegOp::Sra),
        (0, 6) => Some(RegOp::Or),
        (0, 7) => Some(RegOp::And),
        (1, 0) => Some(RegOp::Mul),
        (1, 1) => Some(RegOp::Mulh),
        (1, 2) => Some(RegOp::Mulhsu),
        (1, 3) => Some(RegOp::Mulhu),
        (1, 4) => Some(RegOp::Div),
        (1, 5) => Some(RegOp::Divu),
        (1, 6) => Some(RegOp::Rem),
        (1, 7) => Some(RegOp::Remu),
        _ => None,
    }
}

/// The immediate of the I form.
fn i_number(fields: &Fields) -> u32
    requires { reading.IsWithin fields.now }
    ensures { result ≡ reading.i_number fields.now }
{
    sign_extended(12, then(fields.funct7, 5, fields.rs2.number()))
}

/// The immediate of the S form.
fn s_number(fields: &Fields) -> u32
    requires { reading.IsWithin fields.now }
    ensures { result ≡ reading.s_number fields.now }
{
    sign_extended(12, then(fields.funct7, 5, fields.rd.number()))
}

/// The immediate of the B form.
fn b_number(fields: &Fields) -> u32
    requires { reading.IsWithin fields.now }
    ensures { result ≡ reading.b_number fields.now }
{
    let number = then(bits(fields.funct7, 6, 6), 1, bits(fields.rd.number(), 0, 0));
    let number = then(number, 6, bits(fields.funct7, 5, 0));
    let number = then(number, 4, bits(fields.rd.number(), 4, 1));
    sign_extended(13, then(number, 1, 0))
}

/// The immediate of the U form.
fn u_number(fields: &Fields) -> u32
    requires { reading.IsWithin fields.now }
    ensures { result ≡ reading.u_number fields.now }
{
    let number = then(fields.funct7, 5, fields.rs2.number());
    let number = then(number, 5, fields.rs1.number());
    then(then(number, 3, fields.funct3), 12, 0)
}

/// The immediate of the J form.
fn j_number(fields: &Fields) -> u32
    requires { reading.IsWithin fields.now }
    ensures { result ≡ reading.j_number fields.now }
{
    let number = then(bits(fields.funct7, 6, 6), 5, fields.rs1.number());
    let number = then(number, 3, fields.funct3);
    let number = then(number, 1, bits(fields.rs2.number(), 0, 0));
    let number = then(number, 6, bits(fields.funct7, 5, 0));
    let number = then(number, 4, bits(fields.rs2.number(), 4, 1));
    sign_extended(21, then(number, 1, 0))
}

/// The immediate of an operation. A shift has its amount in the field of rs2.
fn imm_number(op: ImmOp, fields: &Fields) -> u32
    requires { reading.IsWithin fields.now }
    ensures { result ≡ reading.imm_number op fields.now }
{
    match op {
        ImmOp::Slli | ImmOp::Srli | ImmOp::Srai => fields.rs2.number(),
        ImmOp::Addi | ImmOp::Slti | ImmOp::Sltiu | ImmOp::Xori | ImmOp::Ori | ImmOp::Andi =>
            i_number(fields),
    }
}

/// ECALL or EBREAK, whose words have no free field.
fn system_of(fields: &Fields) -> Option<Instr>
    requires { reading.IsWithin fields.now }
    ensures { result ≡ reading.system_of fields.now }
{
    let zero = fields.funct7 == 0
        && fields.rs1.number() == 0
        && fields.funct3 == 0
        && fields.rd.number() == 0;
    match fields.rs2.number() {
        0 if zero => Some(Instr::Ecall),
        1 if zero => Some(Instr::Ebreak),
        _ => None,
    }
}

/// The branch of the fields.
fn branch_of(fields: &Fields) -> Option<Instr>
    requires { reading.IsWithin fields.now }
    ensures { result ≡ reading.branch_of fields.now }
{
    let cond = cond_of(fields.funct3)?;
    let off = b_number(fields);
    let Fields { rs1, rs2, .. } = *fields;
    Some(Instr::Branch {
        cond,
        rs1,
        rs2,
        off,
    })
}

/// The load of the fields.
fn loaded_of(fields: &Fields) -> Option<Instr>
    requires { reading.IsWithin fields.now }
    ensures { result ≡ reading.loaded_of fields.now }
{
    let kind = load_of(fields.funct3)?;
    let off = i_number(fields);
    let Fields { rd, rs1, .. } = *fields;
    Some(Instr::Load { kind, rd, rs1, off })
}

/// The store of the fields.
fn stored_of(fields: &Fields) -> Option<Instr>
    requires { reading.IsWithin fields.now }
    ensures { result ≡ reading.stored_of fields.now }
{
    let kind = store_of(fields.funct3)?;
    let off = s_number(fields);
    let Fields { rs1, rs2, .. } = *fields;
    Some(Instr::Store {
        kind,
        rs1,
        rs2,
        off,
    })
}

/// The operation on a register and an immediate of the fields.
fn imm_instr_of(fields: &Fields) -> Option<Instr>
    requires { reading.IsWithin fields.now }
    ensures { result ≡ reading.imm_instr_of fields.now }
{
    let op = imm_of(fields.funct7, fields.funct3)?;
    let imm = imm_number(op, fields);
    let Fields { rd, rs1, .. } = *fields;
    Some(Instr::Imm { op, rd, rs1, imm })
}

/// The operation on two registers of the fields.
fn op_instr_of(fields: &Fields) -> Option<Instr>
    ensures { result ≡ reading.op_instr_of fields.now }
{
    let op = op_of(fields.funct7, fields.funct3)?;
    let Fields { rd, rs1, rs2, .. } = *fields;
    Some(Instr::Op { op, rd, rs1, rs2 })
}

/// The instruction that the fields encode. Always inlined, as `decode` is.
#[tactic(auto, unfolding(crate::specs::Reading::instr_of))]
#[inline(always)]
fn instr_of(fields: &Fields) -> Option<Instr>
    requires { reading.IsWithin fields.now }
    ensures { result ≡ reading.instr_of fields.now }
{
    let Fields { rd, rs1, .. } = *fields;
    match fields.opcode {
        0x37 => Some(Instr::Lui {
            rd,
            imm: u_number(fields),
        }),
        0x17 => Some(Instr::Auipc {
            rd,
            imm: u_number(fields),
        }),
        0x6f => Some(Instr::Jal {
            rd,
            off: j_number(fields),
        }),
        0x67 if fields.funct3 == 0 => Some(Instr::Jalr {
            rd,
            rs1,
            off: i_number(fields),
        }),
        0x63 => branch_of(fields),
        0x03 => loaded_of(fields),
        0x23 => stored_of(fields),
        0x13 => imm_instr_of(fields),
        0x33 => op_instr_of(fields),
        0x0f if fields.funct3 == 0 => Some(Instr::Fence {
            rd,
            rs1,
            imm: then(fields.funct7, 5, fields.rs2.number()),
        }),
        0x73 => system_of(fields),
        _ => None,
    }
}

/// The instruction that a word encodes, or None if it encodes none of RV32IM. Compressed code, the
/// other extensions, CSRs and FENCE.I are not supported.
/// Always inlined: called, they take 28 host instructions more for each word of an image's code.
#[tactic(auto, unfolding(crate::specs::Reading::decoded))]
#[inline(always)]
pub fn decode(word: u32) -> Option<Instr>
    ensures value { result ≡ reading.decoded word }
    // Sound: a row of the table has the word for this instruction.
    ensures some { IfSome result (λ instr. Decodes word instr) }
    // Complete: None only if no row has the word; and no word encodes two instructions.
    ensures only { (instr : Instruction) → Decodes word instr → result ≡ Some instr }
{
    instr_of(&Fields::of(word))
}

/// Lemma of the instruction table: its rows, `decode` and `encode` agree. The function has no
/// effect when it is called.
pub fn rows_decide()
    ensures one { reading.OneInstruction }
    ensures rows { reading.SameAsRows }
    ensures again { reading.DecodesAgain }
    ensures back { reading.EncodesBack }
{}
