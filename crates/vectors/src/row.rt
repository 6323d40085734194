//! The row of an instruction in the table: its name, the numbers of its registers and its immediate,
//! if it has them.

use std::alloc::AllocError;
use tc_isa::decode::decode;
use tc_isa::instr::{Cond, ImmOp, Instr, LoadKind, RegOp, StoreKind};
use tc_isa::reg::Reg;

/// The columns that an instruction has beside its name. An immediate is a number of 32 bits.
#[derive(Clone, Copy)]
struct Columns {
    rd: Option<Reg>,
    rs1: Option<Reg>,
    rs2: Option<Reg>,
    imm: Option<u32>,
}

impl Columns {
    fn of(instr: &Instr) -> Columns {
        let (rd, rs1, rs2, imm) = match *instr {
            Instr::Lui { rd, imm } | Instr::Auipc { rd, imm } | Instr::Jal { rd, off: imm } => {
                (Some(rd), None, None, Some(imm))
            }
            Instr::Jalr { rd, rs1, off: imm }
            | Instr::Load {
                rd,
                rs1,
                off: imm,
                ..
            }
            | Instr::Imm { rd, rs1, imm, .. }
            | Instr::Fence { rd, rs1, imm } => (Some(rd), Some(rs1), None, Some(imm)),
            Instr::Branch { rs1, rs2, off, .. } | Instr::Store { rs1, rs2, off, .. } => {
                (None, Some(rs1), Some(rs2), Some(off))
            }
            Instr::Op { rd, rs1, rs2, .. } => (Some(rd), Some(rs1), Some(rs2), None),
            Instr::Ecall | Instr::Ebreak => (None, None, None, None),
        };
        Columns { rd, rs1, rs2, imm }
    }
}

/// Appends the column of a register, which stands before its comma.
fn say_register(said: &mut String, register: Option<Reg>) -> Result<(), AllocError> {
    if let Some(register) = register {
        let number = register.number();
        write!(said, "{number}")?;
    }
    said.push_str(",")
}

/// Appends the columns.
fn say_columns(said: &mut String, columns: &Columns) -> Result<(), AllocError> {
    say_register(said, columns.rd)?;
    say_register(said, columns.rs1)?;
    say_register(said, columns.rs2)?;
    match columns.imm {
        Some(imm) => write!(said, "{imm:08x}"),
        None => Ok(()),
    }
}

/// Appends the row of an instruction, behind a comma.
pub fn say(said: &mut String, instr: &Instr) -> Result<(), AllocError> {
    let name = name_of(instr);
    write!(said, ",{name},")?;
    say_columns(said, &Columns::of(instr))
}

/// The name of an instruction in assembler.
fn name_of(instr: &Instr) -> &'static str {
    match *instr {
        Instr::Lui { .. } => "lui",
        Instr::Auipc { .. } => "auipc",
        Instr::Jal { .. } => "jal",
        Instr::Jalr { .. } => "jalr",
        Instr::Branch { cond, .. } => branch_name(cond),
        Instr::Load { kind, .. } => load_name(kind),
        Instr::Store { kind, .. } => store_name(kind),
        Instr::Imm { op, .. } => imm_name(op),
        Instr::Op { op, .. } => op_name(op),
        Instr::Fence { .. } => "fence",
        Instr::Ecall => "ecall",
        Instr::Ebreak => "ebreak",
    }
}

fn branch_name(cond: Cond) -> &'static str {
    match cond {
        Cond::Eq => "beq",
        Cond::Ne => "bne",
        Cond::Lt => "blt",
        Cond::Ge => "bge",
        Cond::Ltu => "bltu",
        Cond::Geu => "bgeu",
    }
}

fn load_name(kind: LoadKind) -> &'static str {
    match kind {
        LoadKind::Lb => "lb",
        LoadKind::Lh => "lh",
        LoadKind::Lw => "lw",
        LoadKind::Lbu => "lbu",
        LoadKind::Lhu => "lhu",
    }
}

fn store_name(kind: StoreKind) -> &'static str {
    match kind {
        StoreKind::Sb => "sb",
        StoreKind::Sh => "sh",
        StoreKind::Sw => "sw",
    }
}

fn imm_name(op: ImmOp) -> &'static str {
    match op {
        ImmOp::Addi => "addi",
        ImmOp::Slti => "slti",
        ImmOp::Sltiu => "sltiu",
        ImmOp::Xori => "xori",
        ImmOp::Ori => "ori",
        ImmOp::Andi => "andi",
        ImmOp::Slli => "slli",
        ImmOp::Srli => "srli",
        ImmOp::Srai => "srai",
    }
}

fn op_name(op: RegOp) -> &'static str {
    match op {
        RegOp::Add => "add",
        RegOp::Sub => "sub",
        RegOp::Sll => "sll",
        RegOp::Slt => "slt",
        RegOp::Sltu => "sltu",
        RegOp::Xor => "xor",
        RegOp::Srl => "srl",
        RegOp::Sra => "sra",
        RegOp::Or => "or",
        RegOp::And => "and",
        RegOp::Mul => "mul",
        RegOp::Mulh => "mulh",
        RegOp::Mulhsu => "mulhsu",
        RegOp::Mulhu => "mulhu",
        RegOp::Div => "div",
        RegOp::Divu => "divu",
        RegOp::Rem => "rem",
        RegOp::Remu => "remu",
    }
}
