//! What each instruction does, an arm for each: the one table of instructions in code.
//!
//! The effect on the registers is done at once. A load, a store and a guest call need more than the
//! registers, so they are returned with the values that they need.

ghost use Rattle.std.specs.Prelude.{◌≡◌};
ghost use Rattle.tc_isa.specs.Registers.{get};
ghost use Rattle.tc_exec.specs.Arithmetic.{plus};
ghost use Rattle.tc_exec.specs.Effects.{Goes, Executes};
ghost use Rattle.tc_exec.specs.Flow as flow;
ghost use Rattle.tc_exec.specs.declared.execute.Effect.TheVariants as TheEffect;

use crate::arithmetic::{is_taken, op_of_imm, value_of};
use tc_isa::fault::Fault;
use tc_isa::instr::{Cond, Instr, LoadKind, StoreKind};
use tc_isa::reg::Reg;
use tc_isa::regs::Regs;

/// What an instruction does beside the registers, which have what it does to them.
#[derive(Clone, Copy)]
pub enum Effect {
    /// Nothing: the thread is at the next word.
    Went,
    /// Nothing: the thread is at the target of a jump or a taken branch.
    Jumped,
    /// A load into a register. The registers are as they were.
    Load {
        kind: LoadKind,
        rd: Reg,
        addr: u32,
    },
    /// A store of the low bytes of a value. The registers are as they were.
    Store {
        kind: StoreKind,
        addr: u32,
        value: u32,
    },
    /// A guest call. The registers are as they were.
    Call,
    /// A fault. The registers are as they were.
    Fault(Fault),
}

/// Puts a number into a register and goes on.
#[tactic(auto, using(crate::proofs::Loaded::set_steps))]
fn set(regs: &mut Regs, rd: Reg, value: u32) -> Effect
    ensures { Goes (flow.set regs.old rd value) regs.old regs.new result }
{
    regs.put(rd, value);
    regs.step();
    Effect::Went
}

/// Goes to a target, which has to be a multiple of 4. The address behind the jump goes into a
/// register; that of a branch is x0.
fn jump(regs: &mut Regs, rd: Reg, target: u32) -> Effect
    ensures { Goes (flow.jump regs.old rd target) regs.old regs.new result }
{
    if target % 4 != 0 {
        return Effect::Fault(Fault::JumpTarget);
    }
    let behind = regs.pc().wrapping_add(4);
    regs.put(rd, behind);
    regs.go(target);
    Effect::Jumped
}

/// Goes by a distance from the program counter, as `jump` does.
fn jump_by(regs: &mut Regs, rd: Reg, off: u32) -> Effect
    ensures { Goes (flow.jump regs.old rd (plus regs.old.pc off)) regs.old regs.new result }
{
    let target = regs.pc().wrapping_add(off);
    jump(regs, rd, target)
}

/// Goes by a distance, where two registers meet a condition.
fn branch(regs: &mut Regs, cond: Cond, rs1: Reg, rs2: Reg, off: u32) -> Effect
    ensures { Goes (flow.branch regs.old cond rs1 rs2 off) regs.old regs.new result }
{
    if !is_taken(cond, regs.get(rs1), regs.get(rs2)) {
        regs.step();
        return Effect::Went;
    }
    jump_by(regs, Reg::of(0), off)
}

/// A load from the address that a register and a distance give.
fn load(regs: &Regs, kind: LoadKind, rd: Reg, rs1: Reg, off: u32) -> Effect
    ensures { result ≡ TheEffect.Load kind rd (plus (get regs.now rs1) off) }
{
    let addr = regs.get(rs1).wrapping_add(off);
    Effect::Load { kind, rd, addr }
}

/// A store of another register to such an address.
fn store(regs: &Regs, kind: StoreKind, rs1: Reg, rs2: Reg, off: u32) -> Effect
    ensures { result
        ≡ TheEffect.Store kind (plus (get regs.now rs1) off) (get regs.now rs2) }
{
    let addr = regs.get(rs1).wrapping_add(off);
    let value = regs.get(rs2);
    Effect::Store { kind, addr, value }
}

/// Does an instruction to the registers, and tells what it does beside them. It stands in the loop
/// over turns, so each caller has it for itself.
#[tactic(auto, unfolding(crate::specs::Step::act_by, crate::specs::Step::wants_by))]
#[inline(always)]
pub fn execute(regs: &mut Regs, instr: &Instr) -> Effect
    ensures { Executes instr.now regs.old regs.new result }
{
    match *instr {
        Instr::Lui { rd, imm } => set(regs, rd, imm),
        Instr::Auipc { rd, imm } => {
            let value = regs.pc().wrapping_add(imm);
            set(regs, rd, value)
        }
        Instr::Jal { rd, off } => jump_by(regs, rd, off),
        Instr::Jalr { rd, rs1, off } => {
            let target = regs.get(rs1).wrapping_add(off);
            jump(regs, rd, target - target % 2)
        }
        Instr::Branch {
            cond,
            rs1,
            rs2,
            off,
        } => branch(regs, cond, rs1, rs2, off),
        Instr::Load { kind, rd, rs1, off } => load(regs, kind, rd, rs1, off),
        Instr::Store {
            kind,
            rs1,
            rs2,
            off,
        } => store(regs, kind, rs1, rs2, off),
        Instr::Imm { op, rd, rs1, imm } => {
            let value = value_of(op_of_imm(op), regs.get(rs1), imm);
            set(regs, rd, value)
        }
        Instr::Op { op, rd, rs1, rs2 } => {
            let value = value_of(op, regs.get(rs1), regs.get(rs2));
            set(regs, rd, value)
        }
        Instr::Fence { .. } => {
            regs.step();
            Effect::Went
        }
        Instr::Ecall => Effect::Call,
        Instr::Ebreak => Effect::Fault(Fault::Break),
    }
}
