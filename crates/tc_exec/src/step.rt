//! The next instruction: what it loads, and what it does.

ghost use Rattle.std.specs.Prelude.{◌≡◌, ℕ, MatchBool};
ghost use Rattle.tc_isa.specs.Sets.{has};
ghost use Rattle.tc_exec.specs.Step as step;
ghost use Rattle.tc_exec.specs.Statements.{NeverLocks, CallsLock};
ghost use Rattle.tc_exec.specs.Next.{IsWantOf, IsActOf};
ghost use Rattle.tc_exec.specs.Told.{taken_by};

use crate::guest_calls::{is_numbered_lock, lock_fault};
use crate::known;
use crate::outcome::{Act, Want};
use tc_elf::image::Image;
use tc_isa::decode::{decode, rows_decide};
use tc_isa::fault::Fault;
use tc_isa::held::Held;
use tc_isa::instr::Instr;
use tc_isa::reg::Reg;
use tc_isa::regs::Regs;

/// The word of ECALL.
const ECALL: u32 = 0x73;

/// The instruction at a place, or why there is none: `Fault::Fetch` if no executable range has its
/// four bytes, `Fault::Illegal` if they are no instruction.
#[tactic(auto, unfolding(crate::specs::Step::instruction_at))]
pub fn instruction_at(image: &Image, pc: u32) -> Result<Instr, Fault>
    ensures { result ≡ step.instruction_at image.now pc }
{
    let word = image.fetch(pc).ok_or(Fault::Fetch)?;
    decode(word).ok_or(Fault::Illegal)
}

/// The load that the next instruction needs. It is `Want::Nothing` also if the instruction faults,
/// so a want can always be read.
#[tactic(auto, unfolding(crate::specs::Step::wants_of))]
pub fn wants(image: &Image, held: Held, regs: &Regs) -> Want
    ensures { IsWantOf image.now (has held) regs.now result }
{
    match instruction_at(image, regs.pc()) {
        Ok(instr) => known::wants(image, 0, held, regs, &instr),
        Err(_) => Want::Nothing,
    }
}

/// What the next instruction does. `answer` is the number that `wants` asked for, zero-extended
/// from its width. For a LOCK that does not fault it is 1 if the lock is broken (poisoned), else 0.
/// Otherwise it is ignored. The effects are those of RV32IM (RISC-V Unprivileged ISA); an ECALL is
/// a guest call by the number in x17.
#[tactic(auto, unfolding(crate::specs::Step::act_of))]
pub fn act(image: &Image, held: Held, regs: &Regs, answer: u32) -> Act
    ensures { IsActOf image.now (has held) regs.now answer result }
{
    match instruction_at(image, regs.pc()) {
        Ok(instr) => {
            let want = known::wants(image, 0, held, regs, &instr);
            let mut after = *regs;
            let done = known::go(image, 0, held, &mut after, &instr, want, answer);
            done.act(after)
        }
        Err(fault) => Act::Faulted(fault),
    }
}

/// Whether the next instruction may be a LOCK: x17 has its number, and the instruction is ECALL.
/// It costs much less than `act`.
pub fn may_lock(image: &Image, regs: &Regs) -> bool
    ensures { MatchBool result (CallsLock image.now regs.now) (NeverLocks image.now regs.now) }
{
    // ECALL has one word.
    rows_decide();
    if !is_numbered_lock(regs) {
        return false;
    }
    match image.fetch(regs.pc()) {
        Some(word) => word == ECALL,
        None => false,
    }
}

/// The lock that an ECALL with the number of LOCK takes, where it is lawful.
#[tactic(auto, using(crate::proofs::NoLock::taken_some))]
pub(crate) fn lock_called(image: &Image, held: Held, regs: &Regs) -> Option<u32>
    requires { CallsLock image.now regs.now }
    ensures { (answer : ℕ) → result ≡ taken_by (step.act_of image.now (has held) regs.now answer) }
{
    let lock = regs.get(Reg::of(10));
    match lock_fault(image, held, lock) {
        Some(_) => None,
        None => Some(lock),
    }
}

/// The lock that the next instruction takes, if it is a LOCK that does not fault. That does not
/// depend on the answer, and costs much less than `act`.
#[tactic(auto, using(crate::proofs::NoLock::taken_none))]
pub fn lock_wanted(image: &Image, held: Held, regs: &Regs) -> Option<u32>
    ensures { (answer : ℕ) → result ≡ taken_by (step.act_of image.now (has held) regs.now answer) }
{
    if !may_lock(image, regs) {
        return None;
    }
    lock_called(image, held, regs)
}
