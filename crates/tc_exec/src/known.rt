//! The next instruction, if it is already known: one lookup serves both of its calls.

ghost use Rattle.std.specs.Prelude.{◌≡◌, Ok};
ghost use Rattle.tc_isa.specs.Sets.{has};
ghost use Rattle.tc_exec.specs.InPlace.{IsDone, IsDoneBy};
ghost use Rattle.tc_exec.specs.Step as step;
ghost use Rattle.tc_exec.specs.Next.{IsNextWith, IsWantOf};

use crate::access::{fault_of_load, load, load_want, store};
use crate::execute::{Effect, execute};
use crate::guest_calls::guest_call;
use crate::outcome::{Done, Want};
use tc_elf::image::Image;
use tc_isa::held::Held;
use tc_isa::instr::Instr;
use tc_isa::regs::Regs;

/// What `step::wants` answers if this is the next instruction. `near` is as in
/// `Image::region_from`: it affects only the cost of the call.
#[tactic(auto, unfolding(crate::specs::Step::wants_of, crate::specs::Step::wants_by))]
pub fn wants(image: &Image, near: usize, held: Held, regs: &Regs, instr: &Instr) -> Want
    requires { step.instruction_at image.now regs.now.pc ≡ Ok instr.now }
    ensures { IsWantOf image.now (has held) regs.now result }
{
    match *instr {
        Instr::Load { kind, rs1, off, .. } => {
            let addr = regs.get(rs1).wrapping_add(off);
            load_want(image, near, held, kind, addr)
        }
        _ => Want::Nothing,
    }
}

/// Executes the next instruction on the registers and returns its other effect, given the
/// instruction and what it wants. `near` is as in `wants`, `answer` as in `step::act`. `step::act`
/// says the same without changing the registers, at a much higher cost.
/// Always inlined: a caller that knows the instruction has only what that needs.
#[tactic(auto, unfolding(crate::specs::Step::act_of, crate::specs::Step::wants_of, crate::specs::Access::load))]
#[inline(always)]
pub fn go(
    image: &Image,
    near: usize,
    held: Held,
    regs: &mut Regs,
    instr: &Instr,
    want: Want,
    answer: u32,
) -> Done
    requires { IsNextWith image.now (has held) regs.old instr.now want }
    ensures goes { IsDoneBy (step.act_of image.now (has held) regs.old answer)
        regs.old regs.new result }
    ensures told { IsDone image.now (has held) result }
{
    match execute(regs, instr) {
        Effect::Went | Effect::Jumped => Done::Went,
        Effect::Load { kind, rd, addr } => {
            let fault = fault_of_load(image, held, want, kind, addr);
            load(fault, regs, kind, rd, answer)
        }
        Effect::Store { kind, addr, value } => store(image, near, held, regs, kind, addr, value),
        Effect::Call => guest_call(image, held, regs, answer),
        Effect::Fault(fault) => Done::Faulted(fault),
    }
}
