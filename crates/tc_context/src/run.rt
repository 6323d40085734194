//! Turns of a block one after another, by decoded code: `Context::run`.
//!
//! They touch registers, the thread's own memory and the guards of its locks. A block is mostly a LOCK,
//! one run of such turns, and one guest call.

ghost use Rattle.std.specs.Prelude.{◌≡◌, ℕ, ◌≤◌, Bool, true, Ok};
ghost use Rattle.tc_isa.specs.Sets.{has};
ghost use Rattle.tc_isa.specs.declared.instr.Instr.TheVariants.{Ecall};
ghost use Rattle.tc_elf.specs.Shown.{Shown};
ghost use Rattle.tc_exec.specs.Code.{IsTelling};
ghost use Rattle.tc_exec.specs.Next.{IsInstrAt};
ghost use Rattle.tc_exec.specs.Step.{instruction_at};
ghost use Rattle.tc_turn.specs.Own.{IsLoad, IsStore};
ghost use Rattle.tc_context.specs.Run.{MayRun, HasGone, HasStretched, HasRun};

use crate::context::Context;
use tc_elf::image::{Image, Region};
use tc_exec::code::{Code, Stretch};
use tc_exec::execute::Effect;
use tc_exec::outcome::{Done, Put, Want};
use tc_isa::held::Held;
use tc_isa::instr::{Instr, LoadKind, StoreKind};
use tc_isa::reg::Reg;
use tc_turn::answer::guard_number;
use tc_turn::own_turns::{Loaded, Stored};

/// Which way a thread went in a turn.
#[derive(Clone, Copy)]
enum Way {
    /// It did no turn.
    Stays,
    /// It went on to the next word.
    Next,
    /// It went elsewhere.
    Jumps,
}

/// Turns that were done.
#[derive(Clone, Copy)]
pub(crate) struct Run {
    /// How many turns.
    pub(crate) count: u32,
    /// Whether a guest call is known to come next. False says nothing.
    pub(crate) calls: bool,
}

impl Context {
    /// Does turns that go on and take no lock, at most `most`, and says how many: none outside the
    /// decoded words round the first, no guest call, and none that faults or loads text.
    #[tactic(auto, using(crate::proofs::Stepping::may_less))]
    pub(crate) fn run(&mut self, image: &Image, code: &Code, block: Held, most: u32) -> Run
        requires code { code.now ≡ image.now }
        requires may { MayRun image.now (has block) most self.old }
        ensures { HasRun image.now (has block) most self.old self.new result }
    {
        let Some(stretch) = code.stretch(self.guest.regs().pc()) else {
            return Run {
                count: 0,
                calls: false,
            };
        };
        let most = most.min(self.guest.fuel());
        let run = self.run_stretch(image, &stretch, block, most);
        self.guest.spend(run.count);
        run
    }

    /// Does at most so many such turns, all but what they take of the fuel. It stands in its caller,
    /// since a call of it costs more than such a turn, and many blocks have but a few.
    #[inline(always)]
    fn run_stretch(&mut self, image: &Image, stretch: &Stretch<'_>, block: Held, most: u32) -> Run
        requires telling { IsTelling image.now stretch.now.start stretch.now.slots.now }
        requires fuel { most ≤ self.old.guest.fuel }
        requires may { MayRun image.now (has block) most self.old }
        ensures { HasStretched image.now (has block) most self.old self.new result }
    {
        let mut left = most;
        let mut slot = stretch.slot(self.guest.regs().pc());
        'run: while left > 0 {
            let Some(instr) = stretch.find(slot) else {
                break;
            };
            match self.step(image, block, instr) {
                Way::Stays => break,
                Way::Next => slot += 1,
                Way::Jumps => slot = stretch.slot(self.guest.regs().pc()),
            }
            left -= 1;
        }
        Run {
            count: most - left,
            calls: is_call(stretch.find(slot)),
        }
    }

    /// What its next step, which is of this instruction, does beside the fuel, where that is a step for
    /// the loop, and which way it went: whatever fuel it has.
    #[inline(always)]
    fn step(&mut self, image: &Image, block: Held, instr: &Instr) -> Way
        requires instr { instruction_at image.now self.old.guest.regs.pc ≡ Ok instr.now }
        requires may { MayRun image.now (has block) 1 self.old }
        ensures { HasGone image.now (has block) self.old self.new result }
    {
        match self.guest.execute(instr) {
            Effect::Went => Way::Next,
            Effect::Jumped => Way::Jumps,
            Effect::Load { kind, rd, addr } => self.load(image, block, kind, rd, addr),
            Effect::Store { kind, addr, value } => self.store(image, kind, addr, value),
            Effect::Call | Effect::Fault(_) => Way::Stays,
        }
    }

    /// The step that is this load. Only what loads a word of the thread's own memory stands in the loop,
    /// which so has the registers of the host for itself.
    #[inline(always)]
    fn load(&mut self, image: &Image, block: Held, kind: LoadKind, rd: Reg, addr: u32) -> Way
        requires load { IsLoad image.now self.old.guest kind rd addr }
        requires may { MayRun image.now (has block) 1 self.old }
        ensures { HasGone image.now (has block) self.old self.new result }
    {
        match self.guest.load_word(image, kind, rd, addr) {
            Some(number) => {
                self.locks.note_own(block, number);
                Way::Next
            }
            None => self.load_any(image, block, kind, rd, addr),
        }
    }

    /// As `load`. Most loads are of words, for which it has code that knows the kind.
    #[inline(never)]
    fn load_any(&mut self, image: &Image, block: Held, kind: LoadKind, rd: Reg, addr: u32) -> Way
        requires load { IsLoad image.now self.old.guest kind rd addr }
        requires may { MayRun image.now (has block) 1 self.old }
        ensures { HasGone image.now (has block) self.old self.new result }
    {
        match kind {
            LoadKind::Lw => self.load_by(image, block, LoadKind::Lw, rd, addr),
            _ => self.load_by(image, block, kind, rd, addr),
        }
    }

    /// As `load`, in each of its callers.
    #[inline(always)]
    fn load_by(&mut self, image: &Image, block: Held, kind: LoadKind, rd: Reg, addr: u32) -> Way
        requires load { IsLoad image.now self.old.guest kind rd addr }
        requires may { MayRun image.now (has block) 1 self.old }
        ensures { HasGone image.now (has block) self.old self.new result }
    {
        match self.guest.load(image, kind, rd, addr) {
            Loaded::Stays => Way::Stays,
            Loaded::Own(number) => {
                self.locks.note_own(block, number);
                Way::Next
            }
            Loaded::Guard { lock, width } => {
                let want = Want::Load {
                    region: Region::Guard(lock),
                    addr,
                    width,
                };
                let number = guard_number(self, image, lock, addr, width);
                self.locks.note_each(block, want, None, number);
                self.guest.finish(kind, rd, number);
                Way::Next
            }
        }
    }

    /// The step that is this store. Only what stores a word in the thread's own memory stands in the
    /// loop.
    #[inline(always)]
    fn store(&mut self, image: &Image, kind: StoreKind, addr: u32, value: u32) -> Way
        requires store { IsStore image.now self.old.guest kind addr value }
        requires may { MayRun image.now (has self.old.guest.held) 1 self.old }
        ensures { (block : ℕ → Bool) → HasGone image.now block self.old self.new result }
    {
        if self.guest.store_word(image, kind, addr, value) {
            Way::Next
        } else {
            self.store_any(image, kind, addr, value)
        }
    }

    /// As `store`. Most stores are of words, for which it has code that knows the kind.
    #[inline(never)]
    fn store_any(&mut self, image: &Image, kind: StoreKind, addr: u32, value: u32) -> Way
        requires store { IsStore image.now self.old.guest kind addr value }
        requires may { MayRun image.now (has self.old.guest.held) 1 self.old }
        ensures { (block : ℕ → Bool) → HasGone image.now block self.old self.new result }
    {
        match kind {
            StoreKind::Sw => self.store_by(image, StoreKind::Sw, addr, value),
            _ => self.store_by(image, kind, addr, value),
        }
    }

    /// As `store`, in each of its callers.
    #[inline(always)]
    fn store_by(&mut self, image: &Image, kind: StoreKind, addr: u32, value: u32) -> Way
        requires store { IsStore image.now self.old.guest kind addr value }
        requires may { MayRun image.now (has self.old.guest.held) 1 self.old }
        ensures { (block : ℕ → Bool) → HasGone image.now block self.old self.new result }
    {
        match self.guest.store(image, kind, addr, value) {
            Stored::Stays => Way::Stays,
            Stored::Own => Way::Next,
            Stored::Guard {
                lock,
                width,
                number,
            } => {
                let held = self.guest.held();
                let put = Put {
                    region: Region::Guard(lock),
                    addr,
                    width,
                    value: number,
                };
                self.locks.take_turn(held, &Some(Done::Stored(put)));
                self.guest.go_on();
                Way::Next
            }
        }
    }
}

/// Whether an instruction is known to be a guest call. It is asked behind the loop, so that no turn in it
/// costs more for it.
#[inline(always)]
fn is_call(known: Option<&Instr>) -> bool
    ensures { (image : Shown) (pc : ℕ) → IsInstrAt image pc known.entry → result ≡ true
        → instruction_at image pc ≡ Ok Ecall }
{
    matches!(known, Some(Instr::Ecall))
}
