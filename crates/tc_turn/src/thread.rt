//! A guest thread.

ghost use Rattle.std.specs.Prelude.{◌≡◌, ℕ, ◌<◌, IfOk, IfSome, Ok, Err, Some, [], length, unwrap_or};
ghost use Rattle.tc_isa.specs.Sets.{has};
ghost use Rattle.tc_exec.specs.Calls.{answered};
ghost use Rattle.tc_exec.specs.Next.{IsNextWith, IsWantOf, KnowsCode};
ghost use Rattle.tc_exec.specs.Step.{instruction_at, wants_of};
ghost use Rattle.tc_exec.specs.declared.outcome.Act.TheVariants.{Called};
ghost use Rattle.tc_exec.specs.declared.outcome.Call.TheVariants.{Lock};
ghost use Rattle.tc_exec.specs.declared.outcome.Want.TheVariants.{Nothing};
ghost use Rattle.tc_turn.specs.Ahead.{IsAhead};
ghost use Rattle.tc_turn.specs.InPlace.{thread_done, faulted_if, DoneFits, HasTurned};
ghost use Rattle.tc_turn.specs.Memory.{IsAccess, number_at, own_of};
ghost use Rattle.tc_turn.specs.Turn.{thread_of, thread_at_start, next_lock, act_with, CanAct, PutFits, thread_after, with_end, with_own, with_put};

use crate::memory::Memory;
use crate::status::Status;
use std::alloc::{AllocError, Global};
use std::marker::Model;
use tc_elf::image::{Image, Region};
use tc_exec::code::{Ahead, Code};
use tc_exec::guest_calls::come_back;
use tc_exec::known;
use tc_exec::outcome::{Act, Call, Done, Put, Want};
use tc_exec::step::{act, lock_wanted, wants};
use tc_isa::fault::Fault;
use tc_isa::held::Held;
use tc_isa::instr::Instr;
use tc_isa::regs::Regs;

/// A guest thread with all that is its own. It also remembers the place of its last access and the
/// part of its memory there. Contracts see it as `thread_of` shows it.
#[derive(Drop)]
pub struct GuestThread {
    pub(crate) regs: Regs,
    pub(crate) own: Memory,
    pub(crate) fuel: u32,
    status: Status,
    held: Held,
    pub(crate) near: usize,
    pub(crate) part: usize,
}

impl Model for GuestThread {
    ghost use Rattle.tc_turn.specs.Turn.{Guest};

    ghost Value = { Guest };

    ghost view = { λ g. record { regs = g.regs; own = g.own; fuel = g.fuel; status = g.status; held = g.held } };
}

impl GuestThread {
    /// The thread of this number at its start.
    pub fn start(alloc: Global, image: &Image, fuel: u32, t: u32) -> Result<GuestThread, AllocError>
        requires { t < length image.now.entries }
        ensures { IfOk result (λ g. thread_of g ≡ thread_at_start image.now fuel t) }
    {
        let mut thread = GuestThread::bare(alloc, image, fuel, t);
        thread.give(Memory::start(alloc, image)?);
        Ok(thread)
    }

    /// The thread of this number at its start, but with an empty memory of its own. It allocates
    /// nothing.
    pub fn bare(alloc: Global, image: &Image, fuel: u32, t: u32) -> GuestThread
        requires { t < length image.now.entries }
        ensures { thread_of result ≡ with_own (own_of []) (thread_at_start image.now fuel t) }
    {
        let (address, argument) = image.entry(t);
        GuestThread {
            regs: Regs::start(address, argument, t),
            own: Memory::none(alloc),
            fuel,
            status: Status::Running,
            held: Held::none(),
            near: 0,
            part: 0,
        }
    }

    /// Replaces its own memory.
    pub fn give(&mut self, own: Memory)
        ensures { self.new ≡ record self.old { own = own } }
    {
        self.own = own;
    }

    /// The registers.
    pub fn regs(&self) -> &Regs
        ensures { result.now ≡ self.now.regs }
    {
        &self.regs
    }

    /// How many instructions it may still run.
    pub fn fuel(&self) -> u32
        ensures { result ≡ self.now.fuel }
    {
        self.fuel
    }

    /// Whether and how it has ended.
    pub fn status(&self) -> Status
        ensures { result ≡ self.now.status }
    {
        self.status
    }

    /// The locks that it holds.
    pub fn held(&self) -> Held
        ensures { result ≡ self.now.held }
    {
        self.held
    }

    /// The byte of its own memory at an address; None if and only if the address is not in it.
    pub fn byte(&self, addr: u32) -> Option<u8>
        ensures { result ≡ own_of self.now.own addr }
    {
        self.own.byte(addr)
    }

    /// The number of this width at an address of its own memory. A byte that is not in it counts as
    /// 0.
    pub fn number(&self, addr: u32, width: u32) -> u32
        requires { IsAccess addr width }
        ensures { result ≡ number_at (λ at. unwrap_or (own_of self.now.own at) 0) addr width }
    {
        self.own.number(self.own.part_of(addr), addr, width)
    }

    /// The load that its next instruction needs.
    pub fn wants(&self, image: &Image) -> Want
        ensures { IsWantOf image.now (has self.now.held) self.now.regs result }
    {
        wants(image, self.held, &self.regs)
    }

    /// What its next step does with the answer to its load or to its LOCK.
    pub fn act(&self, image: &Image, answer: u32) -> Option<Act>
        ensures value { result ≡ act_with image.now (thread_of self.now) answer }
        ensures can { IfSome result (CanAct self.now.fuel) }
    {
        if self.fuel == 0 {
            return None;
        }
        // So each lock that an act names is below 32.
        prove!(image.guards() <= Held::PLACES);
        Some(act(image, self.held, &self.regs, answer))
    }

    /// The lock that its next step takes, if that is a LOCK that does not fault. It costs little if
    /// the next instruction is no LOCK.
    #[tactic(auto, unfolding(crate::specs::Turn::next_lock))]
    pub fn next_lock(&self, image: &Image) -> Option<u32>
        ensures { result ≡ next_lock image.now (thread_of self.now) }
    {
        match self.fuel {
            0 => None,
            _ => lock_wanted(image, self.held, &self.regs),
        }
    }

    /// The load that its next instruction needs, as `wants` answers it, given that
    /// instruction.
    /// Always inlined: left to the compiler, steps and short blocks cost more instructions.
    #[inline(always)]
    pub fn load_wanted(&self, image: &Image, instr: &Instr) -> Want
        requires { instruction_at image.now self.now.regs.pc ≡ Ok instr.now }
        ensures { IsWantOf image.now (has self.now.held) self.now.regs result }
    {
        known::wants(image, self.near, self.held, &self.regs, instr)
    }

    /// What comes next: the lock that `next_lock` answers, found in the decoded code of its image,
    /// and the instruction, if it is known or had to be looked up.
    /// Always inlined: left to the compiler, steps and short blocks cost more instructions.
    #[tactic(auto, unfolding(crate::specs::Turn::next_lock))]
    #[inline(always)]
    pub fn ahead<'a>(&self, image: &Image, code: &'a Code, known: Option<&'a Instr>) -> Ahead<'a>
        requires { KnowsCode image.now code.now self.now.regs.pc known }
        ensures { IsAhead image.now (thread_of self.now) result }
    {
        match self.fuel {
            0 => Ahead {
                lock: None,
                instr: None,
            },
            _ => code.ahead(image, self.held, &self.regs, known),
        }
    }

    /// Takes its next step, given the instruction, the load that it needs and the answer to its
    /// load or LOCK. Returns what the step did besides its effect on the registers; None if the
    /// thread ended because its fuel is spent. It is `act` and `take_turn` in one.
    /// Always inlined: left to the compiler, steps and short blocks cost more instructions.
    #[tactic(auto, using(crate::proofs::InPlace::same_thread))]
    #[inline(always)]
    pub fn turn(&mut self, image: &Image, instr: &Instr, want: Want, answer: u32) -> Option<Done>
        requires { IsNextWith image.now (has self.old.held) self.old.regs instr.now want }
        ensures { HasTurned image.now (thread_of self.old) answer result (thread_of self.new) }
    {
        let Some(left) = self.fuel.checked_sub(1) else {
            self.end(Status::SpentFuel);
            return None;
        };
        // So each lock that an act names is below 32.
        prove!(image.guards() <= Held::PLACES);
        self.fuel = left;
        let done = known::go(
            image,
            self.near,
            self.held,
            &mut self.regs,
            instr,
            want,
            answer,
        );
        self.follow(&done);
        Some(done)
    }

    /// Takes its next step, as `turn` does, at a place without an instruction; this is why. It
    /// needs no load and no answer. Returns whether there was fuel for it.
    #[tactic(auto, unfolding(tc_exec::specs::Step::act_of, tc_exec::specs::Step::wants_of))]
    pub fn fault(&mut self, image: &Image, fault: Fault) -> bool
        requires { instruction_at image.now self.old.regs.pc ≡ Err fault }
        ensures want { wants_of image.now (has self.old.held) self.old.regs ≡ Nothing }
        ensures turned { (answer : ℕ)
            → HasTurned image.now (thread_of self.old) answer (faulted_if result fault) (thread_of self.new) }
    {
        let Some(left) = self.fuel.checked_sub(1) else {
            self.end(Status::SpentFuel);
            return false;
        };
        self.fuel = left;
        self.end(Status::Faulted(fault));
        true
    }

    /// Takes its next step, given that it is the LOCK of this lock, with this answer, and does not fault.
    pub fn take_lock(&mut self, lock: u32, answer: u32)
        requires { CanAct self.old.fuel (Called (Lock lock) (answered self.old.regs answer)) }
        ensures { thread_of self.new
            ≡ thread_after (thread_of self.old) (Some (Called (Lock lock) (answered self.old.regs answer))) }
    {
        self.fuel -= 1;
        come_back(&mut self.regs, answer);
        self.held = self.held.plus(lock);
    }

    /// Follows what its turn did beside the registers and the fuel, which have it already.
    #[inline(always)]
    fn follow(&mut self, done: &Done)
        requires { DoneFits done.now }
        ensures { thread_of self.new ≡ thread_done (thread_of self.old) done.now }
    {
        match done {
            Done::Went => {}
            Done::Stored(put) => self.put(&Some(*put)),
            Done::Called(call) => match *call {
                Call::Lock(lock) => self.held = self.held.plus(lock),
                Call::Unlock(lock) => self.held = self.held.less(lock),
                Call::Sleep(_) => {}
                Call::Exit => self.end(Status::Exited),
            },
            Done::Faulted(fault) => self.end(Status::Faulted(*fault)),
        }
    }

    /// The thread after its step. None is the step in which it ends because its fuel is spent.
    #[tactic(auto, using(crate::proofs::InPlace::same_thread))]
    pub fn take_turn(&mut self, act: &Option<Act>)
        requires { IfSome act.now (CanAct self.old.fuel) }
        ensures { thread_of self.new ≡ thread_after (thread_of self.old) act.now }
    {
        let Some(act) = act else {
            self.end(Status::SpentFuel);
            return;
        };
        self.fuel -= 1;
        match act {
            Act::Next { regs, put } => {
                self.regs = *regs;
                self.put(put);
            }
            Act::Called { call, regs } => {
                self.regs = *regs;
                self.follow(&Done::Called(*call));
            }
            Act::Faulted(fault) => self.end(Status::Faulted(*fault)),
        }
    }

    fn end(&mut self, status: Status)
        ensures { thread_of self.new ≡ with_end status (thread_of self.old) }
    {
        self.status = status;
        self.held = Held::none();
    }

    fn put(&mut self, put: &Option<Put>)
        requires { PutFits put.now }
        ensures { thread_of self.new ≡ with_put put.now (thread_of self.old) }
    {
        let Some(put) = put else {
            return;
        };
        match put.region {
            Region::Private | Region::Stack => {
                let near = self.own.part_of(put.addr);
                self.own.put(near, put.addr, put.width, put.value);
            }
            Region::Text | Region::Guard(_) | Region::Nothing => {}
        }
    }
}
