//! Steps one at a time in a loop over decoded code: `GuestThread::execute`, and what a load or a store
//! that it tells of does.
//!
//! The thread does all that touches its registers and its own memory alone. It tells of an access of a
//! guard, which whoever has the locks finishes. Nothing is taken of the fuel, so that the loop takes that
//! of all its steps at once.

ghost use Rattle.std.specs.Prelude.{◌≡◌, ◌≤◌, ◌-◌, Ok, MatchBool, MatchOption};
ghost use Rattle.tc_elf.specs.Shown.{Shown};
ghost use Rattle.tc_exec.specs.Access.{extended};
ghost use Rattle.tc_exec.specs.Flow.{at_next};
ghost use Rattle.tc_exec.specs.Step.{instruction_at};
ghost use Rattle.tc_isa.specs.Registers.{with_register};
ghost use Rattle.tc_turn.specs.Own.{HasExecuted, IsOwnLoad, IsOwnStore, HasLoaded, HasStored};

use crate::thread::GuestThread;
use tc_elf::image::Image;
use tc_exec::access::finish_load;
use tc_exec::execute::{Effect, execute};
use tc_exec::touch::{Touched, open_load, open_store};
use tc_isa::instr::{Instr, LoadKind, StoreKind};
use tc_isa::reg::Reg;

/// What a load did.
#[derive(Clone, Copy)]
pub enum Loaded {
    /// Nothing: it is none for the loop.
    Stays,
    /// The step, which loaded this number of the thread's own memory. The thread is at the next word.
    Own(u32),
    /// Nothing yet: it is of so many bytes of the guard of this lock, which the thread holds.
    Guard { lock: u32, width: u32 },
}

/// What a store did.
#[derive(Clone, Copy)]
pub enum Stored {
    /// Nothing: it is none for the loop.
    Stays,
    /// The step, in the thread's own memory. The thread is at the next word.
    Own,
    /// Nothing yet: it is of this number, in so many bytes of the guard of this lock, which the thread
    /// holds.
    Guard { lock: u32, width: u32, number: u32 },
}

impl GuestThread {
    /// Does to its registers what this instruction does, and tells what it does beside them.
    #[inline(always)]
    pub fn execute(&mut self, instr: &Instr) -> Effect
        ensures { (image : Shown) → instruction_at image self.old.regs.pc ≡ Ok instr.now
            → HasExecuted image self.old self.new result }
    {
        execute(&mut self.regs, instr)
    }

    /// Loads from its own memory into a register and goes on, if it is a load of a word. The word, or
    /// None where nothing was done.
    /// It is the part of `load` that stands in the loop over steps: most loads are of this kind.
    #[inline(always)]
    pub fn load_word(&mut self, image: &Image, kind: LoadKind, rd: Reg, addr: u32) -> Option<u32>
        ensures { MatchOption result (self.new ≡ self.old)
            (λ number. IsOwnLoad image.now kind rd addr self.old self.new number) }
    {
        match kind {
            LoadKind::Lw => match self.load(image, LoadKind::Lw, rd, addr) {
                Loaded::Own(number) => Some(number),
                Loaded::Stays | Loaded::Guard { .. } => None,
            },
            _ => None,
        }
    }

    /// Stores in its own memory and goes on, if it is a store of a word. Whether it did.
    /// It is the part of `store` that stands in the loop over steps: most stores are of this kind.
    #[inline(always)]
    pub fn store_word(&mut self, image: &Image, kind: StoreKind, addr: u32, value: u32) -> bool
        ensures { MatchBool result (IsOwnStore image.now kind addr value self.old self.new)
            (self.new ≡ self.old) }
    {
        match kind {
            StoreKind::Sw => match self.store(image, StoreKind::Sw, addr, value) {
                Stored::Own => true,
                Stored::Stays | Stored::Guard { .. } => false,
            },
            _ => false,
        }
    }

    /// Finishes a load of which this is the number.
    pub fn finish(&mut self, kind: LoadKind, rd: Reg, number: u32)
        ensures { self.new
            ≡ record self.old { regs = at_next (with_register self.old.regs rd (extended kind number)) } }
    {
        finish_load(&mut self.regs, kind, rd, number);
    }

    /// Goes on to the next word.
    pub fn go_on(&mut self)
        ensures { self.new ≡ record self.old { regs = at_next self.old.regs } }
    {
        self.regs.step();
    }

    /// Takes what so many steps take of the fuel.
    pub fn spend(&mut self, turns: u32)
        requires { turns ≤ self.old.fuel }
        ensures { self.new ≡ record self.old { fuel = self.old.fuel - turns } }
    {
        self.fuel -= turns;
    }

    /// Keeps the part of its memory in the place that the last access found, where the place before
    /// was another.
    fn look_at(&mut self, image: &Image, before: usize)
        ensures { self.new ≡ self.old }
    {
        if self.near != before {
            self.change_part(image);
        }
    }

    /// Keeps the part of its memory in the place that the last access found. Few steps do so, and it
    /// is never inlined, so that the loop over steps has the registers of the host for itself.
    #[cold]
    #[inline(never)]
    fn change_part(&mut self, image: &Image)
        ensures { self.new ≡ self.old }
    {
        self.part = image.part(self.near);
    }

    /// Loads from its own memory into a register and goes on, or tells of a load from a guard, where
    /// the load does not fault.
    /// It stands in its callers, most of which know the kind.
    #[inline(always)]
    pub fn load(&mut self, image: &Image, kind: LoadKind, rd: Reg, addr: u32) -> Loaded
        ensures { HasLoaded image.now kind rd addr self.old self.new result }
    {
        let (before, held) = (self.near, self.held());
        let Some(open) = open_load(image, &mut self.near, held, kind, addr) else {
            return Loaded::Stays;
        };
        let width = open.width;
        match open.touched {
            Touched::Own => {
                self.look_at(image, before);
                let number = self.own.number(self.part, addr, width);
                finish_load(&mut self.regs, kind, rd, number);
                Loaded::Own(number)
            }
            Touched::Guard(lock) => Loaded::Guard { lock, width },
        }
    }

    /// Stores the low bytes of a value in its own memory and goes on, or tells of a store in a guard,
    /// where the store does not fault.
    /// It stands in its callers, most of which know the kind.
    #[inline(always)]
    pub fn store(&mut self, image: &Image, kind: StoreKind, addr: u32, value: u32) -> Stored
        ensures { HasStored image.now kind addr value self.old self.new result }
    {
        let (before, held) = (self.near, self.held());
        let Some(open) = open_store(image, &mut self.near, held, kind, addr, value) else {
            return Stored::Stays;
        };
        let (width, number) = (open.width, open.number);
        match open.touched {
            Touched::Own => {
                self.look_at(image, before);
                self.own.put(self.part, addr, width, number);
                self.regs.step();
                Stored::Own
            }
            Touched::Guard(lock) => Stored::Guard {
                lock,
                width,
                number,
            },
        }
    }
}
