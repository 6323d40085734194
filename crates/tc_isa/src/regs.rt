//! The registers of a guest thread.

ghost use Rattle.std.specs.Prelude.{◌≡◌, ◌+◌, ◌%◌, ◌^◌, slice_index, length};
ghost use Rattle.tc_isa.specs.Registers.{Registers, started, get, with_register, IsRegisters};

use crate::reg::Reg;
use std::marker::Model;

/// The program counter and the 32 registers of a thread. Register 0 stays 0. The program counter
/// stays a multiple of 4, since compressed instructions are not supported.
#[derive(Clone, Copy, Debug, PartialEq, Eq)]
pub struct Regs {
    counter: u32,
    words: [u32; 32],
}

impl Model for Regs {
    ghost use Rattle.tc_isa.specs.Registers.{Registers, IsRegisters};

    ghost Value = { Registers };

    ghost view = { λ r. record { pc = r.counter; words = r.words } };

    ghost invariant = { λ r. IsRegisters (record { pc = r.counter; words = r.words }) };

    ghost inverse = { λ r. record { counter = r.pc; words = r.words } };
}

impl Regs {
    /// The registers of a thread at its start: x2 is just above the stack, x10 the argument, x11
    /// the number of the thread, and the others are 0.
    pub fn start(entry: u32, argument: u32, thread: u32) -> Regs
        requires { entry % 4 ≡ 0 }
        ensures { result ≡ started entry argument thread }
    {
        let mut words = [0; 32];
        words[2] = 0x8000_0000;
        words[10] = argument;
        words[11] = thread;
        Regs {
            counter: entry,
            words,
        }
    }

    /// The program counter: the address of the next instruction.
    pub fn pc(&self) -> u32
        ensures value { result ≡ self.now.pc }
        ensures aligned { result % 4 ≡ 0 }
    {
        self.counter
    }

    /// The numbers in all registers.
    pub fn words(&self) -> &[u32; 32]
        ensures value { result.now ≡ self.now.words }
        ensures kept { IsRegisters self.now }
    {
        &self.words
    }

    /// The number in a register.
    pub fn get(&self, register: Reg) -> u32
        ensures value { result ≡ get self.now register }
        ensures zero { register ≡ 0 → result ≡ 0 }
    {
        self.words[register.number() as usize]
    }

    /// These registers with another number in one of them; a write to register 0 has no effect.
    pub fn with(self, register: Reg, value: u32) -> Regs
        ensures { result ≡ with_register self register value }
    {
        let mut regs = self;
        regs.put(register, value);
        regs
    }

    /// Writes a number into a register; a write to register 0 has no effect.
    pub fn put(&mut self, register: Reg, value: u32)
        ensures { self.new ≡ with_register self.old register value }
    {
        let number = register.number();
        if number > 0 {
            self.words[number as usize] = value;
        }
    }

    /// Jumps to another program counter.
    pub fn go(&mut self, pc: u32)
        requires { pc % 4 ≡ 0 }
        ensures { self.new ≡ record self.old { pc = pc } }
    {
        self.counter = pc;
    }

    /// Goes on to the next word of code, four bytes on. The greatest address is followed by address
    /// 0.
    pub fn step(&mut self)
        ensures { self.new ≡ record self.old { pc = (self.old.pc + 4) % 2 ^ 32 } }
    {
        self.counter = self.counter.wrapping_add(4);
    }

    /// These registers with another program counter.
    pub fn at(self, pc: u32) -> Regs
        requires { pc % 4 ≡ 0 }
        ensures { result ≡ record self { pc = pc } }
    {
        let mut regs = self;
        regs.go(pc);
        regs
    }
}
