//! Code of guests, assembled from instructions.

ghost use Rattle.std.specs.Prelude.{◌≡◌, ◌<◌, [], All, OnOk};
ghost use Rattle.tc_isa.specs.Rows.{IsValid, IsSigned};
ghost use Rattle.tc_build.specs.Code as spec;
ghost use Rattle.tc_build.specs.Code.{Adds};

use std::alloc::{AllocError, Global};
use std::marker::Model;
use tc_isa::encode::encode;
use tc_isa::instr::{ImmOp, Instr, LoadKind, StoreKind};
use tc_isa::reg::Reg;

/// The instruction `addi`.
fn addi(rd: u32, rs1: u32, imm: u32) -> Instr
    requires rd { rd < 32 }
    requires rs1 { rs1 < 32 }
    ensures { result ≡ spec.addi rd rs1 imm }
{
    Instr::Imm {
        op: ImmOp::Addi,
        rd: Reg::of(rd),
        rs1: Reg::of(rs1),
        imm,
    }
}

/// The words of a guest's code. Contracts see their list.
#[derive(Drop)]
pub(crate) struct Code {
    words: Vec<u32>,
}

impl Model for Code {
    ghost use Rattle.std.specs.Prelude.{ℕ, List};

    ghost Value = { List ℕ };

    ghost view = { λ code. code.words.items };
}

impl Code {
    /// No code.
    pub(crate) fn new(alloc: Global) -> Code
        ensures { result ≡ [] }
    {
        Code {
            words: Vec::new(alloc),
        }
    }

    /// The words.
    pub(crate) fn words(&self) -> &[u32]
        ensures { result.now ≡ self.now }
    {
        &self.words
    }

    /// Adds instructions.
    #[tactic(auto, unfolding(crate::specs::Code::words_of))]
    pub(crate) fn push(&mut self, instrs: &[Instr]) -> Result<(), AllocError>
        requires { All IsValid instrs.now }
        ensures { OnOk result (Adds self.old self.new instrs.now) }
    {
        for instr in instrs {
            self.words.push(encode(instr))?;
        }
        Ok(())
    }

    /// Adds the guest call of a number with an argument.
    fn guest_call(&mut self, number: u32, argument: u32) -> Result<(), AllocError>
        requires number { number < 2048 }
        requires argument { argument < 2048 }
        ensures { OnOk result (Adds self.old self.new (spec.guest_call number argument)) }
    {
        self.push(&[addi(10, 0, argument), addi(17, 0, number), Instr::Ecall])
    }

    /// Adds a LOCK.
    pub(crate) fn lock(&mut self, lock: u32) -> Result<(), AllocError>
        requires { lock < 2048 }
        ensures { OnOk result (Adds self.old self.new (spec.lock lock)) }
    {
        self.guest_call(1, lock)
    }

    /// Adds an UNLOCK.
    pub(crate) fn unlock(&mut self, lock: u32) -> Result<(), AllocError>
        requires { lock < 2048 }
        ensures { OnOk result (Adds self.old self.new (spec.unlock lock)) }
    {
        self.guest_call(2, lock)
    }

    /// Adds a SLEEP.
    pub(crate) fn sleep(&mut self, blocks: u32) -> Result<(), AllocError>
        requires { blocks < 2048 }
        ensures { OnOk result (Adds self.old self.new (spec.sleep blocks)) }
    {
        self.guest_call(3, blocks)
    }

    /// Adds an EXIT, which leaves x10 as it is.
    pub(crate) fn exit(&mut self) -> Result<(), AllocError>
        ensures { OnOk result (Adds self.old self.new spec.exit) }
    {
        self.push(&[addi(17, 0, 93), Instr::Ecall])
    }

    /// Adds instructions that add an amount to the word at an offset from x5. A negative amount is
    /// in two's complement.
    pub(crate) fn add(&mut self, offset: u32, amount: u32) -> Result<(), AllocError>
        requires offset { offset < 2048 }
        requires amount { IsSigned 12 amount }
        ensures { OnOk result (Adds self.old self.new (spec.addition offset amount)) }
    {
        let (base, scratch) = (Reg::of(5), Reg::of(7));
        self.push(&[
            Instr::Load {
                kind: LoadKind::Lw,
                rd: scratch,
                rs1: base,
                off: offset,
            },
            addi(7, 7, amount),
            Instr::Store {
                kind: StoreKind::Sw,
                rs1: base,
                rs2: scratch,
                off: offset,
            },
        ])
    }
}
