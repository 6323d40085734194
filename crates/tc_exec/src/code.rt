//! Decoded code: each word of an image, decoded once.
//!
//! The table is sound, not complete: an entry is the instruction at its place, and a missing entry
//! says nothing. What is not found in the table is fetched and decoded as without one.

ghost use Rattle.std.specs.Prelude.{◌≡◌, ℕ, ◌*◌, ◌+◌, ◌<◌, ◌≤◌, ◌^◌, IfOk, IfSome, MatchBool, length};
ghost use Rattle.tc_isa.specs.Sets.{has};
ghost use Rattle.tc_elf.specs.Shown.{Shown};
ghost use Rattle.tc_exec.specs.Code.{SlotTells, SlotsTell, PartsTell, IsTelling};
ghost use Rattle.tc_exec.specs.Next.{IsInstrAt, KnowsCode, MayCallLock, LooksAhead};
ghost use Rattle.tc_exec.specs.Statements.{NeverLocks, CallsLock};
ghost use Rattle.tc_exec.specs.Step as step;
ghost use Rattle.tc_exec.specs.Told.{taken_by};

use crate::guest_calls::is_numbered_lock;
use crate::step::{lock_called, may_lock};
use std::alloc::{AllocError, Global};
use std::marker::Model;
use std::snapshot::Snapshot;
use tc_elf::image::Image;
use tc_isa::decode::decode;
use tc_isa::held::Held;
use tc_isa::instr::Instr;
use tc_isa::regs::Regs;

/// The instructions from a place on, four bytes for each.
#[derive(Drop)]
struct Part {
    start: u32,
    slots: Vec<Option<Instr>>,
}

/// The decoded code of an image. A contract sees the image.
/// Packages share it by `Arc`, since a copy costs 20 bytes a word for each thread.
#[derive(Drop)]
pub struct Code {
    of: Snapshot<Image>,
    parts: Vec<Part>,
}

impl Model for Code {
    ghost use Rattle.tc_elf.specs.Shown.{Shown};
    ghost use Rattle.tc_exec.specs.Code.{PartsTell};

    ghost Value = { Shown };

    ghost view = { λ c. c.of.value };

    ghost invariant = { λ c. PartsTell c.of.value c.parts.items };
}

/// Consecutive decoded words, four bytes for each.
#[derive(Clone, Copy)]
pub struct Stretch<'a> {
    start: u32,
    slots: &'a [Option<Instr>],
}

/// What is known of the next instruction before it runs.
#[derive(Clone, Copy)]
pub struct Ahead<'a> {
    /// The lock that it takes, if it is a LOCK that does not fault.
    pub lock: Option<u32>,
    /// The instruction, if it was looked up and decoded. None says nothing.
    pub instr: Option<&'a Instr>,
}

impl<'a> Stretch<'a> {
    /// The index of a place's slot. An index that no slot has means that there is none.
    pub fn slot(&self, pc: u32) -> usize
        ensures { result < length self.now.slots.now → self.now.start + 4 * result ≡ pc }
    {
        if pc < self.start || (pc - self.start) % 4 != 0 {
            return self.slots.len();
        }
        ((pc - self.start) / 4) as usize
    }

    /// The instruction in a slot. None says nothing.
    pub fn find(&self, slot: usize) -> Option<&'a Instr>
        ensures tells { (image : Shown) → SlotsTell image self.now.start self.now.slots.now
            → IsInstrAt image (self.now.start + 4 * slot) result }
        ensures known { IfSome result (λ instr. slot < length self.now.slots.now) }
    {
        if slot >= self.slots.len() {
            return None;
        }
        match &self.slots[slot] {
            Some(instr) => Some(instr),
            None => None,
        }
    }
}

/// The decoded word of a place.
#[tactic(auto, unfolding(crate::specs::Step::instruction_at))]
fn slot_at(image: &Image, pc: u32) -> Option<Instr>
    ensures { SlotTells image.now pc result }
{
    decode(image.fetch(pc)?)
}

/// So many decoded words from a place on.
fn slots_from(
    alloc: Global,
    image: &Image,
    start: u32,
    count: u32,
) -> Result<Vec<Option<Instr>>, AllocError>
    requires { start + 4 * count ≤ 2 ^ 32 }
    ensures { IfOk result (λ v. IsTelling image.now start v.items) }
{
    let mut slots = Vec::with_capacity(alloc, count as usize)?;
    'words: for i in 0..count {
        slots.push_reserved(slot_at(image, start + 4 * i));
    }
    Ok(slots)
}

/// Whether a place is within a part, whatever its slot says.
fn has_place(part: &Part, pc: u32) -> bool {
    pc >= part.start && (((pc - part.start) / 4) as usize) < part.slots.len()
}

/// The decoded words of the executable ranges.
fn parts_of(alloc: Global, image: &Image) -> Result<Vec<Part>, AllocError>
    ensures { IfOk result (λ v. PartsTell image.now v.items) }
{
    let mut parts = Vec::new(alloc);
    'each: for i in 0..image.ranges() {
        let (start, length, _, executable) = image.range(i);
        if executable {
            let slots = slots_from(alloc, image, start, length / 4)?;
            parts.push(Part { start, slots })?;
        }
    }
    Ok(parts)
}

impl Code {
    /// The code of an image, with each word of its executable ranges decoded.
    pub fn of(alloc: Global, image: &Image) -> Result<Code, AllocError>
        ensures { IfOk result (λ code. code ≡ image.now) }
    {
        Ok(Code {
            of: Snapshot::of(image),
            parts: parts_of(alloc, image)?,
        })
    }

    /// The code of an image with nothing decoded. It allocates nothing, and every instruction is
    /// fetched and decoded when it runs.
    pub fn undecoded(alloc: Global, image: &Image) -> Code
        ensures { result ≡ image.now }
    {
        Code {
            of: Snapshot::of(image),
            parts: Vec::new(alloc),
        }
    }

    /// The instruction at a place, if it was decoded. None says nothing.
    pub fn find(&self, pc: u32) -> Option<&Instr>
        ensures { IsInstrAt self.now pc result }
    {
        let stretch = self.stretch(pc)?;
        stretch.find(stretch.slot(pc))
    }

    /// The words around a place, if it was decoded.
    pub fn stretch(&self, pc: u32) -> Option<Stretch<'_>>
        ensures { IfSome result (λ s. IsTelling self.now s.start s.slots.now) }
    {
        'parts: for part in &self.parts {
            if has_place(part, pc) {
                return Some(Stretch {
                    start: part.start,
                    slots: &part.slots,
                });
            }
        }
        None
    }

    /// What comes next at these registers: the lock that `step::lock_wanted` answers, and the
    /// instruction, if it is known or was looked up and decoded.
    /// Always inlined: left to the compiler, steps and short blocks cost more instructions.
    #[inline(always)]
    pub fn ahead<'a>(
        &'a self,
        image: &Image,
        held: Held,
        regs: &Regs,
        known: Option<&'a Instr>,
    ) -> Ahead<'a>
        requires { KnowsCode image.now self.now regs.now.pc known }
        ensures { LooksAhead image.now (has held) regs.now result }
    {
        if !is_numbered_lock(regs) {
            return Ahead {
                lock: None,
                instr: known,
            };
        }
        let instr = known.or_else(|| self.find(regs.pc()));
        Ahead {
            lock: lock_by(image, held, regs, instr),
            instr,
        }
    }
}

/// Whether registers with the number of LOCK are at an ECALL, by the instruction there where it is
/// known.
fn calls_lock(image: &Image, regs: &Regs, known: Option<&Instr>) -> bool
    requires { MayCallLock image.now regs.now known }
    ensures { MatchBool result (CallsLock image.now regs.now) (NeverLocks image.now regs.now) }
{
    match known {
        Some(instr) => matches!(instr, Instr::Ecall),
        None => may_lock(image, regs),
    }
}

/// The lock that such registers take, where that is lawful.
#[tactic(auto, using(crate::proofs::NoLock::taken_none))]
fn lock_by(image: &Image, held: Held, regs: &Regs, known: Option<&Instr>) -> Option<u32>
    requires { MayCallLock image.now regs.now known }
    ensures { (answer : ℕ)
        → result ≡ taken_by (step.act_of image.now (has held) regs.now answer) }
{
    if !calls_lock(image, regs, known) {
        return None;
    }
    lock_called(image, held, regs)
}
