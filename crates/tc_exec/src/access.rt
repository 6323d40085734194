//! Loads and stores.

ghost use Rattle.std.specs.Prelude.{◌≡◌, ◌<◌, ◌==◌, ◌%◌, ◌^◌, ◌*◌, None};
ghost use Rattle.tc_isa.specs.Sets.{has};
ghost use Rattle.tc_exec.specs.Access as access;
ghost use Rattle.tc_exec.specs.Access.{width_bytes};
ghost use Rattle.tc_exec.specs.Flow as flow;
ghost use Rattle.tc_exec.specs.InPlace.{IsDoneBy};
ghost use Rattle.tc_exec.specs.declared.outcome.Act.TheVariants.{Next};

use crate::outcome::{Done, Put, Want};
use tc_elf::image::{Image, Region};
use tc_isa::fault::Fault;
use tc_isa::held::Held;
use tc_isa::instr::{LoadKind, StoreKind};
use tc_isa::reg::Reg;
use tc_isa::regs::Regs;

/// How many bytes a load or a store is of.
/// Only this crate has the type: `Want`, `Put` and the calls of other crates have the width as a number.
#[derive(Clone, Copy)]
pub(crate) enum Width {
    Byte,
    Half,
    Word,
}

impl Width {
    pub(crate) fn of_load(kind: LoadKind) -> Width
        ensures { width_bytes result ≡ access.load_width kind }
    {
        match kind {
            LoadKind::Lb | LoadKind::Lbu => Width::Byte,
            LoadKind::Lh | LoadKind::Lhu => Width::Half,
            LoadKind::Lw => Width::Word,
        }
    }

    pub(crate) fn of_store(kind: StoreKind) -> Width
        ensures { width_bytes result ≡ access.store_width kind }
    {
        match kind {
            StoreKind::Sb => Width::Byte,
            StoreKind::Sh => Width::Half,
            StoreKind::Sw => Width::Word,
        }
    }

    pub(crate) fn bytes(self) -> u32
        ensures value { result ≡ width_bytes self }
        ensures some { 0 < result }
    {
        match self {
            Width::Byte => 1,
            Width::Half => 2,
            Width::Word => 4,
        }
    }

    /// Whether an address is a multiple of the width.
    pub(crate) fn divides(self, addr: u32) -> bool
        ensures { result ≡ (addr % width_bytes self == 0) }
    {
        // No division by a number that is not known before.
        match self {
            Width::Byte => true,
            Width::Half => addr % 2 == 0,
            Width::Word => addr % 4 == 0,
        }
    }
}

fn low_byte(number: u32) -> u8
    ensures { result ≡ number % 2 ^ 8 }
{
    (number % 256) as u8
}

fn low_half(number: u32) -> u16
    ensures { result ≡ number % 2 ^ 16 }
{
    (number % 65_536) as u16
}

pub(crate) fn low_bytes(kind: StoreKind, value: u32) -> u32
    ensures { result ≡ value % 2 ^ (8 * access.store_width kind) }
{
    match kind {
        StoreKind::Sb => u32::from(low_byte(value)),
        StoreKind::Sh => u32::from(low_half(value)),
        StoreKind::Sw => value,
    }
}

fn extended(kind: LoadKind, number: u32) -> u32
    ensures { result ≡ access.extended kind number }
{
    match kind {
        LoadKind::Lb => i32::from(low_byte(number).cast_signed()).cast_unsigned(),
        LoadKind::Lh => i32::from(low_half(number).cast_signed()).cast_unsigned(),
        LoadKind::Lw => number,
        LoadKind::Lbu => u32::from(low_byte(number)),
        LoadKind::Lhu => u32::from(low_half(number)),
    }
}

fn guard_fault(held: Held, lock: u32) -> Option<Fault>
    ensures { result ≡ access.guard_fault (has held) lock }
{
    (!held.has(lock)).then_some(Fault::Unguarded)
}

fn misaligned_or(addr: u32, width: Width, other: Option<Fault>) -> Option<Fault>
    ensures { result ≡ access.misaligned_or addr (width_bytes width) other }
{
    if width.divides(addr) {
        other
    } else {
        Some(Fault::Misaligned)
    }
}

fn load_fault(held: Held, place: Region, addr: u32, width: Width) -> Option<Fault>
    ensures { result ≡ access.load_fault (has held) place addr (width_bytes width) }
{
    let fault = match place {
        Region::Text | Region::Private | Region::Stack => None,
        Region::Guard(lock) => guard_fault(held, lock),
        Region::Nothing => Some(Fault::Load),
    };
    misaligned_or(addr, width, fault)
}

fn store_fault(held: Held, place: Region, addr: u32, width: Width) -> Option<Fault>
    ensures { result ≡ access.store_fault (has held) place addr (width_bytes width) }
{
    let fault = match place {
        Region::Private | Region::Stack => None,
        Region::Guard(lock) => guard_fault(held, lock),
        Region::Text | Region::Nothing => Some(Fault::Store),
    };
    misaligned_or(addr, width, fault)
}

/// What a load of a kind at an address has to be answered. `near` is as in `Image::region_from`.
#[tactic(auto, unfolding(crate::specs::Access::load_want))]
pub(crate) fn load_want(image: &Image, near: usize, held: Held, kind: LoadKind, addr: u32) -> Want
    ensures { result ≡ access.load_want image.now (has held) kind addr }
{
    let width = Width::of_load(kind);
    let region = image.region_from(near, addr, width.bytes());
    match load_fault(held, region, addr, width) {
        Some(_) => Want::Nothing,
        None => Want::Load {
            region,
            addr,
            width: width.bytes(),
        },
    }
}

/// The fault of a load that wants this, where it has one. What is wanted does not fault.
#[tactic(auto, using(crate::proofs::Loaded::wanted))]
pub(crate) fn fault_of_load(
    image: &Image,
    held: Held,
    want: Want,
    kind: LoadKind,
    addr: u32,
) -> Option<Fault>
    requires { want ≡ access.load_want image.now (has held) kind addr }
    ensures { result ≡ access.fault_of_load image.now (has held) kind addr }
{
    if let Want::Load { .. } = want {
        return None;
    }
    let width = Width::of_load(kind);
    let region = image.region(addr, width.bytes());
    load_fault(held, region, addr, width)
}

/// Finishes a load: `number` is the loaded number.
pub fn finish_load(regs: &mut Regs, kind: LoadKind, rd: Reg, number: u32)
    ensures { Next regs.new None ≡ flow.set regs.old rd (access.extended kind number) }
{
    regs.put(rd, extended(kind, number));
    regs.step();
}

/// Finishes a load that is answered, or faults.
pub(crate) fn load(
    fault: Option<Fault>,
    regs: &mut Regs,
    kind: LoadKind,
    rd: Reg,
    answer: u32,
) -> Done
    ensures { IsDoneBy (flow.faulted_or fault (flow.set regs.old rd (access.extended kind answer)))
        regs.old regs.new result }
{
    match fault {
        Some(fault) => Done::Faulted(fault),
        None => {
            finish_load(regs, kind, rd, answer);
            Done::Went
        }
    }
}

/// Does a store of the low bytes of a value, and tells what goes to memory.
#[tactic(auto, unfolding(crate::specs::Access::store))]
pub(crate) fn store(
    image: &Image,
    near: usize,
    held: Held,
    regs: &mut Regs,
    kind: StoreKind,
    addr: u32,
    value: u32,
) -> Done
    ensures { IsDoneBy (access.store image.now (has held) regs.old kind addr value)
        regs.old regs.new result }
{
    let width = Width::of_store(kind);
    let region = image.region_from(near, addr, width.bytes());
    if let Some(fault) = store_fault(held, region, addr, width) {
        return Done::Faulted(fault);
    }
    regs.step();
    Done::Stored(Put {
        region,
        addr,
        width: width.bytes(),
        value: low_bytes(kind, value),
    })
}
