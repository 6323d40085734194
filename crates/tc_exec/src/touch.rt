//! Loads and stores that do not fault: of a thread's own memory, and of guards whose locks it holds.

ghost use Rattle.std.specs.Prelude.{◌≡◌, IfSome};
ghost use Rattle.tc_isa.specs.Sets.{has};
ghost use Rattle.tc_exec.specs.Access.{width_bytes};
ghost use Rattle.tc_exec.specs.Touch.{IsTouched, IsOpenLoad, IsOpenStore};

use crate::access::{Width, low_bytes};
use tc_elf::image::{Image, Region};
use tc_isa::held::Held;
use tc_isa::instr::{LoadKind, StoreKind};

/// What an access touches that does not fault, text left out.
#[derive(Clone, Copy)]
pub enum Touched {
    /// The thread's own memory.
    Own,
    /// The guard of this lock, which the thread holds.
    Guard(u32),
}

/// A load: what it touches, and how many bytes.
#[derive(Clone, Copy)]
pub struct OpenLoad {
    pub touched: Touched,
    pub width: u32,
}

/// A store: what it touches, how many bytes, and the number that they are.
#[derive(Clone, Copy)]
pub struct OpenStore {
    pub touched: Touched,
    pub width: u32,
    pub number: u32,
}

/// What an aligned access touches. `near` is as in `Image::region_near`.
#[inline(always)]
fn what(image: &Image, near: &mut usize, held: Held, addr: u32, width: Width) -> Option<Touched>
    ensures { IfSome result (IsTouched image.now (has held) addr (width_bytes width)) }
{
    if !width.divides(addr) {
        return None;
    }
    match image.region_near(near, addr, width.bytes()) {
        Region::Private | Region::Stack => Some(Touched::Own),
        Region::Guard(lock) if held.has(lock) => Some(Touched::Guard(lock)),
        Region::Text | Region::Guard(_) | Region::Nothing => None,
    }
}

/// A load, where it does not fault and is none of text. `near` is as in `Image::region_near`.
#[tactic(auto, using(crate::proofs::Touches::load_ends))]
#[inline(always)]
pub fn open_load(
    image: &Image,
    near: &mut usize,
    held: Held,
    kind: LoadKind,
    addr: u32,
) -> Option<OpenLoad>
    ensures { IfSome result (IsOpenLoad image.now (has held) kind addr) }
{
    let width = Width::of_load(kind);
    match what(image, near, held, addr, width) {
        Some(touched) => Some(OpenLoad {
            touched,
            width: width.bytes(),
        }),
        None => None,
    }
}

/// A store of a value, where it does not fault. `near` is as in `Image::region_near`.
#[tactic(auto, using(crate::proofs::Touches::store_ends))]
#[inline(always)]
pub fn open_store(
    image: &Image,
    near: &mut usize,
    held: Held,
    kind: StoreKind,
    addr: u32,
    value: u32,
) -> Option<OpenStore>
    ensures { IfSome result (IsOpenStore image.now (has held) kind addr value) }
{
    let width = Width::of_store(kind);
    match what(image, near, held, addr, width) {
        Some(touched) => Some(OpenStore {
            touched,
            width: width.bytes(),
            number: low_bytes(kind, value),
        }),
        None => None,
    }
}
