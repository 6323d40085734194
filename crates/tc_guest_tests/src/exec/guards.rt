//! What loads, stores and guest calls do with five guards of 4 bytes, 8 bytes apart.

use super::{STORED, Told, is_told, moved, put_in, regs_of};
use crate::parts::{check_row, image_of_words};
use Call::{Lock, Sleep, Unlock};
use Fault::{BadCall, BadLock, LockOrder, Misaligned, NotHeld, Store, Unguarded};
use Region::{Guard, Private, Text};
use std::alloc::Global;
use std::test::Fail;
use tc_elf::image::{Image, Region};
use tc_exec::outcome::{Act, Call, Put, Want};
use tc_isa::fault::Fault;
use tc_isa::held::Held;
use tc_isa::regs::Regs;

/// The address of the one word of code.
pub(super) const CODE: u32 = 0x0010_0000;

/// The address of the first guard. The second is at 0x2_0008.
pub(super) const DATA: u32 = 0x2_0000;

/// lw x10, 0(x11)
const LW: u32 = 0x0005_a503;

/// sw x12, 0(x11)
const SW: u32 = 0x00c5_a023;

const ECALL: u32 = 0x0000_0073;

/// The numbers of calls, as x17 has them.
const LOCK: u32 = 1;

const UNLOCK: u32 = 2;

const SLEEP: u32 = 3;

const EXIT: u32 = 93;

/// The held locks, an address, and the place where an access lies or its fault.
type Access = (&'static [u32], u32, Result<Region, Fault>);

static LOADS: [Access; 10] = [
    (&[], DATA, Err(Unguarded)),
    (&[0], DATA, Ok(Guard(0))),
    (&[1], DATA, Err(Unguarded)),
    (&[1, 2, 3, 4], DATA, Err(Unguarded)),
    (&[0, 4], DATA + 32, Ok(Guard(4))),
    (&[], DATA + 4, Ok(Private)),
    (&[], DATA + 36, Ok(Private)),
    (&[0], DATA + 40, Err(Fault::Load)),
    (&[], DATA + 2, Err(Misaligned)),
    (&[], CODE, Ok(Text)),
];

static STORES: [Access; 8] = [
    (&[], DATA, Err(Unguarded)),
    (&[0], DATA, Ok(Guard(0))),
    (&[0], DATA + 8, Err(Unguarded)),
    (&[0, 1], DATA + 8, Ok(Guard(1))),
    (&[], DATA + 4, Ok(Private)),
    (&[0], DATA + 40, Err(Store)),
    (&[], DATA + 1, Err(Misaligned)),
    (&[0, 1], CODE, Err(Store)),
];

/// The held locks, x17 and x10, and the call or its fault.
type Called = (&'static [u32], u32, u32, Result<Call, Fault>);

static CALLS: [Called; 22] = [
    (&[], LOCK, 0, Ok(Lock(0))),
    (&[], LOCK, 4, Ok(Lock(4))),
    (&[0], LOCK, 1, Ok(Lock(1))),
    (&[0, 1, 2], LOCK, 4, Ok(Lock(4))),
    (&[], LOCK, 5, Err(BadLock)),
    (&[], LOCK, 0xffff_ffff, Err(BadLock)),
    (&[0, 1, 2, 3], LOCK, 4, Err(BadLock)),
    (&[0, 1, 2, 4], LOCK, 3, Err(BadLock)),
    (&[0], LOCK, 0, Err(LockOrder)),
    (&[1], LOCK, 0, Err(LockOrder)),
    (&[0, 2, 4], LOCK, 3, Err(LockOrder)),
    (&[0], UNLOCK, 0, Ok(Unlock(0))),
    (&[0, 1], UNLOCK, 0, Ok(Unlock(0))),
    (&[0, 1, 2, 3], UNLOCK, 3, Ok(Unlock(3))),
    (&[], UNLOCK, 0, Err(NotHeld)),
    (&[1], UNLOCK, 0, Err(NotHeld)),
    (&[0], UNLOCK, 5, Err(BadLock)),
    (&[0, 1], SLEEP, 255, Ok(Sleep(255))),
    (&[0], SLEEP, 256, Err(BadCall)),
    (&[0], 4, 0, Err(BadCall)),
    (&[0, 1], EXIT, 7, Ok(Call::Exit)),
    (&[], EXIT, 0xffff_ffff, Ok(Call::Exit)),
];

/// A file with a word of code, which is left open, ten words of data, and a note that tells of a thread
/// at the code and of five guards in the data.
const GUARDED: [u32; 68] = [
    0x464c_457f,
    0x0001_0101,
    0,
    0,
    0x00f3_0002,
    1,
    CODE,
    52,
    0,
    0,
    0x0020_0034,
    3,
    0, // The header.
    4,
    148,
    0,
    0,
    80,
    80,
    4,
    4, // The segment of the note.
    1,
    228,
    CODE,
    CODE,
    4,
    4,
    5,
    4, // The code's.
    1,
    232,
    DATA,
    DATA,
    40,
    40,
    6,
    4, // The data's.
    8,
    60,
    1,
    0x4f4c_4354,
    0x0053_4b43,
    1,
    1,
    5, // The note, of one thread and five guards.
    CODE,
    0,
    DATA,
    4,
    DATA + 8,
    4,
    DATA + 16,
    4,
    DATA + 24,
    4,
    DATA + 32,
    4, // These.
    0, // The code.
    0,
    0,
    0,
    0,
    0,
    0,
    0,
    0,
    0,
    0, // The data.
];

/// The image of that file with this word of code.
pub(super) fn image_of(alloc: Global, word: u32) -> Result<Image, Fail> {
    let mut words = GUARDED;
    words[57] = word;
    image_of_words(alloc, &words)
}

pub(super) fn held_of(locks: &[u32]) -> Held {
    let mut held = Held::none();
    for &lock in locks {
        if lock < 32 {
            held = held.plus(lock);
        }
    }
    held
}

/// The act of a call: LOCK brings its answer to x10, and the others that come back bring 0.
fn called(regs: Regs, outcome: Result<Call, Fault>, answer: u32) -> Option<Act> {
    let call = match outcome {
        Ok(call) => call,
        Err(fault) => return Some(Act::Faulted(fault)),
    };
    let regs = match call {
        Lock(_) => moved(regs, 10, answer, CODE + 4)?,
        Unlock(_) | Sleep(_) => moved(regs, 10, 0, CODE + 4)?,
        Call::Exit => regs,
    };
    Some(Act::Called { call, regs })
}

/// What a load of a word wants and does, whose answer is STORED.
fn told_of_load(regs: Regs, addr: u32, place: Result<Region, Fault>) -> Option<Told> {
    let region = match place {
        Ok(region) => region,
        Err(fault) => return Some((Want::Nothing, Act::Faulted(fault))),
    };
    let want = Want::Load {
        region,
        addr,
        width: 4,
    };
    let next = Act::Next {
        regs: moved(regs, 10, STORED, CODE + 4)?,
        put: None,
    };
    Some((want, next))
}

/// Whether a load does what a row says.
fn loads(image: &Image, row: &Access) -> Option<bool> {
    let (locks, addr, place) = *row;
    let regs = regs_of(CODE, addr, 0)?;
    let told = told_of_load(regs, addr, place)?;
    Some(is_told(image, held_of(locks), &regs, STORED, &told))
}

#[test]
fn loads_lie_in_guards_that_are_held(rt: HostRuntime) -> Result<(), Fail> {
    let image = image_of(rt.alloc(), LW)?;
    for (i, row) in LOADS.iter().enumerate() {
        check_row(loads(&image, row) == Some(true), i)?;
    }
    Ok(())
}

/// What a store of STORED does.
fn act_of_store(regs: Regs, addr: u32, place: Result<Region, Fault>) -> Option<Act> {
    let region = match place {
        Ok(region) => region,
        Err(fault) => return Some(Act::Faulted(fault)),
    };
    let put = Put {
        region,
        addr,
        width: 4,
        value: STORED,
    };
    put_in(regs, put)
}

/// Whether a store does what a row says.
fn stores(image: &Image, row: &Access) -> Option<bool> {
    let (locks, addr, place) = *row;
    let regs = regs_of(CODE, addr, STORED)?;
    let told = (Want::Nothing, act_of_store(regs, addr, place)?);
    Some(is_told(image, held_of(locks), &regs, 1, &told))
}

#[test]
fn stores_lie_in_guards_that_are_held(rt: HostRuntime) -> Result<(), Fail> {
    let image = image_of(rt.alloc(), SW)?;
    for (i, row) in STORES.iter().enumerate() {
        check_row(stores(&image, row) == Some(true), i)?;
    }
    Ok(())
}

/// Whether a call does what a row says, if its answer is this.
fn calls(image: &Image, row: &Called, answer: u32) -> Option<bool> {
    let (locks, x17, x10, result) = *row;
    let regs = regs_of(CODE, x17, x10)?;
    let told = (Want::Nothing, called(regs, result, answer)?);
    Some(is_told(image, held_of(locks), &regs, answer, &told))
}

#[test]
fn calls_are_checked_in_their_order(rt: HostRuntime) -> Result<(), Fail> {
    let image = image_of(rt.alloc(), ECALL)?;
    for (i, row) in CALLS.iter().enumerate() {
        let right = calls(&image, row, 0) == Some(true) && calls(&image, row, 1) == Some(true);
        check_row(right, i)?;
    }
    Ok(())
}
