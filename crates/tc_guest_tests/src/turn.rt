use crate::parts::{SMALLEST, image_of_words};
use std::alloc::{AllocError, Global};
use std::test::Fail;
use tc_elf::image::Image;
use tc_exec::code::Code;
use tc_exec::execute::Effect;
use tc_exec::outcome::{Call, Done, Want};
use tc_isa::held::Held;
use tc_isa::reg::Reg;
use tc_journal::rule::Outcome;
use tc_turn::memory::{Memory, put_number, starting_bytes};
use tc_turn::number::number_from;
use tc_turn::outcome::{outcome_by, outcome_of};
use tc_turn::status::Status;
use tc_turn::thread::GuestThread;

/// Whether a thread wants nothing, and holds nothing.
fn wants_nothing(image: &Image, thread: &GuestThread) -> bool {
    thread.wants(image) == Want::Nothing
        && thread.next_lock(image).is_none()
        && thread.held() == Held::none()
}

/// Takes a turn, which loads nothing.
fn go(image: &Image, thread: &mut GuestThread) -> Outcome {
    let act = thread.act(image, 0);
    thread.take_turn(&act);
    outcome_of(&act)
}

/// Whether a thread stands behind its first instruction.
fn has_gone(thread: &GuestThread) -> bool {
    thread.regs().pc() == 0x10058 && thread.regs().get(Reg::of(17)) == 93
}

/// Whether a thread runs to its exit.
fn runs(image: &Image, thread: &mut GuestThread) -> bool {
    go(image, thread) == Outcome::Went
        && has_gone(thread)
        && go(image, thread) == Outcome::Exited
        && thread.status() == Status::Exited
        && thread.fuel() == 98
}

#[test]
fn a_thread_runs_to_its_exit(rt: HostRuntime) -> Result<(), Fail> {
    let image = image_of_words(rt.alloc(), &SMALLEST)?;
    let mut thread = GuestThread::start(rt.alloc(), &image, 100, 0)?;
    assert!(rt; wants_nothing(&image, &thread) && runs(&image, &mut thread));
    Ok(())
}

/// Whether the next instruction is stepped over.
fn steps(alloc: Global, image: &Image, thread: &mut GuestThread) -> Result<bool, AllocError> {
    let code = Code::of(alloc, image)?;
    let Some(first) = code.find(thread.regs().pc()) else {
        return Ok(false);
    };
    let wanted = thread.load_wanted(image, first);
    Ok(wanted == Want::Nothing && matches!(thread.execute(first), Effect::Went))
}

/// The loop over steps takes what they take of the fuel.
#[test]
fn a_step_in_place_is_the_turn_but_for_fuel(rt: HostRuntime) -> Result<(), Fail> {
    let image = image_of_words(rt.alloc(), &SMALLEST)?;
    let mut thread = GuestThread::start(rt.alloc(), &image, 100, 0)?;
    assert!(rt; steps(rt.alloc(), &image, &mut thread)?);
    assert!(rt; thread.regs().pc() == 0x10058 && thread.fuel() == 100);
    thread.spend(1);
    assert!(rt; thread.fuel() == 99);
    Ok(())
}

/// Whether a thread's next instruction takes no lock, and exits.
fn exits(alloc: Global, image: &Image, thread: &mut GuestThread) -> Result<bool, AllocError> {
    let code = Code::of(alloc, image)?;
    let Some(call) = code.find(thread.regs().pc()) else {
        return Ok(false);
    };
    let lock = thread.ahead(image, &code, Some(call)).lock;
    let want = thread.load_wanted(image, call);
    let last = thread.turn(image, call, want, 0);
    let called = last == Some(Done::Called(Call::Exit)) && outcome_by(&last) == Outcome::Exited;
    let ended = thread.status() == Status::Exited && thread.fuel() == 98;
    Ok(lock.is_none() && called && ended)
}

#[test]
fn a_call_in_place_is_the_turn(rt: HostRuntime) -> Result<(), Fail> {
    let image = image_of_words(rt.alloc(), &SMALLEST)?;
    let mut thread = GuestThread::start(rt.alloc(), &image, 100, 0)?;
    go(&image, &mut thread);
    assert!(rt; exits(rt.alloc(), &image, &mut thread)?);
    Ok(())
}

/// Whether the stack of a thread that did nothing is its memory, and its code is not.
fn has_stack(memory: &Memory) -> bool {
    for (addr, byte) in [
        (0x7fff_bfff, None),
        (0x7fff_c000, Some(0)),
        (0x7fff_ffff, Some(0)),
        (0x0001_0054, None),
    ] {
        if memory.byte(addr) != byte {
            return false;
        }
    }
    true
}

#[test]
fn a_thread_has_its_stack(rt: HostRuntime) -> Result<(), Fail> {
    let image = image_of_words(rt.alloc(), &SMALLEST)?;
    let memory = Memory::start(rt.alloc(), &image)?;
    let copy = memory.copy()?;
    assert!(rt; has_stack(&memory) && has_stack(&copy));
    Ok(())
}

#[test]
fn numbers_stand_in_little_endian_order(rt: HostRuntime) -> Result<(), Fail> {
    let image = image_of_words(rt.alloc(), &SMALLEST)?;
    let mut bytes = starting_bytes(rt.alloc(), &image, 0x10054, 8)?;
    let word = number_from(0x10054, &bytes, 0x10058, 4);
    let half = number_from(0x10054, &bytes, 0x1005a, 4);
    put_number(0x10054, &mut bytes, 0x10058, 2, 0xabcd);
    assert!(rt; word == 0x73 && half == 0);
    assert!(rt; bytes.as_slice() == b"\x93\x08\xd0\x05\xcd\xab\0\0".as_slice());
    Ok(())
}
