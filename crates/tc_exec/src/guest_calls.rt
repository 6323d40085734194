//! Guest calls (ECALL).

ghost use Rattle.std.specs.Prelude.{◌≡◌, ◌==◌};
ghost use Rattle.tc_isa.specs.Registers.{get};
ghost use Rattle.tc_isa.specs.Sets.{has};
ghost use Rattle.tc_exec.specs.Calls as calls;
ghost use Rattle.tc_exec.specs.Flow.{faulted_or};
ghost use Rattle.tc_exec.specs.InPlace.{IsDoneBy};
ghost use Rattle.tc_exec.specs.declared.outcome.Act.TheVariants.{Called};

use crate::outcome::{Call, Done};
use tc_elf::image::Image;
use tc_isa::fault::Fault;
use tc_isa::held::Held;
use tc_isa::limits::{MAX_HELD, MAX_SLEEP};
use tc_isa::reg::Reg;
use tc_isa::regs::Regs;

/// The numbers of the guest calls.
const LOCK: u32 = 1;

const UNLOCK: u32 = 2;

const SLEEP: u32 = 3;

const EXIT: u32 = 93;

fn is_above_held(held: Held, lock: u32) -> bool
    ensures { result ≡ calls.is_above_held (has held) lock }
{
    match held.greatest() {
        Some(greatest) => greatest < lock,
        None => true,
    }
}

#[tactic(auto, unfolding(tc_isa::specs::Sets::locks_of, crate::specs::Calls::holds_most))]
fn holds_most(held: Held) -> bool
    ensures { result ≡ calls.holds_most (has held) }
{
    held.count() >= MAX_HELD
}

pub(crate) fn lock_fault(image: &Image, held: Held, lock: u32) -> Option<Fault>
    ensures { result ≡ calls.lock_fault image.now (has held) lock }
{
    if lock >= image.guards() || holds_most(held) {
        Some(Fault::BadLock)
    } else if is_above_held(held, lock) {
        None
    } else {
        Some(Fault::LockOrder)
    }
}

fn unlock_fault(image: &Image, held: Held, lock: u32) -> Option<Fault>
    ensures { result ≡ calls.unlock_fault image.now (has held) lock }
{
    if lock >= image.guards() {
        Some(Fault::BadLock)
    } else if held.has(lock) {
        None
    } else {
        Some(Fault::NotHeld)
    }
}

/// Returns from a guest call with its answer.
pub fn come_back(regs: &mut Regs, answer: u32)
    ensures { regs.new ≡ calls.answered regs.old answer }
{
    regs.put(Reg::of(10), answer);
    regs.step();
}

fn called(fault: Option<Fault>, call: Call, regs: &mut Regs, value: u32) -> Done
    ensures { IsDoneBy (faulted_or fault (Called call (calls.answered regs.old value)))
        regs.old regs.new result }
{
    match fault {
        Some(fault) => Done::Faulted(fault),
        None => {
            come_back(regs, value);
            Done::Called(call)
        }
    }
}

/// Whether x17 has the number of LOCK.
pub(crate) fn is_numbered_lock(regs: &Regs) -> bool
    ensures { result ≡ (get regs.now 17 == 1) }
{
    regs.get(Reg::of(17)) == LOCK
}

/// Does what ECALL does. `answer` is 1 for the LOCK of a broken lock, and else 0.
#[tactic(auto, unfolding(crate::specs::Calls::guest_call))]
#[inline(always)]
pub(crate) fn guest_call(image: &Image, held: Held, regs: &mut Regs, answer: u32) -> Done
    ensures { IsDoneBy (calls.guest_call image.now (has held) regs.old answer)
        regs.old regs.new result }
{
    let argument = regs.get(Reg::of(10));
    match regs.get(Reg::of(17)) {
        LOCK => {
            let fault = lock_fault(image, held, argument);
            called(fault, Call::Lock(argument), regs, answer)
        }
        UNLOCK => {
            let fault = unlock_fault(image, held, argument);
            called(fault, Call::Unlock(argument), regs, 0)
        }
        SLEEP => {
            let fault = (argument > MAX_SLEEP).then_some(Fault::BadCall);
            called(fault, Call::Sleep(argument), regs, 0)
        }
        EXIT => Done::Called(Call::Exit),
        _ => Done::Faulted(Fault::BadCall),
    }
}
