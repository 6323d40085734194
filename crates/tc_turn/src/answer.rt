//! The answers that a step needs.

ghost use Rattle.std.specs.Prelude.{◌≡◌, ℕ, unwrap_or};
ghost use Rattle.tc_elf.specs.Shown.{guard_at};
ghost use Rattle.tc_elf.specs.declared.image.Region.TheVariants.{Guard};
ghost use Rattle.tc_exec.specs.Told.{IsWant};
ghost use Rattle.tc_turn.specs.Memory.{IsAccess, number_at, starting_byte};
ghost use Rattle.tc_turn.specs.Turn.{byte_at, answer_to};

use crate::number::{Bytes, bytewise, number_from};
use tc_elf::image::{Image, Region};
use tc_exec::outcome::Want;

/// A thread with the locks beside it, which a step of the thread reads.
pub trait Surroundings {
    ghost use Rattle.std.specs.Prelude.{ℕ, unwrap_or};
    ghost use Rattle.tc_turn.specs.Memory.{IsAccess, number_at};
    ghost use Rattle.tc_turn.specs.Turn.{Thread, Mutex};

    // The thread, and each lock by its number.
    ghost thread: { Self → Thread };

    ghost locks: { Self → ℕ → Mutex };

    /// The number in so many bytes of the thread's own memory. A byte that is not in it counts as 0.
    fn own_number(&self, addr: u32, width: u32) -> u32
        requires { IsAccess addr width }
        ensures { result
            ≡ number_at (λ at. unwrap_or ((thread self.now).own at) 0) addr width };

    /// The bytes of a lock's guard.
    fn guard(&self, lock: u32) -> &[u8]
        ensures { result.now ≡ (locks self.now lock).bytes };

    /// Whether a lock is broken.
    fn is_broken(&self, lock: u32) -> bool
        ensures { result ≡ (locks self.now lock).broken };
}

/// The bytes of an image's ranges at the start, with 0 where no range has the address.
#[derive(Clone, Copy)]
struct Text<'a> {
    image: &'a Image,
}

impl Bytes for Text<'_> {
    ghost use Rattle.tc_turn.specs.Memory.{starting_byte};

    ghost bytes = { λ t. starting_byte t.image.now };

    fn at(&self, addr: u32) -> u8 {
        self.image.byte(addr).unwrap_or(0)
    }
}

/// A number of the file's bytes.
fn text_number(image: &Image, addr: u32, width: u32) -> u32
    requires { IsAccess addr width }
    ensures { result ≡ number_at (starting_byte image.now) addr width }
{
    match image.bytes(addr, width) {
        Some(bytes) => number_from(addr, bytes, addr, width),
        None => bytewise(&Text { image }, addr, width),
    }
}

/// The start of a lock's guard, 0 of a lock that the image has not.
fn guard_start(image: &Image, lock: u32) -> u32
    ensures { result ≡ (guard_at image.now lock).start }
{
    if lock >= image.guards() {
        return 0;
    }
    image.guard(lock).0
}

/// The number in so many bytes of a lock's guard from an address on, the lowest first.
#[inline(always)]
pub fn guard_number<S: Surroundings>(at: &S, image: &Image, lock: u32, addr: u32, width: u32) -> u32
    requires { IsAccess addr width }
    ensures { result
        ≡ number_at (byte_at image.now (S.thread at.now).own (S.locks at.now) (Guard lock)) addr width }
{
    number_from(guard_start(image, lock), at.guard(lock), addr, width)
}

/// The number in so many bytes of a place from an address on, the lowest first.
#[tactic(auto, using(crate::proofs::Numbers::number_nothing))]
fn number<S: Surroundings>(at: &S, image: &Image, region: Region, addr: u32, width: u32) -> u32
    requires { IsAccess addr width }
    ensures { result
        ≡ number_at (byte_at image.now (S.thread at.now).own (S.locks at.now) region) addr width }
{
    match region {
        Region::Text => text_number(image, addr, width),
        Region::Private | Region::Stack => at.own_number(addr, width),
        Region::Guard(lock) => guard_number(at, image, lock, addr, width),
        Region::Nothing => 0,
    }
}

/// The answer to this load, or to the LOCK of this lock.
/// Always inlined: left to the compiler, steps and short blocks cost more instructions.
#[inline(always)]
pub fn answer<S: Surroundings>(at: &S, image: &Image, want: Want, next: Option<u32>) -> u32
    requires { IsWant image.now (S.thread at.now).held want }
    ensures { result ≡ answer_to image.now want next (S.thread at.now).own (S.locks at.now) }
{
    match want {
        Want::Load {
            region,
            addr,
            width,
        } => number(at, image, region, addr, width),
        Want::Nothing => match next {
            Some(lock) => u32::from(at.is_broken(lock)),
            None => 0,
        },
    }
}
