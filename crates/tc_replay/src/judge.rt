//! Runs a recorded block, and compares it with what ran.

ghost use Rattle.std.specs.Prelude.{◌≡◌, ℕ, ◌<◌, List, MatchBool, IfSome, OnOk, Some, None, true, false, OnErr, Ok};
ghost use Rattle.tc_segment.specs.View.{LockView};
ghost use Rattle.tc_context.specs.Locks.{lock_in};
ghost use Rattle.tc_context.specs.View.{IsReserved};
ghost use Rattle.tc_replay.specs.Taken.{AllWentHome, HasReleased, HasRun, Before, DidGrant, TookOne, HasRoom, IsNext, IsOnlyRoomier, MayGrant, WentHome};
ghost use Rattle.tc_journal.specs.Batch.{is_section};
ghost use Rattle.tc_journal.specs.declared.block.Block.{Block as AnyBlock};
ghost use Rattle.tc_mutex_spec.specs.Blocks.{end_after};
ghost use Rattle.tc_replay.specs.Rejected.{IsWrong};
ghost use Rattle.tc_replay.specs.declared.reason.Reason.{Reason as AnyReason};
ghost use Rattle.tc_replay.specs.Run.{HaveSameTurns, IsJudged, IsPrepared, grant_kind};

use crate::Terms;
use crate::reason::Reason;
use std::alloc::AllocError;
use tc_context::locks::LockSet;
use tc_context::package::Package;
use tc_elf::image::Image;
use tc_isa::held::Held;
use tc_journal::block::{Block, Kind};

/// Whether two blocks have the same steps, locks, `pc` and end.
fn have_same_turns(ran: &Block, block: &Block) -> bool
    ensures { MatchBool result (HaveSameTurns ran.now block.now)
        (HaveSameTurns ran.now block.now → ⊥) }
{
    ran.turns == block.turns && ran.held == block.held && ran.pc == block.pc && ran.end == block.end
}

/// Whether two kinds are the same.
fn is_kind(a: Kind, b: Kind) -> bool
    ensures { MatchBool result (a ≡ b) (a ≡ b → ⊥) }
{
    a == b
}

/// How a lock is granted to the thread of a recorded block: with the recorded kind, if that is a
/// section's. Otherwise the block is wrong, which is found after it ran.
fn kind_for(block: &Block) -> Kind
    ensures is { result ≡ grant_kind block.now }
    ensures section { is_section result ≡ true }
{
    if block.kind.is_section() {
        block.kind
    } else {
        Kind::Taken
    }
}

/// Makes room for a block of the package, and for its entry in the lock that it wants.
fn make_room(home: &mut LockSet, package: &mut Package, want: Option<u32>) -> Result<(), AllocError>
    requires { IfSome want (λ k. k < 32) }
    ensures same { IsOnlyRoomier home.old «package».old home.new «package».new }
    ensures reserved { OnOk result (IsReserved «package».new) }
    ensures room { OnOk result ((k : ℕ) (l : LockView) → want ≡ Some k
        → lock_in home.new k ≡ Some l → HasRoom l) }
{
    package.reserve()?;
    match want {
        None => Ok(()),
        Some(lock) => home.reserve(Held::none().plus(lock)),
    }
}

/// Grants a lock that no thread holds to the package of a recorded block, and says whether it was one.
fn grant_for(home: &mut LockSet, package: &mut Package, block: &Block, lock: u32) -> bool
    requires small { lock < 32 }
    requires may { (l : LockView) → lock_in home.old lock ≡ Some l → MayGrant «package».old l }
    ensures granted { result ≡ true
        → DidGrant block.now lock home.old home.new «package».old «package».new }
    ensures away { result ≡ false → lock_in home.old lock ≡ None }
{
    let Some(state) = home.take_out(lock) else {
        return false;
    };
    let number = package.next_number();
    package.grant(state, kind_for(block), number);
    true
}

/// Grants the lock that a package wants, if it wants one, and answers whether it has what it
/// wants.
fn grant_wanted(home: &mut LockSet, package: &mut Package, block: &Block, want: Option<u32>) -> bool
    requires small { IfSome want (λ k. k < 32) }
    requires may { (k : ℕ) (l : LockView) → want ≡ Some k → lock_in home.old k ≡ Some l
        → MayGrant «package».old l }
    ensures granted { result ≡ true → (k : ℕ) → want ≡ Some k
        → DidGrant block.now k home.old home.new «package».old «package».new }
    ensures none { want ≡ None → (home.new ≡ home.old) × («package».new ≡ «package».old) }
    ensures away { result ≡ false → (k : ℕ) × (want ≡ Some k) × (lock_in home.old k ≡ None) }
{
    match want {
        None => true,
        Some(lock) => grant_for(home, package, block, lock),
    }
}

/// Runs the block of a package that may run, and says what is wrong with the recorded one, if
/// anything is.
fn run_recorded(image: &Image, terms: Terms, package: &mut Package, block: &Block) -> Option<Reason>
    requires { (h : List AnyBlock) × IsPrepared image.now terms h «package».old block.now }
    ensures { (h : List AnyBlock) → IsPrepared image.now terms h «package».old block.now
        → IsJudged image.now terms h «package».old «package».new block.now result }
{
    // Asked before the run, while the lock's journal has no entry of it.
    let fits = package.fits(block.worker);
    package.keeps();
    prove!(block.held.bits() <= u32::MAX);
    package.run_block(image);
    let ran = package.last();
    if !have_same_turns(&ran, block) {
        return Some(Reason::Block);
    }
    if !is_kind(ran.kind, block.kind) {
        return Some(Reason::Kind);
    }
    if !fits {
        return Some(Reason::Kind);
    }
    if block.worker >= terms.workers {
        return Some(Reason::Worker);
    }
    package.seal(block.stamp, block.worker);
    None
}

/// Takes a released lock out of a package and stores it with those that no thread holds.
fn bring_home(home: &mut LockSet, package: &mut Package, lock: u32)
    requires { HasReleased lock «package».old }
    ensures { WentHome lock home.old «package».old home.new «package».new }
{
    let state = package.take_out(lock);
    home.put_in(state);
}

/// Takes the locks that a block released out of its package.
fn bring_released(home: &mut LockSet, package: &mut Package, block: &Block)
    requires { HasRun block.now «package».old }
    ensures { AllWentHome home.old «package».old home.new «package».new }
{
    let held = package.held();
    for lock in 0..32 {
        if block.held.has(lock) && !held.has(lock) {
            bring_home(home, package, lock);
        }
    }
    package.keeps();
}

/// Takes the next block, of a package whose thread runs: the package runs it, and says what is wrong
/// with it, if anything is; then it is useless. If memory runs out, only capacities have changed.
pub(crate) fn take_on(
    image: &Image,
    terms: Terms,
    home: &mut LockSet,
    package: &mut Package,
    block: &Block,
) -> Result<Option<Reason>, AllocError>
    requires { (before : Before) × IsNext image.now terms before home.old «package».old block.now }
    ensures memory { OnErr result
        (IsOnlyRoomier home.old «package».old home.new «package».new) }
    ensures took { result ≡ Ok None → (before : Before)
        → IsNext image.now terms before home.old «package».old block.now
        → TookOne image.now terms before block.now home.new «package».new }
    ensures wrong { (r : AnyReason) → result ≡ Ok (Some r) → (before : Before)
        → IsNext image.now terms before home.old «package».old block.now
        → IsWrong image.now terms before.history
        (end_after image.now terms.fuel before.history) block.now r }
{
    prove!(block.worker <= u32::MAX);
    let want = package.want(image);
    package.keeps();
    make_room(home, package, want)?;
    package.keeps();
    if !grant_wanted(home, package, block, want) {
        return Ok(Some(Reason::Owner));
    }
    let wrong = run_recorded(image, terms, package, block);
    if wrong.is_some() {
        return Ok(wrong);
    }
    bring_released(home, package, block);
    Ok(None)
}
