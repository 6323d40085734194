//! The checker: the packages of all threads, and the locks that are in none of them.

ghost use Rattle.std.specs.Prelude.{◌≡◌, ℕ, ◌+◌, ◌<◌, ◌≤◌, ◌∷◌, ◌++◌, [], List, OnOk, OnErr, IfOk, IsErrOf, Some, None, Ok, nat_lt, length, map, if◌then◌else◌};
ghost use Rattle.tc_elf.specs.Shown.{Shown};
ghost use Rattle.tc_isa.specs.declared.limits.TheConstants.{MAX_BATCH};
ghost use Rattle.tc_journal.specs.declared.block.Block.{Block as AnyBlock};
ghost use Rattle.tc_mutex_spec.specs.Blocks.{end_after};
ghost use Rattle.tc_segment.specs.View.{kept};
ghost use Rattle.tc_turn.specs.Turn.{is_running};
ghost use Rattle.tc_context.specs.Locks.{lock_in};
ghost use Rattle.tc_context.specs.View.{bare, status_in};
ghost use Rattle.tc_law.specs.Lawful.{IsLimited, Lawful};
ghost use Rattle.tc_replay.specs.Rejected.{IsWrong, IsFirstOn};
ghost use Rattle.tc_replay.specs.Taken.{AreFreshPackages, AreTaken, HasEnded, HasTaken, HasWhatItTook, lenient_state};
ghost use Rattle.tc_replay.specs.declared.reason.Reason.{Reason as AnyReason};
ghost use Rattle.tc_replay.specs.declared.reason.Take.TheVariants.{Wrong, OutOfMemory};

use crate::Terms;
use crate::judge::take_on;
use crate::reason::{Reason, Take};
use std::alloc::{AllocError, Global};
use std::marker::Model;
use std::snapshot::Snapshot;
use std::sync::Arc;
use tc_context::locks::LockSet;
use tc_context::package::Package;
use tc_elf::image::Image;
use tc_exec::code::Code;
use tc_isa::held::Held;
use tc_journal::block::Block;
use tc_noted::Noted;
use tc_segment::state::LockState;
use tc_turn::memory::Memory;
use tc_turn::status::Status;

/// A checker of one history, which takes its blocks one by one and runs each of them. After a wrong
/// block it answers each later one with the same reason. Contracts see the blocks that were taken
/// as a list.
#[derive(Drop)]
pub struct Checker {
    of: Snapshot<Image>,
    terms: Terms,
    // The blocks that were taken, which only contracts read.
    taken: Noted<Block>,
    // Those of all threads, in order of number.
    packages: Vec<Package>,
    // The locks that no thread holds.
    home: LockSet,
    // Capacity for the lock states, once no package has any.
    states: Vec<LockState>,
    failed: Option<Reason>,
}

impl Model for Checker {
    ghost use Rattle.std.specs.Prelude.{◌≡◌, ◌≤◌, [], None, length, vec_capacity};
    ghost use Rattle.tc_replay.specs.Taken.{CheckerView, AreTaken};

    ghost Value = { CheckerView };

    ghost view = { λ a. record {
      image = a.of.value;
      terms = a.terms;
      taken = a.taken;
      packages = a.packages.items;
      home = a.home;
      failed = a.failed;
    } };

    ghost invariant = { λ a. (a.failed ≡ None
        → AreTaken a.of.value a.terms a.taken a.packages.items a.home)
        × (a.states.items ≡ [])
        × (length a.of.value.guards ≤ vec_capacity a.states) };
}

/// The packages of all threads at their start. They share the code, which is decoded here, and
/// their initial memory.
fn packages_at_start(alloc: Global, image: &Image, terms: Terms) -> Result<Vec<Package>, AllocError>
    ensures fresh { IfOk result (λ v. AreFreshPackages image.now terms.fuel v.items) }
    ensures limits { OnOk result (IsLimited image.now terms.fuel) }
{
    let threads = image.threads();
    let code = Arc::new(alloc, Code::of(alloc, image)?)?;
    let first = Arc::new(alloc, Memory::start(alloc, image)?)?;
    let mut packages = Vec::with_capacity(alloc, threads as usize)?;
    for t in 0..threads {
        let package = Package::start_with(alloc, image, &code, &first, t, terms.fuel)?;
        packages.push_reserved(package);
    }
    Ok(packages)
}

/// The locks of a guest at their start. They are not strict: a history may say that a section was
/// passed on to the thread that released it.
fn locks_at_start(alloc: Global, image: &Image, terms: Terms) -> Result<LockSet, AllocError>
    ensures { IfOk result (λ s. (k : ℕ) → lock_in s k ≡ (if nat_lt k (length image.now.guards)
        then Some (lenient_state image.now terms.limit k) else None)) }
{
    let mut home = LockSet::new(alloc)?;
    for lock in 0..image.guards() {
        let state = LockState::lenient(alloc, image, lock, terms.limit)?;
        home.put_in(state);
    }
    Ok(home)
}

/// Whether the thread of a package has not ended.
fn goes_on(package: &Package) -> bool
    ensures { result ≡ is_running (status_in «package».now) }
{
    match package.status() {
        Status::Running => true,
        Status::Exited | Status::Faulted(_) | Status::SpentFuel => false,
    }
}

/// Takes the next block, and says what is wrong with it, if anything is; then the packages and
/// locks are useless.
fn judge(
    image: &Image,
    terms: Terms,
    home: &mut LockSet,
    packages: &mut Vec<Package>,
    block: &Block,
) -> Result<Option<Reason>, AllocError>
    requires taken { (h : List AnyBlock) × AreTaken image.now terms h packages.old.items home.old }
    requires stamp { (h : List AnyBlock) → AreTaken image.now terms h packages.old.items home.old
        → block.now.stamp ≡ length h }
    ensures memory { OnErr result ((h : List AnyBlock)
        → AreTaken image.now terms h packages.old.items home.old
        → AreTaken image.now terms h packages.new.items home.new) }
    ensures took { result ≡ Ok None → (h : List AnyBlock)
        → AreTaken image.now terms h packages.old.items home.old
        → AreTaken image.now terms (h ++ block.now ∷ []) packages.new.items home.new }
    ensures wrong { (r : AnyReason) → result ≡ Ok (Some r) → (h : List AnyBlock)
        → AreTaken image.now terms h packages.old.items home.old
        → IsWrong image.now terms h (end_after image.now terms.fuel h) block.now r }
{
    let t = block.thread as usize;
    if t >= packages.len() {
        return Ok(Some(Reason::Thread));
    }
    let package = &mut packages[t];
    if !goes_on(package) {
        return Ok(Some(Reason::Thread));
    }
    take_on(image, terms, home, package, block)
}

impl Checker {
    /// The invariant of each checker: its packages and its locks have taken its blocks, unless it
    /// has failed. A lemma: the function has no effect when it is called.
    pub fn keeps(&self)
        ensures { HasWhatItTook self.now }
    {
        let _ = &self.failed;
    }

    /// A checker that has taken no block yet.
    pub fn new(alloc: Global, image: &Image, terms: Terms) -> Result<Checker, AllocError>
        ensures taken { IfOk result (λ c. HasTaken c []) }
        ensures image { IfOk result (λ c. c.image ≡ image.now) }
        ensures terms { IfOk result (λ c. c.terms ≡ terms) }
    {
        Ok(Checker {
            of: Snapshot::of(image),
            terms,
            taken: Noted::nothing(),
            packages: packages_at_start(alloc, image, terms)?,
            home: locks_at_start(alloc, image, terms)?,
            states: Vec::with_capacity(alloc, image.guards() as usize)?,
            failed: None,
        })
    }

    /// Takes the next block: runs it and compares it with what ran. It is taken if and only if
    /// nothing is wrong with it after those that were taken. Otherwise the checker has failed, and
    /// answers each later block as this one. Running out of memory comes before the block is run;
    /// the same block may then be given again.
    pub fn take(&mut self, image: &Image, block: &Block) -> Result<(), Take>
        requires image { self.old.image ≡ image.now }
        requires stamp { self.old.failed ≡ None → block.now.stamp ≡ length self.old.taken }
        ensures taken { OnOk result (HasTaken self.new (self.old.taken ++ block.now ∷ [])) }
        ensures wrong { (r : AnyReason) → IsErrOf result (Wrong r) → self.old.failed ≡ None
            → IsWrong image.now self.old.terms self.old.taken
            (end_after image.now self.old.terms.fuel self.old.taken) block.now r }
        ensures failed { (r : AnyReason) → IsErrOf result (Wrong r) → self.new.failed ≡ Some r }
        ensures again { (r : AnyReason) → self.old.failed ≡ Some r → IsErrOf result (Wrong r) }
        ensures memory { IsErrOf result OutOfMemory → HasTaken self.new self.old.taken }
        ensures same { (self.new.image ≡ self.old.image) × (self.new.terms ≡ self.old.terms) }
    {
        if let Some(reason) = self.failed {
            return Err(Take::Wrong(reason));
        }
        let terms = self.terms;
        self.failed = judge(image, terms, &mut self.home, &mut self.packages, block)?;
        match self.failed {
            None => {
                self.taken.note(block);
                Ok(())
            }
            Some(reason) => Err(Take::Wrong(reason)),
        }
    }

    /// The least thread that has not ended; None if and only if each has.
    pub fn unfinished(&self) -> Option<u32>
        requires { self.now.failed ≡ None }
        ensures some { (t : ℕ) → result ≡ Some t → IsFirstOn self.now.image
            (end_after self.now.image self.now.terms.fuel self.now.taken) t }
        ensures none { result ≡ None → HasEnded self.now }
    {
        for t in 0..self.packages.len() {
            if goes_on(&self.packages[t]) {
                return Some(t as u32);
            }
        }
        None
    }

    /// All packages and all lock states, in order of number, after the blocks that were taken. It
    /// allocates nothing.
    pub fn parts(self) -> (Vec<Package>, Vec<LockState>)
        requires failed { self.failed ≡ None }
        requires ended { HasEnded self }
        ensures { Lawful self.image self.terms.fuel self.terms.limit self.taken
            (map bare result.0.items) (map kept result.1.items) }
    {
        let Checker {
            of: _,
            terms: _,
            taken: _,
            packages,
            mut home,
            mut states,
            failed: _,
        } = self;
        home.bound();
        for lock in 0..Held::PLACES {
            if let Some(state) = home.take_out(lock) {
                states.push_reserved(state);
            }
        }
        (packages, states)
    }
}
