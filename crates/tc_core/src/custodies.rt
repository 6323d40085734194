//! The custodies (places and waiting queues) of all locks.

ghost use Rattle.std.specs.Prelude.{◌≡◌, ℕ, ◌<◌, ◌++◌, ◌∷◌, [], true, false, length, slice_get, slice_set, IfOk, IfSome};
ghost use Rattle.std.specs.Option.{option_map};
ghost use Rattle.tc_isa.specs.Sets.{has};
ghost use Rattle.tc_elf.specs.declared.limits.TheConstants.{MAX_THREADS};
ghost use Rattle.tc_core.specs.Core.{Granted, With, first_custody};
ghost use Rattle.tc_core.specs.Events.{entered, taken_by, passed_to, left_by_all, freed, custody_on, custody_past};
ghost use Rattle.tc_core.specs.View.{custody_at, AreAtStart};
ghost use Rattle.tc_core.specs.declared.place.LockPlace.TheVariants.{Free};

use crate::place::{Custody, LockPlace, Release};
use std::alloc::{AllocError, Global};
use std::marker::Model;
use tc_elf::image::Image;
use tc_isa::held::Held;

/// The custodies of all locks, in order of number.
#[derive(Drop)]
pub struct Custodies {
    custodies: Vec<Custody>,
}

impl Model for Custodies {
    ghost use Rattle.std.specs.Prelude.{List};
    ghost use Rattle.tc_core.specs.Core.{Custody as AnyCustody};

    ghost Value = { List AnyCustody };

    ghost view = { λ a. a.custodies.items };
}

impl Custodies {
    /// So many locks at the start.
    pub fn new(alloc: Global, count: u32) -> Result<Custodies, AllocError>
        ensures { IfOk result (AreAtStart first_custody count) }
    {
        let mut custodies = Vec::new(alloc);
        for _ in 0..count {
            custodies.push(Custody::new(alloc)?)?;
        }
        Ok(Custodies { custodies })
    }

    /// The custody of a lock.
    #[tactic(auto, using(crate::proofs::Places::custody_here))]
    pub fn at(&self, lock: u32) -> &Custody
        requires { lock < length self.now }
        ensures { result.now ≡ custody_at self.now lock }
    {
        &self.custodies[lock as usize]
    }

    /// The custody of a lock, if there is such a lock.
    pub fn find(&self, lock: u32) -> Option<&Custody>
        ensures { option_map (λ x. x.now) result ≡ slice_get self.now lock }
    {
        self.custodies.get(lock as usize)
    }

    /// The thread enters the waiting queue of the lock.
    #[tactic(auto, using(crate::proofs::Places::custody_here))]
    pub fn enter(&mut self, lock: u32, thread: u32)
        requires lock { lock < length self.old }
        requires room { length (custody_at self.old lock).line < MAX_THREADS }
        ensures { self.new ≡ slice_set self.old lock (entered (custody_at self.old lock) thread) }
    {
        self.custodies[lock as usize].line.enter(thread);
    }

    /// The lock is granted to the first of its queue, as Taken.
    #[tactic(auto, using(crate::proofs::Places::custody_here))]
    pub fn grant(&mut self, lock: u32, thread: u32)
        requires { lock < length self.old }
        ensures { self.new ≡ slice_set self.old lock (taken_by (custody_at self.old lock) thread) }
    {
        let custody = &mut self.custodies[lock as usize];
        custody.place = LockPlace::Granted(thread);
        custody.run = 0;
    }

    /// The first of the queue leaves it, and the lock is granted to the next.
    #[tactic(auto, using(crate::proofs::Places::custody_here))]
    pub fn pass(&mut self, lock: u32, thread: u32, run: u32)
        requires { lock < length self.old }
        ensures { self.new
            ≡ slice_set self.old lock (passed_to (custody_at self.old lock) thread run) }
    {
        let custody = &mut self.custodies[lock as usize];
        custody.line.pass();
        custody.place = LockPlace::Granted(thread);
        custody.run = run;
    }

    /// The last of the queue leaves it.
    #[tactic(auto, using(crate::proofs::Places::custody_here))]
    pub fn leave(&mut self, lock: u32)
        requires { lock < length self.old }
        ensures { self.new ≡ slice_set self.old lock (left_by_all (custody_at self.old lock)) }
    {
        let custody = &mut self.custodies[lock as usize];
        custody.line.clear();
        custody.left = true;
    }

    /// The lock becomes free.
    #[tactic(auto, using(crate::proofs::Places::custody_here))]
    pub fn free(&mut self, lock: u32)
        requires { lock < length self.old }
        ensures { self.new ≡ slice_set self.old lock (freed (custody_at self.old lock)) }
    {
        let custody = &mut self.custodies[lock as usize];
        custody.place = LockPlace::Free;
        custody.left = false;
    }

    /// The thread takes this lock, or none.
    pub fn take(&mut self, taken: Option<u32>, thread: u32)
        requires { IfSome taken (λ lock. lock < length self.old) }
        ensures each { (k : ℕ) → custody_at self.new k
            ≡ custody_on taken thread k (custody_at self.old k) }
        ensures long { length self.new ≡ length self.old }
    {
        if let Some(lock) = taken {
            self.custodies[lock as usize].place = LockPlace::With(thread);
        }
    }

    /// Every lock after a block of the thread at the worker; `held` is what the thread holds then.
    pub fn release(
        &mut self,
        image: &Image,
        worker: u32,
        thread: u32,
        held: Held,
        release: &Option<Release>,
    )
        requires { length self.old ≡ length image.now.guards }
        ensures each { (k : ℕ) → slice_get self.new k
            ≡ option_map (custody_past worker thread (has held k) release.now) (slice_get self.old k) }
        ensures long { length self.new ≡ length self.old }
    {
        release_all(&mut self.custodies, image, worker, thread, held, release);
    }
}

/// Every lock after a block.
fn release_all(
    custodies: &mut [Custody],
    image: &Image,
    worker: u32,
    thread: u32,
    held: Held,
    release: &Option<Release>,
)
    requires { length custodies.old ≡ length image.now.guards }
    ensures { (k : ℕ) → slice_get custodies.new k
        ≡ option_map (custody_past worker thread (has held k) release.now) (slice_get custodies.old k) }
{
    for lock in 0..image.guards() {
        let custody = &mut custodies[lock as usize];
        custody.release(worker, thread, held.has(lock), release);
    }
}
