//! The mutex machine as an executable specification.
//!
//! A step reads what the thread does; then the thread and every lock change by that, independently,
//! as the machine says. No step copies a thread's memory.

ghost use Rattle.std.specs.Prelude.{◌≡◌, ℕ, ◌+◌, ◌<◌, ◌≤◌, ◌^◌, length, slice_get, IfOk, IfSome, true, false, replicate};
ghost use Rattle.std.specs.Option.{option_map};
ghost use Rattle.tc_isa.specs.Sets.{has};
ghost use Rattle.tc_turn.specs.Turn.{next_lock};
ghost use Rattle.tc_mutex_spec.specs.Machine.{can_turn, turns, run_from, run, start};
ghost use Rattle.tc_mutex_spec.specs.Slow.{state_of, thread_at, mutex_at, Suits, Turned, LeadsTo};
ghost use Rattle.tc_mutex_spec.specs.Turned.{IsNextAct, MayTakeTurn, TookTurn};

use crate::locks::SlowLocks;
use std::alloc::{AllocError, Global};
use std::marker::Model;
use tc_elf::image::Image;
use tc_exec::outcome::Act;
use tc_isa::held::Held;
use tc_isa::regs::Regs;
use tc_journal::rule::Outcome;
use tc_turn::answer::{Surroundings, answer};
use tc_turn::outcome::outcome_of;
pub use tc_turn::status::Status as SlowStatus;
use tc_turn::thread::GuestThread;

/// All threads and all locks, each in order of number.
#[derive(Drop)]
pub struct Slow {
    threads: Vec<GuestThread>,
    locks: SlowLocks,
}

impl Model for Slow {
    ghost use Rattle.tc_mutex_spec.specs.Slow.{Plain};

    ghost Value = { Plain };

    ghost view = { λ s. record { threads = s.threads.items; locks = s.locks } };
}

/// A thread, and all locks beside it.
#[derive(Clone, Copy)]
struct SlowSurroundings<'a> {
    thread: &'a GuestThread,
    locks: &'a SlowLocks,
}

impl Surroundings for SlowSurroundings<'_> {
    ghost use Rattle.tc_turn.specs.Turn.{thread_of};
    ghost use Rattle.tc_mutex_spec.specs.Slow.{mutex_at};

    ghost thread = { λ s. thread_of s.thread.now };

    ghost locks = { λ s. mutex_at s.locks.now };

    fn own_number(&self, addr: u32, width: u32) -> u32 {
        self.thread.number(addr, width)
    }

    fn guard(&self, lock: u32) -> &[u8] {
        self.locks.bytes(lock)
    }

    fn is_broken(&self, lock: u32) -> bool {
        self.locks.is_broken(lock)
    }
}

/// All threads at the start.
fn start_threads(alloc: Global, image: &Image, fuel: u32) -> Result<Vec<GuestThread>, AllocError>
    ensures each { IfOk result
        (λ threads. (t : ℕ) → thread_at threads.items t ≡ (start image.now fuel).threads t) }
    ensures long { IfOk result (λ threads. length threads.items ≡ length image.now.entries) }
{
    let mut threads = Vec::new(alloc);
    for t in 0..image.threads() {
        threads.push(GuestThread::start(alloc, image, fuel, t)?)?;
    }
    Ok(threads)
}

impl Slow {
    /// All threads and locks at the start.
    pub fn start(alloc: Global, image: &Image, fuel: u32) -> Result<Slow, AllocError>
        ensures start { IfOk result (λ s. state_of s ≡ start image.now fuel) }
        ensures suits { IfOk result (λ s. Suits image.now s) }
    {
        let threads = start_threads(alloc, image, fuel)?;
        let locks = SlowLocks::start(alloc, image)?;
        Ok(Slow { threads, locks })
    }

    /// Whether the thread's step is defined: the thread exists, has not ended, and does not take a
    /// lock that has an owner.
    #[tactic(auto, unfolding(crate::specs::Machine::can_turn))]
    pub(crate) fn can_turn(&self, image: &Image, t: u32) -> bool
        requires { Suits image.now self.now }
        ensures { result ≡ can_turn image.now (state_of self.now) t }
    {
        if t >= image.threads() {
            return false;
        }
        let thread = &self.threads[t as usize];
        thread.status() == SlowStatus::Running && self.locks.is_open(thread.next_lock(image))
    }

    /// What the thread's next step does.
    #[tactic(auto, using(crate::proofs::Holds::can_thread))]
    fn next_act(&self, image: &Image, t: u32) -> Option<Act>
        requires { MayTakeTurn image.now self.now t }
        ensures { IsNextAct image.now self.now t result }
    {
        let thread = &self.threads[t as usize];
        let beside = SlowSurroundings {
            thread,
            locks: &self.locks,
        };
        let want = thread.wants(image);
        thread.act(image, answer(&beside, image, want, thread.next_lock(image)))
    }

    /// The lock that the next step of the thread takes, if it takes one.
    pub fn next_lock(&self, image: &Image, t: u32) -> Option<u32>
        requires { t < length self.now.threads }
        ensures value { result ≡ next_lock image.now ((state_of self.now).threads t) }
        ensures bound { IfSome result (λ lock. lock < length image.now.guards) }
    {
        self.threads[t as usize].next_lock(image)
    }

    /// A step of the thread, and how it came out for its block.
    #[tactic(auto, using(crate::proofs::Holds::can_thread))]
    pub fn take_turn(&mut self, image: &Image, t: u32) -> Outcome
        requires { MayTakeTurn image.now self.old t }
        ensures { TookTurn image.now self.old self.new t result }
    {
        let act = self.next_act(image, t);
        let held = self.threads[t as usize].held();
        self.locks.take_turn(image, t, held, &act);
        let thread = &mut self.threads[t as usize];
        thread.take_turn(&act);
        outcome_of(&act)
    }

    /// A step of the thread if it is defined, and whether it is. If it is not, nothing
    /// changes.
    pub fn turn(&mut self, image: &Image, t: u32) -> bool
        requires { Suits image.now self.old }
        ensures turned { Turned image.now self.old t result self.new }
        ensures suits { Suits image.now self.new }
    {
        let can = self.can_turn(image, t);
        if can {
            self.take_turn(image, t);
        }
        can
    }

    /// So many steps of the thread, if they are defined.
    pub(crate) fn turns(&mut self, image: &Image, t: u32, count: u32) -> bool
        requires { Suits image.now self.old }
        ensures ran { LeadsTo (turns image.now (state_of self.old) (replicate count t))
            result self.new }
        ensures suits { Suits image.now self.new }
    {
        for done in 0..count {
            if !self.turn(image, t) {
                return false;
            }
        }
        true
    }

    /// The steps of each pair, if they are defined.
    fn pairs(&mut self, image: &Image, schedule: &[(u32, u32)]) -> bool
        requires { Suits image.now self.old }
        ensures ran { LeadsTo (run_from image.now (state_of self.old) schedule.now)
            result self.new }
        ensures suits { Suits image.now self.new }
    {
        for pair in schedule {
            if !self.turns(image, pair.0, pair.1) {
                return false;
            }
        }
        true
    }

    /// The machine after a run of a schedule from the start: a list of pairs of a thread and a
    /// number of steps. None if and only if a step is undefined: its thread does not exist, has
    /// ended, or would take a lock that has an owner.
    pub fn run(
        alloc: Global,
        image: &Image,
        fuel: u32,
        schedule: &[(u32, u32)],
    ) -> Result<Option<Slow>, AllocError>
        ensures run { IfOk result (λ o. option_map state_of o ≡ run image.now fuel schedule.now) }
        ensures suits { IfOk result (λ o. IfSome o (Suits image.now)) }
    {
        let mut slow = Slow::start(alloc, image, fuel)?;
        if slow.pairs(image, schedule) {
            Ok(Some(slow))
        } else {
            Ok(None)
        }
    }

    /// The registers of a thread.
    pub fn regs(&self, t: u32) -> Regs
        requires { t < length self.now.threads }
        ensures { result ≡ ((state_of self.now).threads t).regs }
    {
        *self.threads[t as usize].regs()
    }

    /// How many instructions a thread may still run.
    pub fn fuel(&self, t: u32) -> u32
        requires { t < length self.now.threads }
        ensures { result ≡ ((state_of self.now).threads t).fuel }
    {
        self.threads[t as usize].fuel()
    }

    /// Whether and how a thread has ended.
    pub fn status(&self, t: u32) -> SlowStatus
        requires { t < length self.now.threads }
        ensures { result ≡ ((state_of self.now).threads t).status }
    {
        self.threads[t as usize].status()
    }

    /// The locks that a thread holds.
    pub fn held(&self, t: u32) -> Held
        requires { t < length self.now.threads }
        ensures { has result ≡ ((state_of self.now).threads t).held }
    {
        self.threads[t as usize].held()
    }

    /// The thread that owns a lock.
    pub fn owner(&self, lock: u32) -> Option<u32>
        requires { lock < length self.now.locks }
        ensures { result ≡ ((state_of self.now).locks lock).owner }
    {
        self.locks.owner(lock)
    }

    /// Whether a lock is broken: a thread that held it has ended.
    pub fn broken(&self, lock: u32) -> bool
        requires { lock < length self.now.locks }
        ensures { result ≡ ((state_of self.now).locks lock).broken }
    {
        self.locks.is_broken(lock)
    }

    /// How many sections of a lock have begun, at most 2^64 - 1.
    pub fn sections(&self, lock: u32) -> u64
        requires { lock < length self.now.locks }
        ensures { result ≡ ((state_of self.now).locks lock).sections }
    {
        self.locks.sections(lock)
    }

    /// The bytes of a lock's guard.
    pub fn bytes(&self, lock: u32) -> &[u8]
        requires { lock < length self.now.locks }
        ensures { result.now ≡ ((state_of self.now).locks lock).bytes }
    {
        self.locks.bytes(lock)
    }
}
