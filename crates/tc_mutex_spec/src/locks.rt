//! The locks of the executable specification.

ghost use Rattle.std.specs.Prelude.{◌≡◌, ℕ, ◌<◌, ◌≤◌, length, slice_get, IfOk, IfSome};
ghost use Rattle.std.specs.Option.{option_map};
ghost use Rattle.tc_isa.specs.Sets.{has};
ghost use Rattle.tc_turn.specs.Turn.{Mutex, mutex_at_start, mutex_after, taken, given_up, guard_after, ActFits, PutFits};
ghost use Rattle.tc_mutex_spec.specs.Slow.{mutex_at, AreTurned};
ghost use Rattle.tc_mutex_spec.specs.Turned.{MayDo};
ghost use Rattle.tc_mutex_spec.specs.Machine.{is_open};

use std::alloc::{AllocError, Global};
use std::marker::Model;
use tc_elf::image::{Image, Region};
use tc_exec::outcome::{Act, Call, Put};
use tc_isa::held::Held;
use tc_turn::memory::{put_number, starting_bytes};

/// A lock with its guard's bytes.
#[derive(Drop)]
pub struct SlowLock {
    bytes: Vec<u8>,
    broken: bool,
    sections: u64,
    owner: Option<u32>,
}

impl Model for SlowLock {
    ghost use Rattle.tc_turn.specs.Turn.{Mutex};

    ghost Value = { Mutex };

    ghost view = { λ l. record { bytes = l.bytes.items; broken = l.broken; sections = l.sections; owner = l.owner } };
}

impl SlowLock {
    fn start(alloc: Global, image: &Image, number: u32) -> Result<SlowLock, AllocError>
        requires { number < length image.now.guards }
        ensures { IfOk result (λ l. l ≡ mutex_at_start image.now number) }
    {
        let (start, length) = image.guard(number);
        Ok(SlowLock {
            bytes: starting_bytes(alloc, image, start, length)?,
            broken: false,
            sections: 0,
            owner: None,
        })
    }

    /// The lock of this number after a step of the thread that held these locks before it.
    fn take_turn(&mut self, image: &Image, thread: u32, held: Held, act: &Option<Act>, number: u32)
        requires number { number < length image.now.guards }
        requires fits { IfSome act.now ActFits }
        ensures { self.new ≡ mutex_after image.now thread (has held) act.now number self.old }
    {
        let Some(act) = act else {
            self.give_up(held.has(number));
            return;
        };
        match act {
            Act::Next { put, .. } => self.put(image, put, number),
            Act::Called { call, .. } => match call {
                Call::Lock(lock) if number == *lock => self.take(thread),
                Call::Unlock(lock) if number == *lock => self.owner = None,
                Call::Lock(_) | Call::Unlock(_) | Call::Sleep(_) => {}
                Call::Exit => self.give_up(held.has(number)),
            },
            Act::Faulted(_) => self.give_up(held.has(number)),
        }
    }

    fn put(&mut self, image: &Image, put: &Option<Put>, number: u32)
        requires number { number < length image.now.guards }
        requires fits { PutFits put.now }
        ensures { self.new ≡ guard_after image.now put.now number self.old }
    {
        let Some(put) = put else {
            return;
        };
        match put.region {
            Region::Guard(lock) => {
                if number == lock {
                    let (start, _) = image.guard(number);
                    put_number(start, &mut self.bytes, put.addr, put.width, put.value);
                }
            }
            Region::Text | Region::Private | Region::Stack | Region::Nothing => {}
        }
    }

    fn take(&mut self, thread: u32)
        ensures { self.new ≡ taken thread self.old }
    {
        self.sections = self.sections.saturating_add(1);
        self.owner = Some(thread);
    }

    fn give_up(&mut self, held: bool)
        ensures { self.new ≡ given_up held self.old }
    {
        if held {
            self.broken = true;
            self.owner = None;
        }
    }
}

/// Every lock after a step.
fn take_turns(locks: &mut [SlowLock], image: &Image, thread: u32, held: Held, act: &Option<Act>)
    requires { MayDo image.now locks.old act.now }
    ensures { AreTurned image.now thread (has held) act.now locks.old locks.new }
{
    for number in 0..image.guards() {
        let lock = &mut locks[number as usize];
        lock.take_turn(image, thread, held, act, number);
    }
}

/// All locks, in order of number.
#[derive(Drop)]
pub struct SlowLocks {
    locks: Vec<SlowLock>,
}

impl Model for SlowLocks {
    ghost use Rattle.std.specs.Prelude.{List};
    ghost use Rattle.tc_turn.specs.Turn.{Mutex};

    ghost Value = { List Mutex };

    ghost view = { λ s. s.locks.items };
}

impl SlowLocks {
    /// All locks of the image at the start.
    pub fn start(alloc: Global, image: &Image) -> Result<SlowLocks, AllocError>
        ensures each { IfOk result (λ s. (k : ℕ) → mutex_at s k ≡ mutex_at_start image.now k) }
        ensures long { IfOk result (λ s. length s ≡ length image.now.guards) }
    {
        let mut locks = Vec::new(alloc);
        for number in 0..image.guards() {
            locks.push(SlowLock::start(alloc, image, number)?)?;
        }
        Ok(SlowLocks { locks })
    }

    /// Every lock after a step of the thread that held these locks before it.
    pub fn take_turn(&mut self, image: &Image, thread: u32, held: Held, act: &Option<Act>)
        requires { MayDo image.now self.old act.now }
        ensures each { AreTurned image.now thread (has held) act.now self.old self.new }
        ensures long { length self.new ≡ length self.old }
    {
        take_turns(&mut self.locks, image, thread, held, act);
    }

    /// The thread that owns a lock.
    pub fn owner(&self, lock: u32) -> Option<u32>
        ensures { result ≡ (mutex_at self.now lock).owner }
    {
        self.locks.get(lock as usize)?.owner
    }

    /// Whether a lock is broken (poisoned).
    pub fn is_broken(&self, lock: u32) -> bool
        ensures { result ≡ (mutex_at self.now lock).broken }
    {
        match self.locks.get(lock as usize) {
            Some(lock) => lock.broken,
            None => false,
        }
    }

    /// How many sections of a lock have begun.
    pub fn sections(&self, lock: u32) -> u64
        ensures { result ≡ (mutex_at self.now lock).sections }
    {
        match self.locks.get(lock as usize) {
            Some(lock) => lock.sections,
            None => 0,
        }
    }

    /// The bytes of a lock's guard.
    pub fn bytes(&self, lock: u32) -> &[u8]
        ensures { result.now ≡ (mutex_at self.now lock).bytes }
    {
        match self.locks.get(lock as usize) {
            Some(lock) => &lock.bytes,
            None => &[],
        }
    }

    /// Whether a lock, if there is one, has no owner.
    pub fn is_open(&self, lock: Option<u32>) -> bool
        ensures { result ≡ is_open lock (mutex_at self.now) }
    {
        match lock {
            Some(lock) => self.owner(lock).is_none(),
            None => true,
        }
    }
}
