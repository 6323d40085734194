//! Where threads and locks are, and how they got there.

ghost use Rattle.std.specs.Prelude.{◌≡◌, ◌+◌, ◌<◌, ◌++◌, ◌∷◌, [], true, false, None, IfOk, IfSome, length};
ghost use Rattle.tc_isa.specs.declared.limits.TheConstants.{MAX_TURNS};
ghost use Rattle.tc_isa.specs.declared.held.TheConstants.Held.{PLACES};
ghost use Rattle.tc_elf.specs.declared.limits.TheConstants.{MAX_THREADS};
ghost use Rattle.tc_journal.specs.History.{IsEnd};
ghost use Rattle.tc_core.specs.Core as core;
ghost use Rattle.tc_core.specs.Events as events;
ghost use Rattle.tc_core.specs.declared.place.LockPlace.TheVariants.{Free};

use crate::line::Line;
use std::alloc::{AllocError, Global};
use tc_isa::held::Held;
use tc_journal::block::{Block, End, Kind};

/// Where a thread is.
#[derive(Clone, Copy, Debug, PartialEq, Eq)]
pub enum ThreadPlace {
    /// Any worker may claim it.
    Ready,
    /// It waits in the queue of this lock.
    Waiting(u32),
    /// It sleeps, and any worker may claim it.
    Parked,
    /// It has ended.
    Done,
    /// This worker has it.
    At(u32),
}

impl ThreadPlace {
    /// Whether it is at the worker.
    pub(crate) fn is_at(self, worker: u32) -> bool
        ensures { result ≡ core.is_at self worker }
    {
        match self {
            ThreadPlace::At(at) => at == worker,
            _ => false,
        }
    }

    /// Whether a worker may claim it.
    pub(crate) fn is_claimable(self) -> bool
        ensures { result ≡ core.is_claimable self }
    {
        matches!(self, ThreadPlace::Ready | ThreadPlace::Parked)
    }

    /// Whether it waits for the lock.
    pub(crate) fn is_waiting(self, lock: u32) -> bool
        ensures { result ≡ core.is_waiting self lock }
    {
        match self {
            ThreadPlace::Waiting(wanted) => wanted == lock,
            _ => false,
        }
    }
}

/// Where a lock is.
#[derive(Clone, Copy, Debug, PartialEq, Eq)]
pub enum LockPlace {
    /// Nobody has it.
    Free,
    /// This thread has it, from its LOCK to the commit of the block that releases it.
    With(u32),
    /// It was granted to this thread, which has not taken it yet.
    Granted(u32),
    /// It was released, and this worker decides who is next.
    Loose(u32),
}

impl LockPlace {
    /// Whether nobody has it.
    pub(crate) fn is_free(self) -> bool
        ensures { result ≡ core.is_free_lock self }
    {
        matches!(self, LockPlace::Free)
    }

    /// Whether it was granted to the thread.
    pub(crate) fn is_granted(self, thread: u32) -> bool
        ensures { result ≡ core.is_granted self thread }
    {
        match self {
            LockPlace::Granted(to) => to == thread,
            _ => false,
        }
    }

    /// Whether it is loose at the worker.
    pub(crate) fn is_loose(self, worker: u32) -> bool
        ensures { result ≡ core.is_loose self worker }
    {
        match self {
            LockPlace::Loose(at) => at == worker,
            _ => false,
        }
    }

    /// Whether the thread has it.
    pub(crate) fn is_with(self, thread: u32) -> bool
        ensures { result ≡ core.is_number (core.with_of self) thread }
    {
        match self {
            LockPlace::With(owner) => owner == thread,
            _ => false,
        }
    }
}

/// Where a thread is, and how far it got.
#[derive(Clone, Copy, Debug, PartialEq, Eq)]
pub struct Course {
    pub place: ThreadPlace,
    /// The steps of its present block.
    pub turns: u32,
    /// The locks of its present block; before its first step, those that the thread holds.
    pub held: Held,
    /// How its present block ended, if it has.
    pub ended: Option<End>,
    /// How its last committed block ended, if there is one.
    pub last: Option<End>,
}

impl Course {
    /// A thread at the start.
    pub(crate) fn new() -> Course
        ensures { result ≡ core.first_course }
    {
        Course {
            place: ThreadPlace::Ready,
            turns: 0,
            held: Held::none(),
            ended: None,
            last: None,
        }
    }

    /// The thread at another place.
    pub(crate) fn to(&self, place: ThreadPlace) -> Course
        ensures { result ≡ record self.now { place = place } }
    {
        Course { place, ..*self }
    }

    /// The thread after a step that took this lock, or none, and ended its block so, or went on.
    pub(crate) fn after_turn(&self, taken: Option<u32>, ended: Option<End>) -> Course
        requires turns { self.now.turns < MAX_TURNS }
        requires taken { IfSome taken (λ lock. lock < PLACES) }
        ensures { result ≡ events.course_on self.now taken ended }
    {
        let held = match taken {
            Some(lock) => self.held.plus(lock),
            None => self.held,
        };
        Course {
            turns: self.turns + 1,
            held,
            ended,
            ..*self
        }
    }

    /// The thread after its block.
    pub(crate) fn after_block(&self) -> Course
        requires { IfSome self.now.ended IsEnd }
        ensures { result ≡ events.course_past self.now }
    {
        let held = match self.ended {
            Some(End::Unlocked(lock)) => self.held.less(lock),
            Some(End::Exit) | Some(End::Fault(_)) | Some(End::Spent) => Held::none(),
            _ => self.held,
        };
        Course {
            turns: 0,
            held,
            ended: None,
            last: self.ended,
            ..*self
        }
    }

    /// Whether its last committed block ended with a SLEEP.
    pub(crate) fn has_slept(&self) -> bool
        ensures { result ≡ core.is_slept self.now.last }
    {
        matches!(self.last, Some(End::Slept))
    }

    /// What its block says of the locks that it released.
    pub(crate) fn release(&self) -> Option<Release>
        ensures { result ≡ events.release_of self.now }
    {
        let held = self.held;
        self.ended.map(|end| Release { held, end })
    }
}

/// What the batch rule asks of the block that last released a lock.
#[derive(Clone, Copy, Debug, PartialEq, Eq)]
pub struct Release {
    pub held: Held,
    pub end: End,
}

impl Release {
    /// The block, as far as the batch rule reads it.
    pub(crate) fn block(self) -> Block
        ensures { result ≡ events.released_by self }
    {
        Block {
            stamp: 0,
            thread: 0,
            turns: 0,
            held: self.held,
            kind: Kind::On,
            worker: 0,
            pc: 0,
            end: self.end,
        }
    }
}

/// Where a lock is, and who gets it next.
#[derive(Drop)]
pub struct Custody {
    pub place: LockPlace,
    /// The threads that entered, in order: the first has the lock or is about to get it.
    pub line: Line,
    /// Whether the last of the queue has left it.
    pub left: bool,
    /// The number of consecutive adopted sections.
    pub run: u32,
    pub last: Option<Release>,
}

impl Custody {
    /// A lock at the start.
    pub(crate) fn new(alloc: Global) -> Result<Custody, AllocError>
        ensures { IfOk result (λ x. x ≡ core.first_custody) }
    {
        Ok(Custody {
            place: LockPlace::Free,
            line: Line::new(alloc)?,
            left: false,
            run: 0,
            last: None,
        })
    }

    /// The lock after a block of the thread at the worker, which still holds it or released it like this.
    pub(crate) fn release(
        &mut self,
        worker: u32,
        thread: u32,
        held: bool,
        release: &Option<Release>,
    )
        ensures { self.new ≡ events.custody_past worker thread held release.now self.old }
    {
        if self.place.is_with(thread) && !held {
            self.place = LockPlace::Loose(worker);
            self.last = *release;
        }
    }
}
