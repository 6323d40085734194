//! The two ends of one worker's deque: the owner's, and the one from which another worker steals.

ghost use Rattle.std.specs.Prelude.{◌≡◌, ◌<◌, ◌+◌, length, IfOk, MatchBool, MatchOption};
ghost use Rattle.crossbeam_deque.specs.Handles.{worker_view, worker_port, worker_index, SameWorker};
ghost use Rattle.tc_ready.specs.Rule.{fresh, opened};
ghost use Rattle.tc_ready.specs.EndView.{OwnView, IsNew, IsEndOf, Emptied, Gave, Popped, Stole};

use crossbeam_deque::protocol::{Outcome, Protocol, Split};
use crossbeam_deque::{Pass, Stealer, Worker};
use std::alloc::{AllocError, Global};
use std::collections::LinkedList;
use std::marker::{Brand, Model, PhantomData};

/// An offer of a thread, with its number among its worker's offers. A ghost type: no value of it
/// exists, since a deque stores the number of the thread alone.
#[derive(Clone, Copy)]
pub struct Offer {
    /// How many offers its worker made before it.
    pub serial: u64,
    /// The thread that is ready.
    pub thread: u32,
}

/// What contracts know of one deque. No value of this type exists.
pub struct Log {
    /// How many threads there are; 0 in a new deque that does not know it yet.
    pub threads: u32,
    /// The offers that it made.
    pub given: LinkedList<Offer>,
    /// The offers that it took.
    pub taken: LinkedList<Offer>,
    /// How many of its own offers it knows to be gone, by those that it took itself.
    pub gone: u64,
}

/// The invariant of a deque.
pub struct Ruled;

impl Protocol<u32, Log> for Ruled {
    ghost use Rattle.tc_ready.specs.Rule.{KeptDeque, fresh};

    ghost holds = { KeptDeque };

    ghost first = { fresh };

    ghost guest = { fresh };
}

/// The worker offers a thread.
struct Gives;

impl Outcome<u32, Log> for Gives {
    ghost use Rattle.tc_ready.specs.Rule.{given};

    ghost then = { given };
}

/// Another worker takes the first offer.
struct Takes;

impl Outcome<u32, Log> for Takes {
    ghost use Rattle.tc_ready.specs.Rule.{took};

    ghost then = { took };
}

/// The worker takes the first offer from its own deque, or finds none.
struct Pops;

impl Outcome<u32, Log> for Pops {
    ghost use Rattle.tc_ready.specs.Rule.{popped, found_empty};

    ghost then = { popped };

    ghost empty = { found_empty };
}

/// How many threads there are. Each call chooses it.
pub trait Counted {
    ghost use Rattle.std.specs.Prelude.{ℕ};

    ghost threads: { ℕ };
}

impl Counted for Brand {
    ghost threads = { 0 };
}

/// Tells a new deque how many threads there are.
struct Opens<J> {
    marker: PhantomData<J>,
}

impl<J: Counted> Split<Log> for Opens<J> {
    ghost use Rattle.tc_ready.specs.Rule.{opened};

    ghost left = { λ v. opened J.threads };

    ghost right = { λ v. opened J.threads };
}

/// Makes a handle for another worker.
struct Deals;

impl Split<Log> for Deals {
    ghost use Rattle.tc_ready.specs.Rule.{opened};

    ghost left = { λ v. v };

    ghost right = { λ v. opened v.threads };
}

type Owner = Worker<u32, Global, Log, Ruled>;

type Thief = Stealer<u32, Global, Log, Ruled>;

/// The end of the deque's owner, who alone offers.
#[derive(Drop)]
pub(crate) struct OwnEnd {
    worker: Owner,
    given: u64,
    // How many offers had been made when the deque was last found empty.
    cleared: u64,
    room: u64,
    threads: u32,
}

impl Model for OwnEnd {
    ghost use Rattle.std.specs.Prelude.{◌≡◌, ◌≤◌, ◌<◌, ◌^◌, length, max};
    ghost use Rattle.crossbeam_deque.specs.Handles.{worker_deque, worker_flavor, worker_port, worker_view, worker_capacity, worker_index};
    ghost use Rattle.tc_ready.specs.EndView.{OwnView};

    ghost Value = { OwnView };

    ghost view = { λ o. record { deque = (worker_deque o.worker).0; given = (worker_view o.worker).given; taken = (worker_view o.worker).taken; gone = max (worker_view o.worker).gone o.cleared; room = o.room; threads = o.threads } };

    ghost invariant = { λ o. (worker_flavor o.worker ≡ 0)
        × (worker_port o.worker ≡ 0)
        × (worker_index o.worker ≤ o.given)
        × (length (worker_view o.worker).given ≡ o.given)
        × (o.room ≤ worker_capacity o.worker)
        × (o.given ≤ o.room)
        × (o.room < 2 ^ 32)
        × (o.cleared ≤ o.given)
        × ((worker_view o.worker).gone ≤ o.given)
        × ((worker_view o.worker).threads ≡ o.threads)
        × (0 < o.threads) };
}

/// A new deque learns how many threads there are, which J chooses.
fn open_as<J: Counted>(mut worker: Owner, threads: u32) -> Owner
    requires picked { threads ≡ J.threads }
    requires fresh { (worker_view worker ≡ fresh) × (worker_port worker ≡ 0) × (0 < threads) }
    ensures same { SameWorker worker result × (worker_index result ≡ worker_index worker) }
    ensures opened { worker_view result ≡ opened threads }
{
    let _ = threads;
    let _ = worker.another::<Opens<J>>();
    worker
}

impl OwnEnd {
    /// A new deque with room for so many offers of threads below `threads`.
    pub(crate) fn new(alloc: Global, threads: u32, room: u32) -> Result<OwnEnd, AllocError>
        requires { 0 < threads }
        ensures { IfOk result (λ o. IsNew threads room o) }
    {
        let worker = Owner::fifo_as(alloc, room as usize)?;
        let worker = open_as::<Brand>(worker, threads);
        Ok(OwnEnd {
            worker,
            given: 0,
            cleared: 0,
            room: u64::from(room),
            threads,
        })
    }

    pub(crate) fn threads(&self) -> u32
        ensures { result ≡ self.now.threads }
    {
        self.threads
    }

    /// An end for another worker.
    pub(crate) fn other(&mut self) -> Result<OtherEnd, AllocError>
        ensures same { self.new ≡ self.old }
        ensures other { IfOk result (λ t. IsEndOf self.old t) }
    {
        let stealer = self.worker.stealer()?;
        let pass = self.worker.another::<Deals>();
        Ok(OtherEnd { stealer, pass })
    }

    /// Puts an offer behind the others. False if and only if there is no room.
    pub(crate) fn offer(&mut self, thread: u32) -> bool
        requires { thread < self.old.threads }
        ensures { MatchBool result
            ((length self.old.given < self.old.room) × Gave thread self.old self.new)
            ((length self.old.given ≡ self.old.room) × (self.new ≡ self.old)) }
    {
        if self.given >= self.room {
            return false;
        }
        match self.worker.push_as::<Gives>(thread) {
            Ok(()) => {
                self.given += 1;
                true
            }
            Err(_) => unreachable!(),
        }
    }

    /// The first offer that is left. If there is none, all own offers are gone.
    pub(crate) fn pop(&mut self) -> Option<u32>
        ensures { MatchOption result (Emptied self.old self.new)
            (λ t. Popped t self.old self.new) }
    {
        match self.worker.pop_as::<Pops>() {
            None => {
                self.cleared = self.given;
                None
            }
            Some(thread) => Some(thread),
        }
    }
}

/// The end of a deque from which another worker steals.
#[derive(Drop)]
pub(crate) struct OtherEnd {
    stealer: Thief,
    pass: Pass<u32, Log>,
}

impl Model for OtherEnd {
    ghost use Rattle.std.specs.Prelude.{◌≡◌};
    ghost use Rattle.crossbeam_deque.specs.Handles.{stealer_deque, stealer_flavor, IsPassOf};
    ghost use Rattle.tc_ready.specs.EndView.{OtherView};

    ghost Value = { OtherView };

    ghost view = { λ t. record { deque = (stealer_deque t.stealer).0; taken = t.pass.me.view.client.taken; threads = t.pass.me.view.client.threads } };

    ghost invariant = { λ t. IsPassOf (stealer_deque t.stealer) t.pass
        × (stealer_flavor t.stealer ≡ 0) };
}

impl OtherEnd {
    /// The first offer that is left. None if there was none, or if another worker was first.
    pub(crate) fn steal(&mut self) -> Option<u32>
        ensures { MatchOption result (self.new ≡ self.old) (λ t. Stole t self.old self.new) }
    {
        self.stealer.steal_as::<Takes>(&mut self.pass).success()
    }
}
