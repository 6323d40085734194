//! The table that the workers share, and the ghost state of a pass.
//!
//! Slot t is for the package of thread t, and slot threads + i for the state of lock i. One word is
//! the clock, one the stop flag, and each slot has a word: that of thread t says where the thread
//! is, that of lock i whether the lock is out. Each slot has a pair of cache lines of its own,
//! since processors fetch lines in pairs. Each of these words has two pairs, since processors also
//! prefetch the next pair when words are used in a row. So workers that use different words or
//! slots don't share cache lines (no false sharing). The words in between are 0, and no step is on
//! them.
//!
//! A hall with lines has two places more for each lock, behind the slots' words: at the start of
//! the first the tail of the lock's line, and in the second the links of all threads.

ghost use Rattle.std.specs.Prelude.{◌≡◌, None, Some};
ghost use Rattle.tc_hall.specs.Places.{slot_word};

use crate::place::Place;
use atomic_table::{Seat, Table, TableRule};
use crossbeam_utils::CachePadded;
use std::alloc::Global;
use std::collections::LinkedList;
use std::marker::Model;
use std::snapshot::Snapshot;
use tc_context::package::Package;
use tc_elf::image::Image;
use tc_journal::block::{Block, Kind};
use tc_queue::QueueCall;
use tc_segment::state::LockState;

/// The number of 8-byte words in two pairs of cache lines of 64 bytes.
pub const LINE: usize = 32;

/// The word of the clock.
pub const CLOCK: usize = 0;

/// The word of the stop flag.
pub const STOP: usize = LINE;

/// The word of a slot. That of the slot after the last is the number of words.
pub(crate) fn word_of(slot: u32) -> usize
    ensures { result ≡ slot_word slot }
{
    LINE * (slot as usize + 2)
}

/// The parameters of a hall.
#[derive(Drop)]
pub struct HallTerms {
    /// The guest that it runs.
    pub image: Snapshot<Image>,
    /// The fuel of each thread at its start.
    pub fuel: u32,
    /// The number of workers, and so of passes.
    pub workers: u32,
    /// The batch limit.
    pub limit: u32,
    /// Whether the words of the locks' lines are in its table.
    pub lined: bool,
}

/// What a slot is for.
#[derive(Drop)]
pub enum Cargo {
    /// The package of a thread.
    Package(Package),
    /// The state of a lock.
    Lock(LockState),
}

/// A lock that was granted in a package that is put. A ghost type: no value of it exists.
#[derive(Clone, Copy)]
pub struct Given {
    /// The number of the lock.
    pub lock: u32,
    /// How it came.
    pub kind: Kind,
    /// The number of the queue turn with which it came.
    pub number: u64,
}

/// A call that a pass made. A ghost type: no value of it exists.
pub enum PassCall {
    /// The thread, its place, the numbers of the locks in its package, what was granted, and how
    /// many queue turns the package has taken.
    Put(u32, Place, LinkedList<u32>, Option<Given>, u64),
    /// The thread; the place that it was claimed from; for each lock the number of the queue turn
    /// with which it came, if it is in its package; what was granted; how many queue turns the
    /// package has taken; and how the lock for which it waited is passed on to it, if the pass has
    /// that lock.
    Claim(u32, Place, LinkedList<Option<u64>>, Option<Given>, u64, Option<Kind>),
    /// The lock.
    Take(u32),
    /// The lock.
    Free(u32),
    /// The thread and the word that was read.
    Look(u32, u64),
    /// The stop flag was set.
    Stop,
    /// The word that was read.
    Stopped(u64),
    /// A call on the line of this lock, with its answer.
    Line(u32, QueueCall),
    /// The thread, and its block, which was sealed.
    Commit(u32, Block),
}

/// A word that had another value than the step expected.
#[derive(Clone, Copy)]
pub struct Miss {
    /// The number of the word in the table.
    pub word: u64,
    /// What it was.
    pub found: u64,
}

/// What contracts know of a pass. No value of this type exists.
pub struct Knows {
    /// The image that the hall runs.
    pub image: Image,
    /// The number of its worker.
    pub worker: u32,
    /// Whether it is the pass that makes the others.
    pub maker: bool,
    /// How many others it has made.
    pub made: u32,
    /// Whether the pass was joined into another.
    pub spent: bool,
    /// The workers of the passes that were joined into this one.
    pub joined: LinkedList<u32>,
    /// For each thread its package without its locks, as of its last commit, if the pass has it
    /// out.
    pub packages: LinkedList<Option<Package>>,
    /// For each thread whether its package was pinned to one worker when the pass last took it: a
    /// lock was granted to it as Adopted, or its last block was cut.
    pub pinned: LinkedList<bool>,
    /// For each lock its state, as of its last commit, if the pass has it out.
    pub locks: LinkedList<Option<LockState>>,
    /// The slot that the pass holds, inside a call.
    pub open_slot: Option<u32>,
    /// The blocks that it sealed and those of the passes that were joined into it.
    pub sealed: LinkedList<Block>,
    /// What it claimed, took, sealed, put, freed, looked at and stopped, and its calls on lines, in
    /// one order, and then the same of each pass that was joined. So are the three lists below.
    pub calls: LinkedList<PassCall>,
    /// The compare-and-swaps that failed.
    pub missed: LinkedList<Miss>,
    /// The packages that it took out of their slots, as they lay there.
    pub claimed: LinkedList<Package>,
    /// The lock states that it took out of their slots, as they lay there.
    pub taken: LinkedList<LockState>,
}

/// A slot of the table: a package or a lock state, or nothing while it is out.
#[derive(Drop)]
pub struct Slot {
    cargo: CachePadded<Option<Cargo>>,
}

impl Model for Slot {
    ghost use Rattle.std.specs.Prelude.{Option};
    ghost use Rattle.tc_hall.specs.declared.board.Cargo.{Cargo};
    ghost use Rattle.crossbeam_utils.specs.Padded.{padded_value};

    ghost Value = { Option Cargo };

    ghost view = { λ s. padded_value s.cargo };
}

impl Slot {
    /// A slot that holds this.
    pub(crate) fn of(cargo: Cargo) -> Slot
        ensures { result ≡ Some cargo }
    {
        Slot {
            cargo: CachePadded::new(Some(cargo)),
        }
    }

    /// What it holds.
    pub(crate) fn into_cargo(self) -> Option<Cargo>
        ensures { result ≡ self }
    {
        let Slot { cargo } = self;
        cargo.into_inner()
    }

    /// Takes out what it holds.
    pub(crate) fn take(&mut self) -> Option<Cargo>
        ensures found { result ≡ self.old }
        ensures left { self.new ≡ None }
    {
        self.cargo.take()
    }

    /// Puts this into it, and answers what it held.
    pub(crate) fn replace(&mut self, cargo: Cargo) -> Option<Cargo>
        ensures found { result ≡ self.old }
        ensures left { self.new ≡ Some cargo }
    {
        self.cargo.replace(cargo)
    }
}

/// The invariant of the table.
pub struct Ruled;

impl TableRule<Slot, Knows, HallTerms> for Ruled {
    ghost use Rattle.tc_hall.specs.Rule.{starting};
    ghost use Rattle.tc_hall.specs.Order.{IsOrdered};

    ghost holds = { IsOrdered };

    ghost first = { starting };
}

/// The type of a hall's table.
pub type HallTable = Table<Slot, Knows, HallTerms, Ruled, Global>;

/// The table's handle of a pass.
pub type Sitting = Seat<Slot, Knows>;
