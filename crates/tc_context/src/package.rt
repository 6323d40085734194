//! Packages.

ghost use Rattle.std.specs.Prelude.{◌≡◌, ◌<◌, ◌≤◌, ◌+◌, min, true, false, is_some, length, vec_len, vec_capacity, Some, None, IfErr, IfOk, OnOk};
ghost use Rattle.std.specs.Arc.{arc_value};
ghost use Rattle.tc_isa.specs.Sets.{has};
ghost use Rattle.tc_isa.specs.declared.limits.TheConstants.{MAX_FUEL};
ghost use Rattle.tc_journal.specs.Batch.{is_section, last_of};
ghost use Rattle.tc_journal.specs.Handing.{was_cut};
ghost use Rattle.tc_journal.specs.declared.block.End.TheVariants.{Slept};
ghost use Rattle.tc_turn.specs.Memory.{own_of, own_at_start};
ghost use Rattle.tc_turn.specs.declared.status.Status.TheVariants.{Running};
ghost use Rattle.tc_segment.specs.View.{IsAtRest};
ghost use Rattle.tc_context.specs.Locks.{lock_in, IsPlaced};
ghost use Rattle.tc_context.specs.Ran.{DidRun};
ghost use Rattle.tc_context.specs.Kept.{DidSealLast, IsSameLog, guest_in};
ghost use Rattle.tc_context.specs.View.{granted_lock, is_pinned, want_of, kind_of, fits_of, number_in, with_grant, with_seal, with_turns, without_lock};
ghost use Rattle.tc_context.specs.View.{thread_number, regs_in, fuel_in, status_in, held_in, own_in, locks_in};
ghost use Rattle.tc_context.specs.View.{IsFresh, IsSoundPackage, WantIsLawful, IsReserved, IsRoomier, WantIsGranted, HasBlock, AllowsPending, IsWaiting, MayPassTo, IsNumber, IsNumbered, LastIsSealed};

use crate::context::{Context, Edge};
use crate::locks::LockSet;
use crate::room::Room;
use std::alloc::{AllocError, Global};
use std::marker::Model;
use std::snapshot::Snapshot;
use std::sync::Arc;
use tc_elf::image::Image;
use tc_exec::code::Code;
use tc_isa::held::Held;
use tc_isa::regs::Regs;
use tc_journal::block::{Block, End, Kind};
use tc_segment::packed::Packed;
use tc_segment::state::LockState;
use tc_turn::memory::Memory;
use tc_turn::status::Status;
use tc_turn::thread::GuestThread;

/// For how many blocks a log has room first, and by how many it grows at least. What is not written
/// yet takes no memory of the host, and a large log grows without a copy. A first growth that fills a
/// large page of the host takes fewer faults, and 2 MB for each thread, of which most is not used.
const FIRST_BLOCKS: usize = 1_024;

const MORE_BLOCKS: usize = 4_096;

/// The greatest number of a queue turn (ticket).
pub const MAX_NUMBER: u64 = 16_777_215;

/// A lock that was granted to a thread which has not taken it yet.
#[derive(Clone, Copy, Debug, PartialEq, Eq)]
pub struct Grant {
    /// The number of the lock.
    pub lock: u32,
    /// How it came: Taken, Adopted or Granted.
    pub kind: Kind,
}

/// What a package has, in one piece of memory.
#[derive(Drop)]
struct Contents {
    of: Snapshot<Image>,
    code: Arc<Code, Global>,
    // The memory with which all threads begin, until the thread has its own copy of it.
    first: Option<Arc<Memory, Global>>,
    context: Context,
    // The lock that the thread's next turn takes, and the locks that are in the package.
    next: Option<u32>,
    present: Held,
    granted: Option<Grant>,
    // Whether the last block of the log isn't sealed.
    pending: bool,
    log: Vec<Block>,
    // What the log and each lock have at least.
    room: Room,
    numbers: [u64; Held::PLACES as usize],
    turns: u64,
    slept: u32,
    edge: Edge,
}

/// The whole execution context of a thread.
#[derive(Drop)]
pub struct Package {
    contents: Box<Contents>,
}

impl Model for Package {
    ghost use Rattle.std.specs.Prelude.{◌+◌, ◌≤◌, vec_len, vec_capacity};
    ghost use Rattle.tc_context.specs.View.{PackageView};

    ghost Value = { PackageView };

    ghost use Rattle.tc_context.specs.Kept.{view_of, KeptPackage};

    ghost view = { λ a. view_of a.contents.value };

    ghost invariant = { λ a. KeptPackage a.contents.value };
}

impl Package {
    /// The invariant of each package, wherever it is. A lemma: the function has no effect.
    pub fn keeps(&self)
        ensures sound { IsSoundPackage self.now }
        ensures want { WantIsLawful self.now }
        ensures last { LastIsSealed self.now }
    {
        let _ = &self.contents.log;
    }

    /// The number of the thread.
    pub fn thread(&self) -> u32
        ensures { result ≡ thread_number self.now }
    {
        self.contents.context.thread
    }

    /// The registers.
    pub fn regs(&self) -> Regs
        ensures { result ≡ regs_in self.now }
    {
        *self.contents.context.guest.regs()
    }

    /// The fuel of the thread.
    pub fn fuel(&self) -> u32
        ensures { result ≡ fuel_in self.now }
    {
        self.contents.context.guest.fuel()
    }

    /// Whether and how the thread has ended.
    pub fn status(&self) -> Status
        ensures { result ≡ status_in self.now }
    {
        self.contents.context.guest.status()
    }

    /// The locks that the thread holds.
    pub fn held(&self) -> Held
        ensures { result ≡ held_in self.now }
    {
        self.contents.context.guest.held()
    }

    /// The blocks that the thread ran, in order. While the last one is pending, it has no stamp and
    /// no worker yet.
    pub fn log(&self) -> &[Block]
        ensures { result.now ≡ self.now.log }
    {
        &self.contents.log
    }

    /// The last block of the log: the pending one, if there is one.
    pub fn last(&self) -> Block
        requires { 0 < length self.now.log }
        ensures { last_of self.now.log ≡ Some result }
    {
        let log = &self.contents.log;
        log[log.len() - 1]
    }

    /// For how many blocks the thread sleeps: the x10 of the SLEEP with which its last block ended.
    pub fn slept(&self) -> u32
        requires { HasBlock (λ b. b.end ≡ Slept) (last_of self.now.log) }
        ensures { result ≡ self.now.slept }
    {
        self.contents.slept
    }

    /// Whether a block ran that is not sealed yet.
    pub fn pending(&self) -> bool
        ensures { result ≡ is_some self.now.pending }
    {
        self.contents.pending
    }

    /// The byte of the thread's own memory at an address; None if and only if the address is not in
    /// it.
    pub fn byte(&self, addr: u32) -> Option<u8>
        ensures { result ≡ own_in self.now addr }
    {
        match &self.contents.first {
            Some(first) => first.byte(addr),
            None => self.contents.context.guest.byte(addr),
        }
    }

    /// The lock that the thread's next step takes: Some if and only if the thread runs, has fuel
    /// and its next instruction is a LOCK that does not fault.
    pub fn want(&self, image: &Image) -> Option<u32>
        requires { self.now.image ≡ image.now }
        ensures { result ≡ want_of image.now self.now.context }
    {
        let _ = image;
        if self.contents.context.guest.status() != Status::Running {
            return None;
        }
        self.contents.next
    }

    /// The lock that was granted and that the thread has not taken yet.
    pub fn granted(&self) -> Option<u32>
        ensures { result ≡ granted_lock self.now.granted }
    {
        Some(self.contents.granted?.lock)
    }

    /// Whether the package can go on at its worker only: a lock was granted to it as Adopted, or
    /// its last block was cut.
    pub fn is_pinned(&self) -> bool
        ensures { result ≡ is_pinned self.now }
    {
        let adopted = match self.contents.granted {
            Some(grant) => matches!(grant.kind, Kind::Adopted),
            None => false,
        };
        adopted || self.was_cut()
    }

    /// Whether the last block of its log was cut, after the most steps that a block may have.
    pub fn was_cut(&self) -> bool
        ensures { result ≡ was_cut (last_of self.now.log) }
    {
        match self.contents.log.last() {
            Some(block) => matches!(block.end, End::Cut),
            None => false,
        }
    }

    /// The thread of this number at its start, with no lock. Its instructions are decoded one by
    /// one as they run.
    pub fn start(alloc: Global, image: &Image, t: u32, fuel: u32) -> Result<Package, AllocError>
        requires thread { t < length image.now.entries }
        requires fuel { (1 ≤ fuel) × (fuel ≤ MAX_FUEL) }
        ensures { IfOk result (IsFresh image.now t fuel) }
    {
        let code = Arc::new(alloc, Code::undecoded(alloc, image))?;
        let first = Arc::new(alloc, Memory::start(alloc, image)?)?;
        Package::start_with(alloc, image, &code, &first, t, fuel)
    }

    /// Like `start`, but with decoded code that it shares with others, and with initial memory that
    /// it shares until its first `reserve`, which makes a copy, or takes the memory itself if no other
    /// package shares it any more. So the worker that runs a thread makes the thread's memory.
    pub fn start_with(
        alloc: Global,
        image: &Image,
        code: &Arc<Code, Global>,
        first: &Arc<Memory, Global>,
        t: u32,
        fuel: u32,
    ) -> Result<Package, AllocError>
        requires code { arc_value code.now ≡ image.now }
        requires first { own_of (arc_value first.now) ≡ own_at_start image.now }
        requires thread { t < length image.now.entries }
        requires fuel { (1 ≤ fuel) × (fuel ≤ MAX_FUEL) }
        ensures { IfOk result (IsFresh image.now t fuel) }
    {
        prove!(image.guards() <= 32);
        let context = Context::start(alloc, image, t, fuel)?;
        let code = Arc::clone(code)?;
        let first = Arc::clone(first)?;
        let regs = Packed::of(context.guest.regs());
        let contents = Contents {
            of: Snapshot::of(image),
            code,
            first: Some(first),
            next: context.guest.next_lock(image),
            context,
            present: Held::none(),
            granted: None,
            pending: false,
            log: Vec::new(alloc),
            room: Room::none(),
            numbers: [0; Held::PLACES as usize],
            turns: 0,
            slept: 0,
            edge: Edge {
                regs,
                packed: false,
            },
        };
        Ok(Package {
            contents: Box::new(alloc, contents)?,
        })
    }

    /// Whether this worker may run the next block: nothing is granted, or the granted lock allows
    /// the kind of its grant with this worker.
    #[inline(always)]
    pub fn fits(&self, worker: u32) -> bool
        ensures { result ≡ fits_of self.now worker }
    {
        let contents = &*self.contents;
        let Some(grant) = contents.granted else {
            return true;
        };
        match contents.context.locks.find(grant.lock) {
            Some(state) => state.allows(grant.kind, worker),
            None => true,
        }
    }

    /// Makes room for a block in the log, and in each lock of the package for an entry and as many
    /// foreign words as a block has steps. It allocates for many blocks at once, so most calls find
    /// enough. The first call gives the thread its own copy of its initial memory. Nothing else
    /// changes; after a refusal only capacities have.
    // Inlined, since nearly every call is the comparison of two numbers.
    #[inline(always)]
    pub fn reserve(&mut self) -> Result<(), AllocError>
        ensures ok { OnOk result (IsReserved self.new) }
        ensures same { IsRoomier self.old self.new }
    {
        if self.contents.room.is_enough() {
            return Ok(());
        }
        self.reserve_more()
    }

    /// Few blocks pay for a call of it.
    #[cold]
    #[inline(never)]
    fn reserve_more(&mut self) -> Result<(), AllocError>
        ensures ok { OnOk result (IsReserved self.new) }
        ensures same { IsRoomier self.old self.new }
    {
        let contents = &mut *self.contents;
        contents.room = Room::none();
        make_room(
            &mut contents.log,
            &mut contents.first,
            &mut contents.context.guest,
        )?;
        let made = contents.context.locks.reserve(contents.present);
        contents.context.locks.bound();
        made?;
        let blocks = contents.log.capacity() - contents.log.len();
        contents.room = contents
            .context
            .locks
            .room(contents.present, Room::of(blocks));
        Ok(())
    }

    /// Runs one block of the thread, with the steps and the end that the rule of blocks says, and
    /// gives each lock of the block its entry. The block is pending afterwards. A lock that it
    /// released stays in the package until it is taken out.
    pub fn run_block(&mut self, image: &Image) -> End
        requires image { self.old.image ≡ image.now }
        requires pending { self.old.pending ≡ None }
        requires reserved { IsReserved self.old }
        requires running { status_in self.old ≡ Running }
        requires want { WantIsGranted image.now self.old }
        ensures ran { DidRun image.now self.old self.new }
        ensures end { HasBlock (λ b. b.end ≡ result) self.new.pending }
    {
        let kind = self.next_kind();
        let contents = &mut *self.contents;
        let ran = contents.context.run_block(
            image,
            &contents.code,
            kind,
            contents.next,
            &mut contents.edge,
        );
        contents.context.locks.bound();
        contents.log.push_reserved(Block {
            stamp: 0,
            thread: contents.context.thread,
            turns: ran.turns.count,
            held: ran.held,
            kind,
            worker: 0,
            pc: ran.pc,
            end: ran.turns.end,
        });
        contents.room = contents.room.behind(ran.turns.count);
        contents.granted = None;
        contents.pending = true;
        contents.slept = ran.turns.slept;
        contents.next = ran.turns.next;
        ran.turns.end
    }

    /// The kind of the next block.
    fn next_kind(&self) -> Kind
        ensures { result ≡ kind_of self.now.granted self.now.log }
    {
        match self.contents.granted {
            Some(grant) => grant.kind,
            None => {
                if self.contents.log.is_empty() {
                    Kind::Start
                } else {
                    Kind::On
                }
            }
        }
    }

    /// Gives the pending block its stamp and worker: in the log, and in the last entry of each lock
    /// of the block.
    pub fn seal(&mut self, stamp: u64, worker: u32)
        requires pending { is_some self.old.pending ≡ true }
        requires allows { AllowsPending self.old worker }
        ensures { self.new ≡ with_seal stamp worker self.old }
    {
        let contents = &mut *self.contents;
        let last = seal_last(&mut contents.log, stamp, worker);
        contents.edge.packed = contents.context.locks.seal(
            &contents.log[last],
            &mut contents.edge.regs,
            contents.context.guest.regs(),
        );
        contents.context.locks.bound();
        contents.pending = false;
    }

    /// Puts a lock into the package unchanged: the thread's next step takes it. `number` is that of
    /// the queue turn (ticket) with which the thread got it.
    pub fn grant(&mut self, lock: LockState, kind: Kind, number: u64)
        requires waiting { IsWaiting self.old lock.number }
        requires rest { IsAtRest self.old.image lock.number lock }
        requires kind { is_section kind ≡ true }
        requires passes { MayPassTo lock kind (thread_number self.old) }
        requires number { IsNumber number }
        ensures is { self.new ≡ with_grant lock kind number self.old }
        ensures locks { IsPlaced lock.number (Some lock) (locks_in self.old) (locks_in self.new) }
        ensures numbers { IsNumbered lock.number number self.old self.new }
    {
        let contents = &mut *self.contents;
        let granted = Grant {
            lock: lock.number(),
            kind,
        };
        contents.numbers[granted.lock as usize] = number;
        contents.room = contents.room.with(&lock);
        contents.context.locks.put_in(lock);
        contents.present = contents.present.plus(granted.lock);
        contents.granted = Some(granted);
    }

    /// Removes a lock that the last block released, unchanged.
    /// Nothing is granted meanwhile: so a granted lock, which the thread does not hold yet either, need not be
    /// told from a released one.
    pub fn take_out(&mut self, lock: u32) -> LockState
        requires pending { self.old.pending ≡ None }
        requires granted { self.old.granted ≡ None }
        requires released { has (held_in self.old) lock ≡ false }
        requires here { is_some (lock_in (locks_in self.old) lock) ≡ true }
        ensures lock { lock_in (locks_in self.old) lock ≡ Some result }
        ensures rest { IsAtRest self.old.image lock result }
        ensures is { self.new ≡ without_lock lock self.old }
        ensures locks { IsPlaced lock None (locks_in self.old) (locks_in self.new) }
    {
        let contents = &mut *self.contents;
        contents.present = contents.present.less(lock);
        match contents.context.locks.take_out(lock) {
            Some(state) => state,
            None => unreachable!(),
        }
    }

    /// The number of the next queue turn: 1, 2, 3 and so on. It never exceeds
    /// 16,777,215.
    pub fn next_number(&mut self) -> u64
        ensures is { result ≡ min (self.old.turns + 1) 16777215 }
        ensures number { IsNumber result }
        ensures rest { self.new ≡ with_turns result self.old }
    {
        let contents = &mut *self.contents;
        contents.turns = contents.turns.saturating_add(1).min(MAX_NUMBER);
        contents.turns
    }

    /// The number of the queue turn with which the thread got a lock.
    pub fn number_of(&self, lock: u32) -> u64
        requires { is_some (lock_in (locks_in self.now) lock) ≡ true }
        ensures is { result ≡ number_in self.now lock }
        ensures number { IsNumber result }
    {
        let contents = &*self.contents;
        contents.numbers[lock as usize]
    }
}

/// Gives the last block of a log its stamp and worker, and tells its place.
fn seal_last(log: &mut Vec<Block>, stamp: u64, worker: u32) -> usize
    requires { 0 < vec_len log.old }
    ensures { DidSealLast stamp worker log.old log.new result }
{
    let last = log.len() - 1;
    let block = &mut log[last];
    block.stamp = stamp;
    block.worker = worker;
    last
}

/// Makes room for one block in a log, whose thread has its own memory where there is room.
fn make_room(
    log: &mut Vec<Block>,
    first: &mut Option<Arc<Memory, Global>>,
    guest: &mut GuestThread,
) -> Result<(), AllocError>
    requires own { vec_len log.old < vec_capacity log.old → first.old ≡ None }
    ensures same { IsSameLog log.old log.new }
    ensures thread { guest_in first.new guest.new ≡ guest_in first.old guest.old }
    ensures room { OnOk result (vec_len log.new + 1 ≤ vec_capacity log.new) }
    ensures own { vec_len log.new < vec_capacity log.new → first.new ≡ None }
{
    if log.len() < log.capacity() {
        return Ok(());
    }
    grow(log, first, guest)
}

/// Gives a thread its own memory, where it has none, and makes room for many blocks in its log. Few
/// blocks pay for a call of it, and the others don't.
#[cold]
#[inline(never)]
fn grow(
    log: &mut Vec<Block>,
    first: &mut Option<Arc<Memory, Global>>,
    guest: &mut GuestThread,
) -> Result<(), AllocError>
    requires full { vec_capacity log.old ≤ vec_len log.old }
    ensures same { IsSameLog log.old log.new }
    ensures thread { guest_in first.new guest.new ≡ guest_in first.old guest.old }
    ensures room { OnOk result (vec_len log.new + 1 ≤ vec_capacity log.new) }
    ensures own { vec_len log.new < vec_capacity log.new → first.new ≡ None }
{
    own_memory(first, guest)?;
    let more = if log.is_empty() {
        FIRST_BLOCKS
    } else {
        MORE_BLOCKS
    };
    log.reserve(more)
}

/// Gives a thread its own memory, where it has none.
fn own_memory(
    first: &mut Option<Arc<Memory, Global>>,
    guest: &mut GuestThread,
) -> Result<(), AllocError>
    ensures thread { guest_in first.new guest.new ≡ guest_in first.old guest.old }
    ensures own { OnOk result (first.new ≡ None) }
{
    let Some(shared) = first.take() else {
        return Ok(());
    };
    match unshared(shared) {
        Ok(memory) => {
            guest.give(memory);
            Ok(())
        }
        Err(shared) => {
            *first = Some(shared);
            Err(AllocError)
        }
    }
}

/// A copy of the memory with which threads begin, or that memory itself for the last of them.
fn unshared(shared: Arc<Memory, Global>) -> Result<Memory, Arc<Memory, Global>>
    ensures ok { IfOk result (λ memory. memory ≡ arc_value shared) }
    ensures err { IfErr result (λ back. back ≡ shared) }
{
    let shared = match Arc::try_unwrap(shared) {
        Ok(memory) => return Ok(memory),
        Err(shared) => shared,
    };
    match shared.copy() {
        Ok(memory) => Ok(memory),
        Err(_) => Err(shared),
    }
}
