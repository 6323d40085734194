//! A thread with the locks that are in its package, and the blocks that it runs.

ghost use Rattle.std.specs.Prelude.{◌≡◌, ℕ, ◌+◌, ◌<◌, ◌==◌, true, false, length, Ok, Err, Some, None, IfOk, MatchResult, if◌then◌else◌};
ghost use Rattle.tc_isa.specs.Sets.{has};
ghost use Rattle.tc_isa.specs.declared.instr.Instr.TheVariants.{Ecall};
ghost use Rattle.tc_isa.specs.declared.limits.TheConstants.{MAX_TURNS};
ghost use Rattle.tc_exec.specs.declared.outcome.Call.TheVariants.{Lock};
ghost use Rattle.tc_exec.specs.declared.outcome.Done.TheVariants.{Called};
ghost use Rattle.tc_journal.specs.Rule.{end_rule};
ghost use Rattle.tc_journal.specs.declared.rule.Outcome.{Outcome};
ghost use Rattle.tc_exec.specs.Step as step;
ghost use Rattle.tc_turn.specs.InPlace.{faulted_if, outcome_done};
ghost use Rattle.tc_turn.specs.Turn.{lock_answer, next_lock};
ghost use Rattle.tc_context.specs.Ran.{slept_by as slept_of_turn};
ghost use Rattle.tc_context.specs.Run.{StopsAt};

use crate::locks::LockSet;
use std::alloc::{AllocError, Global};
use tc_elf::image::Image;
use tc_exec::code::Code;
use tc_exec::outcome::{Call, Done, Want};
use tc_exec::step::instruction_at;
use tc_isa::fault::Fault;
use tc_isa::held::Held;
use tc_isa::instr::Instr;
use tc_isa::limits::MAX_TURNS;
use tc_journal::block::{End, Kind};
use tc_journal::rule::{Outcome, end_of};
use tc_segment::packed::Packed;
use tc_turn::answer::{Surroundings, answer};
use tc_turn::outcome::outcome_by;
use tc_turn::thread::GuestThread;

/// What the turns of a block came to: how it ended, how many they are, the number of the SLEEP with
/// which the last one ended it, else 0, and the lock that the next turn takes.
#[derive(Clone, Copy)]
pub(crate) struct Turns {
    pub(crate) end: End,
    pub(crate) count: u32,
    pub(crate) slept: u32,
    pub(crate) next: Option<u32>,
}

/// What a turn that takes no lock came to for its block: how it ends it, where it does so whatever is
/// ahead, and the number of its SLEEP, else 0.
#[derive(Clone, Copy)]
struct Turned {
    end: Option<End>,
    slept: u32,
}

/// What a block came to: its turns, its locks and the place where it began.
#[derive(Clone, Copy)]
pub(crate) struct Ran {
    pub(crate) turns: Turns,
    pub(crate) held: Held,
    pub(crate) pc: u32,
}

/// Where registers are packed for the journals of a block's locks, and whether they are those of the
/// thread.
#[derive(Drop)]
pub(crate) struct Edge {
    pub(crate) regs: Packed,
    pub(crate) packed: bool,
}

/// A thread, its number, and the locks that are in its package: those that it holds, the granted
/// one and those that its last block released.
#[derive(Drop)]
pub struct Context {
    pub(crate) thread: u32,
    pub(crate) guest: GuestThread,
    pub(crate) locks: LockSet,
}

impl Context {
    ghost use Rattle.tc_context.specs.Whole.{thread_in, mutex_at};
    ghost use Rattle.tc_context.specs.Middle.{MayTurn, DidTurn};
    ghost use Rattle.tc_context.specs.Block.{IsAtStart, MayTurnBy, MayTurns, DidCome, DidTurns, MayRunBlock, DidRunBlock};

    /// The thread of this number at its start, but for its own memory, which has no byte yet, and
    /// with no lock.
    pub(crate) fn start(
        alloc: Global,
        image: &Image,
        t: u32,
        fuel: u32,
    ) -> Result<Context, AllocError>
        requires { t < length image.now.entries }
        ensures { IfOk result (IsAtStart image.now t fuel) }
    {
        Ok(Context {
            thread: t,
            guest: GuestThread::bare(alloc, image, fuel, t),
            locks: LockSet::new(alloc)?,
        })
    }

    /// Those of the block's locks that note the word of the next turn: none where the thread has
    /// no fuel.
    fn noting(&self, block: Held) -> Held
        ensures { (k : ℕ) → has result k ≡ (if self.now.guest.fuel == 0 then false else has block k) }
    {
        if self.guest.fuel() == 0 {
            return Held::none();
        }
        block
    }

    /// The answer to the LOCK of this lock.
    fn lock_answer(&self, lock: u32) -> u32
        ensures { result ≡ lock_answer (mutex_at self.now lock) }
    {
        u32::from(self.is_broken(lock))
    }

    /// The turn that takes this lock.
    fn lock_turn(&mut self, image: &Image, block: Held, lock: u32)
        requires may { MayTurn image.now (has block) 1 self.old }
        requires next { next_lock image.now (thread_in self.old) ≡ Some lock }
        ensures did { DidTurn image.now (has block) self.old self.new (Some (Called (Lock lock))) }
    {
        let answer = self.lock_answer(lock);
        self.locks
            .note_each(block, Want::Nothing, Some(lock), answer);
        self.guest.take_lock(lock, answer);
        self.locks.begin(lock);
    }

    /// A turn that takes no lock. `calls` says whether it is known to be a guest call: nearly each one is,
    /// so that stands in the caller.
    #[inline(always)]
    fn other_turn(&mut self, image: &Image, code: &Code, block: Held, calls: bool) -> Turned
        requires may { MayTurns image.now code.now (has block) 1 None self.old }
        requires calls { StopsAt image.now self.old.guest.regs.pc calls }
        ensures { DidCome image.now (has block) self.old self.new result }
    {
        if calls {
            return came_to(&self.call_turn(image, block));
        }
        self.any_turn(image, code, block)
    }

    /// A guest call that takes no lock. It needs no load and no answer, and no lock notes a word of it.
    #[inline(always)]
    fn call_turn(&mut self, image: &Image, block: Held) -> Option<Done>
        requires { MayTurnBy image.now (has block) (Ok Ecall) self.old }
        ensures did { DidTurn image.now (has block) self.old self.new result }
    {
        let held = self.guest.held();
        let done = self.guest.turn(image, &Instr::Ecall, Want::Nothing, 0);
        self.locks.take_turn(held, &done);
        done
    }

    /// As `other_turn`, of any instruction.
    #[inline(never)]
    fn any_turn(&mut self, image: &Image, code: &Code, block: Held) -> Turned
        requires { MayTurns image.now code.now (has block) 1 None self.old }
        ensures { DidCome image.now (has block) self.old self.new result }
    {
        came_to(&self.found_turn(image, code, block))
    }

    /// The turn of the instruction that is found at its place, or is decoded.
    fn found_turn(&mut self, image: &Image, code: &Code, block: Held) -> Option<Done>
        requires { MayTurns image.now code.now (has block) 1 None self.old }
        ensures did { DidTurn image.now (has block) self.old self.new result }
    {
        let pc = self.guest.regs().pc();
        let mut decoded = Instr::Ecall;
        let instr = match code.find(pc) {
            Some(instr) => instr,
            None => match decode(image, pc, &mut decoded) {
                Ok(()) => &decoded,
                Err(fault) => {
                    let fueled = self.fault_turn(image, block, fault);
                    return faulted(fueled, fault);
                }
            },
        };
        self.instr_turn(image, block, instr)
    }

    /// A turn that takes no lock, whose instruction is this.
    #[inline(always)]
    fn instr_turn(&mut self, image: &Image, block: Held, instr: &Instr) -> Option<Done>
        requires { MayTurnBy image.now (has block) (Ok instr.now) self.old }
        ensures did { DidTurn image.now (has block) self.old self.new result }
    {
        let want = self.guest.load_wanted(image, instr);
        let answer = answer(self, image, want, None);
        let noting = self.noting(block);
        self.locks.note(noting, want, None, answer);
        let held = self.guest.held();
        let done = self.guest.turn(image, instr, want, answer);
        self.locks.take_turn(held, &done);
        done
    }

    /// A turn at a place where there is no instruction. Whether there was fuel for it: what it did
    /// follows from that, and a number of one bit comes back in a register of the host.
    #[cold]
    #[inline(never)]
    fn fault_turn(&mut self, image: &Image, block: Held, fault: Fault) -> bool
        requires { MayTurnBy image.now (has block) (Err fault) self.old }
        ensures did { DidTurn image.now (has block) self.old self.new (faulted_if result fault) }
    {
        let held = self.guest.held();
        let fueled = self.guest.fault(image, fault);
        self.locks.take_turn(held, &faulted(fueled, fault));
        fueled
    }

    /// The lock that the next turn takes behind so many turns of a block. `calls` says whether that turn is
    /// known to be a guest call. It is no LOCK before the first one.
    #[inline(always)]
    fn lock_ahead(&self, image: &Image, code: &Code, count: u32, calls: bool) -> Option<u32>
        requires code { code.now ≡ image.now }
        requires calls { StopsAt image.now self.now.guest.regs.pc calls }
        requires first { count ≡ 0 → next_lock image.now (thread_in self.now) ≡ None }
        ensures { result ≡ next_lock image.now (thread_in self.now) }
    {
        if count == 0 {
            return None;
        }
        let call = Instr::Ecall;
        let known = calls.then_some(&call);
        self.guest.ahead(image, code, known).lock
    }

    /// Runs the turns of one block with these locks, whose entries are open. `takes` is the lock
    /// that the first turn takes: no other turn takes one, since a block ends before it.
    fn turns(&mut self, image: &Image, code: &Code, block: Held, takes: Option<u32>) -> Turns
        requires { MayTurns image.now code.now (has block) MAX_TURNS takes self.old }
        ensures did { DidTurns image.now (has block) self.old self.new result }
    {
        let mut count = 0;
        if let Some(lock) = takes {
            self.lock_turn(image, block, lock);
            count = 1;
        }
        'block: loop {
            // What is ahead is asked once, where the run stops: no turn of it is a guest call.
            let run = self.run(image, code, block, MAX_TURNS - count);
            count += run.count;
            let lock = self.lock_ahead(image, code, count, run.calls);
            if let Some(end) = end_of(Outcome::Went, count, lock) {
                return ended(end, count, 0, lock);
            }
            let turned = self.other_turn(image, code, block, run.calls);
            count += 1;
            let next = self.guest.ahead(image, code, None).lock;
            if let Some(end) = end_behind(turned.end, count, next) {
                return ended(end, count, turned.slept, next);
            }
        }
    }

    /// Runs one block of this kind, whose entry is open in the journal of each of its locks afterwards.
    /// `takes` is the lock that its first turn takes. The block has no stamp and no worker yet.
    pub(crate) fn run_block(
        &mut self,
        image: &Image,
        code: &Code,
        kind: Kind,
        takes: Option<u32>,
        edge: &mut Edge,
    ) -> Ran
        requires may { MayRunBlock image.now code.now kind takes self.old }
        requires packed { edge.old.packed ≡ true → edge.old.regs ≡ self.old.guest.regs }
        ensures did { DidRunBlock image.now kind self.old self.new result }
        ensures packed { edge.new.packed ≡ false }
    {
        let on = self.guest.held();
        let thread = self.thread;
        prove!(thread <= u32::MAX);
        let fuel = self.guest.fuel();
        let start = self.guest.regs();
        let held = self
            .locks
            .open_entries(on, takes, &mut edge.regs, edge.packed, start, fuel);
        prove!(held.bits() <= u32::MAX);
        edge.packed = false;
        let pc = self.guest.regs().pc();
        let turns = self.turns(image, code, held, takes);
        Ran { turns, held, pc }
    }
}

impl Surroundings for Context {
    ghost use Rattle.tc_context.specs.Whole.{thread_in, mutex_at};

    ghost thread = { thread_in };

    ghost locks = { mutex_at };

    fn own_number(&self, addr: u32, width: u32) -> u32 {
        self.guest.number(addr, width)
    }

    fn guard(&self, lock: u32) -> &[u8] {
        match self.locks.find(lock) {
            Some(state) => state.bytes(),
            None => &[],
        }
    }

    fn is_broken(&self, lock: u32) -> bool {
        match self.locks.find(lock) {
            Some(state) => state.broken(),
            None => false,
        }
    }
}

/// What a turn did at a place where there is no instruction, for this reason.
fn faulted(fueled: bool, fault: Fault) -> Option<Done>
    ensures { result ≡ faulted_if fueled fault }
{
    if fueled {
        Some(Done::Faulted(fault))
    } else {
        None
    }
}

/// Decodes the instruction at a place. It is never inlined, so that no turn of decoded code makes
/// room for what it gives.
#[cold]
#[inline(never)]
fn decode(image: &Image, pc: u32, decoded: &mut Instr) -> Result<(), Fault>
    ensures { MatchResult result (λ done. step.instruction_at image.now pc ≡ Ok decoded.new)
        (λ fault. step.instruction_at image.now pc ≡ Err fault) }
{
    *decoded = instruction_at(image, pc)?;
    Ok(())
}

/// What a turn that did this came to for its block. Each caller has it for itself, since some know what
/// was done.
#[inline(always)]
fn came_to(done: &Option<Done>) -> Turned
    ensures { result ≡ record { end = end_rule (outcome_done done.now) 0 None; slept = slept_of_turn done.now } }
{
    Turned {
        end: end_of(outcome_by(done), 0, None),
        slept: slept_by(done),
    }
}

/// How a block of so many turns ends behind a turn that ends it so, whatever is ahead, or else went, where
/// the next turn takes this lock.
fn end_behind(own: Option<End>, count: u32, next: Option<u32>) -> Option<End>
    ensures { (o : Outcome) → own ≡ end_rule o 0 None → result ≡ end_rule o count next }
{
    match own {
        Some(end) => Some(end),
        None => end_of(Outcome::Went, count, next),
    }
}

/// What the turns of a block came to, which ended so.
fn ended(end: End, count: u32, slept: u32, next: Option<u32>) -> Turns
    ensures { result ≡ record { end = end; count = count; slept = slept; next = next } }
{
    Turns {
        end,
        count,
        slept,
        next,
    }
}

/// The number of a SLEEP, 0 of any other turn.
fn slept_by(done: &Option<Done>) -> u32
    ensures { result ≡ slept_of_turn done.now }
{
    match done {
        Some(Done::Called(Call::Sleep(blocks))) => *blocks,
        _ => 0,
    }
}
