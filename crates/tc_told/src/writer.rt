//! What events write, in executable form.

ghost use Rattle.std.specs.Prelude.{◌≡◌, ℕ, ◌<◌, IfOk, IfSome, OnErr, length};
ghost use Rattle.std.specs.Vec.{vec_len, vec_capacity};
ghost use Rattle.tc_journal.specs.declared.block.Kind.TheVariants as kind;
ghost use Rattle.tc_core.specs.View.{core_of, limits_of, IsCoreOf, MayBegin};
ghost use Rattle.tc_told.specs.Written.{first_written, said_by, with_said, block_by, with_block};
ghost use Rattle.tc_told.specs.View.{beginning_at, written_of, IsWriterOf, DidWrite};

use std::alloc::{AllocError, Global};
use std::marker::Model;
use tc_core::event::Event;
use tc_core::machine::Core;
use tc_elf::image::Image;
use tc_journal::block::{Block, Kind};

/// What is known of a thread's next block before its first step.
#[derive(Clone, Copy, Debug, PartialEq, Eq)]
pub struct Beginning {
    /// How it begins, as far as the events have determined it.
    pub kind: Kind,
    /// The address of its first instruction.
    pub pc: u32,
}

/// The abstract machine, and the history that its events have written. Contracts see both as
/// `written_of` shows them.
#[derive(Drop)]
pub struct Writer {
    core: Core,
    next: Vec<Beginning>,
    history: Vec<Block>,
}

impl Model for Writer {
    ghost use Rattle.tc_told.specs.View.{WriterView};

    ghost Value = { WriterView };

    ghost view = { λ w. record { core = w.core; next = w.next.items; history = w.history.items } };
}

impl Writer {
    /// The machine at the start, and an empty history.
    pub fn new(
        alloc: Global,
        image: &Image,
        fuel: u32,
        workers: u32,
        limit: u32,
    ) -> Result<Writer, AllocError>
        requires { MayBegin fuel workers limit }
        ensures written { IfOk result (λ w. written_of w ≡ first_written image.now fuel) }
        ensures limits { IfOk result (λ w. limits_of w.core
            ≡ record { workers = workers; batch = limit }) }
        ensures suits { IfOk result (IsWriterOf image.now) }
    {
        let core = Core::new(alloc, image, fuel, workers, limit)?;
        let next = first_beginnings(alloc, image, &core)?;
        Ok(Writer {
            core,
            next,
            history: Vec::new(alloc),
        })
    }

    /// One event: true if it is enabled; then it has its effect, and a Commit writes its block.
    /// Otherwise, or if memory for a block runs out, nothing changes.
    pub fn step(&mut self, image: &Image, event: Event) -> Result<bool, AllocError>
        requires { IsWriterOf image.now self.old }
        ensures wrote { IfOk result (λ enabled. DidWrite image.now self.old event enabled self.new) }
        ensures refused { OnErr result (self.new ≡ self.old) }
        ensures suits { IsWriterOf image.now self.new }
    {
        self.history.reserve(1)?;
        let block = self.block_by(event);
        let said = self.said_by(image, event);
        let enabled = self.core.step(image, event);
        if enabled {
            note(&mut self.next, said);
            append(&mut self.history, block);
        }
        Ok(enabled)
    }

    /// The blocks that were written, in order.
    pub fn history(&self) -> &[Block]
        ensures { result.now ≡ self.now.history }
    {
        self.history.as_slice()
    }

    /// How the thread's next block begins. A number without a thread has what every thread has at first.
    fn beginning(&self, thread: u32) -> Beginning
        ensures { result ≡ beginning_at self.now.next thread }
    {
        match self.next.get(thread as usize) {
            Some(beginning) => *beginning,
            None => Beginning {
                kind: Kind::Start,
                pc: 0,
            },
        }
    }

    /// The thread's next block begins with a lock that was given so.
    fn with_kind(&self, thread: u32, kind: Kind) -> Option<(u32, Beginning)>
        ensures { result ≡ Some (thread, record (beginning_at self.now.next thread) { kind = kind }) }
    {
        let Beginning { kind: _, pc } = self.beginning(thread);
        Some((thread, Beginning { kind, pc }))
    }

    /// What the event determines of a thread's next block.
    fn said_by(&self, image: &Image, event: Event) -> Option<(u32, Beginning)>
        requires { IsWriterOf image.now self.now }
        ensures { result ≡ said_by (written_of self.now) event }
    {
        match event {
            Event::Take { thread, .. } => self.with_kind(thread, Kind::Taken),
            Event::Adopt { thread, .. } => self.with_kind(thread, Kind::Adopted),
            Event::Grant { thread, .. } => self.with_kind(thread, Kind::Granted),
            Event::Commit { thread, .. } => {
                let kind = Kind::On;
                let pc = self.core.pc(image, thread);
                Some((thread, Beginning { kind, pc }))
            }
            _ => None,
        }
    }

    /// The block that the event writes.
    fn block_by(&self, event: Event) -> Option<Block>
        ensures { result ≡ block_by (written_of self.now) event }
    {
        let Event::Commit { worker, thread } = event else {
            return None;
        };
        let stamp = self.history.len() as u64;
        let course = self.core.course(thread);
        let beginning = self.beginning(thread);
        course.ended.map(|end| Block {
            stamp,
            thread,
            turns: course.turns,
            held: course.held,
            kind: beginning.kind,
            worker,
            pc: beginning.pc,
            end,
        })
    }
}

/// How each thread's first block begins.
fn first_beginnings(alloc: Global, image: &Image, core: &Core) -> Result<Vec<Beginning>, AllocError>
    requires { IsCoreOf image.now core.now }
    ensures each { IfOk result (λ next. (t : ℕ) → beginning_at next.items t
        ≡ record { kind = kind.Start; pc = ((core_of core.now).machine.threads t).regs.pc }) }
    ensures long { IfOk result (λ next. length next.items ≡ length image.now.entries) }
{
    let mut next = Vec::new(alloc);
    for thread in 0..image.threads() {
        let kind = Kind::Start;
        let pc = core.pc(image, thread);
        next.push(Beginning { kind, pc })?;
    }
    Ok(next)
}

/// Stores what was determined of a thread's next block.
fn note(next: &mut [Beginning], said: Option<(u32, Beginning)>)
    requires { IfSome said (λ s. s.0 < length next.old) }
    ensures each { (t : ℕ) → beginning_at next.new t ≡ with_said (beginning_at next.old) said t }
    ensures long { length next.new ≡ length next.old }
{
    if let Some((thread, beginning)) = said {
        next[thread as usize] = beginning;
    }
}

/// Writes a block, or none.
fn append(history: &mut Vec<Block>, block: Option<Block>)
    requires { vec_len history.old < vec_capacity history.old }
    ensures { history.new.items ≡ with_block history.old.items block }
{
    if let Some(block) = block {
        history.push_reserved(block);
    }
}
