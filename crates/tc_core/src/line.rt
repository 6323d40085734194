//! The waiting queue (line) of a lock.

ghost use Rattle.std.specs.Prelude.{◌≡◌, ◌<◌, [], ◌∷◌, ◌++◌, length, IfOk};
ghost use Rattle.tc_elf.specs.declared.limits.TheConstants.{MAX_THREADS};
ghost use Rattle.tc_core.specs.Lines as line;

use std::alloc::{AllocError, Global};
use std::marker::Model;
use tc_elf::limits::MAX_THREADS;

/// The threads in the waiting queue of a lock, in order of entry. It has room for each thread once.
#[derive(Drop)]
pub struct Line {
    threads: Vec<u32>,
}

impl Model for Line {
    ghost use Rattle.std.specs.Prelude.{List, ℕ, ◌≤◌};
    ghost use Rattle.std.specs.Vec.{vec_capacity};
    ghost use Rattle.tc_elf.specs.declared.limits.TheConstants.{MAX_THREADS};

    ghost Value = { List ℕ };

    ghost view = { λ a. a.threads.items };

    ghost invariant = { λ a. MAX_THREADS ≤ vec_capacity a.threads };
}

impl Line {
    /// An empty queue.
    pub(crate) fn new(alloc: Global) -> Result<Line, AllocError>
        ensures { IfOk result (λ a. a ≡ []) }
    {
        Ok(Line {
            threads: Vec::with_capacity(alloc, MAX_THREADS as usize)?,
        })
    }

    /// Whether the thread is in it.
    pub(crate) fn has(&self, thread: u32) -> bool
        ensures { result ≡ line.is_in_line self.now thread }
    {
        self.threads.iter().any(|member| *member == thread)
    }

    /// Whether the thread is the first.
    pub(crate) fn is_first(&self, thread: u32) -> bool
        ensures { result ≡ line.is_first self.now thread }
    {
        match self.threads.as_slice() {
            [first, ..] => *first == thread,
            [] => false,
        }
    }

    /// Whether the thread is the second.
    pub(crate) fn is_second(&self, thread: u32) -> bool
        ensures { result ≡ line.is_second self.now thread }
    {
        match self.threads.as_slice() {
            [_, second, ..] => *second == thread,
            _ => false,
        }
    }

    /// Whether it has one member.
    pub(crate) fn is_single(&self) -> bool
        ensures { result ≡ line.is_single self.now }
    {
        self.threads.len() == 1
    }

    /// The thread enters it as the last.
    pub(crate) fn enter(&mut self, thread: u32)
        requires { length self.old < MAX_THREADS }
        ensures { self.new ≡ self.old ++ thread ∷ [] }
    {
        self.threads.push_reserved(thread);
    }

    /// The first leaves it.
    pub(crate) fn pass(&mut self)
        ensures { self.new ≡ line.rest_of self.old }
    {
        if !self.threads.is_empty() {
            self.threads.remove(0);
        }
    }

    /// All leave it.
    pub(crate) fn clear(&mut self)
        ensures { self.new ≡ [] }
    {
        self.threads.clear();
    }
}
