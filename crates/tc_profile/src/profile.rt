//! The profile of a history: its numbers, block by block.

ghost use Rattle.std.specs.Prelude.{◌≡◌, ℕ, ◌<◌, ◌≤◌, ◌^◌, true, length, IfOk, slice_get, option_map, [], ◌∷◌, ◌++◌};
ghost use Rattle.tc_isa.specs.Sets.{has};
ghost use Rattle.tc_isa.specs.declared.limits.TheConstants.{MAX_TURNS};
ghost use Rattle.tc_profile.specs.Profile.{lock_profile, thread_profile};
ghost use Rattle.tc_profile.specs.Tally.{added};

use crate::tally::{LockProfile, LockTally, ThreadProfile, ThreadTally};
use std::alloc::{AllocError, Global};
use std::marker::Model;
use tc_elf::image::Image;
use tc_journal::block::Block;
use tc_noted::Noted;

/// The numbers of all threads and all locks of a guest, for the blocks that were added. They are
/// counted in 64 bits, which 2^32 blocks never overflow. Contracts see the history of these blocks;
/// the program keeps only the numbers.
#[derive(Drop)]
pub struct Profile {
    history: Noted<Block>,
    threads: Vec<ThreadTally>,
    locks: Vec<LockTally>,
}

impl Model for Profile {
    ghost use Rattle.std.specs.Prelude.{length};
    ghost use Rattle.tc_profile.specs.Stands.{ProfileView, StandFor};

    ghost Value = { ProfileView };

    ghost view = { λ p. record {
      history = p.history;
      threads = length p.threads.items;
      locks = length p.locks.items;
    } };

    ghost invariant = { λ p. StandFor p.threads.items p.locks.items p.history };
}

/// Adds a block, whose home worker is this, to the numbers of each of its locks.
fn add_to_locks(locks: &mut [LockTally], block: &Block, home: u32)
    requires { (k : ℕ) → has block.now.held k ≡ true → k < length locks.old }
    ensures { (k : ℕ) → slice_get locks.new k
        ≡ option_map (added k block.now home) (slice_get locks.old k) }
{
    prove!(block.held.bits() <= u32::MAX);
    for lock in 0..32 {
        if block.held.has(lock) {
            let place = lock as usize;
            locks[place] = locks[place].with_block(lock, block, home);
        }
    }
}

impl Profile {
    /// The profile of no blocks, with the threads and locks of an image.
    pub fn new(alloc: Global, image: &Image) -> Result<Profile, AllocError>
        ensures history { IfOk result (λ p. p.history ≡ []) }
        ensures threads { IfOk result (λ p. p.threads ≡ length image.now.entries) }
        ensures locks { IfOk result (λ p. p.locks ≡ length image.now.guards) }
    {
        Ok(Profile {
            history: Noted::nothing(),
            threads: vec![in alloc; ThreadTally::new(); image.threads() as usize]?,
            locks: vec![in alloc; LockTally::new(); image.guards() as usize]?,
        })
    }

    /// Appends a block to the history. It allocates nothing.
    pub fn add(&mut self, block: &Block)
        requires few { length self.old.history < 2 ^ 32 }
        requires thread { block.now.thread < self.old.threads }
        requires locks { (k : ℕ) → has block.now.held k ≡ true → k < self.old.locks }
        requires turns { block.now.turns ≤ MAX_TURNS }
        ensures history { self.new.history ≡ self.old.history ++ block.now ∷ [] }
        ensures threads { self.new.threads ≡ self.old.threads }
        ensures locks { self.new.locks ≡ self.old.locks }
    {
        let t = block.thread as usize;
        let thread = self.threads[t];
        let home = thread.home(block);
        add_to_locks(&mut self.locks, block, home);
        self.threads[t] = thread.with_block(block);
        self.history.note(block);
    }

    /// The numbers of the lock with this number, in the history.
    pub fn lock(&self, lock: u32) -> LockProfile
        requires { lock < self.now.locks }
        ensures { result ≡ lock_profile self.now.history lock }
    {
        self.locks[lock as usize].numbers
    }

    /// The numbers of the thread with this number, in the history.
    pub fn thread(&self, t: u32) -> ThreadProfile
        requires { t < self.now.threads }
        ensures { result ≡ thread_profile self.now.history t }
    {
        self.threads[t as usize].numbers
    }
}
