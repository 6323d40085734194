//! How the numbers of a profile are related to one another, and to the history.

ghost use Rattle.std.specs.Prelude.{◌≡◌, ℕ, ◌+◌, ◌<◌, ◌≤◌, List, All, length, sum_by};
ghost use Rattle.std.specs.List.{range_with_len};
ghost use Rattle.tc_journal.specs.Batch.{Obeys};
ghost use Rattle.tc_journal.specs.History.{of_lock};
ghost use Rattle.tc_journal.specs.declared.block.Block.{Block};
ghost use Rattle.tc_profile.specs.Profile.{lock_profile, thread_profile};

/// Relations that hold for each history, for locks whose blocks obey a batch limit, and for all
/// threads together. A lemma: the function has no effect when it is called.
pub fn profiling()
    // Each section is taken, adopted or granted.
    ensures kinds { (h : List Block) (lock : ℕ)
        → (lock_profile h lock).taken + (lock_profile h lock).adopted + (lock_profile h lock).granted
        ≡ (lock_profile h lock).sections }
    // There are no more consecutive adopted ones than the batch limit says.
    ensures longest { (h : List Block) (lock limit : ℕ) → Obeys lock limit (of_lock h lock)
        → (lock_profile h lock).longest ≤ limit }
    // An adopted section is no change of worker.
    ensures changes { (h : List Block) (lock limit : ℕ) → Obeys lock limit (of_lock h lock)
        → (lock_profile h lock).changes + (lock_profile h lock).adopted
        ≤ (lock_profile h lock).sections }
    // Each block is counted for exactly one thread.
    ensures blocks { (h : List Block) (threads : ℕ)
        → All (λ (b : Block). b.thread < threads) h
        → sum_by (λ t. (thread_profile h t).blocks) (range_with_len 0 threads) ≡ length h }
{}
