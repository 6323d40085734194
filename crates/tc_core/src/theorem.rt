//! What every list of enabled events refines.

ghost use Rattle.std.specs.Prelude.{ℕ};
ghost use Rattle.tc_core.specs.Lines.{IsFrontOf};
ghost use Rattle.tc_core.specs.Stories.{Story, last_core, locks_of, enters_of, grants_of, KeepsBatch};
ghost use Rattle.tc_core.specs.Theorem.{IsErased, IsGathered, IsTracked};

/// Whatever the workers do, as long as each event is enabled, the guest runs as under ordinary
/// mutexes. This holds for every image, fuel, number of workers and batch limit.
pub fn theorem()
    // Refinement, step by step: erase workers and delegation, and a run of mutexes remains.
    ensures turns { (s : Story) → IsErased s }
    // The same state, with the steps gathered into blocks in the order of the commits.
    ensures blocks { (s : Story) → IsGathered s }
    // FIFO: each entry into a queue is at most one LOCK, in the order of entry.
    ensures order { (s : Story) (lock : ℕ) → IsFrontOf (locks_of lock s) (enters_of lock s.events) }
    // No more consecutive adopted sections than the batch limit.
    ensures batch { (s : Story) (lock : ℕ) → KeepsBatch lock s.limits.batch s.events }
    // Each entry is granted the lock at most once, in the order of entry.
    ensures grants { (s : Story) (lock : ℕ) → IsFrontOf (grants_of lock s.events)
        (enters_of lock s.events) }
    // The held set that the batch rule reads is the set of locks with the thread, and what it holds.
    ensures held { (s : Story) → IsTracked (last_core s) }
{}
