//! The lemmas of the mutex machine.

ghost use Rattle.std.specs.Prelude.{◌≡◌, ℕ, ◌≤◌, ◌++◌, [], ◌∷◌, Bool, true, List, Option, Some, None, IfSome, length, option_and_then};
ghost use Rattle.tc_elf.specs.Shown.{Shown};
ghost use Rattle.tc_elf.specs.declared.limits.TheConstants.{MAX_GUARDS};
ghost use Rattle.tc_journal.specs.declared.block.Block.{Block};
ghost use Rattle.tc_journal.specs.declared.block.End.{End};
ghost use Rattle.tc_turn.specs.Turn.{Thread, next_lock};
ghost use Rattle.tc_turn.specs.Reads.{Covers};
ghost use Rattle.tc_mutex_spec.specs.Machine.{State, can_turn, after, turns, run_from, run, start, spread, IsHeldByOwner};
ghost use Rattle.tc_mutex_spec.specs.Locality.{Agree, Apart};
ghost use Rattle.tc_mutex_spec.specs.Blocks.{locks_of_block, Runs, Stands, Tells, owner_by};
ghost use Rattle.tc_mutex_spec.specs.Entries.{entry_of, HasJournal};
ghost use Rattle.tc_mutex_spec.specs.Progress.{Run, most_turns, CanRunOn, CompleteHistory};
ghost use Rattle.tc_journal.specs.Batch.{ends_section, last_of};
ghost use Rattle.tc_journal.specs.History.{of_lock, schedule};

/// Locality: a step reads and changes only its thread and the locks that the thread holds before it
/// or takes in it, which a set covers.
pub fn locality()
    // The locks that the thread holds, with the one that its step takes, are such a set.
    ensures covered { (image : Shown) (d : Thread)
        → Covers image (locks_of_block d.held (next_lock image d)) d }
    // Nothing else changes.
    ensures apart { (image : Shown) (m : State) (t : ℕ) (set : ℕ → Bool)
        → Covers image set (m.threads t) → Apart t set m (after image m t) }
    // Nothing else matters: if these are equal, the step is defined in both and does the same.
    ensures defined { (image : Shown) (m n : State) (t : ℕ) (set : ℕ → Bool)
        → Covers image set (m.threads t) → Agree t set m n
        → can_turn image m t ≡ can_turn image n t }
    ensures agree { (image : Shown) (m n : State) (t : ℕ) (set : ℕ → Bool)
        → Covers image set (m.threads t) → Agree t set m n
        → Agree t set (after image m t) (after image n t) }
{}

/// A run is a fold of steps; a longer run continues where the run of its prefix ends.
pub fn folds()
    ensures joined { (image : Shown) (m : State) (a b : List ℕ)
        → turns image m (a ++ b) ≡ option_and_then (λ n. turns image n b) (turns image m a) }
    ensures flat { (image : Shown) (m : State) (pairs : List (ℕ × ℕ))
        → run_from image m pairs ≡ turns image m (spread pairs) }
    ensures more { (image : Shown) (m : State) (a b : List (ℕ × ℕ))
        → run_from image m (a ++ b)
        ≡ option_and_then (λ n. run_from image n b) (run_from image m a) }
{}

/// A block is the same if its thread and its locks are the same, and it changes nothing else.
pub fn blocks()
    ensures same { (image : Shown) (m n last : State) (t turns : ℕ) (end : End) (set : ℕ → Bool)
        → Runs image m t turns end last → Covers image set (m.threads t) → Agree t set m n
        → (other : State) × (Runs image n t turns end other)
        × (Agree t set last other) × (Apart t set n other) }
    ensures apart { (image : Shown) (m last : State) (t turns : ℕ) (end : End)
        → Runs image m t turns end last
        → Apart t (locks_of_block (m.threads t).held (next_lock image (m.threads t))) m last }
    // So is its entry in the journal of each lock.
    ensures entry { (image : Shown) (m n last : State) (b : Block) (set : ℕ → Bool) (k : ℕ)
        → Runs image m b.thread b.turns b.end last → Covers image set (m.threads b.thread)
        → Agree b.thread set m n
        → entry_of image k m b ≡ entry_of image k n b }
{}

/// Histories are traces of runs.
pub fn histories()
    // A trace with one more block of its last state is a trace.
    ensures more { (image : Shown) (fuel : ℕ) (h : List Block) (m last : State) (b : Block)
        → Tells image fuel h m → Stands image h m b last → Tells image fuel (h ++ b ∷ []) last }
    // The schedule of a trace is a run to the same state.
    ensures runs { (image : Shown) (fuel : ℕ) (h : List Block) (m : State)
        → Tells image fuel h m → run image fuel (schedule h) ≡ Some m }
    // It gives each lock its journal, which RV32IM replays to the lock as the run leaves it.
    ensures journals { (image : Shown) (fuel : ℕ) (h : List Block) (m : State) (k : ℕ)
        → length image.guards ≤ MAX_GUARDS → Tells image fuel h m → HasJournal image fuel h m k }
{}

/// Mutual exclusion: in every state that is reachable from the start, a thread holds a lock if and
/// only if it is the lock's owner.
pub fn holding()
    ensures { (image : Shown) (fuel : ℕ) (threads : List ℕ) (m : State)
        → turns image (start image fuel) threads ≡ Some m → IsHeldByOwner m }
{}

/// The last block of a lock says who owns it: nobody, if that block ended a section or there is
/// none; else its thread.
pub fn owning()
    ensures owner { (image : Shown) (fuel : ℕ) (h : List Block) (m : State) (k : ℕ)
        → Tells image fuel h m → (m.locks k).owner ≡ owner_by k (last_of (of_lock h k)) }
    ensures free { (image : Shown) (fuel : ℕ) (h : List Block) (m : State) (k : ℕ)
        → Tells image fuel h m → IfSome (last_of (of_lock h k)) (λ b. ends_section k b ≡ true)
        → (m.locks k).owner ≡ None }
{}

/// Deadlock freedom: a guest can always go on until all its threads have ended, if it has no more
/// locks than a file may have. Each holder wants only a greater lock, so one of the threads that
/// hold locks can step. With more locks a thread could take two in either order.
pub fn progress()
    // A run has at most so many steps.
    ensures few { (r : Run) → length r.turns ≤ most_turns r.image r.fuel }
    // It can go on until each thread has ended.
    ensures ends { (r : Run) → length r.image.guards ≤ MAX_GUARDS → CanRunOn r.image r.last }
    // So a complete history exists. With one worker and every section taken, it is legal for each
    // number of workers and each batch limit, and shows delegation.
    ensures complete { (image : Shown) (fuel : ℕ) → length image.guards ≤ MAX_GUARDS
        → CompleteHistory image fuel }
{}
