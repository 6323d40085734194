//! The lemmas about one step.

ghost use Rattle.std.specs.Prelude.{◌≡◌, ℕ, Bool, true, false, Some, None};
ghost use Rattle.tc_elf.specs.Shown.{Shown};
ghost use Rattle.tc_turn.specs.Turn.{Thread, Mutex, next_lock, next_act, thread_after, mutex_after};
ghost use Rattle.tc_turn.specs.Reads.{Covers, TakesLock};

/// A step reads its thread and the locks that the thread holds or takes, and does not change the
/// others. A lemma: the function has no effect when it is called.
pub fn turns()
    ensures reads { (image : Shown) (set : ℕ → Bool) (d : Thread) (a b : ℕ → Mutex)
        → Covers image set d → ((k : ℕ) → set k ≡ true → a k ≡ b k)
        → next_act image d a ≡ next_act image d b }
    ensures leaves { (image : Shown) (set : ℕ → Bool) (t : ℕ) (d : Thread)
        (locks : ℕ → Mutex) (k : ℕ) (l : Mutex)
        → Covers image set d → set k ≡ false
        → mutex_after image t d.held (next_act image d locks) k l ≡ l }
    // The same set covers the next turn too, where that takes no lock.
    ensures covers { (image : Shown) (set : ℕ → Bool) (d : Thread) (locks : ℕ → Mutex)
        → Covers image set d → next_lock image (thread_after d (next_act image d locks)) ≡ None
        → Covers image set (thread_after d (next_act image d locks)) }
    ensures takes { (image : Shown) (d : Thread) (k : ℕ)
        → next_lock image d ≡ Some k → TakesLock image d k }
{}
