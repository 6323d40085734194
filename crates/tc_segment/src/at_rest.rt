//! The lemmas about lock states at rest.

ghost use Rattle.std.specs.Prelude.{◌≡◌, ◌↔◌, ℕ, true};
ghost use Rattle.tc_elf.specs.Shown.{Shown};
ghost use Rattle.tc_journal.specs.Batch.{allows_of};
ghost use Rattle.tc_journal.specs.declared.block.Kind.TheVariants.{Taken};
ghost use Rattle.tc_segment.specs.View.{LockView, IsAtRest, blocks_of, fresh_state, kept};

/// A lock is at rest at the start. While it is at rest, the thread of any worker may take it. Spare
/// capacity does not matter. A lemma: the function has no effect when it is called.
pub fn resting()
    ensures fresh { (image : Shown) (k limit : ℕ) → IsAtRest image k (fresh_state image k limit) }
    ensures taken { (image : Shown) (k : ℕ) (l : LockView) (worker : ℕ)
        → IsAtRest image k l → allows_of k l.journal.limit (blocks_of l) Taken worker ≡ true }
    ensures rooms { (image : Shown) (k : ℕ) (l : LockView)
        → IsAtRest image k (kept l) ↔ IsAtRest image k l }
{}
