//! The lemmas of the batch rule.

ghost use Rattle.std.specs.Prelude.{◌≡◌, ℕ, Bool, ◌&&◌, not, List, true, false};
ghost use Rattle.tc_journal.specs.Batch.{may_adopt, has_cause, is_adopted, ends_section, allows_of};
ghost use Rattle.tc_journal.specs.declared.block.Block.{Block as AnyBlock};
ghost use Rattle.tc_journal.specs.declared.block.Kind.{Kind as AnyKind};

/// What the batch rule says of a section that is to begin. A lemma: the function has no effect when
/// it is called.
pub fn sections()
    // After a section the lock is granted for a cause, and adopted if there is none.
    ensures causes { (b : AnyBlock) (lock run limit : ℕ)
        → ends_section lock b ≡ true
        → not (may_adopt b lock run limit) ≡ has_cause b lock run limit }
    // Except for an Adopted section, the worker does not matter.
    ensures any_worker { (lock limit : ℕ) (bs : List AnyBlock) (kind : AnyKind) (w u : ℕ)
        → is_adopted kind ≡ false
        → allows_of lock limit bs kind w ≡ allows_of lock limit bs kind u }
{}
