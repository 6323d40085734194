//! Which histories are accepted.

ghost use Rattle.std.specs.Prelude.{◌≡◌, ℕ, List};
ghost use Rattle.tc_isa.specs.declared.options.Options.{Options as AnyTerms};
ghost use Rattle.tc_elf.specs.Shown.{Shown};
ghost use Rattle.tc_journal.specs.declared.block.Block.{Block};
ghost use Rattle.tc_replay.specs.Rejected.{IsAccepted, IsCompleteRun, IsRejected};
ghost use Rattle.tc_replay.specs.declared.reason.Reason.{Reason as AnyReason};

/// A history is accepted if and only if it is a trace of a complete run, obeys the batch limit and
/// its workers exist. It is rejected at one line for one reason at most, and never if it is
/// accepted. A lemma: the function has no effect when it is called.
pub fn rejecting()
    ensures run { (image : Shown) (terms : AnyTerms) (h : List Block)
        → IsAccepted image terms h → IsCompleteRun image terms h }
    ensures accepted { (image : Shown) (terms : AnyTerms) (h : List Block)
        → IsCompleteRun image terms h → IsAccepted image terms h }
    ensures one { (image : Shown) (terms : AnyTerms) (h : List Block)
        → (line other : ℕ) (r s : AnyReason)
        → IsRejected image terms h line r → IsRejected image terms h other s
        → (line ≡ other) × (r ≡ s) }
    ensures never { (image : Shown) (terms : AnyTerms) (h : List Block) (line : ℕ) (r : AnyReason)
        → IsRejected image terms h line r → IsAccepted image terms h → ⊥ }
{}
