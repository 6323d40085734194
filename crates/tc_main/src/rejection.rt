//! A history is rejected at one line for one reason.

ghost use Rattle.std.specs.Prelude.{◌≡◌, ℕ, List, Some};
ghost use Rattle.tc_io.specs.Stream.{Stream};
ghost use Rattle.tc_isa.specs.declared.options.Options.{Options};
ghost use Rattle.tc_main.specs.Replayed.{HasRun, IsRejection};
ghost use Rattle.tc_main.specs.Top.{IsRejectedFor, IsWanted};
ghost use Rattle.tc_replay.specs.declared.reason.Rejected.{Rejected};

/// The text after a guest's file is rejected in one way at most, and never if it is accepted. A
/// lemma: the function has no effect when it is called.
pub fn rejection()
    ensures one { (size : ℕ) (o : Options) (bytes : List ℕ) (r s : Rejected)
        → IsRejection size o bytes r → IsRejection size o bytes s → r ≡ s }
    ensures never { (size : ℕ) (o : Options) (bytes : List ℕ) (r : Rejected)
        → HasRun size o bytes → IsRejection size o bytes r → ⊥ }
    // So equal arguments and equal sources, whose contents are known, give one line and one reason,
    // however often they are asked.
    ensures once { (words : List (List ℕ)) (before now later : Stream) (bytes : List ℕ) (r s : Rejected)
        → before.bytes ≡ Some bytes → IsRejectedFor words before now r
        → IsRejectedFor words before later s → r ≡ s }
    // If they give these, they give no text.
    ensures no_text { (words : List (List ℕ)) (before now later : Stream) (bytes text : List ℕ) (r : Rejected)
        → before.bytes ≡ Some bytes → IsRejectedFor words before now r
        → IsWanted words before later text → ⊥ }
{}
