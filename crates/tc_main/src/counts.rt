//! The profile of a history beside its report.

ghost use Rattle.std.specs.Prelude.{◌≡◌, ℕ, List, length, sum_by};
ghost use Rattle.std.specs.List.{range_with_len};
ghost use Rattle.tc_elf.specs.Loading.{subset};
ghost use Rattle.tc_elf.specs.Shown.{Shown};
ghost use Rattle.tc_isa.specs.declared.options.Options.{Options};
ghost use Rattle.tc_journal.specs.declared.block.Block.{Block};
ghost use Rattle.tc_mutex_spec.specs.Blocks.{end_after};
ghost use Rattle.tc_profile.specs.Profile.{lock_profile, thread_profile};
ghost use Rattle.tc_replay.specs.Rejected.{IsCompleteRun};
ghost use Rattle.tc_report.specs.Legal.{guarded_in};

/// How a profile and a report of the same history agree, if it is a trace of a complete run of a
/// guest's file. A lemma: the function has no effect when it is called.
pub fn counts()
    // As many sections of each lock.
    ensures sections { (file : List ℕ) (image : Shown) (o : Options) (h : List Block) (lock : ℕ)
        → subset file image → IsCompleteRun image o h
        → (lock_profile h lock).sections
        ≡ (guarded_in image (end_after image o.fuel h) lock).sections }
    // As many blocks, those of all threads together.
    ensures blocks { (image : Shown) (o : Options) (h : List Block) → IsCompleteRun image o h
        → sum_by (λ t. (thread_profile h t).blocks) (range_with_len 0 (length image.entries))
        ≡ length h }
{}
