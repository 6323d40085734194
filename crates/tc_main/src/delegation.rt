//! The history of a legal run as a trace of the abstract machine of delegation, and what it shows
//! of each section.

ghost use Rattle.std.specs.Prelude.{◌≡◌, ℕ, true, List, ◌∷◌, ◌++◌, Some};
ghost use Rattle.tc_elf.specs.Shown.{Shown};
ghost use Rattle.tc_journal.specs.Batch.{begins};
ghost use Rattle.tc_journal.specs.Handing.{of_worker};
ghost use Rattle.tc_journal.specs.History.{of_lock};
ghost use Rattle.tc_journal.specs.declared.block.Block.{Block};
ghost use Rattle.tc_journal.specs.declared.block.End.TheVariants.{Unlocked};
ghost use Rattle.tc_told.specs.Handover.{first_of, BeginsAdopted, IsBehindRelease, FollowsAtOnce, HasWaited, BeginsWith, IsCutUp};
ghost use Rattle.tc_told.specs.Written.{IsWritten};
ghost use Rattle.tc_isa.specs.declared.options.Options.{Options};
ghost use Rattle.tc_report.specs.Results.{Results};
ghost use Rattle.tc_report.specs.Legal.{IsLegalRun};

/// Enabled events of the abstract machine write the history of each legal run, field by field, with
/// the run's number of workers and batch limit. So the machine can do all that a report shows. It
/// is not said which events happened in the run that was printed. A theorem: the function has no
/// effect when it is called.
pub fn delegation()
    ensures written { (image : Shown) (o : Options) (results : Results)
        → IsLegalRun image o results
        → IsWritten image (record { workers = o.workers; batch = o.limit }) o.fuel results.history }
{}

/// What the history of each legal run shows of its sections: an adopted one, whose thread waited at
/// its LOCK, follows the release of its lock in the next block of its worker. It runs there without
/// a break unless its thread sleeps, takes a lock or releases another one. A theorem: the function
/// has no effect when it is called.
pub fn handover()
    // An adopted section begins where the section before it ended: the last block of its worker is
    // the last block of its lock, released the lock, and belongs to another thread.
    ensures released { (image : Shown) (o : Options) (results : Results) (before after : List Block) (lock : ℕ) (b : Block)
        → IsLegalRun image o results
        → results.history ≡ before ++ b ∷ after → BeginsAdopted lock b
        → IsBehindRelease before lock b }
    // Between the release and the section, its worker ran no block and the lock was in no block.
    ensures at_once { (image : Shown) (o : Options) (results : Results) (before after : List Block) (lock : ℕ) (b : Block)
        → IsLegalRun image o results
        → results.history ≡ before ++ b ∷ after → BeginsAdopted lock b
        → FollowsAtOnce before lock b }
    // The thread of each section was at its LOCK since its block before, or since the start, and
    // did not run until the section: who is adopted has waited there.
    ensures waited { (image : Shown) (o : Options) (results : Results) (before after : List Block) (lock : ℕ) (b : Block)
        → IsLegalRun image o results
        → results.history ≡ before ++ b ∷ after → begins lock b ≡ true
        → HasWaited image o.fuel before lock b }
    // If a released lock is adopted, the waiter's block is the worker's next block.
    ensures next { (image : Shown) (o : Options) (results : Results) (before after : List Block) (lock : ℕ) (p b : Block)
        → IsLegalRun image o results
        → results.history ≡ before ++ p ∷ after → p.end ≡ Unlocked lock
        → first_of (of_lock after lock) ≡ Some b → BeginsAdopted lock b
        → first_of (of_worker after p.worker) ≡ Some b }
    // An adopted section without inner locks and sleeps is a run of consecutive blocks of its
    // worker, from `adopted` to `unlocked L`. So is each section of which all blocks but the last
    // were cut.
    ensures unbroken { (image : Shown) (o : Options) (results : Results) (before after section : List Block) (lock : ℕ) (b : Block)
        → IsLegalRun image o results
        → results.history ≡ before ++ b ∷ after → begins lock b ≡ true
        → BeginsWith section (of_lock (b ∷ after) lock) → IsCutUp section
        → BeginsWith section (of_worker (b ∷ after) b.worker) }
{}
