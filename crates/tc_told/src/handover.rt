//! Handover: how an adopted section follows the one before it, how a thread reaches its section,
//! and where a section runs.

ghost use Rattle.std.specs.Prelude.{◌≡◌, ℕ, true, List, ◌∷◌, ◌++◌, Some};
ghost use Rattle.tc_elf.specs.Shown.{Shown};
ghost use Rattle.tc_journal.specs.Batch.{begins};
ghost use Rattle.tc_journal.specs.Handing.{of_worker};
ghost use Rattle.tc_journal.specs.History.{of_lock};
ghost use Rattle.tc_journal.specs.declared.block.Block.{Block};
ghost use Rattle.tc_journal.specs.declared.block.End.TheVariants.{Unlocked};
ghost use Rattle.tc_core.specs.Core.{Limits};
ghost use Rattle.tc_told.specs.Handover.{first_of, ShowsDelegation, BeginsAdopted, IsBehindRelease, FollowsAtOnce, HasWaited, BeginsWith, IsCutUp};

/// What each history shows that obeys the rules, by the workers that it names, and delegates,
/// complete or not. A theorem: the function has no effect when it is called.
pub fn handover()
    // An adopted section begins where the section before it ended: the last block of its worker is
    // the last block of its lock, released the lock, and belongs to another thread.
    ensures released { (image : Shown) (limits : Limits) (fuel : ℕ) (h before after : List Block) (lock : ℕ) (b : Block)
        → ShowsDelegation image limits fuel h → h ≡ before ++ b ∷ after → BeginsAdopted lock b
        → IsBehindRelease before lock b }
    // Between the release and the section, its worker ran no block and the lock was in no block.
    ensures at_once { (image : Shown) (limits : Limits) (fuel : ℕ) (h before after : List Block) (lock : ℕ) (b : Block)
        → ShowsDelegation image limits fuel h → h ≡ before ++ b ∷ after → BeginsAdopted lock b
        → FollowsAtOnce before lock b }
    // The thread of each section was at its LOCK since its block before, or since the start, and
    // did not run until the section: who is adopted has waited there.
    ensures waited { (image : Shown) (limits : Limits) (fuel : ℕ) (h before after : List Block) (lock : ℕ) (b : Block)
        → ShowsDelegation image limits fuel h → h ≡ before ++ b ∷ after → begins lock b ≡ true
        → HasWaited image fuel before lock b }
    // If a released lock is adopted, the waiter's block is the worker's next block.
    ensures next { (image : Shown) (limits : Limits) (fuel : ℕ) (h before after : List Block) (lock : ℕ) (p b : Block)
        → ShowsDelegation image limits fuel h → h ≡ before ++ p ∷ after → p.end ≡ Unlocked lock
        → first_of (of_lock after lock) ≡ Some b → BeginsAdopted lock b
        → first_of (of_worker after p.worker) ≡ Some b }
    // An adopted section without inner locks and sleeps is a run of consecutive blocks of its
    // worker, from `adopted` to `unlocked L`. So is each section of which all blocks but the last
    // were cut.
    ensures unbroken { (image : Shown) (limits : Limits) (fuel : ℕ) (h before after section : List Block) (lock : ℕ) (b : Block)
        → ShowsDelegation image limits fuel h → h ≡ before ++ b ∷ after → begins lock b ≡ true
        → BeginsWith section (of_lock (b ∷ after) lock) → IsCutUp section
        → BeginsWith section (of_worker (b ∷ after) b.worker) }
{}
