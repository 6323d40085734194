//! The histories that the abstract machine writes are those that obey the rules.

ghost use Rattle.std.specs.Prelude.{◌≡◌, ◌↔◌, ℕ, ◌≤◌, true, List, ◌++◌, length};
ghost use Rattle.tc_isa.specs.declared.held.TheConstants.Held.{PLACES};
ghost use Rattle.tc_elf.specs.Shown.{Shown};
ghost use Rattle.tc_journal.specs.History.{schedule};
ghost use Rattle.tc_journal.specs.declared.block.Block.{Block};
ghost use Rattle.tc_mutex_spec.specs.Blocks.{IsComplete, end_after};
ghost use Rattle.tc_core.specs.declared.event.Event.{Event};
ghost use Rattle.tc_core.specs.declared.event.Event.TheVariants.{Adopt};
ghost use Rattle.tc_core.specs.Core.{Limits, first_core};
ghost use Rattle.tc_core.specs.Events.{is_enabled};
ghost use Rattle.tc_core.specs.Stories.{AreEnabled, after_all, blocks_of};
ghost use Rattle.tc_told.specs.Written.{IsWritten, IsWrittenInParts, IsWrittenToRest, IsWrittenWhole, KeepsRules, IsOfLast, history_of};

/// A history is written by enabled events of the abstract machine if and only if it is a trace of
/// the image, its workers exist, it obeys the batch limit, whoever ran its blocks, and it passes
/// sections on to other threads. This holds for every image with at most as many locks as a held
/// set has places for, and for every fuel, number of workers, batch limit and history. A theorem:
/// the function has no effect when it is called.
pub fn realization()
    ensures exact { (image : Shown) (limits : Limits) (fuel : ℕ) (h : List Block)
        → length image.guards ≤ PLACES
        → KeepsRules image limits fuel h ↔ IsWritten image limits fuel h }
    // It is written by events after which all is at rest: a thread is parked if its last block
    // ended with a SLEEP.
    ensures rest { (image : Shown) (limits : Limits) (fuel : ℕ) (h : List Block)
        → length image.guards ≤ PLACES
        → KeepsRules image limits fuel h → IsWrittenToRest image limits fuel h }
    // If no thread can go on, all threads are done and all locks are free.
    ensures whole { (image : Shown) (limits : Limits) (fuel : ℕ) (h : List Block)
        → length image.guards ≤ PLACES
        → KeepsRules image limits fuel h → IsComplete image (end_after image fuel h)
        → IsWrittenWhole image limits fuel h }
    // After each prefix of it each thread may rest like that: who is parked there is claimed for
    // its next block.
    ensures parts { (image : Shown) (limits : Limits) (fuel : ℕ) (front back : List Block)
        → length image.guards ≤ PLACES
        → KeepsRules image limits fuel (front ++ back)
        → IsWrittenInParts image limits fuel front back }
    // For any enabled events, the blocks that they write are those of the Commit events, each with
    // as many steps as its thread has Turn events since its previous Commit.
    ensures counted { (image : Shown) (limits : Limits) (fuel : ℕ) (events : List Event)
        → AreEnabled image limits (first_core image fuel) events
        → schedule (history_of image fuel events) ≡ blocks_of events }
    // A lock is adopted by the worker of the last block that had it.
    ensures adopter { (image : Shown) (limits : Limits) (fuel : ℕ) (events : List Event)
        → (worker thread lock : ℕ)
        → AreEnabled image limits (first_core image fuel) events
        → is_enabled image limits (after_all image (first_core image fuel) events)
        (Adopt worker thread lock) ≡ true
        → IsOfLast lock worker (history_of image fuel events) }
{}
