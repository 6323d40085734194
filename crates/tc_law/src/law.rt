//! What a block preserves: for one package beside a history, and for all packages and lock states.

ghost use Rattle.std.specs.Prelude.{◌≡◌, ℕ, ◌<◌, ◌^◌, ◌∷◌, ◌++◌, [], Bool, true, List, Some, None, length};
ghost use Rattle.tc_isa.specs.Sets.{has};
ghost use Rattle.tc_elf.specs.Shown.{Shown};
ghost use Rattle.tc_journal.specs.Batch.{Obeys, PassesOn};
ghost use Rattle.tc_journal.specs.History.{of_lock};
ghost use Rattle.tc_journal.specs.declared.block.Block.{Block};
ghost use Rattle.tc_mutex_spec.specs.Machine.{State};
ghost use Rattle.tc_mutex_spec.specs.Blocks.{Tells};
ghost use Rattle.tc_segment.specs.View.{LockView, IsStrict, EndsSection};
ghost use Rattle.tc_context.specs.Locks.{EachLock};
ghost use Rattle.tc_context.specs.View.{PackageView, Allows, held_in, locks_in, with_seal};
ghost use Rattle.tc_context.specs.Ran.{DidRun, block_sealed};
ghost use Rattle.tc_law.specs.History.{Follows, Grows};
ghost use Rattle.tc_law.specs.Lawful.{IsLimited, StandsAt, IsAmong, AreFresh, AreStrict, with_states};
ghost use Rattle.tc_law.specs.Account.{Account, IsLawful, with_block, owner_in};

/// A package p that agrees with a history runs a block and is v. Whatever stamp and worker it is
/// sealed with: the history with the block appended is a trace, only the block's thread and locks
/// change, and the sealed package agrees with the longer history. That history obeys the batch limit
/// if the batch rule allows the block's worker. If each lock state in the package is strict, sections
/// are still passed on to other threads. A lemma: the function has no effect when it is called.
/// when it is called.
pub fn follow()
    ensures grows { (image : Shown) (fuel limit : ℕ) (h : List Block) (m : State)
        → (p v : PackageView)
        → Tells image fuel h m → Follows image fuel limit h m p → (ran : DidRun image p v)
        → (stamp worker : ℕ) → (to : State)
        × Grows image fuel h m (block_sealed ran stamp worker) to
        × Follows image fuel limit (h ++ block_sealed ran stamp worker ∷ []) to
        (with_seal stamp worker v) }
    ensures limit { (image : Shown) (fuel limit : ℕ) (h : List Block) (m : State)
        → (p v : PackageView)
        → Follows image fuel limit h m p → (ran : DidRun image p v)
        → (stamp worker : ℕ) → Allows v.context ran.block worker
        → ((k : ℕ) → Obeys k limit (of_lock h k))
        → (k : ℕ) → Obeys k limit (of_lock (h ++ block_sealed ran stamp worker ∷ []) k) }
    ensures passes { (image : Shown) (fuel limit : ℕ) (h : List Block) (m : State)
        → (p v : PackageView)
        → Follows image fuel limit h m p → (ran : DidRun image p v)
        → EachLock (λ k l. IsStrict l) (locks_in p)
        → (stamp worker : ℕ) → ((k : ℕ) → PassesOn k (of_lock h k))
        → (k : ℕ) → PassesOn k (of_lock (h ++ block_sealed ran stamp worker ∷ []) k) }
{}

/// The invariant over a history, the packages of all threads and the states of all locks.
/// It holds at the start, when nothing has run. A block that runs in a package preserves
/// it once it is sealed with the history's length as its stamp and appended, whatever the
/// other packages and locks are; strict lock states stay strict. It implies: the logs
/// determine the history; the history is short, so that a count of its blocks in 64 bits
/// never wraps; nobody owns a lock whose last sealed block ended a section of it; a
/// thread owns the locks that it holds. A lemma: the function has no effect when it is
/// called.
pub fn keep()
    ensures begin { (a : Account)
        → AreFresh a.image a.fuel a.limit a.packages a.states
        → IsLawful (record a { history = [] }) }
    ensures append { (a : Account) (p v : PackageView)
        → IsLimited a.image a.fuel → IsLawful a → IsAmong a.packages a.states p
        → (ran : DidRun a.image p v)
        → (worker : ℕ) → worker < 2 ^ 32 → Allows v.context ran.block worker
        → IsLawful (with_block a ran.block v worker) }
    ensures strict { (a : Account) (p v : PackageView)
        → IsAmong a.packages a.states p → DidRun a.image p v
        → (stamp worker : ℕ) → AreStrict a.states
        → AreStrict (with_states (locks_in (with_seal stamp worker v)) a.states) }
    ensures one { (a : Account) (h : List Block) (others : List LockView)
        → IsLawful a → IsLawful (record a { history = h; states = others })
        → a.history ≡ h }
    ensures short { (a : Account)
        → IsLimited a.image a.fuel → IsLawful a → length a.history < 2 ^ 32 }
    ensures free { (a : Account) → IsLawful a
        → (k : ℕ) (l : LockView) → StandsAt a.states k l → EndsSection k l → owner_in a k ≡ None }
    ensures held { (a : Account) → IsLawful a
        → (t : ℕ) (p : PackageView) → StandsAt a.packages t p
        → (k : ℕ) → has (held_in p) k ≡ true → owner_in a k ≡ Some t }
{}
