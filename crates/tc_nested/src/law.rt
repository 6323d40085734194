//! The section that comes next is allowed.

ghost use Rattle.std.specs.Prelude.{◌≡◌, ℕ, List, Some, true, false};
ghost use Rattle.tc_journal.specs.Batch.{may_adopt, run_of, last_of, allows_of};
ghost use Rattle.tc_journal.specs.declared.block.Block.{Block as AnyBlock};
ghost use Rattle.tc_journal.specs.declared.block.Kind.TheVariants.{Adopted, Granted};
ghost use Rattle.tc_nested.specs.Release.{Releases};

/// After a block that released the lock, the batch rule allows what `plan` answers for the lock's
/// blocks so far: an Adopted section by the same worker, or a Granted one by any. A lemma: the
/// function has no effect when it is called.
pub fn allowed()
    ensures adopted { (lock limit : ℕ) (bs : List AnyBlock) (b : AnyBlock)
        → last_of bs ≡ Some b → may_adopt b lock (run_of lock bs) limit ≡ true
        → allows_of lock limit bs Adopted b.worker ≡ true }
    ensures granted { (lock limit : ℕ) (bs : List AnyBlock) (b : AnyBlock) (worker : ℕ)
        → last_of bs ≡ Some b → Releases lock b → may_adopt b lock (run_of lock bs) limit ≡ false
        → allows_of lock limit bs Granted worker ≡ true }
{}
