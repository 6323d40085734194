//! The calls of the hall, as a desk makes them: which calls each adds to the list of the pass, and
//! what the pass has out afterwards.

ghost use Rattle.std.specs.Prelude.{◌++◌, ◌≡◌, [], ◌∷◌, true};
ghost use Rattle.tc_hall.specs.Standing.{FreesAs, IfLined, PutsAs};
ghost use Rattle.tc_hall.specs.Steps.{HasStop, put_call};
ghost use Rattle.tc_hall.specs.declared.board.PassCall.TheVariants.{Free};
ghost use Rattle.tc_hall.specs.declared.place.Place.TheVariants.{Waiting};
ghost use Rattle.tc_hall.specs.Outs.{Pack, Loose};
ghost use Rattle.tc_combiner.specs.Stances.{SameStances};
ghost use Rattle.tc_combiner.specs.Walks.{Acts, MayBringHome, MayGive, Tried, saw_if};

use tc_context::package::Package;
use tc_hall::hall::Hall;
use tc_hall::pass::Pass;
use tc_hall::place::Place;
use tc_segment::state::LockState;

pub(crate) fn put(hall: &Hall, pass: &mut Pass, package: Package, place: Place)
    requires may { MayGive hall.now pass.old place «package» }
    requires stands { IfLined hall.now.terms pass.old.knows
        (PutsAs pass.old.knows «package» place) }
    ensures acts { Acts (put_call «package» place ∷ []) (Pack «package» ∷ []) [] pass.old pass.new }
    ensures told { pass.new.knows.calls ≡ pass.old.knows.calls ++ put_call «package» place ∷ [] }
{
    hall.put(pass, package, place);
}

/// Puts the package as one that waits for the lock: that is the one call of the pass.
pub(crate) fn ship(hall: &Hall, pass: &mut Pass, package: Package, lock: u32)
    requires may { MayGive hall.now pass.old (Waiting lock) «package» }
    requires stands { IfLined hall.now.terms pass.old.knows
        (PutsAs pass.old.knows «package» (Waiting lock)) }
    ensures acts { Acts (put_call «package» (Waiting lock) ∷ []) (Pack «package» ∷ []) []
        pass.old pass.new }
    ensures told { pass.new.knows.calls
        ≡ pass.old.knows.calls ++ put_call «package» (Waiting lock) ∷ [] }
{
    hall.put(pass, package, Place::Waiting(lock));
}

pub(crate) fn free(hall: &Hall, pass: &mut Pass, lock: LockState)
    requires may { MayBringHome hall.now pass.old lock }
    requires stands { IfLined hall.now.terms pass.old.knows
        (FreesAs pass.old.knows lock.number) }
    ensures acts { Acts (Free lock.number ∷ []) (Loose lock ∷ []) [] pass.old pass.new }
    ensures told { pass.new.knows.calls ≡ pass.old.knows.calls ++ Free lock.number ∷ [] }
{
    hall.free(pass, lock);
}

pub(crate) fn stopped(hall: &Hall, pass: &mut Pass) -> bool
    requires { pass.old.table ≡ hall.now.table }
    ensures acts { Acts (saw_if result) [] [] pass.old pass.new }
    ensures tried { Tried 0 1 pass.old.knows pass.new.knows }
    ensures same { SameStances hall.now.terms pass.old.knows pass.new.knows }
    ensures seen { result ≡ true → HasStop pass.new.knows }
{
    hall.stopped(pass)
}
