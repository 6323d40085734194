ghost use Rattle.std.specs.Prelude.{◌≡◌, IfOk, true};
ghost use Rattle.tc_hall.specs.Rule.{threads, locks};
ghost use Rattle.tc_hall.specs.Steps.{HasStop};

use crate::counting::turn;
use crate::guests::{TWO_THREADS, image_of};
use std::alloc::Global;
use std::process::Abort;
use std::test::*;
use tc_hall::hall::Hall;
use tc_hall::pass::Pass;
use tc_queue::{Entered, Leave};

/// A hall with lines of two workers over that guest, with the pass of each.
fn open<R: Abort>(rt: &R, alloc: Global) -> Result<(Hall, Pass, Pass), Fail>
    ensures two { IfOk result (λ r. threads r.0.terms ≡ 2) }
    ensures one { IfOk result (λ r. locks r.0.terms ≡ 1) }
    ensures lined { IfOk result (λ r. r.0.terms.lined ≡ true) }
    ensures own { IfOk result (λ r. (r.1.table ≡ r.0.table) × (r.2.table ≡ r.0.table)) }
{
    let image = image_of(alloc, &TWO_THREADS)?;
    assert!(rt; image.threads() == 2);
    assert!(rt; image.guards() == 1);
    let (hall, mut passes) = Hall::with_lines(alloc, &image, 100, 2, 4)?;
    let other = passes.pop().expect(rt, "the second pass");
    let zero = passes.pop().expect(rt, "the first pass");
    Ok((hall, zero, other))
}

/// Pass 0 makes its calls for thread 0, and pass 1 for thread 1. Both have no package: after a stop
/// no call asks for one.
fn take_turns<R: Abort>(rt: &R, hall: &Hall, zero: &mut Pass, one: &mut Pass)
    requires two { threads hall.now.terms ≡ 2 }
    requires one { locks hall.now.terms ≡ 1 }
    requires lined { hall.now.terms.lined ≡ true }
    requires own { (zero.old.table ≡ hall.now.table) × (one.old.table ≡ hall.now.table) }
    requires stopped { HasStop zero.old.knows × HasStop one.old.knows }
{
    let (first, second) = (turn(0, 1), turn(1, 1));
    assert!(rt; hall.enter(zero, 0, first) == Entered::First);
    let Entered::Behind(before) = hall.enter(one, 0, second) else {
        panic!(rt; "the second turn is not behind the first one")
    };
    assert!(rt; before == first);
    assert!(rt; hall.next(zero, 0, first).is_none());
    assert!(rt; hall.leave(zero, 0, first) == Leave::Followed(Some(second)));
    hall.link(one, 0, before, second);
    assert!(rt; hall.next(zero, 0, first) == Some(second));
    assert!(rt; hall.next(one, 0, second).is_none());
    assert!(rt; hall.leave(one, 0, second) == Leave::Left);
    assert!(rt; hall.enter(zero, 0, turn(0, 2)) == Entered::First);
    assert!(rt; [hall.look(one, 0), hall.look(one, 1)] == [0, 0]);
}

#[test]
fn a_line_has_turns_of_two_passes(rt: HostRuntime) -> Result<(), Fail> {
    let (hall, mut zero, mut one) = open(&rt, rt.alloc())?;
    hall.stop(&mut zero);
    hall.stop(&mut one);
    take_turns(&rt, &hall, &mut zero, &mut one);
    Ok(())
}
