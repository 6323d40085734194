//! The calls of the hall, as a worker makes them.

ghost use Rattle.std.specs.Prelude.{◌≡◌, MatchBool};
ghost use Rattle.tc_hall.specs.Rule.{threads};
ghost use Rattle.tc_workers.specs.Worker.{IsUnmoved, LookedAtStop, SawEnded, SawOneLeft};

use tc_combiner::{Bench, Desk};
use tc_hall::hall::Hall;
use tc_hall::pass::Pass;
use tc_order::Order;

/// Whether the run was stopped.
pub fn sees_stop<Q: Order>(bench: &Bench<'_, Q>, desk: &mut Desk<Q>) -> bool
    requires { desk.old.pass.table ≡ bench.now.hall.table }
    ensures { LookedAtStop result desk.old desk.new }
{
    bench.hall.stopped(desk.pass())
}

/// Whether each of the threads is seen to have ended. It looks at them in order, up to the first
/// that has not.
pub fn all_done(hall: &Hall, pass: &mut Pass, count: u32) -> bool
    requires own { pass.old.table ≡ hall.now.table }
    requires count { count ≡ threads hall.now.terms }
    ensures unmoved { IsUnmoved pass.old pass.new }
    ensures looked { MatchBool result (SawEnded count pass.old.knows pass.new.knows)
        (SawOneLeft count pass.old.knows pass.new.knows) }
{
    for t in 0..count {
        if hall.look(pass, t) != 2 {
            return false;
        }
    }
    true
}
