//! How a worker leaves after a stop.

ghost use Rattle.tc_workers.specs.Worker.{DidLeave, DidPutBack, MayLeave};

use tc_combiner::{Bench, Desk};
use tc_context::package::Package;
use tc_hall::place::Place;
use tc_order::Order;

/// Puts a package back as ready, where there is one.
fn put_back<Q: Order>(bench: &Bench<'_, Q>, desk: &mut Desk<Q>, package: Option<Package>)
    requires { MayLeave bench.now «package» desk.old }
    ensures { DidPutBack bench.now «package» desk.old desk.new }
{
    if let Some(package) = package {
        package.keeps();
        bench.hall.put(desk.pass(), package, Place::Ready);
    }
}

/// Puts back the current package, if there is one, and the one that is set aside.
pub fn leave<Q: Order>(bench: &Bench<'_, Q>, desk: &mut Desk<Q>, hand: Option<Package>)
    requires { MayLeave bench.now hand desk.old }
    ensures { DidLeave hand desk.old desk.new }
{
    put_back(bench, desk, hand);
    let aside = desk.back();
    put_back(bench, desk, aside);
}
