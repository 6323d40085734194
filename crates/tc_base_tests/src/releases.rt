ghost use Rattle.std.specs.Prelude.{◌≡◌};

use tc_isa::fault::Fault;
use tc_isa::held::Held;
use tc_journal::block::{Block, End, Kind};
use tc_nested::{Next, first_release, plan};

/// The block of a section with these locks, which ended so.
fn section(held: Held, end: End) -> Block
    ensures held { result.held ≡ held }
    ensures end { result.end ≡ end }
{
    Block {
        stamp: 1,
        thread: 0,
        turns: 7,
        held,
        kind: Kind::Taken,
        worker: 0,
        pc: 0x0010_000c,
        end,
    }
}

#[test]
fn a_lock_goes_to_a_waiter_by_the_batch_limit(rt: HostRuntime) {
    let block = section(Held::none().plus(0), End::Unlocked(0));
    // The streak, the limit, whether a waiter is linked.
    let cases = [
        (0, 4, true, Next::Adopt),
        (0, 1, true, Next::Adopt),
        (1, 1, true, Next::Grant),
        (0, 0, true, Next::Grant),
        (0, 4, false, Next::Free),
    ];
    for (run, limit, waiting, next) in cases {
        assert!(rt;
            plan(&block, 0, run, limit, waiting) == next,
            "{run} of {limit}"
        );
    }
}

#[test]
fn a_lock_is_granted_where_its_thread_goes_on_or_ended(rt: HostRuntime) {
    let first = Held::none().plus(0);
    let nested = section(first.plus(1), End::Unlocked(1));
    assert!(rt; plan(&nested, 1, 0, 4, true) == Next::Grant);
    let ended = section(first, End::Fault(Fault::Illegal));
    assert!(rt; plan(&ended, 0, 0, 4, true) == Next::Grant);
    assert!(rt; plan(&ended, 0, 0, 4, false) == Next::Free);
}

#[test]
fn the_least_lock_is_passed_on_first(rt: HostRuntime) {
    let none = Held::none();
    assert!(rt; first_release(none).is_none());
    assert!(rt; first_release(none.plus(0)) == Some(0));
    assert!(rt; first_release(none.plus(31).plus(1).plus(5)) == Some(1));
}
