ghost use Rattle.std.specs.Prelude.{◌≡◌, ◌<◌, ◌≤◌, IfSome};
ghost use Rattle.tc_hall.specs.Rule.{threads};

use crate::guests::{FOUR_THREADS, image_of};
use std::alloc::Global;
use std::process::Abort;
use std::test::Fail;
use std::thread::join;
use tc_context::package::Package;
use tc_elf::image::Image;
use tc_hall::hall::Hall;
use tc_hall::pass::Pass;
use tc_hall::place::Origin;
use tc_ready::Ready;

/// What the last of a crew of four with room for one offer each finds, where each of the three others
/// offers a thread, the last one first: that of deque 0, then those of the deques 1 and 2, and then
/// what a scan finds.
fn see_order<R: Abort>(
    rt: &R,
    hall: &Hall,
    pass: &mut Pass,
    first: &mut Ready,
    second: &mut Ready,
    third: &mut Ready,
    fourth: &mut Ready,
)
    requires own { pass.old.table ≡ hall.now.table }
    requires hall { threads hall.now.terms ≡ 4 }
    requires offering { (first.old.threads ≡ 4) × (second.old.threads ≡ 4) × (third.old.threads ≡ 4) }
    requires fourth { fourth.old.threads ≡ 4 }
{
    assert!(rt; third.offer(1) && second.offer(2));
    assert!(rt; first.offer(3) && !first.offer(2));
    assert!(rt; fourth.next(hall, pass) == Some(3) && fourth.next(hall, pass) == Some(2));
    assert!(rt; fourth.next(hall, pass) == Some(1) && fourth.next(hall, pass) == Some(0));
}

/// The same of a crew of four.
fn see_crew<R: Abort>(rt: &R, hall: &Hall, pass: &mut Pass, mut crew: Vec<Ready>)
    requires own { pass.old.table ≡ hall.now.table }
    requires hall { threads hall.now.terms ≡ 4 }
{
    let mut fourth = crew.pop().expect(rt, "the fourth worker");
    let mut third = crew.pop().expect(rt, "the third worker");
    let mut second = crew.pop().expect(rt, "the second worker");
    let mut first = crew.pop().expect(rt, "the first worker");
    assert!(rt; first.threads() == 4 && second.threads() == 4);
    assert!(rt; third.threads() == 4 && fourth.threads() == 4);
    see_order(
        rt,
        hall,
        pass,
        &mut first,
        &mut second,
        &mut third,
        &mut fourth,
    );
}

#[test]
fn the_deque_of_the_least_number_is_tried_first(rt: HostRuntime) -> Result<(), Fail> {
    let image = image_of(rt.alloc(), &FOUR_THREADS)?;
    assert!(rt; image.threads() == 4);
    let (hall, mut passes) = Hall::new(rt.alloc(), &image, 100, 4, 4)?;
    let crew = Ready::crew(rt.alloc(), 4, 4, 1)?;
    let mut pass = passes.pop().expect(&rt, "a pass");
    see_crew(&rt, &hall, &mut pass, crew);
    Ok(())
}
