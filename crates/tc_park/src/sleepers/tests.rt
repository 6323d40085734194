use super::*;
use std::test::*;

/// Threads 2 and 1 sleep until turn 7, and thread 0 until 9. Answers who is due at these turns, one
/// after another.
fn due_at(alloc: Global, turns: [u64; 4]) -> Result<[Option<u32>; 4], AllocError> {
    let mut sleepers = Sleepers::new(alloc, 3)?;
    sleepers.add(2, 7);
    sleepers.add(1, 7);
    sleepers.add(0, 9);
    Ok(turns.map(|turn| sleepers.due(turn)))
}

#[test]
fn the_first_that_is_due_comes_first(rt: HostRuntime) -> Result<(), Fail> {
    let due = due_at(rt.alloc(), [6, 7, 9, 9])?;
    assert!(rt; due == [None, Some(1), Some(2), Some(0)]);
    Ok(())
}

/// Nobody would see that a sleep takes memory, or asks for some in vain.
#[test]
fn a_sleep_takes_no_memory(rt: HostRuntime) -> Result<(), Fail> {
    let mut sleepers = Sleepers::new(rt.alloc(), 3)?;
    let room = sleepers.due.capacity();
    assert!(rt; sleepers.room() == 3);
    sleepers.add(1, 7);
    assert!(rt; sleepers.least() == Some(7) && sleepers.due(9) == Some(1));
    assert!(rt; sleepers.least().is_none() && sleepers.due.capacity() == room);
    Ok(())
}
