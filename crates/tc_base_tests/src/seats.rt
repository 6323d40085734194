use std::test::*;
use tc_queue::{QueueCall, Turn};
use tc_seats::Seats;

/// Each seat that is made can note calls, one after another.
#[test]
fn seats_note_calls(rt: HostRuntime) -> Result<(), Fail> {
    let (row, seats) = Seats::new(rt.alloc(), 4, 3)?;
    assert!(rt; seats.len() == 3);
    assert!(rt; row.has(3) && !row.has(4));
    let own = Turn {
        thread: 0,
        number: 1,
    };
    for mut seat in seats {
        row.note(&mut seat, QueueCall::Next(own, None));
        row.note(&mut seat, QueueCall::Link(own, own));
    }
    Ok(())
}
