//! Six small histories, and events that write them.

ghost use Rattle.tc_told.specs.View.{IsWriterOf};

use crate::deeds::Deed::{
    Adopt, Back, Claim, Commit, Enter, Finish, Grant, Leave, Park, SetFree, Ship, Take, Turn,
};
use crate::deeds::{Deed, event_of, times_of};
use crate::guests::{DOZE, LAST, ONE, image_of};
use std::alloc::{AllocError, Global};
use std::process::Abort;
use std::test::Fail;
use tc_elf::image::Image;
use tc_isa::limits::MAX_BATCH;
use tc_journal::block::Block;
use tc_journal::reading::read;
use tc_told::writer::Writer;

/// A worker, a thread, and what the one does with the other, in order.
type Row = (u32, u32, &'static [Deed]);

/// A guest, the limit of sections in a row, the rows, all of which are enabled when they come, and
/// the lines of the history that they write.
struct Case {
    name: &'static str,
    guest: &'static [u32],
    limit: u32,
    rows: &'static [Row],
    lines: &'static str,
}

/// Does a deed, and says whether it was enabled each time.
fn perform(
    writer: &mut Writer,
    image: &Image,
    worker: u32,
    thread: u32,
    deed: Deed,
) -> Result<bool, AllocError>
    requires { IsWriterOf image.now writer.old }
    ensures { IsWriterOf image.now writer.new }
{
    let event = event_of(worker, thread, deed);
    for done in 0..times_of(deed) {
        if !writer.step(image, event)? {
            return Ok(false);
        }
    }
    Ok(true)
}

/// Does the deeds of a row, and says whether each was enabled.
fn perform_row(writer: &mut Writer, image: &Image, row: Row) -> Result<bool, AllocError>
    requires { IsWriterOf image.now writer.old }
    ensures { IsWriterOf image.now writer.new }
{
    let (worker, thread, deeds) = row;
    for deed in deeds {
        if !perform(writer, image, worker, thread, *deed)? {
            return Ok(false);
        }
    }
    Ok(true)
}

/// Does what the rows of a case say, all of which is enabled when it comes.
fn perform_all<R: Abort>(
    rt: &R,
    writer: &mut Writer,
    image: &Image,
    case: &Case,
) -> Result<(), AllocError>
    requires { IsWriterOf image.now writer.old }
    ensures { IsWriterOf image.now writer.new }
{
    for (number, row) in case.rows.iter().enumerate() {
        assert!(rt;
            perform_row(writer, image, *row)?,
            "{}: row {number}",
            case.name
        );
    }
    Ok(())
}

/// The history is that of the case's lines.
fn check_history<R: Abort>(
    rt: &R,
    alloc: Global,
    history: &[Block],
    case: &Case,
) -> Result<(), Fail> {
    let told = read(alloc, case.lines.as_bytes())?;
    assert!(rt; history == told.as_slice(), "{}", case.name);
    Ok(())
}

/// What `check` shows, of the guest's image.
fn check_image<R: Abort>(rt: &R, alloc: Global, image: &Image, case: &Case) -> Result<(), Fail> {
    assert!(rt; case.limit <= MAX_BATCH);
    let mut writer = Writer::new(alloc, image, 100, 2, case.limit)?;
    perform_all(rt, &mut writer, image, case)?;
    check_history(rt, alloc, writer.history(), case)
}

/// What the rows of a case say is enabled when it comes, and it writes the case's history.
fn check<R: Abort>(rt: &R, alloc: Global, case: &Case) -> Result<(), Fail> {
    let image = image_of(alloc, case.guest)?;
    check_image(rt, alloc, &image, case)
}

#[test]
fn events_write_histories(rt: HostRuntime) -> Result<(), Fail> {
    for case in &CASES {
        check(&rt, rt.alloc(), case)?;
    }
    Ok(())
}

static CASES: [Case; 7] = [
    // A free lock is taken, left while the next thread is already in its queue, and taken again.
    Case {
        name: "a lock is taken again",
        guest: &ONE,
        limit: 4,
        rows: &[
            (0, 0, &[Claim, Turn(3), Commit]),
            (0, 0, &[Enter(0), Take(0), Turn(7), Commit]),
            (1, 1, &[Claim, Turn(3), Commit]),
            (0, 0, &[Leave(0)]),
            (1, 1, &[Enter(0)]),
            (0, 0, &[SetFree(0)]),
            (1, 1, &[Take(0), Turn(7), Commit]),
            (0, 0, &[Turn(2), Commit, Finish]),
            (1, 1, &[Turn(2), Commit, Finish]),
        ],
        lines: TAKEN_AGAIN,
    },
    // A waiter is in the queue while the lock is held: its section is run by the worker that releases
    // the lock, and the rest of its thread by another one.
    Case {
        name: "a waiter is adopted",
        guest: &ONE,
        limit: 4,
        rows: &[
            (0, 0, &[Claim, Turn(3), Commit]),
            (0, 0, &[Enter(0), Take(0), Turn(4)]),
            (1, 1, &[Claim, Turn(3), Commit]),
            (1, 1, &[Enter(0), Ship(0)]),
            (0, 0, &[Turn(3), Commit]),
            (0, 1, &[Adopt(0), Turn(7), Commit, Back]),
            (0, 0, &[Turn(2), Commit, Finish]),
            (1, 1, &[Claim, Turn(2), Commit, Finish]),
        ],
        lines: ADOPTED,
    },
    // The same history by other events, those that the theorem constructs: each thread goes back after
    // each block, and the waiter enters right before it is adopted, while nobody has the lock.
    Case {
        name: "a waiter is adopted as it comes",
        guest: &ONE,
        limit: 4,
        rows: &[
            (0, 0, &[Claim, Turn(3), Commit, Back]),
            (1, 1, &[Claim, Turn(3), Commit, Back]),
            (0, 0, &[Claim, Enter(0), Take(0), Turn(7), Commit, Back]),
            (0, 1, &[Claim, Enter(0), Ship(0)]),
            (0, 1, &[Adopt(0), Turn(7), Commit, Back]),
            (0, 0, &[Claim, Turn(2), Commit, Finish]),
            (1, 1, &[Claim, Turn(2), Commit, Finish]),
        ],
        lines: ADOPTED,
    },
    // A waiter that was adopted is handed back before its first turn, and another worker runs its
    // section: the block is that worker's.
    Case {
        name: "an adopted waiter is run elsewhere",
        guest: &ONE,
        limit: 4,
        rows: &[
            (0, 0, &[Claim, Turn(3), Commit]),
            (0, 0, &[Enter(0), Take(0), Turn(4)]),
            (1, 1, &[Claim, Turn(3), Commit]),
            (1, 1, &[Enter(0), Ship(0)]),
            (0, 0, &[Turn(3), Commit]),
            (0, 1, &[Adopt(0), Back]),
            (1, 1, &[Claim, Turn(7), Commit]),
            (1, 1, &[Leave(0), SetFree(0), Turn(2), Commit, Finish]),
            (0, 0, &[Turn(2), Commit, Finish]),
        ],
        lines: RUN_ELSEWHERE,
    },
    // If no section may be adopted, the waiter is granted the lock, and the worker that claims it runs
    // its section.
    Case {
        name: "a waiter is granted the lock",
        guest: &ONE,
        limit: 0,
        rows: &[
            (0, 0, &[Claim, Turn(3), Commit]),
            (0, 0, &[Enter(0), Take(0), Turn(4)]),
            (1, 1, &[Claim, Turn(3), Commit]),
            (1, 1, &[Enter(0), Ship(0)]),
            (0, 0, &[Turn(3), Commit]),
            (0, 1, &[Grant(0)]),
            (0, 0, &[Turn(2), Commit, Finish]),
            (1, 1, &[Claim, Turn(7), Commit]),
            (1, 1, &[Leave(0), SetFree(0)]),
            (1, 1, &[Turn(2), Commit, Finish]),
        ],
        lines: GRANTED,
    },
    // A thread is parked inside its section, and goes on with it at another worker, which adopts the
    // waiter.
    Case {
        name: "a section goes on after a sleep",
        guest: &DOZE,
        limit: 4,
        rows: &[
            (0, 0, &[Claim, Turn(3), Commit]),
            (0, 0, &[Enter(0), Take(0), Turn(4), Commit, Park]),
            (1, 1, &[Claim, Turn(3), Commit]),
            (1, 1, &[Enter(0), Ship(0)]),
            (1, 0, &[Claim, Turn(3), Commit]),
            (1, 1, &[Adopt(0), Turn(7), Commit]),
            (1, 0, &[Turn(2), Commit, Finish]),
            (1, 1, &[Turn(2), Commit, Finish]),
        ],
        lines: SLEEPS,
    },
    // A thread ends with two locks: a waiter is granted the one, and the other becomes free.
    Case {
        name: "a thread ends with two locks",
        guest: &LAST,
        limit: 4,
        rows: &[
            (0, 0, &[Claim, Turn(2), Commit]),
            (0, 0, &[Enter(0), Take(0), Turn(3), Commit]),
            (0, 0, &[Enter(1), Take(1), Turn(3), Commit, Finish]),
            (1, 1, &[Claim, Turn(2), Commit]),
            (1, 1, &[Enter(0), Ship(0)]),
            (0, 1, &[Grant(0)]),
            (0, 0, &[Leave(1), SetFree(1)]),
            (1, 1, &[Claim, Turn(4), Commit]),
            (1, 1, &[Turn(2), Commit]),
            (1, 1, &[Enter(1), Take(1), Turn(4), Commit]),
            (1, 1, &[Turn(2), Commit, Finish]),
        ],
        lines: ENDS,
    },
];

const TAKEN_AGAIN: &str = "\
block 0 thread 0 turns 3 held - kind start worker 0 pc 00100000 end wants 0
block 1 thread 0 turns 7 held 0 kind taken worker 0 pc 0010000c end unlocked 0
block 2 thread 1 turns 3 held - kind start worker 1 pc 00100000 end wants 0
block 3 thread 1 turns 7 held 0 kind taken worker 1 pc 0010000c end unlocked 0
block 4 thread 0 turns 2 held - kind on worker 0 pc 00100028 end exit
block 5 thread 1 turns 2 held - kind on worker 1 pc 00100028 end exit
";

const ADOPTED: &str = "\
block 0 thread 0 turns 3 held - kind start worker 0 pc 00100000 end wants 0
block 1 thread 1 turns 3 held - kind start worker 1 pc 00100000 end wants 0
block 2 thread 0 turns 7 held 0 kind taken worker 0 pc 0010000c end unlocked 0
block 3 thread 1 turns 7 held 0 kind adopted worker 0 pc 0010000c end unlocked 0
block 4 thread 0 turns 2 held - kind on worker 0 pc 00100028 end exit
block 5 thread 1 turns 2 held - kind on worker 1 pc 00100028 end exit
";

const RUN_ELSEWHERE: &str = "\
block 0 thread 0 turns 3 held - kind start worker 0 pc 00100000 end wants 0
block 1 thread 1 turns 3 held - kind start worker 1 pc 00100000 end wants 0
block 2 thread 0 turns 7 held 0 kind taken worker 0 pc 0010000c end unlocked 0
block 3 thread 1 turns 7 held 0 kind adopted worker 1 pc 0010000c end unlocked 0
block 4 thread 1 turns 2 held - kind on worker 1 pc 00100028 end exit
block 5 thread 0 turns 2 held - kind on worker 0 pc 00100028 end exit
";

const GRANTED: &str = "\
block 0 thread 0 turns 3 held - kind start worker 0 pc 00100000 end wants 0
block 1 thread 1 turns 3 held - kind start worker 1 pc 00100000 end wants 0
block 2 thread 0 turns 7 held 0 kind taken worker 0 pc 0010000c end unlocked 0
block 3 thread 0 turns 2 held - kind on worker 0 pc 00100028 end exit
block 4 thread 1 turns 7 held 0 kind granted worker 1 pc 0010000c end unlocked 0
block 5 thread 1 turns 2 held - kind on worker 1 pc 00100028 end exit
";

const SLEEPS: &str = "\
block 0 thread 0 turns 3 held - kind start worker 0 pc 00100000 end wants 0
block 1 thread 0 turns 4 held 0 kind taken worker 0 pc 0010000c end slept
block 2 thread 1 turns 3 held - kind start worker 1 pc 00100030 end wants 0
block 3 thread 0 turns 3 held 0 kind on worker 1 pc 0010001c end unlocked 0
block 4 thread 1 turns 7 held 0 kind adopted worker 1 pc 0010003c end unlocked 0
block 5 thread 0 turns 2 held - kind on worker 1 pc 00100028 end exit
block 6 thread 1 turns 2 held - kind on worker 1 pc 00100058 end exit
";

const ENDS: &str = "\
block 0 thread 0 turns 2 held - kind start worker 0 pc 00100000 end wants 0
block 1 thread 0 turns 3 held 0 kind taken worker 0 pc 00100008 end wants 1
block 2 thread 0 turns 3 held 0,1 kind taken worker 0 pc 00100014 end exit
block 3 thread 1 turns 2 held - kind start worker 1 pc 00100020 end wants 0
block 4 thread 1 turns 4 held 0 kind granted worker 1 pc 00100028 end unlocked 0
block 5 thread 1 turns 2 held - kind on worker 1 pc 00100038 end wants 1
block 6 thread 1 turns 4 held 1 kind taken worker 1 pc 00100040 end unlocked 1
block 7 thread 1 turns 2 held - kind on worker 1 pc 00100050 end exit
";
