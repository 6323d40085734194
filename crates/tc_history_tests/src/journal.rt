ghost use Rattle.std.specs.Prelude.{◌≡◌};

use std::alloc::{AllocError, Global};
use std::test::Fail;
use tc_isa::fault::Fault;
use tc_isa::held::Held;
use tc_journal::batch::{may_adopt, may_begin, passes_to, run_after};
use tc_journal::block::{Block, BlockV1, End, Kind};
use tc_journal::history::{merge, text};
use tc_journal::reading::{BadText, read, read_v1};
use tc_journal::rule::{Outcome, end_of};

/// The history of two threads that each take one lock once.
fn two_threads() -> [Block; 6] {
    let none = Held::none();
    let lock = none.plus(0);
    let end = End::Unlocked(0);
    [
        block(0, 0, 3, none, Kind::Start, 0, 0x0010_0000, End::Wants(0)),
        block(1, 0, 7, lock, Kind::Taken, 0, 0x0010_000c, end),
        block(2, 1, 3, none, Kind::Start, 1, 0x0010_0000, End::Wants(0)),
        block(3, 1, 7, lock, Kind::Adopted, 0, 0x0010_000c, end),
        block(4, 0, 2, none, Kind::On, 0, 0x0010_0028, End::Exit),
        block(5, 1, 2, none, Kind::On, 1, 0x0010_0028, End::Exit),
    ]
}

fn block(
    stamp: u64,
    thread: u32,
    turns: u32,
    held: Held,
    kind: Kind,
    worker: u32,
    pc: u32,
    end: End,
) -> Block
    ensures { result.stamp ≡ stamp }
{
    Block {
        stamp,
        thread,
        turns,
        held,
        kind,
        worker,
        pc,
        end,
    }
}

const TWO_THREADS: &str = "\
block 0 thread 0 turns 3 held - kind start worker 0 pc 00100000 end wants 0
block 1 thread 0 turns 7 held 0 kind taken worker 0 pc 0010000c end unlocked 0
block 2 thread 1 turns 3 held - kind start worker 1 pc 00100000 end wants 0
block 3 thread 1 turns 7 held 0 kind adopted worker 0 pc 0010000c end unlocked 0
block 4 thread 0 turns 2 held - kind on worker 0 pc 00100028 end exit
block 5 thread 1 turns 2 held - kind on worker 1 pc 00100028 end exit
";

/// Whether a history has this text.
fn is_printed(alloc: Global, history: &[Block], wanted: &[u8]) -> Result<bool, AllocError> {
    let printed = text(alloc, history)?;
    Ok(printed.as_slice() == wanted)
}

/// Whether a text is read as this history.
fn is_read(alloc: Global, text: &[u8], wanted: &[Block]) -> bool {
    match &read(alloc, text) {
        Ok(blocks) => blocks.as_slice() == wanted,
        Err(_) => false,
    }
}

#[test]
fn a_history_is_printed_and_read_back(rt: HostRuntime) -> Result<(), Fail> {
    let history = two_threads();
    assert!(rt; is_printed(rt.alloc(), &history, TWO_THREADS.as_bytes())?);
    assert!(rt; is_read(rt.alloc(), TWO_THREADS.as_bytes(), &history));
    Ok(())
}

#[test]
fn logs_are_merged_by_their_stamps(rt: HostRuntime) -> Result<(), Fail> {
    let none = Held::none();
    let zero = block(0, 1, 1, none, Kind::Start, 0, 0, End::Slept);
    let one = block(1, 0, 2, none, Kind::Start, 1, 0, End::Exit);
    let two = block(2, 1, 3, none, Kind::On, 0, 4, End::Exit);
    let mut logs = Vec::new(rt.alloc());
    logs.push(Vec::from_slice(rt.alloc(), &[zero, two])?)?;
    logs.push(Vec::from_slice(rt.alloc(), &[one])?)?;
    let history = merge(rt.alloc(), &logs)?;
    assert!(rt; history.as_slice() == [zero, one, two].as_slice());
    Ok(())
}

/// How a turn came out, the number of the block's turns, the lock that is wanted next, and the end.
type Ended = (Outcome, u32, Option<u32>, Option<End>);

static ENDS: [Ended; 10] = [
    (Outcome::Went, 1, None, None),
    (Outcome::Went, 4095, None, None),
    (Outcome::Went, 4096, None, Some(End::Cut)),
    (Outcome::Went, 4096, Some(3), Some(End::Wants(3))),
    (Outcome::Went, 1, Some(0), Some(End::Wants(0))),
    (Outcome::Unlocked(2), 4096, Some(3), Some(End::Unlocked(2))),
    (Outcome::Slept, 4096, Some(3), Some(End::Slept)),
    (Outcome::Exited, 4096, None, Some(End::Exit)),
    (Outcome::Spent, 4096, None, Some(End::Spent)),
    (
        Outcome::Faulted(Fault::Break),
        4096,
        None,
        Some(End::Fault(Fault::Break)),
    ),
];

#[test]
fn blocks_end_by_the_first_rule_that_holds(rt: HostRuntime) {
    for (i, (outcome, turns, next, end)) in ENDS.iter().enumerate() {
        assert!(rt; end_of(*outcome, *turns, *next) == *end, "row {i}");
    }
}

/// Each kind and each end.
const EACH: &str = "\
block 0 thread 4294967295 turns 4096 held 0,1,9,10,31 kind granted worker 4294967295 pc ffffffff end cut
block 1 thread 15 turns 1 held 31 kind adopted worker 7 pc 00000000 end wants 31
block 2 thread 2 turns 10 held - kind taken worker 0 pc 00100004 end unlocked 10
block 3 thread 0 turns 4095 held 2,3,5,7,11,13,17,19 kind start worker 1 pc 0123abcd end slept
block 4 thread 0 turns 99 held - kind on worker 1 pc 89ef4567 end fault 1
block 5 thread 0 turns 100 held - kind on worker 1 pc 0a0b0c0d end fault 12
block 6 thread 0 turns 1000 held - kind on worker 1 pc 00f0e0d0 end spent
";

/// Whether a text is printed again as it was read, and its last block is this one.
fn comes_back(alloc: Global, lines: &str, last: &Block) -> Result<bool, Fail> {
    let blocks = read(alloc, lines.as_bytes())?;
    let same = is_printed(alloc, &blocks, lines.as_bytes())?;
    Ok(same && blocks.last() == Some(last))
}

#[test]
fn each_kind_and_each_end_is_read_back(rt: HostRuntime) -> Result<(), Fail> {
    let none = Held::none();
    let last = block(6, 0, 1000, none, Kind::On, 1, 0x00f0_e0d0, End::Spent);
    assert!(rt; comes_back(rt.alloc(), EACH, &last)?);
    Ok(())
}

/// Texts of one line that is right.
const RIGHT: [&str; 9] = [
    "block 0 thread 0 turns 2 held - kind start worker 0 pc 00100004 end exit\n",
    "block 0 thread 4294967295 turns 2 held - kind start worker 0 pc 00100004 end exit\n",
    "block 0 thread 0 turns 1 held - kind start worker 0 pc 00100004 end exit\n",
    "block 0 thread 0 turns 4096 held - kind start worker 0 pc 00100004 end exit\n",
    "block 0 thread 0 turns 2 held 31 kind start worker 0 pc 00100004 end exit\n",
    "block 0 thread 0 turns 2 held 0,1,2,3,4,5 kind start worker 0 pc 00100004 end exit\n",
    "block 0 thread 0 turns 2 held - kind start worker 4294967295 pc 00100004 end exit\n",
    "block 0 thread 0 turns 2 held - kind start worker 0 pc 00100004 end wants 31\n",
    "block 0 thread 0 turns 2 held - kind start worker 0 pc 00100004 end fault 12\n",
];

/// Texts whose first line is wrong.
const WRONG: [&str; 36] = [
    // Other spaces, ends of line or letters than a block's.
    "\n",
    "block 0 thread 0 turns 2 held - kind start worker 0 pc 00100004 end exit",
    "block 0 thread 0 turns 2 held - kind start worker 0 pc 00100004 end exit\r\n",
    "block 0 thread 0 turns 2 held - kind start worker 0 pc 00100004 end exit \n",
    " block 0 thread 0 turns 2 held - kind start worker 0 pc 00100004 end exit\n",
    "block 0 thread 0  turns 2 held - kind start worker 0 pc 00100004 end exit\n",
    // A number that is spelled otherwise, out of range or not the stamp.
    "block 1 thread 0 turns 2 held - kind start worker 0 pc 00100004 end exit\n",
    "block 00 thread 0 turns 2 held - kind start worker 0 pc 00100004 end exit\n",
    "block +0 thread 0 turns 2 held - kind start worker 0 pc 00100004 end exit\n",
    "block 18446744073709551616 thread 0 turns 2 held - kind on worker 0 pc 00100004 end exit\n",
    "block 0 thread 01 turns 2 held - kind start worker 0 pc 00100004 end exit\n",
    "block 0 thread 4294967296 turns 2 held - kind start worker 0 pc 00100004 end exit\n",
    "block 0 thread 0 turns 0 held - kind start worker 0 pc 00100004 end exit\n",
    "block 0 thread 0 turns 4097 held - kind start worker 0 pc 00100004 end exit\n",
    "block 0 thread 0 turns 2 held - kind start worker 4294967296 pc 00100004 end exit\n",
    // No pc, or one that is spelled otherwise.
    "block 0 thread 0 turns 2 held - kind start worker 0 end exit\n",
    "block 0 thread 0 turns 2 held - kind start worker 0 pc 0010004 end exit\n",
    "block 0 thread 0 turns 2 held - kind start worker 0 pc 000100004 end exit\n",
    "block 0 thread 0 turns 2 held - kind start worker 0 pc 0010000A end exit\n",
    "block 0 thread 0 turns 2 held - kind start worker 0 pc 0010000g end exit\n",
    "block 0 thread 0 turns 2 held - kind start worker 0 pc end exit\n",
    "block 0 thread 0 turns 2 held - kind start pc 00100004 worker 0 end exit\n",
    // Held locks that are none, or are not in ascending order.
    "block 0 thread 0 turns 2 held 32 kind start worker 0 pc 00100004 end exit\n",
    "block 0 thread 0 turns 2 held 1,0 kind start worker 0 pc 00100004 end exit\n",
    "block 0 thread 0 turns 2 held 1,1 kind start worker 0 pc 00100004 end exit\n",
    "block 0 thread 0 turns 2 held 0,1, kind start worker 0 pc 00100004 end exit\n",
    "block 0 thread 0 turns 2 held  kind start worker 0 pc 00100004 end exit\n",
    // A word, a kind or an end that is none.
    "Block 0 thread 0 turns 2 held - kind start worker 0 pc 00100004 end exit\n",
    "block 0 thread 0 turns 2 held - kind lent worker 0 pc 00100004 end exit\n",
    "block 0 thread 0 turns 2 held - kind start worker 0 pc 00100004 end wants 32\n",
    "block 0 thread 0 turns 2 held - kind start worker 0 pc 00100004 end unlocked 32\n",
    "block 0 thread 0 turns 2 held - kind start worker 0 pc 00100004 end wants\n",
    "block 0 thread 0 turns 2 held - kind start worker 0 pc 00100004 end fault 0\n",
    "block 0 thread 0 turns 2 held - kind start worker 0 pc 00100004 end fault 13\n",
    "block 0 thread 0 turns 2 held - kind start worker 0 pc 00100004 end exit 0\n",
    "block 0 thread 0 turns 2 held - kind start worker 0 pc 00100004 end done\n",
];

/// How many blocks a text has, if it is right.
fn count_of(alloc: Global, text: &str) -> Option<usize> {
    let blocks = read(alloc, text.as_bytes()).ok()?;
    Some(blocks.len())
}

#[test]
fn one_right_line_is_read(rt: HostRuntime) {
    for line in &RIGHT {
        assert!(rt; count_of(rt.alloc(), line) == Some(1), "{line}");
    }
    assert!(rt; count_of(rt.alloc(), "") == Some(0));
}

/// Whether this line of a text is named as its first wrong one.
fn is_wrong(alloc: Global, text: &str, line: u64) -> bool {
    read(alloc, text.as_bytes()).err() == Some(BadText::Line(line))
}

#[test]
fn a_wrong_first_line_is_named(rt: HostRuntime) {
    for line in &WRONG {
        assert!(rt; is_wrong(rt.alloc(), line, 1), "{line}");
    }
}

#[test]
fn a_wrong_second_line_is_named(rt: HostRuntime) -> Result<(), Fail> {
    let empty = "block 0 thread 0 turns 2 held - kind start worker 0 pc 00100004 end exit\n\n";
    assert!(rt; is_wrong(rt.alloc(), empty, 2));
    let wrong = TWO_THREADS.replace(rt.alloc(), "block 1 ", "block 2 ")?;
    assert!(rt; is_wrong(rt.alloc(), &wrong, 2));
    Ok(())
}

/// The line of a block before lines had a pc.
const OLD_LINE: &str = "block 0 thread 0 turns 2 held - kind start worker 0 end exit\n";

/// An old text is read by its own reading alone.
#[test]
fn an_old_text_is_read(rt: HostRuntime) -> Result<(), Fail> {
    let old = BlockV1 {
        stamp: 0,
        thread: 0,
        turns: 2,
        held: Held::none(),
        kind: Kind::Start,
        worker: 0,
        end: End::Exit,
    };
    let blocks = read_v1(rt.alloc(), OLD_LINE.as_bytes())?;
    assert!(rt; blocks.as_slice() == [old].as_slice());
    Ok(())
}

/// Whether the reading of old texts names this line of a text as its first wrong one.
fn is_wrong_old(alloc: Global, text: &str, line: u64) -> bool {
    read_v1(alloc, text.as_bytes()).err() == Some(BadText::Line(line))
}

/// Old texts whose second line is wrong.
const OLD_WRONG: [&str; 2] = [
    "block 0 thread 0 turns 2 held - kind start worker 0 end exit\n\n",
    "\
block 0 thread 0 turns 2 held - kind start worker 0 end exit
block 0 thread 0 turns 2 held - kind start worker 0 end exit
",
];

#[test]
fn a_wrong_line_of_an_old_text_is_named(rt: HostRuntime) {
    for text in OLD_WRONG {
        assert!(rt; is_wrong_old(rt.alloc(), text, 2), "{text}");
    }
    assert!(rt; is_wrong_old(rt.alloc(), TWO_THREADS, 1));
}

/// The last block of an adopted section of lock 3, of thread 1 and worker 2.
fn released() -> Block {
    let held = Held::none().plus(3);
    block(4, 1, 9, held, Kind::Adopted, 2, 0, End::Unlocked(3))
}

#[test]
fn a_block_with_its_lock_alone_is_a_section(rt: HostRuntime) {
    let last = released();
    assert!(rt; last.begins(3) && last.takes() == Some(3) && run_after(3, 0, &last) == 1);
    assert!(rt; last.ends_section(3) && !last.ends_section(4));
}

/// The streak, the kind and the worker of a block behind the released one, and whether it may begin.
static AFTER: [(u32, Kind, u32, bool); 7] = [
    (1, Kind::Adopted, 2, true),
    (1, Kind::Adopted, 0, false),
    (1, Kind::Granted, 0, false),
    (1, Kind::Taken, 0, true),
    (2, Kind::Adopted, 2, false),
    (2, Kind::Granted, 0, true),
    (2, Kind::On, 2, false),
];

/// A guest's lock 3 is released; then a waiter may be adopted by the same worker alone, or, where
/// the streak is at the limit, granted to each.
#[test]
fn a_section_follows_by_the_batch_rule(rt: HostRuntime) {
    let last = released();
    for (i, (run, kind, worker, may)) in AFTER.iter().enumerate() {
        let adopts = may_adopt(&last, 3, *run, 2) == (*run < 2);
        let begins = may_begin(3, 2, Some(last), *run, *kind, *worker) == *may;
        assert!(rt; adopts && begins, "row {i}");
    }
    let taken = may_begin(3, 2, None, 0, Kind::Taken, 0);
    assert!(rt; taken && !may_begin(3, 2, None, 0, Kind::Granted, 0));
}

#[test]
fn a_thread_takes_a_lock_again_and_is_not_adopted_after_itself(rt: HostRuntime) {
    let last = Some(released());
    assert!(rt; passes_to(last, Kind::Taken, 1));
    assert!(rt; passes_to(last, Kind::Adopted, 0) && !passes_to(last, Kind::Adopted, 1));
}
