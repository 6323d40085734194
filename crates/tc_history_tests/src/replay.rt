//! Histories that are accepted, and the reasons for which others are rejected.

ghost use Rattle.std.specs.Prelude.{◌≡◌, ◌≤◌, Some, length};
ghost use Rattle.tc_journal.specs.History.{IsInOrder};

use std::alloc::{AllocError, Global};
use std::process::Abort;
use std::test::Fail;
use tc_build::build::{DATA_START, build};
use tc_elf::image::Image;
use tc_elf::load::load;
use tc_journal::block::Block;
use tc_journal::reading::read;
use tc_replay::Terms;
use tc_replay::checker::Checker;
use tc_replay::checking::{Verdict, check, checked};
use tc_replay::reason::Reason;
use tc_turn::status::Status;

/// A file of a lone thread without locks, as a linker could write it: `addi x17,x0,93` and `ecall`
/// at 0x00010054.
const SMALLEST: [u8; 92] = [
    0x7f, 0x45, 0x4c, 0x46, 0x01, 0x01, 0x01, 0x00, 0x00, 0x00, 0x00, 0x00, 0x00, 0x00, 0x00, 0x00,
    0x02, 0x00, 0xf3, 0x00, 0x01, 0x00, 0x00, 0x00, 0x54, 0x00, 0x01, 0x00, 0x34, 0x00, 0x00, 0x00,
    0x00, 0x00, 0x00, 0x00, 0x00, 0x00, 0x00, 0x00, 0x34, 0x00, 0x20, 0x00, 0x01, 0x00, 0x00, 0x00,
    0x00, 0x00, 0x00, 0x00, 0x01, 0x00, 0x00, 0x00, 0x54, 0x00, 0x00, 0x00, 0x54, 0x00, 0x01, 0x00,
    0x54, 0x00, 0x01, 0x00, 0x08, 0x00, 0x00, 0x00, 0x08, 0x00, 0x00, 0x00, 0x05, 0x00, 0x00, 0x00,
    0x04, 0x00, 0x00, 0x00, 0x93, 0x08, 0xd0, 0x05, 0x73, 0x00, 0x00, 0x00,
];

/// Its only history.
const EXITS: &str = "block 0 thread 0 turns 2 held - kind start worker 0 pc 00010054 end exit\n";

/// One worker, fuel 100 and batch limit 0.
const ALONE: Terms = Terms {
    workers: 1,
    fuel: 100,
    limit: 0,
};

/// The code of two threads, which have a section each with the word at 0x00020000. The first sleeps
/// in it, the second adds 1 to the word:
///
/// ```text
/// lui x5,0x20
/// addi x10,x0,0 addi x17,x0,1   ecall                     lock 0, its 4th turn
/// addi x10,x0,3 addi x17,x0,3   ecall                     sleep, its 7th turn
/// addi x10,x0,0 addi x17,x0,2   ecall                     unlock 0, its 10th turn
/// addi x17,x0,93                ecall                     exit, its 12th turn
///
/// lui x5,0x20
/// addi x10,x0,0 addi x17,x0,1   ecall                     lock 0, its 4th turn
/// lw x7,0(x5)   addi x7,x7,1    sw x7,0(x5)
/// addi x10,x0,0 addi x17,x0,2   ecall                     unlock 0, its 10th turn
/// addi x17,x0,93                ecall                     exit, its 12th turn
/// ```
const DOZE_AND_ADD: [u32; 24] = [
    0x000202b7, 0x00000513, 0x00100893, 0x00000073, 0x00300513, 0x00300893, 0x00000073, 0x00000513,
    0x00200893, 0x00000073, 0x05d00893, 0x00000073, 0x000202b7, 0x00000513, 0x00100893, 0x00000073,
    0x0002a383, 0x00138393, 0x0072a023, 0x00000513, 0x00200893, 0x00000073, 0x05d00893, 0x00000073,
];

/// The code of a thread that has two sections with one lock:
///
/// ```text
/// addi x10,x0,0   addi x17,x0,1   ecall   lock 0, its 3rd and 9th turn
/// addi x10,x0,0   addi x17,x0,2   ecall   unlock 0, its 6th and 12th turn
/// addi x17,x0,93                  ecall   exit, its 14th turn
/// ```
const TWICE: [u32; 14] = [
    0x00000513, 0x00100893, 0x00000073, 0x00000513, 0x00200893, 0x00000073, 0x00000513, 0x00100893,
    0x00000073, 0x00000513, 0x00200893, 0x00000073, 0x05d00893, 0x00000073,
];

/// Two workers, fuel 100 and batch limit 4.
const TWO: Terms = Terms {
    workers: 2,
    fuel: 100,
    limit: 4,
};

/// A run of the two threads: the second one's section is adopted by the worker that released the
/// lock.
const FIRST_WANTS: &str =
    "block 0 thread 0 turns 3 held - kind start worker 0 pc 00100000 end wants 0\n";

const FIRST_DOZES: &str =
    "block 1 thread 0 turns 4 held 0 kind taken worker 0 pc 0010000c end slept\n";

const SECOND_WANTS: &str =
    "block 2 thread 1 turns 3 held - kind start worker 1 pc 00100030 end wants 0\n";

const FIRST_UNLOCKS: &str =
    "block 3 thread 0 turns 3 held 0 kind on worker 0 pc 0010001c end unlocked 0\n";

const SECOND_ADDS: &str =
    "block 4 thread 1 turns 7 held 0 kind adopted worker 0 pc 0010003c end unlocked 0\n";

const FIRST_EXITS: &str = "block 5 thread 0 turns 2 held - kind on worker 0 pc 00100028 end exit\n";

const SECOND_EXITS: &str =
    "block 6 thread 1 turns 2 held - kind on worker 1 pc 00100058 end exit\n";

/// The whole run.
const RUN: [&str; 7] = [
    FIRST_WANTS,
    FIRST_DOZES,
    SECOND_WANTS,
    FIRST_UNLOCKS,
    SECOND_ADDS,
    FIRST_EXITS,
    SECOND_EXITS,
];

/// The second thread takes the lock while the first one holds it, asleep.
const TAKES_TOO_EARLY: &str =
    "block 3 thread 1 turns 7 held 0 kind taken worker 1 pc 0010003c end unlocked 0\n";

/// The first thread's section goes on without its lock.
const HOLDS_NOTHING: &str =
    "block 3 thread 0 turns 3 held - kind on worker 0 pc 0010001c end unlocked 0\n";

/// Another worker than the one that released the lock adopts.
const ADOPTED_ELSEWHERE: &str =
    "block 4 thread 1 turns 7 held 0 kind adopted worker 1 pc 0010003c end unlocked 0\n";

/// The lock is granted although the worker that released it has to adopt.
const GRANTED: &str =
    "block 4 thread 1 turns 7 held 0 kind granted worker 0 pc 0010003c end unlocked 0\n";

/// The first thread exits once more.
const EXITS_AGAIN: &str = "block 6 thread 0 turns 2 held - kind on worker 0 pc 00100030 end exit\n";

/// A run of the thread with two sections, where it adopts its own second one.
const OWN: &str = "\
block 0 thread 0 turns 2 held - kind start worker 0 pc 00100000 end wants 0
block 1 thread 0 turns 4 held 0 kind taken worker 0 pc 00100008 end unlocked 0
block 2 thread 0 turns 2 held - kind on worker 0 pc 00100018 end wants 0
block 3 thread 0 turns 4 held 0 kind adopted worker 0 pc 00100020 end unlocked 0
block 4 thread 0 turns 2 held - kind on worker 0 pc 00100030 end exit
";

/// A history of a guest, its last lines apart, and at which line it is rejected and why, if it is.
type Case<'a> = (&'a [&'a str], &'a str, Option<(u64, Reason)>);

/// The lines of a history in one text.
fn joined(alloc: Global, case: &Case<'_>) -> Result<String, AllocError> {
    let (front, last, _) = *case;
    let mut text = String::new(alloc);
    for line in front {
        text.push_str(line)?;
    }
    text.push_str(last)?;
    Ok(text)
}

/// The image of threads with this code, and with a guard of one zero word.
fn image_of(alloc: Global, code: &[u32], entries: &[(u32, u32)]) -> Result<Image, Fail>
    requires code { length code.now ≤ 24 }
    requires entries { (1 ≤ length entries.now) × (length entries.now ≤ 2) }
{
    let file = build(alloc, code, entries, &[0; 4], &[(DATA_START, 4)])?;
    Ok(load(alloc, &file)?)
}

/// At which line a case's history is rejected, and why, if it is.
fn found(
    alloc: Global,
    image: &Image,
    terms: Terms,
    case: &Case<'_>,
) -> Result<Option<(u64, Reason)>, Fail> {
    let text = joined(alloc, case)?;
    let history = read(alloc, text.as_bytes())?;
    let found = check(alloc, image, terms, &history)?;
    Ok(found.map(|r| (r.line, r.reason)))
}

/// Checks that each of these histories is found to be what its case says.
fn check_cases(alloc: Global, image: &Image, terms: Terms, cases: &[Case<'_>]) -> Result<(), Fail> {
    for (number, case) in cases.iter().enumerate() {
        if found(alloc, image, terms, case)? != case.2 {
            return Err(Fail::new(format_args!("case {number}")));
        }
    }
    Ok(())
}

/// Histories of the lone thread: the right one, and one for each reason.
static CASES_OF_ONE: [Case<'static>; 6] = [
    (&[], EXITS, None),
    (
        &[],
        "block 0 thread 0 turns 1 held - kind start worker 0 pc 00010054 end exit\n",
        Some((1, Reason::Block)),
    ),
    (
        &[],
        "block 0 thread 0 turns 2 held - kind on worker 0 pc 00010054 end exit\n",
        Some((1, Reason::Kind)),
    ),
    (
        &[],
        "block 0 thread 0 turns 2 held - kind start worker 1 pc 00010054 end exit\n",
        Some((1, Reason::Worker)),
    ),
    (
        &[],
        "block 0 thread 1 turns 2 held - kind start worker 0 pc 00010054 end exit\n",
        Some((1, Reason::Thread)),
    ),
    (&[], "", Some((1, Reason::Incomplete))),
];

#[test]
fn a_lone_thread_is_rejected_for_each_reason(rt: HostRuntime) -> Result<(), Fail> {
    let image = load(rt.alloc(), &SMALLEST)?;
    check_cases(rt.alloc(), &image, ALONE, &CASES_OF_ONE)
}

/// The run of the two threads, and where it goes wrong.
fn cases_of_two<'a>(run: &'a [&'a str; 7]) -> [Case<'a>; 7] {
    [
        (run.as_slice(), "", None),
        (&run[..3], TAKES_TOO_EARLY, Some((4, Reason::Owner))),
        (&run[..3], HOLDS_NOTHING, Some((4, Reason::Block))),
        (&run[..4], ADOPTED_ELSEWHERE, Some((5, Reason::Kind))),
        (&run[..4], GRANTED, Some((5, Reason::Kind))),
        (&run[..6], EXITS_AGAIN, Some((7, Reason::Thread))),
        (&run[..6], "", Some((7, Reason::Incomplete))),
    ]
}

#[test]
fn two_threads_are_rejected_where_they_go_wrong(rt: HostRuntime) -> Result<(), Fail> {
    let entries = [(0x0010_0000, 0), (0x0010_0030, 0)];
    let image = image_of(rt.alloc(), &DOZE_AND_ADD, &entries)?;
    check_cases(rt.alloc(), &image, TWO, &cases_of_two(&RUN))
}

/// It may where the batch limit is 4, and not where it is 0.
const ADOPTS: Case<'static> = (&[], OWN, None);

const MAY_NOT_ADOPT: Case<'static> = (&[], OWN, Some((4, Reason::Kind)));

#[test]
fn a_thread_may_adopt_its_own_section(rt: HostRuntime) -> Result<(), Fail> {
    let image = image_of(rt.alloc(), &TWICE, &[(0x0010_0000, 0)])?;
    check_cases(rt.alloc(), &image, TWO, &[ADOPTS])?;
    check_cases(rt.alloc(), &image, ALONE, &[MAY_NOT_ADOPT])
}

/// The only history of the lone thread is accepted, and leaves its package.
fn check_left<R: Abort>(
    rt: &R,
    alloc: Global,
    image: &Image,
    history: &[Block],
) -> Result<(), AllocError>
    requires { IsInOrder history.now }
{
    let Verdict::Accepted(checker) = checked(alloc, image, ALONE, history)? else {
        panic!(rt; "it is the only history")
    };
    assert!(rt; checker.unfinished().is_none());
    let (packages, states) = checker.parts();
    assert!(rt; packages.len() == 1 && states.is_empty());
    assert!(rt; packages[0].status() == Status::Exited && packages[0].fuel() == 98);
    assert!(rt; packages[0].log() == history);
    Ok(())
}

#[test]
fn what_an_accepted_history_leaves_is_given_away(rt: HostRuntime) -> Result<(), Fail> {
    let image = load(rt.alloc(), &SMALLEST)?;
    let history = read(rt.alloc(), EXITS.as_bytes())?;
    check_left(&rt, rt.alloc(), &image, &history)?;
    Ok(())
}

/// The first thread that has not ended where no block was taken.
fn first_unfinished(alloc: Global, image: &Image) -> Result<Option<u32>, AllocError> {
    Ok(Checker::new(alloc, image, ALONE)?.unfinished())
}

#[test]
fn a_new_checker_has_no_thread_that_ended(rt: HostRuntime) -> Result<(), Fail> {
    let image = load(rt.alloc(), &SMALLEST)?;
    assert!(rt; first_unfinished(rt.alloc(), &image)? == Some(0));
    Ok(())
}
