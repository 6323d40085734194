//! `report` of the hall that a whole run leaves, and the numbers of the statuses.

ghost use Rattle.std.specs.Prelude.{◌≤◌, length};

use std::alloc::Global;
use std::sync::Wait;
use std::test::Fail;
use std::thread::Threads;
use tc_build::build::build;
use tc_elf::limits::MAX_FILE;
use tc_elf::load::load;
use tc_isa::options::Options;
use tc_main::own::run_values;
use tc_main::status::{Status, exit_of};
use tc_replay::reason::{Reason, Rejected};
use tc_report::report::report;
use tc_seats::ByEntry;
use tc_workers::gate::Open;

/// A history that ends before its first block.
const REJECTED: Rejected = Rejected {
    line: 1,
    reason: Reason::Incomplete,
};

/// A lone thread that exits: `addi x17,x0,93` and `ecall`.
const EXIT: [u32; 2] = [0x05d0_0893, 0x0000_0073];

/// A lone thread that adds 1 to the guard's word inside one section, and exits.
const ONE: [u32; 12] = [
    0x0002_02b7,
    0x0000_0513,
    0x0010_0893,
    0x0000_0073,
    0x0002_a383,
    0x0013_8393,
    0x0072_a023,
    0x0000_0513,
    0x0020_0893,
    0x0000_0073,
    0x05d0_0893,
    0x0000_0073,
];

/// The report of the first by one worker, with fuel 100 and batch limit 0.
const EXIT_REPORT: &str = "\
tclocks 2
guest threads 1 guards 0
run workers 1 fuel 100 batch 0
block 0 thread 0 turns 2 held - kind start worker 0 pc 00100000 end exit
thread 0 exit fuel 98 pc 00100004
x0 00000000 00000000 80000000 00000000 00000000 00000000 00000000 00000000
x8 00000000 00000000 00000000 00000000 00000000 00000000 00000000 00000000
x16 00000000 0000005d 00000000 00000000 00000000 00000000 00000000 00000000
x24 00000000 00000000 00000000 00000000 00000000 00000000 00000000 00000000
end
";

/// The report of the second by one worker, with fuel 100 and batch limit 4.
const ONE_REPORT: &str = "\
tclocks 2
guest threads 1 guards 1
run workers 1 fuel 100 batch 4
block 0 thread 0 turns 3 held - kind start worker 0 pc 00100000 end wants 0
block 1 thread 0 turns 7 held 0 kind taken worker 0 pc 0010000c end unlocked 0
block 2 thread 0 turns 2 held - kind on worker 0 pc 00100028 end exit
thread 0 exit fuel 88 pc 0010002c
x0 00000000 00000000 80000000 00000000 00000000 00020000 00000000 00000001
x8 00000000 00000000 00000000 00000000 00000000 00000000 00000000 00000000
x16 00000000 0000005d 00000000 00000000 00000000 00000000 00000000 00000000
x24 00000000 00000000 00000000 00000000 00000000 00000000 00000000 00000000
lock 0 sections 1 broken 0 bytes 4
data 00020000 01000000
end
";

/// The report of what a whole run by one worker leaves, of a guest of one thread with a guard of one
/// word for each lock.
fn report_of<R: Threads + Wait + Sync>(
    rt: &R,
    alloc: Global,
    code: &[u32],
    guards: &[(u32, u32)],
    limit: u32,
) -> Result<Vec<u8>, Fail>
    requires code { length code.now ≤ 12 }
    requires guards { length guards.now ≤ 1 }
    requires limit { limit ≤ 256 }
{
    let file = build(alloc, code, &[(0x0010_0000, 0)], &[0; 4], guards)?;
    let image = load(alloc, &file)?;
    let options = Options {
        workers: 1,
        fuel: 100,
        limit,
    };
    let run = run_values(rt, alloc, &image, options, &ByEntry, &Open)?;
    Ok(report(
        alloc,
        &image,
        options,
        &run.history,
        run.closed.packages(),
        run.closed.locks(),
    )?)
}

#[test]
fn the_report_of_a_whole_run_is_its_text(rt: HostRuntime) -> Result<(), Fail> {
    let text = report_of(&rt, rt.alloc(), &EXIT, &[], 0)?;
    assert!(rt; text.as_slice() == EXIT_REPORT.as_bytes());
    let text = report_of(&rt, rt.alloc(), &ONE, &[(0x0002_0000, 4)], 4)?;
    assert!(rt; text.as_slice() == ONE_REPORT.as_bytes());
    Ok(())
}

#[test]
fn each_status_has_its_number(rt: HostRuntime) {
    for (status, number) in [
        (Status::Done, 0),
        (Status::Usage, 1),
        (Status::ReadFault, 2),
        (Status::Refused(0), 3),
        (Status::Refused(14), 3),
        (Status::Refused(17), 3),
        (Status::WriteFault, 4),
        (Status::OutOfMemory, 5),
        (Status::Rejected(REJECTED), 6),
    ] {
        assert!(rt; status.number() == number, "{status:?}");
        assert!(rt; u32::from(exit_of(status)) == number, "{status:?}");
    }
}
