//! Whole runs, by one worker alone and by several in parallel.

ghost use Rattle.std.specs.Prelude.{◌≤◌, length};
ghost use Rattle.tc_elf.specs.declared.limits.TheConstants.{MAX_FILE};
ghost use Rattle.tc_isa.specs.declared.limits.TheConstants.{MAX_WORKERS};

use crossbeam_utils::atomic::AtomicCell;
use std::alloc::Global;
use std::process::Abort;
use std::sync::Wait;
use std::test::Fail;
use std::thread::Threads;
use tc_build::build::build;
use tc_context::package::Package;
use tc_elf::load::load;
use tc_hall::closed::Closed;
use tc_turn::status::Status;
use tc_workers::{Gate, Open, Options, Point, run_all};

/// A hundred sections, in each of which 1 is added to the guard's word.
const COUNT: [u32; 15] = [
    0x000202b7, 0x06400313, 0x00000513, 0x00100893, 0x00000073, 0x0002a383, 0x00138393, 0x0072a023,
    0x00000513, 0x00200893, 0x00000073, 0xfff30313, 0xfc031ce3, 0x05d00893, 0x00000073,
];

/// A sleep for the most blocks that a thread can sleep, and an exit.
const LONG_SLEEP: [u32; 5] = [0x0ff00513, 0x00300893, 0x00000073, 0x05d00893, 0x00000073];

/// A sleep, again and again.
const SLEEPS: [u32; 4] = [0x00000513, 0x00300893, 0x00000073, 0xffdff06f];

/// An observer that counts the blocks that workers commit.
#[derive(Drop)]
struct Counting {
    committed: AtomicCell<u32>,
}

impl Gate for Counting {
    fn at(&self, _worker: u32, point: Point) {
        if let Point::Committed(_, _) = point {
            self.committed.fetch_add(1);
        }
    }
}

/// What a run of a file's threads leaves.
fn closed_of<R: Threads + Wait + Sync, G: Gate>(
    rt: &R,
    alloc: Global,
    file: &[u8],
    options: Options,
    gate: &G,
) -> Result<Closed, Fail>
    requires { length file.now ≤ MAX_FILE }
{
    let image = load(alloc, file)?;
    Ok(run_all(rt, alloc, &image, options, gate)?)
}

/// What holds at the end of a thread of COUNT.
fn has_counted(package: &Package) -> bool {
    package.status() == Status::Exited && package.fuel() == 896 && package.log().len() == 201
}

/// Checks what holds at the end of every run of two threads of COUNT, and that the workers
/// committed its blocks.
fn check_count<R: Abort>(rt: &R, closed: &Closed, committed: u32) {
    let packages = closed.packages();
    assert!(rt; committed == 402 && packages.len() == 2 && closed.locks().len() == 1);
    assert!(rt; has_counted(&packages[0]) && has_counted(&packages[1]));
    let lock = &closed.locks()[0];
    assert!(rt; lock.sections() == 200 && !lock.broken());
    assert!(rt; lock.bytes() == [0xc8, 0, 0, 0].as_slice());
}

/// Runs two threads of COUNT by so many workers.
fn count<R: Abort + Threads + Wait + Sync>(
    rt: &R,
    alloc: Global,
    workers: u32,
    limit: u32,
) -> Result<(), Fail>
    requires { (1 ≤ workers) × (workers ≤ MAX_WORKERS) × (limit ≤ 256) }
{
    let entries = [(0x00100000, 0), (0x00100000, 0)];
    let file = build(alloc, &COUNT, &entries, &[0; 4], &[(0x00020000, 4)])?;
    let options = Options {
        workers,
        fuel: 2_000,
        limit,
    };
    let gate = Counting {
        committed: AtomicCell::new(0),
    };
    let closed = closed_of(rt, alloc, &file, options, &gate)?;
    check_count(rt, &closed, gate.committed.load());
    Ok(())
}

#[test]
fn workers_finish_alone_and_beside_one_another(rt: HostRuntime) -> Result<(), Fail> {
    for workers in 1..9 {
        count(&rt, rt.alloc(), workers, 8)?;
    }
    for limit in 0..5 {
        count(&rt, rt.alloc(), 3, limit)?;
    }
    Ok(())
}

/// Memory does not run out after a long sleep: the thread goes on, and the run ends well.
#[test]
fn a_long_sleep_ends(rt: HostRuntime) -> Result<(), Fail> {
    let entries = [(0x00100000, 0), (0x00100000, 0)];
    let file = build(rt.alloc(), &LONG_SLEEP, &entries, &[], &[])?;
    let options = Options {
        workers: 1,
        fuel: 100,
        limit: 0,
    };
    let closed = closed_of(&rt, rt.alloc(), &file, options, &Open)?;
    let packages = closed.packages();
    assert!(rt; packages.len() == 2);
    assert!(rt; packages[0].status() == Status::Exited && packages[1].status() == Status::Exited);
    Ok(())
}

/// Runs eight threads of SLEEPS by so many workers: a block of three steps, some of two, and one
/// that has no fuel.
fn sleep_out<R: Abort + Threads + Wait + Sync>(
    rt: &R,
    alloc: Global,
    workers: u32,
) -> Result<(), Fail>
    requires { (1 ≤ workers) × (workers ≤ MAX_WORKERS) }
{
    let file = build(alloc, &SLEEPS, &[(0x00100000, 0); 8], &[], &[])?;
    let options = Options {
        workers,
        fuel: 8_191,
        limit: 8,
    };
    let closed = closed_of(rt, alloc, &file, options, &Open)?;
    assert!(rt; closed.packages().len() == 8);
    for package in closed.packages() {
        assert!(rt; package.status() == Status::SpentFuel && package.log().len() == 4_096);
    }
    Ok(())
}

/// Workers back off (take recesses) while they find only threads that have slept, and finish them.
#[test]
fn workers_finish_threads_that_only_sleep(rt: HostRuntime) -> Result<(), Fail> {
    for workers in 1..9 {
        sleep_out(&rt, rt.alloc(), workers)?;
    }
    Ok(())
}
