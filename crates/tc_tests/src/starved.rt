//! Runs that run out of memory in the middle. An observer allocates all memory, in pieces to which
//! nobody writes, so that the host has to provide almost none of it.

use crate::ran::run_at;
use guest_code::file::{built, plain};
use std::alloc::{AllocError, Global};
use std::process::Abort;
use std::sync::atomic::{AtomicU32, Ordering};
use std::sync::{Mutex, Wait};
use std::test::Fail;
use std::thread::Threads;
use tc_main::gate::{Gate, Point};
use tc_main::status::Status;

/// After so many blocks nothing is left. Whatever grows to more than LEAST bytes then runs out of memory.
const PLENTY: u32 = 8_000;

/// How large the pieces are, the largest first: powers of 2 from 2^46 on, and each of those near to the
/// memory that a host has. A host gives no piece that is larger than all of its memory.
const SIZES: [usize; 14] = [
    0x4000_0000_0000,
    0x0200_0000_0000,
    0x0010_0000_0000,
    0x0008_0000_0000,
    0x0004_0000_0000,
    0x0002_0000_0000,
    0x0001_0000_0000,
    0x8000_0000,
    0x4000_0000,
    0x0400_0000,
    0x0040_0000,
    0x0020_0000,
    0x0008_0000,
    LEAST,
];

/// How large the least pieces are.
const LEAST: usize = 0x0004_0000;

/// For how many pieces there is room.
const MOST_PIECES: usize = 200_000;

/// Allocates all memory after so many blocks, and goes on to allocate what is freed.
#[derive(Drop)]
struct Hungry<'a, R: Wait + Sync> {
    rt: &'a R,
    alloc: Global,
    blocks: AtomicU32,
    pieces: Mutex<Vec<Vec<u8>>>,
}

/// Allocates pieces of this size until none is left.
fn take_pieces(alloc: Global, pieces: &mut Vec<Vec<u8>>, size: usize) {
    for _ in pieces.len()..MOST_PIECES {
        let Ok(piece) = Vec::with_capacity(alloc, size) else {
            return;
        };
        if pieces.push(piece).is_err() {
            return;
        }
    }
}

/// Allocates pieces of all sizes.
fn take_all(alloc: Global, pieces: &mut Vec<Vec<u8>>) {
    for size in &SIZES {
        take_pieces(alloc, pieces, *size);
    }
}

impl<R: Wait + Sync> Gate for Hungry<'_, R> {
    fn at(&self, _worker: u32, point: Point) {
        let Point::Committed(_, _) = point else {
            return;
        };
        let blocks = self.blocks.fetch_add(1, Ordering::SeqCst);
        if blocks < PLENTY {
            return;
        }
        let mut pieces = self.pieces.lock(self.rt);
        if blocks == PLENTY {
            take_all(self.alloc, &mut pieces);
        } else {
            take_pieces(self.alloc, &mut pieces, LEAST);
        }
    }
}

impl<'a, R: Wait + Sync> Hungry<'a, R> {
    fn new(rt: &'a R, alloc: Global, pieces: Vec<Vec<u8>>) -> Self {
        Hungry {
            rt,
            alloc,
            blocks: AtomicU32::new(0),
            pieces: Mutex::new(pieces),
        }
    }
}

/// The code of threads that have sections under one lock until their fuel is spent: those from word 0
/// on add to a word there, and those from word 11 on sleep. Behind the words of a section stands
/// jal x0,-36.
const ENDLESS: &str =
    "DATA LOCK_0 ADD UNLOCK_0 fddff06f LOCK_0 00100513 00300893 ECALL UNLOCK_0 fddff06f";

/// A run that runs out of memory in the middle ends, and nothing is written.
fn check_refused<R: Threads + Wait + Sync + Abort>(
    rt: &R,
    alloc: Global,
    words: &str,
) -> Result<(), AllocError> {
    let file = built(alloc, ENDLESS, "0 11 0 11 0 11 0 11", 1)?;
    let gate = Hungry::new(rt, alloc, Vec::with_capacity(alloc, MOST_PIECES)?);
    let ran = run_at(rt, alloc, words, &file, &gate)?;
    ran.check(rt, Status::OutOfMemory, "");
    assert!(rt; gate.blocks.load(Ordering::SeqCst) > PLENTY);
    Ok(())
}

/// For every number of workers, running out of memory in the middle of a run ends it: all workers
/// stop, nothing is written, and the next run has all the memory again.
#[test]
fn refused_memory_ends_a_run(rt: HostRuntime) -> Result<(), Fail> {
    assert!(rt; Status::OutOfMemory.number() == 5);
    for workers in 1..=8 {
        let words = format!(in rt.alloc(); "run {workers} 65536 1")?;
        check_refused(&rt, rt.alloc(), &words)?;
    }
    Ok(())
}

/// The only history of the smallest guest, with fuel 100, and its report.
const EXITS: &str = "block 0 thread 0 turns 2 held - kind start worker 0 pc 00010054 end exit\n";

const SMALLEST_REPORT: &str = "\
tclocks 2
guest threads 1 guards 0
run workers 1 fuel 100 batch 0
block 0 thread 0 turns 2 held - kind start worker 0 pc 00010054 end exit
thread 0 exit fuel 98 pc 00010058
x0 00000000 00000000 80000000 00000000 00000000 00000000 00000000 00000000
x8 00000000 00000000 00000000 00000000 00000000 00000000 00000000 00000000
x16 00000000 0000005d 00000000 00000000 00000000 00000000 00000000 00000000
x24 00000000 00000000 00000000 00000000 00000000 00000000 00000000 00000000
end
";

/// Input is allocated as it is read: without a free piece of 64 MiB a short history is still
/// replayed, though one of 256 MiB might have come.
#[test]
fn a_short_input_takes_little_memory(rt: HostRuntime) -> Result<(), Fail> {
    let alloc = rt.alloc();
    let mut bytes = plain(alloc, "EXIT")?;
    bytes.extend_from_slice(EXITS.as_bytes())?;
    let mut pieces = Vec::with_capacity(alloc, MOST_PIECES)?;
    for size in &SIZES[..10] {
        take_pieces(alloc, &mut pieces, *size);
    }
    assert!(rt; Vec::<u8>::with_capacity(alloc, 0x0400_0000).is_err());
    let gate = Hungry::new(&rt, alloc, pieces);
    let ran = run_at(&rt, alloc, "replay 92 1 100 0", &bytes, &gate)?;
    ran.check(&rt, Status::Done, SMALLEST_REPORT);
    Ok(())
}
