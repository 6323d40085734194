//! How a report is written: what comes before its history, the lines of the history, which are made
//! while they are written, and what follows them.

ghost use Rattle.std.specs.Prelude.{◌≡◌, ◌++◌, IfOk, OnErr};
ghost use Rattle.tc_report.specs.Pieces.{AreLines, lines_in};
ghost use Rattle.tc_report.specs.Written.{Wrote};
ghost use denote.Param.Send.{IsSync};

use crate::piece::{BLOCKS, History};
use crate::ring::Ring;
use crate::row::count_of;
use crate::written::{Written, write_text};
use std::alloc::{AllocError, Global};
use std::sync::Wait;
use std::thread::{Threads, join, join_mut};
use tc_io::Sink;
use tc_journal::block::Block;

/// How many blocks a history has at least for its lines to be made by several threads: those of four
/// pieces. To start a thread takes as long as hundreds of lines, and longer where other work keeps
/// the processors.
const MANY: usize = 16_384;

/// Makes the pieces by so many threads, until none is left to be made.
#[cycle(makers)]
fn make_by<'a, R: Threads + Wait + Sync, H: History + Send + Sync>(
    rt: &R,
    ring: &Ring<'a, H>,
    logs: &[&'a [Block]],
    threads: usize,
)
    requires { AreLines logs.now H.lines H.room }
{
    if threads <= 1 {
        ring.make(rt, logs);
        return;
    }
    let others = threads - 1;
    let own = || -> ()
        requires { IsSync R.row × AreLines logs.now H.lines H.room }
    { ring.make(rt, logs) };
    let rest = || -> ()
        requires { AreLines logs.now H.lines H.room }
    { make_by(rt, ring, logs, others) };
    join(rt, own, rest);
}

/// Writes the pieces one after another, until a write fails. A piece that nobody has begun to make is
/// made here.
fn write_pieces<'a, R: Wait, K: Sink, H: History + Send + Sync>(
    rt: &R,
    sink: &mut K,
    ring: &Ring<'a, H>,
    logs: &[&'a [Block]],
) -> Written
    requires { AreLines logs.now H.lines H.room }
    ensures { Wrote (K.stream sink.old) (K.stream sink.new) (lines_in logs.now) result }
{
    for number in 0..count_of(logs).div_ceil(BLOCKS) {
        let piece = ring.piece(rt, logs, number);
        if let Err(failed) = write_text(sink, piece.text().as_bytes()) {
            ring.stop(rt);
            return Err(failed);
        }
        ring.give_back(rt, piece);
    }
    Ok(())
}

/// Writes the lines of the history, until a write fails, while so many other threads make them.
fn write_lines<'a, R: Threads + Wait + Sync, K: Sink, H: History + Send + Sync>(
    rt: &R,
    sink: &mut K,
    ring: &Ring<'a, H>,
    logs: &[&'a [Block]],
    others: usize,
) -> Written
    requires { AreLines logs.now H.lines H.room }
    ensures { Wrote (K.stream sink.old) (K.stream sink.new) (lines_in logs.now) result }
{
    if others == 0 {
        return write_pieces(rt, sink, ring, logs);
    }
    let mut make = || -> ()
        requires { IsSync R.row × AreLines logs.now H.lines H.room }
    { make_by(rt, ring, logs, others) };
    let mut write = || -> Written
        requires { AreLines logs.now H.lines H.room }
    { write_pieces(rt, sink, ring, logs) };
    let (_, written) = join_mut(rt, &mut make, &mut write);
    written
}

/// Writes the lines of the history between these two texts, until a write fails.
fn write_between<'a, R: Threads + Wait + Sync, K: Sink, H: History + Send + Sync>(
    rt: &R,
    sink: &mut K,
    head: &[u8],
    ring: &Ring<'a, H>,
    logs: &[&'a [Block]],
    tail: &[u8],
    others: usize,
) -> Written
    requires { AreLines logs.now H.lines H.room }
    ensures { Wrote (K.stream sink.old) (K.stream sink.new)
        (head.now ++ lines_in logs.now ++ tail.now) result }
{
    write_text(sink, head)?;
    write_lines(rt, sink, ring, logs, others)?;
    write_text(sink, tail)
}

/// Writes the lines of the history between these two texts, until a write fails, by as many threads as
/// there are workers. All memory for the lines is taken before anything is written, and no more for
/// more blocks.
pub(crate) fn write_around<'a, R: Threads + Wait + Sync, K: Sink, H: History + Send + Sync>(
    rt: &R,
    alloc: Global,
    sink: &mut K,
    head: &[u8],
    logs: &[&'a [Block]],
    tail: &[u8],
    workers: usize,
) -> Result<Written, AllocError>
    requires { AreLines logs.now H.lines H.room }
    ensures wrote { IfOk result (λ written. Wrote (K.stream sink.old) (K.stream sink.new)
        (head.now ++ lines_in logs.now ++ tail.now) written) }
    ensures memory { OnErr result (K.stream sink.new ≡ K.stream sink.old) }
{
    let others = if count_of(logs) < MANY {
        0
    } else {
        workers.saturating_sub(1)
    };
    let places = others.saturating_mul(2).max(1);
    let ring: Ring<H> = Ring::new(alloc, logs, places)?;
    Ok(write_between(rt, sink, head, &ring, logs, tail, others))
}
