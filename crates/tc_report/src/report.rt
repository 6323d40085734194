//! The text of a report.

ghost use Rattle.std.specs.Prelude.{◌≡◌, ◌+◌, ◌*◌, ◌<◌, ◌≤◌, ◌++◌, IfOk, OnErr, OnOk, length, map, string_bytes};
ghost use Rattle.tc_journal.specs.Digits.{hex2, hex8};
ghost use Rattle.tc_report.specs.Legal.{results_after};
ghost use Rattle.tc_report.specs.Outcome.{IsOutcome};
ghost use Rattle.tc_io.specs.Calls.{Writes};
ghost use Rattle.tc_report.specs.Logs.{AreLogs, blocks_in};
ghost use Rattle.tc_report.specs.Pieces.{lines_in, lines_of};
ghost use Rattle.tc_report.specs.Report as text;
ghost use Rattle.tc_report.specs.Written.{Wrote};
ghost use Rattle.tc_report.specs.declared.piece.TheConstants.{BLOCKS as PIECE};

use crate::piece::BLOCKS;
use crate::row::{count_of, whole_row};
use crate::write::write_around;
use crate::written::{Written, write_text};
use std::alloc::{AllocError, Global};
use std::fmt::Write;
use std::marker::Brand;
use std::sync::Wait;
use std::thread::Threads;
use tc_context::package::Package;
use tc_elf::image::Image;
use tc_io::Sink;
use tc_isa::options::Options;
use tc_isa::reg::Reg;
use tc_isa::regs::Regs;
use tc_journal::block::Block;
use tc_journal::digits::{Hex2, Hex8};
use tc_journal::line::push_lent;
use tc_segment::state::LockState;
use tc_turn::status::Status;

/// Writes how many threads and guards the guest has.
#[tactic(auto, unfolding(crate::specs::Report::guest_line))]
fn push_guest(out: &mut String, threads: u32, guards: u32) -> Result<(), AllocError>
    ensures { OnOk result (string_bytes out.new
        ≡ string_bytes out.old ++ text.guest_line threads guards) }
{
    writeln!(out, "guest threads {threads} guards {guards}")
}

/// Writes how the guest was run.
#[tactic(auto, unfolding(crate::specs::Report::run_line))]
fn push_run(out: &mut String, options: Options) -> Result<(), AllocError>
    ensures { OnOk result (string_bytes out.new ≡ string_bytes out.old ++ text.run_line options) }
{
    let Options {
        workers,
        fuel,
        limit,
    } = options;
    writeln!(out, "run workers {workers} fuel {fuel} batch {limit}")
}

/// Writes the word of a register after a space.
#[tactic(auto, unfolding(crate::specs::Report::register_text))]
fn push_register(out: &mut String, regs: &Regs, from: u32, i: u32) -> Result<(), AllocError>
    requires { from + i < 32 }
    ensures { OnOk result (string_bytes out.new
        ≡ string_bytes out.old ++ text.register_text regs.now from i) }
{
    let word = Hex8(regs.get(Reg::of(from + i)));
    write!(out, " {word}")
}

/// Writes the line of the eight registers from one on.
#[tactic(auto, unfolding(crate::specs::Report::registers_line))]
fn push_registers(out: &mut String, regs: &Regs, from: u32) -> Result<(), AllocError>
    requires { from + 8 ≤ 32 }
    ensures { OnOk result (string_bytes out.new
        ≡ string_bytes out.old ++ text.registers_line regs.now from) }
{
    write!(out, "x{from}")?;
    for i in 0..8 {
        push_register(out, regs, from, i)?;
    }
    out.push_str("\n")
}

/// Writes how a thread ended.
pub(crate) fn push_status(out: &mut String, status: Status) -> Result<(), AllocError>
    ensures { OnOk result (string_bytes out.new ≡ string_bytes out.old ++ text.status_text status) }
{
    match status {
        Status::Running => out.push_str("running"),
        Status::Exited => out.push_str("exit"),
        Status::Faulted(fault) => {
            let number = fault.number();
            write!(out, "fault {number}")
        }
        Status::SpentFuel => out.push_str("spent"),
    }
}

/// Writes the line of a thread.
#[tactic(auto, unfolding(crate::specs::Report::thread_line))]
fn push_thread_line(out: &mut String, number: usize, thread: &Package) -> Result<(), AllocError>
    ensures { OnOk result (string_bytes out.new
        ≡ string_bytes out.old ++ text.thread_line number (text.finished_of thread.now)) }
{
    let status = thread.status();
    let fuel = thread.fuel();
    let pc = Hex8(thread.regs().pc());
    write!(out, "thread {number} ")?;
    push_status(out, status)?;
    writeln!(out, " fuel {fuel} pc {pc}")
}

/// Writes how a thread ended and its registers.
#[tactic(auto, unfolding(crate::specs::Report::thread_text))]
fn push_thread(out: &mut String, number: usize, thread: &Package) -> Result<(), AllocError>
    ensures { OnOk result (string_bytes out.new
        ≡ string_bytes out.old ++ text.package_text (number, thread.now)) }
{
    push_thread_line(out, number, thread)?;
    let regs = thread.regs();
    push_registers(out, &regs, 0)?;
    push_registers(out, &regs, 8)?;
    push_registers(out, &regs, 16)?;
    push_registers(out, &regs, 24)
}

/// Writes how the threads of the packages ended and their registers.
fn push_threads(out: &mut String, packages: &[Package]) -> Result<(), AllocError>
    ensures { OnOk result (string_bytes out.new
        ≡ string_bytes out.old ++ text.packages_text packages.now) }
{
    for number in 0..packages.len() {
        push_thread(out, number, &packages[number])?;
    }
    Ok(())
}

/// Writes the line of a lock.
#[tactic(auto, unfolding(crate::specs::Report::lock_line))]
fn push_lock_line(out: &mut String, number: u32, lock: &LockState) -> Result<(), AllocError>
    ensures { OnOk result (string_bytes out.new ≡ string_bytes out.old
        ++ text.lock_line number lock.now.sections lock.now.broken (length lock.now.bytes)) }
{
    let sections = lock.sections();
    let broken = if lock.broken() { "1" } else { "0" };
    let count = lock.bytes().len();
    write!(out, "lock {number} sections {sections}")?;
    writeln!(out, " broken {broken} bytes {count}")
}

/// Writes a byte as two digits.
fn push_byte(out: &mut String, byte: u8) -> Result<(), AllocError>
    ensures { OnOk result (string_bytes out.new ≡ string_bytes out.old ++ hex2 byte) }
{
    let digits = Hex2(byte);
    write!(out, "{digits}")
}

/// Writes a line of bytes from an address on.
#[tactic(auto, unfolding(crate::specs::Report::data_line))]
fn push_data(out: &mut String, start: u32, bytes: &[u8]) -> Result<(), AllocError>
    ensures { OnOk result (string_bytes out.new
        ≡ string_bytes out.old ++ text.data_line start bytes.now) }
{
    let address = Hex8(start);
    write!(out, "data {address} ")?;
    for byte in bytes {
        push_byte(out, *byte)?;
    }
    out.push_str("\n")
}

/// The address so many bytes behind a start. No guard goes past the end of the address space.
fn address_at(start: u32, from: usize) -> u32
    ensures { hex8 result ≡ hex8 (start + from) }
{
    let address = (start as u64).wrapping_add(from as u64);
    (address % (1 << 32)) as u32
}

/// Writes the data line of this number, of bytes from an address on.
#[tactic(auto, unfolding(crate::specs::Report::data_line_at))]
fn push_data_at(out: &mut String, start: u32, bytes: &[u8], i: usize) -> Result<(), AllocError>
    requires { 32 * i < length bytes.now }
    ensures { OnOk result (string_bytes out.new
        ≡ string_bytes out.old ++ text.data_line_at start bytes.now i) }
{
    let from = 32 * i;
    let to = bytes.len().min(from + 32);
    push_data(out, address_at(start, from), &bytes[from..to])
}

/// Writes the line of a lock, whose guard begins at an address, and its data lines.
#[tactic(auto, unfolding(crate::specs::Report::lock_text))]
pub(crate) fn push_lock(
    out: &mut String,
    number: u32,
    start: u32,
    lock: &LockState,
) -> Result<(), AllocError>
    ensures { OnOk result (string_bytes out.new
        ≡ string_bytes out.old ++ text.lock_text (number, text.guarded_of start lock.now)) }
{
    push_lock_line(out, number, lock)?;
    let bytes = lock.bytes();
    for i in 0..bytes.len().div_ceil(32) {
        push_data_at(out, start, bytes, i)?;
    }
    Ok(())
}

/// Writes the lines of the locks of an image.
fn push_locks(out: &mut String, image: &Image, locks: &[LockState]) -> Result<(), AllocError>
    requires { length locks.now ≡ length image.now.guards }
    ensures { OnOk result (string_bytes out.new
        ≡ string_bytes out.old ++ text.states_text image.now locks.now) }
{
    for number in 0..image.guards() {
        let (start, _) = image.guard(number);
        push_lock(out, number, start, &locks[number as usize])?;
    }
    Ok(())
}

/// The room for the three lines before the history, in bytes: no such lines are longer.
const HEAD_ROOM: usize = 92;

/// The room for the line of a block. No line of a run is longer: a stamp has at most 7 digits, a
/// thread 2, the turns 4, a worker 1, a pc 8, and four locks with their commas 11 bytes.
const BLOCK_ROOM: usize = 102;

/// The room for the five lines of a thread.
const THREAD_ROOM: usize = 352;

/// The room for the line of a lock.
const LOCK_ROOM: usize = 80;

/// The room for a data line.
const DATA_ROOM: usize = 80;

/// The room for the last line.
const END_ROOM: usize = 4;

/// The room for the lines of the locks, in bytes.
fn locks_room(locks: &[LockState]) -> usize {
    let mut room: usize = 0;
    for lock in locks {
        let data = lock.bytes().len().div_ceil(32).saturating_mul(DATA_ROOM);
        room = room.saturating_add(LOCK_ROOM).saturating_add(data);
    }
    room
}

/// The room for the lines behind the history, in bytes. Those of a run are no longer; longer ones
/// would grow.
fn tail_room(packages: &[Package], locks: &[LockState]) -> usize {
    packages
        .len()
        .saturating_mul(THREAD_ROOM)
        .saturating_add(locks_room(locks))
        .saturating_add(END_ROOM)
}

/// The room for a report that ends with this text, in bytes. No report of a run is longer; a longer
/// one would grow.
fn report_room(history: &[&Block], tail: &str) -> usize {
    history
        .len()
        .saturating_mul(BLOCK_ROOM)
        .saturating_add(HEAD_ROOM)
        .saturating_add(tail.len())
}

/// What follows the history in a report: the lines of the threads and the locks, and the last line.
pub fn tail_of(
    alloc: Global,
    image: &Image,
    packages: &[Package],
    locks: &[LockState],
) -> Result<String, AllocError>
    requires { length locks.now ≡ length image.now.guards }
    ensures { IfOk result (λ tail. string_bytes tail
        ≡ text.tail_text image.now packages.now locks.now) }
{
    let mut tail = String::with_capacity(alloc, tail_room(packages, locks))?;
    push_threads(&mut tail, packages)?;
    push_locks(&mut tail, image, locks)?;
    tail.push_str("end\n")?;
    Ok(tail)
}

/// Writes the lines before the history.
fn push_head(out: &mut String, image: &Image, options: Options) -> Result<(), AllocError>
    ensures { OnOk result (string_bytes out.new
        ≡ string_bytes out.old ++ text.head_text image.now options) }
{
    out.push_str("tclocks 2\n")?;
    push_guest(out, image.threads(), image.guards())?;
    push_run(out, options)
}

/// The report with this text after its history. The memory for all of it is allocated at once,
/// before any of it is written, so that growing makes no second copy.
pub fn report_with(
    alloc: Global,
    image: &Image,
    options: Options,
    history: &[&Block],
    tail: &str,
) -> Result<Vec<u8>, AllocError>
    ensures { IfOk result (λ out. out.items ≡ text.head_text image.now options
        ++ lines_of history.now ++ tail.now) }
{
    let mut out = String::with_capacity(alloc, report_room(history, tail))?;
    push_head(&mut out, image, options)?;
    push_lent(&mut out, history)?;
    out.push_str(tail)?;
    Ok(out.into_bytes())
}

/// Writes the report with this text after its history, until a write fails. The history stands in
/// logs, in parts, and each piece of it is put in order where its lines are made. All memory is
/// allocated before anything is written, and that for the lines does not grow with the history. A
/// history of one piece makes one text. A longer one is written in parts, each as a text of its own:
/// the lines before the history, each piece, and the lines after it. As many threads as there were
/// workers make the lines; the call may wait for them.
pub fn write_report<R: Threads + Wait + Sync, K: Sink>(
    rt: &R,
    alloc: Global,
    image: &Image,
    options: Options,
    logs: &[&[Block]],
    tail: &str,
    sink: &mut K,
) -> Result<Written, AllocError>
    requires { AreLogs logs.now }
    ensures wrote { IfOk result (λ written. Wrote (K.stream sink.old) (K.stream sink.new)
        (text.head_text image.now options ++ lines_in logs.now ++ tail.now) written) }
    ensures once { length (blocks_in logs.now) ≤ PIECE
        → IfOk result (λ written. Writes K.write_gives
        (text.head_text image.now options ++ lines_in logs.now ++ tail.now)
        sink.old written sink.new) }
    ensures memory { OnErr result (K.stream sink.new ≡ K.stream sink.old) }
{
    if count_of(logs) <= BLOCKS {
        let blocks = whole_row(alloc, logs)?;
        let text = report_with(alloc, image, options, &blocks, tail)?;
        return Ok(write_text(sink, &text));
    }
    let mut head = String::with_capacity(alloc, HEAD_ROOM)?;
    push_head(&mut head, image, options)?;
    let workers = options.workers as usize;
    let (head, tail) = (head.as_bytes(), tail.as_bytes());
    write_around::<R, K, Brand>(rt, alloc, sink, head, logs, tail, workers)
}

/// Blocks, borrowed.
pub fn lent(alloc: Global, history: &[Block]) -> Result<Vec<&Block>, AllocError>
    ensures { IfOk result (λ blocks. map (λ b. b.now) blocks.items ≡ history.now) }
{
    history.iter().collect(alloc)
}

/// The report of a run to the end of every thread: its text, line by line, over the blocks of the
/// history and the state in which the history ends. The packages and lock states are those that the
/// run left, of all threads and locks in order of number.
pub fn report(
    alloc: Global,
    image: &Image,
    options: Options,
    history: &[Block],
    packages: &[Package],
    locks: &[LockState],
) -> Result<Vec<u8>, AllocError>
    requires { IsOutcome image.now options.fuel history.now packages.now locks.now }
    ensures { IfOk result (λ out. out.items
        ≡ text.report_text image.now options
        (results_after image.now options.fuel history.now)) }
{
    let tail = tail_of(alloc, image, packages, locks)?;
    let blocks = lent(alloc, history)?;
    report_with(alloc, image, options, &blocks, &tail)
}
