//! Lines that ask once, or for each of a few numbers or files.
//!
//! - `ask WORDS`: runs the program on these arguments, in which `_` stands for a blank, and `?` for
//!   a byte that no text has. `each N WORDS`: the same for each number of workers up to N, which
//!   `@` stands for here and in the answer.
//! - `keep`: keeps what the last of these runs wrote. `again WORDS`: these arguments have to write
//!   what was kept.
//! - `set PLACE SIZE DIGITS`: asks the last arguments again, with the bytes from this place on
//!   replaced by those of the number with these hexadecimal digits, little-endian. `cuts FROM TO`:
//!   asks them for each of these lengths of a prefix of the file.

use crate::answer::numbered;
use crate::outside::{Ran, run};
use crate::row::{Row, number, split};
use std::alloc::{AllocError, Global};
use std::str::from_utf8;
use std::sync::Wait;
use std::thread::Threads;
use tc_main::status::Status;

/// How many runs there were, how many of them agree, and what was asked if one differs.
#[derive(Drop)]
pub struct Tally {
    pub runs: u64,
    pub agree: u64,
    pub differ: String,
    /// What the last run wrote.
    pub last: Vec<u8>,
}

impl Tally {
    /// No runs.
    pub fn new(alloc: Global) -> Tally {
        Tally {
            runs: 0,
            agree: 0,
            differ: String::new(alloc),
            last: Vec::new(alloc),
        }
    }

    /// Counts a run.
    pub fn count(&mut self, agrees: bool, asked: &str) -> Result<(), AllocError> {
        self.runs = self.runs.saturating_add(1);
        if agrees {
            self.agree = self.agree.saturating_add(1);
            return Ok(());
        }
        write!(self.differ, "{asked} differs\n")
    }

    /// Counts a run that is compared with an answer.
    pub fn compare(
        &mut self,
        alloc: Global,
        row: &Row,
        ran: Ran,
        asked: &str,
        workers: u32,
    ) -> Result<(), AllocError> {
        let agrees = row.answer.fits(alloc, &ran, &row.kept, workers)?;
        self.count(agrees, asked)?;
        if !agrees {
            self.show(&ran)?;
        }
        self.last = ran.written;
        Ok(())
    }

    /// Shows a run that differs.
    fn show(&mut self, ran: &Ran) -> Result<(), AllocError> {
        write!(self.differ, "{:?}\n{}", ran.status, ran.text())
    }
}

/// Runs the program on the arguments that were asked last, with a file and so many workers, and compares.
fn ask_with<R: Threads + Wait + Sync>(
    rt: &R,
    alloc: Global,
    row: &Row,
    tally: &mut Tally,
    file: &[u8],
    workers: u32,
) -> Result<(), AllocError> {
    let words = numbered(alloc, &row.words, workers)?;
    let ran = run(rt, alloc, &words, file, &row.outside)?;
    tally.compare(alloc, row, ran, &words, workers)
}

/// Asks once.
fn ask<R: Threads + Wait + Sync>(
    rt: &R,
    alloc: Global,
    row: &mut Row,
    tally: &mut Tally,
    words: &str,
) -> Result<(), AllocError> {
    row.words = String::from_str(alloc, words)?;
    ask_with(rt, alloc, row, tally, &row.file, 1)
}

/// Asks for each number of workers.
fn each<R: Threads + Wait + Sync>(
    rt: &R,
    alloc: Global,
    row: &mut Row,
    tally: &mut Tally,
    rest: &str,
) -> Result<(), AllocError> {
    let (workers, words) = split(rest);
    row.words = String::from_str(alloc, words)?;
    for worker in 0..number(workers).min(8) as u32 {
        ask_with(rt, alloc, row, tally, &row.file, worker + 1)?;
    }
    Ok(())
}

/// Asks once. It has to write what was kept.
fn again<R: Threads + Wait + Sync>(
    rt: &R,
    alloc: Global,
    row: &Row,
    tally: &mut Tally,
    words: &str,
) -> Result<(), AllocError> {
    let ran = run(rt, alloc, words, &row.file, &row.outside)?;
    let agrees = ran.status == Status::Done && ran.written.as_slice() == row.kept.as_bytes();
    tally.count(agrees, words)
}

/// A file with the bytes of a number from an offset on.
fn changed(alloc: Global, file: &[u8], field: &str) -> Result<Vec<u8>, AllocError> {
    let (place, rest) = split(field);
    let (size, digits) = split(rest);
    let value = u32::from_str_radix(digits, 16).unwrap_or(0);
    let mut changed = Vec::from_slice(alloc, file)?;
    let places = changed.iter_mut().skip(number(place)).take(number(size));
    for (own, byte) in places.zip(value.to_le_bytes()) {
        *own = byte;
    }
    Ok(changed)
}

/// Asks again, with some bytes of the file replaced.
fn ask_set<R: Threads + Wait + Sync>(
    rt: &R,
    alloc: Global,
    row: &Row,
    tally: &mut Tally,
    field: &str,
) -> Result<(), AllocError> {
    let file = changed(alloc, &row.file, field)?;
    ask_with(rt, alloc, row, tally, &file, 1)
}

/// Keeps what the last run wrote.
fn keep(alloc: Global, row: &mut Row, tally: &Tally) -> Result<(), AllocError> {
    row.kept = String::from_str(alloc, from_utf8(&tally.last).unwrap_or(""))?;
    Ok(())
}

/// Asks for each length of a prefix of the file.
fn cuts<R: Threads + Wait + Sync>(
    rt: &R,
    alloc: Global,
    row: &Row,
    tally: &mut Tally,
    rest: &str,
) -> Result<(), AllocError> {
    let (from, to) = split(rest);
    for length in number(from)..=number(to) {
        let file = row.file.get(..length).unwrap_or(&[]);
        ask_with(rt, alloc, row, tally, file, 1)?;
    }
    Ok(())
}

/// Reads a line that asks. False for any other line.
pub fn asks<R: Threads + Wait + Sync>(
    rt: &R,
    alloc: Global,
    row: &mut Row,
    tally: &mut Tally,
    line: (&str, &str),
) -> Result<bool, AllocError> {
    let (key, rest) = line;
    match key {
        "ask" => ask(rt, alloc, row, tally, rest)?,
        "each" => each(rt, alloc, row, tally, rest)?,
        "keep" => keep(alloc, row, tally)?,
        "again" => again(rt, alloc, row, tally, rest)?,
        "set" => ask_set(rt, alloc, row, tally, rest)?,
        "cuts" => cuts(rt, alloc, row, tally, rest)?,
        _ => return Ok(false),
    }
    Ok(true)
}
