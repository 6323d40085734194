//! Compares what the program answers with answers known independently: arguments and the bytes of a
//! file go in, a status and a text come out.
//!
//! The table comes on standard input, from `stdin` of this folder. A line says what the file is,
//! what the source and the sink do, or what the answer must be; each holds until another line of its
//! kind. Other lines ask: each runs the program once or more, through its top call, and compares.
//! Differences are printed, and at the end how many runs agree. The modules define the lines.
//!
//! - `file NAME`: the file is the one of this name in the folder `data`.
//! - `row`: what the lines say before one asks. `guest`: lines of the file. `outside`: lines of the
//!   source and the sink, and a run with these. `answer`: lines of the answer, and whether a run fits.
//! - `ask`: lines that ask once. `many`: lines that ask for each of many faults.
#![tactic(auto)]

mod answer;
mod ask;
mod guest;
mod many;
mod outside;
mod row;

use ask::Tally;
use row::Row;
use std::alloc::{AllocError, Global};
use std::fs;
use std::io::{self, BufRead, BufReader};
use std::sync::Wait;
use std::thread::Threads;

/// Takes a line that says what those that ask are to ask. False for any other line.
fn says(alloc: Global, row: &mut Row, key: &str, rest: &str) -> Result<bool, AllocError> {
    Ok(
        guest::makes(alloc, row, key, rest)?
            || row.outside.takes(key, rest)
            || row.answer.takes(alloc, key, rest)?,
    )
}

/// Takes a line of the table, which is empty, a comment, or begins with a key.
fn take<R: Threads + Wait + Sync>(
    rt: &R,
    alloc: Global,
    row: &mut Row,
    tally: &mut Tally,
    line: &str,
) -> Result<(), AllocError> {
    if line.is_empty() || line.starts_with('#') {
        return Ok(());
    }
    let (key, rest) = line.split_once(' ').unwrap_or((line, ""));
    if says(alloc, row, key, rest)?
        || ask::asks(rt, alloc, row, tally, (key, rest))?
        || many::asks(rt, alloc, row, tally, (key, rest))?
    {
        return Ok(());
    }
    tally.count(false, line)
}

fn main(rt: HostRuntime) -> io::Result<()> {
    let alloc = rt.alloc();
    let mut row = Row::new(alloc);
    let mut tally = Tally::new(alloc);
    for line in BufReader::new(alloc, rt.reader())?.lines(alloc) {
        let line = line?;
        match line.as_str().strip_prefix("file ") {
            Some(name) => row.file = fs::read(&rt, name)?,
            None => take(&rt, alloc, &mut row, &mut tally, line.as_str())?,
        }
    }
    println!(rt;
        "{}{} runs: {} agree",
        tally.differ, tally.runs, tally.agree
    )
}
