//! Lines that say what the source and the sink do, and a run with these.
//!
//! - `calm`: no call fails. A call gives or takes up to 4,096 bytes, and the sink has room for 65,536.
//! - `pieces N`: a call gives or takes up to so many bytes. `room N`: the sink has room for so many.
//! - `fail-read N`, `fail-write N`: this call of the source or of the sink fails, counted from 0.

use crate::row::number;
use std::alloc::{AllocError, Global};
use std::str::from_utf8;
use std::sync::Wait;
use std::thread::Threads;
use tc_io::{MemSink, MemSource, Sink, Source, Word};
use tc_main::gate::Open;
use tc_main::status::Status;
use tc_main::top::tclocks;

/// A source and a sink.
#[derive(Clone, Copy)]
pub struct Outside {
    /// How many bytes a call gives or takes.
    pub most: usize,
    /// The capacity of the sink in bytes.
    pub room: usize,
    /// The calls that fail.
    pub failing_read: Option<u64>,
    pub failing_write: Option<u64>,
}

impl Outside {
    /// No call fails, and there is room for the reports of small guests.
    pub fn calm() -> Outside {
        Outside {
            most: 4096,
            room: 65_536,
            failing_read: None,
            failing_write: None,
        }
    }

    /// Reads a line that says what the source and the sink do. False for any other line.
    pub fn takes(&mut self, key: &str, rest: &str) -> bool {
        let number = number(rest);
        match key {
            "calm" => *self = Outside::calm(),
            "pieces" => self.most = number,
            "room" => self.room = number,
            "fail-read" => self.failing_read = Some(number as u64),
            "fail-write" => self.failing_write = Some(number as u64),
            _ => return false,
        }
        true
    }
}

/// The status of a run, and what it wrote.
#[derive(Drop)]
pub struct Ran {
    pub status: Status,
    pub written: Vec<u8>,
}

impl Ran {
    /// What was written, if it is text, else nothing.
    pub fn text(&self) -> &str {
        from_utf8(&self.written).unwrap_or("")
    }
}

/// A command-line argument: `_` stands for a blank in it, and `?` for a byte that no text has.
fn word_of(alloc: Global, written: &str) -> Result<Word, AllocError> {
    let mut bytes = Vec::new(alloc);
    for byte in written.as_bytes() {
        bytes.push(match *byte {
            b'_' => b' ',
            b'?' => 0xff,
            own => own,
        })?;
    }
    Word::from_bytes(alloc, &bytes)
}

/// The command-line arguments, separated by blanks.
fn words_of(alloc: Global, written: &str) -> Result<Vec<Word>, AllocError> {
    let mut words = Vec::new(alloc);
    for word in written.split_ascii_whitespace() {
        words.push(word_of(alloc, word)?)?;
    }
    Ok(words)
}

/// The list of the calls that fail.
fn failing(alloc: Global, call: Option<u64>) -> Result<Vec<u64>, AllocError> {
    let mut calls = Vec::new(alloc);
    if let Some(call) = call {
        calls.push(call)?;
    }
    Ok(calls)
}

/// A source of this file.
fn source_of(alloc: Global, file: &[u8], outside: &Outside) -> Result<MemSource, AllocError> {
    let file = Vec::from_slice(alloc, file)?;
    let calls = failing(alloc, outside.failing_read)?;
    Ok(MemSource::new(file, outside.most.max(1), calls))
}

/// An empty sink.
fn sink_of(alloc: Global, outside: &Outside) -> Result<MemSink, AllocError> {
    let calls = failing(alloc, outside.failing_write)?;
    MemSink::new(alloc, outside.room, outside.most.max(1), calls)
}

/// The top call. Its contract is not used here: the table says what the result must be.
fn top<R: Threads + Wait + Sync, S: Source, K: Sink>(
    rt: &R,
    alloc: Global,
    words: &[Word],
    source: &mut S,
    sink: &mut K,
) -> Status {
    tclocks(rt, alloc, words, source, sink, &Open)
}

/// Runs the program on the arguments and a file, with this source and sink.
pub fn run<R: Threads + Wait + Sync>(
    rt: &R,
    alloc: Global,
    words: &str,
    file: &[u8],
    outside: &Outside,
) -> Result<Ran, AllocError> {
    let words = words_of(alloc, words)?;
    let mut source = source_of(alloc, file, outside)?;
    let mut sink = sink_of(alloc, outside)?;
    let status = top(rt, alloc, &words, &mut source, &mut sink);
    let written = Vec::from_slice(alloc, sink.written())?;
    Ok(Ran { status, written })
}
