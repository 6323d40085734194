//! Runs of the program over files in memory.

use std::alloc::{AllocError, Global};
use std::process::Abort;
use std::str::from_utf8;
use std::sync::Wait;
use std::thread::Threads;
use tc_io::{MemSink, MemSource, Sink, Source, Word};
use tc_main::gate::Gate;
use tc_main::status::Status;
use tc_main::top::tclocks;

/// The status of a run, and what it wrote.
#[derive(Drop)]
pub(crate) struct Ran {
    pub status: Status,
    pub written: Vec<u8>,
}

impl Ran {
    /// What was written, if it is text, else nothing.
    pub(crate) fn text(&self) -> &str {
        from_utf8(&self.written).unwrap_or("")
    }

    /// The second of the text's lines that contain this.
    pub(crate) fn second(&self, part: &str) -> &str {
        let mut is_second = false;
        for line in self.text().lines() {
            if line.contains(part) {
                if is_second {
                    return line;
                }
                is_second = true;
            }
        }
        ""
    }

    /// The run did what was asked for.
    pub(crate) fn check_done<R: Abort>(&self, rt: &R) {
        let status = self.status;
        assert!(rt; status == Status::Done, "{status:?}");
    }

    /// The run ended with this status, and wrote this text.
    pub(crate) fn check<R: Abort>(&self, rt: &R, status: Status, text: &str) {
        let written = self.text();
        assert!(rt; written == text, "{written}");
        let own = self.status;
        assert!(rt; own == status, "{own:?}");
    }
}

/// The command-line arguments, separated by blanks.
fn words_of(alloc: Global, written: &str) -> Result<Vec<Word>, AllocError> {
    let mut words = Vec::new(alloc);
    for word in written.split_ascii_whitespace() {
        words.push(Word::from_bytes(alloc, word.as_bytes())?)?;
    }
    Ok(words)
}

/// The top call. Its contract is not used here: tests check its results.
fn top<R: Threads + Wait + Sync, S: Source, K: Sink, G: Gate>(
    rt: &R,
    alloc: Global,
    words: &[Word],
    source: &mut S,
    sink: &mut K,
    gate: &G,
) -> Status {
    tclocks(rt, alloc, words, source, sink, gate)
}

/// Runs the program on the arguments and a file, by workers that call an observer. No call of the
/// source or of the sink fails.
pub(crate) fn run_at<R: Threads + Wait + Sync, G: Gate>(
    rt: &R,
    alloc: Global,
    words: &str,
    file: &[u8],
    gate: &G,
) -> Result<Ran, AllocError> {
    let words = words_of(alloc, words)?;
    let file = Vec::from_slice(alloc, file)?;
    let mut source = MemSource::new(file, 4096, Vec::new(alloc));
    let mut sink = MemSink::new(alloc, 524_288, 4096, Vec::new(alloc))?;
    let status = top(rt, alloc, &words, &mut source, &mut sink, gate);
    let written = Vec::from_slice(alloc, sink.written())?;
    Ok(Ran { status, written })
}
