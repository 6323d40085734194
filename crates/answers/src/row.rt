//! What the lines of the table say before one asks.

use crate::answer::Answer;
use crate::outside::Outside;
use std::alloc::Global;

/// The file, the source and the sink, and the answer.
#[derive(Drop)]
pub struct Row {
    /// The bytes that the source gives.
    pub file: Vec<u8>,
    /// The threads of files that are built, and for how many locks each has a guard.
    pub threads: String,
    pub locks: usize,
    /// The arguments of the last line that asked.
    pub words: String,
    /// What the last run wrote that was kept.
    pub kept: String,
    pub outside: Outside,
    pub answer: Answer,
}

impl Row {
    /// An empty file, and a source and a sink of which no call fails.
    pub fn new(alloc: Global) -> Row {
        Row {
            file: Vec::new(alloc),
            threads: String::new(alloc),
            locks: 0,
            words: String::new(alloc),
            kept: String::new(alloc),
            outside: Outside::calm(),
            answer: Answer::new(alloc),
        }
    }
}

/// The number that these decimal digits write, or 0 if they write none.
pub fn number(digits: &str) -> usize {
    digits.parse::<usize>().unwrap_or(0)
}

/// What comes before the first blank of a text, and what follows it.
pub fn split(text: &str) -> (&str, &str) {
    text.split_once(' ').unwrap_or((text, ""))
}
