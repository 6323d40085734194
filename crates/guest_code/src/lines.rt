//! The lines of a text.

use std::alloc::{AllocError, Global};

/// The first word of a text.
pub fn first_word(text: &str) -> &str {
    text.split_ascii_whitespace().next().unwrap_or("")
}

/// How many of the text's lines have this in them.
pub fn count(text: &str, part: &str) -> usize {
    let mut count: usize = 0;
    for line in text.lines() {
        if line.contains(part) {
            count = count.saturating_add(1);
        }
    }
    count
}

/// How many lines of blocks the text has, if their stamps count up from 0.
pub fn blocks(text: &str) -> Option<usize> {
    let mut count: usize = 0;
    for line in text.lines() {
        if let Some(rest) = line.strip_prefix("block ") {
            if first_word(rest).parse::<usize>().ok() != Some(count) {
                return None;
            }
            count = count.saturating_add(1);
        }
    }
    Some(count)
}

/// How many steps the blocks of a thread have together; its number is written here.
pub fn turns_of(alloc: Global, text: &str, thread: &str) -> Result<u64, AllocError> {
    let name = format!(in alloc; " thread {thread} turns ")?;
    let mut turns: u64 = 0;
    for line in text.lines() {
        if let Some((_, back)) = line.split_once(name.as_str()) {
            let count = first_word(back).parse::<u64>();
            turns = turns.saturating_add(count.unwrap_or(0));
        }
    }
    Ok(turns)
}

/// The lines of the blocks of a report, which are its history.
pub fn history_in(alloc: Global, report: &str) -> Result<String, AllocError> {
    let mut history = String::new(alloc);
    for line in report.lines() {
        if line.starts_with("block ") {
            write!(history, "{line}\n")?;
        }
    }
    Ok(history)
}
