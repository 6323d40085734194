//! Lines that say what the answer must be, and whether a run fits it.
//!
//! - `answer STATUS`: a new answer with this status and no text.
//! - `| LINE`: the text's next line, in which the word `*` stands for any word. `> LINE`: the same
//!   for the last line, without a newline. `...`: any lines, and alone anything that is written.
//! - `or`: what follows is the text of another answer that is accepted too.
//! - `size N`, `longer N`: the text has so many bytes, or more than so many.
//! - `blocks N`: it has so many lines of blocks, whose stamps count up from 0. `turns N T`: the blocks
//!   of thread T have so many steps together. `more N PART`: more than so many lines contain this part.
//! - `kinds N`: it has the line of lock 0 of a profile that counts N sections, and as many of each
//!   kind as the kept text.

use crate::outside::Ran;
use crate::row::{number, split};
use guest_code::lines::{blocks, count, turns_of};
use std::alloc::{AllocError, Global};
use tc_main::status::Status;

/// The status, and the lines that say what the text must be: those that show it, and further facts.
#[derive(Drop)]
pub struct Answer {
    pub status: String,
    pub lines: String,
    pub facts: String,
}

impl Answer {
    /// An answer without a status, which no run fits.
    pub fn new(alloc: Global) -> Answer {
        Answer {
            status: String::new(alloc),
            lines: String::new(alloc),
            facts: String::new(alloc),
        }
    }

    /// Reads a line that says what the answer must be. False for any other line.
    pub fn takes(&mut self, alloc: Global, key: &str, rest: &str) -> Result<bool, AllocError> {
        match key {
            "answer" => self.begin(alloc, rest)?,
            "|" | ">" | "..." | "or" => push_line(&mut self.lines, key, rest)?,
            "size" | "longer" | "blocks" | "turns" | "more" | "kinds" => {
                push_line(&mut self.facts, key, rest)?
            }
            _ => return Ok(false),
        }
        Ok(true)
    }

    /// A new answer with this status.
    fn begin(&mut self, alloc: Global, status: &str) -> Result<(), AllocError> {
        *self = Answer::new(alloc);
        self.status.push_str(status)
    }

    /// Whether a run with so many workers fits the answer, in which `@` stands for that number.
    pub fn fits(
        &self,
        alloc: Global,
        ran: &Ran,
        kept: &str,
        workers: u32,
    ) -> Result<bool, AllocError> {
        Ok(
            is_status(alloc, ran.status, &self.status)?
                && self.has_text(alloc, ran, workers)?
                && are_facts(alloc, &self.facts, ran, kept)?,
        )
    }

    /// Whether the lines show what a run with so many workers wrote.
    fn has_text(&self, alloc: Global, ran: &Ran, workers: u32) -> Result<bool, AllocError> {
        let lines = numbered(alloc, &self.lines, workers)?;
        let is_text = ran.text().len() == ran.written.len() || lines.as_str() == "... \n";
        Ok(is_text && is_one_of(&lines, ran.text()))
    }
}

/// Appends a line of the table.
fn push_line(lines: &mut String, key: &str, rest: &str) -> Result<(), AllocError> {
    write!(lines, "{key} {rest}\n")
}

/// A text with a number in place of each `@`.
pub fn numbered(alloc: Global, text: &str, number: u32) -> Result<String, AllocError> {
    let mut parts = text.split('@');
    let mut whole = String::from_str(alloc, parts.next().unwrap_or(""))?;
    for part in parts {
        write!(whole, "{number}{part}")?;
    }
    Ok(whole)
}

/// How a status is written in the table.
fn status_of(alloc: Global, status: Status) -> Result<String, AllocError> {
    match status {
        Status::Done => String::from_str(alloc, "done"),
        Status::Usage => String::from_str(alloc, "usage"),
        Status::ReadFault => String::from_str(alloc, "read-fault"),
        Status::Refused(number) => format!(in alloc; "refused {number}"),
        Status::WriteFault => String::from_str(alloc, "write-fault"),
        Status::OutOfMemory => String::from_str(alloc, "out-of-memory"),
        Status::Rejected(_) => String::from_str(alloc, "rejected"),
    }
}

/// Whether a status is written so in the table.
pub fn is_status(alloc: Global, status: Status, written: &str) -> Result<bool, AllocError> {
    Ok(status_of(alloc, status)?.as_str() == written)
}

/// Whether a line is the one that is wanted.
fn is_line(wanted: &str, line: &str) -> bool {
    let mut words = line.split(' ');
    for own in wanted.split(' ') {
        match words.next() {
            Some(word) if own == "*" || own == word => {}
            _ => return false,
        }
    }
    words.next().is_none()
}

/// What follows the line that is wanted, which is the next one, or any one.
fn behind<'a>(text: &'a str, wanted: &str, is_any: bool) -> Option<&'a str> {
    let mut rest = text;
    for _ in 0..=text.len() {
        let (line, further) = rest.split_once('\n').unwrap_or((rest, ""));
        if is_line(wanted, line) {
            return Some(further);
        }
        if !is_any || further.is_empty() {
            return None;
        }
        rest = further;
    }
    None
}

/// Whether a text is the one that these lines show.
fn is_shown(lines: &str, text: &str) -> bool {
    let mut rest = text;
    let mut is_any = false;
    for line in lines.lines() {
        let (key, wanted) = split(line);
        if key == "..." {
            is_any = true;
            continue;
        }
        let Some(further) = behind(rest, wanted, is_any) else {
            return false;
        };
        rest = further;
        is_any = false;
    }
    is_any || rest.is_empty()
}

/// Whether the text ends as the last of these lines says: within a line, or behind one.
fn is_ended(lines: &str, text: &str) -> bool {
    let is_open = lines.lines().any(|line| line.starts_with("> "));
    text.is_empty() || text.ends_with('\n') != is_open
}

/// Whether a text is one of those that these lines show.
fn is_one_of(lines: &str, text: &str) -> bool {
    for own in lines.split("or \n") {
        if is_shown(own, text) && is_ended(own, text) {
            return true;
        }
    }
    false
}

/// Whether the profile has as many sections of each kind as the text that was kept.
fn has_kinds(alloc: Global, sections: usize, text: &str, kept: &str) -> Result<bool, AllocError> {
    let taken = count(kept, " kind taken ");
    let adopted = count(kept, " kind adopted ");
    let granted = count(kept, " kind granted ");
    let line = format!(in alloc;
        "lock 0 sections {sections} taken {taken} adopted {adopted} granted {granted} "
    )?;
    Ok(count(text, &line) == 1)
}

/// Whether a fact holds of what was written.
fn is_fact(alloc: Global, fact: &str, ran: &Ran, kept: &str) -> Result<bool, AllocError> {
    let (key, rest) = split(fact);
    let (digits, part) = split(rest);
    let number = number(digits);
    let text = ran.text();
    match key {
        "size" => Ok(ran.written.len() == number),
        "longer" => Ok(ran.written.len() > number),
        "blocks" => Ok(blocks(text) == Some(number)),
        "turns" => Ok(turns_of(alloc, text, part)? == number as u64),
        "more" => Ok(count(text, part) > number),
        "kinds" => has_kinds(alloc, number, text, kept),
        _ => Ok(false),
    }
}

/// Whether all facts hold of it.
fn are_facts(alloc: Global, facts: &str, ran: &Ran, kept: &str) -> Result<bool, AllocError> {
    for fact in facts.lines() {
        if !is_fact(alloc, fact, ran, kept)? {
            return Ok(false);
        }
    }
    Ok(true)
}
