//! Compares the instructions with other tools: `decode` and `encode` of 1,778 words, and the
//! multiplications and divisions of 220 pairs of numbers.
//!
//! Two tables come on standard input, one after the other, from `stdin` of this folder: each has a
//! line of headings, and then a line for each word or pair. One line is printed for each word and
//! each pair that differs, and at the end how many of either agree.
//!
//! - `head`: the number at the head of a line.
//! - `words`: the table of words, whose rows `row` has as `decode` reads them.
//! - `pairs`: the table of pairs, whose values `line` has as `act` computes them.
#![tactic(auto)]

mod head;
mod line;
mod pairs;
mod row;
mod words;

use line::FILE;
use std::alloc::{AllocError, Global};
use std::io;
use tc_elf::image::Image;
use tc_elf::load::load;

/// A table of the input.
#[derive(Clone, Copy)]
enum Table {
    Words,
    Pairs,
}

/// How many lines a table has, and how many of them agree.
#[derive(Clone, Copy)]
struct Tally {
    lines: u64,
    agree: u64,
}

impl Tally {
    fn new() -> Tally {
        Tally { lines: 0, agree: 0 }
    }

    fn count(&mut self, agrees: bool) {
        self.lines = self.lines.saturating_add(1);
        self.agree = self.agree.saturating_add(u64::from(agrees));
    }
}

/// The table that begins with these headings.
fn table_of(line: &str) -> Option<Table> {
    match line {
        words::HEADINGS => Some(Table::Words),
        pairs::HEADINGS => Some(Table::Pairs),
        _ => None,
    }
}

/// The tables, as far as they were read.
#[derive(Drop)]
struct Tables {
    table: Table,
    words: Tally,
    pairs: Tally,
    /// What stands here in the place of the last line.
    said: String,
    /// The lines that differ, as they are printed.
    differ: String,
}

impl Tables {
    fn new(alloc: Global) -> Tables {
        Tables {
            table: Table::Words,
            words: Tally::new(),
            pairs: Tally::new(),
            said: String::new(alloc),
            differ: String::new(alloc),
        }
    }

    /// Counts the last line, and notes it if it differs.
    fn count(&mut self, line: &str) -> Result<(), AllocError> {
        let agrees = self.said.as_str() == line;
        match self.table {
            Table::Words => self.words.count(agrees),
            Table::Pairs => self.pairs.count(agrees),
        }
        if agrees {
            return Ok(());
        }
        let said = self.said.as_str();
        writeln!(self.differ, "the table has {line}, and here stands {said}")
    }

    /// Reads a line.
    fn read(&mut self, image: &Image, line: &str) -> Result<(), AllocError> {
        if let Some(next) = table_of(line) {
            self.table = next;
            return Ok(());
        }
        self.said.clear();
        match self.table {
            Table::Words => words::say(&mut self.said, line)?,
            Table::Pairs => pairs::say(&mut self.said, image, line)?,
        }
        self.count(line)
    }

    /// Reads the lines of a text.
    fn read_all(&mut self, image: &Image, text: &str) -> Result<(), AllocError> {
        for line in text.lines() {
            self.read(image, line)?;
        }
        Ok(())
    }
}

/// The tables of a text; none if the guest file of the pairs is not loaded.
fn tables_of(alloc: Global, text: &str) -> Result<Tables, AllocError> {
    let mut tables = Tables::new(alloc);
    if let Ok(image) = &load(alloc, &FILE) {
        tables.read_all(image, text)?;
    }
    Ok(tables)
}

fn main(rt: HostRuntime) -> io::Result<()> {
    let text = io::read_to_string(rt.alloc(), rt.reader())?;
    let tables = tables_of(rt.alloc(), &text)?;
    let (words, pairs) = (tables.words, tables.pairs);
    println!(rt;
        "{}{} words: {} agree\n{} pairs: {} agree",
        tables.differ, words.lines, words.agree, pairs.lines, pairs.agree
    )
}
