//! Lines that say what the file is.
//!
//! - `smallest`: the smallest guest's file. `plain CODE`: the same with other code.
//! - `locks N`, `threads T ..`, and then `built CODE`: a built file. The code is that of guest_code.
//! - `empty`, `bytes DIGITS`: no bytes, and further bytes, by pairs of hexadecimal digits.
//! - `after LINE`: appends the line to the file. `history`: appends the blocks of the kept text.
//! - `length N`: the file has so many bytes, of which those past its end are zeros.

use crate::row::{Row, number};
use guest_code::file::{built, plain};
use guest_code::lines::history_in;
use std::alloc::{AllocError, Global};

/// Appends the bytes of these digits.
fn push_bytes(file: &mut Vec<u8>, digits: &str) -> Result<(), AllocError> {
    let mut rest = digits;
    for _ in 0..digits.len() / 2 {
        let Some((pair, behind)) = rest.split_at_checked(2) else {
            return Ok(());
        };
        file.push(u8::from_str_radix(pair, 16).unwrap_or(0))?;
        rest = behind;
    }
    Ok(())
}

/// Appends the history that is in a report.
fn push_history(alloc: Global, file: &mut Vec<u8>, report: &str) -> Result<(), AllocError> {
    let history = history_in(alloc, report)?;
    file.extend_from_slice(history.as_bytes())
}

/// Appends a line.
fn push_line(file: &mut Vec<u8>, line: &str) -> Result<(), AllocError> {
    file.extend_from_slice(line.as_bytes())?;
    file.push(b'\n')?;
    Ok(())
}

/// Changes the bytes of the file. False for any other line.
fn changes(alloc: Global, row: &mut Row, key: &str, rest: &str) -> Result<bool, AllocError> {
    match key {
        "empty" => row.file.clear(),
        "bytes" => push_bytes(&mut row.file, rest)?,
        "length" => row.file.resize(number(rest), 0)?,
        "history" => push_history(alloc, &mut row.file, &row.kept)?,
        "after" => push_line(&mut row.file, rest)?,
        _ => return Ok(false),
    }
    Ok(true)
}

/// Reads a line that says what the file is. False for any other line.
pub fn makes(alloc: Global, row: &mut Row, key: &str, rest: &str) -> Result<bool, AllocError> {
    match key {
        "smallest" => row.file = plain(alloc, "EXIT")?,
        "plain" => row.file = plain(alloc, rest)?,
        "locks" => row.locks = number(rest),
        "threads" => row.threads = String::from_str(alloc, rest)?,
        "built" => row.file = built(alloc, rest, &row.threads, row.locks)?,
        _ => return changes(alloc, row, key, rest),
    }
    Ok(true)
}
