//! Guests for tests, whose code is written as text, and questions about a report's lines.
//!
//! Only tests use it, and they check its results. So it promises the layers above only that each
//! call is safe, and ends.
//!
//! - `code`: words of code from their names. `file`: the files that hold them. `lines`: the lines of
//!   a text.
#![tactic(auto)]

pub mod code;
pub mod file;
pub mod lines;
