//! The table of words.
//!
//! It has a line `word,row,rd,rs1,rs2,imm` for each word, in ascending order. The columns come from
//! outside of this repository: objdump of GNU Binutils and the disassembler of LLVM named the
//! instruction, its registers and its immediate, and the emulator QEMU, with all extensions but M
//! turned off, said which words are legal. A word that QEMU takes for no instruction of RV32IM is
//! `undefined`, though a disassembler may know it from an extension, as 0a7342b3 (`min`). The words
//! are some of every instruction, each with single bits turned, and random ones.
//!
//! A word agrees if `decode` says of it what the table's line says, and `encode` gives it back.

use crate::head::head_of;
use crate::row;
use std::alloc::AllocError;
use tc_isa::decode::decode;
use tc_isa::encode::encode;

/// The headings.
pub const HEADINGS: &str = "word,row,rd,rs1,rs2,imm";

/// Appends the row of a word, as `decode` reads it, and whether `encode` gives back another word.
fn say_row(said: &mut String, word: u32) -> Result<(), AllocError> {
    let Some(instr) = decode(word) else {
        return said.push_str(",undefined,,,,");
    };
    row::say(said, &instr)?;
    if encode(&instr) == word {
        return Ok(());
    }
    said.push_str(", which is encoded otherwise")
}

/// Appends the line that `decode` gives in the place of a line of the table, if `encode` gives its
/// word back.
pub fn say(said: &mut String, line: &str) -> Result<(), AllocError> {
    match head_of(line) {
        Some((word, _)) => {
            write!(said, "{word:08x}")?;
            say_row(said, word)
        }
        None => said.push_str("no word"),
    }
}
