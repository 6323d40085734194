//! Words of code from their names.

use std::alloc::{AllocError, Global};

/// Pieces of code, a name and its words in each line.
///
/// KEEP is `addi x8,x10,0`, which keeps the answer of a call. LOCK_0 to LOCK_4 are `addi x10,x0,lock`,
/// `addi x17,x0,1` and `ecall`; UNLOCK_0 and UNLOCK_1 the same with 2 in x17. EXIT is `addi x17,x0,93`
/// and `ecall`. DATA is `lui x5,0x20`, the start of the data, and ADD adds 1 to the word there:
/// `lw x7,0(x5)`, `addi x7,x7,1` and `sw x7,0(x5)`.
const PIECES: &str = "\
ECALL 00000073
NOP 00000013
KEEP 00050413
LOCK_0 00000513 00100893 00000073
LOCK_1 00100513 00100893 00000073
LOCK_2 00200513 00100893 00000073
LOCK_3 00300513 00100893 00000073
LOCK_4 00400513 00100893 00000073
UNLOCK_0 00000513 00200893 00000073
UNLOCK_1 00100513 00200893 00000073
EXIT 05d00893 00000073
DATA 000202b7
ADD 0002a383 00138393 0072a023
";

/// The words of the piece of code that has this name. Any other name is that of a single word, in
/// hexadecimal digits.
fn words_of(name: &str) -> &str {
    for line in PIECES.lines() {
        if let Some((own, words)) = line.split_once(' ') {
            if own == name {
                return words;
            }
        }
    }
    name
}

/// Appends the words of code that have this name. If there are none, and it is no number, that is
/// the word 0, which is no instruction.
fn push_named(code: &mut Vec<u32>, name: &str) -> Result<(), AllocError> {
    for word in words_of(name).split_ascii_whitespace() {
        code.push(u32::from_str_radix(word, 16).unwrap_or(0))?;
    }
    Ok(())
}

/// Appends what a word of the text stands for: the words of a name, or of `N*NAME` so many times.
fn push_repeated(code: &mut Vec<u32>, written: &str) -> Result<(), AllocError> {
    let Some((count, name)) = written.split_once('*') else {
        return push_named(code, written);
    };
    for _ in 0..count.parse::<u32>().unwrap_or(0) {
        push_named(code, name)?;
    }
    Ok(())
}

/// The words of code that a text names: pieces by their names, single words by their hexadecimal
/// digits, and `N*NAME` for a name N times.
pub fn code_of(alloc: Global, text: &str) -> Result<Vec<u32>, AllocError> {
    let mut code = Vec::new(alloc);
    for written in text.split_ascii_whitespace() {
        push_repeated(&mut code, written)?;
    }
    Ok(code)
}
