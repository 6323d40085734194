//! The table of pairs.
//!
//! It has a line for each pair: x6, x7, and the result of each of the eight operations on them, in
//! hexadecimal digits. The values come from outside of this repository: the emulator QEMU (7.2,
//! riscv32) ran the instructions, and where C defines the operation, a program that gcc (12.2)
//! built for the host computed the same. The first four pairs are the corner cases of the
//! operations; then come all pairs of ten numbers at the ends of their ranges, among them 0 as a
//! divisor and the least number by -1; and then numbers of random lengths and signs.

use crate::head::head_of;
use crate::line::say_values;
use std::alloc::AllocError;
use tc_elf::image::Image;

/// The headings.
pub const HEADINGS: &str = "x6,x7,mul,mulh,mulhsu,mulhu,div,divu,rem,remu";

/// The pair at the head of a line.
fn pair_of(line: &str) -> Option<(u32, u32)> {
    let (x6, rest) = head_of(line)?;
    let (x7, _) = head_of(rest)?;
    Some((x6, x7))
}

/// Appends the line that `act` gives in the place of a line of the table.
pub fn say(said: &mut String, image: &Image, line: &str) -> Result<(), AllocError> {
    match pair_of(line) {
        Some((x6, x7)) => {
            write!(said, "{x6:08x},{x7:08x}")?;
            say_values(said, image, x6, x7)
        }
        None => said.push_str("no pair"),
    }
}
