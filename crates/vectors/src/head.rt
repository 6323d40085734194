//! The number at the head of a line.

/// The number before the first comma, which is in hexadecimal digits, and what is behind the comma.
pub fn head_of(line: &str) -> Option<(u32, &str)> {
    let (digits, rest) = line.split_once(',')?;
    let number = u32::from_str_radix(digits, 16).ok()?;
    Some((number, rest))
}
