//! Numbers of a few bytes, little-endian.
//!
//! A number whose bytes are all in one list is read and written at once. Others are read and
//! written byte by byte.
//! Both short ways are always inlined, since they are in the loop over steps.

ghost use Rattle.std.specs.Prelude.{◌≡◌, ℕ, ◌+◌, ◌≤◌, ◌<◌, ◌^◌, true, length, drop, unwrap_or, IfSome};
ghost use Rattle.byteorder.specs.Endian.{little_number};
ghost use Rattle.tc_elf.specs.Places.{lies_in};
ghost use Rattle.tc_turn.specs.Memory.{IsAccess, byte_from, put_byte, put_number, number_at};

use byteorder::{ByteOrder, LittleEndian};

/// A byte at each address.
pub(crate) trait Bytes {
    ghost use Rattle.std.specs.Prelude.{ℕ};

    // The byte by its address.
    ghost bytes: { Self → ℕ → ℕ };

    /// The byte at an address.
    fn at(&self, addr: u32) -> u8
        ensures { result ≡ bytes self.now addr };
}

/// Bytes that stand from a start on, with 0 at every other address.
#[derive(Clone, Copy)]
struct Standing<'a> {
    start: u32,
    bytes: &'a [u8],
}

impl Bytes for Standing<'_> {
    ghost use Rattle.std.specs.Prelude.{unwrap_or};
    ghost use Rattle.tc_turn.specs.Memory.{byte_from};

    ghost bytes = { λ f at. unwrap_or (byte_from f.start f.bytes.now at) 0 };

    fn at(&self, addr: u32) -> u8 {
        byte_from(self.start, self.bytes, addr).unwrap_or(0)
    }
}

/// The byte at an address of the bytes that stand from `start` on.
pub(crate) fn byte_from(start: u32, bytes: &[u8], addr: u32) -> Option<u8>
    ensures { result ≡ byte_from start bytes.now addr }
{
    if addr < start {
        return None;
    }
    bytes.get((addr - start) as usize).copied()
}

/// The number in so many bytes from an address on, each asked for alone.
pub(crate) fn bytewise<B: Bytes>(bytes: &B, addr: u32, width: u32) -> u32
    requires { IsAccess addr width }
    ensures value { result ≡ number_at (B.bytes bytes.now) addr width }
    ensures bound { result < 256 ^ width }
{
    if width == 0 {
        return 0;
    }
    let low = u32::from(bytes.at(addr));
    if width == 1 {
        return low;
    }
    low + 256 * bytewise(bytes, addr + 1, width - 1)
}

/// Whether all bytes of an access are among those that stand from `start` on.
pub(crate) fn are_there(start: u32, bytes: &[u8], addr: u32, width: u32) -> bool
    ensures { result ≡ lies_in addr width start (length bytes.now) }
{
    addr >= start && addr as u64 + width as u64 <= start as u64 + bytes.len() as u64
}

/// The number of 1, 2 or 4 bytes from a place on.
fn whole(bytes: &[u8], at: usize, width: u32) -> Option<u32>
    requires { at + width ≤ length bytes.now }
    ensures { IfSome result (λ n. n ≡ little_number width (drop at bytes.now)) }
{
    let bytes = &bytes[at..];
    match width {
        1 => Some(u32::from(bytes[0])),
        2 => Some(u32::from(LittleEndian::read_u16(bytes))),
        4 => Some(LittleEndian::read_u32(bytes)),
        _ => None,
    }
}

/// The number of this width at an address of the bytes that begin at `start`. A byte that is not
/// there counts as 0.
pub fn number_from(start: u32, bytes: &[u8], addr: u32, width: u32) -> u32
    requires { IsAccess addr width }
    ensures { result
        ≡ number_at (λ at. unwrap_or (byte_from start bytes.now at) 0) addr width }
{
    if are_there(start, bytes, addr, width) {
        number_within(start, bytes, addr, width)
    } else {
        bytewise(&Standing { start, bytes }, addr, width)
    }
}

/// The same where all of these bytes are there.
#[inline(always)]
pub(crate) fn number_within(start: u32, bytes: &[u8], addr: u32, width: u32) -> u32
    requires there { lies_in addr width start (length bytes.now) ≡ true }
    requires access { IsAccess addr width }
    ensures { result
        ≡ number_at (λ at. unwrap_or (byte_from start bytes.now at) 0) addr width }
{
    match whole(bytes, (addr - start) as usize, width) {
        Some(number) => number,
        None => bytewise(&Standing { start, bytes }, addr, width),
    }
}

fn put_byte(start: u32, bytes: &mut [u8], addr: u32, value: u8)
    ensures { bytes.new ≡ put_byte start bytes.old addr value }
{
    if addr < start {
        return;
    }
    let place = (addr - start) as usize;
    if place < bytes.len() {
        bytes[place] = value;
    }
}

/// Writes the low `width` bytes of a value one by one.
fn put_bytewise(start: u32, bytes: &mut [u8], addr: u32, width: u32, value: u32)
    requires { addr + width ≤ 2 ^ 32 }
    ensures { bytes.new ≡ put_number start bytes.old addr width value }
{
    if width == 0 {
        return;
    }
    put_byte(start, bytes, addr, (value % 256) as u8);
    if width > 1 {
        put_bytewise(start, bytes, addr + 1, width - 1, value / 256);
    }
}

/// Writes the low `width` bytes of a value, little-endian, to the addresses from `addr` on. `bytes`
/// begin at `start`; what lies outside them is not written.
pub fn put_number(start: u32, bytes: &mut [u8], addr: u32, width: u32, value: u32)
    requires { addr + width ≤ 2 ^ 32 }
    ensures { bytes.new ≡ put_number start bytes.old addr width value }
{
    if are_there(start, bytes, addr, width) {
        put_within(start, bytes, addr, width, value);
    } else {
        put_bytewise(start, bytes, addr, width, value);
    }
}

/// The same where all of these addresses are there.
#[inline(always)]
pub(crate) fn put_within(start: u32, bytes: &mut [u8], addr: u32, width: u32, value: u32)
    requires there { lies_in addr width start (length bytes.old) ≡ true }
    requires fits { addr + width ≤ 2 ^ 32 }
    ensures { bytes.new ≡ put_number start bytes.old addr width value }
{
    let at = (addr - start) as usize;
    match width {
        4 => {
            bytes[at] = (value % 256) as u8;
            bytes[at + 1] = (value / 256 % 256) as u8;
            bytes[at + 1 + 1] = (value / 256 / 256 % 256) as u8;
            bytes[at + 1 + 1 + 1] = (value / 256 / 256 / 256 % 256) as u8;
        }
        2 => {
            bytes[at] = (value % 256) as u8;
            bytes[at + 1] = (value / 256 % 256) as u8;
        }
        _ => put_bytewise(start, bytes, addr, width, value),
    }
}
