//! Registers in few words: the program counter, a mask, and the numbers that are not the usual ones.

ghost use Rattle.std.specs.Prelude.{◌≡◌, ◌∷◌, length, drop, slice_index};
ghost use Rattle.tc_isa.specs.Registers.{Registers};
ghost use Rattle.tc_segment.specs.Packed.{ArePacked, IsPlace, mask_of, regs_at, packed, usual};
ghost use Rattle.tc_segment.specs.declared.packed.TheConstants.{MOST_WORDS};

use std::marker::Model;
use std::simd::prelude::*;
use tc_isa::reg::Reg;
use tc_isa::regs::Regs;

/// The most words that registers take.
pub(crate) const MOST_WORDS: usize = 33;

/// The number of LOCK, which x17 has where a section begins.
const LOCK: u32 = 1;

/// Registers, packed. A value is made once and used again, since it takes the same memory for all
/// registers.
#[derive(Drop)]
pub struct Packed {
    words: [u32; MOST_WORDS],
    end: usize,
}

impl Model for Packed {
    ghost Value = { Registers };

    ghost view = { λ p. regs_at p.words 0 };

    ghost invariant = { λ p. ArePacked p.words p.end (regs_at p.words 0) };
}

impl Packed {
    /// These registers, packed.
    pub fn of(regs: &Regs) -> Packed
        ensures { result ≡ regs.now }
    {
        let mut words = [0; MOST_WORDS];
        let end = pack(regs, &mut words);
        Packed { words, end }
    }

    /// Packs these registers in place of the old ones. Allocates nothing.
    pub fn set(&mut self, regs: &Regs)
        ensures { self.new ≡ regs.now }
    {
        self.end = pack(regs, &mut self.words);
    }

    /// How many words they take.
    pub(crate) fn count(&self) -> u32
        ensures { result ≡ length (packed self.now) }
    {
        self.end as u32
    }

    /// Writes them at the front of the row, and tells where they end. What stands behind them then is
    /// not told: one of two pieces of a fixed size is copied, which needs neither a loop nor a call.
    pub(crate) fn write(&self, row: &mut [u32]) -> usize
        requires { length row.old ≡ MOST_WORDS }
        ensures { ArePacked row.new result self.now }
    {
        let end = self.end;
        if end <= 8 {
            u32x8::from_slice(&self.words).copy_to_slice(row);
        } else {
            u32x32::from_slice(&self.words).copy_to_slice(row);
            row[32] = self.words[32];
        }
        end
    }
}

/// Packs these registers at the front of the buffer, and tells where they end.
fn pack(regs: &Regs, buffer: &mut [u32; MOST_WORDS]) -> usize
    ensures { ArePacked buffer.new result regs.now }
{
    let words = regs.words();
    let mask = mask_of(words);
    buffer[0] = regs.pc();
    buffer[1] = mask;
    let mut end = 2;
    let mut left = mask;
    while left != 0 {
        let number = left.trailing_zeros() as usize + 1;
        left &= left - 1;
        buffer[end] = words[number];
        end += 1;
    }
    end
}

/// The mask of all words but the first, which is 0.
fn mask_of(words: &[u32; 32]) -> u32
    requires { slice_index words.now 0 ≡ 0 }
    ensures { result ≡ mask_of usual (drop 1 words.now) }
{
    let unusual = u32x32::from_array(*words).simd_ne(u32x32::from_array(usual()));
    (unusual.to_bitmask() / 2) as u32
}

/// The usual numbers of all registers: 0, but in x2 the end of a thread's stack, and in x17 the
/// number of LOCK.
#[inline(always)]
fn usual() -> [u32; 32]
    ensures { result ≡ 0 ∷ usual }
{
    let mut words = [0; 32];
    words[2] = 0x8000_0000;
    words[17] = LOCK;
    words
}

/// The registers that stand at this place.
pub(crate) fn unpack(words: &[u32], place: u32) -> Regs
    requires { IsPlace words.now place }
    ensures { result ≡ regs_at words.now place }
{
    let place = place as usize;
    let mut regs = Regs::start(word_at(words, place), 0, 0);
    regs.put(Reg::of(17), LOCK);
    let mut mask = word_at(words, place + 1);
    let mut at = place + 2;
    for number in 1..32 {
        if mask % 2 == 1 {
            regs.put(Reg::of(number), word_at(words, at));
            at += 1;
        }
        mask /= 2;
    }
    regs
}

fn word_at(words: &[u32], at: usize) -> u32
    ensures { result ≡ slice_index words.now at }
{
    if at < words.len() { words[at] } else { 0 }
}
