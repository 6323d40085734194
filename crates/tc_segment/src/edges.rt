//! The registers before and after blocks, packed one after another.

ghost use Rattle.std.specs.Prelude.{◌≡◌, ◌≤◌, length};
ghost use Rattle.tc_segment.specs.Packed.{IsPlace, StandsBeside, HasReserved, behind, regs_at};
ghost use Rattle.tc_segment.specs.declared.packed.TheConstants.{MOST_WORDS};

use crate::packed::{MOST_WORDS, Packed, unpack};
use crate::room::{make_row, make_words};
use std::alloc::{AllocError, Global};
use std::marker::Model;
use tc_isa::regs::Regs;

/// Packed registers at places.
#[derive(Drop)]
pub(crate) struct Edges {
    // Those that are noted end there. The words behind them mean nothing, and are written over.
    words: Vec<u32>,
    end: usize,
}

impl Model for Edges {
    ghost use Rattle.tc_segment.specs.Packed.{Edges};

    ghost Value = { Edges };

    ghost use Rattle.tc_segment.specs.Edges.{edges_view, KeptEdges};

    ghost view = { λ e. edges_view e };

    ghost invariant = { λ e. KeptEdges e };
}

impl Edges {
    /// None.
    pub(crate) fn new(alloc: Global) -> Edges
        ensures { length result.words ≡ 0 }
    {
        Edges {
            words: Vec::new(alloc),
            end: 0,
        }
    }

    /// Makes room for so many words.
    pub(crate) fn reserve(&mut self, words: usize) -> Result<(), AllocError>
        ensures { HasReserved words self.old self.new result }
    {
        let behind = self.words.len() - self.end;
        make_words(&mut self.words, words.saturating_sub(behind))
    }

    /// Notes these registers behind all others, and tells their place.
    pub(crate) fn note(&mut self, packed: &Packed) -> u32
        requires { MOST_WORDS ≤ self.old.room }
        ensures { StandsBeside packed.now self.old self.new result }
    {
        let place = self.end;
        make_row(&mut self.words, place);
        let row = &mut self.words[place..place + MOST_WORDS];
        self.end = place + packed.write(row);
        place as u32
    }

    /// The registers at a place.
    pub(crate) fn at(&self, place: u32) -> Regs
        requires { IsPlace self.now.words place }
        ensures { result ≡ regs_at self.now.words place }
    {
        unpack(&self.words[..self.end], place)
    }

    /// The registers that stand right behind those at a place.
    pub(crate) fn behind(&self, place: u32) -> Regs
        requires before { IsPlace self.now.words place }
        requires behind { IsPlace self.now.words (behind self.now.words place) }
        ensures { result ≡ regs_at self.now.words (behind self.now.words place) }
    {
        let words = &self.words[..self.end];
        let before = Packed::of(&unpack(words, place));
        unpack(words, place + before.count())
    }
}
