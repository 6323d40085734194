//! Stamps in halves.

ghost use Rattle.std.specs.Prelude.{◌≡◌};

use std::marker::Model;

/// A stamp as two numbers of 32 bits, so that what has one need not stand at a multiple of 8 bytes.
#[derive(Drop)]
pub(crate) struct Stamp {
    low: u32,
    high: u32,
}

impl Model for Stamp {
    ghost use Rattle.std.specs.Prelude.{ℕ, ◌+◌, ◌*◌, ◌^◌};

    ghost Value = { ℕ };

    ghost view = { λ s. s.low + 2 ^ 32 * s.high };
}

impl Stamp {
    /// This stamp.
    pub(crate) fn of(stamp: u64) -> Stamp
        ensures { result ≡ stamp }
    {
        Stamp {
            low: (stamp % 4_294_967_296) as u32,
            high: (stamp / 4_294_967_296) as u32,
        }
    }

    /// The stamp as one number.
    pub(crate) fn number(&self) -> u64
        ensures { result ≡ self.now }
    {
        u64::from(self.low) + 4_294_967_296 * u64::from(self.high)
    }
}
