//! Passes: access tokens of workers.

ghost use Rattle.std.specs.Prelude.{◌≡◌};

use crate::board::Sitting;
use std::marker::Model;

/// A worker's access token for one hall. Contracts see what it has out, the blocks that it sealed,
/// and the list of its calls.
#[derive(Drop)]
pub struct Pass {
    pub(crate) seat: Sitting,
    pub(crate) number: u32,
}

impl Model for Pass {
    ghost use Rattle.std.specs.Prelude.{◌≡◌, [], None, false};
    ghost use Rattle.tc_hall.specs.PassView.{PassView};

    ghost Value = { PassView };

    ghost view = { λ p. record { table = p.seat.table_id; seat = p.seat.id; knows = p.seat.me.0 } };

    ghost invariant = { λ p. (p.seat.me.1 ≡ [])
        × (p.seat.me.0.open_slot ≡ None)
        × (p.number ≡ p.seat.me.0.worker)
        × (p.seat.me.0.spent ≡ false) };
}

impl Pass {
    /// The number of its worker, which no other pass of its hall has.
    pub fn worker(&self) -> u32
        ensures { result ≡ self.now.knows.worker }
    {
        self.number
    }
}
