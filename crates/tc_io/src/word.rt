//! Command-line arguments.

ghost use Rattle.std.specs.Prelude.{◌≡◌, IfOk};

use std::alloc::{AllocError, Global};
use std::marker::Model;

/// A command-line argument, which need not be text. Contracts see its bytes.
#[derive(Drop)]
pub struct Word {
    bytes: Vec<u8>,
}

impl Model for Word {
    ghost use Rattle.std.specs.Prelude.{List, ℕ};

    ghost Value = { List ℕ };

    ghost view = { λ w. w.bytes.items };
}

impl Word {
    /// An argument with a copy of these bytes.
    pub fn from_bytes(alloc: Global, bytes: &[u8]) -> Result<Word, AllocError>
        ensures { IfOk result (λ w. w ≡ bytes.now) }
    {
        Ok(Word {
            bytes: Vec::from_slice(alloc, bytes)?,
        })
    }

    /// The bytes of the argument.
    pub fn bytes(&self) -> &[u8]
        ensures { result.now ≡ self.now }
    {
        &self.bytes
    }
}
