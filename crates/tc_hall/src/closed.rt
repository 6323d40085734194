//! The packages and lock states of a hall at its end.

ghost use Rattle.std.specs.Prelude.{◌≡◌};

use std::marker::Model;
use tc_context::package::Package;
use tc_segment::state::LockState;

/// The packages and lock states of a hall at its end. Only `Hall::close` makes it.
#[derive(Drop)]
pub struct Closed {
    pub(crate) packages: Vec<Package>,
    pub(crate) locks: Vec<LockState>,
}

impl Model for Closed {
    ghost use Rattle.tc_hall.specs.PassView.{ClosedView};

    ghost Value = { ClosedView };

    ghost view = { λ c. record { packages = c.packages.items; locks = c.locks.items } };
}

impl Closed {
    /// The packages of all threads, in order of thread. Each thread has ended.
    pub fn packages(&self) -> &[Package]
        ensures { result.now ≡ self.now.packages }
    {
        self.packages.as_slice()
    }

    /// The states of all locks, in order of lock.
    pub fn locks(&self) -> &[LockState]
        ensures { result.now ≡ self.now.locks }
    {
        self.locks.as_slice()
    }

    /// The packages and the lock states, as `packages` and `locks` lend them. The caller owns
    /// them.
    pub fn into_parts(self) -> (Vec<Package>, Vec<LockState>)
        ensures packages { result.0.items ≡ self.packages }
        ensures locks { result.1.items ≡ self.locks }
    {
        let Closed { packages, locks } = self;
        (packages, locks)
    }
}
