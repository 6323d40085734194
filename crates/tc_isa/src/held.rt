//! The set of locks that a thread holds.

ghost use Rattle.std.specs.Prelude.{◌≡◌, ℕ, ◌<◌, ◌||◌, ◌&&◌, ◌==◌, not, MatchOption, IfSome, length};
ghost use Rattle.tc_isa.specs.Sets.{has, locks_of, with_lock, without_lock, IsGreatest, IsLeast};

use std::marker::Model;

/// A set of lock numbers below 32. Contracts see the number whose bits are the set, so equal sets
/// are equal values.
#[derive(Clone, Copy, Debug, PartialEq, Eq)]
pub struct Held {
    locks: u32,
}

impl Model for Held {
    ghost use Rattle.std.specs.Prelude.{ℕ, ◌<◌, ◌^◌};

    ghost Value = { ℕ };

    ghost view = { λ h. h.locks };

    ghost invariant = { λ h. h.locks < 2 ^ 32 };

    ghost inverse = { λ n. record { locks = n } };
}

impl Held {
    /// The number of places of a held set, one for each lock number that it may have. How many
    /// guards a guest's file may have is a separate limit.
    pub const PLACES: u32 = 32;

    /// The set of no lock.
    pub fn none() -> Held
        ensures { result ≡ 0 }
    {
        Held { locks: 0 }
    }

    /// The number whose bits are the locks of the set, the lowest bit for lock 0.
    pub fn bits(self) -> u32
        ensures { result ≡ self }
    {
        self.locks
    }

    /// Whether a lock is in the set. A number above 31 is in none.
    pub fn has(self, lock: u32) -> bool
        ensures { result ≡ has self lock }
    {
        lock < Held::PLACES && self.locks >> lock & 1 == 1
    }

    /// The set with a lock, which may be in it already.
    pub fn plus(self, lock: u32) -> Held
        requires { lock < 32 }
        ensures value { result ≡ with_lock self lock }
        ensures each { (other : ℕ) → has result other ≡ ((other == lock) || has self other) }
    {
        Held {
            locks: self.locks | 1 << lock,
        }
    }

    /// The set without a lock, which need not be in it.
    pub fn less(self, lock: u32) -> Held
        requires { lock < 32 }
        ensures value { result ≡ without_lock self lock }
        ensures each { (other : ℕ) → has result other ≡ (not (other == lock) && has self other) }
    {
        Held {
            locks: self.locks & !(1 << lock),
        }
    }

    /// How many locks are in the set.
    pub fn count(self) -> u32
        ensures { result ≡ length (locks_of self) }
    {
        self.locks.count_ones()
    }

    /// The greatest lock of the set, None of the empty one.
    pub fn greatest(self) -> Option<u32>
        ensures value { MatchOption result (self ≡ 0) (λ lock. IsGreatest self lock) }
        ensures bound { IfSome result (λ lock. lock < 32) }
    {
        if self.locks == 0 {
            None
        } else {
            Some(Held::PLACES - 1 - self.locks.leading_zeros())
        }
    }

    /// The least lock of the set, None of the empty one.
    pub fn least(self) -> Option<u32>
        ensures value { MatchOption result (self ≡ 0) (λ lock. IsLeast self lock) }
        ensures bound { IfSome result (λ lock. lock < 32) }
    {
        if self.locks == 0 {
            None
        } else {
            Some(self.locks.trailing_zeros())
        }
    }
}
