//! Lists that only contracts read (ghost lists).
//!
//! A type may represent a list by numbers alone. It then has the list itself as a `Noted`: what was
//! added to it, in order. Contracts and invariants read it as a list; the program cannot. It takes
//! no memory, and noting a thing has no effect when the program runs.
//!
//! Promises: the list is empty at first, and each note appends its thing. It does not
//! promise that the holder notes all that it should; the holder's own contracts have to say
//! so.
//!
//! - `specs/Items.antt`: the list, read from the chain of its snapshots.
#![tactic(auto)]

ghost use Rattle.std.specs.Prelude.{◌≡◌, [], ◌∷◌, ◌++◌};

use std::marker::Model;
use std::snapshot::Snapshot;

/// A list that only contracts read: the things that were noted, in their order.
#[cycle(noted)]
#[derive(Drop)]
pub struct Noted<T> {
    link: Link<T>,
}

/// The list as it was before its last thing, and that thing. Neither has bytes.
#[cycle(noted)]
#[derive(Drop)]
enum Link<T> {
    Nothing,
    Behind(Snapshot<Noted<T>>, Snapshot<T>),
}

impl<T> Model for Noted<T> {
    ghost use Rattle.std.specs.Prelude.{List, length};

    ghost Value = { List T };

    ghost use Rattle.tc_noted.specs.Items.{items};

    ghost view = { λ n. items n.link };

    ghost size = { length };

    ghost use Rattle.std.proofs.Common.{arith, length-append};

    ghost size_decreases = { λ n h. Prim.grind (arith, length-append) };
}

impl<T> Noted<T> {
    /// The list in which nothing was noted.
    pub fn nothing() -> Noted<T>
        ensures { result ≡ [] }
    {
        Noted {
            link: Link::Nothing,
        }
    }

    /// Appends a thing to those that were noted.
    pub fn note(&mut self, x: &T)
        ensures { self.new ≡ self.old ++ x.now ∷ [] }
    {
        let before = Snapshot::of(self);
        self.link = Link::Behind(before, Snapshot::of(x));
    }
}
