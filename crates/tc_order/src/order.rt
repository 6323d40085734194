//! An order of the waiters of a lock.

ghost use Rattle.std.specs.Prelude.{ℕ, ◌≡◌, Some, List, true};
ghost use Rattle.tc_queue.specs.declared.turn.Turn.{Turn};
ghost use Rattle.tc_queue.specs.Words.{IsTurn};
ghost use Rattle.tc_queue.specs.View.{QueueView};
ghost use Rattle.tc_queue.specs.Lines.{SeatView, LineCall, Enter, Link, Next, Leave};
ghost use Rattle.tc_queue.specs.Lines.{MayCall, with_line, answer};
ghost use Rattle.tc_hall.specs.PassView.{HallView, PassView};
ghost use Rattle.tc_hall.specs.declared.board.PassCall.{PassCall};
ghost use Rattle.tc_hall.specs.Standing.{IfLined, EntersAs, LinksAs, StandsAs, loose};
ghost use Rattle.tc_order.specs.Order.{IsLinkableThen, Told, hall_notes};

use std::sync::Wait;
use tc_hall::hall::Hall;
use tc_hall::pass::Pass;
use tc_queue::{Arrival, Departure, Turn};

/// Who waits for one lock, and in which order. Each call appends itself, with its answer, to the
/// list of its seat, and to that of the pass what the order notes there.
pub trait Order: Sync {
    /// A handle through which a caller makes its calls.
    type Seat: Send + Drop;

    /// What `enter` gives and `link` takes: the place of the entrant.
    type Place: Drop;

    /// Which queue it is, and the number of threads that it was made for.
    ghost queue: { Self → QueueView };

    /// Which queue's seat it is, and its calls.
    ghost seen: { Self.Seat → SeatView };

    /// The number that identifies a place in the lists.
    ghost mark: { Self.Place → ℕ };

    /// Whether it may be used with this hall.
    ghost fits: { Self → HallView → Type 0 };

    /// Whether it is the order of this lock's waiters.
    ghost of: { Self → ℕ → Type 0 };

    /// What a call with its answer notes in the list of the pass.
    ghost notes: { Self → LineCall → List PassCall → Type 0 };

    /// Whether the turn may be linked to the place by this pass with this seat.
    ghost links: { Self → PassView → Self.Seat → Self.Place → Turn → Type 0 };

    /// Enters with a turn. If it answers a place, the caller still has to link it: it may do so
    /// after one call of the hall.
    fn enter(
        &self,
        hall: &Hall,
        pass: &mut Pass,
        seat: &mut Self::Seat,
        turn: Turn,
    ) -> Arrival<Self::Place>
        requires own { (pass.old.table ≡ hall.now.table) × fits self.now hall.now }
        requires may { MayCall (queue self.now) (seen seat.old) turn }
        requires stands { (i : ℕ) → of self.now i → IfLined hall.now.terms pass.old.knows
            (EntersAs pass.old.knows i turn) }
        ensures call { seen seat.new ≡ with_line (seen seat.old) (Enter turn (answer mark result)) }
        ensures told { Told (notes self.now (Enter turn (answer mark result))) pass.old pass.new }
        ensures may { IsLinkableThen (λ p place. links self.now p seat.new place turn)
            result pass.new };

    /// Links this turn behind the one that the place stands for.
    fn link(
        &self,
        hall: &Hall,
        pass: &mut Pass,
        seat: &mut Self::Seat,
        place: Self::Place,
        own: Turn,
    )
        requires own { (pass.old.table ≡ hall.now.table) × fits self.now hall.now }
        requires may { MayCall (queue self.now) (seen seat.old) own }
        requires linked { links self.now pass.old seat.old place own }
        requires stands { (i : ℕ) → of self.now i → IfLined hall.now.terms pass.old.knows
            (LinksAs pass.old.knows i own) }
        ensures call { seen seat.new ≡ with_line (seen seat.old) (Link (mark place) own) }
        ensures told { Told (notes self.now (Link (mark place) own)) pass.old pass.new };

    /// The turn that comes after this one, if it is known.
    fn next<R: Wait>(
        &self,
        rt: &R,
        hall: &Hall,
        pass: &mut Pass,
        seat: &mut Self::Seat,
        own: Turn,
    ) -> Option<Turn>
        requires own { (pass.old.table ≡ hall.now.table) × fits self.now hall.now }
        requires may { MayCall (queue self.now) (seen seat.old) own }
        requires stands { (i : ℕ) → of self.now i → IfLined hall.now.terms pass.old.knows
            (StandsAs pass.old.knows i (loose own)) }
        ensures call { seen seat.new ≡ with_line (seen seat.old) (Next own result) }
        ensures told { Told (notes self.now (Next own result)) pass.old pass.new }
        ensures turn { (u : Turn) → result ≡ Some u → IsTurn (queue self.now).threads u };

    /// Leaves, if nobody comes after this turn.
    fn leave<R: Wait>(
        &self,
        rt: &R,
        hall: &Hall,
        pass: &mut Pass,
        seat: &mut Self::Seat,
        own: Turn,
    ) -> Departure
        requires own { (pass.old.table ≡ hall.now.table) × fits self.now hall.now }
        requires may { MayCall (queue self.now) (seen seat.old) own }
        requires stands { (i : ℕ) → of self.now i → IfLined hall.now.terms pass.old.knows
            (StandsAs pass.old.knows i (loose own)) }
        ensures call { seen seat.new ≡ with_line (seen seat.old) (Leave own result) }
        ensures told { Told (notes self.now (Leave own result)) pass.old pass.new };

    /// In a hall with lines a call notes in the list of the pass that it was made on the line of its
    /// lock, and nothing else.
    ghost lined: { (a : Self) (h : HallView) (i : ℕ) (c : LineCall) (cs : List PassCall) → fits a h
        → of a i → h.terms.lined ≡ true → notes a c cs → hall_notes i c cs };

    /// In such a hall it is the order of one lock.
    ghost alone: { (a : Self) (h : HallView) (i j : ℕ) → fits a h → of a i → of a j
        → h.terms.lined ≡ true → i ≡ j };
}
