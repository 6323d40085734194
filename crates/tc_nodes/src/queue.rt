//! The waiting queue of one lock that knows on which node each waiter is, and its
//! seats.

ghost use Rattle.std.specs.Prelude.{◌≡◌, ℕ, IfOk, [], ◌∷◌, Some};
ghost use Rattle.tc_queue.specs.declared.turn.Turn.{Turn};
ghost use Rattle.tc_queue.specs.declared.turn.Departure.TheVariants.{Left};
ghost use Rattle.tc_queue.specs.Words.{IsTurn};
ghost use Rattle.tc_queue.specs.Lines.{MayCall, MayStep};
ghost use Rattle.tc_nodes.specs.declared.step.LineStep.TheVariants.{Enter, Link};
ghost use Rattle.tc_nodes.specs.Line.{MayLineUp};
ghost use Rattle.tc_nodes.specs.Lines.{queue_as, seat_as};
ghost use Rattle.tc_nodes.specs.Order.{answer_to_enter, enter_call, stand_after, stand_left};
ghost use Rattle.tc_nodes.specs.Steps.{HasLine, HasNoSlot, HasNoWaiter, HasOwnLine, HasSlot, HasWaiter, did_put_back, did_stay};
ghost use Rattle.tc_nodes.specs.View.{Becomes, DidAt, DidExchange, DidLeave, DidNext, DidRead, DidReturn, IsAt, IsFilled, IsNextCell, IsOpened, IsTaken, MayLinkAt, MaySeat, MayStepAt, Picks, TellsWaiting, Tries, with_calls};

use crate::board;
use crate::board::{
    AddNodeSeat, Named, NodeTable, NodeTableSeat, NodeTerms, PutBack, Stand, TakeLine,
};
use crate::cells::Placed;
use crate::line::Line;
use crate::step::Entered;
use atomic_table::{Refused, Table};
use crossbeam_utils::Backoff;
use std::alloc::{AllocError, Global};
use std::marker::{Brand, Model};
use std::sync::Wait;
use tc_queue::{Departure, Turn};

/// The count, the word of the line, and the cells.
const WORDS: usize = 66;

/// The waiters of one lock, each on a node.
#[derive(Drop)]
pub struct NodeQueue {
    board: NodeTable,
    threads: u32,
    bound: u32,
}

impl Model for NodeQueue {
    ghost use Rattle.tc_nodes.specs.View.{NodeQueueView, IsTableFor, queue_view};

    ghost Value = { NodeQueueView };

    ghost view = { λ q. queue_view q.board.shared.table_id q.threads q.bound };

    ghost invariant = { λ q. IsTableFor q.threads q.bound q.board.shared.key q.board.shared.table_id };
}

/// A handle through which a caller makes its calls. A seat belongs to one queue and one node;
/// contracts see the list of the steps that were made with it.
#[derive(Drop)]
pub struct NodeSeat {
    place: NodeTableSeat,
    node: u32,
}

impl Model for NodeSeat {
    ghost use Rattle.std.specs.Prelude.{◌≡◌, ◌<◌, [], None};
    ghost use Rattle.tc_nodes.specs.View.{NodeSeatView, seat_view};

    ghost Value = { NodeSeatView };

    ghost view = { λ s. seat_view s.place.table_id s.place.id s.node s.place.me.0 };

    ghost invariant = { λ s. (s.place.me.1 ≡ []) × (s.place.me.0.hand ≡ None) × (s.node < 8) };
}

impl NodeQueue {
    /// An empty queue for so many threads, and its seats, each on the node of its number modulo the
    /// number of nodes. Once a waiter's turn is in the line, at most as many later turns are picked
    /// before it as the bound says.
    pub fn new(
        alloc: Global,
        threads: u32,
        seats: u32,
        nodes: u32,
        bound: u32,
    ) -> Result<(NodeQueue, Vec<NodeSeat>), AllocError>
        requires line { MayLineUp threads bound }
        requires seats { MaySeat seats nodes }
        ensures { IfOk result (λ made. IsOpened threads bound seats nodes made.0 made.1.items) }
    {
        let mut made = Vec::with_capacity(alloc, seats as usize)?;
        let words = Vec::from_elem(alloc, 0u64, WORDS)?;
        let mut slots = Vec::with_capacity(alloc, 1)?;
        let line = Line::new(alloc, threads, bound)?;
        slots.push_reserved(Stand { line, read: 0 });
        let terms = NodeTerms { threads, bound };
        let (board, mut first) = match Table::new(alloc, words.as_slice(), slots, &terms) {
            Ok(made) => made,
            Err(Refused { slots: _ }) => return Err(AllocError),
        };
        for seated in 0..seats - 1 {
            let place = board.shared.split_seat::<AddNodeSeat>(&mut first);
            made.push_reserved(NodeSeat {
                place,
                node: seated % nodes,
            });
        }
        made.push_reserved(NodeSeat {
            place: first,
            node: (seats - 1) % nodes,
        });
        let queue = NodeQueue {
            board,
            threads,
            bound,
        };
        Ok((queue, made))
    }

    /// Counts one more who entered. If the count was 0, nobody was there; otherwise the place is
    /// the old count.
    pub fn enter(&self, seat: &mut NodeSeat, turn: Turn) -> Entered
        requires { MayCall (queue_as self.now) (seat_as seat.old) turn }
        ensures call { seat.new ≡ with_calls (Enter turn result ∷ []) seat.old }
        ensures step { (found : ℕ) × (result ≡ answer_to_enter found) }
    {
        match self.add_one::<Brand>(seat, &turn) {
            0 => Entered::First,
            found => Entered::Behind(found),
        }
    }

    fn add_one<J: Named>(&self, seat: &mut NodeSeat, turn: &Turn) -> u64
        requires { MayStep (queue_as self.now) (seat_as seat.old) turn.now J.own }
        ensures call { seat.new ≡ with_calls (enter_call turn.now result ∷ []) seat.old }
    {
        let _ = turn;
        self.board
            .shared
            .fetch_add::<board::Enter<J>>(&mut seat.place, 0, 1)
    }

    /// Puts the turn into the cell of its place, with the seat's node.
    pub fn link(&self, seat: &mut NodeSeat, place: u64, own: Turn)
        requires { MayLinkAt self.now seat.old own place }
        ensures call { seat.new ≡ with_calls (Link place own seat.old.node ∷ []) seat.old }
    {
        self.store_cell::<Brand>(seat, place, &own);
    }

    fn store_cell<J: Named>(&self, seat: &mut NodeSeat, place: u64, own: &Turn)
        requires may { MayLinkAt self.now seat.old own.now place }
        requires picked { (own.now ≡ J.own) × (place ≡ J.place) × (seat.old.node ≡ J.node) }
        ensures call { seat.new ≡ with_calls (Link place own.now seat.old.node ∷ []) seat.old }
    {
        let cell = (place % 64) as usize + 2;
        let placed = Placed {
            turn: *own,
            node: seat.node,
        };
        self.board
            .shared
            .store::<board::Link<J>>(&mut seat.place, cell, placed.to_word());
    }

    /// The turn that comes after this one, of those that are linked: the oldest if it was passed
    /// over as often as the bound allows, else the oldest of the seat's node, else the oldest. It
    /// waits while another seat has the line.
    pub fn next<R: Wait>(&self, rt: &R, seat: &mut NodeSeat, own: Turn) -> Option<Turn>
        requires { MayCall (queue_as self.now) (seat_as seat.old) own }
        ensures next { DidNext own seat.old.node result seat.old seat.new }
        ensures turn { (u : Turn) → result ≡ Some u → IsTurn self.now.threads u }
    {
        self.take(rt, &mut seat.place);
        self.fill(rt, &mut seat.place);
        self.give::<Brand>(&mut seat.place, &own, seat.node)
    }

    /// Leaves, if nobody waits in the line and everyone who entered was read but the first. It
    /// waits while another seat has the line.
    pub fn leave<R: Wait>(&self, rt: &R, seat: &mut NodeSeat, own: Turn) -> Departure
        requires { MayCall (queue_as self.now) (seat_as seat.old) own }
        ensures { DidLeave own result seat.old seat.new }
    {
        self.take(rt, &mut seat.place);
        if self.has_waiter(&mut seat.place) {
            self.stay::<Brand>(&mut seat.place, &own);
            return Departure::Followed;
        }
        let answer = self.exchange::<Brand>(&mut seat.place, &own);
        self.put_back(&mut seat.place);
        answer
    }

    /// Takes the line, if it is in its slot.
    fn try_take(&self, place: &mut NodeTableSeat) -> bool
        requires { IsAt self.now HasNoSlot place.old }
        ensures { DidAt (Tries result) place.old place.new }
    {
        self.board
            .shared
            .compare_exchange::<TakeLine>(place, 1, 0, 1)
            == 0
    }

    /// Takes the line, with as many tries as needed.
    fn take<R: Wait>(&self, rt: &R, place: &mut NodeTableSeat)
        requires { IsAt self.now HasNoSlot place.old }
        ensures { DidAt IsTaken place.old place.new }
    {
        let pause = Backoff::new();
        for _ in rt.forever() {
            if self.try_take(place) {
                return;
            }
            pause.snooze();
        }
    }

    /// The number of the next cell to read.
    fn next_cell(&self, place: &mut NodeTableSeat) -> u64
        requires { IsAt self.now HasLine place.old }
        ensures { DidAt (IsNextCell result) place.old place.new }
    {
        let stand = place.slot_mut(&self.board.shared, 0);
        stand.read.wrapping_add(1)
    }

    /// Puts what was found in a cell into the line.
    fn put_in(&self, place: &mut NodeTableSeat, found: Placed)
        requires { IsAt self.now HasSlot place.old }
        ensures { DidAt (Becomes (stand_after (Some found))) place.old place.new }
    {
        let stand = place.slot_mut(&self.board.shared, 0);
        stand.read = stand.read.wrapping_add(1);
        stand.line.arrive(found.turn, found.node);
    }

    /// Reads the next cell, and says whether it had a turn.
    fn read_cell(&self, place: &mut NodeTableSeat) -> bool
        requires { IsAt self.now HasLine place.old }
        ensures { DidAt (DidRead result) place.old place.new }
    {
        let cell = self.next_cell(place) % 64;
        let word = self
            .board
            .shared
            .swap::<board::Read>(place, cell as usize + 2, 0);
        match Placed::from_word(word) {
            None => false,
            Some(found) => {
                self.put_in(place, found);
                true
            }
        }
    }

    /// Reads cells up to an empty one.
    fn fill<R: Wait>(&self, rt: &R, place: &mut NodeTableSeat)
        requires { IsAt self.now HasOwnLine place.old }
        ensures { DidAt IsFilled place.old place.new }
    {
        for _ in rt.forever() {
            if !self.read_cell(place) {
                return;
            }
        }
    }

    /// Picks from the line that was taken.
    fn pick(&self, place: &mut NodeTableSeat, node: u32) -> Option<Turn>
        requires { IsAt self.now HasLine place.old }
        ensures { DidAt (Picks node result) place.old place.new }
    {
        let stand = place.slot_mut(&self.board.shared, 0);
        stand.line.pick(node)
    }

    /// Picks from the line, and puts it back.
    fn give<J: Named>(&self, place: &mut NodeTableSeat, own: &Turn, node: u32) -> Option<Turn>
        requires may { MayStepAt self.now HasLine own.now J.own place.old }
        requires node { node ≡ J.node }
        ensures { DidAt (DidReturn own.now node result) place.old place.new }
    {
        let _ = own;
        let answer = self.pick(place, node);
        self.board.shared.store::<board::Return<J>>(place, 1, 0);
        answer
    }

    /// Whether somebody waits in the line that was taken.
    fn has_waiter(&self, place: &mut NodeTableSeat) -> bool
        requires { IsAt self.now HasLine place.old }
        ensures { DidAt (TellsWaiting result) place.old place.new }
    {
        let stand = place.slot_mut(&self.board.shared, 0);
        !stand.line.is_empty()
    }

    /// Puts the line back while somebody waits in it.
    fn stay<J: Named>(&self, place: &mut NodeTableSeat, own: &Turn)
        requires { MayStepAt self.now HasWaiter own.now J.own place.old }
        ensures { DidAt (λ m n. n ≡ (did_stay own.now m.0, [])) place.old place.new }
    {
        let _ = own;
        self.board.shared.store::<board::Stay<J>>(place, 1, 0);
    }

    /// Forgets the cells that were read: nobody is there.
    fn forget_cells(&self, place: &mut NodeTableSeat)
        requires { IsAt self.now HasSlot place.old }
        ensures { DidAt (Becomes (stand_left Left)) place.old place.new }
    {
        let stand = place.slot_mut(&self.board.shared, 0);
        stand.read = 0;
    }

    /// Sets the count to 0, if everyone who entered was read but the first.
    fn exchange<J: Named>(&self, place: &mut NodeTableSeat, own: &Turn) -> Departure
        requires { MayStepAt self.now HasNoWaiter own.now J.own place.old }
        ensures { DidAt (DidExchange own.now result) place.old place.new }
    {
        let _ = own;
        let old = self.next_cell(place);
        let found = self
            .board
            .shared
            .compare_exchange::<board::Leave<J>>(place, 0, old, 0);
        if found != old {
            return Departure::Followed;
        }
        self.forget_cells(place);
        Departure::Left
    }

    /// Puts the line back unchanged.
    fn put_back(&self, place: &mut NodeTableSeat)
        requires { IsAt self.now HasLine place.old }
        ensures { DidAt (λ m n. n ≡ (did_put_back m.0, [])) place.old place.new }
    {
        self.board.shared.store::<PutBack>(place, 1, 0);
    }
}
