//! The shared words and the line (the part of the waiting queue that holders have read) as an
//! atomic table with its invariant, and what each kind of step says. Word 0 counts who entered,
//! word 1 is 1 while the line is out, and word j + 2 is cell j. The one slot is for the line.

ghost use Rattle.tc_nodes.specs.Steps.{Enters, Leaves, Links, PutsBack, Reads, Returns, Stays, Takes};

use crate::line::Line;
use crate::step::LineStep;
use atomic_table::{Play, Seat, Split, Table, TableRule};
use std::alloc::Global;
use std::collections::LinkedList;
use std::marker::{Brand, PhantomData};

/// The line, and how many cells were read since nobody was there.
#[derive(Drop)]
pub struct Stand {
    pub line: Line,
    pub read: u64,
}

/// The parameters of a queue.
#[derive(Drop)]
pub struct NodeTerms {
    pub threads: u32,
    pub bound: u32,
}

/// What contracts know of a seat: the parameters of its queue, the steps made with it, and the line
/// while the seat has it out. No value of this type exists.
pub struct Known {
    pub threads: u32,
    pub bound: u32,
    pub calls: LinkedList<LineStep>,
    pub hand: Option<Stand>,
}

/// The invariant of the words and the line.
pub struct Ordered;

impl TableRule<Stand, Known, NodeTerms> for Ordered {
    ghost use Rattle.tc_nodes.specs.Order.{IsOrdered, first_known};

    ghost holds = { IsOrdered };

    ghost first = { first_known };
}

pub(crate) type NodeTable = Table<Stand, Known, NodeTerms, Ordered, Global>;

pub(crate) type NodeTableSeat = Seat<Stand, Known>;

/// What a call names. Each call chooses it.
pub trait Named {
    ghost use Rattle.std.specs.Prelude.{ℕ};
    ghost use Rattle.tc_queue.specs.declared.turn.Turn.{Turn};

    ghost own: { Turn };

    ghost place: { ℕ };

    ghost node: { ℕ };
}

impl Named for Brand {
    ghost use Rattle.tc_queue.specs.Words.{no_turn};

    ghost own = { no_turn };

    ghost place = { 0 };

    ghost node = { 0 };
}

pub(crate) struct Enter<J> {
    marker: PhantomData<J>,
}

impl<J: Named> Play<Stand, Known> for Enter<J> {
    ghost then = { Enters J.own };
}

pub(crate) struct Link<J> {
    marker: PhantomData<J>,
}

impl<J: Named> Play<Stand, Known> for Link<J> {
    ghost then = { Links J.place J.own J.node };
}

pub(crate) struct TakeLine;

impl Play<Stand, Known> for TakeLine {
    ghost then = { Takes };
}

pub(crate) struct Read;

impl Play<Stand, Known> for Read {
    ghost then = { Reads };
}

/// Puts the line back after a turn was picked from it.
pub(crate) struct Return<J> {
    marker: PhantomData<J>,
}

impl<J: Named> Play<Stand, Known> for Return<J> {
    ghost then = { Returns J.own J.node };
}

/// Puts the line back while somebody waits in it.
pub(crate) struct Stay<J> {
    marker: PhantomData<J>,
}

impl<J: Named> Play<Stand, Known> for Stay<J> {
    ghost then = { Stays J.own };
}

pub(crate) struct Leave<J> {
    marker: PhantomData<J>,
}

impl<J: Named> Play<Stand, Known> for Leave<J> {
    ghost then = { Leaves J.own };
}

/// Puts the line back unchanged.
pub(crate) struct PutBack;

impl Play<Stand, Known> for PutBack {
    ghost then = { PutsBack };
}

/// Adds a seat.
pub(crate) struct AddNodeSeat;

impl Split<Known> for AddNodeSeat {
    ghost use Rattle.tc_nodes.specs.Order.{known_beside};

    ghost left = { λ v. v };

    ghost right = { known_beside };
}
