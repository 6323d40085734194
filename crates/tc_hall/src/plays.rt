//! What each step on the table says.
ghost use Rattle.tc_hall.specs.Steps.{claimed, laid, reached, put_as, did_free, looked, stopping, saw_stopped, lined, sealed_as, took_as, dealt, fresh, merged, gone};

use crate::board::{Knows, Slot};
use atomic_table::{Join, Play, Split};
use std::marker::{Brand, PhantomData};

pub(crate) struct Claim<J> {
    marker: PhantomData<J>,
}

impl<J: Under> Play<Slot, Knows> for Claim<J> {
    ghost then = { claimed J.terms };
}

/// Gives the slot back, empty.
pub(crate) struct Lay;

impl Play<Slot, Knows> for Lay {
    ghost then = { laid };
}

/// Takes the empty slot to fill it.
pub(crate) struct Reach;

impl Play<Slot, Knows> for Reach {
    ghost then = { reached };
}

/// The parameters of the hall in which a package or a lock state is taken or put. Each call chooses them.
pub trait Under {
    ghost use Rattle.std.specs.Prelude.{Option};
    ghost use Rattle.tc_hall.specs.declared.board.HallTerms.{HallTerms};

    ghost terms: { Option HallTerms };
}

impl Under for Brand {
    ghost use Rattle.std.specs.Prelude.{None};

    ghost terms = { None };
}

pub(crate) struct Fill<J> {
    marker: PhantomData<J>,
}

impl<J: Under> Play<Slot, Knows> for Fill<J> {
    ghost then = { put_as J.terms };
}

pub(crate) struct Free;

impl Play<Slot, Knows> for Free {
    ghost then = { did_free };
}

pub(crate) struct Look;

impl Play<Slot, Knows> for Look {
    ghost then = { looked };
}

/// The call on the line of a lock: how many threads the hall has, the lock, and what is asked.
/// Each call chooses them.
pub trait Asking {
    ghost use Rattle.std.specs.Prelude.{ℕ};
    ghost use Rattle.tc_queue.specs.Asked.{Ask};

    ghost threads: { ℕ };

    ghost lock: { ℕ };

    ghost ask: { Ask };
}

impl Asking for Brand {
    ghost use Rattle.tc_queue.specs.Asked.{no_ask};

    ghost threads = { 0 };

    ghost lock = { 0 };

    ghost ask = { no_ask };
}

pub(crate) struct Line<J> {
    marker: PhantomData<J>,
}

impl<J: Asking> Play<Slot, Knows> for Line<J> {
    ghost then = { lined J.threads J.lock J.ask };
}

pub(crate) struct Stop;

impl Play<Slot, Knows> for Stop {
    ghost then = { stopping };
}

pub(crate) struct Stopped;

impl Play<Slot, Knows> for Stopped {
    ghost then = { saw_stopped };
}

/// The package whose block is sealed. Each call chooses it.
pub trait Picked {
    ghost use Rattle.std.specs.Prelude.{Option};
    ghost use Rattle.tc_context.specs.View.{PackageView};

    ghost picked: { Option PackageView };
}

impl Picked for Brand {
    ghost use Rattle.std.specs.Prelude.{None};

    ghost picked = { None };
}

pub(crate) struct Seal<J> {
    marker: PhantomData<J>,
}

impl<J: Picked> Play<Slot, Knows> for Seal<J> {
    ghost then = { sealed_as J.picked };
}

pub(crate) struct TakeLock<J> {
    marker: PhantomData<J>,
}

impl<J: Under> Play<Slot, Knows> for TakeLock<J> {
    ghost then = { took_as J.terms };
}

/// Makes another pass.
pub(crate) struct Deal;

impl Split<Knows> for Deal {
    ghost left = { dealt };

    ghost right = { fresh };
}

pub(crate) struct Merge;

impl Join<Knows> for Merge {
    ghost both = { merged };

    ghost spent = { gone };
}
