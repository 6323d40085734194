//! The back-off of a worker that finds nothing.

use crate::bell::Bell;
use crossbeam_utils::Backoff;
use std::sync::Wait;
use std::time::Duration;

/// After so many blocks a worker has found enough to do, and its next pause is short. A thread that
/// it takes only to ship it at its next lock makes one or two.
const ENOUGH: u64 = 2_000;

/// How long the first sleep is at most, in microseconds.
const SHORTEST: u64 = 200;

/// How long each sleep is at most, in microseconds.
const LONGEST: u64 = 12_800;

/// How long a recess is, in microseconds.
const RECESS: u64 = 1_600;

/// Behind so many threads in a row that have slept a worker may take a recess.
const ROW: u64 = 1_024;

/// It takes one if more than so many workers are up.
const FEW: u64 = 2;

/// The idle back-off of a worker. Where it finds nothing, it spins at first, or gives its processor
/// away; then it sleeps, each time twice as long, so that it leaves the others alone, but never for
/// thirteen milliseconds. Nobody waits for such a worker: it has nothing in hand, and whoever makes a
/// thread ready goes on with it, if no other does. Where it finds nothing but threads that have slept,
/// it takes a recess now and then, if others are up: such threads mostly wait for what others do, and
/// with blocks as short as theirs workers take the clock from one another more than they do else. In a
/// recess it has a thread in hand, which may have slept inside a section: then whoever waits for a
/// lock of that thread waits as much longer as the recess is long. Pauses have no meaning, so every
/// contract holds whatever they are.
/// A bell that each ready thread rings would end no pause sooner: on a hot lock it rings at each section.
#[derive(Drop)]
pub(crate) struct Idling<'a> {
    bell: &'a Bell,
    backoff: Backoff,
    // How long the next sleep is at most, in microseconds.
    next: u64,
    // The worker's clock at its last pause: it counts its blocks, and moves on to its sleepers.
    paused_at: u64,
    // Whether a pause was asked for.
    asked: bool,
    // How many threads that have slept are still missing to a row. At 0 the pause asked for is a recess.
    missing: u64,
}

impl<'a> Idling<'a> {
    /// That of a worker who has not paused yet.
    pub(crate) fn new(bell: &'a Bell) -> Idling<'a> {
        Idling {
            bell,
            backoff: Backoff::new(),
            next: SHORTEST,
            paused_at: 0,
            asked: false,
            missing: ROW,
        }
    }

    /// The worker has found nothing: it pauses before its next step.
    pub(crate) fn ask(&mut self) {
        self.asked = true;
    }

    /// The worker has found a thread that was ready.
    pub(crate) fn found_ready(&mut self) {
        self.missing = ROW;
    }

    /// The worker has found a thread that has slept. With the last one of a row it may ask for a recess.
    pub(crate) fn found_sleeper(&mut self) {
        self.missing = self.missing.wrapping_sub(1);
        if self.missing == 0 {
            self.end_row();
        }
    }

    /// Asks for a recess, or begins the next row. Few threads end a row: those that do pay for a call.
    #[inline(never)]
    fn end_row(&mut self) {
        if self.bell.are_up() > FEW {
            self.ask();
        } else {
            self.missing = ROW;
        }
    }

    /// Whether a pause was asked for. A worker asks first, so that a step that needs no pause makes no
    /// call that may wait.
    pub(crate) fn is_asked(&self) -> bool {
        self.asked
    }

    /// Pauses, longer than the last time where little was done since, and else shortly; or takes a
    /// recess, and begins the next row. The worker's clock stands at now.
    pub(crate) fn pause<R: Wait>(&mut self, rt: &R, now: u64) {
        if self.missing == 0 {
            self.asked = false;
            self.missing = ROW;
            return self.bell.sleep(rt, Duration::from_micros(RECESS));
        }
        if now.saturating_sub(self.paused_at) >= ENOUGH {
            self.backoff.reset();
            self.next = SHORTEST;
        }
        self.paused_at = now;
        self.asked = false;
        if !self.backoff.is_completed() {
            return self.backoff.snooze();
        }
        self.bell.sleep(rt, Duration::from_micros(self.next));
        self.next = LONGEST.min(self.next.saturating_mul(2));
    }
}
