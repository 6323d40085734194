//! The start barrier of a crew, and where its idle workers sleep.

use std::sync::Wait;
use std::sync::atomic::{AtomicU64, Ordering};
use std::thread::yield_now;
use std::time::Duration;

/// How long the first worker to begin waits for the next one to begin, in milliseconds. It keeps the
/// time for all of them.
const LONGEST_WAIT: u64 = 5;

/// How often another worker gives its processor away until then: for longer than the first one sleeps,
/// unless that one is not given its processor back.
const YIELDS: u32 = 100_000;

/// The bell of a crew, with the number of its strokes: a start barrier, and a place for idle
/// workers to sleep. Each worker rings it when it begins and when it ends. Workers wait at it
/// before they begin, so that none has done all the work before the others begin, and sleep at it
/// while they find nothing. Contracts do not depend on it: they hold for every number in it.
#[derive(Drop)]
pub struct Bell {
    strokes: AtomicU64,
    workers: u64,
    // How many workers have begun and not ended, and don't sleep at it.
    up: AtomicU64,
}

impl Bell {
    /// That of so many workers, of whom none has begun.
    pub fn new(workers: u64) -> Bell {
        Bell {
            strokes: AtomicU64::new(0),
            workers,
            up: AtomicU64::new(0),
        }
    }

    /// How many workers are up.
    pub(crate) fn are_up(&self) -> u64 {
        self.up.load(Ordering::SeqCst)
    }

    /// Gives the processor away until all have begun, or so often. Whether all have.
    fn yield_for_others(&self) -> bool {
        for _ in 0..YIELDS {
            if self.strokes.load(Ordering::SeqCst) >= self.workers {
                return true;
            }
            yield_now();
        }
        false
    }

    /// Sleeps until all have begun, or until none has for so long. Whether all have.
    fn sleep_for_others<R: Wait>(&self, rt: &R) -> bool {
        for _ in 0..self.workers {
            let begun = self.strokes.load(Ordering::SeqCst);
            if begun >= self.workers {
                return true;
            }
            self.sleep_behind(rt, begun, Duration::from_millis(LONGEST_WAIT));
            if self.strokes.load(Ordering::SeqCst) == begun {
                return false;
            }
        }
        true
    }

    /// Rings so many strokes. Whoever sleeps looks again. How many there were before.
    pub(crate) fn ring(&self, strokes: u64) -> u64 {
        let before = self.strokes.fetch_add(strokes, Ordering::SeqCst);
        self.strokes.wake_all();
        before
    }

    /// Sleeps until the bell is rung behind so many strokes, so long at most.
    fn sleep_behind<R: Wait>(&self, rt: &R, strokes: u64, longest: Duration) {
        let word = (strokes % (1 << 32)) as u32;
        self.strokes.park_timeout(rt, word, longest);
    }

    /// Sleeps until the bell is rung, so long at most.
    pub(crate) fn sleep<R: Wait>(&self, rt: &R, longest: Duration) {
        self.up.fetch_sub(1, Ordering::SeqCst);
        self.sleep_behind(rt, self.strokes.load(Ordering::SeqCst), longest);
        self.up.fetch_add(1, Ordering::SeqCst);
    }

    /// The worker begins, and waits until all have, some milliseconds at most. The first one to begin
    /// sleeps, so that it keeps the time, and the others give their processors away. One that has
    /// waited in vain, since the host gives too few threads, lets all others go, and those that begin
    /// later.
    pub(crate) fn wait<R: Wait>(&self, rt: &R) {
        self.up.fetch_add(1, Ordering::SeqCst);
        let have_begun = match self.ring(1) {
            0 => self.sleep_for_others(rt),
            _ => self.yield_for_others(),
        };
        if !have_begun {
            self.ring(self.workers);
        }
    }

    /// The worker ends. Whoever sleeps looks again.
    pub(crate) fn leave(&self) {
        self.up.fetch_sub(1, Ordering::SeqCst);
        self.ring(1);
    }
}
