//! The workers of a crew, each with a deque of its own and an end of every other one.

ghost use Rattle.std.specs.Prelude.{◌≡◌, ◌<◌, ◌≤◌, ◌⊎◌, ◌^◌, [], length, map, All, vec_capacity, IfOk, IfSome, MatchBool, MatchOption};
ghost use Rattle.tc_isa.specs.declared.limits.TheConstants.{MAX_WORKERS};
ghost use Rattle.tc_elf.specs.declared.limits.TheConstants.{MAX_THREADS};
ghost use Rattle.tc_hall.specs.Rule.{threads};
ghost use Rattle.tc_hall.specs.Steps.{IsSamePass};
ghost use Rattle.tc_ready.specs.declared.limits.TheConstants.{MAX_ROOM};
ghost use Rattle.tc_ready.specs.EndView.{IsNew, new_end};
ghost use Rattle.tc_ready.specs.ReadyView.{AreCrew, IsSameMember, Offered, TookOne, FoundNone, StoleAt, StoleOne};
ghost use Rattle.tc_ready.specs.Scan.{SawReady, SawNone, OnlyLooks};

use crate::ends::{OtherEnd, OwnEnd};
use std::alloc::{AllocError, Global};
use std::marker::Model;
use tc_hall::hall::Hall;
use tc_hall::pass::Pass;

/// The threads that one worker may try next.
#[derive(Drop)]
pub struct Ready {
    own: OwnEnd,
    // An end of each deque of the crew. That of the worker's own is not used.
    ends: Vec<OtherEnd>,
    number: u32,
}

impl Model for Ready {
    ghost use Rattle.std.specs.Prelude.{◌≡◌, ℕ, map, slice_get, Some, All};
    ghost use Rattle.tc_ready.specs.EndView.{IsEndFor};
    ghost use Rattle.tc_ready.specs.ReadyView.{ReadyView, deque_of, taken_of};

    ghost Value = { ReadyView };

    ghost view = { λ r. record { number = r.number; threads = r.own.threads; room = r.own.room; crew = map deque_of r.ends.items; given = r.own.given; gone = r.own.gone; own = r.own.taken; stolen = map taken_of r.ends.items } };

    ghost invariant = { λ r. (slice_get (map deque_of r.ends.items) r.number ≡ Some r.own.deque)
        × All (IsEndFor r.own.threads) r.ends.items };
}

/// A deque for each worker.
fn owners(alloc: Global, workers: u32, threads: u32, room: u32) -> Result<Vec<OwnEnd>, AllocError>
    requires { 0 < threads }
    ensures { IfOk result (λ os. (length os.items ≡ workers) × All (IsNew threads room) os.items) }
{
    let mut owners = Vec::with_capacity(alloc, workers as usize)?;
    for number in 0..workers {
        let own = OwnEnd::new(alloc, threads, room)?;
        owners.push_reserved(own);
    }
    Ok(owners)
}

/// An end of each deque.
fn ends(alloc: Global, owners: &mut Vec<OwnEnd>) -> Result<Vec<OtherEnd>, AllocError>
    ensures same { owners.new.items ≡ owners.old.items }
    ensures ends { IfOk result (λ es. es.items ≡ map new_end owners.old.items) }
{
    let mut ends = Vec::with_capacity(alloc, owners.len())?;
    for j in 0..owners.len() {
        let end = owners[j].other()?;
        ends.push_reserved(end);
    }
    Ok(ends)
}

/// Each deque with its ends, into the empty list.
fn assembled(
    mut crew: Vec<Ready>,
    owners: Vec<OwnEnd>,
    mut all: Vec<Vec<OtherEnd>>,
    threads: u32,
    room: u32,
) -> Vec<Ready>
    requires owners { All (IsNew threads room) owners.items × (length owners.items < 2 ^ 32) }
    requires ends { (length all.items ≡ length owners.items)
        × All (λ es. es.items ≡ map new_end owners.items) all.items }
    requires crew { (crew.items ≡ []) × (length owners.items ≤ vec_capacity crew) }
    ensures { AreCrew (length owners.items) threads room result.items }
{
    let _ = (threads, room);
    let mut number = 0;
    for own in owners {
        match all.pop() {
            Some(ends) => crew.push_reserved(Ready { own, ends, number }),
            None => unreachable!(),
        }
        number += 1;
    }
    crew
}

/// The first thread that is seen ready.
fn scan(hall: &Hall, pass: &mut Pass, count: u32) -> Option<u32>
    requires own { pass.old.table ≡ hall.now.table }
    requires count { count ≡ threads hall.now.terms }
    ensures own { IsSamePass pass.old pass.new }
    ensures result { MatchOption result (SawNone count pass.old.knows pass.new.knows)
        (λ t. (t < count) × SawReady t pass.old.knows pass.new.knows) }
{
    for t in 0..count {
        if hall.look(pass, t) == 0 {
            return Some(t);
        }
    }
    None
}

impl Ready {
    /// A crew of workers for so many threads, whose deques have room for so many offers each. All
    /// memory is allocated here; the deques round the room up to a power of two.
    pub fn crew(
        alloc: Global,
        workers: u32,
        threads: u32,
        room: u32,
    ) -> Result<Vec<Ready>, AllocError>
        requires workers { (1 ≤ workers) × (workers ≤ MAX_WORKERS) }
        requires threads { (1 ≤ threads) × (threads ≤ MAX_THREADS) }
        requires room { (1 ≤ room) × (room ≤ MAX_ROOM) }
        ensures { IfOk result (λ rs. AreCrew workers threads room rs.items) }
    {
        let crew = Vec::with_capacity(alloc, workers as usize)?;
        let mut owners = owners(alloc, workers, threads, room)?;
        let mut all = Vec::with_capacity(alloc, workers as usize)?;
        for k in 0..workers {
            let ends = ends(alloc, &mut owners)?;
            all.push_reserved(ends);
        }
        Ok(assembled(crew, owners, all, threads, room))
    }

    /// The number of threads that it was made for.
    pub fn threads(&self) -> u32
        ensures { result ≡ self.now.threads }
    {
        self.own.threads()
    }

    /// Puts an offer of the thread behind the others in the worker's deque, to be taken at most
    /// once. False if and only if the room is used up: then nothing changes, and a scan finds the
    /// thread. It allocates nothing, since `crew` made the room.
    pub fn offer(&mut self, t: u32) -> bool
        requires { t < self.old.threads }
        ensures { MatchBool result
            ((length self.old.given < self.old.room) × Offered t self.old self.new)
            ((length self.old.given ≡ self.old.room) × (self.new ≡ self.old)) }
    {
        self.own.offer(t)
    }

    fn workers(&self) -> usize
        ensures { result ≡ length self.now.stolen }
    {
        self.ends.len()
    }

    fn number(&self) -> u32
        ensures { result ≡ self.now.number }
    {
        self.number
    }

    /// The first offer of the worker with this number, unless another worker was first.
    fn steal_at(&mut self, j: usize) -> Option<u32>
        requires { j < length self.old.stolen }
        ensures { MatchOption result (self.new ≡ self.old) (λ t. StoleAt j t self.old self.new) }
    {
        self.ends[j].steal()
    }

    /// An offer of another worker, those with a low number first.
    fn steal(&mut self) -> Option<u32>
        ensures { MatchOption result (self.new ≡ self.old) (λ t. StoleOne t self.old self.new) }
    {
        for j in 0..self.workers() {
            if j != self.number() as usize {
                if let Some(t) = self.steal_at(j) {
                    return Some(t);
                }
            }
        }
        None
    }

    /// A thread to try: one that this worker offered, else one that another worker offered, else
    /// the first that the hall shows as ready. It is a proposal: another worker may claim the
    /// thread first. None if each thread was looked at and none was ready. A steal that another
    /// worker wins is not retried, so the call waits for nobody.
    pub fn next(&mut self, hall: &Hall, pass: &mut Pass) -> Option<u32>
        requires own { pass.old.table ≡ hall.now.table }
        requires threads { self.old.threads ≡ threads hall.now.terms }
        ensures same { IsSameMember self.old self.new }
        ensures own { IsSamePass pass.old pass.new }
        ensures looks { OnlyLooks pass.old.knows pass.new.knows }
        ensures thread { IfSome result (λ t. t < self.old.threads) }
        ensures result { MatchOption result
            (FoundNone self.old self.new × SawNone self.old.threads pass.old.knows pass.new.knows)
            (λ t. TookOne t self.old self.new
            ⊎ (FoundNone self.old self.new × SawReady t pass.old.knows pass.new.knows)) }
    {
        if let Some(t) = self.own.pop() {
            return Some(t);
        }
        if let Some(t) = self.steal() {
            return Some(t);
        }
        scan(hall, pass, self.threads())
    }
}
