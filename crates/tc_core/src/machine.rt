//! The abstract machine in executable form.

ghost use Rattle.std.specs.Prelude.{◌≡◌, ◌<◌, ◌&&◌, IfOk, IfSome, length, slice_get};
ghost use Rattle.std.specs.Option.{option_map};
ghost use Rattle.tc_turn.specs.Turn.{next_lock};
ghost use Rattle.tc_core.specs.Core as core;
ghost use Rattle.tc_core.specs.Events as events;
ghost use Rattle.tc_core.specs.View.{core_of, limits_of, custody_at, HasParts, IsAnswer, IsCoreOf, IsFirst, KnowsLock, KnowsThread, MayBegin, MayCome, MayEnter, Became, Stepped};
ghost use Rattle.tc_core.specs.declared.event.Event.TheVariants as event;

use crate::courses::Courses;
use crate::custodies::Custodies;
use crate::event::Event;
use crate::place::{Course, Custody, ThreadPlace};
use std::alloc::{AllocError, Global};
use std::marker::Model;
use tc_elf::image::Image;
use tc_elf::limits::MAX_THREADS;
use tc_journal::batch::may_adopt;
use tc_journal::rule::end_of;
use tc_mutex_spec::slow::{Slow, SlowStatus};

/// Threads and locks, where they are, and what each of them waits for. Contracts see it as
/// `core_of` and `limits_of` show it.
#[derive(Drop)]
pub struct Core {
    workers: u32,
    limit: u32,
    slow: Slow,
    courses: Courses,
    custodies: Custodies,
}

impl Model for Core {
    ghost use Rattle.tc_core.specs.View.{CoreView};

    ghost Value = { CoreView };

    ghost view = { λ c. record { workers = c.workers; batch = c.limit; plain = c.slow; courses = c.courses; custodies = c.custodies } };
}

impl Core {
    /// All threads Ready, all locks Free, all queues empty. It allocates all the memory that is needed.
    pub fn new(
        alloc: Global,
        image: &Image,
        fuel: u32,
        workers: u32,
        limit: u32,
    ) -> Result<Core, AllocError>
        requires { MayBegin fuel workers limit }
        ensures { IfOk result (IsFirst image.now fuel workers limit) }
    {
        Ok(Core {
            workers,
            limit,
            slow: Slow::start(alloc, image, fuel)?,
            courses: Courses::new(alloc, image.threads())?,
            custodies: Custodies::new(alloc, image.guards())?,
        })
    }

    /// One event: true if it is enabled, and then it has its effect. Otherwise nothing changes. It
    /// allocates nothing.
    pub fn step(&mut self, image: &Image, event: Event) -> bool
        requires { IsCoreOf image.now self.old }
        ensures stepped { Stepped image.now self.old event result self.new }
        ensures suits { IsCoreOf image.now self.new }
    {
        let enabled = self.is_enabled(image, event);
        if enabled {
            self.take_effect(image, event);
        }
        enabled
    }

    /// Where a thread is, and how far it got. A number without a thread has what each has at the start.
    pub fn course(&self, thread: u32) -> Course
        ensures { result ≡ (core_of self.now).course thread }
    {
        self.courses.at(thread)
    }

    /// Where a lock is, and who gets it next; None if and only if there is no such lock.
    pub fn custody(&self, lock: u32) -> Option<&Custody>
        ensures { option_map (λ x. x.now) result ≡ slice_get self.now.custodies lock }
    {
        self.custodies.find(lock)
    }

    /// The address of a thread's next instruction; 0 if there is no such thread.
    pub fn pc(&self, image: &Image, thread: u32) -> u32
        requires { IsCoreOf image.now self.now }
        ensures { result ≡ ((core_of self.now).machine.threads thread).regs.pc }
    {
        if thread < image.threads() {
            self.slow.regs(thread).pc()
        } else {
            0
        }
    }

    // ---- whether an event is enabled

    #[tactic(auto, unfolding(crate::specs::Events::is_enabled))]
    fn is_enabled(&self, image: &Image, event: Event) -> bool
        requires { HasParts image.now self.now }
        ensures { result
            ≡ events.is_enabled image.now (limits_of self.now) (core_of self.now) event }
    {
        match event {
            Event::Claim { worker, thread } => self.may_claim(image, worker, thread),
            Event::Turn { worker, thread } => self.may_turn(image, worker, thread),
            Event::Commit { worker, thread } => {
                self.has_thread(image, worker, thread) && self.courses.at(thread).ended.is_some()
            }
            Event::Enter {
                worker,
                thread,
                lock,
            } => self.may_enter(image, worker, thread, lock),
            Event::Take {
                worker,
                thread,
                lock,
            } => self.may_get(image, worker, thread, lock),
            Event::Ship {
                worker,
                thread,
                lock,
            } => self.may_ship(image, worker, thread, lock),
            Event::Adopt {
                worker,
                thread,
                lock,
            } => self.may_pass(image, worker, thread, lock) && self.adopts(lock),
            Event::Grant {
                worker,
                thread,
                lock,
            } => self.may_pass(image, worker, thread, lock) && !self.adopts(lock),
            Event::Leave { worker, lock } => self.may_leave(image, worker, lock),
            Event::Free { worker, lock } => {
                self.has_lock(image, worker, lock) && self.custodies.at(lock).left
            }
            Event::HandBack { worker, thread } => self.may_go_back(image, worker, thread),
            Event::Park { worker, thread } => self.may_park(image, worker, thread),
            Event::Finish { worker, thread } => self.may_finish(image, worker, thread),
        }
    }

    fn is_worker(&self, worker: u32) -> bool
        ensures { result ≡ events.is_worker (limits_of self.now) worker }
    {
        worker < self.workers
    }

    fn has_thread(&self, image: &Image, worker: u32, thread: u32) -> bool
        ensures { IsAnswer result
            (events.has_thread image.now (limits_of self.now) (core_of self.now) worker thread)
            (thread < length image.now.entries) }
    {
        self.is_worker(worker)
            && thread < image.threads()
            && self.courses.at(thread).place.is_at(worker)
    }

    fn has_lock(&self, image: &Image, worker: u32, lock: u32) -> bool
        requires { HasParts image.now self.now }
        ensures { IsAnswer result
            (events.has_lock image.now (limits_of self.now) (core_of self.now) worker lock)
            (lock < length image.now.guards) }
    {
        self.is_worker(worker)
            && lock < image.guards()
            && self.custodies.at(lock).place.is_loose(worker)
    }

    fn runs(&self, thread: u32) -> bool
        requires { thread < length self.now.plain.threads }
        ensures { result ≡ events.runs (core_of self.now) thread }
    {
        matches!(self.slow.status(thread), SlowStatus::Running)
    }

    fn is_between(&self, thread: u32) -> bool
        ensures { result ≡ events.is_between (core_of self.now) thread }
    {
        self.courses.at(thread).turns == 0
    }

    fn may_take(&self, taken: Option<u32>, thread: u32) -> bool
        requires { IfSome taken (λ lock. lock < length self.now.custodies) }
        ensures { result ≡ events.may_take taken thread (core_of self.now) }
    {
        match taken {
            None => true,
            Some(lock) => {
                self.is_between(thread) && self.custodies.at(lock).place.is_granted(thread)
            }
        }
    }

    fn has_entered(&self, next: Option<u32>, thread: u32) -> bool
        requires { IfSome next (λ lock. lock < length self.now.custodies) }
        ensures { result ≡ events.has_entered next thread (core_of self.now) }
    {
        match next {
            None => false,
            Some(lock) => {
                let custody = self.custodies.at(lock);
                custody.line.has(thread)
                    && (custody.place.is_free() || custody.left || !custody.line.is_first(thread))
            }
        }
    }

    fn adopts(&self, lock: u32) -> bool
        requires { lock < length self.now.custodies }
        ensures { result ≡ events.adopts (limits_of self.now) (core_of self.now) lock }
    {
        let custody = self.custodies.at(lock);
        match custody.last {
            None => false,
            Some(release) => may_adopt(&release.block(), lock, custody.run, self.limit),
        }
    }

    #[tactic(auto, unfolding(crate::specs::Events::is_enabled))]
    fn may_claim(&self, image: &Image, worker: u32, thread: u32) -> bool
        ensures { result
            ≡ events.is_enabled image.now (limits_of self.now) (core_of self.now) (event.Claim worker thread) }
    {
        self.is_worker(worker)
            && thread < image.threads()
            && self.courses.at(thread).place.is_claimable()
    }

    #[tactic(auto, unfolding(crate::specs::Events::is_enabled))]
    fn may_turn(&self, image: &Image, worker: u32, thread: u32) -> bool
        requires { HasParts image.now self.now }
        ensures { result
            ≡ events.is_enabled image.now (limits_of self.now) (core_of self.now) (event.Turn worker thread) }
    {
        self.has_thread(image, worker, thread)
            && self.runs(thread)
            && self.courses.at(thread).ended.is_none()
            && self.may_take(self.slow.next_lock(image, thread), thread)
    }

    #[tactic(auto, unfolding(crate::specs::Events::is_enabled))]
    fn may_enter(&self, image: &Image, worker: u32, thread: u32, lock: u32) -> bool
        requires { HasParts image.now self.now }
        ensures { result
            ≡ events.is_enabled image.now (limits_of self.now) (core_of self.now) (event.Enter worker thread lock) }
    {
        self.has_thread(image, worker, thread)
            && lock < image.guards()
            && self.wants(image, thread, lock)
            && !self.custodies.at(lock).line.has(thread)
    }

    /// Whether the thread is between two blocks, and its next step is a LOCK of the lock. A thread
    /// that has ended may be at a LOCK too.
    fn wants(&self, image: &Image, thread: u32, lock: u32) -> bool
        requires parts { HasParts image.now self.now }
        requires thread { thread < length image.now.entries }
        ensures { result
            ≡ (events.runs (core_of self.now) thread && (events.is_between (core_of self.now) thread
            && core.is_number (next_lock image.now ((core_of self.now).machine.threads thread)) lock)) }
    {
        self.runs(thread)
            && self.is_between(thread)
            && is_number(self.slow.next_lock(image, thread), lock)
    }

    #[tactic(auto, unfolding(crate::specs::Events::is_enabled))]
    fn may_get(&self, image: &Image, worker: u32, thread: u32, lock: u32) -> bool
        requires { HasParts image.now self.now }
        ensures { result
            ≡ events.is_enabled image.now (limits_of self.now) (core_of self.now) (event.Take worker thread lock) }
    {
        self.has_thread(image, worker, thread)
            && lock < image.guards()
            && self.custodies.at(lock).line.is_first(thread)
            && self.custodies.at(lock).place.is_free()
    }

    #[tactic(auto, unfolding(crate::specs::Events::is_enabled))]
    fn may_ship(&self, image: &Image, worker: u32, thread: u32, lock: u32) -> bool
        requires { HasParts image.now self.now }
        ensures { result
            ≡ events.is_enabled image.now (limits_of self.now) (core_of self.now) (event.Ship worker thread lock) }
    {
        self.has_thread(image, worker, thread)
            && lock < image.guards()
            && self.custodies.at(lock).line.has(thread)
            && !self.custodies.at(lock).line.is_first(thread)
    }

    fn may_pass(&self, image: &Image, worker: u32, thread: u32, lock: u32) -> bool
        requires { HasParts image.now self.now }
        ensures { IsAnswer result
            (events.may_pass image.now (limits_of self.now) (core_of self.now) worker thread lock)
            (lock < length image.now.guards) }
    {
        self.has_lock(image, worker, lock)
            && !self.custodies.at(lock).left
            && thread < image.threads()
            && self.custodies.at(lock).line.is_second(thread)
            && self.courses.at(thread).place.is_waiting(lock)
    }

    #[tactic(auto, unfolding(crate::specs::Events::is_enabled))]
    fn may_leave(&self, image: &Image, worker: u32, lock: u32) -> bool
        requires { HasParts image.now self.now }
        ensures { result
            ≡ events.is_enabled image.now (limits_of self.now) (core_of self.now) (event.Leave worker lock) }
    {
        if !self.has_lock(image, worker, lock) {
            return false;
        }
        let custody = self.custodies.at(lock);
        !custody.left && custody.line.is_single()
    }

    fn may_go_back(&self, image: &Image, worker: u32, thread: u32) -> bool
        requires { HasParts image.now self.now }
        ensures { result
            ≡ events.may_go_back image.now (limits_of self.now) (core_of self.now) worker thread }
    {
        self.has_thread(image, worker, thread)
            && self.runs(thread)
            && self.is_between(thread)
            && !self.has_entered(self.slow.next_lock(image, thread), thread)
    }

    #[tactic(auto, unfolding(crate::specs::Events::is_enabled))]
    fn may_park(&self, image: &Image, worker: u32, thread: u32) -> bool
        requires { HasParts image.now self.now }
        ensures { result
            ≡ events.is_enabled image.now (limits_of self.now) (core_of self.now) (event.Park worker thread) }
    {
        self.may_go_back(image, worker, thread) && self.courses.at(thread).has_slept()
    }

    #[tactic(auto, unfolding(crate::specs::Events::is_enabled))]
    fn may_finish(&self, image: &Image, worker: u32, thread: u32) -> bool
        requires { HasParts image.now self.now }
        ensures { result
            ≡ events.is_enabled image.now (limits_of self.now) (core_of self.now) (event.Finish worker thread) }
    {
        self.has_thread(image, worker, thread) && !self.runs(thread) && self.is_between(thread)
    }

    // ---- what an event does

    #[tactic(auto, unfolding(crate::specs::Events::effect))]
    fn take_effect(&mut self, image: &Image, event: Event)
        requires { MayCome image.now self.old event }
        ensures { Became image.now self.old self.new
            (events.effect image.now (core_of self.old) event) }
    {
        match event {
            Event::Claim { worker, thread } => self.place(image, thread, ThreadPlace::At(worker)),
            Event::Turn { worker, thread } => self.turn(image, worker, thread),
            Event::Commit { worker, thread } => self.commit(image, worker, thread),
            Event::Enter { thread, lock, .. } => self.enter(image, thread, lock),
            Event::Take { thread, lock, .. } => self.custodies.grant(lock, thread),
            Event::Ship { thread, lock, .. } => {
                self.place(image, thread, ThreadPlace::Waiting(lock));
            }
            Event::Adopt {
                worker,
                thread,
                lock,
            } => {
                let limit = self.limit;
                let run = self.custodies.at(lock).run;
                prove!(run < limit);
                self.pass(image, thread, lock, run + 1);
                self.place(image, thread, ThreadPlace::At(worker));
            }
            Event::Grant { thread, lock, .. } => {
                self.pass(image, thread, lock, 0);
                self.place(image, thread, ThreadPlace::Ready);
            }
            Event::Leave { lock, .. } => self.custodies.leave(lock),
            Event::Free { lock, .. } => self.custodies.free(lock),
            Event::HandBack { thread, .. } => self.place(image, thread, ThreadPlace::Ready),
            Event::Park { thread, .. } => self.place(image, thread, ThreadPlace::Parked),
            Event::Finish { thread, .. } => self.place(image, thread, ThreadPlace::Done),
        }
    }

    /// Moves the thread to a place.
    fn place(&mut self, image: &Image, thread: u32, place: ThreadPlace)
        requires { KnowsThread image.now self.old thread }
        ensures { Became image.now self.old self.new
            (core.with_place (core_of self.old) thread place) }
    {
        let course = self.courses.at(thread).to(place);
        self.courses.put(thread, course);
    }

    /// One step of the thread.
    fn turn(&mut self, image: &Image, worker: u32, thread: u32)
        requires { MayCome image.now self.old (event.Turn worker thread) }
        ensures { Became image.now self.old self.new
            (events.after_turn image.now (core_of self.old) thread) }
    {
        prove!(image.guards() <= 32);
        let taken = self.slow.next_lock(image, thread);
        let outcome = self.slow.take_turn(image, thread);
        let next = self.slow.next_lock(image, thread);
        let course = self.courses.at(thread);
        let ended = end_of(outcome, course.turns + 1, next);
        self.courses.put(thread, course.after_turn(taken, ended));
        self.custodies.take(taken, thread);
    }

    /// The thread's block is over.
    fn commit(&mut self, image: &Image, worker: u32, thread: u32)
        requires { KnowsThread image.now self.old thread }
        ensures { Became image.now self.old self.new
            (events.after_commit (core_of self.old) worker thread) }
    {
        let course = self.courses.at(thread);
        let held = self.slow.held(thread);
        let release = course.release();
        self.custodies
            .release(image, worker, thread, held, &release);
        self.courses.put(thread, course.after_block());
    }

    /// The thread enters the waiting queue of the lock.
    fn enter(&mut self, image: &Image, thread: u32, lock: u32)
        requires { MayEnter image.now self.old thread lock }
        ensures { Became image.now self.old self.new
            (core.with_custody (core_of self.old) lock
            (events.entered (custody_at self.old.custodies lock) thread)) }
    {
        prove!(image.threads() <= MAX_THREADS);
        self.custodies.enter(lock, thread);
    }

    /// The lock is passed on to the second of its queue.
    fn pass(&mut self, image: &Image, thread: u32, lock: u32, run: u32)
        requires { KnowsLock image.now self.old lock }
        ensures { Became image.now self.old self.new
            (core.with_custody (core_of self.old) lock
            (events.passed_to (custody_at self.old.custodies lock) thread run)) }
    {
        self.custodies.pass(lock, thread, run);
    }
}

fn is_number(number: Option<u32>, wanted: u32) -> bool
    ensures { result ≡ core.is_number number wanted }
{
    match number {
        None => false,
        Some(n) => n == wanted,
    }
}
