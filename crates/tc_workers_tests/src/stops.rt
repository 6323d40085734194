//! Stops: desks that wait in vain, for each of the three things that a desk waits for, while the
//! run is stopped; and crews that are stopped in the middle of a run, after each of its blocks.
//! Each ends, and all that was out is put back.

ghost use Rattle.std.specs.Prelude.{◌≡◌, ◌<◌, All, map};
ghost use Rattle.tc_hall.specs.Rule.{threads};
ghost use Rattle.tc_workers.specs.Crew.{AreAtWork};
ghost use Rattle.tc_workers_tests.specs.Scripts.{IsAtHall, IsKeeper, IsPlaying};

use crate::scripts::Action::{Adopts, Claim, GoesOn, Run, Ships};
use crate::scripts::{
    Ending, Player, START, Script, TWO_GUARDS, in_hand, play_to, player_of, take_stopped,
};
use crossbeam_utils::atomic::AtomicCell;
use std::process::Abort;
use std::sync::{Mutex, Wait};
use std::test::Fail;
use std::thread::Threads;
use tc_combiner::{Bench, Settled};
use tc_hall::hall::Hall;
use tc_hall::pass::Pass;
use tc_hall::place::OUT;
use tc_isa::limits::MAX_WORKERS;
use tc_order::Order;
use tc_queue::{Arrival, Turn};
use tc_workers::bell::Bell;
use tc_workers::crew::together;
use tc_workers::finished::Finished;
use tc_workers::worker::Worker;
use tc_workers::{Gate, Point};

/// What is withheld from a desk, so that it waits in vain.
#[derive(Clone, Copy)]
pub(crate) enum Kept {
    /// The state of this lock is out.
    Lock(u32),
    /// The package of this thread, which waited for this lock, is out.
    Waiter(u32, u32),
    /// A turn of this thread has entered the queue of lock 0, and is never linked.
    Link(u32),
}

/// What a desk waits for in vain, and what holds at the end: the word of each thread's place, and
/// whether each lock is free.
#[derive(Clone, Copy)]
pub(crate) struct Vain<'a> {
    kept: Kept,
    words: &'a [u64],
    home: &'a [bool],
}

/// Enters the queue of the first lock, behind another turn, and does not link.
fn enter_line<R: Abort, Q: Order>(
    rt: &R,
    bench: &Bench<'_, Q>,
    pass: &mut Pass,
    seats: &mut Vec<Q::Seat>,
    thread: u32,
)
    requires keeper { IsKeeper bench.now pass.old (map Q.seen seats.old.items) }
    requires thread { thread < threads bench.now.hall.terms }
    ensures { IsAtHall bench.now pass.new }
{
    assert!(rt; !seats.is_empty());
    let turn = Turn { thread, number: 1 };
    bench.hall.stop(pass);
    match bench.queues[0].enter(bench.hall, pass, &mut seats[0], turn) {
        Arrival::First => panic!(rt; "nobody is in the line"),
        Arrival::Behind(_) => {}
    }
}

/// Withholds from the desks what one of them will wait for, and stops the run.
fn keep<R: Abort, Q: Order>(
    rt: &R,
    bench: &Bench<'_, Q>,
    pass: &mut Pass,
    seats: &mut Vec<Q::Seat>,
    kept: Kept,
)
    requires { IsKeeper bench.now pass.old (map Q.seen seats.old.items) }
    ensures { IsAtHall bench.now pass.new }
{
    match kept {
        Kept::Lock(lock) => {
            assert!(rt; lock < bench.image.guards());
            assert!(rt; take_stopped(bench, pass, lock).is_ok());
        }
        Kept::Waiter(thread, lock) => {
            assert!(rt; thread < bench.image.threads() && lock < bench.image.guards());
            bench.hall.stop(pass);
            assert!(rt; bench.hall.adopt(pass, thread, lock).is_ok());
        }
        Kept::Link(thread) => {
            assert!(rt; thread < bench.image.threads());
            enter_line(rt, bench, pass, seats, thread);
        }
    }
}

/// Ends a desk: its pass, and its seats.
pub(crate) fn keeper_of<R: Abort, Q: Order>(
    rt: &R,
    bench: &Bench<'_, Q>,
    player: Player<Q>,
) -> (Pass, Vec<Q::Seat>)
    requires { IsPlaying bench.now player.desk player.hand player.end }
    ensures { IsKeeper bench.now result.0 (map Q.seen result.1.items) }
{
    let _ = bench;
    let Player {
        mut desk,
        hand: _,
        end: _,
    } = player;
    assert!(rt; desk.back().is_none());
    desk.finish()
}

/// Ends a desk, which withholds what another one will wait for, and stops the run: its pass.
fn stop_as<R: Abort, Q: Order>(rt: &R, bench: &Bench<'_, Q>, player: Player<Q>, kept: Kept) -> Pass
    requires { IsPlaying bench.now player.desk player.hand player.end }
    ensures { IsAtHall bench.now result }
{
    let (mut pass, mut seats) = keeper_of(rt, bench, player);
    keep(rt, bench, &mut pass, &mut seats, kept);
    pass
}

/// Settles the first desk's current package. The run is stopped, and the wait for what comes next
/// ends.
fn settle_in_vain<R: Abort + Wait, Q: Order>(
    rt: &R,
    bench: &Bench<'_, Q>,
    players: &mut [Player<Q>],
)
    requires { All (λ p. IsPlaying bench.now p.desk p.hand p.end) players.old }
{
    assert!(rt; !players.is_empty());
    let player = &mut players[0];
    let (package, end) = in_hand(rt, bench, player);
    match player.desk.settle(rt, bench, package, end) {
        Settled::Stopped => {}
        _ => panic!(rt; "the run was stopped"),
    }
    assert!(rt; player.desk.back().is_none() && player.desk.handed().is_empty());
}

/// Compares the words of all threads' places.
fn check_words<R: Abort, Q: Order>(rt: &R, bench: &Bench<'_, Q>, pass: &mut Pass, words: &[u64])
    requires { IsAtHall bench.now pass.old }
    ensures { IsAtHall bench.now pass.new }
{
    assert!(rt; bench.image.threads() as usize == words.len());
    for t in 0..bench.image.threads() {
        assert!(rt; bench.hall.look(pass, t) == words[t as usize], "thread {t}");
    }
}

/// Compares which locks are free.
fn check_home<R: Abort, Q: Order>(rt: &R, bench: &Bench<'_, Q>, pass: &mut Pass, home: &[bool])
    requires { IsAtHall bench.now pass.old }
{
    assert!(rt; bench.image.guards() as usize == home.len());
    for lock in 0..bench.image.guards() {
        let is_home = take_stopped(bench, pass, lock).is_ok();
        assert!(rt; is_home == home[lock as usize], "lock {lock}");
    }
}

/// Stops the run while the first desk waits for what the last one withholds.
pub(crate) fn wait_in_vain<R: Abort + Wait, Q: Order>(
    rt: &R,
    bench: &Bench<'_, Q>,
    vain: Vain<'_>,
    mut players: Vec<Player<Q>>,
)
    requires { All (λ p. IsPlaying bench.now p.desk p.hand p.end) players.items }
{
    let Some(last) = players.pop() else {
        panic!(rt; "no desk keeps anything")
    };
    let mut pass = stop_as(rt, bench, last, vain.kept);
    settle_in_vain(rt, bench, &mut players);
    check_words(rt, bench, &mut pass, vain.words);
    check_home(rt, bench, &mut pass, vain.home);
}

/// A pass that no worker has, and its hall.
#[derive(Drop)]
struct Stopper<'a> {
    hall: &'a Hall,
    pass: Pass,
    ghost own: { pass.table ≡ hall.now.table },
}

impl Stopper<'_> {
    fn stop(&mut self) {
        self.hall.stop(&mut self.pass);
    }
}

/// An observer that stops the run after so many blocks.
#[derive(Drop)]
struct Stopping<'a, R: Wait + Sync> {
    rt: &'a R,
    blocks: u32,
    committed: AtomicCell<u32>,
    stopper: Mutex<Stopper<'a>>,
}

impl<R: Wait + Sync> Gate for Stopping<'_, R> {
    fn at(&self, _worker: u32, point: Point) {
        let Point::Committed(_, _) = point else {
            return;
        };
        if self.committed.fetch_add(1) == self.blocks {
            self.stopper.lock(self.rt).stop();
        }
    }
}

/// The observer that stops the run of this hall by this pass, after so many blocks.
fn stop_after<'a, R: Wait + Sync>(
    rt: &'a R,
    hall: &'a Hall,
    pass: Pass,
    blocks: u32,
) -> Stopping<'a, R>
    requires { pass.table ≡ hall.now.table }
{
    Stopping {
        rt,
        blocks,
        committed: AtomicCell::new(0),
        stopper: Mutex::new(Stopper { hall, pass }),
    }
}

/// The pass of a worker that has not begun.
fn spare<R: Abort, Q: Order>(rt: &R, bench: &Bench<'_, Q>, crew: &mut Vec<Worker<Q>>) -> Pass
    requires { AreAtWork bench.now crew.old.items }
    ensures own { IsAtHall bench.now result }
    ensures rest { AreAtWork bench.now crew.new.items }
{
    let Some(worker) = crew.pop() else {
        panic!(rt; "there is a worker")
    };
    keeper_of(rt, bench, player_of(bench, worker)).0
}

/// Checks that no package is out.
fn check_back<R: Abort, Q: Order>(rt: &R, bench: &Bench<'_, Q>, pass: &mut Pass)
    requires { IsAtHall bench.now pass.old }
{
    for t in 0..bench.image.threads() {
        assert!(rt; bench.hall.look(pass, t) < OUT, "thread {t}");
    }
}

/// Runs all workers but one in parallel, and stops them after so many blocks.
pub(crate) fn stop_behind<R: Abort + Threads + Wait + Sync, Q: Order>(
    rt: &R,
    bench: &Bench<'_, Q>,
    blocks: u32,
    mut crew: Vec<Worker<Q>>,
)
where
    Q::Place: Send,
    requires { AreAtWork bench.now crew.items }
{
    let pass = spare(rt, bench, &mut crew);
    assert!(rt; !crew.is_empty());
    // More are awaited than ever begin, as where the host gives too few threads: nobody waits for long.
    let bell = Bell::new(u64::from(MAX_WORKERS));
    let gate = stop_after(rt, bench.hall, pass, blocks);
    let Finished { mut pass, all_done } = together(rt, bench, &gate, &bell, crew);
    assert!(rt; !all_done && gate.committed.load() > blocks);
    check_back(rt, bench, &mut pass);
}

/// A section of lock 0; one of it and in it one of lock 1; and one in which a thread faults under
/// both.
const SECTIONS: [u32; 29] = [
    0x00000513, 0x00100893, 0x00000073, 0x00000513, 0x00200893, 0x00000073, 0x05d00893, 0x00000073,
    0x00000513, 0x00100893, 0x00000073, 0x00100513, 0x00100893, 0x00000073, 0x00100513, 0x00200893,
    0x00000073, 0x00000513, 0x00200893, 0x00000073, 0x05d00893, 0x00000073, 0x00000513, 0x00100893,
    0x00000073, 0x00100513, 0x00100893, 0x00000073, 0x00000000,
];

/// The holder of lock 0 has adopted a waiter, which wants lock 1, and set its own package aside.
const WANTS: Script<'static> = Script {
    code: &SECTIONS,
    entries: &[START, (0x00100020, 0)],
    guards: &TWO_GUARDS,
    desks: 3,
    limit: 4,
    steps: &[
        (0, &[Claim(0), Run, GoesOn(0), Run]),
        (1, &[Claim(1), Run, Ships]),
        (0, &[Adopts(1), Run]),
    ],
    history: "",
    bytes: &[],
    broken: false,
};

/// The first waiter was adopted and has released lock 0, and a second one waits behind it.
const SECOND_WAITER: Script<'static> = Script {
    entries: &[START, START, START],
    steps: &[
        (0, &[Claim(0), Run, GoesOn(0), Run]),
        (1, &[Claim(1), Run, Ships]),
        (1, &[Claim(2), Run, Ships]),
        (0, &[Adopts(1), Run]),
    ],
    ..WANTS
};

/// The same, without the second one.
const NO_SECOND: Script<'static> = Script {
    entries: &[START, START, START],
    ..WANTS
};

/// A thread has ended under both locks, and another one waits for the first.
const ENDED: Script<'static> = Script {
    entries: &[(0x00100058, 0), START],
    steps: &[
        (0, &[Claim(0), Run, GoesOn(0), Run, GoesOn(0), Run]),
        (1, &[Claim(1), Run, Ships]),
    ],
    ..WANTS
};

/// Each of the three waits of a desk ends when the run is stopped: all packages that the desk had
/// are ready again, or done if their thread has ended, and each lock that it released is free.
#[test]
fn waits_in_vain_end(rt: HostRuntime) -> Result<(), Fail> {
    let cases = [
        (&WANTS, Kept::Lock(1), [0, 0].as_slice(), [false, false]),
        (
            &SECOND_WAITER,
            Kept::Waiter(2, 0),
            &[0, 0, 514],
            [true, true],
        ),
        (&NO_SECOND, Kept::Link(2), &[0, 0, 0], [true, true]),
        (&ENDED, Kept::Waiter(1, 0), &[2, 514], [true, true]),
    ];
    for (script, kept, words, home) in cases {
        let vain = Vain {
            kept,
            words,
            home: &home,
        };
        play_to(&rt, rt.alloc(), script, Ending::InVain(vain))?;
    }
    Ok(())
}

/// Four threads whose sections have no end: two of lock 0; one in which the thread sleeps, with one
/// of lock 1 in it; and one of lock 1 in which it sleeps.
const ENDLESS: Script<'static> = Script {
    code: &[
        0x00000513, 0x00100893, 0x00000073, 0x00000513, 0x00200893, 0x00000073, 0xfe9ff06f,
        0x00000513, 0x00100893, 0x00000073, 0x00200513, 0x00300893, 0x00000073, 0x00100513,
        0x00100893, 0x00000073, 0x00100513, 0x00200893, 0x00000073, 0x00000513, 0x00200893,
        0x00000073, 0xfc5ff06f, 0x00100513, 0x00100893, 0x00000073, 0x00200513, 0x00300893,
        0x00000073, 0x00100513, 0x00200893, 0x00000073, 0xfddff06f,
    ],
    entries: &[START, (0x0010001c, 0), START, (0x0010005c, 0)],
    limit: 1,
    ..WANTS
};

/// A worker alone, and crews, are stopped after each of the first blocks of a run.
#[test]
fn a_stop_ends_a_run_behind_each_block(rt: HostRuntime) -> Result<(), Fail> {
    for (workers, blocks) in [
        (1, 60),
        (2, 40),
        (3, 40),
        (4, 20),
        (5, 20),
        (6, 20),
        (7, 20),
    ] {
        let script = Script {
            desks: workers + 1,
            ..ENDLESS
        };
        for behind in 0..blocks {
            play_to(&rt, rt.alloc(), &script, Ending::Behind(behind))?;
        }
    }
    Ok(())
}
