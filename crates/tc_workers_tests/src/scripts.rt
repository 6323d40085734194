//! Scripts: desks that are driven by hand on one thread, in the order written, each for a worker of
//! its own. The history of each is compared with its lines. At the end each lock is free, with
//! these bytes in its guard, and broken or not; or a thread has it.

ghost use Rattle.std.specs.Prelude.{◌≡◌, ◌<◌, ◌≤◌, None, All, IfOk, OnOk, length, map};
ghost use Rattle.tc_isa.specs.declared.limits.TheConstants.{MAX_BATCH, MAX_WORKERS};
ghost use Rattle.tc_hall.specs.Made.{AreDealt};
ghost use Rattle.tc_hall.specs.Rule.{locks};
ghost use Rattle.tc_order.specs.Order.{AreInOrder};
ghost use Rattle.tc_workers.specs.Crew.{AreAtWork, AreLines};
ghost use Rattle.tc_workers.specs.StepWith.{step_of};
ghost use Rattle.tc_workers.specs.Worker.{HasSealed, IsAtWork, IsStep, view_of};
ghost use Rattle.tc_workers_tests.specs.Scripts.{IsAtHall, IsPlaying};

use crate::scripts::Action::{
    Adopts, Back, Claim, Ends, GoesOn, Looks, Now, Parks, Queues, Reads, Run, Ships, Takes, Tells,
    Wake,
};
use crate::stops::{Vain, keeper_of, stop_behind, wait_in_vain};
use std::alloc::{AllocError, Global};
use std::process::Abort;
use std::sync::Wait;
use std::test::Fail;
use std::thread::Threads;
use tc_build::build::build;
use tc_combiner::{Bench, Desk, Settled};
use tc_context::package::Package;
use tc_elf::image::Image;
use tc_elf::limits::MAX_THREADS;
use tc_elf::load::load;
use tc_hall::hall::{Hall, LockOut};
use tc_hall::pass::Pass;
use tc_hall::place::Origin;
use tc_isa::limits::{MAX_BATCH, MAX_WORKERS};
use tc_isa::reg::Reg;
use tc_journal::block::{Block, End};
use tc_journal::reading::read;
use tc_order::Order;
use tc_ready::Ready;
use tc_seats::ByEntry;
use tc_segment::state::LockState;
use tc_workers::Open;
use tc_workers::crew::hire;
use tc_workers::find::try_claim;
use tc_workers::lines::{Lines, line_up, line_up_in_hall, set_apart};
use tc_workers::step::Step;
use tc_workers::step_with::{next, seal_block, wanted_lock};
use tc_workers::worker::Worker;

/// An action with a desk.
#[derive(Clone, Copy)]
pub(crate) enum Action<'a> {
    /// Claims this thread, which is ready.
    Claim(u32),
    /// Runs a block of the current package, and commits it.
    Run,
    /// Settles the current package: it goes on, or the one that was set aside, of this thread.
    GoesOn(u32),
    /// Settles it: a waiter is adopted, of this thread.
    Adopts(u32),
    /// Settles it: it is shipped.
    Ships,
    /// Settles it: it sleeps, and the least sleeper is due then.
    Parks(u64),
    /// Settles it: its thread has ended.
    Ends,
    /// Acquires the lock that the current package wants: it goes on, of this thread.
    Takes(u32),
    /// Acquires it: the package is shipped.
    Queues,
    /// Gives back the package that was set aside, of this thread.
    Back(u32),
    /// Reads the clock.
    Now(u64),
    /// Advances the clock to a turn, wakes the sleeper that is due then, and claims it.
    Wake(u64, u32),
    /// What the last call put as ready, in order.
    Tells(&'a [u32]),
    /// Looks at a thread: the word of its place.
    Looks(u32, u64),
    /// Reads a register of the current thread.
    Reads(u32, u32),
}

/// A desk, and its worker's current package, with the end of the package's last block if that is
/// not settled yet.
#[derive(Drop)]
pub(crate) struct Player<Q: Order> {
    pub(crate) desk: Desk<Q>,
    pub(crate) hand: Option<Package>,
    pub(crate) end: Option<End>,
}

/// Whether the answer is that of the action.
fn is_as(settled: &Settled, action: Action<'_>) -> bool {
    match (settled, action) {
        (Settled::GoesOn(package), Action::GoesOn(t) | Action::Takes(t)) => package.thread() == t,
        (Settled::Adopted(package), Action::Adopts(t)) => package.thread() == t,
        (Settled::Shipped, Action::Ships | Action::Queues) => true,
        (Settled::Parked, Action::Parks(_)) => true,
        (Settled::Ended, Action::Ends) => true,
        _ => false,
    }
}

/// Claims a thread.
fn claim_thread<R: Abort, Q: Order>(
    rt: &R,
    bench: &Bench<'_, Q>,
    player: &mut Player<Q>,
    t: u32,
    from: Origin,
)
    requires { IsPlaying bench.now player.old.desk player.old.hand player.old.end }
    ensures { IsPlaying bench.now player.new.desk player.new.hand player.new.end }
{
    assert!(rt; player.hand.is_none() && player.end.is_none() && t < bench.image.threads());
    assert!(rt; player.desk.back().is_none());
    match try_claim(bench, &Open, &mut player.desk, t, from) {
        Step::On(Some(package)) => player.hand = Some(package),
        _ => panic!(rt; "the thread is not there"),
    }
}

/// Runs a block of the current package, and commits it.
fn run_block<R: Abort, Q: Order>(rt: &R, bench: &Bench<'_, Q>, player: &mut Player<Q>) -> Block
    requires { IsPlaying bench.now player.old.desk player.old.hand player.old.end }
    ensures { IsPlaying bench.now player.new.desk player.new.hand player.new.end }
{
    assert!(rt; player.end.is_none());
    let Some(mut package) = player.hand.take() else {
        panic!(rt; "no package is in hand")
    };
    assert!(rt; wanted_lock(&package, bench.image).is_none());
    let Ok(end) = seal_block(bench, &mut player.desk, &mut package) else {
        panic!(rt; "there is memory for a block")
    };
    let Some(&block) = package.log().last() else {
        panic!(rt; "a block was run")
    };
    player.hand = Some(package);
    player.end = Some(end);
    block
}

/// Takes the current package, with the end of its last block, which is to be settled.
pub(crate) fn in_hand<R: Abort, Q: Order>(
    rt: &R,
    bench: &Bench<'_, Q>,
    player: &mut Player<Q>,
) -> (Package, End)
    requires { IsPlaying bench.now player.old.desk player.old.hand player.old.end }
    ensures sealed { HasSealed bench.now result.1 result.0 player.new.desk }
    ensures settled { player.new.end ≡ None }
{
    let _ = bench;
    let Some(package) = player.hand.take() else {
        panic!(rt; "no package is in hand")
    };
    let Some(end) = player.end.take() else {
        panic!(rt; "no block was run")
    };
    (package, end)
}

/// Goes on with what comes of an answer, which is that of the action.
fn go_on_as<R: Abort, Q: Order>(
    rt: &R,
    bench: &Bench<'_, Q>,
    player: &mut Player<Q>,
    settled: Settled,
    action: Action<'_>,
)
    requires step { IsStep bench.now player.old.desk (step_of settled) }
    requires settled { player.old.end ≡ None }
    ensures { IsPlaying bench.now player.new.desk player.new.hand player.new.end }
{
    let _ = bench;
    assert!(rt; is_as(&settled, action));
    match next(settled) {
        Step::On(hand) => player.hand = hand,
        _ => panic!(rt; "nobody stopped the run"),
    }
}

/// Settles the current package, and goes on with the result.
fn settle_as<R: Abort + Wait, Q: Order>(
    rt: &R,
    bench: &Bench<'_, Q>,
    player: &mut Player<Q>,
    action: Action<'_>,
)
    requires { IsPlaying bench.now player.old.desk player.old.hand player.old.end }
    ensures { IsPlaying bench.now player.new.desk player.new.hand player.new.end }
{
    let (package, end) = in_hand(rt, bench, player);
    let settled = player.desk.settle(rt, bench, package, end);
    go_on_as(rt, bench, player, settled, action);
}

/// Acquires the lock that the current package wants since its last block, and goes on with the
/// result.
fn acquire_as<R: Abort + Wait, Q: Order>(
    rt: &R,
    bench: &Bench<'_, Q>,
    player: &mut Player<Q>,
    action: Action<'_>,
)
    requires { IsPlaying bench.now player.old.desk player.old.hand player.old.end }
    ensures { IsPlaying bench.now player.new.desk player.new.hand player.new.end }
{
    let (package, end) = in_hand(rt, bench, player);
    let End::Wants(lock) = end else {
        panic!(rt; "no lock is wanted")
    };
    assert!(rt; package.want(bench.image) == Some(lock));
    package.keeps();
    let settled = player.desk.acquire(rt, bench, package);
    go_on_as(rt, bench, player, settled, action);
}

/// Wakes a sleeper at a turn, to which the clock is moved, and claims it.
fn wake<R: Abort, Q: Order>(rt: &R, bench: &Bench<'_, Q>, player: &mut Player<Q>, turn: u64, t: u32)
    requires { IsPlaying bench.now player.old.desk player.old.hand player.old.end }
    ensures { IsPlaying bench.now player.new.desk player.new.hand player.new.end }
{
    assert!(rt; player.hand.is_none() && player.end.is_none() && player.desk.now() < turn);
    assert!(rt; player.desk.sleepers().least() == Some(turn));
    player.desk.advance(turn);
    assert!(rt; player.desk.sleepers().due(turn) == Some(t));
    claim_thread(rt, bench, player, t, Origin::Parked);
}

/// Goes on with the package that was set aside.
fn take_back<R: Abort, Q: Order>(rt: &R, bench: &Bench<'_, Q>, player: &mut Player<Q>, t: u32)
    requires { IsPlaying bench.now player.old.desk player.old.hand player.old.end }
    ensures { IsPlaying bench.now player.new.desk player.new.hand player.new.end }
{
    let _ = bench;
    assert!(rt; player.hand.is_none() && player.end.is_none());
    let Some(package) = player.desk.back() else {
        panic!(rt; "no package is set aside")
    };
    assert!(rt; package.thread() == t);
    player.hand = Some(package);
}

/// Looks at a thread.
fn look_at<R: Abort, Q: Order>(
    rt: &R,
    bench: &Bench<'_, Q>,
    player: &mut Player<Q>,
    t: u32,
    word: u64,
)
    requires { IsPlaying bench.now player.old.desk player.old.hand player.old.end }
    ensures { IsPlaying bench.now player.new.desk player.new.hand player.new.end }
{
    assert!(rt; player.end.is_none() && t < bench.image.threads());
    assert!(rt; bench.hall.look(player.desk.pass(), t) == word);
}

/// Whether a register of the current package has this value.
fn reads(hand: &Option<Package>, register: u32, value: u32) -> bool {
    match (hand, Reg::new(register)) {
        (Some(package), Some(register)) => package.regs().get(register) == value,
        _ => false,
    }
}

/// Settles the current package, which sleeps: the least sleeper is due then.
fn park_until<R: Abort + Wait, Q: Order>(
    rt: &R,
    bench: &Bench<'_, Q>,
    player: &mut Player<Q>,
    due: u64,
)
    requires { IsPlaying bench.now player.old.desk player.old.hand player.old.end }
    ensures { IsPlaying bench.now player.new.desk player.new.hand player.new.end }
{
    settle_as(rt, bench, player, Action::Parks(due));
    assert!(rt; player.desk.sleepers().least() == Some(due));
}

/// Checks what an action says of a desk, at which it does nothing else.
fn check<R: Abort, Q: Order>(
    rt: &R,
    bench: &Bench<'_, Q>,
    player: &mut Player<Q>,
    action: Action<'_>,
)
    requires { IsPlaying bench.now player.old.desk player.old.hand player.old.end }
    ensures { IsPlaying bench.now player.new.desk player.new.hand player.new.end }
{
    match action {
        Action::Tells(threads) => assert!(rt; player.desk.handed() == threads),
        Action::Looks(t, word) => look_at(rt, bench, player, t, word),
        Action::Reads(register, value) => assert!(rt; reads(&player.hand, register, value)),
        Action::Now(turn) => assert!(rt; player.desk.now() == turn),
        _ => panic!(rt; "each action is known"),
    }
}

/// Does one action with a desk, and gives the block that it ran, if any.
fn act<R: Abort + Wait, Q: Order>(
    rt: &R,
    bench: &Bench<'_, Q>,
    player: &mut Player<Q>,
    action: Action<'_>,
) -> Option<Block>
    requires { IsPlaying bench.now player.old.desk player.old.hand player.old.end }
    ensures { IsPlaying bench.now player.new.desk player.new.hand player.new.end }
{
    match action {
        Action::Run => return Some(run_block(rt, bench, player)),
        Action::Claim(t) => claim_thread(rt, bench, player, t, Origin::Ready),
        Action::Back(t) => take_back(rt, bench, player, t),
        Action::Wake(turn, t) => wake(rt, bench, player, turn, t),
        Action::Takes(_) | Action::Queues => acquire_as(rt, bench, player, action),
        Action::Parks(due) => park_until(rt, bench, player, due),
        Action::GoesOn(_) | Action::Adopts(_) | Action::Ships | Action::Ends => {
            settle_as(rt, bench, player, action);
        }
        _ => check(rt, bench, player, action),
    }
    None
}

/// A desk, and the actions with it, in order.
pub(crate) type Row<'a> = (usize, &'a [Action<'a>]);

/// A script: a guest, its number of desks and batch limit, the actions with each desk, the lines of
/// its history, the bytes of the guards of locks that are free at the end, and whether these locks
/// are broken.
#[derive(Clone, Copy)]
pub(crate) struct Script<'a> {
    pub(crate) code: &'a [u32],
    pub(crate) entries: &'a [(u32, u32)],
    pub(crate) guards: &'a [(u32, u32)],
    pub(crate) desks: u32,
    pub(crate) limit: u32,
    pub(crate) steps: &'a [Row<'a>],
    pub(crate) history: &'a str,
    pub(crate) bytes: &'a [Option<[u8; 4]>],
    pub(crate) broken: bool,
}

/// The image of a guest, whose guards are zeros at the start.
fn image_of<R: Abort>(rt: &R, alloc: Global, script: &Script<'_>) -> Result<Image, Fail> {
    assert!(rt;
        1 <= script.entries.len()
            && script.entries.len() <= MAX_THREADS as usize
            && script.guards.len() <= 3
            && script.code.len() <= 100
    );
    let zeros = [0u8; 12];
    let fill = &zeros[..4 * script.guards.len()];
    let file = build(alloc, script.code, script.entries, fill, script.guards)?;
    Ok(load(alloc, &file)?)
}

/// A player at a worker's desk.
pub(crate) fn player_of<Q: Order>(bench: &Bench<'_, Q>, worker: Worker<Q>) -> Player<Q>
    requires { IsAtWork bench.now None (view_of worker) }
    ensures { IsPlaying bench.now result.desk result.hand result.end }
{
    let _ = bench;
    Player {
        desk: worker.desk,
        hand: None,
        end: None,
    }
}

/// Gives each worker's desk to a player; the least number comes first.
pub(crate) fn players<Q: Order>(
    alloc: Global,
    bench: &Bench<'_, Q>,
    mut hired: Vec<Worker<Q>>,
) -> Result<Vec<Player<Q>>, AllocError>
    requires { AreAtWork bench.now hired.items }
    ensures { IfOk result (λ players. All (λ p. IsPlaying bench.now p.desk p.hand p.end)
        players.items) }
{
    let mut players = Vec::with_capacity(alloc, hired.len())?;
    while let Some(worker) = hired.pop() {
        players.push(player_of(bench, worker))?;
    }
    Ok(players)
}

/// Compares the history with the script's lines.
fn check_history<R: Abort>(
    rt: &R,
    alloc: Global,
    history: &[Block],
    lines: &str,
) -> Result<(), Fail> {
    let told = read(alloc, lines.as_bytes())?;
    assert!(rt; history == told.as_slice());
    Ok(())
}

/// Does the actions of a row in their order. The blocks that they run are added to the history.
fn act_all<R: Abort + Wait, Q: Order>(
    rt: &R,
    bench: &Bench<'_, Q>,
    player: &mut Player<Q>,
    history: &mut Vec<Block>,
    actions: &[Action<'_>],
) -> Result<(), AllocError>
    requires { IsPlaying bench.now player.old.desk player.old.hand player.old.end }
    ensures { OnOk result (IsPlaying bench.now player.new.desk player.new.hand player.new.end) }
{
    for action in actions {
        if let Some(block) = act(rt, bench, player, *action) {
            history.push(block)?;
        }
    }
    Ok(())
}

/// Does the rows in their order.
pub(crate) fn follow<R: Abort + Wait, Q: Order>(
    rt: &R,
    bench: &Bench<'_, Q>,
    players: &mut [Player<Q>],
    history: &mut Vec<Block>,
    steps: &[Row<'_>],
) -> Result<(), AllocError>
    requires { All (λ p. IsPlaying bench.now p.desk p.hand p.end) players.old }
    ensures { OnOk result
        (All (λ p. IsPlaying bench.now p.desk p.hand p.end) players.new) }
{
    for (desk, actions) in steps {
        assert!(rt; *desk < players.len());
        act_all(rt, bench, &mut players[*desk], history, actions)?;
    }
    Ok(())
}

/// Takes a lock after a stop: no call asks then how the pass stands at the lock's line.
pub(crate) fn take_stopped<Q: Order>(
    bench: &Bench<'_, Q>,
    pass: &mut Pass,
    lock: u32,
) -> Result<LockState, LockOut>
    requires at { IsAtHall bench.now pass.old }
    requires lock { lock < locks bench.now.hall.terms }
    ensures { IsAtHall bench.now pass.new }
{
    bench.hall.stop(pass);
    bench.hall.take(pass, lock)
}

/// Takes each lock that is free, and compares the bytes of its guard, and whether it is broken.
fn check_guards<R: Abort, Q: Order>(
    rt: &R,
    bench: &Bench<'_, Q>,
    pass: &mut Pass,
    script: &Script<'_>,
)
    requires { IsAtHall bench.now pass.old }
{
    assert!(rt; bench.image.guards() as usize == script.bytes.len());
    for lock in 0..bench.image.guards() {
        match (take_stopped(bench, pass, lock), script.bytes[lock as usize]) {
            (Ok(state), Some(bytes)) => {
                assert!(rt; state.bytes() == bytes.as_slice() && state.broken() == script.broken);
            }
            (Err(_), None) => {}
            _ => panic!(rt; "lock {lock}"),
        }
    }
}

/// How a script ends.
#[derive(Clone, Copy)]
pub(crate) enum Ending<'a> {
    /// All is compared with what the script says.
    Compared,
    /// The first desk waits in vain, and the run is stopped meanwhile.
    InVain(Vain<'a>),
    /// All desks but one are left to their workers, and the run is stopped after so many blocks.
    Behind(u32),
}

/// Compares the result of a script.
fn compare<R: Abort, Q: Order>(
    rt: &R,
    alloc: Global,
    bench: &Bench<'_, Q>,
    script: &Script<'_>,
    mut players: Vec<Player<Q>>,
    history: &[Block],
) -> Result<(), Fail>
    requires { All (λ p. IsPlaying bench.now p.desk p.hand p.end) players.items }
{
    check_history(rt, alloc, history, script.history)?;
    let Some(last) = players.pop() else {
        panic!(rt; "there is a desk")
    };
    let (mut pass, _) = keeper_of(rt, bench, last);
    check_guards(rt, bench, &mut pass, script);
    Ok(())
}

/// Gives each worker a player, plays the script, and checks the result.
fn perform<R: Abort + Threads + Wait + Sync, Q: Order>(
    rt: &R,
    alloc: Global,
    bench: &Bench<'_, Q>,
    script: &Script<'_>,
    ending: Ending<'_>,
    hired: Vec<Worker<Q>>,
) -> Result<(), Fail>
where
    Q::Place: Send,
    requires work { AreAtWork bench.now hired.items }
{
    if let Ending::Behind(blocks) = ending {
        stop_behind(rt, bench, blocks, hired);
        return Ok(());
    }
    let mut players = players(alloc, bench, hired)?;
    let mut history = Vec::new(alloc);
    follow(rt, bench, &mut players, &mut history, script.steps)?;
    if let Ending::InVain(vain) = ending {
        wait_in_vain(rt, bench, vain, players);
        return Ok(());
    }
    compare(rt, alloc, bench, script, players, &history)
}

/// Plays a script to its end.
fn play<R: Abort + Threads + Wait + Sync>(
    rt: &R,
    alloc: Global,
    script: &Script<'_>,
) -> Result<(), Fail> {
    play_to(rt, alloc, script, Ending::Compared)
}

/// Plays a script, which ends so, in a hall that was just made, at these lines.
fn play_at<R: Abort + Threads + Wait + Sync, Q: Order + Drop>(
    rt: &R,
    alloc: Global,
    script: &Script<'_>,
    ending: Ending<'_>,
    image: &Image,
    opened: (Hall, Vec<Pass>),
    lines: Lines<Q, Q::Seat>,
) -> Result<(), Fail>
where
    Q::Place: Send,
    requires desks { (1 ≤ script.now.desks) × (script.now.desks ≤ MAX_WORKERS) }
    requires hall { opened.0.terms.image.value ≡ image.now }
    requires passes { AreDealt image.now (length image.now.entries) (length image.now.guards)
        script.now.desks opened.0.table opened.1.items }
    requires lines { AreLines image.now script.now.desks (map Q.queue lines.queues.items)
        (λ row. map Q.seen row.items) lines.rows.items }
    requires fits { All (λ q. Q.fits q opened.0) lines.queues.items }
    requires order { AreInOrder Q.of lines.queues.items }
{
    let (hall, passes) = opened;
    let Lines { queues, rows } = lines;
    let ready = Ready::crew(alloc, script.desks, image.threads(), 1)?;
    let bench = Bench {
        image,
        hall: &hall,
        queues: queues.as_slice(),
    };
    let hired = hire(alloc, &bench, passes, rows, ready)?;
    perform(rt, alloc, &bench, script, ending, hired)
}

/// Plays a script, which ends so, at the lines of a hall.
fn play_in_hall<R: Abort + Threads + Wait + Sync>(
    rt: &R,
    alloc: Global,
    script: &Script<'_>,
    ending: Ending<'_>,
    image: &Image,
) -> Result<(), Fail>
    requires desks { (1 ≤ script.now.desks) × (script.now.desks ≤ MAX_WORKERS) }
    requires limit { script.now.limit ≤ MAX_BATCH }
{
    let opened = Hall::with_lines(alloc, image, 100, script.desks, script.limit)?;
    let lines = line_up_in_hall(alloc, image, script.desks)?;
    play_at(rt, alloc, script, ending, image, opened, lines)
}

/// Plays a script, which ends so, at queues apart from the hall.
fn play_apart<R: Abort + Threads + Wait + Sync>(
    rt: &R,
    alloc: Global,
    script: &Script<'_>,
    ending: Ending<'_>,
    image: &Image,
) -> Result<(), Fail>
    requires desks { (1 ≤ script.now.desks) × (script.now.desks ≤ MAX_WORKERS) }
    requires limit { script.now.limit ≤ MAX_BATCH }
{
    let opened = Hall::new(alloc, image, 100, script.desks, script.limit)?;
    let Lines { queues, rows } = line_up(alloc, image, script.desks, &ByEntry)?;
    let queues = set_apart(alloc, queues)?;
    let lines = Lines { queues, rows };
    play_at(rt, alloc, script, ending, image, opened, lines)
}

/// Plays a script, which ends so: at the lines of a hall, and at queues apart from it.
pub(crate) fn play_to<R: Abort + Threads + Wait + Sync>(
    rt: &R,
    alloc: Global,
    script: &Script<'_>,
    ending: Ending<'_>,
) -> Result<(), Fail> {
    let image = image_of(rt, alloc, script)?;
    assert!(rt; 1 <= script.desks && script.desks <= MAX_WORKERS && script.limit <= MAX_BATCH);
    play_in_hall(rt, alloc, script, ending, &image)?;
    play_apart(rt, alloc, script, ending, &image)
}

/// One section, in which 1 is added to the guard's word.
const ONE: [u32; 12] = [
    0x000202b7, 0x00000513, 0x00100893, 0x00000073, 0x0002a383, 0x00138393, 0x0072a023, 0x00000513,
    0x00200893, 0x00000073, 0x05d00893, 0x00000073,
];

/// A section in which the thread sleeps for three blocks, and behind it the code of `ONE`.
const DOZE_AND_ONE: [u32; 24] = [
    0x000202b7, 0x00000513, 0x00100893, 0x00000073, 0x00300513, 0x00300893, 0x00000073, 0x00000513,
    0x00200893, 0x00000073, 0x05d00893, 0x00000073, 0x000202b7, 0x00000513, 0x00100893, 0x00000073,
    0x0002a383, 0x00138393, 0x0072a023, 0x00000513, 0x00200893, 0x00000073, 0x05d00893, 0x00000073,
];

pub(crate) const START: (u32, u32) = (0x00100000, 0);

const ONE_GUARD: [(u32, u32); 1] = [(0x00020000, 4)];

pub(crate) const TWO_GUARDS: [(u32, u32); 2] = [(0x00020000, 4), (0x00020004, 4)];

const THREE_GUARDS: [(u32, u32); 3] = [(0x00020000, 4), (0x00020004, 4), (0x00020008, 4)];

/// The holder of a lock runs the section of a waiter.
const ADOPTION: Script<'static> = Script {
    code: &ONE,
    entries: &[START, START],
    guards: &ONE_GUARD,
    desks: 2,
    limit: 4,
    steps: &[
        (0, &[Claim(0), Run, GoesOn(0), Run]),
        (1, &[Claim(1), Run, Ships, Looks(1, 256)]),
        (0, &[Adopts(1), Tells(&[]), Run]),
        (0, &[GoesOn(0), Tells(&[1]), Run]),
        (0, &[Reads(7, 1), Reads(11, 0), Ends]),
        (1, &[Claim(1), Run, Reads(7, 2), Reads(11, 1), Ends]),
    ],
    history: "\
block 0 thread 0 turns 3 held - kind start worker 0 pc 00100000 end wants 0
block 1 thread 0 turns 7 held 0 kind taken worker 0 pc 0010000c end unlocked 0
block 2 thread 1 turns 3 held - kind start worker 1 pc 00100000 end wants 0
block 3 thread 1 turns 7 held 0 kind adopted worker 0 pc 0010000c end unlocked 0
block 4 thread 0 turns 2 held - kind on worker 0 pc 00100028 end exit
block 5 thread 1 turns 2 held - kind on worker 1 pc 00100028 end exit
",
    bytes: &[Some([2, 0, 0, 0])],
    broken: false,
};

/// The same, but each desk is asked to acquire the lock, and not to settle the block that wants it.
const ACQUIRED: Script<'static> = Script {
    steps: &[
        (0, &[Claim(0), Run, Takes(0), Tells(&[]), Run]),
        (1, &[Claim(1), Run, Queues, Tells(&[]), Looks(1, 256)]),
        (0, &[Adopts(1), Run, GoesOn(0), Run, Ends]),
        (1, &[Claim(1), Run, Ends]),
    ],
    ..ADOPTION
};

/// The guest of `ADOPTION` with batch limit 0: the waiter is granted the lock, and runs on the worker
/// that claims it.
const NO_BATCH: Script<'static> = Script {
    limit: 0,
    steps: &[
        (0, &[Claim(0), Run, GoesOn(0), Run]),
        (1, &[Claim(1), Run, Ships]),
        (0, &[GoesOn(0), Tells(&[1]), Looks(1, 0)]),
        (1, &[Claim(1), Run, GoesOn(1), Tells(&[])]),
        (0, &[Run, Ends]),
        (1, &[Run, Reads(7, 2), Ends]),
    ],
    history: "\
block 0 thread 0 turns 3 held - kind start worker 0 pc 00100000 end wants 0
block 1 thread 0 turns 7 held 0 kind taken worker 0 pc 0010000c end unlocked 0
block 2 thread 1 turns 3 held - kind start worker 1 pc 00100000 end wants 0
block 3 thread 1 turns 7 held 0 kind granted worker 1 pc 0010000c end unlocked 0
block 4 thread 0 turns 2 held - kind on worker 0 pc 00100028 end exit
block 5 thread 1 turns 2 held - kind on worker 1 pc 00100028 end exit
",
    ..ADOPTION
};

/// Four such threads with batch limit 1: every second section of a busy lock is adopted.
const SHORT_BATCH: Script<'static> = Script {
    entries: &[START, START, START, START],
    limit: 1,
    steps: &[
        (0, &[Claim(0), Run, GoesOn(0), Run]),
        (1, &[Claim(1), Run, Ships]),
        (1, &[Claim(2), Run, Ships]),
        (1, &[Claim(3), Run, Ships]),
        (0, &[Adopts(1), Run, GoesOn(0), Tells(&[2, 1]), Run, Ends]),
        (1, &[Claim(2), Run, Adopts(3), Run]),
        (1, &[GoesOn(2), Tells(&[3]), Run, Ends]),
        (0, &[Claim(1), Run, Ends]),
        (1, &[Claim(3), Run, Reads(7, 4), Ends]),
    ],
    history: "\
block 0 thread 0 turns 3 held - kind start worker 0 pc 00100000 end wants 0
block 1 thread 0 turns 7 held 0 kind taken worker 0 pc 0010000c end unlocked 0
block 2 thread 1 turns 3 held - kind start worker 1 pc 00100000 end wants 0
block 3 thread 2 turns 3 held - kind start worker 1 pc 00100000 end wants 0
block 4 thread 3 turns 3 held - kind start worker 1 pc 00100000 end wants 0
block 5 thread 1 turns 7 held 0 kind adopted worker 0 pc 0010000c end unlocked 0
block 6 thread 0 turns 2 held - kind on worker 0 pc 00100028 end exit
block 7 thread 2 turns 7 held 0 kind granted worker 1 pc 0010000c end unlocked 0
block 8 thread 3 turns 7 held 0 kind adopted worker 1 pc 0010000c end unlocked 0
block 9 thread 2 turns 2 held - kind on worker 1 pc 00100028 end exit
block 10 thread 1 turns 2 held - kind on worker 0 pc 00100028 end exit
block 11 thread 3 turns 2 held - kind on worker 1 pc 00100028 end exit
",
    bytes: &[Some([4, 0, 0, 0])],
    ..ADOPTION
};

/// A waiter is adopted, and shipped on from within its section with the lock that it holds.
const NESTED: Script<'static> = Script {
    code: &[
        // Thread 0: lock 1.
        0x00100513, 0x00100893, 0x00000073, 0x00100513, 0x00200893, 0x00000073, 0x05d00893,
        0x00000073, // Thread 1: lock 0.
        0x00000513, 0x00100893, 0x00000073, 0x00000513, 0x00200893, 0x00000073, 0x05d00893,
        0x00000073, // Thread 2: lock 0, and in it lock 1.
        0x00000513, 0x00100893, 0x00000073, 0x00100513, 0x00100893, 0x00000073, 0x00100513,
        0x00200893, 0x00000073, 0x00000513, 0x00200893, 0x00000073, 0x05d00893, 0x00000073,
    ],
    entries: &[START, (0x00100020, 0), (0x00100040, 0)],
    guards: &TWO_GUARDS,
    desks: 3,
    limit: 4,
    steps: &[
        (0, &[Claim(0), Run, GoesOn(0), Run]),
        (1, &[Claim(1), Run, GoesOn(1), Run]),
        (2, &[Claim(2), Run, Ships]),
        (1, &[Adopts(2), Run, Ships, Looks(2, 257), Back(1)]),
        (0, &[Adopts(2), Run, GoesOn(2), Run]),
        (0, &[GoesOn(0), Tells(&[2]), Run, Ends]),
        (1, &[Run, Ends]),
        (2, &[Claim(2), Run, Ends]),
    ],
    history: "\
block 0 thread 0 turns 2 held - kind start worker 0 pc 00100000 end wants 1
block 1 thread 0 turns 4 held 1 kind taken worker 0 pc 00100008 end unlocked 1
block 2 thread 1 turns 2 held - kind start worker 1 pc 00100020 end wants 0
block 3 thread 1 turns 4 held 0 kind taken worker 1 pc 00100028 end unlocked 0
block 4 thread 2 turns 2 held - kind start worker 2 pc 00100040 end wants 0
block 5 thread 2 turns 3 held 0 kind adopted worker 1 pc 00100048 end wants 1
block 6 thread 2 turns 4 held 0,1 kind adopted worker 0 pc 00100054 end unlocked 1
block 7 thread 2 turns 3 held 0 kind on worker 0 pc 00100064 end unlocked 0
block 8 thread 0 turns 2 held - kind on worker 0 pc 00100018 end exit
block 9 thread 1 turns 2 held - kind on worker 1 pc 00100038 end exit
block 10 thread 2 turns 2 held - kind on worker 2 pc 00100070 end exit
",
    bytes: &[Some([0; 4]); 2],
    broken: false,
};

/// A thread sleeps inside its section, and keeps the lock while others wait for it.
const SLEEP: Script<'static> = Script {
    code: &DOZE_AND_ONE,
    entries: &[START, (0x00100030, 0)],
    guards: &ONE_GUARD,
    desks: 2,
    limit: 4,
    steps: &[
        (0, &[Claim(0), Run, GoesOn(0), Run]),
        (0, &[Parks(5), Now(2), Looks(0, 1)]),
        (1, &[Claim(1), Run, Ships]),
        (0, &[Wake(5, 0), Now(5), Run, Adopts(1), Run]),
        (0, &[GoesOn(0), Run, Ends]),
        (1, &[Claim(1), Run, Reads(7, 1), Ends]),
    ],
    history: "\
block 0 thread 0 turns 3 held - kind start worker 0 pc 00100000 end wants 0
block 1 thread 0 turns 4 held 0 kind taken worker 0 pc 0010000c end slept
block 2 thread 1 turns 3 held - kind start worker 1 pc 00100030 end wants 0
block 3 thread 0 turns 3 held 0 kind on worker 0 pc 0010001c end unlocked 0
block 4 thread 1 turns 7 held 0 kind adopted worker 0 pc 0010003c end unlocked 0
block 5 thread 0 turns 2 held - kind on worker 0 pc 00100028 end exit
block 6 thread 1 turns 2 held - kind on worker 1 pc 00100058 end exit
",
    bytes: &[Some([1, 0, 0, 0])],
    broken: false,
};

/// A thread ends inside two sections: the waiter of the one lock is granted it, the other lock
/// becomes free, and both are broken.
const END: Script<'static> = Script {
    code: &[
        // Thread 0: locks 0 and 1, and then no instruction.
        0x00000513, 0x00100893, 0x00000073, 0x00100513, 0x00100893, 0x00000073, 0x00000000,
        // Thread 1: lock 0, whose answer goes to x8.
        0x00000513, 0x00100893, 0x00000073, 0x00050413, 0x00000513, 0x00200893, 0x00000073,
        0x05d00893, 0x00000073,
    ],
    entries: &[START, (0x0010001c, 0)],
    guards: &TWO_GUARDS,
    desks: 2,
    limit: 4,
    steps: &[
        (0, &[Claim(0), Run, GoesOn(0), Run, GoesOn(0), Run]),
        (1, &[Claim(1), Run, Ships]),
        (0, &[Ends, Looks(0, 2), Tells(&[1]), Looks(1, 0)]),
        (1, &[Claim(1), Run, Reads(8, 1), GoesOn(1), Run, Ends]),
    ],
    history: "\
block 0 thread 0 turns 2 held - kind start worker 0 pc 00100000 end wants 0
block 1 thread 0 turns 3 held 0 kind taken worker 0 pc 00100008 end wants 1
block 2 thread 0 turns 2 held 0,1 kind taken worker 0 pc 00100014 end fault 1
block 3 thread 1 turns 2 held - kind start worker 1 pc 0010001c end wants 0
block 4 thread 1 turns 5 held 0 kind granted worker 1 pc 00100024 end unlocked 0
block 5 thread 1 turns 2 held - kind on worker 1 pc 00100038 end exit
",
    bytes: &[Some([0; 4]); 2],
    broken: true,
};

/// The same up to that end: lock 1 is free and broken, and its waiter has lock 0.
const AT_END: Script<'static> = Script {
    steps: &[
        (0, &[Claim(0), Run, GoesOn(0), Run, GoesOn(0), Run]),
        (1, &[Claim(1), Run, Ships]),
        (0, &[Ends, Looks(0, 2), Looks(1, 0)]),
    ],
    history: "\
block 0 thread 0 turns 2 held - kind start worker 0 pc 00100000 end wants 0
block 1 thread 0 turns 3 held 0 kind taken worker 0 pc 00100008 end wants 1
block 2 thread 0 turns 2 held 0,1 kind taken worker 0 pc 00100014 end fault 1
block 3 thread 1 turns 2 held - kind start worker 1 pc 0010001c end wants 0
",
    bytes: &[None, Some([0; 4])],
    ..END
};

/// Three nested locks, and a package is shipped at each.
const THREE_DEEP: Script<'static> = Script {
    code: &[
        // Thread 0: lock 2.
        0x00200513, 0x00100893, 0x00000073, 0x00200513, 0x00200893, 0x00000073, 0x05d00893,
        0x00000073, // Thread 1: lock 1.
        0x00100513, 0x00100893, 0x00000073, 0x00100513, 0x00200893, 0x00000073, 0x05d00893,
        0x00000073, // Thread 2: lock 0.
        0x00000513, 0x00100893, 0x00000073, 0x00000513, 0x00200893, 0x00000073, 0x05d00893,
        0x00000073, // Thread 3: locks 0, 1 and 2.
        0x00000513, 0x00100893, 0x00000073, 0x00100513, 0x00100893, 0x00000073, 0x00200513,
        0x00100893, 0x00000073, 0x00200513, 0x00200893, 0x00000073, 0x00100513, 0x00200893,
        0x00000073, 0x00000513, 0x00200893, 0x00000073, 0x05d00893, 0x00000073,
    ],
    entries: &[START, (0x00100020, 0), (0x00100040, 0), (0x00100060, 0)],
    guards: &THREE_GUARDS,
    desks: 4,
    limit: 4,
    steps: &[
        (0, &[Claim(0), Run, GoesOn(0), Run]),
        (1, &[Claim(1), Run, GoesOn(1), Run]),
        (2, &[Claim(2), Run, GoesOn(2), Run]),
        (3, &[Claim(3), Run, Ships]),
        (2, &[Adopts(3), Run, Ships, Back(2)]),
        (1, &[Adopts(3), Run, Ships, Back(1)]),
        (0, &[Adopts(3), Run, GoesOn(3), Run]),
        (0, &[GoesOn(3), Tells(&[]), Run]),
        (0, &[GoesOn(0), Tells(&[3]), Run, Ends]),
        (1, &[Run, Ends]),
        (2, &[Run, Ends]),
        (3, &[Claim(3), Run, Ends]),
    ],
    history: "\
block 0 thread 0 turns 2 held - kind start worker 0 pc 00100000 end wants 2
block 1 thread 0 turns 4 held 2 kind taken worker 0 pc 00100008 end unlocked 2
block 2 thread 1 turns 2 held - kind start worker 1 pc 00100020 end wants 1
block 3 thread 1 turns 4 held 1 kind taken worker 1 pc 00100028 end unlocked 1
block 4 thread 2 turns 2 held - kind start worker 2 pc 00100040 end wants 0
block 5 thread 2 turns 4 held 0 kind taken worker 2 pc 00100048 end unlocked 0
block 6 thread 3 turns 2 held - kind start worker 3 pc 00100060 end wants 0
block 7 thread 3 turns 3 held 0 kind adopted worker 2 pc 00100068 end wants 1
block 8 thread 3 turns 3 held 0,1 kind adopted worker 1 pc 00100074 end wants 2
block 9 thread 3 turns 4 held 0,1,2 kind adopted worker 0 pc 00100080 end unlocked 2
block 10 thread 3 turns 3 held 0,1 kind on worker 0 pc 00100090 end unlocked 1
block 11 thread 3 turns 3 held 0 kind on worker 0 pc 0010009c end unlocked 0
block 12 thread 0 turns 2 held - kind on worker 0 pc 00100018 end exit
block 13 thread 1 turns 2 held - kind on worker 1 pc 00100038 end exit
block 14 thread 2 turns 2 held - kind on worker 2 pc 00100058 end exit
block 15 thread 3 turns 2 held - kind on worker 3 pc 001000a8 end exit
",
    bytes: &[Some([0; 4]); 3],
    broken: false,
};

/// A batch ends because the adopted thread still holds another lock: the next waiter is granted the
/// lock.
const KEPT_LOCK: Script<'static> = Script {
    code: &[
        // Thread 0: lock 1.
        0x00100513, 0x00100893, 0x00000073, 0x00100513, 0x00200893, 0x00000073, 0x05d00893,
        0x00000073, // Thread 1: lock 0, and in it lock 1.
        0x00000513, 0x00100893, 0x00000073, 0x00100513, 0x00100893, 0x00000073, 0x00100513,
        0x00200893, 0x00000073, 0x00000513, 0x00200893, 0x00000073, 0x05d00893, 0x00000073,
    ],
    entries: &[START, (0x00100020, 0), START],
    guards: &TWO_GUARDS,
    desks: 2,
    limit: 4,
    steps: &[
        (0, &[Claim(0), Run, GoesOn(0), Run]),
        (1, &[Claim(1), Run, GoesOn(1), Run, Ships]),
        (1, &[Claim(2), Run, Ships]),
        (0, &[Adopts(1), Run]),
        (0, &[GoesOn(1), Tells(&[2]), Looks(2, 0), Run]),
        (0, &[GoesOn(0), Tells(&[1]), Run, Ends]),
        (1, &[Claim(2), Run, GoesOn(2), Run, Ends]),
        (1, &[Claim(1), Run, Ends]),
    ],
    history: "\
block 0 thread 0 turns 2 held - kind start worker 0 pc 00100000 end wants 1
block 1 thread 0 turns 4 held 1 kind taken worker 0 pc 00100008 end unlocked 1
block 2 thread 1 turns 2 held - kind start worker 1 pc 00100020 end wants 0
block 3 thread 1 turns 3 held 0 kind taken worker 1 pc 00100028 end wants 1
block 4 thread 2 turns 2 held - kind start worker 1 pc 00100000 end wants 1
block 5 thread 1 turns 4 held 0,1 kind adopted worker 0 pc 00100034 end unlocked 1
block 6 thread 1 turns 3 held 0 kind on worker 0 pc 00100044 end unlocked 0
block 7 thread 0 turns 2 held - kind on worker 0 pc 00100018 end exit
block 8 thread 2 turns 4 held 1 kind granted worker 1 pc 00100008 end unlocked 1
block 9 thread 2 turns 2 held - kind on worker 1 pc 00100018 end exit
block 10 thread 1 turns 2 held - kind on worker 1 pc 00100050 end exit
",
    bytes: &[Some([0; 4]); 2],
    broken: false,
};

#[test]
fn a_holder_runs_the_section_of_a_waiter(rt: HostRuntime) -> Result<(), Fail> {
    play(&rt, rt.alloc(), &ADOPTION)
}

#[test]
fn a_desk_acquires_a_lock_or_ships(rt: HostRuntime) -> Result<(), Fail> {
    play(&rt, rt.alloc(), &ACQUIRED)
}

#[test]
fn without_a_batch_a_waiter_is_granted_the_lock(rt: HostRuntime) -> Result<(), Fail> {
    play(&rt, rt.alloc(), &NO_BATCH)
}

#[test]
fn a_batch_of_one_adopts_every_second_section(rt: HostRuntime) -> Result<(), Fail> {
    play(&rt, rt.alloc(), &SHORT_BATCH)
}

#[test]
fn a_waiter_is_shipped_on_with_the_lock_that_it_holds(rt: HostRuntime) -> Result<(), Fail> {
    play(&rt, rt.alloc(), &NESTED)
}

#[test]
fn a_sleeper_keeps_its_lock(rt: HostRuntime) -> Result<(), Fail> {
    play(&rt, rt.alloc(), &SLEEP)
}

#[test]
fn an_end_inside_two_sections_passes_the_locks_on(rt: HostRuntime) -> Result<(), Fail> {
    play(&rt, rt.alloc(), &AT_END)?;
    play(&rt, rt.alloc(), &END)
}

#[test]
fn three_locks_in_one_another_ship_at_each(rt: HostRuntime) -> Result<(), Fail> {
    play(&rt, rt.alloc(), &THREE_DEEP)
}

#[test]
fn a_batch_ends_at_a_thread_that_keeps_a_lock(rt: HostRuntime) -> Result<(), Fail> {
    play(&rt, rt.alloc(), &KEPT_LOCK)
}
