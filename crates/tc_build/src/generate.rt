//! The generator: a guest of four threads over four locks, as long as is asked for.

ghost use Rattle.std.specs.Prelude.{◌≡◌, ◌+◌, ◌≤◌, ◌<◌, IfOk, OnOk, length};
ghost use Rattle.tc_elf.specs.Loading.{subset};
ghost use Rattle.tc_elf.specs.declared.limits.TheConstants.{MAX_FILE};
ghost use Rattle.tc_build.specs.Code.{Adds};
ghost use Rattle.tc_build.specs.Generator as spec;
ghost use Rattle.tc_build.specs.Generator.{generated, generated_file};

use crate::build::{CODE_START, DATA_START, build};
use crate::code::Code;
use std::alloc::{AllocError, Global};
use tc_isa::instr::Instr;
use tc_isa::reg::Reg;

/// The greatest number of rounds; there is one at least.
pub const MAX_ROUNDS: u32 = 2_000;

/// The number of threads, and that of locks.
const THREADS: u32 = 4;

/// The bytes that a lock guards at the start: the words 0, 1000, 0 and 0 for each.
const FILL: [u8; 64] = [
    0, 0, 0, 0, 0xe8, 3, 0, 0, 0, 0, 0, 0, 0, 0, 0, 0, // lock 0
    0, 0, 0, 0, 0xe8, 3, 0, 0, 0, 0, 0, 0, 0, 0, 0, 0, // lock 1
    0, 0, 0, 0, 0xe8, 3, 0, 0, 0, 0, 0, 0, 0, 0, 0, 0, // lock 2
    0, 0, 0, 0, 0xe8, 3, 0, 0, 0, 0, 0, 0, 0, 0, 0, 0, // lock 3
];

/// The guards, by start and length.
const GUARDS: [(u32, u32); 4] = [
    (DATA_START, 16),
    (DATA_START + 16, 16),
    (DATA_START + 32, 16),
    (DATA_START + 48, 16),
];

/// Adds a section of a lock that increments the lock's counter.
fn push_count(code: &mut Code, lock: u32) -> Result<(), AllocError>
    requires { lock < 4 }
    ensures { OnOk result (Adds code.old code.new (spec.count lock)) }
{
    code.lock(lock)?;
    code.add(16 * lock, 1)?;
    code.unlock(lock)?;
    Ok(())
}

/// Adds a transfer: sections of a lock and of the next one that move an amount between the two.
fn push_transfer(code: &mut Code, lock: u32, amount: u32) -> Result<(), AllocError>
    requires lock { lock < 3 }
    requires some { 1 ≤ amount }
    requires most { amount < 2048 }
    ensures { OnOk result (Adds code.old code.new (spec.transfer lock (lock + 1) amount)) }
{
    let next = lock + 1;
    code.lock(lock)?;
    code.lock(next)?;
    code.add(16 * lock + 4, amount.wrapping_neg())?;
    code.add(16 * next + 4, amount)?;
    code.unlock(lock)?;
    code.unlock(next)?;
    Ok(())
}

/// Adds a section of a lock that increments the lock's counter and sleeps.
fn push_nap(code: &mut Code, lock: u32, blocks: u32) -> Result<(), AllocError>
    requires lock { lock < 4 }
    requires blocks { blocks < 2048 }
    ensures { OnOk result (Adds code.old code.new (spec.nap lock blocks)) }
{
    code.lock(lock)?;
    code.add(16 * lock, 1)?;
    code.sleep(blocks)?;
    code.unlock(lock)?;
    Ok(())
}

/// Adds what a thread does in a round.
#[tactic(auto, unfolding(crate::specs::Generator::round_code))]
fn push_round(code: &mut Code, thread: u32, round: u32) -> Result<(), AllocError>
    requires thread { thread < THREADS }
    requires round { round < MAX_ROUNDS }
    ensures { OnOk result (Adds code.old code.new (spec.round_code thread round)) }
{
    let lock = (thread + 2 * round) % 3;
    match (thread + round) % 4 {
        0 => push_count(code, lock),
        1 => push_transfer(code, lock, 1 + (thread + round) % 9),
        2 => push_nap(code, lock, round % 4),
        _ => code.sleep(round % 4),
    }
}

/// Adds the code of a thread.
fn push_thread(code: &mut Code, rounds: u32, thread: u32) -> Result<(), AllocError>
    requires rounds { rounds ≤ MAX_ROUNDS }
    requires thread { thread < THREADS }
    ensures { OnOk result (Adds code.old code.new (spec.thread_code rounds thread)) }
{
    code.push(&[Instr::Lui {
        rd: Reg::of(5),
        imm: DATA_START,
    }])?;
    for round in 0..rounds {
        push_round(code, thread, round)?;
    }
    code.exit()?;
    Ok(())
}

/// The file of the generator's guest, whose threads have so many rounds. A round is one of four: a
/// section that increments a counter, a transfer between two locks, a section that sleeps, or a
/// sleep alone. A thread takes them in turn, and each thread begins with another one. With 2,000
/// rounds the code of a thread has 21,003 words.
pub fn generate(alloc: Global, rounds: u32) -> Result<Vec<u8>, AllocError>
    requires some { 1 ≤ rounds }
    requires most { rounds ≤ MAX_ROUNDS }
    ensures bytes { IfOk result (λ file. file.items ≡ generated_file rounds) }
    ensures size { IfOk result (λ file. length file.items ≤ MAX_FILE) }
    // Nothing refuses it.
    ensures image { IfOk result (λ file. subset file.items (generated rounds)) }
{
    let mut code = Code::new(alloc);
    let mut entries = Vec::new(alloc);
    for thread in 0..THREADS {
        entries.push((CODE_START + 4 * code.words().len() as u32, 0))?;
        push_thread(&mut code, rounds, thread)?;
    }
    build(alloc, code.words(), &entries, &FILL, &GUARDS)
}
