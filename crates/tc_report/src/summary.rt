//! The text of a summary.

ghost use Rattle.std.specs.Prelude.{◌≡◌, ℕ, ◌+◌, ◌*◌, ◌<◌, ◌≤◌, ◌++◌, IfOk, OnOk, length};
ghost use Rattle.std.specs.Prelude.{string_bytes, sum_by};
ghost use Rattle.tc_build.specs.Generator.{generated};
ghost use Rattle.tc_report.specs.Legal.{results_after};
ghost use Rattle.tc_report.specs.Outcome.{IsOutcome};
ghost use Rattle.tc_report.specs.Report.{finished_of, states_text};
ghost use Rattle.tc_report.specs.Summary as text;
ghost use Rattle.tc_report.specs.declared.summary.TheConstants.{DEMO_FUEL};

use crate::report::{push_lock, push_status};
use std::alloc::{AllocError, Global};
use std::fmt::Write;
use tc_build::build::DATA_START;
use tc_context::package::Package;
use tc_journal::block::Block;
use tc_segment::state::LockState;

/// The fuel of each thread of a demonstration, in instructions: enough for the greatest number of
/// rounds.
pub const DEMO_FUEL: u32 = 65_536;

/// Writes how many rounds the guest's threads have.
#[tactic(auto, unfolding(crate::specs::Summary::demo_line))]
fn push_demo(out: &mut String, rounds: u32) -> Result<(), AllocError>
    ensures { OnOk result (string_bytes out.new ≡ string_bytes out.old ++ text.demo_line rounds) }
{
    writeln!(out, "tclocks demo {rounds}")
}

/// The turns of all blocks.
fn turns_of(history: &[Block]) -> u128
    ensures { result ≡ sum_by (λ b. b.turns) history.now }
{
    let mut turns: u128 = 0;
    for block in history {
        turns += u128::from(block.turns);
    }
    turns
}

/// Writes how many blocks ran, and how many turns they had.
#[tactic(auto, unfolding(crate::specs::Summary::blocks_line))]
fn push_blocks(out: &mut String, history: &[Block]) -> Result<(), AllocError>
    ensures { OnOk result (string_bytes out.new
        ≡ string_bytes out.old ++ text.blocks_line history.now) }
{
    let (blocks, turns) = (history.len(), turns_of(history));
    writeln!(out, "blocks {blocks} turns {turns}")
}

/// Writes how a thread ended, and the fuel that was left.
#[tactic(auto, unfolding(crate::specs::Summary::end_line))]
fn push_end(out: &mut String, number: usize, thread: &Package) -> Result<(), AllocError>
    ensures { OnOk result (string_bytes out.new
        ≡ string_bytes out.old ++ text.end_line (number, finished_of thread.now)) }
{
    let (status, fuel) = (thread.status(), thread.fuel());
    write!(out, "thread {number} ")?;
    push_status(out, status)?;
    writeln!(out, " fuel {fuel}")
}

/// Writes how the threads of the packages ended.
fn push_ends(out: &mut String, packages: &[Package]) -> Result<(), AllocError>
    ensures { OnOk result (string_bytes out.new
        ≡ string_bytes out.old ++ text.packages_ends packages.now) }
{
    for number in 0..packages.len() {
        push_end(out, number, &packages[number])?;
    }
    Ok(())
}

/// Writes the lines of the locks of the generator's guest.
fn push_guards(out: &mut String, locks: &[LockState]) -> Result<(), AllocError>
    requires { length locks.now ≤ 4 }
    ensures { (rounds : ℕ) → OnOk result (string_bytes out.new
        ≡ string_bytes out.old ++ states_text (generated rounds) locks.now) }
{
    for number in 0..locks.len() {
        let start = DATA_START + 16 * number as u32;
        push_lock(out, number as u32, start, &locks[number])?;
    }
    Ok(())
}

/// The summary of a run of the generator's guest with so many rounds to the end of every thread:
/// how the threads ended, what the locks guard in the last state, and how many blocks and steps led
/// there. The packages and lock states are those that the run left, of all threads and locks in
/// order of number. It says nothing of the workers and the batch limit.
pub fn summary(
    alloc: Global,
    rounds: u32,
    history: &[Block],
    packages: &[Package],
    locks: &[LockState],
) -> Result<Vec<u8>, AllocError>
    requires { IsOutcome (generated rounds) DEMO_FUEL history.now packages.now locks.now }
    ensures { IfOk result (λ out. out.items ≡ text.summary_text rounds
        (results_after (generated rounds) DEMO_FUEL history.now)) }
{
    let mut out = String::new(alloc);
    push_demo(&mut out, rounds)?;
    push_blocks(&mut out, history)?;
    push_ends(&mut out, packages)?;
    push_guards(&mut out, locks)?;
    out.push_str("end\n")?;
    Ok(out.into_bytes())
}
