//! A demonstration: a run of the generator's guest, from its rounds to the summary.

ghost use Rattle.std.specs.Prelude.{◌≡◌, ◌≤◌, IfOk};
ghost use Rattle.tc_build.specs.Generator.{generated};
ghost use Rattle.tc_build.specs.declared.generate.TheConstants.{MAX_ROUNDS};
ghost use Rattle.tc_main.specs.Top.{IsSummaryOf};
ghost use Rattle.tc_report.specs.declared.summary.TheConstants.{DEMO_FUEL};

use crate::run::{Setting, WholeRun, run_whole};
use std::alloc::{AllocError, Global};
use std::sync::Wait;
use std::thread::Threads;
use tc_build::generate::generate;
use tc_elf::image::Image;
use tc_elf::load::load;
use tc_elf::refusal::Refusal;
use tc_isa::options::Options;
use tc_queue::Waiters;
use tc_report::summary::summary;
use tc_seats::QueueMaker;
use tc_workers::gate::Gate;

/// The image of the generator's guest, as its file is loaded; it is never refused.
fn generated_image(alloc: Global, rounds: u32) -> Result<Image, AllocError>
    requires some { 1 ≤ rounds }
    requires most { rounds ≤ MAX_ROUNDS }
    ensures { IfOk result (λ image. image ≡ generated rounds) }
{
    let file = generate(alloc, rounds)?;
    match load(alloc, &file) {
        Ok(image) => Ok(image),
        Err(Refusal::OutOfMemory) => Err(AllocError),
        Err(_) => unreachable!(),
    }
}

/// Runs the generator's guest, and returns the summary of the run.
pub(crate) fn run_summary<R: Threads + Wait + Sync, M: QueueMaker, G: Gate>(
    rt: &R,
    alloc: Global,
    rounds: u32,
    options: Options,
    setting: &Setting<'_, M, G>,
) -> Result<Vec<u8>, AllocError>
where
    <M::Queue as Waiters>::Place: Send,
    requires some { 1 ≤ rounds }
    requires most { rounds ≤ MAX_ROUNDS }
    requires fuel { options.fuel ≡ DEMO_FUEL }
    ensures { IfOk result (λ out. IsSummaryOf rounds options out.items) }
{
    let image = generated_image(alloc, rounds)?;
    let WholeRun { closed, history } = run_whole(rt, alloc, &image, options, setting)?;
    summary(alloc, rounds, &history, closed.packages(), closed.locks())
}
