//! Replays a finished history of a guest, and makes its report or its profile.

ghost use Rattle.std.specs.Prelude.{◌≡◌, ◌<◌, ◌≤◌, ◌^◌, IfOk, IfErr, length};
ghost use Rattle.tc_isa.specs.declared.options.Options.{Options as AnyOptions};
ghost use Rattle.tc_elf.specs.Loading.{subset};
ghost use Rattle.tc_elf.specs.declared.limits.TheConstants.{MAX_FILE};
ghost use Rattle.tc_journal.specs.Reading.{IsTextOf};
ghost use Rattle.tc_journal.specs.Told.{told};
ghost use Rattle.tc_profile.specs.Text.{profile_text};
ghost use Rattle.tc_main.specs.Accepted.{CanAllBeAdded, IsReplayed};
ghost use Rattle.tc_report.specs.Legal.{results_after};
ghost use Rattle.tc_report.specs.Report.{report_text};
ghost use Rattle.tc_main.specs.Replayed.{HasHistory};
ghost use Rattle.tc_main.specs.Wrong.{IsWrongFile, IsWrongText, IsWrongInput};

use crate::wrong::Wrong;
use std::alloc::{AllocError, Global};
use tc_elf::image::Image;
use tc_elf::load::load;
use tc_elf::refusal::Refusal;
use tc_isa::options::Options;
use tc_journal::block::Block;
use tc_journal::reading::{BadText, read};
use tc_profile::{Profile, profile_text};
use tc_replay::checker::Checker;
use tc_replay::checking::{Verdict, checked};
use tc_replay::reason::{Reason, Rejected};
use tc_report::report::{lent, report_with, tail_of};

/// A guest, an accepted history of it, and the checker that took the history.
#[derive(Drop)]
pub(crate) struct Replay {
    image: Image,
    history: Vec<Block>,
    checker: Checker,
}

/// The guest of a file.
pub(crate) fn guest_of(alloc: Global, file: &[u8]) -> Result<Image, Wrong>
    requires { length file.now ≤ MAX_FILE }
    ensures guest { IfOk result (λ image. subset file.now image) }
    ensures wrong { IfErr result (λ w. IsWrongFile file.now w) }
{
    match load(alloc, file) {
        Ok(image) => Ok(image),
        Err(Refusal::OutOfMemory) => Err(Wrong::OutOfMemory),
        Err(refusal) => Err(Wrong::File(refusal)),
    }
}

/// The blocks of a history's text.
fn blocks_of(alloc: Global, text: &[u8]) -> Result<Vec<Block>, Wrong>
    ensures text { IfOk result (λ blocks. IsTextOf told text.now blocks.items) }
    ensures wrong { IfErr result (λ w. IsWrongText text.now w) }
{
    match read(alloc, text) {
        Ok(history) => Ok(history),
        Err(BadText::Line(line)) => Err(Wrong::History(Rejected {
            line,
            reason: Reason::Text,
        })),
        Err(BadText::OutOfMemory) => Err(Wrong::OutOfMemory),
    }
}

/// Replays the history whose text follows a guest's file of so many bytes. The bytes are dropped
/// before a block is run: the image and the blocks are copies.
pub(crate) fn replayed(
    alloc: Global,
    size: u32,
    options: Options,
    bytes: Vec<u8>,
) -> Result<Replay, Wrong>
    requires { size ≤ MAX_FILE }
    ensures history { IfOk result (λ r. HasHistory size bytes.items r.image r.history.items) }
    ensures replayed { IfOk result (λ r. IsReplayed options r) }
    ensures wrong { IfErr result (λ w. IsWrongInput size options bytes.items w) }
{
    let size = size as usize;
    if bytes.len() < size {
        return Err(Wrong::Short);
    }
    let (file, text) = bytes.split_at(size);
    let image = guest_of(alloc, file)?;
    let history = blocks_of(alloc, text)?;
    drop(bytes);
    match checked(alloc, &image, options, &history)? {
        Verdict::Accepted(checker) => Ok(Replay {
            image,
            history,
            checker,
        }),
        Verdict::Rejected(rejected) => Err(Wrong::History(rejected)),
    }
}

/// The report of a replay. The final threads and locks are printed first, so that they are dropped
/// before the report is made.
pub(crate) fn replay_report(
    alloc: Global,
    options: Options,
    replay: Replay,
) -> Result<Vec<u8>, AllocError>
    requires { IsReplayed options replay }
    ensures { IfOk result (λ out. out.items ≡ report_text replay.image options
        (results_after replay.image options.fuel replay.history.items)) }
{
    let Replay {
        image,
        history,
        checker,
    } = replay;
    let (packages, locks) = checker.parts();
    let tail = tail_of(alloc, &image, &packages, &locks)?;
    drop(locks);
    drop(packages);
    let blocks = lent(alloc, &history)?;
    report_with(alloc, &image, options, &blocks, &tail)
}

/// The profile of a history of a guest.
pub fn profile_of(alloc: Global, image: &Image, history: &[Block]) -> Result<Profile, AllocError>
    requires few { length history.now < 2 ^ 32 }
    requires blocks { CanAllBeAdded image.now history.now }
    ensures history { IfOk result (λ p. p.history ≡ history.now) }
    ensures threads { IfOk result (λ p. p.threads ≡ length image.now.entries) }
    ensures locks { IfOk result (λ p. p.locks ≡ length image.now.guards) }
{
    let mut profile = Profile::new(alloc, image)?;
    for block in history {
        profile.add(block);
    }
    Ok(profile)
}

/// The profile of a replay. The threads and the locks are dropped before it is made.
pub(crate) fn replay_profile(alloc: Global, replay: Replay) -> Result<Vec<u8>, AllocError>
    requires { (o : AnyOptions) × IsReplayed o replay }
    ensures { IfOk result (λ out. out.items ≡ profile_text replay.image replay.history.items) }
{
    let Replay {
        image,
        history,
        checker,
    } = replay;
    checker.keeps();
    drop(checker);
    let profile = profile_of(alloc, &image, &history)?;
    profile_text(alloc, &image, &profile)
}
