//! Runs a guest, and reads its history and its profile as values.

ghost use Rattle.std.specs.Prelude.{◌≡◌, ◌<◌, IfOk, List, length};
ghost use Rattle.tc_journal.specs.declared.block.Block.{Block as AnyBlock};
ghost use Rattle.tc_profile.specs.Profile.{lock_profile};
ghost use Rattle.tc_report.specs.Legal.{IsLegalRun, results_after};

use std::alloc::{AllocError, Global};
use std::sync::Wait;
use std::thread::Threads;
use tc_elf::image::Image;
use tc_isa::options::Options;
use tc_main::ByEntry;
use tc_main::gate::Open;
use tc_main::own::run_values;
use tc_main::replay::profile_of;
use tc_profile::LockProfile;

/// Runs the guest to the ends of its threads, and returns how many blocks that took, and the
/// numbers of a lock: those of the history of a legal run.
pub fn run_and_read<R: Threads + Wait + Sync>(
    rt: &R,
    alloc: Global,
    image: &Image,
    options: Options,
    lock: u32,
) -> Result<(usize, LockProfile), AllocError>
    requires { lock < length image.now.guards }
    ensures { IfOk result (λ read. (h : List AnyBlock)
        × IsLegalRun image.now options (results_after image.now options.fuel h)
        × (read.0 ≡ length h) × (read.1 ≡ lock_profile h lock)) }
{
    let run = run_values(rt, alloc, image, options, &ByEntry, &Open)?;
    let profile = profile_of(alloc, image, &run.history)?;
    Ok((run.history.len(), profile.lock(lock)))
}
