//! The text of a profile.

ghost use Rattle.std.specs.Prelude.{◌≡◌, ◌++◌, IfOk, OnOk, length, string_bytes};
ghost use Rattle.tc_profile.specs.Text as text;

use crate::profile::Profile;
use crate::tally::{LockProfile, ThreadProfile};
use std::alloc::{AllocError, Global};
use std::fmt::Write;
use tc_elf::image::Image;

/// Writes how many sections of a lock have each kind.
fn push_kinds(out: &mut String, profile: LockProfile) -> Result<(), AllocError>
    ensures { OnOk result (string_bytes out.new
        ≡ string_bytes out.old ++ text.kinds_text profile) }
{
    let (taken, adopted, granted) = (profile.taken, profile.adopted, profile.granted);
    write!(out, " taken {taken} adopted {adopted} granted {granted}")
}

/// Writes the longest streak of a lock, its changes of worker, and those of the home workers.
fn push_workers(out: &mut String, profile: LockProfile) -> Result<(), AllocError>
    ensures { OnOk result (string_bytes out.new
        ≡ string_bytes out.old ++ text.workers_text profile) }
{
    let (longest, changes, home) = (profile.longest, profile.changes, profile.home);
    write!(out, " longest {longest} changes {changes} home {home}")
}

/// Writes the line of a lock with these numbers.
#[tactic(auto, unfolding(crate::specs::Text::lock_line))]
fn push_lock(out: &mut String, number: u32, profile: LockProfile) -> Result<(), AllocError>
    ensures { OnOk result (string_bytes out.new
        ≡ string_bytes out.old ++ text.lock_line number profile) }
{
    let sections = profile.sections;
    write!(out, "lock {number} sections {sections}")?;
    push_kinds(out, profile)?;
    push_workers(out, profile)?;
    out.push_str("\n")
}

/// Writes the line of a thread with these numbers.
#[tactic(auto, unfolding(crate::specs::Text::thread_line))]
fn push_thread(out: &mut String, number: u32, profile: ThreadProfile) -> Result<(), AllocError>
    ensures { OnOk result (string_bytes out.new
        ≡ string_bytes out.old ++ text.thread_line number profile) }
{
    let ThreadProfile {
        blocks,
        turns,
        moves,
    } = profile;
    write!(out, "thread {number} blocks {blocks}")?;
    writeln!(out, " turns {turns} moves {moves}")
}

/// Writes the lines of the locks.
fn push_locks(out: &mut String, image: &Image, profile: &Profile) -> Result<(), AllocError>
    requires { profile.now.locks ≡ length image.now.guards }
    ensures { OnOk result (string_bytes out.new
        ≡ string_bytes out.old ++ text.locks_text image.now profile.now.history) }
{
    for number in 0..image.guards() {
        let numbers = profile.lock(number);
        push_lock(out, number, numbers)?;
    }
    Ok(())
}

/// Writes the lines of the threads.
fn push_threads(out: &mut String, image: &Image, profile: &Profile) -> Result<(), AllocError>
    requires { profile.now.threads ≡ length image.now.entries }
    ensures { OnOk result (string_bytes out.new
        ≡ string_bytes out.old ++ text.threads_text image.now profile.now.history) }
{
    for number in 0..image.threads() {
        let numbers = profile.thread(number);
        push_thread(out, number, numbers)?;
    }
    Ok(())
}

/// The text of a profile, which was made for the image, of its history: a line for each lock and each
/// thread.
pub fn profile_text(alloc: Global, image: &Image, profile: &Profile) -> Result<Vec<u8>, AllocError>
    requires threads { profile.now.threads ≡ length image.now.entries }
    requires locks { profile.now.locks ≡ length image.now.guards }
    ensures { IfOk result (λ out. out.items ≡ text.profile_text image.now profile.now.history) }
{
    let mut out = String::new(alloc);
    out.push_str("tclocks profile 1\n")?;
    push_locks(&mut out, image, profile)?;
    push_threads(&mut out, image, profile)?;
    out.push_str("end\n")?;
    Ok(out.into_bytes())
}
