//! The program around the top call: the command-line arguments, and the exit status of the process.

ghost use Rattle.std.specs.Prelude.{◌≡◌, ℕ, List};
ghost use Rattle.std.specs.Process.{exit_status};
ghost use Rattle.tc_main.specs.Ends.{Ends, EndsProcess};
ghost use Rattle.tc_main.specs.Words.{Reads};

use crate::status::{Status, exit_of};
use crate::top::tclocks;
use std::alloc::{AllocError, Global};
use std::env;
use std::env::Env;
use std::io::ErrorKind;
use std::process::ExitCode;
use std::sync::Wait;
use std::thread::Threads;
use tc_io::{Sink, Source, Word};
use tc_workers::gate::Open;

/// The command-line arguments after the program's name. If they are not all UTF-8, the answer is no
/// arguments, which ask for nothing. No contract says what the environment gives; the stored runs
/// of the programs test it.
pub fn words_of<R: Env + AllocGlobal>(rt: &R, alloc: Global) -> Result<Vec<Word>, AllocError> {
    let mut words = Vec::new(alloc);
    match env::args(rt) {
        Ok(args) => {
            for arg in args.skip(1) {
                words.push(Word::from_bytes(alloc, arg.as_str().as_bytes())?)?;
            }
        }
        Err(error) if error.kind() == ErrorKind::OutOfMemory => return Err(AllocError),
        Err(_) => {}
    }
    Ok(words)
}

/// Does what the command-line arguments ask for. If there is no memory for them, nothing is read
/// and nothing is written.
fn run_command<R: Env + AllocGlobal + Threads + Wait + Sync, S: Source, K: Sink>(
    rt: &R,
    source: &mut S,
    sink: &mut K,
) -> Status
    ensures { (words : List (List ℕ)) × Ends words (S.stream source.old) (S.stream source.new)
        (K.stream sink.old) (K.stream sink.new) result
        × (¬ Reads words → S.stream source.new ≡ S.stream source.old) }
{
    let alloc = rt.alloc();
    match words_of(rt, alloc) {
        Ok(words) => tclocks(rt, alloc, &words, source, sink, &Open),
        Err(_) => Status::OutOfMemory,
    }
}

/// The whole program except the streams of the process: does what the command-line arguments ask
/// for, by the top call, and returns the exit status of the process. That is 0 if it was done, and
/// else the number of the status that says why not.
///
/// No contract says that these are the command-line arguments, since the contract of the
/// environment says nothing of them.
pub fn run_program<R: Env + AllocGlobal + Threads + Wait + Sync, S: Source, K: Sink>(
    rt: &R,
    source: &mut S,
    sink: &mut K,
) -> ExitCode
    // With these arguments the top call ends like this, and the process ends with its number.
    ensures ends { EndsProcess (S.stream source.old) (S.stream source.new)
        (K.stream sink.old) (K.stream sink.new) (exit_status result) }
{
    ExitCode::from(exit_of(run_command(rt, source, sink)))
}
