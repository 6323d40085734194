//! The program `youngest`: as `tclocks run W F B`, but with the waiters of tc_youngest instead of
//! those in the order of entry. It is an example of a program with its own order of waiters.
//!
//! Its arguments are `W F B`: the number of workers, the fuel of each thread and the batch limit.
//! If they are not all UTF-8, they count as none, which asks for nothing.
#![tactic(auto)]

ghost use Rattle.std.specs.Prelude.{◌≡◌, ℕ, ◌⊎◌, List, codes};
ghost use Rattle.tc_io.specs.Taken.{Gives};
ghost use Rattle.tc_isa.specs.declared.options.Options.{Options as Chosen};
ghost use Rattle.tc_main.specs.Ends.{Ends};
ghost use Rattle.tc_main.specs.Own.{run_words};
ghost use Rattle.tc_main.specs.Top.{IsReport, ReadsAll, Writes};
ghost use Rattle.tc_main.specs.Words.{GuestFile, option_words};

use std::alloc::Global;
use std::process::ExitCode;
use std::sync::Wait;
use std::thread::Threads;
use tc_io::{Sink, Source, StdSink, StdSource, Word};
use tc_main::gate::Open;
use tc_main::program::words_of;
use tc_main::status::{Status, exit_of};
use tc_main::{options_of, run_guest};
use tc_report::written::write_text;
use tc_youngest::Youngest;

/// How often a waiter may be passed over.
const BOUND: u32 = 8;

/// The usage line.
const USAGE: &str = "usage: youngest W F B\n";

/// Writes the usage line.
fn answer_usage<K: Sink>(sink: &mut K) -> Status
    ensures status { result ≡ Status.Usage }
    ensures line { Writes (K.stream sink.old) (K.stream sink.new) (codes "usage: youngest W F B\n") }
{
    let _ = write_text(sink, USAGE.as_bytes());
    Status::Usage
}

/// Does what the arguments ask for: reads a guest's file, runs the guest, and writes the report.
fn youngest<R: Threads + Wait + Sync, S: Source, K: Sink>(
    rt: &R,
    alloc: Global,
    words: &[Word],
    source: &mut S,
    sink: &mut K,
) -> Status
    // The report of a legal run of the guest that the source had was written whole.
    ensures done { result ≡ Status.Done → (o : Chosen) × (words.now ≡ option_words o)
        × ((bytes text : List ℕ)
        × ReadsAll GuestFile (S.stream source.old) (S.stream source.new) bytes
        × IsReport o bytes text
        × Gives (K.stream sink.old) (K.stream sink.new) text) }
    // With options it ends as `tclocks run` does.
    ensures ends { (o : Chosen) → words.now ≡ option_words o
        → Ends (run_words o) (S.stream source.old) (S.stream source.new)
        (K.stream sink.old) (K.stream sink.new) result }
    // Without them nothing was read, and the usage line was written, or a prefix of it.
    ensures usage { ((o : Chosen) → words.now ≡ option_words o → ⊥)
        → (result ≡ Status.Usage) × (S.stream source.new ≡ S.stream source.old)
        × Writes (K.stream sink.old) (K.stream sink.new) (codes "usage: youngest W F B\n") }
{
    let Some(options) = options_of(words) else {
        return answer_usage(sink);
    };
    let maker = Youngest { rt, bound: BOUND };
    run_guest(rt, alloc, options, &maker, source, sink, &Open)
}

/// Does what the command-line arguments ask for.
fn main(rt: HostRuntime) -> ExitCode {
    let alloc = rt.alloc();
    let mut source = StdSource::new(rt.stdin());
    let mut sink = StdSink::new(rt.stdout());
    let status = match words_of(&rt, alloc) {
        Ok(words) => youngest(&rt, alloc, &words, &mut source, &mut sink),
        Err(_) => Status::OutOfMemory,
    };
    ExitCode::from(exit_of(status))
}
