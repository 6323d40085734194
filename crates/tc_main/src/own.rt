//! Runs for your own programs: with your own order of waiters, and to values instead of a
//! text.

ghost use Rattle.std.specs.Prelude.{◌≡◌, ℕ, ◌<◌, ◌⊎◌, ◌^◌, IfOk, List, length};
ghost use Rattle.tc_io.specs.Causes.{Rose};
ghost use Rattle.tc_io.specs.Taken.{FailsAmid, Gives};
ghost use Rattle.tc_main.specs.Accepted.{CanAllBeAdded};
ghost use Rattle.tc_main.specs.Ends.{Ends};
ghost use Rattle.tc_main.specs.Own.{run_words};
ghost use Rattle.tc_main.specs.Refusals.{NamedRefusal};
ghost use Rattle.tc_main.specs.Top.{CanBeDone, FailsToRead, IsRefusedFor, IsReport, IsWanted};
ghost use Rattle.tc_main.specs.Top.{MustRefuse, ReadsAll, ReadsNoFurther, Writes, WritesNothing, refused_line};
ghost use Rattle.tc_main.specs.Words.{GuestFile};
ghost use Rattle.tc_main.specs.declared.status.Status.{Status as Answered};
ghost use Rattle.tc_report.specs.Legal.{IsLegalRun, results_after};
ghost use Rattle.tc_report.specs.Outcome.{IsOutcome};

use crate::answer::answer_asked;
use crate::policy::Policy;
use crate::run::{Setting, WholeRun, run_whole};
use crate::status::Status;
use crate::top::status_of;
use crate::words::Command;
use std::alloc::{AllocError, Global};
use std::sync::Wait;
use std::thread::Threads;
use tc_elf::image::Image;
use tc_io::{Sink, Source};
use tc_isa::options::Options;
use tc_queue::Waiters;
use tc_seats::QueueMaker;
use tc_workers::gate::Gate;

/// Runs the guest with the maker's queues, until each thread has ended.
pub fn run_values<R: Threads + Wait + Sync, M: QueueMaker, G: Gate>(
    rt: &R,
    alloc: Global,
    image: &Image,
    options: Options,
    maker: &M,
    gate: &G,
) -> Result<WholeRun, AllocError>
where
    <M::Queue as Waiters>::Place: Send,
    ensures legal { IfOk result (λ run. IsLegalRun image.now options
        (results_after image.now options.fuel run.history.items)) }
    ensures outcome { IfOk result (λ run. IsOutcome image.now options.fuel
        run.history.items run.closed.packages run.closed.locks) }
    ensures few { IfOk result (λ run. length run.history.items < 2 ^ 32) }
    ensures addable { IfOk result (λ run. CanAllBeAdded image.now run.history.items) }
{
    let maker = Some(maker);
    run_whole(rt, alloc, image, options, &Setting { maker, gate })
}

/// As `run` with these options, but with the maker's queues.
fn end_of<R: Threads + Wait + Sync, S: Source, K: Sink, M: QueueMaker, G: Gate>(
    rt: &R,
    alloc: Global,
    options: Options,
    maker: &M,
    source: &mut S,
    sink: &mut K,
    gate: &G,
) -> Status
where
    <M::Queue as Waiters>::Place: Send,
    ensures { Ends (run_words options) (S.stream source.old) (S.stream source.new)
        (K.stream sink.old) (K.stream sink.new) result }
{
    let order = Policy::Entry;
    let asked = Command::Run { order, options };
    let maker = Some(maker);
    match answer_asked(rt, alloc, asked, source, &Setting { maker, gate }, sink) {
        Ok(answer) => status_of(answer),
        Err(_) => Status::OutOfMemory,
    }
}

/// As `tclocks run W F B` with these options, but with the maker's queues: reads a guest's file
/// from the source to its end, runs the guest, and writes the report. It ends as `tclocks` does
/// with those arguments.
pub fn run_guest<R: Threads + Wait + Sync, S: Source, K: Sink, M: QueueMaker, G: Gate>(
    rt: &R,
    alloc: Global,
    options: Options,
    maker: &M,
    source: &mut S,
    sink: &mut K,
    gate: &G,
) -> Status
where
    <M::Queue as Waiters>::Place: Send,
    // It ends as the top call does with the arguments of a run with these options.
    ensures ends { Ends (run_words options) (S.stream source.old) (S.stream source.new)
        (K.stream sink.old) (K.stream sink.new) result }
    // The report of a legal run of the guest that the source had was written whole.
    ensures done { result ≡ Status.Done → (bytes text : List ℕ)
        × ReadsAll GuestFile (S.stream source.old) (S.stream source.new) bytes
        × IsReport options bytes text
        × Gives (K.stream sink.old) (K.stream sink.new) text }
    // A read failed in this call, and nothing was written.
    ensures read { result ≡ Status.ReadFault
        → FailsToRead (run_words options) (S.stream source.old) (S.stream source.new)
        × WritesNothing (K.stream sink.old) (K.stream sink.new) }
    // The input was refused, and the line that says why was written, or a prefix of it.
    ensures refused { (k : ℕ) → result ≡ Status.Refused k → (r : NamedRefusal) × (k ≡ r.number)
        × IsRefusedFor (run_words options) (S.stream source.old) (S.stream source.new) r
        × Writes (K.stream sink.old) (K.stream sink.new) (refused_line r) }
    // A write failed in this call, after a prefix of the report was written.
    ensures write { result ≡ Status.WriteFault → (text : List ℕ)
        × IsWanted (run_words options) (S.stream source.old) (S.stream source.new) text
        × FailsAmid (K.stream sink.old) (K.stream sink.new) text }
    // Memory ran out, and nothing was written.
    ensures memory { result ≡ Status.OutOfMemory
        → ReadsNoFurther (run_words options) (S.stream source.old) (S.stream source.new)
        × WritesNothing (K.stream sink.old) (K.stream sink.new) }
    // Complete: what is to be refused is refused, unless memory runs out.
    ensures refuses { (s : Answered)
        → MustRefuse (run_words options) (S.stream source.old) (S.stream source.new) s
        → (result ≡ s) ⊎ (result ≡ Status.OutOfMemory) }
    // Complete: what can be done is done, unless memory runs out.
    ensures complete { CanBeDone (run_words options) (S.stream source.old) (S.stream source.new)
        → ¬ Rose (K.stream sink.old) (K.stream sink.new)
        → (result ≡ Status.Done) ⊎ (result ≡ Status.OutOfMemory) }
{
    end_of(rt, alloc, options, maker, source, sink, gate)
}
