//! The top call.

ghost use Rattle.std.specs.Prelude.{◌≡◌, ℕ, List, ◌⊎◌};
ghost use Rattle.tc_io.specs.Causes.{Rose};
ghost use Rattle.tc_io.specs.Stream.{Stream};
ghost use Rattle.tc_io.specs.Taken.{FailsAmid, Gives};
ghost use Rattle.tc_main.specs.Refusals.{NamedRefusal};
ghost use Rattle.tc_main.specs.Words.{AskForNothing, Reads};
ghost use Rattle.tc_main.specs.Top.{CanBeDone, FailsToRead, IsRefusedFor, IsRejectedFor, IsWanted};
ghost use Rattle.tc_main.specs.Ends.{Comes, Ends};
ghost use Rattle.tc_report.specs.Written.{Wrote};
ghost use Rattle.tc_main.specs.Top.{MustRefuse, ReadsNoFurther, Writes, WritesNothing};
ghost use Rattle.tc_main.specs.Top.{refused_line, rejected_line, usage_line};
ghost use Rattle.tc_replay.specs.declared.reason.Rejected.{Rejected as AnyRejected};
ghost use Rattle.tc_main.specs.declared.status.Status.{Status as Answered};

use crate::answer::{Answer, answer_words};
use crate::status::Status;
use std::alloc::Global;
use std::sync::Wait;
use std::thread::Threads;
use tc_io::{Sink, Source, Word};
use tc_workers::gate::Gate;

/// How the program ends: a requested text that was cut off is a fault of the sink.
pub(crate) fn status_of(answer: Answer) -> Status
    ensures { (words : List (List ℕ)) (before now had has : Stream)
        → Comes words before now (λ text. Wrote had has text answer.written) answer.status
        → Ends words before now had has result }
{
    match answer.written {
        Ok(()) => answer.status,
        Err(_) => match answer.status {
            Status::Done => Status::WriteFault,
            _ => answer.status,
        },
    }
}

/// Does what the arguments ask for.
fn run_words<R: Threads + Wait + Sync, S: Source, K: Sink, G: Gate>(
    rt: &R,
    alloc: Global,
    words: &[Word],
    source: &mut S,
    sink: &mut K,
    gate: &G,
) -> Status
    ensures ends { Ends words.now (S.stream source.old) (S.stream source.new)
        (K.stream sink.old) (K.stream sink.new) result }
    ensures unread { ¬ Reads words.now → S.stream source.new ≡ S.stream source.old }
{
    match answer_words(rt, alloc, words, source, gate, sink) {
        Ok(answer) => status_of(answer),
        Err(_) => Status::OutOfMemory,
    }
}

/// Does what the arguments ask for, and returns how it ended. They are those after the program's
/// name. `run W F B` (number of workers, fuel of each thread, batch limit) reads the source,
/// runs the guest and writes the report. `gen N` writes the file of the generator's guest with
/// so many rounds. `demo N W` runs that guest on so many workers, with fuel 65,536 and batch
/// limit 8, and writes the summary. `nodes G K W F B` is `run W F B` with workers on G NUMA
/// nodes: a lock goes to a waiter of the releaser's node first, but none in its line is passed
/// over more than K times; no contract distinguishes the two. `replay N W F B` reads a guest's
/// file of N bytes and then the text of a history, replays it under ordinary mutexes, and writes
/// the report of a run with these numbers and this history; `profile N W F B` does the same, and
/// writes the profile.
///
/// The source is read to its end before a worker starts. All memory for the text is allocated
/// before any of it is written. Memory may run out at any growth; then nothing is written. Each
/// worker calls the observer `gate`; the promises hold for every one.
pub fn tclocks<R: Threads + Wait + Sync, S: Source, K: Sink, G: Gate>(
    rt: &R,
    alloc: Global,
    words: &[Word],
    source: &mut S,
    sink: &mut K,
    gate: &G,
) -> Status
    // What was asked for is done, and was written whole: the report of a legal run of the source's
    // guest, the file of the generator's guest, the summary of a legal run of that guest, or the
    // report or profile of a history in the source that is a trace of a complete run.
    ensures done { result ≡ Status.Done → (text : List ℕ)
        × IsWanted words.now (S.stream source.old) (S.stream source.new) text
        × Gives (K.stream sink.old) (K.stream sink.new) text }

    // Nothing was asked for, so nothing was read; and the usage line was written, or a prefix of it
    // before a write failed.
    ensures usage { result ≡ Status.Usage → AskForNothing words.now
        × (S.stream source.new ≡ S.stream source.old)
        × Writes (K.stream sink.old) (K.stream sink.new) usage_line }

    // A read failed in this call, within the limit on what is read, and nothing was written.
    ensures read { result ≡ Status.ReadFault
        → FailsToRead words.now (S.stream source.old) (S.stream source.new)
        × WritesNothing (K.stream sink.old) (K.stream sink.new) }

    // The input was refused, no read failed, and the line that says why was written, or a prefix of
    // it before a write failed.
    ensures refused { (k : ℕ) → result ≡ Status.Refused k → (r : NamedRefusal) × (k ≡ r.number)
        × IsRefusedFor words.now (S.stream source.old) (S.stream source.new) r
        × Writes (K.stream sink.old) (K.stream sink.new) (refused_line r) }

    // A history was rejected, no read failed, and the line that says where and why was written, or
    // a prefix of it before a write failed.
    ensures rejected { (r : AnyRejected) → result ≡ Status.Rejected r
        → IsRejectedFor words.now (S.stream source.old) (S.stream source.new) r
        × Writes (K.stream sink.old) (K.stream sink.new) (rejected_line r) }

    // A write failed in this call, after a prefix of what was asked for was written.
    ensures write { result ≡ Status.WriteFault → (text : List ℕ)
        × IsWanted words.now (S.stream source.old) (S.stream source.new) text
        × FailsAmid (K.stream sink.old) (K.stream sink.new) text }

    // Memory ran out: no read failed, no more was read than shows that there is too much, and
    // nothing was written.
    ensures memory { result ≡ Status.OutOfMemory
        → ReadsNoFurther words.now (S.stream source.old) (S.stream source.new)
        × WritesNothing (K.stream sink.old) (K.stream sink.new) }

    // If what is asked for needs nothing from the source, nothing is read.
    ensures unread { ¬ Reads words.now → S.stream source.new ≡ S.stream source.old }

    // Complete: what is to be refused is refused, unless memory runs out.
    ensures refuses { (s : Answered)
        → MustRefuse words.now (S.stream source.old) (S.stream source.new) s
        → (result ≡ s) ⊎ (result ≡ Status.OutOfMemory) }

    // Complete: what can be done is done, unless memory runs out.
    ensures complete { CanBeDone words.now (S.stream source.old) (S.stream source.new)
        → ¬ Rose (K.stream sink.old) (K.stream sink.new)
        → (result ≡ Status.Done) ⊎ (result ≡ Status.OutOfMemory) }
{
    run_words(rt, alloc, words, source, sink, gate)
}
