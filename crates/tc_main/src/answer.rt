//! The answer to the arguments and the source: a status, and the text that is written with it.

ghost use Rattle.std.specs.Prelude.{◌≡◌, ◌≢◌, ℕ, ◌+◌, List, IfNone, IfOk, IfErr, IfSome, OnErr};
ghost use Rattle.tc_io.specs.Taken.{TakesAtMost};
ghost use Rattle.tc_main.specs.Wrong.{IsWrong};
ghost use Rattle.tc_main.specs.Top.{IsTextOf, ReadsNoFurther, refused_line, rejected_line, usage_line};
ghost use Rattle.tc_main.specs.Ends.{Comes, Verdict};
ghost use Rattle.tc_report.specs.Written.{Wrote};
ghost use Rattle.tc_main.specs.Words.{AskFor, FitsInput, IsWithinLimits, Nothing, Reads, most_of, needs_of};
ghost use Rattle.tc_main.specs.declared.status.Status.TheVariants.{Refused, Rejected as IsRejected};
ghost use Rattle.tc_main.specs.declared.words.Command.{Command as AnyCommand};

use crate::demo::run_summary;
use crate::replay::{guest_of, replay_profile, replay_report, replayed};
use crate::run::{Setting, run_report};
use crate::status::Status;
use crate::words::{Command, MAX_HISTORY, asked_of};
use crate::wrong::Wrong;
use std::alloc::{AllocError, Global};
use std::fmt::Write;
use std::sync::Wait;
use std::thread::Threads;
use tc_build::generate::generate;
use tc_elf::limits::MAX_FILE as MAX_BYTES;
use tc_io::{ReadAll, Sink, Source, Word, read_all};
use tc_queue::Waiters;
use tc_replay::reason::Rejected;
use tc_report::written::{Written, write_text};
use tc_seats::{ByEntry, QueueMaker};
use tc_workers::gate::Gate;

/// The usage line of the program.
fn usage(alloc: Global) -> Result<Vec<u8>, AllocError>
    ensures { IfOk result (λ text. text.items ≡ usage_line) }
{
    let line =
        "usage: tclocks run W F B | tclocks gen N | tclocks demo N W | tclocks replay N W F B | tclocks nodes G K W F B | tclocks profile N W F B\n";
    Vec::from_slice(alloc, line.as_bytes())
}

/// A status, and how writing its text went. Running out of memory has no text.
#[derive(Drop)]
pub(crate) struct Answer {
    pub status: Status,
    pub written: Written,
}

/// The input is refused, for the reason with this number and name.
fn refused<K: Sink>(
    alloc: Global,
    number: u32,
    name: &str,
    sink: &mut K,
) -> Result<Answer, AllocError>
    ensures answer { IfOk result (λ a. (a.status ≡ Refused number)
        × Wrote (K.stream sink.old) (K.stream sink.new) (refused_line record {
          number = number;
          name = name.now;
        }) a.written) }
    ensures memory { OnErr result (K.stream sink.new ≡ K.stream sink.old) }
{
    let line = format!(in alloc; "refused {number} {name}\n")?;
    Ok(Answer {
        status: Status::Refused(number),
        written: write_text(sink, line.as_bytes()),
    })
}

/// The history is rejected.
fn rejected<K: Sink>(alloc: Global, rejected: Rejected, sink: &mut K) -> Result<Answer, AllocError>
    ensures answer { IfOk result (λ a. (a.status ≡ IsRejected rejected)
        × Wrote (K.stream sink.old) (K.stream sink.new) (rejected_line rejected) a.written) }
    ensures memory { OnErr result (K.stream sink.new ≡ K.stream sink.old) }
{
    let line = rejected.line;
    let number = rejected.reason.number();
    let name = rejected.reason.name();
    let line = format!(in alloc; "rejected {line} {number} {name}\n")?;
    Ok(Answer {
        status: Status::Rejected(rejected),
        written: write_text(sink, line.as_bytes()),
    })
}

/// The answer if there is no text for what is asked.
fn answer_wrong<K: Sink>(alloc: Global, wrong: Wrong, sink: &mut K) -> Result<Answer, AllocError>
    ensures answer { (asked : AnyCommand) (bytes : List ℕ) → IsWrong asked bytes wrong
        → IfOk result (λ a. (text : List ℕ) × Verdict asked bytes text a.status
        × Wrote (K.stream sink.old) (K.stream sink.new) text a.written) }
    ensures memory { OnErr result (K.stream sink.new ≡ K.stream sink.old) }
{
    match wrong {
        Wrong::Short => refused(alloc, 17, "ShortInput", sink),
        Wrong::File(refusal) => refused(alloc, refusal.number(), refusal.name(), sink),
        Wrong::History(reason) => rejected(alloc, reason, sink),
        Wrong::OutOfMemory => Err(AllocError),
    }
}

/// Writes the text for what is asked, from the bytes that were read for it. All memory for it is
/// allocated before any of it is written.
fn write_asked<R: Threads + Wait + Sync, M: QueueMaker, G: Gate, K: Sink>(
    rt: &R,
    alloc: Global,
    asked: Command,
    bytes: Vec<u8>,
    setting: &Setting<'_, M, G>,
    sink: &mut K,
) -> Result<Written, Wrong>
where
    <M::Queue as Waiters>::Place: Send,
    requires limits { IsWithinLimits asked }
    requires few { FitsInput asked bytes.items }
    ensures wrote { IfOk result (λ written. (text : List ℕ) × IsTextOf asked bytes.items text
        × Wrote (K.stream sink.old) (K.stream sink.new) text written) }
    ensures wrong { IfErr result (λ w. IsWrong asked bytes.items w) }
    ensures unwritten { OnErr result (K.stream sink.new ≡ K.stream sink.old) }
{
    match asked {
        Command::Run { order, options } => {
            let image = guest_of(alloc, &bytes)?;
            Ok(run_report(rt, alloc, &image, order, options, setting, sink)?)
        }
        Command::Generate(rounds) => {
            let file = generate(alloc, rounds)?;
            Ok(write_text(sink, &file))
        }
        Command::Demo { rounds, options } => {
            let summary = run_summary(rt, alloc, rounds, options, setting)?;
            Ok(write_text(sink, &summary))
        }
        Command::Replay { size, options } => {
            let replay = replayed(alloc, size, options, bytes)?;
            let report = replay_report(alloc, options, replay)?;
            Ok(write_text(sink, &report))
        }
        Command::Profile { size, options } => {
            let replay = replayed(alloc, size, options, bytes)?;
            let profile = replay_profile(alloc, replay)?;
            Ok(write_text(sink, &profile))
        }
    }
}

/// The answer to the bytes that were read for what is asked.
fn answer_bytes<R: Threads + Wait + Sync, M: QueueMaker, G: Gate, K: Sink>(
    rt: &R,
    alloc: Global,
    asked: Command,
    bytes: Vec<u8>,
    setting: &Setting<'_, M, G>,
    sink: &mut K,
) -> Result<Answer, AllocError>
where
    <M::Queue as Waiters>::Place: Send,
    requires limits { IsWithinLimits asked }
    requires few { FitsInput asked bytes.items }
    ensures answer { IfOk result (λ a. (text : List ℕ) × Verdict asked bytes.items text a.status
        × Wrote (K.stream sink.old) (K.stream sink.new) text a.written) }
    ensures memory { OnErr result (K.stream sink.new ≡ K.stream sink.old) }
{
    match write_asked(rt, alloc, asked, bytes, setting, sink) {
        Ok(written) => Ok(Answer {
            status: Status::Done,
            written,
        }),
        Err(wrong) => answer_wrong(alloc, wrong, sink),
    }
}

/// The most bytes that are read for what is asked; None where nothing is.
fn limit_of(asked: Command) -> Option<usize>
    ensures some { IfSome result (λ most.
        (needs_of asked ≢ Nothing) × (most ≡ most_of (needs_of asked))) }
    ensures none { IfNone result (needs_of asked ≡ Nothing) }
{
    match asked {
        Command::Run { .. } => Some(MAX_BYTES),
        Command::Replay { size, .. } | Command::Profile { size, .. } => {
            Some(size as usize + MAX_HISTORY)
        }
        Command::Generate(_) | Command::Demo { .. } => None,
    }
}

/// The answer to the source for what is asked.
pub(crate) fn answer_asked<R: Threads + Wait + Sync, S: Source, M: QueueMaker, G: Gate, K: Sink>(
    rt: &R,
    alloc: Global,
    asked: Command,
    source: &mut S,
    setting: &Setting<'_, M, G>,
    sink: &mut K,
) -> Result<Answer, AllocError>
where
    <M::Queue as Waiters>::Place: Send,
    requires { IsWithinLimits asked }
    ensures answer { (words : List (List ℕ)) → AskFor words asked
        → IfOk result (λ a. Comes words (S.stream source.old) (S.stream source.new)
        (λ text. Wrote (K.stream sink.old) (K.stream sink.new) text a.written) a.status) }
    ensures unread { needs_of asked ≡ Nothing → S.stream source.new ≡ S.stream source.old }
    ensures further { OnErr result (needs_of asked ≢ Nothing
        → TakesAtMost (S.stream source.old) (S.stream source.new) (most_of (needs_of asked) + 1)) }
    ensures memory { OnErr result (K.stream sink.new ≡ K.stream sink.old) }
{
    let Some(most) = limit_of(asked) else {
        return answer_bytes(rt, alloc, asked, Vec::new(alloc), setting, sink);
    };
    match read_all(alloc, source, most) {
        Ok(bytes) => answer_bytes(rt, alloc, asked, bytes, setting, sink),
        Err(ReadAll::Fault) => Ok(Answer {
            status: Status::ReadFault,
            written: write_text(sink, &[]),
        }),
        Err(ReadAll::OverLimit) => refused(alloc, 0, "TooLarge", sink),
        Err(ReadAll::OutOfMemory) => Err(AllocError),
    }
}

/// The answer to the arguments and the source. If they need nothing from the source, nothing is read.
pub(crate) fn answer_words<R: Threads + Wait + Sync, S: Source, G: Gate, K: Sink>(
    rt: &R,
    alloc: Global,
    words: &[Word],
    source: &mut S,
    gate: &G,
    sink: &mut K,
) -> Result<Answer, AllocError>
    ensures answer { IfOk result (λ a. Comes words.now
        (S.stream source.old) (S.stream source.new)
        (λ text. Wrote (K.stream sink.old) (K.stream sink.new) text a.written) a.status) }
    ensures unread { ¬ Reads words.now → S.stream source.new ≡ S.stream source.old }
    ensures further { OnErr result (ReadsNoFurther words.now
        (S.stream source.old) (S.stream source.new)) }
    ensures memory { OnErr result (K.stream sink.new ≡ K.stream sink.old) }
{
    match asked_of(words) {
        None => {
            let line = usage(alloc)?;
            Ok(Answer {
                status: Status::Usage,
                written: write_text(sink, &line),
            })
        }
        Some(asked) => {
            let setting: Setting<'_, ByEntry, G> = Setting { maker: None, gate };
            answer_asked(rt, alloc, asked, source, &setting, sink)
        }
    }
}
