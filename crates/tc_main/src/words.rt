//! The command-line arguments.

ghost use Rattle.std.specs.Prelude.{◌≡◌, ℕ, ◌≤◌, ◌∷◌, MatchBool, IfSome, IfNone, decimal};
ghost use Rattle.tc_isa.specs.declared.options.Options.{Options as Chosen};
ghost use Rattle.tc_main.specs.Words.{AskFor, AskForNothing, option_words};
ghost use Rattle.tc_elf.specs.declared.limits.TheConstants.{MAX_FILE};
ghost use Rattle.tc_main.specs.declared.words.Command.TheVariants.{Run, Generate, Demo as Demonstrate, Replay, Profile};
ghost use Rattle.tc_main.specs.declared.policy.Policy.TheVariants.{Entry, Nodes};

use crate::policy::{MAX_PASSES, Policy};
use itoa::Buffer;
use std::str::from_utf8;
use tc_build::generate::MAX_ROUNDS;
use tc_elf::limits::MAX_FILE as MAX_BYTES;
use tc_io::Word;
use tc_isa::limits::{MAX_BATCH, MAX_FUEL, MAX_WORKERS};
use tc_isa::options::Options;
use tc_report::summary::DEMO_FUEL;

/// The batch limit of a demonstration.
pub const DEMO_LIMIT: u32 = 8;

/// The most bytes that the text of a history may have.
pub const MAX_HISTORY: usize = 268_435_456;

/// What the arguments ask for.
#[derive(Clone, Copy, Debug, PartialEq, Eq)]
pub enum Command {
    /// A run of the source's guest.
    Run {
        /// The order in which the waiters of a lock are served.
        order: Policy,
        /// The options of the run.
        options: Options,
    },
    /// The file of the generator's guest with so many rounds.
    Generate(u32),
    /// A demonstration: a run of the generator's guest.
    Demo {
        /// The rounds of the guest.
        rounds: u32,
        /// The options of the run.
        options: Options,
    },
    /// The report of a history of the source's guest, which is replayed.
    Replay {
        /// How many bytes of the source are the guest's file. The rest is the history's text.
        size: u32,
        /// The options of the run that made the history.
        options: Options,
    },
    /// The profile of such a history, which is replayed too.
    Profile {
        /// How many bytes of the source are the guest's file. The rest is the history's text.
        size: u32,
        /// The options of the run that made the history.
        options: Options,
    },
}

/// Whether this is how the number is written.
fn is_decimal(text: &str, number: u32) -> bool
    ensures { MatchBool result (text.now ≡ decimal number) (text.now ≡ decimal number → ⊥) }
{
    let mut buffer = Buffer::new();
    buffer.format(number) == text
}

/// The number that a text is, if it is one within a limit.
fn number_of_text(text: &str, limit: u32) -> Option<u32>
    ensures some { IfSome result (λ n. (n ≤ limit) × (text.now ≡ decimal n)) }
    ensures none { IfNone result ((n : ℕ) → n ≤ limit → text.now ≡ decimal n → ⊥) }
{
    let Ok(number) = text.parse::<u32>() else {
        return None;
    };
    let same = is_decimal(text, number);
    if number <= limit && same {
        Some(number)
    } else {
        None
    }
}

/// The number that an argument is, if it is one from `least` to `most`.
fn number_of(word: &Word, least: u32, most: u32) -> Option<u32>
    ensures some { IfSome result (λ n. (least ≤ n) × (n ≤ most) × (word.now ≡ decimal n)) }
    ensures none { IfNone result ((n : ℕ) → least ≤ n → n ≤ most → word.now ≡ decimal n → ⊥) }
{
    let Ok(text) = from_utf8(word.bytes()) else {
        return None;
    };
    match number_of_text(text, most) {
        Some(number) if number >= least => Some(number),
        _ => None,
    }
}

/// Whether the argument is this one.
fn is(word: &Word, name: &str) -> bool
    ensures { MatchBool result (word.now ≡ name.now) (word.now ≡ name.now → ⊥) }
{
    word.bytes() == name.as_bytes()
}

/// The options that the arguments give: the number of workers, the fuel and the batch limit.
pub fn options_of(words: &[Word]) -> Option<Options>
    ensures some { IfSome result (λ o. words.now ≡ option_words o) }
    ensures none { IfNone result ((o : Chosen) → words.now ≡ option_words o → ⊥) }
{
    let [workers, fuel, limit] = words else {
        return None;
    };
    let workers = number_of(workers, 1, MAX_WORKERS)?;
    let fuel = number_of(fuel, 1, MAX_FUEL)?;
    let limit = number_of(limit, 0, MAX_BATCH)?;
    Some(Options {
        workers,
        fuel,
        limit,
    })
}

/// The options of the run, in the order of entry, that the arguments ask for.
fn run_of(words: &[Word]) -> Option<Options>
    ensures some { IfSome result (λ o. AskFor words.now (Run Entry o)) }
    ensures none { IfNone result ((o : Chosen) → ¬ AskFor words.now (Run Entry o)) }
{
    match words {
        [name, options @ ..] if is(name, "run") => options_of(options),
        _ => None,
    }
}

/// The order and the options of the run by nodes that the arguments ask for.
fn nodes_of(words: &[Word]) -> Option<(Policy, Options)>
    ensures some { IfSome result (λ asked. AskFor words.now (Run asked.0 asked.1)) }
    ensures none { IfNone result ((nodes bound : ℕ) (o : Chosen)
        → ¬ AskFor words.now (Run (Nodes nodes bound) o)) }
{
    let [name, nodes, bound, options @ ..] = words else {
        return None;
    };
    if !is(name, "nodes") {
        return None;
    }
    let options = options_of(options)?;
    let nodes = number_of(nodes, 1, options.workers)?;
    let bound = number_of(bound, 0, MAX_PASSES)?;
    Some((Policy::Nodes { nodes, bound }, options))
}

/// The rounds of the guest whose file the arguments ask for.
fn file_of(words: &[Word]) -> Option<u32>
    ensures some { IfSome result (λ n. AskFor words.now (Generate n)) }
    ensures none { IfNone result ((n : ℕ) → ¬ AskFor words.now (Generate n)) }
{
    match words {
        [name, rounds] if is(name, "gen") => number_of(rounds, 1, MAX_ROUNDS),
        _ => None,
    }
}

/// The rounds and the options of the demonstration that the arguments ask for.
fn demo_of(words: &[Word]) -> Option<(u32, Options)>
    ensures some { IfSome result (λ d. AskFor words.now (Demonstrate d.0 d.1)) }
    ensures none { IfNone result ((n : ℕ) (o : Chosen) → ¬ AskFor words.now (Demonstrate n o)) }
{
    let [name, rounds, workers] = words else {
        return None;
    };
    if !is(name, "demo") {
        return None;
    }
    let rounds = number_of(rounds, 1, MAX_ROUNDS)?;
    let workers = number_of(workers, 1, MAX_WORKERS)?;
    let options = Options {
        workers,
        fuel: DEMO_FUEL,
        limit: DEMO_LIMIT,
    };
    Some((rounds, options))
}

/// The size of the guest's file and the options of the history that the arguments ask for, whose
/// first argument is this.
fn history_of(words: &[Word], name: &str) -> Option<(u32, Options)>
    ensures some { IfSome result (λ h. (1 ≤ h.0) × (h.0 ≤ MAX_FILE)
        × (words.now ≡ name.now ∷ decimal h.0 ∷ option_words h.1)) }
    ensures none { IfNone result ((n : ℕ) (o : Chosen) → 1 ≤ n → n ≤ MAX_FILE
        → words.now ≡ name.now ∷ decimal n ∷ option_words o → ⊥) }
{
    let [own, size, options @ ..] = words else {
        return None;
    };
    if !is(own, name) {
        return None;
    }
    let size = number_of(size, 1, MAX_BYTES as u32)?;
    let options = options_of(options)?;
    Some((size, options))
}

/// What the arguments ask for, if they have one of the forms.
pub fn asked_of(words: &[Word]) -> Option<Command>
    ensures some { IfSome result (λ asked. AskFor words.now asked) }
    ensures none { IfNone result (AskForNothing words.now) }
{
    if let Some(options) = run_of(words) {
        let order = Policy::Entry;
        return Some(Command::Run { order, options });
    }
    if let Some(rounds) = file_of(words) {
        return Some(Command::Generate(rounds));
    }
    if let Some((rounds, options)) = demo_of(words) {
        return Some(Command::Demo { rounds, options });
    }
    if let Some((size, options)) = history_of(words, "replay") {
        return Some(Command::Replay { size, options });
    }
    if let Some((size, options)) = history_of(words, "profile") {
        return Some(Command::Profile { size, options });
    }
    let (order, options) = nodes_of(words)?;
    Some(Command::Run { order, options })
}
