//! How a step came out.

ghost use Rattle.std.specs.Prelude.{◌≡◌};
ghost use Rattle.tc_turn.specs.InPlace.{outcome_done};
ghost use Rattle.tc_turn.specs.Turn as turn;

use tc_exec::outcome::{Act, Call, Done};
use tc_journal::rule::Outcome;

/// How a step that did this came out for its block. None is the step of a thread without
/// fuel.
pub fn outcome_of(act: &Option<Act>) -> Outcome
    ensures { result ≡ turn.outcome_of act.now }
{
    match act {
        None => Outcome::Spent,
        Some(act) => match act {
            Act::Next { .. } => Outcome::Went,
            Act::Called { call, .. } => match call {
                Call::Lock(_) => Outcome::Went,
                Call::Unlock(lock) => Outcome::Unlocked(*lock),
                Call::Sleep(_) => Outcome::Slept,
                Call::Exit => Outcome::Exited,
            },
            Act::Faulted(fault) => Outcome::Faulted(*fault),
        },
    }
}

/// The same for what the step did besides its effect on the registers.
pub fn outcome_by(done: &Option<Done>) -> Outcome
    ensures { result ≡ outcome_done done.now }
{
    let Some(done) = done else {
        return Outcome::Spent;
    };
    match done {
        Done::Went | Done::Stored(_) => Outcome::Went,
        Done::Called(call) => match call {
            Call::Lock(_) => Outcome::Went,
            Call::Unlock(lock) => Outcome::Unlocked(*lock),
            Call::Sleep(_) => Outcome::Slept,
            Call::Exit => Outcome::Exited,
        },
        Done::Faulted(fault) => Outcome::Faulted(*fault),
    }
}
