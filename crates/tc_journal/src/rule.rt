//! The rule for where a block ends.

ghost use Rattle.std.specs.Prelude.{◌≡◌};
ghost use Rattle.tc_journal.specs.Rule.{end_rule};

use crate::block::End;
use tc_isa::fault::Fault;
use tc_isa::limits::MAX_TURNS;

/// How a step of a thread came out.
#[derive(Clone, Copy, Debug, PartialEq, Eq)]
pub enum Outcome {
    /// The thread goes on, after an instruction that is none of those below.
    Went,
    /// The thread released the lock of this number.
    Unlocked(u32),
    /// The thread called SLEEP.
    Slept,
    /// The thread called EXIT.
    Exited,
    /// The instruction faulted.
    Faulted(Fault),
    /// There was no fuel for an instruction.
    Spent,
}

/// How a block ends after a last step with this outcome, if it ends there. `turns` counts that
/// step; `next` is the lock that the thread's next step would take, if any.
pub fn end_of(outcome: Outcome, turns: u32, next: Option<u32>) -> Option<End>
    ensures { result ≡ end_rule outcome turns next }
{
    match outcome {
        Outcome::Exited => Some(End::Exit),
        Outcome::Faulted(fault) => Some(End::Fault(fault)),
        Outcome::Spent => Some(End::Spent),
        Outcome::Unlocked(lock) => Some(End::Unlocked(lock)),
        Outcome::Slept => Some(End::Slept),
        Outcome::Went => match next {
            Some(lock) => Some(End::Wants(lock)),
            None if turns == MAX_TURNS => Some(End::Cut),
            None => None,
        },
    }
}
