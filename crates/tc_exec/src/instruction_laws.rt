//! The lemmas about one instruction.

ghost use Rattle.tc_exec.specs.Statements.{GuardIsHeld, PutIsHeld, UnlockIsHeld, LockIsFree, LockWantsNothing, LockIsAbove, AnswerIsUnread, RegistersAreKept};

/// All that the layers above need to know of instructions, whatever the instruction is. A lemma:
/// the function has no effect when it is called.
pub fn laws()
    ensures guard_is_held { GuardIsHeld }
    ensures put_is_held { PutIsHeld }
    ensures unlock_is_held { UnlockIsHeld }
    ensures lock_is_free { LockIsFree }
    ensures lock_wants_nothing { LockWantsNothing }
    ensures lock_is_above { LockIsAbove }
    ensures answer_is_unread { AnswerIsUnread }
    ensures registers_are_kept { RegistersAreKept }
{}
