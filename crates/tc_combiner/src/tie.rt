//! Queues simulate the waiting queues of the abstract machine.

ghost use Rattle.tc_combiner.specs.Tails.{NextTie, OrderTie, PassTie, TurnsTie};
ghost use Rattle.tc_combiner.specs.Ties.{EnterTie, LeaveTie};

/// A queue's `enter` simulates the abstract machine's Enter, and its `leave` that answers Left
/// simulates Leave: if the tail represents a lock's queue in a state in which the event is enabled,
/// it represents the queue after it. A lemma: the function has no effect when it is called.
pub fn line_tie()
    ensures enter { EnterTie }
    ensures leave { LeaveTie }
{
    tc_queue::line();
}

/// The same over a whole order: calls of a lock's queue in any order that its invariant allows,
/// with events of the abstract machine inserted anywhere. Each `enter` is an Enter, each `leave`
/// that answers Left a Leave, and no other event is one of these of that lock. If each event is
/// enabled, the tail represents the machine's queue after all of them. Whom `next` answers for the
/// first of the queue is its second, to whom Adopt and Grant pass the lock. A lemma: the function
/// has no effect when it is called.
pub fn order_tie()
    ensures pass { PassTie }
    ensures order { OrderTie }
    ensures turns { TurnsTie }
    ensures next { NextTie }
{
    tc_queue::line();
}
