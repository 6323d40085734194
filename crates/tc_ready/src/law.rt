//! What the invariant of a deque says, and what it can't say.

ghost use Rattle.tc_ready.specs.Law.{EachOnce, Limit};

/// Between any two steps the offers in a deque and those that the workers took are together those
/// that its owner made, each once.
pub fn each_once()
    ensures { EachOnce }
{}

/// What a worker knows of its own deque never implies that it is not empty: whatever is in it,
/// there is a state in which the worker knows the same and the others took the rest. So a pop that
/// finds nothing can promise no more than `SawEmpty`.
pub fn limit()
    ensures { Limit }
{}
