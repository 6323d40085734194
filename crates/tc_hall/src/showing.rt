//! The hall simulates the abstract machine.

ghost use Rattle.tc_hall.specs.Ties.{Ties};
ghost use Rattle.tc_hall.specs.Order.{IsKept, HasOwnNotes, HasExactWords, HasLineWords};
ghost use Rattle.tc_hall.specs.Lift.{OpensShown, Lifts};

/// Simulation. In every state of a hall that meets its invariant, each operation that may come
/// there preserves the invariant, and is events of the abstract machine, or none. This holds for
/// every hall, pass and operation: what its events require of places, statuses and ends of blocks
/// holds, and if they are enabled, the hall represents the machine after them.
pub fn tie()
    ensures ties { Ties }
{}

/// The invariant between any two operations of a hall, in whatever order: the rules of places,
/// words and history; each live pass's lists are its operations in order, with those of the passes
/// joined into it, and no others; each word has one of its possible
/// values; the words of a line are those of a sequential queue after its calls in that order.
pub fn order()
    ensures kept { IsKept }
    ensures parts { HasOwnNotes }
    ensures words { HasExactWords }
    ensures lines { HasLineWords }
{}

/// Simulation of whole runs. A new hall represents the first state of the abstract machine. The
/// operations of a hall in their order, with events inserted by which threads enter and leave
/// queues, are a list of enabled events of the machine, after which the hall represents the
/// machine. Of the enabling conditions, those on places of threads and locks, statuses, steps and
/// ends of blocks are concluded. Those on queues, grants and the batch rule are hypotheses, since a
/// hall does not represent them.
pub fn lift()
    ensures opens { OpensShown }
    ensures lifts { Lifts }
{}
