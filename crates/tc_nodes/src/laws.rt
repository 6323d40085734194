//! Lemmas about all seats of a queue together.

ghost use Rattle.tc_nodes.specs.Laws.{KeepsBound, KeepsTurns};
ghost use Rattle.tc_nodes.specs.Served.{KeepsArrivals, KeepsEntry, KeepsPicks, KeepsRoom};

/// Between any two steps at which the line is in its slot: each turn that some seat read and the
/// line accepted is in the line, or is what a `next` of some seat answered. No waiter in the line
/// was passed over more often than the bound.
pub fn keeping()
    ensures turns { KeepsTurns }
    ensures bound { KeepsBound }
{}

/// Order of service, over the total order of all steps of all seats. If the line refused no
/// turn and none came twice, the answers of `next` are those of the definition `picks`. If
/// the cells sufficed, turns came into the line in the order of entry. If also the line
/// refused none, and the bound is 0 or all are on one node, they were served in that order
/// (FIFO). If each thread has one turn at a time, the line refuses none and the cells
/// suffice.
pub fn serving()
    ensures picks { KeepsPicks }
    ensures room { KeepsRoom }
    ensures arrivals { KeepsArrivals }
    ensures entry { KeepsEntry }
{}
