//! Lemmas about words and seats that span more than one call.

ghost use Rattle.tc_queue.specs.Words.{PacksTurns, PacksLinks};
ghost use Rattle.tc_queue.specs.Laws.{Serves, EnterTie, LeaveTie};

/// Turns and links are packed into words and unpacked again; no other word unpacks to one of them.
pub fn packing()
    ensures turns { PacksTurns }
    ensures links { PacksLinks }
{}

/// Order of service: between any two steps, what a `next` answered is a turn that some seat entered
/// behind the turn that was asked for.
pub fn serving()
    ensures { Serves }
{}

/// A tail that represents the waiting queue of a lock still does so after an `enter`, and after a
/// `leave` that answers Left.
pub fn line()
    ensures enter { EnterTie }
    ensures leave { LeaveTie }
{}
