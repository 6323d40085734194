//! What becomes of a released lock.

ghost use Rattle.std.specs.Prelude.{◌≡◌, ◌<◌, ◌↔◌, true, false, MatchOption, IfSome};
ghost use Rattle.tc_isa.specs.Sets.{IsLeast};
ghost use Rattle.tc_isa.specs.declared.held.TheConstants.Held.{PLACES};
ghost use Rattle.tc_journal.specs.Batch as batch;
ghost use Rattle.tc_nested.specs.Release.{Releases};

use tc_isa::held::Held;
use tc_journal::batch::may_adopt;
use tc_journal::block::Block;

/// What becomes of a lock that a block released.
#[derive(Clone, Copy, Debug, PartialEq, Eq)]
pub enum Next {
    /// Nobody waits: the lock is stored in its slot again.
    Free,
    /// A waiter's section is run by the worker that ran the block.
    Adopt,
    /// A waiter is granted the lock, and any worker may run its section.
    Grant,
}

/// What becomes of a lock that a block released, by the batch rule. `run` is the streak: the number
/// of consecutive Adopted sections of the lock up to the block. `limit` is the batch limit.
/// `waiting` says whether a waiter is linked behind the block's thread.
pub fn plan(block: &Block, lock: u32, run: u32, limit: u32, waiting: bool) -> Next
    requires released { Releases lock block.now }
    ensures free { (result ≡ Next.Free) ↔ (waiting ≡ false) }
    ensures adopt { (result ≡ Next.Adopt)
        ↔ ((waiting ≡ true) × (batch.may_adopt block.now lock run limit ≡ true)) }
    ensures grant { (result ≡ Next.Grant)
        ↔ ((waiting ≡ true) × (batch.may_adopt block.now lock run limit ≡ false)) }
{
    if !waiting {
        Next::Free
    } else if may_adopt(block, lock, run, limit) {
        Next::Adopt
    } else {
        Next::Grant
    }
}

/// The lock that a thread that has ended passes on first: the least of those that it held. None if
/// none is left.
pub fn first_release(held: Held) -> Option<u32>
    ensures value { MatchOption result (held ≡ 0) (λ lock. IsLeast held lock) }
    ensures bound { IfSome result (λ lock. lock < PLACES) }
{
    held.least()
}
