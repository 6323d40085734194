//! Checks a history that your own program made.

ghost use Rattle.std.specs.Prelude.{◌≡◌, Ok, Some, None};
ghost use Rattle.tc_journal.specs.History.{IsInOrder};
ghost use Rattle.tc_replay.specs.Rejected.{IsAccepted, IsRejected};
ghost use Rattle.tc_replay.specs.declared.reason.Rejected.{Rejected as AnyRejected};

use std::alloc::{AllocError, Global};
use tc_elf::image::Image;
use tc_journal::block::Block;
use tc_replay::{Rejected, Terms, check};

/// Gives each block its index as its stamp.
pub fn stamp(blocks: &mut [Block])
    ensures { IsInOrder blocks.new }
{
    for i in 0..blocks.len() {
        blocks[i].stamp = i as u64;
    }
}

/// Gives the blocks their stamps, and returns the first thing that is wrong with the history; None
/// if and only if nothing is.
pub fn check_own(
    alloc: Global,
    image: &Image,
    terms: Terms,
    blocks: &mut [Block],
) -> Result<Option<Rejected>, AllocError>
    ensures accepted { result ≡ Ok None → IsAccepted image.now terms blocks.new }
    ensures rejected { (r : AnyRejected) → result ≡ Ok (Some r)
        → IsRejected image.now terms blocks.new r.line r.reason }
{
    stamp(blocks);
    check(alloc, image, terms, blocks)
}
