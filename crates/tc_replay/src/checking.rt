//! A whole history is checked.

ghost use Rattle.std.specs.Prelude.{◌≡◌, ◌+◌, ◌<◌, Ok, Some, None, IfOk, IfSome, length};
ghost use Rattle.tc_journal.specs.History.{IsInOrder};
ghost use Rattle.tc_replay.specs.Rejected.{IsAccepted, IsRejected};
ghost use Rattle.tc_replay.specs.Taken.{CheckerView, HasEnded, HasTaken};
ghost use Rattle.tc_replay.specs.declared.checking.Verdict.TheVariants.{Accepted as AsAccepted, Rejected as AsRejected};
ghost use Rattle.tc_replay.specs.declared.reason.Rejected.{Rejected as AnyRejected};

use crate::Terms;
use crate::checker::Checker;
use crate::reason::{Reason, Rejected, Take};
use std::alloc::{AllocError, Global};
use tc_elf::image::Image;
use tc_journal::block::Block;

/// The verdict on a history.
#[derive(Drop)]
pub enum Verdict {
    /// Nothing is wrong with it. The checker has taken all of its blocks.
    Accepted(Checker),
    /// The first thing that is wrong with it.
    Rejected(Rejected),
}

/// Checks a history, and returns the checker that took it if nothing is wrong with it.
pub fn checked(
    alloc: Global,
    image: &Image,
    terms: Terms,
    history: &[Block],
) -> Result<Verdict, AllocError>
    requires { IsInOrder history.now }
    ensures accepted { (c : CheckerView) → result ≡ Ok (AsAccepted c)
        → IsAccepted image.now terms history.now }
    ensures taken { (c : CheckerView) → result ≡ Ok (AsAccepted c) → HasTaken c history.now }
    ensures ended { (c : CheckerView) → result ≡ Ok (AsAccepted c) → HasEnded c }
    ensures made { (c : CheckerView) → result ≡ Ok (AsAccepted c)
        → (c.image ≡ image.now) × (c.terms ≡ terms) }
    ensures rejected { (r : AnyRejected) → result ≡ Ok (AsRejected r)
        → IsRejected image.now terms history.now r.line r.reason }
{
    let mut checker = Checker::new(alloc, image, terms)?;
    for (i, block) in history.iter().enumerate() {
        checker.keeps();
        match checker.take(image, block) {
            Ok(()) => {}
            Err(Take::Wrong(reason)) => {
                let line = i as u64 + 1;
                return Ok(Verdict::Rejected(Rejected { line, reason }));
            }
            Err(Take::OutOfMemory) => return Err(AllocError),
        }
    }
    checker.keeps();
    if checker.unfinished().is_some() {
        return Ok(Verdict::Rejected(Rejected {
            line: history.len() as u64 + 1,
            reason: Reason::Incomplete,
        }));
    }
    Ok(Verdict::Accepted(checker))
}

/// Checks a history: the first thing that is wrong with it; None if and only if nothing is.
pub fn check(
    alloc: Global,
    image: &Image,
    terms: Terms,
    history: &[Block],
) -> Result<Option<Rejected>, AllocError>
    requires { IsInOrder history.now }
    ensures accepted { result ≡ Ok None → IsAccepted image.now terms history.now }
    ensures rejected { (r : AnyRejected) → result ≡ Ok (Some r)
        → IsRejected image.now terms history.now r.line r.reason }
{
    match checked(alloc, image, terms, history)? {
        Verdict::Accepted(_) => Ok(None),
        Verdict::Rejected(rejected) => Ok(Some(rejected)),
    }
}
