//! Lemmas that the proofs of several crates share and the standard library lacks.
//!
//! There is no code and no contract here. The lemmas are about lists that are read by index and
//! about boolean tests; none mentions threads, locks or blocks.
//!
//! - `proofs/Lists.antt`: the item at an index of a list, of a list with one more item, and of a
//!   mapped list. `proofs/Tests.antt`: values of boolean tests.
#![tactic(auto)]
