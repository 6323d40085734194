//! Packages: the whole execution context of a thread, with its lock states and the blocks that it
//! runs.
//!
//! A package runs one block of its thread at a time. It promises the layer above that the machine
//! of ordinary mutexes would run the same block, in every state in which the thread and the
//! package's locks are as the package has them. Each lock of the block gets one more entry in its
//! journal, of exactly the block's steps. All entries but those of the pending block are sealed, so
//! a seal only asks whether the batch rule allows the section that the block began. A lock goes in
//! by `grant` and out by `take_out`, unchanged.
//!
//! - `specs/View.antt`: a package as contracts see it, and its invariant. `specs/Whole.antt`: its
//!   thread and locks as a part of the machine. `specs/Block.antt`: what a block needs of these,
//!   and what it did. `specs/Ran.antt`: the package after a block.
//! - `package`: packages. `context`: the thread, its locks and the steps of a block. `run`: those
//!   steps that decoded code has, one after another. `locks`: the lock states of a package. `room`:
//!   room for blocks that are to come.
#![tactic(auto)]

pub mod context;
pub mod locks;
pub mod package;
mod room;
mod run;

pub use crate::package::Package;
