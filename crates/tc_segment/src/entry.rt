//! An entry of a journal.

use tc_isa::regs::Regs;
use tc_journal::block::Block;

/// One block that ran with a lock, as the lock saw it.
#[derive(Clone, Copy, Debug, PartialEq, Eq)]
pub struct Entry<'a> {
    /// The block. Its stamp and worker are valid once the entry is sealed.
    pub block: Block,
    /// The registers of the block's thread before it.
    pub start: Regs,
    /// The fuel of the thread before it.
    pub fuel: u32,
    /// The registers of the block's thread after it.
    pub end: Regs,
    /// The values of the block's loads outside the lock's guard and the answers to its LOCK, in the
    /// order of its steps.
    pub foreign: &'a [u32],
}
