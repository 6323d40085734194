//! Tests of a guest's way from bytes to turns, on public calls alone.
//!
//! `elf` loads files, and has each reason against one. `build` compares built files with those of other
//! tools; `parts` compares what an image has. `exec` runs single instructions by the manual, and
//! `exec/guards` those on memory below guards, and guest calls. `turn` runs a thread turn by turn.
#![tactic(auto)]

#[cfg(test)]
mod build;
#[cfg(test)]
mod elf;
#[cfg(test)]
mod exec;
#[cfg(test)]
mod parts;
#[cfg(test)]
mod turn;
