//! Tests of histories and profiles, on public calls alone.
//!
//! `journal` has the text of a history and the rules of blocks. `profile` compares profiles with
//! texts. `replay` accepts histories, and rejects them for each reason.
#![tactic(auto)]

#[cfg(test)]
mod journal;
#[cfg(test)]
mod profile;
#[cfg(test)]
mod replay;
