//! Tests of crates near the bottom, on public calls alone.
//!
//! `bytes` reads and writes all bytes of sources and sinks in memory, `streams` through readers and
//! writers of std (tc_io). `releases` asks who gets a released lock next (tc_nested). `seats` notes
//! calls (tc_seats), and `youngest` serves who came last, within a bound (tc_youngest).
#![tactic(auto)]

#[cfg(test)]
mod bytes;
#[cfg(test)]
mod releases;
#[cfg(test)]
mod seats;
#[cfg(test)]
mod streams;
#[cfg(test)]
mod youngest;
