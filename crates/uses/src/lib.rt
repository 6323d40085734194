//! Example callers of the libraries, as your own program would call them.
//!
//! Each is small, and its contract follows from those of its callees: read them before you write
//! your own. The READMEs of tc_queue, tc_replay and tc_workers show one each. They are proved and run
//! as tests, since no program of the repository calls them.
//!
//! - `queues`: turns enter an order of waiters by hand, and the calls are counted.
//! - `checks`: checks a history that your own program made.
//! - `runs`: runs a guest, and reads its history and its profile as values.
#![tactic(auto)]

#[cfg(test)]
mod checks;
#[cfg(test)]
mod queues;
#[cfg(test)]
mod runs;
#[cfg(test)]
mod tests;
