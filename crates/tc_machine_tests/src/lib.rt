//! Tests of the abstract machines, on public calls alone.
//!
//! `mutex_spec` runs the mutex machine, and upgrades old histories. `events` performs events of the
//! delegation machine and compares the places of threads and locks. `told` compares what the events
//! write. `deeds` has the events by name, `guests` the guests, as words.
#![tactic(auto)]

#[cfg(test)]
mod deeds;
#[cfg(test)]
mod events;
#[cfg(test)]
mod guests;
#[cfg(test)]
mod mutex_spec;
#[cfg(test)]
mod told;
