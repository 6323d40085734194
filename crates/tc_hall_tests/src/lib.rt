//! Tests of lock states and packages, of the hall, and of queues, on public calls alone.
//!
//! `segment` has a lock state's journal, `context` a package's, `hall` the words of a hall and a race
//! for a package, `lines` a line of it, `ready` the order of stealing. `queue` and `nodes` take turns
//! at a lock, and `counting` has threads of the host that do. `guests` has guests, as words.
#![tactic(auto)]

#[cfg(test)]
mod context;
#[cfg(test)]
mod counting;
#[cfg(test)]
mod guests;
#[cfg(test)]
mod hall;
#[cfg(test)]
mod lines;
#[cfg(test)]
mod nodes;
#[cfg(test)]
mod queue;
#[cfg(test)]
mod ready;
#[cfg(test)]
mod segment;
