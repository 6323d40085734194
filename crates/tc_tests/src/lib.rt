//! Tests of the whole program, through its top call, that need more than arguments and bytes:
//! observers (gates) that hold workers, and memory that runs out. Tests of arguments and bytes
//! alone are rows in the table of `answers`.
//!
//! `ran` runs the program over files in memory. `usher` is an observer that holds workers until
//! others have come so far; `committed` compares its reports with the blocks that were printed.
//! `gates` tests workers with FIFO queues, `nodes` those on NUMA nodes, `youngest` those with the
//! waiters of tc_youngest, `starved` runs out of memory, `made` checks the file of the generator's
//! guest, and `results` the report of the values that a whole run leaves, and the numbers of the
//! statuses.
#![tactic(auto)]

#[cfg(test)]
mod committed;
#[cfg(test)]
mod gates;
#[cfg(test)]
mod made;
#[cfg(test)]
mod nodes;
#[cfg(test)]
mod ran;
#[cfg(test)]
mod results;
#[cfg(test)]
mod starved;
#[cfg(test)]
mod usher;
#[cfg(test)]
mod youngest;
