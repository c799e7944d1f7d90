//! Tests of a store of SQL: rows in a database in memory, files at paths, `run` over it, and a stop at calls of its disks.
//!
//! What a keeper and `run` do is proved in their crates. These tests show that calls succeed with ample memory, that a
//! database really outlives a stop, and which fault is told of a path.
#![tactic(auto)]

#[cfg(test)]
mod batches;
#[cfg(test)]
mod files;
#[cfg(test)]
mod rows;
#[cfg(test)]
mod runs;
#[cfg(test)]
mod stops;
#[cfg(test)]
mod tasks;
#[cfg(test)]
mod visits;
