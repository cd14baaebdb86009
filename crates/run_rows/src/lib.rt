//! Whole runs over files and a sink in memory: the worked rows, a line each, constraint rules, types, the words and options,
//! several files, failing reads and writes, and the limits.
//!
//! The crate has tests alone. Expected values are by hand.
#![tactic(auto)]

#[cfg(test)]
mod examples;
#[cfg(test)]
mod failing;
#[cfg(test)]
mod keys;
#[cfg(test)]
mod limits;
#[cfg(test)]
mod options;
#[cfg(test)]
mod rows;
#[cfg(test)]
mod rules;
#[cfg(test)]
mod runs;
#[cfg(test)]
mod several;
#[cfg(test)]
mod types;
