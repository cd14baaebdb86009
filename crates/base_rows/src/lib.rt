//! Tests of the crates at the bottom: each public call once, with ample memory. Expected values are by hand.
//!
//! The crate has tests alone. They stand here since a crate with tests is proved once more with them.
#![tactic(auto)]

#[cfg(test)]
mod files;
#[cfg(test)]
mod lists;
#[cfg(test)]
mod log;
#[cfg(test)]
mod pairs;
#[cfg(test)]
mod relinking;
#[cfg(test)]
mod stack;
