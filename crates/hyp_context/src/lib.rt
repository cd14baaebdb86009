//! The assumptions of a goal, in lists that goals share.
//!
//! A copy takes constant time. An assumption takes the time and the memory of the binary digits of
//! its predicate's number, and so does finding the assumptions of a predicate, of which none of
//! another is looked at: neither hangs on how many assumptions or predicates there are.
#![tactic(auto)]

mod chain;
mod context;
pub mod laws;
mod list;
mod parts;
mod table;

pub use context::{Context, HypIter, HypTail};

#[cfg(test)]
mod tests;
