//! The first instance of a constraint rule over sequents.
//!
//! A rule is tried on each tuple of distinct constraints, one for each of its heads, in the order of
//! rules and of the store. A tuple is tried in the heap itself; where it is refused, all is taken back.
#![tactic(auto)]

mod bodies;
mod equations;
mod firing;
mod heads;
mod lists;
mod matching;
mod rules;
mod scan;
mod search;
mod testing;
mod tuple;
mod tuples;

pub use firing::Firing;
pub use rules::{HeadInstance, HeadShape, RuleInstance, RuleShape, Rules};
pub use search::next_rule;
