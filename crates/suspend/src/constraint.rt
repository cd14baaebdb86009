//! Suspended goals, and what rules fired on.

use level_terms::{TermId, TermIds};

/// A suspended goal with its keys. Its own names are the levels below `names`; `context` is what it assumes.
#[derive(Drop)]
pub struct Constraint<C> {
    pub names: usize,
    pub context: C,
    pub goal: TermId,
    pub keys: TermIds,
}

/// A rule and the numbers of the constraints that it fired on, in the order of its heads.
#[derive(Drop, PartialEq, Eq, Hash)]
pub struct Fired {
    pub rule: usize,
    pub constraints: Vec<u64>,
}
