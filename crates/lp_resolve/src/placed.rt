//! Parts of rules, as they are read.
use crate::program::{HeadTree, PairTree};
use lp_parser::Place;
use ref_terms::{Sequence, Tree};

/// A head of a rule, its goal's first token that isn't `(`, and the tokens of its goal's variables, from the left.
#[derive(Debug, Drop)]
pub(crate) struct PlacedHead {
    pub(crate) head: HeadTree,
    pub(crate) place: Place,
    pub(crate) vars: Sequence<Place>,
}

/// The parts of a rule that have variables.
#[derive(Debug, Drop)]
pub(crate) struct RuleParts {
    pub(crate) kept: Sequence<PlacedHead>,
    pub(crate) removed: Sequence<PlacedHead>,
    pub(crate) pairs: Sequence<PairTree>,
    pub(crate) tests: Sequence<Tree>,
    pub(crate) body: Option<Tree>,
}
