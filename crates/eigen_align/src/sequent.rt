//! Sequents, and joint names of several.

use beta_fragment::Names;
use level_terms::TermId;

/// A goal under names, which are the levels below `depth`, and the list of its assumptions as a term,
/// where that is looked at.
#[derive(Clone, Copy)]
pub struct Sequent {
    pub depth: usize,
    pub goal: TermId,
    pub context: Option<TermId>,
}

/// So many joint names, and for each sequent those of its own names, in their order.
#[derive(Drop)]
pub struct JointNames {
    pub depth: usize,
    pub maps: Vec<Names>,
}

/// Sequents over joint names: each is of the joint depth.
#[derive(Drop)]
pub struct Joint {
    pub names: JointNames,
    pub heads: Vec<Sequent>,
}
