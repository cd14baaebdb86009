//! Firings of rules.

use hyp_context::Context;
use level_terms::TermId;

/// What a rule does: it fired on constraints, by their numbers in the order of its heads; those of the
/// removed heads leave the store; the body runs under so many names with these assumptions.
#[derive(Drop)]
pub struct Firing {
    pub rule: usize,
    pub constraints: Vec<u64>,
    pub removed: Vec<u64>,
    pub names: usize,
    pub context: Context,
    pub body: TermId,
}
