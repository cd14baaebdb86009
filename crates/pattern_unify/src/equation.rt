//! Equations of nodes, and what a turn on one comes to.

use level_terms::TermId;
use ref_terms::Fault;

/// Two sides, and how many levels are in scope.
#[derive(Clone, Copy)]
pub(crate) struct Equation {
    pub(crate) left: TermId,
    pub(crate) right: TermId,
    pub(crate) depth: usize,
}

/// What a turn comes to.
#[derive(Clone, Copy)]
pub(crate) enum Turn {
    /// The work that is left goes on.
    Goes,
    /// The sides clash.
    Clash,
    /// The equation lies outside what is decided.
    Fault(Fault),
}
