//! Parts of a term that are still to be read as clauses, and what reading one gives.

use crate::forms::Forms;
use crate::hyp::Hyp;
use level_terms::TermId;
use ref_terms::Fault;

/// A part of the term, under the parameters so far.
#[derive(Drop)]
pub(crate) struct Part {
    /// The part.
    pub term: TermId,
    /// The number of parameters.
    pub pis: usize,
    /// The forms around the part.
    pub around: Forms,
}

/// What reading a part gives.
#[derive(Drop)]
pub(crate) enum Turn {
    /// A clause.
    Clause(Hyp),
    /// A part of it.
    One(Part),
    /// Two parts, one after the other.
    Both(Part, Part),
    /// No clause.
    Failed(Fault),
}
