//! Hypothetical clauses, and what the calls on them answer.

use level_terms::{TermId, TermIds, VarId};
use ref_terms::{Fault, Sequence, Sym};
use std::alloc::AllocError;

/// A hypothetical clause of a term that was assumed at a depth. Its parameters are the levels from
/// that depth on.
#[derive(Drop)]
pub struct Hyp {
    /// The constant at the head.
    pub pred: Sym,
    /// The depth at which the term was assumed.
    pub depth: usize,
    /// The number of parameters.
    pub pis: usize,
    /// The head.
    pub head: TermId,
    /// The conditions, outer ones first.
    pub body: TermIds,
    /// The term that was assumed, with its `pi`s and conditions around this head alone.
    pub term: TermId,
    /// Whether neither a variable nor an applied abstraction stands in these nodes. Then they read
    /// the same whatever is assigned.
    pub ground_normal: bool,
}

/// A list of hypothetical clauses.
pub type Hyps = Sequence<Hyp>;

/// A hypothetical clause at the names of a call: variables for its parameters, and the arguments of
/// its head over them.
#[derive(Drop)]
pub struct HypInstance {
    /// The first of the variables; the others follow it.
    pub first_fresh: VarId,
    /// A node of each variable.
    pub variables: Vec<TermId>,
    /// The arguments of the head.
    pub args: Vec<TermId>,
    /// The depth of the call.
    pub depth: usize,
}

/// A hypothetical clause at the names of a call, with its conditions, over variables that are new.
#[derive(Drop)]
pub struct HypAt {
    /// The arguments of the head.
    pub args: Vec<TermId>,
    /// The conditions, outer ones first.
    pub body: Vec<TermId>,
}

/// Why a term is read as no list of hypothetical clauses.
#[derive(Clone, Copy, Debug, PartialEq, Eq)]
pub enum HypStop {
    /// The term's leftmost fault.
    Fault(Fault),
    /// Want of memory.
    Memory,
}

impl From<AllocError> for HypStop {
    ghost use Rattle.std.specs.Prelude.{◌≡◌};
    ghost use Rattle.hyp_clause.specs.declared.hyp.HypStop.TheVariants.{Memory};

    ghost from_gives = { λ _ stop. stop ≡ Memory };

    fn from(_: AllocError) -> HypStop {
        HypStop::Memory
    }
}
