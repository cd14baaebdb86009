//! Goals, marks and alternatives.

ghost use Rattle.std.specs.Prelude.{◌≡◌, IfOk};

use hyp_context::{Context, HypTail};
use level_terms::{HeapMark, TermId};
use ref_terms::Sym;
use std::alloc::AllocError;
use suspend::StoreMark;

/// A goal, with the goals after it. A list of goals is the number of its first frame and those older:
/// 0 is the empty list, and `n + 1` is the goal of frame `n`, before the list that it names as `next`.
#[derive(Drop)]
pub struct Frame {
    /// The number of names.
    pub depth: usize,
    /// How many alternatives a cut leaves.
    pub barrier: usize,
    /// The goal.
    pub term: TermId,
    /// The goals after it.
    pub next: usize,
    /// The assumptions.
    pub context: Context,
}

impl Frame {
    /// The same goal, in constant time. Answers `AllocError` where so many copies of the assumptions
    /// are there that they can't be counted.
    pub(crate) fn copy(&self) -> Result<Frame, AllocError>
        ensures { IfOk result (λ f. f ≡ self.now) }
    {
        self.with_term(self.term)
    }

    /// Another goal at its place.
    pub(crate) fn with_term(&self, term: TermId) -> Result<Frame, AllocError>
        ensures { IfOk result (λ f. f ≡ record self.now { term = term }) }
    {
        Ok(Frame {
            depth: self.depth,
            barrier: self.barrier,
            term,
            next: self.next,
            context: self.context.copy()?,
        })
    }
}

/// How much there was of all that a retry takes back.
#[derive(Clone, Copy)]
pub struct Mark {
    pub heap: HeapMark,
    pub frames: usize,
    pub path: usize,
    pub store: StoreMark,
}

/// What a call has left to try.
#[derive(Drop)]
pub enum Later {
    /// These assumptions of the constant, of which the first has this place, and then all clauses of
    /// the program.
    Assumptions(usize, HypTail),
    /// The program's clauses from this place on.
    Clauses(usize),
}

/// What an alternative has left to try.
#[derive(Drop)]
pub enum Left {
    /// What a call of this constant has left.
    Call(Sym, Later),
    /// The right side of `;`, which is the first goal.
    Side,
}

/// An alternative: its branch as it was at the mark, and what is left to try there.
#[derive(Drop)]
pub struct Saved {
    pub mark: Mark,
    /// The goals.
    pub first: usize,
    pub left: Left,
}
