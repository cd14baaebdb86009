//! The way that a search took to an answer.

use crate::sequence::Sequence;

/// A choice of the search.
#[derive(Clone, Copy, Debug, PartialEq, Eq)]
pub enum Choice {
    /// The clause of the program with this place in the text, counted from 0.
    Clause(usize),
    /// The hypothetical clause with this place in the order in which they are tried, counted from 0.
    Hyp(usize),
    /// The left side of `;`.
    Left,
    /// The right side of `;`.
    Right,
}

/// The choices that led to an answer, oldest first.
pub type Path = Sequence<Choice>;
