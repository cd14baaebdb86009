//! What is still to be printed.

use level_terms::TermId;
use ref_terms::Sym;

/// A piece of a text. A term of it stands in the scope of so many levels.
#[derive(Clone, Copy)]
pub(crate) enum Piece {
    /// A closing bracket.
    Close,
    /// An infix constant with a space on each side.
    Infix(Sym),
    /// A term in its top form. So many nodes from this one on, each the body of the one before, are
    /// known to be of abstractions that stay.
    Top {
        node: TermId,
        depth: usize,
        kept: usize,
    },
    /// A term in its inner form.
    Inner {
        node: TermId,
        depth: usize,
    },
    /// A space, and a term in its inner form.
    Argument {
        node: TermId,
        depth: usize,
    },
}
