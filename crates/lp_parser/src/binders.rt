//! Where a lexeme stands among the words of a quantifier.

/// What a lexeme stands behind.
#[derive(Clone, Copy, Debug, PartialEq, Eq)]
pub enum Binders {
    /// No quantifier.
    Elsewhere,
    /// `pi` or `sigma`.
    Quantifier,
    /// `pi` or `sigma` and at least one word.
    Words,
}
