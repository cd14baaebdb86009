//! Symbols.

/// A symbol, by its place in the table of the symbols' texts.
#[derive(Clone, Copy, Debug, PartialEq, Eq, PartialOrd, Ord, Hash)]
pub struct Sym(pub usize);
