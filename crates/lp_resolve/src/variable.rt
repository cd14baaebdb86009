//! A variable.

use ref_terms::Sym;

/// A variable of a clause, a rule or a query: its word, and whether that is `_`, so that no other word is the same variable.
#[derive(Clone, Copy, Debug, PartialEq, Eq)]
pub struct Variable {
    pub name: Sym,
    pub hole: bool,
}
