//! Queries.

use ref_terms::{Sequence, Sym, Tree};

/// A variable of a query.
#[derive(Clone, Copy, Debug, PartialEq, Eq)]
pub struct QueryVar {
    /// Its word.
    pub name: Sym,
    /// Whether answers show it: its word doesn't begin with `_`.
    pub shown: bool,
}

/// The variables of a query.
pub type QueryVars = Sequence<QueryVar>;

/// A query: its variables in order of first place, and its goal over their numbers.
#[derive(Debug, Drop)]
pub struct Query {
    pub vars: QueryVars,
    pub goal: Tree,
}
