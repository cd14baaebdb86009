//! Terms of the front end.

use crate::sequence::Sequence;
use crate::sym::Sym;
use sqlite_items::Boxed;

/// A term of a program's text: an abstraction, or a head with its arguments.
#[derive(Debug, Drop)]
#[cycle(tree)]
pub enum Tree {
    /// An abstraction over one bound name, which its body sees as `Bound(0)`.
    Lam(Boxed<Tree>),
    /// A head and its arguments, from the left.
    Ap(Head, Args),
}

/// What is applied to arguments.
#[derive(Debug, Drop)]
#[cycle(tree)]
pub enum Head {
    /// A constant.
    Con(Sym),
    /// An integer.
    Int(i64),
    /// A string.
    Str(Sym),
    /// A bound name, by the number of abstractions between it and its own.
    Bound(usize),
    /// A variable of the clause, the rule or the query, by its number.
    ClauseVar(usize),
    /// An abstraction whose first argument can't stand for its bound name yet.
    Stuck(Boxed<Tree>),
}

/// The arguments of a head.
pub type Args = Sequence<Tree>;
