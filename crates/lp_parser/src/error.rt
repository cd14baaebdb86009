ghost use Rattle.std.specs.Prelude.{◌≡◌};
ghost use Rattle.lp_parser.specs.declared.error.ParseError.TheVariants.{Memory};

use std::alloc::{AllocError, AllocFailed};
use thiserror::Error;

/// What a refused token stands in.
#[derive(Clone, Copy, Debug, PartialEq, Eq)]
pub enum GrammarRule {
    /// Where an item may begin.
    Item,
    /// In an item that began with `kind`.
    Kind,
    /// In an item that began with `type`.
    TypeItem,
    /// In an item that began with `pred`.
    Pred,
    /// In a block, after its `constraint` and outside a rule.
    Constraint,
    /// In a rule, after its `rule`.
    Rule,
    /// In any other item.
    Clause,
    /// In a query.
    Query,
}

/// Why tokens have no tree.
#[derive(Debug, Drop, Error)]
pub enum ParseError {
    /// No text goes on with the token that has this index, or none ends here where the index is the number of tokens.
    #[error("unexpected token {0}")]
    Unexpected(usize, GrammarRule),
    /// The nesting passes the limit at the token with this index.
    #[error("nesting too deep at token {0}")]
    Deep(usize),
    /// Memory ran out.
    #[error("out of memory")]
    Memory,
}

impl From<AllocError> for ParseError {
    ghost from_gives = { λ _ e. e ≡ Memory };

    fn from(_error: AllocError) -> ParseError {
        ParseError::Memory
    }
}

impl<T: Drop> From<AllocFailed<T>> for ParseError {
    ghost from_gives = { λ _ e. e ≡ Memory };

    fn from(_error: AllocFailed<T>) -> ParseError {
        ParseError::Memory
    }
}
