//! The reserved names, which stand first in the table of symbols.
ghost use Rattle.std.specs.Prelude.{◌≡◌, Some};
ghost use Rattle.ref_terms.specs.search.Reserved.{word_of};

use crate::sym::Sym;

/// A reserved name, or one of the two words of tests, which are free elsewhere. In the order of
/// their symbols.
#[derive(Clone, Copy, Debug, PartialEq, Eq)]
pub enum Reserved {
    /// `true`
    True,
    /// `fail`
    Fail,
    /// `!`
    Cut,
    /// `,`
    And,
    /// `;`
    Or,
    /// `=>`
    Implies,
    /// `:-`
    If,
    /// `pi`
    Pi,
    /// `sigma`
    Sigma,
    /// `=`
    Equal,
    /// `same`
    Same,
    /// `var`
    Var,
    /// `name`
    Name,
    /// `is`
    Is,
    /// `lt`
    Less,
    /// `print`
    Print,
    /// `beta`
    Beta,
    /// `declare_constraint`
    Suspend,
    /// `[]`
    Nil,
    /// `::`
    Cons,
    /// `+`
    Plus,
    /// `-`
    Minus,
    /// `*`
    Times,
    /// `nonvar`, a word of tests
    Nonvar,
    /// `distinct`, a word of tests
    Distinct,
}

// In the order of their symbols.
const WORDS: [Reserved; 25] = [
    Reserved::True,
    Reserved::Fail,
    Reserved::Cut,
    Reserved::And,
    Reserved::Or,
    Reserved::Implies,
    Reserved::If,
    Reserved::Pi,
    Reserved::Sigma,
    Reserved::Equal,
    Reserved::Same,
    Reserved::Var,
    Reserved::Name,
    Reserved::Is,
    Reserved::Less,
    Reserved::Print,
    Reserved::Beta,
    Reserved::Suspend,
    Reserved::Nil,
    Reserved::Cons,
    Reserved::Plus,
    Reserved::Minus,
    Reserved::Times,
    Reserved::Nonvar,
    Reserved::Distinct,
];

impl Reserved {
    /// The word with this symbol; none for every other symbol. Takes no memory.
    pub fn of(symbol: Sym) -> Option<Reserved>
        ensures { result ≡ word_of symbol.0 }
    {
        if symbol.0 < WORDS.len() {
            return Some(WORDS[symbol.0]);
        }
        None
    }

    /// The symbol of the word. Takes no memory.
    pub fn symbol(self) -> Sym
        ensures { word_of result.0 ≡ Some self }
    {
        Sym(self as usize)
    }
}
