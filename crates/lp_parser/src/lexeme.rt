//! Tokens as the grammar takes them.
use crate::ast::{Operator, Place, WordKind};
use lam_io::ByteText;

/// What stands for itself in a term, and is no head of an application.
#[derive(Debug, Drop)]
pub enum Literal {
    /// An integer.
    Int(i64),
    /// A string, each escape replaced by its character.
    Str(ByteText),
    /// `!`
    Cut,
}

/// What ends the phrases before it.
#[derive(Clone, Copy, Debug, PartialEq, Eq)]
pub enum Closer {
    /// `)`
    Round,
    /// `]`
    Square,
    /// `|`
    Bar,
}

/// What stands in no term.
#[derive(Clone, Copy, Debug, PartialEq, Eq)]
pub enum Mark {
    /// `.`
    Dot,
    /// `{`
    OpenCurly,
    /// `}`
    CloseCurly,
    /// `->`
    Arrow,
    /// `?-`
    Turnstile,
    /// `<=>`
    Equivalent,
    /// `:`
    Colon,
    /// `>`
    Greater,
    /// `~`
    Tilde,
    /// `kind`
    KindWord,
    /// `type`
    TypeWord,
    /// `pred`
    PredWord,
    /// `constraint`
    ConstraintWord,
    /// `rule`
    RuleWord,
}

/// A token by what it does in a phrase, with its place.
#[derive(Debug, Drop)]
pub enum Lexeme {
    /// A name, a variable or a lone `_`, with its text.
    Word(WordKind, ByteText, Place),
    Literal(Literal, Place),
    /// `pi`, or else `sigma`.
    Quantifier(bool, Place),
    /// An operator. A comma also stands between elements.
    Infix(Operator, Place),
    /// `\`
    Lambda(Place),
    /// `(`
    OpenRound(Place),
    /// `[`
    OpenSquare(Place),
    Closer(Closer, Place),
    Mark(Mark, Place),
}
