//! What stands at the front of a text.
use crate::token::TokenKind;

/// Why no token can be read.
#[derive(Clone, Copy, Debug, PartialEq, Eq)]
pub enum Fault {
    BadChar,
    OpenString,
    OpenComment,
    LongName,
    WideNumber,
}

/// What stands at the front of a text.
#[derive(Clone, Copy, Debug, PartialEq, Eq)]
pub enum Piece {
    /// The text is over.
    Over,
    /// What stands between tokens, with its number of characters.
    Blank(usize),
    /// A token, with its number of characters.
    Lexeme(TokenKind, usize),
    /// A fault, with the number of characters before it.
    Fault(Fault, usize),
}

/// Where a string ends.
#[derive(Clone, Copy, Debug, PartialEq, Eq)]
pub enum StringEnd {
    /// Behind its closing quote, and so many characters.
    Closed(usize),
    /// Nowhere, since a `\` behind so many characters begins no escape.
    BadEscape(usize),
    /// Nowhere.
    Open,
}
