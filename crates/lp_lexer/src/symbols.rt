//! Symbols at the front of a text.
ghost use Rattle.std.specs.Prelude.{◌≡◌};
ghost use Rattle.lp_lexer.specs.Symbols.{one_symbol, two_symbol, is_equivalent, symbol_piece};

use crate::piece::{Fault, Piece};
use crate::scan::begins_with;
use crate::token::{Symbol, TokenKind};

fn two_symbol(first: char, second: char) -> Option<Symbol>
    ensures { result ≡ two_symbol first second }
{
    match first {
        ':' if second == '-' => Some(Symbol::Implied),
        ':' if second == ':' => Some(Symbol::Cons),
        '=' if second == '>' => Some(Symbol::Implies),
        '-' if second == '>' => Some(Symbol::Arrow),
        '?' if second == '-' => Some(Symbol::Turnstile),
        _ => None,
    }
}

fn one_symbol(ch: char) -> Option<Symbol>
    ensures { result ≡ one_symbol ch }
{
    match ch {
        '(' => Some(Symbol::OpenRound),
        ')' => Some(Symbol::CloseRound),
        '[' => Some(Symbol::OpenSquare),
        ']' => Some(Symbol::CloseSquare),
        '{' => Some(Symbol::OpenCurly),
        '}' => Some(Symbol::CloseCurly),
        '|' => Some(Symbol::Bar),
        '\\' => Some(Symbol::Lambda),
        ',' => Some(Symbol::Comma),
        ';' => Some(Symbol::Semicolon),
        '.' => Some(Symbol::Dot),
        '!' => Some(Symbol::Cut),
        '=' => Some(Symbol::Equal),
        ':' => Some(Symbol::Colon),
        '+' => Some(Symbol::Plus),
        '-' => Some(Symbol::Minus),
        '*' => Some(Symbol::Times),
        '>' => Some(Symbol::Greater),
        '~' => Some(Symbol::Tilde),
        _ => None,
    }
}

fn is_equivalent(first: char, rest: &[char]) -> bool
    ensures { result ≡ is_equivalent first rest.now }
{
    match rest {
        [] => false,
        [second, after @ ..] => first == '<' && *second == '=' && begins_with(after, '>'),
    }
}

/// The symbol at the front of a text that begins so.
pub fn symbol_piece(first: char, rest: &[char]) -> Piece
    ensures { result ≡ symbol_piece first rest.now }
{
    if is_equivalent(first, rest) {
        return Piece::Lexeme(TokenKind::Sym(Symbol::Equivalent), 3);
    }
    if let [second, ..] = rest {
        if let Some(symbol) = two_symbol(first, *second) {
            return Piece::Lexeme(TokenKind::Sym(symbol), 2);
        }
    }
    match one_symbol(first) {
        Some(symbol) => Piece::Lexeme(TokenKind::Sym(symbol), 1),
        None => Piece::Fault(Fault::BadChar, 0),
    }
}
