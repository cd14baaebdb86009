//! Reads the piece at the front of a text.
ghost use Rattle.std.specs.Prelude.{◌≡◌, ◌≤◌, length, nat_lt};
ghost use Rattle.lp_lexer.specs.Scan.{utf8_len};
ghost use Rattle.lp_lexer.specs.Pieces.{joins, word_kind, name_piece, comment_piece, string_piece, begins_digit, piece};

use crate::number::number_piece;
use crate::piece::{Fault, Piece, StringEnd};
use crate::scan::{
    begins_with, comment_end, digits_len, is_blank, is_capital, is_digit, line_len, name_len,
    starts_name, string_end,
};
use crate::symbols::symbol_piece;
use crate::token::TokenKind;
use crate::words::keyword_of;

/// The most bytes of a name.
const MAX_NAME: usize = 255;

fn is_long(word: &[char]) -> bool
    ensures { result ≡ nat_lt 255 (utf8_len word.now) }
{
    let mut bytes = 0;
    for ch in word {
        bytes += ch.len_utf8();
        if bytes > MAX_NAME {
            return true;
        }
    }
    false
}

fn joins(text: &[char]) -> bool
    ensures { result ≡ joins text.now }
{
    match text {
        [dot, next, ..] => *dot == '.' && starts_name(*next),
        _ => false,
    }
}

fn word_kind(first: char, word: &[char]) -> TokenKind
    ensures { result ≡ word_kind first word.now }
{
    if first == '_' || is_capital(first) {
        return TokenKind::Var;
    }
    match keyword_of(word) {
        Some(keyword) => TokenKind::Key(keyword),
        None => TokenKind::Name,
    }
}

fn name_piece(first: char, text: &[char], len: usize) -> Piece
    requires { len ≤ length text.now }
    ensures { result ≡ name_piece first text.now len }
{
    let word = &text[..len];
    if is_long(word) {
        Piece::Fault(Fault::LongName, 0)
    } else if first == '_' && len == 1 {
        Piece::Lexeme(TokenKind::Hole, len)
    } else if joins(&text[len..]) {
        Piece::Fault(Fault::BadChar, len)
    } else {
        Piece::Lexeme(word_kind(first, word), len)
    }
}

fn comment_piece(end: Option<usize>) -> Piece
    ensures { result ≡ comment_piece end }
{
    match end {
        Some(len) => Piece::Blank(len),
        None => Piece::Fault(Fault::OpenComment, 0),
    }
}

fn string_piece(end: StringEnd) -> Piece
    ensures { result ≡ string_piece end }
{
    match end {
        StringEnd::Closed(len) => Piece::Lexeme(TokenKind::Str, len),
        StringEnd::BadEscape(len) => Piece::Fault(Fault::BadChar, len),
        StringEnd::Open => Piece::Fault(Fault::OpenString, 0),
    }
}

fn begins_digit(text: &[char]) -> bool
    ensures { result ≡ begins_digit text.now }
{
    match text {
        [] => false,
        [first, ..] => is_digit(*first),
    }
}

/// The piece at the front of the text.
pub fn front_piece(text: &[char]) -> Piece
    ensures { result ≡ piece text.now }
{
    let [first, rest @ ..] = text else {
        return Piece::Over;
    };
    if is_blank(*first) {
        Piece::Blank(1)
    } else if *first == '%' {
        Piece::Blank(line_len(rest) + 1)
    } else if *first == '/' && begins_with(rest, '*') {
        comment_piece(comment_end(text, 2))
    } else if starts_name(*first) {
        name_piece(*first, text, name_len(rest) + 1)
    } else if *first == '"' {
        string_piece(string_end(text, 1))
    } else if is_digit(*first) {
        number_piece(false, text, digits_len(rest) + 1)
    } else if *first == '-' && begins_digit(rest) {
        number_piece(true, rest, digits_len(rest) + 1)
    } else {
        symbol_piece(*first, rest)
    }
}
