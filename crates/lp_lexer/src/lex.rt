//! Lexes a text.
ghost use Rattle.std.specs.Prelude.{◌≡◌, ◌+◌, ◌<◌, ◌^◌, Ok, IfOk, IfErr, chars};
ghost use Rattle.lp_lexer.specs.Scan.{utf8_len};
ghost use Rattle.lp_lexer.specs.Lexing.{error_at, tokens_from, tokens_of, IsFault};

use crate::error::LexError;
use crate::front::front_piece;
use crate::piece::{Fault, Piece};
use crate::scan::byte_behind;
use crate::token::Token;
use crate::token_list::Tokens;
use std::alloc::{AllocError, Global};

fn error_at(fault: Fault, at: usize) -> LexError
    ensures { result ≡ error_at fault at }
{
    match fault {
        Fault::BadChar => LexError::BadChar(at),
        Fault::OpenString => LexError::OpenString(at),
        Fault::OpenComment => LexError::OpenComment(at),
        Fault::LongName => LexError::LongName(at),
        Fault::WideNumber => LexError::WideNumber(at),
    }
}

fn token_list(alloc: Global, text: &[char]) -> Result<Vec<Token>, LexError>
    requires { utf8_len text.now < 2 ^ 64 }
    ensures tokens { IfOk result (λ list. tokens_from 0 0 text.now ≡ Ok list.items) }
    ensures fault { IfErr result (IsFault (tokens_from 0 0 text.now)) }
{
    let mut list = Vec::new(alloc);
    let mut index = 0;
    let mut at = 0;
    loop {
        let rest = &text[index..];
        match front_piece(rest) {
            Piece::Over => return Ok(list),
            Piece::Blank(len) => {
                at = byte_behind(&rest[..len], at);
                index += len;
            }
            Piece::Lexeme(kind, len) => {
                let end = byte_behind(&rest[..len], at);
                list.push(Token { kind, at, end })?;
                at = end;
                index += len;
            }
            Piece::Fault(fault, len) => return Err(error_at(fault, byte_behind(&rest[..len], at))),
        }
    }
}

fn characters(alloc: Global, text: &str) -> Result<Vec<char>, AllocError>
    ensures { IfOk result (λ list. list.items ≡ chars text.now) }
{
    text.chars().collect(alloc)
}

fn text_tokens(alloc: Global, text: &str) -> Result<Vec<Token>, LexError>
    ensures tokens { IfOk result (λ list. tokens_of text.now ≡ Ok list.items) }
    ensures fault { IfErr result (IsFault (tokens_of text.now)) }
{
    let list = characters(alloc, text)?;
    token_list(alloc, list.as_slice())
}

fn utf8_tokens(alloc: Global, text: &[u8]) -> Result<Vec<Token>, LexError>
    ensures tokens { IfOk result (λ list. tokens_of text.now ≡ Ok list.items) }
    ensures fault { IfErr result (IsFault (tokens_of text.now)) }
{
    match str::from_utf8(text) {
        Ok(valid) => text_tokens(alloc, valid),
        Err(error) => Err(LexError::NotUtf8(error.valid_up_to())),
    }
}

/// The tokens of a text, in one pass. A text that isn't UTF-8 is refused as `NotUtf8` before all else.
/// Otherwise the first token or comment from the left that can't be read decides: `BadChar`,
/// `OpenString`, `OpenComment`, `LongName` or `WideNumber` at its byte. `Memory` is answered where memory
/// runs out.
pub fn tokens(alloc: Global, text: &[u8]) -> Result<Tokens, LexError>
    ensures tokens { IfOk result (λ it. tokens_of text.now ≡ Ok it.items) }
    ensures text { IfOk result (λ it. it.text ≡ text.now) }
    ensures fault { IfErr result (IsFault (tokens_of text.now)) }
{
    let list = utf8_tokens(alloc, text)?;
    let bytes = Vec::from_slice(alloc, text)?;
    Ok(Tokens::of(bytes, list))
}
