//! The tokens of a text.
ghost use Rattle.std.specs.Prelude.{◌≡◌, ◌<◌, length, option_map, slice_get};
ghost use Rattle.lp_lexer.specs.Lexing.{text_at, AreWithin};

use crate::token::Token;
use std::marker::Model;

/// The tokens of a text, with the text.
#[derive(Debug, Drop)]
pub struct Tokens {
    bytes: Vec<u8>,
    list: Vec<Token>,
}

impl Model for Tokens {
    ghost use Rattle.std.specs.Prelude.{length};
    ghost use Rattle.lp_lexer.specs.Lexing.{Lexed, AreWithin};

    ghost Value = { Lexed };

    ghost view = { λ it. record { text = it.bytes.items; items = it.list.items } };

    ghost invariant = { λ it. AreWithin (length it.bytes.items) it.list.items };
}

impl Tokens {
    /// The tokens of the text. Takes no memory.
    pub(crate) fn of(bytes: Vec<u8>, list: Vec<Token>) -> Self
        requires { AreWithin (length bytes.items) list.items }
        ensures text { result.text ≡ bytes.items }
        ensures items { result.items ≡ list.items }
    {
        Tokens { bytes, list }
    }

    /// The number of tokens. Takes no memory.
    pub fn len(&self) -> usize
        ensures { result ≡ length self.now.items }
    {
        self.list.len()
    }

    /// The number of bytes of the text. Takes no memory.
    pub fn text_len(&self) -> usize
        ensures { result ≡ length self.now.text }
    {
        self.bytes.len()
    }

    /// The token with that number. Takes no memory.
    pub fn get(&self, i: usize) -> Token
        requires { i < length self.now.items }
        ensures { slice_get self.now.items i ≡ Some result }
    {
        self.list[i]
    }

    /// The bytes of the token with that number. Takes no memory.
    pub fn text_of(&self, i: usize) -> &[u8]
        requires { i < length self.now.items }
        ensures { option_map (text_at self.now.text) (slice_get self.now.items i) ≡ Some result.now }
    {
        let token = self.list[i];
        &self.bytes[token.at..token.end]
    }
}
