//! Splits a text into tokens.
#![tactic(auto)]

mod error;
mod front;
mod laws;
mod lex;
mod number;
mod piece;
mod scan;
mod symbols;
mod token;
mod token_list;
mod words;

pub use error::LexError;
pub use laws::{one_list_of_tokens, tokens_in_order};
pub use lex::tokens;
pub use token::{Keyword, Symbol, Token, TokenKind};
pub use token_list::Tokens;
