ghost use Rattle.std.specs.Prelude.{◌≡◌};
ghost use Rattle.lp_lexer.specs.declared.error.LexError.TheVariants.{Memory};

use std::alloc::{AllocError, AllocFailed};
use thiserror::Error;

/// Why a text has no tokens. Each fault has its byte, counted from 0.
#[derive(Debug, Drop, Error)]
pub enum LexError {
    /// The text isn't UTF-8: its longest valid beginning has so many bytes.
    #[error("not UTF-8 at byte {0}")]
    NotUtf8(usize),
    /// A character that no token has at its place.
    #[error("a character out of place at byte {0}")]
    BadChar(usize),
    /// A string without end, at its opening quote.
    #[error("a string without end at byte {0}")]
    OpenString(usize),
    /// A `/*` without `*/`, at the `/*`.
    #[error("a comment without end at byte {0}")]
    OpenComment(usize),
    /// A name or a variable of more than 255 bytes, at its start.
    #[error("a long name at byte {0}")]
    LongName(usize),
    /// An integer outside the signed numbers of 64 bits, at its start.
    #[error("a wide number at byte {0}")]
    WideNumber(usize),
    /// Memory ran out.
    #[error("out of memory")]
    Memory,
}

impl From<AllocError> for LexError {
    ghost from_gives = { λ _ e. e ≡ Memory };

    fn from(_error: AllocError) -> LexError {
        LexError::Memory
    }
}

impl<T: Drop> From<AllocFailed<T>> for LexError {
    ghost from_gives = { λ _ e. e ≡ Memory };

    fn from(_error: AllocFailed<T>) -> LexError {
        LexError::Memory
    }
}
