//! Why a program is refused.
ghost use Rattle.std.specs.Prelude.{◌≡◌};
ghost use Rattle.mode_check.specs.declared.error.StaticError.TheVariants.{Memory};

use lp_parser::Place;
use lp_resolve::StaticRule;
use std::alloc::AllocError;
use thiserror::Error;

/// Why a program isn't admitted.
#[derive(Debug, Drop, Error)]
pub enum StaticError {
    /// A static rule is broken at this place, and no other breach is earlier in the order of the texts.
    #[error("static rule {0:?} is broken")]
    Broken(StaticRule, Place),
    /// Memory ran out.
    #[error("out of memory")]
    Memory,
}

impl From<AllocError> for StaticError {
    ghost from_gives = { λ _ e. e ≡ Memory };

    fn from(_error: AllocError) -> StaticError {
        StaticError::Memory
    }
}
