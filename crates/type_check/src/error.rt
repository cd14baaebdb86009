//! Why a program has no types.
ghost use Rattle.std.specs.Prelude.{◌≡◌};
ghost use Rattle.type_check.specs.declared.error.TypeError.TheVariants.{Memory};

use decl_trees::TypeRule;
use lp_parser::Place;
use std::alloc::AllocError;
use thiserror::Error;

/// Why a program isn't typed.
#[derive(Debug, Drop, Error)]
pub enum TypeError {
    /// A rule of types is broken at this place, and no other one before it.
    #[error("rule of types {0:?} is broken")]
    Broken(TypeRule, Place),
    /// Memory ran out.
    #[error("out of memory")]
    Memory,
}

impl From<AllocError> for TypeError {
    ghost from_gives = { λ _ e. e ≡ Memory };

    fn from(_error: AllocError) -> TypeError {
        TypeError::Memory
    }
}
