//! Types of programs.
#![tactic(auto)]

mod clauses;
mod error;
mod inferring;
mod places;
mod program;
mod rules;
mod tests;

pub use error::TypeError;
pub use inferring::{Typing, infer_types};
pub use program::infer;
