//! Checks the static rules of programs.
#![tactic(auto)]

mod admission;
mod breach;
mod declarations;
mod error;
mod heads;
mod names;
mod rules;
mod sides;
mod trees;
mod variables;

pub use admission::check;
pub use error::StaticError;
