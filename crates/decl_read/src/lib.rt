//! Reads declarations of kinds and types over numbered symbols.
#![tactic(auto)]

mod declarations;
mod types;
mod variables;

pub use declarations::read_declarations;
