//! Declarations of kinds and types over numbered symbols, and the rules of types.
#![tactic(auto)]

mod rule;
mod trees;

pub use rule::TypeRule;
pub use trees::{DeclTree, DeclTrees, PlacedName, PlacedNames, TypeTree, TypeTrees, TypeWord};
