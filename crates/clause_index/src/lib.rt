//! The clauses of a program by their predicates and keys.
//!
//! Of each predicate there are three kinds of lists: of all its clauses, of those whose key agrees with
//! every key, and for each other key of the clauses with it. A look-up merges two lists, or reads one,
//! and copies none.
#![tactic(auto)]

mod cands;
mod index;
mod lists;

pub use cands::Cands;
pub use index::{Index, build};
