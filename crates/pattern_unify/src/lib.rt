//! Unification of patterns, in the heap.
//!
//! The steps are those of the reference's rules, on what the nodes mean.
#![tactic(auto)]

mod applying;
mod assigning;
mod binding;
mod equation;
mod filling;
mod flexible;
mod keeping;
mod meeting;
mod offence;
mod own;
mod positions;
mod reaching;
mod renewing;
mod rigid;
mod settled;
mod side;
mod solving;
mod spine;
mod turning;
mod validity;

pub use solving::{unify, unify_from};
pub use spine::pattern_names;
