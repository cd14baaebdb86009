//! What kind of goal a term is.
//!
//! One function says it, for all that have to know: the search, its index and its store.
#![tactic(auto)]

mod builtin;
mod kind;
mod word_kind;

pub use builtin::Builtin;
pub use kind::{GoalKind, goal_kind_of, kind_of_form};
