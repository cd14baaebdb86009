//! The table of built-ins.
//!
//! Each comes to a unification, a truth, a printed text or a fault, by what its arguments read as.
#![tactic(auto)]

mod applying;
mod calling;
mod evaluating;
mod events;
mod expression;
mod number;
mod printing;
mod questions;

pub use applying::apply_whole;
pub use calling::{call_builtin, law_outcomes_move};
pub use events::Events;
pub use goal_form::Builtin;
pub use questions::{is_less, is_name, is_same, is_variable};
