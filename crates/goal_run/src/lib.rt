//! A search over a compiled program: a query's instance in a heap, one move a call, and the texts of
//! its answers.
#![tactic(auto)]

mod answer;
mod clauses;
mod code;
pub mod laws;
mod machine;
mod page;
mod rules;
mod shapes;
mod suspended;

pub use machine::Machine;
pub use search_moves::Event;
