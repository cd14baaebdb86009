//! A restorable doubly linked list over raw pointers.
#![tactic(auto)]

mod cells;
mod chain;
mod history;
mod iter;
mod list;
mod loose;

pub use cells::Node;
pub use iter::DanceIter;
pub use list::DanceList;
