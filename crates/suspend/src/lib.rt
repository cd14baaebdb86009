//! The suspended goals of a branch, in order of declaration, with what has fired on them.
#![tactic(auto)]

mod constraint;
mod following;
mod iter;
pub mod laws;
mod ledger;
mod looking;
mod note;
mod pairs;
mod queue;
mod store;

pub use constraint::{Constraint, Fired};
pub use iter::StoreIter;
pub use store::{Store, StoreMark};
