//! The search, over one heap: goals, alternatives and the moves between them.
//!
//! All that a retry takes back stands on a `Stage`: the heap, the frames of goals, the path and the store
//! of suspended goals. A mark is how much there is of each. An alternative is a mark and a number of a frame, so that one is made
//! in constant time, and a retry takes as long as what it takes back.
#![tactic(auto)]

mod assumed;
mod call;
mod clauses;
mod firing;
mod frame;
pub mod laws;
mod machine;
mod moves;
mod opening;
mod quantifiers;
mod resolving;
mod retrying;
mod stage;
mod suspending;
mod visitor;
mod waking;

pub use clauses::{Clauses, Instance};
pub use frame::{Frame, Later, Left, Mark, Saved};
pub use machine::{Event, Machine, Phase};
pub use visitor::Visitor;
