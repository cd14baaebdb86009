//! Alignment of sequents: joint names for the constraints that a rule looks at, and their terms over
//! these names.
//!
//! Each call leaves what every term means as it was. It adds nodes alone: it makes no variable,
//! and assigns nothing.
#![tactic(auto)]

mod identifying;
mod joint;
pub mod laws;
mod lifting;
mod sequent;
mod spine;

pub use joint::joint_names;
pub use lifting::{aligned, over_joint, spread};
pub use sequent::{Joint, JointNames, Sequent};
