//! The types of terms.
#![tactic(auto)]

mod demands;
mod equations;
mod instances;
mod scheme;
mod scope;
mod trees;

pub use demands::{demand_applied, demand_context, demand_goal, demand_pair};
pub use instances::free_nodes;
pub use scheme::{Polytype, Scheme};
pub use scope::Scope;
pub use trees::{read, read_applied};
