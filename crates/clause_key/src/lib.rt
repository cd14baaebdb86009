//! The key of an argument: what stands at its head, by which clauses are passed over without being tried.
//!
//! A clause whose key and the goal's don't agree is one that clashes, as the first equation of its head
//! has two rigid heads.
#![tactic(auto)]

mod call;
mod glance;
mod key;
pub mod laws;

pub use call::key_of_call;
pub use glance::{fixed_key, seen_among};
pub use key::{Key, agree, fits_every, key_of_form};
