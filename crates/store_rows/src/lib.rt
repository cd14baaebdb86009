//! Tests of the store of suspended goals and of watch lists, with ample memory. Expected values are by hand.
//!
//! The crate has tests alone. They stand here since a crate with tests is proved once more with them.
#![tactic(auto)]

#[cfg(test)]
mod firing;
#[cfg(test)]
mod keeping;
#[cfg(test)]
mod waking;
#[cfg(test)]
mod watching;
