//! Tests of the types of programs. Each table has a line for a case, and expected values are by hand.
//!
//! The crate has tests alone. They stand here since a crate with tests is proved once more with them.
#![tactic(auto)]

#[cfg(test)]
mod lines;
#[cfg(test)]
mod typing;
