//! Printed forms of terms and of sequents.
//!
//! A term is printed from the left by a list of pieces, so that its depth takes no stack. The time is
//! that of what is written and of looking at each head once: a chain of abstractions, each the body of
//! the one before, is looked at as a whole.
#![tactic(auto)]

mod chain;
mod head;
mod namer;
mod piece;
mod print;
mod sequent;
mod step;

pub use namer::Namer;
pub use print::print_term;
pub use sequent::print_sequent;
