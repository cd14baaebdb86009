//! Types of programs as text.
#![tactic(auto)]

mod ends;
mod lines;
mod numbers;
mod occurring;
mod shown;
mod tasks;
mod writing;

pub use lines::type_lines;
