//! The reference: terms, unification and the search that every other crate is proved against.
//!
//! The definitions stand in `specs/`. The code has the types that the front end and the search share.
#![tactic(auto)]

pub mod fault;
pub mod laws;
pub mod pair;
pub mod path;
pub mod reserved;
pub mod sequence;
pub mod sym;
pub mod tree;

pub use fault::Fault;
pub use pair::Pair;
pub use path::{Choice, Path};
pub use reserved::Reserved;
pub use sequence::Sequence;
pub use sym::Sym;
pub use tree::{Args, Head, Tree};
