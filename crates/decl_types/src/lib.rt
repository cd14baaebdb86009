//! Declared kinds and types: their rules, and the types that they give to constants.
#![tactic(auto)]

mod breach;
mod declarations;
mod kinds;
mod names;
mod reserved;
mod schemes;
mod table;

pub use breach::Breach;
pub use declarations::first_breach;
pub use names::DeclaredName;
pub use table::declared_table;
