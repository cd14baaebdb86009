//! Hypothetical clauses: those that a term assumes, and their instances at the names of a call.
#![tactic(auto)]

mod around;
mod at;
mod compile;
mod fixed;
mod forms;
mod hyp;
mod instance;
pub mod laws;
mod making;
mod part;
mod reading;

pub use at::hyp_at;
pub use compile::compile_hyp;
pub use hyp::{Hyp, HypAt, HypInstance, HypStop, Hyps};
pub use instance::{hyp_body_of, hyp_head_of};
pub use making::{constant, constant_applied};
