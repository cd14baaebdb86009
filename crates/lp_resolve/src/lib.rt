//! Reads the trees of the parser as programs and queries over numbered symbols.
#![tactic(auto)]

mod build;
mod checked;
mod clauses;
mod gather;
mod items;
mod laws;
mod occurrences;
mod parts;
mod placed;
mod preds;
mod program;
mod query;
mod read;
mod resolve;
mod rules;
mod scope;
mod static_rule;
mod symbols;
mod trees;
mod variable;
mod variables;

pub use checked::Checked;
pub use laws::{law_first_breach, law_predicates, law_rebuilt};
pub use preds::Preds;
pub use program::{
    ClausePlaces, ClauseTree, HeadTree, PairTree, Pred, PredLine, Program, RulePlaces, RuleTree,
};
pub use query::{Query, QueryVar, QueryVars};
pub use read::resolve_query;
pub use resolve::resolve_program;
pub use static_rule::StaticRule;
pub use symbols::Symbols;
pub use trees::{args_of, arity_of, constant_of};
pub use variable::Variable;
