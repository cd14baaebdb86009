//! Reads tokens as programs and queries.
#![tactic(auto)]

mod ast;
mod binders;
mod decl_steps;
mod error;
mod item_state;
mod item_steps;
mod laws;
mod lexeme;
mod nesting;
mod parse;
mod program;
mod reader;
mod refusal;
mod rule_steps;
mod stack;
mod state;
mod term;
mod token;
mod type_steps;

pub use ast::{
    AstArg, AstArgs, AstGoal, AstTerm, AstTerms, AstType, AstTypes, Block, Clause, Decl, Item,
    Operator, Place, Rule, RuleHead, RuleHeads, RuleList, Word, WordKind, WordPair, WordPairs,
    Words,
};
pub use error::{GrammarRule, ParseError};
pub use laws::{
    one_program, one_query, program_deep, program_read, program_unexpected, query_deep, query_read,
    query_unexpected,
};
pub use lexeme::{Closer, Lexeme, Literal, Mark};
pub use parse::{parse_program, parse_query};
pub use program::Ast;
