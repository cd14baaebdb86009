//! All that the program does: `run` reads the words of a command, runs a query over files and writes its answers, or
//! writes their types, over any files and any sink.
#![tactic(auto)]

mod built;
mod command_check;
mod commands;
mod positions;
mod search;
mod sources;
mod static_rules;
mod status;
mod texts;
mod top;
mod typing;
mod words;

pub use built::Engine;
pub use commands::run;
pub use search::{answer_query, close};
pub use status::Status;
pub use words::{Command, WordsStop, read_words};
