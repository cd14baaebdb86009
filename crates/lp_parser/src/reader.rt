//! Reads tokens by a machine.
ghost use Rattle.std.specs.Prelude.{◌≡◌, Option, IfOk, IfErr};
ghost use Rattle.lp_parser.specs.declared.lexeme.Lexeme.{Lexeme};
ghost use Rattle.lp_parser.specs.Lexemes.{lexemes_of};
ghost use Rattle.lp_parser.specs.Reading.{Accepted, IsRefusal, Going, first, read};

use crate::error::{GrammarRule, ParseError};
use crate::lexeme::Lexeme;
use crate::nesting::{MAX_NESTING, Nesting};
use crate::refusal::rule_after;
use crate::token::lexeme_at;
use lp_lexer::Tokens;
use std::alloc::{AllocError, Global};

/// A machine that reads lexemes from the left, and may have a tree behind them.
pub trait Machine: Drop {
    type Tree;

    ghost steps: { Self → Lexeme → Option Self };

    ghost tree: { Self → Option Self.Tree };

    /// The machine behind one more lexeme, where it goes on so.
    fn step(self, alloc: Global, lexeme: Lexeme) -> Result<Option<Self>, AllocError>
        ensures { IfOk result (λ next. next ≡ steps self lexeme) };

    /// The tree, where the lexemes may end here.
    fn into_tree(self, alloc: Global) -> Result<Option<Self::Tree>, AllocError>
        ensures { IfOk result (λ found. found ≡ tree self) };
}

/// The tree of the tokens, whose places are in the file with that number, by a machine before the first of
/// them, which stands in this part of a text.
pub fn read<M: Machine>(
    alloc: Global,
    tokens: &Tokens,
    file: u32,
    start: M,
    part: GrammarRule,
) -> Result<M::Tree, ParseError>
    ensures accepted { IfOk result (λ it. read M.steps M.tree (Going (first start part)) (lexemes_of file tokens.now) ≡ Accepted it) }
    ensures refusal { IfErr result (λ error. IsRefusal error (read M.steps M.tree (Going (first start part)) (lexemes_of file tokens.now))) }
{
    let mut machine = start;
    let mut nesting = Nesting::new(alloc);
    let mut rule = part;
    for index in 0..tokens.len() {
        let lexeme = lexeme_at(alloc, tokens, index, file)?;
        nesting.see(&lexeme)?;
        let next_rule = rule_after(rule, &lexeme);
        match machine.step(alloc, lexeme)? {
            Some(next) => machine = next,
            None => return Err(ParseError::Unexpected(index, rule)),
        }
        if nesting.depth() > MAX_NESTING {
            return Err(ParseError::Deep(index));
        }
        rule = next_rule;
    }
    match machine.into_tree(alloc)? {
        Some(tree) => Ok(tree),
        None => Err(ParseError::Unexpected(tokens.len(), rule)),
    }
}
