//! Reads programs and queries.
ghost use Rattle.std.specs.Prelude.{◌≡◌, Option, IfOk, IfErr};
ghost use Rattle.lp_parser.specs.inside.ItemMachine.{item_step, item_whole, query_step, query_whole};
ghost use Rattle.lp_parser.specs.Reading.{Accepted, IsRefusal, program_of, query_of};

use crate::ast::{AstGoal, AstTerm};
use crate::error::{GrammarRule, ParseError};
use crate::item_state::{ItemState, QueryState};
use crate::item_steps::advance;
use crate::lexeme::Lexeme;
use crate::program::Ast;
use crate::reader::{Machine, read};
use crate::stack::Stack;
use crate::state::State;
use lp_lexer::Tokens;
use std::alloc::{AllocError, Global};

/// The items that are read, and the state behind them.
impl Machine for (Ast, ItemState) {
    type Tree = Ast;

    ghost steps = { item_step };

    ghost tree = { item_whole };

    fn step(self, alloc: Global, lexeme: Lexeme) -> Result<Option<Self>, AllocError> {
        let (mut ast, state) = self;
        match advance(alloc, &mut ast, state, lexeme)? {
            Some(next) => Ok(Some((ast, next))),
            None => Ok(None),
        }
    }

    fn into_tree(self, _alloc: Global) -> Result<Option<Ast>, AllocError> {
        let (ast, state) = self;
        match state {
            ItemState::Between => Ok(Some(ast)),
            ItemState::Decl(state) => {
                drop(state);
                Ok(None)
            }
            ItemState::Block(state) => {
                drop(state);
                Ok(None)
            }
            ItemState::Clause(_, state) => {
                drop(state);
                Ok(None)
            }
        }
    }
}

/// What is read of a query.
impl Machine for QueryState {
    type Tree = AstTerm;

    ghost steps = { query_step };

    ghost tree = { query_whole };

    fn step(self, alloc: Global, lexeme: Lexeme) -> Result<Option<Self>, AllocError> {
        self.step(alloc, lexeme)
    }

    fn into_tree(self, alloc: Global) -> Result<Option<AstTerm>, AllocError> {
        self.into_whole(alloc)
    }
}

/// The program of the tokens, whose places are in the file with that number. `Unexpected` is answered with
/// the index of the first token with which no program begins, or with the number of tokens where the program
/// isn't over, and with what stands there; `Deep` with the index of the token at which the nesting passes
/// 2,000; `Memory` where memory runs out.
#[tactic(auto, unfolding(crate::specs::Reading::items_of))]
pub fn parse_program(alloc: Global, tokens: &Tokens, file: u32) -> Result<Ast, ParseError>
    ensures program { IfOk result (λ ast. program_of file tokens.now ≡ Accepted ast) }
    ensures refusal { IfErr result (λ error. IsRefusal error (program_of file tokens.now)) }
{
    let start = (Ast::new(alloc), ItemState::Between);
    read(alloc, tokens, file, start, GrammarRule::Item)
}

/// The query of the tokens, whose places are in the file 0. The errors are those of `parse_program`.
#[tactic(auto, unfolding(crate::specs::Reading::term_of))]
pub fn parse_query(alloc: Global, tokens: &Tokens) -> Result<AstGoal, ParseError>
    ensures query { IfOk result (λ goal. query_of tokens.now ≡ Accepted goal.term) }
    ensures refusal { IfErr result (λ error. IsRefusal error (query_of tokens.now)) }
{
    let start = QueryState::Term(State::Want(Stack::new(alloc)));
    let term = read(alloc, tokens, 0, start, GrammarRule::Query)?;
    Ok(AstGoal { term })
}
