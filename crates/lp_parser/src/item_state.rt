//! What was read of an item.
use crate::ast::{AstArgs, AstTerm, AstType, AstTypes, Place, Rule, RuleList, Word, Words};
use crate::stack::Stack;
use crate::state::State;

/// Where a lexeme leads: to a further state, or to the end of what is read.
#[derive(Drop)]
pub enum Moved<S, T> {
    To(S),
    Done(T),
}

/// A phrase of a type that is not over.
#[derive(Drop)]
pub enum TypeFrame {
    /// `->` with its left side.
    Arrow(AstType),
    /// A bracket around a type.
    Group,
    /// A bracket around an argument, with the word and the arguments before it.
    Argument(Word, AstTypes),
}

/// The application that is read last.
#[derive(Drop)]
pub enum TypeFront {
    /// A word with its arguments so far.
    Named(Word, AstTypes),
    /// A type in brackets, which has no arguments.
    Whole(AstType),
}

/// What was read of a type.
#[derive(Drop)]
pub enum TypeState {
    /// A type is awaited.
    Want(Stack<TypeFrame>),
    Have(TypeFront, Stack<TypeFrame>),
}

/// What the names of a declaration are given.
#[derive(Clone, Copy, Debug, PartialEq, Eq)]
pub enum Given {
    /// A kind.
    Kind,
    /// A type.
    TypeOf,
}

/// What was read of a declaration.
#[derive(Drop)]
pub enum DeclState {
    /// A name is awaited, behind these.
    Name(Given, Words),
    /// The last name is read.
    Named(Given, Words),
    /// `type` is awaited, behind so many arrows.
    Kind(Words, usize),
    /// `type` is read, behind so many arrows.
    Kinded(Words, usize),
    /// In the type of these names.
    Type(Words, TypeState),
    /// The name of a predicate is awaited.
    Pred,
    /// The name of a predicate is read.
    PredNamed(Word),
    /// A mode is awaited, behind these arguments.
    Mode(Word, AstArgs),
    /// A `:` is awaited behind a mode.
    Colon(Word, AstArgs, bool),
    /// In the type of an argument with that mode.
    ArgType(Word, AstArgs, bool, TypeState),
}

/// The two groups of heads of a rule.
#[derive(Clone, Copy, Debug, PartialEq, Eq)]
pub enum Side {
    Kept,
    Removed,
}

/// Where the next lexeme of a rule stands.
#[derive(Drop)]
pub enum RulePlace {
    /// Behind `rule`.
    Start,
    /// Behind the `\` between kept and removed heads.
    Divided,
    /// Behind a head.
    Heads(Side),
    /// In a head, with the variable of its context where that is read.
    Head(Side, Option<Word>, State),
    /// The left variable of a pair is awaited.
    PairLeft,
    /// A `~` is awaited.
    Tilde(Word),
    /// The right variable of a pair is awaited.
    PairRight(Word),
    /// Behind a pair.
    Paired,
    /// In a test.
    Test(State),
    /// In the body.
    Body(State),
}

/// What was read of a rule: its parts so far, and where the next lexeme stands.
#[derive(Drop)]
pub struct RuleState {
    pub rule: Rule,
    pub at: RulePlace,
}

/// What was read of a block.
#[derive(Drop)]
pub enum BlockState {
    /// A name or `{` is awaited, behind these names.
    Names(Words),
    /// Between rules.
    Rules(Words, RuleList),
    /// In a rule.
    Rule(Words, RuleList, RuleState),
}

/// What was read of an item.
#[derive(Drop)]
pub enum ItemState {
    /// Nothing.
    Between,
    /// A declaration.
    Decl(DeclState),
    /// A block.
    Block(BlockState),
    /// A clause that began at this place.
    Clause(Place, State),
}

/// What was read of a query.
#[derive(Drop)]
pub enum QueryState {
    /// The term so far.
    Term(State),
    /// The term and its dot.
    Ended(AstTerm),
}
