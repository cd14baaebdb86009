//! Reads items and queries from the left.
ghost use Rattle.std.specs.Prelude.{◌≡◌, [], ◌∷◌, ◌++◌, IfOk, Some, None, option_map};
ghost use Rattle.lp_parser.specs.Program.{place_of};
ghost use Rattle.lp_parser.specs.inside.TermMachine.{step, settled_at};
ghost use Rattle.lp_parser.specs.inside.RuleMachine.{empty_rule, whole, rule_move};
ghost use Rattle.lp_parser.specs.inside.DeclMachine.{decl_move};
ghost use Rattle.lp_parser.specs.inside.ItemMachine.{block_name, between_rules, in_rule, block_move, in_decl, in_block, ends_clause, in_clause, begins_marked, begins, move, moved, ends_query, in_query, query_step, query_whole};

use crate::ast::{
    AstTerm, Block, Clause, Decl, Item, Place, Rule, RuleList, Word, WordKind, Words,
};
use crate::item_state::{
    BlockState, DeclState, Given, ItemState, Moved, QueryState, RulePlace, RuleState,
};
use crate::lexeme::{Lexeme, Mark};
use crate::program::Ast;
use crate::stack::Stack;
use crate::state::State;
use sqlite_items::Items;
use std::alloc::{AllocError, Global};

/// Where a lexeme leads in a block, if one goes on so.
type BlockMoved = Option<Moved<BlockState, Block>>;

/// Where a lexeme leads in a program, if one goes on so.
type ItemMoved = Option<Moved<ItemState, Item>>;

impl Lexeme {
    /// Where the lexeme stands.
    pub fn place(&self) -> Place
        ensures { result ≡ place_of self.now }
    {
        match self {
            Lexeme::Word(_, _, place) => *place,
            Lexeme::Literal(_, place) => *place,
            Lexeme::Quantifier(_, place) => *place,
            Lexeme::Infix(_, place) => *place,
            Lexeme::Lambda(place) => *place,
            Lexeme::OpenRound(place) => *place,
            Lexeme::OpenSquare(place) => *place,
            Lexeme::Closer(_, place) => *place,
            Lexeme::Mark(_, place) => *place,
        }
    }
}

/// A rule of which nothing is read yet, at the place of its `rule`.
fn empty_rule(alloc: Global, place: Place) -> Rule
    ensures { result ≡ empty_rule place }
{
    Rule {
        kept: Items::new(alloc),
        removed: Items::new(alloc),
        pairs: Items::new(alloc),
        tests: Items::new(alloc),
        body: None,
        place,
    }
}

/// A name of a block, behind these, or the bracket before its rules.
fn block_name(alloc: Global, mut names: Words, lexeme: Lexeme) -> Result<BlockMoved, AllocError>
    ensures { IfOk result (λ it. it ≡ block_name names lexeme) }
{
    match lexeme {
        Lexeme::Word(WordKind::Name, text, place) => {
            names.push(Word { text, place })?;
            Ok(Some(Moved::To(BlockState::Names(names))))
        }
        Lexeme::Mark(Mark::OpenCurly, _) => Ok(Some(Moved::To(BlockState::Rules(
            names,
            Items::new(alloc),
        )))),
        _ => Ok(None),
    }
}

/// Between the rules of a block.
fn between_rules(alloc: Global, names: Words, rules: RuleList, lexeme: Lexeme) -> BlockMoved
    ensures { result ≡ between_rules names rules lexeme }
{
    match lexeme {
        Lexeme::Mark(Mark::RuleWord, place) => {
            let state = RuleState {
                rule: empty_rule(alloc, place),
                at: RulePlace::Start,
            };
            Some(Moved::To(BlockState::Rule(names, rules, state)))
        }
        Lexeme::Mark(Mark::CloseCurly, _) => Some(Moved::Done(Block { names, rules })),
        _ => None,
    }
}

/// In a rule of a block.
fn in_rule(
    alloc: Global,
    names: Words,
    mut rules: RuleList,
    state: RuleState,
    lexeme: Lexeme,
) -> Result<BlockMoved, AllocError>
    ensures { IfOk result (λ it. it ≡ in_rule names rules (rule_move state lexeme)) }
{
    match state.step(alloc, lexeme)? {
        Some(Moved::To(state)) => Ok(Some(Moved::To(BlockState::Rule(names, rules, state)))),
        Some(Moved::Done(rule)) => {
            rules.push(rule)?;
            Ok(Some(Moved::To(BlockState::Rules(names, rules))))
        }
        None => Ok(None),
    }
}

impl BlockState {
    /// Where the lexeme leads, if a block goes on so.
    fn step(self, alloc: Global, lexeme: Lexeme) -> Result<BlockMoved, AllocError>
        ensures { IfOk result (λ it. it ≡ block_move self lexeme) }
    {
        match self {
            BlockState::Names(names) => block_name(alloc, names, lexeme),
            BlockState::Rules(names, rules) => Ok(between_rules(alloc, names, rules, lexeme)),
            BlockState::Rule(names, rules, state) => in_rule(alloc, names, rules, state, lexeme),
        }
    }
}

/// In a declaration.
fn in_decl(alloc: Global, state: DeclState, lexeme: Lexeme) -> Result<ItemMoved, AllocError>
    ensures { IfOk result (λ it. it ≡ in_decl (decl_move state lexeme)) }
{
    match state.step(alloc, lexeme)? {
        Some(Moved::To(state)) => Ok(Some(Moved::To(ItemState::Decl(state)))),
        Some(Moved::Done(decl)) => Ok(Some(Moved::Done(Item::Decl(decl)))),
        None => Ok(None),
    }
}

/// In a block.
fn in_block(alloc: Global, state: BlockState, lexeme: Lexeme) -> Result<ItemMoved, AllocError>
    ensures { IfOk result (λ it. it ≡ in_block (block_move state lexeme)) }
{
    match state.step(alloc, lexeme)? {
        Some(Moved::To(state)) => Ok(Some(Moved::To(ItemState::Block(state)))),
        Some(Moved::Done(block)) => Ok(Some(Moved::Done(Item::Block(block)))),
        None => Ok(None),
    }
}

/// In the clause that began at the place.
fn in_clause(
    alloc: Global,
    place: Place,
    state: State,
    lexeme: Lexeme,
) -> Result<ItemMoved, AllocError>
    ensures { IfOk result (λ it. it ≡ in_clause place (step state lexeme) lexeme (whole (settled_at state))) }
{
    match lexeme {
        Lexeme::Mark(Mark::Dot, _) => match state.into_whole(alloc)? {
            Some(term) => Ok(Some(Moved::Done(Item::Clause(Clause { term, place })))),
            None => Ok(None),
        },
        lexeme => match state.step(alloc, lexeme)? {
            Some(state) => Ok(Some(Moved::To(ItemState::Clause(place, state)))),
            None => Ok(None),
        },
    }
}

/// The item that a mark begins.
fn begins_marked(alloc: Global, mark: Mark) -> ItemMoved
    ensures { result ≡ begins_marked mark }
{
    let names = Items::new(alloc);
    match mark {
        Mark::KindWord => Some(Moved::To(ItemState::Decl(DeclState::Name(Given::Kind, names)))),
        Mark::TypeWord => Some(Moved::To(ItemState::Decl(DeclState::Name(Given::TypeOf, names)))),
        Mark::PredWord => Some(Moved::To(ItemState::Decl(DeclState::Pred))),
        Mark::ConstraintWord => Some(Moved::To(ItemState::Block(BlockState::Names(names)))),
        _ => None,
    }
}

/// The item that a lexeme begins.
fn begins(alloc: Global, lexeme: Lexeme) -> Result<ItemMoved, AllocError>
    ensures { IfOk result (λ it. it ≡ begins lexeme) }
{
    match lexeme {
        Lexeme::Mark(mark, _) => Ok(begins_marked(alloc, mark)),
        lexeme => {
            let place = lexeme.place();
            in_clause(alloc, place, State::Want(Stack::new(alloc)), lexeme)
        }
    }
}

impl ItemState {
    /// Where the lexeme leads, if a program goes on so.
    fn step(self, alloc: Global, lexeme: Lexeme) -> Result<ItemMoved, AllocError>
        ensures { IfOk result (λ it. it ≡ move self lexeme) }
    {
        match self {
            ItemState::Between => begins(alloc, lexeme),
            ItemState::Decl(state) => in_decl(alloc, state, lexeme),
            ItemState::Block(state) => in_block(alloc, state, lexeme),
            ItemState::Clause(place, state) => in_clause(alloc, place, state, lexeme),
        }
    }
}

/// The state behind the lexeme, with an item that it ends put last into the program.
pub fn advance(
    alloc: Global,
    ast: &mut Ast,
    state: ItemState,
    lexeme: Lexeme,
) -> Result<Option<ItemState>, AllocError>
    ensures { IfOk result (λ it. option_map (λ s. (ast.new, s)) it ≡ moved ast.old (move state lexeme)) }
{
    match state.step(alloc, lexeme)? {
        Some(Moved::To(next)) => Ok(Some(next)),
        Some(Moved::Done(item)) => {
            ast.push(item)?;
            Ok(Some(ItemState::Between))
        }
        None => Ok(None),
    }
}

/// Behind one more lexeme of a query that may end before it.
fn in_query(alloc: Global, state: State, lexeme: Lexeme) -> Result<Option<QueryState>, AllocError>
    ensures { IfOk result (λ it. it ≡ in_query (step state lexeme) lexeme (whole (settled_at state))) }
{
    match lexeme {
        Lexeme::Mark(Mark::Dot, _) => match state.into_whole(alloc)? {
            Some(term) => Ok(Some(QueryState::Ended(term))),
            None => Ok(None),
        },
        lexeme => match state.step(alloc, lexeme)? {
            Some(state) => Ok(Some(QueryState::Term(state))),
            None => Ok(None),
        },
    }
}

impl QueryState {
    /// The state behind the lexeme, if a query goes on so.
    pub fn step(self, alloc: Global, lexeme: Lexeme) -> Result<Option<QueryState>, AllocError>
        ensures { IfOk result (λ it. it ≡ query_step self lexeme) }
    {
        match self {
            QueryState::Term(state) => in_query(alloc, state, lexeme),
            QueryState::Ended(_) => Ok(None),
        }
    }

    /// The term of the query, where it may end here.
    pub fn into_whole(self, alloc: Global) -> Result<Option<AstTerm>, AllocError>
        ensures { IfOk result (λ term. term ≡ query_whole self) }
    {
        match self {
            QueryState::Term(state) => state.into_whole(alloc),
            QueryState::Ended(term) => Ok(Some(term)),
        }
    }
}
