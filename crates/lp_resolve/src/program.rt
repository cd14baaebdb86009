//! Programs, over numbered symbols and variables.
use crate::preds::Preds;
use lp_parser::Place;
use ref_terms::{Sequence, Sym, Tree};

/// A declaration of a predicate, with the place of its name.
#[derive(Debug, Drop)]
pub struct PredLine {
    pub name: Sym,
    pub place: Place,
    /// For each argument whether it is an input.
    pub inputs: Sequence<bool>,
}

/// A predicate: whether it has a declaration, and for each argument whether it is an input.
#[derive(Debug, Drop)]
pub struct Pred {
    pub declared: bool,
    pub inputs: Sequence<bool>,
}

/// A clause. Its variables are numbered in the order of their first places.
#[derive(Debug, Drop)]
pub struct ClauseTree {
    pub vars: usize,
    pub head: Tree,
    pub body: Option<Tree>,
    pub places: ClausePlaces,
}

/// Where the parts of a clause stand.
#[derive(Debug, Drop)]
pub struct ClausePlaces {
    /// The first token of the clause.
    pub first: Place,
    /// The first token of its head that isn't `(`.
    pub head: Place,
    /// The tokens of the head's variables, from the left.
    pub vars: Sequence<Place>,
}

/// A head of a rule, and the number of the variable for its assumptions, where it has one.
#[derive(Debug, Drop)]
pub struct HeadTree {
    pub context: Option<usize>,
    pub goal: Tree,
}

/// The numbers of the two variables of a pair.
#[derive(Clone, Copy, Debug, PartialEq, Eq)]
pub struct PairTree {
    pub left: usize,
    pub right: usize,
}

/// A constraint rule. Its variables are numbered in the order of their first places.
#[derive(Debug, Drop)]
pub struct RuleTree {
    /// The names of its block.
    pub names: Sequence<Sym>,
    pub vars: usize,
    pub kept: Sequence<HeadTree>,
    pub removed: Sequence<HeadTree>,
    pub pairs: Sequence<PairTree>,
    pub tests: Sequence<Tree>,
    pub body: Option<Tree>,
    pub places: RulePlaces,
}

/// Where the parts of a rule stand.
#[derive(Debug, Drop)]
pub struct RulePlaces {
    /// The word `rule`.
    pub rule: Place,
    /// For each head, kept ones first, its goal's first token that isn't `(`.
    pub heads: Sequence<Place>,
    /// For each head the tokens of its goal's variables, from the left.
    pub vars: Sequence<Sequence<Place>>,
    /// For each pair its left word.
    pub pairs: Sequence<Place>,
    /// For each test its first token that isn't `(`.
    pub tests: Sequence<Place>,
}

/// A program: its predicates in the order of their first places, and its clauses, rules and declarations
/// of predicates in the order of the text.
#[derive(Debug, Drop)]
pub struct Program {
    pub preds: Preds,
    pub clauses: Sequence<ClauseTree>,
    pub rules: Sequence<RuleTree>,
    pub decls: Sequence<PredLine>,
}
