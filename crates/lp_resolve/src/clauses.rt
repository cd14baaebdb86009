//! Reads clauses.
ghost use Rattle.std.specs.Prelude.{◌≡◌, ℕ, ◌≤◌, List, length, take, map, IfOk, OnOk};
ghost use Rattle.lp_resolve.specs.Symbols.{Begins, interned_all};
ghost use Rattle.lp_resolve.specs.Texts.{texts_of};
ghost use Rattle.lp_resolve.specs.Places.{first_token};
ghost use Rattle.lp_resolve.specs.Occurrences.{occurrences};
ghost use Rattle.lp_resolve.specs.ProgramReading.{is_implication, head_and_body, clause_with, clause_of};

use crate::occurrences::count_variables;
use crate::parts::read_part;
use crate::program::{ClausePlaces, ClauseTree};
use crate::symbols::Symbols;
use crate::trees::{arity_of, constant_of};
use crate::variables::Variables;
use lp_parser::{AstTerm, Clause, Place};
use ref_terms::{Sequence, Sym, Tree};
use std::alloc::{AllocError, Global};

// The number of `:-`.
const IMPLIED: usize = 6;

/// The first token of a term that isn't `(`.
pub fn first_token(term: &AstTerm) -> Place
    ensures { result ≡ first_token term.now }
{
    let mut rest = term;
    loop {
        match rest {
            AstTerm::Word(_, _, place) => return *place,
            AstTerm::Int(_, place) => return *place,
            AstTerm::Str(_, place) => return *place,
            AstTerm::App(head, _) => rest = head.get(),
            AstTerm::Bind(_, place, _) => return *place,
            AstTerm::Op(_, _, left, _) => rest = left.get(),
            AstTerm::Quant(_, place, _) => return *place,
            AstTerm::List(place, _, _) => return *place,
        }
    }
}

// Whether a tree is headed by `:-` with two arguments.
fn is_implication(tree: &Tree) -> bool
    ensures { result ≡ is_implication tree.now }
{
    match constant_of(tree) {
        Some(symbol) => symbol.0 == IMPLIED && arity_of(tree) == 2,
        None => false,
    }
}

// The two arguments of such a tree, and any other tree alone.
fn head_and_body(tree: Tree) -> (Tree, Option<Tree>)
    ensures { result ≡ head_and_body tree }
{
    if !is_implication(&tree) {
        return (tree, None);
    }
    match tree {
        Tree::Lam(body) => (Tree::Lam(body), None),
        Tree::Ap(head, args) => {
            let mut args = args.into_vec();
            match (args.pop(), args.pop()) {
                (Some(body), Some(left)) => (left, Some(body)),
                (_, _) => (Tree::Ap(head, Sequence::from_vec(args)), None),
            }
        }
    }
}

/// The clause that a clause of the text is read as.
///
/// Errors: want of memory.
pub fn read_clause(
    alloc: Global,
    clause: &Clause,
    symbols: &mut Symbols,
) -> Result<ClauseTree, AllocError>
    ensures begins { Begins symbols.old symbols.new }
    ensures table { OnOk result (symbols.new ≡ interned_all symbols.old (texts_of clause.now.term)) }
    ensures clause { IfOk result (λ it. (later : List (List ℕ)) → Begins symbols.new later → it ≡ clause_of later clause.now) }
{
    let mut variables = Variables::new(alloc);
    let tree = read_part(alloc, &clause.term, symbols, &mut variables)?;
    let it = clause_with(alloc, clause, tree, &variables)?;
    Ok(it)
}

// The clause whose tree and variables these are.
fn clause_with(
    alloc: Global,
    clause: &Clause,
    tree: Tree,
    variables: &Variables,
) -> Result<ClauseTree, AllocError>
    ensures { IfOk result (λ it. it ≡ clause_with clause.now variables.now (head_and_body tree)) }
{
    let (head, body) = head_and_body(tree);
    let vars = first_places(alloc, variables, count_variables(&head)?)?;
    Ok(ClauseTree {
        vars: variables.len(),
        head,
        body,
        places: ClausePlaces {
            first: clause.place,
            head: first_token(&clause.term),
            vars,
        },
    })
}

// So many of the places that were met, from the first on.
fn first_places(
    alloc: Global,
    variables: &Variables,
    count: usize,
) -> Result<Sequence<Place>, AllocError>
    ensures { IfOk result (λ places. places ≡ take count variables.now.places) }
{
    let places = variables.places();
    let count = if count < places.len() {
        count
    } else {
        places.len()
    };
    Ok(Sequence::from_vec(Vec::from_slice(alloc, &places[..count])?))
}
