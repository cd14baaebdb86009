//! Typings of programs.
ghost use Rattle.std.specs.Prelude.{◌≡◌, All, IfOk, IfErr, map};
ghost use Rattle.type_terms.specs.Read.{AreNodes, declared_of};
ghost use Rattle.type_terms.specs.Demands.{Demands};
ghost use Rattle.type_check.specs.Typings.{HasItemTyping, items_of};
ghost use Rattle.type_check.specs.Inferred.{IsPrincipal, IsUntyped};
ghost use Rattle.type_check.specs.inside.Order.{item_at};
ghost use Rattle.type_check.specs.inside.Folded.{Types};

use crate::clauses::type_clause;
use crate::error::TypeError;
use crate::places::{Entry, Item, in_order};
use crate::rules::type_rule;
use decl_trees::TypeRule;
use lp_parser::Place;
use lp_resolve::Program;
use std::alloc::{AllocError, Global};
use type_graph::Graph;
use type_terms::{Polytype, free_nodes};

/// Types of constants, as nodes of a graph: each constant that isn't declared has a node, at its number.
#[derive(Drop)]
pub struct Typing {
    pub graph: Graph,
    pub constants: Vec<usize>,
}

// Gives a clause or a rule its type. No: it has none.
fn type_item(
    alloc: Global,
    declared: &[Option<Polytype>],
    constants: &[usize],
    graph: &mut Graph,
    item: Item<'_>,
) -> Result<bool, AllocError>
    requires { AreNodes graph.old constants.now }
    ensures { IfOk result (Demands graph.old graph.new (λ v. HasItemTyping (declared_of declared.now) (map v constants.now) (item_at item.entry))) }
{
    match item {
        Item::Clause(clause) => type_clause(alloc, declared, constants, graph, clause),
        Item::Rule(rule) => type_rule(alloc, declared, constants, graph, rule),
    }
}

// Gives each of these clauses and rules its type. The place of the first that has none together with those before it.
fn type_entries(
    alloc: Global,
    declared: &[Option<Polytype>],
    constants: &[usize],
    graph: &mut Graph,
    entries: &[Entry<'_>],
) -> Result<Option<Place>, AllocError>
    requires { AreNodes graph.old constants.now }
    ensures { IfOk result (Types (declared_of declared.now) constants.now graph.old graph.new entries.now) }
{
    for entry in entries {
        let _general = graph.len();
        if !type_item(alloc, declared, constants, graph, entry.item)? {
            return Ok(Some(entry.place));
        }
    }
    Ok(None)
}

/// The principal types of a program's constants, of which there are so many, where these types are declared.
///
/// Errors: `Broken` with Y4 at the first clause or rule, in the order of the text, such that those up to and including it
/// have no typing; want of memory. Costs a look at each part of the clauses and rules, and the unifications.
pub fn infer_types(
    alloc: Global,
    declared: &[Option<Polytype>],
    count: usize,
    program: &Program,
) -> Result<Typing, TypeError>
    ensures typed { IfOk result (IsPrincipal (declared_of declared.now) count (items_of program.now)) }
    ensures cause { IfErr result (IsUntyped (declared_of declared.now) count (items_of program.now)) }
{
    let mut graph = Graph::new(alloc);
    let constants = free_nodes(alloc, &mut graph, count)?;
    let entries = in_order(alloc, program)?;
    match type_entries(
        alloc,
        declared,
        constants.as_slice(),
        &mut graph,
        entries.as_slice(),
    )? {
        Some(place) => Err(TypeError::Broken(TypeRule::Y4, place)),
        None => {
            let _general = graph.len();
            Ok(Typing { graph, constants })
        }
    }
}
