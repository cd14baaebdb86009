//! What clauses and rules demand of the types of nodes.
ghost use Rattle.std.specs.Prelude.{ℕ, ◌≡◌, ◌<◌, [], length, IfOk, IfSome, option_map};
ghost use Rattle.type_graph.specs.Types.{word};
ghost use Rattle.type_graph.specs.declared.node.Word.TheVariants.{Prop};
ghost use Rattle.type_terms.specs.Read.{AreKnown, AreNodes, HasTree, HasApplied, with_binders};
ghost use Rattle.type_terms.specs.Demands.{Demands, IsGoal, IsAppliedGoal, IsContext, IsPair};

use crate::scope::{Scope, node_of};
use crate::trees::{read, read_applied};
use ref_terms::Tree;
use std::alloc::{AllocError, Global};
use type_graph::{Graph, Word};

// Gives a node the type of propositions.
fn be_proposition(graph: &mut Graph, node: usize) -> Result<bool, AllocError>
    requires { node < length graph.old }
    ensures { IfOk result (Demands graph.old graph.new (λ v. v node ≡ word Prop)) }
{
    let proposition = graph.leaf(Word::Prop)?;
    graph.unify(node, proposition)
}

/// Gives a tree the type of propositions. No: it can't have it.
///
/// Errors: want of memory.
pub fn demand_goal(
    alloc: Global,
    scope: &Scope<'_>,
    graph: &mut Graph,
    goal: &Tree,
) -> Result<bool, AllocError>
    requires { AreKnown graph.old scope.now }
    ensures { IfOk result (Demands graph.old graph.new (IsGoal (with_binders scope.now []) goal.now)) }
{
    let mut binders = Vec::new(alloc);
    match read(alloc, scope, &mut binders, graph, goal)? {
        Some(node) => be_proposition(graph, node),
        None => Ok(false),
    }
}

/// Gives a constant with these arguments the type of propositions. No: it can't have it.
///
/// Errors: want of memory.
pub fn demand_applied(
    alloc: Global,
    scope: &Scope<'_>,
    graph: &mut Graph,
    constant: usize,
    args: &[Tree],
) -> Result<bool, AllocError>
    requires { AreKnown graph.old scope.now }
    ensures { IfOk result (Demands graph.old graph.new (IsAppliedGoal (with_binders scope.now []) constant args.now)) }
{
    match read_applied(alloc, scope, graph, constant, args)? {
        Some(node) => be_proposition(graph, node),
        None => Ok(false),
    }
}

/// Gives a variable the type of lists of propositions. No: it can't have it.
///
/// Errors: want of memory.
pub fn demand_context(
    variables: &[usize],
    graph: &mut Graph,
    variable: usize,
) -> Result<bool, AllocError>
    requires { AreNodes graph.old variables.now }
    ensures { IfOk result (Demands graph.old graph.new (IsContext variables.now variable)) }
{
    let Some(node) = node_of(variables, variable) else {
        return Ok(false);
    };
    let list = graph.leaf(Word::List)?;
    let proposition = graph.leaf(Word::Prop)?;
    let wanted = graph.apply(list, proposition)?;
    graph.unify(node, wanted)
}

/// Gives two variables one type. No: they can't have one.
///
/// Errors: want of memory.
pub fn demand_pair(
    variables: &[usize],
    graph: &mut Graph,
    left: usize,
    right: usize,
) -> Result<bool, AllocError>
    requires { AreNodes graph.old variables.now }
    ensures { IfOk result (Demands graph.old graph.new (IsPair variables.now left right)) }
{
    let Some(left) = node_of(variables, left) else {
        return Ok(false);
    };
    let Some(right) = node_of(variables, right) else {
        return Ok(false);
    };
    graph.unify(left, right)
}
