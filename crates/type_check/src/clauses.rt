//! Typings of clauses.
ghost use Rattle.std.specs.Prelude.{◌≡◌, List, IfOk, IfSome, length, map};
ghost use Rattle.type_graph.specs.Types.{Ty};
ghost use Rattle.type_terms.specs.Read.{AreKnown, AreNodes, declared_of};
ghost use Rattle.type_terms.specs.Demands.{Demands};
ghost use Rattle.type_check.specs.Typings.{IsTreeTyped, IsClauseTyped, HasClauseTyping};
ghost use Rattle.type_check.specs.inside.Scopes.{At};

use lp_resolve::ClauseTree;
use ref_terms::Tree;
use std::alloc::{AllocError, Global};
use type_graph::Graph;
use type_terms::{Polytype, Scope, demand_goal, free_nodes};

/// Gives a body, where there is one, the type of propositions. No: it can't have it.
pub fn demand_body(
    alloc: Global,
    scope: &Scope<'_>,
    graph: &mut Graph,
    body: &Option<Tree>,
) -> Result<bool, AllocError>
    requires { AreKnown graph.old scope.now }
    ensures { IfOk result (Demands graph.old graph.new (At scope.now (λ constants variables. IfSome body.now (IsTreeTyped (declared_of scope.now.declared.now) constants variables)))) }
{
    match body {
        Some(body) => demand_goal(alloc, scope, graph, body),
        None => Ok(true),
    }
}

// Gives a clause, whose variables' nodes are known, its type. No: it has none.
fn demand_clause(
    alloc: Global,
    scope: &Scope<'_>,
    graph: &mut Graph,
    clause: &ClauseTree,
) -> Result<bool, AllocError>
    requires { AreKnown graph.old scope.now }
    ensures { IfOk result (Demands graph.old graph.new (At scope.now (λ constants variables. IsClauseTyped (declared_of scope.now.declared.now) constants variables clause.now))) }
{
    if !demand_goal(alloc, scope, graph, &clause.head)? {
        return Ok(false);
    }
    demand_body(alloc, scope, graph, &clause.body)
}

/// Gives a clause its type. No: it has none.
pub fn type_clause(
    alloc: Global,
    declared: &[Option<Polytype>],
    constants: &[usize],
    graph: &mut Graph,
    clause: &ClauseTree,
) -> Result<bool, AllocError>
    requires { AreNodes graph.old constants.now }
    ensures { IfOk result (Demands graph.old graph.new (λ v. HasClauseTyping (declared_of declared.now) (map v constants.now) clause.now)) }
{
    let nodes = free_nodes(alloc, graph, clause.vars)?;
    let variables = nodes.as_slice();
    let scope = Scope {
        declared,
        constants,
        variables,
    };
    demand_clause(alloc, &scope, graph, clause)
}
