//! Typings of rules.
ghost use Rattle.std.specs.Prelude.{◌≡◌, List, All, IfOk, length, map};
ghost use Rattle.type_graph.specs.Types.{Ty};
ghost use Rattle.type_terms.specs.Read.{AreKnown, AreNodes, declared_of};
ghost use Rattle.type_terms.specs.Demands.{Demands};
ghost use Rattle.type_check.specs.Typings.{IsHeadTyped, IsPairTyped, IsRuleTyped, HasRuleTyping};
ghost use Rattle.type_check.specs.inside.Scopes.{At};

use crate::clauses::demand_body;
use crate::tests::demand_tests;
use lp_resolve::{HeadTree, PairTree, RuleTree};
use std::alloc::{AllocError, Global};
use type_graph::Graph;
use type_terms::{Polytype, Scope, demand_context, demand_goal, demand_pair, free_nodes};

// Gives a head its type. No: it has none.
fn demand_head(
    alloc: Global,
    scope: &Scope<'_>,
    graph: &mut Graph,
    head: &HeadTree,
) -> Result<bool, AllocError>
    requires { AreKnown graph.old scope.now }
    ensures { IfOk result (Demands graph.old graph.new (At scope.now (λ constants variables. IsHeadTyped (declared_of scope.now.declared.now) constants variables head.now))) }
{
    if !demand_goal(alloc, scope, graph, &head.goal)? {
        return Ok(false);
    }
    match head.context {
        Some(variable) => demand_context(scope.variables, graph, variable),
        None => Ok(true),
    }
}

// Gives each of these heads its type. No: they have none.
fn demand_heads(
    alloc: Global,
    scope: &Scope<'_>,
    graph: &mut Graph,
    heads: &[HeadTree],
) -> Result<bool, AllocError>
    requires { AreKnown graph.old scope.now }
    ensures { IfOk result (Demands graph.old graph.new (At scope.now (λ constants variables. All (IsHeadTyped (declared_of scope.now.declared.now) constants variables) heads.now))) }
{
    for head in heads {
        if !demand_head(alloc, scope, graph, head)? {
            return Ok(false);
        }
    }
    Ok(true)
}

// Gives both variables of each of these pairs one type. No: they have none.
fn demand_pairs(
    scope: &Scope<'_>,
    graph: &mut Graph,
    pairs: &[PairTree],
) -> Result<bool, AllocError>
    requires { AreKnown graph.old scope.now }
    ensures { IfOk result (Demands graph.old graph.new (At scope.now (λ constants variables. All (IsPairTyped variables) pairs.now))) }
{
    for pair in pairs {
        if !demand_pair(scope.variables, graph, pair.left, pair.right)? {
            return Ok(false);
        }
    }
    Ok(true)
}

// Gives a rule, whose variables' nodes are known, its type. No: it has none.
fn demand_rule(
    alloc: Global,
    scope: &Scope<'_>,
    graph: &mut Graph,
    rule: &RuleTree,
) -> Result<bool, AllocError>
    requires { AreKnown graph.old scope.now }
    ensures { IfOk result (Demands graph.old graph.new (At scope.now (λ constants variables. IsRuleTyped (declared_of scope.now.declared.now) constants variables rule.now))) }
{
    if !demand_heads(alloc, scope, graph, rule.kept.as_slice())? {
        return Ok(false);
    }
    if !demand_heads(alloc, scope, graph, rule.removed.as_slice())? {
        return Ok(false);
    }
    if !demand_pairs(scope, graph, rule.pairs.as_slice())? {
        return Ok(false);
    }
    if !demand_tests(alloc, scope, graph, rule.tests.as_slice())? {
        return Ok(false);
    }
    demand_body(alloc, scope, graph, &rule.body)
}

/// Gives a rule its type. No: it has none.
pub fn type_rule(
    alloc: Global,
    declared: &[Option<Polytype>],
    constants: &[usize],
    graph: &mut Graph,
    rule: &RuleTree,
) -> Result<bool, AllocError>
    requires { AreNodes graph.old constants.now }
    ensures { IfOk result (Demands graph.old graph.new (λ v. HasRuleTyping (declared_of declared.now) (map v constants.now) rule.now)) }
{
    let nodes = free_nodes(alloc, graph, rule.vars)?;
    let variables = nodes.as_slice();
    let scope = Scope {
        declared,
        constants,
        variables,
    };
    demand_rule(alloc, &scope, graph, rule)
}
