//! Breaches of heads.
ghost use Rattle.std.specs.Prelude.{◌≡◌, ◌<◌, length, flat_map, Some, slice_get, IfOk};
ghost use Rattle.lp_resolve.specs.StaticRules.{clause_head, rule_heads, goals_of, has_other_arity, has_reserved_head, lacks_constant, head_breaches, first_of};

use crate::breach::{Breach, breach_if, earlier};
use crate::declarations::is_reserved;
use crate::variables::first_unusable;
use lp_parser::Place;
use lp_resolve::{ClauseTree, Preds, RuleTree, StaticRule, arity_of, constant_of};
use ref_terms::Tree;
use std::alloc::{AllocError, Global};

// Whether a tree isn't headed by a constant.
fn lacks_constant(tree: &Tree) -> bool
    ensures { result ≡ lacks_constant tree.now }
{
    constant_of(tree).is_none()
}

// Whether a tree's constant is a predicate with another number of arguments.
fn has_other_arity(preds: &Preds, tree: &Tree) -> bool
    ensures { result ≡ has_other_arity preds.now tree.now }
{
    let Some(name) = constant_of(tree) else {
        return false;
    };
    match preds.get(name) {
        Some(pred) => pred.inputs.len() != arity_of(tree),
        None => false,
    }
}

// Whether a tree's constant is reserved.
fn has_reserved_head(tree: &Tree) -> bool
    ensures { result ≡ has_reserved_head tree.now }
{
    match constant_of(tree) {
        Some(name) => is_reserved(name),
        None => false,
    }
}

// The first breach of a head with its first token and the tokens of its variables.
fn first_in_head(
    alloc: Global,
    preds: &Preds,
    tree: &Tree,
    place: Place,
    vars: &[Place],
) -> Result<Option<Breach>, AllocError>
    ensures { IfOk result (λ found. found ≡ first_of (head_breaches preds.now (record { tree = tree.now; place = place; vars = vars.now }))) }
{
    let headless = breach_if(lacks_constant(tree), StaticRule::S2, place);
    let other = breach_if(has_other_arity(preds, tree), StaticRule::S3, place);
    let unusable = first_unusable(alloc, tree, vars)?;
    let reserved = breach_if(has_reserved_head(tree), StaticRule::S5, place);
    let at_head = earlier(headless, other);
    Ok(earlier(earlier(at_head, unusable), reserved))
}

/// The first breach of the heads of clauses.
pub fn first_in_clauses(
    alloc: Global,
    preds: &Preds,
    clauses: &[ClauseTree],
) -> Result<Option<Breach>, AllocError>
    ensures { IfOk result (λ found. found ≡ first_of (flat_map (λ c. head_breaches preds.now (clause_head c)) clauses.now)) }
{
    let mut found = None;
    for clause in clauses {
        let vars = clause.places.vars.as_slice();
        let next = first_in_head(alloc, preds, &clause.head, clause.places.head, vars)?;
        found = earlier(found, next);
    }
    Ok(found)
}

/// How many heads a rule has.
pub fn head_count(rule: &RuleTree) -> usize
    ensures { result ≡ length (goals_of rule.now) }
{
    rule.kept.as_slice().len() + rule.removed.as_slice().len()
}

/// The goal of a head of a rule, kept ones first.
pub fn goal_at(rule: &RuleTree, index: usize) -> &Tree
    requires { index < length (goals_of rule.now) }
    ensures { slice_get (goals_of rule.now) index ≡ Some result.now }
{
    let kept = rule.kept.as_slice();
    if index < kept.len() {
        &kept[index].goal
    } else {
        &rule.removed.as_slice()[index - kept.len()].goal
    }
}

// The first breach of the heads of a rule.
fn first_in_heads(
    alloc: Global,
    preds: &Preds,
    rule: &RuleTree,
) -> Result<Option<Breach>, AllocError>
    ensures { IfOk result (λ found. found ≡ first_of (flat_map (head_breaches preds.now) (rule_heads rule.now))) }
{
    let places = rule.places.heads.as_slice();
    let vars = rule.places.vars.as_slice();
    let mut found = None;
    for index in 0..head_count(rule).min(places.len()).min(vars.len()) {
        let goal = goal_at(rule, index);
        let next = first_in_head(alloc, preds, goal, places[index], vars[index].as_slice())?;
        found = earlier(found, next);
    }
    Ok(found)
}

/// The first breach of the heads of rules.
pub fn first_in_rule_heads(
    alloc: Global,
    preds: &Preds,
    rules: &[RuleTree],
) -> Result<Option<Breach>, AllocError>
    ensures { IfOk result (λ found. found ≡ first_of (flat_map (λ r. flat_map (head_breaches preds.now) (rule_heads r)) rules.now)) }
{
    let mut found = None;
    for rule in rules {
        found = earlier(found, first_in_heads(alloc, preds, rule)?);
    }
    Ok(found)
}
