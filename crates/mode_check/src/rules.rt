//! Breaches of rules, those of their heads aside.
ghost use Rattle.std.specs.Prelude.{◌≡◌, nat_eq, not, flat_map, IfOk};
ghost use Rattle.std.specs.List.{zip};
ghost use Rattle.indexmap.specs.IndexMap.{get};
ghost use Rattle.lp_resolve.specs.StaticRules.{are_in_order, goals_of, has_many_heads, is_test, is_unaligned, test_arity, where_true, breaches_at, rule_breaches, first_of};
ghost use Rattle.lp_resolve.specs.declared.static_rule.StaticRule.TheVariants.{S7, S8};

use crate::breach::{Breach, breach_if, earlier};
use crate::heads::head_count;
use crate::sides::first_heads;
use indexmap::IndexMap;
use lp_resolve::{PairTree, RuleTree, StaticRule, arity_of, constant_of};
use ref_terms::{Sym, Tree};
use std::alloc::{AllocError, Global};

// The words of the tests, by their numbers.
const SAME: usize = 10;

const VAR: usize = 11;

const NAME: usize = 12;

const LESS: usize = 14;

const NONVAR: usize = 23;

const DISTINCT: usize = 24;

// How many arguments a test has, where a symbol is one.
fn test_arity(symbol: Sym) -> Option<usize>
    ensures { result ≡ test_arity symbol.0 }
{
    match symbol.0 {
        VAR | NONVAR | NAME => Some(1),
        SAME | DISTINCT | LESS => Some(2),
        _ => None,
    }
}

// Whether a tree is a test.
fn is_test(tree: &Tree) -> bool
    ensures { result ≡ is_test tree.now }
{
    let Some(name) = constant_of(tree) else {
        return false;
    };
    match test_arity(name) {
        Some(arity) => arity == arity_of(tree),
        None => false,
    }
}

// Whether both heads are there, and the left one is before the right one.
fn are_in_order(left: Option<usize>, right: Option<usize>) -> bool
    ensures { result ≡ are_in_order left right }
{
    match (left, right) {
        (Some(left), Some(right)) => left < right,
        _ => false,
    }
}

// Whether a rule has more than three heads.
fn has_many_heads(rule: &RuleTree) -> bool
    ensures { result ≡ has_many_heads rule.now }
{
    head_count(rule) > 3
}

// Whether the sides of a pair don't stand in order, where for each variable its first head is known.
fn is_unaligned(heads: &IndexMap<usize, usize>, pair: PairTree) -> bool
    ensures { result ≡ not (are_in_order (get nat_eq heads.now pair.left) (get nat_eq heads.now pair.right)) }
{
    let left = heads.get(&pair.left).copied();
    let right = heads.get(&pair.right).copied();
    !are_in_order(left, right)
}

// The first breach of the pairs of a rule.
fn first_unaligned(alloc: Global, rule: &RuleTree) -> Result<Option<Breach>, AllocError>
    ensures { IfOk result (λ found. found ≡ first_of (breaches_at S7 (where_true (is_unaligned (goals_of rule.now)) (zip rule.now.pairs rule.now.places.pairs)))) }
{
    let heads = first_heads(alloc, rule)?;
    let pairs = rule.pairs.as_slice();
    let places = rule.places.pairs.as_slice();
    let mut found = None;
    for index in 0..pairs.len().min(places.len()) {
        let broken = is_unaligned(&heads, pairs[index]);
        found = earlier(found, breach_if(broken, StaticRule::S7, places[index]));
    }
    Ok(found)
}

// The first breach of the tests of a rule.
fn first_untested(rule: &RuleTree) -> Option<Breach>
    ensures { result ≡ first_of (breaches_at S8 (where_true (λ t. not (is_test t)) (zip rule.now.tests rule.now.places.tests))) }
{
    let tests = rule.tests.as_slice();
    let places = rule.places.tests.as_slice();
    let mut found = None;
    for index in 0..tests.len().min(places.len()) {
        let broken = !is_test(&tests[index]);
        found = earlier(found, breach_if(broken, StaticRule::S8, places[index]));
    }
    found
}

// The first breach of a rule, those of its heads aside.
fn first_in_rule(alloc: Global, rule: &RuleTree) -> Result<Option<Breach>, AllocError>
    ensures { IfOk result (λ found. found ≡ first_of (rule_breaches rule.now)) }
{
    let many = breach_if(has_many_heads(rule), StaticRule::S6, rule.places.rule);
    let unaligned = first_unaligned(alloc, rule)?;
    Ok(earlier(earlier(many, unaligned), first_untested(rule)))
}

/// The first breach of rules, those of their heads aside.
pub fn first_in_rules(alloc: Global, rules: &[RuleTree]) -> Result<Option<Breach>, AllocError>
    ensures { IfOk result (λ found. found ≡ first_of (flat_map rule_breaches rules.now)) }
{
    let mut found = None;
    for rule in rules {
        found = earlier(found, first_in_rule(alloc, rule)?);
    }
    Ok(found)
}
