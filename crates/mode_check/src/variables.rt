//! The variables of a head whose arguments aren't distinct bound names.
ghost use Rattle.std.specs.Prelude.{◌≡◌, ◌++◌, not, map, flat_map, IfOk, OnOk};
ghost use Rattle.std.specs.List.{zip};
ghost use Rattle.lp_resolve.specs.Occurrences.{walked, head_walked, front_places, occurrences, are_distinct_names};
ghost use Rattle.lp_resolve.specs.StaticRules.{where_true, breaches_at, first_of};
ghost use Rattle.lp_resolve.specs.declared.static_rule.StaticRule.TheVariants.{S4};

use crate::breach::{Breach, breach_if, earlier};
use crate::names::are_distinct_names;
use lp_parser::Place;
use lp_resolve::StaticRule;
use ref_terms::{Head, Tree};
use std::alloc::{AllocError, Global};

// Notes for each variable of a tree, from the left, whether its arguments are distinct bound names.
#[cycle(noted)]
fn note_tree(alloc: Global, tree: &Tree, usable: &mut Vec<bool>) -> Result<(), AllocError>
    ensures { OnOk result (usable.new.items ≡ usable.old.items ++ map (λ o. are_distinct_names o.spine) (occurrences tree.now)) }
{
    match tree {
        Tree::Lam(body) => note_tree(alloc, body.get(), usable),
        Tree::Ap(head, args) => {
            note_front(alloc, head, args.as_slice(), usable)?;
            note_all(alloc, args.as_slice(), usable)
        }
    }
}

// The same of a head, which has these arguments.
#[cycle(noted)]
fn note_front(
    alloc: Global,
    head: &Head,
    args: &[Tree],
    usable: &mut Vec<bool>,
) -> Result<(), AllocError>
    ensures { OnOk result (usable.new.items ≡ usable.old.items ++ map (λ o. are_distinct_names o.spine)
        (front_places (head_walked head.now) (map (λ arg. (walked arg).name) args.now))) }
{
    match head {
        Head::Con(_) => Ok(()),
        Head::Int(_) => Ok(()),
        Head::Str(_) => Ok(()),
        Head::Bound(_) => Ok(()),
        Head::ClauseVar(_) => {
            usable.push(are_distinct_names(alloc, args)?)?;
            Ok(())
        }
        Head::Stuck(abstraction) => note_tree(alloc, abstraction.get(), usable),
    }
}

// The same of each of the trees.
#[cycle(noted)]
fn note_all(alloc: Global, trees: &[Tree], usable: &mut Vec<bool>) -> Result<(), AllocError>
    ensures { OnOk result (usable.new.items ≡ usable.old.items ++ map (λ o. are_distinct_names o.spine) (flat_map occurrences trees.now)) }
{
    for tree in trees {
        note_tree(alloc, tree, usable)?;
    }
    Ok(())
}

// The first breach of S4 at these tokens, where it is known of each variable whether its arguments are distinct bound names.
fn first_marked(usable: &[bool], vars: &[Place]) -> Option<Breach>
    ensures { result ≡ first_of (breaches_at S4 (where_true not (zip usable.now vars.now))) }
{
    let mut found = None;
    for index in 0..usable.len().min(vars.len()) {
        found = earlier(
            found,
            breach_if(!usable[index], StaticRule::S4, vars[index]),
        );
    }
    found
}

/// The first variable of a head whose arguments aren't distinct bound names, as a breach of S4; the head's variables have these tokens.
pub fn first_unusable(
    alloc: Global,
    tree: &Tree,
    vars: &[Place],
) -> Result<Option<Breach>, AllocError>
    ensures { IfOk result (λ found. found ≡ first_of (breaches_at S4 (where_true (λ o. not (are_distinct_names o.spine)) (zip (occurrences tree.now) vars.now)))) }
{
    let mut usable = Vec::new(alloc);
    note_tree(alloc, tree, &mut usable)?;
    Ok(first_marked(&usable, vars))
}
