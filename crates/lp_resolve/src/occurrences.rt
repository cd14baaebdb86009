//! Counts the variables of trees at their places.
ghost use Rattle.std.specs.Prelude.{◌≡◌, ℕ, ◌+◌, length, Option, List, [], IfOk, sum_by};
ghost use Rattle.lp_resolve.specs.Occurrences.{Walked, Front, front_places, head_walked, occurrences};

use ref_terms::{Head, Tree};
use std::alloc::AllocError;

// The sum; want of memory, where it passes the machine's numbers.
fn added(left: usize, right: usize) -> Result<usize, AllocError>
    ensures { IfOk result (λ sum. sum ≡ left + right) }
{
    match left.checked_add(right) {
        Some(sum) => Ok(sum),
        None => Err(AllocError),
    }
}

/// At how many places of a tree variables stand.
///
/// Errors: want of memory, where they pass the machine's numbers.
#[cycle(counted)]
pub fn count_variables(tree: &Tree) -> Result<usize, AllocError>
    ensures { IfOk result (λ count. count ≡ length (occurrences tree.now)) }
{
    match tree {
        Tree::Lam(body) => count_variables(body.get()),
        Tree::Ap(head, args) => added(count_at_head(head)?, count_all(args.as_slice())?),
    }
}

// The same of a head, without its arguments.
#[cycle(counted)]
fn count_at_head(head: &Head) -> Result<usize, AllocError>
    ensures { IfOk result (λ count. (spine : List (Option ℕ)) → count ≡ length (front_places (head_walked head.now) spine)) }
{
    match head {
        Head::Con(_) => Ok(0),
        Head::Int(_) => Ok(0),
        Head::Str(_) => Ok(0),
        Head::Bound(_) => Ok(0),
        Head::ClauseVar(_) => Ok(1),
        Head::Stuck(abstraction) => count_variables(abstraction.get()),
    }
}

// The same of trees, all together.
#[cycle(counted)]
fn count_all(trees: &[Tree]) -> Result<usize, AllocError>
    ensures { IfOk result (λ count. count ≡ sum_by (λ tree. length (occurrences tree)) trees.now) }
{
    let mut count = 0;
    for tree in trees {
        count = added(count, count_variables(tree)?)?;
    }
    Ok(count)
}
