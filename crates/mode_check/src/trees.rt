//! What trees are, seen from their root.
ghost use Rattle.std.specs.Prelude.{◌≡◌};
ghost use Rattle.lp_resolve.specs.Heads.{variable_of};
ghost use Rattle.lp_resolve.specs.Occurrences.{walked};

use ref_terms::{Head, Tree};

/// The number of the variable that a tree is, without arguments.
pub fn variable_of(tree: &Tree) -> Option<usize>
    ensures { result ≡ variable_of tree.now }
{
    match tree {
        Tree::Ap(Head::ClauseVar(variable), args) if args.len() == 0 => Some(*variable),
        _ => None,
    }
}

/// The bound name that a tree is, without arguments.
pub fn bound_name_of(tree: &Tree) -> Option<usize>
    ensures { result ≡ (walked tree.now).name }
{
    match tree {
        Tree::Ap(Head::Bound(name), args) if args.len() == 0 => Some(*name),
        _ => None,
    }
}
