//! What stands at the head of a tree, and its arguments.
ghost use Rattle.std.specs.Prelude.{◌≡◌, option_map, length};
ghost use Rattle.lp_resolve.specs.Heads.{constant_of, args_of};

use ref_terms::{Head, Sym, Tree};

/// The constant at the head of a tree, where one stands there.
pub fn constant_of(tree: &Tree) -> Option<Sym>
    ensures { option_map (λ symbol. symbol.0) result ≡ constant_of tree.now }
{
    match tree {
        Tree::Ap(Head::Con(symbol), _) => Some(*symbol),
        Tree::Ap(_, _) => None,
        Tree::Lam(_) => None,
    }
}

/// The arguments of a tree, from the left; an abstraction has none.
pub fn args_of(tree: &Tree) -> &[Tree]
    ensures { result.now ≡ args_of tree.now }
{
    match tree {
        Tree::Ap(_, args) => args.as_slice(),
        Tree::Lam(_) => &[],
    }
}

/// How many arguments a tree has.
pub fn arity_of(tree: &Tree) -> usize
    ensures { result ≡ length (args_of tree.now) }
{
    match tree {
        Tree::Ap(_, args) => args.len(),
        Tree::Lam(_) => 0,
    }
}
