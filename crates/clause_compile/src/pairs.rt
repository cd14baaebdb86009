//! The pairs of a rule, by the arguments that they align.

ghost use Rattle.std.specs.Prelude.{◌≡◌, ◌<◌, ◌++◌, ◌∷◌, [], nat_eq, false, map, length, IfOk, IfSome, OnOk};
ghost use Rattle.std.specs.List.{filter_map};
ghost use Rattle.std.specs.Option.{option_map_or};
ghost use Rattle.lp_resolve.specs.Heads.{variable_of};
ghost use Rattle.lp_resolve.specs.Plain.{whole_argument, whole_place, plain_pair};
ghost use Rattle.lp_resolve.specs.StaticRules.{goals_of};

use lp_resolve::{HeadTree, PairTree, RuleTree, args_of};
use ref_terms::{Head, Pair, Sequence, Tree};
use std::alloc::{AllocError, Global};

/// Whether a tree is this variable alone.
fn is_variable(tree: &Tree, variable: usize) -> bool
    ensures { result ≡ option_map_or (nat_eq variable) (variable_of tree.now) false }
{
    match tree {
        Tree::Ap(Head::ClauseVar(other), args) if args.len() == 0 => variable == *other,
        _ => false,
    }
}

/// The first argument of a goal that is this variable alone, counted from 0.
fn whole_argument(goal: &Tree, variable: usize) -> Option<usize>
    ensures { result ≡ whole_argument variable goal.now }
{
    args_of(goal)
        .iter()
        .position(|arg| is_variable(arg, variable))
}

/// The first of these heads with this variable as a whole argument, and the first such argument, both
/// counted from 0.
fn place_among(heads: &[HeadTree], variable: usize) -> Option<(usize, usize)>
    ensures place { result ≡ whole_place variable 0 (map (λ h. h.goal) heads.now) }
    ensures there { IfSome result (λ p. p.0 < length heads.now) }
{
    let mut at = 0;
    while at < heads.len() {
        if let Some(arg) = whole_argument(&heads[at].goal, variable) {
            return Some((at, arg));
        }
        at += 1;
    }
    None
}

/// The first head of a rule, kept ones first, with this variable as a whole argument, and the first
/// such argument, both counted from 0.
fn place_in(rule: &RuleTree, variable: usize) -> Option<(usize, usize)>
    ensures { result ≡ whole_place variable 0 (goals_of rule.now) }
{
    let kept = rule.kept.as_slice();
    let removed = rule.removed.as_slice();
    match place_among(kept, variable) {
        Some(place) => Some(place),
        None => match place_among(removed, variable) {
            Some((head, arg)) => Some((kept.len() + head, arg)),
            None => None,
        },
    }
}

/// The arguments that a pair of a rule aligns.
fn pair_in(rule: &RuleTree, pair: &PairTree) -> Option<Pair>
    ensures { result ≡ plain_pair (goals_of rule.now) pair.now }
{
    let left = place_in(rule, pair.left);
    let right = place_in(rule, pair.right);
    match (left, right) {
        (Some((left_head, left_arg)), Some((right_head, right_arg))) => Some(Pair {
            left_head,
            left_arg,
            right_head,
            right_arg,
        }),
        _ => None,
    }
}

/// Puts the arguments that a pair of a rule aligns last.
fn add_pair(pairs: &mut Sequence<Pair>, rule: &RuleTree, pair: &PairTree) -> Result<(), AllocError>
    ensures { OnOk result (pairs.new ≡ pairs.old ++ filter_map (plain_pair (goals_of rule.now)) (pair.now ∷ [])) }
{
    match pair_in(rule, pair) {
        Some(aligned) => {
            pairs.push(aligned)?;
            Ok(())
        }
        None => Ok(()),
    }
}

/// The arguments that the pairs of a rule align.
pub(crate) fn pairs_in(alloc: Global, rule: &RuleTree) -> Result<Sequence<Pair>, AllocError>
    ensures { IfOk result (λ pairs. pairs ≡ filter_map (plain_pair (goals_of rule.now)) rule.now.pairs) }
{
    let mut pairs = Sequence::new(alloc);
    for pair in rule.pairs.as_slice() {
        add_pair(&mut pairs, rule, pair)?;
    }
    Ok(pairs)
}
