//! The positions of a spine that a variable keeps.

ghost use Rattle.std.specs.Prelude.{◌≡◌, map, length, cond, IfOk, Some, None};
ghost use Rattle.std.specs.List.{list_any};
ghost use Rattle.ref_terms.specs.unification.Pattern.{of_name, same_name};
ghost use Rattle.ref_terms.specs.unification.Positions.{agreeing, shared, position, positions_of, all_but};
ghost use Rattle.beta_fragment.specs.Names.{AllBelow};

use std::alloc::{AllocError, Global};

/// Those at which both spines have one name.
pub(crate) fn agreeing(alloc: Global, xs: &[usize], ys: &[usize]) -> Result<Vec<usize>, AllocError>
    requires { length xs.now ≡ length ys.now }
    ensures positions { IfOk result (λ ks. ks.items ≡ agreeing 0 (map of_name xs.now) (map of_name ys.now)) }
    ensures below { IfOk result (λ ks. AllBelow ks.items (length xs.now)) }
{
    let mut kept = Vec::new(alloc);
    for i in 0..xs.len() {
        if xs[i] == ys[i] {
            kept.push(i)?;
        }
    }
    Ok(kept)
}

/// Those of the left spine whose names stand in the right one too.
pub(crate) fn shared(alloc: Global, xs: &[usize], ys: &[usize]) -> Result<Vec<usize>, AllocError>
    ensures positions { IfOk result (λ ks. ks.items ≡ shared 0 (map of_name xs.now) (map of_name ys.now)) }
    ensures below { IfOk result (λ ks. AllBelow ks.items (length xs.now)) }
{
    let mut kept = Vec::new(alloc);
    for i in 0..xs.len() {
        if ys.contains(&xs[i]) {
            kept.push(i)?;
        }
    }
    Ok(kept)
}

/// Where the names that both spines have stand in the right one, in the order of the left one.
pub(crate) fn positions_of(
    alloc: Global,
    xs: &[usize],
    ys: &[usize],
) -> Result<Vec<usize>, AllocError>
    ensures positions { IfOk result (λ ks. ks.items ≡ positions_of 0 (map of_name xs.now) (map of_name ys.now)) }
    ensures below { IfOk result (λ ks. AllBelow ks.items (length ys.now)) }
{
    let mut kept = Vec::new(alloc);
    for x in xs {
        if let Some(k) = position_of(*x, ys) {
            kept.push(k)?;
        }
    }
    Ok(kept)
}

/// Where the name stands in the spine, if it does.
fn position_of(x: usize, ys: &[usize]) -> Option<usize>
    ensures { result ≡ cond (list_any (same_name (of_name x)) (map of_name ys.now)) (Some (position 0 (of_name x) (map of_name ys.now))) None }
{
    ys.iter().position(|y| *y == x)
}

/// All of so many but one.
pub(crate) fn all_but(
    alloc: Global,
    position: usize,
    arity: usize,
) -> Result<Vec<usize>, AllocError>
    ensures positions { IfOk result (λ ks. ks.items ≡ all_but position arity) }
    ensures below { IfOk result (λ ks. AllBelow ks.items arity) }
{
    let mut kept = Vec::new(alloc);
    for k in 0..arity {
        if k != position {
            kept.push(k)?;
        }
    }
    Ok(kept)
}
