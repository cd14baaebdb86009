//! Equality of terms that are kept by their parts.

ghost use Rattle.std.specs.Prelude.{◌≡◌, ◌<◌, ◌↔◌, List, length, IfOk, IsTrue};
ghost use Rattle.ref_terms.specs.terms.Term.{Term};
ghost use Rattle.beta_fragment.specs.HeadForm.{rigid_head};
ghost use Rattle.beta_fragment.specs.inside.Cells.{terms_of, term_at};
ghost use Rattle.beta_fragment.specs.inside.Compared.{IsLikeness, ComesTo, told_by};

use crate::answer::RigidHead;
use crate::cells::{Cell, Cells};
use std::alloc::{AllocError, Global};

/// The numbers of two terms that are compared.
#[derive(Clone, Copy)]
pub(crate) struct Sides {
    left: usize,
    right: usize,
}

/// What two cells tell of their terms.
#[derive(Clone, Copy)]
enum Likeness {
    /// They are equal.
    Equal,
    /// They differ.
    Differ,
    /// They are abstractions of these bodies.
    Bodies(Sides),
    /// They are applications of the first two to the others.
    Parts(Sides, Sides),
}

/// Whether two terms are equal.
pub(crate) fn are_equal(
    alloc: Global,
    cells: &Cells,
    a: usize,
    b: usize,
) -> Result<bool, AllocError>
    requires left { a < length (terms_of cells.now) }
    requires right { b < length (terms_of cells.now) }
    ensures { IfOk result (λ e. IsTrue e ↔ (term_at (terms_of cells.now) a ≡ term_at (terms_of cells.now) b)) }
{
    let mut work = Vec::new(alloc);
    work.push(Sides { left: a, right: b })?;
    while let Some(sides) = work.pop() {
        if !compared(cells, sides, &mut work)? {
            return Ok(false);
        }
    }
    Ok(true)
}

/// Compares two terms but for their parts, which it puts onto the work list.
fn compared(cells: &Cells, sides: Sides, work: &mut Vec<Sides>) -> Result<bool, AllocError>
    requires left { sides.left < length (terms_of cells.now) }
    requires right { sides.right < length (terms_of cells.now) }
    ensures { IfOk result (λ e. ComesTo (terms_of cells.now) sides work.old.items work.new.items e) }
{
    if sides.left == sides.right {
        return Ok(true);
    }
    let left = cells.get(sides.left);
    let right = cells.get(sides.right);
    match likeness_of(left, right) {
        Likeness::Equal => Ok(true),
        Likeness::Differ => Ok(false),
        Likeness::Bodies(bodies) => {
            work.push(bodies)?;
            Ok(true)
        }
        Likeness::Parts(heads, args) => {
            work.push(args)?;
            work.push(heads)?;
            Ok(true)
        }
    }
}

/// What two cells tell of their terms.
fn likeness_of(a: Cell, b: Cell) -> Likeness
    ensures { (ts : List Term) → IsLikeness ts a b result }
{
    match a {
        Cell::Rigid(h) => match b {
            Cell::Rigid(k) => told(same_head(h, k)),
            _ => Likeness::Differ,
        },
        Cell::Bound(i) => match b {
            Cell::Bound(j) => told(i == j),
            _ => Likeness::Differ,
        },
        Cell::Var(v) => match b {
            Cell::Var(w) => told(v.index == w.index),
            _ => Likeness::Differ,
        },
        Cell::Lam(body) => match b {
            Cell::Lam(other) => Likeness::Bodies(Sides {
                left: body,
                right: other,
            }),
            _ => Likeness::Differ,
        },
        Cell::App(f, x) => match b {
            Cell::App(g, y) => Likeness::Parts(
                Sides { left: f, right: g },
                Sides { left: x, right: y },
            ),
            _ => Likeness::Differ,
        },
    }
}

/// What a test of equality tells.
fn told(equal: bool) -> Likeness
    ensures { result ≡ told_by equal }
{
    if equal {
        Likeness::Equal
    } else {
        Likeness::Differ
    }
}

/// Whether two heads are equal.
pub(crate) fn same_head(a: RigidHead, b: RigidHead) -> bool
    ensures { IsTrue result ↔ (rigid_head a ≡ rigid_head b) }
{
    a == b
}
