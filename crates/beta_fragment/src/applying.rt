//! Application and abstraction of terms that are kept by their parts.

ghost use Rattle.std.specs.Prelude.{◌≡◌, ◌<◌, List, length, IfOk};
ghost use Rattle.ref_terms.specs.terms.Term as term;
ghost use Rattle.ref_terms.specs.terms.Term.{Term};
ghost use Rattle.ref_terms.specs.terms.Apply.{apply};
ghost use Rattle.ref_terms.specs.terms.Eta.{lam, eta};
ghost use Rattle.ref_terms.specs.terms.Ready.{ready};
ghost use Rattle.beta_fragment.specs.inside.Cells.{IsNoApp, terms_of, term_at, cell_term, Gains, IsKept, IsKeptIfAny};
ghost use Rattle.beta_fragment.specs.inside.Taking.{IsFirstIndex};

use crate::cells::{Cell, Cells};
use crate::taking::{lowered_term, opened_term};
use std::alloc::{AllocError, Global};

/// Whether an abstraction takes the term: no abstraction and no variable is at its head.
fn is_ready(cells: &Cells, t: usize) -> bool
    requires { t < length (terms_of cells.now) }
    ensures { ready (term_at (terms_of cells.now) t) ≡ result }
{
    let mut head = t;
    while let Cell::App(f, _) = cells.get(head) {
        head = f;
    }
    is_ready_cell(cells.get(head))
}

/// The same of a term that is no application.
fn is_ready_cell(cell: Cell) -> bool
    requires { IsNoApp cell }
    ensures { (ts : List Term) → ready (cell_term ts cell) ≡ result }
{
    match cell {
        Cell::Rigid(_) => true,
        Cell::Bound(_) => true,
        Cell::Var(_) => false,
        Cell::Lam(_) => false,
        Cell::App(_, _) => unreachable!(),
    }
}

/// The abstraction of a body, applied.
fn applied_lam(
    alloc: Global,
    cells: &mut Cells,
    f: usize,
    body: usize,
    a: usize,
) -> Result<usize, AllocError>
    requires function { f < length (terms_of cells.old) }
    requires body { body < f }
    requires here { term_at (terms_of cells.old) f ≡ term.Lam (term_at (terms_of cells.old) body) }
    requires argument { a < length (terms_of cells.old) }
    ensures applied { IfOk result (λ r. IsKept (terms_of cells.new) r (apply (term_at (terms_of cells.old) f) (term_at (terms_of cells.old) a))) }
    ensures gains { Gains (terms_of cells.old) (terms_of cells.new) }
{
    if is_ready(cells, a) {
        return opened_term(alloc, cells, body, a);
    }
    cells.add(Cell::App(f, a))
}

/// The application: an abstraction takes an argument that is ready.
pub(crate) fn applied_term(
    alloc: Global,
    cells: &mut Cells,
    f: usize,
    a: usize,
) -> Result<usize, AllocError>
    requires function { f < length (terms_of cells.old) }
    requires argument { a < length (terms_of cells.old) }
    ensures applied { IfOk result (λ r. IsKept (terms_of cells.new) r (apply (term_at (terms_of cells.old) f) (term_at (terms_of cells.old) a))) }
    ensures gains { Gains (terms_of cells.old) (terms_of cells.new) }
{
    match cells.get(f) {
        Cell::Lam(body) => applied_lam(alloc, cells, f, body, a),
        Cell::Rigid(_) => cells.add(Cell::App(f, a)),
        Cell::Bound(_) => cells.add(Cell::App(f, a)),
        Cell::Var(_) => cells.add(Cell::App(f, a)),
        Cell::App(_, _) => cells.add(Cell::App(f, a)),
    }
}

/// Whether the cell is of index 0.
fn is_first_index(cell: Cell) -> bool
    ensures { IsFirstIndex result cell }
{
    match cell {
        Cell::Bound(i) => i == 0,
        _ => false,
    }
}

/// What the abstraction of a body contracts to by η, if it does.
fn contracted(alloc: Global, cells: &mut Cells, body: usize) -> Result<Option<usize>, AllocError>
    requires { body < length (terms_of cells.old) }
    ensures contracted { IfOk result (λ o. IsKeptIfAny (terms_of cells.new) o (eta (term_at (terms_of cells.old) body))) }
    ensures gains { Gains (terms_of cells.old) (terms_of cells.new) }
{
    match cells.get(body) {
        Cell::App(f, a) => {
            if is_first_index(cells.get(a)) {
                return lowered_term(alloc, cells, f);
            }
            Ok(None)
        }
        _ => Ok(None),
    }
}

/// The abstraction over index 0, contracted by η where it can be.
pub(crate) fn abstracted_term(
    alloc: Global,
    cells: &mut Cells,
    body: usize,
) -> Result<usize, AllocError>
    requires { body < length (terms_of cells.old) }
    ensures abstracted { IfOk result (λ r. IsKept (terms_of cells.new) r (lam (term_at (terms_of cells.old) body))) }
    ensures gains { Gains (terms_of cells.old) (terms_of cells.new) }
{
    match contracted(alloc, cells, body)? {
        Some(t) => Ok(t),
        None => cells.add(Cell::Lam(body)),
    }
}
