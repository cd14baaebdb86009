//! Terms that are kept by their parts, for what a look at nodes can't tell.

ghost use Rattle.std.specs.Prelude.{◌≡◌, [], ◌∷◌, ◌<◌, length, IfOk, OnErr};
ghost use Rattle.beta_fragment.specs.inside.Cells.{terms_of, term_at, cell_term, HasParts};

use crate::answer::RigidHead;
use level_terms::VarId;
use std::alloc::{AllocError, Global};
use std::marker::Model;

/// A term by its parts: each is the number of an older one.
#[derive(Clone, Copy)]
pub(crate) enum Cell {
    /// A head that no assignment changes.
    Rigid(RigidHead),
    /// A bound index.
    Bound(usize),
    /// A variable.
    Var(VarId),
    /// An abstraction.
    Lam(usize),
    /// An application to one argument.
    App(usize, usize),
}

/// Terms, each with a number: how many are older. Contracts see the cells newest first; `terms_of`
/// gives their terms.
#[derive(Drop)]
pub(crate) struct Cells {
    cells: Vec<Cell>,
}

impl Model for Cells {
    ghost use Rattle.std.specs.Prelude.{List};
    ghost use Rattle.beta_fragment.specs.declared.cells.Cell.{Cell as CellOf};
    ghost use Rattle.beta_fragment.specs.inside.Cells.{cells_view, AreCells};

    ghost Value = { List CellOf };

    ghost view = { cells_view };

    ghost invariant = { AreCells };
}

impl Cells {
    /// No term. Takes no memory.
    pub(crate) fn new(alloc: Global) -> Cells
        ensures { result ≡ [] }
    {
        Cells {
            cells: Vec::new(alloc),
        }
    }

    /// Adds a term.
    pub(crate) fn add(&mut self, cell: Cell) -> Result<usize, AllocError>
        requires { HasParts (length (terms_of self.old)) cell }
        ensures number { IfOk result (λ i. i ≡ length (terms_of self.old)) }
        ensures added { IfOk result (λ i. terms_of self.new ≡ cell_term (terms_of self.old) cell ∷ terms_of self.old) }
        ensures unchanged { OnErr result (self.new ≡ self.old) }
    {
        let i = self.cells.len();
        self.cells.push(cell)?;
        Ok(i)
    }

    /// What a term is.
    pub(crate) fn get(&self, i: usize) -> Cell
        requires { i < length (terms_of self.now) }
        ensures parts { HasParts i result }
        ensures term { term_at (terms_of self.now) i ≡ cell_term (terms_of self.now) result }
    {
        self.cells[i]
    }
}
