//! The lists of a context.

ghost use Rattle.std.specs.Prelude.{◌≡◌, ◌∷◌, [], length, IfOk};
ghost use Rattle.hyp_context.specs.Contexts.{hyps_for, changeable_hyps};
ghost use Rattle.hyp_context.specs.inside.Items.{items_of, left_of};

use crate::chain::Chain;
use crate::table::Table;
use hyp_clause::Hyp;
use ref_terms::Sym;
use std::alloc::{AllocError, Global};
use std::marker::Model;
use std::rc::Rc;

/// Assumptions, newest first, with their number and the lists of some of them. Contracts see the list
/// of all.
#[derive(Drop)]
pub(crate) struct Parts {
    all: Chain,
    count: usize,
    changeable: Chain,
    by_pred: Table,
}

impl Model for Parts {
    ghost use Rattle.std.specs.Prelude.{List};
    ghost use Rattle.hyp_clause.specs.declared.hyp.Hyp.{Hyp};

    ghost Value = { List Hyp };

    ghost use Rattle.hyp_context.specs.inside.View.{hyps_of, IsKept};

    ghost view = { hyps_of };

    ghost invariant = { IsKept };
}

impl Parts {
    /// No assumptions.
    pub fn empty() -> Parts
        ensures { result ≡ [] }
    {
        Parts {
            all: Chain::End,
            count: 0,
            changeable: Chain::End,
            by_pred: Table::Empty,
        }
    }

    /// The same assumptions, in constant time.
    pub fn copy(&self) -> Result<Parts, AllocError>
        ensures { IfOk result (λ p. p ≡ self.now) }
    {
        Ok(Parts {
            all: self.all.copy()?,
            count: self.count,
            changeable: self.changeable.copy()?,
            by_pred: self.by_pred.copy()?,
        })
    }

    /// These with one more in front.
    pub fn with(self, alloc: Global, hyp: Hyp) -> Result<Parts, AllocError>
        ensures { IfOk result (λ p. p ≡ hyp ∷ self) }
    {
        let count = self.count.checked_add(1).ok_or(AllocError)?;
        let pred = hyp.pred;
        let hyp = Rc::new(alloc, hyp)?;
        let by_pred = self.by_pred.with(alloc, pred.0, &hyp)?;
        let changeable = self.changeable.with_changeable(alloc, &hyp)?;
        let all = self.all.with(alloc, hyp)?;
        Ok(Parts {
            all,
            count,
            changeable,
            by_pred,
        })
    }

    /// How many there are.
    pub fn len(&self) -> usize
        ensures { result ≡ length self.now }
    {
        self.count
    }

    /// All of them.
    pub fn all(&self) -> &Chain
        ensures { items_of result.now ≡ self.now }
    {
        &self.all
    }

    /// Those in which something can change.
    pub fn changeable(&self) -> &Chain
        ensures { items_of result.now ≡ changeable_hyps self.now }
    {
        &self.changeable
    }

    /// Those of a predicate.
    pub fn find(&self, pred: Sym) -> Option<&Chain>
        ensures { left_of result ≡ hyps_for pred.0 self.now }
    {
        self.by_pred.find(pred.0)
    }
}
