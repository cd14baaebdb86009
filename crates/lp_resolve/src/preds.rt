//! Predicates by their symbols.
ghost use Rattle.std.specs.Prelude.{◌≡◌, [], OnOk, OnErr, IfOk};
ghost use Rattle.std.specs.Option.{option_copied};
ghost use Rattle.lp_resolve.specs.Preds.{pred_at, with_pred};

use crate::program::Pred;
use indexmap::IndexMap;
use ref_terms::Sym;
use std::alloc::{AllocError, Global};
use std::marker::Model;

/// The predicates of a program, which contracts see as the list of their symbols' numbers with what each is, in
/// the order in which they were put in.
#[derive(Debug, Drop)]
pub struct Preds {
    by_symbol: IndexMap<usize, Pred>,
}

impl Model for Preds {
    ghost use Rattle.std.specs.Prelude.{List, ℕ};
    ghost use Rattle.lp_resolve.specs.declared.program.Pred.{Pred};

    ghost Value = { List (ℕ × Pred) };

    ghost view = { λ preds. preds.by_symbol.entries };
}

impl Preds {
    /// No predicate. Takes no memory.
    pub fn new(alloc: Global) -> Preds
        ensures { result ≡ [] }
    {
        Preds {
            by_symbol: IndexMap::new(alloc),
        }
    }

    /// What this symbol is as a predicate. Takes no memory.
    pub fn get(&self, name: Sym) -> Option<&Pred>
        ensures { option_copied result ≡ pred_at name.0 self.now }
    {
        self.by_symbol.get(&name.0)
    }

    /// Makes the symbol this predicate; a new one goes last. For want of memory alone it fails, and then changes nothing.
    pub fn insert(&mut self, name: Sym, pred: Pred) -> Result<(), AllocError>
        ensures ok { OnOk result (self.new ≡ with_pred name.0 pred self.old) }
        ensures err { OnErr result (self.new ≡ self.old) }
    {
        self.by_symbol.insert(name.0, pred)?;
        Ok(())
    }
}
