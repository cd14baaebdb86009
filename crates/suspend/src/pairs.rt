//! Pairs of a rule and constraints, found by a hash.

ghost use Rattle.std.specs.Prelude.{◌≡◌, ◌<◌, false, [], ◌∷◌, ◌++◌, length, OnOk, OnErr};
ghost use Rattle.suspend.specs.Store.{has_fired};

use crate::constraint::Fired;
use indexmap::IndexSet;
use std::alloc::{AllocError, Global};
use std::marker::Model;

/// Pairs, none twice. Contracts see them as a list, oldest first.
#[derive(Drop)]
pub(crate) struct Pairs {
    set: IndexSet<Fired>,
}

impl Model for Pairs {
    ghost use Rattle.std.specs.Prelude.{List};
    ghost use Rattle.suspend.specs.declared.constraint.Fired.{Fired as Pair};

    ghost Value = { List Pair };

    ghost view = { λ p. p.set.keys };
}

impl Pairs {
    /// No pairs. Takes no memory.
    pub(crate) fn new(alloc: Global) -> Pairs
        ensures { result ≡ [] }
    {
        Pairs {
            set: IndexSet::new(alloc),
        }
    }

    /// Puts a new pair last. Answers `AllocError` on want of memory alone.
    pub(crate) fn push(&mut self, pair: Fired) -> Result<(), AllocError>
        requires { has_fired self.old pair ≡ false }
        ensures ok { OnOk result (self.new ≡ self.old ++ pair ∷ []) }
        ensures err { OnErr result (self.new ≡ self.old) }
    {
        self.set.insert(pair)?;
        Ok(())
    }

    /// Whether a pair is one of these.
    pub(crate) fn has(&self, pair: &Fired) -> bool
        ensures { result ≡ has_fired self.now pair.now }
    {
        self.set.contains(pair)
    }

    /// Takes the last pair out. Takes no memory.
    pub(crate) fn drop_last(&mut self)
        requires { 0 < length self.old }
        ensures { (last : Fired) × (self.old ≡ self.new ++ last ∷ []) }
    {
        let _last = self.set.pop();
    }
}
