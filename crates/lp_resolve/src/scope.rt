//! The words that are bound around a term.
ghost use Rattle.std.specs.Prelude.{◌≡◌, ◌<◌, [], ◌∷◌, length, drop, nat_eq, position, OnOk, IfOk};

use indexmap::IndexMap;
use ref_terms::Sym;
use std::alloc::{AllocError, Global};
use std::marker::Model;

// A word that is bound, and how many binders stand outside the one that it hides, if it hides one.
#[derive(Clone, Copy, Debug, PartialEq, Eq)]
pub(crate) struct Binder {
    word: usize,
    hidden: Option<usize>,
}

/// The words that are bound around a term, which contracts see as the list of their numbers, innermost first.
#[derive(Debug, Drop)]
pub(crate) struct Scope {
    // Outermost first.
    binders: Vec<Binder>,
    // For each bound word how many binders stand outside its nearest one.
    nearest: IndexMap<usize, usize>,
}

impl Model for Scope {
    ghost use Rattle.std.specs.Prelude.{List, ℕ, nat_eq, reverse};
    ghost use Rattle.indexmap.specs.IndexMap.{get};

    ghost Value = { List ℕ };

    ghost use Rattle.lp_resolve.specs.inside.Scopes.{words_of, IsScope};

    ghost view = { λ scope. words_of (reverse scope.binders.items) };

    ghost invariant = { λ scope. IsScope (reverse scope.binders.items) (λ word. get nat_eq scope.nearest word) };
}

impl Scope {
    /// No bound word. Takes no memory.
    pub(crate) fn new(alloc: Global) -> Scope
        ensures { result ≡ [] }
    {
        Scope {
            binders: Vec::new(alloc),
            nearest: IndexMap::new(alloc),
        }
    }

    /// How many binders stand between a word and the nearest one that binds it, if any does. Takes no memory.
    pub(crate) fn index_of(&self, word: Sym) -> Option<usize>
        ensures { result ≡ position (nat_eq word.0) self.now }
    {
        match self.nearest.get(&word.0) {
            Some(level) => Some(self.binders.len() - 1 - *level),
            None => None,
        }
    }

    /// Binds a word. After want of memory the scope is as before.
    pub(crate) fn enter(&mut self, word: Sym) -> Result<(), AllocError>
        ensures { OnOk result (self.new ≡ word.0 ∷ self.old) }
    {
        let level = self.binders.len();
        let hidden = self.nearest.get(&word.0).copied();
        self.binders.push(Binder {
            word: word.0,
            hidden,
        })?;
        match self.nearest.insert(word.0, level) {
            Ok(_) => Ok(()),
            Err(_) => {
                self.binders.pop();
                Err(AllocError)
            }
        }
    }

    /// Leaves the innermost binder. Takes no memory.
    pub(crate) fn leave(&mut self)
        requires { 0 < length self.old }
        ensures { self.new ≡ drop 1 self.old }
    {
        let Some(binder) = self.binders.pop() else {
            return;
        };
        match binder.hidden {
            Some(level) => {
                if let Some(nearest) = self.nearest.get_mut(&binder.word) {
                    *nearest = level;
                }
            }
            None => {
                self.nearest.swap_remove(&binder.word);
            }
        }
    }
}
