//! Contexts.

ghost use Rattle.std.specs.Prelude.{◌≡◌, ◌≢◌, ◌∷◌, ◌++◌, [], length, IfOk, IfSome, IfNone, MatchOption};
ghost use Rattle.hyp_context.specs.Contexts.{hyps_for, changeable_hyps};

use crate::chain::Chain;
use crate::parts::Parts;
use hyp_clause::{Hyp, Hyps};
use ref_terms::Sym;
use std::alloc::{AllocError, Global};
use std::marker::Model;
use std::rc::Rc;

/// Assumptions, in the order in which they are tried. Contracts see their list.
#[derive(Drop)]
pub struct Context {
    alloc: Global,
    parts: Option<Rc<Parts>>,
}

impl Model for Context {
    ghost use Rattle.std.specs.Prelude.{List, []};
    ghost use Rattle.std.specs.Option.{option_map_or};
    ghost use Rattle.hyp_clause.specs.declared.hyp.Hyp.{Hyp};

    ghost Value = { List Hyp };

    ghost view = { λ c. option_map_or (λ p. p.value) c.parts [] };
}

impl Context {
    /// No assumptions. Takes no memory.
    pub fn empty(alloc: Global) -> Context
        ensures { result ≡ [] }
    {
        Context { alloc, parts: None }
    }

    /// The same assumptions, in constant time and without new memory. Answers `AllocError` where so
    /// many copies are there that they can't be counted.
    pub fn copy(&self) -> Result<Context, AllocError>
        ensures { IfOk result (λ c. c ≡ self.now) }
    {
        match &self.parts {
            None => Ok(Context {
                alloc: self.alloc,
                parts: None,
            }),
            Some(parts) => {
                let parts = parts.clone()?;
                Ok(Context {
                    alloc: self.alloc,
                    parts: Some(parts),
                })
            }
        }
    }

    /// The lists of the context, in constant time.
    fn lists(&self) -> Result<Parts, AllocError>
        ensures { IfOk result (λ p. p ≡ self.now) }
    {
        match &self.parts {
            None => Ok(Parts::empty()),
            Some(parts) => parts.copy(),
        }
    }

    /// The context with these assumptions in front. For each it takes the time and the memory of the
    /// binary digits of its predicate's number, however many there are. Answers `AllocError` on want
    /// of memory alone.
    pub fn assume(context: &Context, hyps: Hyps) -> Result<Context, AllocError>
        ensures { IfOk result (λ c. c ≡ hyps ++ context.now) }
    {
        let mut parts = context.lists()?;
        let mut left = hyps.into_vec();
        while let Some(hyp) = left.pop() {
            parts = parts.with(context.alloc, hyp)?;
        }
        let parts = Rc::new(context.alloc, parts)?;
        Ok(Context {
            alloc: context.alloc,
            parts: Some(parts),
        })
    }

    /// The number of assumptions. Takes no memory.
    pub fn len(&self) -> usize
        ensures { result ≡ length self.now }
    {
        match &self.parts {
            None => 0,
            Some(parts) => parts.len(),
        }
    }

    /// All assumptions. Takes no memory.
    pub fn iter(&self) -> HypIter<'_>
        ensures { result ≡ self.now }
    {
        match &self.parts {
            None => HypIter { rest: None },
            Some(parts) => HypIter {
                rest: Some(parts.all()),
            },
        }
    }

    /// Those in which something can change, since a variable or an applied abstraction stands in them;
    /// no other is looked at. Takes no memory.
    pub fn changeable(&self) -> HypIter<'_>
        ensures { result ≡ changeable_hyps self.now }
    {
        match &self.parts {
            None => HypIter { rest: None },
            Some(parts) => HypIter {
                rest: Some(parts.changeable()),
            },
        }
    }

    /// Those of a predicate; no other is looked at. It takes the time of the binary digits of the
    /// predicate's number, and no memory.
    pub fn for_pred(&self, pred: Sym) -> HypIter<'_>
        ensures { result ≡ hyps_for pred.0 self.now }
    {
        match &self.parts {
            None => HypIter { rest: None },
            Some(parts) => HypIter {
                rest: parts.find(pred),
            },
        }
    }
}

/// Assumptions that are gone through. Contracts see the list of those that are left.
#[derive(Drop)]
pub struct HypIter<'a> {
    rest: Option<&'a Chain>,
}

impl<'a> Model for HypIter<'a> {
    ghost use Rattle.std.specs.Prelude.{List};
    ghost use Rattle.hyp_clause.specs.declared.hyp.Hyp.{Hyp};

    ghost Value = { List Hyp };

    ghost use Rattle.hyp_context.specs.inside.Items.{left_of};

    ghost view = { λ it. left_of it.rest };
}

impl<'a> HypIter<'a> {
    /// What is left, kept apart, in constant time and without new memory; none exactly where none is
    /// left. Answers `AllocError` where so many copies are there that they can't be counted.
    pub fn tail(&self) -> Result<Option<HypTail>, AllocError>
        ensures { IfOk result (λ o. MatchOption o (self.now ≡ []) (λ t. (t ≡ self.now) × (t ≢ []))) }
    {
        match self.rest {
            None => Ok(None),
            Some(Chain::End) => Ok(None),
            Some(chain) => {
                let chain = chain.copy()?;
                Ok(Some(HypTail { chain }))
            }
        }
    }

    /// The next one; none exactly where none is left. Takes constant time, and no memory.
    pub fn next(&mut self) -> Option<&'a Hyp>
        ensures some { IfSome result (λ h. self.old ≡ h.now ∷ self.new) }
        ensures none { IfNone result (self.old ≡ []) }
    {
        let rest = self.rest;
        match rest {
            None => None,
            Some(Chain::End) => None,
            Some(Chain::Link(entry)) => {
                self.rest = Some(&entry.older);
                Some(&entry.hyp)
            }
        }
    }
}

/// Assumptions that are kept to be gone through later. Contracts see their list.
#[derive(Drop)]
pub struct HypTail {
    chain: Chain,
}

impl Model for HypTail {
    ghost use Rattle.std.specs.Prelude.{List};
    ghost use Rattle.hyp_clause.specs.declared.hyp.Hyp.{Hyp};

    ghost Value = { List Hyp };

    ghost use Rattle.hyp_context.specs.inside.Items.{items_of};

    ghost view = { λ t. items_of t.chain };
}

impl HypTail {
    /// All of them. Takes no memory.
    pub fn iter(&self) -> HypIter<'_>
        ensures { result ≡ self.now }
    {
        HypIter {
            rest: Some(&self.chain),
        }
    }
}
