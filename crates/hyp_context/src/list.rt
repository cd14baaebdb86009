//! A context as a list.

ghost use Rattle.std.specs.Prelude.{◌≡◌, ◌++◌, ◌∷◌, [], ℕ, nat_eq, map, IfOk, OnOk};
ghost use Rattle.std.specs.List.{list_any};
ghost use Rattle.ref_terms.specs.terms.Term.{At, App, Con};
ghost use Rattle.ref_terms.specs.search.Lists.{list_term};
ghost use Rattle.level_terms.specs.Growth.{Grows};
ghost use Rattle.level_terms.specs.Reading.{read};
ghost use Rattle.level_terms.specs.Valid.{IsValid};
ghost use Rattle.beta_fragment.specs.Names.{names};
ghost use Rattle.beta_fragment.specs.HeadForm.{all_read, AllValidAt};
ghost use Rattle.hyp_clause.specs.Hyps.{assumption_in, AllHypsValid};
ghost use Rattle.hyp_context.specs.Contexts.{AllWithinDepth};
ghost use Rattle.hyp_context.specs.Lists.{assumed_list, numbers_of};
ghost use Rattle.hyp_context.specs.inside.Assumed.{assumed_nodes};

use crate::context::Context;
use hyp_clause::{Hyp, constant, constant_applied};
use level_terms::{Heap, TermId};
use ref_terms::Sym;
use std::alloc::{AllocError, Global};

// The constant `[]`.
const NIL: Sym = Sym(18);

// The constant `::`.
const CONS: Sym = Sym(19);

impl Context {
    /// The list of the terms that were assumed, in order, of those clauses whose constants are among
    /// these; it is valid at a depth that isn't below that of a clause. Answers `AllocError` on want of
    /// memory alone.
    pub fn as_list(
        &self,
        alloc: Global,
        heap: &mut Heap,
        preds: &[Sym],
        depth: usize,
    ) -> Result<TermId, AllocError>
        requires valid { AllHypsValid heap.old self.now }
        requires depth { AllWithinDepth depth self.now }
        ensures reads { IfOk result (λ r. read heap.new r.index names ≡ assumed_list (numbers_of preds.now) (map (assumption_in heap.old) self.now)) }
        ensures valid { IfOk result (λ r. IsValid heap.new r.index depth) }
        ensures variables { heap.new.depths ≡ heap.old.depths }
        ensures grows { Grows heap.old heap.new [] [] }
    {
        let terms = self.assumed_terms(alloc, preds)?;
        let list = list_of(heap, terms.as_slice(), depth)?;
        Ok(list)
    }

    /// The terms that were assumed, of those clauses whose constants are among these.
    fn assumed_terms(&self, alloc: Global, preds: &[Sym]) -> Result<Vec<TermId>, AllocError>
        ensures { IfOk result (λ ts. ts.items ≡ assumed_nodes (numbers_of preds.now) self.now) }
    {
        let mut terms = Vec::new(alloc);
        let mut left = self.iter();
        while let Some(hyp) = left.next() {
            add_term(&mut terms, hyp, preds)?;
        }
        Ok(terms)
    }
}

/// Puts the term that a clause was assumed by last, if its constant is among these.
fn add_term(terms: &mut Vec<TermId>, hyp: &Hyp, preds: &[Sym]) -> Result<(), AllocError>
    ensures { OnOk result (terms.new.items ≡ terms.old.items ++ assumed_nodes (numbers_of preds.now) (hyp.now ∷ [])) }
{
    if is_among(hyp.pred, preds) {
        terms.push(hyp.term)?;
        return Ok(());
    }
    Ok(())
}

/// Whether a constant is among these.
fn is_among(pred: Sym, preds: &[Sym]) -> bool
    ensures { result ≡ list_any (nat_eq pred.0) (numbers_of preds.now) }
{
    for other in preds {
        if pred.0 == other.0 {
            return true;
        }
    }
    false
}

/// The list of terms that are valid at a depth.
fn list_of(heap: &mut Heap, terms: &[TermId], depth: usize) -> Result<TermId, AllocError>
    requires { AllValidAt heap.old terms.now depth }
    ensures reads { IfOk result (λ r. read heap.new r.index names ≡ list_term (all_read heap.old terms.now)) }
    ensures valid { IfOk result (λ r. IsValid heap.new r.index depth) }
    ensures variables { heap.new.depths ≡ heap.old.depths }
    ensures grows { Grows heap.old heap.new [] [] }
{
    heap.is_sound();
    let mut list = constant(heap, NIL)?;
    let mut at = terms.len();
    while at > 0 {
        at -= 1;
        list = cell(heap, terms[at], list, depth)?;
    }
    Ok(list)
}

/// A cell of a list.
fn cell(heap: &mut Heap, first: TermId, rest: TermId, depth: usize) -> Result<TermId, AllocError>
    requires first { IsValid heap.old first.index depth }
    requires rest { IsValid heap.old rest.index depth }
    ensures reads { IfOk result (λ r. read heap.new r.index names ≡ App (App (At (Con 19)) (read heap.old first.index names)) (read heap.old rest.index names)) }
    ensures valid { IfOk result (λ r. IsValid heap.new r.index depth) }
    ensures variables { heap.new.depths ≡ heap.old.depths }
    ensures grows { Grows heap.old heap.new [] [] }
{
    let r = constant_applied(heap, CONS, &[first, rest], depth)?;
    Ok(r)
}
