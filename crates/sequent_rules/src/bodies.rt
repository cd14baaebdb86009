//! The bodies of firings: their assumptions and their goals.

ghost use Rattle.std.specs.Prelude.{◌≡◌, ◌<◌, [], ◌∷◌, ◌++◌, map, length, OnOk, option_map, option_to_list, IfOk, IfErr, unwrap_or};
ghost use Rattle.level_terms.specs.Gains.{GainsNodes};
ghost use Rattle.level_terms.specs.Reading.{read};
ghost use Rattle.level_terms.specs.Valid.{IsValid};
ghost use Rattle.beta_fragment.specs.HeadForm.{AllValidAt};
ghost use Rattle.beta_fragment.specs.Names.{names};
ghost use Rattle.ref_terms.specs.terms.Term.{At, Con};
ghost use Rattle.hyp_clause.specs.Hyps.{assumption_in, AllHypsValid};
ghost use Rattle.hyp_context.specs.Contexts.{AllWithinDepth};
ghost use Rattle.ref_terms.specs.search.RuleInstance.{clauses_of_list};
ghost use Rattle.ref_terms.specs.search.Lists.{items_of};
ghost use Rattle.std.specs.Prelude.{List, ℕ};
ghost use Rattle.ref_terms.specs.unification.Problem.{Binding};
ghost use Rattle.ref_terms.specs.search.Program.{Rule};
ghost use Rattle.ref_terms.specs.search.RuleInstance.{body_assumptions, matched_value, clauses_of_items};
ghost use Rattle.suspend.specs.Store.{stored};
ghost use Rattle.beta_fragment.specs.HeadForm.{all_read};
ghost use Rattle.sequent_rules.specs.Branches.{AllSequents};
ghost use Rattle.sequent_rules.specs.Rules.{IsRuleShape};
ghost use Rattle.sequent_rules.specs.inside.Bodies.{IsContextOf, ContextStops};
ghost use Rattle.sequent_rules.specs.inside.Matched.{IsMatched};
ghost use Rattle.sequent_rules.specs.inside.Stages.{IsDeepEnough};
ghost use Rattle.sequent_rules.specs.inside.Tuples.{AllStored, tuple_in};

use crate::equations::Tuple;
use crate::lists::items;
use beta_fragment::UnifyStop;
use hyp_clause::{HypStop, Hyps, compile_hyp, constant};
use hyp_context::Context;
use level_terms::{Heap, TermId};
use ref_terms::{Fault, Sequence, Sym};
use std::alloc::{AllocError, Global};

/// The body's goal; without one it is `true`.
pub(crate) fn goal_of(
    heap: &mut Heap,
    body: Option<TermId>,
    depth: usize,
) -> Result<TermId, AllocError>
    requires { AllValidAt heap.old (option_to_list body) depth }
    ensures reads { IfOk result (λ t. read heap.new t.index names ≡ unwrap_or (option_map (λ t. read heap.old t.index names) body) (At (Con 0))) }
    ensures valid { IfOk result (λ t. IsValid heap.new t.index depth) }
    ensures gains { GainsNodes heap.old heap.new }
{
    heap.is_sound();
    match body {
        Some(t) => Ok(t),
        None => {
            let t = constant(heap, Sym(0))?;
            Ok(t)
        }
    }
}

/// The assumptions of the body: the clauses of its context, or without one those of the first head.
pub(crate) fn context_of_body(
    alloc: Global,
    heap: &mut Heap,
    tuple: &Tuple<'_>,
) -> Result<Context, UnifyStop>
    requires matched { (bs : List Binding) × (next : ℕ) × (r : Rule) × IsMatched heap.old bs tuple.now.joint.now.depth next tuple.now.made.now r × IsRuleShape tuple.now.shape.now r }
    requires stored { AllStored tuple.now.store.now tuple.now.ids.now }
    requires some { 0 < length tuple.now.ids.now }
    requires constraints { AllSequents heap.old (stored tuple.now.store.now) }
    requires first { IsDeepEnough tuple.now.joint.now.depth (tuple_in heap.old tuple.now.store.now tuple.now.ids.now) }
    ensures context { IfOk result (λ hs. (bs : List Binding) (next : ℕ) (r : Rule) → IsMatched heap.old bs tuple.now.joint.now.depth next tuple.now.made.now r → IsRuleShape tuple.now.shape.now r
        → IsContextOf heap.new tuple.now.joint.now.depth hs (body_assumptions r.body_context tuple.now.joint.now.depth (matched_value tuple.now.joint.now.depth next bs) (tuple_in heap.old tuple.now.store.now tuple.now.ids.now))) }
    ensures stops { IfErr result (λ stop. (bs : List Binding) (next : ℕ) (r : Rule) → IsMatched heap.old bs tuple.now.joint.now.depth next tuple.now.made.now r → IsRuleShape tuple.now.shape.now r
        → ContextStops stop (body_assumptions r.body_context tuple.now.joint.now.depth (matched_value tuple.now.joint.now.depth next bs) (tuple_in heap.old tuple.now.store.now tuple.now.ids.now))) }
    ensures gains { GainsNodes heap.old heap.new }
{
    heap.is_sound();
    match tuple.shape.body_context {
        None => {
            let first = tuple.store.get(tuple.ids[0]);
            let context = first.context.copy()?;
            Ok(context)
        }
        Some(v) => clauses_of(alloc, heap, tuple.made.variables[v], tuple.joint.depth),
    }
}

/// The context of the clauses that the items of a list assume.
fn clauses_of(
    alloc: Global,
    heap: &mut Heap,
    list: TermId,
    depth: usize,
) -> Result<Context, UnifyStop>
    requires { IsValid heap.old list.index depth }
    ensures context { IfOk result (λ hs. IsContextOf heap.new depth hs (clauses_of_list depth (items_of (read heap.old list.index names)))) }
    ensures stops { IfErr result (λ stop. ContextStops stop (clauses_of_list depth (items_of (read heap.old list.index names)))) }
    ensures gains { GainsNodes heap.old heap.new }
{
    heap.is_sound();
    match items(alloc, heap, list, depth)? {
        None => Err(UnifyStop::Fault(Fault::NotGoal)),
        Some(terms) => clauses_of_items(alloc, heap, terms.as_slice(), depth),
    }
}

/// The context of the clauses that terms assume, from left to right.
fn clauses_of_items(
    alloc: Global,
    heap: &mut Heap,
    terms: &[TermId],
    depth: usize,
) -> Result<Context, UnifyStop>
    requires { AllValidAt heap.old terms.now depth }
    ensures context { IfOk result (λ hs. IsContextOf heap.new depth hs (clauses_of_items depth (all_read heap.old terms.now))) }
    ensures stops { IfErr result (λ stop. ContextStops stop (clauses_of_items depth (all_read heap.old terms.now))) }
    ensures gains { GainsNodes heap.old heap.new }
{
    heap.is_sound();
    let mut all = Sequence::new(alloc);
    for i in 0..terms.len() {
        heap.is_sound();
        match compile_hyp(alloc, heap, terms[i], depth) {
            Ok(hyps) => append(&mut all, hyps)?,
            Err(HypStop::Fault(e)) => return Err(UnifyStop::Fault(e)),
            Err(HypStop::Memory) => return Err(UnifyStop::Memory),
        }
    }
    let context = Context::assume(&Context::empty(alloc), all)?;
    Ok(context)
}

/// Puts clauses last, in order.
fn append(all: &mut Hyps, more: Hyps) -> Result<(), AllocError>
    ensures { OnOk result (all.new ≡ all.old ++ more) }
{
    for hyp in more.into_vec() {
        all.push(hyp)?;
    }
    Ok(())
}
