//! Whether constraints fit the heads of a rule.

ghost use Rattle.std.specs.Prelude.{◌≡◌, ℕ, List, [], map, length, true, false, IfOk, MatchOption, Some, None};
ghost use Rattle.level_terms.specs.Gains.{GainsNodes};
ghost use Rattle.level_terms.specs.Graph.{Graph};
ghost use Rattle.level_terms.specs.Reading.{read};
ghost use Rattle.level_terms.specs.Valid.{IsValid};
ghost use Rattle.beta_fragment.specs.HeadForm.{all_read, AllValidAt, IsHeadForm};
ghost use Rattle.beta_fragment.specs.Names.{names};
ghost use Rattle.ref_terms.specs.terms.Term.{Term};
ghost use Rattle.ref_terms.specs.search.Program.{RuleHead};
ghost use Rattle.ref_terms.specs.search.RuleMatch.{fit_heads};
ghost use Rattle.suspend.specs.Store.{stored};
ghost use Rattle.eigen_align.specs.Sequents.{sequents_read, AreSequents, bare};
ghost use Rattle.sequent_rules.specs.Branches.{constraints_in, AllSequents};
ghost use Rattle.sequent_rules.specs.Rules.{AreHeadShapes};
ghost use Rattle.sequent_rules.specs.inside.Fitting.{fits_atom, AreArguments, IsFit};
ghost use Rattle.sequent_rules.specs.inside.Tuples.{tuple_in, AllStored};

use crate::rules::HeadShape;
use beta_fragment::{RigidHead, Whnf, whnf};
use eigen_align::Sequent;
use hyp_context::Context;
use level_terms::{Heap, TermId, TermIds};
use ref_terms::Sym;
use std::alloc::{AllocError, Global};
use suspend::Store;

/// The arguments of a term of this form, where it is an atom of the head's constant with as many
/// arguments.
fn fitting(head: HeadShape, form: Whnf) -> Option<TermIds>
    ensures { (g : Graph) (depth : ℕ) (u : Term) → IsHeadForm g depth u form → IsFit g depth head u result }
{
    match form {
        Whnf::Rigid(RigidHead::Con(c), args) => {
            if c.0 != head.pred.0 {
                return None;
            }
            if args.len() != head.arity {
                return None;
            }
            Some(args)
        }
        Whnf::Rigid(RigidHead::Int(_), _) => None,
        Whnf::Rigid(RigidHead::Str(_), _) => None,
        Whnf::Rigid(RigidHead::Level(_), _) => None,
        Whnf::Lam(_) => None,
        Whnf::Flex(_, _) => None,
        Whnf::Redex(_, _) => None,
    }
}

/// The arguments of a goal, where it is an atom of the head's constant with as many arguments.
fn fit_one(
    alloc: Global,
    heap: &mut Heap,
    head: HeadShape,
    goal: TermId,
    depth: usize,
) -> Result<Option<TermIds>, AllocError>
    requires { IsValid heap.old goal.index depth }
    ensures fit { IfOk result (IsFit heap.new depth head (read heap.old goal.index names)) }
    ensures gains { GainsNodes heap.old heap.new }
{
    let form = whnf(alloc, heap, goal, depth)?;
    Ok(fitting(head, form))
}

/// The arguments of the constraints' goals, where each constraint fits its head.
pub(crate) fn fit_all(
    alloc: Global,
    heap: &mut Heap,
    store: &Store<Context>,
    heads: &[HeadShape],
    ids: &[u64],
) -> Result<Option<Vec<TermIds>>, AllocError>
    requires stored { AllStored store.now ids.now }
    requires constraints { AllSequents heap.old (stored store.now) }
    requires as_many { length ids.now ≡ length heads.now }
    ensures fit { IfOk result (λ o. (n : ℕ) (hs : List RuleHead) → AreHeadShapes n heads.now hs → MatchOption o
        (fit_heads hs (tuple_in heap.old store.now ids.now) ≡ false)
        (λ args. (fit_heads hs (tuple_in heap.old store.now ids.now) ≡ true) × AreArguments heap.new args.items (tuple_in heap.old store.now ids.now))) }
    ensures gains { GainsNodes heap.old heap.new }
{
    heap.is_sound();
    let mut all = Vec::new(alloc);
    for i in 0..ids.len() {
        heap.is_sound();
        let constraint = store.get(ids[i]);
        match fit_one(alloc, heap, heads[i], constraint.goal, constraint.names)? {
            Some(args) => all.push(args)?,
            None => return Ok(None),
        }
    }
    Ok(Some(all))
}

/// The goals of constraints under their names.
pub(crate) fn sequents_of(
    alloc: Global,
    store: &Store<Context>,
    ids: &[u64],
) -> Result<Vec<Sequent>, AllocError>
    requires stored { AllStored store.now ids.now }
    ensures reads { IfOk result (λ v. (g : Graph) → sequents_read g v.items ≡ map bare (tuple_in g store.now ids.now)) }
    ensures valid { IfOk result (λ v. (g : Graph) → AllSequents g (stored store.now) → AreSequents g v.items) }
{
    let mut sequents = Vec::new(alloc);
    for i in 0..ids.len() {
        let constraint = store.get(ids[i]);
        sequents.push(Sequent {
            depth: constraint.names,
            goal: constraint.goal,
            context: None,
        })?;
    }
    Ok(sequents)
}
