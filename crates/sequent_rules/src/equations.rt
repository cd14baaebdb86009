//! The equations of a rule's heads with a tuple of constraints over joint names.

ghost use Rattle.std.specs.Prelude.{◌≡◌, ◌++◌, ◌∷◌, [], ◌<◌, map, length, get_or, ℕ, IfOk, OnOk, IfSome};
ghost use Rattle.level_terms.specs.Gains.{GainsNodes};
ghost use Rattle.level_terms.specs.Graph.{Graph};
ghost use Rattle.level_terms.specs.Reading.{read};
ghost use Rattle.level_terms.specs.Valid.{IsValid};
ghost use Rattle.beta_fragment.specs.HeadForm.{all_read, AllValidAt};
ghost use Rattle.beta_fragment.specs.Names.{names, AllBelow};
ghost use Rattle.ref_terms.specs.unification.Rules.{equations_of};
ghost use Rattle.ref_terms.specs.search.Joint.{over_joint};
ghost use Rattle.hyp_clause.specs.Hyps.{assumption_in, AllHypsValid};
ghost use Rattle.hyp_context.specs.Contexts.{AllWithinDepth};
ghost use Rattle.hyp_context.specs.Lists.{assumed_list, numbers_of};
ghost use Rattle.ref_terms.specs.search.Program.{Rule};
ghost use Rattle.ref_terms.specs.search.RuleMatch.{heads_of, match_equations};
ghost use Rattle.sequent_rules.specs.inside.Equations.{equations_in, AllEquationsValid};
ghost use Rattle.sequent_rules.specs.inside.Heads.{context_equation_in, equations_at};
ghost use Rattle.sequent_rules.specs.inside.Matched.{IsTuple};
ghost use Rattle.sequent_rules.specs.inside.Tuples.{tuple_in};

use crate::matching::Equation;
use crate::rules::{RuleInstance, RuleShape};
use beta_fragment::Names;
use eigen_align::{JointNames, over_joint};
use hyp_context::Context;
use level_terms::{Heap, TermId, TermIds};
use ref_terms::Sym;
use std::alloc::{AllocError, Global};
use suspend::Store;

/// How terms of a sequent are put over joint names: the number of its names, their joint names, and how
/// many joint names there are.
#[derive(Drop)]
pub(crate) struct Lifting<'a> {
    pub own: usize,
    pub map: &'a Names,
    pub depth: usize,
}

/// Puts the equation of a pattern with a term over joint names last.
fn add_equation(
    alloc: Global,
    heap: &mut Heap,
    pattern: TermId,
    t: TermId,
    lifting: &Lifting<'_>,
    equations: &mut Vec<Equation>,
) -> Result<(), AllocError>
    requires pattern { IsValid heap.old pattern.index lifting.now.depth }
    requires term { IsValid heap.old t.index lifting.now.own }
    requires count { length lifting.now.map.now ≡ lifting.now.own }
    requires below { AllBelow lifting.now.map.now lifting.now.depth }
    requires older { AllEquationsValid heap.old lifting.now.depth equations.old.items }
    ensures reads { OnOk result (equations_in heap.new lifting.now.depth equations.new.items ≡ equations_in heap.old lifting.now.depth equations.old.items
        ++ record { names = lifting.now.depth; left = read heap.old pattern.index names; right = over_joint lifting.now.map.now (read heap.old t.index names) } ∷ []) }
    ensures valid { OnOk result (AllEquationsValid heap.new lifting.now.depth equations.new.items) }
    ensures gains { GainsNodes heap.old heap.new }
{
    heap.is_sound();
    let lifted = over_joint(alloc, heap, t, lifting.own, lifting.map, lifting.depth)?;
    equations.push(Equation {
        left: pattern,
        right: lifted,
    })?;
    Ok(())
}

/// Puts the equations of patterns with arguments over joint names last, from left to right.
fn add_arguments(
    alloc: Global,
    heap: &mut Heap,
    patterns: &[TermId],
    args: &[TermId],
    lifting: &Lifting<'_>,
    equations: &mut Vec<Equation>,
) -> Result<(), AllocError>
    requires patterns { AllValidAt heap.old patterns.now lifting.now.depth }
    requires args { AllValidAt heap.old args.now lifting.now.own }
    requires count { length lifting.now.map.now ≡ lifting.now.own }
    requires below { AllBelow lifting.now.map.now lifting.now.depth }
    requires older { AllEquationsValid heap.old lifting.now.depth equations.old.items }
    ensures reads { OnOk result (equations_in heap.new lifting.now.depth equations.new.items ≡ equations_in heap.old lifting.now.depth equations.old.items
        ++ equations_of lifting.now.depth (all_read heap.old patterns.now) (map (over_joint lifting.now.map.now) (all_read heap.old args.now))) }
    ensures valid { OnOk result (AllEquationsValid heap.new lifting.now.depth equations.new.items) }
    ensures gains { GainsNodes heap.old heap.new }
{
    heap.is_sound();
    let count = patterns.len().min(args.len());
    for i in 0..count {
        heap.is_sound();
        add_equation(alloc, heap, patterns[i], args[i], lifting, equations)?;
    }
    Ok(())
}

/// Puts the equation of a context with the list of assumed terms over joint names last.
fn add_list(
    alloc: Global,
    heap: &mut Heap,
    pattern: TermId,
    context: &Context,
    preds: &[Sym],
    lifting: &Lifting<'_>,
    equations: &mut Vec<Equation>,
) -> Result<(), AllocError>
    requires pattern { IsValid heap.old pattern.index lifting.now.depth }
    requires context { AllHypsValid heap.old context.now }
    requires within { AllWithinDepth lifting.now.own context.now }
    requires count { length lifting.now.map.now ≡ lifting.now.own }
    requires below { AllBelow lifting.now.map.now lifting.now.depth }
    requires older { AllEquationsValid heap.old lifting.now.depth equations.old.items }
    ensures reads { OnOk result (equations_in heap.new lifting.now.depth equations.new.items ≡ equations_in heap.old lifting.now.depth equations.old.items
        ++ record {
          names = lifting.now.depth;
          left = read heap.old pattern.index names;
          right = over_joint lifting.now.map.now (assumed_list (numbers_of preds.now) (map (assumption_in heap.old) context.now));
        } ∷ []) }
    ensures valid { OnOk result (AllEquationsValid heap.new lifting.now.depth equations.new.items) }
    ensures gains { GainsNodes heap.old heap.new }
{
    heap.is_sound();
    let list = context.as_list(alloc, heap, preds, lifting.own)?;
    heap.is_sound();
    add_equation(alloc, heap, pattern, list, lifting, equations)?;
    Ok(())
}

/// Puts the equation of a head's context last, where the head has one: a variable of the rule.
fn add_context(
    alloc: Global,
    heap: &mut Heap,
    tuple: &Tuple<'_>,
    variable: Option<usize>,
    context: &Context,
    lifting: &Lifting<'_>,
    equations: &mut Vec<Equation>,
) -> Result<(), AllocError>
    requires variables { AllValidAt heap.old tuple.now.made.now.variables.items lifting.now.depth }
    requires low { IfSome variable (λ v. v < length tuple.now.made.now.variables.items) }
    requires context { AllHypsValid heap.old context.now }
    requires within { AllWithinDepth lifting.now.own context.now }
    requires count { length lifting.now.map.now ≡ lifting.now.own }
    requires below { AllBelow lifting.now.map.now lifting.now.depth }
    requires older { AllEquationsValid heap.old lifting.now.depth equations.old.items }
    ensures reads { OnOk result (equations_in heap.new lifting.now.depth equations.new.items ≡ equations_in heap.old lifting.now.depth equations.old.items
        ++ context_equation_in heap.old tuple.now lifting.now variable context.now) }
    ensures valid { OnOk result (AllEquationsValid heap.new lifting.now.depth equations.new.items) }
    ensures gains { GainsNodes heap.old heap.new }
{
    match variable {
        Some(v) => add_list(
            alloc,
            heap,
            tuple.made.variables[v],
            context,
            tuple.shape.names.as_slice(),
            lifting,
            equations,
        ),
        None => Ok(()),
    }
}

/// The constraints of a tuple, by their numbers, with the arguments of their goals, their joint names
/// and a rule's instance at the joint depth.
#[derive(Drop)]
pub(crate) struct Tuple<'a> {
    pub store: &'a Store<Context>,
    pub shape: &'a RuleShape,
    pub ids: &'a [u64],
    pub args: &'a [TermIds],
    pub joint: &'a JointNames,
    pub made: &'a RuleInstance,
}

/// The i-th list of arguments.
fn arguments_at(args: &[TermIds], i: usize) -> &[TermId]
    requires { i < length args.now }
    ensures { result.now ≡ get_or args.now i [] }
{
    args[i].as_slice()
}

/// Puts the equations of the i-th head last: its context first, and then its arguments.
fn add_head(
    alloc: Global,
    heap: &mut Heap,
    tuple: &Tuple<'_>,
    i: usize,
    equations: &mut Vec<Equation>,
) -> Result<(), AllocError>
    requires tuple { (next : ℕ) × (r : Rule) × IsTuple heap.old tuple.now next r }
    requires place { i < length tuple.now.ids.now }
    requires older { AllEquationsValid heap.old tuple.now.joint.now.depth equations.old.items }
    ensures reads { OnOk result ((next : ℕ) (r : Rule) → IsTuple heap.old tuple.now next r → equations_in heap.new tuple.now.joint.now.depth equations.new.items
        ≡ equations_in heap.old tuple.now.joint.now.depth equations.old.items ++ equations_at r next heap.old tuple.now i) }
    ensures valid { OnOk result (AllEquationsValid heap.new tuple.now.joint.now.depth equations.new.items) }
    ensures gains { GainsNodes heap.old heap.new }
{
    heap.is_sound();
    let constraint = tuple.store.get(tuple.ids[i]);
    let lifting = Lifting {
        own: constraint.names,
        map: &tuple.joint.maps[i],
        depth: tuple.joint.depth,
    };
    add_context(
        alloc,
        heap,
        tuple,
        tuple.shape.heads[i].context,
        &constraint.context,
        &lifting,
        equations,
    )?;
    heap.is_sound();
    add_arguments(
        alloc,
        heap,
        tuple.made.heads[i].args.as_slice(),
        arguments_at(tuple.args, i),
        &lifting,
        equations,
    )?;
    Ok(())
}

/// The equations of all heads with the constraints of the tuple, head by head.
pub(crate) fn equations_of_heads(
    alloc: Global,
    heap: &mut Heap,
    tuple: &Tuple<'_>,
) -> Result<Vec<Equation>, AllocError>
    requires tuple { (next : ℕ) × (r : Rule) × IsTuple heap.old tuple.now next r }
    ensures reads { IfOk result (λ es. (next : ℕ) (r : Rule) → IsTuple heap.old tuple.now next r → equations_in heap.new tuple.now.joint.now.depth es.items
        ≡ match_equations r tuple.now.joint.now.depth next (heads_of r) tuple.now.joint.now.maps.items (tuple_in heap.old tuple.now.store.now tuple.now.ids.now)) }
    ensures valid { IfOk result (λ es. AllEquationsValid heap.new tuple.now.joint.now.depth es.items) }
    ensures gains { GainsNodes heap.old heap.new }
{
    heap.is_sound();
    let mut equations = Vec::new(alloc);
    for i in 0..tuple.ids.len() {
        heap.is_sound();
        add_head(alloc, heap, tuple, i, &mut equations)?;
    }
    Ok(equations)
}
