//! A unification variable against a term, and against another one.

ghost use Rattle.std.specs.Prelude.{◌≡◌, ◌≤◌, ◌∷◌, [], ◌++◌, ℕ, false, List, Some, map, option_map, cond, nat_eq, IfOk, OnOk, IfSome};
ghost use Rattle.level_terms.specs.Graph.{value_in};
ghost use Rattle.level_terms.specs.Growth.{Grows};
ghost use Rattle.level_terms.specs.Reading.{read};
ghost use Rattle.level_terms.specs.Valid.{IsValid};
ghost use Rattle.ref_terms.specs.terms.Occurs.{occurs};
ghost use Rattle.ref_terms.specs.terms.Term.{Term};
ghost use Rattle.ref_terms.specs.unification.Closing.{names_below};
ghost use Rattle.ref_terms.specs.unification.Offence.{fine};
ghost use Rattle.ref_terms.specs.unification.Pattern.{pattern_of, of_name};
ghost use Rattle.ref_terms.specs.unification.Rules.{bind_to, by_verdict as reference_by_verdict, flex_flex, same_variable, two_variables};
ghost use Rattle.beta_fragment.specs.Names.{names, AllBelow, AreDistinct};
ghost use Rattle.beta_fragment.specs.HeadForm.{all_read, AllValidAt};
ghost use Rattle.pattern_unify.specs.Bound.{IsOpen, LeavesFrozen, NamesAmong};
ghost use Rattle.pattern_unify.specs.declared.offence.Verdict.TheVariants as verdicts;
ghost use Rattle.pattern_unify.specs.inside.Equations.{equation_at, equations_at, problem_at, IsValidEquation, AllValidEquations, ComesAgain};
ghost use Rattle.pattern_unify.specs.inside.Turns.{IsTurn};
ghost use Rattle.pattern_unify.specs.inside.Verdicts.{verdict_of, DropsAssignable};

use crate::assigning::assign_absent;
use crate::binding::bind;
use crate::equation::{Equation, Turn};
use crate::meeting::{drop_position, keep_agreeing, meet};
use crate::offence::{Verdict, offence, offence_in_scope};
use crate::renewing::renewed;
use crate::spine::pattern_names;
use level_terms::{Change, Heap, TermId, VarId};
use ref_terms::Fault;
use std::alloc::{AllocError, Global};
use trail::Trail;

/// A variable with its spine against a term that it doesn't head: it is bound to it where nothing
/// offends; where a foreign name stands in another variable's spine, that position is dropped, and
/// the equation comes again.
pub(crate) fn against(
    alloc: Global,
    heap: &mut Heap,
    trail: &mut Trail<Change>,
    work: &mut Vec<Equation>,
    e: Equation,
    mark: VarId,
    v: VarId,
    xs: &[TermId],
    t: TermId,
) -> Result<Turn, AllocError>
    requires variable { IsOpen heap.old v.index }
    requires assignable { mark.index ≤ v.index }
    requires spine { AllValidAt heap.old xs.now e.depth }
    requires term { IsValid heap.old t.index e.depth }
    requires equation { IsValidEquation heap.old e }
    requires valid { AllValidEquations heap.old work.old.items }
    ensures turn { IfOk result (λ r. IsTurn heap.old heap.new
        (λ bs. bind_to mark.index v.index (pattern_of (all_read heap.old xs.now)) (read heap.old t.index names) (equation_at heap.old e) (equations_at heap.old work.old.items) (problem_at heap.old (work.old.items ++ e ∷ []) bs)) work.new.items r) }
    ensures frozen { LeavesFrozen mark.index heap.old heap.new }
    ensures grows { Grows heap.old heap.new trail.old.entries trail.new.entries }
{
    heap.is_sound();
    let ns = pattern_names(alloc, heap, xs, e.depth)?;
    against_names(alloc, heap, trail, work, e, mark, v, ns, t)
}

/// Two variables with their spines.
pub(crate) fn two_flexible(
    alloc: Global,
    heap: &mut Heap,
    trail: &mut Trail<Change>,
    work: &mut Vec<Equation>,
    e: Equation,
    mark: VarId,
    v: VarId,
    xs: &[TermId],
    w: VarId,
    ys: &[TermId],
) -> Result<Turn, AllocError>
    requires left { IsOpen heap.old v.index }
    requires right { IsOpen heap.old w.index }
    requires left_assignable { mark.index ≤ v.index }
    requires right_assignable { mark.index ≤ w.index }
    requires left_spine { AllValidAt heap.old xs.now e.depth }
    requires right_spine { AllValidAt heap.old ys.now e.depth }
    requires equation { IsValidEquation heap.old e }
    requires valid { AllValidEquations heap.old work.old.items }
    ensures turn { IfOk result (λ r. IsTurn heap.old heap.new
        (λ bs. flex_flex mark.index v.index w.index (pattern_of (all_read heap.old xs.now)) (pattern_of (all_read heap.old ys.now)) (equation_at heap.old e) (equations_at heap.old work.old.items) (problem_at heap.old (work.old.items ++ e ∷ []) bs)) work.new.items r) }
    ensures frozen { LeavesFrozen mark.index heap.old heap.new }
    ensures grows { Grows heap.old heap.new trail.old.entries trail.new.entries }
{
    heap.is_sound();
    let ms = pattern_names(alloc, heap, xs, e.depth)?;
    let ns = pattern_names(alloc, heap, ys, e.depth)?;
    two_spines(alloc, heap, trail, work, e, mark, v, ms, w, ns)
}

/// A variable with the names of its spine, where this is a pattern, against a term that it doesn't
/// head.
fn against_names(
    alloc: Global,
    heap: &mut Heap,
    trail: &mut Trail<Change>,
    work: &mut Vec<Equation>,
    e: Equation,
    mark: VarId,
    v: VarId,
    spine: Option<Vec<usize>>,
    t: TermId,
) -> Result<Turn, AllocError>
    requires variable { IsOpen heap.old v.index }
    requires assignable { mark.index ≤ v.index }
    requires below { IfSome spine (λ ns. AllBelow ns.items e.depth) }
    requires distinct { IfSome spine (λ ns. AreDistinct ns.items) }
    requires term { IsValid heap.old t.index e.depth }
    requires equation { IsValidEquation heap.old e }
    requires valid { AllValidEquations heap.old work.old.items }
    ensures turn { IfOk result (λ r. IsTurn heap.old heap.new
        (λ bs. bind_to mark.index v.index (option_map (λ ns. map of_name ns.items) spine) (read heap.old t.index names) (equation_at heap.old e) (equations_at heap.old work.old.items) (problem_at heap.old (work.old.items ++ e ∷ []) bs)) work.new.items r) }
    ensures frozen { LeavesFrozen mark.index heap.old heap.new }
    ensures grows { Grows heap.old heap.new trail.old.entries trail.new.entries }
{
    let Some(list) = spine else {
        return Ok(Turn::Fault(Fault::Pattern));
    };
    let ns = list.as_slice();
    heap.is_sound();
    let verdict = offence(alloc, heap, mark, v, ns, t, e.depth)?;
    by_verdict(alloc, heap, trail, work, e, v, ns, t, verdict)
}

/// A variable with the names of its pattern spine against a term on which this is the verdict.
fn by_verdict(
    alloc: Global,
    heap: &mut Heap,
    trail: &mut Trail<Change>,
    work: &mut Vec<Equation>,
    e: Equation,
    v: VarId,
    ns: &[usize],
    t: TermId,
    verdict: Verdict,
) -> Result<Turn, AllocError>
    requires variable { IsOpen heap.old v.index }
    requires below { AllBelow ns.now e.depth }
    requires distinct { AreDistinct ns.now }
    requires term { IsValid heap.old t.index e.depth }
    requires among { verdict_of verdict ≡ fine → NamesAmong ns.now (read heap.old t.index names) }
    requires absent { verdict_of verdict ≡ fine → occurs v.index (read heap.old t.index names) ≡ false }
    requires dropped { DropsAssignable heap.old 0 verdict }
    requires equation { IsValidEquation heap.old e }
    requires valid { AllValidEquations heap.old work.old.items }
    ensures turn { IfOk result (λ r. IsTurn heap.old heap.new
        (λ bs. reference_by_verdict v.index ns.now (read heap.old t.index names) (equation_at heap.old e) (equations_at heap.old work.old.items) (problem_at heap.old (work.old.items ++ e ∷ []) bs) (verdict_of verdict)) work.new.items r) }
    ensures frozen { (mark : ℕ) → mark ≤ v.index → DropsAssignable heap.old mark verdict → LeavesFrozen mark heap.old heap.new }
    ensures grows { Grows heap.old heap.new trail.old.entries trail.new.entries }
{
    heap.is_sound();
    match verdict {
        Verdict::Fine => {
            bind(alloc, heap, trail, v, ns, t, e.depth)?;
            Ok(Turn::Goes)
        }
        _ => not_bound(alloc, heap, trail, work, e, verdict),
    }
}

/// A variable against a term on which this is the verdict, by which it isn't bound to the term.
fn not_bound(
    alloc: Global,
    heap: &mut Heap,
    trail: &mut Trail<Change>,
    work: &mut Vec<Equation>,
    e: Equation,
    verdict: Verdict,
) -> Result<Turn, AllocError>
    requires offends { verdict ≡ verdicts.Fine → ⊥ }
    requires dropped { DropsAssignable heap.old 0 verdict }
    requires equation { IsValidEquation heap.old e }
    requires valid { AllValidEquations heap.old work.old.items }
    ensures turn { IfOk result (λ r. (v : ℕ) (ns : List ℕ) (u : Term) → IsTurn heap.old heap.new
        (λ bs. reference_by_verdict v ns u (equation_at heap.old e) (equations_at heap.old work.old.items) (problem_at heap.old (work.old.items ++ e ∷ []) bs) (verdict_of verdict)) work.new.items r) }
    ensures frozen { (mark : ℕ) → DropsAssignable heap.old mark verdict → LeavesFrozen mark heap.old heap.new }
    ensures grows { Grows heap.old heap.new trail.old.entries trail.new.entries }
{
    heap.is_sound();
    match verdict {
        Verdict::Fine => unreachable!(),
        Verdict::Redex => Ok(Turn::Fault(Fault::Redex)),
        Verdict::Scope => Ok(Turn::Fault(Fault::Scope)),
        Verdict::Itself => Ok(Turn::Clash),
        Verdict::Foreign => Ok(Turn::Clash),
        Verdict::Dropped(other, position, arity) => {
            drop_position(alloc, heap, trail, other, position, arity)?;
            heap.is_sound();
            again(alloc, heap, work, e, arity)?;
            Ok(Turn::Goes)
        }
    }
}

/// Puts the equation back, where a variable in it has just lost one of so many positions.
fn again(
    alloc: Global,
    heap: &mut Heap,
    work: &mut Vec<Equation>,
    e: Equation,
    arity: usize,
) -> Result<(), AllocError>
    requires { IsValidEquation heap.old e }
    ensures again { OnOk result (ComesAgain heap.old heap.new e work.old.items work.new.items) }
    ensures grows { Grows heap.old heap.new [] [] }
{
    heap.is_sound();
    let next = renewed(alloc, heap, e, arity)?;
    work.push(next)?;
    Ok(())
}

/// A variable whose spine has the names of all levels in scope, in order, against a term that it
/// doesn't head, as `against` has it. Its value is the term itself, over these levels.
pub(crate) fn against_in_scope(
    alloc: Global,
    heap: &mut Heap,
    trail: &mut Trail<Change>,
    work: &mut Vec<Equation>,
    e: Equation,
    mark: VarId,
    v: VarId,
    t: TermId,
) -> Result<Turn, AllocError>
    requires variable { IsOpen heap.old v.index }
    requires assignable { mark.index ≤ v.index }
    requires term { IsValid heap.old t.index e.depth }
    requires equation { IsValidEquation heap.old e }
    requires valid { AllValidEquations heap.old work.old.items }
    ensures turn { IfOk result (λ r. IsTurn heap.old heap.new
        (λ bs. bind_to mark.index v.index (Some (map of_name (names_below e.depth))) (read heap.old t.index names) (equation_at heap.old e) (equations_at heap.old work.old.items) (problem_at heap.old (work.old.items ++ e ∷ []) bs)) work.new.items r) }
    ensures frozen { LeavesFrozen mark.index heap.old heap.new }
    ensures grows { Grows heap.old heap.new trail.old.entries trail.new.entries }
{
    heap.is_sound();
    let verdict = offence_in_scope(alloc, heap, mark, v, t, e.depth)?;
    by_verdict_in_scope(alloc, heap, trail, work, e, v, t, verdict)
}

/// A variable whose spine has the names of all levels in scope against a term on which this is the
/// verdict.
fn by_verdict_in_scope(
    alloc: Global,
    heap: &mut Heap,
    trail: &mut Trail<Change>,
    work: &mut Vec<Equation>,
    e: Equation,
    v: VarId,
    t: TermId,
    verdict: Verdict,
) -> Result<Turn, AllocError>
    requires variable { IsOpen heap.old v.index }
    requires term { IsValid heap.old t.index e.depth }
    requires absent { verdict_of verdict ≡ fine → occurs v.index (read heap.old t.index names) ≡ false }
    requires dropped { DropsAssignable heap.old 0 verdict }
    requires equation { IsValidEquation heap.old e }
    requires valid { AllValidEquations heap.old work.old.items }
    ensures turn { IfOk result (λ r. IsTurn heap.old heap.new
        (λ bs. reference_by_verdict v.index (names_below e.depth) (read heap.old t.index names) (equation_at heap.old e) (equations_at heap.old work.old.items) (problem_at heap.old (work.old.items ++ e ∷ []) bs) (verdict_of verdict)) work.new.items r) }
    ensures frozen { (mark : ℕ) → mark ≤ v.index → DropsAssignable heap.old mark verdict → LeavesFrozen mark heap.old heap.new }
    ensures grows { Grows heap.old heap.new trail.old.entries trail.new.entries }
{
    heap.is_sound();
    match verdict {
        Verdict::Fine => {
            assign_absent(alloc, heap, trail, v, e.depth, t)?;
            Ok(Turn::Goes)
        }
        _ => not_bound(alloc, heap, trail, work, e, verdict),
    }
}

/// Two variables with the names of their spines, where these are patterns.
fn two_spines(
    alloc: Global,
    heap: &mut Heap,
    trail: &mut Trail<Change>,
    work: &mut Vec<Equation>,
    e: Equation,
    mark: VarId,
    v: VarId,
    left: Option<Vec<usize>>,
    w: VarId,
    right: Option<Vec<usize>>,
) -> Result<Turn, AllocError>
    requires left { IsOpen heap.old v.index }
    requires right { IsOpen heap.old w.index }
    requires left_assignable { mark.index ≤ v.index }
    requires right_assignable { mark.index ≤ w.index }
    requires left_below { IfSome left (λ ns. AllBelow ns.items e.depth) }
    requires right_below { IfSome right (λ ns. AllBelow ns.items e.depth) }
    requires left_distinct { IfSome left (λ ns. AreDistinct ns.items) }
    requires right_distinct { IfSome right (λ ns. AreDistinct ns.items) }
    requires equation { IsValidEquation heap.old e }
    requires valid { AllValidEquations heap.old work.old.items }
    ensures turn { IfOk result (λ r. IsTurn heap.old heap.new
        (λ bs. flex_flex mark.index v.index w.index (option_map (λ ns. map of_name ns.items) left) (option_map (λ ns. map of_name ns.items) right) (equation_at heap.old e) (equations_at heap.old work.old.items) (problem_at heap.old (work.old.items ++ e ∷ []) bs)) work.new.items r) }
    ensures frozen { LeavesFrozen mark.index heap.old heap.new }
    ensures grows { Grows heap.old heap.new trail.old.entries trail.new.entries }
{
    let Some(ms) = left else {
        if v.index == w.index {
            return Ok(Turn::Fault(Fault::Pattern));
        }
        return against_names(alloc, heap, trail, work, e, mark, w, right, e.left);
    };
    let Some(ns) = right else {
        if v.index == w.index {
            return Ok(Turn::Fault(Fault::Pattern));
        }
        return against_names(alloc, heap, trail, work, e, mark, v, Some(ms), e.right);
    };
    two_patterns(
        alloc,
        heap,
        trail,
        work.as_slice(),
        v,
        ms.as_slice(),
        w,
        ns.as_slice(),
    )
}

/// Two variables with the names of their pattern spines.
fn two_patterns(
    alloc: Global,
    heap: &mut Heap,
    trail: &mut Trail<Change>,
    work: &[Equation],
    v: VarId,
    xs: &[usize],
    w: VarId,
    ys: &[usize],
) -> Result<Turn, AllocError>
    requires left { IsOpen heap.old v.index }
    requires right { IsOpen heap.old w.index }
    requires valid { AllValidEquations heap.old work.now }
    ensures turn { IfOk result (λ r. IsTurn heap.old heap.new
        (λ bs. cond (nat_eq v.index w.index)
        (same_variable v.index (map of_name xs.now) (map of_name ys.now) (equations_at heap.old work.now) (problem_at heap.old work.now bs))
        (two_variables v.index w.index (map of_name xs.now) (map of_name ys.now) (equations_at heap.old work.now) (problem_at heap.old work.now bs))) work.now r) }
    ensures others { (u : ℕ) → nat_eq v.index u ≡ false → nat_eq w.index u ≡ false → value_in heap.new.assigned u ≡ value_in heap.old.assigned u }
    ensures grows { Grows heap.old heap.new trail.old.entries trail.new.entries }
{
    heap.is_sound();
    if v.index != w.index {
        meet(alloc, heap, trail, v, w, xs, ys)?;
        return Ok(Turn::Goes);
    }
    if xs.len() != ys.len() {
        return Ok(Turn::Clash);
    }
    keep_agreeing(alloc, heap, trail, v, xs, ys)?;
    Ok(Turn::Goes)
}
