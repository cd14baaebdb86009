//! A turn on the first equation: the first rule that applies to the shapes of its sides.

ghost use Rattle.std.specs.Prelude.{◌≡◌, ◌≤◌, ◌+◌, ◌∷◌, ◌++◌, ℕ, [], IfOk};
ghost use Rattle.level_terms.specs.Growth.{Grows};
ghost use Rattle.level_terms.specs.Reading.{read};
ghost use Rattle.ref_terms.specs.unification.Rules.{step};
ghost use Rattle.ref_terms.specs.unification.Shape.{shape, Abstraction, Rigid, Flex};
ghost use Rattle.beta_fragment.specs.Names.{names};
ghost use Rattle.beta_fragment.specs.HeadForm.{all_read, AllValidAt};
ghost use Rattle.pattern_unify.specs.Bound.{IsOpen, LeavesFrozen};
ghost use Rattle.pattern_unify.specs.inside.Equations.{problem_at, IsValidEquation, AllValidEquations};
ghost use Rattle.pattern_unify.specs.inside.Own.{IsOwn};
ghost use Rattle.pattern_unify.specs.inside.Sides.{head_at, shape_at, IsSideAt};
ghost use Rattle.pattern_unify.specs.inside.Turns.{IsTurn, rule_at};

use crate::applying::{applied, inner_depth};
use crate::equation::{Equation, Turn};
use crate::flexible::{against, against_in_scope, two_flexible};
use crate::own::{own_beside, own_variable};
use crate::rigid::two_rigid;
use crate::side::{Head, Side, is_rigid, side_of};
use level_terms::{Change, Heap, TermId, VarId};
use ref_terms::Fault;
use std::alloc::{AllocError, Global};
use trail::Trail;

/// Takes the step of the rules on an equation, before the work that is left. Variables below the
/// mark are frozen.
pub(crate) fn turn(
    alloc: Global,
    heap: &mut Heap,
    trail: &mut Trail<Change>,
    work: &mut Vec<Equation>,
    e: Equation,
    mark: VarId,
) -> Result<Turn, AllocError>
    requires equation { IsValidEquation heap.old e }
    requires valid { AllValidEquations heap.old work.old.items }
    ensures turn { IfOk result (λ r. IsTurn heap.old heap.new (λ bs. step mark.index (problem_at heap.old (work.old.items ++ e ∷ []) bs)) work.new.items r) }
    ensures frozen { LeavesFrozen mark.index heap.old heap.new }
    ensures grows { Grows heap.old heap.new trail.old.entries trail.new.entries }
{
    heap.is_sound();
    match own_variable(heap, mark, e.left, e.depth) {
        Some(v) => {
            let right = side_of(alloc, heap, mark, e.right, e.depth)?;
            after_own(alloc, heap, trail, work, e, mark, v, &right)
        }
        None => {
            let left = side_of(alloc, heap, mark, e.left, e.depth)?;
            after_left(alloc, heap, trail, work, e, mark, &left)
        }
    }
}

/// Takes the step by what is seen of the right side, where the left one is a variable at its own
/// depth. Beside a rigid head that is seen without its spine.
fn after_own(
    alloc: Global,
    heap: &mut Heap,
    trail: &mut Trail<Change>,
    work: &mut Vec<Equation>,
    e: Equation,
    mark: VarId,
    v: VarId,
    right: &Side,
) -> Result<Turn, AllocError>
    requires own { IsOwn heap.old mark.index e.depth e.left.index v }
    requires right { IsSideAt heap.old mark.index e.depth right.now }
    requires equation { IsValidEquation heap.old e }
    requires valid { AllValidEquations heap.old work.old.items }
    ensures turn { IfOk result (λ r. IsTurn heap.old heap.new
        (λ bs. rule_at mark.index heap.old e work.old.items (shape mark.index (read heap.old e.left.index names)) (shape_at heap.old right.now) bs) work.new.items r) }
    ensures frozen { LeavesFrozen mark.index heap.old heap.new }
    ensures grows { Grows heap.old heap.new trail.old.entries trail.new.entries }
{
    heap.is_sound();
    if is_rigid(right) {
        return against_in_scope(alloc, heap, trail, work, e, mark, v, e.right);
    }
    let left = side_of(alloc, heap, mark, e.left, e.depth)?;
    by_sides(alloc, heap, trail, work, e, mark, &left, right)
}

/// Takes the step by what is seen of the left side.
fn after_left(
    alloc: Global,
    heap: &mut Heap,
    trail: &mut Trail<Change>,
    work: &mut Vec<Equation>,
    e: Equation,
    mark: VarId,
    left: &Side,
) -> Result<Turn, AllocError>
    requires left { IsSideAt heap.old mark.index e.depth left.now }
    requires equation { IsValidEquation heap.old e }
    requires valid { AllValidEquations heap.old work.old.items }
    ensures turn { IfOk result (λ r. IsTurn heap.old heap.new
        (λ bs. rule_at mark.index heap.old e work.old.items (shape_at heap.old left.now) (shape mark.index (read heap.old e.right.index names)) bs) work.new.items r) }
    ensures frozen { LeavesFrozen mark.index heap.old heap.new }
    ensures grows { Grows heap.old heap.new trail.old.entries trail.new.entries }
{
    heap.is_sound();
    match own_beside(heap, mark, left, e.right, e.depth) {
        Some(w) => against_in_scope(alloc, heap, trail, work, e, mark, w, e.left),
        None => {
            let right = side_of(alloc, heap, mark, e.right, e.depth)?;
            by_sides(alloc, heap, trail, work, e, mark, left, &right)
        }
    }
}

/// Takes the step by what is seen of both sides.
fn by_sides(
    alloc: Global,
    heap: &mut Heap,
    trail: &mut Trail<Change>,
    work: &mut Vec<Equation>,
    e: Equation,
    mark: VarId,
    left: &Side,
    right: &Side,
) -> Result<Turn, AllocError>
    requires left { IsSideAt heap.old mark.index e.depth left.now }
    requires right { IsSideAt heap.old mark.index e.depth right.now }
    requires equation { IsValidEquation heap.old e }
    requires valid { AllValidEquations heap.old work.old.items }
    ensures turn { IfOk result (λ r. IsTurn heap.old heap.new
        (λ bs. rule_at mark.index heap.old e work.old.items (shape_at heap.old left.now) (shape_at heap.old right.now) bs) work.new.items r) }
    ensures frozen { LeavesFrozen mark.index heap.old heap.new }
    ensures grows { Grows heap.old heap.new trail.old.entries trail.new.entries }
{
    match left {
        Side::Redex => Ok(Turn::Fault(Fault::Redex)),
        Side::Abstraction => after_abstraction(alloc, heap, work, e, right),
        Side::Rigid(h, xs) => {
            after_rigid(alloc, heap, trail, work, e, mark, *h, xs.as_slice(), right)
        }
        Side::Flexible(v, xs) => {
            after_variable(alloc, heap, trail, work, e, mark, *v, xs.as_slice(), right)
        }
    }
}

/// Takes the step by what is seen of the right side, where the left one is an abstraction.
fn after_abstraction(
    alloc: Global,
    heap: &mut Heap,
    work: &mut Vec<Equation>,
    e: Equation,
    right: &Side,
) -> Result<Turn, AllocError>
    requires equation { IsValidEquation heap.old e }
    requires valid { AllValidEquations heap.old work.old.items }
    ensures turn { IfOk result (λ r. (mark : ℕ) → IsTurn heap.old heap.new
        (λ bs. rule_at mark heap.old e work.old.items Abstraction (shape_at heap.old right.now) bs) work.new.items r) }
    ensures grows { Grows heap.old heap.new [] [] }
{
    match right {
        Side::Redex => Ok(Turn::Fault(Fault::Redex)),
        _ => opened(alloc, heap, work, e),
    }
}

/// Takes the step by what is seen of the right side, where the left one has a rigid head.
fn after_rigid(
    alloc: Global,
    heap: &mut Heap,
    trail: &mut Trail<Change>,
    work: &mut Vec<Equation>,
    e: Equation,
    mark: VarId,
    h: Head,
    xs: &[TermId],
    right: &Side,
) -> Result<Turn, AllocError>
    requires left { AllValidAt heap.old xs.now e.depth }
    requires right { IsSideAt heap.old mark.index e.depth right.now }
    requires equation { IsValidEquation heap.old e }
    requires valid { AllValidEquations heap.old work.old.items }
    ensures turn { IfOk result (λ r. IsTurn heap.old heap.new
        (λ bs. rule_at mark.index heap.old e work.old.items (Rigid (head_at h) (all_read heap.old xs.now)) (shape_at heap.old right.now) bs) work.new.items r) }
    ensures frozen { LeavesFrozen mark.index heap.old heap.new }
    ensures grows { Grows heap.old heap.new trail.old.entries trail.new.entries }
{
    match right {
        Side::Redex => Ok(Turn::Fault(Fault::Redex)),
        Side::Abstraction => opened(alloc, heap, work, e),
        Side::Rigid(k, ys) => two_rigid(heap, work, e, h, xs, *k, ys.as_slice()),
        Side::Flexible(w, ys) => {
            against(alloc, heap, trail, work, e, mark, *w, ys.as_slice(), e.left)
        }
    }
}

/// Takes the step by what is seen of the right side, where the left one is an assignable variable
/// with its spine.
fn after_variable(
    alloc: Global,
    heap: &mut Heap,
    trail: &mut Trail<Change>,
    work: &mut Vec<Equation>,
    e: Equation,
    mark: VarId,
    v: VarId,
    xs: &[TermId],
    right: &Side,
) -> Result<Turn, AllocError>
    requires variable { IsOpen heap.old v.index }
    requires assignable { mark.index ≤ v.index }
    requires left { AllValidAt heap.old xs.now e.depth }
    requires right { IsSideAt heap.old mark.index e.depth right.now }
    requires equation { IsValidEquation heap.old e }
    requires valid { AllValidEquations heap.old work.old.items }
    ensures turn { IfOk result (λ r. IsTurn heap.old heap.new
        (λ bs. rule_at mark.index heap.old e work.old.items (Flex v.index (all_read heap.old xs.now)) (shape_at heap.old right.now) bs) work.new.items r) }
    ensures frozen { LeavesFrozen mark.index heap.old heap.new }
    ensures grows { Grows heap.old heap.new trail.old.entries trail.new.entries }
{
    match right {
        Side::Redex => Ok(Turn::Fault(Fault::Redex)),
        Side::Abstraction => opened(alloc, heap, work, e),
        Side::Rigid(_, _) => against(alloc, heap, trail, work, e, mark, v, xs, e.right),
        Side::Flexible(w, ys) => {
            two_flexible(alloc, heap, trail, work, e, mark, v, xs, *w, ys.as_slice())
        }
    }
}

/// Applies both sides to a fresh name.
fn opened(
    alloc: Global,
    heap: &mut Heap,
    work: &mut Vec<Equation>,
    e: Equation,
) -> Result<Turn, AllocError>
    requires equation { IsValidEquation heap.old e }
    requires valid { AllValidEquations heap.old work.old.items }
    ensures turn { IfOk result (λ r. (mark : ℕ) → IsTurn heap.old heap.new
        (λ bs. rule_at mark heap.old e work.old.items Abstraction Abstraction bs) work.new.items r) }
    ensures grows { Grows heap.old heap.new [] [] }
{
    heap.is_sound();
    let depth = inner_depth(e.depth)?;
    let left = applied(alloc, heap, e.left, e.depth)?;
    heap.is_sound();
    let right = applied(alloc, heap, e.right, e.depth)?;
    work.push(Equation { left, right, depth })?;
    Ok(Turn::Goes)
}
