//! Two rigid heads.

ghost use Rattle.std.specs.Prelude.{◌≡◌, ◌∷◌, [], ◌++◌, List, length, reverse, IfOk, OnOk};
ghost use Rattle.level_terms.specs.Graph.{Graph};
ghost use Rattle.ref_terms.specs.unification.Problem.{Binding};
ghost use Rattle.ref_terms.specs.unification.Rules.{head_eq, two_rigid as reference_two_rigid};
ghost use Rattle.beta_fragment.specs.HeadForm.{all_read, AllValidAt};
ghost use Rattle.pattern_unify.specs.inside.Equations.{equation_at, equations_at, arguments_of, problem_at, IsValidEquation, AllValidEquations};
ghost use Rattle.pattern_unify.specs.inside.Sides.{head_at};
ghost use Rattle.pattern_unify.specs.inside.Turns.{IsTurn};

use crate::equation::{Equation, Turn};
use crate::side::Head;
use level_terms::{Heap, TermId};
use std::alloc::AllocError;

/// Two rigid heads: equal ones with equally many arguments leave the equations of these, from left
/// to right; others clash.
pub(crate) fn two_rigid(
    heap: &Heap,
    work: &mut Vec<Equation>,
    e: Equation,
    h: Head,
    xs: &[TermId],
    k: Head,
    ys: &[TermId],
) -> Result<Turn, AllocError>
    requires left { AllValidAt heap.now xs.now e.depth }
    requires right { AllValidAt heap.now ys.now e.depth }
    requires valid { AllValidEquations heap.now work.old.items }
    ensures turn { IfOk result (λ r. IsTurn heap.now heap.now
        (λ bs. reference_two_rigid (head_at h) (all_read heap.now xs.now) (head_at k) (all_read heap.now ys.now) (equation_at heap.now e) (equations_at heap.now work.old.items) (problem_at heap.now (work.old.items ++ e ∷ []) bs)) work.new.items r) }
{
    if !is_same_head(h, k) || xs.len() != ys.len() {
        return Ok(Turn::Clash);
    }
    push_arguments(work, e.depth, xs, ys)?;
    Ok(Turn::Goes)
}

/// Whether both heads are one.
fn is_same_head(h: Head, k: Head) -> bool
    ensures { result ≡ head_eq (head_at h) (head_at k) }
{
    h == k
}

/// Puts the equations of arguments onto the work, the first one last.
fn push_arguments(
    work: &mut Vec<Equation>,
    depth: usize,
    xs: &[TermId],
    ys: &[TermId],
) -> Result<(), AllocError>
    requires { length xs.now ≡ length ys.now }
    ensures { OnOk result (work.new.items ≡ work.old.items ++ reverse (arguments_of depth xs.now ys.now)) }
{
    let mut i = xs.len();
    while i > 0 {
        i -= 1;
        work.push(Equation {
            left: xs[i],
            right: ys[i],
            depth,
        })?;
    }
    Ok(())
}
