//! What the rules look at in a side of an equation.

ghost use Rattle.std.specs.Prelude.{◌≡◌, [], true, IfOk};
ghost use Rattle.level_terms.specs.Growth.{Grows};
ghost use Rattle.level_terms.specs.Reading.{read};
ghost use Rattle.level_terms.specs.Valid.{IsValid};
ghost use Rattle.ref_terms.specs.unification.Shape.{shape};
ghost use Rattle.beta_fragment.specs.Names.{names};
ghost use Rattle.pattern_unify.specs.inside.Sides.{shape_at, side_by, variable_by, IsSideAt, IsRigid};

use beta_fragment::{RigidHead, Whnf, whnf};
use level_terms::{Heap, TermId, TermIds, VarId};
use std::alloc::{AllocError, Global};

/// A head that no assignment here changes.
#[derive(Clone, Copy, Debug, PartialEq, Eq)]
pub(crate) enum Head {
    /// No variable.
    Fixed(RigidHead),
    /// A frozen variable.
    Frozen(VarId),
}

/// What the rules look at.
#[derive(Drop)]
pub(crate) enum Side {
    /// An abstraction.
    Abstraction,
    /// A stuck redex.
    Redex,
    /// A rigid head with its arguments.
    Rigid(Head, TermIds),
    /// An assignable variable with its spine.
    Flexible(VarId, TermIds),
}

/// What the rules see of a term. Variables below the mark are frozen.
pub(crate) fn side_of(
    alloc: Global,
    heap: &mut Heap,
    mark: VarId,
    t: TermId,
    depth: usize,
) -> Result<Side, AllocError>
    requires valid { IsValid heap.old t.index depth }
    ensures shape { IfOk result (λ s. shape mark.index (read heap.old t.index names) ≡ shape_at heap.new s) }
    ensures side { IfOk result (λ s. IsSideAt heap.new mark.index depth s) }
    ensures variables { heap.new.depths ≡ heap.old.depths }
    ensures grows { Grows heap.old heap.new [] [] }
{
    let form = whnf(alloc, heap, t, depth)?;
    Ok(side_in(mark, form))
}

/// What the rules see of a term of this form.
fn side_in(mark: VarId, form: Whnf) -> Side
    ensures { result ≡ side_by mark.index form }
{
    match form {
        Whnf::Lam(_) => Side::Abstraction,
        Whnf::Redex(_, _) => Side::Redex,
        Whnf::Rigid(head, args) => Side::Rigid(Head::Fixed(head), args),
        Whnf::Flex(v, args) => variable_side(mark, v, args),
    }
}

/// What the rules see of a variable without a value.
fn variable_side(mark: VarId, v: VarId, args: TermIds) -> Side
    ensures { result ≡ variable_by mark.index v args }
{
    if v.index < mark.index {
        Side::Rigid(Head::Frozen(v), args)
    } else {
        Side::Flexible(v, args)
    }
}

/// Whether the head is rigid.
pub(crate) fn is_rigid(side: &Side) -> bool
    ensures { result ≡ true → IsRigid side.now }
{
    match side {
        Side::Rigid(_, _) => true,
        _ => false,
    }
}
