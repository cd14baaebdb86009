//! A variable keeps some positions of its spine: its value is a new variable over these.

ghost use Rattle.std.specs.Prelude.{◌≡◌, ◌<◌, [], length, slice_index, IfOk, OnOk};
ghost use Rattle.level_terms.specs.Growth.{Grows};
ghost use Rattle.ref_terms.specs.unification.Closing.{keeping};
ghost use Rattle.beta_fragment.specs.Names.{AllBelow};
ghost use Rattle.pattern_unify.specs.Bound.{IsOpen, IsBound, LeavesOthers};
ghost use Rattle.pattern_unify.specs.inside.Keeping.{AreLevels, IsVarOver};

use crate::assigning::assign_over;
use level_terms::{Change, Heap, TermId, VarId};
use std::alloc::{AllocError, Global};
use trail::Trail;

/// Gives the variable another one, over these of so many positions, as its value. The other one is
/// there, was made without levels, has no value, and isn't the variable itself.
pub(crate) fn keep_over(
    alloc: Global,
    heap: &mut Heap,
    trail: &mut Trail<Change>,
    v: VarId,
    arity: usize,
    kept: &[usize],
    other: VarId,
) -> Result<(), AllocError>
    requires variable { IsOpen heap.old v.index }
    requires kept { AllBelow kept.now arity }
    requires other { IsOpen heap.old other.index }
    requires without_levels { slice_index heap.old.depths other.index ≡ 0 }
    requires another { v.index < other.index }
    ensures bound { OnOk result (IsBound heap.old heap.new v.index (keeping arity kept.now other.index)) }
    ensures others { LeavesOthers v.index heap.old heap.new }
    ensures variables { heap.new.depths ≡ heap.old.depths }
    ensures grows { Grows heap.old heap.new trail.old.entries trail.new.entries }
{
    heap.is_sound();
    let body = var_over(alloc, heap, other, kept)?;
    heap.is_sound();
    assign_over(alloc, heap, trail, v, arity, body)
}

/// The node of a variable over levels, without an application where there are none.
fn var_over(
    alloc: Global,
    heap: &mut Heap,
    x: VarId,
    levels: &[usize],
) -> Result<TermId, AllocError>
    requires { x.index < length heap.old.depths }
    ensures over { IfOk result (λ r. IsVarOver heap.new r.index x levels.now) }
    ensures variables { heap.new.depths ≡ heap.old.depths }
    ensures grows { Grows heap.old heap.new [] [] }
{
    let head = heap.var(x)?;
    if levels.is_empty() {
        return Ok(head);
    }
    let args = level_nodes(alloc, heap, levels)?;
    let node = heap.app(head, args.as_slice())?;
    Ok(node)
}

/// The nodes of levels.
fn level_nodes(alloc: Global, heap: &mut Heap, levels: &[usize]) -> Result<Vec<TermId>, AllocError>
    ensures levels { IfOk result (λ ts. AreLevels heap.new ts.items levels.now) }
    ensures variables { heap.new.depths ≡ heap.old.depths }
    ensures grows { Grows heap.old heap.new [] [] }
{
    let mut nodes = Vec::new(alloc);
    for level in levels {
        let node = heap.level(*level)?;
        nodes.push(node)?;
    }
    Ok(nodes)
}
