//! Variables that lose positions of their spines: each becomes a new variable over those that stay.

ghost use Rattle.std.specs.Prelude.{◌≡◌, ◌<◌, ℕ, suc, false, nat_eq, map, length, slice_index, IfOk, OnOk};
ghost use Rattle.level_terms.specs.Graph.{value_in};
ghost use Rattle.level_terms.specs.Growth.{Grows};
ghost use Rattle.level_terms.specs.Reading.{read};
ghost use Rattle.ref_terms.specs.terms.Term.{Term};
ghost use Rattle.ref_terms.specs.terms.Instance.{inst};
ghost use Rattle.ref_terms.specs.unification.Closing.{keeping};
ghost use Rattle.ref_terms.specs.unification.Pattern.{of_name};
ghost use Rattle.ref_terms.specs.unification.Positions.{agreeing, shared, positions_of, all_but};
ghost use Rattle.beta_fragment.specs.Names.{AllBelow};
ghost use Rattle.pattern_unify.specs.Bound.{IsOpen, IsBound, LeavesOthers};

use crate::keeping::keep_over;
use crate::positions::{agreeing, all_but, positions_of, shared};
use level_terms::{Change, Heap, VarId};
use std::alloc::{AllocError, Global};
use trail::Trail;

/// The variable keeps the positions at which both spines have one name.
pub(crate) fn keep_agreeing(
    alloc: Global,
    heap: &mut Heap,
    trail: &mut Trail<Change>,
    v: VarId,
    xs: &[usize],
    ys: &[usize],
) -> Result<(), AllocError>
    requires variable { IsOpen heap.old v.index }
    requires lengths { length xs.now ≡ length ys.now }
    ensures bound { OnOk result (IsBound heap.old heap.new v.index (keeping (length xs.now) (agreeing 0 (map of_name xs.now) (map of_name ys.now)) (length heap.old.depths))) }
    ensures others { LeavesOthers v.index heap.old heap.new }
    ensures variables { OnOk result (length heap.new.depths ≡ suc (length heap.old.depths)) }
    ensures grows { Grows heap.old heap.new trail.old.entries trail.new.entries }
{
    let kept = agreeing(alloc, xs, ys)?;
    keep_over_new(alloc, heap, trail, v, xs.len(), &kept)?;
    Ok(())
}

/// Two variables become one over the names that their spines share, in the order of the left one.
pub(crate) fn meet(
    alloc: Global,
    heap: &mut Heap,
    trail: &mut Trail<Change>,
    v: VarId,
    w: VarId,
    xs: &[usize],
    ys: &[usize],
) -> Result<(), AllocError>
    requires left { IsOpen heap.old v.index }
    requires right { IsOpen heap.old w.index }
    requires two { nat_eq v.index w.index ≡ false }
    ensures bound { OnOk result ((t : ℕ) (env : ℕ → Term) → t < length heap.old.nodes → read heap.new t env ≡
        inst w.index (keeping (length ys.now) (positions_of 0 (map of_name xs.now) (map of_name ys.now)) (length heap.old.depths))
        (inst v.index (keeping (length xs.now) (shared 0 (map of_name xs.now) (map of_name ys.now)) (length heap.old.depths)) (read heap.old t env))) }
    ensures others { (u : ℕ) → nat_eq v.index u ≡ false → nat_eq w.index u ≡ false → value_in heap.new.assigned u ≡ value_in heap.old.assigned u }
    ensures variables { OnOk result (length heap.new.depths ≡ suc (length heap.old.depths)) }
    ensures grows { Grows heap.old heap.new trail.old.entries trail.new.entries }
{
    let kept = shared(alloc, xs, ys)?;
    let positions = positions_of(alloc, xs, ys)?;
    let other = keep_over_new(alloc, heap, trail, v, xs.len(), &kept)?;
    keep_over(alloc, heap, trail, w, ys.len(), &positions, other)
}

/// The variable keeps all of so many positions but one.
pub(crate) fn drop_position(
    alloc: Global,
    heap: &mut Heap,
    trail: &mut Trail<Change>,
    v: VarId,
    position: usize,
    arity: usize,
) -> Result<(), AllocError>
    requires variable { IsOpen heap.old v.index }
    ensures bound { OnOk result (IsBound heap.old heap.new v.index (keeping arity (all_but position arity) (length heap.old.depths))) }
    ensures others { LeavesOthers v.index heap.old heap.new }
    ensures variables { OnOk result (length heap.new.depths ≡ suc (length heap.old.depths)) }
    ensures grows { Grows heap.old heap.new trail.old.entries trail.new.entries }
{
    let kept = all_but(alloc, position, arity)?;
    keep_over_new(alloc, heap, trail, v, arity, &kept)?;
    Ok(())
}

/// Gives the variable a new one, over these of so many positions, as its value, and returns the new one.
fn keep_over_new(
    alloc: Global,
    heap: &mut Heap,
    trail: &mut Trail<Change>,
    v: VarId,
    arity: usize,
    kept: &[usize],
) -> Result<VarId, AllocError>
    requires variable { IsOpen heap.old v.index }
    requires kept { AllBelow kept.now arity }
    ensures number { IfOk result (λ r. r.index ≡ length heap.old.depths) }
    ensures open { IfOk result (λ r. IsOpen heap.new r.index) }
    ensures without_levels { IfOk result (λ r. slice_index heap.new.depths r.index ≡ 0) }
    ensures bound { OnOk result (IsBound heap.old heap.new v.index (keeping arity kept.now (length heap.old.depths))) }
    ensures others { LeavesOthers v.index heap.old heap.new }
    ensures variables { OnOk result (length heap.new.depths ≡ suc (length heap.old.depths)) }
    ensures grows { Grows heap.old heap.new trail.old.entries trail.new.entries }
{
    heap.is_sound();
    let other = heap.fresh_var(0)?;
    keep_over(alloc, heap, trail, v, arity, kept, other)?;
    Ok(other)
}
