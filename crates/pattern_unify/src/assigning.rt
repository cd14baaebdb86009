//! A variable gets a node, abstracted over levels, as its value.

ghost use Rattle.std.specs.Prelude.{◌≡◌, ◌≤◌, [], false, IfOk, OnOk};
ghost use Rattle.level_terms.specs.Growth.{Grows};
ghost use Rattle.level_terms.specs.Reached.{IsUnreached};
ghost use Rattle.level_terms.specs.Reading.{read};
ghost use Rattle.level_terms.specs.Valid.{IsValid};
ghost use Rattle.ref_terms.specs.terms.Occurs.{occurs};
ghost use Rattle.ref_terms.specs.unification.Closing.{close_all, names_below};
ghost use Rattle.beta_fragment.specs.Names.{names};
ghost use Rattle.pattern_unify.specs.Bound.{IsOpen, IsBound, LeavesOthers};
ghost use Rattle.pattern_unify.specs.inside.Closed.{ClosesAlike};

use crate::applying::applied;
use crate::reaching::node_without;
use crate::settled::settled;
use level_terms::{Change, Heap, TermId, VarId};
use std::alloc::{AllocError, Global};
use trail::Trail;

/// Gives the variable the body, abstracted over the levels below `count`, as its value. A variable
/// that was made under fewer levels gets abstractions for the others; one that was made under more
/// gets the body applied to those from `count` on, which reads the same.
pub(crate) fn assign_over(
    alloc: Global,
    heap: &mut Heap,
    trail: &mut Trail<Change>,
    v: VarId,
    count: usize,
    body: TermId,
) -> Result<(), AllocError>
    requires variable { IsOpen heap.old v.index }
    requires valid { IsValid heap.old body.index count }
    requires unreached { IsUnreached heap.old v.index body.index }
    ensures bound { OnOk result (IsBound heap.old heap.new v.index (close_all (names_below count) (read heap.old body.index names))) }
    ensures others { LeavesOthers v.index heap.old heap.new }
    ensures variables { heap.new.depths ≡ heap.old.depths }
    ensures grows { Grows heap.old heap.new trail.old.entries trail.new.entries }
{
    let depth = heap.var_depth(v);
    heap.is_sound();
    let value = moved_to(alloc, heap, count, depth, body)?;
    trail.reserve(1)?;
    heap.is_sound();
    heap.assign(trail, v, value);
    Ok(())
}

/// Gives the variable the body, abstracted over the levels below `count`, as its value, where the
/// body lacks the variable. Where that is reached from the body's node all the same, the body is made
/// anew.
pub(crate) fn assign_absent(
    alloc: Global,
    heap: &mut Heap,
    trail: &mut Trail<Change>,
    v: VarId,
    count: usize,
    body: TermId,
) -> Result<(), AllocError>
    requires variable { IsOpen heap.old v.index }
    requires valid { IsValid heap.old body.index count }
    requires absent { occurs v.index (read heap.old body.index names) ≡ false }
    ensures bound { OnOk result (IsBound heap.old heap.new v.index (close_all (names_below count) (read heap.old body.index names))) }
    ensures others { LeavesOthers v.index heap.old heap.new }
    ensures variables { heap.new.depths ≡ heap.old.depths }
    ensures grows { Grows heap.old heap.new trail.old.entries trail.new.entries }
{
    heap.is_sound();
    let body = settled(heap, body, count);
    let node = node_without(alloc, heap, v, body, count)?;
    assign_over(alloc, heap, trail, v, count, node)
}

/// A node under the second depth that closes as the body, under the first depth, does.
fn moved_to(
    alloc: Global,
    heap: &mut Heap,
    from: usize,
    to: usize,
    body: TermId,
) -> Result<TermId, AllocError>
    requires { IsValid heap.old body.index from }
    ensures alike { IfOk result (λ r. ClosesAlike heap.old heap.new body.index from r.index to) }
    ensures variables { heap.new.depths ≡ heap.old.depths }
    ensures grows { Grows heap.old heap.new [] [] }
{
    if to <= from {
        abstracted(heap, from, to, body)
    } else {
        extended(alloc, heap, from, to, body)
    }
}

/// The node abstracted over the levels from the second depth up to the first.
fn abstracted(heap: &mut Heap, from: usize, to: usize, body: TermId) -> Result<TermId, AllocError>
    requires valid { IsValid heap.old body.index from }
    requires low { to ≤ from }
    ensures alike { IfOk result (λ r. ClosesAlike heap.old heap.new body.index from r.index to) }
    ensures variables { heap.new.depths ≡ heap.old.depths }
    ensures grows { Grows heap.old heap.new [] [] }
{
    let mut level = from;
    let mut node = body;
    while level > to {
        level -= 1;
        heap.is_sound();
        node = heap.lam(level, node)?;
        heap.is_sound();
    }
    Ok(node)
}

/// The node applied to the levels from the first depth up to the second.
fn extended(
    alloc: Global,
    heap: &mut Heap,
    from: usize,
    to: usize,
    body: TermId,
) -> Result<TermId, AllocError>
    requires valid { IsValid heap.old body.index from }
    requires high { from ≤ to }
    ensures alike { IfOk result (λ r. ClosesAlike heap.old heap.new body.index from r.index to) }
    ensures variables { heap.new.depths ≡ heap.old.depths }
    ensures grows { Grows heap.old heap.new [] [] }
{
    let mut level = from;
    let mut node = body;
    while level < to {
        node = applied(alloc, heap, node, level)?;
        level += 1;
    }
    Ok(node)
}
