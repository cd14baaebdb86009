//! Hypothetical clauses at the names of a call.

ghost use Rattle.std.specs.Prelude.{◌≤◌, [], IfOk};
ghost use Rattle.level_terms.specs.Growth.{Grows};
ghost use Rattle.hyp_clause.specs.Headed.{IsHeaded};
ghost use Rattle.hyp_clause.specs.Hyps.{assumption_in, IsHypValid};
ghost use Rattle.hyp_clause.specs.Instances.{IsAssumptionAt};

use crate::hyp::{Hyp, HypAt, HypInstance};
use crate::instance::{hyp_body_of, hyp_head_of};
use level_terms::Heap;
use std::alloc::{AllocError, Global};

/// A hypothetical clause at the names of a call, whose depth isn't below the clause's own: the
/// reference's instance of the assumption, over new variables. It is made before the arguments are
/// unified. Answers `AllocError` on want of memory alone.
pub fn hyp_at(alloc: Global, heap: &mut Heap, hyp: &Hyp, depth: usize) -> Result<HypAt, AllocError>
    requires depth { hyp.now.depth ≤ depth }
    requires valid { IsHypValid heap.old hyp.now }
    requires headed { IsHeaded (assumption_in heap.old hyp.now) }
    ensures made { IfOk result (λ i. IsAssumptionAt (assumption_in heap.old hyp.now) depth heap.old heap.new i.args.items i.body.items) }
    ensures grows { Grows heap.old heap.new [] [] }
{
    heap.is_sound();
    let instance = hyp_head_of(alloc, heap, hyp, depth)?;
    heap.is_sound();
    let body = hyp_body_of(alloc, heap, hyp, &instance)?;
    let HypInstance { args, .. } = instance;
    Ok(HypAt { args, body })
}
