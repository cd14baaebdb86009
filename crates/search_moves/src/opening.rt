//! Terms applied to new variables.

ghost use Rattle.std.specs.Prelude.{◌≡◌, ◌++◌, [], ◌∷◌, length, IfOk, OnOk};
ghost use Rattle.level_terms.specs.Growth.{Grows};
ghost use Rattle.level_terms.specs.Reading.{read};
ghost use Rattle.level_terms.specs.Valid.{IsValid};
ghost use Rattle.ref_terms.specs.search.BranchMove.{applied_whole};
ghost use Rattle.ref_terms.specs.search.Instance.{variable_under};
ghost use Rattle.beta_fragment.specs.Names.{names};

use builtins::apply_whole;
use level_terms::{Heap, TermId};
use std::alloc::{AllocError, Global};

/// A term applied to a new variable under so many names, which an abstraction takes whole.
pub(crate) fn applied_to_variable(
    alloc: Global,
    heap: &mut Heap,
    f: TermId,
    depth: usize,
) -> Result<TermId, AllocError>
    requires { IsValid heap.old f.index depth }
    ensures reads { IfOk result (λ r. read heap.new r.index names ≡ applied_whole (read heap.old f.index names) (variable_under depth (length heap.old.depths))) }
    ensures valid { IfOk result (λ r. IsValid heap.new r.index depth) }
    ensures variables { OnOk result (heap.new.depths ≡ heap.old.depths ++ depth ∷ []) }
    ensures grows { Grows heap.old heap.new [] [] }
{
    heap.is_sound();
    let v = heap.fresh_var(depth)?;
    heap.is_sound();
    let a = heap.var(v)?;
    heap.is_sound();
    let r = apply_whole(alloc, heap, f, a, depth)?;
    Ok(r)
}
