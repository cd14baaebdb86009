//! Terms made anew.

ghost use Rattle.std.specs.Prelude.{◌≡◌, ℕ, [], false, IfOk};
ghost use Rattle.level_terms.specs.Growth.{Grows};
ghost use Rattle.level_terms.specs.Reached.{IsUnreached};
ghost use Rattle.level_terms.specs.Reading.{read};
ghost use Rattle.level_terms.specs.Valid.{IsValid};
ghost use Rattle.ref_terms.specs.terms.Occurs.{occurs};
ghost use Rattle.beta_fragment.specs.Names.{names};

use crate::cells::Cells;
use crate::evaluating::evaluated;
use crate::levels::Levels;
use crate::quoting::quoted;
use level_terms::{Heap, TermId};
use std::alloc::{AllocError, Global};

/// The term made anew from what it reads as: what reduction drops isn't reached from it. Makes no
/// variable. Answers `AllocError` on want of memory alone. Takes as long as the node's own tree and
/// its reading are large.
pub fn rebuild(
    alloc: Global,
    heap: &mut Heap,
    t: TermId,
    depth: usize,
) -> Result<TermId, AllocError>
    requires valid { IsValid heap.old t.index depth }
    ensures reads { IfOk result (λ r. read heap.new r.index names ≡ read heap.old t.index names) }
    ensures valid { IfOk result (λ r. IsValid heap.new r.index depth) }
    ensures unreached { IfOk result (λ r. (v : ℕ) → occurs v (read heap.old t.index names) ≡ false → IsUnreached heap.new v r.index) }
    ensures variables { heap.new.depths ≡ heap.old.depths }
    ensures grows { Grows heap.old heap.new [] [] }
{
    heap.is_sound();
    let levels = Levels::own(alloc, depth);
    let mut cells = Cells::new(alloc);
    let number = evaluated(alloc, heap, &mut cells, t, &levels, &[], depth)?;
    quoted(alloc, heap, &cells, number, depth, None)
}
