//! Nodes of the forms around a clause.

ghost use Rattle.std.specs.Prelude.{◌≡◌, ℕ, ◌+◌, ◌<◌, [], length, IfOk};
ghost use Rattle.level_terms.specs.Valid.{IsValid};
ghost use Rattle.level_terms.specs.Reading.{read};
ghost use Rattle.level_terms.specs.Growth.{Grows};
ghost use Rattle.ref_terms.specs.terms.Term.{At, Con};
ghost use Rattle.ref_terms.specs.unification.Spine.{apply_all};
ghost use Rattle.ref_terms.specs.unification.Closing.{close};
ghost use Rattle.beta_fragment.specs.Names.{names};
ghost use Rattle.beta_fragment.specs.HeadForm.{all_read, AllValidAt};

use level_terms::{Heap, TermId};
use ref_terms::Sym;
use std::alloc::AllocError;

/// The node of a constant. Answers `AllocError` on want of memory alone.
pub fn constant(heap: &mut Heap, c: Sym) -> Result<TermId, AllocError>
    ensures reads { IfOk result (λ r. read heap.new r.index names ≡ At (Con c.0)) }
    ensures valid { IfOk result (λ r. (depth : ℕ) → IsValid heap.new r.index depth) }
    ensures variables { heap.new.depths ≡ heap.old.depths }
    ensures grows { Grows heap.old heap.new [] [] }
{
    heap.is_sound();
    let r = heap.con(c)?;
    heap.is_sound();
    Ok(r)
}

/// A constant applied to one argument or more, which are valid at a depth. Answers `AllocError` on
/// want of memory alone.
pub fn constant_applied(
    heap: &mut Heap,
    c: Sym,
    args: &[TermId],
    depth: usize,
) -> Result<TermId, AllocError>
    requires args { AllValidAt heap.old args.now depth }
    requires some { 0 < length args.now }
    ensures reads { IfOk result (λ r. read heap.new r.index names ≡ apply_all (At (Con c.0)) (all_read heap.old args.now)) }
    ensures valid { IfOk result (λ r. IsValid heap.new r.index depth) }
    ensures variables { heap.new.depths ≡ heap.old.depths }
    ensures grows { Grows heap.old heap.new [] [] }
{
    heap.is_sound();
    let head = heap.con(c)?;
    heap.is_sound();
    let r = heap.app(head, args)?;
    heap.is_sound();
    Ok(r)
}

/// A node abstracted over the name of a level. It is valid one level deeper.
pub(crate) fn abstracted(heap: &mut Heap, level: usize, body: TermId) -> Result<TermId, AllocError>
    requires { IsValid heap.old body.index (level + 1) }
    ensures reads { IfOk result (λ r. read heap.new r.index names ≡ close level (read heap.old body.index names)) }
    ensures valid { IfOk result (λ r. IsValid heap.new r.index level) }
    ensures variables { heap.new.depths ≡ heap.old.depths }
    ensures grows { Grows heap.old heap.new [] [] }
{
    heap.is_sound();
    let r = heap.lam(level, body)?;
    heap.is_sound();
    Ok(r)
}
