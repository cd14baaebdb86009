//! What stands at a term's head, where a look at nodes can't tell: the term is kept by its parts,
//! and taken apart.

ghost use Rattle.std.specs.Prelude.{◌≡◌, ℕ, [], ◌<◌, length, reverse, IfOk};
ghost use Rattle.level_terms.specs.Valid.{IsValid};
ghost use Rattle.level_terms.specs.Growth.{Grows};
ghost use Rattle.ref_terms.specs.terms.Term.{Term};
ghost use Rattle.beta_fragment.specs.Names.{AllBelow};
ghost use Rattle.beta_fragment.specs.HeadForm.{IsHeadForm, AllValidAt, IsAbstraction};
ghost use Rattle.beta_fragment.specs.Firm.{IsSpine};
ghost use Rattle.beta_fragment.specs.inside.Cells.{terms_of, term_at};
ghost use Rattle.beta_fragment.specs.inside.Settled.{IsQuotable, IsUnwound};

use crate::answer::Whnf;
use crate::cells::{Cell, Cells};
use crate::evaluating::evaluated;
use crate::head::in_order;
use crate::levels::Levels;
use crate::quoting::quoted;
use level_terms::{Heap, TermId};
use std::alloc::{AllocError, Global};

/// The form of the node at the head with its levels renamed, before arguments, of which the first is
/// the last in the list. Answers `AllocError` on want of memory alone.
pub(crate) fn settled(
    alloc: Global,
    heap: &mut Heap,
    head: TermId,
    levels: &Levels,
    args: &[TermId],
    depth: usize,
) -> Result<Whnf, AllocError>
    requires head { IsValid heap.old head.index (length levels.now) }
    requires args { AllValidAt heap.old (reverse args.now) depth }
    requires below { AllBelow levels.now depth }
    ensures form { IfOk result (λ w. (u : Term) → IsSpine heap.old depth u head.index levels.now args.now → IsHeadForm heap.new depth u w) }
    ensures variables { heap.new.depths ≡ heap.old.depths }
    ensures grows { Grows heap.old heap.new [] [] }
{
    heap.is_sound();
    let mut cells = Cells::new(alloc);
    let t = evaluated(alloc, heap, &mut cells, head, levels, args, depth)?;
    form_of(alloc, heap, &cells, t, depth)
}

/// The form of a term that is kept: its arguments are quoted, the last one first.
fn form_of(
    alloc: Global,
    heap: &mut Heap,
    cells: &Cells,
    t: usize,
    depth: usize,
) -> Result<Whnf, AllocError>
    requires there { t < length (terms_of cells.now) }
    requires quotable { IsQuotable heap.old depth (term_at (terms_of cells.now) t) }
    ensures form { IfOk result (λ w. IsHeadForm heap.new depth (term_at (terms_of cells.now) t) w) }
    ensures variables { heap.new.depths ≡ heap.old.depths }
    ensures grows { Grows heap.old heap.new [] [] }
{
    heap.is_sound();
    let mut head = t;
    let mut args = Vec::new(alloc);
    loop {
        heap.is_sound();
        match cells.get(head) {
            Cell::App(f, a) => {
                let r = quoted(alloc, heap, cells, a, depth, None)?;
                args.push(r)?;
                head = f;
            }
            Cell::Lam(_) => return lam_form(alloc, heap, cells, head, depth, args.as_slice()),
            Cell::Rigid(h) => {
                let list = in_order(alloc, &[], args.as_slice())?;
                return Ok(Whnf::Rigid(h, list));
            }
            Cell::Var(v) => {
                let list = in_order(alloc, &[], args.as_slice())?;
                return Ok(Whnf::Flex(v, list));
            }
            Cell::Bound(_) => unreachable!(),
        }
    }
}

/// The form of an abstraction before its arguments.
fn lam_form(
    alloc: Global,
    heap: &mut Heap,
    cells: &Cells,
    t: usize,
    depth: usize,
    args: &[TermId],
) -> Result<Whnf, AllocError>
    requires there { t < length (terms_of cells.now) }
    requires quotable { IsQuotable heap.old depth (term_at (terms_of cells.now) t) }
    requires lam { IsAbstraction (term_at (terms_of cells.now) t) }
    ensures form { IfOk result (λ w. (u : Term) → IsUnwound heap.old depth u (term_at (terms_of cells.now) t) args.now → IsHeadForm heap.new depth u w) }
    ensures variables { heap.new.depths ≡ heap.old.depths }
    ensures grows { Grows heap.old heap.new [] [] }
{
    heap.is_sound();
    let r = quoted(alloc, heap, cells, t, depth, None)?;
    if args.is_empty() {
        return Ok(Whnf::Lam(r));
    }
    let list = in_order(alloc, &[], args)?;
    Ok(Whnf::Redex(r, list))
}
