//! A term applied to an argument, which an abstraction takes whole.

ghost use Rattle.std.specs.Prelude.{◌≡◌, [], ◌∷◌, ◌++◌, IfOk, Some};
ghost use Rattle.level_terms.specs.Graph.{node_at};
ghost use Rattle.level_terms.specs.Growth.{Grows};
ghost use Rattle.level_terms.specs.Reading.{read};
ghost use Rattle.level_terms.specs.Sound.{IsHead};
ghost use Rattle.level_terms.specs.Valid.{IsValid};
ghost use Rattle.level_terms.specs.declared.node.Node.TheVariants.{App as app_node};
ghost use Rattle.ref_terms.specs.terms.Apply.{apply};
ghost use Rattle.ref_terms.specs.search.BranchMove.{applied_whole};
ghost use Rattle.beta_fragment.specs.HeadForm.{IsHeadForm};
ghost use Rattle.beta_fragment.specs.Names.{names};

use beta_fragment::{Whnf, contract, whnf};
use level_terms::{Heap, Node, TermId, TermIds};
use std::alloc::{AllocError, Global};

/// An abstraction's body with the argument for its bound name, whatever the argument is, and any
/// other term applied to it. Makes no variable. Answers `AllocError` on want of memory alone.
pub fn apply_whole(
    alloc: Global,
    heap: &mut Heap,
    f: TermId,
    a: TermId,
    depth: usize,
) -> Result<TermId, AllocError>
    requires function { IsValid heap.old f.index depth }
    requires argument { IsValid heap.old a.index depth }
    ensures reads { IfOk result (λ r. read heap.new r.index names ≡ applied_whole (read heap.old f.index names) (read heap.old a.index names)) }
    ensures valid { IfOk result (λ r. IsValid heap.new r.index depth) }
    ensures variables { heap.new.depths ≡ heap.old.depths }
    ensures grows { Grows heap.old heap.new [] [] }
{
    heap.is_sound();
    let form = whnf(alloc, heap, f, depth)?;
    heap.is_sound();
    by_form(alloc, heap, &form, f, a, depth)
}

/// The same, by the term's form.
fn by_form(
    alloc: Global,
    heap: &mut Heap,
    form: &Whnf,
    f: TermId,
    a: TermId,
    depth: usize,
) -> Result<TermId, AllocError>
    requires form { IsHeadForm heap.old depth (read heap.old f.index names) form.now }
    requires function { IsValid heap.old f.index depth }
    requires argument { IsValid heap.old a.index depth }
    ensures reads { IfOk result (λ r. read heap.new r.index names ≡ applied_whole (read heap.old f.index names) (read heap.old a.index names)) }
    ensures valid { IfOk result (λ r. IsValid heap.new r.index depth) }
    ensures variables { heap.new.depths ≡ heap.old.depths }
    ensures grows { Grows heap.old heap.new [] [] }
{
    heap.is_sound();
    match form {
        Whnf::Lam(lam) => {
            let r = contract(alloc, heap, *lam, a, depth)?;
            Ok(r)
        }
        Whnf::Rigid(_, _) => {
            let r = with_argument(alloc, heap, f, a, depth)?;
            Ok(r)
        }
        Whnf::Flex(_, _) => {
            let r = with_argument(alloc, heap, f, a, depth)?;
            Ok(r)
        }
        Whnf::Redex(_, _) => {
            let r = with_argument(alloc, heap, f, a, depth)?;
            Ok(r)
        }
    }
}

/// The term applied to the argument.
fn with_argument(
    alloc: Global,
    heap: &mut Heap,
    f: TermId,
    a: TermId,
    depth: usize,
) -> Result<TermId, AllocError>
    requires function { IsValid heap.old f.index depth }
    requires argument { IsValid heap.old a.index depth }
    ensures reads { IfOk result (λ r. read heap.new r.index names ≡ apply (read heap.old f.index names) (read heap.old a.index names)) }
    ensures valid { IfOk result (λ r. IsValid heap.new r.index depth) }
    ensures variables { heap.new.depths ≡ heap.old.depths }
    ensures grows { Grows heap.old heap.new [] [] }
{
    heap.is_sound();
    match heap.view(f) {
        Node::App { head, args } => {
            let head = *head;
            let args = TermIds::from_slice(alloc, args.as_slice())?;
            with_last(heap, f, head, args, a, depth)
        }
        _ => with_first(heap, f, a, depth),
    }
}

/// A term that is no application, with its only argument.
fn with_first(heap: &mut Heap, f: TermId, a: TermId, depth: usize) -> Result<TermId, AllocError>
    requires function { IsValid heap.old f.index depth }
    requires argument { IsValid heap.old a.index depth }
    requires no_application { IsHead (node_at heap.old.nodes f.index) }
    ensures reads { IfOk result (λ r. read heap.new r.index names ≡ apply (read heap.old f.index names) (read heap.old a.index names)) }
    ensures valid { IfOk result (λ r. IsValid heap.new r.index depth) }
    ensures variables { heap.new.depths ≡ heap.old.depths }
    ensures grows { Grows heap.old heap.new [] [] }
{
    heap.is_sound();
    let r = heap.app(f, &[a])?;
    heap.is_sound();
    Ok(r)
}

/// An application of this head to these arguments, with one more argument, the last.
fn with_last(
    heap: &mut Heap,
    f: TermId,
    head: TermId,
    mut args: TermIds,
    a: TermId,
    depth: usize,
) -> Result<TermId, AllocError>
    requires function { IsValid heap.old f.index depth }
    requires argument { IsValid heap.old a.index depth }
    requires here { node_at heap.old.nodes f.index ≡ Some (app_node head args) }
    ensures reads { IfOk result (λ r. read heap.new r.index names ≡ apply (read heap.old f.index names) (read heap.old a.index names)) }
    ensures valid { IfOk result (λ r. IsValid heap.new r.index depth) }
    ensures variables { heap.new.depths ≡ heap.old.depths }
    ensures grows { Grows heap.old heap.new [] [] }
{
    heap.is_sound();
    args.push(a)?;
    let r = heap.app(head, args.as_slice())?;
    heap.is_sound();
    Ok(r)
}
