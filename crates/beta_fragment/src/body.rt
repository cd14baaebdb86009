//! The body of an abstraction, where it was made, and terms applied to the name of a level.

ghost use Rattle.std.specs.Prelude.{◌≡◌, ◌+◌, ℕ, [], Some, IfOk};
ghost use Rattle.level_terms.specs.Graph.{node_at};
ghost use Rattle.level_terms.specs.Valid.{IsValid};
ghost use Rattle.level_terms.specs.Reading.{read};
ghost use Rattle.level_terms.specs.Sound.{IsHead};
ghost use Rattle.level_terms.specs.Growth.{Grows};
ghost use Rattle.level_terms.specs.Reached.{IsUnreached};
ghost use Rattle.level_terms.specs.declared.node.Node.TheVariants.{Lam as lam_node, App as app_node};
ghost use Rattle.ref_terms.specs.terms.Apply.{apply};
ghost use Rattle.beta_fragment.specs.Names.{names};
ghost use Rattle.beta_fragment.specs.Body.{IsLamAt};

use level_terms::{Heap, Node, TermId, TermIds};
use std::alloc::{AllocError, Global};

/// The body of an abstraction that was made at this depth. It reads as the abstraction applied to
/// the name of that level. Takes no memory.
pub fn enter(heap: &Heap, lam: TermId, depth: usize) -> TermId
    requires made { IsLamAt depth (node_at heap.now.nodes lam.index) }
    requires valid { IsValid heap.now lam.index depth }
    ensures own { node_at heap.now.nodes lam.index ≡ Some (lam_node depth result) }
    ensures valid { IsValid heap.now result.index (depth + 1) }
    ensures reads { read heap.now result.index names ≡ apply (read heap.now lam.index names) (names depth) }
{
    heap.is_sound();
    match heap.view(lam) {
        Node::Lam { body, .. } => *body,
        _ => lam,
    }
}

/// The term, which is valid at the depth, applied to the name of that level. An abstraction that was
/// made at the depth has its own body for that; another term is applied as it stands, and nothing of
/// it is copied but its list of arguments. Makes no variable. Answers `AllocError` on want of memory
/// alone.
pub fn applied_to_level(
    alloc: Global,
    heap: &mut Heap,
    t: TermId,
    depth: usize,
) -> Result<TermId, AllocError>
    requires valid { IsValid heap.old t.index depth }
    ensures reads { IfOk result (λ r. read heap.new r.index names ≡ apply (read heap.old t.index names) (names depth)) }
    ensures valid { IfOk result (λ r. IsValid heap.new r.index (depth + 1)) }
    ensures unreached { IfOk result (λ r. (v : ℕ) → IsUnreached heap.old v t.index → IsUnreached heap.new v r.index) }
    ensures variables { heap.new.depths ≡ heap.old.depths }
    ensures grows { Grows heap.old heap.new [] [] }
{
    heap.is_sound();
    match heap.view(t) {
        Node::Lam { depth: made, .. } => {
            let made = *made;
            if made == depth {
                return Ok(enter(heap, t, depth));
            }
            with_first(heap, t, depth)
        }
        Node::App { head, args } => {
            let head = *head;
            let args = TermIds::from_slice(alloc, args.as_slice())?;
            with_last(heap, t, head, args, depth)
        }
        _ => with_first(heap, t, depth),
    }
}

/// A term that is no application, with the name of a level as its only argument.
fn with_first(heap: &mut Heap, t: TermId, depth: usize) -> Result<TermId, AllocError>
    requires valid { IsValid heap.old t.index depth }
    requires no_application { IsHead (node_at heap.old.nodes t.index) }
    ensures reads { IfOk result (λ r. read heap.new r.index names ≡ apply (read heap.old t.index names) (names depth)) }
    ensures valid { IfOk result (λ r. IsValid heap.new r.index (depth + 1)) }
    ensures unreached { IfOk result (λ r. (v : ℕ) → IsUnreached heap.old v t.index → IsUnreached heap.new v r.index) }
    ensures variables { heap.new.depths ≡ heap.old.depths }
    ensures grows { Grows heap.old heap.new [] [] }
{
    heap.is_sound();
    let name = heap.level(depth)?;
    heap.is_sound();
    let r = heap.app(t, &[name])?;
    heap.is_sound();
    Ok(r)
}

/// An application of this head to these arguments, with the name of a level as one more, the last.
fn with_last(
    heap: &mut Heap,
    t: TermId,
    head: TermId,
    mut args: TermIds,
    depth: usize,
) -> Result<TermId, AllocError>
    requires valid { IsValid heap.old t.index depth }
    requires here { node_at heap.old.nodes t.index ≡ Some (app_node head args) }
    ensures reads { IfOk result (λ r. read heap.new r.index names ≡ apply (read heap.old t.index names) (names depth)) }
    ensures valid { IfOk result (λ r. IsValid heap.new r.index (depth + 1)) }
    ensures unreached { IfOk result (λ r. (v : ℕ) → IsUnreached heap.old v t.index → IsUnreached heap.new v r.index) }
    ensures variables { heap.new.depths ≡ heap.old.depths }
    ensures grows { Grows heap.old heap.new [] [] }
{
    heap.is_sound();
    let name = heap.level(depth)?;
    heap.is_sound();
    args.push(name)?;
    let r = heap.app(head, args.as_slice())?;
    heap.is_sound();
    Ok(r)
}
