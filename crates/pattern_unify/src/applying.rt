//! A side applied to a fresh name.

ghost use Rattle.std.specs.Prelude.{◌≡◌, ◌+◌, ℕ, [], Some, IfOk};
ghost use Rattle.level_terms.specs.Graph.{node_at};
ghost use Rattle.level_terms.specs.Sound.{IsHead};
ghost use Rattle.level_terms.specs.Growth.{Grows};
ghost use Rattle.level_terms.specs.Reading.{read};
ghost use Rattle.level_terms.specs.Reached.{IsUnreached};
ghost use Rattle.level_terms.specs.Valid.{IsValid};
ghost use Rattle.level_terms.specs.declared.node.Node.TheVariants.{App as app_node};
ghost use Rattle.ref_terms.specs.terms.Apply.{apply};
ghost use Rattle.beta_fragment.specs.Names.{names};

use beta_fragment::enter;
use level_terms::{Heap, Node, TermId, TermIds};
use std::alloc::{AllocError, Global};

/// The term applied to the name of the level `depth`, under which it is valid. An abstraction that
/// was made at that depth has its own body for that.
pub(crate) fn applied(
    alloc: Global,
    heap: &mut Heap,
    t: TermId,
    depth: usize,
) -> Result<TermId, AllocError>
    requires valid { IsValid heap.old t.index depth }
    ensures reads { IfOk result (λ r. read heap.new r.index names ≡ apply (read heap.old t.index names) (names depth)) }
    ensures valid { IfOk result (λ r. IsValid heap.new r.index (depth + 1)) }
    ensures unreached { IfOk result (λ r. (v : ℕ) → IsUnreached heap.old v t.index → IsUnreached heap.new v r.index) }
    ensures variables { heap.new.depths ≡ heap.old.depths }
    ensures grows { Grows heap.old heap.new [] [] }
{
    heap.is_sound();
    match heap.view(t) {
        Node::Lam { depth: made, .. } => {
            let made = *made;
            if made == depth {
                return Ok(enter(heap, t, depth));
            }
            with_first(heap, t, depth)
        }
        Node::App { head, args } => {
            let head = *head;
            let args = TermIds::from_slice(alloc, args.as_slice())?;
            with_last(heap, t, head, args, depth)
        }
        _ => with_first(heap, t, depth),
    }
}

/// The number of levels with one more, or `AllocError` past 64 bits.
pub(crate) fn inner_depth(depth: usize) -> Result<usize, AllocError>
    ensures { IfOk result (λ n. n ≡ depth + 1) }
{
    depth.checked_add(1).ok_or(AllocError)
}

/// A term that is no application, with the name of a level as its only argument.
fn with_first(heap: &mut Heap, t: TermId, depth: usize) -> Result<TermId, AllocError>
    requires valid { IsValid heap.old t.index depth }
    requires no_application { IsHead (node_at heap.old.nodes t.index) }
    ensures reads { IfOk result (λ r. read heap.new r.index names ≡ apply (read heap.old t.index names) (names depth)) }
    ensures valid { IfOk result (λ r. IsValid heap.new r.index (depth + 1)) }
    ensures unreached { IfOk result (λ r. (v : ℕ) → IsUnreached heap.old v t.index → IsUnreached heap.new v r.index) }
    ensures variables { heap.new.depths ≡ heap.old.depths }
    ensures grows { Grows heap.old heap.new [] [] }
{
    heap.is_sound();
    let name = heap.level(depth)?;
    heap.is_sound();
    let r = heap.app(t, &[name])?;
    heap.is_sound();
    Ok(r)
}

/// An application of this head to these arguments, with the name of a level as one more, the last.
fn with_last(
    heap: &mut Heap,
    t: TermId,
    head: TermId,
    mut args: TermIds,
    depth: usize,
) -> Result<TermId, AllocError>
    requires valid { IsValid heap.old t.index depth }
    requires here { node_at heap.old.nodes t.index ≡ Some (app_node head args) }
    ensures reads { IfOk result (λ r. read heap.new r.index names ≡ apply (read heap.old t.index names) (names depth)) }
    ensures valid { IfOk result (λ r. IsValid heap.new r.index (depth + 1)) }
    ensures unreached { IfOk result (λ r. (v : ℕ) → IsUnreached heap.old v t.index → IsUnreached heap.new v r.index) }
    ensures variables { heap.new.depths ≡ heap.old.depths }
    ensures grows { Grows heap.old heap.new [] [] }
{
    heap.is_sound();
    let name = heap.level(depth)?;
    heap.is_sound();
    args.push(name)?;
    let r = heap.app(head, args.as_slice())?;
    heap.is_sound();
    Ok(r)
}
