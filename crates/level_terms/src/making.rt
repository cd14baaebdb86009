//! Nodes that are made with a contract on what they read as: of a level, a variable, an abstraction
//! and an application. Each call adds nodes alone, and answers `AllocError` on want of memory alone.

ghost use Rattle.std.specs.Prelude.{◌≡◌, [], ◌++◌, ◌<◌, length, map, slice_index, IfOk, Some, None};
ghost use Rattle.level_terms.specs.Graph.{node_at, value_in};
ghost use Rattle.level_terms.specs.declared.node.Node.TheVariants.{Lam as lam_node};
ghost use Rattle.level_terms.specs.Sound.{AllOlder, IsHead};
ghost use Rattle.level_terms.specs.Growth.{Grows};
ghost use Rattle.level_terms.specs.Values.{value_of, IsAppOf, IsLamOf, IsLevelOf, IsVarOf};

use crate::heap::Heap;
use crate::node::{Node, TermId, VarId};
use std::alloc::{AllocError, Global};

/// The node of a level. Takes constant time, but for the moving of a list that grows.
pub fn made_level(heap: &mut Heap, level: usize) -> Result<TermId, AllocError>
    ensures level { IfOk result (λ r. IsLevelOf level (value_of heap.new r)) }
    ensures there { IfOk result (λ r. r.index < length heap.new.nodes) }
    ensures variables { heap.new.depths ≡ heap.old.depths }
    ensures grows { Grows heap.old heap.new [] [] }
{
    let r = heap.level(level)?;
    heap.is_sound();
    Ok(r)
}

/// The abstraction of a body at a depth.
pub fn made_lam(heap: &mut Heap, depth: usize, body: TermId) -> Result<TermId, AllocError>
    requires { body.index < length heap.old.nodes }
    ensures lam { IfOk result (λ r. IsLamOf depth (value_of heap.old body) (value_of heap.new r)) }
    ensures head { IfOk result (λ r. IsHead (node_at heap.new.nodes r.index)) }
    ensures node { IfOk result (λ r. node_at heap.new.nodes r.index ≡ Some (lam_node depth body)) }
    ensures there { IfOk result (λ r. r.index < length heap.new.nodes) }
    ensures variables { heap.new.depths ≡ heap.old.depths }
    ensures grows { Grows heap.old heap.new [] [] }
{
    heap.is_sound();
    let r = heap.lam(depth, body)?;
    heap.is_sound();
    Ok(r)
}

/// A node that is no application, applied to nodes.
pub fn made_app(heap: &mut Heap, head: TermId, args: &[TermId]) -> Result<TermId, AllocError>
    requires head { head.index < length heap.old.nodes }
    requires no_application { IsHead (node_at heap.old.nodes head.index) }
    requires args { AllOlder (length heap.old.nodes) args.now }
    requires some { 0 < length args.now }
    ensures app { IfOk result (λ r. IsAppOf (value_of heap.old head) (map (value_of heap.old) args.now) (value_of heap.new r)) }
    ensures there { IfOk result (λ r. r.index < length heap.new.nodes) }
    ensures variables { heap.new.depths ≡ heap.old.depths }
    ensures grows { Grows heap.old heap.new [] [] }
{
    heap.is_sound();
    let r = heap.app(head, args)?;
    heap.is_sound();
    Ok(r)
}

/// Both lists, one after the other.
fn joined(alloc: Global, first: &[TermId], more: &[TermId]) -> Result<Vec<TermId>, AllocError>
    ensures { IfOk result (λ all. all.items ≡ first.now ++ more.now) }
{
    let mut all = Vec::new(alloc);
    all.extend_from_slice(first)?;
    all.extend_from_slice(more)?;
    Ok(all)
}

/// A node applied to nodes. Where it is an application, its arguments come first, and its head is
/// that of the new node. Takes time linear in the arguments.
pub fn applied(
    alloc: Global,
    heap: &mut Heap,
    head: TermId,
    args: &[TermId],
) -> Result<TermId, AllocError>
    requires head { head.index < length heap.old.nodes }
    requires args { AllOlder (length heap.old.nodes) args.now }
    requires some { 0 < length args.now }
    ensures app { IfOk result (λ r. IsAppOf (value_of heap.old head) (map (value_of heap.old) args.now) (value_of heap.new r)) }
    ensures there { IfOk result (λ r. r.index < length heap.new.nodes) }
    ensures variables { heap.new.depths ≡ heap.old.depths }
    ensures grows { Grows heap.old heap.new [] [] }
{
    heap.is_sound();
    if let Node::App {
        head: inner,
        args: first,
    } = heap.view(head)
    {
        let inner = *inner;
        let all = joined(alloc, first.as_slice(), args)?;
        return made_app(heap, inner, all.as_slice());
    }
    made_app(heap, head, args)
}

/// The node of a variable that has no value.
pub fn made_var(heap: &mut Heap, v: VarId) -> Result<TermId, AllocError>
    requires known { v.index < length heap.old.depths }
    requires free { value_in heap.old.assigned v.index ≡ None }
    ensures open { IfOk result (λ r. IsVarOf v.index (slice_index heap.old.depths v.index) (value_of heap.new r)) }
    ensures head { IfOk result (λ r. IsHead (node_at heap.new.nodes r.index)) }
    ensures there { IfOk result (λ r. r.index < length heap.new.nodes) }
    ensures variables { heap.new.depths ≡ heap.old.depths }
    ensures grows { Grows heap.old heap.new [] [] }
{
    let r = heap.var(v)?;
    heap.is_sound();
    Ok(r)
}
