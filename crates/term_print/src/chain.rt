//! Chains of abstractions: one look tells how many of them stay, so that none is looked at twice.

ghost use Rattle.std.specs.Prelude.{◌≡◌, ℕ, ◌<◌, ◌≤◌, [], Some, length, IfOk, IfSome, IsTrue};
ghost use Rattle.level_terms.specs.declared.node.TermId.{TermId as Id};
ghost use Rattle.level_terms.specs.declared.node.Node.TheVariants.{Lam as lam_node};
ghost use Rattle.level_terms.specs.Graph.{node_at};
ghost use Rattle.level_terms.specs.Growth.{Grows};
ghost use Rattle.level_terms.specs.Reading.{read};
ghost use Rattle.level_terms.specs.Valid.{IsValid};
ghost use Rattle.beta_fragment.specs.Body.{IsLam};
ghost use Rattle.beta_fragment.specs.Names.{names};
ghost use Rattle.beta_fragment.specs.HeadForm.{IsAbstraction};
ghost use Rattle.term_print.specs.Chains.{IsBelow, BodyIsKept};

use beta_fragment::{Whnf, whnf};
use level_terms::{Heap, Node, TermId};
use std::alloc::{AllocError, Global};

/// How many abstractions stand below one, each the body of the one before.
fn chain_length(heap: &Heap, lam: TermId) -> usize
    requires { lam.index < length heap.now.nodes }
    ensures { result ≤ lam.index }
{
    heap.is_sound();
    let most = lam.index as usize;
    let mut node = lam;
    for count in 0..most {
        match heap.view(node) {
            Node::Lam { body, .. } => node = *body,
            _ => return count,
        }
    }
    most
}

/// The node that is so many bodies below, if there is one.
fn nth_below(heap: &Heap, lam: TermId, count: usize) -> Option<TermId>
    requires { lam.index < length heap.now.nodes }
    ensures below { IfSome result (λ n. IsBelow heap.now lam.index count n.index) }
    ensures there { IfSome result (λ n. n.index < length heap.now.nodes) }
{
    heap.is_sound();
    let mut node = lam;
    for _step in 0..count {
        match heap.view(node) {
            Node::Lam { body, .. } => node = *body,
            _ => return None,
        }
    }
    Some(node)
}

/// Whether the node of an abstraction reads as one at its own depth.
fn stays_at(alloc: Global, heap: &mut Heap, node: TermId, depth: usize) -> Result<bool, AllocError>
    requires { IsValid heap.old node.index depth }
    ensures stays { IfOk result (λ r. IsTrue r → IsAbstraction (read heap.old node.index names)) }
    ensures variables { heap.new.depths ≡ heap.old.depths }
    ensures grows { Grows heap.old heap.new [] [] }
{
    let form = whnf(alloc, heap, node, depth)?;
    match form {
        Whnf::Lam(_) => Ok(true),
        _ => Ok(false),
    }
}

/// Whether the node is one of an abstraction, and reads as one.
fn stays(alloc: Global, heap: &mut Heap, node: TermId) -> Result<bool, AllocError>
    requires there { node.index < length heap.old.nodes }
    requires valid { (made : ℕ) (b : Id) → node_at heap.old.nodes node.index ≡ Some (lam_node made b) → IsValid heap.old node.index made }
    ensures node { IfOk result (λ r. IsTrue r → IsLam (node_at heap.old.nodes node.index)) }
    ensures stays { IfOk result (λ r. IsTrue r → IsAbstraction (read heap.old node.index names)) }
    ensures variables { heap.new.depths ≡ heap.old.depths }
    ensures grows { Grows heap.old heap.new [] [] }
{
    match heap.view(node) {
        Node::Lam { depth, .. } => {
            let made = *depth;
            stays_at(alloc, heap, node, made)
        }
        _ => Ok(false),
    }
}

/// Whether so many abstractions below one stay.
fn are_kept(
    alloc: Global,
    heap: &mut Heap,
    lam: TermId,
    depth: usize,
    count: usize,
) -> Result<bool, AllocError>
    requires { IsValid heap.old lam.index depth }
    ensures kept { IfOk result (λ r. IsTrue r → BodyIsKept heap.old lam count) }
    ensures variables { heap.new.depths ≡ heap.old.depths }
    ensures grows { Grows heap.old heap.new [] [] }
{
    heap.is_sound();
    match nth_below(heap, lam, count) {
        Some(node) => stays(alloc, heap, node),
        None => Ok(false),
    }
}

/// So many abstractions below one that stay. Where all of the chain do, it is all; else at least
/// half of those that do.
pub(crate) fn kept_below(
    alloc: Global,
    heap: &mut Heap,
    lam: TermId,
    depth: usize,
) -> Result<usize, AllocError>
    requires { IsValid heap.old lam.index depth }
    ensures kept { IfOk result (λ count. BodyIsKept heap.new lam count) }
    ensures variables { heap.new.depths ≡ heap.old.depths }
    ensures grows { Grows heap.old heap.new [] [] }
{
    heap.is_sound();
    let mut count = chain_length(heap, lam);
    while count > 0 {
        heap.is_sound();
        if are_kept(alloc, heap, lam, depth, count)? {
            return Ok(count);
        }
        count /= 2;
    }
    Ok(0)
}
