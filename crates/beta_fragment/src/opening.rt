//! The body of an abstraction, with a term for its own name.

ghost use Rattle.std.specs.Prelude.{true, IsTrue, ◌≡◌, ◌+◌, ◌<◌, ◌≤◌, ℕ, [], Some, IfOk};
ghost use Rattle.level_terms.specs.declared.node.TermId.{TermId as Id};
ghost use Rattle.level_terms.specs.declared.node.Node.TheVariants.{Lam as lam_node};
ghost use Rattle.level_terms.specs.Graph.{node_at};
ghost use Rattle.level_terms.specs.Valid.{IsValid};
ghost use Rattle.level_terms.specs.Reading.{read};
ghost use Rattle.level_terms.specs.Growth.{Grows};
ghost use Rattle.beta_fragment.specs.Names.{names};
ghost use Rattle.ref_terms.specs.terms.Apply.{fill};
ghost use Rattle.ref_terms.specs.terms.Ready.{ready};
ghost use Rattle.beta_fragment.specs.Body.{IsLam, opened_reads, at_name};
ghost use Rattle.beta_fragment.specs.Moves.{put_name as put_in};

use crate::cells::Cells;
use crate::evaluating::evaluated;
use crate::glance::{Readiness, looked_at};
use crate::levels::Levels;
use crate::putting::put_node;
use crate::quoting::quoted;
use crate::renaming::{moved_node, sum_of};
use level_terms::{Heap, Node, TermId};
use std::alloc::{AllocError, Global};

/// The abstraction's body with the argument for its bound name. Makes no variable. Answers
/// `AllocError` on want of memory alone.
pub fn contract(
    alloc: Global,
    heap: &mut Heap,
    lam: TermId,
    arg: TermId,
    depth: usize,
) -> Result<TermId, AllocError>
    requires node { IsLam (node_at heap.old.nodes lam.index) }
    requires valid { IsValid heap.old lam.index depth }
    requires argument { IsValid heap.old arg.index depth }
    ensures reads { IfOk result (λ r. (d : ℕ) (body : Id) → node_at heap.old.nodes lam.index ≡ Some (lam_node d body) →
        read heap.new r.index names ≡ opened_reads heap.old d body.index (read heap.old arg.index names)) }
    ensures valid { IfOk result (λ r. IsValid heap.new r.index depth) }
    ensures variables { heap.new.depths ≡ heap.old.depths }
    ensures grows { Grows heap.old heap.new [] [] }
{
    heap.is_sound();
    match heap.view(lam) {
        Node::Lam { depth: made, body } => {
            let made = *made;
            let body = *body;
            match looked_at(heap, arg) {
                Readiness::Level(k) => opened(alloc, heap, lam, made, body, k, depth),
                _ => filled(alloc, heap, lam, made, body, arg, depth),
            }
        }
        _ => unreachable!(),
    }
}

/// The body of an abstraction with a name for its own. Under its own name it is the same node.
pub(crate) fn opened(
    alloc: Global,
    heap: &mut Heap,
    lam: TermId,
    made: usize,
    body: TermId,
    name: usize,
    to: usize,
) -> Result<TermId, AllocError>
    requires here { node_at heap.old.nodes lam.index ≡ Some (lam_node made body) }
    requires valid { IsValid heap.old lam.index made }
    requires name { name < to }
    requires low { made ≤ to }
    ensures reads { IfOk result (λ r. read heap.new r.index names ≡ read heap.old body.index (at_name made name)) }
    ensures valid { IfOk result (λ r. IsValid heap.new r.index to) }
    ensures variables { heap.new.depths ≡ heap.old.depths }
    ensures grows { Grows heap.old heap.new [] [] }
{
    heap.is_sound();
    if name == made {
        return Ok(body);
    }
    let mut levels = Levels::own(alloc, made);
    levels.push(name)?;
    moved_node(alloc, heap, &levels, made, to, body)
}

/// The body of an abstraction with a term for its own name: the body is renamed to a new name, and
/// the term is put in its place.
fn filled(
    alloc: Global,
    heap: &mut Heap,
    lam: TermId,
    made: usize,
    body: TermId,
    arg: TermId,
    depth: usize,
) -> Result<TermId, AllocError>
    requires here { node_at heap.old.nodes lam.index ≡ Some (lam_node made body) }
    requires valid { IsValid heap.old lam.index made }
    requires low { made ≤ depth }
    requires argument { IsValid heap.old arg.index depth }
    ensures reads { IfOk result (λ r. read heap.new r.index names ≡ opened_reads heap.old made body.index (read heap.old arg.index names)) }
    ensures valid { IfOk result (λ r. IsValid heap.new r.index depth) }
    ensures variables { heap.new.depths ≡ heap.old.depths }
    ensures grows { Grows heap.old heap.new [] [] }
{
    heap.is_sound();
    let inner = sum_of(depth, 1)?;
    let named = opened(alloc, heap, lam, made, body, depth, inner)?;
    let taken = is_taken(heap, arg, depth);
    put_name(alloc, heap, arg, depth, named, taken)
}

/// Whether a look tells that abstractions take the node.
pub(crate) fn is_taken(heap: &Heap, t: TermId, depth: usize) -> bool
    requires { IsValid heap.now t.index depth }
    ensures { IsTrue result → ready (read heap.now t.index names) ≡ true }
{
    match looked_at(heap, t) {
        Readiness::Level(_) => true,
        Readiness::Ready(_) => true,
        _ => false,
    }
}

/// The node with another in the place of the name of the depth. Where abstractions take that, no
/// part of the node is reduced for it.
pub(crate) fn put_name(
    alloc: Global,
    heap: &mut Heap,
    put: TermId,
    depth: usize,
    t: TermId,
    taken: bool,
) -> Result<TermId, AllocError>
    requires put { IsValid heap.old put.index depth }
    requires taken { IsTrue taken → ready (read heap.old put.index names) ≡ true }
    requires valid { IsValid heap.old t.index (depth + 1) }
    ensures reads { IfOk result (λ r. read heap.new r.index names ≡ fill (put_in depth (read heap.old put.index names)) (read heap.old t.index names)) }
    ensures valid { IfOk result (λ r. IsValid heap.new r.index depth) }
    ensures variables { heap.new.depths ≡ heap.old.depths }
    ensures grows { Grows heap.old heap.new [] [] }
{
    heap.is_sound();
    if let Some(r) = put_node(alloc, heap, put, depth, t, taken)? {
        return Ok(r);
    }
    reduced(alloc, heap, put, depth, t)
}

/// The node with another in the place of the name of the depth, where that may take reduction: it is
/// kept by its parts, and quoted.
fn reduced(
    alloc: Global,
    heap: &mut Heap,
    put: TermId,
    depth: usize,
    t: TermId,
) -> Result<TermId, AllocError>
    requires put { IsValid heap.old put.index depth }
    requires valid { IsValid heap.old t.index (depth + 1) }
    ensures reads { IfOk result (λ r. read heap.new r.index names ≡ fill (put_in depth (read heap.old put.index names)) (read heap.old t.index names)) }
    ensures valid { IfOk result (λ r. IsValid heap.new r.index depth) }
    ensures variables { heap.new.depths ≡ heap.old.depths }
    ensures grows { Grows heap.old heap.new [] [] }
{
    heap.is_sound();
    let inner = sum_of(depth, 1)?;
    let levels = Levels::own(alloc, inner);
    let mut cells = Cells::new(alloc);
    let number = evaluated(alloc, heap, &mut cells, t, &levels, &[], inner)?;
    quoted(alloc, heap, &cells, number, depth, Some(put))
}
