//! Equations that come again, with their sides made anew.
//!
//! A variable that loses a position of its spine gets a new one as its value, which may lose the next
//! position, and so on. A look at such a spine goes through all these values. In a side that is made
//! anew the newest variable stands there itself.

ghost use Rattle.std.specs.Prelude.{◌≡◌, ◌<◌, [], length, IfOk};
ghost use Rattle.level_terms.specs.Growth.{Grows};
ghost use Rattle.level_terms.specs.Reading.{read};
ghost use Rattle.level_terms.specs.Valid.{IsValid};
ghost use Rattle.beta_fragment.specs.Names.{names};
ghost use Rattle.pattern_unify.specs.inside.Equations.{IsValidEquation, IsSameEquation};

use crate::equation::Equation;
use crate::reaching::push_parts;
use beta_fragment::rebuild;
use level_terms::{Heap, Node, TermId};
use std::alloc::{AllocError, Global};

/// Sides are made anew where the number of names in the spine is a multiple of this one: so a look
/// goes through no more values than that, and a long side isn't made anew for each position.
const SPAN: usize = 8;

/// A side is made anew where it has at most so many nodes for each name in the spine: so what is made
/// anew isn't more than the values that a look would go through.
const NODES: usize = 64;

/// No side is made anew for a spine of more names than this.
const WIDEST: usize = 65_536;

/// The equation, where a variable in it has just lost one of so many positions. Its sides may be made
/// anew.
pub(crate) fn renewed(
    alloc: Global,
    heap: &mut Heap,
    e: Equation,
    arity: usize,
) -> Result<Equation, AllocError>
    requires { IsValidEquation heap.old e }
    ensures same { IfOk result (λ r. IsSameEquation heap.old heap.new e r) }
    ensures variables { heap.new.depths ≡ heap.old.depths }
    ensures grows { Grows heap.old heap.new [] [] }
{
    if arity % SPAN != 0 || WIDEST < arity {
        return Ok(e);
    }
    let limit = NODES * arity;
    heap.is_sound();
    let left = renewed_side(alloc, heap, e.left, e.depth, limit)?;
    heap.is_sound();
    let right = renewed_side(alloc, heap, e.right, e.depth, limit)?;
    Ok(Equation {
        left,
        right,
        depth: e.depth,
    })
}

/// The side made anew, but for the node of a variable without a value and for what has more nodes than
/// the limit, which stay.
fn renewed_side(
    alloc: Global,
    heap: &mut Heap,
    side: TermId,
    depth: usize,
    limit: usize,
) -> Result<TermId, AllocError>
    requires { IsValid heap.old side.index depth }
    ensures reads { IfOk result (λ r. read heap.new r.index names ≡ read heap.old side.index names) }
    ensures valid { IfOk result (λ r. IsValid heap.new r.index depth) }
    ensures variables { heap.new.depths ≡ heap.old.depths }
    ensures grows { Grows heap.old heap.new [] [] }
{
    heap.is_sound();
    if is_open_node(heap, side) || !is_small(alloc, heap, side, limit)? {
        return Ok(side);
    }
    rebuild(alloc, heap, side, depth)
}

/// Whether the node is that of a variable without a value. Time alone hangs on the answer.
fn is_open_node(heap: &Heap, node: TermId) -> bool
    requires { node.index < length heap.now.nodes }
{
    heap.is_sound();
    match heap.view(node) {
        Node::Var(v) => heap.value(*v).is_none(),
        _ => false,
    }
}

/// Whether the node's tree has at most so many nodes, the values of variables among them. A part in
/// which neither a variable nor an applied abstraction stands counts as one node. Time alone hangs on
/// the answer.
fn is_small(alloc: Global, heap: &Heap, node: TermId, limit: usize) -> Result<bool, AllocError>
    requires { node.index < length heap.now.nodes }
{
    heap.is_sound();
    let mut work = Vec::new(alloc);
    let mut next = node;
    let mut seen = 0;
    while seen < limit {
        push_parts(heap, next, &mut work)?;
        match work.pop() {
            Some(other) => next = other,
            None => return Ok(true),
        }
        seen += 1;
    }
    Ok(false)
}
