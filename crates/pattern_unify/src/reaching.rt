//! Whether a variable is reached from a node.
//!
//! What a node reads as may lack a variable that is reached from it: reduction drops the arguments of
//! an abstraction without its name. A value must not reach its own variable.
//!
//! The same look tells whether all that is reached has values. Then the node is made anew with these,
//! so that later looks pass over it.

ghost use Rattle.std.specs.Prelude.{◌≡◌, ◌<◌, ◌++◌, [], false, Some, length, nat_eq, IfOk, OnOk};
ghost use Rattle.level_terms.specs.Graph.{node_at, value_in};
ghost use Rattle.level_terms.specs.Growth.{Grows};
ghost use Rattle.level_terms.specs.Reached.{IsUnreached};
ghost use Rattle.level_terms.specs.Reading.{read};
ghost use Rattle.level_terms.specs.Valid.{IsValid};
ghost use Rattle.level_terms.specs.declared.node.VarId.{VarId as Variable};
ghost use Rattle.level_terms.specs.declared.node.Node.TheVariants.{Var as var_node};
ghost use Rattle.ref_terms.specs.terms.Occurs.{occurs};
ghost use Rattle.beta_fragment.specs.Names.{names};
ghost use Rattle.pattern_unify.specs.inside.Reaching.{value_node, HasNext, IsLeft};

use crate::filling::filled;
use beta_fragment::rebuild;
use level_terms::{Heap, Node, TermId, VarId};
use std::alloc::{AllocError, Global};

/// A node that reads as this one, and from which the variable isn't reached, where the reading lacks
/// it: one made anew, if it is reached from the node, or if the node's variables all have values, and
/// else the node itself.
pub(crate) fn node_without(
    alloc: Global,
    heap: &mut Heap,
    v: VarId,
    t: TermId,
    depth: usize,
) -> Result<TermId, AllocError>
    requires valid { IsValid heap.old t.index depth }
    requires absent { occurs v.index (read heap.old t.index names) ≡ false }
    ensures reads { IfOk result (λ r. read heap.new r.index names ≡ read heap.old t.index names) }
    ensures valid { IfOk result (λ r. IsValid heap.new r.index depth) }
    ensures unreached { IfOk result (λ r. IsUnreached heap.new v.index r.index) }
    ensures variables { heap.new.depths ≡ heap.old.depths }
    ensures grows { Grows heap.old heap.new [] [] }
{
    let mut stays = true;
    if is_reached(alloc, heap, v, t, &mut stays)? {
        return rebuild(alloc, heap, t, depth);
    }
    if stays {
        return settled_whole(alloc, heap, v, t, depth);
    }
    Ok(t)
}

/// The node with the values of its variables in their places, where neither a variable nor an applied
/// abstraction is left in that, and else the node itself.
fn settled_whole(
    alloc: Global,
    heap: &mut Heap,
    v: VarId,
    t: TermId,
    depth: usize,
) -> Result<TermId, AllocError>
    requires valid { IsValid heap.old t.index depth }
    requires unreached { IsUnreached heap.old v.index t.index }
    ensures reads { IfOk result (λ r. read heap.new r.index names ≡ read heap.old t.index names) }
    ensures valid { IfOk result (λ r. IsValid heap.new r.index depth) }
    ensures unreached { IfOk result (λ r. IsUnreached heap.new v.index r.index) }
    ensures variables { heap.new.depths ≡ heap.old.depths }
    ensures grows { Grows heap.old heap.new [] [] }
{
    heap.is_sound();
    if heap.is_ground_normal(t) {
        return Ok(t);
    }
    let r = filled(alloc, heap, t)?;
    if heap.is_ground_normal(r) {
        return Ok(r);
    }
    Ok(t)
}

/// Whether the variable is reached from the node, through values and through what reduction drops.
/// Looks at no more nodes than are in the node's tree, and at none below a part that has neither a
/// variable nor an applied abstraction. `stays` becomes false where a variable without a value is
/// seen, or an abstraction or an applied variable, in which a variable may stay.
fn is_reached(
    alloc: Global,
    heap: &Heap,
    v: VarId,
    t: TermId,
    stays: &mut bool,
) -> Result<bool, AllocError>
    requires { t.index < length heap.now.nodes }
    ensures { IfOk result (λ b. b ≡ false → IsUnreached heap.now v.index t.index) }
{
    heap.is_sound();
    let mut work = Vec::new(alloc);
    let mut node = t;
    loop {
        let own = is_own(heap, v, node);
        if own {
            return Ok(true);
        }
        if may_change(heap, node) {
            *stays = false;
        }
        push_parts(heap, node, &mut work)?;
        match work.pop() {
            Some(next) => node = next,
            None => return Ok(false),
        }
    }
}

/// Whether something would be left that can change, were the node made anew with the values of its
/// variables. Time alone hangs on the answer.
fn may_change(heap: &Heap, node: TermId) -> bool
    requires { node.index < length heap.now.nodes }
{
    if heap.is_ground_normal(node) {
        return false;
    }
    heap.is_sound();
    match heap.view(node) {
        Node::Var(v) => heap.value(*v).is_none(),
        Node::App { head, .. } => !is_leaf(heap, *head),
        _ => true,
    }
}

/// Whether the node is a constant, a string or a level.
fn is_leaf(heap: &Heap, node: TermId) -> bool
    requires { node.index < length heap.now.nodes }
{
    matches!(
        heap.view(node),
        Node::Con(_) | Node::Str(_) | Node::Level(_)
    )
}

/// Whether the node is the variable's.
fn is_own(heap: &Heap, v: VarId, node: TermId) -> bool
    requires { node.index < length heap.now.nodes }
    ensures { result ≡ false → (w : Variable) → node_at heap.now.nodes node.index ≡ Some (var_node w) → nat_eq v.index w.index ≡ false }
{
    match heap.view(node) {
        Node::Var(w) => v.index == w.index,
        _ => false,
    }
}

/// Puts the nodes that are reached from a node at once onto the work list, but for those of a node in
/// which neither a variable nor an applied abstraction stands: that one isn't looked into.
pub(crate) fn push_parts(
    heap: &Heap,
    node: TermId,
    work: &mut Vec<TermId>,
) -> Result<(), AllocError>
    requires { node.index < length heap.now.nodes }
    ensures { OnOk result (IsLeft heap.now node.index work.old.items work.new.items) }
{
    if heap.is_ground_normal(node) {
        return Ok(());
    }
    push_next(heap, node, work)
}

/// Puts the nodes that are reached from a node at once onto the work list.
fn push_next(heap: &Heap, node: TermId, work: &mut Vec<TermId>) -> Result<(), AllocError>
    requires { node.index < length heap.now.nodes }
    ensures { OnOk result (HasNext heap.now node.index work.old.items work.new.items) }
{
    heap.is_sound();
    match heap.view(node) {
        Node::Lam { body, .. } => {
            work.push(*body)?;
            Ok(())
        }
        Node::App { head, args } => {
            work.push(*head)?;
            work.extend_from_slice(args.as_slice())?;
            Ok(())
        }
        Node::Var(v) => push_value(heap, *v, work),
        Node::Con(_) => Ok(()),
        Node::Int(_) => Ok(()),
        Node::Str(_) => Ok(()),
        Node::Level(_) => Ok(()),
    }
}

/// Puts the value of a variable onto the work list, if it has one.
fn push_value(heap: &Heap, v: VarId, work: &mut Vec<TermId>) -> Result<(), AllocError>
    requires { v.index < length heap.now.depths }
    ensures { OnOk result (work.new.items ≡ work.old.items ++ value_node (value_in heap.now.assigned v.index)) }
{
    match heap.value(v) {
        Some(value) => {
            work.push(value)?;
            Ok(())
        }
        None => Ok(()),
    }
}
