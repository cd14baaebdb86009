//! Whether a node is reached from another one.
ghost use Rattle.std.specs.Prelude.{ℕ, ◌≡◌, ◌<◌, ◌≤◌, ◌++◌, [], ◌∷◌, true, false, length, All, OnOk, OnErr, IfOk, slice_set, if◌then◌else◌};
ghost use Rattle.std.specs.List.{Contains};
ghost use Rattle.type_graph.specs.Graph.{IsRoot, IsWithin, LeadsBelow, node_at};
ghost use Rattle.type_graph.specs.inside.Reach.{is_marked, IsClear, IsPart, IsApart, Kept, Follows, queue_after, OnTrue, OnFalse};

use crate::node::Node;
use std::alloc::AllocError;

/// Puts a node last in the queue and marks it, unless it is marked.
fn note(seen: &mut [bool], queue: &mut Vec<usize>, node: usize) -> Result<(), AllocError>
    requires { node < length seen.old }
    ensures marks { OnOk result (seen.new ≡ slice_set seen.old node true) }
    ensures queue { OnOk result (queue.new.items ≡ queue_after seen.old queue.old.items node) }
    ensures err { OnErr result (seen.new ≡ seen.old) }
    ensures err_queue { OnErr result (queue.new.items ≡ queue.old.items) }
{
    if !seen[node] {
        queue.push(node)?;
        seen[node] = true;
    }
    Ok(())
}

/// Notes to which nodes a node leads.
fn follow(node: Node, seen: &mut [bool], queue: &mut Vec<usize>) -> Result<(), AllocError>
    requires below { LeadsBelow (length seen.old) node }
    requires kept { Kept seen.old queue.old.items }
    ensures kept { Kept seen.new queue.new.items }
    ensures followed { OnOk result (Follows node seen.old queue.old.items seen.new queue.new.items) }
{
    match node {
        Node::Apply(left, right) => {
            note(seen, queue, left)?;
            note(seen, queue, right)
        }
        Node::Same(next) => note(seen, queue, next),
        Node::Leaf(_) | Node::Free => Ok(()),
    }
}

/// Takes all marks off, and empties the queue.
fn clear(seen: &mut [bool], queue: &mut Vec<usize>)
    requires { Kept seen.old queue.old.items }
    ensures clear { IsClear seen.new }
    ensures queue { queue.new.items ≡ [] }
{
    while let Some(node) = queue.pop() {
        seen[node] = false;
    }
}

/// Whether the second node is reached from the first; the marked nodes are those of the queue.
fn find(
    nodes: &[Node],
    seen: &mut [bool],
    queue: &mut Vec<usize>,
    first: usize,
    second: usize,
) -> Result<bool, AllocError>
    requires within { IsWithin (length nodes.now) (node_at nodes.now) }
    requires first { first < length nodes.now }
    requires root { IsRoot (node_at nodes.now first) }
    requires distinct { first ≡ second → ⊥ }
    requires marks { length seen.old ≡ length nodes.now }
    requires kept { IsClear seen.old }
    requires empty { queue.old.items ≡ [] }
    ensures kept { Kept seen.new queue.new.items }
    ensures reached { IfOk result (λ b. OnTrue b (IsPart (node_at nodes.now) first second)) }
    ensures apart { IfOk result (λ b. OnFalse b (IsApart (node_at nodes.now) first second)) }
{
    note(seen, queue, first)?;
    let mut index = 0;
    while index < queue.len() {
        let node = queue[index];
        if node == second {
            return Ok(true);
        }
        follow(nodes[node], seen, queue)?;
        index += 1;
    }
    Ok(false)
}

/// Whether the second node is reached from the first.
pub fn reaches(
    nodes: &[Node],
    seen: &mut [bool],
    queue: &mut Vec<usize>,
    first: usize,
    second: usize,
) -> Result<bool, AllocError>
    requires within { IsWithin (length nodes.now) (node_at nodes.now) }
    requires first { first < length nodes.now }
    requires root { IsRoot (node_at nodes.now first) }
    requires distinct { first ≡ second → ⊥ }
    requires marks { length seen.old ≡ length nodes.now }
    requires kept { IsClear seen.old }
    requires empty { queue.old.items ≡ [] }
    ensures kept { IsClear seen.new }
    ensures empty { queue.new.items ≡ [] }
    ensures reached { IfOk result (λ b. OnTrue b (IsPart (node_at nodes.now) first second)) }
    ensures apart { IfOk result (λ b. OnFalse b (IsApart (node_at nodes.now) first second)) }
{
    let found = find(nodes, seen, queue, first, second);
    clear(seen, queue);
    found
}
