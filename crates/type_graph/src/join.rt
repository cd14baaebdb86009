//! One node comes to stand for another one.
ghost use Rattle.std.specs.Prelude.{ℕ, ◌≡◌, ◌<◌, ◌≤◌, ◌++◌, ◌*◌, ◌+◌, [], ◌∷◌, true, false, length, All, OnOk, IfOk, slice_set};
ghost use Rattle.type_graph.specs.Graph.{IsGraph, IsRoot, node_at};
ghost use Rattle.type_graph.specs.inside.Reach.{IsClear, IsPart, OnTrue, OnFalse};
ghost use Rattle.type_graph.specs.Solved.{Joined, roots, IsPairWithin};
ghost use Rattle.type_graph.specs.declared.node.Node.TheVariants.{Free, Same};

use crate::node::{Node, Pair};
use crate::reach::reaches;
use crate::root::root;
use std::alloc::AllocError;

/// Lets the second node stand for the first, unless the first leads to it.
fn point(
    nodes: &mut [Node],
    seen: &mut [bool],
    queue: &mut Vec<usize>,
    low: usize,
    high: usize,
) -> Result<bool, AllocError>
    requires graph { IsGraph nodes.old }
    requires low { low < high }
    requires high { high < length nodes.old }
    requires root { IsRoot (node_at nodes.old low) }
    requires marks { length seen.old ≡ length nodes.old }
    requires clear { IsClear seen.old }
    requires empty { queue.old.items ≡ [] }
    ensures graph { IsGraph nodes.new }
    ensures clear { IsClear seen.new }
    ensures empty { queue.new.items ≡ [] }
    ensures pointed { IfOk result (λ b. OnTrue b (nodes.new ≡ slice_set nodes.old high (Same low))) }
    ensures part { IfOk result (λ b. OnFalse b (IsPart (node_at nodes.old) low high)) }
{
    let part = reaches(nodes, seen, queue, low, high)?;
    if part {
        return Ok(false);
    }
    nodes[high] = Node::Same(low);
    Ok(true)
}

/// Lets the first node, which is free, take the place of the second, unless the second leads to it.
fn take_over(
    nodes: &mut [Node],
    seen: &mut [bool],
    queue: &mut Vec<usize>,
    low: usize,
    high: usize,
) -> Result<bool, AllocError>
    requires graph { IsGraph nodes.old }
    requires low { low < high }
    requires high { high < length nodes.old }
    requires root { IsRoot (node_at nodes.old high) }
    requires free { node_at nodes.old low ≡ Free }
    requires marks { length seen.old ≡ length nodes.old }
    requires clear { IsClear seen.old }
    requires empty { queue.old.items ≡ [] }
    ensures graph { IsGraph nodes.new }
    ensures clear { IsClear seen.new }
    ensures empty { queue.new.items ≡ [] }
    ensures taken { IfOk result (λ b. OnTrue b (nodes.new ≡ slice_set (slice_set nodes.old low (node_at nodes.old high)) high (Same low))) }
    ensures part { IfOk result (λ b. OnFalse b (IsPart (node_at nodes.old) high low)) }
{
    let part = reaches(nodes, seen, queue, high, low)?;
    if part {
        return Ok(false);
    }
    nodes[low] = nodes[high];
    nodes[high] = Node::Same(low);
    Ok(true)
}

/// Gives two nodes that stand for no other ones one type: the second comes to stand for the first. What they lead to
/// is left as pairs. No: they have no type in common.
pub fn join(
    nodes: &mut [Node],
    seen: &mut [bool],
    queue: &mut Vec<usize>,
    pairs: &mut Vec<Pair>,
    low: usize,
    high: usize,
) -> Result<bool, AllocError>
    requires graph { IsGraph nodes.old }
    requires low { low < high }
    requires high { high < length nodes.old }
    requires low_root { IsRoot (node_at nodes.old low) }
    requires high_root { IsRoot (node_at nodes.old high) }
    requires marks { length seen.old ≡ length nodes.old }
    requires clear { IsClear seen.old }
    requires empty { queue.old.items ≡ [] }
    requires within { All (IsPairWithin (length nodes.old)) pairs.old.items }
    ensures graph { IsGraph nodes.new }
    ensures clear { IsClear seen.new }
    ensures empty { queue.new.items ≡ [] }
    ensures within { All (IsPairWithin (length nodes.new)) pairs.new.items }
    ensures joined { IfOk result (Joined nodes.old pairs.old.items low high nodes.new pairs.new.items) }
    ensures fewer { IfOk result (λ b. OnTrue b (2 * roots nodes.new + length pairs.new.items ≤ 2 * roots nodes.old + length pairs.old.items)) }
{
    match nodes[high] {
        Node::Free => point(nodes, seen, queue, low, high),
        Node::Leaf(right) => match nodes[low] {
            Node::Free => take_over(nodes, seen, queue, low, high),
            Node::Leaf(left) => {
                if left != right {
                    return Ok(false);
                }
                point(nodes, seen, queue, low, high)
            }
            Node::Apply(_, _) | Node::Same(_) => Ok(false),
        },
        Node::Apply(right, right_argument) => match nodes[low] {
            Node::Free => take_over(nodes, seen, queue, low, high),
            Node::Apply(left, left_argument) => {
                pairs.push(Pair { left, right })?;
                pairs.push(Pair {
                    left: left_argument,
                    right: right_argument,
                })?;
                point(nodes, seen, queue, low, high)
            }
            Node::Leaf(_) | Node::Same(_) => Ok(false),
        },
        Node::Same(_) => Ok(false),
    }
}
