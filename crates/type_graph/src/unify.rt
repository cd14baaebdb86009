//! Unification.
ghost use Rattle.std.specs.Prelude.{ℕ, ◌≡◌, ◌<◌, ◌≤◌, ◌++◌, ◌*◌, ◌+◌, [], ◌∷◌, true, false, length, All, OnOk, IfOk};
ghost use Rattle.type_graph.specs.Graph.{IsGraph, node_at};
ghost use Rattle.type_graph.specs.inside.Reach.{IsClear, OnTrue, OnFalse};
ghost use Rattle.type_graph.specs.Solved.{Joined, Settled, roots, IsPairWithin};

use crate::join::join;
use crate::node::{Node, Pair};
use crate::root::root;
use std::alloc::AllocError;

/// Gives two nodes one type. What they lead to is left as pairs. No: they have no type in common.
fn equate(
    nodes: &mut [Node],
    seen: &mut [bool],
    queue: &mut Vec<usize>,
    pairs: &mut Vec<Pair>,
    pair: Pair,
) -> Result<bool, AllocError>
    requires graph { IsGraph nodes.old }
    requires pair { IsPairWithin (length nodes.old) pair }
    requires marks { length seen.old ≡ length nodes.old }
    requires clear { IsClear seen.old }
    requires empty { queue.old.items ≡ [] }
    requires within { All (IsPairWithin (length nodes.old)) pairs.old.items }
    ensures graph { IsGraph nodes.new }
    ensures clear { IsClear seen.new }
    ensures empty { queue.new.items ≡ [] }
    ensures within { All (IsPairWithin (length nodes.new)) pairs.new.items }
    ensures joined { IfOk result (Joined nodes.old pairs.old.items pair.left pair.right nodes.new pairs.new.items) }
    ensures fewer { IfOk result (λ b. OnTrue b (2 * roots nodes.new + length pairs.new.items ≤ 2 * roots nodes.old + length pairs.old.items)) }
{
    let left = root(nodes, pair.left);
    let right = root(nodes, pair.right);
    if left == right {
        return Ok(true);
    }
    if left < right {
        join(nodes, seen, queue, pairs, left, right)
    } else {
        join(nodes, seen, queue, pairs, right, left)
    }
}

/// Gives the nodes of each pair one type: the graph keeps those of its solutions under which they have one. No: it has no
/// such solution.
pub fn settle(
    nodes: &mut [Node],
    seen: &mut [bool],
    queue: &mut Vec<usize>,
    pairs: &mut Vec<Pair>,
) -> Result<bool, AllocError>
    requires graph { IsGraph nodes.old }
    requires marks { length seen.old ≡ length nodes.old }
    requires clear { IsClear seen.old }
    requires empty { queue.old.items ≡ [] }
    requires within { All (IsPairWithin (length nodes.old)) pairs.old.items }
    ensures graph { IsGraph nodes.new }
    ensures clear { IsClear seen.new }
    ensures empty { queue.new.items ≡ [] }
    ensures settled { IfOk result (Settled nodes.old pairs.old.items nodes.new) }
{
    while let Some(pair) = pairs.pop() {
        if !equate(nodes, seen, queue, pairs, pair)? {
            return Ok(false);
        }
    }
    Ok(true)
}
