//! Whether a node makes sense at a depth.

ghost use Rattle.std.specs.Prelude.{◌≡◌, ◌<◌, ◌++◌, nat_lt, suc, length, map, IfOk, IfSome, OnOk};
ghost use Rattle.level_terms.specs.Graph.{node_at};
ghost use Rattle.level_terms.specs.Valid.{valid};
ghost use Rattle.pattern_unify.specs.Places.{scope_of, own_valid, place_at, places_of};

use level_terms::{Heap, Node, TermId};
use std::alloc::{AllocError, Global};

/// A node, and the innermost level that is in scope there, if any is.
#[derive(Clone, Copy)]
struct Place {
    node: TermId,
    innermost: Option<usize>,
}

/// Whether every level that the node has, and every variable's depth, lies within the depth, where
/// an abstraction brings one more level into scope.
pub(crate) fn is_valid_at(
    alloc: Global,
    heap: &Heap,
    t: TermId,
    depth: usize,
) -> Result<bool, AllocError>
    requires there { t.index < length heap.now.nodes }
    ensures valid { IfOk result (λ b. b ≡ valid heap.now.nodes heap.now.depths t.index depth) }
{
    heap.is_sound();
    let innermost = depth.checked_sub(1);
    let mut work = Vec::new(alloc);
    let mut place = Place { node: t, innermost };
    loop {
        let node = heap.view(place.node);
        if !is_own_valid(heap, place) {
            return Ok(false);
        }
        push_parts(&mut work, node, place.innermost)?;
        match work.pop() {
            Some(next) => place = next,
            None => return Ok(true),
        }
    }
}

/// Whether what stands at the node itself is in scope.
fn is_own_valid(heap: &Heap, place: Place) -> bool
    requires { place.node.index < length heap.now.nodes }
    ensures { IfSome (node_at heap.now.nodes place.node.index) (λ n. result ≡ own_valid heap.now.depths n (scope_of place.innermost)) }
{
    heap.is_sound();
    match heap.view(place.node) {
        Node::Level(l) => is_in_scope(*l, place.innermost),
        Node::Lam { depth, .. } => are_in_scope(*depth, place.innermost),
        Node::Var(v) => are_in_scope(heap.var_depth(*v), place.innermost),
        _ => true,
    }
}

/// Whether the level is in scope.
fn is_in_scope(level: usize, innermost: Option<usize>) -> bool
    ensures { result ≡ nat_lt level (scope_of innermost) }
{
    match innermost {
        Some(last) => level <= last,
        None => false,
    }
}

/// Whether so many levels are in scope.
fn are_in_scope(count: usize, innermost: Option<usize>) -> bool
    ensures { result ≡ nat_lt count (suc (scope_of innermost)) }
{
    count == 0 || is_in_scope(count - 1, innermost)
}

/// Puts the parts of a node onto the work list.
fn push_parts(
    work: &mut Vec<Place>,
    node: &Node,
    innermost: Option<usize>,
) -> Result<(), AllocError>
    ensures { OnOk result (work.new.items ≡ work.old.items ++ places_of node.now innermost) }
{
    match node {
        Node::Lam { depth, body } => {
            work.push(Place {
                node: *body,
                innermost: Some(*depth),
            })?;
        }
        Node::App { head, args } => {
            work.push(Place {
                node: *head,
                innermost,
            })?;
            push_args(work, args.as_slice(), innermost)?;
        }
        _ => {}
    }
    Ok(())
}

/// Puts arguments onto the work list.
fn push_args(
    work: &mut Vec<Place>,
    args: &[TermId],
    innermost: Option<usize>,
) -> Result<(), AllocError>
    ensures { OnOk result (work.new.items ≡ work.old.items ++ map (place_at innermost) args.now) }
{
    for arg in args {
        work.push(Place {
            node: *arg,
            innermost,
        })?;
    }
    Ok(())
}
