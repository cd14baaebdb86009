//! Instances of declared types.
ghost use Rattle.std.specs.Prelude.{ℕ, ◌≡◌, ◌<◌, length, map, IfOk, slice_get};
ghost use Rattle.type_terms.specs.Nodes.{Reads};
ghost use Rattle.type_terms.specs.Read.{AreNodes};
ghost use Rattle.type_terms.specs.Schemes.{IsInstanceOf};
ghost use Rattle.type_terms.specs.FreeNodes.{Frees};
ghost use Rattle.type_terms.specs.inside.Instances.{IsOver};

use crate::scheme::{Polytype, Scheme};
use std::alloc::{AllocError, Global};
use type_graph::{Graph, Word};

/// So many nodes of which nothing is known.
///
/// Errors: want of memory.
pub fn free_nodes(alloc: Global, graph: &mut Graph, count: usize) -> Result<Vec<usize>, AllocError>
    ensures { IfOk result (λ nodes. Frees graph.old count nodes.items graph.new) }
{
    let mut nodes = Vec::new(alloc);
    for _index in 0..count {
        let node = graph.free()?;
        nodes.push(node)?;
    }
    Ok(nodes)
}

// The node of a type whose variables have these nodes.
fn build(graph: &mut Graph, nodes: &[usize], scheme: &Scheme) -> Result<usize, AllocError>
    requires { AreNodes graph.old nodes.now }
    ensures { IfOk result (Reads graph.old graph.new (IsOver nodes.now scheme.now)) }
{
    match scheme {
        Scheme::Variable(index) => {
            if *index < nodes.len() {
                Ok(nodes[*index])
            } else {
                graph.leaf(Word::Int)
            }
        }
        Scheme::Leaf(word) => graph.leaf(*word),
        Scheme::Apply(left, right) => {
            let left = build(graph, nodes, left.get())?;
            let right = build(graph, nodes, right.get())?;
            graph.apply(left, right)
        }
    }
}

/// A node for an occurrence of a constant with a declared type: new ones for the variables of the type.
///
/// Errors: want of memory.
pub fn instance(alloc: Global, graph: &mut Graph, polytype: &Polytype) -> Result<usize, AllocError>
    ensures { IfOk result (Reads graph.old graph.new (λ v t. IsInstanceOf polytype.now t)) }
{
    let nodes = free_nodes(alloc, graph, polytype.variables)?;
    build(graph, &nodes, &polytype.scheme)
}
