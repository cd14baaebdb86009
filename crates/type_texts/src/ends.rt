//! What nodes of a graph are as types.
ghost use Rattle.std.specs.Prelude.{ℕ, ◌≡◌, ◌<◌, length};
ghost use Rattle.type_graph.specs.Graph.{IsRoot, node_at};
ghost use Rattle.type_texts.specs.OpenTypes.{OpenType};
ghost use Rattle.type_texts.specs.TypeText.{word_is_arrow, is_arrow_word, is_left_of_arrow, is_arrow, is_applied};
ghost use Rattle.type_texts.specs.inside.Readings.{IsReading};

use type_graph::{Graph, Node, Word};

/// The node at the end of a node's chain: it has the same type, and stands for no other one.
pub fn end_of(graph: &Graph, start: usize) -> usize
    requires { start < length graph.now }
    ensures within { result < length graph.now }
    ensures root { IsRoot (node_at graph.now result) }
    ensures same { (u : ℕ → OpenType) → IsReading (node_at graph.now) u → u result ≡ u start }
{
    let _count = graph.len();
    let mut at = start;
    while let Node::Same(next) = graph.node(at) {
        at = next;
    }
    at
}

// Whether a word is that of arrows.
fn word_is_arrow(word: Word) -> bool
    ensures { result ≡ word_is_arrow word }
{
    match word {
        Word::Arrow => true,
        Word::Int | Word::Text | Word::Prop | Word::List | Word::Kind(_) => false,
    }
}

/// Whether the type at a node is the word of arrows.
pub fn is_arrow_word(graph: &Graph, node: usize) -> bool
    requires { node < length graph.now }
    ensures { (u : ℕ → OpenType) → IsReading (node_at graph.now) u → result ≡ is_arrow_word (u node) }
{
    match graph.node(end_of(graph, node)) {
        Node::Leaf(word) => word_is_arrow(word),
        Node::Free | Node::Apply(_, _) | Node::Same(_) => false,
    }
}

/// Whether it is that word applied to a left side.
pub fn is_left_of_arrow(graph: &Graph, node: usize) -> bool
    requires { node < length graph.now }
    ensures { (u : ℕ → OpenType) → IsReading (node_at graph.now) u → result ≡ is_left_of_arrow (u node) }
{
    let _count = graph.len();
    match graph.node(end_of(graph, node)) {
        Node::Apply(left, _) => is_arrow_word(graph, left),
        Node::Free | Node::Leaf(_) | Node::Same(_) => false,
    }
}

/// Whether it is an arrow.
pub fn is_arrow(graph: &Graph, node: usize) -> bool
    requires { node < length graph.now }
    ensures { (u : ℕ → OpenType) → IsReading (node_at graph.now) u → result ≡ is_arrow (u node) }
{
    let _count = graph.len();
    match graph.node(end_of(graph, node)) {
        Node::Apply(left, _) => is_left_of_arrow(graph, left),
        Node::Free | Node::Leaf(_) | Node::Same(_) => false,
    }
}

/// Whether it isn't a single word or variable.
pub fn is_applied(graph: &Graph, node: usize) -> bool
    requires { node < length graph.now }
    ensures { (u : ℕ → OpenType) → IsReading (node_at graph.now) u → result ≡ is_applied (u node) }
{
    match graph.node(end_of(graph, node)) {
        Node::Apply(_, _) => true,
        Node::Free | Node::Leaf(_) | Node::Same(_) => false,
    }
}
