//! Graphs of types.
ghost use Rattle.std.specs.Prelude.{ℕ, ◌≡◌, ◌<◌, ◌++◌, ◌+◌, [], ◌∷◌, length, OnOk, OnErr, IfOk};
ghost use Rattle.type_graph.specs.Types.{Ty, word, applied};
ghost use Rattle.type_graph.specs.Graph.{IsSound, IsMostGeneral, IsDescending, IsAcyclic, Solves, LeadsBelow, IsMade, node_at};
ghost use Rattle.type_graph.specs.Solved.{Unified, Adds};
ghost use Rattle.type_graph.specs.declared.node.Node.TheVariants.{Free, Leaf, Apply};

use crate::node::{Node, Pair, Word};
use crate::root::root;
use crate::unify::settle;
use std::alloc::{AllocError, Global};
use std::marker::Model;

/// Nodes that stand for types, with what is known of them. Contracts see the list of nodes.
#[derive(Drop)]
pub struct Graph {
    nodes: Vec<Node>,
    seen: Vec<bool>,
    queue: Vec<usize>,
    pairs: Vec<Pair>,
}

impl Model for Graph {
    ghost use Rattle.std.specs.Prelude.{List};
    ghost use Rattle.type_graph.specs.declared.node.Node.{Node};

    ghost Value = { List Node };

    ghost use Rattle.type_graph.specs.inside.Kept.{IsKept};

    ghost view = { λ g. g.nodes.items };

    ghost invariant = { IsKept };
}

impl Graph {
    /// A graph without nodes. Takes no memory.
    pub fn new(alloc: Global) -> Graph
        ensures { result ≡ [] }
    {
        Graph {
            nodes: Vec::new(alloc),
            seen: Vec::new(alloc),
            queue: Vec::new(alloc),
            pairs: Vec::new(alloc),
        }
    }

    /// How many nodes there are. What holds of every graph: whatever types its free nodes have, it has exactly one solution;
    /// no node leads back to itself, and what stands for another node stands for one with a lower number.
    pub fn len(&self) -> usize
        ensures length { result ≡ length self.now }
        ensures sound { IsSound self.now }
        ensures general { IsMostGeneral (node_at self.now) }
        ensures acyclic { IsAcyclic (node_at self.now) }
        ensures descending { IsDescending (node_at self.now) }
    {
        self.nodes.len()
    }

    /// A node of which nothing is known.
    pub fn free(&mut self) -> Result<usize, AllocError>
        ensures ok { IfOk result (λ n. Adds self.old Free n self.new) }
        ensures err { OnErr result (self.new ≡ self.old) }
    {
        self.add(Node::Free)
    }

    /// A node for a word.
    pub fn leaf(&mut self, word: Word) -> Result<usize, AllocError>
        ensures ok { IfOk result (λ n. Adds self.old (Leaf word) n self.new) }
        ensures err { OnErr result (self.new ≡ self.old) }
    {
        self.add(Node::Leaf(word))
    }

    /// A node for a type applied to another one.
    pub fn apply(&mut self, left: usize, right: usize) -> Result<usize, AllocError>
        requires left { left < length self.old }
        requires right { right < length self.old }
        ensures ok { IfOk result (λ n. Adds self.old (Apply left right) n self.new) }
        ensures err { OnErr result (self.new ≡ self.old) }
    {
        self.add(Node::Apply(left, right))
    }

    /// Gives two nodes one type: the graph keeps those of its solutions under which they have one. No: it has no such
    /// solution.
    pub fn unify(&mut self, left: usize, right: usize) -> Result<bool, AllocError>
        requires left { left < length self.old }
        requires right { right < length self.old }
        ensures length { length self.new ≡ length self.old }
        ensures unified { IfOk result (Unified self.old left right self.new) }
    {
        self.pairs.clear();
        self.pairs.push(Pair { left, right })?;
        settle(
            &mut self.nodes,
            &mut self.seen,
            &mut self.queue,
            &mut self.pairs,
        )
    }

    /// What a node says.
    pub fn node(&self, index: usize) -> Node
        requires { index < length self.now }
        ensures { result ≡ node_at self.now index }
    {
        self.nodes[index]
    }

    /// The node that stands for a node: it has the same type in each solution, and stands for no other one.
    pub fn root(&self, node: usize) -> usize
        requires { node < length self.now }
        ensures within { result < length self.now }
        ensures same { (v : ℕ → Ty) → Solves (node_at self.now) v → v result ≡ v node }
    {
        root(&self.nodes, node)
    }

    /// Adds a node.
    fn add(&mut self, node: Node) -> Result<usize, AllocError>
        requires below { LeadsBelow (length self.old) node }
        requires new { IsMade node }
        ensures ok { IfOk result (λ n. Adds self.old node n self.new) }
        ensures err { OnErr result (self.new ≡ self.old) }
    {
        let index = self.nodes.len();
        self.nodes.reserve(1)?;
        self.seen.reserve(1)?;
        self.nodes.push_reserved(node);
        self.seen.push_reserved(false);
        Ok(index)
    }
}
