// The list.
ghost use Rattle.std.specs.Prelude.{◌≡◌, ◌+◌, List, [], ◌∷◌, ◌++◌, map, length, IfOk, IfErr, OnErr, OnOk};
ghost use Rattle.std.specs.List.{All, Contains};
ghost use Rattle.dance_list.specs.Dance.{Unlinked, undone, left_by, nodes, linked, unlinked, first_of, IsEachOnce};
ghost use Rattle.dance_list.specs.declared.cells.Node.{Node as Place};

use crate::cells::{Cells, Node};
use crate::chain::{Cell, Chain};
use crate::history::History;
use crate::loose::Loose;
use std::alloc::{AllocFailed, Global};
use std::marker::Model;

/// A doubly linked list whose nodes can be unlinked, and relinked in the opposite order. Contracts see it as three
/// lists: all its nodes in the order of their pushes, the linked nodes in list order with their items, and the
/// stack of the unlinked nodes, each with its item and with the list that its unlinking left.
pub struct DanceList<T> {
    chain: Chain<T>,
    nodes: Vec<Node>,
    len: usize,
    history: History<T>,
    alloc: Global,
}

impl<T> Model for DanceList<T> {
    ghost use Rattle.std.specs.Prelude.{◌≡◌, length};
    ghost use Rattle.dance_list.specs.Dance.{Dance, IsDance};

    ghost Value = { Dance T };

    ghost view = { λ l. (l.nodes.items, l.history.linked, l.history.unlinked) };

    ghost invariant = { λ l. IsDance l.chain.cells.blocks l.chain.first l.chain.last l.nodes.items l.history.linked l.history.unlinked × (l.len ≡ length l.history.linked) };
}

impl<T> DanceList<T> {
    /// No nodes. It takes no memory.
    pub fn new(alloc: Global) -> Self
        ensures { result ≡ ([], [], []) }
    {
        DanceList {
            chain: Chain {
                cells: Cells::new(),
                first: None,
                last: None,
            },
            nodes: Vec::new(alloc),
            len: 0,
            history: History::new(),
            alloc,
        }
    }

    /// How many nodes are linked.
    pub fn len(&self) -> usize
        ensures { result ≡ length (linked self.now) }
    {
        self.len
    }

    /// Does nothing. Its contract is what holds of every list: no node stands twice among all its nodes, and these are
    /// the linked ones with the unlinked ones, each once.
    pub fn is_sound(&self)
        ensures once { IsEachOnce (nodes self.now) }
        ensures apart { IsEachOnce (map (λ l. l.0) (linked self.now) ++ map (λ u. u.0) (unlinked self.now)) }
        ensures known { All (Contains (nodes self.now)) (map (λ l. l.0) (linked self.now) ++ map (λ u. u.0) (unlinked self.now)) }
        ensures all { length (linked self.now) + length (unlinked self.now) ≡ length (nodes self.now) }
    {
        let _nodes = &self.nodes;
    }

    // The first linked node.
    pub(crate) fn first(&self) -> Option<Node>
        ensures { result ≡ first_of (linked self.now) None }
    {
        self.chain.first
    }

    // The item of a linked node, and the node after it.
    pub(crate) fn step(&self, n: Node) -> (Option<Node>, &T)
        requires { (ls : List (Place × T)) × (x : T) × (ms : List (Place × T)) × (linked self.now ≡ ls ++ (n, x) ∷ ms) }
        ensures { (ls : List (Place × T)) (x : T) (ms : List (Place × T)) → linked self.now ≡ ls ++ (n, x) ∷ ms → (result.0 ≡ first_of ms None) × (result.1.now ≡ x) }
    {
        let cell = self.chain.cells.get(n.place, n.number);
        (cell.after, &cell.item)
    }

    /// Takes a linked node out of the list. It keeps its item and its links. It takes no memory.
    pub fn unlink(&mut self, n: Node)
        requires linked { (u : Unlinked T) × (u.0 ≡ n) × (linked self.old ≡ undone u) }
        ensures left { (u : Unlinked T) × (u.0 ≡ n) × (linked self.old ≡ undone u) × (linked self.new ≡ left_by u) × (unlinked self.new ≡ u ∷ unlinked self.old) }
        ensures nodes { nodes self.new ≡ nodes self.old }
    {
        let cell = self.chain.cells.get(n.place, n.number);
        let before = cell.before;
        let after = cell.after;
        self.chain.set_after(before, after);
        self.chain.set_before(after, before);
        self.len -= 1;
        self.history.unlinked(&n);
    }

    /// Puts the newest unlinked node back where it was. The linked nodes and their items have to be as its unlinking
    /// left them, whatever was pushed and truncated since. It takes no memory.
    pub fn relink(&mut self, n: Node)
        requires newest { (u : Unlinked T) × (us : List (Unlinked T)) × (u.0 ≡ n) × (unlinked self.old ≡ u ∷ us) × (linked self.old ≡ left_by u) }
        ensures back { (u : Unlinked T) × (u.0 ≡ n) × (unlinked self.old ≡ u ∷ unlinked self.new) × (linked self.old ≡ left_by u) × (linked self.new ≡ undone u) }
        ensures nodes { nodes self.new ≡ nodes self.old }
    {
        let cell = self.chain.cells.get(n.place, n.number);
        let before = cell.before;
        let after = cell.after;
        self.chain.set_after(before, Some(n));
        self.chain.set_before(after, Some(n));
        self.len += 1;
        self.history.relinked(&n);
    }
}

impl<T: Drop> DanceList<T> {
    /// Puts the item last, at a new node. Where there is no memory for it, the item comes back and nothing changes.
    pub fn push_back(&mut self, item: T) -> Result<Node, AllocFailed<T>>
        ensures ok { IfOk result (λ n. (nodes self.new ≡ nodes self.old ++ n ∷ []) × (linked self.new ≡ linked self.old ++ (n, item) ∷ [])) }
        ensures stack { unlinked self.new ≡ unlinked self.old }
        ensures err { OnErr result (self.new ≡ self.old) }
        ensures handed_back { IfErr result (λ failed. failed.value ≡ item) }
    {
        if self.nodes.reserve(1).is_err() {
            return Err(AllocFailed { value: item });
        }
        let last = self.chain.last;
        let cell = Cell {
            before: last,
            after: None,
            item,
        };
        match Box::new(self.alloc, cell) {
            Err(failed) => {
                let AllocFailed { value } = failed;
                let Cell {
                    before: _,
                    after: _,
                    item,
                } = value;
                Err(AllocFailed { value: item })
            }
            Ok(block) => {
                let number = self.nodes.len();
                let place = self.chain.cells.adopt(Loose::of(block));
                let node = Node { place, number };
                self.chain.set_after(last, Some(node));
                self.chain.set_before(None, Some(node));
                let _kept = self.nodes.push(node);
                self.len += 1;
                let item = &self.chain.cells.get(place, number).item;
                self.history.pushed(&node, item);
                Ok(node)
            }
        }
    }

    /// Drops the last `k` nodes with their items. They have to be linked, and the last `k` of the linked ones. It
    /// takes no memory.
    pub fn truncate(&mut self, k: usize)
        requires last { (ls : List (Place × T)) × (ms : List (Place × T)) × (ns : List Place) × (linked self.old ≡ ls ++ ms) × (length ms ≡ k) × (nodes self.old ≡ ns ++ map (λ l. l.0) ms) }
        ensures rest { (ms : List (Place × T)) × (length ms ≡ k) × (linked self.old ≡ linked self.new ++ ms) × (nodes self.old ≡ nodes self.new ++ map (λ l. l.0) ms) }
        ensures stack { unlinked self.new ≡ unlinked self.old }
    {
        for _ in 0..k {
            self.drop_last();
        }
    }

    fn drop_last(&mut self)
        requires last { (ls : List (Place × T)) × (n : Place) × (x : T) × (ns : List Place) × (linked self.old ≡ ls ++ (n, x) ∷ []) × (nodes self.old ≡ ns ++ n ∷ []) }
        ensures rest { (n : Place) × (x : T) × (linked self.old ≡ linked self.new ++ (n, x) ∷ []) × (nodes self.old ≡ nodes self.new ++ n ∷ []) }
        ensures stack { unlinked self.new ≡ unlinked self.old }
    {
        if let Some(n) = self.nodes.pop() {
            let before = self.chain.cells.get(n.place, n.number).before;
            self.chain.set_after(before, None);
            self.chain.set_before(None, before);
            self.len -= 1;
            self.history.popped(&n);
            let _dropped = self.chain.cells.release(n.place, self.alloc).into_box();
        }
    }
}

impl<T: Drop> Drop for DanceList<T> {
    fn drop(self) {
        let DanceList {
            chain,
            nodes,
            len: _,
            history: _,
            alloc,
        } = self;
        let mut chain = chain;
        let mut nodes = nodes;
        while let Some(n) = nodes.pop() {
            let _dropped = chain.cells.release(n.place, alloc).into_box();
        }
    }
}
