//! The heap.

ghost use Rattle.std.specs.Prelude.{◌≡◌, [], ◌∷◌, ◌++◌, ◌+◌, ◌<◌, ◌≤◌, length, map, take, IfOk, OnOk, OnErr, slice_index, option_map, IfSome};
ghost use Rattle.std.specs.List.{list_all};
ghost use Rattle.level_terms.specs.Graph.{Graph, node_at, value_in};
ghost use Rattle.level_terms.specs.Layer.{layer_of, application};
ghost use Rattle.level_terms.specs.GroundNormal.{ground_normal, layer_look, look_at};
ghost use Rattle.level_terms.specs.Valid.{IsValid};
ghost use Rattle.level_terms.specs.Reached.{IsUnreached};
ghost use Rattle.level_terms.specs.Sound.{IsSound, IsMade, IsHead, AllOlder};
ghost use Rattle.level_terms.specs.Growth.{Grows};
ghost use Rattle.level_terms.specs.Undo.{undone, mark_of, IsTrailOf, CanUndo};

use crate::node::{Change, HeapMark, Node, TermId, TermIds, VarId};
use ref_terms::Sym;
use std::alloc::{AllocError, Global};
use std::marker::Model;
use trail::{Mark, Trail};

/// A variable's depth, and its value.
#[derive(Drop)]
struct Cell {
    depth: usize,
    value: Option<TermId>,
}

/// An assignment.
#[derive(Clone, Copy)]
struct Binding {
    variable: VarId,
    value: TermId,
}

// The sizes that the crate's documentation states.
const _: () = prove!(size_of::<Cell>() == 16);

const _: () = prove!(size_of::<Binding>() == 8);

/// Nodes, variables and their values; beside each node a bit, whether neither a variable nor an
/// applied abstraction stands in it. Contracts see the nodes newest first, the depth of each
/// variable, and the assignments newest first; `read` is the term that a node means.
#[derive(Drop)]
pub struct Heap {
    alloc: Global,
    nodes: Vec<Node>,
    fixed: Vec<bool>,
    cells: Vec<Cell>,
    bindings: Vec<Binding>,
}

impl Model for Heap {
    ghost use Rattle.level_terms.specs.Graph.{Graph};

    ghost Value = { Graph };

    ghost use Rattle.level_terms.specs.HeapView.{graph_of, IsHeap};

    ghost view = { graph_of };

    ghost invariant = { IsHeap };
}

impl Heap {
    /// A heap without nodes and variables. Takes no memory.
    pub fn new(alloc: Global) -> Heap
        ensures { result ≡ record { nodes = []; depths = []; assigned = [] } }
    {
        Heap {
            alloc,
            nodes: Vec::new(alloc),
            fixed: Vec::new(alloc),
            cells: Vec::new(alloc),
            bindings: Vec::new(alloc),
        }
    }

    /// The node of a constant. Answers `AllocError` on want of memory alone, as each maker does.
    pub fn con(&mut self, c: Sym) -> Result<TermId, AllocError>
        ensures ok { IfOk result (λ t. (t.index ≡ length self.old.nodes) × (self.new ≡ record self.old { nodes = Node.Con c ∷ self.old.nodes })) }
        ensures err { OnErr result (self.new ≡ self.old) }
        ensures grows { Grows self.old self.new [] [] }
    {
        self.add(Node::Con(c))
    }

    /// The node of an integer.
    pub fn int(&mut self, n: i64) -> Result<TermId, AllocError>
        ensures ok { IfOk result (λ t. (t.index ≡ length self.old.nodes) × (self.new ≡ record self.old { nodes = Node.Int n ∷ self.old.nodes })) }
        ensures err { OnErr result (self.new ≡ self.old) }
        ensures grows { Grows self.old self.new [] [] }
    {
        self.add(Node::Int(n))
    }

    /// The node of a string.
    pub fn text(&mut self, s: Sym) -> Result<TermId, AllocError>
        ensures ok { IfOk result (λ t. (t.index ≡ length self.old.nodes) × (self.new ≡ record self.old { nodes = Node.Str s ∷ self.old.nodes })) }
        ensures err { OnErr result (self.new ≡ self.old) }
        ensures grows { Grows self.old self.new [] [] }
    {
        self.add(Node::Str(s))
    }

    /// The node of a level.
    pub fn level(&mut self, l: usize) -> Result<TermId, AllocError>
        ensures ok { IfOk result (λ t. (t.index ≡ length self.old.nodes) × (self.new ≡ record self.old { nodes = Node.Level l ∷ self.old.nodes })) }
        ensures err { OnErr result (self.new ≡ self.old) }
        ensures grows { Grows self.old self.new [] [] }
    {
        self.add(Node::Level(l))
    }

    /// The node of an abstraction whose body has the abstracted name as the level `depth`.
    pub fn lam(&mut self, depth: usize, body: TermId) -> Result<TermId, AllocError>
        requires { body.index < length self.old.nodes }
        ensures ok { IfOk result (λ t. (t.index ≡ length self.old.nodes) × (self.new ≡ record self.old { nodes = Node.Lam depth body ∷ self.old.nodes })) }
        ensures err { OnErr result (self.new ≡ self.old) }
        ensures grows { Grows self.old self.new [] [] }
    {
        self.add(Node::Lam { depth, body })
    }

    /// The node of a head that is no application, applied to one argument or more.
    pub fn app(&mut self, head: TermId, args: &[TermId]) -> Result<TermId, AllocError>
        requires head { head.index < length self.old.nodes }
        requires no_application { IsHead (node_at self.old.nodes head.index) }
        requires args { AllOlder (length self.old.nodes) args.now }
        requires some { 0 < length args.now }
        ensures ok { IfOk result (λ t. (t.index ≡ length self.old.nodes) × (self.new ≡ record self.old { nodes = Node.App head args.now ∷ self.old.nodes })) }
        ensures err { OnErr result (self.new ≡ self.old) }
        ensures grows { Grows self.old self.new [] [] }
    {
        let args = TermIds::from_slice(self.alloc, args)?;
        self.add(Node::App { head, args })
    }

    /// The node of a variable.
    pub fn var(&mut self, v: VarId) -> Result<TermId, AllocError>
        requires { v.index < length self.old.depths }
        ensures ok { IfOk result (λ t. (t.index ≡ length self.old.nodes) × (self.new ≡ record self.old { nodes = Node.Var v ∷ self.old.nodes })) }
        ensures err { OnErr result (self.new ≡ self.old) }
        ensures grows { Grows self.old self.new [] [] }
    {
        self.add(Node::Var(v))
    }

    /// A new variable, without a value, over the levels below the depth. Answers `AllocError` on
    /// want of memory alone.
    pub fn fresh_var(&mut self, depth: usize) -> Result<VarId, AllocError>
        ensures ok { IfOk result (λ v. (v.index ≡ length self.old.depths) × (self.new ≡ record self.old { depths = self.old.depths ++ depth ∷ [] })) }
        ensures err { OnErr result (self.new ≡ self.old) }
        ensures grows { Grows self.old self.new [] [] }
    {
        let index = self.cells.len();
        if index >= u32::MAX as usize {
            return Err(AllocError);
        }
        let more = index - self.bindings.len();
        self.cells.reserve(1)?;
        self.bindings.reserve(more + 1)?;
        self.cells.push_reserved(Cell { depth, value: None });
        Ok(VarId {
            index: index as u32,
        })
    }

    /// The number that the next new variable gets.
    pub fn next_var(&self) -> VarId
        ensures { result.index ≡ length self.now.depths }
    {
        VarId {
            index: self.cells.len() as u32,
        }
    }

    /// The depth with which a variable was made.
    pub fn var_depth(&self, v: VarId) -> usize
        requires { v.index < length self.now.depths }
        ensures { result ≡ slice_index self.now.depths v.index }
    {
        self.cells[v.index as usize].depth
    }

    /// The node that is the value of a variable; none exactly where it has no value.
    pub fn value(&self, v: VarId) -> Option<TermId>
        requires { v.index < length self.now.depths }
        ensures value { option_map (λ t. t.index) result ≡ value_in self.now.assigned v.index }
        ensures valid { IfSome result (λ t. IsValid self.now t.index (slice_index self.now.depths v.index)) }
    {
        self.cells[v.index as usize].value
    }

    /// What a node is.
    pub fn view(&self, t: TermId) -> &Node
        requires { t.index < length self.now.nodes }
        ensures { node_at self.now.nodes t.index ≡ Some result.now }
    {
        &self.nodes[t.index as usize]
    }

    /// Whether neither a variable nor an applied abstraction stands in the node. Then its reading
    /// stays as it is, whatever is assigned. Takes constant time.
    pub fn is_ground_normal(&self, t: TermId) -> bool
        requires { t.index < length self.now.nodes }
        ensures { result ≡ ground_normal self.now.nodes t.index }
    {
        self.fixed[t.index as usize]
    }

    /// Does nothing. Its contract is what holds of every heap.
    pub fn is_sound(&self)
        ensures { IsSound self.now }
    {
        let _nodes = &self.nodes;
    }

    /// Gives a variable its value, and notes that on the trail. The variable has no value yet. The
    /// value is valid at the variable's depth, and the variable isn't reached from it, neither
    /// through values nor through arguments that the reading drops. Takes no memory.
    pub fn assign(&mut self, trail: &mut Trail<Change>, v: VarId, t: TermId)
        requires variable { v.index < length self.old.depths }
        requires value { t.index < length self.old.nodes }
        requires free { value_in self.old.assigned v.index ≡ None }
        requires valid { IsValid self.old t.index (slice_index self.old.depths v.index) }
        requires unreached { IsUnreached self.old v.index t.index }
        requires spare { 1 ≤ trail.old.spare }
        ensures heap { self.new ≡ record self.old { assigned = record { variable = v.index; value = t.index } ∷ self.old.assigned } }
        ensures noted { trail.new.entries ≡ trail.old.entries ++ record { variable = v } ∷ [] }
        ensures spare { trail.new.spare + 1 ≡ trail.old.spare }
        ensures grows { Grows self.old self.new trail.old.entries trail.new.entries }
    {
        self.cells[v.index as usize].value = Some(t);
        self.bindings.push_reserved(Binding {
            variable: v,
            value: t,
        });
        trail.note(Change { variable: v });
    }

    /// How much there is of the heap now. Takes no memory.
    pub fn mark(&self, trail: &Trail<Change>) -> HeapMark
        requires { IsTrailOf self.now trail.now.entries }
        ensures now { result ≡ mark_of self.now }
        ensures can_undo { CanUndo result self.now trail.now.entries }
    {
        HeapMark {
            nodes: self.nodes.len(),
            variables: self.cells.len(),
            entries: trail.len(),
        }
    }

    /// Goes back to a mark: each variable that the trail lists since has no value again, and nodes,
    /// variables and entries past the mark are dropped. Takes no memory.
    pub fn undo(&mut self, trail: &mut Trail<Change>, m: HeapMark)
        requires { CanUndo m self.old trail.old.entries }
        ensures heap { self.new ≡ undone m self.old }
        ensures trail { trail.new.entries ≡ take m.entries trail.old.entries }
        ensures own { IsTrailOf self.new trail.new.entries }
        ensures spare { trail.new.spare + length trail.new.entries ≡ trail.old.spare + length trail.old.entries }
    {
        while self.bindings.len() > m.entries {
            if let Some(last) = self.bindings.pop() {
                self.cells[last.variable.index as usize].value = None;
                trail.undo_one(Mark { entries: m.entries });
            }
        }
        self.nodes.truncate(m.nodes);
        self.cells.truncate(m.variables);
        self.fixed.truncate(m.nodes);
    }

    /// Whether the node is an abstraction.
    fn is_lam(&self, t: TermId) -> bool
        requires { t.index < length self.now.nodes }
        ensures { result ≡ (look_at self.now.nodes t.index).is_lam }
    {
        self.is_sound();
        match self.view(t) {
            Node::Lam { .. } => true,
            _ => false,
        }
    }

    /// Whether neither a variable nor an applied abstraction stands in any of the nodes.
    fn are_fixed(&self, ts: &[TermId]) -> bool
        requires { AllOlder (length self.now.nodes) ts.now }
        ensures { result ≡ list_all (λ t. ground_normal self.now.nodes t.index) ts.now }
    {
        for t in ts {
            if !self.is_ground_normal(*t) {
                return false;
            }
        }
        true
    }

    /// Whether neither a variable nor an applied abstraction stands in an application, by the bits of
    /// its parts.
    fn is_fixed_app(&self, head: TermId, args: &[TermId]) -> bool
        requires head { head.index < length self.now.nodes }
        requires args { AllOlder (length self.now.nodes) args.now }
        ensures { result ≡ (layer_look (application (look_at self.now.nodes head.index) (map (λ t. look_at self.now.nodes t.index) args.now))).is_fixed }
    {
        if self.is_lam(head) {
            return false;
        }
        if self.is_ground_normal(head) {
            return self.are_fixed(args);
        }
        false
    }

    /// Whether neither a variable nor an applied abstraction stands in a node that is new, by the
    /// bits of its parts.
    fn is_fixed(&self, node: &Node) -> bool
        requires { IsMade self.now.nodes (length self.now.depths) node.now }
        ensures { result ≡ (layer_look (layer_of (look_at self.now.nodes) node.now)).is_fixed }
    {
        match node {
            Node::Lam { body, .. } => self.is_ground_normal(*body),
            Node::App { head, args } => self.is_fixed_app(*head, args.as_slice()),
            Node::Var(_) => false,
            _ => true,
        }
    }

    /// Adds a node. Nodes are numbered by 32 bits, so a heap with 2^32 of them is full.
    fn add(&mut self, node: Node) -> Result<TermId, AllocError>
        requires { IsMade self.old.nodes (length self.old.depths) node }
        ensures ok { IfOk result (λ t. (t.index ≡ length self.old.nodes) × (self.new ≡ record self.old { nodes = node ∷ self.old.nodes })) }
        ensures err { OnErr result (self.new ≡ self.old) }
        ensures grows { Grows self.old self.new [] [] }
    {
        let index = self.nodes.len();
        if index > u32::MAX as usize {
            return Err(AllocError);
        }
        let fixed = self.is_fixed(&node);
        self.fixed.reserve(1)?;
        self.nodes.push(node)?;
        self.fixed.push_reserved(fixed);
        Ok(TermId {
            index: index as u32,
        })
    }
}
