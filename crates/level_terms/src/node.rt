//! What a heap holds: nodes, and the numbers of nodes and variables.

ghost use Rattle.std.specs.Prelude.{◌≡◌, [], ◌∷◌, ◌++◌, length, IfOk, OnOk, OnErr, IfErr};

use ref_terms::Sym;
use smallvec::SmallVec;
use std::alloc::{AllocError, AllocFailed, Global};
use std::marker::Model;

/// A node of a heap, by its number: how many nodes are older.
#[derive(Clone, Copy, Debug, Default, PartialEq, Eq, PartialOrd, Ord, Hash)]
pub struct TermId {
    pub index: u32,
}

/// A variable of a heap, by its number: how many variables are older.
#[derive(Clone, Copy, Debug, Default, PartialEq, Eq, PartialOrd, Ord, Hash)]
pub struct VarId {
    pub index: u32,
}

/// A list of nodes. Up to four of them take no memory.
#[derive(Drop)]
pub struct TermIds {
    ids: SmallVec<TermId, 4>,
}

impl Model for TermIds {
    ghost use Rattle.std.specs.Prelude.{List};
    ghost use Rattle.level_terms.specs.declared.node.TermId.{TermId};

    ghost Value = { List TermId };

    ghost view = { λ it. it.ids.items };
}

impl TermIds {
    /// The empty list. Takes no memory.
    pub fn new(alloc: Global) -> TermIds
        ensures { result ≡ [] }
    {
        TermIds {
            ids: SmallVec::new(alloc),
        }
    }

    /// The list of these nodes. Answers `AllocError` on want of memory alone.
    pub fn from_slice(alloc: Global, ids: &[TermId]) -> Result<TermIds, AllocError>
        ensures { IfOk result (λ list. list ≡ ids.now) }
    {
        Ok(TermIds {
            ids: SmallVec::from_slice(alloc, ids)?,
        })
    }

    /// Puts the node last. For want of memory alone it answers the node, and the list stays as it was.
    pub fn push(&mut self, item: TermId) -> Result<(), AllocFailed<TermId>>
        ensures last { OnOk result (self.new ≡ self.old ++ item ∷ []) }
        ensures unchanged { OnErr result (self.new ≡ self.old) }
        ensures handed_back { IfErr result (λ refused. refused.value ≡ item) }
    {
        self.ids.push(item)
    }

    /// The number of nodes in the list.
    pub fn len(&self) -> usize
        ensures { result ≡ length self.now }
    {
        self.ids.len()
    }

    /// The nodes, in order.
    pub fn as_slice(&self) -> &[TermId]
        ensures { result.now ≡ self.now }
    {
        self.ids.as_slice()
    }
}

/// What a node of a heap is.
#[derive(Drop)]
pub enum Node {
    /// A constant.
    Con(Sym),
    /// An integer.
    Int(i64),
    /// A string.
    Str(Sym),
    /// A level: the name that was the so many-th to come into scope, counted from 0.
    Level(usize),
    /// An abstraction. Inside its body its name is the level `depth`.
    Lam { depth: usize, body: TermId },
    /// A head that is no application, with at least one argument.
    App { head: TermId, args: TermIds },
    /// A variable, applied to the levels below its depth.
    Var(VarId),
}

// The sizes that the crate's documentation states.
const _: () = prove!(size_of::<Node>() == 40);

const _: () = prove!(size_of::<Change>() == 4);

/// What a trail notes of an assignment: the variable.
#[derive(Clone, Copy, Debug, PartialEq, Eq)]
pub struct Change {
    pub variable: VarId,
}

/// How many nodes, variables and trail entries there were.
#[derive(Clone, Copy, Debug, PartialEq, Eq)]
pub struct HeapMark {
    pub nodes: usize,
    pub variables: usize,
    pub entries: usize,
}
