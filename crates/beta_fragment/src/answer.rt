//! What the calls answer, and lists of names.

ghost use Rattle.std.specs.Prelude.{◌≡◌, [], ◌∷◌, ◌++◌, length, OnOk, OnErr, IfErr};

use level_terms::{TermId, TermIds, VarId};
use ref_terms::{Fault, Sym};
use std::alloc::{AllocError, AllocFailed, Global};
use std::marker::Model;

/// A head that no assignment changes.
#[derive(Clone, Copy, Debug, PartialEq, Eq)]
pub enum RigidHead {
    /// A constant.
    Con(Sym),
    /// An integer.
    Int(i64),
    /// A string.
    Str(Sym),
    /// The name of a level.
    Level(usize),
}

/// What is seen of a term.
#[derive(Drop)]
pub enum Whnf {
    /// An abstraction.
    Lam(TermId),
    /// A rigid head with its arguments.
    Rigid(RigidHead, TermIds),
    /// A variable without a value, with all its arguments: those of its own depth first.
    Flex(VarId, TermIds),
    /// An abstraction before an argument that isn't ready, with all its arguments.
    Redex(TermId, TermIds),
}

/// Why unification or matching stops without an answer.
#[derive(Clone, Copy, Debug, PartialEq, Eq)]
pub enum UnifyStop {
    /// The terms lie outside what is decided.
    Fault(Fault),
    /// Want of memory.
    Memory,
}

impl From<AllocError> for UnifyStop {
    ghost use Rattle.std.specs.Prelude.{◌≡◌};
    ghost use Rattle.beta_fragment.specs.declared.answer.UnifyStop.TheVariants.{Memory};

    ghost from_gives = { λ _ stop. stop ≡ Memory };

    fn from(_: AllocError) -> UnifyStop {
        UnifyStop::Memory
    }
}

/// A list of names, each by the number of its level.
#[derive(Drop)]
pub struct Names {
    levels: Vec<usize>,
}

impl Model for Names {
    ghost use Rattle.std.specs.Prelude.{List, ℕ};

    ghost Value = { List ℕ };

    ghost view = { λ it. it.levels.items };
}

impl Names {
    /// The empty list. Takes no memory.
    pub fn new(alloc: Global) -> Names
        ensures { result ≡ [] }
    {
        Names {
            levels: Vec::new(alloc),
        }
    }

    /// Puts the name last. For want of memory alone it answers the name, and the list stays as it was.
    pub fn push(&mut self, item: usize) -> Result<(), AllocFailed<usize>>
        ensures last { OnOk result (self.new ≡ self.old ++ item ∷ []) }
        ensures unchanged { OnErr result (self.new ≡ self.old) }
        ensures handed_back { IfErr result (λ refused. refused.value ≡ item) }
    {
        self.levels.push(item)
    }

    /// The number of names in the list.
    pub fn len(&self) -> usize
        ensures { result ≡ length self.now }
    {
        self.levels.len()
    }

    /// The names, in order.
    pub fn as_slice(&self) -> &[usize]
        ensures { result.now ≡ self.now }
    {
        self.levels.as_slice()
    }
}
