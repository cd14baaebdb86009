//! What a search asks of a program's clauses.

ghost use Rattle.std.specs.Prelude.{◌≡◌, ◌<◌, ◌≤◌, List, [], ℕ, length, IfOk, OnOk, Some, None, MatchOption, slice_get, option_to_list};
ghost use Rattle.level_terms.specs.Growth.{Grows};
ghost use Rattle.level_terms.specs.declared.node.Node.{Node as HeapNode};
ghost use Rattle.ref_terms.specs.search.Program.{Program, Clause, modes_of};
ghost use Rattle.beta_fragment.specs.HeadForm.{AllValidAt};
ghost use Rattle.search_moves.specs.World.{oldest};
ghost use Rattle.search_moves.specs.Instances.{IsInstanceOf, IsBodyOver};
ghost use Rattle.clause_key.specs.Passing.{IsNextFor};

use clause_key::Key;
use level_terms::{Heap, TermId};
use ref_terms::Sym;
use std::alloc::{AllocError, Global};

/// A clause in the heap: the arguments of its head, and the nodes of its variables, by their numbers.
#[derive(Drop)]
pub struct Instance {
    pub heads: Vec<TermId>,
    pub variables: Vec<TermId>,
}

/// Clauses of a program, whose parts without variables are nodes of a heap, its oldest ones.
pub trait Clauses {
    ghost stands: { List HeapNode → Self → Program → Type 0 };

    /// The number of clauses.
    fn clauses(&self) -> usize
        ensures { (ns : List HeapNode) (p : Program) → stands ns self.now p → result ≡ length p.clauses };

    /// For each argument of a predicate whether it is an input; none exactly where the constant has no
    /// stated number of arguments.
    fn modes(&self, c: Sym) -> Option<&[bool]>
        ensures { (ns : List HeapNode) (p : Program) → stands ns self.now p → MatchOption result (modes_of p c.0 ≡ None) (λ ms. modes_of p c.0 ≡ Some ms.now) };

    /// The first clause of a constant from a number on that agrees with the key of a call.
    fn next_clause(&self, c: Sym, key: Key, from: usize) -> Option<usize>
        ensures { (ns : List HeapNode) (p : Program) → stands ns self.now p → IsNextFor p c.0 key from result };

    /// Makes a clause's variables at the depth, and its head's arguments over them.
    fn instance(
        &self,
        alloc: Global,
        heap: &mut Heap,
        clause: usize,
        depth: usize,
    ) -> Result<Instance, AllocError>
        requires { (n : ℕ) × (p : Program) × (n ≤ length heap.old.nodes) × (stands (oldest n heap.old.nodes) self.now p) × (clause < length p.clauses) }
        ensures made { IfOk result (λ i. (n : ℕ) (p : Program) (k : Clause) → n ≤ length heap.old.nodes → stands (oldest n heap.old.nodes) self.now p
            → slice_get p.clauses clause ≡ Some k → IsInstanceOf k depth heap.old heap.new i) }
        ensures grows { Grows heap.old heap.new [] [] };

    /// Makes a clause's body over the nodes of its variables, whatever these have become since they
    /// were made at the depth.
    fn body(
        &self,
        alloc: Global,
        heap: &mut Heap,
        clause: usize,
        depth: usize,
        variables: Vec<TermId>,
    ) -> Result<Option<TermId>, AllocError>
        requires code { (n : ℕ) × (p : Program) × (k : Clause) × (n ≤ length heap.old.nodes) × (stands (oldest n heap.old.nodes) self.now p)
            × (slice_get p.clauses clause ≡ Some k) × (length variables.items ≡ k.variables) }
        requires variables { AllValidAt heap.old variables.items depth }
        ensures made { IfOk result (λ body. (n : ℕ) (p : Program) (k : Clause) → n ≤ length heap.old.nodes → stands (oldest n heap.old.nodes) self.now p
            → slice_get p.clauses clause ≡ Some k → IsBodyOver k depth variables.items heap.old heap.new body) }
        ensures valid { IfOk result (λ body. AllValidAt heap.new (option_to_list body) depth) }
        ensures variables { OnOk result (heap.new.depths ≡ heap.old.depths) }
        ensures grows { Grows heap.old heap.new [] [] };
}
