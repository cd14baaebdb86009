//! The clauses that a search asks for.

ghost use Rattle.std.specs.Prelude.{◌≡◌, ◌<◌, ℕ, length, slice_get, Some, IfOk, OnOk, [], option_to_list};
ghost use Rattle.level_terms.specs.Growth.{Grows};
ghost use Rattle.beta_fragment.specs.HeadForm.{AllValidAt};
ghost use Rattle.ref_terms.specs.search.Program.{Program, Clause};
ghost use Rattle.clause_compile.specs.Programs.{IsCode};
ghost use Rattle.search_moves.specs.Instances.{IsInstanceOf, IsBodyOver};

use crate::code::ProgramCode;
use clause_compile::{Code, Instance as ClauseInstance, body_of, head_of};
use clause_key::Key;
use level_terms::{Heap, TermId};
use ref_terms::Sym;
use search_moves::{Clauses, Instance};
use std::alloc::{AllocError, Global};

/// Makes a clause's variables at the depth, and its head's arguments.
fn make_instance(
    alloc: Global,
    heap: &mut Heap,
    code: &Code,
    clause: usize,
    depth: usize,
) -> Result<Instance, AllocError>
    requires { (n : ℕ) × (p : Program) × IsCode n heap.old code.now p × (clause < length p.clauses) }
    ensures made { IfOk result (λ i. (n : ℕ) (p : Program) (k : Clause) → IsCode n heap.old code.now p → slice_get p.clauses clause ≡ Some k
        → IsInstanceOf k depth heap.old heap.new i) }
    ensures grows { Grows heap.old heap.new [] [] }
{
    let mut made = ClauseInstance::new(alloc);
    head_of(alloc, heap, code, clause, depth, &mut made)?;
    Ok(Instance {
        heads: made.args,
        variables: made.variables,
    })
}

/// Makes a clause's body over the nodes of its variables, which were made at the depth.
fn make_body(
    alloc: Global,
    heap: &mut Heap,
    code: &Code,
    clause: usize,
    depth: usize,
    variables: Vec<TermId>,
) -> Result<Option<TermId>, AllocError>
    requires code { (n : ℕ) × (p : Program) × (k : Clause) × IsCode n heap.old code.now p × (slice_get p.clauses clause ≡ Some k)
        × (length variables.items ≡ k.variables) }
    requires variables { AllValidAt heap.old variables.items depth }
    ensures made { IfOk result (λ body. (n : ℕ) (p : Program) (k : Clause) → IsCode n heap.old code.now p → slice_get p.clauses clause ≡ Some k
        → IsBodyOver k depth variables.items heap.old heap.new body) }
    ensures valid { IfOk result (λ body. AllValidAt heap.new (option_to_list body) depth) }
    ensures variables { OnOk result (heap.new.depths ≡ heap.old.depths) }
    ensures grows { Grows heap.old heap.new [] [] }
{
    let mut made = ClauseInstance::new(alloc);
    made.depth = depth;
    made.variables = variables;
    let body = body_of(alloc, heap, code, clause, &mut made)?;
    Ok(body)
}

impl Clauses for ProgramCode {
    ghost use Rattle.goal_run.specs.inside.Code.{Stands};

    ghost stands = { Stands };

    fn clauses(&self) -> usize {
        self.code.clauses()
    }

    fn modes(&self, c: Sym) -> Option<&[bool]> {
        match self.code.pred(c) {
            Some(pred) => Some(pred.inputs.as_slice()),
            None => None,
        }
    }

    fn next_clause(&self, c: Sym, key: Key, from: usize) -> Option<usize> {
        self.index.next_from(c, key, from)
    }

    fn instance(
        &self,
        alloc: Global,
        heap: &mut Heap,
        clause: usize,
        depth: usize,
    ) -> Result<Instance, AllocError> {
        make_instance(alloc, heap, &self.code, clause, depth)
    }

    fn body(
        &self,
        alloc: Global,
        heap: &mut Heap,
        clause: usize,
        depth: usize,
        variables: Vec<TermId>,
    ) -> Result<Option<TermId>, AllocError> {
        make_body(alloc, heap, &self.code, clause, depth, variables)
    }
}
