//! The clauses that a term assumes.

ghost use Rattle.std.specs.Prelude.{◌≡◌, ◌∷◌, ◌++◌, [], map, length, IfOk, IfErr, OnOk};
ghost use Rattle.level_terms.specs.Valid.{IsValid};
ghost use Rattle.level_terms.specs.Reading.{read};
ghost use Rattle.level_terms.specs.Growth.{Grows};
ghost use Rattle.ref_terms.specs.search.Assumption.{assumptions_of};
ghost use Rattle.ref_terms.specs.search.Fault.{Good};
ghost use Rattle.beta_fragment.specs.Names.{names};
ghost use Rattle.hyp_clause.specs.Hyps.{assumption_in, AllHypsValid, AllAtDepth, IsHypFault};
ghost use Rattle.hyp_clause.specs.inside.Parts.{task_of, seen, IsPart};
ghost use Rattle.hyp_clause.specs.inside.Waiting.{waiting, whole, AreParts, IsTaken, IsRefused, GoesOn};

use crate::forms::Forms;
use crate::hyp::{Hyp, HypStop, Hyps};
use crate::part::{Part, Turn};
use crate::reading::turn;
use level_terms::{Heap, TermId};
use ref_terms::Sequence;
use std::alloc::{AllocError, Global};

/// The clauses that a term assumes at a depth, at which it is valid: those of `D1 , D2` one after the
/// other, `D :- G` and `G => D` with the condition `G` before those of `D`, `pi F` over one more
/// parameter, and an atom of a constant that isn't reserved. Or else the leftmost fault: `FlexClause`
/// at the head of a variable or a parameter, `Redex` at a stuck abstraction, `NotGoal` otherwise.
/// `Memory` is want of memory alone. Makes no variable.
///
/// A look at each `,`, `:-`, `=>`, `pi` and atom, with a node or two for each form around an atom. No
/// call nests as the term does.
pub fn compile_hyp(alloc: Global, heap: &mut Heap, t: TermId, depth: usize) -> Result<Hyps, HypStop>
    requires { IsValid heap.old t.index depth }
    ensures clauses { IfOk result (λ hs. Good (map (assumption_in heap.new) hs) ≡ assumptions_of depth (read heap.old t.index names)) }
    ensures valid { IfOk result (λ hs. AllHypsValid heap.new hs) }
    ensures depth { IfOk result (λ hs. AllAtDepth depth hs) }
    ensures fault { IfErr result (λ stop. IsHypFault stop (assumptions_of depth (read heap.old t.index names))) }
    ensures variables { heap.new.depths ≡ heap.old.depths }
    ensures grows { Grows heap.old heap.new [] [] }
{
    heap.is_sound();
    let mut hyps = Sequence::new(alloc);
    let mut parts = Vec::new(alloc);
    add(
        &mut parts,
        Part {
            term: t,
            pis: 0,
            around: Forms::End,
        },
    )?;
    while let Some(part) = parts.pop() {
        match step(alloc, heap, part, depth, &mut parts, &mut hyps) {
            Ok(()) => {}
            Err(stop) => return Err(stop),
        }
    }
    Ok(hyps)
}

/// Reads a part before those that wait.
fn step(
    alloc: Global,
    heap: &mut Heap,
    part: Part,
    depth: usize,
    parts: &mut Vec<Part>,
    hyps: &mut Hyps,
) -> Result<(), HypStop>
    requires part { AreParts heap.old depth (task_of part ∷ waiting parts.old.items) }
    requires hyps { AllHypsValid heap.old hyps.old }
    ensures ok { OnOk result (GoesOn heap.old heap.new depth hyps.old (task_of part ∷ waiting parts.old.items) hyps.new (waiting parts.new.items)) }
    ensures fault { IfErr result (λ stop. IsHypFault stop (whole heap.old depth hyps.old (task_of part ∷ waiting parts.old.items))) }
    ensures variables { heap.new.depths ≡ heap.old.depths }
    ensures grows { Grows heap.old heap.new [] [] }
{
    heap.is_sound();
    let found = turn(alloc, heap, &part, depth)?;
    match take_in(parts, hyps, found) {
        Ok(()) => Ok(()),
        Err(stop) => Err(stop),
    }
}

/// Takes in what was seen of a part.
fn take_in(parts: &mut Vec<Part>, hyps: &mut Hyps, found: Turn) -> Result<(), HypStop>
    ensures ok { OnOk result (IsTaken (seen found) hyps.old (waiting parts.old.items) hyps.new (waiting parts.new.items)) }
    ensures fault { IfErr result (λ stop. IsRefused (seen found) stop) }
{
    match found {
        Turn::Clause(hyp) => {
            keep(hyps, hyp)?;
            Ok(())
        }
        Turn::One(part) => {
            add(parts, part)?;
            Ok(())
        }
        Turn::Both(first, second) => {
            add(parts, second)?;
            add(parts, first)?;
            Ok(())
        }
        Turn::Failed(fault) => Err(HypStop::Fault(fault)),
    }
}

/// Puts a clause last.
fn keep(hyps: &mut Hyps, hyp: Hyp) -> Result<(), AllocError>
    ensures { OnOk result (hyps.new ≡ hyps.old ++ hyp ∷ []) }
{
    hyps.push(hyp)?;
    Ok(())
}

/// Lets a part wait, which is the next one.
fn add(parts: &mut Vec<Part>, part: Part) -> Result<(), AllocError>
    ensures { OnOk result (waiting parts.new.items ≡ task_of part ∷ waiting parts.old.items) }
{
    parts.push(part)?;
    Ok(())
}
