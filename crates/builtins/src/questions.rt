//! Built-ins that are questions.

ghost use Rattle.std.specs.Prelude.{◌≡◌, ℕ, List, [], length, IfOk, IfErr};
ghost use Rattle.level_terms.specs.Graph.{Graph};
ghost use Rattle.level_terms.specs.Growth.{Grows};
ghost use Rattle.level_terms.specs.Reading.{read};
ghost use Rattle.level_terms.specs.Valid.{IsValid};
ghost use Rattle.ref_terms.specs.terms.Term.{Term, At};
ghost use Rattle.ref_terms.specs.unification.Spine.{apply_all};
ghost use Rattle.ref_terms.specs.search.Arithmetic.{operand, less};
ghost use Rattle.ref_terms.specs.search.Fault.{Good};
ghost use Rattle.ref_terms.specs.search.Value.{term_eq, is_flex, is_bare_name};
ghost use Rattle.beta_fragment.specs.HeadForm.{IsHeadForm, rigid_head};
ghost use Rattle.beta_fragment.specs.Names.{names};
ghost use Rattle.builtins.specs.Outcome.{StopsBy};

use crate::number::number_of;
use beta_fragment::{RigidHead, UnifyStop, Whnf, same_term, whnf};
use level_terms::{Heap, TermId};
use std::alloc::{AllocError, Global};

/// Whether both terms are equal. Makes no variable. Answers `AllocError` on want of memory alone.
pub fn is_same(
    alloc: Global,
    heap: &mut Heap,
    s: TermId,
    t: TermId,
    depth: usize,
) -> Result<bool, AllocError>
    requires left { IsValid heap.old s.index depth }
    requires right { IsValid heap.old t.index depth }
    ensures same { IfOk result (λ b. b ≡ term_eq (read heap.old s.index names) (read heap.old t.index names)) }
    ensures variables { heap.new.depths ≡ heap.old.depths }
    ensures grows { Grows heap.old heap.new [] [] }
{
    let answer = same_term(alloc, heap, s, t, depth)?;
    Ok(answer)
}

/// Whether a variable heads a term of this form.
fn is_flexible(form: Whnf) -> bool
    ensures { (g : Graph) (depth : ℕ) (u : Term) → IsHeadForm g depth u form → result ≡ is_flex u }
{
    match form {
        Whnf::Flex(_, _) => true,
        Whnf::Lam(_) => false,
        Whnf::Rigid(_, _) => false,
        Whnf::Redex(_, _) => false,
    }
}

/// Whether a term of this form is a name without arguments.
fn is_name_alone(form: Whnf) -> bool
    ensures { (g : Graph) (depth : ℕ) (u : Term) → IsHeadForm g depth u form → result ≡ is_bare_name u }
{
    match form {
        Whnf::Rigid(head, args) => is_level_alone(head, args.len()),
        Whnf::Lam(_) => false,
        Whnf::Flex(_, _) => false,
        Whnf::Redex(_, _) => false,
    }
}

/// Whether a head with so many arguments is a name without any.
fn is_level_alone(head: RigidHead, count: usize) -> bool
    ensures { (u : Term) (xs : List Term) → length xs ≡ count → u ≡ apply_all (At (rigid_head head)) xs → result ≡ is_bare_name u }
{
    match head {
        RigidHead::Level(_) => count == 0,
        RigidHead::Con(_) => false,
        RigidHead::Int(_) => false,
        RigidHead::Str(_) => false,
    }
}

/// Whether a variable heads the term. Makes no variable. Answers `AllocError` on want of memory alone.
/// Costs a look at its head.
pub fn is_variable(
    alloc: Global,
    heap: &mut Heap,
    t: TermId,
    depth: usize,
) -> Result<bool, AllocError>
    requires { IsValid heap.old t.index depth }
    ensures variable { IfOk result (λ b. b ≡ is_flex (read heap.old t.index names)) }
    ensures variables { heap.new.depths ≡ heap.old.depths }
    ensures grows { Grows heap.old heap.new [] [] }
{
    let form = whnf(alloc, heap, t, depth)?;
    Ok(is_flexible(form))
}

/// Whether the term is a name without arguments. Makes no variable. Answers `AllocError` on want of
/// memory alone. Costs a look at its head.
pub fn is_name(alloc: Global, heap: &mut Heap, t: TermId, depth: usize) -> Result<bool, AllocError>
    requires { IsValid heap.old t.index depth }
    ensures name { IfOk result (λ b. b ≡ is_bare_name (read heap.old t.index names)) }
    ensures variables { heap.new.depths ≡ heap.old.depths }
    ensures grows { Grows heap.old heap.new [] [] }
{
    let form = whnf(alloc, heap, t, depth)?;
    Ok(is_name_alone(form))
}

/// The integer that the term is. Takes no memory where it is one.
fn integer(alloc: Global, heap: &mut Heap, t: TermId, depth: usize) -> Result<i64, UnifyStop>
    requires { IsValid heap.old t.index depth }
    ensures value { IfOk result (λ z. operand (read heap.old t.index names) ≡ Good z) }
    ensures stops { IfErr result (StopsBy (operand (read heap.old t.index names))) }
    ensures variables { heap.new.depths ≡ heap.old.depths }
    ensures grows { Grows heap.old heap.new [] [] }
{
    let form = whnf(alloc, heap, t, depth)?;
    match number_of(form) {
        Ok(z) => Ok(z),
        Err(e) => Err(UnifyStop::Fault(e)),
    }
}

/// Whether the first integer is less than the second. The first is looked at first; what is no integer
/// is a fault. Makes no variable. `UnifyStop::Memory` is want of memory alone.
pub fn is_less(
    alloc: Global,
    heap: &mut Heap,
    a: TermId,
    b: TermId,
    depth: usize,
) -> Result<bool, UnifyStop>
    requires left { IsValid heap.old a.index depth }
    requires right { IsValid heap.old b.index depth }
    ensures less { IfOk result (λ c. less (read heap.old a.index names) (read heap.old b.index names) ≡ Good c) }
    ensures stops { IfErr result (StopsBy (less (read heap.old a.index names) (read heap.old b.index names))) }
    ensures variables { heap.new.depths ≡ heap.old.depths }
    ensures grows { Grows heap.old heap.new [] [] }
{
    heap.is_sound();
    let left = integer(alloc, heap, a, depth)?;
    match integer(alloc, heap, b, depth) {
        Ok(right) => Ok(left < right),
        Err(stop) => Err(stop),
    }
}
