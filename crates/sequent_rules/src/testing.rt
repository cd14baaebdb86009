//! Tests of rules.

ghost use Rattle.std.specs.Prelude.{◌≡◌, [], ◌∷◌, Some, IfOk};
ghost use Rattle.level_terms.specs.Gains.{GainsNodes};
ghost use Rattle.level_terms.specs.Reading.{read};
ghost use Rattle.level_terms.specs.Valid.{IsValid};
ghost use Rattle.beta_fragment.specs.HeadForm.{all_read, AllValidAt};
ghost use Rattle.beta_fragment.specs.Names.{names};
ghost use Rattle.std.specs.List.{list_all};
ghost use Rattle.ref_terms.specs.search.Arithmetic.{less};
ghost use Rattle.ref_terms.specs.search.Reserved.{word_of};
ghost use Rattle.ref_terms.specs.search.RuleTest.{holds, test_holds, good_and_true};

use beta_fragment::{RigidHead, UnifyStop, Whnf, whnf};
use builtins::{is_less, is_name, is_same, is_variable};
use level_terms::{Heap, TermId};
use ref_terms::{Reserved, Sym};
use std::alloc::{AllocError, Global};

/// Whether all of the tests hold.
pub(crate) fn all_hold(
    alloc: Global,
    heap: &mut Heap,
    tests: &[TermId],
    depth: usize,
) -> Result<bool, AllocError>
    requires { AllValidAt heap.old tests.now depth }
    ensures hold { IfOk result (λ b. b ≡ list_all holds (all_read heap.old tests.now)) }
    ensures gains { GainsNodes heap.old heap.new }
{
    heap.is_sound();
    for i in 0..tests.len() {
        heap.is_sound();
        let does = test_of(alloc, heap, tests[i], depth)?;
        if !does {
            return Ok(false);
        }
    }
    Ok(true)
}

/// Whether a test holds.
fn test_of(alloc: Global, heap: &mut Heap, t: TermId, depth: usize) -> Result<bool, AllocError>
    requires { IsValid heap.old t.index depth }
    ensures holds { IfOk result (λ b. b ≡ holds (read heap.old t.index names)) }
    ensures gains { GainsNodes heap.old heap.new }
{
    heap.is_sound();
    match whnf(alloc, heap, t, depth)? {
        Whnf::Rigid(RigidHead::Con(c), args) => {
            let b = word_holds(alloc, heap, c, args.as_slice(), depth)?;
            Ok(b)
        }
        Whnf::Rigid(RigidHead::Int(_), _) => Ok(false),
        Whnf::Rigid(RigidHead::Str(_), _) => Ok(false),
        Whnf::Rigid(RigidHead::Level(_), _) => Ok(false),
        Whnf::Lam(_) => Ok(false),
        Whnf::Flex(_, _) => Ok(false),
        Whnf::Redex(_, _) => Ok(false),
    }
}

/// Whether the test of a constant holds of these arguments.
fn word_holds(
    alloc: Global,
    heap: &mut Heap,
    c: Sym,
    args: &[TermId],
    depth: usize,
) -> Result<bool, AllocError>
    requires { AllValidAt heap.old args.now depth }
    ensures holds { IfOk result (λ b. b ≡ test_holds (word_of c.0) (all_read heap.old args.now)) }
    ensures gains { GainsNodes heap.old heap.new }
{
    match args {
        [a] => test_of_one(alloc, heap, Reserved::of(c), *a, depth),
        [a, b] => test_of_two(alloc, heap, Reserved::of(c), *a, *b, depth),
        _ => Ok(false),
    }
}

/// Whether a test of one term holds.
fn test_of_one(
    alloc: Global,
    heap: &mut Heap,
    word: Option<Reserved>,
    a: TermId,
    depth: usize,
) -> Result<bool, AllocError>
    requires { IsValid heap.old a.index depth }
    ensures holds { IfOk result (λ b. b ≡ test_holds word (read heap.old a.index names ∷ [])) }
    ensures gains { GainsNodes heap.old heap.new }
{
    match word {
        Some(w) => word_of_one(alloc, heap, w, a, depth),
        None => Ok(false),
    }
}

/// Whether the test of a word holds of one term.
fn word_of_one(
    alloc: Global,
    heap: &mut Heap,
    word: Reserved,
    a: TermId,
    depth: usize,
) -> Result<bool, AllocError>
    requires { IsValid heap.old a.index depth }
    ensures holds { IfOk result (λ b. b ≡ test_holds (Some word) (read heap.old a.index names ∷ [])) }
    ensures gains { GainsNodes heap.old heap.new }
{
    match word {
        Reserved::Var => is_variable(alloc, heap, a, depth),
        Reserved::Nonvar => {
            let variable = is_variable(alloc, heap, a, depth)?;
            Ok(!variable)
        }
        Reserved::Name => is_name(alloc, heap, a, depth),
        _ => Ok(false),
    }
}

/// Whether a test of two terms holds.
fn test_of_two(
    alloc: Global,
    heap: &mut Heap,
    word: Option<Reserved>,
    a: TermId,
    b: TermId,
    depth: usize,
) -> Result<bool, AllocError>
    requires left { IsValid heap.old a.index depth }
    requires right { IsValid heap.old b.index depth }
    ensures holds { IfOk result (λ c. c ≡ test_holds word (read heap.old a.index names ∷ read heap.old b.index names ∷ [])) }
    ensures gains { GainsNodes heap.old heap.new }
{
    match word {
        Some(w) => word_of_two(alloc, heap, w, a, b, depth),
        None => Ok(false),
    }
}

/// Whether the test of a word holds of two terms.
fn word_of_two(
    alloc: Global,
    heap: &mut Heap,
    word: Reserved,
    a: TermId,
    b: TermId,
    depth: usize,
) -> Result<bool, AllocError>
    requires left { IsValid heap.old a.index depth }
    requires right { IsValid heap.old b.index depth }
    ensures holds { IfOk result (λ c. c ≡ test_holds (Some word) (read heap.old a.index names ∷ read heap.old b.index names ∷ [])) }
    ensures gains { GainsNodes heap.old heap.new }
{
    match word {
        Reserved::Same => is_same(alloc, heap, a, b, depth),
        Reserved::Distinct => {
            let same = is_same(alloc, heap, a, b, depth)?;
            Ok(!same)
        }
        Reserved::Less => is_less_number(alloc, heap, a, b, depth),
        _ => Ok(false),
    }
}

/// Whether the first term is an integer less than the second.
fn is_less_number(
    alloc: Global,
    heap: &mut Heap,
    a: TermId,
    b: TermId,
    depth: usize,
) -> Result<bool, AllocError>
    requires left { IsValid heap.old a.index depth }
    requires right { IsValid heap.old b.index depth }
    ensures less { IfOk result (λ c. c ≡ good_and_true (less (read heap.old a.index names) (read heap.old b.index names))) }
    ensures gains { GainsNodes heap.old heap.new }
{
    match is_less(alloc, heap, a, b, depth) {
        Ok(c) => Ok(c),
        Err(UnifyStop::Fault(_)) => Ok(false),
        Err(UnifyStop::Memory) => Err(AllocError),
    }
}
