//! Pattern spines at the arguments of a sequent's goal.

ghost use Rattle.std.specs.Prelude.{◌≡◌, ◌<◌, [], option_map, option_and_then, slice_get, Some, IfOk, IfSome};
ghost use Rattle.level_terms.specs.Growth.{Grows};
ghost use Rattle.level_terms.specs.Reading.{read};
ghost use Rattle.level_terms.specs.Valid.{IsValid};
ghost use Rattle.ref_terms.specs.unification.Shape.{shape, Flex};
ghost use Rattle.ref_terms.specs.search.Joint.{spine_names, spine_at};
ghost use Rattle.beta_fragment.specs.Names.{names as own_names, AllBelow};
ghost use Rattle.beta_fragment.specs.HeadForm.{AllValidAt, all_read};
ghost use Rattle.eigen_align.specs.Sequents.{sequent_read};
ghost use Rattle.eigen_align.specs.inside.Spines.{spine_read, form_args};

use crate::sequent::Sequent;
use beta_fragment::{Whnf, whnf};
use level_terms::{Heap, TermId, VarId};
use pattern_unify::pattern_names;
use std::alloc::{AllocError, Global};

/// A variable before distinct names.
#[derive(Drop)]
pub(crate) struct Spine {
    pub variable: VarId,
    pub names: Vec<usize>,
}

/// The pattern spine that stands at an argument of the goal, where one does.
pub(crate) fn spine_at(
    alloc: Global,
    heap: &mut Heap,
    s: Sequent,
    argument: usize,
) -> Result<Option<Spine>, AllocError>
    requires { IsValid heap.old s.goal.index s.depth }
    ensures spine { IfOk result (λ o. option_map spine_read o ≡ spine_at argument (Some (sequent_read heap.old s))) }
    ensures below { IfOk result (λ o. IfSome o (λ p. AllBelow p.names.items s.depth)) }
    ensures variables { heap.new.depths ≡ heap.old.depths }
    ensures grows { Grows heap.old heap.new [] [] }
{
    heap.is_sound();
    let form = whnf(alloc, heap, s.goal, s.depth)?;
    match argument_of(&form, argument) {
        Some(t) => spine_of(alloc, heap, t, s.depth),
        None => Ok(None),
    }
}

/// An argument of a term of this form, where it has that many.
fn argument_of(form: &Whnf, i: usize) -> Option<TermId>
    ensures { result ≡ slice_get (form_args form.now) i }
{
    match form {
        Whnf::Lam(_) => None,
        Whnf::Rigid(_, args) => args.as_slice().get(i).copied(),
        Whnf::Flex(_, args) => args.as_slice().get(i).copied(),
        Whnf::Redex(_, args) => args.as_slice().get(i).copied(),
    }
}

/// The pattern spine that the term is, where it is one.
fn spine_of(
    alloc: Global,
    heap: &mut Heap,
    t: TermId,
    depth: usize,
) -> Result<Option<Spine>, AllocError>
    requires { IsValid heap.old t.index depth }
    ensures spine { IfOk result (λ o. option_map spine_read o ≡ spine_names (shape 0 (read heap.old t.index own_names))) }
    ensures below { IfOk result (λ o. IfSome o (λ p. AllBelow p.names.items depth)) }
    ensures variables { heap.new.depths ≡ heap.old.depths }
    ensures grows { Grows heap.old heap.new [] [] }
{
    heap.is_sound();
    match whnf(alloc, heap, t, depth)? {
        Whnf::Flex(variable, args) => {
            spine_before(alloc, heap, variable, args.as_slice(), depth)
        }
        Whnf::Lam(_) => Ok(None),
        Whnf::Rigid(_, _) => Ok(None),
        Whnf::Redex(_, _) => Ok(None),
    }
}

/// The pattern spine of a variable before these arguments, where they are distinct names.
fn spine_before(
    alloc: Global,
    heap: &mut Heap,
    variable: VarId,
    args: &[TermId],
    depth: usize,
) -> Result<Option<Spine>, AllocError>
    requires { AllValidAt heap.old args.now depth }
    ensures spine { IfOk result (λ o. option_map spine_read o ≡ spine_names (Flex variable.index (all_read heap.old args.now))) }
    ensures below { IfOk result (λ o. IfSome o (λ p. AllBelow p.names.items depth)) }
    ensures variables { heap.new.depths ≡ heap.old.depths }
    ensures grows { Grows heap.old heap.new [] [] }
{
    match pattern_names(alloc, heap, args, depth)? {
        Some(names) => Ok(Some(Spine { variable, names })),
        None => Ok(None),
    }
}
