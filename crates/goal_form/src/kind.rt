//! Kinds of goals.

ghost use Rattle.std.specs.Prelude.{◌≡◌, ℕ, [], IfOk};
ghost use Rattle.level_terms.specs.Graph.{Graph};
ghost use Rattle.level_terms.specs.Growth.{Grows};
ghost use Rattle.level_terms.specs.Reading.{read};
ghost use Rattle.level_terms.specs.Valid.{IsValid};
ghost use Rattle.ref_terms.specs.terms.Term.{Term};
ghost use Rattle.beta_fragment.specs.HeadForm.{IsHeadForm};
ghost use Rattle.beta_fragment.specs.Names.{names};
ghost use Rattle.goal_form.specs.Kinds.{IsKindOf};

use crate::builtin::Builtin;
use crate::word_kind::rigid_kind;
use beta_fragment::{Whnf, whnf};
use level_terms::{Heap, TermId, TermIds};
use ref_terms::{Fault, Sym};
use std::alloc::{AllocError, Global};

/// A goal, by what it does.
#[derive(Drop)]
pub enum GoalKind {
    /// `true`
    Truth,
    /// `fail`
    Failing,
    /// `!`
    Cut,
    /// `A , B`
    Conjunction(TermId, TermId),
    /// `A ; B`
    Disjunction(TermId, TermId),
    /// `D => G`
    Assuming(TermId, TermId),
    /// `pi F`
    ForAll(TermId),
    /// `sigma F`
    Exists(TermId),
    /// `declare_constraint G K`
    Suspending(TermId, TermId),
    /// A built-in with as many arguments as it has.
    Builtin(Builtin, TermIds),
    /// A constant that isn't reserved, with its arguments.
    Atom(Sym, TermIds),
    /// No goal, for this fault.
    Wrong(Fault),
}

/// What a goal of this form does. Takes no memory.
pub fn kind_of_form(form: Whnf) -> GoalKind
    ensures { (g : Graph) (depth : ℕ) (u : Term) → IsHeadForm g depth u form → IsKindOf g depth u result }
{
    match form {
        Whnf::Lam(_) => GoalKind::Wrong(Fault::NotGoal),
        Whnf::Redex(_, _) => GoalKind::Wrong(Fault::Redex),
        Whnf::Flex(_, _) => GoalKind::Wrong(Fault::FlexGoal),
        Whnf::Rigid(head, args) => rigid_kind(head, args),
    }
}

/// What the goal that the term is does, or the fault of a term that is no goal. Makes no variable.
/// Whether an atom's constant is a predicate isn't asked. Answers `AllocError` on want of memory
/// alone. Costs a look at the term's head.
pub fn goal_kind_of(
    alloc: Global,
    heap: &mut Heap,
    t: TermId,
    depth: usize,
) -> Result<GoalKind, AllocError>
    requires { IsValid heap.old t.index depth }
    ensures kind { IfOk result (λ kind. IsKindOf heap.new depth (read heap.old t.index names) kind) }
    ensures variables { heap.new.depths ≡ heap.old.depths }
    ensures grows { Grows heap.old heap.new [] [] }
{
    let form = whnf(alloc, heap, t, depth)?;
    Ok(kind_of_form(form))
}
