//! What a part is read as.

ghost use Rattle.std.specs.Prelude.{◌≡◌, ◌+◌, ◌<◌, ◌≤◌, ◌∷◌, [], length, None, IfOk};
ghost use Rattle.level_terms.specs.Valid.{IsValid};
ghost use Rattle.level_terms.specs.Reading.{read};
ghost use Rattle.level_terms.specs.Growth.{Grows};
ghost use Rattle.ref_terms.specs.terms.Term.{At, Con};
ghost use Rattle.ref_terms.specs.unification.Spine.{apply_all};
ghost use Rattle.ref_terms.specs.search.Reserved.{word_of};
ghost use Rattle.beta_fragment.specs.Names.{names};
ghost use Rattle.beta_fragment.specs.HeadForm.{all_read, AllValidAt, IsHeadForm};
ghost use Rattle.hyp_clause.specs.inside.Words.{word_kind};
ghost use Rattle.hyp_clause.specs.inside.Words.{fault_of_name, form_fault};
ghost use Rattle.hyp_clause.specs.inside.Parts.{task_of, seen, inside, both_of, conditional_of, implied_of, IsQuantified, IsClause, IsPart, IsHeadedPart, IsTurnOf};

use crate::around::{assumed_by, conditions_of};
use crate::fixed::are_all_fixed;
use crate::forms::Form;
use crate::hyp::Hyp;
use crate::part::{Part, Turn};
use beta_fragment::{RigidHead, Whnf, applied_to_level, whnf};
use level_terms::{Heap, TermId};
use ref_terms::{Fault, Reserved, Sym};
use std::alloc::{AllocError, Global};

/// What a constant makes of a term that is read as clauses.
#[derive(Clone, Copy, Debug, PartialEq, Eq)]
enum Word {
    /// `,`
    And,
    /// `:-`
    If,
    /// `=>`
    Implies,
    /// `pi`
    Pi,
    /// Another reserved name.
    Other,
    /// A constant that isn't reserved.
    Free,
}

/// What a constant makes of a term.
fn word_at(c: Sym) -> Word
    ensures { result ≡ word_kind (word_of c.0) }
{
    match Reserved::of(c) {
        None => Word::Free,
        Some(Reserved::Nonvar) => Word::Free,
        Some(Reserved::Distinct) => Word::Free,
        Some(Reserved::And) => Word::And,
        Some(Reserved::If) => Word::If,
        Some(Reserved::Implies) => Word::Implies,
        Some(Reserved::Pi) => Word::Pi,
        Some(_) => Word::Other,
    }
}

/// What a part is read as, in a term that was assumed at a depth.
pub(crate) fn turn(
    alloc: Global,
    heap: &mut Heap,
    part: &Part,
    depth: usize,
) -> Result<Turn, AllocError>
    requires { IsPart heap.old depth (task_of part.now) }
    ensures turn { IfOk result (λ w. IsTurnOf heap.old heap.new depth (task_of part.now) (seen w)) }
    ensures variables { heap.new.depths ≡ heap.old.depths }
    ensures grows { Grows heap.old heap.new [] [] }
{
    heap.is_sound();
    let under = depth.checked_add(part.pis).ok_or(AllocError)?;
    let form = whnf(alloc, heap, part.term, under)?;
    heap.is_sound();
    by_form(alloc, heap, part, &form, depth)
}

/// So by the form of the part.
fn by_form(
    alloc: Global,
    heap: &mut Heap,
    part: &Part,
    form: &Whnf,
    depth: usize,
) -> Result<Turn, AllocError>
    requires part { IsPart heap.old depth (task_of part.now) }
    requires form { IsHeadForm heap.old (depth + part.now.pis) (read heap.old part.now.term.index names) form.now }
    ensures turn { IfOk result (λ w. IsTurnOf heap.old heap.new depth (task_of part.now) (seen w)) }
    ensures variables { heap.new.depths ≡ heap.old.depths }
    ensures grows { Grows heap.old heap.new [] [] }
{
    match form_fault_of(form, depth) {
        Some(fault) => Ok(Turn::Failed(fault)),
        None => by_head(alloc, heap, part, form, depth),
    }
}

/// The fault of a form that is no application of a constant.
fn form_fault_of(form: &Whnf, depth: usize) -> Option<Fault>
    ensures { result ≡ form_fault depth form.now }
{
    match form {
        Whnf::Lam(_) => Some(Fault::NotGoal),
        Whnf::Flex(_, _) => Some(Fault::FlexClause),
        Whnf::Redex(_, _) => Some(Fault::Redex),
        Whnf::Rigid(RigidHead::Con(_), _) => None,
        Whnf::Rigid(RigidHead::Level(level), _) => Some(name_fault(*level, depth)),
        Whnf::Rigid(_, _) => Some(Fault::NotGoal),
    }
}

/// What a part with a constant at the head is read as.
fn by_head(
    alloc: Global,
    heap: &mut Heap,
    part: &Part,
    form: &Whnf,
    depth: usize,
) -> Result<Turn, AllocError>
    requires part { IsPart heap.old depth (task_of part.now) }
    requires form { IsHeadForm heap.old (depth + part.now.pis) (read heap.old part.now.term.index names) form.now }
    requires constant { form_fault depth form.now ≡ None }
    ensures turn { IfOk result (λ w. IsTurnOf heap.old heap.new depth (task_of part.now) (seen w)) }
    ensures variables { heap.new.depths ≡ heap.old.depths }
    ensures grows { Grows heap.old heap.new [] [] }
{
    match form {
        Whnf::Rigid(RigidHead::Con(c), args) => by_word(
            alloc,
            heap,
            part,
            *c,
            args.as_slice(),
            depth,
        ),
        _ => unreachable!(),
    }
}

/// The fault of a name at the head: a parameter's, or another's.
fn name_fault(level: usize, depth: usize) -> Fault
    ensures { result ≡ fault_of_name depth level }
{
    if level < depth {
        Fault::NotGoal
    } else {
        Fault::FlexClause
    }
}

/// So by the constant at the head.
fn by_word(
    alloc: Global,
    heap: &mut Heap,
    part: &Part,
    c: Sym,
    args: &[TermId],
    depth: usize,
) -> Result<Turn, AllocError>
    requires { IsHeadedPart heap.old depth (task_of part.now) c args.now }
    ensures turn { IfOk result (λ w. IsTurnOf heap.old heap.new depth (task_of part.now) (seen w)) }
    ensures variables { heap.new.depths ≡ heap.old.depths }
    ensures grows { Grows heap.old heap.new [] [] }
{
    heap.is_sound();
    match word_at(c) {
        Word::And => both(part, args),
        Word::If => conditional(alloc, part, args),
        Word::Implies => implied(alloc, part, args),
        Word::Pi => quantified(alloc, heap, part, args, depth),
        Word::Other => Ok(Turn::Failed(Fault::NotGoal)),
        Word::Free => clause(alloc, heap, part, c, depth),
    }
}

/// Two parts, of a conjunction.
fn both(part: &Part, args: &[TermId]) -> Result<Turn, AllocError>
    ensures { IfOk result (λ w. seen w ≡ both_of (task_of part.now) args.now) }
{
    match args {
        [first, second] => {
            let left = with_term(part, *first)?;
            let right = with_term(part, *second)?;
            Ok(Turn::Both(left, right))
        }
        _ => Ok(Turn::Failed(Fault::NotGoal)),
    }
}

/// Another part with the same forms around it.
fn with_term(part: &Part, term: TermId) -> Result<Part, AllocError>
    ensures { IfOk result (λ p. task_of p ≡ record (task_of part.now) { term = term }) }
{
    let around = part.around.copy()?;
    Ok(Part {
        term,
        pis: part.pis,
        around,
    })
}

/// A part with one more form around it.
fn within(alloc: Global, part: &Part, form: Form, term: TermId) -> Result<Part, AllocError>
    ensures { IfOk result (λ p. task_of p ≡ inside form term (task_of part.now)) }
{
    let around = part.around.with(alloc, form)?;
    Ok(Part {
        term,
        pis: part.pis,
        around,
    })
}

/// A clause with its condition behind it.
fn conditional(alloc: Global, part: &Part, args: &[TermId]) -> Result<Turn, AllocError>
    ensures { IfOk result (λ w. seen w ≡ conditional_of (task_of part.now) args.now) }
{
    match args {
        [clause, goal] => Ok(Turn::One(within(alloc, part, Form::If(*goal), *clause)?)),
        _ => Ok(Turn::Failed(Fault::NotGoal)),
    }
}

/// A clause with its condition before it.
fn implied(alloc: Global, part: &Part, args: &[TermId]) -> Result<Turn, AllocError>
    ensures { IfOk result (λ w. seen w ≡ implied_of (task_of part.now) args.now) }
{
    match args {
        [goal, clause] => Ok(Turn::One(within(alloc, part, Form::Implies(*goal), *clause)?)),
        _ => Ok(Turn::Failed(Fault::NotGoal)),
    }
}

/// A clause over a parameter.
fn quantified(
    alloc: Global,
    heap: &mut Heap,
    part: &Part,
    args: &[TermId],
    depth: usize,
) -> Result<Turn, AllocError>
    requires { AllValidAt heap.old args.now (depth + part.now.pis) }
    ensures turn { IfOk result (λ w. IsQuantified heap.old heap.new depth (task_of part.now) args.now (seen w)) }
    ensures variables { heap.new.depths ≡ heap.old.depths }
    ensures grows { Grows heap.old heap.new [] [] }
{
    match args {
        [function] => {
            let level = depth.checked_add(part.pis).ok_or(AllocError)?;
            let pis = part.pis.checked_add(1).ok_or(AllocError)?;
            let term = applied_to_level(alloc, heap, *function, level)?;
            let around = part.around.with(alloc, Form::Pi(level))?;
            Ok(Turn::One(Part { term, pis, around }))
        }
        _ => Ok(Turn::Failed(Fault::NotGoal)),
    }
}

/// A clause with this constant at the head.
fn clause(
    alloc: Global,
    heap: &mut Heap,
    part: &Part,
    c: Sym,
    depth: usize,
) -> Result<Turn, AllocError>
    requires { IsPart heap.old depth (task_of part.now) }
    ensures turn { IfOk result (λ w. IsClause heap.old heap.new depth (task_of part.now) c (seen w)) }
    ensures variables { heap.new.depths ≡ heap.old.depths }
    ensures grows { Grows heap.old heap.new [] [] }
{
    let body = conditions_of(alloc, &part.around)?;
    let under = depth.checked_add(part.pis).ok_or(AllocError)?;
    let term = assumed_by(heap, &part.around, part.term, under, depth)?;
    let ground_normal = are_all_fixed(heap, part.term, term, body.as_slice());
    Ok(Turn::Clause(Hyp {
        pred: c,
        depth,
        pis: part.pis,
        head: part.term,
        body,
        term,
        ground_normal,
    }))
}
