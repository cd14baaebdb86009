//! A clause with the forms around it.

ghost use Rattle.std.specs.Prelude.{◌≡◌, ◌++◌, [], IfOk, OnOk};
ghost use Rattle.level_terms.specs.Valid.{IsValid};
ghost use Rattle.level_terms.specs.Reading.{read};
ghost use Rattle.level_terms.specs.Growth.{Grows};
ghost use Rattle.level_terms.specs.Sound.{IsSound};
ghost use Rattle.beta_fragment.specs.Names.{names};
ghost use Rattle.hyp_clause.specs.inside.Forms.{forms_of, own_goals, goals_of, wrapped, assumed_around, IsFormAt, level_outside, AreFormsAt};

use crate::forms::{Form, Forms};
use crate::making::{abstracted, constant_applied};
use level_terms::{Heap, TermId, TermIds};
use ref_terms::Sym;
use std::alloc::{AllocError, Global};

// The constant `=>`.
const IMPLIES: Sym = Sym(5);

// The constant `:-`.
const IF: Sym = Sym(6);

// The constant `pi`.
const PI: Sym = Sym(7);

/// The conditions that the forms give, outer ones first.
pub(crate) fn conditions_of(alloc: Global, forms: &Forms) -> Result<TermIds, AllocError>
    ensures { IfOk result (λ ts. ts ≡ goals_of (forms_of forms.now)) }
{
    let mut goals = Vec::new(alloc);
    let mut at = forms;
    while let Forms::Inside(layer) = at {
        add_goal(&mut goals, layer.form)?;
        at = &layer.outer;
    }
    goals.reverse();
    let conditions = TermIds::from_slice(alloc, goals.as_slice())?;
    Ok(conditions)
}

/// Puts the condition that a form gives last, if it gives one.
fn add_goal(goals: &mut Vec<TermId>, form: Form) -> Result<(), AllocError>
    ensures { OnOk result (goals.new.items ≡ goals.old.items ++ own_goals form) }
{
    match form {
        Form::If(goal) | Form::Implies(goal) => {
            goals.push(goal)?;
            Ok(())
        }
        Form::Pi(_) => Ok(()),
    }
}

/// The term, which is valid at the depth, with the forms around it.
pub(crate) fn assumed_by(
    heap: &mut Heap,
    forms: &Forms,
    term: TermId,
    depth: usize,
    scope: usize,
) -> Result<TermId, AllocError>
    requires forms { AreFormsAt heap.old scope depth (forms_of forms.now) }
    requires valid { IsValid heap.old term.index depth }
    ensures reads { IfOk result (λ r. read heap.new r.index names ≡ assumed_around heap.old (forms_of forms.now) (read heap.old term.index names)) }
    ensures valid { IfOk result (λ r. IsValid heap.new r.index scope) }
    ensures variables { heap.new.depths ≡ heap.old.depths }
    ensures grows { Grows heap.old heap.new [] [] }
{
    let mut whole = term;
    let mut under = depth;
    let mut at = forms;
    while let Forms::Inside(layer) = at {
        let form = layer.form;
        whole = with_form(heap, form, whole, under)?;
        under = outside(form, under);
        at = &layer.outer;
    }
    Ok(whole)
}

/// The depth outside a form.
fn outside(form: Form, depth: usize) -> usize
    ensures { result ≡ level_outside form depth }
{
    match form {
        Form::Pi(level) => level,
        _ => depth,
    }
}

/// The term, which is valid at the depth, with a form around it.
fn with_form(heap: &mut Heap, form: Form, term: TermId, depth: usize) -> Result<TermId, AllocError>
    requires form { IsFormAt heap.old depth form }
    requires valid { IsValid heap.old term.index depth }
    ensures reads { IfOk result (λ r. read heap.new r.index names ≡ wrapped heap.old form (read heap.old term.index names)) }
    ensures valid { IfOk result (λ r. IsValid heap.new r.index (level_outside form depth)) }
    ensures sound { IsSound heap.old }
    ensures variables { heap.new.depths ≡ heap.old.depths }
    ensures grows { Grows heap.old heap.new [] [] }
{
    heap.is_sound();
    match form {
        Form::If(goal) => constant_applied(heap, IF, &[term, goal], depth),
        Form::Implies(goal) => constant_applied(heap, IMPLIES, &[goal, term], depth),
        Form::Pi(level) => {
            let body = abstracted(heap, level, term)?;
            constant_applied(heap, PI, &[body], level)
        }
    }
}
