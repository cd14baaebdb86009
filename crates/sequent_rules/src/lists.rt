//! Terms that are lists.

ghost use Rattle.std.specs.Prelude.{◌≡◌, ℕ, IfOk, IfSome, MatchOption, Some, None};
ghost use Rattle.level_terms.specs.Gains.{GainsNodes};
ghost use Rattle.level_terms.specs.Graph.{Graph};
ghost use Rattle.level_terms.specs.Reading.{read};
ghost use Rattle.level_terms.specs.Valid.{IsValid};
ghost use Rattle.beta_fragment.specs.HeadForm.{AllValidAt, all_read, IsHeadForm};
ghost use Rattle.beta_fragment.specs.Names.{names};
ghost use Rattle.ref_terms.specs.terms.Term.{Term, At, App, Con};
ghost use Rattle.ref_terms.specs.unification.Spine.{apply_all};
ghost use Rattle.ref_terms.specs.search.Lists.{items_of};
ghost use Rattle.sequent_rules.specs.inside.Lists.{IsListForm};

use beta_fragment::{RigidHead, Whnf, whnf};
use level_terms::{Heap, TermId, TermIds};
use ref_terms::{Reserved, Sym};
use std::alloc::{AllocError, Global};

/// What a term is as a list.
#[derive(Clone, Copy)]
pub(crate) enum ListForm {
    /// The empty list.
    End,
    /// An item before a list.
    Item(TermId, TermId),
    /// No list.
    Other,
}

/// What a term of this form is as a list.
fn list_form_of(form: Whnf) -> ListForm
    ensures { (g : Graph) (depth : ℕ) (u : Term) → IsHeadForm g depth u form → IsListForm g depth u result }
{
    match form {
        Whnf::Rigid(RigidHead::Con(c), args) => constant_list(c, args.as_slice()),
        Whnf::Rigid(RigidHead::Int(_), _) => ListForm::Other,
        Whnf::Rigid(RigidHead::Str(_), _) => ListForm::Other,
        Whnf::Rigid(RigidHead::Level(_), _) => ListForm::Other,
        Whnf::Lam(_) => ListForm::Other,
        Whnf::Flex(_, _) => ListForm::Other,
        Whnf::Redex(_, _) => ListForm::Other,
    }
}

/// What a constant with these arguments is as a list.
fn constant_list(c: Sym, args: &[TermId]) -> ListForm
    ensures { (g : Graph) (depth : ℕ) → AllValidAt g args.now depth → IsListForm g depth (apply_all (At (Con c.0)) (all_read g args.now)) result }
{
    match args {
        [] => bare_list(c),
        [_] => ListForm::Other,
        [item, rest] => pair_list(c, *item, *rest),
        _ => ListForm::Other,
    }
}

/// What a constant is as a list.
fn bare_list(c: Sym) -> ListForm
    ensures { (g : Graph) (depth : ℕ) → IsListForm g depth (At (Con c.0)) result }
{
    match Reserved::of(c) {
        Some(Reserved::Nil) => ListForm::End,
        _ => ListForm::Other,
    }
}

/// What a constant with two arguments is as a list.
fn pair_list(c: Sym, item: TermId, rest: TermId) -> ListForm
    ensures { (g : Graph) (depth : ℕ) → IsValid g item.index depth → IsValid g rest.index depth
        → IsListForm g depth (App (App (At (Con c.0)) (read g item.index names)) (read g rest.index names)) result }
{
    match Reserved::of(c) {
        Some(Reserved::Cons) => ListForm::Item(item, rest),
        _ => ListForm::Other,
    }
}

/// The items of a list that ends in `[]`; none where the term is no such list.
pub(crate) fn items(
    alloc: Global,
    heap: &mut Heap,
    list: TermId,
    depth: usize,
) -> Result<Option<TermIds>, AllocError>
    requires { IsValid heap.old list.index depth }
    ensures items { IfOk result (λ o. MatchOption o (items_of (read heap.old list.index names) ≡ None)
        (λ ts. items_of (read heap.old list.index names) ≡ Some (all_read heap.new ts))) }
    ensures valid { IfOk result (λ o. IfSome o (λ ts. AllValidAt heap.new ts depth)) }
    ensures gains { GainsNodes heap.old heap.new }
{
    heap.is_sound();
    let mut items = TermIds::new(alloc);
    let mut form = list_form(alloc, heap, list, depth)?;
    while let ListForm::Item(item, rest) = form {
        heap.is_sound();
        items.push(item)?;
        form = list_form(alloc, heap, rest, depth)?;
    }
    match form {
        ListForm::End => Ok(Some(items)),
        ListForm::Item(_, _) => Ok(None),
        ListForm::Other => Ok(None),
    }
}

/// What a term is as a list.
fn list_form(
    alloc: Global,
    heap: &mut Heap,
    t: TermId,
    depth: usize,
) -> Result<ListForm, AllocError>
    requires { IsValid heap.old t.index depth }
    ensures form { IfOk result (λ f. IsListForm heap.new depth (read heap.old t.index names) f) }
    ensures gains { GainsNodes heap.old heap.new }
{
    let form = whnf(alloc, heap, t, depth)?;
    Ok(list_form_of(form))
}
