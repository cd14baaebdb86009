//! Suspending: `declare_constraint G K` puts the goal `G` with the keys `K` into the store.

ghost use Rattle.std.specs.Prelude.{◌≡◌, ℕ, IfOk, IfSome, MatchOption, Some, None};
ghost use Rattle.level_terms.specs.Graph.{Graph};
ghost use Rattle.level_terms.specs.Reading.{read};
ghost use Rattle.level_terms.specs.Valid.{IsValid};
ghost use Rattle.beta_fragment.specs.HeadForm.{AllValidAt, all_read, IsHeadForm};
ghost use Rattle.beta_fragment.specs.Names.{names};
ghost use Rattle.ref_terms.specs.terms.Term.{Term, At, App, Con};
ghost use Rattle.ref_terms.specs.unification.Spine.{apply_all};
ghost use Rattle.ref_terms.specs.search.Formula.{Suspending};
ghost use Rattle.ref_terms.specs.search.Lists.{items_of};
ghost use Rattle.search_moves.specs.declared.machine.Phase.TheVariants.{Running};
ghost use Rattle.search_moves.specs.World.{code_nodes};
ghost use Rattle.search_moves.specs.Machine.{IsFirst, HasMovedBy};
ghost use Rattle.search_moves.specs.Waking.{IsListForm, StaysAt};

use crate::frame::Frame;
use crate::machine::{Event, Machine};
use beta_fragment::{RigidHead, Whnf};
use level_terms::{TermId, TermIds};
use ref_terms::{Fault, Reserved, Sym};
use std::alloc::AllocError;

/// What a term is as a list.
#[derive(Clone, Copy)]
pub(crate) enum ListForm {
    /// The empty list.
    End,
    /// An item before a list.
    Item(TermId, TermId),
    /// No list.
    Other,
}

/// What a term of this form is as a list.
fn list_form_of(form: Whnf) -> ListForm
    ensures { (g : Graph) (depth : ℕ) (u : Term) → IsHeadForm g depth u form → IsListForm g depth u result }
{
    match form {
        Whnf::Rigid(RigidHead::Con(c), args) => constant_list(c, args.as_slice()),
        Whnf::Rigid(RigidHead::Int(_), _) => ListForm::Other,
        Whnf::Rigid(RigidHead::Str(_), _) => ListForm::Other,
        Whnf::Rigid(RigidHead::Level(_), _) => ListForm::Other,
        Whnf::Lam(_) => ListForm::Other,
        Whnf::Flex(_, _) => ListForm::Other,
        Whnf::Redex(_, _) => ListForm::Other,
    }
}

/// What a constant with these arguments is as a list.
fn constant_list(c: Sym, args: &[TermId]) -> ListForm
    ensures { (g : Graph) (depth : ℕ) → AllValidAt g args.now depth → IsListForm g depth (apply_all (At (Con c.0)) (all_read g args.now)) result }
{
    match args {
        [] => bare_list(c),
        [_] => ListForm::Other,
        [item, rest] => pair_list(c, *item, *rest),
        _ => ListForm::Other,
    }
}

/// What a constant is as a list.
fn bare_list(c: Sym) -> ListForm
    ensures { (g : Graph) (depth : ℕ) → IsListForm g depth (At (Con c.0)) result }
{
    match Reserved::of(c) {
        Some(Reserved::Nil) => ListForm::End,
        _ => ListForm::Other,
    }
}

/// What a constant with two arguments is as a list.
fn pair_list(c: Sym, item: TermId, rest: TermId) -> ListForm
    ensures { (g : Graph) (depth : ℕ) → IsValid g item.index depth → IsValid g rest.index depth
        → IsListForm g depth (App (App (At (Con c.0)) (read g item.index names)) (read g rest.index names)) result }
{
    match Reserved::of(c) {
        Some(Reserved::Cons) => ListForm::Item(item, rest),
        _ => ListForm::Other,
    }
}

impl Machine {
    /// `declare_constraint G K`: the goal goes last into the store, with its names and assumptions.
    /// Keys that are no list which ends in `[]` are a fault.
    pub(crate) fn declare(
        &mut self,
        goal: &Frame,
        t: TermId,
        keys: TermId,
    ) -> Result<Event, AllocError>
        requires running { self.old.phase ≡ Running }
        requires first { IsFirst self.old goal.now }
        requires suspended { IsValid self.old.world.heap t.index goal.now.depth }
        requires keys { IsValid self.old.world.heap keys.index goal.now.depth }
        ensures moved { IfOk result (HasMovedBy self.old self.new goal.now (Suspending (read self.old.world.heap t.index names) (read self.old.world.heap keys.index names))) }
        ensures code { code_nodes self.new.world ≡ code_nodes self.old.world }
    {
        match self.items(goal, keys)? {
            None => Ok(self.break_off(Fault::NotGoal)),
            Some(keys) => {
                self.take(goal);
                self.suspend_goal(goal, t, keys)?;
                Ok(Event::Moved)
            }
        }
    }

    /// The items of a list that ends in `[]`; none where the term is no such list.
    fn items(&mut self, goal: &Frame, list: TermId) -> Result<Option<TermIds>, AllocError>
        requires first { IsFirst self.old goal.now }
        requires valid { IsValid self.old.world.heap list.index goal.now.depth }
        ensures items { IfOk result (λ o. MatchOption o (items_of (read self.old.world.heap list.index names) ≡ None)
            (λ ts. items_of (read self.old.world.heap list.index names) ≡ Some (all_read self.new.world.heap ts))) }
        ensures items_valid { IfOk result (λ o. IfSome o (λ ts. AllValidAt self.new.world.heap ts goal.now.depth)) }
        ensures stays { StaysAt self.old goal.now self.new }
    {
        let mut items = self.no_terms();
        let mut form = self.list_form(goal, list)?;
        while let ListForm::Item(item, rest) = form {
            items.push(item)?;
            form = self.list_form(goal, rest)?;
        }
        match form {
            ListForm::End => Ok(Some(items)),
            ListForm::Item(_, _) => Ok(None),
            ListForm::Other => Ok(None),
        }
    }

    /// What a term is as a list.
    fn list_form(&mut self, goal: &Frame, t: TermId) -> Result<ListForm, AllocError>
        requires first { IsFirst self.old goal.now }
        requires valid { IsValid self.old.world.heap t.index goal.now.depth }
        ensures form { IfOk result (λ f. IsListForm self.new.world.heap goal.now.depth (read self.old.world.heap t.index names) f) }
        ensures stays { StaysAt self.old goal.now self.new }
    {
        let form = self.whnf(t, goal.depth)?;
        Ok(list_form_of(form))
    }
}
