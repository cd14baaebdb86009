//! Retries: the alternatives, newest first.

ghost use Rattle.std.specs.Prelude.{◌≡◌, ◌∷◌, Some, None, IfOk, MatchOption};
ghost use Rattle.level_terms.specs.Reading.{read};
ghost use Rattle.beta_fragment.specs.HeadForm.{AllValidAt, all_read};
ghost use Rattle.beta_fragment.specs.Names.{names};
ghost use Rattle.ref_terms.specs.terms.Term.{Con};
ghost use Rattle.ref_terms.specs.unification.Spine.{args_of, head_of};
ghost use Rattle.ref_terms.specs.unification.Unification.{unify};
ghost use Rattle.ref_terms.specs.search.Program.{Program, modes_of};
ghost use Rattle.ref_terms.specs.search.Next.{retry};
ghost use Rattle.search_moves.specs.World.{code_nodes};
ghost use Rattle.search_moves.specs.declared.frame.Left.TheVariants as LeftVariants;
ghost use Rattle.search_moves.specs.Reading.{left_at};
ghost use Rattle.search_moves.specs.Saved.{HasLeft, IsLaterOf};
ghost use Rattle.search_moves.specs.Calling.{IsCall, HasInputs};
ghost use Rattle.search_moves.specs.Machine.{branch_of, alternatives_of, HasMoved, IsFirst};

use crate::call::Call;
use crate::clauses::Clauses;
use crate::frame::{Frame, Later, Left};
use crate::machine::{Event, Machine, Phase};
use beta_fragment::UnifyStop;
use level_terms::TermId;
use ref_terms::{Choice, Sym};
use std::alloc::AllocError;

impl Machine {
    /// The newest alternative that gives a branch or a fault; the others are dropped on the way.
    pub(crate) fn retry<C: Clauses>(&mut self, code: &C) -> Result<Event, AllocError>
        requires code { (p : Program) × (C.stands (code_nodes self.old.world) code.now p) }
        ensures moved { IfOk result (λ e. (p : Program) → C.stands (code_nodes self.old.world) code.now p
            → HasMoved p (retry unify p (alternatives_of p self.old)) e self.new) }
        ensures code { code_nodes self.new.world ≡ code_nodes self.old.world }
    {
        while let Some(left) = self.back() {
            match self.take_up(code, left) {
                Ok(Some(event)) => return Ok(event),
                Ok(None) => {}
                Err(stop) => return Err(stop),
            }
        }
        self.set_phase(Phase::Exhausted);
        Ok(Event::Failure)
    }

    /// Goes on with what an alternative has left, in its branch; none where all that is left clashes.
    fn take_up<C: Clauses>(&mut self, code: &C, left: Left) -> Result<Option<Event>, AllocError>
        requires code { (p : Program) × (C.stands (code_nodes self.old.world) code.now p) }
        requires left { HasLeft self.old.world self.old.first left }
        ensures moved { IfOk result (λ o. (p : Program) → C.stands (code_nodes self.old.world) code.now p → MatchOption o
            (retry unify p (left_at p (branch_of self.old) left ∷ alternatives_of p self.old) ≡ retry unify p (alternatives_of p self.new))
            (λ e. HasMoved p (retry unify p (left_at p (branch_of self.old) left ∷ alternatives_of p self.old)) e self.new)) }
        ensures saved { IfOk result (λ o. o ≡ None → self.new.saved ≡ self.old.saved) }
        ensures code { code_nodes self.new.world ≡ code_nodes self.old.world }
    {
        match left {
            Left::Side => {
                self.choose(Choice::Right)?;
                self.set_phase(Phase::Running);
                Ok(Some(Event::Moved))
            }
            Left::Call(c, later) => self.go_on(code, c, &later),
        }
    }

    /// Goes on with what is left of the first goal's call.
    fn go_on<C: Clauses>(
        &mut self,
        code: &C,
        c: Sym,
        later: &Later,
    ) -> Result<Option<Event>, AllocError>
        requires code { (p : Program) × (C.stands (code_nodes self.old.world) code.now p) }
        requires left { HasLeft self.old.world self.old.first (LeftVariants.Call c later.now) }
        ensures moved { IfOk result (λ o. (p : Program) → C.stands (code_nodes self.old.world) code.now p → MatchOption o
            (retry unify p (left_at p (branch_of self.old) (LeftVariants.Call c later.now) ∷ alternatives_of p self.old) ≡ retry unify p (alternatives_of p self.new))
            (λ e. HasMoved p (retry unify p (left_at p (branch_of self.old) (LeftVariants.Call c later.now) ∷ alternatives_of p self.old)) e self.new)) }
        ensures saved { IfOk result (λ o. o ≡ None → self.new.saved ≡ self.old.saved) }
        ensures code { code_nodes self.new.world ≡ code_nodes self.old.world }
    {
        let first = self.goal()?;
        match first {
            None => unreachable!(),
            Some(goal) => self.go_on_at(code, &goal, c, later),
        }
    }

    /// Goes on with what is left of the first goal's call, of which this is the constant.
    fn go_on_at<C: Clauses>(
        &mut self,
        code: &C,
        goal: &Frame,
        c: Sym,
        later: &Later,
    ) -> Result<Option<Event>, AllocError>
        requires code { (p : Program) × (C.stands (code_nodes self.old.world) code.now p) }
        requires first { IsFirst self.old goal.now }
        requires head { head_of (read self.old.world.heap goal.now.term.index names) ≡ Some (Con c.0) }
        requires left { IsLaterOf goal.now.context c later.now }
        ensures moved { IfOk result (λ o. (p : Program) → C.stands (code_nodes self.old.world) code.now p → MatchOption o
            (retry unify p (left_at p (branch_of self.old) (LeftVariants.Call c later.now) ∷ alternatives_of p self.old) ≡ retry unify p (alternatives_of p self.new))
            (λ e. HasMoved p (retry unify p (left_at p (branch_of self.old) (LeftVariants.Call c later.now) ∷ alternatives_of p self.old)) e self.new)) }
        ensures saved { IfOk result (λ o. o ≡ None → self.new.saved ≡ self.old.saved) }
        ensures code { code_nodes self.new.world ≡ code_nodes self.old.world }
    {
        let args = self.arguments(goal)?;
        self.go_on_with(code, goal, c, args.as_slice(), later)
    }

    /// Goes on with what is left of the first goal's call, with these arguments. Without stated modes
    /// all its arguments are outputs.
    fn go_on_with<C: Clauses>(
        &mut self,
        code: &C,
        goal: &Frame,
        c: Sym,
        args: &[TermId],
        later: &Later,
    ) -> Result<Option<Event>, AllocError>
        requires code { (p : Program) × (C.stands (code_nodes self.old.world) code.now p) }
        requires first { IsFirst self.old goal.now }
        requires head { head_of (read self.old.world.heap goal.now.term.index names) ≡ Some (Con c.0) }
        requires left { IsLaterOf goal.now.context c later.now }
        requires valid { AllValidAt self.old.world.heap args.now goal.now.depth }
        requires arguments { args_of (read self.old.world.heap goal.now.term.index names) ≡ all_read self.old.world.heap args.now }
        ensures moved { IfOk result (λ o. (p : Program) → C.stands (code_nodes self.old.world) code.now p → MatchOption o
            (retry unify p (left_at p (branch_of self.old) (LeftVariants.Call c later.now) ∷ alternatives_of p self.old) ≡ retry unify p (alternatives_of p self.new))
            (λ e. HasMoved p (retry unify p (left_at p (branch_of self.old) (LeftVariants.Call c later.now) ∷ alternatives_of p self.old)) e self.new)) }
        ensures saved { IfOk result (λ o. o ≡ None → self.new.saved ≡ self.old.saved) }
        ensures code { code_nodes self.new.world ≡ code_nodes self.old.world }
    {
        match code.modes(c) {
            Some(inputs) => {
                let call = Call {
                    goal,
                    pred: c,
                    args,
                    inputs,
                };
                self.try_later(code, &call, later)
            }
            None => {
                let outputs = self.all_outputs(args.len())?;
                let call = Call {
                    goal,
                    pred: c,
                    args,
                    inputs: outputs.as_slice(),
                };
                self.try_later(code, &call, later)
            }
        }
    }

    /// Goes on with what is left of a call.
    fn try_later<C: Clauses>(
        &mut self,
        code: &C,
        call: &Call<'_>,
        later: &Later,
    ) -> Result<Option<Event>, AllocError>
        requires code { (p : Program) × (C.stands (code_nodes self.old.world) code.now p) }
        requires call { IsCall self.old call.now }
        requires left { IsLaterOf call.now.goal.now.context call.now.pred later.now }
        ensures moved { IfOk result (λ o. (p : Program) → C.stands (code_nodes self.old.world) code.now p → HasInputs call.now (modes_of p call.now.pred.0) → MatchOption o
            (retry unify p (left_at p (branch_of self.old) (LeftVariants.Call call.now.pred later.now) ∷ alternatives_of p self.old) ≡ retry unify p (alternatives_of p self.new))
            (λ e. HasMoved p (retry unify p (left_at p (branch_of self.old) (LeftVariants.Call call.now.pred later.now) ∷ alternatives_of p self.old)) e self.new)) }
        ensures saved { IfOk result (λ o. o ≡ None → self.new.saved ≡ self.old.saved) }
        ensures code { code_nodes self.new.world ≡ code_nodes self.old.world }
    {
        match self.resolve_later(code, call, later) {
            Ok(true) => {
                self.set_phase(Phase::Running);
                Ok(Some(Event::Moved))
            }
            Ok(false) => Ok(None),
            Err(UnifyStop::Fault(e)) => Ok(Some(self.break_off(e))),
            Err(UnifyStop::Memory) => Err(AllocError),
        }
    }
}
