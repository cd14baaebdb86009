//! Assumptions: the goal `D => G`, and the assumptions of a call, which are tried before the
//! program's clauses.

ghost use Rattle.std.specs.Prelude.{◌≡◌, ◌∷◌, suc, false, drop, IfSome, IsTrue, Option, Some, None, Bool, List, IfOk, IfErr, MatchBool};
ghost use Rattle.level_terms.specs.Reading.{read};
ghost use Rattle.level_terms.specs.Valid.{IsValid};
ghost use Rattle.beta_fragment.specs.Names.{names};
ghost use Rattle.hyp_clause.specs.Hyps.{assumption_in, IsHypValid, AllHypsValid};
ghost use Rattle.hyp_context.specs.Contexts.{hyps_for};
ghost use Rattle.ref_terms.specs.search.Formula.{Assuming};
ghost use Rattle.ref_terms.specs.search.Program.{Program, modes_of};
ghost use Rattle.ref_terms.specs.search.State.{of_assumption};
ghost use Rattle.ref_terms.specs.search.Resolve.{Clashes};
ghost use Rattle.search_moves.specs.World.{code_nodes, IsUsable, AllUsable};
ghost use Rattle.search_moves.specs.declared.frame.Later.TheVariants as LaterVariants;
ghost use Rattle.search_moves.specs.declared.machine.Phase.TheVariants.{Running};
ghost use Rattle.search_moves.specs.Machine.{branch_of, IsFirst, HasMovedBy};
ghost use Rattle.level_terms.specs.declared.node.Node.{Node as HeapNode};
ghost use Rattle.search_moves.specs.Reading.{later_of};
ghost use Rattle.search_moves.specs.Saved.{IsLaterOf};
ghost use Rattle.search_moves.specs.Calling.{IsCall, HasInputs, HasEntered, BreaksSo, ResolvedStops, IsLeftAfter, HypClashes, AllHypsClash, key_of_call, tried_here, resolved_later, HasResolvedLater};

use crate::call::{Call, from_clause, left_from};
use crate::clauses::Clauses;
use crate::frame::{Frame, Later};
use crate::machine::{Event, Machine};
use crate::quantifiers::one_more;
use beta_fragment::UnifyStop;
use clause_key::laws::{law_disagreeing_assumption_clashes, law_disagreeing_clause_clashes};
use clause_key::{Key, agree, fixed_key};
use hyp_clause::{Hyp, HypStop};
use hyp_context::{Context, HypIter};
use level_terms::TermId;
use ref_terms::{Choice, Sym};
use std::alloc::AllocError;

impl Machine {
    /// `D => G`: the clauses of `D` stand before the other assumptions of `G`.
    pub(crate) fn assume(&mut self, goal: &Frame, d: TermId, g: TermId) -> Result<Event, AllocError>
        requires running { self.old.phase ≡ Running }
        requires first { IsFirst self.old goal.now }
        requires clauses { IsValid self.old.world.heap d.index goal.now.depth }
        requires body { IsValid self.old.world.heap g.index goal.now.depth }
        ensures moved { IfOk result (HasMovedBy self.old self.new goal.now (Assuming (read self.old.world.heap d.index names) (read self.old.world.heap g.index names))) }
        ensures code { code_nodes self.new.world ≡ code_nodes self.old.world }
    {
        let hyps = match self.compile_hyp(d, goal) {
            Ok(hyps) => hyps,
            Err(HypStop::Fault(e)) => return Ok(self.break_off(e)),
            Err(HypStop::Memory) => return Err(AllocError),
        };
        let context = Context::assume(&goal.context, hyps)?;
        self.take(goal);
        self.put(Frame {
            depth: goal.depth,
            barrier: goal.barrier,
            term: g,
            next: goal.next,
            context,
        })?;
        Ok(Event::Moved)
    }
}

impl Machine {
    /// Whether the key of a call passes over an assumption of its constant, which then clashes. Makes
    /// nothing, and looks at a few nodes.
    fn passes_over(&self, call: &Call<'_>, key: Key, hyp: &Hyp) -> bool
        requires call { IsCall self.now call.now }
        requires key { key ≡ key_of_call self.now.world.heap call.now }
        requires valid { IsHypValid self.now.world.heap hyp.now }
        requires usable { IsUsable self.now.world.heap call.now.goal.now.depth hyp.now }
        ensures { IsTrue result → (modes : Option (List Bool)) → HasInputs call.now modes → HypClashes self.now call.now.goal.now modes hyp.now }
    {
        law_disagreeing_assumption_clashes();
        let seen = self.seen_among(call.inputs, hyp.head);
        !agree(key, fixed_key(hyp.depth, seen))
    }

    /// Whether the key of a call passes over each of these assumptions of its constant.
    fn passes_over_all(&self, call: &Call<'_>, key: Key, hyps: HypIter<'_>) -> bool
        requires call { IsCall self.now call.now }
        requires key { key ≡ key_of_call self.now.world.heap call.now }
        requires valid { AllHypsValid self.now.world.heap hyps }
        requires usable { AllUsable self.now.world.heap call.now.goal.now.depth hyps }
        ensures { IsTrue result → (modes : Option (List Bool)) → HasInputs call.now modes → AllHypsClash self.now call.now.goal.now modes hyps.entry }
    {
        let mut left = hyps;
        while let Some(hyp) = left.next() {
            if !self.passes_over(call, key, hyp) {
                return false;
            }
        }
        true
    }

    /// Whether the key of a call passes over each of these assumptions of its constant, and then over the
    /// program's clauses, of which this is the first one that agrees, if there is one.
    fn passes_over_rest(
        &self,
        call: &Call<'_>,
        key: Key,
        hyps: HypIter<'_>,
        clause: Option<usize>,
    ) -> bool
        requires call { IsCall self.now call.now }
        requires key { key ≡ key_of_call self.now.world.heap call.now }
        requires valid { AllHypsValid self.now.world.heap hyps }
        requires usable { AllUsable self.now.world.heap call.now.goal.now.depth hyps }
        ensures clauses { IsTrue result → clause ≡ None }
        ensures hyps { IsTrue result → (modes : Option (List Bool)) → HasInputs call.now modes → AllHypsClash self.now call.now.goal.now modes hyps.entry }
    {
        match clause {
            Some(_) => false,
            None => self.passes_over_all(call, key, hyps),
        }
    }

    /// What is left of a call after an assumption with this place, before these others: nothing where
    /// its key passes over all of them and over the program's clauses.
    fn left_after<C: Clauses>(
        &self,
        code: &C,
        call: &Call<'_>,
        key: Key,
        place: usize,
        others: &HypIter<'_>,
    ) -> Result<Option<Later>, AllocError>
        requires call { IsCall self.now call.now }
        requires key { key ≡ key_of_call self.now.world.heap call.now }
        requires others { others.now ≡ drop (suc place) (hyps_for call.now.pred.0 call.now.goal.now.context) }
        ensures left { IfOk result (λ o. IfSome o (IsLaterOf call.now.goal.now.context call.now.pred)) }
        ensures after { IfOk result (λ o. (ns : List HeapNode) (p : Program) → C.stands ns code.now p → HasInputs call.now (modes_of p call.now.pred.0)
            → IsLeftAfter p (branch_of self.now) call.now.pred (later_of p (branch_of self.now).goals call.now.pred.0 (LaterVariants.Assumptions (suc place) others.now)) o) }
    {
        law_disagreeing_clause_clashes();
        let clause = code.next_clause(call.pred, key, 0);
        let found = others.tail()?;
        match found {
            Some(tail) => {
                if self.passes_over_rest(call, key, tail.iter(), clause) {
                    return Ok(None);
                }
                let next = one_more(place)?;
                Ok(Some(Later::Assumptions(next, tail)))
            }
            None => Ok(from_clause(left_from(clause, 0))),
        }
    }
}

impl Machine {
    /// Tries an assumption on the call, and answers whether it fits: then its conditions are entered,
    /// and what is left becomes an alternative. Where it doesn't fit, all is as before. One that the
    /// key of the call passes over isn't made.
    fn try_assumption<C: Clauses>(
        &mut self,
        code: &C,
        call: &Call<'_>,
        key: Key,
        hyp: &Hyp,
        place: usize,
        others: &HypIter<'_>,
    ) -> Result<bool, UnifyStop>
        requires code { (p : Program) × (C.stands (code_nodes self.old.world) code.now p) }
        requires call { IsCall self.old call.now }
        requires key { key ≡ key_of_call self.old.world.heap call.now }
        requires left { drop place (hyps_for call.now.pred.0 call.now.goal.now.context) ≡ hyp.now ∷ others.now }
        ensures answer { IfOk result (λ b. (p : Program) (modes : Option (List Bool)) → C.stands (code_nodes self.old.world) code.now p → modes ≡ modes_of p call.now.pred.0 → HasInputs call.now modes → MatchBool b
            (HasEntered p self.old self.new call.now.goal.now modes (of_assumption place (assumption_in self.old.world.heap hyp.now)) (later_of p (branch_of self.old).goals call.now.pred.0 (LaterVariants.Assumptions (suc place) others.now)))
            (tried_here self.old call.now.goal.now modes (of_assumption place (assumption_in self.old.world.heap hyp.now)) ≡ Clashes)) }
        ensures same { IfOk result (λ b. b ≡ false → self.new ≡ self.old) }
        ensures stops { IfErr result (λ stop. (modes : Option (List Bool)) → HasInputs call.now modes → BreaksSo (tried_here self.old call.now.goal.now modes (of_assumption place (assumption_in self.old.world.heap hyp.now))) stop) }
        ensures phase { self.new.phase ≡ self.old.phase }
        ensures code { code_nodes self.new.world ≡ code_nodes self.old.world }
    {
        self.is_fine();
        if self.passes_over(call, key, hyp) {
            return Ok(false);
        }
        let later = self.left_after(code, call, key, place, others)?;
        let (mark, first) = self.here();
        let first_fresh = self.next_var();
        let barrier = self.alternatives();
        let made = self.assumed_instance(hyp, call.goal.depth)?;
        match self.fit(made.heads.as_slice(), call, first_fresh) {
            Ok(true) => {}
            Ok(false) => {
                self.retreat(mark, first);
                return Ok(false);
            }
            Err(stop) => return Err(stop),
        }
        self.leave_rest(mark, first, call.pred, later)?;
        self.enter_all(call.goal, barrier, made.body.as_slice(), Choice::Hyp(place))?;
        Ok(true)
    }

    /// Tries assumptions of the call's constant, of which the first has this place, in order, and
    /// answers whether one fits: then it is as after that assumption. Where all clash, all is as before.
    fn resolve_assumptions<C: Clauses>(
        &mut self,
        code: &C,
        call: &Call<'_>,
        key: Key,
        place: usize,
        hyps: HypIter<'_>,
    ) -> Result<bool, UnifyStop>
        requires code { (p : Program) × (C.stands (code_nodes self.old.world) code.now p) }
        requires call { IsCall self.old call.now }
        requires key { key ≡ key_of_call self.old.world.heap call.now }
        requires left { hyps ≡ drop place (hyps_for call.now.pred.0 call.now.goal.now.context) }
        ensures answer { IfOk result (λ b. (p : Program) → C.stands (code_nodes self.old.world) code.now p → HasInputs call.now (modes_of p call.now.pred.0) → MatchBool b
            (HasResolvedLater p self.old self.new call.now.goal.now call.now.pred.0 (LaterVariants.Assumptions place hyps.entry) (modes_of p call.now.pred.0))
            (resolved_later p self.old call.now.goal.now call.now.pred.0 (LaterVariants.Assumptions place hyps.entry) (modes_of p call.now.pred.0) ≡ resolved_later p self.old call.now.goal.now call.now.pred.0 (LaterVariants.Clauses 0) (modes_of p call.now.pred.0))) }
        ensures same { IfOk result (λ b. b ≡ false → self.new ≡ self.old) }
        ensures stops { IfErr result (λ stop. (p : Program) → C.stands (code_nodes self.old.world) code.now p → HasInputs call.now (modes_of p call.now.pred.0)
            → ResolvedStops (resolved_later p self.old call.now.goal.now call.now.pred.0 (LaterVariants.Assumptions place hyps.entry) (modes_of p call.now.pred.0)) stop) }
        ensures phase { self.new.phase ≡ self.old.phase }
        ensures code { code_nodes self.new.world ≡ code_nodes self.old.world }
    {
        let mut left = hyps;
        let mut at = place;
        while let Some(hyp) = left.next() {
            let following = one_more(at)?;
            match self.try_assumption(code, call, key, hyp, at, &left) {
                Ok(true) => return Ok(true),
                Ok(false) => {}
                Err(stop) => return Err(stop),
            }
            at = following;
        }
        Ok(false)
    }

    /// Tries assumptions of the call's constant, of which the first has this place, and then the
    /// program's clauses, by the key of the call, and answers whether one fits. Where all clash, all is
    /// as before.
    fn resolve_by<C: Clauses>(
        &mut self,
        code: &C,
        call: &Call<'_>,
        key: Key,
        place: usize,
        hyps: HypIter<'_>,
    ) -> Result<bool, UnifyStop>
        requires code { (p : Program) × (C.stands (code_nodes self.old.world) code.now p) }
        requires call { IsCall self.old call.now }
        requires key { key ≡ key_of_call self.old.world.heap call.now }
        requires left { hyps ≡ drop place (hyps_for call.now.pred.0 call.now.goal.now.context) }
        ensures answer { IfOk result (λ b. (p : Program) → C.stands (code_nodes self.old.world) code.now p → HasInputs call.now (modes_of p call.now.pred.0) → MatchBool b
            (HasResolvedLater p self.old self.new call.now.goal.now call.now.pred.0 (LaterVariants.Assumptions place hyps.entry) (modes_of p call.now.pred.0))
            (resolved_later p self.old call.now.goal.now call.now.pred.0 (LaterVariants.Assumptions place hyps.entry) (modes_of p call.now.pred.0) ≡ None)) }
        ensures same { IfOk result (λ b. b ≡ false → self.new ≡ self.old) }
        ensures stops { IfErr result (λ stop. (p : Program) → C.stands (code_nodes self.old.world) code.now p → HasInputs call.now (modes_of p call.now.pred.0)
            → ResolvedStops (resolved_later p self.old call.now.goal.now call.now.pred.0 (LaterVariants.Assumptions place hyps.entry) (modes_of p call.now.pred.0)) stop) }
        ensures phase { self.new.phase ≡ self.old.phase }
        ensures code { code_nodes self.new.world ≡ code_nodes self.old.world }
    {
        match self.resolve_assumptions(code, call, key, place, hyps) {
            Ok(true) => return Ok(true),
            Ok(false) => {}
            Err(stop) => return Err(stop),
        }
        match self.resolve(code, call, key, 0) {
            Ok(fits) => Ok(fits),
            Err(stop) => Err(stop),
        }
    }

    /// Tries assumptions of the call's constant, of which the first has this place, and then the
    /// program's clauses, and answers whether one fits. Where all clash, all is as before.
    pub(crate) fn resolve_from<C: Clauses>(
        &mut self,
        code: &C,
        call: &Call<'_>,
        place: usize,
        hyps: HypIter<'_>,
    ) -> Result<bool, UnifyStop>
        requires code { (p : Program) × (C.stands (code_nodes self.old.world) code.now p) }
        requires call { IsCall self.old call.now }
        requires left { hyps ≡ drop place (hyps_for call.now.pred.0 call.now.goal.now.context) }
        ensures answer { IfOk result (λ b. (p : Program) → C.stands (code_nodes self.old.world) code.now p → HasInputs call.now (modes_of p call.now.pred.0) → MatchBool b
            (HasResolvedLater p self.old self.new call.now.goal.now call.now.pred.0 (LaterVariants.Assumptions place hyps.entry) (modes_of p call.now.pred.0))
            (resolved_later p self.old call.now.goal.now call.now.pred.0 (LaterVariants.Assumptions place hyps.entry) (modes_of p call.now.pred.0) ≡ None)) }
        ensures same { IfOk result (λ b. b ≡ false → self.new ≡ self.old) }
        ensures stops { IfErr result (λ stop. (p : Program) → C.stands (code_nodes self.old.world) code.now p → HasInputs call.now (modes_of p call.now.pred.0)
            → ResolvedStops (resolved_later p self.old call.now.goal.now call.now.pred.0 (LaterVariants.Assumptions place hyps.entry) (modes_of p call.now.pred.0)) stop) }
        ensures phase { self.new.phase ≡ self.old.phase }
        ensures code { code_nodes self.new.world ≡ code_nodes self.old.world }
    {
        let key = self.key_of(call)?;
        self.resolve_by(code, call, key, place, hyps)
    }

    /// Tries what is left of a call, and answers whether anything fits. Where all clashes, all is as
    /// before.
    pub(crate) fn resolve_later<C: Clauses>(
        &mut self,
        code: &C,
        call: &Call<'_>,
        later: &Later,
    ) -> Result<bool, UnifyStop>
        requires code { (p : Program) × (C.stands (code_nodes self.old.world) code.now p) }
        requires call { IsCall self.old call.now }
        requires left { IsLaterOf call.now.goal.now.context call.now.pred later.now }
        ensures answer { IfOk result (λ b. (p : Program) → C.stands (code_nodes self.old.world) code.now p → HasInputs call.now (modes_of p call.now.pred.0) → MatchBool b
            (HasResolvedLater p self.old self.new call.now.goal.now call.now.pred.0 later.now (modes_of p call.now.pred.0))
            (resolved_later p self.old call.now.goal.now call.now.pred.0 later.now (modes_of p call.now.pred.0) ≡ None)) }
        ensures same { IfOk result (λ b. b ≡ false → self.new ≡ self.old) }
        ensures stops { IfErr result (λ stop. (p : Program) → C.stands (code_nodes self.old.world) code.now p → HasInputs call.now (modes_of p call.now.pred.0)
            → ResolvedStops (resolved_later p self.old call.now.goal.now call.now.pred.0 later.now (modes_of p call.now.pred.0)) stop) }
        ensures phase { self.new.phase ≡ self.old.phase }
        ensures code { code_nodes self.new.world ≡ code_nodes self.old.world }
    {
        match later {
            Later::Assumptions(place, tail) => self.resolve_from(code, call, *place, tail.iter()),
            Later::Clauses(from) => self.resolve_clauses(code, call, *from),
        }
    }
}
