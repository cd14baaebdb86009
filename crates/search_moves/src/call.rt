//! Calls of atoms: the clauses of the program are tried in order.

ghost use Rattle.std.specs.Prelude.{◌≡◌, ◌≤◌, ◌<◌, suc, length, drop, true, false, Option, Some, None, Bool, List, IfOk, IfErr, OnOk, MatchBool, IfSome, ℕ, ◌∷◌, slice_get};
ghost use Rattle.level_terms.specs.Reading.{read};
ghost use Rattle.beta_fragment.specs.HeadForm.{AllValidAt, all_read};
ghost use Rattle.beta_fragment.specs.Names.{names};
ghost use Rattle.ref_terms.specs.search.Formula.{Atom, goal_kind};
ghost use Rattle.ref_terms.specs.search.Program.{Program, Clause, modes_of};
ghost use Rattle.ref_terms.specs.search.Candidates.{program_candidates};
ghost use Rattle.ref_terms.specs.search.State.{of_program};
ghost use Rattle.ref_terms.specs.search.Resolve.{Clashes};
ghost use Rattle.search_moves.specs.World.{code_nodes};
ghost use Rattle.search_moves.specs.declared.machine.Phase.TheVariants.{Running};
ghost use Rattle.search_moves.specs.Machine.{branch_of, move_of, HasMoved, IsFirst, LeavesAlternatives};
ghost use Rattle.search_moves.specs.Moves.{Growing, LeavesRest};
ghost use Rattle.search_moves.specs.Calling.{IsCall, HasInputs, HasFitted, HasClashed, HasBroken, tried_here, HasEntered, BreaksSo, IsLeftAfter, HasResolved, resolved_from, ResolvedStops, LeavesLater, IsNoFault, clauses_from, key_of_call};
ghost use Rattle.search_moves.specs.Calling as spec;
ghost use Rattle.search_moves.specs.Saved.{AllSaved};
ghost use Rattle.search_moves.specs.declared.frame.Left.TheVariants as LeftVariants;
ghost use Rattle.level_terms.specs.Sound.{IsSound};

use crate::clauses::{Clauses, Instance};
use crate::frame::{Frame, Later, Left, Mark};
use crate::machine::{Event, Machine, Phase};
use beta_fragment::UnifyStop;
use clause_key::Key;
use clause_key::laws::law_disagreeing_clause_clashes;
use level_terms::{TermId, VarId};
use ref_terms::{Choice, Fault, Sym};
use std::alloc::AllocError;

/// The first goal, an atom: its constant, its arguments, and which of them are inputs.
#[derive(Clone, Copy)]
pub(crate) struct Call<'a> {
    pub goal: &'a Frame,
    pub pred: Sym,
    pub args: &'a [TermId],
    pub inputs: &'a [bool],
}

/// The program's clauses from this one on, if there is one.
pub(crate) fn from_clause(clause: Option<usize>) -> Option<Later>
    ensures { result ≡ clauses_from clause }
{
    match clause {
        None => None,
        Some(i) => Some(Later::Clauses(i)),
    }
}

/// The clauses from a number on, where this is the first of them that agrees with the key of a call.
pub(crate) fn left_from(next: Option<usize>, from: usize) -> Option<usize>
    ensures { result ≡ spec.left_from next from }
{
    match next {
        None => None,
        Some(_) => Some(from),
    }
}

impl Machine {
    /// Makes the arguments of a clause's head, which is in the heap, equal to those of the call: the
    /// inputs are matched, and then the outputs are unified. It answers whether they fit.
    pub(crate) fn fit(
        &mut self,
        heads: &[TermId],
        call: &Call<'_>,
        first_fresh: VarId,
    ) -> Result<bool, UnifyStop>
        requires heads { AllValidAt self.old.world.heap heads.now call.now.goal.now.depth }
        requires args { AllValidAt self.old.world.heap call.now.args.now call.now.goal.now.depth }
        requires first { first_fresh.index ≤ length self.old.world.heap.depths }
        ensures answer { IfOk result (λ b. MatchBool b
            (HasFitted first_fresh.index call.now.goal.now.depth call.now.inputs.now heads.now call.now.args.now self.old self.new)
            (HasClashed first_fresh.index call.now.goal.now.depth call.now.inputs.now heads.now call.now.args.now self.old.world.heap)) }
        ensures stops { IfErr result (λ stop. HasBroken first_fresh.index call.now.goal.now.depth call.now.inputs.now heads.now call.now.args.now self.old.world.heap stop) }
        ensures grows { Growing self.old.world.heap self.new.world.heap }
        ensures rest { LeavesRest self.old.world self.new.world }
        ensures sound { IsSound self.old.world.heap }
        ensures first { self.new.first ≡ self.old.first }
        ensures saved { self.new.saved ≡ self.old.saved }
        ensures phase { self.new.phase ≡ self.old.phase }
        ensures code { code_nodes self.new.world ≡ code_nodes self.old.world }
        ensures alternatives { LeavesAlternatives self.old self.new }
    {
        self.is_fine();
        if heads.len() != call.args.len() {
            return Ok(false);
        }
        self.attempt(heads, call.args, call.inputs, call.goal.depth, first_fresh)
    }

    /// Makes an alternative of what is left of a call, if there is anything.
    pub(crate) fn leave_rest(
        &mut self,
        mark: Mark,
        first: usize,
        c: Sym,
        later: Option<Later>,
    ) -> Result<(), AllocError>
        requires { IfSome later (λ l. AllSaved self.old.world (record { mark = mark; first = first; left = LeftVariants.Call c l } ∷ self.old.saved)) }
        ensures alternatives { OnOk result ((p : Program) → LeavesLater p self.old self.new mark first c later) }
        ensures world { self.new.world ≡ self.old.world }
        ensures first { self.new.first ≡ self.old.first }
        ensures phase { self.new.phase ≡ self.old.phase }
    {
        match later {
            Some(later) => self.save(mark, first, Left::Call(c, later)),
            None => Ok(()),
        }
    }

    /// Tries a clause on the call, and answers whether it fits: then its body is made and entered, and
    /// what is left of the later clauses becomes an alternative. Where it doesn't fit, all is as before,
    /// and no body was made.
    fn try_clause<C: Clauses>(
        &mut self,
        code: &C,
        call: &Call<'_>,
        clause: usize,
        later: Option<usize>,
    ) -> Result<bool, UnifyStop>
        requires code { (p : Program) × (C.stands (code_nodes self.old.world) code.now p) × (clause < length p.clauses) }
        requires call { IsCall self.old call.now }
        ensures answer { IfOk result (λ b. (p : Program) (k : Clause) (modes : Option (List Bool)) → C.stands (code_nodes self.old.world) code.now p
            → slice_get p.clauses clause ≡ Some k → IsLeftAfter p (branch_of self.old) call.now.pred (program_candidates call.now.pred.0 (suc clause) (drop (suc clause) p.clauses)) (clauses_from later) → HasInputs call.now modes → MatchBool b
            (HasEntered p self.old self.new call.now.goal.now modes (of_program clause k) (program_candidates call.now.pred.0 (suc clause) (drop (suc clause) p.clauses)))
            (tried_here self.old call.now.goal.now modes (of_program clause k) ≡ Clashes)) }
        ensures same { IfOk result (λ b. b ≡ false → self.new ≡ self.old) }
        ensures stops { IfErr result (λ stop. (p : Program) (k : Clause) (modes : Option (List Bool)) → C.stands (code_nodes self.old.world) code.now p
            → slice_get p.clauses clause ≡ Some k → HasInputs call.now modes → BreaksSo (tried_here self.old call.now.goal.now modes (of_program clause k)) stop) }
        ensures phase { self.new.phase ≡ self.old.phase }
        ensures code { code_nodes self.new.world ≡ code_nodes self.old.world }
    {
        self.is_fine();
        let (mark, first) = self.here();
        let first_fresh = self.next_var();
        let barrier = self.alternatives();
        let made = self.instance(code, clause, call.goal.depth)?;
        match self.fit(made.heads.as_slice(), call, first_fresh) {
            Ok(true) => {}
            Ok(false) => {
                self.retreat(mark, first);
                return Ok(false);
            }
            Err(stop) => return Err(stop),
        }
        let rest = from_clause(later);
        self.leave_rest(mark, first, call.pred, rest)?;
        let body = self.body(code, clause, call.goal.depth, made.variables)?;
        self.enter(call.goal, barrier, body, Choice::Clause(clause))?;
        Ok(true)
    }

    /// The key of the call. All is as before.
    pub(crate) fn key_of(&mut self, call: &Call<'_>) -> Result<Key, AllocError>
        requires call { IsCall self.old call.now }
        ensures key { IfOk result (λ key. key ≡ key_of_call self.old.world.heap call.now) }
        ensures same { self.new ≡ self.old }
    {
        if call.args.len() != call.inputs.len() {
            return Ok(Key::Any);
        }
        self.key_among(call.inputs, call.args, call.goal.depth)
    }

    /// Tries the clauses of the call's constant from a number on, in order, and answers whether one
    /// fits: then it is as after that clause. Where all clash, all is as before. Those that are bound
    /// to clash by the key of the call are passed over, and where no other is left after the clause,
    /// no alternative is made.
    pub(crate) fn resolve<C: Clauses>(
        &mut self,
        code: &C,
        call: &Call<'_>,
        key: Key,
        from: usize,
    ) -> Result<bool, UnifyStop>
        requires code { (p : Program) × (C.stands (code_nodes self.old.world) code.now p) }
        requires call { IsCall self.old call.now }
        requires key { key ≡ key_of_call self.old.world.heap call.now }
        ensures answer { IfOk result (λ b. (p : Program) → C.stands (code_nodes self.old.world) code.now p → HasInputs call.now (modes_of p call.now.pred.0) → MatchBool b
            (HasResolved p self.old self.new call.now.goal.now call.now.pred.0 from (modes_of p call.now.pred.0))
            (resolved_from self.old call.now.goal.now p.clauses call.now.pred.0 from (modes_of p call.now.pred.0) ≡ None)) }
        ensures same { IfOk result (λ b. b ≡ false → self.new ≡ self.old) }
        ensures stops { IfErr result (λ stop. (p : Program) → C.stands (code_nodes self.old.world) code.now p → HasInputs call.now (modes_of p call.now.pred.0)
            → ResolvedStops (resolved_from self.old call.now.goal.now p.clauses call.now.pred.0 from (modes_of p call.now.pred.0)) stop) }
        ensures phase { self.new.phase ≡ self.old.phase }
        ensures code { code_nodes self.new.world ≡ code_nodes self.old.world }
    {
        law_disagreeing_clause_clashes();
        let count = code.clauses();
        let mut next = code.next_clause(call.pred, key, from);
        while let Some(clause) = next {
            let place = clause + 1;
            let following = code.next_clause(call.pred, key, place);
            let later = left_from(following, place);
            match self.try_clause(code, call, clause, later) {
                Ok(true) => return Ok(true),
                Ok(false) => {}
                Err(stop) => return Err(stop),
            }
            next = following;
        }
        Ok(false)
    }

    /// Tries the clauses of the call's constant from a number on, and answers whether one fits. Where
    /// all clash, all is as before.
    pub(crate) fn resolve_clauses<C: Clauses>(
        &mut self,
        code: &C,
        call: &Call<'_>,
        from: usize,
    ) -> Result<bool, UnifyStop>
        requires code { (p : Program) × (C.stands (code_nodes self.old.world) code.now p) }
        requires call { IsCall self.old call.now }
        ensures answer { IfOk result (λ b. (p : Program) → C.stands (code_nodes self.old.world) code.now p → HasInputs call.now (modes_of p call.now.pred.0) → MatchBool b
            (HasResolved p self.old self.new call.now.goal.now call.now.pred.0 from (modes_of p call.now.pred.0))
            (resolved_from self.old call.now.goal.now p.clauses call.now.pred.0 from (modes_of p call.now.pred.0) ≡ None)) }
        ensures same { IfOk result (λ b. b ≡ false → self.new ≡ self.old) }
        ensures stops { IfErr result (λ stop. (p : Program) → C.stands (code_nodes self.old.world) code.now p → HasInputs call.now (modes_of p call.now.pred.0)
            → ResolvedStops (resolved_from self.old call.now.goal.now p.clauses call.now.pred.0 from (modes_of p call.now.pred.0)) stop) }
        ensures phase { self.new.phase ≡ self.old.phase }
        ensures code { code_nodes self.new.world ≡ code_nodes self.old.world }
    {
        let key = self.key_of(call)?;
        self.resolve(code, call, key, from)
    }

    /// A goal that is an atom of this constant with these arguments.
    pub(crate) fn call<C: Clauses>(
        &mut self,
        code: &C,
        goal: &Frame,
        c: Sym,
        args: &[TermId],
    ) -> Result<Event, AllocError>
        requires running { self.old.phase ≡ Running }
        requires first { IsFirst self.old goal.now }
        requires arguments { AllValidAt self.old.world.heap args.now goal.now.depth }
        requires atom { goal_kind (read self.old.world.heap goal.now.term.index names) ≡ Atom c.0 (all_read self.old.world.heap args.now) }
        requires code { (p : Program) × (C.stands (code_nodes self.old.world) code.now p) }
        ensures moved { IfOk result (λ e. (p : Program) → C.stands (code_nodes self.old.world) code.now p
            → HasMoved p (move_of p self.old goal.now (Atom c.0 (all_read self.old.world.heap args.now))) e self.new) }
        ensures code { code_nodes self.new.world ≡ code_nodes self.old.world }
    {
        match code.modes(c) {
            None => self.call_unstated(code, goal, c, args),
            Some(inputs) => {
                if args.len() != inputs.len() {
                    return Ok(self.break_off(Fault::Arity));
                }
                let call = Call {
                    goal,
                    pred: c,
                    args,
                    inputs,
                };
                self.call_candidates(code, &call)
            }
        }
    }

    /// A call of a constant without stated number of arguments, which is a predicate where it is
    /// assumed.
    fn call_unstated<C: Clauses>(
        &mut self,
        code: &C,
        goal: &Frame,
        c: Sym,
        args: &[TermId],
    ) -> Result<Event, AllocError>
        requires running { self.old.phase ≡ Running }
        requires first { IsFirst self.old goal.now }
        requires arguments { AllValidAt self.old.world.heap args.now goal.now.depth }
        requires atom { goal_kind (read self.old.world.heap goal.now.term.index names) ≡ Atom c.0 (all_read self.old.world.heap args.now) }
        requires code { (p : Program) × (C.stands (code_nodes self.old.world) code.now p) }
        requires unstated { (p : Program) → C.stands (code_nodes self.old.world) code.now p → modes_of p c.0 ≡ None }
        ensures moved { IfOk result (λ e. (p : Program) → C.stands (code_nodes self.old.world) code.now p
            → HasMoved p (move_of p self.old goal.now (Atom c.0 (all_read self.old.world.heap args.now))) e self.new) }
        ensures code { code_nodes self.new.world ≡ code_nodes self.old.world }
    {
        let mut assumed = goal.context.for_pred(c);
        match assumed.next() {
            None => Ok(self.break_off(Fault::Unknown)),
            Some(_) => {
                let outputs = self.all_outputs(args.len())?;
                let call = Call {
                    goal,
                    pred: c,
                    args,
                    inputs: outputs.as_slice(),
                };
                self.call_candidates(code, &call)
            }
        }
    }

    /// A call that is no fault.
    fn call_candidates<C: Clauses>(
        &mut self,
        code: &C,
        call: &Call<'_>,
    ) -> Result<Event, AllocError>
        requires running { self.old.phase ≡ Running }
        requires call { IsCall self.old call.now }
        requires code { (p : Program) × (C.stands (code_nodes self.old.world) code.now p) }
        ensures moved { IfOk result (λ e. (p : Program) → C.stands (code_nodes self.old.world) code.now p → HasInputs call.now (modes_of p call.now.pred.0)
            → IsNoFault p self.old call.now → HasMoved p (move_of p self.old call.now.goal.now (Atom call.now.pred.0 (all_read self.old.world.heap call.now.args.now))) e self.new) }
        ensures code { code_nodes self.new.world ≡ code_nodes self.old.world }
    {
        match self.resolve_from(code, call, 0, call.goal.context.for_pred(call.pred)) {
            Ok(true) => Ok(Event::Moved),
            Ok(false) => {
                self.set_phase(Phase::Failed);
                Ok(Event::Moved)
            }
            Err(UnifyStop::Fault(e)) => Ok(self.break_off(e)),
            Err(UnifyStop::Memory) => Err(AllocError),
        }
    }
}
