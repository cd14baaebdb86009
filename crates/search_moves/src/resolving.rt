//! The arguments of a clause's head against those of an atom.

ghost use Rattle.std.specs.Prelude.{◌≡◌, ◌≤◌, length, IfOk, IfErr, MatchBool};
ghost use Rattle.level_terms.specs.Sound.{IsSound};
ghost use Rattle.level_terms.specs.Valid.{IsValid};
ghost use Rattle.beta_fragment.specs.HeadForm.{AllValidAt};
ghost use Rattle.pattern_unify.specs.Answers.{problem_of, AnswersTrue, AnswersFalse, StopsSo};
ghost use Rattle.search_moves.specs.Moves.{LeavesRest, Growing};
ghost use Rattle.search_moves.specs.Solving.{problem_of_all};
ghost use Rattle.search_moves.specs.Matching.{HeadFits, HeadClashes, HeadStops};

use crate::stage::Stage;
use beta_fragment::UnifyStop;
use level_terms::{TermId, VarId};

impl Stage {
    /// Makes the arguments of this mode equal, from left to right, by assignments of variables that
    /// aren't older than `first_fresh`. It answers whether it did. An argument without a mode is left out.
    pub(crate) fn solve(
        &mut self,
        heads: &[TermId],
        args: &[TermId],
        inputs: &[bool],
        mode: bool,
        depth: usize,
        first_fresh: VarId,
    ) -> Result<bool, UnifyStop>
        requires heads { AllValidAt self.old.heap heads.now depth }
        requires args { AllValidAt self.old.heap args.now depth }
        requires as_many { length heads.now ≡ length args.now }
        requires first { first_fresh.index ≤ length self.old.heap.depths }
        ensures answer { IfOk result (λ b. MatchBool b
            (AnswersTrue first_fresh.index self.old.heap self.new.heap (problem_of_all self.old.heap mode depth inputs.now heads.now args.now))
            (AnswersFalse first_fresh.index (problem_of_all self.old.heap mode depth inputs.now heads.now args.now))) }
        ensures stops { IfErr result (λ stop. StopsSo first_fresh.index (problem_of_all self.old.heap mode depth inputs.now heads.now args.now) stop) }
        ensures grows { Growing self.old.heap self.new.heap }
        ensures rest { LeavesRest self.old self.new }
    {
        let count = inputs.len().min(heads.len());
        let mut i = 0;
        while i < count {
            if inputs[i] == mode {
                self.is_sound();
                match self.match_arg(heads[i], args[i], depth, first_fresh) {
                    Ok(true) => {}
                    Ok(false) => return Ok(false),
                    Err(stop) => return Err(stop),
                }
            }
            i += 1;
        }
        Ok(true)
    }

    /// Matches the inputs of a clause's head, and then unifies its outputs. It answers whether the head
    /// fits.
    pub(crate) fn match_head(
        &mut self,
        heads: &[TermId],
        args: &[TermId],
        inputs: &[bool],
        depth: usize,
        first_fresh: VarId,
    ) -> Result<bool, UnifyStop>
        requires heads { AllValidAt self.old.heap heads.now depth }
        requires args { AllValidAt self.old.heap args.now depth }
        requires as_many { length heads.now ≡ length args.now }
        requires first { first_fresh.index ≤ length self.old.heap.depths }
        ensures answer { IfOk result (λ b. MatchBool b
            (HeadFits first_fresh.index depth inputs.now heads.now args.now self.old.heap self.new.heap)
            (HeadClashes first_fresh.index depth inputs.now heads.now args.now self.old.heap)) }
        ensures stops { IfErr result (λ stop. HeadStops first_fresh.index depth inputs.now heads.now args.now self.old.heap stop) }
        ensures grows { Growing self.old.heap self.new.heap }
        ensures rest { LeavesRest self.old self.new }
    {
        self.is_sound();
        match self.solve(heads, args, inputs, true, depth, first_fresh) {
            Ok(true) => {}
            Ok(false) => return Ok(false),
            Err(stop) => return Err(stop),
        }
        match self.solve(heads, args, inputs, false, depth, VarId { index: 0 }) {
            Ok(fits) => Ok(fits),
            Err(stop) => Err(stop),
        }
    }
}
