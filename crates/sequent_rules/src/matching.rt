//! Equations, matched from left to right.

ghost use Rattle.std.specs.Prelude.{◌≤◌, length, IfOk, IfErr, MatchBool};
ghost use Rattle.level_terms.specs.Growth.{Grows};
ghost use Rattle.pattern_unify.specs.Answers.{AnswersTrue, AnswersFalse, StopsSo};
ghost use Rattle.pattern_unify.specs.Bound.{LeavesFrozen};
ghost use Rattle.sequent_rules.specs.inside.Equations.{problem_of_all, AllEquationsValid};

use beta_fragment::UnifyStop;
use input_match::match_arg;
use level_terms::{Change, Heap, TermId, VarId};
use std::alloc::Global;
use trail::Trail;

/// A pattern of a rule, and the term of a constraint that it is to match.
#[derive(Clone, Copy)]
pub(crate) struct Equation {
    pub left: TermId,
    pub right: TermId,
}

/// Makes both sides of each equation equal, from left to right, by assignments of variables that
/// aren't older than `first_fresh`. It answers whether it did.
pub(crate) fn match_all(
    alloc: Global,
    heap: &mut Heap,
    trail: &mut Trail<Change>,
    equations: &[Equation],
    depth: usize,
    first_fresh: VarId,
) -> Result<bool, UnifyStop>
    requires valid { AllEquationsValid heap.old depth equations.now }
    requires first { first_fresh.index ≤ length heap.old.depths }
    ensures answer { IfOk result (λ b. MatchBool b
        (AnswersTrue first_fresh.index heap.old heap.new (problem_of_all heap.old depth equations.now))
        (AnswersFalse first_fresh.index (problem_of_all heap.old depth equations.now))) }
    ensures stops { IfErr result (λ stop. StopsSo first_fresh.index (problem_of_all heap.old depth equations.now) stop) }
    ensures frozen { LeavesFrozen first_fresh.index heap.old heap.new }
    ensures grows { Grows heap.old heap.new trail.old.entries trail.new.entries }
{
    for i in 0..equations.len() {
        heap.is_sound();
        let e = equations[i];
        match match_arg(alloc, heap, trail, e.left, e.right, depth, first_fresh) {
            Ok(true) => {}
            Ok(false) => return Ok(false),
            Err(stop) => return Err(stop),
        }
    }
    Ok(true)
}
