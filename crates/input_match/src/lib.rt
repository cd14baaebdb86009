//! Matching of input arguments.
//!
//! Matching is unification in which the variables of the goal are frozen: they count as constants.
#![tactic(auto)]

ghost use Rattle.std.specs.Prelude.{◌≤◌, IfOk, IfErr, MatchBool, length};
ghost use Rattle.level_terms.specs.Growth.{Grows};
ghost use Rattle.level_terms.specs.Valid.{IsValid};
ghost use Rattle.pattern_unify.specs.Answers.{problem_of, AnswersTrue, AnswersFalse, StopsSo};
ghost use Rattle.pattern_unify.specs.Bound.{LeavesFrozen};

use beta_fragment::UnifyStop;
use level_terms::{Change, Heap, TermId, VarId};
use pattern_unify::unify_from;
use std::alloc::Global;
use trail::Trail;

/// Makes the pattern, which is an argument of a clause or of a rule, equal to an argument of the
/// goal by assignments of the clause's variables alone, where that can be done. It answers whether
/// it did. Variables older than `first_fresh` are frozen: they get no value, and count as constants.
/// `first_fresh` is a variable of the heap, or the next one.
///
/// `UnifyStop::Fault` comes exactly where the rules come to that fault, and `UnifyStop::Memory` for
/// want of memory alone. After every answer, undoing to an earlier mark of the heap takes all
/// changes back.
pub fn match_arg(
    alloc: Global,
    heap: &mut Heap,
    trail: &mut Trail<Change>,
    pattern: TermId,
    arg: TermId,
    depth: usize,
    first_fresh: VarId,
) -> Result<bool, UnifyStop>
    requires pattern { IsValid heap.old pattern.index depth }
    requires argument { IsValid heap.old arg.index depth }
    requires first { first_fresh.index ≤ length heap.old.depths }
    ensures answer { IfOk result (λ b. MatchBool b
        (AnswersTrue first_fresh.index heap.old heap.new (problem_of heap.old pattern.index arg.index depth))
        (AnswersFalse first_fresh.index (problem_of heap.old pattern.index arg.index depth))) }
    ensures stops { IfErr result (λ stop. StopsSo first_fresh.index (problem_of heap.old pattern.index arg.index depth) stop) }
    ensures frozen { LeavesFrozen first_fresh.index heap.old heap.new }
    ensures grows { Grows heap.old heap.new trail.old.entries trail.new.entries }
{
    unify_from(alloc, heap, trail, pattern, arg, depth, first_fresh)
}
