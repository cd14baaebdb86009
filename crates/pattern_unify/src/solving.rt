//! Unification: the rules' steps, one after the other, until they end.

ghost use Rattle.std.specs.Prelude.{◌≡◌, Bool, true, false, [], ◌∷◌, IfOk, IfErr, MatchBool};
ghost use Rattle.level_terms.specs.Growth.{Grows};
ghost use Rattle.level_terms.specs.Valid.{IsValid};
ghost use Rattle.pattern_unify.specs.Answers.{problem_of, AnswersTrue, AnswersFalse, StopsSo};
ghost use Rattle.pattern_unify.specs.Bound.{LeavesFrozen};
ghost use Rattle.pattern_unify.specs.Unifiers.{IsMostGeneral, IsWithoutUnifier};

use crate::equation::{Equation, Turn};
use crate::turning::turn;
use beta_fragment::UnifyStop;
use level_terms::{Change, Heap, TermId, VarId};
use std::alloc::{AllocError, Global};
use trail::Trail;

/// Makes both terms equal, where assignments of variables that aren't older than the mark do:
/// the older ones are frozen, and count as constants. It answers whether it did.
///
/// `UnifyStop::Fault` comes exactly where the rules come to that fault, and `UnifyStop::Memory` for
/// want of memory alone. After every answer, undoing to an earlier mark of the heap takes all
/// changes back.
pub fn unify_from(
    alloc: Global,
    heap: &mut Heap,
    trail: &mut Trail<Change>,
    s: TermId,
    t: TermId,
    depth: usize,
    mark: VarId,
) -> Result<bool, UnifyStop>
    requires left { IsValid heap.old s.index depth }
    requires right { IsValid heap.old t.index depth }
    ensures answer { IfOk result (λ b. MatchBool b
        (AnswersTrue mark.index heap.old heap.new (problem_of heap.old s.index t.index depth))
        (AnswersFalse mark.index (problem_of heap.old s.index t.index depth))) }
    ensures stops { IfErr result (λ stop. StopsSo mark.index (problem_of heap.old s.index t.index depth) stop) }
    ensures frozen { LeavesFrozen mark.index heap.old heap.new }
    ensures grows { Grows heap.old heap.new trail.old.entries trail.new.entries }
{
    let mut work = Vec::new(alloc);
    let mut e = Equation {
        left: s,
        right: t,
        depth,
    };
    loop {
        match turn(alloc, heap, trail, &mut work, e, mark)? {
            Turn::Goes => match work.pop() {
                Some(next) => e = next,
                None => return Ok(true),
            },
            Turn::Clash => return Ok(false),
            Turn::Fault(f) => return Err(UnifyStop::Fault(f)),
        }
    }
}

/// Makes both terms equal, by assignments of their variables, where that can be done. It answers
/// whether it did. Where it did, the bindings are a most general unifier of the terms; where it
/// didn't, for a clash that is no knot, the terms have no unifier.
///
/// `UnifyStop::Fault` comes exactly where the rules come to that fault, and `UnifyStop::Memory` for
/// want of memory alone. After every answer, undoing to an earlier mark of the heap takes all
/// changes back.
pub fn unify(
    alloc: Global,
    heap: &mut Heap,
    trail: &mut Trail<Change>,
    s: TermId,
    t: TermId,
    depth: usize,
) -> Result<bool, UnifyStop>
    requires left { IsValid heap.old s.index depth }
    requires right { IsValid heap.old t.index depth }
    ensures answer { IfOk result (λ b. MatchBool b
        (AnswersTrue 0 heap.old heap.new (problem_of heap.old s.index t.index depth))
        (AnswersFalse 0 (problem_of heap.old s.index t.index depth))) }
    ensures most_general { IfOk result (λ b. b ≡ true → IsMostGeneral (problem_of heap.old s.index t.index depth)) }
    ensures no_unifier { IfOk result (λ b. b ≡ false → IsWithoutUnifier (problem_of heap.old s.index t.index depth)) }
    ensures stops { IfErr result (λ stop. StopsSo 0 (problem_of heap.old s.index t.index depth) stop) }
    ensures grows { Grows heap.old heap.new trail.old.entries trail.new.entries }
{
    heap.is_sound();
    unify_from(alloc, heap, trail, s, t, depth, VarId { index: 0 })
}
