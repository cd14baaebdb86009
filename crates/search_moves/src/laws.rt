//! What holds of worlds, alternatives and their readings. Each function does nothing: its contract is
//! the law.

ghost use Rattle.search_moves.specs.Laws.{KeptAlternativesStay, GrowthKeeps, PoppedReads, DroppedReads, UnifiedReads, GrownReads, LeanStatesShowTheSame};

/// Whatever leaves unchanged what going back to the newest alternative leaves changes no
/// alternative's reading; and so does each growth of the heap.
pub fn law_alternatives()
    ensures kept { KeptAlternativesStay }
    ensures growth { GrowthKeeps }
{}

/// Going back to the newest alternative makes its branch the present one, and the others stay. So it
/// is where the newest is dropped.
pub fn law_retry()
    ensures popped { PoppedReads }
    ensures dropped { DroppedReads }
{}

/// A unification that answers true changes the present branch by its bindings, and what adds nodes and
/// variables alone changes its next variable.
pub fn law_branch()
    ensures unified { UnifiedReads }
    ensures grown { GrownReads }
{}

/// An alternative of which all clauses clash may be left out: the search shows the same, however many
/// moves it makes, and barriers are still numbers of alternatives that are there.
pub fn law_lean_states()
    ensures { LeanStatesShowTheSame }
{}
