//! What holds of the definitions. Each function does nothing: its contract is the law.
ghost use Rattle.lp_resolve.specs.Laws.{NoneIsBroken, FirstIsBroken, NoneIsBefore, FirstDeclarationOrClauseDecides};
ghost use Rattle.lp_resolve.specs.Rebuilt.{TreesAreRebuilt, TermsOfTreesAreBuilt};

/// No static rule is broken exactly where there is no first broken one; otherwise the first broken one is
/// one of them, and none is before it.
pub fn law_first_breach()
    ensures none { NoneIsBroken }
    ensures broken { FirstIsBroken }
    ensures first { NoneIsBefore }
{}

/// A symbol is the predicate that its first declaration makes, or else the one that the first clause with it
/// at its head makes.
pub fn law_predicates()
    ensures { FirstDeclarationOrClauseDecides }
{}

/// The term that the search has for a tree is the tree as it was read, rebuilt: what reading left stuck before an
/// argument with a rigid head is contracted there. So it is built.
pub fn law_rebuilt()
    ensures rebuilt { TreesAreRebuilt }
    ensures built { TermsOfTreesAreBuilt }
{}
