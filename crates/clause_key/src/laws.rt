//! What holds of keys. Each function does nothing: its contract is the law.

ghost use Rattle.clause_key.specs.Laws.{DisagreeingClauseClashes, DisagreeingClauseIsStripped, DisagreeingAssumptionClashes, PassingOverResolvesTheSame, PassingOverStripsTheSame};

/// A clause that is passed over because its key and the goal's don't agree is one that clashes, so no
/// clause is lost; and stripping a state of its clashes leaves it out.
pub fn law_disagreeing_clause_clashes()
    ensures clashes { DisagreeingClauseClashes }
    ensures stripped { DisagreeingClauseIsStripped }
{}

/// An assumption that is passed over because its key and the goal's don't agree is one that clashes.
/// Its parameters, the names from its scope on, may become anything.
pub fn law_disagreeing_assumption_clashes()
    ensures { DisagreeingAssumptionClashes }
{}

/// Passing over clauses whose keys don't agree with the goal's changes neither which clause is the
/// first that doesn't clash, nor which clauses don't clash.
pub fn law_passing_over()
    ensures resolves { PassingOverResolvesTheSame }
    ensures strips { PassingOverStripsTheSame }
{}
