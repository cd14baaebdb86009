//! What holds of hypothetical clauses in a heap that changes. Each function does nothing: its contract
//! is the law.

ghost use Rattle.hyp_clause.specs.Fixed.{FlaggedReadTheSame, FlaggedHaveNoVariable, FlaggedAreGround};
ghost use Rattle.hyp_clause.specs.Headed.{AssumedAreHeaded, AssumedAreScoped, BoundAreHeaded, ArgumentsOfAssumption};
ghost use Rattle.hyp_clause.specs.Laws.{GrowthKeepsHyps, GrowthKeepsAssumptions, BindingsReachAssumptions, ValidHypsAreBelow, UndoKeepsHyps};

/// Whatever a call may change leaves hypothetical clauses valid, and what they read as where it notes
/// nothing.
pub fn law_hyps_in_growth()
    ensures valid { GrowthKeepsHyps }
    ensures reads { GrowthKeepsAssumptions }
{}

/// Where bindings change what each node reads as, they change what hypothetical clauses read as.
pub fn law_hyps_under_bindings()
    ensures { BindingsReachAssumptions }
{}

/// Undoing to a mark leaves those hypothetical clauses valid that were made before it.
pub fn law_hyps_in_undo()
    ensures below { ValidHypsAreBelow }
    ensures valid { UndoKeepsHyps }
{}

/// The clauses that a term assumes have the term's scope, and their constants at their heads, also
/// under bindings; so the arguments of an instance's head are the instances of the head's arguments.
pub fn law_headed_hyps()
    ensures assumed { AssumedAreHeaded }
    ensures scoped { AssumedAreScoped }
    ensures bound { BoundAreHeaded }
    ensures arguments { ArgumentsOfAssumption }
{}

/// Where the flag of a clause says that nothing in it can change, it reads the same whatever is
/// assigned, and neither a variable nor a stuck abstraction stands in what it reads as.
pub fn law_flagged_hyps()
    ensures same { FlaggedReadTheSame }
    ensures no_variable { FlaggedHaveNoVariable }
    ensures ground { FlaggedAreGround }
{}
