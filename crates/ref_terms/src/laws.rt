//! What holds of the definitions. Each function does nothing: its contract is the law.

ghost use Rattle.ref_terms.specs.laws.TermLaws.{FillTwiceIsOnce, FillAppliesTheSame, FillAbstractsTheSame, InstanceApplies, InstanceOfAllApplies, ApplicationBuilds, AbstractionBuilds, FillBuilds, BuiltStays, AbsentVariable, OpeningIsReplacing, ApplicationOpens, AbstractionUndoesApplication, ApplicationUndoesAbstraction};
ghost use Rattle.ref_terms.specs.laws.ReadyLaws.{NameIsReady, BoundIndexIsReady, ReadyIsRigid, ReadyAfterInstance, ReadyAfterOpening, UnreadyAfterOpening};
ghost use Rattle.ref_terms.specs.laws.TextLaws.{TextApplicationBuilds, TextAbstractionBuilds, RebuiltTextApplies};
ghost use Rattle.ref_terms.specs.laws.UnifyLaws.{HasOneAnswer, UnificationEnds, UnifyIsReached, UnifyIsTheOnlyAnswer, StepKeepsAnswer, LastStepAnswers, StepsFall, LastStepIsOne, UnifiesOneByOne};
ghost use Rattle.ref_terms.specs.laws.SearchLaws.{RenamedProblemHasRenamedAnswer, RenamingOfUsedVariables, RenamedStatesMoveRenamed, AlikeStatesMoveAlike, AlikeEventsShowTheSame, AlikeStatesShowTheSame, StrippedStateMovesStripped, AlikeStatesStripAlike, AlikeOnceStrippedMoveAlike, AlikeOnceStrippedShowTheSame, FirstStateIsCounted, CountedStateMovesCounted};
ghost use Rattle.ref_terms.specs.laws.BelowLaws.{FirstStateIsBelow, MovesStayBelow};
ghost use Rattle.ref_terms.specs.laws.TouchLaws.{FirstTouchedIsFirst, TouchedAfterBindings, TouchedAfterRenaming, TouchedAfterAdding, TouchedAfterLeaving, TouchedAfterFiring, TouchedAfterDropping, TouchedAfterRule, TouchedAfterWaking, TouchedRenamed, RefusedAfterFiring, FiredIsRefused, RestAfterFiring, WatchedSleepsOn, PairsShare};
ghost use Rattle.ref_terms.specs.unification.MostGeneral.{MostGeneral};
ghost use Rattle.ref_terms.specs.unification.RealClash.{RealClash, RealClashes};

/// Replacing heads twice is replacing them once, and it commutes with application and abstraction.
///
/// The terms that are put in have to be built, and ready heads have to get ready terms: else a redex
/// that was contracted at the first replacement would have got stuck at the second.
pub fn law_replacing_heads()
    ensures twice { FillTwiceIsOnce }
    ensures applies { FillAppliesTheSame }
    ensures abstracts { FillAbstractsTheSame }
{}

/// An instance by built terms commutes with application.
pub fn law_instance()
    ensures one { InstanceApplies }
    ensures all { InstanceOfAllApplies }
{}

/// Application, abstraction and replacing heads build from what is built, and rebuilding that
/// changes nothing.
pub fn law_built()
    ensures application { ApplicationBuilds }
    ensures abstraction { AbstractionBuilds }
    ensures replacing { FillBuilds }
    ensures again { BuiltStays }
{}

/// A variable that doesn't stand in a term makes no difference to it.
pub fn law_absent_variable()
    ensures { AbsentVariable }
{}

/// Opening with a ready term contracts nothing, and is what application of an abstraction does.
pub fn law_opening()
    ensures replaces { OpeningIsReplacing }
    ensures applies { ApplicationOpens }
{}

/// Abstraction of a name and application to it undo each other.
pub fn law_abstracting_names()
    ensures abstracted { AbstractionUndoesApplication }
    ensures applied { ApplicationUndoesAbstraction }
{}

/// The facts on ready terms, by which all that is said of them is proved.
pub fn law_ready()
    ensures name { NameIsReady }
    ensures bound_index { BoundIndexIsReady }
    ensures rigid { ReadyIsRigid }
    ensures instance { ReadyAfterInstance }
    ensures opening { ReadyAfterOpening }
    ensures unready { UnreadyAfterOpening }
{}

/// Application and abstraction of a text's terms build as a text is built, and an application of a text,
/// rebuilt, is the application of what is rebuilt.
pub fn law_text()
    ensures application { TextApplicationBuilds }
    ensures abstraction { TextAbstractionBuilds }
    ensures rebuilt { RebuiltTextApplies }
{}

/// A run of unification has one answer.
pub fn law_one_answer()
    ensures { HasOneAnswer }
{}

/// The steps of unification end, for each mark and problem.
pub fn law_unification_ends()
    ensures { UnificationEnds }
{}

/// `unify` gives exactly the answer to which the rules come.
pub fn law_unify_is_the_answer()
    ensures reached { UnifyIsReached }
    ensures only { UnifyIsTheOnlyAnswer }
{}

/// A step that goes on keeps the answer of `unify`, and the last step gives it.
pub fn law_unify_follows_steps()
    ensures goes { StepKeepsAnswer }
    ensures ends { LastStepAnswers }
{}

/// The number of steps to the answer falls by one with each step, and is one at the last.
pub fn law_steps_fall()
    ensures goes { StepsFall }
    ensures ends { LastStepIsOne }
{}

/// A list of equations is unified one by one: the first, and then the others under its bindings. A clash
/// or a fault of the first is that of the list.
pub fn law_one_by_one()
    ensures { UnifiesOneByOne }
{}

/// Where `unify` solves a problem, its bindings are a most general unifier of it.
pub fn law_most_general()
    ensures { MostGeneral }
{}

/// Where `unify` answers with a clash that is no knot, the problem has no unifier.
///
/// `rule` says so of the clash of one rule, which needs less of the problem. A knot may have a
/// unifier: `X x y = x (X y)` clashes by one, and `X = (a\ a)` solves it.
pub fn law_real_clashes()
    ensures rule { RealClash }
    ensures run { RealClashes }
{}

/// Unification doesn't depend on the numbers of variables: a renamed problem has the renamed answer.
///
/// The renaming is one to one, keeps frozen variables frozen, and goes on in order from the next
/// free number on, so that fresh variables are renamed to fresh ones.
pub fn law_renamed_problem()
    ensures { RenamedProblemHasRenamedAnswer }
{}

/// A renaming that is one to one on the variables in use goes on to one of all variables.
///
/// So next free numbers make no difference, as long as they are above the variables in use.
pub fn law_used_variables()
    ensures { RenamingOfUsedVariables }
{}

/// No move of the search depends on the numbers of variables, with constraint rules or without.
///
/// `renamed` says so of one state and the same state renamed, where the present branch and each
/// alternative have a renaming of their own; `alike` says so of the least equivalence with these.
pub fn law_alike_moves()
    ensures renamed { RenamedStatesMoveRenamed }
    ensures alike { AlikeStatesMoveAlike }
{}

/// What is written doesn't depend on the numbers of variables: alike events show the same, and so do
/// all events of alike states, however many moves they make.
pub fn law_alike_texts()
    ensures event { AlikeEventsShowTheSame }
    ensures run { AlikeStatesShowTheSame }
{}

/// Each barrier of a search is a number of alternatives that are there, and barriers don't rise from
/// goal to goal. The first state of each query is so, and every move keeps it.
pub fn law_counted_states()
    ensures first { FirstStateIsCounted }
    ensures moves { CountedStateMovesCounted }
{}

/// In each state of a search all variables in use are below the next free one, in the present branch and in
/// each alternative. The first state of each query is so, and every move of a program keeps it, where the
/// variables of queries, clauses and rules are below their number.
pub fn law_variables_below()
    ensures first { FirstStateIsBelow }
    ensures moves { MovesStayBelow }
{}

/// Clauses of alternatives that are bound to clash make no difference: the move of a stripped state
/// is the stripped move, with the same event.
///
/// So an engine that never lists such clauses is compared with the search after both are stripped:
/// states that are alike once stripped stay so, with alike events, and write the same.
pub fn law_stripped_states()
    ensures moves { StrippedStateMovesStripped }
    ensures strips { AlikeStatesStripAlike }
    ensures alike { AlikeOnceStrippedMoveAlike }
    ensures run { AlikeOnceStrippedShowTheSame }
{}

/// What keeps every tuple that isn't refused among those that hold a touched pair, so that the others
/// need not be tried: a constraint is touched when it is added, and when a variable in it gets a value.
pub fn law_touched_pairs()
    ensures first { FirstTouchedIsFirst }
    ensures bindings { TouchedAfterBindings }
    ensures renaming { TouchedAfterRenaming }
    ensures adding { TouchedAfterAdding }
    ensures leaving { TouchedAfterLeaving }
    ensures firing { TouchedAfterFiring }
    ensures dropping { TouchedAfterDropping }
    ensures rule { TouchedAfterRule }
    ensures waking { TouchedAfterWaking }
    ensures renamed { TouchedRenamed }
{}

/// While rules fire one after the other, refused tuples stay refused, and so is a tuple that fired. So the
/// search for the next one goes on after it.
pub fn law_refused_tuples()
    ensures stays { RefusedAfterFiring }
    ensures fired { FiredIsRefused }
    ensures rest { RestAfterFiring }
{}

/// A constraint whose keys are headed by watched variables sleeps on while others get values.
pub fn law_sleeping_constraints()
    ensures { WatchedSleepsOn }
{}

/// Constraints that a rule aligns have one variable at both arguments of each of its pairs: so partners
/// are found by that variable.
pub fn law_partners()
    ensures { PairsShare }
{}
