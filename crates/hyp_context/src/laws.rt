//! What holds of contexts in a heap. Each function does nothing: its contract is the law.

ghost use Rattle.hyp_context.specs.Contexts.{EmptyIsContext, AssumedAreContext, AssumedReads, ContextsDeeper, ForPredReads};
ghost use Rattle.hyp_context.specs.Contexts.{GrowthKeepsContexts, BindingsReachContexts, UndoRestoresContexts, VariablesAreInChangeable, UnchangeableReadTheSame};

/// No assumptions, those that a term assumes, and these in front of older ones are a context; so it is
/// at a deeper depth, and so are the assumptions of a predicate in it.
pub fn law_contexts()
    ensures empty { EmptyIsContext }
    ensures of_term { AssumedAreContext }
    ensures assumed { AssumedReads }
    ensures deeper { ContextsDeeper }
    ensures for_pred { ForPredReads }
{}

/// A growth that notes nothing leaves what a context reads as.
pub fn law_contexts_in_growth()
    ensures { GrowthKeepsContexts }
{}

/// Bindings change what a context reads as.
pub fn law_contexts_under_bindings()
    ensures { BindingsReachContexts }
{}

/// Going back to a mark gives what a context read as there.
pub fn law_contexts_in_undo()
    ensures { UndoRestoresContexts }
{}

/// What can change in a context stands in the assumptions in which something can change.
pub fn law_changeable()
    ensures variables { VariablesAreInChangeable }
    ensures same { UnchangeableReadTheSame }
{}
