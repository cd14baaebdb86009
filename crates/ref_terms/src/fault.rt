//! The faults of a search.
ghost use Rattle.std.specs.Prelude.{◌≡◌};
ghost use Rattle.ref_terms.specs.search.Fault.{fault_name};

/// Why a search can't go on: it has left the language.
#[derive(Clone, Copy, Debug, PartialEq, Eq)]
pub enum Fault {
    /// A goal is headed by a variable.
    FlexGoal,
    /// A hypothetical clause is headed by a variable.
    FlexClause,
    /// A term that stands as a goal or a clause is none.
    NotGoal,
    /// A goal is headed by a constant that is no predicate.
    Unknown,
    /// A constant has another number of arguments than stated.
    Arity,
    /// A stuck abstraction stands where its value is needed.
    Redex,
    /// An equation is outside the pattern fragment.
    Pattern,
    /// A name or variable can't be kept out of a value.
    Scope,
    /// A number is missing or out of range.
    Number,
}

impl Fault {
    /// The name under which the fault is printed, as `flex-goal`.
    pub fn name(&self) -> &'static str
        ensures { result.now ≡ fault_name self.now }
    {
        match self {
            Fault::FlexGoal => "flex-goal",
            Fault::FlexClause => "flex-clause",
            Fault::NotGoal => "not-goal",
            Fault::Unknown => "unknown",
            Fault::Arity => "arity",
            Fault::Redex => "redex",
            Fault::Pattern => "pattern",
            Fault::Scope => "scope",
            Fault::Number => "number",
        }
    }
}
