//! The built-ins.

ghost use Rattle.std.specs.Prelude.{◌≡◌, option_map, IfSome, IfNone};
ghost use Rattle.goal_form.specs.Builtins.{builtin_word, arity_of, IsNoBuiltin};

use ref_terms::Reserved;

/// A predicate of the language's own that succeeds at most once.
#[derive(Clone, Copy, Debug, PartialEq, Eq)]
pub enum Builtin {
    /// `A = B`
    Equal,
    /// `same A B`
    Same,
    /// `var A`
    Var,
    /// `name A`
    Name,
    /// `X is E`
    Is,
    /// `lt A B`
    Less,
    /// `print A`
    Print,
    /// `beta F A R`
    Beta,
}

impl Builtin {
    /// The built-in with this name; none exactly where it is no built-in's. Takes no memory.
    pub fn of(word: Reserved) -> Option<Builtin>
        ensures some { IfSome result (λ builtin. builtin_word builtin ≡ word) }
        ensures none { IfNone result (IsNoBuiltin word) }
    {
        match word {
            Reserved::Equal => Some(Builtin::Equal),
            Reserved::Same => Some(Builtin::Same),
            Reserved::Var => Some(Builtin::Var),
            Reserved::Name => Some(Builtin::Name),
            Reserved::Is => Some(Builtin::Is),
            Reserved::Less => Some(Builtin::Less),
            Reserved::Print => Some(Builtin::Print),
            Reserved::Beta => Some(Builtin::Beta),
            _ => None,
        }
    }

    /// How many arguments the built-in has. Takes no memory.
    pub fn arity(self) -> usize
        ensures { result ≡ arity_of self }
    {
        match self {
            Builtin::Var => 1,
            Builtin::Name => 1,
            Builtin::Print => 1,
            Builtin::Equal => 2,
            Builtin::Same => 2,
            Builtin::Is => 2,
            Builtin::Less => 2,
            Builtin::Beta => 3,
        }
    }
}
