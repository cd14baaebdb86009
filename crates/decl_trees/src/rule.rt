//! Rules of types.

/// A rule of types.
#[derive(Clone, Copy, Debug, PartialEq, Eq)]
pub enum TypeRule {
    /// A `kind` declares a word of types, or a name that an earlier one declares.
    Y1,
    /// A `type` declares a reserved name, or a `type` or a `pred` a name that an earlier one declares.
    Y2,
    /// A word of a type is no kind, or has another number of arguments.
    Y3,
    /// A clause or a rule has no typing together with those before it.
    Y4,
}
