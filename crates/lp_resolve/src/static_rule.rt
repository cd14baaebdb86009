//! The static rules.

/// A rule that each program keeps.
#[derive(Clone, Copy, Debug, PartialEq, Eq)]
pub enum StaticRule {
    /// No name is declared twice.
    S1,
    /// A head is headed by a constant.
    S2,
    /// A head has as many arguments as its predicate.
    S3,
    /// A variable in a head has distinct names that the head binds as its arguments.
    S4,
    /// No reserved name is declared or heads a head.
    S5,
    /// A rule has three heads at most.
    S6,
    /// Both sides of a pair are whole arguments of heads, the left one of an earlier head.
    S7,
    /// A test is one of the known tests, with its number of arguments.
    S8,
}
