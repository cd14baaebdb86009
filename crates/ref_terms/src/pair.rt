//! Pairs of a constraint rule.

/// Arguments of two heads of a constraint rule that are aligned, all counted from 0.
#[derive(Clone, Copy, Debug, PartialEq, Eq)]
pub struct Pair {
    /// The place of the left head among the heads of its rule, kept ones first.
    pub left_head: usize,
    /// The place of an argument of the left head.
    pub left_arg: usize,
    /// The place of the right head among the heads of its rule.
    pub right_head: usize,
    /// The place of an argument of the right head.
    pub right_arg: usize,
}
