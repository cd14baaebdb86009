//! What a store notes of each event.

/// An event of a store's log, but for the constraint that joined and the pair that fired.
#[derive(Clone, Copy, Debug, PartialEq, Eq)]
pub(crate) enum Note {
    Joins,
    Leaves(u64),
    Fires,
    Heads(u64, u64),
    Becomes(u64, u64),
    Waits(u64),
    Sleeps(u64),
    Doubts,
    Rests,
}
