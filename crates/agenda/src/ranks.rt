//! A list of ranks whose first least one is at hand.
ghost use Rattle.std.specs.Prelude.{◌≡◌, ℕ, ◌+◌, ◌*◌, ◌/◌, ◌<◌, ◌≤◌, ◌≢◌, ◌↔◌, [], List, length, drop, slice_index, slice_index_or, slice_set, OnOk, OnErr, IsNone, IfSome, IfOk};
ghost use Rattle.agenda.specs.inside.Ranks.{IsFirst, IsInner, earlier, IsTree, ranks_of};

use std::alloc::{AllocError, Global};
use std::marker::Model;

/// Ranks by place. The first least one is at hand, a change takes time logarithmic in the number
/// of places, and takes no memory. Contracts see the list of ranks.
#[derive(Drop)]
pub(crate) struct Ranks {
    nodes: Vec<Entry>,
    places: usize,
}

impl Model for Ranks {
    ghost use Rattle.std.specs.Prelude.{List, ℕ, drop};
    ghost use Rattle.agenda.specs.inside.Ranks.{IsTree, ranks_of};

    ghost Value = { List ℕ };

    ghost view = { λ a. ranks_of (drop a.places a.nodes.items) };

    ghost invariant = { λ a. IsTree a.places a.nodes.items };
}

/// A rank, and the place in the list where it stands.
#[derive(Clone, Copy)]
pub(crate) struct Entry {
    pub(crate) rank: usize,
    pub(crate) place: usize,
}

// The entry that comes first, by rank and then by place.
fn earlier_of(a: Entry, b: Entry) -> Entry
    ensures { result ≡ earlier a b }
{
    if b.rank < a.rank || a.rank == b.rank && b.place < a.place {
        b
    } else {
        a
    }
}

// Mends the inner nodes above a node, where its parent alone may be wrong.
fn mend_above(nodes: &mut [Entry], places: usize, from: usize)
    requires size { length nodes.old ≡ places + places }
    requires start { 0 < from }
    requires bound { from < places + places }
    requires wrong { (k : ℕ) → 0 < k → k < places → k ≢ from / 2 → IsInner nodes.old k }
    ensures inner { (k : ℕ) → 0 < k → k < places → IsInner nodes.new k }
    ensures leaves { drop places nodes.new ≡ drop places nodes.old }
{
    let mut k = from;
    while k > 1 {
        k /= 2;
        nodes[k] = earlier_of(nodes[2 * k], nodes[2 * k + 1]);
    }
}

// Puts the earlier of its children's entries into each inner node.
fn mend_all(nodes: &mut [Entry], places: usize)
    requires size { length nodes.old ≡ places + places }
    ensures inner { (k : ℕ) → 0 < k → k < places → IsInner nodes.new k }
    ensures leaves { drop places nodes.new ≡ drop places nodes.old }
{
    let mut k = places;
    while k > 1 {
        k -= 1;
        nodes[k] = earlier_of(nodes[2 * k], nodes[2 * k + 1]);
    }
}

// The rank of a leaf, or the given one past the last leaf.
fn rank_or(leaves: &[Entry], place: usize, rank: usize) -> usize
    ensures { result ≡ slice_index_or (ranks_of leaves.now) place rank }
{
    if place < leaves.len() {
        leaves[place].rank
    } else {
        rank
    }
}

// A tree with more places: the ranks of the given leaves, and then the given rank.
fn wider(
    alloc: Global,
    leaves: &[Entry],
    places: usize,
    rank: usize,
) -> Result<Vec<Entry>, AllocError>
    requires { length leaves.now ≤ places }
    ensures tree { IfOk result (λ v. IsTree places v.items) }
    ensures ranks { IfOk result (λ v. (place : ℕ) → slice_index_or (ranks_of (drop places v.items)) place rank ≡ slice_index_or (ranks_of leaves.now) place rank) }
{
    let Some(total) = places.checked_mul(2) else {
        return Err(AllocError);
    };
    let mut nodes = Vec::with_capacity(alloc, total)?;
    for place in 0..places {
        nodes.push(Entry { rank, place })?;
    }
    for place in 0..places {
        let rank_here = rank_or(leaves, place, rank);
        nodes.push(Entry {
            rank: rank_here,
            place,
        })?;
    }
    mend_all(&mut nodes, places);
    Ok(nodes)
}

impl Ranks {
    /// No places. Takes no memory.
    pub(crate) fn new(alloc: Global) -> Ranks
        ensures { result ≡ [] }
    {
        Ranks {
            nodes: Vec::new(alloc),
            places: 0,
        }
    }

    /// Makes so many places at least. New ones have the given rank.
    pub(crate) fn reach(&mut self, places: usize, rank: usize) -> Result<(), AllocError>
        ensures ok { OnOk result (places ≤ length self.new) }
        ensures ranks { (place : ℕ) → slice_index_or self.new place rank ≡ slice_index_or self.old place rank }
        ensures never_less { length self.old ≤ length self.new }
        ensures err { OnErr result (self.new ≡ self.old) }
    {
        if places <= self.places {
            return Ok(());
        }
        let wanted = places.max(self.places.saturating_mul(2));
        let alloc = *self.nodes.allocator();
        let nodes = wider(alloc, &self.nodes[self.places..], wanted, rank)?;
        self.nodes = nodes;
        self.places = wanted;
        Ok(())
    }

    /// The rank of a place.
    pub(crate) fn rank(&self, place: usize) -> usize
        requires { place < length self.now }
        ensures { result ≡ slice_index self.now place }
    {
        self.nodes[self.places + place].rank
    }

    /// Gives a place another rank. Takes no memory.
    pub(crate) fn set(&mut self, place: usize, rank: usize)
        requires { place < length self.old }
        ensures { self.new ≡ slice_set self.old place rank }
    {
        let leaf = self.places + place;
        self.nodes[leaf] = Entry { rank, place };
        mend_above(&mut self.nodes, self.places, leaf);
    }

    /// The first least rank and its place, if there is one.
    pub(crate) fn first(&self) -> Option<Entry>
        ensures none { IsNone result ↔ (length self.now ≡ 0) }
        ensures first { IfSome result (IsFirst self.now) }
    {
        if self.places == 0 {
            return None;
        }
        Some(self.nodes[1])
    }
}
