//! Joint names.

ghost use Rattle.std.specs.Prelude.{◌≡◌, ℕ, ◌<◌, ◌≤◌, ◌+◌, [], ◌∷◌, ◌++◌, cond, filter, length, nat_eq, option_map, replicate, slice_index, IfOk, IfSome, OnOk, Some, None};
ghost use Rattle.level_terms.specs.Growth.{Grows};
ghost use Rattle.ref_terms.specs.search.Joint.{aligned, all_aligned, completed, missing, with_head, joint as joint_of};
ghost use Rattle.ref_terms.specs.unification.Closing.{names_below};
ghost use Rattle.eigen_align.specs.Sequents.{sequents_read, AreSequents, ArePairs, joint_read, FitSequents};
ghost use Rattle.eigen_align.specs.Counts.{depths_of, HaveCounts, HaveBelow, AreBelow};
ghost use Rattle.eigen_align.specs.inside.Identified.{aligned_at};

use crate::identifying::identify_spines;
use crate::sequent::{JointNames, Sequent};
use crate::spine::spine_at;
use beta_fragment::Names;
use level_terms::Heap;
use ref_terms::Pair;
use std::alloc::{AllocError, Global};

/// The joint names of the sequents, by pairs of their goals' arguments. None where there are none:
/// where a pair isn't two pattern spines of equal length of one variable, where one name would get two
/// joint names, or where two names of one sequent would get the same one. The first sequent keeps its
/// names; those of a later one that no pair identifies become new ones. Lifts nothing, and makes no
/// variable. Answers `AllocError` for want of memory, or where names are used up, which 64 bits count.
pub fn joint_names(
    alloc: Global,
    heap: &mut Heap,
    heads: &[Sequent],
    pairs: &[Pair],
) -> Result<Option<JointNames>, AllocError>
    requires some { 0 < length heads.now }
    requires sequents { AreSequents heap.old heads.now }
    requires pairs { ArePairs pairs.now }
    ensures joint { IfOk result (λ o. option_map joint_read o ≡ joint_of pairs.now (sequents_read heap.old heads.now)) }
    ensures fits { IfOk result (λ o. IfSome o (λ j. FitSequents heads.now j)) }
    ensures variables { heap.new.depths ≡ heap.old.depths }
    ensures grows { Grows heap.old heap.new [] [] }
{
    heap.is_sound();
    let mut joint = JointNames::own(alloc, heads[0].depth)?;
    for i in 1..heads.len() {
        heap.is_sound();
        match own_names(alloc, heap, heads, joint.maps.as_slice(), pairs, i)? {
            Some(names) => joint.add(alloc, names.as_slice())?,
            None => return Ok(None),
        }
    }
    Ok(Some(joint))
}

impl JointNames {
    /// The joint names of one sequent, which are its own.
    fn own(alloc: Global, depth: usize) -> Result<JointNames, AllocError>
        ensures depth { IfOk result (λ j. j.depth ≡ depth) }
        ensures maps { IfOk result (λ j. j.maps.items ≡ names_below depth ∷ []) }
    {
        let names = own_map(alloc, depth)?;
        let mut maps = Vec::new(alloc);
        maps.push(names)?;
        Ok(JointNames { depth, maps })
    }

    /// Puts a sequent last, some of whose names have joint names; the other ones get new ones, in order.
    fn add(&mut self, alloc: Global, names: &[Option<usize>]) -> Result<(), AllocError>
        ensures { OnOk result (joint_read self.new ≡ with_head (joint_read self.old) names.now) }
    {
        let map = complete(alloc, &mut self.depth, names)?;
        self.maps.push(map)?;
        Ok(())
    }
}

/// Each name for itself.
fn own_map(alloc: Global, depth: usize) -> Result<Names, AllocError>
    ensures { IfOk result (λ ns. ns ≡ names_below depth) }
{
    let mut names = Names::new(alloc);
    for i in 0..depth {
        names.push(i)?;
    }
    Ok(names)
}

/// The joint names, with new ones from `next` on for names that have none.
fn complete(alloc: Global, next: &mut usize, names: &[Option<usize>]) -> Result<Names, AllocError>
    ensures names { IfOk result (λ ns. ns ≡ completed next.old names.now) }
    ensures next { OnOk result (next.new ≡ next.old + missing names.now) }
{
    let mut map = Names::new(alloc);
    for i in 0..names.len() {
        put_joint(&mut map, next, names[i])?;
    }
    Ok(map)
}

/// Puts the joint name of one name last, a new one where it has none.
fn put_joint(map: &mut Names, next: &mut usize, name: Option<usize>) -> Result<(), AllocError>
    ensures map { OnOk result (map.new ≡ map.old ++ completed next.old (name ∷ [])) }
    ensures next { OnOk result (next.new ≡ next.old + missing (name ∷ [])) }
{
    match name {
        Some(joint) => {
            map.push(joint)?;
            Ok(())
        }
        None => {
            map.push(*next)?;
            *next = next.checked_add(1).ok_or(AllocError)?;
            Ok(())
        }
    }
}

/// The joint names that pairs give names of the `i`-th sequent; none where they can't.
fn own_names(
    alloc: Global,
    heap: &mut Heap,
    heads: &[Sequent],
    maps: &[Names],
    pairs: &[Pair],
    i: usize,
) -> Result<Option<Vec<Option<usize>>>, AllocError>
    requires sequents { AreSequents heap.old heads.now }
    requires pairs { ArePairs pairs.now }
    requires here { i < length heads.now }
    requires maps { length maps.now ≡ i }
    requires counts { HaveCounts heads.now maps.now }
    ensures names { IfOk result (λ o. option_map (λ ms. ms.items) o ≡
        all_aligned (sequents_read heap.old heads.now) maps.now (filter (λ p. nat_eq p.right_head i) pairs.now) (Some (replicate (slice_index (depths_of heads.now) i) None))) }
    ensures count { IfOk result (λ o. IfSome o (λ ms. length ms.items ≡ slice_index (depths_of heads.now) i)) }
    ensures below { IfOk result (λ o. IfSome o (λ ms. (d : ℕ) → HaveBelow d maps.now → AreBelow d ms.items)) }
    ensures variables { heap.new.depths ≡ heap.old.depths }
    ensures grows { Grows heap.old heap.new [] [] }
{
    heap.is_sound();
    let mut names = no_names(alloc, heads[i].depth)?;
    for k in 0..pairs.len() {
        heap.is_sound();
        let could = align_at(alloc, heap, heads, maps, pairs[k], i, &mut names)?;
        if !could {
            return Ok(None);
        }
    }
    Ok(Some(names))
}

/// So many names without joint names.
fn no_names(alloc: Global, count: usize) -> Result<Vec<Option<usize>>, AllocError>
    ensures { IfOk result (λ ms. ms.items ≡ replicate count None) }
{
    let mut names = Vec::new(alloc);
    for i in 0..count {
        names.push(None)?;
    }
    Ok(names)
}

/// Identifies what a pair does of the `i`-th sequent, where it is that sequent's, and says whether it
/// could.
fn align_at(
    alloc: Global,
    heap: &mut Heap,
    heads: &[Sequent],
    maps: &[Names],
    pair: Pair,
    i: usize,
    names: &mut Vec<Option<usize>>,
) -> Result<bool, AllocError>
    requires sequents { AreSequents heap.old heads.now }
    requires pair { pair.left_head < pair.right_head }
    requires here { i < length heads.now }
    requires maps { length maps.now ≡ i }
    requires counts { HaveCounts heads.now maps.now }
    requires own { length names.old.items ≡ slice_index (depths_of heads.now) i }
    ensures aligned { IfOk result (λ b. cond b (Some names.new.items) None ≡ aligned_at (sequents_read heap.old heads.now) maps.now i pair (Some names.old.items)) }
    ensures count { length names.new.items ≡ length names.old.items }
    ensures below { (d : ℕ) → HaveBelow d maps.now → AreBelow d names.old.items → AreBelow d names.new.items }
    ensures variables { heap.new.depths ≡ heap.old.depths }
    ensures grows { Grows heap.old heap.new [] [] }
{
    heap.is_sound();
    let own = pair.right_head == i;
    if !own {
        return Ok(true);
    }
    align_pair(alloc, heap, heads, maps, pair, names)
}

/// Identifies what a pair does, and says whether it could.
fn align_pair(
    alloc: Global,
    heap: &mut Heap,
    heads: &[Sequent],
    maps: &[Names],
    pair: Pair,
    names: &mut Vec<Option<usize>>,
) -> Result<bool, AllocError>
    requires sequents { AreSequents heap.old heads.now }
    requires left { pair.left_head < length maps.now }
    requires right { pair.right_head < length heads.now }
    requires few { length maps.now ≤ length heads.now }
    requires counts { HaveCounts heads.now maps.now }
    requires own { length names.old.items ≡ slice_index (depths_of heads.now) pair.right_head }
    ensures aligned { IfOk result (λ b. cond b (Some names.new.items) None ≡ aligned (sequents_read heap.old heads.now) maps.now pair (Some names.old.items)) }
    ensures count { length names.new.items ≡ length names.old.items }
    ensures below { (d : ℕ) → HaveBelow d maps.now → AreBelow d names.old.items → AreBelow d names.new.items }
    ensures variables { heap.new.depths ≡ heap.old.depths }
    ensures grows { Grows heap.old heap.new [] [] }
{
    heap.is_sound();
    let left = spine_at(alloc, heap, heads[pair.left_head], pair.left_arg)?;
    let right = spine_at(alloc, heap, heads[pair.right_head], pair.right_arg)?;
    let map = &maps[pair.left_head];
    let could = identify_spines(names, map.as_slice(), &left, &right);
    Ok(could)
}
