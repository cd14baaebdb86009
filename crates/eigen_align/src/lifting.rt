//! Sequents over joint names.

ghost use Rattle.std.specs.Prelude.{◌≡◌, ◌≢◌, ◌<◌, [], length, option_map, IfOk, IfSome, MatchBool};
ghost use Rattle.level_terms.specs.Growth.{Grows};
ghost use Rattle.level_terms.specs.Valid.{IsValid};
ghost use Rattle.ref_terms.specs.search.Joint.{joint as joint_of};
ghost use Rattle.ref_terms.specs.unification.Closing.{names_below};
ghost use Rattle.beta_fragment.specs.Names.{AllBelow};
ghost use Rattle.eigen_align.specs.Sequents.{sequents_read, AreSequents, ArePairs, IsSequent, joint_read, FitSequents};
ghost use Rattle.eigen_align.specs.Aligned.{IsLifted, IsLiftedIfAny, IsAligned, AreAligned};

use crate::joint::joint_names;
use crate::sequent::{Joint, JointNames, Sequent};
use beta_fragment::{Names, lift};
use level_terms::{Heap, TermId};
use ref_terms::Pair;
use std::alloc::{AllocError, Global};

/// The sequents over their joint names, by pairs of their goals' arguments. None exactly where there are
/// no joint names, and then nothing was lifted. A sequent that keeps its names, as the first one does, is
/// the same one. Answers `AllocError` for want of memory, or where names are used up, which 64 bits count.
pub fn spread(
    alloc: Global,
    heap: &mut Heap,
    heads: &[Sequent],
    pairs: &[Pair],
) -> Result<Option<Joint>, AllocError>
    requires some { 0 < length heads.now }
    requires sequents { AreSequents heap.old heads.now }
    requires pairs { ArePairs pairs.now }
    ensures joint { IfOk result (λ o. option_map (λ j. joint_read j.names) o ≡ joint_of pairs.now (sequents_read heap.old heads.now)) }
    ensures fits { IfOk result (λ o. IfSome o (λ j. FitSequents heads.now j.names)) }
    ensures aligned { IfOk result (λ o. IfSome o (λ j. AreAligned heap.old heap.new heads.now j.names j.heads.items)) }
    ensures variables { heap.new.depths ≡ heap.old.depths }
    ensures grows { Grows heap.old heap.new [] [] }
{
    heap.is_sound();
    let Some(names) = joint_names(alloc, heap, heads, pairs)? else {
        return Ok(None);
    };
    let heads = all_aligned(alloc, heap, heads, &names)?;
    Ok(Some(Joint { names, heads }))
}

/// The sequents over their joint names.
fn all_aligned(
    alloc: Global,
    heap: &mut Heap,
    heads: &[Sequent],
    names: &JointNames,
) -> Result<Vec<Sequent>, AllocError>
    requires sequents { AreSequents heap.old heads.now }
    requires fits { FitSequents heads.now names.now }
    ensures aligned { IfOk result (λ all. AreAligned heap.old heap.new heads.now names.now all.items) }
    ensures variables { heap.new.depths ≡ heap.old.depths }
    ensures grows { Grows heap.old heap.new [] [] }
{
    heap.is_sound();
    let mut all = Vec::new(alloc);
    for i in 0..heads.len() {
        heap.is_sound();
        let map = &names.maps[i];
        let s = aligned(alloc, heap, heads[i], map, names.depth)?;
        all.push(s)?;
    }
    Ok(all)
}

/// A sequent over joint names, which are those of its own names, in their order. Where they are its own
/// it has the same nodes, and the heap stays as it was.
pub fn aligned(
    alloc: Global,
    heap: &mut Heap,
    s: Sequent,
    map: &Names,
    depth: usize,
) -> Result<Sequent, AllocError>
    requires sequent { IsSequent heap.old s }
    requires count { length map.now ≡ s.depth }
    requires below { AllBelow map.now depth }
    ensures aligned { IfOk result (λ r. IsAligned heap.old heap.new s map.now depth r) }
    ensures unchanged { map.now ≡ names_below s.depth → heap.new ≡ heap.old }
    ensures variables { heap.new.depths ≡ heap.old.depths }
    ensures grows { Grows heap.old heap.new [] [] }
{
    heap.is_sound();
    let goal = over_joint(alloc, heap, s.goal, s.depth, map, depth)?;
    heap.is_sound();
    let context = context_over(alloc, heap, s.context, s.depth, map, depth)?;
    Ok(Sequent {
        depth,
        goal,
        context,
    })
}

/// A context over joint names, where there is one.
fn context_over(
    alloc: Global,
    heap: &mut Heap,
    context: Option<TermId>,
    own: usize,
    map: &Names,
    depth: usize,
) -> Result<Option<TermId>, AllocError>
    requires valid { IfSome context (λ t. IsValid heap.old t.index own) }
    requires count { length map.now ≡ own }
    requires below { AllBelow map.now depth }
    ensures lifted { IfOk result (λ o. IsLiftedIfAny heap.old heap.new context map.now depth o) }
    ensures unchanged { map.now ≡ names_below own → heap.new ≡ heap.old }
    ensures variables { heap.new.depths ≡ heap.old.depths }
    ensures grows { Grows heap.old heap.new [] [] }
{
    match context {
        None => Ok(None),
        Some(t) => {
            let r = over_joint(alloc, heap, t, own, map, depth)?;
            Ok(Some(r))
        }
    }
}

/// A term over joint names, which are those of its names, in their order. Where they are its own it is
/// the same node, and the heap stays as it was.
pub fn over_joint(
    alloc: Global,
    heap: &mut Heap,
    t: TermId,
    own: usize,
    map: &Names,
    depth: usize,
) -> Result<TermId, AllocError>
    requires valid { IsValid heap.old t.index own }
    requires count { length map.now ≡ own }
    requires below { AllBelow map.now depth }
    ensures lifted { IfOk result (λ r. IsLifted heap.old heap.new t map.now depth r) }
    ensures unchanged { map.now ≡ names_below own → heap.new ≡ heap.old }
    ensures variables { heap.new.depths ≡ heap.old.depths }
    ensures grows { Grows heap.old heap.new [] [] }
{
    heap.is_sound();
    let same = are_own(map.as_slice());
    if same {
        return Ok(t);
    }
    let r = lift(alloc, heap, t, own, depth, map)?;
    Ok(r)
}

/// Whether each name stands for itself.
fn are_own(map: &[usize]) -> bool
    ensures { MatchBool result (map.now ≡ names_below (length map.now)) (map.now ≢ names_below (length map.now)) }
{
    for i in 0..map.len() {
        let own = map[i] == i;
        if !own {
            return false;
        }
    }
    true
}
