//! The tuples of a rule, in the order of the store.

ghost use Rattle.std.specs.Prelude.{◌≡◌, ◌+◌, ◌<◌, ◌++◌, ◌∷◌, [], suc, length, take, drop, get_or, IfOk, IfErr};
ghost use Rattle.level_terms.specs.Growth.{Grows};
ghost use Rattle.level_terms.specs.Undo.{IsTrailOf};
ghost use Rattle.ref_terms.specs.search.Program.{Program, Rule};
ghost use Rattle.ref_terms.specs.search.Branch.{Branch};
ghost use Rattle.sequent_rules.specs.Branches.{IsSeenAs};
ghost use Rattle.sequent_rules.specs.Instances.{Answers, StopsBy, Leaves, ReadsAsBefore};
ghost use Rattle.sequent_rules.specs.inside.Scans.{IsScan};
ghost use Rattle.sequent_rules.specs.inside.Tuples.{first_tried, going_on, AllStored};

use crate::firing::Firing;
use crate::rules::Rules;
use crate::scan::{Scan, copy_of};
use crate::tuple::try_tuple;
use beta_fragment::UnifyStop;
use level_terms::{Change, Heap};
use std::alloc::{AllocError, Global};
use trail::Trail;

/// The first instance of the rule, or the first fault, among the tuples that begin with these numbers
/// and go on with so many of the others.
pub(crate) fn first_from<R: Rules>(
    alloc: Global,
    heap: &mut Heap,
    trail: &mut Trail<Change>,
    scan: &Scan<'_, R>,
    before: &[u64],
    left: usize,
    others: &[u64],
) -> Result<Option<Firing>, UnifyStop>
    requires own { IsTrailOf heap.old trail.old.entries }
    requires scan { (p : Program) × (r : Rule) × IsScan R.stands heap.old scan.now p r }
    requires before { AllStored scan.now.store.now before.now }
    requires others { AllStored scan.now.store.now others.now }
    requires count { length before.now + left ≡ length scan.now.shape.now.heads.items }
    ensures answer { IfOk result (λ o. (p : Program) (r : Rule) (b : Branch) → IsScan R.stands heap.old scan.now p r → IsSeenAs heap.old scan.now.store.now b
        → Answers heap.new o (first_tried b scan.now.rule r (going_on before.now left others.now))) }
    ensures stops { IfErr result (λ stop. (p : Program) (r : Rule) (b : Branch) → IsScan R.stands heap.old scan.now p r → IsSeenAs heap.old scan.now.store.now b
        → StopsBy stop (first_tried b scan.now.rule r (going_on before.now left others.now))) }
    ensures leaves { IfOk result (Leaves heap.old heap.new) }
    ensures readings { ReadsAsBefore heap.old heap.new }
    ensures grows { Grows heap.old heap.new trail.old.entries trail.new.entries }
{
    if left == 0 {
        return try_tuple(alloc, heap, trail, scan, before);
    }
    for i in 0..others.len() {
        let longer = with_last(alloc, before, others[i])?;
        let rest = without_place(alloc, others, i)?;
        match first_from(
            alloc,
            heap,
            trail,
            scan,
            longer.as_slice(),
            left - 1,
            rest.as_slice(),
        ) {
            Ok(None) => {}
            Ok(Some(firing)) => return Ok(Some(firing)),
            Err(stop) => return Err(stop),
        }
    }
    Ok(None)
}

/// The numbers with one more last.
fn with_last(alloc: Global, ids: &[u64], last: u64) -> Result<Vec<u64>, AllocError>
    ensures { IfOk result (λ v. v.items ≡ ids.now ++ last ∷ []) }
{
    let mut longer = copy_of(alloc, ids)?;
    longer.push(last)?;
    Ok(longer)
}

/// The numbers without the one at a place.
fn without_place(alloc: Global, ids: &[u64], place: usize) -> Result<Vec<u64>, AllocError>
    requires { place < length ids.now }
    ensures { IfOk result (λ v. v.items ≡ take place ids.now ++ drop (suc place) ids.now) }
{
    let mut rest = copy_of(alloc, &ids[..place])?;
    rest.extend_from_slice(&ids[place + 1..])?;
    Ok(rest)
}
