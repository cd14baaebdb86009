//! Terms in the places of names, all at once.

ghost use Rattle.std.specs.Prelude.{◌≡◌, ◌+◌, ◌<◌, ◌≤◌, ℕ, List, [], length, slice_index, IfOk};
ghost use Rattle.level_terms.specs.Valid.{IsValid};
ghost use Rattle.level_terms.specs.Reading.{read};
ghost use Rattle.level_terms.specs.Growth.{Grows};
ghost use Rattle.ref_terms.specs.terms.Term.{Term};
ghost use Rattle.ref_terms.specs.terms.Apply.{fill};
ghost use Rattle.beta_fragment.specs.Names.{names};
ghost use Rattle.beta_fragment.specs.HeadForm.{AllValidAt, all_read};
ghost use Rattle.beta_fragment.specs.Instantiation.{put_names, AllPlain};

use crate::levels::Levels;
use crate::opening::{is_taken, put_name};
use crate::renaming::{moved_node, sum_of};
use level_terms::{Heap, TermId};
use std::alloc::{AllocError, Global};

/// The term, which is valid at `from` and as many levels more as there are terms to put, with the
/// first of them in the place of level `from`, the second in that of the next one, and so on, all at
/// once. It is valid at `to`, as they are; none of them is an abstraction. Levels below `from` stay.
/// Makes no variable. Answers `AllocError` on want of memory alone.
pub fn instantiate(
    alloc: Global,
    heap: &mut Heap,
    t: TermId,
    from: usize,
    to: usize,
    puts: &[TermId],
) -> Result<TermId, AllocError>
    requires low { from ≤ to }
    requires valid { IsValid heap.old t.index (from + length puts.now) }
    requires puts { AllValidAt heap.old puts.now to }
    requires plain { AllPlain (all_read heap.old puts.now) }
    ensures reads { IfOk result (λ r. read heap.new r.index names ≡ fill (put_names from (all_read heap.old puts.now)) (read heap.old t.index names)) }
    ensures valid { IfOk result (λ r. IsValid heap.new r.index to) }
    ensures variables { heap.new.depths ≡ heap.old.depths }
    ensures grows { Grows heap.old heap.new [] [] }
{
    heap.is_sound();
    let count = puts.len();
    let named = with_stand_ins(alloc, heap, t, from, to, count)?;
    put_all(alloc, heap, named, to, puts)
}

/// The levels below `from`, each for its own name, and so many more, for the names from `to` on.
fn stand_ins(alloc: Global, from: usize, to: usize, count: usize) -> Result<Levels, AllocError>
    ensures count { IfOk result (λ levels. length levels ≡ from + count) }
    ensures own { IfOk result (λ levels. (i : ℕ) → i < from → slice_index levels i ≡ i) }
    ensures more { IfOk result (λ levels. (j : ℕ) → j < count → slice_index levels (from + j) ≡ to + j) }
{
    let mut levels = Levels::own(alloc, from);
    for j in 0..count {
        let name = sum_of(to, j)?;
        levels.push(name)?;
    }
    Ok(levels)
}

/// The node with the names from `to` on in the places of the levels from `from` on.
fn with_stand_ins(
    alloc: Global,
    heap: &mut Heap,
    t: TermId,
    from: usize,
    to: usize,
    count: usize,
) -> Result<TermId, AllocError>
    requires low { from ≤ to }
    requires valid { IsValid heap.old t.index (from + count) }
    ensures reads { IfOk result (λ r. (ss : List Term) → length ss ≡ count → fill (put_names to ss) (read heap.new r.index names) ≡ fill (put_names from ss) (read heap.old t.index names)) }
    ensures valid { IfOk result (λ r. IsValid heap.new r.index (to + count)) }
    ensures variables { heap.new.depths ≡ heap.old.depths }
    ensures grows { Grows heap.old heap.new [] [] }
{
    heap.is_sound();
    if from == to {
        return Ok(t);
    }
    let end = sum_of(to, count)?;
    let levels = stand_ins(alloc, from, to, count)?;
    moved_node(alloc, heap, &levels, from, end, t)
}

/// The node with terms in the places of the names from `to` on, the last one first.
fn put_all(
    alloc: Global,
    heap: &mut Heap,
    t: TermId,
    to: usize,
    puts: &[TermId],
) -> Result<TermId, AllocError>
    requires valid { IsValid heap.old t.index (to + length puts.now) }
    requires puts { AllValidAt heap.old puts.now to }
    requires plain { AllPlain (all_read heap.old puts.now) }
    ensures reads { IfOk result (λ r. read heap.new r.index names ≡ fill (put_names to (all_read heap.old puts.now)) (read heap.old t.index names)) }
    ensures valid { IfOk result (λ r. IsValid heap.new r.index to) }
    ensures variables { heap.new.depths ≡ heap.old.depths }
    ensures grows { Grows heap.old heap.new [] [] }
{
    heap.is_sound();
    let mut node = t;
    let mut i = puts.len();
    while i > 0 {
        i -= 1;
        heap.is_sound();
        let level = sum_of(to, i)?;
        let put = puts[i];
        let taken = is_taken(heap, put, level);
        node = put_name(alloc, heap, put, level, node, taken)?;
    }
    Ok(node)
}
