//! A variable gets a term, abstracted over names, as its value.

ghost use Rattle.std.specs.Prelude.{◌≡◌, ◌≤◌, ◌<◌, true, false, length, slice_index, IfOk, OnOk};
ghost use Rattle.level_terms.specs.Growth.{Grows};
ghost use Rattle.level_terms.specs.Reading.{read};
ghost use Rattle.level_terms.specs.Valid.{IsValid};
ghost use Rattle.ref_terms.specs.terms.Occurs.{occurs};
ghost use Rattle.ref_terms.specs.unification.Closing.{close_all};
ghost use Rattle.beta_fragment.specs.Names.{names as own_names, AllBelow, AreDistinct};
ghost use Rattle.pattern_unify.specs.inside.Binding.{AreFirst, HasPositions, IsNameless};
ghost use Rattle.pattern_unify.specs.Bound.{IsOpen, IsBound, LeavesOthers, NamesAmong};

use crate::applying::applied;
use crate::assigning::assign_absent;
use crate::validity::is_valid_at;
use beta_fragment::{Names, lift};
use level_terms::{Change, Heap, TermId, VarId};
use std::alloc::{AllocError, Global};
use trail::Trail;

/// Gives the variable the term, abstracted over the names of its spine, as its value.
pub(crate) fn bind(
    alloc: Global,
    heap: &mut Heap,
    trail: &mut Trail<Change>,
    v: VarId,
    ns: &[usize],
    t: TermId,
    depth: usize,
) -> Result<(), AllocError>
    requires variable { IsOpen heap.old v.index }
    requires valid { IsValid heap.old t.index depth }
    requires below { AllBelow ns.now depth }
    requires distinct { AreDistinct ns.now }
    requires among { NamesAmong ns.now (read heap.old t.index own_names) }
    requires absent { occurs v.index (read heap.old t.index own_names) ≡ false }
    ensures bound { OnOk result (IsBound heap.old heap.new v.index (close_all ns.now (read heap.old t.index own_names))) }
    ensures others { LeavesOthers v.index heap.old heap.new }
    ensures variables { heap.new.depths ≡ heap.old.depths }
    ensures grows { Grows heap.old heap.new trail.old.entries trail.new.entries }
{
    if stands_as_it_is(alloc, heap, ns, t, depth)? {
        return assign_absent(alloc, heap, trail, v, ns.len(), t);
    }
    if ns.is_empty() {
        return bind_nameless(alloc, heap, trail, v, t, depth);
    }
    bind_renamed(alloc, heap, trail, v, ns, t, depth)
}

/// Whether the names are those of the first levels, in order, and the term is valid under these
/// alone.
fn stands_as_it_is(
    alloc: Global,
    heap: &Heap,
    ns: &[usize],
    t: TermId,
    depth: usize,
) -> Result<bool, AllocError>
    requires { IsValid heap.now t.index depth }
    ensures first { IfOk result (λ b. b ≡ true → AreFirst ns.now) }
    ensures valid { IfOk result (λ b. b ≡ true → IsValid heap.now t.index (length ns.now)) }
{
    if !are_first(ns) {
        return Ok(false);
    }
    if ns.len() >= depth {
        return Ok(true);
    }
    is_valid_at(alloc, heap, t, ns.len())
}

/// Whether the names are those of the first levels, in order.
fn are_first(ns: &[usize]) -> bool
    ensures { result ≡ true → AreFirst ns.now }
{
    for (i, name) in ns.iter().enumerate() {
        if *name != i {
            return false;
        }
    }
    true
}

/// Gives the variable a term without names as its value. The term's nodes may name levels, which
/// are dropped where it is read.
fn bind_nameless(
    alloc: Global,
    heap: &mut Heap,
    trail: &mut Trail<Change>,
    v: VarId,
    t: TermId,
    depth: usize,
) -> Result<(), AllocError>
    requires variable { IsOpen heap.old v.index }
    requires valid { IsValid heap.old t.index depth }
    requires nameless { IsNameless (read heap.old t.index own_names) }
    requires absent { occurs v.index (read heap.old t.index own_names) ≡ false }
    ensures bound { OnOk result (IsBound heap.old heap.new v.index (read heap.old t.index own_names)) }
    ensures others { LeavesOthers v.index heap.old heap.new }
    ensures variables { heap.new.depths ≡ heap.old.depths }
    ensures grows { Grows heap.old heap.new trail.old.entries trail.new.entries }
{
    heap.is_sound();
    let table = vec![in alloc; 0; depth]?;
    let list = names_of(alloc, &table)?;
    let closed = lift(alloc, heap, t, depth, 1, &list)?;
    let node = applied(alloc, heap, closed, 1)?;
    let last = [1];
    bind_renamed(alloc, heap, trail, v, &last, node, 2)
}

/// Gives the variable the term as its value, with the names of its spine renamed to the first
/// levels, and abstracted over these.
fn bind_renamed(
    alloc: Global,
    heap: &mut Heap,
    trail: &mut Trail<Change>,
    v: VarId,
    ns: &[usize],
    t: TermId,
    depth: usize,
) -> Result<(), AllocError>
    requires variable { IsOpen heap.old v.index }
    requires valid { IsValid heap.old t.index depth }
    requires some { 0 < length ns.now }
    requires below { AllBelow ns.now depth }
    requires distinct { AreDistinct ns.now }
    requires among { NamesAmong ns.now (read heap.old t.index own_names) }
    requires absent { occurs v.index (read heap.old t.index own_names) ≡ false }
    ensures bound { OnOk result (IsBound heap.old heap.new v.index (close_all ns.now (read heap.old t.index own_names))) }
    ensures others { LeavesOthers v.index heap.old heap.new }
    ensures variables { heap.new.depths ≡ heap.old.depths }
    ensures grows { Grows heap.old heap.new trail.old.entries trail.new.entries }
{
    heap.is_sound();
    let table = positions(alloc, ns, depth)?;
    let list = names_of(alloc, &table)?;
    let body = lift(alloc, heap, t, depth, ns.len(), &list)?;
    heap.is_sound();
    assign_absent(alloc, heap, trail, v, ns.len(), body)
}

/// A table with a place for each level below the depth: at each name its position, and 0 elsewhere.
fn positions(alloc: Global, ns: &[usize], depth: usize) -> Result<Vec<usize>, AllocError>
    requires below { AllBelow ns.now depth }
    requires distinct { AreDistinct ns.now }
    requires some { 0 < length ns.now }
    ensures count { IfOk result (λ table. length table.items ≡ depth) }
    ensures positions { IfOk result (λ table. HasPositions ns.now table.items) }
    ensures within { IfOk result (λ table. AllBelow table.items (length ns.now)) }
{
    let mut table = vec![in alloc; 0; depth]?;
    for (i, name) in ns.iter().enumerate() {
        table[*name] = i;
    }
    Ok(table)
}

/// The list of these names.
fn names_of(alloc: Global, ns: &[usize]) -> Result<Names, AllocError>
    ensures { IfOk result (λ list. list ≡ ns.now) }
{
    let mut list = Names::new(alloc);
    for name in ns {
        list.push(*name)?;
    }
    Ok(list)
}
