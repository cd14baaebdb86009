//! Names that stand for terms.
//!
//! Where an abstraction takes a term that is ready and no name, a new name stands for the term while
//! the head is looked for, so that no body is copied. In the form that is found at last the terms are
//! put in the places of their names, the last one first.

ghost use Rattle.std.specs.Prelude.{◌≡◌, ◌+◌, [], length, map, reverse, true, IfOk, IsTrue};
ghost use Rattle.level_terms.specs.Growth.{Grows};
ghost use Rattle.level_terms.specs.Reading.{read};
ghost use Rattle.level_terms.specs.Valid.{IsValid};
ghost use Rattle.ref_terms.specs.terms.Term.{Term};
ghost use Rattle.ref_terms.specs.terms.Apply.{fill};
ghost use Rattle.ref_terms.specs.terms.Occurs.{is_name};
ghost use Rattle.ref_terms.specs.terms.Ready.{ready};
ghost use Rattle.ref_terms.specs.unification.Spine.{apply_all};
ghost use Rattle.beta_fragment.specs.HeadForm.{IsHeadForm, ReadsAsLam, FirstUnready, AllValidAt, all_read, rigid_head};
ghost use Rattle.beta_fragment.specs.Moves.{put_name as put_in};
ghost use Rattle.beta_fragment.specs.Names.{names};
ghost use Rattle.beta_fragment.specs.inside.Standing.{HasForm, FoundAs, IsFoundBy};

use crate::answer::{RigidHead, Whnf};
use crate::glance::{Readiness, is_abstraction, looked_at};
use crate::head::in_order;
use crate::levels::Levels;
use crate::opening::put_name;
use crate::rigid_form::{rigid_application, rigid_leaf};
use crate::settling::settled;
use level_terms::{Heap, Node, TermId, TermIds};
use std::alloc::{AllocError, Global};

/// Whether the head is this name.
fn is_stand_in(head: RigidHead, name: usize) -> bool
    ensures { is_name name (rigid_head head) ≡ result }
{
    match head {
        RigidHead::Con(_) => false,
        RigidHead::Int(_) => false,
        RigidHead::Str(_) => false,
        RigidHead::Level(n) => name == n,
    }
}

/// Nodes with another, which is ready, in the place of the name of the depth.
fn put_each(
    alloc: Global,
    heap: &mut Heap,
    put: TermId,
    depth: usize,
    ts: &[TermId],
) -> Result<TermIds, AllocError>
    requires put { IsValid heap.old put.index depth }
    requires ready { ready (read heap.old put.index names) ≡ true }
    requires valid { AllValidAt heap.old ts.now (depth + 1) }
    ensures reads { IfOk result (λ list. all_read heap.new list ≡ map (fill (put_in depth (read heap.old put.index names))) (all_read heap.old ts.now)) }
    ensures valid { IfOk result (λ list. AllValidAt heap.new list depth) }
    ensures variables { heap.new.depths ≡ heap.old.depths }
    ensures grows { Grows heap.old heap.new [] [] }
{
    heap.is_sound();
    let mut list = TermIds::new(alloc);
    for t in ts {
        heap.is_sound();
        let r = put_name(alloc, heap, put, depth, *t, true)?;
        list.push(r)?;
    }
    Ok(list)
}

/// The form of a node before arguments, where no look tells it.
fn told(
    alloc: Global,
    heap: &mut Heap,
    t: TermId,
    args: TermIds,
    depth: usize,
) -> Result<Whnf, AllocError>
    requires valid { IsValid heap.old t.index depth }
    requires args { AllValidAt heap.old args depth }
    ensures form { IfOk result (λ w. IsHeadForm heap.new depth (apply_all (read heap.old t.index names) (all_read heap.old args)) w) }
    ensures variables { heap.new.depths ≡ heap.old.depths }
    ensures grows { Grows heap.old heap.new [] [] }
{
    heap.is_sound();
    let levels = Levels::own(alloc, depth);
    let stack = in_order(alloc, &[], args.as_slice())?;
    settled(alloc, heap, t, &levels, stack.as_slice(), depth)
}

/// Whether the node is an abstraction's, and certain to read as one.
fn is_certain(heap: &Heap, t: TermId, depth: usize) -> bool
    requires { IsValid heap.now t.index depth }
    ensures { IsTrue result → ReadsAsLam heap.now t.index depth }
{
    heap.is_sound();
    match heap.view(t) {
        Node::Lam { .. } => is_abstraction(heap, t),
        _ => false,
    }
}

/// Whether the first of the nodes is certain not to be ready.
fn is_first_unready(heap: &Heap, ts: &[TermId], depth: usize) -> bool
    requires { AllValidAt heap.now ts.now depth }
    ensures { IsTrue result → FirstUnready heap.now ts.now }
{
    if ts.is_empty() {
        return false;
    }
    matches!(looked_at(heap, ts[0]), Readiness::Unready)
}

/// The form of what may be an abstraction before arguments.
fn lam_before(
    alloc: Global,
    heap: &mut Heap,
    t: TermId,
    args: TermIds,
    depth: usize,
) -> Result<Whnf, AllocError>
    requires valid { IsValid heap.old t.index depth }
    requires args { AllValidAt heap.old args depth }
    ensures form { IfOk result (λ w. IsHeadForm heap.new depth (apply_all (read heap.old t.index names) (all_read heap.old args)) w) }
    ensures variables { heap.new.depths ≡ heap.old.depths }
    ensures grows { Grows heap.old heap.new [] [] }
{
    heap.is_sound();
    if is_certain(heap, t, depth) {
        if args.as_slice().is_empty() {
            return Ok(Whnf::Lam(t));
        }
        if is_first_unready(heap, args.as_slice(), depth) {
            return Ok(Whnf::Redex(t, args));
        }
    }
    told(alloc, heap, t, args, depth)
}

/// The form of a node before arguments, where it is a constant, a string or a level, or applies one.
fn form_before(
    alloc: Global,
    heap: &mut Heap,
    t: TermId,
    args: TermIds,
    depth: usize,
) -> Result<Whnf, AllocError>
    requires valid { IsValid heap.old t.index depth }
    requires args { AllValidAt heap.old args depth }
    ensures form { IfOk result (λ w. IsHeadForm heap.new depth (apply_all (read heap.old t.index names) (all_read heap.old args)) w) }
    ensures variables { heap.new.depths ≡ heap.old.depths }
    ensures grows { Grows heap.old heap.new [] [] }
{
    heap.is_sound();
    if let Some(head) = rigid_leaf(heap, t) {
        return Ok(Whnf::Rigid(head, args));
    }
    match rigid_application(alloc, heap, t, depth)? {
        Some(Whnf::Rigid(head, first)) => {
            let stack = in_order(alloc, &[], args.as_slice())?;
            let list = in_order(alloc, first.as_slice(), stack.as_slice())?;
            Ok(Whnf::Rigid(head, list))
        }
        _ => told(alloc, heap, t, args, depth),
    }
}

/// A form with a node in the place of the name of the depth.
fn with_put(
    alloc: Global,
    heap: &mut Heap,
    put: TermId,
    depth: usize,
    form: Whnf,
) -> Result<Whnf, AllocError>
    requires put { IsValid heap.old put.index depth }
    requires ready { ready (read heap.old put.index names) ≡ true }
    requires form { HasForm heap.old (depth + 1) form }
    ensures form { IfOk result (λ w. (x : Term) → IsHeadForm heap.old (depth + 1) x form → IsHeadForm heap.new depth (fill (put_in depth (read heap.old put.index names)) x) w) }
    ensures variables { heap.new.depths ≡ heap.old.depths }
    ensures grows { Grows heap.old heap.new [] [] }
{
    heap.is_sound();
    match form {
        Whnf::Lam(t) => {
            let r = put_name(alloc, heap, put, depth, t, true)?;
            lam_before(alloc, heap, r, TermIds::new(alloc), depth)
        }
        Whnf::Rigid(head, args) => {
            let list = put_each(alloc, heap, put, depth, args.as_slice())?;
            if is_stand_in(head, depth) {
                return form_before(alloc, heap, put, list, depth);
            }
            Ok(Whnf::Rigid(head, list))
        }
        Whnf::Flex(v, args) => {
            let list = put_each(alloc, heap, put, depth, args.as_slice())?;
            Ok(Whnf::Flex(v, list))
        }
        Whnf::Redex(t, args) => {
            let list = put_each(alloc, heap, put, depth, args.as_slice())?;
            heap.is_sound();
            let r = put_name(alloc, heap, put, depth, t, true)?;
            lam_before(alloc, heap, r, list, depth)
        }
    }
}

/// The form with the nodes in the places of the names that stand for them: those from the depth on.
pub(crate) fn placed(
    alloc: Global,
    heap: &mut Heap,
    depth: usize,
    to: usize,
    puts: Vec<TermId>,
    form: Whnf,
) -> Result<Whnf, AllocError>
    requires long { to ≡ depth + length puts.items }
    requires found { IsFoundBy heap.old depth (reverse puts.items) form }
    ensures form { IfOk result (λ w. (u : Term) → FoundAs heap.old depth (reverse puts.items) u form → IsHeadForm heap.new depth u w) }
    ensures variables { heap.new.depths ≡ heap.old.depths }
    ensures grows { Grows heap.old heap.new [] [] }
{
    heap.is_sound();
    let mut to = to;
    let mut puts = puts;
    let mut form = form;
    while let Some(put) = puts.pop() {
        heap.is_sound();
        to -= 1;
        form = with_put(alloc, heap, put, to, form)?;
    }
    Ok(form)
}
