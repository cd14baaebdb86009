//! A term in the place of a level.
//!
//! The walk is that of renaming. Where the term isn't known to be ready it stops at an application
//! whose head may be an abstraction, since such a term may reduce before the term is put into it and
//! not after, and answers none there. A ready term goes through every application.

ghost use Rattle.std.specs.Prelude.{true, false, ◌≡◌, ◌+◌, ◌-◌, List, reverse, ◌<◌, ◌≤◌, ℕ, [], ◌∷◌, ◌++◌, length, map, slice_index, IfOk, IfSome, IsTrue, OnOk, Some, None};
ghost use Rattle.level_terms.specs.Graph.{node_at, value_in};
ghost use Rattle.level_terms.specs.Sound.{AllOlder};
ghost use Rattle.level_terms.specs.Valid.{IsValid};
ghost use Rattle.level_terms.specs.Reading.{read};
ghost use Rattle.level_terms.specs.Growth.{Grows};
ghost use Rattle.ref_terms.specs.terms.Ready.{ready};
ghost use Rattle.beta_fragment.specs.Names.{names};
ghost use Rattle.beta_fragment.specs.Moves.{putting, IsPutLevel, ArePutLevels, IsPutVar, Puts};
ghost use Rattle.level_terms.specs.Values.{value_of, IsVarOf};
ghost use Rattle.beta_fragment.specs.Firm.{IsPlainNode};
ghost use Rattle.beta_fragment.specs.inside.Settled.{HasPlainHead, IsDirect, IsTaskThere};
ghost use Rattle.beta_fragment.specs.inside.Work.{State, Steps, IsReady};
ghost use Rattle.level_terms.specs.declared.node.TermId.{TermId as Id};
ghost use Rattle.beta_fragment.specs.declared.renaming.Task.{Task as TaskOf};
ghost use Rattle.level_terms.specs.declared.node.Node.TheVariants.{Lam as lam_node, App as app_node, Var as var_node, Level as level_node};
ghost use Rattle.beta_fragment.specs.declared.renaming.Task.TheVariants.{Visit as visit_task};

use crate::glance::is_plain;
use crate::renaming::{Task, bare_var, first_task, make_app, make_lam, push_visits};
use level_terms::{Heap, Node, TermId, VarId, made_app, made_level};
use std::alloc::{AllocError, Global};

/// The node of a level, or what is put in its place.
fn put_level(heap: &mut Heap, put: TermId, level: usize, i: usize) -> Result<TermId, AllocError>
    requires { IsValid heap.old put.index level }
    ensures level { IfOk result (λ r. IsPutLevel (read heap.old put.index) level i (value_of heap.new r)) }
    ensures there { IfOk result (λ r. r.index < length heap.new.nodes) }
    ensures variables { heap.new.depths ≡ heap.old.depths }
    ensures grows { Grows heap.old heap.new [] [] }
{
    if i < level {
        return made_level(heap, i);
    }
    if i == level {
        return Ok(put);
    }
    made_level(heap, i - 1)
}

/// Does a task that visits a level.
fn put_at_level(
    heap: &mut Heap,
    put: TermId,
    level: usize,
    node: TermId,
    base: usize,
    i: usize,
    done: &mut Vec<TermId>,
) -> Result<(), AllocError>
    requires here { node_at heap.old.nodes node.index ≡ Some (level_node i) }
    requires put { IsValid heap.old put.index level }
    requires done { AllOlder (length heap.old.nodes) done.old.items }
    ensures steps { OnOk result ((work : List TaskOf) → Steps (putting (read heap.old put.index) level) (record { heap = heap.old; work = work ++ visit_task node base ∷ []; done = done.old.items }) (record { heap = heap.new; work = work; done = done.new.items })) }
    ensures done { OnOk result (AllOlder (length heap.new.nodes) done.new.items) }
    ensures variables { heap.new.depths ≡ heap.old.depths }
    ensures grows { Grows heap.old heap.new [] [] }
{
    heap.is_sound();
    let r = put_level(heap, put, level, i)?;
    done.push(r)?;
    Ok(())
}

/// Does a task that visits a node that the level isn't in: one that is valid at the level.
fn put_kept(
    heap: &Heap,
    put: TermId,
    level: usize,
    node: TermId,
    base: usize,
    depth: usize,
    done: &mut Vec<TermId>,
) -> Result<(), AllocError>
    requires low { depth ≤ level }
    requires valid { (s : ℕ) → IsValid heap.now node.index s → IsValid heap.now node.index depth }
    requires there { node.index < length heap.now.nodes }
    requires done { AllOlder (length heap.now.nodes) done.old.items }
    ensures steps { OnOk result ((work : List TaskOf) → Steps (putting (read heap.now put.index) level) (record { heap = heap.now; work = work ++ visit_task node base ∷ []; done = done.old.items }) (record { heap = heap.now; work = work; done = done.new.items })) }
    ensures done { OnOk result (AllOlder (length heap.now.nodes) done.new.items) }
{
    heap.is_sound();
    done.push(node)?;
    Ok(())
}

/// Does a task that visits an abstraction that was made above the level.
fn put_at_lam(
    heap: &Heap,
    put: TermId,
    level: usize,
    node: TermId,
    base: usize,
    depth: usize,
    body: TermId,
    work: &mut Vec<Task>,
) -> Result<(), AllocError>
    requires here { node_at heap.now.nodes node.index ≡ Some (lam_node depth body) }
    requires put { IsValid heap.now put.index level }
    requires deep { level < depth }
    ensures steps { OnOk result ((done : List Id) → Steps (putting (read heap.now put.index) level) (record { heap = heap.now; work = work.old.items ++ visit_task node base ∷ []; done = done }) (record { heap = heap.now; work = work.new.items; done = done })) }
{
    heap.is_sound();
    work.push(Task::Lam { depth: depth - 1 })?;
    work.push(Task::Visit { node: body, base })?;
    Ok(())
}

/// Does a task that visits an application, whose head is no abstraction or into which a ready term
/// is put.
fn put_at_app(
    heap: &Heap,
    put: TermId,
    level: usize,
    node: TermId,
    base: usize,
    head: TermId,
    args: &[TermId],
    taken: bool,
    work: &mut Vec<Task>,
) -> Result<(), AllocError>
    requires here { node_at heap.now.nodes node.index ≡ Some (app_node head args.now) }
    requires put { IsValid heap.now put.index level }
    requires taken { IsTrue taken → ready (read heap.now put.index names) ≡ true }
    requires plain { taken ≡ false → IsPlainNode heap.now head.index }
    ensures steps { OnOk result ((done : List Id) → Steps (putting (read heap.now put.index) level) (record { heap = heap.now; work = work.old.items ++ visit_task node base ∷ []; done = done }) (record { heap = heap.now; work = work.new.items; done = done })) }
{
    heap.is_sound();
    work.push(Task::App { args: args.len() })?;
    push_visits(args, base, work)?;
    work.push(Task::Visit { node: head, base })?;
    Ok(())
}

/// The nodes of the levels below a depth, with what is put in the place of one.
fn put_levels(
    alloc: Global,
    heap: &mut Heap,
    put: TermId,
    level: usize,
    depth: usize,
) -> Result<Vec<TermId>, AllocError>
    requires { IsValid heap.old put.index level }
    ensures levels { IfOk result (λ args. ArePutLevels (read heap.old put.index) level 0 (map (value_of heap.new) args.items)) }
    ensures count { IfOk result (λ args. length args.items ≡ depth) }
    ensures there { IfOk result (λ args. AllOlder (length heap.new.nodes) args.items) }
    ensures variables { heap.new.depths ≡ heap.old.depths }
    ensures grows { Grows heap.old heap.new [] [] }
{
    heap.is_sound();
    let mut args = Vec::new(alloc);
    for i in 0..depth {
        heap.is_sound();
        let r = put_level(heap, put, level, i)?;
        args.push(r)?;
    }
    Ok(args)
}

/// A variable that has no value, applied to the levels below its depth, with what is put in the
/// place of one.
fn put_var(
    alloc: Global,
    heap: &mut Heap,
    put: TermId,
    level: usize,
    v: VarId,
) -> Result<TermId, AllocError>
    requires known { v.index < length heap.old.depths }
    requires free { value_in heap.old.assigned v.index ≡ None }
    requires deep { level < slice_index heap.old.depths v.index }
    requires put { IsValid heap.old put.index level }
    ensures var { IfOk result (λ r. IsPutVar (read heap.old put.index) level v.index (slice_index heap.old.depths v.index) (value_of heap.new r)) }
    ensures there { IfOk result (λ r. r.index < length heap.new.nodes) }
    ensures variables { heap.new.depths ≡ heap.old.depths }
    ensures grows { Grows heap.old heap.new [] [] }
{
    heap.is_sound();
    let depth = heap.var_depth(v);
    let head = bare_var(heap, v)?;
    heap.is_sound();
    let args = put_levels(alloc, heap, put, level, depth)?;
    made_app(heap, head, args.as_slice())
}

/// Does a task that visits a variable over levels above the place.
fn put_at_var(
    alloc: Global,
    heap: &mut Heap,
    put: TermId,
    level: usize,
    node: TermId,
    base: usize,
    v: VarId,
    work: &mut Vec<Task>,
    done: &mut Vec<TermId>,
) -> Result<(), AllocError>
    requires here { node_at heap.old.nodes node.index ≡ Some (var_node v) }
    requires known { v.index < length heap.old.depths }
    requires deep { level < slice_index heap.old.depths v.index }
    requires put { IsValid heap.old put.index level }
    requires done { AllOlder (length heap.old.nodes) done.old.items }
    ensures steps { OnOk result (Steps (putting (read heap.old put.index) level) (record { heap = heap.old; work = work.old.items ++ visit_task node base ∷ []; done = done.old.items }) (record { heap = heap.new; work = work.new.items; done = done.new.items })) }
    ensures done { OnOk result (AllOlder (length heap.new.nodes) done.new.items) }
    ensures variables { heap.new.depths ≡ heap.old.depths }
    ensures grows { Grows heap.old heap.new [] [] }
{
    heap.is_sound();
    if let Some(value) = heap.value(v) {
        work.push(Task::Visit { node: value, base })?;
        return Ok(());
    }
    let r = put_var(alloc, heap, put, level, v)?;
    done.push(r)?;
    Ok(())
}

/// Does a task that visits a node which takes no reduction, or into which a ready term is put.
fn put_at(
    alloc: Global,
    heap: &mut Heap,
    put: TermId,
    level: usize,
    node: TermId,
    base: usize,
    taken: bool,
    work: &mut Vec<Task>,
    done: &mut Vec<TermId>,
) -> Result<(), AllocError>
    requires there { node.index < length heap.old.nodes }
    requires taken { IsTrue taken → ready (read heap.old put.index names) ≡ true }
    requires plain { taken ≡ false → HasPlainHead heap.old (node_at heap.old.nodes node.index) }
    requires put { IsValid heap.old put.index level }
    requires done { AllOlder (length heap.old.nodes) done.old.items }
    ensures steps { OnOk result (Steps (putting (read heap.old put.index) level) (record { heap = heap.old; work = work.old.items ++ visit_task node base ∷ []; done = done.old.items }) (record { heap = heap.new; work = work.new.items; done = done.new.items })) }
    ensures done { OnOk result (AllOlder (length heap.new.nodes) done.new.items) }
    ensures variables { heap.new.depths ≡ heap.old.depths }
    ensures grows { Grows heap.old heap.new [] [] }
{
    heap.is_sound();
    match heap.view(node) {
        Node::Level(i) => {
            let i = *i;
            put_at_level(heap, put, level, node, base, i, done)
        }
        Node::Lam { depth, body } => {
            let depth = *depth;
            let body = *body;
            if depth <= level {
                return put_kept(heap, put, level, node, base, depth, done);
            }
            put_at_lam(heap, put, level, node, base, depth, body, work)
        }
        Node::App { head, args } => {
            put_at_app(
                heap,
                put,
                level,
                node,
                base,
                *head,
                args.as_slice(),
                taken,
                work,
            )
        }
        Node::Var(v) => {
            let v = *v;
            let depth = heap.var_depth(v);
            if depth <= level {
                return put_kept(heap, put, level, node, base, depth, done);
            }
            put_at_var(alloc, heap, put, level, node, base, v, work, done)
        }
        Node::Con(_) => put_kept(heap, put, level, node, base, 0, done),
        Node::Int(_) => put_kept(heap, put, level, node, base, 0, done),
        Node::Str(_) => put_kept(heap, put, level, node, base, 0, done),
    }
}

/// Whether the node, if it is an application, is certain to have no abstraction as its head.
fn has_plain_head(heap: &Heap, node: TermId) -> bool
    requires { node.index < length heap.now.nodes }
    ensures { IsTrue result → HasPlainHead heap.now (node_at heap.now.nodes node.index) }
{
    heap.is_sound();
    match heap.view(node) {
        Node::App { head, .. } => is_plain(heap, *head),
        _ => true,
    }
}

/// Whether the task is certain to take no reduction.
fn is_direct(heap: &Heap, task: Task) -> bool
    requires { IsTaskThere (length heap.now.nodes) task }
    ensures { IsTrue result → IsDirect heap.now task }
{
    match task {
        Task::Visit { node, .. } => has_plain_head(heap, node),
        Task::Lam { .. } => true,
        Task::App { .. } => true,
    }
}

/// Whether the task can be done: a ready term is put, or the task is certain to take no reduction.
fn can_go(heap: &Heap, task: Task, taken: bool) -> bool
    requires { IsTaskThere (length heap.now.nodes) task }
    ensures { IsTrue result → taken ≡ false → IsDirect heap.now task }
{
    taken || is_direct(heap, task)
}

/// Does a task that takes no reduction, or puts a ready term.
fn put_step(
    alloc: Global,
    heap: &mut Heap,
    put: TermId,
    level: usize,
    task: Task,
    taken: bool,
    work: &mut Vec<Task>,
    done: &mut Vec<TermId>,
) -> Result<(), AllocError>
    requires put { IsValid heap.old put.index level }
    requires taken { IsTrue taken → ready (read heap.old put.index names) ≡ true }
    requires plain { taken ≡ false → IsDirect heap.old task }
    requires ready { IsReady (putting (read heap.old put.index) level) (length heap.old.nodes) (length done.old.items) task }
    requires done { AllOlder (length heap.old.nodes) done.old.items }
    ensures steps { OnOk result (Steps (putting (read heap.old put.index) level) (record { heap = heap.old; work = work.old.items ++ task ∷ []; done = done.old.items }) (record { heap = heap.new; work = work.new.items; done = done.new.items })) }
    ensures done { OnOk result (AllOlder (length heap.new.nodes) done.new.items) }
    ensures variables { heap.new.depths ≡ heap.old.depths }
    ensures grows { Grows heap.old heap.new [] [] }
{
    match task {
        Task::Visit { node, base } => {
            put_at(alloc, heap, put, level, node, base, taken, work, done)
        }
        Task::Lam { depth } => make_lam(heap, depth, done),
        Task::App { args } => make_app(alloc, heap, args, done),
    }
}

/// The node with another in the place of the level, and the levels above it one lower. None where
/// that may take reduction, and the other isn't known to be taken by abstractions.
pub(crate) fn put_node(
    alloc: Global,
    heap: &mut Heap,
    put: TermId,
    level: usize,
    t: TermId,
    taken: bool,
) -> Result<Option<TermId>, AllocError>
    requires put { IsValid heap.old put.index level }
    requires taken { IsTrue taken → ready (read heap.old put.index names) ≡ true }
    requires valid { IsValid heap.old t.index (level + 1) }
    ensures puts { IfOk result (λ o. IfSome o (λ r. Puts heap.old (read heap.old put.index) level t.index (level + 1) (value_of heap.new r))) }
    ensures there { IfOk result (λ o. IfSome o (λ r. r.index < length heap.new.nodes)) }
    ensures variables { heap.new.depths ≡ heap.old.depths }
    ensures grows { Grows heap.old heap.new [] [] }
{
    heap.is_sound();
    let mut work = first_task(alloc, t, 0)?;
    let mut done = Vec::new(alloc);
    while let Some(task) = work.pop() {
        if !can_go(heap, task, taken) {
            return Ok(None);
        }
        put_step(alloc, heap, put, level, task, taken, &mut work, &mut done)?;
    }
    match done.pop() {
        Some(r) => Ok(Some(r)),
        None => unreachable!(),
    }
}
