//! Renaming of names.
//!
//! The walk keeps a list of what is still to be done, and one of the nodes that are done, so that
//! depth is bounded by memory alone. Parts that no renamed level reaches are shared.

ghost use Rattle.std.specs.Prelude.{◌≡◌, ◌+◌, ◌-◌, List, reverse, ◌<◌, ◌≤◌, ℕ, [], ◌∷◌, ◌++◌, length, map, slice_index, IfOk, OnOk, Some, None, IsSome, vec_len};
ghost use Rattle.level_terms.specs.Graph.{Graph, node_at, value_in};
ghost use Rattle.level_terms.specs.Laws.{ArePlaces};
ghost use Rattle.level_terms.specs.Sound.{IsSound, AllOlder, IsHead};
ghost use Rattle.level_terms.specs.Valid.{IsValid};
ghost use Rattle.level_terms.specs.Reading.{read, levels};
ghost use Rattle.level_terms.specs.Growth.{Grows};
ghost use Rattle.ref_terms.specs.terms.Term as term;
ghost use Rattle.ref_terms.specs.terms.Term.{Term};
ghost use Rattle.ref_terms.specs.unification.Spine.{apply_all};
ghost use Rattle.beta_fragment.specs.Names.{names as own_names, renamed as renamed_by, AllBelow};
ghost use Rattle.beta_fragment.specs.Moves.{moved, moved_level, IsMove, AreLevelsOf, IsMovedVar, Moves, Plan, naming};
ghost use Rattle.level_terms.specs.Values.{value_of, IsAppOf, IsLamOf, IsLevelOf, IsVarOf};
ghost use Rattle.beta_fragment.specs.inside.Work.{State, Steps, visits, IsReady};
ghost use Rattle.level_terms.specs.declared.node.TermId.{TermId as Id};
ghost use Rattle.beta_fragment.specs.declared.renaming.Task.{Task as TaskOf};
ghost use Rattle.level_terms.specs.declared.node.Node.TheVariants.{Lam as lam_node, App as app_node, Var as var_node, Level as level_node};
ghost use Rattle.beta_fragment.specs.declared.renaming.Task.TheVariants.{Visit as visit_task, Lam as lam_task, App as app_task};

use crate::answer::Names;
use crate::levels::Levels;
use level_terms::{Heap, Node, TermId, VarId, applied, made_app, made_lam, made_level, made_var};
use std::alloc::{AllocError, Global};

/// What is still to be done.
#[derive(Clone, Copy)]
pub(crate) enum Task {
    /// The node with its levels moved: those below `base` are names.
    Visit { node: TermId, base: usize },
    /// An abstraction of the node that was done last.
    Lam { depth: usize },
    /// An application to so many nodes that were done last, of the one before them.
    App { args: usize },
}

/// The term with each level below `from` renamed to the name that the list has for it. Makes no
/// variable. Answers `AllocError` on want of memory alone.
pub fn lift(
    alloc: Global,
    heap: &mut Heap,
    t: TermId,
    from: usize,
    to: usize,
    names: &Names,
) -> Result<TermId, AllocError>
    requires valid { IsValid heap.old t.index from }
    requires all { from ≤ length names.now }
    requires below { AllBelow names.now to }
    ensures reads { IfOk result (λ r. read heap.new r.index own_names ≡ read heap.old t.index (renamed_by names.now)) }
    ensures valid { IfOk result (λ r. IsValid heap.new r.index to) }
    ensures variables { heap.new.depths ≡ heap.old.depths }
    ensures grows { Grows heap.old heap.new [] [] }
{
    let names = &names.as_slice()[..from];
    let fixed = fixed_names(names);
    let levels = Levels::of(alloc, names)?;
    moved_node(alloc, heap, &levels, fixed, to, t)
}

/// How many of the names stay, from the first one on.
fn fixed_names(names: &[usize]) -> usize
    ensures few { result ≤ length names.now }
    ensures stay { (i : ℕ) → i < result → slice_index names.now i ≡ i }
{
    for (i, name) in names.iter().enumerate() {
        if *name != i {
            return i;
        }
    }
    names.len()
}

/// Where a level goes. Levels are numbered by 64 bits; `AllocError` where they are used up.
fn level_after(names: &Levels, base: usize, to: usize, level: usize) -> Result<usize, AllocError>
    requires { base ≤ length names.now }
    ensures { IfOk result (λ l. l ≡ moved_level names.now base to level) }
{
    if level < base {
        return Ok(names.name(level));
    }
    sum_of(level - base, to)
}

/// The sum, or `AllocError` past 64 bits.
pub(crate) fn sum_of(a: usize, b: usize) -> Result<usize, AllocError>
    ensures { IfOk result (λ n. n ≡ a + b) }
{
    a.checked_add(b).ok_or(AllocError)
}

/// Does a task that visits a level.
fn visit_level(
    heap: &mut Heap,
    names: &Levels,
    to: usize,
    node: TermId,
    base: usize,
    level: usize,
    done: &mut Vec<TermId>,
) -> Result<(), AllocError>
    requires here { node_at heap.old.nodes node.index ≡ Some (level_node level) }
    requires base { base ≤ length names.now }
    requires below { AllBelow names.now to }
    requires done { AllOlder (length heap.old.nodes) done.old.items }
    ensures steps { OnOk result ((work : List TaskOf) → Steps (naming names.now to) (record { heap = heap.old; work = work ++ visit_task node base ∷ []; done = done.old.items }) (record { heap = heap.new; work = work; done = done.new.items })) }
    ensures done { OnOk result (AllOlder (length heap.new.nodes) done.new.items) }
    ensures variables { heap.new.depths ≡ heap.old.depths }
    ensures grows { Grows heap.old heap.new [] [] }
{
    heap.is_sound();
    let new = level_after(names, base, to, level)?;
    let r = made_level(heap, new)?;
    done.push(r)?;
    Ok(())
}

/// Does a task that visits an abstraction.
fn visit_lam(
    heap: &Heap,
    names: &Levels,
    to: usize,
    node: TermId,
    base: usize,
    depth: usize,
    body: TermId,
    work: &mut Vec<Task>,
) -> Result<(), AllocError>
    requires here { node_at heap.now.nodes node.index ≡ Some (lam_node depth body) }
    requires base { base ≤ length names.now }
    requires below { AllBelow names.now to }
    ensures steps { OnOk result ((done : List Id) → Steps (naming names.now to) (record { heap = heap.now; work = work.old.items ++ visit_task node base ∷ []; done = done }) (record { heap = heap.now; work = work.new.items; done = done })) }
{
    heap.is_sound();
    let inner = base.min(depth);
    let raised = sum_of(depth - inner, to)?;
    work.push(Task::Lam { depth: raised })?;
    work.push(Task::Visit {
        node: body,
        base: inner,
    })?;
    Ok(())
}

/// Puts visits of nodes onto the work list, the first one last.
pub(crate) fn push_visits(
    nodes: &[TermId],
    base: usize,
    work: &mut Vec<Task>,
) -> Result<(), AllocError>
    ensures { OnOk result (work.new.items ≡ work.old.items ++ reverse (visits base nodes.now)) }
{
    let mut i = nodes.len();
    while i > 0 {
        i -= 1;
        work.push(Task::Visit {
            node: nodes[i],
            base,
        })?;
    }
    Ok(())
}

/// Does a task that visits an application.
fn visit_app(
    heap: &Heap,
    names: &Levels,
    to: usize,
    node: TermId,
    base: usize,
    head: TermId,
    args: &[TermId],
    work: &mut Vec<Task>,
) -> Result<(), AllocError>
    requires here { node_at heap.now.nodes node.index ≡ Some (app_node head args.now) }
    requires base { base ≤ length names.now }
    ensures steps { OnOk result ((done : List Id) → Steps (naming names.now to) (record { heap = heap.now; work = work.old.items ++ visit_task node base ∷ []; done = done }) (record { heap = heap.now; work = work.new.items; done = done })) }
{
    heap.is_sound();
    work.push(Task::App { args: args.len() })?;
    push_visits(args, base, work)?;
    work.push(Task::Visit { node: head, base })?;
    Ok(())
}

/// The node of a variable that has no value, abstracted over the levels below its depth: it reads
/// as the variable without arguments.
pub(crate) fn bare_var(heap: &mut Heap, v: VarId) -> Result<TermId, AllocError>
    requires known { v.index < length heap.old.depths }
    requires free { value_in heap.old.assigned v.index ≡ None }
    ensures open { IfOk result (λ r. IsVarOf v.index 0 (value_of heap.new r)) }
    ensures head { IfOk result (λ r. IsHead (node_at heap.new.nodes r.index)) }
    ensures there { IfOk result (λ r. r.index < length heap.new.nodes) }
    ensures variables { heap.new.depths ≡ heap.old.depths }
    ensures grows { Grows heap.old heap.new [] [] }
{
    let mut depth = heap.var_depth(v);
    let mut node = made_var(heap, v)?;
    while depth > 0 {
        depth -= 1;
        node = made_lam(heap, depth, node)?;
    }
    Ok(node)
}

/// The nodes of the levels below a depth, moved.
pub(crate) fn moved_levels(
    alloc: Global,
    heap: &mut Heap,
    names: &Levels,
    base: usize,
    to: usize,
    depth: usize,
) -> Result<Vec<TermId>, AllocError>
    requires { base ≤ length names.now }
    ensures levels { IfOk result (λ args. AreLevelsOf names.now base to 0 (map (value_of heap.new) args.items)) }
    ensures count { IfOk result (λ args. length args.items ≡ depth) }
    ensures there { IfOk result (λ args. AllOlder (length heap.new.nodes) args.items) }
    ensures variables { heap.new.depths ≡ heap.old.depths }
    ensures grows { Grows heap.old heap.new [] [] }
{
    let mut args = Vec::new(alloc);
    for level in 0..depth {
        heap.is_sound();
        let new = level_after(names, base, to, level)?;
        let r = made_level(heap, new)?;
        args.push(r)?;
    }
    Ok(args)
}

/// A variable that has no value, applied to the levels below its depth, moved.
fn moved_var(
    alloc: Global,
    heap: &mut Heap,
    names: &Levels,
    base: usize,
    to: usize,
    v: VarId,
) -> Result<TermId, AllocError>
    requires base { base ≤ length names.now }
    requires known { v.index < length heap.old.depths }
    requires free { value_in heap.old.assigned v.index ≡ None }
    requires deep { 0 < slice_index heap.old.depths v.index }
    ensures moved { IfOk result (λ r. IsMovedVar names.now base to v.index (slice_index heap.old.depths v.index) (value_of heap.new r)) }
    ensures there { IfOk result (λ r. r.index < length heap.new.nodes) }
    ensures variables { heap.new.depths ≡ heap.old.depths }
    ensures grows { Grows heap.old heap.new [] [] }
{
    let depth = heap.var_depth(v);
    heap.is_sound();
    let head = bare_var(heap, v)?;
    heap.is_sound();
    let args = moved_levels(alloc, heap, names, base, to, depth)?;
    made_app(heap, head, args.as_slice())
}

/// Does a task that visits a node without moved levels: one that is valid at a depth below which
/// levels stay.
fn visit_kept(
    heap: &Heap,
    names: &Levels,
    fixed: usize,
    to: usize,
    node: TermId,
    base: usize,
    depth: usize,
    done: &mut Vec<TermId>,
) -> Result<(), AllocError>
    requires moves { IsMove names.now fixed to }
    requires fixed { depth ≤ fixed }
    requires base { depth ≤ base }
    requires valid { (s : ℕ) → IsValid heap.now node.index s → IsValid heap.now node.index depth }
    requires there { node.index < length heap.now.nodes }
    requires done { AllOlder (length heap.now.nodes) done.old.items }
    ensures steps { OnOk result ((work : List TaskOf) → Steps (naming names.now to) (record { heap = heap.now; work = work ++ visit_task node base ∷ []; done = done.old.items }) (record { heap = heap.now; work = work; done = done.new.items })) }
    ensures done { OnOk result (AllOlder (length heap.now.nodes) done.new.items) }
{
    heap.is_sound();
    done.push(node)?;
    Ok(())
}

/// Does a task that visits a variable with moved levels.
fn visit_var(
    alloc: Global,
    heap: &mut Heap,
    names: &Levels,
    to: usize,
    node: TermId,
    base: usize,
    v: VarId,
    work: &mut Vec<Task>,
    done: &mut Vec<TermId>,
) -> Result<(), AllocError>
    requires here { node_at heap.old.nodes node.index ≡ Some (var_node v) }
    requires known { v.index < length heap.old.depths }
    requires deep { 0 < slice_index heap.old.depths v.index }
    requires base { base ≤ length names.now }
    requires below { AllBelow names.now to }
    requires done { AllOlder (length heap.old.nodes) done.old.items }
    ensures steps { OnOk result (Steps (naming names.now to) (record { heap = heap.old; work = work.old.items ++ visit_task node base ∷ []; done = done.old.items }) (record { heap = heap.new; work = work.new.items; done = done.new.items })) }
    ensures done { OnOk result (AllOlder (length heap.new.nodes) done.new.items) }
    ensures variables { heap.new.depths ≡ heap.old.depths }
    ensures grows { Grows heap.old heap.new [] [] }
{
    heap.is_sound();
    if let Some(value) = heap.value(v) {
        let depth = heap.var_depth(v);
        work.push(Task::Visit {
            node: value,
            base: base.min(depth),
        })?;
        return Ok(());
    }
    let r = moved_var(alloc, heap, names, base, to, v)?;
    done.push(r)?;
    Ok(())
}

/// Does a task that visits a node.
fn visit(
    alloc: Global,
    heap: &mut Heap,
    names: &Levels,
    fixed: usize,
    to: usize,
    node: TermId,
    base: usize,
    work: &mut Vec<Task>,
    done: &mut Vec<TermId>,
) -> Result<(), AllocError>
    requires moves { IsMove names.now fixed to }
    requires there { node.index < length heap.old.nodes }
    requires base { base ≤ length names.now }
    requires done { AllOlder (length heap.old.nodes) done.old.items }
    ensures steps { OnOk result (Steps (naming names.now to) (record { heap = heap.old; work = work.old.items ++ visit_task node base ∷ []; done = done.old.items }) (record { heap = heap.new; work = work.new.items; done = done.new.items })) }
    ensures done { OnOk result (AllOlder (length heap.new.nodes) done.new.items) }
    ensures variables { heap.new.depths ≡ heap.old.depths }
    ensures grows { Grows heap.old heap.new [] [] }
{
    heap.is_sound();
    let stays = fixed.min(base);
    match heap.view(node) {
        Node::Level(level) => {
            let level = *level;
            visit_level(heap, names, to, node, base, level, done)
        }
        Node::Lam { depth, body } => {
            let depth = *depth;
            let body = *body;
            if depth <= stays {
                return visit_kept(heap, names, fixed, to, node, base, depth, done);
            }
            visit_lam(heap, names, to, node, base, depth, body, work)
        }
        Node::App { head, args } => visit_app(
            heap,
            names,
            to,
            node,
            base,
            *head,
            args.as_slice(),
            work,
        ),
        Node::Var(v) => {
            let v = *v;
            let depth = heap.var_depth(v);
            if depth <= stays {
                return visit_kept(heap, names, fixed, to, node, base, depth, done);
            }
            visit_var(alloc, heap, names, to, node, base, v, work, done)
        }
        Node::Con(_) => visit_kept(heap, names, fixed, to, node, base, 0, done),
        Node::Int(_) => visit_kept(heap, names, fixed, to, node, base, 0, done),
        Node::Str(_) => visit_kept(heap, names, fixed, to, node, base, 0, done),
    }
}

/// Does a task that makes an abstraction.
pub(crate) fn make_lam(
    heap: &mut Heap,
    depth: usize,
    done: &mut Vec<TermId>,
) -> Result<(), AllocError>
    requires some { 0 < length done.old.items }
    requires done { AllOlder (length heap.old.nodes) done.old.items }
    ensures steps { OnOk result ((plan : Plan) (work : List TaskOf) → Steps plan (record { heap = heap.old; work = work ++ lam_task depth ∷ []; done = done.old.items }) (record { heap = heap.new; work = work; done = done.new.items })) }
    ensures done { OnOk result (AllOlder (length heap.new.nodes) done.new.items) }
    ensures variables { heap.new.depths ≡ heap.old.depths }
    ensures grows { Grows heap.old heap.new [] [] }
{
    heap.is_sound();
    match done.pop() {
        Some(body) => {
            let r = made_lam(heap, depth, body)?;
            done.push(r)?;
            Ok(())
        }
        None => unreachable!(),
    }
}

/// Does a task that makes an application.
pub(crate) fn make_app(
    alloc: Global,
    heap: &mut Heap,
    args: usize,
    done: &mut Vec<TermId>,
) -> Result<(), AllocError>
    requires some { args < length done.old.items }
    requires done { AllOlder (length heap.old.nodes) done.old.items }
    ensures steps { OnOk result ((plan : Plan) (work : List TaskOf) → Steps plan (record { heap = heap.old; work = work ++ app_task args ∷ []; done = done.old.items }) (record { heap = heap.new; work = work; done = done.new.items })) }
    ensures done { OnOk result (AllOlder (length heap.new.nodes) done.new.items) }
    ensures variables { heap.new.depths ≡ heap.old.depths }
    ensures grows { Grows heap.old heap.new [] [] }
{
    heap.is_sound();
    let at = done.len() - args;
    if args == 0 {
        return Ok(());
    }
    let head = done[at - 1];
    let r = applied(alloc, heap, head, &done[at..])?;
    done.truncate(at - 1);
    done.push(r)?;
    Ok(())
}

/// Does a task.
fn step(
    alloc: Global,
    heap: &mut Heap,
    names: &Levels,
    fixed: usize,
    to: usize,
    task: Task,
    work: &mut Vec<Task>,
    done: &mut Vec<TermId>,
) -> Result<(), AllocError>
    requires moves { IsMove names.now fixed to }
    requires ready { IsReady (naming names.now to) (length heap.old.nodes) (length done.old.items) task }
    requires done { AllOlder (length heap.old.nodes) done.old.items }
    ensures steps { OnOk result (Steps (naming names.now to) (record { heap = heap.old; work = work.old.items ++ task ∷ []; done = done.old.items }) (record { heap = heap.new; work = work.new.items; done = done.new.items })) }
    ensures done { OnOk result (AllOlder (length heap.new.nodes) done.new.items) }
    ensures variables { heap.new.depths ≡ heap.old.depths }
    ensures grows { Grows heap.old heap.new [] [] }
{
    match task {
        Task::Visit { node, base } => visit(alloc, heap, names, fixed, to, node, base, work, done),
        Task::Lam { depth } => make_lam(heap, depth, done),
        Task::App { args } => make_app(alloc, heap, args, done),
    }
}

/// The list of one task.
pub(crate) fn first_task(alloc: Global, node: TermId, base: usize) -> Result<Vec<Task>, AllocError>
    ensures { IfOk result (λ work. work.items ≡ visit_task node base ∷ []) }
{
    let mut work = Vec::new(alloc);
    work.push(Task::Visit { node, base })?;
    Ok(work)
}

/// The node with its levels moved: each below the number of names to the name that the list has for
/// it. Those below `fixed` stay; where all do, it is the same node.
pub(crate) fn moved_node(
    alloc: Global,
    heap: &mut Heap,
    names: &Levels,
    fixed: usize,
    to: usize,
    t: TermId,
) -> Result<TermId, AllocError>
    requires moves { IsMove names.now fixed to }
    requires valid { IsValid heap.old t.index (length names.now) }
    ensures moves { IfOk result (λ r. Moves heap.old names.now to t.index (length names.now) (length names.now) (value_of heap.new r)) }
    ensures there { IfOk result (λ r. r.index < length heap.new.nodes) }
    ensures variables { heap.new.depths ≡ heap.old.depths }
    ensures grows { Grows heap.old heap.new [] [] }
{
    heap.is_sound();
    let all = names.len();
    if fixed == all {
        return Ok(t);
    }
    let mut work = first_task(alloc, t, all)?;
    let mut done = Vec::new(alloc);
    while let Some(task) = work.pop() {
        step(alloc, heap, names, fixed, to, task, &mut work, &mut done)?;
    }
    match done.pop() {
        Some(r) => Ok(r),
        None => unreachable!(),
    }
}
