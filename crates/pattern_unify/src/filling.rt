//! Nodes made anew with the values of their variables.
//!
//! A list that a program has built has a variable in each of its cells, so that a look through it is
//! as long as the list. In a node that is made anew, with values in the places of the variables,
//! there may be nothing left that can change, and then it is passed over by later looks.
//!
//! The walk keeps a list of what is still to be done, and one of the nodes that are done, so that
//! depth is bounded by memory alone. Nodes in which nothing can change are shared.

ghost use Rattle.std.specs.Prelude.{◌≡◌, ◌<◌, ◌≤◌, List, [], ◌∷◌, ◌++◌, length, map, reverse, IfOk, OnOk, Some};
ghost use Rattle.level_terms.specs.Graph.{node_at};
ghost use Rattle.level_terms.specs.Growth.{Grows};
ghost use Rattle.level_terms.specs.Sound.{AllOlder, IsHead};
ghost use Rattle.level_terms.specs.Values.{value_of};
ghost use Rattle.level_terms.specs.declared.node.TermId.{TermId as Id};
ghost use Rattle.level_terms.specs.declared.node.Node.TheVariants.{App as app_node, Var as var_node};
ghost use Rattle.pattern_unify.specs.inside.Filling.{Fills, Steps, IsReady, visits};
ghost use Rattle.pattern_unify.specs.declared.filling.Task.{Task as TaskOf};
ghost use Rattle.pattern_unify.specs.declared.filling.Task.TheVariants.{Visit as visit_task, App as app_task};

use level_terms::{Heap, Node, TermId, VarId, made_app};
use std::alloc::{AllocError, Global};

/// What is still to be done.
#[derive(Clone, Copy)]
enum Task {
    /// The node, with the values of its variables.
    Visit { node: TermId },
    /// An application of the head to so many nodes that were done last.
    App { head: TermId, args: usize },
}

/// A node that reads as this one, with the values of variables in their places, as far as no
/// abstraction is looked into.
pub(crate) fn filled(alloc: Global, heap: &mut Heap, t: TermId) -> Result<TermId, AllocError>
    requires { t.index < length heap.old.nodes }
    ensures fills { IfOk result (λ r. Fills heap.old t.index (value_of heap.new r)) }
    ensures there { IfOk result (λ r. r.index < length heap.new.nodes) }
    ensures variables { heap.new.depths ≡ heap.old.depths }
    ensures grows { Grows heap.old heap.new [] [] }
{
    heap.is_sound();
    let mut work = first_task(alloc, t)?;
    let mut done = Vec::new(alloc);
    while let Some(task) = work.pop() {
        step(heap, task, &mut work, &mut done)?;
    }
    match done.pop() {
        Some(r) => Ok(r),
        None => unreachable!(),
    }
}

/// The list of one visit.
fn first_task(alloc: Global, node: TermId) -> Result<Vec<Task>, AllocError>
    ensures { IfOk result (λ work. work.items ≡ visit_task node ∷ []) }
{
    let mut work = Vec::new(alloc);
    work.push(Task::Visit { node })?;
    Ok(work)
}

/// Does a task.
fn step(
    heap: &mut Heap,
    task: Task,
    work: &mut Vec<Task>,
    done: &mut Vec<TermId>,
) -> Result<(), AllocError>
    requires ready { IsReady heap.old (length done.old.items) task }
    requires done { AllOlder (length heap.old.nodes) done.old.items }
    ensures steps { OnOk result (Steps (record { heap = heap.old; work = work.old.items ++ task ∷ []; done = done.old.items }) (record { heap = heap.new; work = work.new.items; done = done.new.items })) }
    ensures done { OnOk result (AllOlder (length heap.new.nodes) done.new.items) }
    ensures variables { heap.new.depths ≡ heap.old.depths }
    ensures grows { Grows heap.old heap.new [] [] }
{
    match task {
        Task::Visit { node } => visit(heap, node, work, done),
        Task::App { head, args } => make_app(heap, head, args, done),
    }
}

/// Does a task that visits a node.
fn visit(
    heap: &Heap,
    node: TermId,
    work: &mut Vec<Task>,
    done: &mut Vec<TermId>,
) -> Result<(), AllocError>
    requires there { node.index < length heap.now.nodes }
    requires done { AllOlder (length heap.now.nodes) done.old.items }
    ensures steps { OnOk result (Steps (record { heap = heap.now; work = work.old.items ++ visit_task node ∷ []; done = done.old.items }) (record { heap = heap.now; work = work.new.items; done = done.new.items })) }
    ensures done { OnOk result (AllOlder (length heap.now.nodes) done.new.items) }
{
    heap.is_sound();
    if heap.is_ground_normal(node) {
        return keep(heap, node, done);
    }
    match heap.view(node) {
        Node::Var(v) => visit_var(heap, node, *v, work, done),
        Node::App { head, args } => visit_app(heap, node, *head, args.as_slice(), work),
        _ => keep(heap, node, done),
    }
}

/// Does a task that visits a node which is shared.
fn keep(heap: &Heap, node: TermId, done: &mut Vec<TermId>) -> Result<(), AllocError>
    requires there { node.index < length heap.now.nodes }
    requires done { AllOlder (length heap.now.nodes) done.old.items }
    ensures steps { OnOk result ((work : List TaskOf) → Steps (record { heap = heap.now; work = work ++ visit_task node ∷ []; done = done.old.items }) (record { heap = heap.now; work = work; done = done.new.items })) }
    ensures done { OnOk result (AllOlder (length heap.now.nodes) done.new.items) }
{
    heap.is_sound();
    done.push(node)?;
    Ok(())
}

/// Does a task that visits a variable: its value is visited, where it has one.
fn visit_var(
    heap: &Heap,
    node: TermId,
    v: VarId,
    work: &mut Vec<Task>,
    done: &mut Vec<TermId>,
) -> Result<(), AllocError>
    requires here { node_at heap.now.nodes node.index ≡ Some (var_node v) }
    requires there { node.index < length heap.now.nodes }
    requires known { v.index < length heap.now.depths }
    requires done { AllOlder (length heap.now.nodes) done.old.items }
    ensures steps { OnOk result (Steps (record { heap = heap.now; work = work.old.items ++ visit_task node ∷ []; done = done.old.items }) (record { heap = heap.now; work = work.new.items; done = done.new.items })) }
    ensures done { OnOk result (AllOlder (length heap.now.nodes) done.new.items) }
{
    match heap.value(v) {
        Some(value) => {
            work.push(Task::Visit { node: value })?;
            Ok(())
        }
        None => keep(heap, node, done),
    }
}

/// Does a task that visits an application: its arguments come next, from left to right.
fn visit_app(
    heap: &Heap,
    node: TermId,
    head: TermId,
    args: &[TermId],
    work: &mut Vec<Task>,
) -> Result<(), AllocError>
    requires here { node_at heap.now.nodes node.index ≡ Some (app_node head args.now) }
    ensures steps { OnOk result ((done : List Id) → Steps (record { heap = heap.now; work = work.old.items ++ visit_task node ∷ []; done = done }) (record { heap = heap.now; work = work.new.items; done = done })) }
{
    heap.is_sound();
    work.push(Task::App {
        head,
        args: args.len(),
    })?;
    push_visits(args, work)
}

/// Puts visits of nodes onto the work list, the first one last.
fn push_visits(nodes: &[TermId], work: &mut Vec<Task>) -> Result<(), AllocError>
    ensures { OnOk result (work.new.items ≡ work.old.items ++ reverse (visits nodes.now)) }
{
    let mut i = nodes.len();
    while i > 0 {
        i -= 1;
        work.push(Task::Visit { node: nodes[i] })?;
    }
    Ok(())
}

/// Does a task that makes an application.
fn make_app(
    heap: &mut Heap,
    head: TermId,
    args: usize,
    done: &mut Vec<TermId>,
) -> Result<(), AllocError>
    requires ready { IsReady heap.old (length done.old.items) (app_task head args) }
    requires done { AllOlder (length heap.old.nodes) done.old.items }
    ensures steps { OnOk result ((work : List TaskOf) → Steps (record { heap = heap.old; work = work ++ app_task head args ∷ []; done = done.old.items }) (record { heap = heap.new; work = work; done = done.new.items })) }
    ensures done { OnOk result (AllOlder (length heap.new.nodes) done.new.items) }
    ensures variables { heap.new.depths ≡ heap.old.depths }
    ensures grows { Grows heap.old heap.new [] [] }
{
    heap.is_sound();
    let at = done.len() - args;
    let r = made_app(heap, head, &done[at..])?;
    done.truncate(at);
    done.push(r)?;
    Ok(())
}
