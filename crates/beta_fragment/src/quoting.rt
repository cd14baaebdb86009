//! Nodes for terms that are kept by their parts.
//!
//! The walk keeps a list of what is still to be done, and one of the nodes that are done, so that
//! depth is bounded by memory alone.

ghost use Rattle.std.specs.Prelude.{◌≡◌, ◌+◌, ◌<◌, ◌++◌, ℕ, List, [], ◌∷◌, length, suc, false, IfOk, OnOk, None};
ghost use Rattle.level_terms.specs.Graph.{Graph, node_at};
ghost use Rattle.level_terms.specs.Growth.{Grows};
ghost use Rattle.level_terms.specs.Reached.{IsUnreached};
ghost use Rattle.level_terms.specs.Sound.{AllOlder};
ghost use Rattle.level_terms.specs.Reading.{read};
ghost use Rattle.level_terms.specs.Valid.{IsValid};
ghost use Rattle.ref_terms.specs.terms.Term as term;
ghost use Rattle.ref_terms.specs.terms.Term.{Term, Head};
ghost use Rattle.ref_terms.specs.terms.Apply.{fill};
ghost use Rattle.ref_terms.specs.terms.Occurs.{occurs};
ghost use Rattle.beta_fragment.specs.Names.{names};
ghost use Rattle.beta_fragment.specs.Body.{IsLam};
ghost use Rattle.beta_fragment.specs.HeadForm.{IsAbstraction, rigid_head};
ghost use Rattle.level_terms.specs.Values.{value_of};
ghost use Rattle.beta_fragment.specs.inside.Cells.{terms_of, term_at};
ghost use Rattle.beta_fragment.specs.Quoted.{AllIndicesBelow, AllNamesBelow, AllHeads, IsOpenHead, put_head, names_with, IsValidIfAny};
ghost use Rattle.beta_fragment.specs.inside.Quoting.{Quotes, IsHeadOf, Item, Setting, set_for, CanVisit, IsQuoting, tasks_size, IsReady};
ghost use Rattle.level_terms.specs.declared.node.TermId.{TermId as Id};
ghost use Rattle.beta_fragment.specs.declared.answer.RigidHead.TheVariants.{Con as con_head, Int as int_head, Str as str_head};
ghost use Rattle.beta_fragment.specs.declared.quoting.Task.{Task as TaskOf};
ghost use Rattle.beta_fragment.specs.declared.quoting.Task.TheVariants.{Visit as visit_task, Lam as lam_task, App as app_task};

use crate::answer::RigidHead;
use crate::cells::{Cell, Cells};
use crate::renaming::{bare_var, sum_of};
use level_terms::{Heap, TermId, applied, made_lam, made_level};
use ref_terms::Sym;
use std::alloc::{AllocError, Global};

/// What is still to be done, under so many abstractions.
#[derive(Clone, Copy)]
pub(crate) enum Task {
    /// A term.
    Visit { t: usize, under: usize },
    /// An abstraction of the node that was done last.
    Lam { under: usize },
    /// An application of the node with this place among those that are done to the ones after it.
    App { head: usize },
}

/// The node of a constant.
fn made_con(heap: &mut Heap, c: Sym) -> Result<TermId, AllocError>
    ensures head { IfOk result (λ r. IsHeadOf (rigid_head (con_head c)) (value_of heap.new r)) }
    ensures variables { heap.new.depths ≡ heap.old.depths }
    ensures grows { Grows heap.old heap.new [] [] }
{
    let r = heap.con(c)?;
    heap.is_sound();
    Ok(r)
}

/// The node of an integer.
fn made_int(heap: &mut Heap, n: i64) -> Result<TermId, AllocError>
    ensures head { IfOk result (λ r. IsHeadOf (rigid_head (int_head n)) (value_of heap.new r)) }
    ensures variables { heap.new.depths ≡ heap.old.depths }
    ensures grows { Grows heap.old heap.new [] [] }
{
    let r = heap.int(n)?;
    heap.is_sound();
    Ok(r)
}

/// The node of a string.
fn made_text(heap: &mut Heap, s: Sym) -> Result<TermId, AllocError>
    ensures head { IfOk result (λ r. IsHeadOf (rigid_head (str_head s)) (value_of heap.new r)) }
    ensures variables { heap.new.depths ≡ heap.old.depths }
    ensures grows { Grows heap.old heap.new [] [] }
{
    let r = heap.text(s)?;
    heap.is_sound();
    Ok(r)
}

/// The node of a name, or the one in the place of the name of the depth.
fn name_node(
    heap: &mut Heap,
    depth: usize,
    put: Option<TermId>,
    n: usize,
) -> Result<TermId, AllocError>
    requires named { AllNamesBelow (names_with depth put) (term.At (term.Name n)) }
    requires put { IsValidIfAny heap.old put depth }
    ensures quotes { IfOk result (λ r. (under : ℕ) → Quotes (put_head heap.old depth put) depth under (term.At (term.Name n)) (value_of heap.new r)) }
    ensures variables { heap.new.depths ≡ heap.old.depths }
    ensures grows { Grows heap.old heap.new [] [] }
{
    heap.is_sound();
    if let Some(r) = put {
        if n == depth {
            return Ok(r);
        }
    }
    made_level(heap, n)
}

/// The node of a head that no assignment changes.
fn rigid_node(
    heap: &mut Heap,
    depth: usize,
    put: Option<TermId>,
    head: RigidHead,
) -> Result<TermId, AllocError>
    requires named { AllNamesBelow (names_with depth put) (term.At (rigid_head head)) }
    requires put { IsValidIfAny heap.old put depth }
    ensures quotes { IfOk result (λ r. (under : ℕ) → Quotes (put_head heap.old depth put) depth under (term.At (rigid_head head)) (value_of heap.new r)) }
    ensures variables { heap.new.depths ≡ heap.old.depths }
    ensures grows { Grows heap.old heap.new [] [] }
{
    match head {
        RigidHead::Con(c) => made_con(heap, c),
        RigidHead::Int(n) => made_int(heap, n),
        RigidHead::Str(s) => made_text(heap, s),
        RigidHead::Level(n) => name_node(heap, depth, put, n),
    }
}

/// The node of a bound index: the level of its abstraction.
fn index_node(heap: &mut Heap, depth: usize, under: usize, i: usize) -> Result<TermId, AllocError>
    requires { i < under }
    ensures quotes { IfOk result (λ r. (h : Head → Term) → Quotes h depth under (term.At (term.Bound i)) (value_of heap.new r)) }
    ensures variables { heap.new.depths ≡ heap.old.depths }
    ensures grows { Grows heap.old heap.new [] [] }
{
    let level = sum_of(depth, under - 1 - i)?;
    made_level(heap, level)
}

/// Does a task that visits an abstraction.
fn visit_lam(
    cells: &Cells,
    t: usize,
    under: usize,
    body: usize,
    work: &mut Vec<Task>,
) -> Result<(), AllocError>
    requires there { body < length (terms_of cells.now) }
    requires here { term_at (terms_of cells.now) t ≡ term.Lam (term_at (terms_of cells.now) body) }
    ensures steps { OnOk result ((s : Setting) (u : Item) (h : Graph) (done : List Id) → s.terms ≡ terms_of cells.now → IsQuoting s u h (work.old.items ++ visit_task t under ∷ []) done → IsQuoting s u h work.new.items done) }
    ensures smaller { OnOk result (tasks_size (terms_of cells.now) work.new.items < tasks_size (terms_of cells.now) (work.old.items ++ visit_task t under ∷ [])) }
{
    let inner = sum_of(under, 1)?;
    work.push(Task::Lam { under })?;
    work.push(Task::Visit {
        t: body,
        under: inner,
    })?;
    Ok(())
}

/// Does a task that visits an application: its head comes next, then its arguments from left to right.
fn visit_app(
    cells: &Cells,
    t: usize,
    under: usize,
    front: usize,
    last: usize,
    done: usize,
    work: &mut Vec<Task>,
) -> Result<(), AllocError>
    requires there { front < length (terms_of cells.now) }
    requires last { last < length (terms_of cells.now) }
    requires here { term_at (terms_of cells.now) t ≡ term.App (term_at (terms_of cells.now) front) (term_at (terms_of cells.now) last) }
    ensures steps { OnOk result ((s : Setting) (u : Item) (h : Graph) (ds : List Id) → length ds ≡ done → s.terms ≡ terms_of cells.now → IsQuoting s u h (work.old.items ++ visit_task t under ∷ []) ds → IsQuoting s u h work.new.items ds) }
    ensures smaller { OnOk result (tasks_size (terms_of cells.now) work.new.items < tasks_size (terms_of cells.now) (work.old.items ++ visit_task t under ∷ [])) }
{
    work.push(Task::App { head: done })?;
    work.push(Task::Visit { t: last, under })?;
    let mut head = front;
    while let Cell::App(inner, arg) = cells.get(head) {
        work.push(Task::Visit { t: arg, under })?;
        head = inner;
    }
    work.push(Task::Visit { t: head, under })?;
    Ok(())
}

/// Does a task that visits a term.
fn visit(
    heap: &mut Heap,
    cells: &Cells,
    t: usize,
    under: usize,
    depth: usize,
    put: Option<TermId>,
    work: &mut Vec<Task>,
    done: &mut Vec<TermId>,
) -> Result<(), AllocError>
    requires ready { CanVisit (set_for heap.old (terms_of cells.now) depth put) t under }
    requires put { IsValidIfAny heap.old put depth }
    ensures steps { OnOk result ((g : Graph) (u : Item) → put_head g depth put ≡ put_head heap.old depth put → IsQuoting (set_for g (terms_of cells.now) depth put) u heap.old (work.old.items ++ visit_task t under ∷ []) done.old.items → IsQuoting (set_for g (terms_of cells.now) depth put) u heap.new work.new.items done.new.items) }
    ensures smaller { OnOk result (tasks_size (terms_of cells.now) work.new.items < tasks_size (terms_of cells.now) (work.old.items ++ visit_task t under ∷ [])) }
    ensures variables { heap.new.depths ≡ heap.old.depths }
    ensures grows { Grows heap.old heap.new [] [] }
{
    heap.is_sound();
    match cells.get(t) {
        Cell::Lam(body) => visit_lam(cells, t, under, body, work),
        Cell::App(front, last) => visit_app(cells, t, under, front, last, done.len(), work),
        Cell::Rigid(head) => {
            let r = rigid_node(heap, depth, put, head)?;
            done.push(r)?;
            Ok(())
        }
        Cell::Bound(i) => {
            let r = index_node(heap, depth, under, i)?;
            done.push(r)?;
            Ok(())
        }
        Cell::Var(v) => {
            let r = bare_var(heap, v)?;
            done.push(r)?;
            Ok(())
        }
    }
}

/// Does a task that makes an abstraction.
fn finish_lam(
    heap: &mut Heap,
    depth: usize,
    under: usize,
    done: &mut Vec<TermId>,
) -> Result<(), AllocError>
    requires some { 0 < length done.old.items }
    requires done { AllOlder (length heap.old.nodes) done.old.items }
    ensures steps { OnOk result ((s : Setting) (u : Item) (work : List TaskOf) → s.depth ≡ depth → IsQuoting s u heap.old (work ++ lam_task under ∷ []) done.old.items → IsQuoting s u heap.new work done.new.items) }
    ensures variables { heap.new.depths ≡ heap.old.depths }
    ensures grows { Grows heap.old heap.new [] [] }
{
    heap.is_sound();
    let level = sum_of(depth, under)?;
    match done.pop() {
        Some(body) => {
            let r = made_lam(heap, level, body)?;
            done.push(r)?;
            Ok(())
        }
        None => unreachable!(),
    }
}

/// Does a task that makes an application.
fn finish_app(
    alloc: Global,
    heap: &mut Heap,
    head: usize,
    done: &mut Vec<TermId>,
) -> Result<(), AllocError>
    requires some { suc head < length done.old.items }
    requires done { AllOlder (length heap.old.nodes) done.old.items }
    ensures steps { OnOk result ((s : Setting) (u : Item) (work : List TaskOf) → IsQuoting s u heap.old (work ++ app_task head ∷ []) done.old.items → IsQuoting s u heap.new work done.new.items) }
    ensures variables { heap.new.depths ≡ heap.old.depths }
    ensures grows { Grows heap.old heap.new [] [] }
{
    heap.is_sound();
    let front = done[head];
    let r = applied(alloc, heap, front, &done[head + 1..])?;
    done.truncate(head);
    done.push(r)?;
    Ok(())
}

/// Does a task.
fn step(
    alloc: Global,
    heap: &mut Heap,
    cells: &Cells,
    task: Task,
    depth: usize,
    put: Option<TermId>,
    work: &mut Vec<Task>,
    done: &mut Vec<TermId>,
) -> Result<(), AllocError>
    requires ready { IsReady (set_for heap.old (terms_of cells.now) depth put) (length done.old.items) task }
    requires put { IsValidIfAny heap.old put depth }
    requires done { AllOlder (length heap.old.nodes) done.old.items }
    ensures steps { OnOk result ((g : Graph) (u : Item) → put_head g depth put ≡ put_head heap.old depth put → IsQuoting (set_for g (terms_of cells.now) depth put) u heap.old (work.old.items ++ task ∷ []) done.old.items → IsQuoting (set_for g (terms_of cells.now) depth put) u heap.new work.new.items done.new.items) }
    ensures smaller { OnOk result (tasks_size (terms_of cells.now) work.new.items < tasks_size (terms_of cells.now) (work.old.items ++ task ∷ [])) }
    ensures variables { heap.new.depths ≡ heap.old.depths }
    ensures grows { Grows heap.old heap.new [] [] }
{
    match task {
        Task::Visit { t, under } => visit(heap, cells, t, under, depth, put, work, done),
        Task::Lam { under } => finish_lam(heap, depth, under, done),
        Task::App { head } => finish_app(alloc, heap, head, done),
    }
}

/// The list of one visit.
fn one_visit(alloc: Global, t: usize, under: usize) -> Result<Vec<Task>, AllocError>
    ensures { IfOk result (λ work. work.items ≡ visit_task t under ∷ []) }
{
    let mut work = Vec::new(alloc);
    work.push(Task::Visit { t, under })?;
    Ok(work)
}

/// A node that reads as a term that stands under so many abstractions.
fn quoted_under(
    alloc: Global,
    heap: &mut Heap,
    cells: &Cells,
    t: usize,
    under: usize,
    depth: usize,
    put: Option<TermId>,
) -> Result<TermId, AllocError>
    requires ready { CanVisit (set_for heap.old (terms_of cells.now) depth put) t under }
    requires put { IsValidIfAny heap.old put depth }
    ensures quotes { IfOk result (λ r. Quotes (put_head heap.old depth put) depth under (term_at (terms_of cells.now) t) (value_of heap.new r)) }
    ensures variables { heap.new.depths ≡ heap.old.depths }
    ensures grows { Grows heap.old heap.new [] [] }
{
    heap.is_sound();
    let mut work = one_visit(alloc, t, under)?;
    let mut done = Vec::new(alloc);
    while let Some(task) = work.pop() {
        step(alloc, heap, cells, task, depth, put, &mut work, &mut done)?;
    }
    match done.pop() {
        Some(r) => Ok(r),
        None => unreachable!(),
    }
}

/// A node that reads as the term, or as the term with a node in the place of the name of the depth.
/// Without that, an abstraction is an abstraction's node, and no variable is reached that the term
/// lacks.
pub(crate) fn quoted(
    alloc: Global,
    heap: &mut Heap,
    cells: &Cells,
    t: usize,
    depth: usize,
    put: Option<TermId>,
) -> Result<TermId, AllocError>
    requires there { t < length (terms_of cells.now) }
    requires closed { AllIndicesBelow 0 (term_at (terms_of cells.now) t) }
    requires names { AllNamesBelow (names_with depth put) (term_at (terms_of cells.now) t) }
    requires variables { AllHeads (IsOpenHead heap.old) (term_at (terms_of cells.now) t) }
    requires put { IsValidIfAny heap.old put depth }
    ensures reads { IfOk result (λ r. read heap.new r.index names ≡ fill (put_head heap.old depth put) (term_at (terms_of cells.now) t)) }
    ensures valid { IfOk result (λ r. IsValid heap.new r.index depth) }
    ensures lam { IfOk result (λ r. IsAbstraction (term_at (terms_of cells.now) t) → IsLam (node_at heap.new.nodes r.index)) }
    ensures unreached { IfOk result (λ r. put ≡ None → (v : ℕ) → occurs v (term_at (terms_of cells.now) t) ≡ false → IsUnreached heap.new v r.index) }
    ensures variables { heap.new.depths ≡ heap.old.depths }
    ensures grows { Grows heap.old heap.new [] [] }
{
    if let Cell::Lam(body) = cells.get(t) {
        let inner = quoted_under(alloc, heap, cells, body, 1, depth, put)?;
        return made_lam(heap, depth, inner);
    }
    quoted_under(alloc, heap, cells, t, 0, depth, put)
}
