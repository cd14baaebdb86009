//! What nodes read as, kept by its parts.
//!
//! The walk keeps a list of what is still to be done, and one of the terms that are done, so that
//! depth is bounded by memory alone. An abstraction that is entered changes what one level stands
//! for, and what it stood for before comes back with the abstraction's task.

ghost use Rattle.std.specs.Prelude.{◌≡◌, ℕ, ◌+◌, ◌<◌, ◌≤◌, [], ◌∷◌, ◌++◌, List, length, map, IfOk, OnOk, reverse, None, Some};
ghost use Rattle.level_terms.specs.Graph.{node_at};
ghost use Rattle.level_terms.specs.Laws.{ArePlaces};
ghost use Rattle.level_terms.specs.Valid.{IsValid};
ghost use Rattle.level_terms.specs.Reading.{read, levels as levels_below};
ghost use Rattle.level_terms.specs.declared.node.Node.TheVariants.{Lam as lam_node, App as app_node, Var as var_node, Level as level_node};
ghost use Rattle.ref_terms.specs.terms.Term as term;
ghost use Rattle.ref_terms.specs.terms.Term.{Term};
ghost use Rattle.ref_terms.specs.unification.Spine.{apply_all};
ghost use Rattle.beta_fragment.specs.Names.{renamed};
ghost use Rattle.beta_fragment.specs.HeadForm.{all_read, AllValidAt, rigid_head};
ghost use Rattle.beta_fragment.specs.inside.Cells.{terms_of, term_at, cell_term, HasParts, Gains, IsKept};
ghost use Rattle.beta_fragment.specs.Quoted.{AllHeads, IsOpenHead};
ghost use Rattle.beta_fragment.specs.inside.Evaluation.{entry_term, entries_env, IsPlaced, AllPlaced, entries_before, IsEntered, CanVisit, Steps, done_terms, AreDone, IsReady, arg_tasks};
ghost use Rattle.beta_fragment.specs.declared.evaluating.Task.{Task as TaskOf};
ghost use Rattle.beta_fragment.specs.declared.evaluating.Task.TheVariants.{Visit as visit_task, Lam as lam_task, App as app_task};
ghost use Rattle.beta_fragment.specs.declared.evaluating.Entry.{Entry as EntryOf};
ghost use Rattle.beta_fragment.specs.declared.evaluating.Entry.TheVariants.{Named as named_entry};

use crate::answer::RigidHead;
use crate::applying::{abstracted_term, applied_term};
use crate::cells::{Cell, Cells};
use crate::levels::Levels;
use crate::renaming::sum_of;
use level_terms::{Heap, Node, TermId, VarId};
use std::alloc::{AllocError, Global};

/// What a level stands for.
#[derive(Clone, Copy)]
enum Entry {
    /// A name.
    Named(usize),
    /// The index of an abstraction, by how many stand around it.
    Placed(usize),
}

/// What is still to be done.
#[derive(Clone, Copy)]
enum Task {
    /// The term of the node.
    Visit(TermId),
    /// The abstraction of the term that was done last. Its level stands again for what it did before.
    Lam { made: usize, before: Option<Entry> },
    /// The application of the term before the last one to the last one.
    App,
}

/// The reading of a node whose levels are renamed, applied to those of others, the last one first.
pub(crate) fn evaluated(
    alloc: Global,
    heap: &Heap,
    cells: &mut Cells,
    head: TermId,
    levels: &Levels,
    args: &[TermId],
    depth: usize,
) -> Result<usize, AllocError>
    requires head { IsValid heap.now head.index (length levels.now) }
    requires args { AllValidAt heap.now (reverse args.now) depth }
    ensures reads { IfOk result (λ r. IsKept (terms_of cells.new) r (apply_all (read heap.now head.index (renamed levels.now)) (all_read heap.now (reverse args.now)))) }
    ensures variables { IfOk result (λ r. AllHeads (IsOpenHead heap.now) (term_at (terms_of cells.new) r)) }
    ensures gains { Gains (terms_of cells.old) (terms_of cells.new) }
{
    let inner = Levels::own(alloc, depth);
    let mut r = evaluated_node(alloc, heap, cells, head, levels)?;
    let mut i = args.len();
    while i > 0 {
        i -= 1;
        let a = evaluated_node(alloc, heap, cells, args[i], &inner)?;
        r = applied_term(alloc, cells, r, a)?;
    }
    Ok(r)
}

/// The reading of a node whose levels are renamed.
fn evaluated_node(
    alloc: Global,
    heap: &Heap,
    cells: &mut Cells,
    node: TermId,
    levels: &Levels,
) -> Result<usize, AllocError>
    requires { IsValid heap.now node.index (length levels.now) }
    ensures reads { IfOk result (λ r. IsKept (terms_of cells.new) r (read heap.now node.index (renamed levels.now))) }
    ensures variables { IfOk result (λ r. AllHeads (IsOpenHead heap.now) (term_at (terms_of cells.new) r)) }
    ensures gains { Gains (terms_of cells.old) (terms_of cells.new) }
{
    let mut entries = named_entries(alloc, levels)?;
    let mut under = 0;
    let mut work = first_task(alloc, node)?;
    let mut done = Vec::new(alloc);
    while let Some(task) = work.pop() {
        step(
            alloc,
            heap,
            cells,
            task,
            &mut work,
            &mut entries,
            &mut under,
            &mut done,
        )?;
    }
    match done.pop() {
        Some(r) => Ok(r),
        None => unreachable!(),
    }
}

/// Each level stands for its name.
fn named_entries(alloc: Global, levels: &Levels) -> Result<Vec<Entry>, AllocError>
    ensures { IfOk result (λ entries. entries.items ≡ map named_entry levels.now) }
{
    let mut entries = Vec::new(alloc);
    for level in 0..levels.len() {
        entries.push(Entry::Named(levels.name(level)))?;
    }
    Ok(entries)
}

/// The list of one task.
fn first_task(alloc: Global, node: TermId) -> Result<Vec<Task>, AllocError>
    ensures { IfOk result (λ work. work.items ≡ visit_task node ∷ []) }
{
    let mut work = Vec::new(alloc);
    work.push(Task::Visit(node))?;
    Ok(work)
}

/// Does a task.
fn step(
    alloc: Global,
    heap: &Heap,
    cells: &mut Cells,
    task: Task,
    work: &mut Vec<Task>,
    entries: &mut Vec<Entry>,
    under: &mut usize,
    done: &mut Vec<usize>,
) -> Result<(), AllocError>
    requires ready { IsReady heap.now entries.old.items under.old (length done.old.items) task }
    requires done { AreDone heap.now (terms_of cells.old) (reverse done.old.items) }
    ensures steps { OnOk result (Steps heap.now (record { work = work.old.items ++ task ∷ []; entries = entries.old.items; under = under.old; terms = done_terms (terms_of cells.old) done.old.items }) (record { work = work.new.items; entries = entries.new.items; under = under.new; terms = done_terms (terms_of cells.new) done.new.items })) }
    ensures done { OnOk result (AreDone heap.now (terms_of cells.new) (reverse done.new.items)) }
    ensures gains { Gains (terms_of cells.old) (terms_of cells.new) }
{
    match task {
        Task::Visit(node) => visit(alloc, heap, cells, node, work, entries, under, done),
        Task::Lam { made, before } => {
            make_lam(alloc, heap, cells, made, before, entries, under, done)
        }
        Task::App => make_app(alloc, heap, cells, done),
    }
}

/// Does a task that makes an application.
fn make_app(
    alloc: Global,
    heap: &Heap,
    cells: &mut Cells,
    done: &mut Vec<usize>,
) -> Result<(), AllocError>
    requires some { 1 < length done.old.items }
    requires done { AreDone heap.now (terms_of cells.old) (reverse done.old.items) }
    ensures steps { OnOk result ((work : List TaskOf) (entries : List EntryOf) (under : ℕ) → Steps heap.now (record { work = work ++ app_task ∷ []; entries = entries; under = under; terms = done_terms (terms_of cells.old) done.old.items }) (record { work = work; entries = entries; under = under; terms = done_terms (terms_of cells.new) done.new.items })) }
    ensures done { OnOk result (AreDone heap.now (terms_of cells.new) (reverse done.new.items)) }
    ensures gains { Gains (terms_of cells.old) (terms_of cells.new) }
{
    match done.pop() {
        Some(a) => match done.pop() {
            Some(f) => {
                let r = applied_term(alloc, cells, f, a)?;
                done.push(r)?;
                Ok(())
            }
            None => unreachable!(),
        },
        None => unreachable!(),
    }
}

/// Does a task that makes an abstraction.
fn make_lam(
    alloc: Global,
    heap: &Heap,
    cells: &mut Cells,
    made: usize,
    before: Option<Entry>,
    entries: &mut Vec<Entry>,
    under: &mut usize,
    done: &mut Vec<usize>,
) -> Result<(), AllocError>
    requires made { made < length entries.old.items }
    requires inside { 0 < under.old }
    requires some { 0 < length done.old.items }
    requires done { AreDone heap.now (terms_of cells.old) (reverse done.old.items) }
    ensures steps { OnOk result ((work : List TaskOf) → Steps heap.now (record { work = work ++ lam_task made before ∷ []; entries = entries.old.items; under = under.old; terms = done_terms (terms_of cells.old) done.old.items }) (record { work = work; entries = entries.new.items; under = under.new; terms = done_terms (terms_of cells.new) done.new.items })) }
    ensures done { OnOk result (AreDone heap.now (terms_of cells.new) (reverse done.new.items)) }
    ensures gains { Gains (terms_of cells.old) (terms_of cells.new) }
{
    match done.pop() {
        Some(body) => {
            let r = abstracted_term(alloc, cells, body)?;
            done.push(r)?;
            *under -= 1;
            leave(entries, made, before);
            Ok(())
        }
        None => unreachable!(),
    }
}

/// The level of an abstraction stands again for what it did before.
fn leave(entries: &mut Vec<Entry>, made: usize, before: Option<Entry>)
    requires { made < length entries.old.items }
    ensures { entries.new.items ≡ entries_before entries.old.items made before }
{
    match before {
        Some(entry) => entries[made] = entry,
        None => entries.truncate(made),
    }
}

/// The level of an abstraction stands for its index. What it stood for before is answered.
fn enter(entries: &mut Vec<Entry>, made: usize, under: usize) -> Result<Option<Entry>, AllocError>
    requires { made ≤ length entries.old.items }
    ensures { IfOk result (λ before. IsEntered entries.old.items entries.new.items made under before) }
{
    if made < entries.len() {
        let before = entries[made];
        entries[made] = Entry::Placed(under);
        return Ok(Some(before));
    }
    entries.push(Entry::Placed(under))?;
    Ok(None)
}

/// Does a task that visits a node.
fn visit(
    alloc: Global,
    heap: &Heap,
    cells: &mut Cells,
    node: TermId,
    work: &mut Vec<Task>,
    entries: &mut Vec<Entry>,
    under: &mut usize,
    done: &mut Vec<usize>,
) -> Result<(), AllocError>
    requires ready { CanVisit heap.now node.index entries.old.items under.old }
    requires done { AreDone heap.now (terms_of cells.old) (reverse done.old.items) }
    ensures steps { OnOk result (Steps heap.now (record { work = work.old.items ++ visit_task node ∷ []; entries = entries.old.items; under = under.old; terms = done_terms (terms_of cells.old) done.old.items }) (record { work = work.new.items; entries = entries.new.items; under = under.new; terms = done_terms (terms_of cells.new) done.new.items })) }
    ensures done { OnOk result (AreDone heap.now (terms_of cells.new) (reverse done.new.items)) }
    ensures gains { Gains (terms_of cells.old) (terms_of cells.new) }
{
    heap.is_sound();
    match heap.view(node) {
        Node::Con(c) => visit_head(heap, cells, node, RigidHead::Con(*c), done),
        Node::Int(n) => visit_head(heap, cells, node, RigidHead::Int(*n), done),
        Node::Str(s) => visit_head(heap, cells, node, RigidHead::Str(*s), done),
        Node::Level(level) => {
            visit_level(heap, cells, node, *level, entries.as_slice(), *under, done)
        }
        Node::Lam { depth, body } => { visit_lam(heap, node, *depth, *body, work, entries, under) }
        Node::App { head, args } => visit_app(
            heap,
            node,
            *head,
            args.as_slice(),
            entries.as_slice(),
            *under,
            work,
        ),
        Node::Var(v) => visit_var(
            alloc,
            heap,
            cells,
            node,
            *v,
            work,
            entries.as_slice(),
            *under,
            done,
        ),
    }
}

/// Does a task that visits a head that no assignment changes.
fn visit_head(
    heap: &Heap,
    cells: &mut Cells,
    node: TermId,
    head: RigidHead,
    done: &mut Vec<usize>,
) -> Result<(), AllocError>
    requires reads { (env : ℕ → Term) → ArePlaces env → read heap.now node.index env ≡ term.At (rigid_head head) }
    requires done { AreDone heap.now (terms_of cells.old) (reverse done.old.items) }
    ensures steps { OnOk result ((work : List TaskOf) (entries : List EntryOf) (under : ℕ) → Steps heap.now (record { work = work ++ visit_task node ∷ []; entries = entries; under = under; terms = done_terms (terms_of cells.old) done.old.items }) (record { work = work; entries = entries; under = under; terms = done_terms (terms_of cells.new) done.new.items })) }
    ensures done { OnOk result (AreDone heap.now (terms_of cells.new) (reverse done.new.items)) }
    ensures gains { Gains (terms_of cells.old) (terms_of cells.new) }
{
    let r = kept_cell(cells, Cell::Rigid(head))?;
    done.push(r)?;
    Ok(())
}

/// Does a task that visits a level.
fn visit_level(
    heap: &Heap,
    cells: &mut Cells,
    node: TermId,
    level: usize,
    entries: &[Entry],
    under: usize,
    done: &mut Vec<usize>,
) -> Result<(), AllocError>
    requires here { node_at heap.now.nodes node.index ≡ Some (level_node level) }
    requires ready { CanVisit heap.now node.index entries.now under }
    requires done { AreDone heap.now (terms_of cells.old) (reverse done.old.items) }
    ensures steps { OnOk result ((work : List TaskOf) → Steps heap.now (record { work = work ++ visit_task node ∷ []; entries = entries.now; under = under; terms = done_terms (terms_of cells.old) done.old.items }) (record { work = work; entries = entries.now; under = under; terms = done_terms (terms_of cells.new) done.new.items })) }
    ensures done { OnOk result (AreDone heap.now (terms_of cells.new) (reverse done.new.items)) }
    ensures gains { Gains (terms_of cells.old) (terms_of cells.new) }
{
    heap.is_sound();
    let r = level_term(cells, entries, under, level)?;
    done.push(r)?;
    Ok(())
}

/// Does a task that visits an abstraction.
fn visit_lam(
    heap: &Heap,
    node: TermId,
    made: usize,
    body: TermId,
    work: &mut Vec<Task>,
    entries: &mut Vec<Entry>,
    under: &mut usize,
) -> Result<(), AllocError>
    requires here { node_at heap.now.nodes node.index ≡ Some (lam_node made body) }
    requires ready { CanVisit heap.now node.index entries.old.items under.old }
    ensures { OnOk result ((terms : List Term) → Steps heap.now (record { work = work.old.items ++ visit_task node ∷ []; entries = entries.old.items; under = under.old; terms = terms }) (record { work = work.new.items; entries = entries.new.items; under = under.new; terms = terms })) }
{
    heap.is_sound();
    let inner = sum_of(*under, 1)?;
    let before = enter(entries, made, *under)?;
    *under = inner;
    work.push(Task::Lam { made, before })?;
    work.push(Task::Visit(body))?;
    Ok(())
}

/// Does a task that visits an application.
fn visit_app(
    heap: &Heap,
    node: TermId,
    head: TermId,
    args: &[TermId],
    entries: &[Entry],
    under: usize,
    work: &mut Vec<Task>,
) -> Result<(), AllocError>
    requires here { node_at heap.now.nodes node.index ≡ Some (app_node head args.now) }
    requires ready { CanVisit heap.now node.index entries.now under }
    ensures { OnOk result ((terms : List Term) → Steps heap.now (record { work = work.old.items ++ visit_task node ∷ []; entries = entries.now; under = under; terms = terms }) (record { work = work.new.items; entries = entries.now; under = under; terms = terms })) }
{
    heap.is_sound();
    push_args(args, work)?;
    work.push(Task::Visit(head))?;
    Ok(())
}

/// Puts applications to nodes onto the work list, the first one last.
fn push_args(args: &[TermId], work: &mut Vec<Task>) -> Result<(), AllocError>
    ensures { OnOk result (work.new.items ≡ work.old.items ++ reverse (arg_tasks args.now)) }
{
    let mut i = args.len();
    while i > 0 {
        i -= 1;
        work.push(Task::App)?;
        work.push(Task::Visit(args[i]))?;
    }
    Ok(())
}

/// Does a task that visits a variable.
fn visit_var(
    alloc: Global,
    heap: &Heap,
    cells: &mut Cells,
    node: TermId,
    v: VarId,
    work: &mut Vec<Task>,
    entries: &[Entry],
    under: usize,
    done: &mut Vec<usize>,
) -> Result<(), AllocError>
    requires here { node_at heap.now.nodes node.index ≡ Some (var_node v) }
    requires known { v.index < length heap.now.depths }
    requires ready { CanVisit heap.now node.index entries.now under }
    requires done { AreDone heap.now (terms_of cells.old) (reverse done.old.items) }
    ensures steps { OnOk result (Steps heap.now (record { work = work.old.items ++ visit_task node ∷ []; entries = entries.now; under = under; terms = done_terms (terms_of cells.old) done.old.items }) (record { work = work.new.items; entries = entries.now; under = under; terms = done_terms (terms_of cells.new) done.new.items })) }
    ensures done { OnOk result (AreDone heap.now (terms_of cells.new) (reverse done.new.items)) }
    ensures gains { Gains (terms_of cells.old) (terms_of cells.new) }
{
    heap.is_sound();
    if let Some(value) = heap.value(v) {
        work.push(Task::Visit(value))?;
        return Ok(());
    }
    let depth = heap.var_depth(v);
    let r = var_term(alloc, cells, v, depth, entries, under)?;
    done.push(r)?;
    Ok(())
}

/// A variable applied to the levels below a depth.
fn var_term(
    alloc: Global,
    cells: &mut Cells,
    v: VarId,
    depth: usize,
    entries: &[Entry],
    under: usize,
) -> Result<usize, AllocError>
    requires within { depth ≤ length entries.now }
    requires placed { AllPlaced entries.now under }
    ensures kept { IfOk result (λ r. IsKept (terms_of cells.new) r (apply_all (term.At (term.Var v.index)) (levels_below depth (entries_env entries.now under)))) }
    ensures gains { Gains (terms_of cells.old) (terms_of cells.new) }
{
    let mut r = kept_cell(cells, Cell::Var(v))?;
    for level in 0..depth {
        let a = level_term(cells, entries, under, level)?;
        r = applied_term(alloc, cells, r, a)?;
    }
    Ok(r)
}

/// What a level stands for.
fn level_term(
    cells: &mut Cells,
    entries: &[Entry],
    under: usize,
    level: usize,
) -> Result<usize, AllocError>
    requires within { level < length entries.now }
    requires placed { AllPlaced entries.now under }
    ensures kept { IfOk result (λ r. IsKept (terms_of cells.new) r (entries_env entries.now under level)) }
    ensures gains { Gains (terms_of cells.old) (terms_of cells.new) }
{
    let cell = entry_cell(entries[level], under);
    kept_cell(cells, cell)
}

/// What an entry stands for under so many abstractions.
fn entry_cell(entry: Entry, under: usize) -> Cell
    requires { IsPlaced under entry }
    ensures parts { (n : ℕ) → HasParts n result }
    ensures term { (ts : List Term) → cell_term ts result ≡ entry_term under entry }
{
    match entry {
        Entry::Named(n) => Cell::Rigid(RigidHead::Level(n)),
        Entry::Placed(p) => Cell::Bound(under - 1 - p),
    }
}

/// Adds a term.
fn kept_cell(cells: &mut Cells, cell: Cell) -> Result<usize, AllocError>
    requires { HasParts (length (terms_of cells.old)) cell }
    ensures kept { IfOk result (λ r. IsKept (terms_of cells.new) r (cell_term (terms_of cells.old) cell)) }
    ensures gains { Gains (terms_of cells.old) (terms_of cells.new) }
{
    let r = cells.add(cell)?;
    Ok(r)
}
