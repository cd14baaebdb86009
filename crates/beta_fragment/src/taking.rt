//! A term with others in the place of its free indices.

ghost use Rattle.std.specs.Prelude.{◌≡◌, ℕ, [], ◌∷◌, ◌<◌, ◌≤◌, List, length, reverse, Some, IfOk, OnOk, true};
ghost use Rattle.ref_terms.specs.terms.Term as term;
ghost use Rattle.ref_terms.specs.terms.Term.{Term};
ghost use Rattle.ref_terms.specs.terms.Index.{sub, first};
ghost use Rattle.ref_terms.specs.terms.Eta.{lower};
ghost use Rattle.beta_fragment.specs.inside.Cells.{terms_of, term_at, Gains, IsKept, IsKeptIfAny};
ghost use Rattle.beta_fragment.specs.inside.Taking.{replaced, images, outside, raised, IsImage, IsHeadTerm, PartThere, AllThere, Steps, IsReady};
ghost use Rattle.beta_fragment.specs.declared.taking.Task.{Task as TaskOf};
ghost use Rattle.beta_fragment.specs.declared.taking.Task.TheVariants.{Visit as visit_task, Lam as lam_task, App as app_task};
ghost use Rattle.beta_fragment.specs.declared.taking.Replacement.TheVariants.{Part as part_put};

use crate::cells::{Cell, Cells};
use crate::renaming::sum_of;
use std::alloc::{AllocError, Global};

/// What is put in the place of indices.
#[derive(Clone, Copy)]
enum Replacement {
    /// A term for index 0; the others are one lower.
    Part(usize),
    /// Nothing for index 0: where that is in a term, there is no answer. The others are one lower.
    Missing,
    /// Each index is so many higher.
    Raised(usize),
}

/// What is in the place of one index.
#[derive(Clone, Copy)]
enum Instead {
    /// An index.
    Index(usize),
    /// A term, with its indices so many higher.
    Other(usize, usize),
    /// Nothing.
    Nothing,
}

/// What is still to be done.
#[derive(Clone, Copy)]
enum Task {
    /// The term, under so many abstractions.
    Visit {
        put: Replacement,
        part: usize,
        under: usize,
    },
    /// An abstraction of what was done last.
    Lam,
    /// An application to what was done last, of what was done before it.
    App,
}

/// What is in the place of an index that is bound outside, under so many abstractions.
fn image(put: Replacement, under: usize, i: usize) -> Result<Instead, AllocError>
    requires { under ≤ i }
    ensures { IfOk result (λ image. (ts : List Term) → IsImage ts put (images ts put under i) image) }
{
    match put {
        Replacement::Raised(j) => {
            let index = sum_of(i, j)?;
            Ok(Instead::Index(index))
        }
        Replacement::Missing => {
            if under < i {
                return Ok(Instead::Index(i - 1));
            }
            Ok(Instead::Nothing)
        }
        Replacement::Part(p) => {
            if under < i {
                return Ok(Instead::Index(i - 1));
            }
            Ok(Instead::Other(p, under))
        }
    }
}

/// Does a task that visits an index which gets another.
fn visit_other_index(
    cells: &mut Cells,
    put: Replacement,
    part: usize,
    under: usize,
    j: usize,
    done: &mut Vec<usize>,
) -> Result<bool, AllocError>
    requires there { part < length (terms_of cells.old) }
    requires becomes { replaced (images (terms_of cells.old) put under) (term_at (terms_of cells.old) part) ≡ Some (term.At (term.Bound j)) }
    requires done { AllThere (length (terms_of cells.old)) (reverse done.old.items) }
    ensures steps { IfOk result (λ more. (work : List TaskOf) → Steps more (record { terms = terms_of cells.old; work = visit_task put part under ∷ work; done = reverse done.old.items }) (record { terms = terms_of cells.new; work = work; done = reverse done.new.items })) }
    ensures done { OnOk result (AllThere (length (terms_of cells.new)) (reverse done.new.items)) }
    ensures gains { Gains (terms_of cells.old) (terms_of cells.new) }
{
    let r = cells.add(Cell::Bound(j))?;
    done.push(r)?;
    Ok(true)
}

/// Does a task that visits an index which gets a term: it is raised, if need be.
fn visit_part(
    cells: &Cells,
    put: Replacement,
    part: usize,
    under: usize,
    p: usize,
    k: usize,
    work: &mut Vec<Task>,
    done: &mut Vec<usize>,
) -> Result<bool, AllocError>
    requires there { p < length (terms_of cells.now) }
    requires is_part { put ≡ part_put p }
    requires head { IsHeadTerm (term_at (terms_of cells.now) part) }
    requires becomes { replaced (images (terms_of cells.now) put under) (term_at (terms_of cells.now) part) ≡ Some (raised k (term_at (terms_of cells.now) p)) }
    requires done { AllThere (length (terms_of cells.now)) (reverse done.old.items) }
    ensures steps { IfOk result (λ more. Steps more (record { terms = terms_of cells.now; work = visit_task put part under ∷ reverse work.old.items; done = reverse done.old.items }) (record { terms = terms_of cells.now; work = reverse work.new.items; done = reverse done.new.items })) }
    ensures done { OnOk result (AllThere (length (terms_of cells.now)) (reverse done.new.items)) }
{
    if k == 0 {
        done.push(p)?;
        return Ok(true);
    }
    work.push(Task::Visit {
        put: Replacement::Raised(k),
        part: p,
        under: 0,
    })?;
    Ok(true)
}

/// Does a task that visits an index that is bound outside. Answers whether there is a term.
fn visit_index(
    cells: &mut Cells,
    put: Replacement,
    part: usize,
    under: usize,
    i: usize,
    work: &mut Vec<Task>,
    done: &mut Vec<usize>,
) -> Result<bool, AllocError>
    requires there { part < length (terms_of cells.old) }
    requires put { PartThere (length (terms_of cells.old)) put }
    requires here { term_at (terms_of cells.old) part ≡ term.At (term.Bound i) }
    requires outside { under ≤ i }
    requires done { AllThere (length (terms_of cells.old)) (reverse done.old.items) }
    ensures steps { IfOk result (λ more. Steps more (record { terms = terms_of cells.old; work = visit_task put part under ∷ reverse work.old.items; done = reverse done.old.items }) (record { terms = terms_of cells.new; work = reverse work.new.items; done = reverse done.new.items })) }
    ensures done { OnOk result (AllThere (length (terms_of cells.new)) (reverse done.new.items)) }
    ensures gains { Gains (terms_of cells.old) (terms_of cells.new) }
{
    match image(put, under, i)? {
        Instead::Index(j) => visit_other_index(cells, put, part, under, j, done),
        Instead::Other(p, k) => visit_part(cells, put, part, under, p, k, work, done),
        Instead::Nothing => Ok(false),
    }
}

/// Does a task that visits a term that stays.
fn keep(
    cells: &Cells,
    put: Replacement,
    part: usize,
    under: usize,
    done: &mut Vec<usize>,
) -> Result<bool, AllocError>
    requires there { part < length (terms_of cells.now) }
    requires stays { replaced (images (terms_of cells.now) put under) (term_at (terms_of cells.now) part) ≡ Some (term_at (terms_of cells.now) part) }
    requires done { AllThere (length (terms_of cells.now)) (reverse done.old.items) }
    ensures steps { IfOk result (λ more. (work : List TaskOf) → Steps more (record { terms = terms_of cells.now; work = visit_task put part under ∷ work; done = reverse done.old.items }) (record { terms = terms_of cells.now; work = work; done = reverse done.new.items })) }
    ensures done { OnOk result (AllThere (length (terms_of cells.now)) (reverse done.new.items)) }
{
    done.push(part)?;
    Ok(true)
}

/// Does a task that visits an abstraction.
fn visit_lam(
    cells: &Cells,
    put: Replacement,
    part: usize,
    under: usize,
    body: usize,
    work: &mut Vec<Task>,
) -> Result<bool, AllocError>
    requires there { part < length (terms_of cells.now) }
    requires body { body < part }
    requires here { term_at (terms_of cells.now) part ≡ term.Lam (term_at (terms_of cells.now) body) }
    ensures { IfOk result (λ more. (done : List ℕ) → Steps more (record { terms = terms_of cells.now; work = visit_task put part under ∷ reverse work.old.items; done = done }) (record { terms = terms_of cells.now; work = reverse work.new.items; done = done })) }
{
    let inner = sum_of(under, 1)?;
    work.push(Task::Lam)?;
    work.push(Task::Visit {
        put,
        part: body,
        under: inner,
    })?;
    Ok(true)
}

/// Does a task that visits an application.
fn visit_app(
    cells: &Cells,
    put: Replacement,
    part: usize,
    under: usize,
    f: usize,
    a: usize,
    work: &mut Vec<Task>,
) -> Result<bool, AllocError>
    requires there { part < length (terms_of cells.now) }
    requires function { f < part }
    requires argument { a < part }
    requires here { term_at (terms_of cells.now) part ≡ term.App (term_at (terms_of cells.now) f) (term_at (terms_of cells.now) a) }
    ensures { IfOk result (λ more. (done : List ℕ) → Steps more (record { terms = terms_of cells.now; work = visit_task put part under ∷ reverse work.old.items; done = done }) (record { terms = terms_of cells.now; work = reverse work.new.items; done = done })) }
{
    work.push(Task::App)?;
    work.push(Task::Visit {
        put,
        part: a,
        under,
    })?;
    work.push(Task::Visit {
        put,
        part: f,
        under,
    })?;
    Ok(true)
}

/// Does a task that visits a term. Answers whether there is a term.
fn visit(
    cells: &mut Cells,
    put: Replacement,
    part: usize,
    under: usize,
    work: &mut Vec<Task>,
    done: &mut Vec<usize>,
) -> Result<bool, AllocError>
    requires there { part < length (terms_of cells.old) }
    requires put { PartThere (length (terms_of cells.old)) put }
    requires done { AllThere (length (terms_of cells.old)) (reverse done.old.items) }
    ensures steps { IfOk result (λ more. Steps more (record { terms = terms_of cells.old; work = visit_task put part under ∷ reverse work.old.items; done = reverse done.old.items }) (record { terms = terms_of cells.new; work = reverse work.new.items; done = reverse done.new.items })) }
    ensures done { OnOk result (AllThere (length (terms_of cells.new)) (reverse done.new.items)) }
    ensures gains { Gains (terms_of cells.old) (terms_of cells.new) }
{
    match cells.get(part) {
        Cell::Rigid(_) => keep(cells, put, part, under, done),
        Cell::Bound(i) => {
            if i < under {
                return keep(cells, put, part, under, done);
            }
            visit_index(cells, put, part, under, i, work, done)
        }
        Cell::Var(_) => keep(cells, put, part, under, done),
        Cell::Lam(body) => visit_lam(cells, put, part, under, body, work),
        Cell::App(f, a) => visit_app(cells, put, part, under, f, a, work),
    }
}

/// Does a task that makes an abstraction.
fn make_lam(cells: &mut Cells, done: &mut Vec<usize>) -> Result<(), AllocError>
    requires some { 0 < length done.old.items }
    requires done { AllThere (length (terms_of cells.old)) (reverse done.old.items) }
    ensures steps { OnOk result ((work : List TaskOf) → Steps true (record { terms = terms_of cells.old; work = lam_task ∷ work; done = reverse done.old.items }) (record { terms = terms_of cells.new; work = work; done = reverse done.new.items })) }
    ensures done { OnOk result (AllThere (length (terms_of cells.new)) (reverse done.new.items)) }
    ensures gains { Gains (terms_of cells.old) (terms_of cells.new) }
{
    match done.pop() {
        Some(body) => {
            let r = cells.add(Cell::Lam(body))?;
            done.push(r)?;
            Ok(())
        }
        None => unreachable!(),
    }
}

/// Does a task that makes an application.
fn make_app(cells: &mut Cells, done: &mut Vec<usize>) -> Result<(), AllocError>
    requires some { 1 < length done.old.items }
    requires done { AllThere (length (terms_of cells.old)) (reverse done.old.items) }
    ensures steps { OnOk result ((work : List TaskOf) → Steps true (record { terms = terms_of cells.old; work = app_task ∷ work; done = reverse done.old.items }) (record { terms = terms_of cells.new; work = work; done = reverse done.new.items })) }
    ensures done { OnOk result (AllThere (length (terms_of cells.new)) (reverse done.new.items)) }
    ensures gains { Gains (terms_of cells.old) (terms_of cells.new) }
{
    match (done.pop(), done.pop()) {
        (Some(a), Some(f)) => {
            let r = cells.add(Cell::App(f, a))?;
            done.push(r)?;
            Ok(())
        }
        _ => unreachable!(),
    }
}

/// Does a task. Answers whether there is a term.
fn step(
    cells: &mut Cells,
    task: Task,
    work: &mut Vec<Task>,
    done: &mut Vec<usize>,
) -> Result<bool, AllocError>
    requires ready { IsReady (length (terms_of cells.old)) (length done.old.items) task }
    requires done { AllThere (length (terms_of cells.old)) (reverse done.old.items) }
    ensures steps { IfOk result (λ more. Steps more (record { terms = terms_of cells.old; work = task ∷ reverse work.old.items; done = reverse done.old.items }) (record { terms = terms_of cells.new; work = reverse work.new.items; done = reverse done.new.items })) }
    ensures done { OnOk result (AllThere (length (terms_of cells.new)) (reverse done.new.items)) }
    ensures gains { Gains (terms_of cells.old) (terms_of cells.new) }
{
    match task {
        Task::Visit { put, part, under } => visit(cells, put, part, under, work, done),
        Task::Lam => {
            make_lam(cells, done)?;
            Ok(true)
        }
        Task::App => {
            make_app(cells, done)?;
            Ok(true)
        }
    }
}

/// The list of one task.
fn first_task(alloc: Global, put: Replacement, part: usize) -> Result<Vec<Task>, AllocError>
    ensures { IfOk result (λ work. work.items ≡ visit_task put part 0 ∷ []) }
{
    let mut work = Vec::new(alloc);
    work.push(Task::Visit {
        put,
        part,
        under: 0,
    })?;
    Ok(work)
}

/// The term with others in the place of its free indices, if there is one.
fn taken(
    alloc: Global,
    cells: &mut Cells,
    put: Replacement,
    t: usize,
) -> Result<Option<usize>, AllocError>
    requires there { t < length (terms_of cells.old) }
    requires put { PartThere (length (terms_of cells.old)) put }
    ensures taken { IfOk result (λ o. IsKeptIfAny (terms_of cells.new) o (replaced (outside (terms_of cells.old) put) (term_at (terms_of cells.old) t))) }
    ensures gains { Gains (terms_of cells.old) (terms_of cells.new) }
{
    let mut work = first_task(alloc, put, t)?;
    let mut done = Vec::new(alloc);
    while let Some(task) = work.pop() {
        let more = step(cells, task, &mut work, &mut done)?;
        if !more {
            return Ok(None);
        }
    }
    match done.pop() {
        Some(r) => Ok(Some(r)),
        None => unreachable!(),
    }
}

/// The term with another in the place of index 0, and the other indices one lower.
pub(crate) fn opened_term(
    alloc: Global,
    cells: &mut Cells,
    body: usize,
    arg: usize,
) -> Result<usize, AllocError>
    requires body { body < length (terms_of cells.old) }
    requires arg { arg < length (terms_of cells.old) }
    ensures opened { IfOk result (λ r. IsKept (terms_of cells.new) r (sub (first (term_at (terms_of cells.old) arg)) (term_at (terms_of cells.old) body))) }
    ensures gains { Gains (terms_of cells.old) (terms_of cells.new) }
{
    match taken(alloc, cells, Replacement::Part(arg), body)? {
        Some(r) => Ok(r),
        None => unreachable!(),
    }
}

/// The term with its indices one lower, where index 0 isn't in it.
pub(crate) fn lowered_term(
    alloc: Global,
    cells: &mut Cells,
    t: usize,
) -> Result<Option<usize>, AllocError>
    requires { t < length (terms_of cells.old) }
    ensures lowered { IfOk result (λ o. IsKeptIfAny (terms_of cells.new) o (lower (term_at (terms_of cells.old) t))) }
    ensures gains { Gains (terms_of cells.old) (terms_of cells.new) }
{
    taken(alloc, cells, Replacement::Missing, t)
}
