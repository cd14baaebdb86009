//! Lists of numbers, each watching a subject, with a log by which every change can be taken back.
//!
//! A list is handed over whole, in constant time, to the subject that takes the place of its own.
#![tactic(auto)]

ghost use Rattle.std.specs.Prelude.{◌≡◌, ℕ, ◌≤◌, ◌<◌, cond, nat_eq, IsTrue, List, [], ◌∷◌, ◌++◌, length, reverse, Some, IsSome, OnOk, OnErr};
ghost use Rattle.std.specs.HashMap.{get};
ghost use Rattle.watch_lists.specs.declared.Change.{Change as Changed};
ghost use Rattle.watch_lists.specs.Rows.{numbers_after, oldest};
ghost use Rattle.watch_lists.specs.inside.Cells.{subject_of as subject, IsLinked, AllCells, Passes, with_one, entered, cell_at};

use std::alloc::{AllocError, Global};
use std::collections::HashMap;
use std::marker::Model;

/// A change of watch lists: a number was entered into the list of a subject, or the list of the first subject was handed
/// over to the second one.
#[derive(Clone, Copy, Debug, PartialEq, Eq)]
pub enum Change {
    Entered(u64, u64),
    Handed(u64, u64),
}

/// A place between two changes: how many changes stood there when it was taken.
#[derive(Clone, Copy, Debug, PartialEq, Eq)]
pub struct WatchMark {
    pub changes: usize,
}

/// A change, with the next cell of the list that it made longer, and the first one of the list that it handed over.
#[derive(Clone, Copy)]
struct Cell {
    change: Change,
    next: Option<usize>,
    handed: Option<usize>,
}

/// For each subject a list of numbers. Contracts see the log, newest change first; `numbers_after` reads the lists off it.
#[derive(Drop)]
pub struct WatchLists {
    alloc: Global,
    cells: Vec<Cell>,
    firsts: HashMap<u64, usize>,
}

impl Model for WatchLists {
    ghost use Rattle.std.specs.Prelude.{List, reverse};
    ghost use Rattle.watch_lists.specs.declared.Change.{Change as Changed};

    ghost Value = { List Changed };

    ghost use Rattle.std.specs.Prelude.{◌≡◌, ℕ, nat_eq};
    ghost use Rattle.std.specs.HashMap.{get};
    ghost use Rattle.watch_lists.specs.inside.Cells.{changes, first_at, IsLinked};

    ghost view = { λ w. changes (reverse w.cells.items) };

    ghost invariant = { λ w. IsLinked (reverse w.cells.items) × ((s : ℕ) → get nat_eq w.firsts s ≡ first_at (reverse w.cells.items) s) };
}

impl WatchLists {
    /// Empty lists. Takes no memory.
    pub fn new(alloc: Global) -> WatchLists
        ensures { result ≡ [] }
    {
        WatchLists {
            alloc,
            cells: Vec::new(alloc),
            firsts: HashMap::new(alloc),
        }
    }

    /// Puts a number into the list of a subject. Answers `AllocError` on want of memory alone, as each call that can be
    /// refused.
    pub fn enter(&mut self, subject: u64, number: u64) -> Result<(), AllocError>
        ensures ok { OnOk result (self.new ≡ Change.Entered subject number ∷ self.old) }
        ensures err { OnErr result (self.new ≡ self.old) }
    {
        let next = first_of(&self.firsts, subject);
        self.cells.reserve(1)?;
        put_first(&mut self.firsts, subject, self.cells.len())?;
        self.cells.push_reserved(Cell {
            change: Change::Entered(subject, number),
            next,
            handed: None,
        });
        Ok(())
    }

    /// Hands the list of a subject over to another one, in constant time. The first one keeps what it has.
    pub fn hand_over(&mut self, from: u64, to: u64) -> Result<(), AllocError>
        ensures ok { OnOk result (self.new ≡ Change.Handed from to ∷ self.old) }
        ensures err { OnErr result (self.new ≡ self.old) }
    {
        let next = first_of(&self.firsts, to);
        let handed = first_of(&self.firsts, from);
        self.cells.reserve(1)?;
        put_first(&mut self.firsts, to, self.cells.len())?;
        self.cells.push_reserved(Cell {
            change: Change::Handed(from, to),
            next,
            handed,
        });
        Ok(())
    }

    /// Whether the list of a subject is empty.
    pub fn is_empty(&self, subject: u64) -> bool
        ensures { IsTrue result → numbers_after self.now subject ≡ [] }
    {
        match first_of(&self.firsts, subject) {
            None => true,
            Some(_) => false,
        }
    }

    /// Puts the numbers in the list of a subject behind those of `out`.
    pub fn numbers(&self, subject: u64, out: &mut Vec<u64>) -> Result<(), AllocError>
        ensures { OnOk result (out.new.items ≡ out.old.items ++ numbers_after self.now subject) }
    {
        let mut stack = Vec::new(self.alloc);
        push_one(&mut stack, first_of(&self.firsts, subject))?;
        while let Some(cell) = stack.pop() {
            pass(self.cells.as_slice(), cell, &mut stack, out)?;
        }
        Ok(())
    }

    /// The place after the newest change.
    pub fn mark(&self) -> WatchMark
        ensures { result.changes ≡ length self.now }
    {
        WatchMark {
            changes: self.cells.len(),
        }
    }

    /// Takes back all changes past the mark. Takes no memory.
    pub fn undo(&mut self, m: WatchMark)
        requires { m.changes ≤ length self.old }
        ensures { self.new ≡ oldest m.changes self.old }
    {
        while self.mark().changes > m.changes {
            self.take_back();
        }
    }

    /// Takes the newest change back. Takes no memory.
    pub fn take_back(&mut self)
        requires { 0 < length self.old }
        ensures { (change : Changed) × (self.old ≡ change ∷ self.new) }
    {
        if let Some(cell) = self.cells.pop() {
            put_back(&mut self.firsts, subject_of(cell.change), cell.next);
        }
    }
}

/// The subject whose list a change made longer.
fn subject_of(change: Change) -> u64
    ensures { result ≡ subject change }
{
    match change {
        Change::Entered(subject, _) => subject,
        Change::Handed(_, to) => to,
    }
}

/// The first cell of the list of a subject.
fn first_of(firsts: &HashMap<u64, usize>, subject: u64) -> Option<usize>
    ensures { result ≡ get nat_eq firsts.now subject }
{
    firsts.get(&subject).copied()
}

/// Puts a cell first in the list of a subject.
fn put_first(firsts: &mut HashMap<u64, usize>, subject: u64, cell: usize) -> Result<(), AllocError>
    ensures ok { OnOk result ((s : ℕ) → get nat_eq firsts.new s ≡ cond (nat_eq subject s) (Some cell) (get nat_eq firsts.old s)) }
    ensures err { OnErr result ((s : ℕ) → get nat_eq firsts.new s ≡ get nat_eq firsts.old s) }
{
    firsts.insert(subject, cell)?;
    Ok(())
}

/// Takes the first cell out of the list of a subject, before the next one. Takes no memory.
fn put_back(firsts: &mut HashMap<u64, usize>, subject: u64, next: Option<usize>)
    requires { IsSome (get nat_eq firsts.old subject) }
    ensures { (s : ℕ) → get nat_eq firsts.new s ≡ cond (nat_eq subject s) next (get nat_eq firsts.old s) }
{
    match next {
        None => {
            firsts.remove(&subject);
        }
        Some(cell) => {
            let _old = firsts.insert(subject, cell);
        }
    }
}

/// Puts a cell on a stack, if there is one.
fn push_one(stack: &mut Vec<usize>, cell: Option<usize>) -> Result<(), AllocError>
    ensures { OnOk result (reverse stack.new.items ≡ with_one cell (reverse stack.old.items)) }
{
    if let Some(cell) = cell {
        stack.push(cell)?;
    }
    Ok(())
}

/// Puts out the number of a cell, and the cells that it leads to on the stack.
fn pass(
    cells: &[Cell],
    cell: usize,
    stack: &mut Vec<usize>,
    out: &mut Vec<u64>,
) -> Result<(), AllocError>
    requires linked { IsLinked (reverse cells.now) }
    requires within { AllCells (reverse cells.now) (cell ∷ reverse stack.old.items) }
    ensures { OnOk result (Passes (reverse cells.now) (cell ∷ reverse stack.old.items) out.old.items (reverse stack.new.items) out.new.items) }
{
    let passed = cell_of(cells, cell);
    push_one(stack, passed.next)?;
    push_one(stack, passed.handed)?;
    put_out(passed.change, out)?;
    Ok(())
}

/// The cell of a number.
#[tactic(auto, using(crate::proofs::CellLemmas::cell_found))]
fn cell_of(cells: &[Cell], cell: usize) -> &Cell
    requires { cell < length cells.now }
    ensures { cell_at (reverse cells.now) cell ≡ Some result.now }
{
    &cells[cell]
}

/// Puts out the number that was entered by a change.
fn put_out(change: Change, out: &mut Vec<u64>) -> Result<(), AllocError>
    ensures { OnOk result (out.new.items ≡ out.old.items ++ entered change) }
{
    if let Change::Entered(_, number) = change {
        out.push(number)?;
    }
    Ok(())
}
