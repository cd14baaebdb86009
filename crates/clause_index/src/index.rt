//! The index.

ghost use Rattle.std.specs.Prelude.{◌≡◌, ◌<◌, ℕ, IfOk, drop, length, nat_lt};
ghost use Rattle.level_terms.specs.Graph.{Graph};
ghost use Rattle.ref_terms.specs.search.Program.{Program};
ghost use Rattle.clause_key.specs.Passing.{is_agreeing, numbers_of, IsNextFor};
ghost use Rattle.clause_compile.specs.Programs.{IsCode};
ghost use Rattle.clause_index.specs.Index.{IsIndexOf, left_of};
ghost use Rattle.clause_index.specs.inside.Lists.{list_of, group_of, IsPaired};
ghost use Rattle.clause_index.specs.inside.Runs.{run_in, IsInOrder, not_below};

use crate::cands::{Cands, Run};
use crate::lists::{Group, Lists};
use clause_compile::Code;
use clause_key::{Key, fits_every};
use ref_terms::Sym;
use std::alloc::{AllocError, Global};

/// The clauses of a program by their predicates and keys. Whose it is says `IsIndexOf`.
#[derive(Drop)]
pub struct Index {
    pub(crate) lists: Lists,
}

/// The group of a clause among those of its predicate that have one key, or that agree with every key.
fn own_group(pred: Sym, key: Key) -> Group
    ensures { result ≡ group_of pred key }
{
    if fits_every(key) {
        return Group::Loose(pred);
    }
    Group::Keyed(pred, key)
}

/// The index of a program. Takes time and memory linear in the number of clauses, but for the look-up of
/// lists.
///
/// Errors: want of memory.
pub fn build(alloc: Global, code: &Code) -> Result<Index, AllocError>
    requires { (n : ℕ) × (g : Graph) × (p : Program) × IsCode n g code.now p }
    ensures { IfOk result (λ index. (n : ℕ) (g : Graph) (p : Program) → IsCode n g code.now p → IsIndexOf p index) }
{
    let mut lists = Lists::new(alloc);
    for clause in 0..code.clauses() {
        let pred = code.pred_of(clause);
        let key = code.key_of(clause);
        lists.push(alloc, Group::Every(pred), clause)?;
        lists.push(alloc, own_group(pred, key), clause)?;
    }
    Ok(Index { lists })
}

/// How many items of a list come before a number.
fn count_below(list: &[usize], from: usize) -> usize
    ensures { IsInOrder list.now → drop result list.now ≡ not_below from list.now }
{
    if from == 0 {
        return 0;
    }
    list.partition_point(
        |clause: &usize| -> bool
            ensures { result ≡ nat_lt clause.now from }
        { *clause < from },
    )
}

impl Index {
    /// What is left of a group's list from a number on.
    fn run_from(&self, group: Group, from: usize) -> Run
        ensures { IsPaired self.now.lists → IsInOrder (list_of self.now.lists group) → run_in self.now.lists result ≡ not_below from (list_of self.now.lists group) }
    {
        let list = self.lists.number(group);
        let at = match list {
            Some(number) => count_below(self.lists.list(number), from),
            None => 0,
        };
        Run { list, at }
    }

    /// The candidates of a call from a number on.
    fn candidates_from(&self, pred: Sym, key: Key, from: usize) -> Cands
        ensures { (p : Program) → IsIndexOf p self.now → left_of self.now result ≡ numbers_of (is_agreeing p pred.0 key) from (drop from p.clauses) }
    {
        if fits_every(key) {
            return Cands {
                own: self.run_from(Group::Every(pred), from),
                loose: Run { list: None, at: 0 },
            };
        }
        Cands {
            own: self.run_from(Group::Keyed(pred, key), from),
            loose: self.run_from(Group::Loose(pred), from),
        }
    }

    /// The candidates of a call: exactly the clauses of the predicate that agree with the key, in text
    /// order and each once. Takes no memory, and the time of two look-ups.
    pub fn candidates(&self, pred: Sym, key: Key) -> Cands
        ensures { (p : Program) → IsIndexOf p self.now → left_of self.now result ≡ numbers_of (is_agreeing p pred.0 key) 0 p.clauses }
    {
        self.candidates_from(pred, key, 0)
    }

    /// The first clause of the predicate, from a number on, that agrees with the key; none exactly where
    /// there is none. Takes no memory, and time logarithmic in the clauses of the predicate.
    pub fn next_from(&self, pred: Sym, key: Key, from: usize) -> Option<usize>
        ensures { (p : Program) → IsIndexOf p self.now → IsNextFor p pred.0 key from result }
    {
        let mut cands = self.candidates_from(pred, key, from);
        cands.next(self)
    }
}
