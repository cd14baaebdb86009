//! A table from numbers to lists. Tables share their parts, so a table with one more item in a list
//! takes the time and the memory of the number's binary digits.

ghost use Rattle.std.specs.Prelude.{◌≡◌, ◌∷◌, [], ℕ, ◌<◌, true, cond, nat_eq, IfOk};
ghost use Rattle.hyp_context.specs.inside.Items.{left_of};
ghost use Rattle.hyp_context.specs.inside.Found.{found_in, found_at, halved, same_digit, HasOneMore};

use crate::chain::Chain;
use hyp_clause::Hyp;
use std::alloc::{AllocError, Global};
use std::rc::Rc;

/// A list for each number; all are empty but for finitely many.
#[derive(Drop)]
#[cycle(table)]
pub(crate) enum Table {
    /// Each list is empty.
    Empty,
    /// The lists by their numbers' last digits.
    Fork(Rc<Lists>),
}

/// The list of 0, those of the odd numbers, and those of the other even ones. In the table of either,
/// the number n is half of what n - 1 is here.
#[derive(Drop)]
#[cycle(table)]
pub(crate) struct Lists {
    pub first: Chain,
    pub odd: Table,
    pub even: Table,
}

impl Table {
    /// The same table, in constant time.
    pub fn copy(&self) -> Result<Table, AllocError>
        ensures { IfOk result (λ t. (n : ℕ) → found_in t n ≡ found_in self.now n) }
    {
        match self {
            Table::Empty => Ok(Table::Empty),
            Table::Fork(lists) => Ok(Table::Fork(lists.clone()?)),
        }
    }

    /// The list of a number.
    pub fn find(&self, number: usize) -> Option<&Chain>
        ensures { left_of result ≡ found_in self.now number }
    {
        let mut table = self;
        let mut left = number;
        while let Table::Fork(lists) = table {
            if left == 0 {
                return Some(&lists.first);
            }
            table = half_of(lists, left);
            left = (left - 1) / 2;
        }
        None
    }

    /// The table with one more item at the front of a number's list.
    pub fn with(&self, alloc: Global, number: usize, hyp: &Rc<Hyp>) -> Result<Table, AllocError>
        ensures { IfOk result (λ t. HasOneMore self.now number hyp.now.value t) }
    {
        let lists = self.parts()?;
        if number == 0 {
            return lists.with_first(alloc, hyp);
        }
        let half = half_of(&lists, number).with(alloc, (number - 1) / 2, hyp)?;
        let table = lists.with_half(alloc, number, half)?;
        Ok(table)
    }

    /// The parts of the table, in constant time.
    fn parts(&self) -> Result<Lists, AllocError>
        ensures { IfOk result (λ l. (n : ℕ) → found_at l n ≡ found_in self.now n) }
    {
        match self {
            Table::Empty => Ok(Lists {
                first: Chain::End,
                odd: Table::Empty,
                even: Table::Empty,
            }),
            Table::Fork(lists) => Ok(Lists {
                first: lists.first.copy()?,
                odd: lists.odd.copy()?,
                even: lists.even.copy()?,
            }),
        }
    }
}

/// The table of the numbers with the last digit of this one.
fn half_of(lists: &Lists, number: usize) -> &Table
    requires { 0 < number }
    ensures { (n : ℕ) → same_digit n number ≡ true → found_in result.now (halved n) ≡ found_at lists.now n }
{
    if number % 2 == 1 {
        &lists.odd
    } else {
        &lists.even
    }
}

impl Lists {
    /// The table of these parts with one more item at the front of the list of 0.
    fn with_first(self, alloc: Global, hyp: &Rc<Hyp>) -> Result<Table, AllocError>
        ensures { IfOk result (λ t. (n : ℕ) → found_in t n ≡ cond (nat_eq n 0) (hyp.now.value ∷ found_at self n) (found_at self n)) }
    {
        let first = self.first.with(alloc, hyp.clone()?)?;
        let lists = Lists {
            first,
            odd: self.odd,
            even: self.even,
        };
        Ok(Table::Fork(Rc::new(alloc, lists)?))
    }

    /// The table of these parts with another table for the numbers with the last digit of this one.
    fn with_half(self, alloc: Global, number: usize, half: Table) -> Result<Table, AllocError>
        requires { 0 < number }
        ensures { IfOk result (λ t. (n : ℕ) → found_in t n ≡ cond (same_digit n number) (found_in half (halved n)) (found_at self n)) }
    {
        let mut lists = self;
        if number % 2 == 1 {
            lists.odd = half;
        } else {
            lists.even = half;
        }
        Ok(Table::Fork(Rc::new(alloc, lists)?))
    }
}
