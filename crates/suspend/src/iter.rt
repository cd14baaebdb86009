//! The iterator over stored constraints.

ghost use Rattle.std.specs.Prelude.{◌≡◌, length};
ghost use Rattle.std.specs.Iterator.{at_most};
ghost use Rattle.std.specs.Map.Iter.{TakesFirst};
ghost use Rattle.suspend.specs.Iter.{shown};

use crate::constraint::Constraint;
use crate::ledger::Ledger;
use dance_list::DanceIter;
use std::marker::Model;

/// Gives each stored number with a reference to its constraint, in order of declaration. Contracts see it as what it has
/// left.
#[derive(Drop)]
pub struct StoreIter<'a, C: Drop> {
    pub(crate) ledger: &'a Ledger<C>,
    pub(crate) rest: DanceIter<'a, u64>,
}

impl<'a, C: Drop> Model for StoreIter<'a, C> {
    ghost use Rattle.std.specs.Prelude.{ℕ, List};
    ghost use Rattle.suspend.specs.declared.constraint.Constraint.{Constraint as Suspended};

    ghost Value = { List (ℕ × Suspended C) };

    ghost use Rattle.suspend.specs.Store.{stored};
    ghost use Rattle.suspend.specs.inside.Given.{given, AllStored};

    ghost view = { λ it. given (stored it.ledger.now) it.rest };

    ghost invariant = { λ it. AllStored it.ledger.now it.rest };
}

impl<'a, C: Drop> Iterator for StoreIter<'a, C> {
    type Item = (u64, &'a Constraint<C>);

    ghost next_gives = { TakesFirst shown };

    ghost remaining = { λ s. at_most (length s) };

    fn next(&mut self) -> Option<(u64, &'a Constraint<C>)> {
        match self.rest.next() {
            None => None,
            Some((_, number)) => Some((*number, self.ledger.get(*number))),
        }
    }
}
