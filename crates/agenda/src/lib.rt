//! The pairs of a rule and a constraint that are still to be tried, in the order in which rules
//! are tried, with a log by which every change can be taken back.
#![tactic(auto)]

ghost use Rattle.std.specs.Prelude.{◌≡◌, ℕ, ◌+◌, ◌*◌, ◌-◌, ◌<◌, ◌≤◌, ◌↔◌, [], List, ◌∷◌, length, reverse, OnOk, OnErr, IsNone, IfNone, IfOk, IfSome, vec_len, vec_capacity};
ghost use Rattle.agenda.specs.Pairs.{IsOrdered};
ghost use Rattle.agenda.specs.Log.{pairs_of, oldest, IsLater, touched, AddsAll, cleared};
ghost use Rattle.agenda.specs.inside.Kept.{puts};

use ranks::Ranks;
use std::alloc::{AllocError, Global};
use std::marker::Model;

mod ranks;

/// A change of an agenda: the pair of a rule and a constraint's number was put in, or taken out.
#[derive(Clone, Copy, Debug, PartialEq, Eq)]
pub enum Change {
    Put(usize, u64),
    Taken(usize, u64),
}

/// A place between two changes of an agenda's log: how many changes stood there when it was taken.
#[derive(Clone, Copy, Debug, PartialEq, Eq)]
pub struct AgendaMark {
    pub changes: usize,
}

/// Pairs of a rule and a constraint's number, by rule and then by number, each once. Contracts see
/// the number of rules and the log of pairs put in and taken out, newest change first; `pairs_of`
/// gives the list.
///
/// With N the greatest number that was touched, taking the first pair out and taking a change back
/// each cost the logarithm of N, and a touch costs that and the number of rules. Room is taken in
/// proportion to N, so numbers should be dense.
#[derive(Drop)]
pub struct Agenda {
    rules: usize,
    log: Vec<Change>,
    ranks: Ranks,
    count: usize,
}

impl Model for Agenda {
    ghost use Rattle.std.specs.Prelude.{reverse, vec_capacity};
    ghost use Rattle.agenda.specs.Log.{Changes};
    ghost use Rattle.agenda.specs.inside.Kept.{IsKept};

    ghost Value = { Changes };

    ghost view = { λ a. record { rules = a.rules; log = reverse a.log.items } };

    ghost invariant = { λ a. IsKept a.rules (reverse a.log.items) a.ranks a.count (vec_capacity a.log) };
}

// Notes that a constraint's pairs with the first rules are put in, the last rule's first.
fn note_all(log: &mut Vec<Change>, rules: usize, number: u64)
    requires { vec_len log.old + rules ≤ vec_capacity log.old }
    ensures log { reverse log.new.items ≡ puts rules number (reverse log.old.items) }
    ensures room { vec_capacity log.new ≡ vec_capacity log.old }
{
    let mut rule = rules;
    while rule > 0 {
        rule -= 1;
        log.push_reserved(Change::Put(rule, number));
    }
}

// How much room a log needs for putting in so many pairs and taking out all.
fn room_for(added: usize, count: usize) -> Result<usize, AllocError>
    ensures { IfOk result (λ n. n ≡ 2 * added + count) }
{
    let Some(twice) = added.checked_mul(2) else {
        return Err(AllocError);
    };
    let Some(room) = twice.checked_add(count) else {
        return Err(AllocError);
    };
    Ok(room)
}

impl Agenda {
    /// An agenda with no pairs, over so many rules. Takes no memory.
    pub fn new(alloc: Global, rules: usize) -> Agenda
        ensures rules { result.rules ≡ rules }
        ensures log { result.log ≡ [] }
    {
        Agenda {
            rules,
            log: Vec::new(alloc),
            ranks: Ranks::new(alloc),
            count: 0,
        }
    }

    /// Puts the constraint's pairs with all rules in, each unless it is there, and makes the room
    /// that taking out, clearing and undoing need later. Answers `AllocError` on want of memory
    /// alone.
    #[tactic(auto, using(crate::proofs::KeptLemmas::ordered_after))]
    pub fn touch(&mut self, id: u64) -> Result<(), AllocError>
        ensures pairs { OnOk result (AddsAll self.old.rules id (pairs_of self.old) (pairs_of self.new)) }
        ensures log { OnOk result (self.new.log ≡ touched self.old.rules id self.old.log) }
        ensures later { OnOk result (IsLater self.old.log self.new.log) }
        ensures ordered { IsOrdered (pairs_of self.new) }
        ensures rules { self.new.rules ≡ self.old.rules }
        ensures err { OnErr result (self.new ≡ self.old) }
    {
        let place = id as usize;
        let Some(places) = place.checked_add(1) else {
            return Err(AllocError);
        };
        self.ranks.reach(places, self.rules)?;
        let missing = self.ranks.rank(place);
        self.log.reserve(room_for(missing, self.count)?)?;
        note_all(&mut self.log, missing, id);
        self.ranks.set(place, 0);
        self.count += missing;
        Ok(())
    }

    /// Takes the first pair out, if there is one. Takes no memory.
    #[tactic(auto, using(crate::proofs::KeptLemmas::ordered_after))]
    pub fn next_pair(&mut self) -> Option<(usize, u64)>
        ensures none { IsNone result ↔ (pairs_of self.old ≡ []) }
        ensures first { IfSome result (λ p. pairs_of self.old ≡ p ∷ pairs_of self.new) }
        ensures log { IfSome result (λ p. self.new.log ≡ Change.Taken p.0 p.1 ∷ self.old.log) }
        ensures ordered { IsOrdered (pairs_of self.old) }
        ensures rules { self.new.rules ≡ self.old.rules }
        ensures unchanged { IfNone result (self.new ≡ self.old) }
    {
        let first = self.ranks.first()?;
        if first.rank >= self.rules {
            return None;
        }
        let number = first.place as u64;
        self.log.push_reserved(Change::Taken(first.rank, number));
        self.ranks.set(first.place, first.rank + 1);
        self.count -= 1;
        Some((first.rank, number))
    }

    /// Takes all pairs out, first one first. Takes no memory.
    pub fn clear(&mut self)
        ensures pairs { pairs_of self.new ≡ [] }
        ensures log { self.new.log ≡ cleared (pairs_of self.old) self.old.log }
        ensures later { IsLater self.old.log self.new.log }
        ensures rules { self.new.rules ≡ self.old.rules }
    {
        while self.next_pair().is_some() {}
    }

    /// The place after the newest change.
    #[tactic(auto, using(crate::proofs::KeptLemmas::ordered_after))]
    pub fn mark(&self) -> AgendaMark
        ensures changes { result.changes ≡ length self.now.log }
        ensures ordered { IsOrdered (pairs_of self.now) }
    {
        AgendaMark {
            changes: self.log.len(),
        }
    }

    /// Takes back all changes past the mark, so that the list is as after the changes before it.
    /// Takes no memory.
    #[tactic(auto, using(crate::proofs::KeptLemmas::ordered_after))]
    pub fn undo(&mut self, m: AgendaMark)
        requires { m.changes ≤ length self.old.log }
        ensures log { self.new.log ≡ oldest m.changes self.old.log }
        ensures as_at_the_mark { (log : List Change) → IsLater log self.old.log → length log ≡ m.changes → self.new.log ≡ log }
        ensures ordered { IsOrdered (pairs_of self.new) }
        ensures rules { self.new.rules ≡ self.old.rules }
    {
        while self.mark().changes > m.changes {
            self.take_back();
        }
    }

    // Takes the newest change back.
    fn take_back(&mut self)
        requires { 0 < length self.old.log }
        ensures log { oldest (length self.new.log) self.old.log ≡ self.new.log }
        ensures one { length self.new.log + 1 ≡ length self.old.log }
        ensures rules { self.new.rules ≡ self.old.rules }
    {
        match self.log.pop() {
            Some(Change::Put(rule, number)) => {
                self.ranks.set(number as usize, rule + 1);
                self.count -= 1;
            }
            Some(Change::Taken(rule, number)) => {
                self.ranks.set(number as usize, rule);
                self.count += 1;
            }
            None => {}
        }
    }
}
