//! The log of a store, and what its events have made.

ghost use Rattle.std.specs.Prelude.{◌≡◌, ℕ, suc, ◌<◌, ◌≤◌, ◌⊎◌, true, false, Bool, IsTrue, List, [], ◌∷◌, ◌++◌, length, reverse, vec_len, vec_capacity, Some, IfOk, OnOk, OnErr, IfErr};
ghost use Rattle.watch_lists.specs.Rows.{numbers_after};
ghost use Rattle.suspend.specs.Store.{Event, joins, leaves, fires, heads, becomes, waits, sleeps, doubts, rests, added, stored, firings, has_fired, is_stored, stored_at, rows, waiting, has, has_row, oldest};
ghost use Rattle.suspend.specs.inside.Kept.{stands_in, newest_of, settled, doubted, is_rests as rests_note, is_doubts as doubts_note};
ghost use Rattle.suspend.specs.inside.Waking.{Watches, RestsAt};

use crate::constraint::{Constraint, Fired};
use crate::iter::StoreIter;
use crate::note::Note;
use crate::pairs::Pairs;
use dance_list::{DanceList, Node};
use std::alloc::{AllocError, AllocFailed, Global};
use std::marker::Model;
use trail::{Mark, Trail};
use watch_lists::WatchLists;

/// A store's log, with the constraints, the firings, the list of the stored numbers, and the rows. Where something stands
/// in the log there is room for one more note. Contracts see the log, newest event first.
#[derive(Drop)]
pub(crate) struct Ledger<C: Drop> {
    notes: Trail<Note>,
    constraints: Vec<Constraint<C>>,
    pairs: Pairs,
    places: Vec<Node>,
    standing: Vec<bool>,
    list: DanceList<u64>,
    watches: WatchLists,
}

impl<C: Drop> Model for Ledger<C> {
    ghost use Rattle.std.specs.Prelude.{List, reverse};
    ghost use Rattle.dance_list.specs.Dance.{nodes, linked, unlinked};
    ghost use Rattle.suspend.specs.Store.{Event};
    ghost use Rattle.suspend.specs.inside.Kept.{told, IsLedger};

    ghost Value = { List (Event C) };

    ghost view = { λ s. told (reverse s.notes.entries) (reverse s.constraints.items) (reverse s.pairs) };

    ghost invariant = { λ s. IsLedger s.notes.entries s.notes.spare s.constraints.items s.pairs s.places.items (nodes s.list) (linked s.list) (unlinked s.list) s.watches s.standing.items };
}

impl<C: Drop> Ledger<C> {
    /// No events. Takes no memory.
    pub(crate) fn new(alloc: Global) -> Ledger<C>
        ensures { result ≡ [] }
    {
        Ledger {
            notes: Trail::new(alloc),
            constraints: Vec::new(alloc),
            pairs: Pairs::new(alloc),
            places: Vec::new(alloc),
            standing: Vec::new(alloc),
            list: DanceList::new(alloc),
            watches: WatchLists::new(alloc),
        }
    }

    /// The number that the next constraint gets.
    pub(crate) fn next_number(&self) -> u64
        ensures { result ≡ suc (added self.now) }
    {
        self.constraints.len() as u64 + 1
    }

    /// A constraint joins. For want of memory alone it hands the constraint back, and nothing changes.
    pub(crate) fn join(&mut self, c: Constraint<C>) -> Result<u64, AllocFailed<Constraint<C>>>
        ensures ok { IfOk result (λ n. (n ≡ added self.new) × (self.new ≡ joins c ∷ self.old)) }
        ensures err { OnErr result (self.new ≡ self.old) }
        ensures handed_back { IfErr result (λ failed. failed.value ≡ c) }
    {
        match make_room(
            &mut self.notes,
            &mut self.constraints,
            &mut self.places,
            &mut self.standing,
        ) {
            Err(_) => Err(AllocFailed { value: c }),
            Ok(()) => {
                let number = self.constraints.len() as u64 + 1;
                match self.list.push_back(number) {
                    Err(_) => Err(AllocFailed { value: c }),
                    Ok(node) => {
                        self.places.push_reserved(node);
                        self.standing.push_reserved(true);
                        self.constraints.push_reserved(c);
                        self.notes.note(Note::Joins);
                        Ok(number)
                    }
                }
            },
        }
    }

    /// A constraint leaves. Answers `AllocError` on want of memory alone, as each call that can be refused.
    pub(crate) fn leave(&mut self, id: u64) -> Result<(), AllocError>
        requires { is_stored self.old id ≡ true }
        ensures ok { OnOk result (self.new ≡ leaves id ∷ self.old) }
        ensures err { OnErr result (self.new ≡ self.old) }
    {
        self.notes.reserve(2)?;
        let node = self.places[(id - 1) as usize];
        self.list.is_sound();
        self.list.unlink(node);
        self.standing[(id - 1) as usize] = false;
        self.notes.note(Note::Leaves(id));
        Ok(())
    }

    /// A rule fires.
    pub(crate) fn fire(&mut self, pair: Fired) -> Result<(), AllocError>
        requires { has_fired (firings self.old) pair ≡ false }
        ensures ok { OnOk result (self.new ≡ fires pair ∷ self.old) }
        ensures err { OnErr result (self.new ≡ self.old) }
    {
        self.notes.reserve(2)?;
        self.pairs.push(pair)?;
        self.notes.note(Note::Fires);
        Ok(())
    }

    /// A variable that heads a key of a constraint gets a row with it.
    pub(crate) fn head(&mut self, variable: u64, number: u64) -> Result<(), AllocError>
        ensures ok { OnOk result (self.new ≡ heads variable number ∷ self.old) }
        ensures err { OnErr result (self.new ≡ self.old) }
    {
        self.notes.reserve(2)?;
        self.watches.enter(variable, number)?;
        self.notes.note(Note::Heads(variable, number));
        Ok(())
    }

    /// A variable became another one, which gets its rows.
    pub(crate) fn hand_over(&mut self, variable: u64, other: u64) -> Result<(), AllocError>
        ensures ok { OnOk result (self.new ≡ becomes variable other ∷ self.old) }
        ensures err { OnErr result (self.new ≡ self.old) }
    {
        self.notes.reserve(2)?;
        self.watches.hand_over(variable, other)?;
        self.notes.note(Note::Becomes(variable, other));
        Ok(())
    }

    /// The keys of a constraint are to be looked at.
    pub(crate) fn wait(&mut self, number: u64) -> Result<(), AllocError>
        ensures ok { OnOk result (self.new ≡ waits number ∷ self.old) }
        ensures err { OnErr result (self.new ≡ self.old) }
    {
        self.notes.reserve(2)?;
        self.notes.note(Note::Waits(number));
        Ok(())
    }

    /// The keys of a constraint were looked at.
    pub(crate) fn sleep(&mut self, number: u64) -> Result<(), AllocError>
        ensures ok { OnOk result (self.new ≡ sleeps number ∷ self.old) }
        ensures err { OnErr result (self.new ≡ self.old) }
    {
        self.notes.reserve(2)?;
        self.notes.note(Note::Sleeps(number));
        Ok(())
    }

    /// All keys were looked at. Nothing is noted where that is known.
    pub(crate) fn rest(&mut self) -> Result<(), AllocError>
        ensures ok { OnOk result (RestsAt self.old self.new) }
        ensures err { OnErr result (self.new ≡ self.old) }
    {
        if self.is_settled() {
            return Ok(());
        }
        self.notes.reserve(2)?;
        self.notes.note(Note::Rests);
        Ok(())
    }

    /// All keys are to be looked at. Takes no memory: the room is there.
    pub(crate) fn doubt(&mut self)
        requires { 0 < length self.old }
        ensures { (older : List (Event C)) × (self.new ≡ doubts ∷ older) × (self.new ≡ doubts ∷ self.old ⊎ self.new ≡ self.old) }
    {
        if is_doubted(self.notes.since(Mark { entries: 0 })) {
            return;
        }
        self.notes.note(Note::Doubts);
    }

    /// Whether nothing is known to be to be looked at, since the newest event says so or there is none.
    pub(crate) fn is_settled(&self) -> bool
        ensures { result ≡ true → waiting self.now ≡ [] }
    {
        is_settled(self.notes.since(Mark { entries: 0 }))
    }

    /// Whether the rule fired on these constraints.
    pub(crate) fn fired(&self, pair: &Fired) -> bool
        ensures { result ≡ has_fired (firings self.now) pair.now }
    {
        self.pairs.has(pair)
    }

    /// Whether the number is that of a stored constraint.
    pub(crate) fn stands(&self, id: u64) -> bool
        ensures { result ≡ is_stored self.now id }
    {
        stands(self.standing.as_slice(), id)
    }

    /// The constraint with a number.
    pub(crate) fn get(&self, id: u64) -> &Constraint<C>
        requires { is_stored self.now id ≡ true }
        ensures { stored_at (stored self.now) id ≡ Some result.now }
    {
        &self.constraints[(id - 1) as usize]
    }

    /// The stored constraints with their numbers, in order of declaration.
    pub(crate) fn iter(&self) -> StoreIter<'_, C>
        ensures { result ≡ stored self.now }
    {
        StoreIter {
            ledger: self,
            rest: self.list.iter(),
        }
    }

    /// How many constraints are stored.
    pub(crate) fn stored_len(&self) -> usize
        ensures { result ≡ length (stored self.now) }
    {
        self.list.len()
    }

    /// How many events there were.
    pub(crate) fn len(&self) -> usize
        ensures { result ≡ length self.now }
    {
        self.notes.len()
    }

    /// Whether no row of the variable is known. Then it has none.
    pub(crate) fn is_unwatched(&self, variable: u64) -> bool
        ensures { result ≡ true → (n : ℕ) → has_row (rows self.now) variable n ≡ false }
    {
        self.watches.is_empty(variable)
    }

    /// Puts the numbers that have a row with the variable behind those of `out`, and maybe others.
    pub(crate) fn watchers(&self, variable: u64, out: &mut Vec<u64>) -> Result<(), AllocError>
        ensures { OnOk result (Watches (rows self.now) variable out.new.items) }
    {
        self.watches.numbers(variable, out)
    }

    /// Takes back all events but the oldest ones, as many as that. Takes no memory.
    pub(crate) fn undo(&mut self, events: usize)
        requires { events ≤ length self.old }
        ensures { self.new ≡ oldest events self.old }
    {
        while self.len() > events {
            self.take_back();
        }
    }

    /// Takes the newest event back. Takes no memory.
    fn take_back(&mut self)
        requires { 0 < length self.old }
        ensures { (e : Event C) × (self.old ≡ e ∷ self.new) }
    {
        match self.notes.undo_one(Mark { entries: 0 }) {
            Some(Note::Joins) => {
                drop_last(&mut self.places);
                drop_last(&mut self.constraints);
                drop_last(&mut self.standing);
                self.list.truncate(1);
            }
            Some(Note::Leaves(id)) => {
                let node = self.places[(id - 1) as usize];
                self.list.relink(node);
                self.standing[(id - 1) as usize] = true;
            }
            Some(Note::Fires) => self.pairs.drop_last(),
            Some(Note::Heads(_, _)) => self.watches.take_back(),
            Some(Note::Becomes(_, _)) => self.watches.take_back(),
            Some(Note::Waits(_)) => {}
            Some(Note::Sleeps(_)) => {}
            Some(Note::Doubts) => {}
            Some(Note::Rests) => {}
            None => {}
        }
    }
}

/// Makes room for two notes, a constraint and its node. Answers `AllocError` on want of memory alone.
fn make_room<C>(
    notes: &mut Trail<Note>,
    constraints: &mut Vec<Constraint<C>>,
    places: &mut Vec<Node>,
    standing: &mut Vec<bool>,
) -> Result<(), AllocError>
    ensures notes { notes.new.entries ≡ notes.old.entries }
    ensures spare { notes.old.spare ≤ notes.new.spare }
    ensures constraints { constraints.new.items ≡ constraints.old.items }
    ensures places { places.new.items ≡ places.old.items }
    ensures standing { standing.new.items ≡ standing.old.items }
    ensures room { OnOk result ((2 ≤ notes.new.spare) × (vec_len constraints.new < vec_capacity constraints.new) × (vec_len places.new < vec_capacity places.new) × (vec_len standing.new < vec_capacity standing.new)) }
{
    notes.reserve(2)?;
    constraints.reserve(1)?;
    places.reserve(1)?;
    standing.reserve(1)?;
    Ok(())
}

/// Takes the last of a list out.
fn drop_last<T: Drop>(items: &mut Vec<T>)
    requires { 0 < length items.old.items }
    ensures { (last : T) × (items.old.items ≡ items.new.items ++ last ∷ []) }
{
    let _last = items.pop();
}

/// The newest note.
fn newest(notes: &[Note]) -> Option<Note>
    ensures { result ≡ newest_of (reverse notes.now) }
{
    notes.last().copied()
}

/// Whether the newest note says that nothing is to be looked at, or there is none.
fn is_settled(notes: &[Note]) -> bool
    ensures { result ≡ settled (reverse notes.now) }
{
    match newest(notes) {
        None => true,
        Some(note) => is_rests(note),
    }
}

/// Whether the newest note says that all is to be looked at.
fn is_doubted(notes: &[Note]) -> bool
    ensures { result ≡ doubted (reverse notes.now) }
{
    match newest(notes) {
        None => false,
        Some(note) => is_doubts(note),
    }
}

/// Whether the one of a number is marked.
fn stands(standing: &[bool], id: u64) -> bool
    ensures { result ≡ stands_in standing.now id }
{
    if id == 0 {
        return false;
    }
    let place = (id - 1) as usize;
    place < standing.len() && standing[place]
}

/// Whether it says that nothing is to be looked at.
fn is_rests(note: Note) -> bool
    ensures { result ≡ rests_note note }
{
    match note {
        Note::Rests => true,
        Note::Joins => false,
        Note::Leaves(_) => false,
        Note::Fires => false,
        Note::Heads(_, _) => false,
        Note::Becomes(_, _) => false,
        Note::Waits(_) => false,
        Note::Sleeps(_) => false,
        Note::Doubts => false,
    }
}

/// Whether it says that all is to be looked at.
fn is_doubts(note: Note) -> bool
    ensures { result ≡ doubts_note note }
{
    match note {
        Note::Doubts => true,
        Note::Joins => false,
        Note::Leaves(_) => false,
        Note::Fires => false,
        Note::Heads(_, _) => false,
        Note::Becomes(_, _) => false,
        Note::Waits(_) => false,
        Note::Sleeps(_) => false,
        Note::Rests => false,
    }
}
