//! The store.

ghost use Rattle.std.specs.Prelude.{◌≡◌, ℕ, ◌<◌, ◌≤◌, true, false, List, [], ◌∷◌, length, Some, IfOk, OnOk, OnErr, IfErr};
ghost use Rattle.level_terms.specs.Gains.{GainsNodes};
ghost use Rattle.suspend.specs.Store.{Event, joins, leaves, fires, waits, added, stored, firings, rows, waiting, has, has_fired, is_stored, stored_at, oldest, HasAll, IsLater, SameStore};
ghost use Rattle.suspend.specs.Keyed.{first_awake, Keyed, Follows, Stirred};
ghost use Rattle.suspend.specs.inside.Waking.{StirsOn, AllWait, KeepsKeyed, FollowsOne};

use crate::constraint::{Constraint, Fired};
use crate::following::renamed_to;
use crate::iter::StoreIter;
use crate::ledger::Ledger;
use crate::looking::first_up;
use crate::queue::Queue;
use level_terms::{Change, Heap, VarId};
use std::alloc::{AllocError, AllocFailed, Global};
use std::marker::Model;

/// A place in a store's log: how many events stood there when it was taken.
#[derive(Clone, Copy, Debug, PartialEq, Eq)]
pub struct StoreMark {
    pub events: usize,
}

/// The suspended goals of a branch, in order of declaration, and what has fired. Contracts see its log, newest event
/// first; `stored` and `firings` read it.
#[derive(Drop)]
pub struct Store<C: Drop> {
    alloc: Global,
    ledger: Ledger<C>,
    queue: Queue,
    all: bool,
}

impl<C: Drop> Model for Store<C> {
    ghost use Rattle.std.specs.Prelude.{List};
    ghost use Rattle.suspend.specs.Store.{Event};
    ghost use Rattle.suspend.specs.inside.Waking.{AreQueued};

    ghost Value = { List (Event C) };

    ghost view = { λ s. s.ledger };

    ghost invariant = { λ s. AreQueued s.ledger s.all s.queue };
}

impl<C: Drop> Store<C> {
    /// No constraints. Takes no memory.
    pub fn new(alloc: Global) -> Store<C>
        ensures { result ≡ [] }
    {
        Store {
            alloc,
            ledger: Ledger::new(alloc),
            queue: Queue::new(alloc),
            all: false,
        }
    }

    /// Puts a constraint last and answers its number, which is the count of the additions. Its keys are to be looked at.
    /// For want of memory alone it hands the constraint back, and nothing changes.
    pub fn add(&mut self, c: Constraint<C>) -> Result<u64, AllocFailed<Constraint<C>>>
        ensures ok { IfOk result (λ n. (n ≡ added self.new) × (self.new ≡ joins c ∷ self.old)) }
        ensures err { OnErr result (self.new ≡ self.old) }
        ensures handed_back { IfErr result (λ failed. failed.value ≡ c) }
    {
        match self.queue.push(self.ledger.next_number()) {
            Err(_) => Err(AllocFailed { value: c }),
            Ok(()) => self.ledger.join(c),
        }
    }

    /// Takes a constraint out. Answers `AllocError` on want of memory alone.
    pub fn remove(&mut self, id: u64) -> Result<(), AllocError>
        requires { is_stored self.old id ≡ true }
        ensures ok { OnOk result (self.new ≡ leaves id ∷ self.old) }
        ensures err { OnErr result (self.new ≡ self.old) }
    {
        self.ledger.leave(id)
    }

    /// Notes that a rule fired. Answers `AllocError` on want of memory alone.
    pub fn fire(&mut self, pair: Fired) -> Result<(), AllocError>
        requires { has_fired (firings self.old) pair ≡ false }
        ensures ok { OnOk result (self.new ≡ fires pair ∷ self.old) }
        ensures err { OnErr result (self.new ≡ self.old) }
    {
        self.ledger.fire(pair)
    }

    /// Whether the rule fired on these constraints.
    pub fn fired(&self, pair: &Fired) -> bool
        ensures { result ≡ has_fired (firings self.now) pair.now }
    {
        self.ledger.fired(pair)
    }

    /// The constraint with a number.
    pub fn get(&self, id: u64) -> &Constraint<C>
        requires { is_stored self.now id ≡ true }
        ensures { stored_at (stored self.now) id ≡ Some result.now }
    {
        self.ledger.get(id)
    }

    /// The stored constraints with their numbers, in order of declaration.
    pub fn iter(&self) -> StoreIter<'_, C>
        ensures { result ≡ stored self.now }
    {
        self.ledger.iter()
    }

    /// How many constraints are stored.
    pub fn len(&self) -> usize
        ensures { result ≡ length (stored self.now) }
    {
        self.ledger.stored_len()
    }

    /// Tells the store what a call has put on the heap's trail: what the store knows of the keys of its constraints, it
    /// knows of the heap as it is now. It can't be refused: for want of memory all keys are to be looked at.
    pub fn follow(&mut self, heap: &Heap, entries: &[Change])
        ensures keyed { Follows self.old self.new heap.now entries.now }
        ensures same { SameStore self.old self.new }
        ensures later { IsLater self.old self.new }
    {
        heap.is_sound();
        if self.ledger.len() == 0 {
            return;
        }
        let mut i = 0;
        while i < entries.len() {
            self.follow_one(heap, entries[i].variable);
            i += 1;
        }
    }

    /// Follows the assignment of one variable. For want of memory all keys are to be looked at.
    fn follow_one(&mut self, heap: &Heap, v: VarId)
        requires { 0 < length self.old }
        ensures keyed { FollowsOne self.old self.new heap.now v.index }
        ensures same { SameStore self.old self.new }
        ensures later { IsLater self.old self.new }
    {
        match self.try_follow(heap, v) {
            Ok(()) => {}
            Err(_) => self.doubt(),
        }
    }

    /// Follows the assignment of one variable: a variable that it became gets its rows, and else what has a row with it is
    /// to be looked at. Answers `AllocError` on want of memory alone.
    fn try_follow(&mut self, heap: &Heap, v: VarId) -> Result<(), AllocError>
        ensures keyed { OnOk result (FollowsOne self.old self.new heap.now v.index) }
        ensures kept { OnErr result (KeepsKeyed self.old self.new) }
        ensures same { SameStore self.old self.new }
        ensures later { IsLater self.old self.new }
    {
        heap.is_sound();
        let variable = v.index as u64;
        if self.ledger.is_unwatched(variable) {
            return Ok(());
        }
        match renamed_to(heap, v) {
            Some(other) => self.ledger.hand_over(variable, other),
            None => self.stir(variable),
        }
    }

    /// What has a row with the variable is to be looked at. Answers `AllocError` on want of memory alone.
    fn stir(&mut self, variable: u64) -> Result<(), AllocError>
        ensures stirred { OnOk result (Stirred (rows self.new) (waiting self.new) variable) }
        ensures on { StirsOn self.old self.new }
    {
        let mut numbers = Vec::new(self.alloc);
        self.ledger.watchers(variable, &mut numbers)?;
        let mut i = 0;
        while i < numbers.len() {
            self.wait(numbers[i])?;
            i += 1;
        }
        Ok(())
    }

    /// The keys of a constraint are to be looked at. Answers `AllocError` on want of memory alone.
    fn wait(&mut self, number: u64) -> Result<(), AllocError>
        ensures ok { OnOk result (self.new ≡ waits number ∷ self.old) }
        ensures err { OnErr result (self.new ≡ self.old) }
    {
        self.queue.push(number)?;
        self.ledger.wait(number)
    }

    /// All keys are to be looked at. Takes no memory.
    fn doubt(&mut self)
        requires { 0 < length self.old }
        ensures wait { AllWait self.new }
        ensures kept { KeepsKeyed self.old self.new }
        ensures same { SameStore self.old self.new }
        ensures later { IsLater self.old self.new }
    {
        self.ledger.doubt();
        self.all = true;
    }

    /// The number of the first constraint with a key that isn't headed by a variable, if there is one. It looks at what
    /// is to be looked at alone. Answers `AllocError` on want of memory alone.
    pub fn awake(&mut self, heap: &mut Heap) -> Result<Option<u64>, AllocError>
        requires keyed { Keyed self.old heap.old }
        ensures first { IfOk result (λ first. first ≡ first_awake heap.old (stored self.old)) }
        ensures keyed { Keyed self.new heap.new }
        ensures same { SameStore self.old self.new }
        ensures later { IsLater self.old self.new }
        ensures gains { GainsNodes heap.old heap.new }
    {
        heap.is_sound();
        refill(self.all, &self.ledger, &mut self.queue)?;
        self.all = false;
        first_up(self.alloc, &mut self.ledger, &mut self.queue, heap)
    }

    /// The place after the newest event.
    pub fn mark(&self) -> StoreMark
        ensures { result.events ≡ length self.now }
    {
        StoreMark {
            events: self.ledger.len(),
        }
    }

    /// Takes back all events past the mark. Takes no memory.
    pub fn undo(&mut self, m: StoreMark)
        requires { m.events ≤ length self.old }
        ensures log { self.new ≡ oldest m.events self.old }
        ensures as_at_the_mark { (log : List (Event C)) → IsLater log self.old → m.events ≡ length log → self.new ≡ log }
    {
        if self.ledger.len() == m.events {
            return;
        }
        self.ledger.undo(m.events);
        self.queue.clear();
        self.all = !self.ledger.is_settled();
    }
}

/// Puts all stored numbers into the queue, where all are to be looked at. Answers `AllocError` on want of memory alone.
fn refill<C: Drop>(all: bool, ledger: &Ledger<C>, queue: &mut Queue) -> Result<(), AllocError>
    ensures more { HasAll queue.old queue.new }
    ensures all { OnOk result (all ≡ true → (n : ℕ) → is_stored ledger.now n ≡ true → has queue.new n ≡ true) }
{
    if !all {
        return Ok(());
    }
    let mut rest = ledger.iter();
    while let Some((number, _)) = rest.next() {
        queue.push(number)?;
    }
    Ok(())
}
