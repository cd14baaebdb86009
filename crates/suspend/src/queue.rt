//! Numbers that are to be looked at, the least one first.

ghost use Rattle.std.specs.Prelude.{◌≡◌, ℕ, ◌<◌, true, false, nat_eq, List, [], length, IfSome, IfNone, OnOk, OnErr};
ghost use Rattle.suspend.specs.Store.{has};
ghost use Rattle.suspend.specs.inside.Queue.{IsLeast, Gets, Gives, Leaves};

use std::alloc::{AllocError, Global};
use std::cmp::Reverse;
use std::collections::BinaryHeap;
use std::marker::Model;

/// Numbers, in a heap that has the least one at the top. One may stand twice. Contracts see the numbers in no order that
/// matters.
#[derive(Drop)]
pub(crate) struct Queue {
    heap: BinaryHeap<Reverse<u64>>,
}

impl Model for Queue {
    ghost use Rattle.std.specs.Prelude.{ℕ, List};

    ghost Value = { List ℕ };

    ghost use Rattle.suspend.specs.inside.Queue.{numbers_of, IsInOrder};

    ghost view = { λ q. numbers_of q.heap };

    ghost invariant = { λ q. IsInOrder q.heap };
}

impl Queue {
    /// No numbers. Takes no memory.
    pub(crate) fn new(alloc: Global) -> Queue
        ensures { result ≡ [] }
    {
        Queue {
            heap: BinaryHeap::new(alloc),
        }
    }

    /// Puts a number in. Answers `AllocError` on want of memory alone.
    pub(crate) fn push(&mut self, number: u64) -> Result<(), AllocError>
        ensures ok { OnOk result (Gets self.old number self.new) }
        ensures err { OnErr result (self.new ≡ self.old) }
    {
        self.heap.push(Reverse(number))?;
        Ok(())
    }

    /// The least number.
    pub(crate) fn first(&self) -> Option<u64>
        ensures some { IfSome result (λ n. IsLeast self.now n) }
        ensures none { IfNone result (self.now ≡ []) }
    {
        match self.heap.peek() {
            Some(top) => Some(top.0),
            None => None,
        }
    }

    /// Takes the least number out, as often as it stands there. Takes no memory.
    pub(crate) fn leave(&mut self, number: u64)
        requires { IsLeast self.old number }
        ensures { Leaves self.old number self.new }
    {
        self.take();
        while let Some(least) = self.first() {
            if least != number {
                return;
            }
            self.take();
        }
    }

    /// Takes the least number out once. Takes no memory.
    fn take(&mut self)
        requires { 0 < length self.old }
        ensures { (n : ℕ) × Gives self.old n self.new }
    {
        let _least = self.heap.pop();
    }

    /// Takes all numbers out. Takes no memory.
    pub(crate) fn clear(&mut self)
        ensures { self.new ≡ [] }
    {
        self.heap.clear();
    }
}
