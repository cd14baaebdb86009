//! The alternatives that a search has left to try.
#![tactic(auto)]

ghost use Rattle.std.specs.Prelude.{◌≡◌, [], ◌∷◌, ◌++◌, ◌-◌, ◌≤◌, ◌↔◌, length, take, OnOk, OnErr, IfErr, IsNone, option_copied, option_to_list, slice_get};

use std::alloc::{AllocFailed, Global};
use std::marker::Model;

/// Alternatives, of which the newest is tried first. Contracts see their list, oldest first.
#[derive(Drop)]
pub struct ChoiceStack<C> {
    choices: Vec<C>,
}

impl<C> Model for ChoiceStack<C> {
    ghost use Rattle.std.specs.Prelude.{List};
    ghost use Rattle.std.specs.Coded.{coded_list};

    ghost Value = { List C };

    ghost coded = { coded_list C.code };

    ghost view = { λ s. s.choices.items };
}

impl<C> ChoiceStack<C> {
    /// A stack with no alternatives. Takes no memory.
    pub fn new(alloc: Global) -> ChoiceStack<C>
        ensures { result ≡ [] }
    {
        ChoiceStack {
            choices: Vec::new(alloc),
        }
    }

    /// Adds the newest alternative. On want of memory, the one reason to refuse it, the
    /// alternative is handed back in the error.
    pub fn push(&mut self, c: C) -> Result<(), AllocFailed<C>>
        ensures ok { OnOk result (self.new ≡ self.old ++ c ∷ []) }
        ensures err { OnErr result (self.new ≡ self.old) }
        ensures handed_back { IfErr result (λ e. e.value ≡ c) }
    {
        self.choices.push(c)
    }

    /// The newest alternative, if there is one. Takes no memory.
    pub fn top(&self) -> Option<&C>
        ensures none { IsNone result ↔ (self.now ≡ []) }
        ensures newest { option_copied result ≡ slice_get self.now (length self.now - 1) }
    {
        self.choices.last()
    }

    /// Takes the newest alternative out, if there is one. Takes no memory.
    pub fn pop(&mut self) -> Option<C>
        ensures none { IsNone result ↔ (self.old ≡ []) }
        ensures newest { self.old ≡ self.new ++ option_to_list result }
    {
        self.choices.pop()
    }

    /// Keeps the `len` oldest alternatives and drops the others, in time linear in their number.
    /// Takes no memory.
    pub fn cut_to(&mut self, len: usize)
    where
        C: Drop,
        requires { len ≤ length self.old }
        ensures { self.new ≡ take len self.old }
    {
        self.choices.truncate(len);
    }

    /// The number of alternatives.
    pub fn len(&self) -> usize
        ensures { result ≡ length self.now }
    {
        self.choices.len()
    }
}
