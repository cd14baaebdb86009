//! A log of changes that are taken back newest first.
//!
//! Room for entries is made ahead, by `reserve`. So noting a change and taking it back can't be
//! refused, and what was taken back can be noted again with no new room.
#![tactic(auto)]

ghost use Rattle.std.specs.Prelude.{◌≡◌, [], ◌∷◌, ◌++◌, ◌+◌, ◌≤◌, ◌↔◌, length, drop, OnOk, OnErr, OnSome, IsOk, IsNone, IfNone, IfSome};

use std::alloc::{AllocError, Global};
use std::marker::Model;

/// Entries, oldest first, and room for more. Contracts see the list `entries`, and `spare`, how
/// many entries can be noted before room has to be made.
#[derive(Drop)]
pub struct Trail<E> {
    entries: Vec<E>,
}

impl<E> Model for Trail<E> {
    ghost use Rattle.std.specs.Prelude.{◌-◌, vec_len, vec_capacity};
    ghost use Rattle.trail.specs.Log.{Log, log_code};

    ghost Value = { Log E };

    ghost coded = { log_code E.code };

    ghost view = { λ t. record { entries = t.entries.items; spare = vec_capacity t.entries - vec_len t.entries } };
}

/// A place between two entries of a trail: how many entries stood there when it was taken.
#[derive(Clone, Copy, Debug, PartialEq, Eq)]
pub struct Mark {
    pub entries: usize,
}

impl<E> Trail<E> {
    /// A trail with no entries and no room. Takes no memory.
    pub fn new(alloc: Global) -> Trail<E>
        ensures entries { result.entries ≡ [] }
        ensures spare { result.spare ≡ 0 }
    {
        Trail {
            entries: Vec::new(alloc),
        }
    }

    /// The place after the newest entry.
    pub fn mark(&self) -> Mark
        ensures { result.entries ≡ length self.now.entries }
    {
        Mark {
            entries: self.entries.len(),
        }
    }

    /// The number of entries.
    pub fn len(&self) -> usize
        ensures { result ≡ length self.now.entries }
    {
        self.entries.len()
    }

    /// Makes room for at least `n` more entries. Room that is there stays, and where `n` entries
    /// already have room, nothing is asked of memory. Answers `AllocError` on want of memory alone.
    pub fn reserve(&mut self, n: usize) -> Result<(), AllocError>
        ensures entries { self.new.entries ≡ self.old.entries }
        ensures room { OnOk result (n ≤ self.new.spare) }
        ensures never_less { self.old.spare ≤ self.new.spare }
        ensures enough { n ≤ self.old.spare → IsOk result }
        ensures err { OnErr result (self.new ≡ self.old) }
    {
        self.entries.reserve(n)?;
        Ok(())
    }

    /// Adds the newest entry. It uses one of the spare places, and takes no memory.
    pub fn note(&mut self, entry: E)
        requires { 1 ≤ self.old.spare }
        ensures entries { self.new.entries ≡ self.old.entries ++ entry ∷ [] }
        ensures spare { self.new.spare + 1 ≡ self.old.spare }
    {
        self.entries.push_reserved(entry);
    }

    /// Takes the newest entry out and hands it back, if one stands past the mark. Its place is
    /// spare from then on. Takes no memory.
    pub fn undo_one(&mut self, m: Mark) -> Option<E>
        requires { m.entries ≤ length self.old.entries }
        ensures none { IsNone result ↔ (length self.old.entries ≡ m.entries) }
        ensures newest { IfSome result (λ entry. self.old.entries ≡ self.new.entries ++ entry ∷ []) }
        ensures spare { OnSome result (self.new.spare ≡ self.old.spare + 1) }
        ensures unchanged { IfNone result (self.new ≡ self.old) }
    {
        if self.entries.len() <= m.entries {
            return None;
        }
        self.entries.pop()
    }

    /// The entries past the mark, oldest first. Takes no memory.
    pub fn since(&self, m: Mark) -> &[E]
        requires { m.entries ≤ length self.now.entries }
        ensures { result.now ≡ drop m.entries self.now.entries }
    {
        &self.entries[m.entries..]
    }
}
