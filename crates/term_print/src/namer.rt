//! Numbers of variables.

ghost use Rattle.std.specs.Prelude.{◌≡◌, [], IfOk, OnOk};
ghost use Rattle.ref_terms.specs.texts.Numbering.{place_of, seen_also};

use indexmap::IndexSet;
use level_terms::VarId;
use std::alloc::{AllocError, Global};
use std::marker::Model;

/// The variables that were printed in one event, which contracts see as a list, in the order of
/// their first places. The number of a variable is its place there.
#[derive(Drop)]
pub struct Namer {
    seen: IndexSet<u32>,
}

impl Model for Namer {
    ghost use Rattle.std.specs.Prelude.{List, ℕ};

    ghost Value = { List ℕ };

    ghost view = { λ it. it.seen.keys };
}

impl Namer {
    /// No variable has a number yet. Takes no memory.
    pub fn new(alloc: Global) -> Namer
        ensures { result ≡ [] }
    {
        Namer {
            seen: IndexSet::new(alloc),
        }
    }

    /// The number of a variable. A new one gets the next number.
    ///
    /// Errors: want of memory.
    pub(crate) fn number_of(&mut self, v: VarId) -> Result<usize, AllocError>
        ensures number { IfOk result (λ number. number ≡ place_of v.index self.old) }
        ensures seen { OnOk result (self.new ≡ seen_also v.index self.old) }
    {
        let (number, _) = self.seen.insert_full(v.index)?;
        Ok(number)
    }
}
