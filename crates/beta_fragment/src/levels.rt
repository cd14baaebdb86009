//! What the levels of a node stand for.

ghost use Rattle.std.specs.Prelude.{◌≡◌, ℕ, ◌∷◌, [], ◌++◌, ◌<◌, length, take, slice_index, IfOk, OnOk};

use std::alloc::{AllocError, Global};
use std::marker::Model;

/// A name for each level. Those below a number stand for their own names and take no memory;
/// contracts see the list of all.
#[derive(Drop)]
pub(crate) struct Levels {
    own: usize,
    more: Vec<usize>,
}

impl Model for Levels {
    ghost use Rattle.std.specs.Prelude.{List, ℕ};
    ghost use Rattle.beta_fragment.specs.inside.LevelList.{levels_view, AreFew};

    ghost Value = { List ℕ };

    ghost view = { levels_view };

    ghost invariant = { AreFew };
}

impl Levels {
    /// So many levels, each for its own name. Takes no memory.
    pub(crate) fn own(alloc: Global, depth: usize) -> Levels
        ensures count { length result ≡ depth }
        ensures own { (i : ℕ) → i < depth → slice_index result i ≡ i }
    {
        Levels {
            own: depth,
            more: Vec::new(alloc),
        }
    }

    /// The names of a list.
    pub(crate) fn of(alloc: Global, names: &[usize]) -> Result<Levels, AllocError>
        ensures { IfOk result (λ levels. levels ≡ names.now) }
    {
        let more = Vec::from_slice(alloc, names)?;
        Ok(Levels { own: 0, more })
    }

    /// How many levels there are.
    pub(crate) fn len(&self) -> usize
        ensures { result ≡ length self.now }
    {
        self.own + self.more.len()
    }

    /// The name of a level.
    pub(crate) fn name(&self, level: usize) -> usize
        requires { level < length self.now }
        ensures { result ≡ slice_index self.now level }
    {
        if level < self.own {
            return level;
        }
        self.more[level - self.own]
    }

    /// Keeps so many levels.
    pub(crate) fn truncate(&mut self, count: usize)
        ensures { self.new ≡ take count self.old }
    {
        if count <= self.own {
            self.own = count;
            self.more.clear();
        } else {
            self.more.truncate(count - self.own);
        }
    }

    /// Puts a name last.
    pub(crate) fn push(&mut self, name: usize) -> Result<(), AllocError>
        ensures { OnOk result (self.new ≡ self.old ++ name ∷ []) }
    {
        if self.len() == usize::MAX {
            return Err(AllocError);
        }
        self.more.push(name)?;
        Ok(())
    }
}
