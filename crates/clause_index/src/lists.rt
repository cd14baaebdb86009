//! Lists of clauses by their groups.

ghost use Rattle.std.specs.Prelude.{◌≡◌, ℕ, [], ◌∷◌, ◌++◌, cond, OnOk};
ghost use Rattle.clause_index.specs.inside.Lists.{number_of, list_at, list_of, same_group, IsPaired};

use clause_key::Key;
use indexmap::IndexSet;
use ref_terms::Sym;
use std::alloc::{AllocError, Global};

/// Some clauses of a predicate.
#[derive(Clone, Copy, Debug, PartialEq, Eq, Hash)]
pub(crate) enum Group {
    /// All of them.
    Every(Sym),
    /// Those whose key agrees with every key.
    Loose(Sym),
    /// Those with this key.
    Keyed(Sym, Key),
}

/// The numbers of clauses by groups, each list in order. A group's list has the number at which the
/// group stands in the set.
#[derive(Drop)]
pub(crate) struct Lists {
    groups: IndexSet<Group>,
    lists: Vec<Vec<usize>>,
}

impl Lists {
    /// No group has a clause. Takes no memory.
    pub(crate) fn new(alloc: Global) -> Lists
        ensures empty { (g : Group) → list_of result g ≡ [] }
        ensures paired { IsPaired result }
    {
        Lists {
            groups: IndexSet::new(alloc),
            lists: Vec::new(alloc),
        }
    }

    /// The number of a group's list, if it has one.
    pub(crate) fn number(&self, group: Group) -> Option<usize>
        ensures { result ≡ number_of self.now group }
    {
        self.groups.get_index_of(&group)
    }

    /// The clauses of the list with this number; none where there is none.
    pub(crate) fn list(&self, number: usize) -> &[usize]
        ensures { result.now ≡ list_at self.now number }
    {
        if number < self.lists.len() {
            return self.lists[number].as_slice();
        }
        &[]
    }

    /// Puts a clause last into a group's list.
    pub(crate) fn push(
        &mut self,
        alloc: Global,
        group: Group,
        clause: usize,
    ) -> Result<(), AllocError>
        requires { IsPaired self.old }
        ensures lists { OnOk result ((g : Group) → list_of self.new g ≡ cond (same_group g group) (list_of self.old g ++ clause ∷ []) (list_of self.old g)) }
        ensures paired { OnOk result (IsPaired self.new) }
    {
        if let Some(number) = self.groups.get_index_of(&group) {
            self.lists[number].push(clause)?;
            return Ok(());
        }
        let mut list = Vec::new(alloc);
        list.push(clause)?;
        self.lists.push(list)?;
        self.groups.insert(group)?;
        Ok(())
    }
}
