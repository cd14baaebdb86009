// What happened to a list, which only its contracts see. It takes no bytes.
ghost use Rattle.std.specs.Prelude.{◌≡◌, List, [], ◌∷◌, ◌++◌};
ghost use base.Fml.{ftrue};
ghost use Rattle.dance_list.specs.Dance.{Unlinked, undone, left_by};
ghost use Rattle.dance_list.specs.declared.cells.Node.{Node as Place};

use crate::cells::Node;
use std::marker::{Model, PhantomData};

#[derive(Drop)]
pub(crate) struct History<T> {
    mark: PhantomData<*const T>,
    ghost linked: { List (Place × T) },
    ghost unlinked: { List (Unlinked T) },
}

impl<T> Model for History<T> {
    ghost also_owns = { λ _. ftrue };
}

impl<T> History<T> {
    pub(crate) fn new() -> History<T>
        ensures { (result.linked ≡ []) × (result.unlinked ≡ []) }
    {
        History { mark: PhantomData }
    }

    pub(crate) fn pushed(&mut self, node: &Node, item: &T)
        ensures { (self.new.linked ≡ self.old.linked ++ (node.now, item.now) ∷ []) × (self.new.unlinked ≡ self.old.unlinked) }
    {}

    pub(crate) fn unlinked(&mut self, node: &Node)
        requires { (u : Unlinked T) × (u.0 ≡ node.now) × (self.old.linked ≡ undone u) }
        ensures { (u : Unlinked T) × (u.0 ≡ node.now) × (self.old.linked ≡ undone u) × (self.new.linked ≡ left_by u) × (self.new.unlinked ≡ u ∷ self.old.unlinked) }
    {}

    pub(crate) fn relinked(&mut self, node: &Node)
        requires { (u : Unlinked T) × (us : List (Unlinked T)) × (u.0 ≡ node.now) × (self.old.unlinked ≡ u ∷ us) }
        ensures { (u : Unlinked T) × (u.0 ≡ node.now) × (self.old.unlinked ≡ u ∷ self.new.unlinked) × (self.new.linked ≡ undone u) }
    {}

    pub(crate) fn popped(&mut self, node: &Node)
        requires { (ls : List (Place × T)) × (x : T) × (self.old.linked ≡ ls ++ (node.now, x) ∷ []) }
        ensures { (x : T) × (self.old.linked ≡ self.new.linked ++ (node.now, x) ∷ []) × (self.new.unlinked ≡ self.old.unlinked) }
    {}
}
