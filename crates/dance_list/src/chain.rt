// The cells of a list and the ends of its chain.
ghost use Rattle.std.specs.Prelude.{◌≡◌, ◌∷◌, [], ◌++◌, length, IfSome, MatchOption};
ghost use Rattle.dance_list.specs.Dance.{Has, IsHere, put};
ghost use Rattle.dance_list.specs.declared.chain.Cell.{Cell as Content};

use crate::cells::{Cells, Node};
use crate::loose::Loose;
use std::alloc::Global;

// What lies at a node. An unlinked node keeps the links that it had.
#[derive(Drop)]
pub(crate) struct Cell<T> {
    pub(crate) before: Option<Node>,
    pub(crate) after: Option<Node>,
    pub(crate) item: T,
}

#[derive(Drop)]
pub(crate) struct Chain<T> {
    pub(crate) cells: Cells<Cell<T>>,
    pub(crate) first: Option<Node>,
    pub(crate) last: Option<Node>,
}

impl<T> Chain<T> {
    // Leads from `at` on to `to`, or begins the list with it.
    pub(crate) fn set_after(&mut self, at: Option<Node>, to: Option<Node>)
        requires { IfSome at (λ m. IsHere self.old.cells.blocks m) }
        ensures link { MatchOption at ((self.new.first ≡ to) × (self.new.cells.blocks ≡ self.old.cells.blocks)) (λ m. (self.new.first ≡ self.old.first) × ((c : Content T) × Has self.old.cells.blocks m c × (self.new.cells.blocks ≡ put self.old.cells.blocks m (record c { after = to })))) }
        ensures other_end { self.new.last ≡ self.old.last }
    {
        match at {
            None => self.first = to,
            Some(node) => self.cells.get_mut(node.place, node.number).after = to,
        }
    }

    // Leads from `at` back to `to`, or ends the list with it.
    pub(crate) fn set_before(&mut self, at: Option<Node>, to: Option<Node>)
        requires { IfSome at (λ m. IsHere self.old.cells.blocks m) }
        ensures link { MatchOption at ((self.new.last ≡ to) × (self.new.cells.blocks ≡ self.old.cells.blocks)) (λ m. (self.new.last ≡ self.old.last) × ((c : Content T) × Has self.old.cells.blocks m c × (self.new.cells.blocks ≡ put self.old.cells.blocks m (record c { before = to })))) }
        ensures other_end { self.new.first ≡ self.old.first }
    {
        match at {
            None => self.last = to,
            Some(node) => self.cells.get_mut(node.place, node.number).before = to,
        }
    }
}
