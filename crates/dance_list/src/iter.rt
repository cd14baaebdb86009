// The iterator over the linked nodes.
ghost use Rattle.std.specs.Prelude.{◌≡◌, length};
ghost use Rattle.std.specs.Iterator.{at_most};
ghost use Rattle.std.specs.Map.Iter.{TakesFirst};
ghost use Rattle.dance_list.specs.Dance.{linked, shown};

use crate::cells::Node;
use crate::list::DanceList;
use std::marker::Model;

/// Gives each linked node with a reference to its item, in list order. Contracts see it as what it has left.
#[derive(Drop)]
pub struct DanceIter<'a, T> {
    list: &'a DanceList<T>,
    next: Option<Node>,
    left: usize,
}

impl<'a, T> Model for DanceIter<'a, T> {
    ghost use Rattle.std.specs.Prelude.{◌≡◌, ◌-◌, ◌≤◌, List, None, drop, length};
    ghost use Rattle.dance_list.specs.Dance.{linked, first_of};
    ghost use Rattle.dance_list.specs.declared.cells.Node.{Node as Place};

    ghost Value = { List (Place × T) };

    ghost view = { λ it. drop (length (linked it.list.now) - it.left) (linked it.list.now) };

    ghost invariant = { λ it. (it.left ≤ length (linked it.list.now)) × (it.next ≡ first_of (drop (length (linked it.list.now) - it.left) (linked it.list.now)) None) };
}

impl<T> DanceList<T> {
    /// The linked nodes with their items.
    pub fn iter(&self) -> DanceIter<'_, T>
        ensures { result ≡ linked self.now }
    {
        DanceIter {
            list: self,
            next: self.first(),
            left: self.len(),
        }
    }
}

impl<'a, T> Iterator for DanceIter<'a, T> {
    type Item = (Node, &'a T);

    ghost next_gives = { TakesFirst shown };

    ghost remaining = { λ s. at_most (length s) };

    fn next(&mut self) -> Option<(Node, &'a T)> {
        if self.left == 0 {
            return None;
        }
        match self.next {
            None => None,
            Some(n) => {
                let (after, item) = self.list.step(n);
                self.next = after;
                self.left -= 1;
                Some((n, item))
            }
        }
    }
}
