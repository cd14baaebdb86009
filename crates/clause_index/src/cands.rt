//! What is left of the candidates of a call.

ghost use Rattle.std.specs.Prelude.{◌≡◌, drop, slice_get};
ghost use Rattle.clause_index.specs.Index.{left_of};
ghost use Rattle.clause_index.specs.inside.Runs.{run_in, comes_first};

use crate::index::Index;

/// What is left of a list of clauses, by the list's number, if there is one, and the place in it.
#[derive(Clone, Copy, Debug)]
pub(crate) struct Run {
    pub(crate) list: Option<usize>,
    pub(crate) at: usize,
}

/// Candidates of a call that are left. The index that made them says which they are.
#[derive(Clone, Copy, Debug)]
pub struct Cands {
    pub(crate) own: Run,
    pub(crate) loose: Run,
}

impl Run {
    /// The first clause that is left of the list.
    fn first(&self, index: &Index) -> Option<usize>
        ensures { result ≡ slice_get (run_in index.now.lists self.now) 0 }
    {
        let number = self.list?;
        let list = index.lists.list(number);
        if self.at < list.len() {
            return Some(list[self.at]);
        }
        None
    }

    /// Leaves out the first clause that is left, where there is one.
    fn advance(&mut self, index: &Index)
        ensures { run_in index.now.lists self.new ≡ drop 1 (run_in index.now.lists self.old) }
    {
        if let Some(number) = self.list {
            if self.at < index.lists.list(number).len() {
                self.at += 1;
            }
        }
    }
}

/// Whether the next candidate is the first one of the own clauses: where it comes before the first of
/// the other ones, or there is none of these.
fn own_is_next(own: Option<usize>, loose: Option<usize>) -> bool
    ensures { result ≡ comes_first own loose }
{
    match (own, loose) {
        (None, _) => false,
        (Some(_), None) => true,
        (Some(i), Some(j)) => i < j,
    }
}

impl Cands {
    /// The next candidate, in text order. Takes no memory, and compares two heads of lists.
    pub fn next(&mut self, index: &Index) -> Option<usize>
        ensures first { result ≡ slice_get (left_of index.now self.old) 0 }
        ensures rest { left_of index.now self.new ≡ drop 1 (left_of index.now self.old) }
    {
        let own = self.own.first(index);
        let loose = self.loose.first(index);
        if own_is_next(own, loose) {
            self.own.advance(index);
            return own;
        }
        self.loose.advance(index);
        loose
    }
}
