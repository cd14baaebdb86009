//! A list whose tails are shared.

ghost use Rattle.std.specs.Prelude.{◌≡◌, ◌∷◌, [], cond, not, IfOk};
ghost use Rattle.hyp_context.specs.inside.Items.{items_of};

use hyp_clause::Hyp;
use std::alloc::{AllocError, Global};
use std::rc::Rc;

/// A list of hypothetical clauses, newest first. Lists share their tails.
#[cycle(chain)]
pub(crate) enum Chain {
    /// The empty list.
    End,
    /// A hypothetical clause before older ones.
    Link(Rc<Entry>),
}

/// A hypothetical clause before older ones.
#[derive(Drop)]
#[cycle(chain)]
pub(crate) struct Entry {
    pub hyp: Rc<Hyp>,
    pub older: Chain,
}

// A loop: lists may be long.
impl Drop for Chain {
    fn drop(mut self) {
        loop {
            match self {
                Chain::End => return,
                Chain::Link(entry) => match Rc::into_inner(entry) {
                    None => return,
                    Some(Entry { hyp: _, older }) => self = older,
                },
            }
        }
    }
}

impl Chain {
    /// The same list, in constant time.
    pub fn copy(&self) -> Result<Chain, AllocError>
        ensures { IfOk result (λ c. items_of c ≡ items_of self.now) }
    {
        match self {
            Chain::End => Ok(Chain::End),
            Chain::Link(entry) => Ok(Chain::Link(entry.clone()?)),
        }
    }

    /// The list with one more in front, in constant time.
    pub fn with(self, alloc: Global, hyp: Rc<Hyp>) -> Result<Chain, AllocError>
        ensures { IfOk result (λ c. items_of c ≡ hyp.value ∷ items_of self) }
    {
        let entry = Rc::new(alloc, Entry { hyp, older: self })?;
        Ok(Chain::Link(entry))
    }

    /// The list with this one in front if something in it can change.
    pub fn with_changeable(&self, alloc: Global, hyp: &Rc<Hyp>) -> Result<Chain, AllocError>
        ensures { IfOk result (λ c. items_of c ≡ cond (not hyp.now.value.ground_normal) (hyp.now.value ∷ items_of self.now) (items_of self.now)) }
    {
        if hyp.ground_normal {
            return self.copy();
        }
        let list = self.copy()?.with(alloc, hyp.clone()?)?;
        Ok(list)
    }
}
