//! The forms around a part of a term that is read as clauses.

ghost use Rattle.std.specs.Prelude.{◌≡◌, ◌∷◌, [], IfOk};
ghost use Rattle.hyp_clause.specs.inside.Forms.{forms_of};

use level_terms::TermId;
use std::alloc::{AllocError, Global};
use std::rc::Rc;

/// A form around a clause.
#[derive(Clone, Copy, Debug, PartialEq, Eq)]
pub(crate) enum Form {
    /// The clause `:-` this goal.
    If(TermId),
    /// This goal `=>` the clause.
    Implies(TermId),
    /// `pi` over the name of this level.
    Pi(usize),
}

/// Forms, innermost first. Lists share their tails.
#[cycle(forms)]
pub(crate) enum Forms {
    /// None.
    End,
    /// A form inside others.
    Inside(Rc<Layer>),
}

/// A form inside others.
#[derive(Drop)]
#[cycle(forms)]
pub(crate) struct Layer {
    pub form: Form,
    pub outer: Forms,
}

// A loop: there may be many forms.
impl Drop for Forms {
    fn drop(mut self) {
        loop {
            match self {
                Forms::End => return,
                Forms::Inside(layer) => match Rc::into_inner(layer) {
                    None => return,
                    Some(Layer { form: _, outer }) => self = outer,
                },
            }
        }
    }
}

impl Forms {
    /// The same forms, in constant time.
    pub fn copy(&self) -> Result<Forms, AllocError>
        ensures { IfOk result (λ f. forms_of f ≡ forms_of self.now) }
    {
        match self {
            Forms::End => Ok(Forms::End),
            Forms::Inside(layer) => Ok(Forms::Inside(layer.clone()?)),
        }
    }

    /// With one more inside, in constant time.
    pub fn with(&self, alloc: Global, form: Form) -> Result<Forms, AllocError>
        ensures { IfOk result (λ f. forms_of f ≡ form ∷ forms_of self.now) }
    {
        let outer = self.copy()?;
        Ok(Forms::Inside(Rc::new(alloc, Layer { form, outer })?))
    }
}
