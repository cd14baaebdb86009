//! What may be done with the terms of a query's variables and with the suspended goals.

ghost use Rattle.std.specs.Prelude.{List, [], map, OnOk};
ghost use Rattle.level_terms.specs.Growth.{Grows};
ghost use Rattle.beta_fragment.specs.HeadForm.{AllValidAt, all_read};
ghost use Rattle.ref_terms.specs.terms.Term.{Term};
ghost use Rattle.ref_terms.specs.search.Branch.{Constraint as ReadConstraint};
ghost use Rattle.suspend.specs.Store.{stored};
ghost use Rattle.search_moves.specs.World.{AllConstraints};
ghost use Rattle.search_moves.specs.Reading.{constraint_in};

use hyp_context::Context;
use level_terms::{Heap, TermId};
use std::alloc::{AllocError, Global};
use suspend::Store;

/// Looks at the nodes of a query's variables and at the suspended goals, as by printing them. What it
/// makes in the heap is taken back after it.
pub trait Visitor {
    ghost sees: { Self → List Term → List ReadConstraint → Self → Type 0 };

    /// Looks at the nodes and the suspended goals. Where memory is wanting nothing is said of the
    /// visitor.
    fn visit(
        &mut self,
        alloc: Global,
        heap: &mut Heap,
        query: &[TermId],
        store: &Store<Context>,
    ) -> Result<(), AllocError>
        requires query { AllValidAt heap.old query.now 0 }
        requires constraints { AllConstraints heap.old (stored store.now) }
        ensures sees { OnOk result (sees self.old (all_read heap.old query.now) (map (constraint_in heap.old) (stored store.now)) self.new) }
        ensures grows { Grows heap.old heap.new [] [] };
}
