//! Whether something can change in the nodes of a clause.

ghost use Rattle.std.specs.Prelude.{◌≡◌, ◌<◌, ◌∷◌, length};
ghost use Rattle.level_terms.specs.Sound.{AllOlder};
ghost use Rattle.hyp_clause.specs.Hyps.{all_ground_normal};

use level_terms::{Heap, TermId};

/// Whether neither a variable nor an applied abstraction stands in head, term and conditions.
pub(crate) fn are_all_fixed(heap: &Heap, head: TermId, term: TermId, body: &[TermId]) -> bool
    requires { AllOlder (length heap.now.nodes) (head ∷ term ∷ body.now) }
    ensures { result ≡ all_ground_normal heap.now (head ∷ term ∷ body.now) }
{
    if !heap.is_ground_normal(head) {
        return false;
    }
    if !heap.is_ground_normal(term) {
        return false;
    }
    are_fixed(heap, body)
}

/// Whether neither a variable nor an applied abstraction stands in any of the nodes.
fn are_fixed(heap: &Heap, ts: &[TermId]) -> bool
    requires { AllOlder (length heap.now.nodes) ts.now }
    ensures { result ≡ all_ground_normal heap.now ts.now }
{
    for t in ts {
        if !heap.is_ground_normal(*t) {
            return false;
        }
    }
    true
}
