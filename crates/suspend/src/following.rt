//! What a variable became.

ghost use Rattle.std.specs.Prelude.{◌≡◌, ◌<◌, true, length, slice_index, IfSome, None};
ghost use Rattle.level_terms.specs.Graph.{value_in};
ghost use Rattle.suspend.specs.inside.Renamed.{IsFreeVariable, BecomesVariable};

use level_terms::{Heap, Node, TermId, VarId};

/// The variable without a value that is the value of this one, where neither has levels.
pub(crate) fn renamed_to(heap: &Heap, v: VarId) -> Option<u64>
    ensures { IfSome result (λ u. BecomesVariable heap.now v.index u) }
{
    if v.index >= heap.next_var().index || heap.var_depth(v) != 0 {
        return None;
    }
    match heap.value(v) {
        None => None,
        Some(t) => free_variable(heap, t),
    }
}

/// The variable that a node is, where it has neither a value nor levels.
fn free_variable(heap: &Heap, t: TermId) -> Option<u64>
    requires { t.index < length heap.now.nodes }
    ensures { IfSome result (λ u. IsFreeVariable heap.now t.index u) }
{
    match heap.view(t) {
        Node::Var(u) => {
            if is_free(heap, *u) {
                Some(u.index as u64)
            } else {
                None
            }
        }
        _ => None,
    }
}

/// Whether a variable has neither a value nor levels.
fn is_free(heap: &Heap, u: VarId) -> bool
    ensures { result ≡ true → (slice_index heap.now.depths u.index ≡ 0) × (value_in heap.now.assigned u.index ≡ None) }
{
    if u.index >= heap.next_var().index || heap.var_depth(u) != 0 {
        return false;
    }
    heap.value(u).is_none()
}
