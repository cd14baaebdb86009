//! Variables at their own depth: the spine is that of all levels, and needs no list.

ghost use Rattle.std.specs.Prelude.{◌≡◌, ◌<◌, true, None, length, IfSome};
ghost use Rattle.level_terms.specs.Graph.{value_in};
ghost use Rattle.level_terms.specs.Valid.{IsValid};
ghost use Rattle.pattern_unify.specs.inside.Own.{IsOwn};
ghost use Rattle.pattern_unify.specs.inside.Sides.{IsRigid};

use crate::side::{Side, is_rigid};
use level_terms::{Heap, Node, TermId, VarId};

/// The assignable variable that the node is, where it has no value and was made at this depth.
/// Variables below the mark are frozen.
pub(crate) fn own_variable(heap: &Heap, mark: VarId, t: TermId, depth: usize) -> Option<VarId>
    requires { IsValid heap.now t.index depth }
    ensures { IfSome result (λ v. IsOwn heap.now mark.index depth t.index v) }
{
    heap.is_sound();
    if let Node::Var(v) = heap.view(t) {
        let v = *v;
        if v.index >= mark.index && heap.var_depth(v) == depth && is_open(heap, v) {
            return Some(v);
        }
    }
    None
}

/// Such a variable, where it stands beside a rigid head.
pub(crate) fn own_beside(
    heap: &Heap,
    mark: VarId,
    side: &Side,
    t: TermId,
    depth: usize,
) -> Option<VarId>
    requires { IsValid heap.now t.index depth }
    ensures rigid { IfSome result (λ v. IsRigid side.now) }
    ensures own { IfSome result (λ v. IsOwn heap.now mark.index depth t.index v) }
{
    if is_rigid(side) {
        own_variable(heap, mark, t, depth)
    } else {
        None
    }
}

/// Whether the variable has no value.
fn is_open(heap: &Heap, v: VarId) -> bool
    requires { v.index < length heap.now.depths }
    ensures { result ≡ true → value_in heap.now.assigned v.index ≡ None }
{
    heap.value(v).is_none()
}
