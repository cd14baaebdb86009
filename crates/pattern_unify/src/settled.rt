//! The node that a variable's node stands for.

ghost use Rattle.std.specs.Prelude.{◌≡◌};
ghost use Rattle.level_terms.specs.Reading.{read};
ghost use Rattle.level_terms.specs.Valid.{IsValid};
ghost use Rattle.beta_fragment.specs.Names.{names};

use level_terms::{Heap, Node, TermId};

/// The value of a variable's node, where it has one, and else the node itself: it reads the same. So a
/// variable that gets another one's node as its value makes no chain of values longer. Takes no memory.
pub(crate) fn settled(heap: &Heap, t: TermId, depth: usize) -> TermId
    requires { IsValid heap.now t.index depth }
    ensures reads { read heap.now result.index names ≡ read heap.now t.index names }
    ensures valid { IsValid heap.now result.index depth }
{
    heap.is_sound();
    match heap.view(t) {
        Node::Var(v) => match heap.value(*v) {
            Some(value) => value,
            None => t,
        },
        _ => t,
    }
}
