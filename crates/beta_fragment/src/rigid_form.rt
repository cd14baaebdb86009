//! Applications of a constant, a string or a level: a look at two nodes shows their form.

ghost use Rattle.std.specs.Prelude.{◌≡◌, ◌<◌, length, IfOk, IfSome};
ghost use Rattle.level_terms.specs.Reading.{read};
ghost use Rattle.level_terms.specs.Valid.{IsValid};
ghost use Rattle.ref_terms.specs.terms.Term as term;
ghost use Rattle.beta_fragment.specs.HeadForm.{IsHeadForm, rigid_head};
ghost use Rattle.beta_fragment.specs.Names.{names};

use crate::answer::{RigidHead, Whnf};
use level_terms::{Heap, Node, TermId, TermIds};
use std::alloc::{AllocError, Global};

/// The form of the term, where its node applies such a head.
pub(crate) fn rigid_application(
    alloc: Global,
    heap: &Heap,
    t: TermId,
    depth: usize,
) -> Result<Option<Whnf>, AllocError>
    requires { IsValid heap.now t.index depth }
    ensures { IfOk result (λ found. IfSome found (λ w. IsHeadForm heap.now depth (read heap.now t.index names) w)) }
{
    heap.is_sound();
    let Node::App { head, args } = heap.view(t) else {
        return Ok(None);
    };
    let Some(rigid) = rigid_leaf(heap, *head) else {
        return Ok(None);
    };
    let list = TermIds::from_slice(alloc, args.as_slice())?;
    Ok(Some(Whnf::Rigid(rigid, list)))
}

/// The head that the node is, where it is a constant, a string or a level.
pub(crate) fn rigid_leaf(heap: &Heap, t: TermId) -> Option<RigidHead>
    requires { t.index < length heap.now.nodes }
    ensures { IfSome result (λ h. read heap.now t.index names ≡ term.At (rigid_head h)) }
{
    heap.is_sound();
    match heap.view(t) {
        Node::Con(c) => Some(RigidHead::Con(*c)),
        Node::Str(s) => Some(RigidHead::Str(*s)),
        Node::Level(l) => Some(RigidHead::Level(*l)),
        _ => None,
    }
}
