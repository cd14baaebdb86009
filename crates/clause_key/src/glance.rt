//! What a look at a few nodes tells of keys. A look makes nothing, and takes constant time.

ghost use Rattle.std.specs.Prelude.{◌≡◌, ◌<◌, length};
ghost use Rattle.level_terms.specs.Reading.{read};
ghost use Rattle.beta_fragment.specs.Names.{names};
ghost use Rattle.ref_terms.specs.unification.Spine.{args_of};
ghost use Rattle.clause_key.specs.Keys as spec;
ghost use Rattle.clause_key.specs.Seen.{node_key, IsSeen, IsSeenAmong};

use crate::call::key_argument;
use crate::key::{Key, fits_every};
use level_terms::{Heap, Node, TermId};

/// The key of a node that is a rigid head by itself; `Key::Any` of any other.
fn key_of_node(node: &Node) -> Key
    ensures { result ≡ node_key node.now }
{
    match node {
        Node::Con(c) => Key::Con(*c),
        Node::Int(n) => Key::Int(*n),
        Node::Str(s) => Key::Str(*s),
        Node::Level(l) => Key::Level(*l),
        Node::Lam { .. } => Key::Any,
        Node::App { .. } => Key::Any,
        Node::Var(_) => Key::Any,
    }
}

/// The value of a node that is a variable's, where it has one; else the node itself.
fn followed(heap: &Heap, t: TermId) -> TermId
    requires { t.index < length heap.now.nodes }
    ensures there { result.index < length heap.now.nodes }
    ensures same { read heap.now t.index names ≡ read heap.now result.index names }
{
    heap.is_sound();
    match heap.view(t) {
        Node::Var(v) => match heap.value(*v) {
            Some(value) => value,
            None => t,
        },
        _ => t,
    }
}

/// The key of a term, as far as a look tells; else `Key::Any`.
fn seen_key(heap: &Heap, t: TermId) -> Key
    requires { t.index < length heap.now.nodes }
    ensures { IsSeen result (read heap.now t.index names) }
{
    heap.is_sound();
    let node = followed(heap, t);
    match heap.view(node) {
        Node::App { head, .. } => key_of_node(heap.view(*head)),
        other => key_of_node(other),
    }
}

/// The key among the arguments of an atom of which these are inputs, as far as a look tells; else
/// `Key::Any`. Makes nothing, and looks at a few nodes.
pub fn seen_among(heap: &Heap, inputs: &[bool], atom: TermId) -> Key
    requires { atom.index < length heap.now.nodes }
    ensures { IsSeenAmong result inputs.now (args_of (read heap.now atom.index names)) }
{
    heap.is_sound();
    let node = followed(heap, atom);
    match heap.view(node) {
        Node::App { head, args } => {
            if fits_every(key_of_node(heap.view(*head))) {
                return Key::Any;
            }
            match key_argument(inputs, args.as_slice()) {
                Some(arg) => seen_key(heap, arg),
                None => Key::Any,
            }
        }
        _ => Key::Any,
    }
}

/// The key where the levels from `scope` on may become anything.
pub fn fixed_key(scope: usize, key: Key) -> Key
    ensures { result ≡ spec.fixed_key scope key }
{
    match key {
        Key::Level(l) if l >= scope => Key::Any,
        other => other,
    }
}
