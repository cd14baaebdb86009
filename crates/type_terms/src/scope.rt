//! What is known of the names in a term.
ghost use Rattle.std.specs.Prelude.{◌≡◌, slice_get};

use crate::scheme::Polytype;

/// What is known of the constants and variables of a term: the types that are declared for the constants, each at its
/// number, the nodes of the others, and the nodes of the variables.
#[derive(Clone, Copy)]
pub struct Scope<'a> {
    pub declared: &'a [Option<Polytype>],
    pub constants: &'a [usize],
    pub variables: &'a [usize],
}

/// The node at a place, where there is one.
pub(crate) fn node_of(nodes: &[usize], place: usize) -> Option<usize>
    ensures { result ≡ slice_get nodes.now place }
{
    if place < nodes.len() {
        Some(nodes[place])
    } else {
        None
    }
}
