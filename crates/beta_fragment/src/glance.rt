//! What is certain of a term at a glance, without making a node.

ghost use Rattle.std.specs.Prelude.{◌≡◌, ℕ, ◌<◌, ◌≤◌, ◌-◌, length, take, IsTrue, None, IfSome};
ghost use Rattle.level_terms.specs.Graph.{node_at, value_in};
ghost use Rattle.level_terms.specs.Valid.{IsValid};
ghost use Rattle.level_terms.specs.Reading.{read};
ghost use Rattle.beta_fragment.specs.Names.{names};
ghost use Rattle.level_terms.specs.Values.{IsVarOf, value_of};
ghost use Rattle.beta_fragment.specs.Firm.{IsFirmNode, IsPlainNode, IsReadyNode, IsOpenNode, IsAbstractionNode, EndsOtherwise, IsOther, IsReadiness, HasLevel, SomeHas, AllThere};

use level_terms::{Heap, Node, TermId, VarId};

/// What a look at an argument says.
#[derive(Clone, Copy)]
pub(crate) enum Readiness {
    /// The name of a level.
    Level(usize),
    /// Another term that is ready, which this node reads as: an abstraction takes it.
    Ready(TermId),
    /// Nothing that an abstraction takes.
    Unready,
    /// More has to be done to tell.
    Unknown,
}

/// Whether the variable has no value.
fn is_free(heap: &Heap, v: VarId) -> bool
    requires { v.index < length heap.now.depths }
    ensures { IsTrue result → value_in heap.now.assigned v.index ≡ None }
{
    match heap.value(v) {
        Some(_) => false,
        None => true,
    }
}

/// Whether the node is certain to be no abstraction.
pub(crate) fn is_plain(heap: &Heap, t: TermId) -> bool
    requires { t.index < length heap.now.nodes }
    ensures { IsTrue result → IsPlainNode heap.now t.index }
{
    heap.is_sound();
    match heap.view(t) {
        Node::Con(_) => true,
        Node::Int(_) => true,
        Node::Str(_) => true,
        Node::Level(_) => true,
        Node::Var(v) => is_free(heap, *v),
        Node::Lam { .. } => is_bare_var(heap, t),
        _ => false,
    }
}

/// Whether the node is an abstraction's that contracts to a variable without a value.
fn is_bare_var(heap: &Heap, t: TermId) -> bool
    requires { t.index < length heap.now.nodes }
    ensures { IsTrue result → IsPlainNode heap.now t.index }
{
    match bare_var_of(heap, t, 0) {
        Some(_) => true,
        None => false,
    }
}

/// Whether the node is certain to have a constant, an integer, a string or a variable at its head,
/// below the abstractions at its front and through the values of variables.
pub(crate) fn is_firm(heap: &Heap, t: TermId) -> bool
    requires { t.index < length heap.now.nodes }
    ensures { IsTrue result → IsFirmNode heap.now t.index }
{
    heap.is_sound();
    let mut node = t;
    loop {
        match heap.view(node) {
            Node::Lam { body, .. } => node = *body,
            Node::Var(v) => match heap.value(*v) {
                Some(value) => node = value,
                None => return true,
            },
            _ => return is_firm_end(heap, node),
        }
    }
}

/// The same of a node that is neither an abstraction nor a variable.
fn is_firm_end(heap: &Heap, t: TermId) -> bool
    requires { t.index < length heap.now.nodes }
    ensures { IsTrue result → IsFirmNode heap.now t.index }
{
    heap.is_sound();
    match heap.view(t) {
        Node::Con(_) => true,
        Node::Int(_) => true,
        Node::Str(_) => true,
        Node::App { head, .. } => is_firm_head(heap, *head),
        _ => false,
    }
}

/// The same of a head alone.
fn is_firm_head(heap: &Heap, t: TermId) -> bool
    requires { t.index < length heap.now.nodes }
    ensures firm { IsTrue result → IsFirmNode heap.now t.index }
    ensures plain { IsTrue result → IsPlainNode heap.now t.index }
{
    heap.is_sound();
    match heap.view(t) {
        Node::Con(_) => true,
        Node::Int(_) => true,
        Node::Str(_) => true,
        Node::Var(v) => is_free(heap, *v),
        _ => false,
    }
}

/// Whether the node is a constant, an integer, a string or a level.
fn is_rigid(heap: &Heap, t: TermId) -> bool
    requires { t.index < length heap.now.nodes }
    ensures { IsTrue result → IsReadyNode heap.now t.index }
{
    heap.is_sound();
    match heap.view(t) {
        Node::Con(_) => true,
        Node::Int(_) => true,
        Node::Str(_) => true,
        Node::Level(_) => true,
        _ => false,
    }
}

/// Whether the node is a variable that has no value.
fn is_open(heap: &Heap, t: TermId) -> bool
    requires { t.index < length heap.now.nodes }
    ensures { IsTrue result → IsOpenNode heap.now t.index }
{
    heap.is_sound();
    match heap.view(t) {
        Node::Var(v) => is_free(heap, *v),
        _ => false,
    }
}

/// Whether two levels differ.
fn are_different(a: usize, b: usize) -> bool
    ensures { IsTrue result → a ≡ b → ⊥ }
{
    a != b
}

/// Whether a depth isn't above another.
fn is_within(a: usize, b: usize) -> bool
    ensures { IsTrue result → a ≤ b }
{
    a <= b
}

/// Whether the node is certain not to be the name of the level.
fn is_other(heap: &Heap, t: TermId, depth: usize) -> bool
    requires { t.index < length heap.now.nodes }
    ensures { IsTrue result → (s : ℕ) → IsValid heap.now t.index s → IsOther heap.now depth t.index }
{
    heap.is_sound();
    match heap.view(t) {
        Node::Level(l) => are_different(*l, depth),
        Node::Lam { depth: made, .. } => *made <= depth || is_firm(heap, t),
        Node::Var(v) => heap.var_depth(*v) <= depth || is_firm(heap, t),
        Node::App { head, .. } => is_plain(heap, *head),
        _ => is_firm(heap, t),
    }
}

/// Whether one of the nodes is the level.
fn is_among(heap: &Heap, nodes: &[TermId], level: usize) -> bool
    requires { AllThere heap.now nodes.now }
    ensures { IsTrue result → SomeHas heap.now level nodes.now }
{
    heap.is_sound();
    for t in nodes {
        if is_level(heap, *t, level) {
            return true;
        }
    }
    false
}

/// Whether the node is the level.
fn is_level(heap: &Heap, t: TermId, level: usize) -> bool
    requires { t.index < length heap.now.nodes }
    ensures { IsTrue result → HasLevel heap.now level t.index }
{
    heap.is_sound();
    match heap.view(t) {
        Node::Level(l) => are_same(*l, level),
        _ => false,
    }
}

/// Whether two levels are one.
fn are_same(a: usize, b: usize) -> bool
    ensures { IsTrue result → a ≡ b }
{
    a == b
}

/// Whether the node is certain to have the level in it, as it is seen at a glance.
fn has_level(heap: &Heap, t: TermId, level: usize) -> bool
    requires { t.index < length heap.now.nodes }
    ensures { IsTrue result → HasLevel heap.now level t.index }
{
    heap.is_sound();
    match heap.view(t) {
        Node::App { head, args } => {
            if !is_plain(heap, *head) {
                return false;
            }
            is_among(heap, args.as_slice(), level)
        }
        _ => is_level(heap, t, level),
    }
}

/// The same of one of the nodes but the last.
fn front_has_level(heap: &Heap, nodes: &[TermId], level: usize) -> bool
    requires { AllThere heap.now nodes.now }
    ensures { IsTrue result → SomeHas heap.now level (take (length nodes.now - 1) nodes.now) }
{
    heap.is_sound();
    if nodes.is_empty() {
        return false;
    }
    some_has_level(heap, &nodes[..nodes.len() - 1], level)
}

/// The same of one of the nodes.
fn some_has_level(heap: &Heap, nodes: &[TermId], level: usize) -> bool
    requires { AllThere heap.now nodes.now }
    ensures { IsTrue result → SomeHas heap.now level nodes.now }
{
    heap.is_sound();
    for t in nodes {
        if has_level(heap, *t, level) {
            return true;
        }
    }
    false
}

/// Whether the node, the body of an abstraction that was made at the depth, is certain not to end
/// in the abstracted name.
fn ends_otherwise(heap: &Heap, t: TermId, depth: usize) -> bool
    requires { t.index < length heap.now.nodes }
    ensures { IsTrue result → (s : ℕ) → IsValid heap.now t.index s → EndsOtherwise heap.now depth t.index }
{
    heap.is_sound();
    match heap.view(t) {
        Node::Con(_) => true,
        Node::Int(_) => true,
        Node::Str(_) => true,
        Node::Level(_) => true,
        Node::Var(v) => is_within(heap.var_depth(*v), depth),
        Node::App { head, args } => match args.as_slice().last() {
            Some(last) => {
                if !is_plain(heap, *head) {
                    return false;
                }
                if is_other(heap, *last, depth) {
                    return true;
                }
                front_has_level(heap, args.as_slice(), depth)
            }
            None => false,
        },
        Node::Lam { .. } => false,
    }
}

/// Whether the node is certain to be an abstraction.
pub(crate) fn is_abstraction(heap: &Heap, t: TermId) -> bool
    requires { t.index < length heap.now.nodes }
    ensures { IsTrue result → (s : ℕ) → IsValid heap.now t.index s → IsAbstractionNode heap.now t.index }
{
    heap.is_sound();
    let mut node = t;
    while let Node::Lam { depth, body } = heap.view(node) {
        if !matches!(heap.view(*body), Node::Lam { .. }) {
            return ends_otherwise(heap, *body, *depth);
        }
        node = *body;
    }
    false
}

/// Whether an argument is ready, as far as a look can say.
pub(crate) fn looked_at(heap: &Heap, t: TermId) -> Readiness
    requires { t.index < length heap.now.nodes }
    ensures { (s : ℕ) → IsValid heap.now t.index s → IsReadiness heap.now s (read heap.now t.index names) result }
{
    heap.is_sound();
    let mut node = t;
    while let Node::Var(v) = heap.view(node) {
        match heap.value(*v) {
            Some(value) => node = value,
            None => return Readiness::Unready,
        }
    }
    looked_at_end(heap, node)
}

/// The same of a node that is no variable.
fn looked_at_end(heap: &Heap, t: TermId) -> Readiness
    requires { t.index < length heap.now.nodes }
    ensures { (s : ℕ) → IsValid heap.now t.index s → IsReadiness heap.now s (read heap.now t.index names) result }
{
    heap.is_sound();
    match heap.view(t) {
        Node::Level(l) => Readiness::Level(*l),
        Node::App { head, .. } if is_rigid(heap, *head) => Readiness::Ready(t),
        Node::App { head, .. } if is_open(heap, *head) => Readiness::Unready,
        _ => {
            if is_rigid(heap, t) {
                return Readiness::Ready(t);
            }
            if is_abstraction(heap, t) {
                return Readiness::Unready;
            }
            Readiness::Unknown
        }
    }
}

/// The variable that the node, which is a variable's, stands for, where it has no value and is one
/// over so many levels.
fn open_var(heap: &Heap, t: TermId, count: usize) -> Option<VarId>
    requires { t.index < length heap.now.nodes }
    ensures { IfSome result (λ v. (v.index < length heap.now.depths) × (value_in heap.now.assigned v.index ≡ None) × IsVarOf v.index count (value_of heap.now t)) }
{
    heap.is_sound();
    if let Node::Var(v) = heap.view(t) {
        let v = *v;
        if heap.var_depth(v) == count && is_free(heap, v) {
            return Some(v);
        }
    }
    None
}

/// The variable that an abstraction reads as by contraction alone: it has no value, and is applied
/// to the levels below the abstraction's depth and to the abstracted ones.
pub(crate) fn bare_var_of(heap: &Heap, t: TermId, made: usize) -> Option<VarId>
    requires { t.index < length heap.now.nodes }
    ensures { IfSome result (λ v. (v.index < length heap.now.depths) × (value_in heap.now.assigned v.index ≡ None) × IsVarOf v.index made (value_of heap.now t)) }
{
    heap.is_sound();
    let mut node = t;
    let mut count = made;
    while let Node::Lam { depth, body } = heap.view(node) {
        if *depth != count {
            return None;
        }
        count = count.checked_add(1)?;
        node = *body;
    }
    open_var(heap, node, count)
}
