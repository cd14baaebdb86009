//! Equality of terms.
//!
//! The walk keeps a list of pairs of nodes. A look at two nodes leads to pairs of their parts; where
//! it can't tell, both are evaluated, and the terms that they come to are compared.

ghost use Rattle.std.specs.Prelude.{◌≡◌, ◌↔◌, ◌++◌, ◌<◌, [], length, reverse, IfOk, OnOk, IfSome, IsTrue, Some};
ghost use Rattle.level_terms.specs.declared.node.Node.TheVariants.{Var as var_node};
ghost use Rattle.level_terms.specs.Graph.{node_at};
ghost use Rattle.level_terms.specs.Valid.{IsValid};
ghost use Rattle.level_terms.specs.Reading.{read};
ghost use Rattle.level_terms.specs.Growth.{Grows};
ghost use Rattle.ref_terms.specs.terms.Term as term;
ghost use Rattle.ref_terms.specs.unification.Spine.{apply_all};
ghost use Rattle.beta_fragment.specs.Names.{names};
ghost use Rattle.beta_fragment.specs.HeadForm.{rigid_head, all_read};
ghost use Rattle.beta_fragment.specs.inside.Spine.{args_in};
ghost use Rattle.beta_fragment.specs.inside.Pairs.{IsValidPair, IsSame, pairs_of, StandsFor, TurnsOut, MayDivide, MayTell, IsValueOf};

use crate::answer::RigidHead;
use crate::cells::Cells;
use crate::comparing::{are_equal, same_head};
use crate::evaluating::evaluated;
use crate::glance::is_plain;
use crate::levels::Levels;
use level_terms::{Heap, Node, TermId, VarId};
use std::alloc::{AllocError, Global};

/// Two nodes whose readings are compared, and a depth at which both are valid.
#[derive(Clone, Copy)]
pub(crate) struct Pair {
    left: TermId,
    right: TermId,
    depth: usize,
}

/// Whether both terms have equal readings. Makes no variable. Answers `AllocError` on want of memory
/// alone.
pub fn same_term(
    alloc: Global,
    heap: &mut Heap,
    s: TermId,
    t: TermId,
    depth: usize,
) -> Result<bool, AllocError>
    requires left { IsValid heap.old s.index depth }
    requires right { IsValid heap.old t.index depth }
    ensures same { IfOk result (λ b. IsTrue b ↔ (read heap.old s.index names ≡ read heap.old t.index names)) }
    ensures variables { heap.new.depths ≡ heap.old.depths }
    ensures grows { Grows heap.old heap.new [] [] }
{
    let mut work = Vec::new(alloc);
    work.push(Pair {
        left: s,
        right: t,
        depth,
    })?;
    while let Some(pair) = work.pop() {
        if !compared_nodes(alloc, heap, pair, &mut work)? {
            return Ok(false);
        }
    }
    Ok(true)
}

/// Compares two nodes but for parts of theirs, which it puts onto the work list.
fn compared_nodes(
    alloc: Global,
    heap: &Heap,
    pair: Pair,
    work: &mut Vec<Pair>,
) -> Result<bool, AllocError>
    requires { IsValidPair heap.now pair }
    ensures { IfOk result (λ e. TurnsOut heap.now pair work.old.items work.new.items e) }
{
    if pair.left.index == pair.right.index {
        return Ok(true);
    }
    if is_one_variable(heap, pair) {
        return Ok(true);
    }
    if let Some(next) = next_pair(heap, pair) {
        work.push(next)?;
        return Ok(true);
    }
    if let Some(equal) = same_spines(heap, pair, work)? {
        return Ok(equal);
    }
    if push_parts(heap, pair, work)? {
        return Ok(true);
    }
    let equal = same_wholes(alloc, heap, pair)?;
    Ok(equal)
}

/// Whether both nodes are of one variable.
fn is_one_variable(heap: &Heap, pair: Pair) -> bool
    requires { IsValidPair heap.now pair }
    ensures { IsTrue result → IsSame heap.now pair }
{
    heap.is_sound();
    match heap.view(pair.left) {
        Node::Var(v) => is_variable(heap, pair.right, *v),
        _ => false,
    }
}

/// Whether the node is of the variable.
fn is_variable(heap: &Heap, t: TermId, v: VarId) -> bool
    requires { t.index < length heap.now.nodes }
    ensures { IsTrue result → node_at heap.now.nodes t.index ≡ Some (var_node v) }
{
    match heap.view(t) {
        Node::Var(w) => w.index == v.index,
        _ => false,
    }
}

/// The pair that tells whether both nodes are equal, where a look finds one.
fn next_pair(heap: &Heap, pair: Pair) -> Option<Pair>
    requires { IsValidPair heap.now pair }
    ensures { IfSome result (λ next. StandsFor heap.now pair next) }
{
    if let Some(left) = value_at(heap, pair.left) {
        return Some(Pair {
            left,
            right: pair.right,
            depth: pair.depth,
        });
    }
    if let Some(right) = value_at(heap, pair.right) {
        return Some(Pair {
            left: pair.left,
            right,
            depth: pair.depth,
        });
    }
    bodies_of(heap, pair)
}

/// The value of a variable, where the node is of one that has a value.
fn value_at(heap: &Heap, t: TermId) -> Option<TermId>
    requires { t.index < length heap.now.nodes }
    ensures { IfSome result (λ value. IsValueOf heap.now t.index value.index) }
{
    heap.is_sound();
    match heap.view(t) {
        Node::Var(v) => heap.value(*v),
        _ => None,
    }
}

/// The bodies of two abstractions that were made at the same depth.
fn bodies_of(heap: &Heap, pair: Pair) -> Option<Pair>
    requires { IsValidPair heap.now pair }
    ensures { IfSome result (λ next. StandsFor heap.now pair next) }
{
    heap.is_sound();
    if let Node::Lam {
        depth: made,
        body: left,
    } = heap.view(pair.left)
    {
        if let Node::Lam {
            depth: other,
            body: right,
        } = heap.view(pair.right)
        {
            if *made == *other {
                let depth = made.checked_add(1)?;
                return Some(Pair {
                    left: *left,
                    right: *right,
                    depth,
                });
            }
        }
    }
    None
}

/// Compares two nodes but for their arguments, pairs of which it puts onto the work list, where no
/// assignment changes either head.
fn same_spines(heap: &Heap, pair: Pair, work: &mut Vec<Pair>) -> Result<Option<bool>, AllocError>
    requires { IsValidPair heap.now pair }
    ensures { IfOk result (λ told. MayTell heap.now pair work.old.items work.new.items told) }
{
    heap.is_sound();
    let Some(left) = spine_head(heap, pair.left) else {
        return Ok(None);
    };
    let Some(right) = spine_head(heap, pair.right) else {
        return Ok(None);
    };
    if !same_head(left, right) {
        return Ok(Some(false));
    }
    let first = args_of(heap, pair.left);
    let second = args_of(heap, pair.right);
    if first.len() != second.len() {
        return Ok(Some(false));
    }
    push_pairs(first, second, pair.depth, work)?;
    Ok(Some(true))
}

/// The head that stands before the arguments of a node, if any, where no assignment changes it.
fn spine_head(heap: &Heap, t: TermId) -> Option<RigidHead>
    requires { t.index < length heap.now.nodes }
    ensures { IfSome result (λ h. read heap.now t.index names ≡ apply_all (term.At (rigid_head h)) (all_read heap.now (args_in (node_at heap.now.nodes t.index)))) }
{
    heap.is_sound();
    match heap.view(t) {
        Node::App { head, .. } => head_at(heap, *head),
        _ => head_at(heap, t),
    }
}

/// The arguments of a node, none where it is no application.
fn args_of(heap: &Heap, t: TermId) -> &[TermId]
    requires { t.index < length heap.now.nodes }
    ensures { result.now ≡ args_in (node_at heap.now.nodes t.index) }
{
    match heap.view(t) {
        Node::App { args, .. } => args.as_slice(),
        _ => &[],
    }
}

/// The head that a node is, where no assignment changes it.
fn head_at(heap: &Heap, t: TermId) -> Option<RigidHead>
    requires { t.index < length heap.now.nodes }
    ensures { IfSome result (λ h. read heap.now t.index names ≡ term.At (rigid_head h)) }
{
    heap.is_sound();
    match heap.view(t) {
        Node::Con(c) => Some(RigidHead::Con(*c)),
        Node::Int(n) => Some(RigidHead::Int(*n)),
        Node::Str(s) => Some(RigidHead::Str(*s)),
        Node::Level(l) => Some(RigidHead::Level(*l)),
        _ => None,
    }
}

/// Puts the parts of two applications onto the work list, where a look tells that these are equal
/// exactly where their parts are.
fn push_parts(heap: &Heap, pair: Pair, work: &mut Vec<Pair>) -> Result<bool, AllocError>
    requires { IsValidPair heap.now pair }
    ensures { IfOk result (λ done. MayDivide heap.now pair work.old.items work.new.items done) }
{
    heap.is_sound();
    if let Node::App {
        head: left,
        args: first,
    } = heap.view(pair.left)
    {
        if let Node::App {
            head: right,
            args: second,
        } = heap.view(pair.right)
        {
            if first.len() == second.len() && is_plain(heap, *left) && is_plain(heap, *right) {
                push_pairs(first.as_slice(), second.as_slice(), pair.depth, work)?;
                work.push(Pair {
                    left: *left,
                    right: *right,
                    depth: pair.depth,
                })?;
                return Ok(true);
            }
        }
    }
    Ok(false)
}

/// Puts the nodes of two lists onto the work list, pair by pair, the first pair last.
fn push_pairs(
    left: &[TermId],
    right: &[TermId],
    depth: usize,
    work: &mut Vec<Pair>,
) -> Result<(), AllocError>
    requires { length left.now ≡ length right.now }
    ensures { OnOk result (work.new.items ≡ work.old.items ++ reverse (pairs_of depth left.now right.now)) }
{
    let mut i = left.len();
    while i > 0 {
        i -= 1;
        work.push(Pair {
            left: left[i],
            right: right[i],
            depth,
        })?;
    }
    Ok(())
}

/// Whether both nodes are equal, by the terms that they come to.
fn same_wholes(alloc: Global, heap: &Heap, pair: Pair) -> Result<bool, AllocError>
    requires { IsValidPair heap.now pair }
    ensures { IfOk result (λ e. IsTrue e ↔ IsSame heap.now pair) }
{
    let levels = Levels::own(alloc, pair.depth);
    let mut cells = Cells::new(alloc);
    let left = evaluated(alloc, heap, &mut cells, pair.left, &levels, &[], pair.depth)?;
    let right = evaluated(
        alloc,
        heap,
        &mut cells,
        pair.right,
        &levels,
        &[],
        pair.depth,
    )?;
    are_equal(alloc, &cells, left, right)
}
