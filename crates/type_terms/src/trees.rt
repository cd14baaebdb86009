//! The types of trees.
ghost use Rattle.std.specs.Prelude.{ℕ, ◌≡◌, ◌<◌, ◌≤◌, [], length, All, OnOk, IfOk, option_map};
ghost use Rattle.type_terms.specs.Nodes.{Answers};
ghost use Rattle.type_terms.specs.Read.{HasTree, HasFront, HasSpine, HasConstantAt, HasApplied, AreNodes, AreKnown, declared_of, with_binders};

use crate::equations::{applied, arrow};
use crate::instances::instance;
use crate::scheme::Polytype;
use crate::scope::{Scope, node_of};
use ref_terms::{Head, Tree};
use std::alloc::{AllocError, Global};
use type_graph::{Graph, Word};

/// The node of a tree's type, under binders whose nodes are known, the innermost last. None: it has no type.
///
/// Errors: want of memory. Costs a look at each part of the tree, and the unification at each application.
#[cycle(types)]
pub fn read(
    alloc: Global,
    scope: &Scope<'_>,
    binders: &mut Vec<usize>,
    graph: &mut Graph,
    tree: &Tree,
) -> Result<Option<usize>, AllocError>
    requires known { AreKnown graph.old scope.now }
    requires binders { AreNodes graph.old binders.old.items }
    ensures kept { OnOk result (binders.new.items ≡ binders.old.items) }
    ensures read { IfOk result (Answers graph.old graph.new (HasTree (with_binders scope.now binders.old.items) tree.now)) }
{
    match tree {
        Tree::Lam(body) => {
            let binder = graph.free()?;
            binders.push(binder)?;
            let found = read(alloc, scope, binders, graph, body.get())?;
            binders.pop();
            match found {
                Some(body) => Ok(Some(arrow(graph, binder, body)?)),
                None => Ok(None),
            }
        }
        Tree::Ap(head, args) => match read_head(alloc, scope, binders, graph, head)? {
            Some(function) => read_all(alloc, scope, binders, graph, function, args.as_slice()),
            None => Ok(None),
        },
    }
}

// The declared type of a constant, where it has one.
fn polytype_of(declared: &[Option<Polytype>], place: usize) -> Option<&Polytype>
    ensures { option_map (λ polytype. polytype.now) result ≡ declared_of declared.now place }
{
    if place < declared.len() {
        declared[place].as_ref()
    } else {
        None
    }
}

// The node of the type of an occurrence of a constant.
fn read_constant(
    alloc: Global,
    scope: &Scope<'_>,
    graph: &mut Graph,
    constant: usize,
) -> Result<Option<usize>, AllocError>
    requires { AreNodes graph.old scope.now.constants.now }
    ensures { IfOk result (Answers graph.old graph.new (HasConstantAt (declared_of scope.now.declared.now) scope.now.constants.now constant)) }
{
    match polytype_of(scope.declared, constant) {
        Some(polytype) => Ok(Some(instance(alloc, graph, polytype)?)),
        None => Ok(node_of(scope.constants, constant)),
    }
}

// The node of a head's type.
#[cycle(types)]
fn read_head(
    alloc: Global,
    scope: &Scope<'_>,
    binders: &mut Vec<usize>,
    graph: &mut Graph,
    head: &Head,
) -> Result<Option<usize>, AllocError>
    requires known { AreKnown graph.old scope.now }
    requires binders { AreNodes graph.old binders.old.items }
    ensures kept { OnOk result (binders.new.items ≡ binders.old.items) }
    ensures read { IfOk result (Answers graph.old graph.new (HasFront (with_binders scope.now binders.old.items) head.now)) }
{
    match head {
        Head::Con(constant) => read_constant(alloc, scope, graph, constant.0),
        Head::Int(_) => Ok(Some(graph.leaf(Word::Int)?)),
        Head::Str(_) => Ok(Some(graph.leaf(Word::Text)?)),
        Head::Bound(index) => {
            if *index < binders.len() {
                Ok(Some(binders[binders.len() - 1 - *index]))
            } else {
                Ok(None)
            }
        }
        Head::ClauseVar(variable) => Ok(node_of(scope.variables, *variable)),
        Head::Stuck(abstraction) => read(alloc, scope, binders, graph, abstraction.get()),
    }
}

// The node of the type of what a function, whose type's node is known, gives for these trees.
#[cycle(types)]
fn read_all(
    alloc: Global,
    scope: &Scope<'_>,
    binders: &mut Vec<usize>,
    graph: &mut Graph,
    function: usize,
    args: &[Tree],
) -> Result<Option<usize>, AllocError>
    requires known { AreKnown graph.old scope.now }
    requires binders { AreNodes graph.old binders.old.items }
    requires function { function < length graph.old }
    ensures kept { OnOk result (binders.new.items ≡ binders.old.items) }
    ensures read { IfOk result (Answers graph.old graph.new (HasSpine (with_binders scope.now binders.old.items) function args.now)) }
{
    let mut result = function;
    for arg in args {
        let Some(argument) = read(alloc, scope, binders, graph, arg)? else {
            return Ok(None);
        };
        let Some(next) = applied(graph, result, argument)? else {
            return Ok(None);
        };
        result = next;
    }
    Ok(Some(result))
}

/// The node of the type of a constant with these arguments, under no binders. None: it has no type.
///
/// Errors: want of memory. Costs as [`read`] does.
pub fn read_applied(
    alloc: Global,
    scope: &Scope<'_>,
    graph: &mut Graph,
    constant: usize,
    args: &[Tree],
) -> Result<Option<usize>, AllocError>
    requires { AreKnown graph.old scope.now }
    ensures { IfOk result (Answers graph.old graph.new (HasApplied (with_binders scope.now []) constant args.now)) }
{
    let mut binders = Vec::new(alloc);
    match read_constant(alloc, scope, graph, constant)? {
        Some(function) => read_all(alloc, scope, &mut binders, graph, function, args),
        None => Ok(None),
    }
}
