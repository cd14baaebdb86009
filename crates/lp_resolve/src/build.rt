//! Application and abstraction of trees.
ghost use Rattle.std.specs.Prelude.{◌≡◌, ◌++◌, ◌∷◌, [], None, Some, IfOk, IfSome, IsTrue, map};
ghost use Rattle.std.specs.Option.{option_map};
ghost use Rattle.ref_terms.specs.terms.Text.{text_apply, text_apply_all};
ghost use Rattle.ref_terms.specs.terms.Eta.{partial, lower, eta, lam};
ghost use Rattle.ref_terms.specs.terms.Index.{sub, first};
ghost use Rattle.ref_terms.specs.terms.Term as term;
ghost use Rattle.lp_resolve.specs.inside.Replacing.{replacing};
ghost use Rattle.lp_resolve.specs.Trees.{as_term, head_term, with_arguments, shape, head_shape, all_fit};
ghost use Rattle.lp_resolve.specs.inside.Build.{bound_index, all_terms};

use ref_terms::{Args, Head, Sequence, Tree};
use sqlite_items::Boxed;
use std::alloc::{AllocError, Global};

// The new index of a bound name, if it has one; want of memory, where it passes the machine's numbers.
fn replaced_index(
    index: usize,
    inside: usize,
    target: Option<usize>,
) -> Result<Option<usize>, AllocError>
    ensures { IfOk result (λ answer. answer ≡ replacing inside target index) }
{
    if index < inside {
        return Ok(Some(index));
    }
    if inside < index {
        return Ok(Some(index - 1));
    }
    match target {
        None => Ok(None),
        Some(target) => match target.checked_add(inside) {
            Some(index) => Ok(Some(index)),
            None => Err(AllocError),
        },
    }
}

// The tree with the name of the abstraction that stands outside `inside` more replaced by the target, and the names
// of abstractions further out one lower; none, where that name stands in the tree and has no target.
#[cycle(replaced)]
fn replaced(
    alloc: Global,
    tree: &Tree,
    inside: usize,
    target: Option<usize>,
) -> Result<Option<Tree>, AllocError>
    ensures term { IfOk result (λ answer. option_map as_term answer ≡ partial (replacing inside target) (as_term tree.now)) }
    ensures shape { IfOk result (λ answer. IfSome answer (λ new. shape new ≡ shape tree.now)) }
{
    match tree {
        Tree::Lam(body) => {
            let Some(deeper) = inside.checked_add(1) else {
                return Err(AllocError);
            };
            match replaced(alloc, body.get(), deeper, target)? {
                Some(body) => Ok(Some(Tree::Lam(Boxed::new(alloc, body)?))),
                None => Ok(None),
            }
        }
        Tree::Ap(head, arguments) => {
            let Some(head) = replaced_head(alloc, head, inside, target)? else {
                return Ok(None);
            };
            match replaced_all(alloc, arguments.as_slice(), inside, target)? {
                Some(arguments) => Ok(Some(Tree::Ap(head, arguments))),
                None => Ok(None),
            }
        }
    }
}

// The same of a head.
#[cycle(replaced)]
fn replaced_head(
    alloc: Global,
    head: &Head,
    inside: usize,
    target: Option<usize>,
) -> Result<Option<Head>, AllocError>
    ensures term { IfOk result (λ answer. option_map head_term answer ≡ partial (replacing inside target) (head_term head.now)) }
    ensures shape { IfOk result (λ answer. IfSome answer (λ new. head_shape new ≡ head_shape head.now)) }
{
    match head {
        Head::Con(symbol) => Ok(Some(Head::Con(*symbol))),
        Head::Int(value) => Ok(Some(Head::Int(*value))),
        Head::Str(symbol) => Ok(Some(Head::Str(*symbol))),
        Head::Bound(index) => match replaced_index(*index, inside, target)? {
            Some(index) => Ok(Some(Head::Bound(index))),
            None => Ok(None),
        },
        Head::ClauseVar(variable) => Ok(Some(Head::ClauseVar(*variable))),
        Head::Stuck(abstraction) => match replaced(alloc, abstraction.get(), inside, target)? {
            Some(abstraction) => Ok(Some(Head::Stuck(Boxed::new(alloc, abstraction)?))),
            None => Ok(None),
        },
    }
}

// The same of each of the trees; none, where one has none.
#[cycle(replaced)]
fn replaced_all(
    alloc: Global,
    trees: &[Tree],
    inside: usize,
    target: Option<usize>,
) -> Result<Option<Args>, AllocError>
    ensures terms { IfOk result (λ answer. option_map (map as_term) answer ≡ all_terms (map (λ tree. partial (replacing inside target) (as_term tree)) trees.now)) }
    ensures shapes { IfOk result (λ answer. IfSome answer (λ new. map shape new ≡ map shape trees.now)) }
{
    let mut answers = Sequence::new(alloc);
    for tree in trees {
        match replaced(alloc, tree, inside, target)? {
            Some(answer) => answers.push(answer)?,
            None => return Ok(None),
        }
    }
    Ok(Some(answers))
}

// The index of a head that is a bound name.
fn bound_head(head: &Head) -> Option<usize>
    requires fits { IsTrue (head_shape head.now).fits }
    ensures { result ≡ bound_index (head_term head.now) }
{
    match head {
        Head::Bound(index) => Some(*index),
        Head::Con(_) => None,
        Head::Int(_) => None,
        Head::Str(_) => None,
        Head::ClauseVar(_) => None,
        Head::Stuck(_) => None,
    }
}

// The index of a bound name without arguments, which an abstraction takes at once.
fn bound_name(tree: &Tree) -> Option<usize>
    requires fits { IsTrue (shape tree.now).fits }
    ensures { result ≡ bound_index (as_term tree.now) }
{
    match tree {
        Tree::Lam(_) => None,
        Tree::Ap(head, arguments) => {
            if arguments.len() == 0 {
                bound_head(head)
            } else {
                None
            }
        }
    }
}

// The head with these arguments; a stuck abstraction without arguments is the abstraction.
fn with_arguments(head: Head, arguments: Args) -> Tree
    requires fits { IsTrue (head_shape head).fits }
    requires arguments { IsTrue (all_fit (map shape arguments)) }
    ensures term { as_term result ≡ with_arguments (head_term head) (map as_term arguments) }
    ensures fits { IsTrue (shape result).fits }
{
    if arguments.len() > 0 {
        return Tree::Ap(head, arguments);
    }
    match head {
        Head::Stuck(abstraction) => abstraction.into_inner(),
        Head::Con(symbol) => Tree::Ap(Head::Con(symbol), arguments),
        Head::Int(value) => Tree::Ap(Head::Int(value), arguments),
        Head::Str(symbol) => Tree::Ap(Head::Str(symbol), arguments),
        Head::Bound(index) => Tree::Ap(Head::Bound(index), arguments),
        Head::ClauseVar(variable) => Tree::Ap(Head::ClauseVar(variable), arguments),
    }
}

// The head with these arguments, with each bound name's index one lower; none, where the innermost stands in it.
fn lowered(alloc: Global, head: &Head, arguments: &[Tree]) -> Result<Option<Tree>, AllocError>
    requires head { IsTrue (head_shape head.now).fits }
    requires arguments { IsTrue (all_fit (map shape arguments.now)) }
    ensures term { IfOk result (λ answer. option_map as_term answer ≡ lower (with_arguments (head_term head.now) (map as_term arguments.now))) }
    ensures fits { IfOk result (λ answer. IfSome answer (λ tree. IsTrue (shape tree).fits)) }
{
    let Some(head) = replaced_head(alloc, head, 0, None)? else {
        return Ok(None);
    };
    match replaced_all(alloc, arguments, 0, None)? {
        Some(arguments) => Ok(Some(with_arguments(head, arguments))),
        None => Ok(None),
    }
}

// The head with these arguments, where one more is the innermost bound name, which stands nowhere else.
fn contracted_before(
    alloc: Global,
    head: &Head,
    arguments: &[Tree],
    last: &Tree,
) -> Result<Option<Tree>, AllocError>
    requires head { IsTrue (head_shape head.now).fits }
    requires arguments { IsTrue (all_fit (map shape arguments.now)) }
    requires last { IsTrue (shape last.now).fits }
    ensures term { IfOk result (λ answer. option_map as_term answer ≡ eta (term.App (with_arguments (head_term head.now) (map as_term arguments.now)) (as_term last.now))) }
    ensures fits { IfOk result (λ answer. IfSome answer (λ tree. IsTrue (shape tree).fits)) }
{
    match bound_name(last) {
        Some(index) => {
            if index == 0 {
                lowered(alloc, head, arguments)
            } else {
                Ok(None)
            }
        }
        None => Ok(None),
    }
}

// The tree t, where the body is t applied to the innermost bound name, which doesn't stand in t.
fn contracted(alloc: Global, body: &Tree) -> Result<Option<Tree>, AllocError>
    requires fits { IsTrue (shape body.now).fits }
    ensures term { IfOk result (λ answer. option_map as_term answer ≡ eta (as_term body.now)) }
    ensures fits { IfOk result (λ answer. IfSome answer (λ tree. IsTrue (shape tree).fits)) }
{
    match body {
        Tree::Lam(_) => Ok(None),
        Tree::Ap(head, arguments) => match arguments.as_slice().split_last() {
            Some((last, front)) => contracted_before(alloc, head, front, last),
            None => Ok(None),
        },
    }
}

/// The abstraction of the body over the innermost bound name, contracted where it can be.
///
/// Errors: want of memory.
pub(crate) fn abstraction(alloc: Global, body: Tree) -> Result<Tree, AllocError>
    requires fits { IsTrue (shape body).fits }
    ensures term { IfOk result (λ tree. as_term tree ≡ lam (as_term body)) }
    ensures fits { IfOk result (λ tree. IsTrue (shape tree).fits) }
{
    match contracted(alloc, &body)? {
        Some(tree) => Ok(tree),
        None => Ok(Tree::Lam(Boxed::new(alloc, body)?)),
    }
}

// The body of an abstraction, with a bound name in place of its own.
fn opened(alloc: Global, body: &Tree, index: usize) -> Result<Tree, AllocError>
    ensures term { IfOk result (λ tree. as_term tree ≡ sub (first (term.At (term.Bound index))) (as_term body.now)) }
    ensures shape { IfOk result (λ tree. shape tree ≡ shape body.now) }
{
    match replaced(alloc, body, 0, Some(index))? {
        Some(tree) => Ok(tree),
        None => unreachable!(),
    }
}

// The tree applied to an argument.
fn applied(alloc: Global, tree: Tree, argument: Tree) -> Result<Tree, AllocError>
    requires tree { IsTrue (shape tree).fits }
    requires argument { IsTrue (shape argument).fits }
    ensures term { IfOk result (λ new. as_term new ≡ text_apply (as_term tree) (as_term argument)) }
    ensures fits { IfOk result (λ new. IsTrue (shape new).fits) }
{
    match tree {
        Tree::Lam(body) => match bound_name(&argument) {
            Some(index) => opened(alloc, body.get(), index),
            None => stuck(alloc, body, argument),
        },
        Tree::Ap(head, mut arguments) => {
            arguments.push(argument)?;
            Ok(Tree::Ap(head, arguments))
        }
    }
}

// The abstraction of the body, stuck before an argument.
fn stuck(alloc: Global, body: Boxed<Tree>, argument: Tree) -> Result<Tree, AllocError>
    requires body { IsTrue (shape body).fits }
    requires argument { IsTrue (shape argument).fits }
    ensures term { IfOk result (λ new. as_term new ≡ term.App (term.Lam (as_term body)) (as_term argument)) }
    ensures fits { IfOk result (λ new. IsTrue (shape new).fits) }
{
    let mut arguments = Sequence::new(alloc);
    arguments.push(argument)?;
    let abstraction = Boxed::new(alloc, Tree::Lam(body))?;
    Ok(Tree::Ap(Head::Stuck(abstraction), arguments))
}

/// The tree applied to these arguments, from the left.
///
/// Errors: want of memory.
pub(crate) fn applied_all(
    alloc: Global,
    function: Tree,
    arguments: Args,
) -> Result<Tree, AllocError>
    requires function { IsTrue (shape function).fits }
    requires arguments { IsTrue (all_fit (map shape arguments)) }
    ensures term { IfOk result (λ tree. as_term tree ≡ text_apply_all (as_term function) (map as_term arguments)) }
    ensures fits { IfOk result (λ tree. IsTrue (shape tree).fits) }
{
    let mut rest = arguments.into_vec();
    rest.reverse();
    let mut tree = function;
    while let Some(argument) = rest.pop() {
        tree = applied(alloc, tree, argument)?;
    }
    Ok(tree)
}
