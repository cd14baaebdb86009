//! Types of declarations, and of reserved constants.
ghost use Rattle.std.specs.Prelude.{◌≡◌, ℕ, [], ◌∷◌, fold, map, IfOk};
ghost use Rattle.type_terms.specs.declared.scheme.Scheme.TheVariants.{Apply};
ghost use Rattle.decl_types.specs.DeclaredTypes.{scheme_of, variables_of, pred_scheme, word_scheme, word_variables, most_variables};
ghost use Rattle.decl_types.specs.Reserved.{to};

use decl_trees::{TypeTree, TypeWord};
use sqlite_items::Boxed;
use std::alloc::{AllocError, Global};
use type_graph::Word;
use type_terms::Scheme;

/// A type applied to another one.
pub fn apply(alloc: Global, left: Scheme, right: Scheme) -> Result<Scheme, AllocError>
    ensures { IfOk result (λ scheme. scheme ≡ Apply left right) }
{
    let left = Boxed::new(alloc, left)?;
    let right = Boxed::new(alloc, right)?;
    Ok(Scheme::Apply(left, right))
}

/// The type of functions from one type to another.
pub fn to(alloc: Global, left: Scheme, right: Scheme) -> Result<Scheme, AllocError>
    ensures { IfOk result (λ scheme. scheme ≡ to left right) }
{
    let partial = apply(alloc, Scheme::Leaf(Word::Arrow), left)?;
    apply(alloc, partial, right)
}

// The type that a word is, without its arguments.
fn word_scheme(word: TypeWord) -> Scheme
    ensures { result ≡ word_scheme word }
{
    match word {
        TypeWord::Int => Scheme::Leaf(Word::Int),
        TypeWord::Str => Scheme::Leaf(Word::Text),
        TypeWord::Prop => Scheme::Leaf(Word::Prop),
        TypeWord::List => Scheme::Leaf(Word::List),
        TypeWord::Named(name) => Scheme::Leaf(Word::Kind(name.0)),
        TypeWord::Var(index) => Scheme::Variable(index),
    }
}

/// A type of a text as a type with variables.
///
/// Errors: want of memory.
#[cycle(schemes)]
pub fn scheme_of(alloc: Global, ty: &TypeTree) -> Result<Scheme, AllocError>
    ensures { IfOk result (λ scheme. scheme ≡ scheme_of ty.now) }
{
    match ty {
        TypeTree::Word(word, args, _) => apply_all(alloc, args.as_slice(), word_scheme(*word)),
        TypeTree::Arrow(left, right) => {
            let left = scheme_of(alloc, left.get())?;
            let right = scheme_of(alloc, right.get())?;
            to(alloc, left, right)
        }
    }
}

// A type applied to each of these in turn.
#[cycle(schemes)]
fn apply_all(alloc: Global, args: &[TypeTree], function: Scheme) -> Result<Scheme, AllocError>
    ensures { IfOk result (λ scheme. scheme ≡ fold Apply function (map scheme_of args.now)) }
{
    let mut scheme = function;
    for arg in args {
        let argument = scheme_of(alloc, arg)?;
        scheme = apply(alloc, scheme, argument)?;
    }
    Ok(scheme)
}

/// The type of a predicate with these arguments.
///
/// Errors: want of memory.
pub fn pred_scheme(alloc: Global, args: &[TypeTree]) -> Result<Scheme, AllocError>
    ensures { IfOk result (λ scheme. scheme ≡ pred_scheme args.now) }
{
    let mut scheme = Scheme::Leaf(Word::Prop);
    let mut index = args.len();
    while index > 0 {
        index -= 1;
        let argument = scheme_of(alloc, &args[index])?;
        scheme = to(alloc, argument, scheme)?;
    }
    Ok(scheme)
}

// More than the number of the variable that a word is.
fn word_variables(word: TypeWord) -> Result<usize, AllocError>
    ensures { IfOk result (λ count. count ≡ word_variables word) }
{
    match word {
        TypeWord::Var(index) => index.checked_add(1).ok_or(AllocError),
        _ => Ok(0),
    }
}

/// More than the number of each variable in a type.
///
/// Errors: want of memory, where so many variables have no room.
#[cycle(counting)]
pub fn variables_of(ty: &TypeTree) -> Result<usize, AllocError>
    ensures { IfOk result (λ count. count ≡ variables_of ty.now) }
{
    match ty {
        TypeTree::Word(word, args, _) => {
            let own = word_variables(*word)?;
            let others = most_variables(args.as_slice())?;
            Ok(own.max(others))
        }
        TypeTree::Arrow(left, right) => {
            let left = variables_of(left.get())?;
            let right = variables_of(right.get())?;
            Ok(left.max(right))
        }
    }
}

/// More than the number of each variable in these types.
///
/// Errors: want of memory, where so many variables have no room.
#[cycle(counting)]
pub fn most_variables(types: &[TypeTree]) -> Result<usize, AllocError>
    ensures { IfOk result (λ count. count ≡ most_variables (map variables_of types.now)) }
{
    let mut most = 0;
    for ty in types {
        most = variables_of(ty)?.max(most);
    }
    Ok(most)
}
