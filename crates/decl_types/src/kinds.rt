//! Declared kinds, and the words of types.
ghost use Rattle.std.specs.Prelude.{◌≡◌, ◌++◌, ◌∷◌, ℕ, List, [], length, map, flat_map, nat_eq, IfOk, OnOk};
ghost use Rattle.indexmap.specs.IndexMap.{get};
ghost use Rattle.decl_types.specs.TypeRules.{Kind, kind_of, kinds_in, arrows_of, arguments_of, is_misused, word_breaches, breaches_of_words, first_of};
ghost use Rattle.decl_types.specs.inside.Kinds.{AreKinds};

use crate::breach::{Breach, breach_if, earlier};
use decl_trees::{DeclTree, PlacedName, TypeRule, TypeTree, TypeWord};
use indexmap::IndexMap;
use std::alloc::{AllocError, Global};

// Adds a name as a kind with so many arrows, where it is new.
fn put_kind(
    kinds: &mut IndexMap<usize, usize>,
    name: PlacedName,
    arity: usize,
) -> Result<(), AllocError>
    ensures { OnOk result ((before : List Kind) → AreKinds kinds.old before → AreKinds kinds.new (before ++ kind_of arity name ∷ [])) }
{
    if let Some(_arrows) = kinds.get(&name.sym.0) {
        return Ok(());
    }
    kinds.insert(name.sym.0, arity)?;
    Ok(())
}

// Adds these names as kinds with so many arrows.
fn put_kinds(
    kinds: &mut IndexMap<usize, usize>,
    names: &[PlacedName],
    arity: usize,
) -> Result<(), AllocError>
    ensures { OnOk result ((before : List Kind) → AreKinds kinds.old before → AreKinds kinds.new (before ++ map (kind_of arity) names.now)) }
{
    for name in names {
        put_kind(kinds, *name, arity)?;
    }
    Ok(())
}

// Adds the kinds of a declaration.
fn put_kinds_of(kinds: &mut IndexMap<usize, usize>, decl: &DeclTree) -> Result<(), AllocError>
    ensures { OnOk result ((before : List Kind) → AreKinds kinds.old before → AreKinds kinds.new (before ++ kinds_in decl.now)) }
{
    match decl {
        DeclTree::KindTree { names, arity } => put_kinds(kinds, names.as_slice(), *arity),
        DeclTree::TypeOf { names: _, ty: _ } => Ok(()),
        DeclTree::PredTree { name: _, args: _ } => Ok(()),
    }
}

/// The kinds that these declarations declare, by the numbers of their names, with the number of arrows of each.
pub fn kinds_of(alloc: Global, decls: &[DeclTree]) -> Result<IndexMap<usize, usize>, AllocError>
    ensures { IfOk result (λ kinds. AreKinds kinds (flat_map kinds_in decls.now)) }
{
    let mut kinds = IndexMap::new(alloc);
    for decl in decls {
        put_kinds_of(&mut kinds, decl)?;
    }
    Ok(kinds)
}

// How many arguments a word has; none where it is no kind.
fn arguments_of(kinds: &IndexMap<usize, usize>, word: TypeWord) -> Option<usize>
    ensures { result ≡ arguments_of (get nat_eq kinds.now) word }
{
    match word {
        TypeWord::Int => Some(0),
        TypeWord::Str => Some(0),
        TypeWord::Prop => Some(0),
        TypeWord::List => Some(1),
        TypeWord::Named(name) => kinds.get(&name.0).copied(),
        TypeWord::Var(_) => Some(0),
    }
}

// Whether a word is no kind, or has another number of arguments.
fn is_misused(kinds: &IndexMap<usize, usize>, word: TypeWord, arguments: usize) -> bool
    ensures { result ≡ is_misused (get nat_eq kinds.now) word arguments }
{
    match arguments_of(kinds, word) {
        Some(wanted) => arguments != wanted,
        None => true,
    }
}

// The first misused word of a type.
#[cycle(words)]
fn first_in_type(kinds: &IndexMap<usize, usize>, ty: &TypeTree) -> Option<Breach>
    ensures { result ≡ first_of (word_breaches (get nat_eq kinds.now) ty.now) }
{
    match ty {
        TypeTree::Word(word, args, place) => {
            let broken = is_misused(kinds, *word, args.len());
            earlier(
                breach_if(broken, TypeRule::Y3, *place),
                first_in_types(kinds, args.as_slice()),
            )
        }
        TypeTree::Arrow(left, right) => earlier(
            first_in_type(kinds, left.get()),
            first_in_type(kinds, right.get()),
        ),
    }
}

// The first misused word of these types.
#[cycle(words)]
fn first_in_types(kinds: &IndexMap<usize, usize>, types: &[TypeTree]) -> Option<Breach>
    ensures { result ≡ first_of (flat_map (word_breaches (get nat_eq kinds.now)) types.now) }
{
    let mut found = None;
    for ty in types {
        found = earlier(found, first_in_type(kinds, ty));
    }
    found
}

// The first misused word of a declaration.
fn first_in_decl(kinds: &IndexMap<usize, usize>, decl: &DeclTree) -> Option<Breach>
    ensures { result ≡ first_of (breaches_of_words (get nat_eq kinds.now) decl.now) }
{
    match decl {
        DeclTree::KindTree { names: _, arity: _ } => None,
        DeclTree::TypeOf { names: _, ty } => first_in_type(kinds, ty),
        DeclTree::PredTree { name: _, args } => first_in_types(kinds, args.as_slice()),
    }
}

/// The first misused word of these declarations.
pub fn first_misused(kinds: &IndexMap<usize, usize>, decls: &[DeclTree]) -> Option<Breach>
    ensures { result ≡ first_of (flat_map (breaches_of_words (get nat_eq kinds.now)) decls.now) }
{
    let mut found = None;
    for decl in decls {
        found = earlier(found, first_in_decl(kinds, decl));
    }
    found
}
