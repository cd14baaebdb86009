//! Names that declarations declare.
ghost use Rattle.std.specs.Prelude.{◌≡◌, ◌||◌, ◌++◌, [], ◌∷◌, not, map, flat_map, slice_index_or, IfOk, OnOk};
ghost use Rattle.lp_resolve.specs.StaticRules.{is_reserved};
ghost use Rattle.decl_types.specs.TypeRules.{is_word, kind_names, kind_name, typed_names, type_name, name_breaches, first_of};

use crate::breach::{Breach, breach_if, earlier};
use decl_trees::{DeclTree, PlacedName, TypeRule};
use indexmap::IndexSet;
use lp_resolve::Symbols;
use ref_terms::Sym;
use std::alloc::{AllocError, Global};

/// A name that is declared, and whether it may not be.
#[derive(Clone, Copy, Debug)]
pub struct DeclaredName {
    pub name: PlacedName,
    pub refused: bool,
}

// How many reserved names there are: they are the first symbols.
const RESERVED: usize = 23;

// The text of a symbol; of one past the table the empty one.
fn text_of(symbols: &Symbols, symbol: Sym) -> &[u8]
    ensures { result.now ≡ slice_index_or symbols.now symbol.0 [] }
{
    if symbol.0 < symbols.len() {
        symbols.name_of(symbol)
    } else {
        &[]
    }
}

// Whether a text is a word of types.
fn is_word(text: &[u8]) -> bool
    ensures { result ≡ is_word text.now }
{
    if text == b"int".as_slice() {
        return true;
    }
    if text == b"string".as_slice() {
        return true;
    }
    if text == b"prop".as_slice() {
        return true;
    }
    text == b"list".as_slice()
}

// Puts names of kinds last.
fn push_kinds(
    names: &mut Vec<DeclaredName>,
    symbols: &Symbols,
    declared: &[PlacedName],
) -> Result<(), AllocError>
    ensures { OnOk result (names.new.items ≡ names.old.items ++ map (kind_name symbols.now) declared.now) }
{
    for name in declared {
        names.push(DeclaredName {
            name: *name,
            refused: is_word(text_of(symbols, name.sym)),
        })?;
    }
    Ok(())
}

// Puts names of a `type` last.
fn push_types(names: &mut Vec<DeclaredName>, declared: &[PlacedName]) -> Result<(), AllocError>
    ensures { OnOk result (names.new.items ≡ names.old.items ++ map type_name declared.now) }
{
    for name in declared {
        names.push(DeclaredName {
            name: *name,
            refused: name.sym.0 < RESERVED,
        })?;
    }
    Ok(())
}

// Puts the names that a declaration declares as kinds last.
fn push_kinds_of(
    names: &mut Vec<DeclaredName>,
    symbols: &Symbols,
    decl: &DeclTree,
) -> Result<(), AllocError>
    ensures { OnOk result (names.new.items ≡ names.old.items ++ kind_names symbols.now decl.now) }
{
    match decl {
        DeclTree::KindTree {
            names: declared,
            arity: _,
        } => push_kinds(names, symbols, declared.as_slice()),
        DeclTree::TypeOf { names: _, ty: _ } => Ok(()),
        DeclTree::PredTree { name: _, args: _ } => Ok(()),
    }
}

// Puts the names to which a declaration gives a type last.
fn push_types_of(names: &mut Vec<DeclaredName>, decl: &DeclTree) -> Result<(), AllocError>
    ensures { OnOk result (names.new.items ≡ names.old.items ++ typed_names decl.now) }
{
    match decl {
        DeclTree::KindTree { names: _, arity: _ } => Ok(()),
        DeclTree::TypeOf {
            names: declared,
            ty: _,
        } => push_types(names, declared.as_slice()),
        DeclTree::PredTree { name, args: _ } => {
            names.push(DeclaredName {
                name: *name,
                refused: false,
            })?;
            Ok(())
        }
    }
}

/// The names that these declarations declare as kinds.
pub fn kind_names(
    alloc: Global,
    symbols: &Symbols,
    decls: &[DeclTree],
) -> Result<Vec<DeclaredName>, AllocError>
    ensures { IfOk result (λ names. names.items ≡ flat_map (kind_names symbols.now) decls.now) }
{
    let mut names = Vec::new(alloc);
    for decl in decls {
        push_kinds_of(&mut names, symbols, decl)?;
    }
    Ok(names)
}

/// The names to which these declarations give types.
pub fn typed_names(alloc: Global, decls: &[DeclTree]) -> Result<Vec<DeclaredName>, AllocError>
    ensures { IfOk result (λ names. names.items ≡ flat_map typed_names decls.now) }
{
    let mut names = Vec::new(alloc);
    for decl in decls {
        push_types_of(&mut names, decl)?;
    }
    Ok(names)
}

// Whether a name may not be declared, or isn't new.
fn is_broken(refused: bool, is_new: bool) -> bool
    ensures { result ≡ (refused || not is_new) }
{
    refused || !is_new
}

/// The first of these names at which a rule is broken: one that may not be declared, or that is declared before.
pub fn first_refused(
    alloc: Global,
    rule: TypeRule,
    names: &[DeclaredName],
) -> Result<Option<Breach>, AllocError>
    ensures { IfOk result (λ found. found ≡ first_of (name_breaches rule [] names.now)) }
{
    let mut seen: IndexSet<usize> = IndexSet::new(alloc);
    let mut found = None;
    for declared in names {
        let is_new = seen.insert(declared.name.sym.0)?;
        let broken = is_broken(declared.refused, is_new);
        found = earlier(found, breach_if(broken, rule, declared.name.place));
    }
    Ok(found)
}
