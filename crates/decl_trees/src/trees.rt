//! Declarations.

use lp_parser::Place;
use ref_terms::{Sequence, Sym};
use sqlite_items::Boxed;

/// What a word of a type is.
#[derive(Clone, Copy, Debug)]
pub enum TypeWord {
    /// `int`
    Int,
    /// `string`
    Str,
    /// `prop`
    Prop,
    /// `list`
    List,
    /// Any other name.
    Named(Sym),
    /// A variable, by the order of first places in its declaration.
    Var(usize),
}

/// A type.
#[derive(Debug, Drop)]
pub enum TypeTree {
    /// A word at its place, with its arguments.
    Word(TypeWord, TypeTrees, Place),
    /// `->`, with its left and right side.
    Arrow(Boxed<TypeTree>, Boxed<TypeTree>),
}

/// A list of types.
pub type TypeTrees = Sequence<TypeTree>;

/// A name, at the place where it is declared.
#[derive(Clone, Copy, Debug)]
pub struct PlacedName {
    pub sym: Sym,
    pub place: Place,
}

/// A list of names.
pub type PlacedNames = Sequence<PlacedName>;

/// A declaration.
#[derive(Debug, Drop)]
pub enum DeclTree {
    /// `kind`: the names, and the number of arrows of their kind.
    KindTree { names: PlacedNames, arity: usize },
    /// `type`: the names and their type.
    TypeOf { names: PlacedNames, ty: TypeTree },
    /// `pred`: the name and the types of its arguments.
    PredTree { name: PlacedName, args: TypeTrees },
}

/// A list of declarations.
pub type DeclTrees = Sequence<DeclTree>;
