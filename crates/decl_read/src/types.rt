//! Types.
ghost use Rattle.std.specs.Prelude.{◌≡◌, List, ℕ, map, flat_map, IfOk, OnOk};
ghost use Rattle.lp_resolve.specs.Symbols.{Begins, interned_all};
ghost use Rattle.decl_read.specs.DeclReading.{type_texts, word_of, type_of};

use crate::variables::{is_variable, number_of};
use decl_trees::{TypeTree, TypeTrees, TypeWord};
use indexmap::IndexSet;
use lp_parser::{AstArg, AstType};
use lp_resolve::Symbols;
use ref_terms::{Sequence, Sym};
use sqlite_items::Boxed;
use std::alloc::{AllocError, Global};

// What a text is.
fn word_of(symbol: Sym, variables: &IndexSet<Vec<u8>>, text: &[u8]) -> TypeWord
    ensures { result ≡ word_of symbol.0 (map (λ it. it.items) variables.now.keys) text.now }
{
    if text == b"int".as_slice() {
        return TypeWord::Int;
    }
    if text == b"string".as_slice() {
        return TypeWord::Str;
    }
    if text == b"prop".as_slice() {
        return TypeWord::Prop;
    }
    if text == b"list".as_slice() {
        return TypeWord::List;
    }
    if is_variable(text) {
        return TypeWord::Var(number_of(variables, text));
    }
    TypeWord::Named(symbol)
}

/// A type over the variables of its declaration. The texts of its words go last into the table, each where it is new.
///
/// Errors: want of memory.
#[cycle(types)]
pub fn read_type(
    alloc: Global,
    symbols: &mut Symbols,
    variables: &IndexSet<Vec<u8>>,
    ty: &AstType,
) -> Result<TypeTree, AllocError>
    ensures begins { Begins symbols.old symbols.new }
    ensures table { OnOk result (symbols.new ≡ interned_all symbols.old (type_texts ty.now)) }
    ensures tree { IfOk result (λ it. (later : List (List ℕ)) → Begins symbols.new later → it ≡ type_of later (map (λ it. it.items) variables.now.keys) ty.now) }
{
    match ty {
        AstType::Named(word, args) => {
            let text = word.text.as_slice();
            let symbol = symbols.intern(text)?;
            let args = read_types(alloc, symbols, variables, args.as_slice())?;
            Ok(TypeTree::Word(word_of(symbol, variables, text), args, word.place))
        }
        AstType::Arrow(left, right) => {
            let left = read_type(alloc, symbols, variables, left.get())?;
            let left = Boxed::new(alloc, left)?;
            let right = read_type(alloc, symbols, variables, right.get())?;
            let right = Boxed::new(alloc, right)?;
            Ok(TypeTree::Arrow(left, right))
        }
    }
}

// These types, in order.
#[cycle(types)]
fn read_types(
    alloc: Global,
    symbols: &mut Symbols,
    variables: &IndexSet<Vec<u8>>,
    types: &[AstType],
) -> Result<TypeTrees, AllocError>
    ensures begins { Begins symbols.old symbols.new }
    ensures table { OnOk result (symbols.new ≡ interned_all symbols.old (flat_map type_texts types.now)) }
    ensures trees { IfOk result (λ it. (later : List (List ℕ)) → Begins symbols.new later → it ≡ map (type_of later (map (λ it. it.items) variables.now.keys)) types.now) }
{
    let mut trees = Sequence::new(alloc);
    for ty in types {
        let tree = read_type(alloc, symbols, variables, ty)?;
        trees.push(tree)?;
    }
    Ok(trees)
}

/// The types of the arguments of a predicate, in order.
///
/// Errors: want of memory.
pub fn read_args(
    alloc: Global,
    symbols: &mut Symbols,
    variables: &IndexSet<Vec<u8>>,
    args: &[AstArg],
) -> Result<TypeTrees, AllocError>
    ensures begins { Begins symbols.old symbols.new }
    ensures table { OnOk result (symbols.new ≡ interned_all symbols.old (flat_map (λ a. type_texts a.ty) args.now)) }
    ensures trees { IfOk result (λ it. (later : List (List ℕ)) → Begins symbols.new later → it ≡ map (λ a. type_of later (map (λ it. it.items) variables.now.keys) a.ty) args.now) }
{
    let mut trees = Sequence::new(alloc);
    for arg in args {
        let tree = read_type(alloc, symbols, variables, &arg.ty)?;
        trees.push(tree)?;
    }
    Ok(trees)
}
