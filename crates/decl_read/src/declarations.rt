//! Declarations.
ghost use Rattle.std.specs.Prelude.{◌≡◌, ◌∷◌, ◌++◌, [], List, ℕ, map, flat_map, IfOk, OnOk};
ghost use Rattle.lp_resolve.specs.Symbols.{Begins, interned_all};
ghost use Rattle.lp_parser.specs.declared.ast.Decl.TheVariants.{TypeDecl, PredDecl};
ghost use Rattle.decl_read.specs.DeclReading.{placed, decl_texts, decl_of, declared_texts, item_texts, item_decls, declarations_of};

use crate::types::{read_args, read_type};
use crate::variables::{variables_of, variables_of_args};
use decl_trees::{DeclTree, DeclTrees, PlacedName, PlacedNames};
use lp_parser::{Ast, AstArg, AstType, Decl, Item, Word};
use lp_resolve::Symbols;
use ref_terms::Sequence;
use std::alloc::{AllocError, Global};

// A name that is declared.
fn read_name(symbols: &mut Symbols, word: &Word) -> Result<PlacedName, AllocError>
    ensures begins { Begins symbols.old symbols.new }
    ensures table { OnOk result (symbols.new ≡ interned_all symbols.old (word.now.text ∷ [])) }
    ensures name { IfOk result (λ it. (later : List (List ℕ)) → Begins symbols.new later → it ≡ placed later word.now) }
{
    let sym = symbols.intern(word.text.as_slice())?;
    Ok(PlacedName {
        sym,
        place: word.place,
    })
}

// Names that are declared, in order.
fn read_names(
    alloc: Global,
    symbols: &mut Symbols,
    words: &[Word],
) -> Result<PlacedNames, AllocError>
    ensures begins { Begins symbols.old symbols.new }
    ensures table { OnOk result (symbols.new ≡ interned_all symbols.old (map (λ w. w.text) words.now)) }
    ensures names { IfOk result (λ it. (later : List (List ℕ)) → Begins symbols.new later → it ≡ map (placed later) words.now) }
{
    let mut names = Sequence::new(alloc);
    for word in words {
        let name = read_name(symbols, word)?;
        names.push(name)?;
    }
    Ok(names)
}

// A `type`.
fn read_type_of(
    alloc: Global,
    symbols: &mut Symbols,
    names: &[Word],
    ty: &AstType,
) -> Result<DeclTree, AllocError>
    ensures begins { Begins symbols.old symbols.new }
    ensures table { OnOk result (symbols.new ≡ interned_all symbols.old (decl_texts (TypeDecl names.now ty.now))) }
    ensures decl { IfOk result (λ it. (later : List (List ℕ)) → Begins symbols.new later → it ≡ decl_of later (TypeDecl names.now ty.now)) }
{
    let variables = variables_of(alloc, ty)?;
    let names = read_names(alloc, symbols, names)?;
    let ty = read_type(alloc, symbols, &variables, ty)?;
    Ok(DeclTree::TypeOf { names, ty })
}

// A `pred`.
fn read_pred(
    alloc: Global,
    symbols: &mut Symbols,
    name: &Word,
    args: &[AstArg],
) -> Result<DeclTree, AllocError>
    ensures begins { Begins symbols.old symbols.new }
    ensures table { OnOk result (symbols.new ≡ interned_all symbols.old (decl_texts (PredDecl name.now args.now))) }
    ensures decl { IfOk result (λ it. (later : List (List ℕ)) → Begins symbols.new later → it ≡ decl_of later (PredDecl name.now args.now)) }
{
    let variables = variables_of_args(alloc, args)?;
    let name = read_name(symbols, name)?;
    let args = read_args(alloc, symbols, &variables, args)?;
    Ok(DeclTree::PredTree { name, args })
}

// A declaration.
fn read_decl(alloc: Global, symbols: &mut Symbols, decl: &Decl) -> Result<DeclTree, AllocError>
    ensures begins { Begins symbols.old symbols.new }
    ensures table { OnOk result (symbols.new ≡ interned_all symbols.old (decl_texts decl.now)) }
    ensures decl { IfOk result (λ it. (later : List (List ℕ)) → Begins symbols.new later → it ≡ decl_of later decl.now) }
{
    match decl {
        Decl::KindDecl(names, arrows) => {
            let names = read_names(alloc, symbols, names.as_slice())?;
            Ok(DeclTree::KindTree {
                names,
                arity: *arrows,
            })
        }
        Decl::TypeDecl(names, ty) => read_type_of(alloc, symbols, names.as_slice(), ty),
        Decl::PredDecl(name, args) => read_pred(alloc, symbols, name, args.as_slice()),
    }
}

// The declaration of an item is put last.
fn read_item(
    alloc: Global,
    symbols: &mut Symbols,
    item: &Item,
    decls: &mut DeclTrees,
) -> Result<(), AllocError>
    ensures begins { Begins symbols.old symbols.new }
    ensures table { OnOk result (symbols.new ≡ interned_all symbols.old (item_texts item.now)) }
    ensures decls { OnOk result ((later : List (List ℕ)) → Begins symbols.new later → decls.new ≡ decls.old ++ item_decls later item.now) }
{
    match item {
        Item::Decl(decl) => {
            let tree = read_decl(alloc, symbols, decl)?;
            decls.push(tree)?;
            Ok(())
        }
        Item::Clause(_) => Ok(()),
        Item::Block(_) => Ok(()),
    }
}

/// The declarations of kinds and types of a program, in the order of the text. The texts of their names and of the words of
/// their types go last into the table, each where it is new, and what the table held keeps its numbers, after every answer.
///
/// Errors: want of memory.
pub fn read_declarations(
    alloc: Global,
    ast: &Ast,
    symbols: &mut Symbols,
) -> Result<DeclTrees, AllocError>
    ensures begins { Begins symbols.old symbols.new }
    ensures table { OnOk result (symbols.new ≡ interned_all symbols.old (declared_texts ast.now)) }
    ensures declarations { IfOk result (λ decls. decls ≡ declarations_of symbols.new ast.now) }
{
    let mut decls = Sequence::new(alloc);
    for item in ast.as_slice() {
        read_item(alloc, symbols, item, &mut decls)?;
    }
    Ok(decls)
}
