//! The declared types of constants.
ghost use Rattle.std.specs.Prelude.{◌≡◌, ◌<◌, ℕ, [], ◌∷◌, length, map, flat_map, if◌then◌else◌, nat_lt, None, IfOk, OnOk};
ghost use Rattle.type_terms.specs.Read.{declared_of};
ghost use Rattle.decl_types.specs.DeclaredTypes.{reserved_polytype, declared_in, declared_types, typed_so, Declared};
ghost use Rattle.decl_types.specs.inside.Tables.{Gains};

use crate::reserved::reserved_type;
use crate::schemes::{most_variables, pred_scheme, scheme_of, variables_of};
use decl_trees::{DeclTree, PlacedName, TypeTree};
use ref_terms::{Reserved, Sym};
use std::alloc::{AllocError, Global};
use type_terms::Polytype;

// The type of the constant with a number, where it is reserved.
fn reserved_polytype(alloc: Global, constant: usize) -> Result<Option<Polytype>, AllocError>
    ensures { IfOk result (λ polytype. polytype ≡ reserved_polytype constant) }
{
    let Some(word) = Reserved::of(Sym(constant)) else {
        return Ok(None);
    };
    match reserved_type(alloc, word)? {
        Some(scheme) => {
            let variables = 2;
            Ok(Some(Polytype { variables, scheme }))
        }
        None => Ok(None),
    }
}

// A table of so many constants, in which the reserved ones have their types.
fn reserved_table(alloc: Global, count: usize) -> Result<Vec<Option<Polytype>>, AllocError>
    ensures length { IfOk result (λ table. length table.items ≡ count) }
    ensures types { IfOk result (λ table. (c : ℕ) → declared_of table.items c ≡ (if nat_lt c count then reserved_polytype c else None)) }
{
    let mut table = Vec::new(alloc);
    for constant in 0..count {
        table.push(reserved_polytype(alloc, constant)?)?;
    }
    Ok(table)
}

// Gives a constant its type, where it has none and is in the table.
fn declare(table: &mut Vec<Option<Polytype>>, name: Sym, polytype: Polytype)
    ensures { Gains table.old.items table.new.items (record { name = name.0; type = polytype } ∷ []) }
{
    if name.0 >= table.len() {
        return;
    }
    if table[name.0].is_some() {
        return;
    }
    table[name.0] = Some(polytype);
}

// Gives names that a `type` declares their type.
fn declare_all(
    alloc: Global,
    table: &mut Vec<Option<Polytype>>,
    names: &[PlacedName],
    ty: &TypeTree,
) -> Result<(), AllocError>
    ensures { OnOk result (Gains table.old.items table.new.items (map (typed_so ty.now) names.now)) }
{
    for name in names {
        let variables = variables_of(ty)?;
        let scheme = scheme_of(alloc, ty)?;
        declare(table, name.sym, Polytype { variables, scheme });
    }
    Ok(())
}

// Gives the names of a declaration their types.
fn declare_in(
    alloc: Global,
    table: &mut Vec<Option<Polytype>>,
    decl: &DeclTree,
) -> Result<(), AllocError>
    ensures { OnOk result (Gains table.old.items table.new.items (declared_in decl.now)) }
{
    match decl {
        DeclTree::KindTree { names: _, arity: _ } => Ok(()),
        DeclTree::TypeOf { names, ty } => declare_all(alloc, table, names.as_slice(), ty),
        DeclTree::PredTree { name, args } => {
            let variables = most_variables(args.as_slice())?;
            let scheme = pred_scheme(alloc, args.as_slice())?;
            declare(table, name.sym, Polytype { variables, scheme });
            Ok(())
        }
    }
}

// Gives the names of declarations their types.
fn declare_each(
    alloc: Global,
    table: &mut Vec<Option<Polytype>>,
    decls: &[DeclTree],
) -> Result<(), AllocError>
    ensures { OnOk result (Gains table.old.items table.new.items (flat_map declared_in decls.now)) }
{
    for decl in decls {
        declare_in(alloc, table, decl)?;
    }
    Ok(())
}

/// The types of the first so many constants, where declarations give them types or they are reserved.
///
/// Errors: want of memory. Costs a look at the type of a `type` for each name that it declares.
pub fn declared_table(
    alloc: Global,
    decls: &[DeclTree],
    count: usize,
) -> Result<Vec<Option<Polytype>>, AllocError>
    ensures { IfOk result (λ table. (c : ℕ) → declared_of table.items c ≡ declared_types count decls.now c) }
{
    let mut table = reserved_table(alloc, count)?;
    declare_each(alloc, &mut table, decls)?;
    Ok(table)
}
