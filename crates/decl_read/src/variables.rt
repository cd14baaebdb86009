//! The variables of a declaration, numbered by the order of first places.
ghost use Rattle.std.specs.Prelude.{◌≡◌, [], map, flat_map, IfOk, OnOk};
ghost use Rattle.lp_resolve.specs.Symbols.{number_of, interned, interned_all};
ghost use Rattle.decl_read.specs.DeclReading.{is_variable, variable_texts, variables_in};

use indexmap::IndexSet;
use lp_parser::{AstArg, AstType};
use std::alloc::{AllocError, Global};

/// Whether a text is a variable: it begins with a capital or with `_`.
pub fn is_variable(text: &[u8]) -> bool
    ensures { result ≡ is_variable text.now }
{
    match text.first() {
        Some(byte) => (*byte >= 65 && *byte <= 90) || *byte == 95,
        None => false,
    }
}

/// The number of a variable.
pub fn number_of(variables: &IndexSet<Vec<u8>>, text: &[u8]) -> usize
    ensures { result ≡ number_of (map (λ it. it.items) variables.now.keys) text.now }
{
    match variables.get_index_of(text) {
        Some(number) => number,
        None => variables.len(),
    }
}

// Puts a text last, where it is new.
fn put(variables: &mut IndexSet<Vec<u8>>, text: &[u8]) -> Result<(), AllocError>
    ensures { OnOk result (map (λ it. it.items) variables.new.keys ≡ interned (map (λ it. it.items) variables.old.keys) text.now) }
{
    if let Some(_number) = variables.get_index_of(text) {
        return Ok(());
    }
    let text = Vec::from_slice(*variables.allocator(), text)?;
    variables.insert(text)?;
    Ok(())
}

// Puts a text last, where it is a new variable.
fn put_variable(variables: &mut IndexSet<Vec<u8>>, text: &[u8]) -> Result<(), AllocError>
    ensures { OnOk result (map (λ it. it.items) variables.new.keys ≡ interned_all (map (λ it. it.items) variables.old.keys) (variable_texts text.now)) }
{
    if is_variable(text) {
        return put(variables, text);
    }
    Ok(())
}

// Puts the variables of a type last, each where it is new.
#[cycle(variables)]
fn put_type(variables: &mut IndexSet<Vec<u8>>, ty: &AstType) -> Result<(), AllocError>
    ensures { OnOk result (map (λ it. it.items) variables.new.keys ≡ interned_all (map (λ it. it.items) variables.old.keys) (variables_in ty.now)) }
{
    match ty {
        AstType::Named(word, args) => {
            put_variable(variables, word.text.as_slice())?;
            put_types(variables, args.as_slice())?;
            Ok(())
        }
        AstType::Arrow(left, right) => {
            put_type(variables, left.get())?;
            put_type(variables, right.get())?;
            Ok(())
        }
    }
}

// Puts the variables of these types last, each where it is new.
#[cycle(variables)]
fn put_types(variables: &mut IndexSet<Vec<u8>>, types: &[AstType]) -> Result<(), AllocError>
    ensures { OnOk result (map (λ it. it.items) variables.new.keys ≡ interned_all (map (λ it. it.items) variables.old.keys) (flat_map variables_in types.now)) }
{
    for ty in types {
        put_type(variables, ty)?;
    }
    Ok(())
}

/// The variables of a type.
///
/// Errors: want of memory.
pub fn variables_of(alloc: Global, ty: &AstType) -> Result<IndexSet<Vec<u8>>, AllocError>
    ensures { IfOk result (λ variables. map (λ it. it.items) variables.keys ≡ interned_all [] (variables_in ty.now)) }
{
    let mut variables = IndexSet::new(alloc);
    put_type(&mut variables, ty)?;
    Ok(variables)
}

/// The variables of the arguments of a predicate.
///
/// Errors: want of memory.
pub fn variables_of_args(alloc: Global, args: &[AstArg]) -> Result<IndexSet<Vec<u8>>, AllocError>
    ensures { IfOk result (λ variables. map (λ it. it.items) variables.keys ≡ interned_all [] (flat_map (λ a. variables_in a.ty) args.now)) }
{
    let mut variables = IndexSet::new(alloc);
    for arg in args {
        put_type(&mut variables, &arg.ty)?;
    }
    Ok(variables)
}
