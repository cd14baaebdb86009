//! The constants whose types are shown.
ghost use Rattle.std.specs.Prelude.{ℕ, ◌≡◌, ◌&&◌, nat_lt, is_none, filter, length, IsPermutation, IfOk, OnOk};
ghost use Rattle.std.specs.Ordering.{nat_cmp};
ghost use Rattle.std.specs.Cmp.Lexicographic.{slice_cmp};
ghost use Rattle.std.specs.List.Sorted.{IsSortedBy};
ghost use Rattle.type_terms.specs.Read.{declared_of};
ghost use Rattle.type_texts.specs.Occurring.{undeclared};
ghost use Rattle.type_texts.specs.TypeLines.{name_in, is_name_before, AreShown};

use crate::occurring::constants_of;
use decl_trees::DeclTree;
use decl_types::declared_table;
use lp_resolve::{Program, Symbols};
use ref_terms::Sym;
use std::alloc::{AllocError, Global};
use std::cmp::Ordering;
use type_terms::Polytype;

/// The name of a constant.
pub fn name_in(symbols: &Symbols, constant: usize) -> &[u8]
    ensures { result.now ≡ name_in symbols.now constant }
{
    if constant < symbols.len() {
        symbols.name_of(Sym(constant))
    } else {
        &[]
    }
}

// The order of two names.
fn by_name(symbols: &Symbols, left: usize, right: usize) -> Ordering
    ensures { result ≡ slice_cmp nat_cmp (name_in symbols.now left) (name_in symbols.now right) }
{
    name_in(symbols, left).cmp(name_in(symbols, right))
}

// Sorts constants by their names.
fn sort(symbols: &Symbols, constants: &mut Vec<usize>) -> Result<(), AllocError>
    ensures same { IsPermutation constants.old.items constants.new.items }
    ensures sorted { OnOk result (IsSortedBy (is_name_before symbols.now) constants.new.items) }
{
    constants.sort_by(|left, right| by_name(symbols, *left, *right))
}

// Whether a constant of a table with so many names has no declared type.
fn is_undeclared(declared: &[Option<Polytype>], count: usize, constant: usize) -> bool
    ensures { result ≡ (nat_lt constant count && is_none (declared_of declared.now constant)) }
{
    if constant >= count {
        return false;
    }
    if constant < declared.len() {
        declared[constant].is_none()
    } else {
        true
    }
}

// Those of these constants that have no declared type.
fn undeclared_of(
    alloc: Global,
    declared: &[Option<Polytype>],
    count: usize,
    constants: &[usize],
) -> Result<Vec<usize>, AllocError>
    ensures { IfOk result (λ found. found.items ≡ filter (λ c. nat_lt c count && is_none (declared_of declared.now c)) constants.now) }
{
    let mut found = Vec::new(alloc);
    for constant in constants {
        if is_undeclared(declared, count, *constant) {
            found.push(*constant)?;
        }
    }
    Ok(found)
}

/// The undeclared constants that occur in a program, in the order of their names' bytes.
///
/// Errors: want of memory. Costs a look at each part of the clauses and rules, and a sort.
pub fn shown_constants(
    alloc: Global,
    symbols: &Symbols,
    decls: &[DeclTree],
    program: &Program,
) -> Result<Vec<usize>, AllocError>
    ensures { IfOk result (λ constants. AreShown symbols.now decls.now program.now constants.items) }
{
    let count = symbols.len();
    let declared = declared_table(alloc, decls, count)?;
    let occurring = constants_of(alloc, program)?;
    let mut constants = undeclared_of(alloc, declared.as_slice(), count, occurring.as_slice())?;
    sort(symbols, &mut constants)?;
    Ok(constants)
}
