//! The rules of declarations of kinds and types.
ghost use Rattle.std.specs.Prelude.{◌≡◌, IfOk};
ghost use Rattle.decl_types.specs.TypeRules.{first_breach};

use crate::breach::{Breach, earlier};
use crate::kinds::{first_misused, kinds_of};
use crate::names::{first_refused, kind_names, typed_names};
use decl_trees::{DeclTree, TypeRule};
use lp_resolve::Symbols;
use std::alloc::{AllocError, Global};

/// The first broken rule of declarations, in the order of the text, and at one place the one with the lowest number.
///
/// Errors: want of memory. Costs a look at each name and each word.
pub fn first_breach(
    alloc: Global,
    symbols: &Symbols,
    decls: &[DeclTree],
) -> Result<Option<Breach>, AllocError>
    ensures { IfOk result (λ found. found ≡ first_breach symbols.now decls.now) }
{
    let kind_names = kind_names(alloc, symbols, decls)?;
    let typed_names = typed_names(alloc, decls)?;
    let kinds = kinds_of(alloc, decls)?;
    let in_kinds = first_refused(alloc, TypeRule::Y1, kind_names.as_slice())?;
    let in_types = first_refused(alloc, TypeRule::Y2, typed_names.as_slice())?;
    Ok(earlier(earlier(in_kinds, in_types), first_misused(&kinds, decls)))
}
