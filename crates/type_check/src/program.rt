//! Types of programs.
ghost use Rattle.std.specs.Prelude.{◌≡◌, IfOk, IfErr};
ghost use Rattle.type_check.specs.Inference.{IsInference, IsCause};

use crate::error::TypeError;
use crate::inferring::{Typing, infer_types};
use decl_trees::DeclTree;
use decl_types::{declared_table, first_breach};
use lp_resolve::{Program, Symbols};
use std::alloc::Global;

/// The principal types of a program's undeclared constants, where these are its declarations of kinds and types.
///
/// Errors: `Broken` with the first broken rule of Y1 to Y3 and its place, in the order of the text and at one place by the
/// lower number, and where none of them is broken with Y4 at the first clause or rule such that those up to and including it
/// have no typing; want of memory.
pub fn infer(
    alloc: Global,
    symbols: &Symbols,
    decls: &[DeclTree],
    program: &Program,
) -> Result<Typing, TypeError>
    ensures typed { IfOk result (IsInference symbols.now decls.now program.now) }
    ensures cause { IfErr result (IsCause symbols.now decls.now program.now) }
{
    match first_breach(alloc, symbols, decls)? {
        Some(breach) => Err(TypeError::Broken(breach.rule, breach.place)),
        None => {
            let count = symbols.len();
            let declared = declared_table(alloc, decls, count)?;
            infer_types(alloc, declared.as_slice(), count, program)
        }
    }
}
