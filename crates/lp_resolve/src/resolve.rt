//! Reads the parser's trees as programs.
ghost use Rattle.std.specs.Prelude.{◌≡◌, length, IfOk, OnOk};
ghost use Rattle.lp_resolve.specs.Symbols.{Begins, interned_all};
ghost use Rattle.lp_resolve.specs.ProgramTexts.{program_texts};
ghost use Rattle.lp_resolve.specs.ProgramReading.{program_of};
ghost use Rattle.lp_resolve.specs.WellFormed.{IsWellFormed};
ghost use Rattle.lp_resolve.specs.inside.ProgramNamed.{IsProgramNamed};

use crate::gather::gather;
use crate::items::{ItemLists, read_items};
use crate::program::Program;
use crate::symbols::Symbols;
use lp_parser::Ast;
use std::alloc::{AllocError, Global};

/// The program that the items are read as. Their texts go last into the table, each where it is new, and
/// what the table held keeps its numbers, after every answer.
///
/// Errors: want of memory.
pub fn resolve_program(
    alloc: Global,
    ast: &Ast,
    symbols: &mut Symbols,
) -> Result<Program, AllocError>
    ensures begins { Begins symbols.old symbols.new }
    ensures table { OnOk result (symbols.new ≡ interned_all symbols.old (program_texts ast.now)) }
    ensures program { IfOk result (λ program. program ≡ program_of symbols.new ast.now) }
    ensures well_formed { IfOk result IsWellFormed }
    ensures named { IfOk result (IsProgramNamed (length symbols.new)) }
{
    symbols.begins_reserved();
    let lists = read_items(alloc, ast.as_slice(), symbols)?;
    let ItemLists {
        lines,
        clauses,
        rules,
    } = lists;
    let preds = gather(alloc, lines.as_slice(), clauses.as_slice())?;
    Ok(Program {
        preds,
        clauses,
        rules,
        decls: lines,
    })
}
