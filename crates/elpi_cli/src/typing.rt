// From the texts of files to the lines of their types, or the line that refuses them.
ghost use Rattle.std.specs.Prelude.{◌≡◌, ◌≤◌, length, Ok};
ghost use Rattle.lp_resolve.specs.Symbols.{reserved_names};
ghost use Rattle.elpi_cli.specs.Words.{most_files};
ghost use Rattle.elpi_cli.specs.Resolved.{program_table, resolved_program};
ghost use Rattle.elpi_cli.specs.Begins.{IsRefusal};
ghost use Rattle.elpi_cli.specs.Typed.{type_rule_name, broken_line, IsTypesOutput, IsFilesOutput};
ghost use Rattle.elpi_cli.specs.inside.Sources.{entries_of};
ghost use Rattle.elpi_cli.specs.inside.Typing.{Answers};

use crate::sources::Source;
use crate::static_rules::check_program;
use crate::texts::{TextStop, read_program, refuse};
use decl_read::read_declarations;
use decl_trees::TypeRule;
use lp_parser::{Ast, Place};
use lp_resolve::{Program, Symbols};
use std::alloc::Global;
use type_check::{TypeError, infer};
use type_texts::type_lines;

// The name of a rule of types.
fn type_rule_name(rule: TypeRule) -> &'static str
    ensures { result.now ≡ type_rule_name rule }
{
    match rule {
        TypeRule::Y1 => "Y1",
        TypeRule::Y2 => "Y2",
        TypeRule::Y3 => "Y3",
        TypeRule::Y4 => "Y4",
    }
}

// The refusal of a file by a rule of types at a place.
fn refuse_types(alloc: Global, sources: &[Source], rule: TypeRule, place: Place) -> TextStop
    ensures { IsRefusal (broken_line (entries_of sources.now) rule place) result }
{
    match sources.get(place.file as usize) {
        Some(source) => refuse(
            alloc,
            source.name.as_str(),
            source.text.as_slice(),
            place.at,
            type_rule_name(rule),
        ),
        None => refuse(alloc, "", &[], place.at, type_rule_name(rule)),
    }
}

// The lines of the types of a program, which breaks no static rule, or the refusal of a file by the first rule of types
// that it breaks.
fn program_types(
    alloc: Global,
    sources: &[Source],
    ast: &Ast,
    program: &Program,
    symbols: &mut Symbols,
) -> Result<Vec<Vec<u8>>, TextStop>
    requires table { symbols.old ≡ program_table ast.now }
    requires program { program.now ≡ resolved_program ast.now }
    ensures { Answers (IsTypesOutput (entries_of sources.now) ast.now) result }
{
    let decls = read_declarations(alloc, ast, symbols)?;
    match infer(alloc, symbols, decls.as_slice(), program) {
        Err(TypeError::Broken(rule, place)) => Err(refuse_types(alloc, sources, rule, place)),
        Err(TypeError::Memory) => Err(TextStop::Memory),
        Ok(typing) => match type_lines(alloc, symbols, decls.as_slice(), program, &typing) {
            Err(_) => Err(TextStop::Memory),
            Ok(lines) => Ok(lines),
        },
    }
}

/// The lines of the types of the files' program, or the refusal of the first text, or of the program by a static rule or a
/// rule of types.
pub fn types_of(alloc: Global, sources: &[Source]) -> Result<Vec<Vec<u8>>, TextStop>
    requires { length sources.now ≤ most_files }
    ensures { Answers (IsFilesOutput (Ok (entries_of sources.now))) result }
{
    match read_program(alloc, sources) {
        Err(stop) => Err(stop),
        Ok(ast) => {
            let mut symbols = Symbols::new(alloc)?;
            match check_program(alloc, sources, &ast, &mut symbols) {
                Err(stop) => Err(stop),
                Ok(checked) => program_types(alloc, sources, &ast, checked.program(), &mut symbols),
            }
        }
    }
}
