// The program of the files' items, or the refusal of a file by a static rule.
ghost use Rattle.std.specs.Prelude.{◌≡◌};
ghost use Rattle.lp_resolve.specs.Symbols.{reserved_names};
ghost use Rattle.elpi_cli.specs.Static.{static_name, breach_at, breach_line};
ghost use Rattle.elpi_cli.specs.Begins.{IsRefusal, ChecksProgram};
ghost use Rattle.elpi_cli.specs.inside.Sources.{entries_of};

use crate::sources::Source;
use crate::texts::{TextStop, refuse};
use lp_parser::{Ast, Place};
use lp_resolve::{Checked, StaticRule, Symbols, resolve_program};
use mode_check::{StaticError, check};
use std::alloc::Global;

// The name of a static rule.
fn static_name(rule: StaticRule) -> &'static str
    ensures { result.now ≡ static_name rule }
{
    match rule {
        StaticRule::S1 => "S1",
        StaticRule::S2 => "S2",
        StaticRule::S3 => "S3",
        StaticRule::S4 => "S4",
        StaticRule::S5 => "S5",
        StaticRule::S6 => "S6",
        StaticRule::S7 => "S7",
        StaticRule::S8 => "S8",
    }
}

// The refusal of a file by a static rule at a place.
fn refuse_rule(alloc: Global, sources: &[Source], rule: StaticRule, place: Place) -> TextStop
    ensures { IsRefusal (breach_line (entries_of sources.now) (breach_at rule place)) result }
{
    match sources.get(place.file as usize) {
        Some(source) => refuse(
            alloc,
            source.name.as_str(),
            source.text.as_slice(),
            place.at,
            static_name(rule),
        ),
        None => refuse(alloc, "", &[], place.at, static_name(rule)),
    }
}

/// The program of the items of all files, whose texts go into the table, or the refusal of a file by the first static rule
/// that the program breaks.
pub fn check_program(
    alloc: Global,
    sources: &[Source],
    ast: &Ast,
    symbols: &mut Symbols,
) -> Result<Checked, TextStop>
    requires { symbols.old ≡ reserved_names }
    ensures { ChecksProgram (entries_of sources.now) ast.now symbols.new result }
{
    match resolve_program(alloc, ast, symbols) {
        Err(_) => Err(TextStop::Memory),
        Ok(program) => match check(alloc, program) {
            Err(StaticError::Broken(rule, place)) => Err(refuse_rule(alloc, sources, rule, place)),
            Err(StaticError::Memory) => Err(TextStop::Memory),
            Ok(checked) => Ok(checked),
        },
    }
}
