//! Checks programs.
ghost use Rattle.std.specs.Prelude.{◌≡◌, None, IfOk, OnOk, IfErr};
ghost use Rattle.lp_resolve.specs.StaticRules.{first_breach};
ghost use Rattle.lp_resolve.specs.WellFormed.{IsWellFormed};
ghost use Rattle.mode_check.specs.Verdict.{IsCause};

use crate::breach::{Breach, earlier};
use crate::declarations::{first_redeclared, first_reserved};
use crate::error::StaticError;
use crate::heads::{first_in_clauses, first_in_rule_heads};
use crate::rules::first_in_rules;
use lp_resolve::{Checked, Program};
use std::alloc::{AllocError, Global};

/// The first breach of a program.
pub fn first_breach(alloc: Global, program: &Program) -> Result<Option<Breach>, AllocError>
    ensures { IfOk result (λ found. found ≡ first_breach program.now) }
{
    let lines = program.decls.as_slice();
    let rules = program.rules.as_slice();
    let redeclared = first_redeclared(alloc, lines)?;
    let reserved = first_reserved(lines);
    let clause_heads = first_in_clauses(alloc, &program.preds, program.clauses.as_slice())?;
    let rule_heads = first_in_rule_heads(alloc, &program.preds, rules)?;
    let in_rules = first_in_rules(alloc, rules)?;
    let in_lines = earlier(redeclared, reserved);
    let in_heads = earlier(clause_heads, rule_heads);
    Ok(earlier(earlier(in_lines, in_heads), in_rules))
}

/// Admits a program that keeps all static rules.
///
/// Errors: `Broken` with the first broken rule and its place, by file, then by byte, and at one place by the
/// lower number of the rule; want of memory.
pub fn check(alloc: Global, program: Program) -> Result<Checked, StaticError>
    requires { IsWellFormed program }
    ensures admitted { IfOk result (λ checked. checked ≡ program) }
    ensures unbroken { OnOk result (first_breach program ≡ None) }
    ensures cause { IfErr result (IsCause program) }
{
    match first_breach(alloc, &program)? {
        Some(breach) => Err(StaticError::Broken(breach.rule(), breach.place())),
        None => Ok(Checked::admit(program)),
    }
}
