//! The predicates that declarations and clauses make.
ghost use Rattle.std.specs.Prelude.{◌≡◌, ◌≤◌, List, ◌∷◌, IfOk, OnOk, fold, length, drop};
ghost use Rattle.lp_resolve.specs.declared.program.ClauseTree.{ClauseTree};
ghost use Rattle.lp_resolve.specs.Gathered.{Sight, declaration, seen, with_line, clauses_alone, merged, gathered};
ghost use Rattle.lp_resolve.specs.Places.{is_before};

use crate::preds::Preds;
use crate::program::{ClauseTree, Pred, PredLine};
use crate::trees::{arity_of, constant_of};
use lp_parser::Place;
use ref_terms::Sequence;
use std::alloc::{AllocError, Global};

// The order of the texts.
fn is_before(left: Place, right: Place) -> bool
    ensures { result ≡ is_before left right }
{
    left.file < right.file || (left.file == right.file && left.at < right.at)
}

// Counts a declaration, where its symbol has no earlier one.
fn see_line(alloc: Global, preds: &mut Preds, line: &PredLine) -> Result<(), AllocError>
    ensures { OnOk result (preds.new ≡ seen preds.old (declaration line.now)) }
{
    if let Some(pred) = preds.get(line.name) {
        if pred.declared {
            return Ok(());
        }
    }
    let inputs = Sequence::from_vec(Vec::from_slice(alloc, line.inputs.as_slice())?);
    preds.insert(
        line.name,
        Pred {
            declared: true,
            inputs,
        },
    )
}

// Counts a clause, where the symbol at its head is no predicate before it.
fn see_clause(alloc: Global, preds: &mut Preds, clause: &ClauseTree) -> Result<(), AllocError>
    ensures { OnOk result (preds.new ≡ seen preds.old (Sight.clause clause.now)) }
{
    let Some(name) = constant_of(&clause.head) else {
        return Ok(());
    };
    if preds.get(name).is_some() {
        return Ok(());
    }
    let inputs = vec![in alloc; false; arity_of(&clause.head)]?;
    preds.insert(
        name,
        Pred {
            declared: false,
            inputs: Sequence::from_vec(inputs),
        },
    )
}

// Counts the clauses from this one on that stand before the declaration, and answers the first that doesn't.
fn see_clauses_before(
    alloc: Global,
    preds: &mut Preds,
    clauses: &[ClauseTree],
    from: usize,
    line: &PredLine,
) -> Result<usize, AllocError>
    requires { from ≤ length clauses.now }
    ensures within { IfOk result (λ next. next ≤ length clauses.now) }
    ensures seen { IfOk result (λ next. (rest : List ClauseTree → List Sight) →
        fold seen preds.old (with_line line.now rest (drop from clauses.now))
        ≡ fold seen preds.new (declaration line.now ∷ rest (drop next clauses.now))) }
{
    let mut next = from;
    while next < clauses.len() && is_before(clauses[next].places.head, line.place) {
        see_clause(alloc, preds, &clauses[next])?;
        next += 1;
    }
    Ok(next)
}

// Counts the declarations and the clauses before the last of them, and answers the first clause after it.
fn see_lines(
    alloc: Global,
    preds: &mut Preds,
    lines: &[PredLine],
    clauses: &[ClauseTree],
) -> Result<usize, AllocError>
    ensures within { IfOk result (λ next. next ≤ length clauses.now) }
    ensures seen { IfOk result (λ next. fold seen preds.old (merged lines.now clauses.now)
        ≡ fold seen preds.new (clauses_alone (drop next clauses.now))) }
{
    let mut next = 0;
    for line in lines {
        next = see_clauses_before(alloc, preds, clauses, next, line)?;
        see_line(alloc, preds, line)?;
    }
    Ok(next)
}

/// The predicates of declarations and clauses, each by its first declaration or else by its first clause.
pub fn gather(
    alloc: Global,
    lines: &[PredLine],
    clauses: &[ClauseTree],
) -> Result<Preds, AllocError>
    ensures { IfOk result (λ preds. preds ≡ gathered lines.now clauses.now) }
{
    let mut preds = Preds::new(alloc);
    let first = see_lines(alloc, &mut preds, lines, clauses)?;
    for index in first..clauses.len() {
        see_clause(alloc, &mut preds, &clauses[index])?;
    }
    Ok(preds)
}
