//! Clauses and rules in the order of the text.
ghost use Rattle.std.specs.Prelude.{◌≡◌, IfOk};
ghost use Rattle.type_check.specs.Typings.{items_of};
ghost use Rattle.type_check.specs.inside.Order.{AreEntries, IsInOrder};

use lp_parser::Place;
use lp_resolve::{ClauseTree, Program, RuleTree};
use std::alloc::{AllocError, Global};

/// A clause or a rule.
#[derive(Clone, Copy)]
pub enum Item<'a> {
    Clause(&'a ClauseTree),
    Rule(&'a RuleTree),
}

/// A clause or a rule, with its place.
#[derive(Clone, Copy)]
pub struct Entry<'a> {
    pub place: Place,
    pub item: Item<'a>,
}

// The clauses and then the rules.
fn entries_of(alloc: Global, program: &Program) -> Result<Vec<Entry<'_>>, AllocError>
    ensures { IfOk result (λ entries. AreEntries (items_of program.now) entries.items) }
{
    let mut entries = Vec::new(alloc);
    for clause in program.clauses.as_slice() {
        entries.push(Entry {
            place: clause.places.first,
            item: Item::Clause(clause),
        })?;
    }
    for rule in program.rules.as_slice() {
        entries.push(Entry {
            place: rule.places.rule,
            item: Item::Rule(rule),
        })?;
    }
    Ok(entries)
}

/// The clauses and rules in the order of the text.
///
/// Errors: want of memory. Costs as a sort does.
pub fn in_order(alloc: Global, program: &Program) -> Result<Vec<Entry<'_>>, AllocError>
    ensures { IfOk result (λ entries. IsInOrder (items_of program.now) entries.items) }
{
    let mut entries = entries_of(alloc, program)?;
    entries.sort_by_key(|entry| (entry.place.file, entry.place.at))?;
    Ok(entries)
}
