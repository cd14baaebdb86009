//! A rule that is tried on tuples of stored constraints.

ghost use Rattle.std.specs.Prelude.{◌≡◌, ◌≤◌, drop, length, map, IfOk};
ghost use Rattle.ref_terms.specs.search.RuleInstance.{is_fired};
ghost use Rattle.suspend.specs.Store.{firings};
ghost use Rattle.sequent_rules.specs.Branches.{fired_of};

use crate::rules::RuleShape;
use hyp_context::Context;
use std::alloc::{AllocError, Global};
use suspend::{Fired, Store};

/// A rule by its place, with what of it needs no heap, and the stored constraints on which it is tried.
#[derive(Drop)]
pub(crate) struct Scan<'a, R> {
    pub store: &'a Store<Context>,
    pub rules: &'a R,
    pub shape: &'a RuleShape,
    pub rule: usize,
}

/// Whether the rule at a place fired on these constraints.
pub(crate) fn has_fired(
    alloc: Global,
    store: &Store<Context>,
    rule: usize,
    ids: &[u64],
) -> Result<bool, AllocError>
    ensures { IfOk result (λ b. b ≡ is_fired (record { rule = rule; constraints = ids.now }) (map fired_of (firings store.now))) }
{
    let constraints = copy_of(alloc, ids)?;
    Ok(store.fired(&Fired { rule, constraints }))
}

/// The same numbers in a list of their own.
pub(crate) fn copy_of(alloc: Global, ids: &[u64]) -> Result<Vec<u64>, AllocError>
    ensures { IfOk result (λ v. v.items ≡ ids.now) }
{
    let mut copy = Vec::new(alloc);
    copy.extend_from_slice(ids)?;
    Ok(copy)
}

/// The numbers after so many.
pub(crate) fn after_kept(alloc: Global, ids: &[u64], kept: usize) -> Result<Vec<u64>, AllocError>
    requires { kept ≤ length ids.now }
    ensures { IfOk result (λ v. v.items ≡ drop kept ids.now) }
{
    copy_of(alloc, &ids[kept..])
}
