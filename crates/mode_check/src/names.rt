//! Whether arguments are distinct bound names.
ghost use Rattle.std.specs.Prelude.{◌≡◌, map, IfOk};
ghost use Rattle.lp_resolve.specs.Occurrences.{walked, are_distinct_names};

use crate::trees::bound_name_of;
use indexmap::IndexSet;
use ref_terms::Tree;
use std::alloc::{AllocError, Global};

/// Whether these arguments are distinct bound names. It stops at the first that isn't so, and keeps the names before it in a set.
pub fn are_distinct_names(alloc: Global, args: &[Tree]) -> Result<bool, AllocError>
    ensures { IfOk result (λ distinct. distinct ≡ are_distinct_names (map (λ arg. (walked arg).name) args.now)) }
{
    let mut names: IndexSet<usize> = IndexSet::new(alloc);
    for arg in args {
        let Some(name) = bound_name_of(arg) else {
            return Ok(false);
        };
        if !names.insert(name)? {
            return Ok(false);
        }
    }
    Ok(true)
}
