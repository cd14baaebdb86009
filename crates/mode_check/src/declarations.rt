//! Breaches of declarations.
ghost use Rattle.std.specs.Prelude.{◌≡◌, [], flat_map, IfOk};
ghost use Rattle.lp_resolve.specs.StaticRules.{is_reserved, redeclared, line_breaches, breaches_at, first_of};
ghost use Rattle.lp_resolve.specs.declared.static_rule.StaticRule.TheVariants.{S1};

use crate::breach::{Breach, breach_if, earlier};
use indexmap::IndexSet;
use lp_resolve::{PredLine, StaticRule};
use ref_terms::Sym;
use std::alloc::{AllocError, Global};

// How many reserved names there are: they are the first symbols.
const RESERVED: usize = 23;

/// Whether a symbol is a reserved name.
pub fn is_reserved(symbol: Sym) -> bool
    ensures { result ≡ is_reserved symbol.0 }
{
    symbol.0 < RESERVED
}

/// The first breach of S1: a name that an earlier declaration has.
pub fn first_redeclared(alloc: Global, lines: &[PredLine]) -> Result<Option<Breach>, AllocError>
    ensures { IfOk result (λ found. found ≡ first_of (breaches_at S1 (redeclared [] lines.now))) }
{
    let mut names: IndexSet<usize> = IndexSet::new(alloc);
    let mut found = None;
    for line in lines {
        let is_new = names.insert(line.name.0)?;
        found = earlier(found, breach_if(!is_new, StaticRule::S1, line.place));
    }
    Ok(found)
}

/// The first declaration of a reserved name.
pub fn first_reserved(lines: &[PredLine]) -> Option<Breach>
    ensures { result ≡ first_of (flat_map line_breaches lines.now) }
{
    let mut found = None;
    for line in lines {
        found = earlier(
            found,
            breach_if(is_reserved(line.name), StaticRule::S5, line.place),
        );
    }
    found
}
