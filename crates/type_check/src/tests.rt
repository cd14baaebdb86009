//! Tests of rules.
ghost use Rattle.std.specs.Prelude.{◌≡◌, All, IfOk};
ghost use Rattle.type_terms.specs.Read.{AreKnown, declared_of};
ghost use Rattle.type_terms.specs.Demands.{Demands};
ghost use Rattle.type_check.specs.Typings.{typed_as, IsTestTyped};
ghost use Rattle.type_check.specs.inside.Scopes.{At};

use lp_resolve::{args_of, constant_of};
use ref_terms::{Sym, Tree};
use std::alloc::{AllocError, Global};
use type_graph::Graph;
use type_terms::{Scope, demand_applied, demand_goal};

// The words of tests, by their numbers.
const SAME: usize = 10;

const VAR: usize = 11;

const NAME: usize = 12;

const NONVAR: usize = 23;

const DISTINCT: usize = 24;

// The constant that has the type of a word of tests.
fn typed_as(word: Sym) -> usize
    ensures { result ≡ typed_as word.0 }
{
    match word.0 {
        NONVAR | NAME => VAR,
        DISTINCT => SAME,
        other => other,
    }
}

// Gives a test its type. No: it has none.
fn demand_test(
    alloc: Global,
    scope: &Scope<'_>,
    graph: &mut Graph,
    test: &Tree,
) -> Result<bool, AllocError>
    requires { AreKnown graph.old scope.now }
    ensures { IfOk result (Demands graph.old graph.new (At scope.now (λ constants variables. IsTestTyped (declared_of scope.now.declared.now) constants variables test.now))) }
{
    match constant_of(test) {
        Some(word) => demand_applied(alloc, scope, graph, typed_as(word), args_of(test)),
        None => demand_goal(alloc, scope, graph, test),
    }
}

/// Gives each of these tests its type. No: they have none.
pub fn demand_tests(
    alloc: Global,
    scope: &Scope<'_>,
    graph: &mut Graph,
    tests: &[Tree],
) -> Result<bool, AllocError>
    requires { AreKnown graph.old scope.now }
    ensures { IfOk result (Demands graph.old graph.new (At scope.now (λ constants variables. All (IsTestTyped (declared_of scope.now.declared.now) constants variables) tests.now))) }
{
    for test in tests {
        if !demand_test(alloc, scope, graph, test)? {
            return Ok(false);
        }
    }
    Ok(true)
}
