//! The constants that occur in a program.
ghost use Rattle.std.specs.Prelude.{◌≡◌, [], flat_map, IfOk, OnOk};
ghost use Rattle.lp_resolve.specs.Trees.{as_term, head_term};
ghost use Rattle.type_texts.specs.TypeText.{noted_all};
ghost use Rattle.type_texts.specs.Occurring.{constants_in, tree_constants, body_constants, clause_constants, goal_constants, test_constants, rule_constants, occurring};

use indexmap::IndexSet;
use lp_resolve::{ClauseTree, HeadTree, Program, RuleTree, args_of};
use ref_terms::{Head, Tree};
use std::alloc::{AllocError, Global};

// Puts the constants of a tree last, each where it is new.
#[cycle(noted)]
fn note_tree(constants: &mut IndexSet<usize>, tree: &Tree) -> Result<(), AllocError>
    ensures { OnOk result (constants.new.keys ≡ noted_all constants.old.keys (constants_in (as_term tree.now))) }
{
    match tree {
        Tree::Lam(body) => note_tree(constants, body.get()),
        Tree::Ap(head, args) => {
            note_front(constants, head)?;
            note_trees(constants, args.as_slice())
        }
    }
}

// Those of a head.
#[cycle(noted)]
fn note_front(constants: &mut IndexSet<usize>, head: &Head) -> Result<(), AllocError>
    ensures { OnOk result (constants.new.keys ≡ noted_all constants.old.keys (constants_in (head_term head.now))) }
{
    match head {
        Head::Con(constant) => {
            constants.insert(constant.0)?;
            Ok(())
        }
        Head::Int(_) | Head::Str(_) | Head::Bound(_) | Head::ClauseVar(_) => Ok(()),
        Head::Stuck(abstraction) => note_tree(constants, abstraction.get()),
    }
}

// Those of these trees.
#[cycle(noted)]
fn note_trees(constants: &mut IndexSet<usize>, trees: &[Tree]) -> Result<(), AllocError>
    ensures { OnOk result (constants.new.keys ≡ noted_all constants.old.keys (flat_map tree_constants trees.now)) }
{
    for tree in trees {
        note_tree(constants, tree)?;
    }
    Ok(())
}

// Those of a body.
fn note_body(constants: &mut IndexSet<usize>, body: &Option<Tree>) -> Result<(), AllocError>
    ensures { OnOk result (constants.new.keys ≡ noted_all constants.old.keys (body_constants body.now)) }
{
    match body {
        Some(body) => note_tree(constants, body),
        None => Ok(()),
    }
}

// Those of a clause.
fn note_clause(constants: &mut IndexSet<usize>, clause: &ClauseTree) -> Result<(), AllocError>
    ensures { OnOk result (constants.new.keys ≡ noted_all constants.old.keys (clause_constants clause.now)) }
{
    note_tree(constants, &clause.head)?;
    note_body(constants, &clause.body)
}

// Those of the heads of a rule.
fn note_goals(constants: &mut IndexSet<usize>, heads: &[HeadTree]) -> Result<(), AllocError>
    ensures { OnOk result (constants.new.keys ≡ noted_all constants.old.keys (flat_map goal_constants heads.now)) }
{
    for head in heads {
        note_tree(constants, &head.goal)?;
    }
    Ok(())
}

// Those of its tests.
fn note_tests(constants: &mut IndexSet<usize>, tests: &[Tree]) -> Result<(), AllocError>
    ensures { OnOk result (constants.new.keys ≡ noted_all constants.old.keys (flat_map test_constants tests.now)) }
{
    for test in tests {
        note_trees(constants, args_of(test))?;
    }
    Ok(())
}

// Those of a rule.
fn note_rule(constants: &mut IndexSet<usize>, rule: &RuleTree) -> Result<(), AllocError>
    ensures { OnOk result (constants.new.keys ≡ noted_all constants.old.keys (rule_constants rule.now)) }
{
    note_goals(constants, rule.kept.as_slice())?;
    note_goals(constants, rule.removed.as_slice())?;
    note_tests(constants, rule.tests.as_slice())?;
    note_body(constants, &rule.body)
}

// Those of these clauses.
fn note_clauses(constants: &mut IndexSet<usize>, clauses: &[ClauseTree]) -> Result<(), AllocError>
    ensures { OnOk result (constants.new.keys ≡ noted_all constants.old.keys (flat_map clause_constants clauses.now)) }
{
    for clause in clauses {
        note_clause(constants, clause)?;
    }
    Ok(())
}

// Those of these rules.
fn note_rules(constants: &mut IndexSet<usize>, rules: &[RuleTree]) -> Result<(), AllocError>
    ensures { OnOk result (constants.new.keys ≡ noted_all constants.old.keys (flat_map rule_constants rules.now)) }
{
    for rule in rules {
        note_rule(constants, rule)?;
    }
    Ok(())
}

/// The constants that occur in a program, each once.
///
/// Errors: want of memory. Costs a look at each part of the clauses and rules.
pub fn constants_of(alloc: Global, program: &Program) -> Result<IndexSet<usize>, AllocError>
    ensures { IfOk result (λ constants. constants.keys ≡ noted_all [] (occurring program.now)) }
{
    let mut constants = IndexSet::new(alloc);
    note_clauses(&mut constants, program.clauses.as_slice())?;
    note_rules(&mut constants, program.rules.as_slice())?;
    Ok(constants)
}
