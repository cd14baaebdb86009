//! What of a program's rules needs no heap, as a search for their instances sees it.

ghost use Rattle.std.specs.Prelude.{◌≡◌, ◌++◌, ℕ, map, IfOk, OnOk};
ghost use Rattle.level_terms.specs.Graph.{Graph};
ghost use Rattle.ref_terms.specs.search.Program.{Program, Rule};
ghost use Rattle.clause_compile.specs.Rules.{IsRulesCode, IsShapeOf};
ghost use Rattle.sequent_rules.specs.Rules.{IsRuleShape};
ghost use Rattle.goal_run.specs.inside.Shapes.{head_shape, AreShapes};

use clause_compile::{HeadShape as HeadCode, RuleShape as RuleCode, Rules};
use sequent_rules::{HeadShape, RuleShape};
use std::alloc::{AllocError, Global};

/// What of a head needs no heap.
fn shape_of_head(head: &HeadCode) -> HeadShape
    ensures { result ≡ head_shape head.now }
{
    HeadShape {
        context: head.context,
        pred: head.pred,
        arity: head.arity,
    }
}

/// Puts the shapes of heads last, in order.
fn add_shapes(heads: &[HeadCode], shapes: &mut Vec<HeadShape>) -> Result<(), AllocError>
    ensures { OnOk result (shapes.new.items ≡ shapes.old.items ++ map head_shape heads.now) }
{
    for head in heads {
        shapes.push(shape_of_head(head))?;
    }
    Ok(())
}

/// What of a rule needs no heap: its heads stand in one list, kept ones first.
fn shape_of_rule(alloc: Global, rule: &RuleCode) -> Result<RuleShape, AllocError>
    ensures { IfOk result (λ s. (r : Rule) → IsShapeOf rule.now r → IsRuleShape s r) }
{
    let names = Vec::from_slice(alloc, rule.names.as_slice())?;
    let pairs = Vec::from_slice(alloc, rule.pairs.as_slice())?;
    let mut heads = Vec::new(alloc);
    add_shapes(rule.kept.as_slice(), &mut heads)?;
    add_shapes(rule.removed.as_slice(), &mut heads)?;
    Ok(RuleShape {
        names,
        kept: rule.kept.len(),
        heads,
        pairs,
        body_context: rule.body_context,
    })
}

/// What of each rule needs no heap, in order.
pub(crate) fn shapes_of(alloc: Global, rules: &Rules) -> Result<Vec<RuleShape>, AllocError>
    requires { (n : ℕ) × (g : Graph) × (p : Program) × IsRulesCode n g rules.now p }
    ensures { IfOk result (λ shapes. (n : ℕ) (g : Graph) (p : Program) → IsRulesCode n g rules.now p → AreShapes shapes.items p.rules) }
{
    let mut shapes = Vec::new(alloc);
    for rule in 0..rules.len() {
        let shape = shape_of_rule(alloc, rules.shape(rule))?;
        shapes.push(shape)?;
    }
    Ok(shapes)
}
