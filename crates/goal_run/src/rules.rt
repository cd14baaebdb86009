//! The rules that a search asks for.

ghost use Rattle.std.specs.Prelude.{◌≡◌, ◌++◌, ◌<◌, ℕ, [], length, map, slice_get, Some, IfOk, OnOk};
ghost use Rattle.level_terms.specs.Graph.{Graph};
ghost use Rattle.level_terms.specs.Growth.{Grows};
ghost use Rattle.ref_terms.specs.search.Program.{Program, Rule};
ghost use Rattle.clause_compile.specs.Programs.{IsCode};
ghost use Rattle.clause_compile.specs.Rules.{IsRuleOf};
ghost use Rattle.sequent_rules.specs.Rules.{IsRuleMade};
ghost use Rattle.goal_run.specs.inside.Shapes.{head_made};

use crate::code::ProgramCode;
use clause_compile::{Code, HeadInstance as MadeHead, RuleInstance as MadeRule, rule_of};
use level_terms::Heap;
use ref_terms::Sequence;
use sequent_rules::{HeadInstance, RuleInstance, RuleShape, Rules};
use std::alloc::{AllocError, Global};

/// Puts the arguments of heads last, in order.
fn add_heads(made: Sequence<MadeHead>, heads: &mut Vec<HeadInstance>) -> Result<(), AllocError>
    ensures { OnOk result (heads.new.items ≡ heads.old.items ++ map head_made made) }
{
    for head in made.into_vec() {
        heads.push(HeadInstance { args: head.args })?;
    }
    Ok(())
}

/// A rule in the heap, with the arguments of its heads in one list, kept ones first.
fn instance_of(alloc: Global, made: MadeRule) -> Result<RuleInstance, AllocError>
    ensures { IfOk result (λ i. (r : Rule) (depth : ℕ) (f g : Graph) → IsRuleOf r depth f g made → IsRuleMade r depth f g i) }
{
    let mut heads = Vec::new(alloc);
    add_heads(made.kept, &mut heads)?;
    add_heads(made.removed, &mut heads)?;
    Ok(RuleInstance {
        variables: made.variables,
        heads,
        tests: made.tests,
        body: made.body,
    })
}

/// Makes a rule's variables at the depth, and its heads' arguments, its tests and its body over them.
fn make_rule(
    alloc: Global,
    heap: &mut Heap,
    code: &Code,
    rule: usize,
    depth: usize,
) -> Result<RuleInstance, AllocError>
    requires { (n : ℕ) × (p : Program) × IsCode n heap.old code.now p × (rule < length p.rules) }
    ensures made { IfOk result (λ made. (n : ℕ) (p : Program) (r : Rule) → IsCode n heap.old code.now p → slice_get p.rules rule ≡ Some r
        → IsRuleMade r depth heap.old heap.new made) }
    ensures grows { Grows heap.old heap.new [] [] }
{
    let made = rule_of(alloc, heap, code.rules(), rule, depth)?;
    let instance = instance_of(alloc, made)?;
    Ok(instance)
}

impl Rules for ProgramCode {
    ghost use Rattle.goal_run.specs.inside.Code.{Stands};

    ghost stands = { Stands };

    fn count(&self) -> usize {
        self.shapes.len()
    }

    fn shape(&self, rule: usize) -> &RuleShape {
        &self.shapes[rule]
    }

    fn instance(
        &self,
        alloc: Global,
        heap: &mut Heap,
        rule: usize,
        depth: usize,
    ) -> Result<RuleInstance, AllocError> {
        make_rule(alloc, heap, &self.code, rule, depth)
    }
}
