//! The code of rules.

ghost use Rattle.std.specs.Prelude.{◌≡◌, ℕ, [], length, map, ◌<◌, slice_get, Some, All, IfOk, OnOk};
ghost use Rattle.ref_terms.specs.search.Program.{Program, Rule};
ghost use Rattle.level_terms.specs.Graph.{Graph};
ghost use Rattle.level_terms.specs.Growth.{Grows};
ghost use Rattle.lp_resolve.specs.Plain.{plain_head, plain_rule};
ghost use Rattle.clause_compile.specs.Rules.{IsRulesCode, IsShapeOf};
ghost use Rattle.clause_compile.specs.inside.RuleCodes.{IsHeadCode, AreHeadCodes, IsRuleCode, AreRuleCodes, IsHeadFit, IsRuleFit};

use crate::compiling::{compile_option, compile_terms};
use crate::pairs::pairs_in;
use crate::program::atom_of;
use crate::skeleton::Skeleton;
use level_terms::Heap;
use lp_resolve::{Checked, HeadTree, RuleTree, law_first_breach};
use ref_terms::{Pair, Sequence, Sym};
use std::alloc::{AllocError, Global};

/// A head of a rule.
#[derive(Debug, Drop)]
pub struct HeadShape {
    /// The number of the rule's variable for its context, where it has one.
    pub context: Option<usize>,
    /// The constant of its goal.
    pub pred: Sym,
    /// The number of its arguments.
    pub arity: usize,
    pub(crate) args: Skeleton,
}

/// A rule: what of it needs no heap, and what instances make.
#[derive(Debug, Drop)]
pub struct RuleShape {
    /// The names of its block.
    pub names: Sequence<Sym>,
    pub variables: usize,
    pub kept: Sequence<HeadShape>,
    pub removed: Sequence<HeadShape>,
    /// The arguments that its pairs align.
    pub pairs: Sequence<Pair>,
    /// The number of the variable for the body's context, where it has one.
    pub body_context: Option<usize>,
    pub(crate) tests: Skeleton,
    pub(crate) body: Skeleton,
}

/// The rules of a program that was compiled into a heap. What they mean there is `IsRulesCode`.
#[derive(Debug, Drop)]
pub struct Rules {
    pub(crate) rules: Sequence<RuleShape>,
}

impl Rules {
    /// The number of rules. Takes no memory.
    pub fn len(&self) -> usize
        ensures { (n : ℕ) (g : Graph) (p : Program) → IsRulesCode n g self.now p → result ≡ length p.rules }
    {
        self.rules.len()
    }

    /// The code of a rule.
    pub(crate) fn code(&self, rule: usize) -> &RuleShape
        requires { rule < length self.now.rules }
        ensures { slice_get self.now.rules rule ≡ Some result.now }
    {
        &self.rules.as_slice()[rule]
    }

    /// What of a rule needs no heap. The rule's number is below the number of rules. Takes no memory.
    pub fn shape(&self, rule: usize) -> &RuleShape
        requires { (n : ℕ) × (g : Graph) × (p : Program) × IsRulesCode n g self.now p × (rule < length p.rules) }
        ensures { (n : ℕ) (g : Graph) (p : Program) (r : Rule) → IsRulesCode n g self.now p → slice_get p.rules rule ≡ Some r → IsShapeOf result.now r }
    {
        self.code(rule)
    }
}

/// The code of a rule's head.
fn head_code(
    alloc: Global,
    heap: &mut Heap,
    head: &HeadTree,
    variables: usize,
) -> Result<HeadShape, AllocError>
    requires closed { heap.old.depths ≡ [] }
    requires fit { IsHeadFit variables head.now }
    ensures code { IfOk result (λ code. IsHeadCode variables heap.new.nodes code (plain_head head.now)) }
    ensures closed { OnOk result (heap.new.depths ≡ []) }
    ensures grows { Grows heap.old heap.new [] [] }
{
    let atom = atom_of(&head.goal);
    let args = compile_terms(alloc, heap, atom.args, variables)?;
    Ok(HeadShape {
        context: head.context,
        pred: atom.constant,
        arity: atom.args.len(),
        args,
    })
}

/// The code of each head.
fn head_codes(
    alloc: Global,
    heap: &mut Heap,
    heads: &[HeadTree],
    variables: usize,
) -> Result<Sequence<HeadShape>, AllocError>
    requires closed { heap.old.depths ≡ [] }
    requires fit { All (IsHeadFit variables) heads.now }
    ensures codes { IfOk result (λ codes. AreHeadCodes variables heap.new.nodes codes (map plain_head heads.now)) }
    ensures closed { OnOk result (heap.new.depths ≡ []) }
    ensures grows { Grows heap.old heap.new [] [] }
{
    let mut codes = Sequence::new(alloc);
    for head in heads {
        let code = head_code(alloc, heap, head, variables)?;
        codes.push(code)?;
    }
    Ok(codes)
}

/// The code of a rule.
fn rule_code(alloc: Global, heap: &mut Heap, rule: &RuleTree) -> Result<RuleShape, AllocError>
    requires closed { heap.old.depths ≡ [] }
    requires fit { IsRuleFit rule.now }
    ensures code { IfOk result (λ code. IsRuleCode heap.new.nodes code (plain_rule rule.now)) }
    ensures closed { OnOk result (heap.new.depths ≡ []) }
    ensures grows { Grows heap.old heap.new [] [] }
{
    let variables = rule.vars;
    let kept = head_codes(alloc, heap, rule.kept.as_slice(), variables)?;
    let removed = head_codes(alloc, heap, rule.removed.as_slice(), variables)?;
    let tests = compile_terms(alloc, heap, rule.tests.as_slice(), variables)?;
    let body = compile_option(alloc, heap, &rule.body, variables)?;
    let names = Sequence::from_vec(Vec::from_slice(alloc, rule.names.as_slice())?);
    let pairs = pairs_in(alloc, rule)?;
    let body_context = None;
    Ok(RuleShape {
        names,
        variables,
        kept,
        removed,
        pairs,
        body_context,
        tests,
        body,
    })
}

/// The code of each rule.
fn rule_codes(
    alloc: Global,
    heap: &mut Heap,
    rules: &[RuleTree],
) -> Result<Sequence<RuleShape>, AllocError>
    requires closed { heap.old.depths ≡ [] }
    requires fit { All IsRuleFit rules.now }
    ensures codes { IfOk result (λ codes. AreRuleCodes heap.new.nodes codes (map plain_rule rules.now)) }
    ensures closed { OnOk result (heap.new.depths ≡ []) }
    ensures grows { Grows heap.old heap.new [] [] }
{
    let mut codes = Sequence::new(alloc);
    for rule in rules {
        let code = rule_code(alloc, heap, rule)?;
        codes.push(code)?;
    }
    Ok(codes)
}

/// What the rules of a checked program are. Does nothing.
fn rules_fit(checked: &Checked)
    ensures { All IsRuleFit checked.now.rules }
{
    law_first_breach();
    let _program = checked.program();
}

/// The code of a program's rules.
pub(crate) fn compile_rules(
    alloc: Global,
    heap: &mut Heap,
    checked: &Checked,
) -> Result<Rules, AllocError>
    requires { heap.old.depths ≡ [] }
    ensures rules { IfOk result (λ rules. AreRuleCodes heap.new.nodes rules.rules (map plain_rule checked.now.rules)) }
    ensures closed { OnOk result (heap.new.depths ≡ []) }
    ensures grows { Grows heap.old heap.new [] [] }
{
    rules_fit(checked);
    let program = checked.program();
    let rules = rule_codes(alloc, heap, program.rules.as_slice())?;
    Ok(Rules { rules })
}
