//! Instances of rules.

ghost use Rattle.std.specs.Prelude.{◌≡◌, ℕ, ◌<◌, [], List, length, get_or, slice_get, Some, map, option_map, option_to_list, IfOk, IfSome, OnOk};
ghost use Rattle.ref_terms.specs.terms.Term.{Term};
ghost use Rattle.ref_terms.specs.search.Program.{Program, Rule, RuleHead};
ghost use Rattle.ref_terms.specs.search.Instance.{instance};
ghost use Rattle.level_terms.specs.declared.node.Node.{Node};
ghost use Rattle.level_terms.specs.Growth.{Grows};
ghost use Rattle.clause_compile.specs.Rules.{IsRulesCode, IsHeadMade, IsRuleOf};
ghost use Rattle.clause_compile.specs.Instances.{all_read, AllValidAt};
ghost use Rattle.clause_compile.specs.inside.Meaning.{AreShared, IsCompiled};
ghost use Rattle.clause_compile.specs.inside.Rows.{IsRow};
ghost use Rattle.clause_compile.specs.inside.RuleCodes.{Each, IsHeadCode, AreHeadCodes, IsRuleCode};

use crate::instance::{Room, make_terms, make_variables, only_of};
use crate::rules::{HeadShape, RuleShape, Rules};
use crate::skeleton::Skeleton;
use level_terms::{Heap, TermId, VarId};
use ref_terms::Sequence;
use std::alloc::{AllocError, Global};

/// A head of a rule in the heap.
#[derive(Drop)]
pub struct HeadInstance {
    /// The variable of its context, where it has one.
    pub context: Option<TermId>,
    pub args: Vec<TermId>,
}

/// A rule in the heap: its variables, made at a depth, and over them the contexts and arguments of its
/// heads, its tests, and its body with its context.
#[derive(Drop)]
pub struct RuleInstance {
    /// The first of its variables; they are numbered in a row.
    pub first_fresh: VarId,
    /// The nodes of its variables.
    pub variables: Vec<TermId>,
    pub kept: Sequence<HeadInstance>,
    pub removed: Sequence<HeadInstance>,
    pub tests: Vec<TermId>,
    /// The variable of the body's context, where it has one.
    pub body_context: Option<TermId>,
    pub body: Option<TermId>,
    pub depth: usize,
}

/// The node of the variable of a context, where there is one.
fn context_node(variables: &[TermId], context: Option<usize>) -> Option<TermId>
    requires { IfSome context (λ v. v < length variables.now) }
    ensures { result ≡ option_map (λ v. get_or variables.now v (record { index = 0 })) context }
{
    match context {
        None => None,
        Some(variable) => Some(variables[variable]),
    }
}

/// The terms of a skeleton at a depth, over variables that were made in a row.
fn row_terms(
    alloc: Global,
    heap: &mut Heap,
    skeleton: &Skeleton,
    depth: usize,
    variables: &[TermId],
    room: &mut Room,
) -> Result<Vec<TermId>, AllocError>
    requires code { (n : ℕ) × (nodes : List Node) × (ts : List Term) × AreShared n heap.old nodes × IsCompiled (length variables.now) nodes skeleton.now ts }
    requires row { (next : ℕ) × IsRow heap.old depth next variables.now }
    ensures reads { IfOk result (λ made. (n next : ℕ) (nodes : List Node) (ts : List Term) → AreShared n heap.old nodes → IsCompiled (length variables.now) nodes skeleton.now ts
        → IsRow heap.old depth next variables.now → all_read heap.new made.items ≡ map (instance depth next) ts) }
    ensures valid { IfOk result (λ made. AllValidAt heap.new made.items depth) }
    ensures row { OnOk result ((next : ℕ) → IsRow heap.old depth next variables.now → IsRow heap.new depth next variables.now) }
    ensures depths { heap.new.depths ≡ heap.old.depths }
    ensures grows { Grows heap.old heap.new [] [] }
{
    heap.is_sound();
    let mut terms = Vec::new(alloc);
    make_terms(alloc, heap, skeleton, depth, variables, room, &mut terms)?;
    heap.is_sound();
    Ok(terms)
}

/// The arguments of each head at a depth, over variables that were made in a row.
fn row_heads(
    alloc: Global,
    heap: &mut Heap,
    heads: &[HeadShape],
    depth: usize,
    variables: &[TermId],
    room: &mut Room,
) -> Result<Sequence<HeadInstance>, AllocError>
    requires code { (n : ℕ) × (nodes : List Node) × (hs : List RuleHead) × AreShared n heap.old nodes × AreHeadCodes (length variables.now) nodes heads.now hs }
    requires row { (next : ℕ) × IsRow heap.old depth next variables.now }
    ensures made { IfOk result (λ made. (n next : ℕ) (nodes : List Node) (hs : List RuleHead) → AreShared n heap.old nodes → AreHeadCodes (length variables.now) nodes heads.now hs
        → IsRow heap.old depth next variables.now → Each (IsHeadMade heap.new depth next) made hs) }
    ensures row { OnOk result ((next : ℕ) → IsRow heap.old depth next variables.now → IsRow heap.new depth next variables.now) }
    ensures depths { heap.new.depths ≡ heap.old.depths }
    ensures grows { Grows heap.old heap.new [] [] }
{
    let mut made = Sequence::new(alloc);
    for head in heads {
        heap.is_sound();
        let context = context_node(variables, head.context);
        let args = row_terms(alloc, heap, &head.args, depth, variables, room)?;
        made.push(HeadInstance { context, args })?;
    }
    Ok(made)
}

/// The instance of a rule at a depth.
fn make_rule(
    alloc: Global,
    heap: &mut Heap,
    code: &RuleShape,
    depth: usize,
) -> Result<RuleInstance, AllocError>
    requires { (n : ℕ) × (nodes : List Node) × (r : Rule) × AreShared n heap.old nodes × IsRuleCode nodes code.now r }
    ensures rule { IfOk result (λ made. (n : ℕ) (nodes : List Node) (r : Rule) → AreShared n heap.old nodes → IsRuleCode nodes code.now r
        → IsRuleOf r depth heap.old heap.new made) }
    ensures grows { Grows heap.old heap.new [] [] }
{
    let first_fresh = heap.next_var();
    let mut variables = Vec::new(alloc);
    make_variables(heap, code.variables, depth, &mut variables)?;
    heap.is_sound();
    let row = variables.as_slice();
    let body_context = context_node(row, code.body_context);
    let mut room = Room::new(alloc);
    let kept = row_heads(alloc, heap, code.kept.as_slice(), depth, row, &mut room)?;
    heap.is_sound();
    let removed = row_heads(alloc, heap, code.removed.as_slice(), depth, row, &mut room)?;
    heap.is_sound();
    let tests = row_terms(alloc, heap, &code.tests, depth, row, &mut room)?;
    heap.is_sound();
    let bodies = row_terms(alloc, heap, &code.body, depth, row, &mut room)?;
    let body = only_of(bodies.as_slice());
    Ok(RuleInstance {
        first_fresh,
        variables,
        kept,
        removed,
        tests,
        body_context,
        body,
        depth,
    })
}

/// Makes the variables of a rule at a depth, and over them the contexts and arguments of its heads, its
/// tests, and its body with its context. The rule's number is below the number of rules. Takes time and
/// memory linear in the rule.
///
/// Errors: want of memory.
pub fn rule_of(
    alloc: Global,
    heap: &mut Heap,
    rules: &Rules,
    rule: usize,
    depth: usize,
) -> Result<RuleInstance, AllocError>
    requires { (n : ℕ) × (p : Program) × IsRulesCode n heap.old rules.now p × (rule < length p.rules) }
    ensures rule { IfOk result (λ made. (n : ℕ) (p : Program) (r : Rule) → IsRulesCode n heap.old rules.now p → slice_get p.rules rule ≡ Some r
        → IsRuleOf r depth heap.old heap.new made) }
    ensures grows { Grows heap.old heap.new [] [] }
{
    let made = make_rule(alloc, heap, rules.code(rule), depth)?;
    Ok(made)
}
