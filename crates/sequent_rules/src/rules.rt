//! What a search for rule instances asks of a program's rules.

ghost use Rattle.std.specs.Prelude.{◌≡◌, ◌<◌, ℕ, [], List, length, slice_get, Some, IfOk};
ghost use Rattle.level_terms.specs.Growth.{Grows};
ghost use Rattle.level_terms.specs.declared.node.Node.{Node as HeapNode};
ghost use Rattle.ref_terms.specs.search.Program.{Program, Rule};
ghost use Rattle.sequent_rules.specs.Rules.{StandsIn, IsRuleShape, IsRuleMade};

use level_terms::{Heap, TermId};
use ref_terms::{Pair, Sym};
use std::alloc::{AllocError, Global};

/// What of a rule's head needs no heap.
#[derive(Clone, Copy, Debug)]
pub struct HeadShape {
    /// The rule's variable that stands for the context, where the head has one.
    pub context: Option<usize>,
    /// The constant of its goal.
    pub pred: Sym,
    /// How many arguments the goal has.
    pub arity: usize,
}

/// What of a rule needs no heap.
#[derive(Debug, Drop)]
pub struct RuleShape {
    /// The names of its block.
    pub names: Vec<Sym>,
    /// How many heads are kept: the first ones.
    pub kept: usize,
    /// The heads, kept ones first.
    pub heads: Vec<HeadShape>,
    /// The pairs of arguments that are aligned.
    pub pairs: Vec<Pair>,
    /// The rule's variable that stands for the context of the body, where it has one.
    pub body_context: Option<usize>,
}

/// The arguments of a head in the heap.
#[derive(Drop)]
pub struct HeadInstance {
    pub args: Vec<TermId>,
}

/// A rule in the heap: the nodes of its variables, by their numbers, the arguments of its heads, kept
/// ones first, its tests and its body.
#[derive(Drop)]
pub struct RuleInstance {
    pub variables: Vec<TermId>,
    pub heads: Vec<HeadInstance>,
    pub tests: Vec<TermId>,
    pub body: Option<TermId>,
}

/// Rules of a program, whose parts without variables are nodes of a heap, its oldest ones.
pub trait Rules {
    ghost stands: { List HeapNode → Self → Program → Type 0 };

    /// The number of rules.
    fn count(&self) -> usize
        ensures { (ns : List HeapNode) (p : Program) → stands ns self.now p → result ≡ length p.rules };

    /// What of a rule needs no heap.
    fn shape(&self, rule: usize) -> &RuleShape
        requires { (ns : List HeapNode) × (p : Program) × (stands ns self.now p) × (rule < length p.rules) }
        ensures { (ns : List HeapNode) (p : Program) (r : Rule) → stands ns self.now p → slice_get p.rules rule ≡ Some r → IsRuleShape result.now r };

    /// Makes a rule's variables at the depth, and its heads' arguments, its tests and its body over them.
    fn instance(
        &self,
        alloc: Global,
        heap: &mut Heap,
        rule: usize,
        depth: usize,
    ) -> Result<RuleInstance, AllocError>
        requires { (p : Program) × StandsIn stands heap.old self.now p × (rule < length p.rules) }
        ensures made { IfOk result (λ made. (p : Program) (r : Rule) → StandsIn stands heap.old self.now p → slice_get p.rules rule ≡ Some r → IsRuleMade r depth heap.old heap.new made) }
        ensures grows { Grows heap.old heap.new [] [] };
}
