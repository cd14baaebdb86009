//! All that a retry takes back.

ghost use Rattle.std.specs.Prelude.{◌≡◌, List, ◌+◌, ◌++◌, [], ◌∷◌, ◌<◌, ◌≤◌, suc, length, map, replicate, reverse, true, false, IfOk, OnOk, OnErr, IfErr, MatchBool, Some, slice_get, None, option_to_list};
ghost use Rattle.level_terms.specs.Growth.{Grows};
ghost use Rattle.level_terms.specs.Reading.{read};
ghost use Rattle.level_terms.specs.Sound.{IsSound};
ghost use Rattle.level_terms.specs.Undo.{IsClosed, IsTrailOf};
ghost use Rattle.level_terms.specs.Valid.{IsValid};
ghost use Rattle.beta_fragment.specs.HeadForm.{IsHeadForm, AllValidAt, all_read};
ghost use Rattle.builtins.specs.Moves.{GoesOn, FailsSo, BreaksOff};
ghost use Rattle.goal_form.specs.Builtins.{builtin_word};
ghost use Rattle.ref_terms.specs.search.Formula.{reserved_goal};
ghost use Rattle.ref_terms.specs.search.Instance.{variable_under};
ghost use Rattle.ref_terms.specs.search.BranchMove.{applied_whole};
ghost use Rattle.beta_fragment.specs.Names.{names};
ghost use Rattle.pattern_unify.specs.Answers.{problem_of, AnswersTrue, AnswersFalse, StopsSo};
ghost use Rattle.search_moves.specs.World.{World, undone, mark_of, oldest, chain, IsWithin, IsContextAt, IsUsable, AllFrames, AllConstraints, code_nodes};
ghost use Rattle.hyp_clause.specs.Hyps.{assumption_in, AllHypsValid, IsHypValid, IsHypFault};
ghost use Rattle.ref_terms.specs.search.Assumption.{assumptions_of};
ghost use Rattle.ref_terms.specs.search.Fault.{Good};
ghost use Rattle.ref_terms.specs.search.Instance.{assumption_instance};
ghost use Rattle.ref_terms.specs.terms.Apply.{apply};
ghost use Rattle.ref_terms.specs.search.Program.{Program, Clause};
ghost use Rattle.search_moves.specs.Instances.{IsInstanceOf, IsMadeOf, IsBodyOver};
ghost use Rattle.search_moves.specs.Moves.{LeavesRest, Growing};
ghost use Rattle.suspend.specs.Store.{joins, leaves, fires, stored, stored_at, firings, is_stored, has_fired};
ghost use Rattle.suspend.specs.Keyed.{first_awake, Keyed};
ghost use Rattle.search_moves.specs.Reading.{constraint_in};
ghost use Rattle.ref_terms.specs.unification.Spine.{args_of};
ghost use Rattle.clause_key.specs.Keys.{key_among};
ghost use Rattle.clause_key.specs.Seen.{IsSeenAmong};
ghost use Rattle.ref_terms.specs.search.Branch.{Branch};
ghost use Rattle.sequent_rules.specs.Branches.{IsSeenAs};
ghost use Rattle.sequent_rules.specs.Instances.{Answers, StopsBy, first_of, Leaves, ReadsAsBefore};

use crate::clauses::{Clauses, Instance};
use crate::frame::{Frame, Mark};
use crate::opening::applied_to_variable;
use crate::visitor::Visitor;
use beta_fragment::{UnifyStop, Whnf, applied_to_level, whnf};
use builtins::{Builtin, Events, call_builtin};
use clause_key::{Key, key_of_call, seen_among};
use hyp_clause::{Hyp, HypStop, Hyps, compile_hyp, hyp_body_of, hyp_head_of};
use hyp_context::Context;
use input_match::match_arg;
use level_terms::{Change, Heap, TermId, TermIds, VarId};
use lp_resolve::Symbols;
use ref_terms::Choice;
use sequent_rules::{Firing, Rules, next_rule};
use std::alloc::{AllocError, Global};
use std::marker::Model;
use suspend::{Constraint, Fired, Store};
use trail::Trail;

/// An assumption in the heap, over variables of its own.
#[derive(Drop)]
pub(crate) struct Assumed {
    /// The arguments of its head.
    pub heads: Vec<TermId>,
    /// Its conditions.
    pub body: Vec<TermId>,
}

/// The heap with its trail, the frames of goals, the path, the suspended goals, and the nodes of the
/// query's variables.
/// Contracts see a `World`, whose lists stand newest first.
#[derive(Drop)]
pub(crate) struct Stage {
    alloc: Global,
    heap: Heap,
    trail: Trail<Change>,
    frames: Vec<Frame>,
    path: Vec<Choice>,
    store: Store<Context>,
    query: Vec<TermId>,
    base: usize,
}

impl Model for Stage {
    ghost use Rattle.search_moves.specs.World.{World};

    ghost Value = { World };

    ghost use Rattle.search_moves.specs.StageView.{world_of, IsStage};

    ghost view = { world_of };

    ghost invariant = { IsStage };
}

impl Stage {
    /// A stage with this heap, without goals and path. Takes no memory.
    pub(crate) fn new(alloc: Global, heap: Heap, trail: Trail<Change>, query: Vec<TermId>) -> Stage
        requires { IsTrailOf heap trail.entries }
        ensures { result ≡ record { heap = heap; frames = []; path = []; log = []; query = query.items; base = length heap.nodes } }
    {
        let base = heap.mark(&trail).nodes;
        Stage {
            alloc,
            heap,
            trail,
            frames: Vec::new(alloc),
            path: Vec::new(alloc),
            store: Store::new(alloc),
            query,
            base,
        }
    }

    /// Does nothing. Its contract is what holds of every heap.
    pub(crate) fn is_sound(&self)
        ensures { IsSound self.now.heap }
    {
        self.heap.is_sound();
    }

    /// So many arguments, all of them outputs.
    pub(crate) fn all_outputs(&self, n: usize) -> Result<Vec<bool>, AllocError>
        ensures { IfOk result (λ ms. ms.items ≡ replicate n false) }
    {
        Ok(vec![in self.alloc; false; n]?)
    }

    /// The number of the next variable.
    pub(crate) fn next_var(&self) -> VarId
        ensures { result.index ≡ length self.now.heap.depths }
    {
        self.heap.next_var()
    }

    /// How much there is now. Takes no memory.
    pub(crate) fn mark(&self) -> Mark
        ensures now { result ≡ mark_of self.now }
        ensures closed { IsClosed result.heap self.now.heap }
    {
        Mark {
            heap: self.heap.mark(&self.trail),
            frames: self.frames.len(),
            path: self.path.len(),
            store: self.store.mark(),
        }
    }

    /// Goes back to a mark. Takes no memory.
    pub(crate) fn undo(&mut self, m: Mark)
        requires within { IsWithin m self.old }
        requires closed { IsClosed m.heap self.old.heap }
        ensures { self.new ≡ undone m self.old }
    {
        self.heap.undo(&mut self.trail, m.heap);
        self.frames.truncate(m.frames);
        self.path.truncate(m.path);
        self.store.undo(m.store);
    }

    /// The first goal of a list of goals that isn't empty.
    pub(crate) fn goal(&self, first: usize) -> Result<Frame, AllocError>
        requires frames { AllFrames self.now.heap self.now.frames }
        requires some { 0 < first }
        requires there { first ≤ length self.now.frames }
        ensures goals { IfOk result (λ f. chain self.now.frames first ≡ f ∷ chain self.now.frames f.next) }
        ensures valid { IfOk result (λ f. IsValid self.now.heap f.term.index f.depth) }
        ensures context { IfOk result (λ f. IsContextAt self.now.heap f.depth f.context) }
        ensures later { IfOk result (λ f. f.next < first) }
    {
        let frame = &self.frames[first - 1];
        frame.copy()
    }

    /// Adds a frame, and answers the number of its list.
    pub(crate) fn push(&mut self, frame: Frame) -> Result<usize, AllocError>
        ensures ok { IfOk result (λ n. (n ≡ suc (length self.old.frames)) × (self.new ≡ record self.old { frames = frame ∷ self.old.frames })) }
        ensures err { OnErr result (self.new ≡ self.old) }
    {
        self.frames.push(frame)?;
        Ok(self.frames.len())
    }

    /// Keeps the oldest frames, as many as that.
    pub(crate) fn cut(&mut self, n: usize)
        requires { n ≤ length self.old.frames }
        ensures { self.new ≡ record self.old { frames = oldest n self.old.frames } }
    {
        self.frames.truncate(n);
    }

    /// Puts a choice on the path.
    pub(crate) fn choose(&mut self, c: Choice) -> Result<(), AllocError>
        ensures ok { OnOk result (self.new ≡ record self.old { path = c ∷ self.old.path }) }
        ensures err { OnErr result (self.new ≡ self.old) }
    {
        self.path.push(c)?;
        Ok(())
    }

    /// What a term is.
    pub(crate) fn whnf(&mut self, t: TermId, depth: usize) -> Result<Whnf, AllocError>
        requires { IsValid self.old.heap t.index depth }
        ensures form { IfOk result (λ w. IsHeadForm self.new.heap depth (read self.old.heap t.index names) w) }
        ensures variables { self.new.heap.depths ≡ self.old.heap.depths }
        ensures grows { Grows self.old.heap self.new.heap [] [] }
        ensures rest { LeavesRest self.old self.new }
    {
        self.heap.is_sound();
        whnf(self.alloc, &mut self.heap, t, depth)
    }

    /// A term applied to the name of the level `depth`.
    pub(crate) fn applied_to_level(&mut self, f: TermId, depth: usize) -> Result<TermId, AllocError>
        requires { IsValid self.old.heap f.index depth }
        ensures reads { IfOk result (λ r. read self.new.heap r.index names ≡ apply (read self.old.heap f.index names) (names depth)) }
        ensures valid { IfOk result (λ r. IsValid self.new.heap r.index (depth + 1)) }
        ensures variables { self.new.heap.depths ≡ self.old.heap.depths }
        ensures grows { Grows self.old.heap self.new.heap [] [] }
        ensures rest { LeavesRest self.old self.new }
    {
        self.heap.is_sound();
        applied_to_level(self.alloc, &mut self.heap, f, depth)
    }

    /// The key among arguments of which these are inputs. What is made on the way is taken back.
    pub(crate) fn key_among(
        &mut self,
        inputs: &[bool],
        args: &[TermId],
        depth: usize,
    ) -> Result<Key, AllocError>
        requires { AllValidAt self.old.heap args.now depth }
        ensures key { IfOk result (λ key. key ≡ key_among inputs.now (all_read self.old.heap args.now)) }
        ensures same { self.new ≡ self.old }
    {
        let before = self.mark();
        let key = key_of_call(self.alloc, &mut self.heap, inputs, args, depth);
        self.undo(before);
        key
    }

    /// The key among the arguments of an atom of which these are inputs, as far as a look tells.
    pub(crate) fn seen_among(&self, inputs: &[bool], atom: TermId) -> Key
        requires { atom.index < length self.now.heap.nodes }
        ensures { IsSeenAmong result inputs.now (args_of (read self.now.heap atom.index names)) }
    {
        seen_among(&self.heap, inputs, atom)
    }

    /// Makes a clause's variables and its head in the heap.
    pub(crate) fn instance<C: Clauses>(
        &mut self,
        code: &C,
        clause: usize,
        depth: usize,
    ) -> Result<Instance, AllocError>
        requires base { self.old.base ≤ length self.old.heap.nodes }
        requires code { (p : Program) × (C.stands (code_nodes self.old) code.now p) × (clause < length p.clauses) }
        ensures made { IfOk result (λ i. (p : Program) (k : Clause) → C.stands (code_nodes self.old) code.now p → slice_get p.clauses clause ≡ Some k → IsInstanceOf k depth self.old.heap self.new.heap i) }
        ensures grows { Grows self.old.heap self.new.heap [] [] }
        ensures rest { LeavesRest self.old self.new }
    {
        self.heap.is_sound();
        code.instance(self.alloc, &mut self.heap, clause, depth)
    }

    /// Makes a clause's body in the heap, over the nodes of its variables.
    pub(crate) fn body<C: Clauses>(
        &mut self,
        code: &C,
        clause: usize,
        depth: usize,
        variables: Vec<TermId>,
    ) -> Result<Option<TermId>, AllocError>
        requires base { self.old.base ≤ length self.old.heap.nodes }
        requires code { (p : Program) × (k : Clause) × (C.stands (code_nodes self.old) code.now p) × (slice_get p.clauses clause ≡ Some k) × (length variables.items ≡ k.variables) }
        requires variables { AllValidAt self.old.heap variables.items depth }
        ensures made { IfOk result (λ body. (p : Program) (k : Clause) → C.stands (code_nodes self.old) code.now p → slice_get p.clauses clause ≡ Some k
            → IsBodyOver k depth variables.items self.old.heap self.new.heap body) }
        ensures valid { IfOk result (λ body. AllValidAt self.new.heap (option_to_list body) depth) }
        ensures variables { OnOk result (self.new.heap.depths ≡ self.old.heap.depths) }
        ensures grows { Grows self.old.heap self.new.heap [] [] }
        ensures rest { LeavesRest self.old self.new }
    {
        self.heap.is_sound();
        code.body(self.alloc, &mut self.heap, clause, depth, variables)
    }

    /// The clauses that a term assumes.
    pub(crate) fn compile_hyp(&mut self, t: TermId, depth: usize) -> Result<Hyps, HypStop>
        requires { IsValid self.old.heap t.index depth }
        ensures clauses { IfOk result (λ hs. Good (map (assumption_in self.new.heap) hs) ≡ assumptions_of depth (read self.old.heap t.index names)) }
        ensures valid { IfOk result (λ hs. AllHypsValid self.new.heap hs) }
        ensures fault { IfErr result (λ stop. IsHypFault stop (assumptions_of depth (read self.old.heap t.index names))) }
        ensures variables { self.new.heap.depths ≡ self.old.heap.depths }
        ensures grows { Grows self.old.heap self.new.heap [] [] }
        ensures rest { LeavesRest self.old self.new }
    {
        self.heap.is_sound();
        compile_hyp(self.alloc, &mut self.heap, t, depth)
    }

    /// Makes an assumption in the heap, at so many names.
    pub(crate) fn assumed_instance(
        &mut self,
        hyp: &Hyp,
        depth: usize,
    ) -> Result<Assumed, AllocError>
        requires usable { IsUsable self.old.heap depth hyp.now }
        requires valid { IsHypValid self.old.heap hyp.now }
        ensures made { IfOk result (λ i. IsMadeOf (assumption_instance (assumption_in self.old.heap hyp.now) depth (length self.old.heap.depths)) depth self.new.heap i.heads.items i.body.items) }
        ensures grows { Grows self.old.heap self.new.heap [] [] }
        ensures rest { LeavesRest self.old self.new }
    {
        self.heap.is_sound();
        let head = hyp_head_of(self.alloc, &mut self.heap, hyp, depth)?;
        self.heap.is_sound();
        let body = hyp_body_of(self.alloc, &mut self.heap, hyp, &head)?;
        Ok(Assumed {
            heads: head.args,
            body,
        })
    }

    /// A term applied to a new variable under so many names, which an abstraction takes whole.
    pub(crate) fn applied_to_variable(
        &mut self,
        f: TermId,
        depth: usize,
    ) -> Result<TermId, AllocError>
        requires { IsValid self.old.heap f.index depth }
        ensures reads { IfOk result (λ r. read self.new.heap r.index names ≡ applied_whole (read self.old.heap f.index names) (variable_under depth (length self.old.heap.depths))) }
        ensures valid { IfOk result (λ r. IsValid self.new.heap r.index depth) }
        ensures variables { OnOk result (self.new.heap.depths ≡ self.old.heap.depths ++ depth ∷ []) }
        ensures grows { Grows self.old.heap self.new.heap [] [] }
        ensures rest { LeavesRest self.old self.new }
    {
        self.heap.is_sound();
        applied_to_variable(self.alloc, &mut self.heap, f, depth)
    }

    /// Does what the built-in does with these arguments, and answers whether it succeeds.
    pub(crate) fn call_builtin(
        &mut self,
        symbols: &Symbols,
        builtin: Builtin,
        args: &[TermId],
        depth: usize,
        events: &mut Events,
    ) -> Result<bool, UnifyStop>
        requires { AllValidAt self.old.heap args.now depth }
        ensures moves { IfOk result (λ b. events.old ≡ None → MatchBool b
            (GoesOn symbols.now self.old.heap self.new.heap depth (reserved_goal (builtin_word builtin) (all_read self.old.heap args.now)) events.new)
            (FailsSo symbols.now self.old.heap depth (reserved_goal (builtin_word builtin) (all_read self.old.heap args.now)))) }
        ensures breaks_off { IfErr result (BreaksOff symbols.now self.old.heap depth (reserved_goal (builtin_word builtin) (all_read self.old.heap args.now))) }
        ensures grows { Growing self.old.heap self.new.heap }
        ensures rest { LeavesRest self.old self.new }
    {
        let noted = self.trail.mark();
        self.heap.is_sound();
        let answer = call_builtin(
            self.alloc,
            &mut self.heap,
            &mut self.trail,
            symbols,
            builtin,
            args,
            depth,
            events,
        );
        self.store.follow(&self.heap, self.trail.since(noted));
        answer
    }

    /// Makes an argument of a clause equal to one of an atom, by assignments of variables that aren't
    /// older than `first_fresh`.
    pub(crate) fn match_arg(
        &mut self,
        head: TermId,
        arg: TermId,
        depth: usize,
        first_fresh: VarId,
    ) -> Result<bool, UnifyStop>
        requires head { IsValid self.old.heap head.index depth }
        requires argument { IsValid self.old.heap arg.index depth }
        requires first { first_fresh.index ≤ length self.old.heap.depths }
        ensures answer { IfOk result (λ b. MatchBool b
            (AnswersTrue first_fresh.index self.old.heap self.new.heap (problem_of self.old.heap head.index arg.index depth))
            (AnswersFalse first_fresh.index (problem_of self.old.heap head.index arg.index depth))) }
        ensures stops { IfErr result (λ stop. StopsSo first_fresh.index (problem_of self.old.heap head.index arg.index depth) stop) }
        ensures grows { Growing self.old.heap self.new.heap }
        ensures rest { LeavesRest self.old self.new }
    {
        let before = self.trail.mark();
        self.heap.is_sound();
        let answer = match_arg(
            self.alloc,
            &mut self.heap,
            &mut self.trail,
            head,
            arg,
            depth,
            first_fresh,
        );
        self.store.follow(&self.heap, self.trail.since(before));
        answer
    }

    /// No nodes. Takes no memory.
    pub(crate) fn no_terms(&self) -> TermIds
        ensures { result ≡ [] }
    {
        TermIds::new(self.alloc)
    }

    /// No goals. Takes no memory.
    pub(crate) fn no_goals(&self) -> Vec<Frame>
        ensures { result.items ≡ [] }
    {
        Vec::new(self.alloc)
    }

    /// Puts a suspended goal last into the store.
    pub(crate) fn suspend_goal(&mut self, c: Constraint<Context>) -> Result<(), AllocError>
        ensures ok { OnOk result (self.new ≡ record self.old { log = joins c ∷ self.old.log }) }
        ensures err { OnErr result (self.new ≡ self.old) }
    {
        self.store.add(c)?;
        Ok(())
    }

    /// The number of the first awake constraint, if there is one. Only what is to be looked at is.
    pub(crate) fn awake(&mut self) -> Result<Option<u64>, AllocError>
        requires { Keyed self.old.log self.old.heap }
        ensures first { IfOk result (λ o. o ≡ first_awake self.old.heap (stored self.old.log)) }
        ensures variables { self.new.heap.depths ≡ self.old.heap.depths }
        ensures grows { Grows self.old.heap self.new.heap [] [] }
        ensures rest { LeavesRest self.old self.new }
    {
        self.store.awake(&mut self.heap)
    }

    /// Takes a constraint out of the store, and answers its goal, with this barrier and no goals after it.
    pub(crate) fn withdraw(&mut self, id: u64, barrier: usize) -> Result<Frame, AllocError>
        requires { is_stored self.old.log id ≡ true }
        ensures goal { IfOk result (λ f. (c : Constraint (List Hyp)) × (stored_at (stored self.old.log) id ≡ Some c)
            × (f ≡ record { depth = c.names; barrier = barrier; term = c.goal; next = 0; context = c.context })) }
        ensures ok { OnOk result (self.new ≡ record self.old { log = leaves id ∷ self.old.log }) }
        ensures err { OnErr result (self.new ≡ self.old) }
    {
        let constraint = self.store.get(id);
        let goal = Frame {
            depth: constraint.names,
            barrier,
            term: constraint.goal,
            next: 0,
            context: constraint.context.copy()?,
        };
        self.store.remove(id)?;
        Ok(goal)
    }

    /// The first instance of a rule. Without one the heap is as it was.
    pub(crate) fn next_rule<C: Rules>(&mut self, rules: &C) -> Result<Option<Firing>, UnifyStop>
        requires base { self.old.base ≤ length self.old.heap.nodes }
        requires rules { (p : Program) × (C.stands (code_nodes self.old) rules.now p) }
        requires constraints { AllConstraints self.old.heap (stored self.old.log) }
        ensures answer { IfOk result (λ o. (p : Program) (b : Branch) → C.stands (code_nodes self.old) rules.now p → IsSeenAs self.old.heap self.old.log b
            → Answers self.new.heap o (first_of p.rules b)) }
        ensures stops { IfErr result (λ stop. (p : Program) (b : Branch) → C.stands (code_nodes self.old) rules.now p → IsSeenAs self.old.heap self.old.log b
            → StopsBy stop (first_of p.rules b)) }
        ensures leaves { IfOk result (Leaves self.old.heap self.new.heap) }
        ensures readings { ReadsAsBefore self.old.heap self.new.heap }
        ensures grows { Growing self.old.heap self.new.heap }
        ensures rest { LeavesRest self.old self.new }
    {
        let noted = self.trail.mark();
        self.heap.is_sound();
        let answer = next_rule(
            self.alloc,
            &mut self.heap,
            &mut self.trail,
            &self.store,
            rules,
        );
        self.store.follow(&self.heap, self.trail.since(noted));
        answer
    }

    /// Takes a constraint out of the store.
    pub(crate) fn remove(&mut self, id: u64) -> Result<(), AllocError>
        requires { is_stored self.old.log id ≡ true }
        ensures ok { OnOk result (self.new ≡ record self.old { log = leaves id ∷ self.old.log }) }
        ensures err { OnErr result (self.new ≡ self.old) }
    {
        self.store.remove(id)?;
        Ok(())
    }

    /// Notes that a rule fired.
    pub(crate) fn note_firing(&mut self, pair: Fired) -> Result<(), AllocError>
        requires { has_fired (firings self.old.log) pair ≡ false }
        ensures ok { OnOk result (self.new ≡ record self.old { log = fires pair ∷ self.old.log }) }
        ensures err { OnErr result (self.new ≡ self.old) }
    {
        self.store.fire(pair)?;
        Ok(())
    }

    /// Lets a visitor look at the query's variables and the suspended goals, and takes back what it
    /// makes.
    pub(crate) fn visit<V: Visitor>(&mut self, visitor: &mut V) -> Result<(), AllocError>
        requires query { AllValidAt self.old.heap self.old.query 0 }
        requires constraints { AllConstraints self.old.heap (stored self.old.log) }
        ensures sees { OnOk result (V.sees visitor.old (all_read self.old.heap self.old.query) (map (constraint_in self.old.heap) (stored self.old.log)) visitor.new) }
        ensures same { self.new ≡ self.old }
    {
        let mark = self.mark();
        let seen = visitor.visit(
            self.alloc,
            &mut self.heap,
            self.query.as_slice(),
            &self.store,
        );
        self.undo(mark);
        seen
    }

    /// The choices, oldest first. Takes no memory.
    pub(crate) fn path(&self) -> &[Choice]
        ensures { reverse result.now ≡ self.now.path }
    {
        self.path.as_slice()
    }
}
