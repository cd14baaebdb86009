//! The machine, and the parts of its moves.

ghost use Rattle.std.specs.Prelude.{◌≡◌, ◌+◌, ℕ, List, [], ◌∷◌, ◌++◌, ◌<◌, ◌≤◌, suc, length, map, replicate, reverse, true, false, IfOk, OnOk, OnErr, IfErr, IfSome, IfNone, option_to_list, MatchBool, MatchOption, Some, slice_get, None};
ghost use Rattle.level_terms.specs.Growth.{Grows};
ghost use Rattle.level_terms.specs.Reading.{read};
ghost use Rattle.level_terms.specs.Valid.{IsValid};
ghost use Rattle.level_terms.specs.Undo.{IsTrailOf};
ghost use Rattle.level_terms.specs.Sound.{IsSound};
ghost use Rattle.beta_fragment.specs.HeadForm.{IsHeadForm, AllValidAt, all_read};
ghost use Rattle.search_moves.specs.declared.frame.Left.TheVariants as LeftVariants;
ghost use Rattle.search_moves.specs.Instances.{IsInstanceOf, IsMadeOf, IsBodyOver};
ghost use Rattle.search_moves.specs.Calling.{HasFitted, HasClashed, HasBroken};
ghost use Rattle.hyp_clause.specs.Hyps.{assumption_in, IsHypValid, IsHypFault};
ghost use Rattle.ref_terms.specs.search.Assumption.{assumptions_of};
ghost use Rattle.ref_terms.specs.search.Fault.{Good};
ghost use Rattle.ref_terms.specs.search.Instance.{assumption_instance};
ghost use Rattle.search_moves.specs.Moves.{Growing, LeavesRest};
ghost use Rattle.beta_fragment.specs.Names.{names};
ghost use Rattle.builtins.specs.Moves.{FailsSo, BreaksOff};
ghost use Rattle.goal_form.specs.Builtins.{builtin_word};
ghost use Rattle.ref_terms.specs.search.Formula.{reserved_goal};
ghost use Rattle.ref_terms.specs.search.Instance.{variable_under};
ghost use Rattle.ref_terms.specs.search.Program.{Program, Clause};
ghost use Rattle.ref_terms.specs.search.Branch.{with_goals};
ghost use Rattle.ref_terms.specs.terms.Apply.{apply};
ghost use Rattle.ref_terms.specs.terms.Term.{Term, Con};
ghost use Rattle.ref_terms.specs.unification.Spine.{args_of, head_of};
ghost use Rattle.level_terms.specs.Graph.{Graph};
ghost use Rattle.goal_form.specs.Kinds.{IsKindOf};
ghost use Rattle.search_moves.specs.World.{chain, IsFine, IsContextAt, IsUsable, mark_of, undone, code_nodes};
ghost use Rattle.search_moves.specs.Reading.{goal_in, firing_of, left_at, saved_in};
ghost use Rattle.search_moves.specs.Waking.{first_up, AllGoalsAt, WakesOne};
ghost use Rattle.search_moves.specs.Machine.{Machine, branch_of, alternatives_of, rest_of, IsFirst, LeavesAlternatives, GoesOnSo, StartsWith};
ghost use Rattle.search_moves.specs.Saved.{newest_frames, AllSaved, HasLeft};
ghost use Rattle.clause_key.specs.Keys.{key_among};
ghost use Rattle.clause_key.specs.Seen.{IsSeenAmong};
ghost use Rattle.ref_terms.specs.search.State.{other_side};
ghost use Rattle.ref_terms.specs.search.BranchMove.{cut_to, applied_whole};
ghost use Rattle.ref_terms.specs.declared.path.Choice.TheVariants.{Right as RightSide};
ghost use Rattle.ref_terms.specs.search.RuleInstance.{is_fired};
ghost use Rattle.sequent_rules.specs.Instances.{Answers, StopsBy, first_of};
ghost use Rattle.search_moves.specs.Firing.{has_number, without_number, CanFire};

use crate::clauses::{Clauses, Instance};
use crate::frame::{Frame, Left, Mark, Saved};
use crate::stage::{Assumed, Stage};
use crate::visitor::Visitor;
use beta_fragment::{UnifyStop, Whnf};
use builtins::{Builtin, Events};
use choice_stack::ChoiceStack;
use clause_key::Key;
use goal_form::{GoalKind, kind_of_form};
use hyp_clause::{Hyp, HypStop, Hyps};
use hyp_context::Context;
use lam_io::ByteText;
use level_terms::{Change, Heap, TermId, TermIds, VarId};
use lp_resolve::Symbols;
use ref_terms::{Choice, Fault};
use sequent_rules::{Firing, Rules};
use std::alloc::{AllocError, AllocFailed, Global};
use std::marker::Model;
use suspend::{Constraint, Fired};
use trail::Trail;

/// What the last move came to.
#[derive(Clone, Copy)]
pub enum Phase {
    Running,
    Answered,
    Failed,
    /// No alternative was left.
    Exhausted,
    /// The move came to a fault.
    Broken(Fault),
    /// Memory was wanting.
    Starved,
}

/// What a move shows.
#[derive(Drop)]
pub enum Event {
    Moved,
    /// What `print` wrote.
    Printed(ByteText),
    Answer,
    Failure,
    Fault(Fault),
}

/// A search.
#[derive(Drop)]
pub struct Machine {
    stage: Stage,
    first: usize,
    choices: ChoiceStack<Saved>,
    phase: Phase,
}

impl Model for Machine {
    ghost use Rattle.search_moves.specs.Machine.{Machine};

    ghost Value = { Machine };

    ghost use Rattle.search_moves.specs.MachineView.{machine_of, IsMachine};

    ghost view = { machine_of };

    ghost invariant = { IsMachine };
}

/// The arguments of a term that a constant heads.
fn constant_arguments(form: Whnf) -> TermIds
    requires { (g : Graph) × (depth : ℕ) × (u : Term) × (c : ℕ) × IsHeadForm g depth u form × (head_of u ≡ Some (Con c)) }
    ensures { (g : Graph) (depth : ℕ) (u : Term) → IsHeadForm g depth u form → AllValidAt g result depth × (args_of u ≡ all_read g result) }
{
    match form {
        Whnf::Rigid(_, args) => args,
        _ => unreachable!(),
    }
}

impl Machine {
    /// The search whose one goal is this, without names.
    pub fn start(
        alloc: Global,
        heap: Heap,
        trail: Trail<Change>,
        query: Vec<TermId>,
        goal: TermId,
    ) -> Result<Machine, AllocError>
        requires own { IsTrailOf heap trail.entries }
        requires goal { IsValid heap goal.index 0 }
        requires query { AllValidAt heap query.items 0 }
        ensures starts { IfOk result (λ m. StartsWith heap query.items goal m) }
        ensures code { IfOk result (λ m. code_nodes m.world ≡ heap.nodes) }
    {
        let mut stage = Stage::new(alloc, heap, trail, query);
        let first = stage.push(Frame {
            depth: 0,
            barrier: 0,
            term: goal,
            next: 0,
            context: Context::empty(alloc),
        })?;
        Ok(Machine {
            stage,
            first,
            choices: ChoiceStack::new(alloc),
            phase: Phase::Running,
        })
    }

    /// Does nothing. Its contract is what holds of every machine.
    pub(crate) fn is_fine(&self)
        ensures fine { IsFine self.now.world self.now.first }
        ensures sound { IsSound self.now.world.heap }
    {
        self.stage.is_sound();
    }

    /// What the last move came to.
    pub(crate) fn phase(&self) -> Phase
        ensures { result ≡ self.now.phase }
    {
        self.phase
    }

    /// The number of alternatives.
    pub(crate) fn alternatives(&self) -> usize
        ensures { result ≡ length self.now.saved }
    {
        self.choices.len()
    }

    /// No nodes. Takes no memory.
    pub(crate) fn no_terms(&self) -> TermIds
        ensures { result ≡ [] }
    {
        self.stage.no_terms()
    }

    /// No goals. Takes no memory.
    pub(crate) fn no_goals(&self) -> Vec<Frame>
        ensures { result.items ≡ [] }
    {
        self.stage.no_goals()
    }

    /// The number of the next variable.
    pub(crate) fn next_var(&self) -> VarId
        ensures { result.index ≡ length self.now.world.heap.depths }
    {
        self.stage.next_var()
    }

    /// Says what the move came to.
    pub(crate) fn set_phase(&mut self, phase: Phase)
        ensures { self.new ≡ record self.old { phase = phase } }
    {
        self.phase = phase;
    }

    /// The first goal, if there is one, in constant time.
    pub(crate) fn goal(&self) -> Result<Option<Frame>, AllocError>
        ensures { IfOk result (λ o. MatchOption o (chain self.now.world.frames self.now.first ≡ []) (IsFirst self.now)) }
    {
        if self.first == 0 {
            return Ok(None);
        }
        let goal = self.stage.goal(self.first)?;
        Ok(Some(goal))
    }

    /// How many frames the newest alternative needs.
    fn protected(&self) -> usize
        ensures { result ≡ newest_frames self.now.saved }
    {
        match self.choices.top() {
            Some(saved) => saved.mark.frames,
            None => 0,
        }
    }

    /// Leaves the first goal, and drops the frames that no list of goals needs any more.
    pub(crate) fn take(&mut self, goal: &Frame)
        requires { IsFirst self.old goal.now }
        ensures heap { self.new.world.heap ≡ self.old.world.heap }
        ensures branch { branch_of self.new ≡ with_goals (rest_of self.old goal.now) (branch_of self.old) }
        ensures saved { self.new.saved ≡ self.old.saved }
        ensures phase { self.new.phase ≡ self.old.phase }
        ensures code { code_nodes self.new.world ≡ code_nodes self.old.world }
        ensures alternatives { LeavesAlternatives self.old self.new }
    {
        let protected = self.protected();
        self.first = goal.next;
        if protected < goal.next {
            self.stage.cut(goal.next);
        } else {
            self.stage.cut(protected);
        }
    }

    /// Puts a goal before the others.
    pub(crate) fn put(&mut self, goal: Frame) -> Result<(), AllocError>
        requires term { IsValid self.old.world.heap goal.term.index goal.depth }
        requires context { IsContextAt self.old.world.heap goal.depth goal.context }
        ensures branch { OnOk result (branch_of self.new ≡ with_goals (goal_in self.old.world.heap goal ∷ (branch_of self.old).goals) (branch_of self.old)) }
        ensures heap { self.new.world.heap ≡ self.old.world.heap }
        ensures saved { self.new.saved ≡ self.old.saved }
        ensures phase { self.new.phase ≡ self.old.phase }
        ensures code { code_nodes self.new.world ≡ code_nodes self.old.world }
        ensures alternatives { LeavesAlternatives self.old self.new }
    {
        let next = self.first;
        self.first = self.stage.push(Frame {
            depth: goal.depth,
            barrier: goal.barrier,
            term: goal.term,
            next,
            context: goal.context,
        })?;
        Ok(())
    }

    /// Makes an alternative, which has this goal before the others and came by the right side of `;`.
    pub(crate) fn fork(&mut self, goal: Frame) -> Result<(), AllocError>
        requires term { IsValid self.old.world.heap goal.term.index goal.depth }
        requires context { IsContextAt self.old.world.heap goal.depth goal.context }
        ensures alternatives { OnOk result ((p : Program) → alternatives_of p self.new
            ≡ other_side (record (branch_of self.old) { goals = goal_in self.old.world.heap goal ∷ (branch_of self.old).goals; path = RightSide ∷ (branch_of self.old).path }) ∷ alternatives_of p self.old) }
        ensures branch { branch_of self.new ≡ branch_of self.old }
        ensures heap { self.new.world.heap ≡ self.old.world.heap }
        ensures phase { self.new.phase ≡ self.old.phase }
        ensures code { code_nodes self.new.world ≡ code_nodes self.old.world }
    {
        let next = self.first;
        let first = self.stage.push(Frame {
            depth: goal.depth,
            barrier: goal.barrier,
            term: goal.term,
            next,
            context: goal.context,
        })?;
        let mark = self.stage.mark();
        self.choices.push(Saved {
            mark,
            first,
            left: Left::Side,
        })?;
        Ok(())
    }

    /// Puts a choice on the path.
    pub(crate) fn choose(&mut self, c: Choice) -> Result<(), AllocError>
        ensures branch { OnOk result (branch_of self.new ≡ record (branch_of self.old) { path = c ∷ (branch_of self.old).path }) }
        ensures heap { self.new.world.heap ≡ self.old.world.heap }
        ensures saved { self.new.saved ≡ self.old.saved }
        ensures phase { self.new.phase ≡ self.old.phase }
        ensures code { code_nodes self.new.world ≡ code_nodes self.old.world }
        ensures alternatives { LeavesAlternatives self.old self.new }
    {
        self.stage.choose(c)?;
        Ok(())
    }

    /// Goes back to the newest alternative, and takes it out.
    pub(crate) fn back(&mut self) -> Option<Left>
        ensures none { IfNone result ((self.old.saved ≡ []) × (self.new ≡ self.old)) }
        ensures some { IfSome result (λ left. (p : Program) → alternatives_of p self.old ≡ left_at p (branch_of self.new) left ∷ alternatives_of p self.new) }
        ensures left { IfSome result (λ left. HasLeft self.new.world self.new.first left) }
        ensures fewer { IfSome result (λ left. length self.old.saved ≡ suc (length self.new.saved)) }
        ensures phase { self.new.phase ≡ self.old.phase }
        ensures code { code_nodes self.new.world ≡ code_nodes self.old.world }
    {
        match self.choices.pop() {
            Some(saved) => {
                self.stage.undo(saved.mark);
                self.first = saved.first;
                Some(saved.left)
            }
            None => None,
        }
    }

    /// What the first goal does.
    pub(crate) fn kind(&mut self, goal: &Frame) -> Result<GoalKind, AllocError>
        requires { IsFirst self.old goal.now }
        ensures kind { IfOk result (λ k. IsKindOf self.new.world.heap goal.now.depth (read self.new.world.heap goal.now.term.index names) k) }
        ensures first { IsFirst self.new goal.now }
        ensures goal { goal_in self.new.world.heap goal.now ≡ goal_in self.old.world.heap goal.now }
        ensures branch { branch_of self.new ≡ branch_of self.old }
        ensures saved { self.new.saved ≡ self.old.saved }
        ensures phase { self.new.phase ≡ self.old.phase }
        ensures code { code_nodes self.new.world ≡ code_nodes self.old.world }
        ensures alternatives { LeavesAlternatives self.old self.new }
    {
        let form = self.whnf(goal.term, goal.depth)?;
        Ok(kind_of_form(form))
    }

    /// The arguments of the first goal, which a constant heads.
    pub(crate) fn arguments(&mut self, goal: &Frame) -> Result<TermIds, AllocError>
        requires first { IsFirst self.old goal.now }
        requires head { (c : ℕ) × (head_of (read self.old.world.heap goal.now.term.index names) ≡ Some (Con c)) }
        ensures valid { IfOk result (λ ts. AllValidAt self.new.world.heap ts goal.now.depth) }
        ensures arguments { IfOk result (λ ts. args_of (read self.new.world.heap goal.now.term.index names) ≡ all_read self.new.world.heap ts) }
        ensures first { IsFirst self.new goal.now }
        ensures goal { goal_in self.new.world.heap goal.now ≡ goal_in self.old.world.heap goal.now }
        ensures branch { branch_of self.new ≡ branch_of self.old }
        ensures saved { self.new.saved ≡ self.old.saved }
        ensures phase { self.new.phase ≡ self.old.phase }
        ensures code { code_nodes self.new.world ≡ code_nodes self.old.world }
        ensures alternatives { LeavesAlternatives self.old self.new }
    {
        let form = self.whnf(goal.term, goal.depth)?;
        Ok(constant_arguments(form))
    }

    /// So many arguments, all of them outputs.
    pub(crate) fn all_outputs(&self, n: usize) -> Result<Vec<bool>, AllocError>
        ensures { IfOk result (λ ms. ms.items ≡ replicate n false) }
    {
        self.stage.all_outputs(n)
    }

    /// A term applied to the name of the next level.
    pub(crate) fn applied_to_level(&mut self, f: TermId, goal: &Frame) -> Result<TermId, AllocError>
        requires first { IsFirst self.old goal.now }
        requires valid { IsValid self.old.world.heap f.index goal.now.depth }
        ensures reads { IfOk result (λ r. read self.new.world.heap r.index names ≡ apply (read self.old.world.heap f.index names) (names goal.now.depth)) }
        ensures valid { IfOk result (λ r. IsValid self.new.world.heap r.index (goal.now.depth + 1)) }
        ensures first { IsFirst self.new goal.now }
        ensures branch { branch_of self.new ≡ branch_of self.old }
        ensures phase { self.new.phase ≡ self.old.phase }
        ensures code { code_nodes self.new.world ≡ code_nodes self.old.world }
        ensures alternatives { LeavesAlternatives self.old self.new }
    {
        self.stage.is_sound();
        self.stage.applied_to_level(f, goal.depth)
    }

    /// The clauses that a term assumes, which may be assumptions of the first goal.
    pub(crate) fn compile_hyp(&mut self, t: TermId, goal: &Frame) -> Result<Hyps, HypStop>
        requires first { IsFirst self.old goal.now }
        requires valid { IsValid self.old.world.heap t.index goal.now.depth }
        ensures clauses { IfOk result (λ hs. Good (map (assumption_in self.new.world.heap) hs) ≡ assumptions_of goal.now.depth (read self.old.world.heap t.index names)) }
        ensures context { IfOk result (λ hs. IsContextAt self.new.world.heap goal.now.depth hs) }
        ensures fault { IfErr result (λ stop. IsHypFault stop (assumptions_of goal.now.depth (read self.old.world.heap t.index names))) }
        ensures first { IsFirst self.new goal.now }
        ensures readings { (i : ℕ) → IsValid self.old.world.heap i goal.now.depth → read self.new.world.heap i names ≡ read self.old.world.heap i names }
        ensures valid { (i : ℕ) → IsValid self.old.world.heap i goal.now.depth → IsValid self.new.world.heap i goal.now.depth }
        ensures branch { branch_of self.new ≡ branch_of self.old }
        ensures phase { self.new.phase ≡ self.old.phase }
        ensures code { code_nodes self.new.world ≡ code_nodes self.old.world }
        ensures alternatives { LeavesAlternatives self.old self.new }
    {
        self.stage.is_sound();
        self.stage.compile_hyp(t, goal.depth)
    }

    /// A term applied to a new variable under the goal's names, which an abstraction takes whole.
    pub(crate) fn applied_to_variable(
        &mut self,
        f: TermId,
        goal: &Frame,
    ) -> Result<TermId, AllocError>
        requires first { IsFirst self.old goal.now }
        requires valid { IsValid self.old.world.heap f.index goal.now.depth }
        ensures reads { IfOk result (λ r. read self.new.world.heap r.index names
            ≡ applied_whole (read self.old.world.heap f.index names) (variable_under goal.now.depth (length self.old.world.heap.depths))) }
        ensures valid { IfOk result (λ r. IsValid self.new.world.heap r.index goal.now.depth) }
        ensures first { IsFirst self.new goal.now }
        ensures goal { goal_in self.new.world.heap goal.now ≡ goal_in self.old.world.heap goal.now }
        ensures branch { OnOk result (branch_of self.new ≡ record (branch_of self.old) { next_var = suc (length self.old.world.heap.depths) }) }
        ensures saved { self.new.saved ≡ self.old.saved }
        ensures phase { self.new.phase ≡ self.old.phase }
        ensures code { code_nodes self.new.world ≡ code_nodes self.old.world }
        ensures alternatives { LeavesAlternatives self.old self.new }
    {
        self.stage.is_sound();
        self.stage.applied_to_variable(f, goal.depth)
    }

    /// What a term is.
    pub(crate) fn whnf(&mut self, t: TermId, depth: usize) -> Result<Whnf, AllocError>
        requires { IsValid self.old.world.heap t.index depth }
        ensures form { IfOk result (λ w. IsHeadForm self.new.world.heap depth (read self.old.world.heap t.index names) w) }
        ensures readings { (i : ℕ) (d : ℕ) → IsValid self.old.world.heap i d → read self.new.world.heap i names ≡ read self.old.world.heap i names }
        ensures valid { (i : ℕ) (d : ℕ) → IsValid self.old.world.heap i d → IsValid self.new.world.heap i d }
        ensures first { (f : Frame) → IsFirst self.old f → IsFirst self.new f }
        ensures goal { (f : Frame) → IsFirst self.old f → goal_in self.new.world.heap f ≡ goal_in self.old.world.heap f }
        ensures branch { branch_of self.new ≡ branch_of self.old }
        ensures saved { self.new.saved ≡ self.old.saved }
        ensures phase { self.new.phase ≡ self.old.phase }
        ensures code { code_nodes self.new.world ≡ code_nodes self.old.world }
        ensures alternatives { LeavesAlternatives self.old self.new }
    {
        self.stage.is_sound();
        self.stage.whnf(t, depth)
    }

    /// Does what the built-in does with these arguments, and answers whether it succeeds.
    pub(crate) fn call_builtin(
        &mut self,
        symbols: &Symbols,
        builtin: Builtin,
        args: &[TermId],
        depth: usize,
        events: &mut Events,
    ) -> Result<bool, UnifyStop>
        requires { AllValidAt self.old.world.heap args.now depth }
        ensures answer { IfOk result (λ b. events.old ≡ None → MatchBool b
            (GoesOnSo symbols.now self.old self.new depth (reserved_goal (builtin_word builtin) (all_read self.old.world.heap args.now)) events.new)
            (FailsSo symbols.now self.old.world.heap depth (reserved_goal (builtin_word builtin) (all_read self.old.world.heap args.now)))) }
        ensures breaks_off { IfErr result (BreaksOff symbols.now self.old.world.heap depth (reserved_goal (builtin_word builtin) (all_read self.old.world.heap args.now))) }
        ensures saved { self.new.saved ≡ self.old.saved }
        ensures phase { self.new.phase ≡ self.old.phase }
        ensures code { code_nodes self.new.world ≡ code_nodes self.old.world }
        ensures alternatives { LeavesAlternatives self.old self.new }
    {
        self.stage.is_sound();
        self.stage
            .call_builtin(symbols, builtin, args, depth, events)
    }

    /// Matches the inputs of a clause's head, which is in the heap, and then unifies its outputs.
    pub(crate) fn attempt(
        &mut self,
        heads: &[TermId],
        args: &[TermId],
        inputs: &[bool],
        depth: usize,
        first_fresh: VarId,
    ) -> Result<bool, UnifyStop>
        requires heads { AllValidAt self.old.world.heap heads.now depth }
        requires args { AllValidAt self.old.world.heap args.now depth }
        requires as_many { length heads.now ≡ length args.now }
        requires first { first_fresh.index ≤ length self.old.world.heap.depths }
        ensures answer { IfOk result (λ b. MatchBool b
            (HasFitted first_fresh.index depth inputs.now heads.now args.now self.old self.new)
            (HasClashed first_fresh.index depth inputs.now heads.now args.now self.old.world.heap)) }
        ensures stops { IfErr result (λ stop. HasBroken first_fresh.index depth inputs.now heads.now args.now self.old.world.heap stop) }
        ensures grows { Growing self.old.world.heap self.new.world.heap }
        ensures rest { LeavesRest self.old.world self.new.world }
        ensures sound { IsSound self.old.world.heap }
        ensures first { self.new.first ≡ self.old.first }
        ensures saved { self.new.saved ≡ self.old.saved }
        ensures phase { self.new.phase ≡ self.old.phase }
        ensures code { code_nodes self.new.world ≡ code_nodes self.old.world }
        ensures alternatives { LeavesAlternatives self.old self.new }
    {
        self.stage.is_sound();
        self.stage
            .match_head(heads, args, inputs, depth, first_fresh)
    }

    /// How much there is now, and the list of goals: what an alternative made later may go back to.
    pub(crate) fn here(&self) -> (Mark, usize)
        ensures mark { result.0 ≡ mark_of self.now.world }
        ensures first { result.1 ≡ self.now.first }
        ensures can_go_back { (left : Left) → HasLeft self.now.world self.now.first left → AllSaved self.now.world (record { mark = result.0; first = result.1; left = left } ∷ self.now.saved) }
    {
        (self.stage.mark(), self.first)
    }

    /// Makes an alternative of the branch as it was at an earlier mark.
    pub(crate) fn save(&mut self, mark: Mark, first: usize, left: Left) -> Result<(), AllocError>
        requires { AllSaved self.old.world (record { mark = mark; first = first; left = left } ∷ self.old.saved) }
        ensures alternatives { OnOk result ((p : Program) → alternatives_of p self.new
            ≡ saved_in p self.old.world (record { mark = mark; first = first; left = left }) ∷ alternatives_of p self.old) }
        ensures branch { branch_of self.new ≡ branch_of self.old }
        ensures world { self.new.world ≡ self.old.world }
        ensures first { self.new.first ≡ self.old.first }
        ensures phase { self.new.phase ≡ self.old.phase }
        ensures code { code_nodes self.new.world ≡ code_nodes self.old.world }
    {
        self.choices.push(Saved { mark, first, left })?;
        Ok(())
    }

    /// The key among arguments of which these are inputs. All is as before.
    pub(crate) fn key_among(
        &mut self,
        inputs: &[bool],
        args: &[TermId],
        depth: usize,
    ) -> Result<Key, AllocError>
        requires { AllValidAt self.old.world.heap args.now depth }
        ensures key { IfOk result (λ key. key ≡ key_among inputs.now (all_read self.old.world.heap args.now)) }
        ensures same { self.new ≡ self.old }
    {
        self.stage.key_among(inputs, args, depth)
    }

    /// The key among the arguments of an atom of which these are inputs, as far as a look tells.
    pub(crate) fn seen_among(&self, inputs: &[bool], atom: TermId) -> Key
        requires { atom.index < length self.now.world.heap.nodes }
        ensures { IsSeenAmong result inputs.now (args_of (read self.now.world.heap atom.index names)) }
    {
        self.stage.seen_among(inputs, atom)
    }

    /// Makes a clause's variables and its head in the heap.
    pub(crate) fn instance<C: Clauses>(
        &mut self,
        code: &C,
        clause: usize,
        depth: usize,
    ) -> Result<Instance, AllocError>
        requires { (p : Program) × (C.stands (code_nodes self.old.world) code.now p) × (clause < length p.clauses) }
        ensures made { IfOk result (λ i. (p : Program) (k : Clause) → C.stands (code_nodes self.old.world) code.now p → slice_get p.clauses clause ≡ Some k → IsInstanceOf k depth self.old.world.heap self.new.world.heap i) }
        ensures grows { Grows self.old.world.heap self.new.world.heap [] [] }
        ensures rest { LeavesRest self.old.world self.new.world }
        ensures first { self.new.first ≡ self.old.first }
        ensures saved { self.new.saved ≡ self.old.saved }
        ensures phase { self.new.phase ≡ self.old.phase }
        ensures code { code_nodes self.new.world ≡ code_nodes self.old.world }
        ensures alternatives { LeavesAlternatives self.old self.new }
    {
        self.stage.is_sound();
        self.stage.instance(code, clause, depth)
    }

    /// Makes a clause's body in the heap, over the nodes of its variables.
    pub(crate) fn body<C: Clauses>(
        &mut self,
        code: &C,
        clause: usize,
        depth: usize,
        variables: Vec<TermId>,
    ) -> Result<Option<TermId>, AllocError>
        requires code { (p : Program) × (k : Clause) × (C.stands (code_nodes self.old.world) code.now p) × (slice_get p.clauses clause ≡ Some k) × (length variables.items ≡ k.variables) }
        requires variables { AllValidAt self.old.world.heap variables.items depth }
        ensures made { IfOk result (λ body. (p : Program) (k : Clause) → C.stands (code_nodes self.old.world) code.now p → slice_get p.clauses clause ≡ Some k
            → IsBodyOver k depth variables.items self.old.world.heap self.new.world.heap body) }
        ensures valid { IfOk result (λ body. AllValidAt self.new.world.heap (option_to_list body) depth) }
        ensures first { (f : Frame) → IsFirst self.old f → IsFirst self.new f }
        ensures branch { OnOk result (branch_of self.new ≡ branch_of self.old) }
        ensures saved { self.new.saved ≡ self.old.saved }
        ensures phase { self.new.phase ≡ self.old.phase }
        ensures code { code_nodes self.new.world ≡ code_nodes self.old.world }
        ensures alternatives { LeavesAlternatives self.old self.new }
    {
        self.stage.is_sound();
        self.stage.body(code, clause, depth, variables)
    }

    /// Makes an assumption in the heap, at so many names.
    pub(crate) fn assumed_instance(
        &mut self,
        hyp: &Hyp,
        depth: usize,
    ) -> Result<Assumed, AllocError>
        requires usable { IsUsable self.old.world.heap depth hyp.now }
        requires valid { IsHypValid self.old.world.heap hyp.now }
        ensures made { IfOk result (λ i. IsMadeOf (assumption_instance (assumption_in self.old.world.heap hyp.now) depth (length self.old.world.heap.depths)) depth self.new.world.heap i.heads.items i.body.items) }
        ensures grows { Grows self.old.world.heap self.new.world.heap [] [] }
        ensures rest { LeavesRest self.old.world self.new.world }
        ensures first { self.new.first ≡ self.old.first }
        ensures saved { self.new.saved ≡ self.old.saved }
        ensures phase { self.new.phase ≡ self.old.phase }
        ensures code { code_nodes self.new.world ≡ code_nodes self.old.world }
        ensures alternatives { LeavesAlternatives self.old self.new }
    {
        self.stage.is_sound();
        self.stage.assumed_instance(hyp, depth)
    }

    /// Goes back to a mark, and makes no alternative of it.
    pub(crate) fn retreat(&mut self, mark: Mark, first: usize)
        requires { AllSaved self.old.world (record { mark = mark; first = first; left = LeftVariants.Side } ∷ self.old.saved) }
        ensures world { self.new.world ≡ undone mark self.old.world }
        ensures first { self.new.first ≡ first }
        ensures saved { self.new.saved ≡ self.old.saved }
        ensures phase { self.new.phase ≡ self.old.phase }
        ensures code { code_nodes self.new.world ≡ code_nodes self.old.world }
        ensures alternatives { LeavesAlternatives self.old self.new }
    {
        self.stage.undo(mark);
        self.first = first;
    }

    /// Puts the body of a clause in the place of the first goal.
    pub(crate) fn enter(
        &mut self,
        goal: &Frame,
        barrier: usize,
        body: Option<TermId>,
        choice: Choice,
    ) -> Result<(), AllocError>
        requires first { IsFirst self.old goal.now }
        requires body { AllValidAt self.old.world.heap (option_to_list body) goal.now.depth }
        ensures branch { OnOk result (branch_of self.new ≡ record (branch_of self.old) {
          goals = map (λ t. record (goal_in self.old.world.heap goal.now) { barrier = barrier; term = t }) (all_read self.old.world.heap (option_to_list body)) ++ rest_of self.old goal.now;
          path = choice ∷ (branch_of self.old).path;
        }) }
        ensures saved { self.new.saved ≡ self.old.saved }
        ensures phase { self.new.phase ≡ self.old.phase }
        ensures code { code_nodes self.new.world ≡ code_nodes self.old.world }
        ensures alternatives { LeavesAlternatives self.old self.new }
    {
        self.take(goal);
        self.choose(choice)?;
        match body {
            Some(term) => self.put(Frame {
                depth: goal.depth,
                barrier,
                term,
                next: goal.next,
                context: goal.context.copy()?,
            }),
            None => Ok(()),
        }
    }

    /// Puts conditions in the place of the first goal.
    pub(crate) fn enter_all(
        &mut self,
        goal: &Frame,
        barrier: usize,
        body: &[TermId],
        choice: Choice,
    ) -> Result<(), AllocError>
        requires first { IsFirst self.old goal.now }
        requires body { AllValidAt self.old.world.heap body.now goal.now.depth }
        ensures branch { OnOk result (branch_of self.new ≡ record (branch_of self.old) {
          goals = map (λ t. record (goal_in self.old.world.heap goal.now) { barrier = barrier; term = t }) (all_read self.old.world.heap body.now) ++ rest_of self.old goal.now;
          path = choice ∷ (branch_of self.old).path;
        }) }
        ensures saved { self.new.saved ≡ self.old.saved }
        ensures phase { self.new.phase ≡ self.old.phase }
        ensures code { code_nodes self.new.world ≡ code_nodes self.old.world }
        ensures alternatives { LeavesAlternatives self.old self.new }
    {
        self.take(goal);
        self.choose(choice)?;
        self.put_all(goal, barrier, body)
    }

    /// Puts goals with the names and the assumptions of this one before the others.
    fn put_all(&mut self, goal: &Frame, barrier: usize, body: &[TermId]) -> Result<(), AllocError>
        requires body { AllValidAt self.old.world.heap body.now goal.now.depth }
        requires context { IsContextAt self.old.world.heap goal.now.depth goal.now.context }
        ensures branch { OnOk result (branch_of self.new ≡ with_goals (map (λ t. record (goal_in self.old.world.heap goal.now) { barrier = barrier; term = t }) (all_read self.old.world.heap body.now) ++ (branch_of self.old).goals) (branch_of self.old)) }
        ensures saved { self.new.saved ≡ self.old.saved }
        ensures phase { self.new.phase ≡ self.old.phase }
        ensures code { code_nodes self.new.world ≡ code_nodes self.old.world }
        ensures alternatives { LeavesAlternatives self.old self.new }
    {
        let mut left = body.len();
        while 0 < left {
            left -= 1;
            self.put(Frame {
                depth: goal.depth,
                barrier,
                term: body[left],
                next: goal.next,
                context: goal.context.copy()?,
            })?;
        }
        Ok(())
    }

    /// Puts a goal last into the store, with the names and the assumptions of this one.
    pub(crate) fn suspend_goal(
        &mut self,
        goal: &Frame,
        t: TermId,
        keys: TermIds,
    ) -> Result<(), AllocError>
        requires suspended { IsValid self.old.world.heap t.index goal.now.depth }
        requires keys { AllValidAt self.old.world.heap keys goal.now.depth }
        requires context { IsContextAt self.old.world.heap goal.now.depth goal.now.context }
        ensures branch { OnOk result (branch_of self.new ≡ record (branch_of self.old) {
          store = (branch_of self.old).store ++ record {
            number = suc (branch_of self.old).declared;
            names = goal.now.depth;
            assumptions = map (assumption_in self.old.world.heap) goal.now.context;
            term = read self.old.world.heap t.index names;
            keys = all_read self.old.world.heap keys;
          } ∷ [];
          declared = suc (branch_of self.old).declared;
        }) }
        ensures saved { self.new.saved ≡ self.old.saved }
        ensures phase { self.new.phase ≡ self.old.phase }
        ensures code { code_nodes self.new.world ≡ code_nodes self.old.world }
        ensures alternatives { LeavesAlternatives self.old self.new }
    {
        let context = goal.context.copy()?;
        self.stage.suspend_goal(Constraint {
            names: goal.depth,
            context,
            goal: t,
            keys,
        })?;
        Ok(())
    }

    /// The number of the first awake constraint, if there is one.
    pub(crate) fn awake(&mut self) -> Result<Option<u64>, AllocError>
        ensures first { IfOk result (λ o. o ≡ first_up (branch_of self.old).store) }
        ensures goals { (fs : List Frame) → AllGoalsAt self.old.world.heap fs → (map (goal_in self.new.world.heap) fs ≡ map (goal_in self.old.world.heap) fs) × AllGoalsAt self.new.world.heap fs }
        ensures branch { branch_of self.new ≡ branch_of self.old }
        ensures saved { self.new.saved ≡ self.old.saved }
        ensures phase { self.new.phase ≡ self.old.phase }
        ensures code { code_nodes self.new.world ≡ code_nodes self.old.world }
        ensures alternatives { LeavesAlternatives self.old self.new }
    {
        self.stage.is_sound();
        self.stage.awake()
    }

    /// Takes the first awake constraint out of the store, and answers its goal with this barrier.
    pub(crate) fn withdraw(&mut self, id: u64, barrier: usize) -> Result<Frame, AllocError>
        requires { first_up (branch_of self.old).store ≡ Some id }
        ensures woken { IfOk result (WakesOne barrier self.old self.new) }
        ensures heap { self.new.world.heap ≡ self.old.world.heap }
        ensures saved { self.new.saved ≡ self.old.saved }
        ensures phase { self.new.phase ≡ self.old.phase }
        ensures code { code_nodes self.new.world ≡ code_nodes self.old.world }
        ensures alternatives { LeavesAlternatives self.old self.new }
    {
        let goal = self.stage.withdraw(id, barrier)?;
        Ok(goal)
    }

    /// The first instance of a rule, where there is one. Without one the machine is as it was but for
    /// what no contract sees.
    pub(crate) fn next_rule<R: Rules>(&mut self, rules: &R) -> Result<Option<Firing>, UnifyStop>
        requires { (p : Program) × (R.stands (code_nodes self.old.world) rules.now p) }
        ensures answer { IfOk result (λ o. (p : Program) → R.stands (code_nodes self.old.world) rules.now p → Answers self.new.world.heap o (first_of p.rules (branch_of self.old))) }
        ensures stops { IfErr result (λ stop. (p : Program) → R.stands (code_nodes self.old.world) rules.now p → StopsBy stop (first_of p.rules (branch_of self.old))) }
        ensures firing { IfOk result (λ o. IfSome o (CanFire self.new)) }
        ensures none { IfOk result (λ o. IfNone o (branch_of self.new ≡ branch_of self.old)) }
        ensures branch { branch_of self.new ≡ record (branch_of self.old) { next_var = length self.new.world.heap.depths } }
        ensures saved { self.new.saved ≡ self.old.saved }
        ensures phase { self.new.phase ≡ self.old.phase }
        ensures code { code_nodes self.new.world ≡ code_nodes self.old.world }
        ensures alternatives { LeavesAlternatives self.old self.new }
    {
        self.stage.is_sound();
        self.stage.next_rule(rules)
    }

    /// Takes a constraint out of the store.
    pub(crate) fn remove(&mut self, id: u64) -> Result<(), AllocError>
        requires { has_number (branch_of self.old).store id ≡ true }
        ensures branch { OnOk result (branch_of self.new ≡ record (branch_of self.old) { store = without_number id (branch_of self.old).store }) }
        ensures heap { self.new.world.heap ≡ self.old.world.heap }
        ensures saved { self.new.saved ≡ self.old.saved }
        ensures phase { self.new.phase ≡ self.old.phase }
        ensures code { code_nodes self.new.world ≡ code_nodes self.old.world }
        ensures alternatives { LeavesAlternatives self.old self.new }
    {
        self.stage.remove(id)?;
        Ok(())
    }

    /// Notes that a rule fired.
    pub(crate) fn note_firing(&mut self, pair: Fired) -> Result<(), AllocError>
        requires { is_fired (firing_of pair) (branch_of self.old).fired ≡ false }
        ensures branch { OnOk result (branch_of self.new ≡ record (branch_of self.old) { fired = (branch_of self.old).fired ++ firing_of pair ∷ [] }) }
        ensures heap { self.new.world.heap ≡ self.old.world.heap }
        ensures saved { self.new.saved ≡ self.old.saved }
        ensures phase { self.new.phase ≡ self.old.phase }
        ensures code { code_nodes self.new.world ≡ code_nodes self.old.world }
        ensures alternatives { LeavesAlternatives self.old self.new }
    {
        self.stage.note_firing(pair)?;
        Ok(())
    }

    /// Keeps the oldest alternatives, as many as that.
    pub(crate) fn cut_choices(&mut self, barrier: usize)
        ensures alternatives { (p : Program) → alternatives_of p self.new ≡ cut_to barrier (alternatives_of p self.old) }
        ensures branch { branch_of self.new ≡ branch_of self.old }
        ensures phase { self.new.phase ≡ self.old.phase }
        ensures code { code_nodes self.new.world ≡ code_nodes self.old.world }
    {
        if barrier < self.choices.len() {
            self.choices.cut_to(barrier);
        }
    }

    /// Lets a visitor look at the terms of the query's variables and the suspended goals of the present
    /// branch. The machine stays as it was.
    pub fn visit<V: Visitor>(&mut self, visitor: &mut V) -> Result<(), AllocError>
        ensures sees { OnOk result (V.sees visitor.old (branch_of self.old).query (branch_of self.old).store visitor.new) }
        ensures same { self.new ≡ self.old }
    {
        self.stage.visit(visitor)
    }

    /// The choices that led to the present branch, oldest first. Takes no memory.
    pub fn path(&self) -> &[Choice]
        ensures { reverse result.now ≡ (branch_of self.now).path }
    {
        self.stage.path()
    }
}
