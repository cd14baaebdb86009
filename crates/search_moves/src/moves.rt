//! The moves.

ghost use Rattle.std.specs.Prelude.{◌≡◌, ◌≢◌, IfOk, OnOk, OnErr, [], filter, None};
ghost use Rattle.level_terms.specs.Reading.{read};
ghost use Rattle.level_terms.specs.Valid.{IsValid};
ghost use Rattle.beta_fragment.specs.HeadForm.{all_read, AllValidAt};
ghost use Rattle.beta_fragment.specs.Names.{names};
ghost use Rattle.goal_form.specs.Kinds.{kind_in, IsKindOf};
ghost use Rattle.goal_form.specs.Builtins.{builtin_word};
ghost use Rattle.ref_terms.specs.unification.Unification.{unify};
ghost use Rattle.ref_terms.specs.search.Formula.{reserved_goal, Truth, Failing, Cut, Conjunction, Disjunction};
ghost use Rattle.ref_terms.specs.search.Program.{Program};
ghost use Rattle.ref_terms.specs.search.Next.{next, is_awake};
ghost use Rattle.sequent_rules.specs.Instances.{first_of};
ghost use Rattle.search_moves.specs.declared.machine.Phase.TheVariants.{Running, Starved, Broken};
ghost use Rattle.search_moves.specs.declared.machine.Event.TheVariants as event;
ghost use Rattle.search_moves.specs.World.{code_nodes};
ghost use Rattle.builtins.specs.Moves.{event_shown};
ghost use Rattle.search_moves.specs.Machine.{Machine, event_of, state_of, branch_of, move_of, IsFirst, HasMoved, HasMovedBy};

use crate::clauses::Clauses;
use crate::frame::{Frame, Left};
use crate::machine::{Event, Machine, Phase};
use beta_fragment::UnifyStop;
use builtins::{Builtin, Events};
use goal_form::GoalKind;
use level_terms::TermId;
use lp_resolve::Symbols;
use ref_terms::{Choice, Fault};
use sequent_rules::Rules;
use std::alloc::AllocError;

/// The event of a built-in that succeeds: it shows what was printed, if anything was.
fn event_of(events: &mut Events) -> Event
    ensures { (m : Machine) → event_of m result ≡ event_shown events.old }
{
    match events.take() {
        Some(text) => Event::Printed(text),
        None => Event::Moved,
    }
}

impl Machine {
    /// One move of the search: its event, and the machine after it. Awake constraints come first, then
    /// the first instance of a rule, and then the first goal. After `Failure` and `Fault` it answers the same again. `AllocError` is want
    /// of memory alone, and comes again from then on.
    pub fn step<C: Clauses, R: Rules>(
        &mut self,
        code: &C,
        rules: &R,
        symbols: &Symbols,
    ) -> Result<Event, AllocError>
        requires code { (p : Program) × (C.stands (code_nodes self.old.world) code.now p) }
        requires rules { (p : Program) × (R.stands (code_nodes self.old.world) rules.now p) }
        ensures moved { IfOk result (λ e. (p : Program) → C.stands (code_nodes self.old.world) code.now p → R.stands (code_nodes self.old.world) rules.now p → p.symbols ≡ symbols.now
            → HasMoved p (next unify p (state_of p self.old)) e self.new) }
        ensures starved { OnErr result (self.new.phase ≡ Starved) }
        ensures stays { OnOk result (self.old.phase ≢ Starved) }
        ensures code { code_nodes self.new.world ≡ code_nodes self.old.world }
    {
        match self.advance(code, rules, symbols) {
            Ok(event) => Ok(event),
            Err(AllocError) => {
                self.set_phase(Phase::Starved);
                Err(AllocError)
            }
        }
    }

    /// One move; after want of memory nothing is said of the machine but that it can be used.
    fn advance<C: Clauses, R: Rules>(
        &mut self,
        code: &C,
        rules: &R,
        symbols: &Symbols,
    ) -> Result<Event, AllocError>
        requires code { (p : Program) × (C.stands (code_nodes self.old.world) code.now p) }
        requires rules { (p : Program) × (R.stands (code_nodes self.old.world) rules.now p) }
        ensures moved { IfOk result (λ e. (p : Program) → C.stands (code_nodes self.old.world) code.now p → R.stands (code_nodes self.old.world) rules.now p → p.symbols ≡ symbols.now
            → HasMoved p (next unify p (state_of p self.old)) e self.new) }
        ensures stays { OnOk result (self.old.phase ≢ Starved) }
        ensures code { code_nodes self.new.world ≡ code_nodes self.old.world }
    {
        match self.phase() {
            Phase::Running => self.run(code, rules, symbols),
            Phase::Answered => self.retry(code),
            Phase::Failed => self.retry(code),
            Phase::Exhausted => Ok(Event::Failure),
            Phase::Broken(e) => Ok(Event::Fault(e)),
            Phase::Starved => Err(AllocError),
        }
    }

    /// The awake constraints, if there are any; else the first instance of a rule; else the first goal, or
    /// an answer.
    fn run<C: Clauses, R: Rules>(
        &mut self,
        code: &C,
        rules: &R,
        symbols: &Symbols,
    ) -> Result<Event, AllocError>
        requires running { self.old.phase ≡ Running }
        requires code { (p : Program) × (C.stands (code_nodes self.old.world) code.now p) }
        requires rules { (p : Program) × (R.stands (code_nodes self.old.world) rules.now p) }
        ensures moved { IfOk result (λ e. (p : Program) → C.stands (code_nodes self.old.world) code.now p → R.stands (code_nodes self.old.world) rules.now p → p.symbols ≡ symbols.now
            → HasMoved p (next unify p (state_of p self.old)) e self.new) }
        ensures code { code_nodes self.new.world ≡ code_nodes self.old.world }
    {
        let woken = self.wake()?;
        if woken {
            return Ok(Event::Moved);
        }
        match self.next_rule(rules) {
            Ok(None) => self.run_first(code, symbols),
            Ok(Some(firing)) => {
                self.fire(firing)?;
                Ok(Event::Moved)
            }
            Err(UnifyStop::Fault(e)) => Ok(self.break_off(e)),
            Err(UnifyStop::Memory) => Err(AllocError),
        }
    }

    /// The first goal, or an answer. No constraint is awake, and no rule has an instance.
    fn run_first<C: Clauses>(&mut self, code: &C, symbols: &Symbols) -> Result<Event, AllocError>
        requires running { self.old.phase ≡ Running }
        requires asleep { filter is_awake (branch_of self.old).store ≡ [] }
        requires code { (p : Program) × (C.stands (code_nodes self.old.world) code.now p) }
        ensures moved { IfOk result (λ e. (p : Program) → C.stands (code_nodes self.old.world) code.now p → p.symbols ≡ symbols.now → first_of p.rules (branch_of self.old) ≡ None
            → HasMoved p (next unify p (state_of p self.old)) e self.new) }
        ensures code { code_nodes self.new.world ≡ code_nodes self.old.world }
    {
        let first = self.goal()?;
        match first {
            None => {
                self.set_phase(Phase::Answered);
                Ok(Event::Answer)
            }
            Some(goal) => self.run_goal(code, symbols, &goal),
        }
    }

    /// The first goal.
    fn run_goal<C: Clauses>(
        &mut self,
        code: &C,
        symbols: &Symbols,
        goal: &Frame,
    ) -> Result<Event, AllocError>
        requires running { self.old.phase ≡ Running }
        requires asleep { filter is_awake (branch_of self.old).store ≡ [] }
        requires first { IsFirst self.old goal.now }
        requires code { (p : Program) × (C.stands (code_nodes self.old.world) code.now p) }
        ensures moved { IfOk result (λ e. (p : Program) → C.stands (code_nodes self.old.world) code.now p → p.symbols ≡ symbols.now → first_of p.rules (branch_of self.old) ≡ None
            → HasMoved p (next unify p (state_of p self.old)) e self.new) }
        ensures code { code_nodes self.new.world ≡ code_nodes self.old.world }
    {
        let kind = self.kind(goal)?;
        self.move_by(code, symbols, goal, kind)
    }

    /// The first goal, by its kind.
    fn move_by<C: Clauses>(
        &mut self,
        code: &C,
        symbols: &Symbols,
        goal: &Frame,
        kind: GoalKind,
    ) -> Result<Event, AllocError>
        requires running { self.old.phase ≡ Running }
        requires first { IsFirst self.old goal.now }
        requires kind { IsKindOf self.old.world.heap goal.now.depth (read self.old.world.heap goal.now.term.index names) kind }
        requires code { (p : Program) × (C.stands (code_nodes self.old.world) code.now p) }
        ensures moved { IfOk result (λ e. (p : Program) → C.stands (code_nodes self.old.world) code.now p → p.symbols ≡ symbols.now
            → HasMoved p (move_of p self.old goal.now (kind_in self.old.world.heap kind)) e self.new) }
        ensures code { code_nodes self.new.world ≡ code_nodes self.old.world }
    {
        match kind {
            GoalKind::Truth => Ok(self.succeed(goal)),
            GoalKind::Failing => Ok(self.fail(goal)),
            GoalKind::Cut => Ok(self.cut(goal)),
            GoalKind::Conjunction(a, b) => self.both(goal, a, b),
            GoalKind::Disjunction(a, b) => self.either(goal, a, b),
            GoalKind::Assuming(d, g) => self.assume(goal, d, g),
            GoalKind::ForAll(f) => self.for_all(goal, f),
            GoalKind::Exists(f) => self.exists(goal, f),
            GoalKind::Suspending(t, keys) => self.declare(goal, t, keys),
            GoalKind::Builtin(builtin, args) => {
                self.built_in(goal, symbols, builtin, args.as_slice())
            }
            GoalKind::Atom(c, args) => self.call(code, goal, c, args.as_slice()),
            GoalKind::Wrong(e) => Ok(self.break_off(e)),
        }
    }

    /// A goal that is wrong, for this fault.
    pub(crate) fn break_off(&mut self, e: Fault) -> Event
        ensures fault { result ≡ event.Fault e }
        ensures phase { self.new ≡ record self.old { phase = Broken e } }
    {
        self.set_phase(Phase::Broken(e));
        Event::Fault(e)
    }

    /// `true`
    fn succeed(&mut self, goal: &Frame) -> Event
        requires running { self.old.phase ≡ Running }
        requires first { IsFirst self.old goal.now }
        ensures moved { HasMovedBy self.old self.new goal.now Truth result }
        ensures code { code_nodes self.new.world ≡ code_nodes self.old.world }
    {
        self.take(goal);
        Event::Moved
    }

    /// `fail`
    fn fail(&mut self, goal: &Frame) -> Event
        requires first { IsFirst self.old goal.now }
        ensures moved { HasMovedBy self.old self.new goal.now Failing result }
        ensures code { code_nodes self.new.world ≡ code_nodes self.old.world }
    {
        self.set_phase(Phase::Failed);
        Event::Moved
    }

    /// `!`
    fn cut(&mut self, goal: &Frame) -> Event
        requires running { self.old.phase ≡ Running }
        requires first { IsFirst self.old goal.now }
        ensures moved { HasMovedBy self.old self.new goal.now Cut result }
        ensures code { code_nodes self.new.world ≡ code_nodes self.old.world }
    {
        self.take(goal);
        self.cut_choices(goal.barrier);
        Event::Moved
    }

    /// `A , B`
    fn both(&mut self, goal: &Frame, a: TermId, b: TermId) -> Result<Event, AllocError>
        requires running { self.old.phase ≡ Running }
        requires first { IsFirst self.old goal.now }
        requires left { IsValid self.old.world.heap a.index goal.now.depth }
        requires right { IsValid self.old.world.heap b.index goal.now.depth }
        ensures moved { IfOk result (HasMovedBy self.old self.new goal.now (Conjunction (read self.old.world.heap a.index names) (read self.old.world.heap b.index names))) }
        ensures code { code_nodes self.new.world ≡ code_nodes self.old.world }
    {
        self.take(goal);
        let second = goal.with_term(b)?;
        self.put(second)?;
        let first = goal.with_term(a)?;
        self.put(first)?;
        Ok(Event::Moved)
    }

    /// `A ; B`
    fn either(&mut self, goal: &Frame, a: TermId, b: TermId) -> Result<Event, AllocError>
        requires running { self.old.phase ≡ Running }
        requires first { IsFirst self.old goal.now }
        requires left { IsValid self.old.world.heap a.index goal.now.depth }
        requires right { IsValid self.old.world.heap b.index goal.now.depth }
        ensures moved { IfOk result (HasMovedBy self.old self.new goal.now (Disjunction (read self.old.world.heap a.index names) (read self.old.world.heap b.index names))) }
        ensures code { code_nodes self.new.world ≡ code_nodes self.old.world }
    {
        self.take(goal);
        let right = goal.with_term(b)?;
        self.fork(right)?;
        let left = goal.with_term(a)?;
        self.put(left)?;
        self.choose(Choice::Left)?;
        Ok(Event::Moved)
    }

    /// A built-in.
    fn built_in(
        &mut self,
        goal: &Frame,
        symbols: &Symbols,
        builtin: Builtin,
        args: &[TermId],
    ) -> Result<Event, AllocError>
        requires running { self.old.phase ≡ Running }
        requires first { IsFirst self.old goal.now }
        requires arguments { AllValidAt self.old.world.heap args.now goal.now.depth }
        ensures moved { IfOk result (λ e. (p : Program) → p.symbols ≡ symbols.now
            → HasMoved p (move_of p self.old goal.now (reserved_goal (builtin_word builtin) (all_read self.old.world.heap args.now))) e self.new) }
        ensures code { code_nodes self.new.world ≡ code_nodes self.old.world }
    {
        let mut events = Events::new();
        self.take(goal);
        match self.call_builtin(symbols, builtin, args, goal.depth, &mut events) {
            Ok(true) => Ok(event_of(&mut events)),
            Ok(false) => {
                self.set_phase(Phase::Failed);
                Ok(Event::Moved)
            }
            Err(UnifyStop::Fault(e)) => Ok(self.break_off(e)),
            Err(UnifyStop::Memory) => Err(AllocError),
        }
    }
}
