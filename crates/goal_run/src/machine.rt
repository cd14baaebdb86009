//! The machine: a program's code, a query's variables, and the search over them.

ghost use Rattle.std.specs.Prelude.{◌≡◌, ℕ, List, [], IfOk, OnOk, OnErr, map, reverse};
ghost use Rattle.ref_terms.specs.unification.Unification.{unify};
ghost use Rattle.ref_terms.specs.search.Program.{Program};
ghost use Rattle.ref_terms.specs.search.Next.{next};
ghost use Rattle.ref_terms.specs.search.Events.{first_state};
ghost use Rattle.ref_terms.specs.texts.Answer.{answer_block};
ghost use Rattle.lp_resolve.specs.Plain.{plain_program, plain_query, plain_variable};
ghost use Rattle.lp_resolve.specs.Queries.{IsFormedQuery};
ghost use Rattle.goal_run.specs.Machine.{Machine, Runs, branch_of, state_of, HasMoved, IsStarved};

use crate::answer::begin_page;
use crate::code::ProgramCode;
use clause_compile::{QueryInstance, compile, query_of};
use lam_io::ByteText;
use level_terms::Heap;
use lp_resolve::{Checked, Query, QueryVar, Symbols};
use ref_terms::Choice;
use search_moves::{Event, Machine as Moves};
use std::alloc::{AllocError, Global};
use std::marker::Model;
use trail::Trail;

/// A search for the answers of a query over a program.
#[derive(Drop)]
pub struct Machine {
    alloc: Global,
    moves: Moves,
    code: ProgramCode,
    variables: Vec<QueryVar>,
}

impl Model for Machine {
    ghost use Rattle.goal_run.specs.Machine.{Machine};

    ghost Value = { Machine };

    ghost use Rattle.goal_run.specs.inside.MachineView.{machine_of, IsMachine};

    ghost view = { machine_of };

    ghost invariant = { IsMachine };
}

impl Machine {
    /// The search for a query over a program. Takes time and memory linear in both, but for the look-up
    /// of predicates.
    ///
    /// Errors: want of memory.
    pub fn start(alloc: Global, checked: &Checked, query: &Query) -> Result<Machine, AllocError>
        requires { IsFormedQuery query.now }
        ensures program { IfOk result (λ m. (table : List (List ℕ)) → Runs m (plain_program table checked.now)) }
        ensures state { IfOk result (λ m. (p : Program) → state_of p m ≡ first_state (plain_query query.now)) }
        ensures variables { IfOk result (λ m. m.variables ≡ query.now.vars) }
    {
        let mut heap = Heap::new(alloc);
        let code = compile(alloc, &mut heap, checked)?;
        let made = query_of(alloc, &mut heap, query)?;
        let code = ProgramCode::new(alloc, code)?;
        let variables = Vec::from_slice(alloc, query.vars.as_slice())?;
        let QueryInstance {
            variables: nodes,
            goal,
        } = made;
        let moves = Moves::start(alloc, heap, Trail::new(alloc), nodes, goal)?;
        Ok(Machine {
            alloc,
            moves,
            code,
            variables,
        })
    }

    /// One move of the search: its event, and the machine after it. After `Failure` and `Fault` it
    /// answers the same again.
    ///
    /// Errors: want of memory, which comes again from then on.
    pub fn step(&mut self, symbols: &Symbols) -> Result<Event, AllocError>
        ensures moved { IfOk result (λ e. (p : Program) → Runs self.old p → p.symbols ≡ symbols.now → HasMoved p (next unify p (state_of p self.old)) e self.new) }
        ensures starved { OnErr result (IsStarved self.new) }
        ensures stays { OnOk result (IsStarved self.old → ⊥) }
        ensures program { (p : Program) → Runs self.old p → Runs self.new p }
        ensures variables { self.new.variables ≡ self.old.variables }
    {
        self.moves.step(&self.code, &self.code, symbols)
    }

    /// The block of the present branch, as the answer with this number: after `Answer` that of the
    /// answer. The machine stays as it was.
    ///
    /// Errors: want of memory.
    pub fn answer_text(&mut self, symbols: &Symbols, number: u64) -> Result<ByteText, AllocError>
        ensures text { IfOk result (λ text. text ≡ answer_block symbols.now (map plain_variable self.old.variables) number (branch_of self.old)) }
        ensures same { self.new ≡ self.old }
    {
        let variables = self.variables.as_slice();
        let mut page = begin_page(self.alloc, symbols, variables, number)?;
        self.moves.visit(&mut page)?;
        Ok(page.into_text())
    }

    /// The choices that led to the present branch, oldest first. Takes no memory.
    pub fn path(&self) -> &[Choice]
        ensures { reverse result.now ≡ (branch_of self.now).path }
    {
        self.moves.path()
    }
}
