//! Goals that make a name or a variable.

ghost use Rattle.std.specs.Prelude.{◌≡◌, ◌+◌, IfOk};
ghost use Rattle.level_terms.specs.Reading.{read};
ghost use Rattle.level_terms.specs.Valid.{IsValid};
ghost use Rattle.beta_fragment.specs.Names.{names};
ghost use Rattle.ref_terms.specs.search.Formula.{ForAll, Exists};
ghost use Rattle.search_moves.specs.declared.machine.Phase.TheVariants.{Running};
ghost use Rattle.search_moves.specs.World.{code_nodes};
ghost use Rattle.search_moves.specs.Machine.{IsFirst, HasMovedBy};

use crate::frame::Frame;
use crate::machine::{Event, Machine};
use level_terms::TermId;
use std::alloc::AllocError;

/// One more, or `AllocError` past 64 bits.
pub(crate) fn one_more(n: usize) -> Result<usize, AllocError>
    ensures { IfOk result (λ m. m ≡ n + 1) }
{
    n.checked_add(1).ok_or(AllocError)
}

impl Machine {
    /// `pi F`: the name is that of the next level.
    pub(crate) fn for_all(&mut self, goal: &Frame, f: TermId) -> Result<Event, AllocError>
        requires running { self.old.phase ≡ Running }
        requires first { IsFirst self.old goal.now }
        requires abstraction { IsValid self.old.world.heap f.index goal.now.depth }
        ensures moved { IfOk result (HasMovedBy self.old self.new goal.now (ForAll (read self.old.world.heap f.index names))) }
        ensures code { code_nodes self.new.world ≡ code_nodes self.old.world }
    {
        let term = self.applied_to_level(f, goal)?;
        let depth = one_more(goal.depth)?;
        let context = goal.context.copy()?;
        self.take(goal);
        self.put(Frame {
            depth,
            barrier: goal.barrier,
            term,
            next: goal.next,
            context,
        })?;
        Ok(Event::Moved)
    }

    /// `sigma F`: the variable is a new one under the goal's names, and an abstraction takes it whole.
    pub(crate) fn exists(&mut self, goal: &Frame, f: TermId) -> Result<Event, AllocError>
        requires running { self.old.phase ≡ Running }
        requires first { IsFirst self.old goal.now }
        requires abstraction { IsValid self.old.world.heap f.index goal.now.depth }
        ensures moved { IfOk result (HasMovedBy self.old self.new goal.now (Exists (read self.old.world.heap f.index names))) }
        ensures code { code_nodes self.new.world ≡ code_nodes self.old.world }
    {
        let term = self.applied_to_variable(f, goal)?;
        let opened = goal.with_term(term)?;
        self.take(goal);
        self.put(opened)?;
        Ok(Event::Moved)
    }
}
