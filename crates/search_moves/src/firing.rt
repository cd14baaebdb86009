//! Rules that fire.

ghost use Rattle.std.specs.Prelude.{◌≡◌, ◌∷◌, [], ◌++◌, length, true, false, IfOk, OnOk, IfErr, IfSome, IfNone};
ghost use Rattle.ref_terms.specs.search.Program.{Program};
ghost use Rattle.ref_terms.specs.search.RuleInstance.{is_fired, after_firing};
ghost use Rattle.sequent_rules.specs.Instances.{Answers, StopsBy, first_of, firing_in};
ghost use Rattle.search_moves.specs.World.{code_nodes};
ghost use Rattle.search_moves.specs.Reading.{firing_of};
ghost use Rattle.search_moves.specs.Firing.{has_number, without_number, without_numbers, AreRemovable, CanFire};
ghost use Rattle.search_moves.specs.Machine.{branch_of, LeavesAlternatives};

use crate::frame::Frame;
use crate::machine::Machine;
use sequent_rules::Firing;
use std::alloc::AllocError;
use suspend::Fired;

impl Machine {
    /// Fires a rule: the removed constraints leave the store, the firing is noted, and the body becomes
    /// the first goal, with the number of alternatives as barrier.
    pub(crate) fn fire(&mut self, firing: Firing) -> Result<(), AllocError>
        requires { CanFire self.old firing }
        ensures branch { OnOk result (branch_of self.new ≡ after_firing (branch_of self.old) (length self.old.saved) (firing_in self.old.world.heap firing)) }
        ensures saved { self.new.saved ≡ self.old.saved }
        ensures phase { self.new.phase ≡ self.old.phase }
        ensures code { code_nodes self.new.world ≡ code_nodes self.old.world }
        ensures alternatives { LeavesAlternatives self.old self.new }
    {
        let barrier = self.alternatives();
        let Firing {
            rule,
            constraints,
            removed,
            names,
            context,
            body,
        } = firing;
        self.remove_all(removed)?;
        self.note_firing(Fired { rule, constraints })?;
        self.put(Frame {
            depth: names,
            barrier,
            term: body,
            next: 0,
            context,
        })
    }

    /// Takes constraints out of the store.
    fn remove_all(&mut self, ids: Vec<u64>) -> Result<(), AllocError>
        requires { AreRemovable (branch_of self.old).store ids.items }
        ensures branch { OnOk result (branch_of self.new ≡ record (branch_of self.old) { store = without_numbers ids.items (branch_of self.old).store }) }
        ensures heap { self.new.world.heap ≡ self.old.world.heap }
        ensures saved { self.new.saved ≡ self.old.saved }
        ensures phase { self.new.phase ≡ self.old.phase }
        ensures code { code_nodes self.new.world ≡ code_nodes self.old.world }
        ensures alternatives { LeavesAlternatives self.old self.new }
    {
        let mut left = ids;
        while let Some(id) = left.pop() {
            self.remove(id)?;
        }
        Ok(())
    }
}
