//! Waking: the awake constraints leave the store and become the first goals.

ghost use Rattle.std.specs.Prelude.{◌≡◌, [], ◌++◌, map, IfOk, OnOk, MatchBool, MatchOption, List};
ghost use Rattle.ref_terms.specs.search.Branch.{with_goals};
ghost use Rattle.search_moves.specs.World.{code_nodes};
ghost use Rattle.search_moves.specs.Reading.{goal_in};
ghost use Rattle.search_moves.specs.Machine.{branch_of, LeavesAlternatives};
ghost use Rattle.search_moves.specs.Waking.{AllGoalsAt, WakesOne, SleepsOn, HasWoken};

use crate::frame::Frame;
use crate::machine::Machine;
use std::alloc::AllocError;

impl Machine {
    /// All awake constraints leave the store and become the first goals, in the order of the store,
    /// with the number of alternatives as barrier. It answers whether there are any. Where no key is
    /// to be looked at it does nothing.
    pub(crate) fn wake(&mut self) -> Result<bool, AllocError>
        ensures woken { IfOk result (λ b. MatchBool b (HasWoken self.old self.new) (SleepsOn self.old self.new)) }
        ensures saved { self.new.saved ≡ self.old.saved }
        ensures phase { self.new.phase ≡ self.old.phase }
        ensures code { code_nodes self.new.world ≡ code_nodes self.old.world }
        ensures alternatives { LeavesAlternatives self.old self.new }
    {
        let barrier = self.alternatives();
        let mut goals = self.no_goals();
        while let Some(goal) = self.next_woken(barrier)? {
            goals.push(goal)?;
        }
        if goals.is_empty() {
            return Ok(false);
        }
        self.put_before(goals)?;
        Ok(true)
    }

    /// Takes the first awake constraint out of the store, if there is one, and answers its goal with
    /// this barrier.
    fn next_woken(&mut self, barrier: usize) -> Result<Option<Frame>, AllocError>
        ensures woken { IfOk result (λ o. MatchOption o (SleepsOn self.old self.new) (WakesOne barrier self.old self.new)) }
        ensures goals { (fs : List Frame) → AllGoalsAt self.old.world.heap fs → (map (goal_in self.new.world.heap) fs ≡ map (goal_in self.old.world.heap) fs) × AllGoalsAt self.new.world.heap fs }
        ensures saved { self.new.saved ≡ self.old.saved }
        ensures phase { self.new.phase ≡ self.old.phase }
        ensures code { code_nodes self.new.world ≡ code_nodes self.old.world }
        ensures alternatives { LeavesAlternatives self.old self.new }
    {
        match self.awake()? {
            Some(id) => {
                let goal = self.withdraw(id, barrier)?;
                Ok(Some(goal))
            }
            None => Ok(None),
        }
    }

    /// Puts goals before the others, in this order.
    fn put_before(&mut self, goals: Vec<Frame>) -> Result<(), AllocError>
        requires { AllGoalsAt self.old.world.heap goals.items }
        ensures branch { OnOk result (branch_of self.new ≡ with_goals (map (goal_in self.old.world.heap) goals.items ++ (branch_of self.old).goals) (branch_of self.old)) }
        ensures saved { self.new.saved ≡ self.old.saved }
        ensures phase { self.new.phase ≡ self.old.phase }
        ensures code { code_nodes self.new.world ≡ code_nodes self.old.world }
        ensures alternatives { LeavesAlternatives self.old self.new }
    {
        let mut left = goals;
        while let Some(goal) = left.pop() {
            self.put(goal)?;
        }
        Ok(())
    }
}
