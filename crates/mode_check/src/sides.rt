//! The heads that have variables as whole arguments.
ghost use Rattle.std.specs.Prelude.{◌≡◌, ℕ, nat_eq, OnOk, IfOk};
ghost use Rattle.indexmap.specs.IndexMap.{get};
ghost use Rattle.lp_resolve.specs.StaticRules.{goals_of, has_whole, head_with};
ghost use Rattle.mode_check.specs.Sides.{unless_seen};

use crate::heads::{goal_at, head_count};
use crate::trees::variable_of;
use indexmap::IndexMap;
use lp_resolve::{RuleTree, args_of};
use ref_terms::Tree;
use std::alloc::{AllocError, Global};

// Notes the variables that are whole arguments of this head and that no earlier head has so.
fn note_head(heads: &mut IndexMap<usize, usize>, goal: &Tree, head: usize) -> Result<(), AllocError>
    ensures { OnOk result ((v : ℕ) → get nat_eq heads.new v ≡ unless_seen (get nat_eq heads.old v) (has_whole v goal.now) head) }
{
    for arg in args_of(goal) {
        if let Some(variable) = variable_of(arg) {
            if !heads.contains_key(&variable) {
                heads.insert(variable, head)?;
            }
        }
    }
    Ok(())
}

/// For each variable the first head of the rule that has it as a whole argument.
pub fn first_heads(alloc: Global, rule: &RuleTree) -> Result<IndexMap<usize, usize>, AllocError>
    ensures { IfOk result (λ heads. (v : ℕ) → get nat_eq heads v ≡ head_with v (goals_of rule.now)) }
{
    let mut heads = IndexMap::new(alloc);
    for index in 0..head_count(rule) {
        note_head(&mut heads, goal_at(rule, index), index)?;
    }
    Ok(heads)
}
