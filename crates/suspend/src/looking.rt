//! Looking at keys.

ghost use Rattle.std.specs.Prelude.{◌≡◌, ℕ, true, false, nat_eq, IfOk, OnOk, OnErr, MatchBool, MatchOption};
ghost use Rattle.level_terms.specs.Gains.{GainsNodes};
ghost use Rattle.level_terms.specs.Reading.{read};
ghost use Rattle.level_terms.specs.Valid.{IsValid};
ghost use Rattle.beta_fragment.specs.Names.{names};
ghost use Rattle.ref_terms.specs.terms.Term.{Term};
ghost use Rattle.ref_terms.specs.search.Value.{is_flex};
ghost use Rattle.ref_terms.specs.search.Waking.{heading};
ghost use Rattle.suspend.specs.Looked.{LooksAt};
ghost use Rattle.suspend.specs.Store.{is_stored, stored, waiting, has};
ghost use Rattle.suspend.specs.Keyed.{awake_in, first_awake, keys_read, Keyed, KeysValid};
ghost use Rattle.suspend.specs.inside.Waking.{AreQueued, ShowsHead, LooksOn, AllHead, AreHeadedBy, IsUp, IsDown};

use crate::ledger::Ledger;
use crate::queue::Queue;
use beta_fragment::{Whnf, whnf};
use level_terms::{Heap, TermId};
use std::alloc::{AllocError, Global};

/// The number of the first constraint with a key that isn't headed by a variable, if there is one. What isn't in the queue
/// isn't to be looked at. Answers `AllocError` on want of memory alone, as each call here.
pub(crate) fn first_up<C: Drop>(
    alloc: Global,
    ledger: &mut Ledger<C>,
    queue: &mut Queue,
    heap: &mut Heap,
) -> Result<Option<u64>, AllocError>
    requires keyed { Keyed ledger.old heap.old }
    requires queued { AreQueued ledger.old false queue.old }
    ensures first { IfOk result (λ first. first ≡ first_awake heap.old (stored ledger.old)) }
    ensures keyed { Keyed ledger.new heap.new }
    ensures queued { AreQueued ledger.new false queue.new }
    ensures on { LooksOn ledger.old ledger.new }
    ensures gains { GainsNodes heap.old heap.new }
{
    heap.is_sound();
    while let Some(number) = queue.first() {
        let up = look_at(alloc, ledger, heap, number)?;
        if up {
            return Ok(Some(number));
        }
        queue.leave(number);
    }
    ledger.rest()?;
    Ok(None)
}

/// Looks at the keys of the constraint of a number, and answers whether one of them isn't headed by a variable. Else the
/// variables get rows with it, and it isn't to be looked at any more. Where none of the number is stored it answers false.
fn look_at<C: Drop>(
    alloc: Global,
    ledger: &mut Ledger<C>,
    heap: &mut Heap,
    number: u64,
) -> Result<bool, AllocError>
    requires keyed { Keyed ledger.old heap.old }
    ensures up { IfOk result (λ up. MatchBool up (IsUp heap.old ledger.old number) (IsDown ledger.new number)) }
    ensures keyed { Keyed ledger.new heap.new }
    ensures on { LooksOn ledger.old ledger.new }
    ensures gains { GainsNodes heap.old heap.new }
{
    heap.is_sound();
    if !ledger.stands(number) {
        return Ok(false);
    }
    let constraint = ledger.get(number);
    let heads = heads_of(alloc, heap, constraint.keys.as_slice(), constraint.names)?;
    match heads {
        None => Ok(true),
        Some(variables) => {
            settle(ledger, number, variables.as_slice())?;
            Ok(false)
        }
    }
}

/// Notes that the keys of a constraint, which these variables head, were looked at.
fn settle<C: Drop>(ledger: &mut Ledger<C>, number: u64, variables: &[u64]) -> Result<(), AllocError>
    ensures heads { OnOk result (AllHead ledger.new number variables.now) }
    ensures down { OnOk result (has (waiting ledger.new) number ≡ false) }
    ensures waiting { (n : ℕ) → nat_eq number n ≡ false → has (waiting ledger.old) n ≡ true → has (waiting ledger.new) n ≡ true }
    ensures kept { OnErr result (waiting ledger.new ≡ waiting ledger.old) }
    ensures on { LooksOn ledger.old ledger.new }
{
    let mut i = 0;
    while i < variables.len() {
        ledger.head(variables[i], number)?;
        i += 1;
    }
    ledger.sleep(number)
}

/// The variables that head these keys, in order; none where a key isn't headed by a variable.
fn heads_of(
    alloc: Global,
    heap: &mut Heap,
    keys: &[TermId],
    depth: usize,
) -> Result<Option<Vec<u64>>, AllocError>
    requires valid { KeysValid heap.old depth keys.now }
    ensures heads { IfOk result (λ o. MatchOption o (awake_in heap.old keys.now ≡ true) (λ vs. AreHeadedBy (keys_read heap.old keys.now) vs.items)) }
    ensures gains { GainsNodes heap.old heap.new }
{
    heap.is_sound();
    let mut variables = Vec::new(alloc);
    for key in keys {
        let head = head_of(alloc, heap, *key, depth)?;
        match head {
            None => return Ok(None),
            Some(variable) => variables.push(variable)?,
        }
    }
    Ok(Some(variables))
}

/// The variable that heads a term, if one does.
fn head_of(
    alloc: Global,
    heap: &mut Heap,
    t: TermId,
    depth: usize,
) -> Result<Option<u64>, AllocError>
    requires valid { IsValid heap.old t.index depth }
    ensures head { IfOk result (λ o. ShowsHead (read heap.old t.index names) o) }
    ensures gains { GainsNodes heap.old heap.new }
{
    let form = whnf(alloc, heap, t, depth)?;
    Ok(head_of_form(&form))
}

/// The variable that heads terms of this form, if one does.
fn head_of_form(form: &Whnf) -> Option<u64>
    ensures { (u : Term) → LooksAt u form.now → ShowsHead u result }
{
    match form {
        Whnf::Flex(variable, _) => Some(variable.index as u64),
        Whnf::Lam(_) => None,
        Whnf::Rigid(_, _) => None,
        Whnf::Redex(_, _) => None,
    }
}
