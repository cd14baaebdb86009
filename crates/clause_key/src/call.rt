//! The key of a call.

ghost use Rattle.std.specs.Prelude.{◌≡◌, [], IfOk};
ghost use Rattle.level_terms.specs.Growth.{Grows};
ghost use Rattle.beta_fragment.specs.HeadForm.{AllValidAt, all_read};
ghost use Rattle.clause_key.specs.Keys as spec;

use crate::key::{Key, key_of_form};
use beta_fragment::whnf;
use level_terms::{Heap, TermId};
use std::alloc::{AllocError, Global};

/// The first input among the arguments, if there is one.
fn first_input(inputs: &[bool], args: &[TermId]) -> Option<TermId>
    ensures { result ≡ spec.first_input inputs.now args.now }
{
    let count = inputs.len().min(args.len());
    for i in 0..count {
        if inputs[i] {
            return Some(args[i]);
        }
    }
    None
}

/// The argument that has the key: the first input, or else the first argument.
pub(crate) fn key_argument(inputs: &[bool], args: &[TermId]) -> Option<TermId>
    ensures { result ≡ spec.key_argument inputs.now args.now }
{
    match first_input(inputs, args) {
        Some(arg) => Some(arg),
        None => args.first().copied(),
    }
}

/// The key among the arguments of a call, of which these are inputs. Makes no variable, and costs a look
/// at one argument's head. Answers `AllocError` on want of memory alone.
pub fn key_of_call(
    alloc: Global,
    heap: &mut Heap,
    inputs: &[bool],
    args: &[TermId],
    depth: usize,
) -> Result<Key, AllocError>
    requires { AllValidAt heap.old args.now depth }
    ensures key { IfOk result (λ key. key ≡ spec.key_among inputs.now (all_read heap.old args.now)) }
    ensures variables { heap.new.depths ≡ heap.old.depths }
    ensures grows { Grows heap.old heap.new [] [] }
{
    let Some(arg) = key_argument(inputs, args) else {
        return Ok(Key::Any);
    };
    let form = whnf(alloc, heap, arg, depth)?;
    Ok(key_of_form(&form))
}
