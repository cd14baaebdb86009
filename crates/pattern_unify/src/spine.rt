//! The names of a spine.

ghost use Rattle.std.specs.Prelude.{◌≡◌, ◌<◌, [], map, option_map, cond, reverse, IfOk, IfSome, Some, None};
ghost use Rattle.level_terms.specs.Growth.{Grows};
ghost use Rattle.level_terms.specs.Reading.{read};
ghost use Rattle.level_terms.specs.Valid.{IsValid};
ghost use Rattle.ref_terms.specs.unification.Pattern.{pattern_of, spine_name, add_distinct, of_name};
ghost use Rattle.beta_fragment.specs.Names.{names, AllBelow};
ghost use Rattle.beta_fragment.specs.HeadForm.{all_read, AllValidAt};
ghost use Rattle.pattern_unify.specs.inside.SpineNames.{bare_level, form_name};

use beta_fragment::{RigidHead, Whnf, whnf};
use level_terms::{Heap, TermId};
use std::alloc::{AllocError, Global};

/// The names that the arguments are, where they are distinct names without arguments. Makes no
/// variable. Answers `AllocError` on want of memory alone.
pub fn pattern_names(
    alloc: Global,
    heap: &mut Heap,
    args: &[TermId],
    depth: usize,
) -> Result<Option<Vec<usize>>, AllocError>
    requires { AllValidAt heap.old args.now depth }
    ensures pattern { IfOk result (λ o. option_map (λ ns. map of_name ns.items) o ≡ pattern_of (all_read heap.old args.now)) }
    ensures below { IfOk result (λ o. IfSome o (λ ns. AllBelow ns.items depth)) }
    ensures variables { heap.new.depths ≡ heap.old.depths }
    ensures grows { Grows heap.old heap.new [] [] }
{
    heap.is_sound();
    let mut ns = Vec::new(alloc);
    let mut i = args.len();
    while i > 0 {
        i -= 1;
        let added = add_name(alloc, heap, &mut ns, args[i], depth)?;
        if !added {
            return Ok(None);
        }
    }
    ns.reverse();
    Ok(Some(ns))
}

/// Puts the name that the term is last, where it is one without arguments that isn't there yet, and
/// says whether it was put.
fn add_name(
    alloc: Global,
    heap: &mut Heap,
    ns: &mut Vec<usize>,
    t: TermId,
    depth: usize,
) -> Result<bool, AllocError>
    requires { IsValid heap.old t.index depth }
    ensures added { IfOk result (λ b. cond b (Some (map of_name (reverse ns.new.items))) None ≡ add_distinct (spine_name (read heap.old t.index names)) (Some (map of_name (reverse ns.old.items)))) }
    ensures below { IfOk result (λ b. AllBelow ns.old.items depth → AllBelow ns.new.items depth) }
    ensures variables { heap.new.depths ≡ heap.old.depths }
    ensures grows { Grows heap.old heap.new [] [] }
{
    let Some(name) = name_of(alloc, heap, t, depth)? else {
        return Ok(false);
    };
    if ns.contains(&name) {
        return Ok(false);
    }
    ns.push(name)?;
    Ok(true)
}

/// The name that the term is, where it is one without arguments.
fn name_of(
    alloc: Global,
    heap: &mut Heap,
    t: TermId,
    depth: usize,
) -> Result<Option<usize>, AllocError>
    requires { IsValid heap.old t.index depth }
    ensures name { IfOk result (λ o. option_map of_name o ≡ spine_name (read heap.old t.index names)) }
    ensures below { IfOk result (λ o. IfSome o (λ n. n < depth)) }
    ensures variables { heap.new.depths ≡ heap.old.depths }
    ensures grows { Grows heap.old heap.new [] [] }
{
    let form = whnf(alloc, heap, t, depth)?;
    Ok(name_in(&form))
}

/// The name that a term of this form is.
fn name_in(form: &Whnf) -> Option<usize>
    ensures { result ≡ form_name form.now }
{
    match form {
        Whnf::Rigid(head, args) => level_in(*head, args.as_slice()),
        _ => None,
    }
}

/// The level that a head without arguments names.
fn level_in(head: RigidHead, args: &[TermId]) -> Option<usize>
    ensures { result ≡ bare_level head args.now }
{
    match head {
        RigidHead::Level(l) => level_alone(l, args),
        _ => None,
    }
}

/// The level, where no arguments follow.
fn level_alone(level: usize, args: &[TermId]) -> Option<usize>
    ensures { result ≡ bare_level (RigidHead.Level level) args.now }
{
    if args.is_empty() { Some(level) } else { None }
}
