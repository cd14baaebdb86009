//! Instances of hypothetical clauses: variables for the parameters, and the head's arguments and the
//! conditions over them.

ghost use Rattle.std.specs.Prelude.{◌≡◌, ◌+◌, ◌++◌, ◌∷◌, ◌≤◌, ℕ, [], length, map, replicate, IfOk};
ghost use Rattle.ref_terms.specs.unification.Spine.{args_of};
ghost use Rattle.ref_terms.specs.search.Instance.{parameter_instance, variable_under};
ghost use Rattle.ref_terms.specs.terms.Apply.{fill};
ghost use Rattle.level_terms.specs.Reading.{read};
ghost use Rattle.level_terms.specs.Valid.{IsValid};
ghost use Rattle.level_terms.specs.Growth.{Grows};
ghost use Rattle.beta_fragment.specs.Names.{names};
ghost use Rattle.beta_fragment.specs.HeadForm.{all_read, AllValidAt};
ghost use Rattle.beta_fragment.specs.Instantiation.{put_names, AllPlain};
ghost use Rattle.hyp_clause.specs.Hyps.{assumption_in, IsHypValid};
ghost use Rattle.hyp_clause.specs.Instances.{variables_from};
ghost use Rattle.hyp_clause.specs.inside.Arguments.{form_args};

use crate::hyp::{Hyp, HypInstance};
use beta_fragment::{Whnf, instantiate, whnf};
use level_terms::{Heap, TermId, TermIds};
use std::alloc::{AllocError, Global};

/// A hypothetical clause at the names of a call, whose depth isn't below the clause's own: new
/// variables for its parameters, and the arguments of its head over them. A clause without parameters
/// gives its arguments as they stand. Answers `AllocError` on want of memory alone.
pub fn hyp_head_of(
    alloc: Global,
    heap: &mut Heap,
    hyp: &Hyp,
    depth: usize,
) -> Result<HypInstance, AllocError>
    requires depth { hyp.now.depth ≤ depth }
    requires valid { IsHypValid heap.old hyp.now }
    ensures args { IfOk result (λ i. all_read heap.new i.args.items ≡ map (parameter_instance (assumption_in heap.old hyp.now) depth (length heap.old.depths)) (args_of (assumption_in heap.old hyp.now).head)) }
    ensures valid { IfOk result (λ i. AllValidAt heap.new i.args.items depth) }
    ensures variables { IfOk result (λ i. all_read heap.new i.variables.items ≡ variables_from depth (length heap.old.depths) hyp.now.pis) }
    ensures variables_valid { IfOk result (λ i. AllValidAt heap.new i.variables.items depth) }
    ensures count { IfOk result (λ i. length i.variables.items ≡ hyp.now.pis) }
    ensures first { IfOk result (λ i. i.first_fresh.index ≡ length heap.old.depths) }
    ensures depth { IfOk result (λ i. i.depth ≡ depth) }
    ensures depths { IfOk result (λ i. heap.new.depths ≡ heap.old.depths ++ replicate hyp.now.pis depth) }
    ensures grows { Grows heap.old heap.new [] [] }
{
    heap.is_sound();
    let first_fresh = heap.next_var();
    let variables = fresh_variables(alloc, heap, hyp.pis, depth)?;
    heap.is_sound();
    let under = hyp.depth.checked_add(hyp.pis).ok_or(AllocError)?;
    let head = arguments_of(alloc, heap, hyp.head, under)?;
    heap.is_sound();
    let args = instances_of(
        alloc,
        heap,
        head.as_slice(),
        hyp.depth,
        depth,
        variables.as_slice(),
    )?;
    Ok(HypInstance {
        first_fresh,
        variables,
        args,
        depth,
    })
}

/// The conditions of a hypothetical clause, outer ones first, over the variables of an instance, of
/// which none was given a value since. So it stands between `hyp_head_of` and the unification of the
/// arguments: a condition that applies a variable to a parameter means another term afterwards.
/// Answers `AllocError` on want of memory alone.
pub fn hyp_body_of(
    alloc: Global,
    heap: &mut Heap,
    hyp: &Hyp,
    instance: &HypInstance,
) -> Result<Vec<TermId>, AllocError>
    requires depth { hyp.now.depth ≤ instance.now.depth }
    requires valid { IsHypValid heap.old hyp.now }
    requires count { length instance.now.variables.items ≡ hyp.now.pis }
    requires variables_valid { AllValidAt heap.old instance.now.variables.items instance.now.depth }
    requires fresh { all_read heap.old instance.now.variables.items ≡ variables_from instance.now.depth instance.now.first_fresh.index hyp.now.pis }
    ensures body { IfOk result (λ ts. all_read heap.new ts.items ≡ map (parameter_instance (assumption_in heap.old hyp.now) instance.now.depth instance.now.first_fresh.index) (assumption_in heap.old hyp.now).conditions) }
    ensures valid { IfOk result (λ ts. AllValidAt heap.new ts.items instance.now.depth) }
    ensures variables { heap.new.depths ≡ heap.old.depths }
    ensures grows { Grows heap.old heap.new [] [] }
{
    let body = instances_of(
        alloc,
        heap,
        hyp.body.as_slice(),
        hyp.depth,
        instance.depth,
        instance.variables.as_slice(),
    )?;
    Ok(body)
}

/// The arguments of a term.
fn arguments_of(
    alloc: Global,
    heap: &mut Heap,
    t: TermId,
    depth: usize,
) -> Result<TermIds, AllocError>
    requires { IsValid heap.old t.index depth }
    ensures args { IfOk result (λ ts. all_read heap.new ts ≡ args_of (read heap.old t.index names)) }
    ensures valid { IfOk result (λ ts. AllValidAt heap.new ts depth) }
    ensures variables { heap.new.depths ≡ heap.old.depths }
    ensures grows { Grows heap.old heap.new [] [] }
{
    let form = whnf(alloc, heap, t, depth)?;
    let args = arguments_in(alloc, form);
    Ok(args)
}

/// The arguments of a form.
fn arguments_in(alloc: Global, form: Whnf) -> TermIds
    ensures { result ≡ form_args form }
{
    match form {
        Whnf::Lam(_) => TermIds::new(alloc),
        Whnf::Rigid(_, args) => args,
        Whnf::Flex(_, args) => args,
        Whnf::Redex(_, args) => args,
    }
}

/// The terms with nodes in the places of the levels from `from` on, at a depth that isn't below it.
/// Where there is none to put, they are taken as they stand.
fn instances_of(
    alloc: Global,
    heap: &mut Heap,
    terms: &[TermId],
    from: usize,
    to: usize,
    puts: &[TermId],
) -> Result<Vec<TermId>, AllocError>
    requires low { from ≤ to }
    requires terms { AllValidAt heap.old terms.now (from + length puts.now) }
    requires puts { AllValidAt heap.old puts.now to }
    requires plain { AllPlain (all_read heap.old puts.now) }
    ensures reads { IfOk result (λ ts. all_read heap.new ts.items ≡ map (fill (put_names from (all_read heap.old puts.now))) (all_read heap.old terms.now)) }
    ensures valid { IfOk result (λ ts. AllValidAt heap.new ts.items to) }
    ensures variables { heap.new.depths ≡ heap.old.depths }
    ensures grows { Grows heap.old heap.new [] [] }
{
    heap.is_sound();
    let mut instances = Vec::new(alloc);
    for i in 0..terms.len() {
        heap.is_sound();
        let r = instance_of(alloc, heap, terms[i], from, to, puts)?;
        instances.push(r)?;
    }
    Ok(instances)
}

/// So of one term.
fn instance_of(
    alloc: Global,
    heap: &mut Heap,
    t: TermId,
    from: usize,
    to: usize,
    puts: &[TermId],
) -> Result<TermId, AllocError>
    requires low { from ≤ to }
    requires valid { IsValid heap.old t.index (from + length puts.now) }
    requires puts { AllValidAt heap.old puts.now to }
    requires plain { AllPlain (all_read heap.old puts.now) }
    ensures reads { IfOk result (λ r. read heap.new r.index names ≡ fill (put_names from (all_read heap.old puts.now)) (read heap.old t.index names)) }
    ensures valid { IfOk result (λ r. IsValid heap.new r.index to) }
    ensures variables { heap.new.depths ≡ heap.old.depths }
    ensures grows { Grows heap.old heap.new [] [] }
{
    if puts.is_empty() {
        return Ok(t);
    }
    let r = instantiate(alloc, heap, t, from, to, puts)?;
    Ok(r)
}

/// The nodes of so many new variables.
fn fresh_variables(
    alloc: Global,
    heap: &mut Heap,
    count: usize,
    depth: usize,
) -> Result<Vec<TermId>, AllocError>
    ensures reads { IfOk result (λ ts. all_read heap.new ts.items ≡ variables_from depth (length heap.old.depths) count) }
    ensures valid { IfOk result (λ ts. AllValidAt heap.new ts.items depth) }
    ensures count { IfOk result (λ ts. length ts.items ≡ count) }
    ensures depths { IfOk result (λ ts. heap.new.depths ≡ heap.old.depths ++ replicate count depth) }
    ensures grows { Grows heap.old heap.new [] [] }
{
    let mut nodes = Vec::new(alloc);
    for made in 0..count {
        heap.is_sound();
        let t = fresh_variable(heap, depth)?;
        nodes.push(t)?;
    }
    Ok(nodes)
}

/// The node of a new variable.
fn fresh_variable(heap: &mut Heap, depth: usize) -> Result<TermId, AllocError>
    ensures reads { IfOk result (λ t. read heap.new t.index names ≡ variable_under depth (length heap.old.depths)) }
    ensures valid { IfOk result (λ t. IsValid heap.new t.index depth) }
    ensures depths { IfOk result (λ t. heap.new.depths ≡ heap.old.depths ++ depth ∷ []) }
    ensures grows { Grows heap.old heap.new [] [] }
{
    heap.is_sound();
    let v = heap.fresh_var(depth)?;
    let t = heap.var(v)?;
    heap.is_sound();
    Ok(t)
}
