//! The first place at which a term can't be the value of a variable.
//!
//! The search keeps a list of the subterms that are still to be looked at, so that depth is bounded
//! by memory alone. An abstraction is opened with the name of its level: names from the search's base
//! on are those that the term binds, or of levels that are all known, and none of them is foreign.
//! Where all names are known, a node in which nothing can change is passed over.

ghost use Rattle.std.specs.Prelude.{◌≡◌, ◌≤◌, ℕ, suc, List, true, false, [], ◌++◌, reverse, map, IfOk, OnOk};
ghost use Rattle.level_terms.specs.Growth.{Grows};
ghost use Rattle.level_terms.specs.Reading.{read};
ghost use Rattle.level_terms.specs.GroundNormal.{is_ground_normal};
ghost use Rattle.level_terms.specs.Valid.{IsValid};
ghost use Rattle.ref_terms.specs.terms.Term as term;
ghost use Rattle.ref_terms.specs.unification.Closing.{names_below};
ghost use Rattle.ref_terms.specs.unification.Offence.{offence as reference_offence};
ghost use Rattle.ref_terms.specs.unification.Spine.{apply_all};
ghost use Rattle.beta_fragment.specs.Names.{names};
ghost use Rattle.beta_fragment.specs.HeadForm.{AllValidAt, all_read, ReadsAsLam};
ghost use Rattle.pattern_unify.specs.Bound.{IsOpen};
ghost use Rattle.pattern_unify.specs.inside.Searching.{is_known, unknown_from, is_fine as says_fine, at_place as place_says, name_says, head_says, spine_says, searching, subterm, verdict_on, LooksAt};
ghost use Rattle.pattern_unify.specs.inside.Verdicts.{verdict_of, DropsAssignable};

use crate::applying::{applied, inner_depth};
use crate::settled::settled;
use crate::spine::pattern_names;
use beta_fragment::{RigidHead, Whnf, whnf};
use level_terms::{Heap, TermId, VarId};
use std::alloc::{AllocError, Global};

/// What stands at the first place that offends.
#[derive(Clone, Copy, Debug, PartialEq, Eq)]
pub(crate) enum Verdict {
    /// Nothing offends.
    Fine,
    /// A stuck redex.
    Redex,
    /// The variable or a foreign name, at a loose place.
    Scope,
    /// The variable itself.
    Itself,
    /// A foreign name.
    Foreign,
    /// A foreign name at a position of another variable's pattern spine of so many names.
    Dropped(VarId, usize, usize),
}

/// A subterm that is still to be looked at, a depth at which it is valid, and whether its place is
/// loose.
#[derive(Clone, Copy)]
pub(crate) struct Subterm {
    node: TermId,
    depth: usize,
    loose: bool,
}

/// The verdict on a term as the value of a variable whose pattern spine has these names. Variables
/// below the mark are frozen.
pub(crate) fn offence(
    alloc: Global,
    heap: &mut Heap,
    mark: VarId,
    x: VarId,
    ns: &[usize],
    t: TermId,
    depth: usize,
) -> Result<Verdict, AllocError>
    requires valid { IsValid heap.old t.index depth }
    ensures verdict { IfOk result (λ r. verdict_of r ≡ reference_offence mark.index x.index ns.now false (read heap.old t.index names)) }
    ensures dropped { IfOk result (λ r. DropsAssignable heap.new mark.index r) }
    ensures variables { heap.new.depths ≡ heap.old.depths }
    ensures grows { Grows heap.old heap.new [] [] }
{
    search(alloc, heap, mark, x, ns, depth, t, depth)
}

/// The verdict on a term as the value of a variable whose pattern spine has the names of all levels
/// below the depth, so that no name is foreign. Variables below the mark are frozen.
pub(crate) fn offence_in_scope(
    alloc: Global,
    heap: &mut Heap,
    mark: VarId,
    x: VarId,
    t: TermId,
    depth: usize,
) -> Result<Verdict, AllocError>
    requires valid { IsValid heap.old t.index depth }
    ensures verdict { IfOk result (λ r. verdict_of r ≡ reference_offence mark.index x.index (names_below depth) false (read heap.old t.index names)) }
    ensures dropped { IfOk result (λ r. DropsAssignable heap.new mark.index r) }
    ensures variables { heap.new.depths ≡ heap.old.depths }
    ensures grows { Grows heap.old heap.new [] [] }
{
    search(alloc, heap, mark, x, &[], 0, t, depth)
}

/// The verdict on a term, where the names in the list and those from the base on are known.
fn search(
    alloc: Global,
    heap: &mut Heap,
    mark: VarId,
    x: VarId,
    ns: &[usize],
    base: usize,
    t: TermId,
    depth: usize,
) -> Result<Verdict, AllocError>
    requires valid { IsValid heap.old t.index depth }
    requires base { base ≤ depth }
    ensures verdict { IfOk result (λ r. verdict_of r ≡ verdict_on (searching mark.index x.index ns.now base) depth false (read heap.old t.index names)) }
    ensures dropped { IfOk result (λ r. DropsAssignable heap.new mark.index r) }
    ensures variables { heap.new.depths ≡ heap.old.depths }
    ensures grows { Grows heap.old heap.new [] [] }
{
    let mut work = Vec::new(alloc);
    let mut at = Subterm {
        node: t,
        depth,
        loose: false,
    };
    loop {
        heap.is_sound();
        let verdict = look(alloc, heap, mark, x, ns, base, at, &mut work)?;
        if !is_fine(verdict) {
            return Ok(verdict);
        }
        match work.pop() {
            Some(next) => at = next,
            None => return Ok(Verdict::Fine),
        }
    }
}

/// Looks at the head of a subterm, and puts what it stands before onto the work list.
fn look(
    alloc: Global,
    heap: &mut Heap,
    mark: VarId,
    x: VarId,
    ns: &[usize],
    base: usize,
    at: Subterm,
    work: &mut Vec<Subterm>,
) -> Result<Verdict, AllocError>
    requires valid { IsValid heap.old at.node.index at.depth }
    requires base { base ≤ at.depth }
    ensures looks { IfOk result (λ r. LooksAt (searching mark.index x.index ns.now base) heap.new at.depth at.loose (read heap.old at.node.index names) work.old.items work.new.items r) }
    ensures variables { heap.new.depths ≡ heap.old.depths }
    ensures grows { Grows heap.old heap.new [] [] }
{
    heap.is_sound();
    if base == 0 && is_ground(heap, at.node, at.depth) {
        return Ok(Verdict::Fine);
    }
    let form = whnf(alloc, heap, at.node, at.depth)?;
    match form {
        Whnf::Lam(lam) => look_abstraction(alloc, heap, lam, at.depth, at.loose, work),
        Whnf::Rigid(head, args) => {
            push_subterms(work, args.as_slice(), at.depth, at.loose)?;
            Ok(rigid_verdict(ns, base, at.loose, head))
        }
        Whnf::Flex(v, args) => {
            let args = args.as_slice();
            look_flexible(
                alloc, heap, mark, x, ns, base, at.depth, at.loose, v, args, work,
            )
        }
        Whnf::Redex(_, _) => Ok(Verdict::Redex),
    }
}

/// Whether the node, or its value where it is a variable's, is one in which neither a variable nor an
/// applied abstraction stands.
fn is_ground(heap: &Heap, t: TermId, depth: usize) -> bool
    requires { IsValid heap.now t.index depth }
    ensures { result ≡ true → is_ground_normal (read heap.now t.index names) ≡ true }
{
    let node = settled(heap, t, depth);
    heap.is_ground_normal(node)
}

/// Looks at an abstraction: its body, under the name of its level, goes onto the work list.
fn look_abstraction(
    alloc: Global,
    heap: &mut Heap,
    lam: TermId,
    depth: usize,
    loose: bool,
    work: &mut Vec<Subterm>,
) -> Result<Verdict, AllocError>
    requires lam { ReadsAsLam heap.old lam.index depth }
    ensures looks { IfOk result (λ r. (mark x : ℕ) (ns : List ℕ) (base : ℕ) → base ≤ depth → LooksAt (searching mark x ns base) heap.new depth loose (read heap.old lam.index names) work.old.items work.new.items r) }
    ensures variables { heap.new.depths ≡ heap.old.depths }
    ensures grows { Grows heap.old heap.new [] [] }
{
    let node = applied(alloc, heap, lam, depth)?;
    let inner = inner_depth(depth)?;
    work.push(Subterm {
        node,
        depth: inner,
        loose,
    })?;
    Ok(Verdict::Fine)
}

/// Looks at a variable without a value before its arguments.
fn look_flexible(
    alloc: Global,
    heap: &mut Heap,
    mark: VarId,
    x: VarId,
    ns: &[usize],
    base: usize,
    depth: usize,
    loose: bool,
    v: VarId,
    args: &[TermId],
    work: &mut Vec<Subterm>,
) -> Result<Verdict, AllocError>
    requires variable { IsOpen heap.old v.index }
    requires valid { AllValidAt heap.old args.now depth }
    requires base { base ≤ depth }
    ensures looks { IfOk result (λ r. LooksAt (searching mark.index x.index ns.now base) heap.new depth loose (apply_all (term.At (term.Var v.index)) (all_read heap.old args.now)) work.old.items work.new.items r) }
    ensures variables { heap.new.depths ≡ heap.old.depths }
    ensures grows { Grows heap.old heap.new [] [] }
{
    heap.is_sound();
    if x.index == v.index {
        return Ok(at_place(loose, Verdict::Itself));
    }
    if v.index < mark.index {
        push_subterms(work, args, depth, loose)?;
        return Ok(Verdict::Fine);
    }
    match pattern_names(alloc, heap, args, depth)? {
        Some(spine) => Ok(spine_verdict(ns, base, loose, v, spine.as_slice())),
        None => {
            push_subterms(work, args, depth, true)?;
            Ok(Verdict::Fine)
        }
    }
}

/// The verdict on the pattern spine of a variable.
fn spine_verdict(ns: &[usize], base: usize, loose: bool, v: VarId, spine: &[usize]) -> Verdict
    ensures { result ≡ spine_says ns.now base loose v spine.now }
{
    match first_unknown(ns, base, spine) {
        Some(i) => at_place(loose, Verdict::Dropped(v, i, spine.len())),
        None => Verdict::Fine,
    }
}

/// The position of the first name that is neither in the list nor from the base on.
fn first_unknown(ns: &[usize], base: usize, spine: &[usize]) -> Option<usize>
    ensures { result ≡ unknown_from ns.now base 0 spine.now }
{
    let mut i = 0;
    while i < spine.len() {
        if !is_among(ns, base, spine[i]) {
            return Some(i);
        }
        i += 1;
    }
    None
}

/// Whether the name is in the list, or from the base on.
fn is_among(ns: &[usize], base: usize, n: usize) -> bool
    ensures { result ≡ is_known ns.now base n }
{
    if n < base { ns.contains(&n) } else { true }
}

/// The verdict on a head that is no variable.
fn rigid_verdict(ns: &[usize], base: usize, loose: bool, head: RigidHead) -> Verdict
    ensures { result ≡ head_says ns.now base loose head }
{
    match head {
        RigidHead::Con(_) => Verdict::Fine,
        RigidHead::Int(_) => Verdict::Fine,
        RigidHead::Str(_) => Verdict::Fine,
        RigidHead::Level(n) => name_verdict(ns, base, loose, n),
    }
}

/// The verdict on a name as a head.
fn name_verdict(ns: &[usize], base: usize, loose: bool, n: usize) -> Verdict
    ensures { result ≡ name_says ns.now base loose n }
{
    if is_among(ns, base, n) {
        return Verdict::Fine;
    }
    at_place(loose, Verdict::Foreign)
}

/// The verdict, but for a loose place.
fn at_place(loose: bool, verdict: Verdict) -> Verdict
    ensures { result ≡ place_says loose verdict }
{
    if loose { Verdict::Scope } else { verdict }
}

/// Whether nothing offends.
fn is_fine(verdict: Verdict) -> bool
    ensures { result ≡ says_fine verdict }
{
    match verdict {
        Verdict::Fine => true,
        _ => false,
    }
}

/// Puts the nodes onto the work list, the first one last.
fn push_subterms(
    work: &mut Vec<Subterm>,
    nodes: &[TermId],
    depth: usize,
    loose: bool,
) -> Result<(), AllocError>
    ensures { OnOk result (work.new.items ≡ work.old.items ++ reverse (map (subterm depth loose) nodes.now)) }
{
    let mut i = nodes.len();
    while i > 0 {
        i -= 1;
        work.push(Subterm {
            node: nodes[i],
            depth,
            loose,
        })?;
    }
    Ok(())
}
