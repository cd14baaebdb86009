//! What stands at a term's head.
//!
//! The head is followed through applications, values and abstractions that take a ready argument.
//! The levels of the head's node stand for names, so that no body is copied.

ghost use Rattle.std.specs.Prelude.{◌≡◌, ℕ, [], ◌∷◌, ◌++◌, ◌<◌, ◌≤◌, length, map, drop, reverse, slice_index, slice_get, true, IfOk, IfSome, IsTrue, OnOk, None, Some};
ghost use Rattle.level_terms.specs.Graph.{Graph, node_at, value_in};
ghost use Rattle.level_terms.specs.Sound.{IsSound};
ghost use Rattle.level_terms.specs.Valid.{IsValid};
ghost use Rattle.level_terms.specs.Reading.{read};
ghost use Rattle.level_terms.specs.Growth.{Grows};
ghost use Rattle.level_terms.specs.declared.node.Node.TheVariants.{Lam as lam_node, App as app_node, Var as var_node};
ghost use Rattle.ref_terms.specs.terms.Term as term;
ghost use Rattle.ref_terms.specs.terms.Term.{Term};
ghost use Rattle.ref_terms.specs.terms.Ready.{ready};
ghost use Rattle.ref_terms.specs.unification.Spine.{apply_all};
ghost use Rattle.beta_fragment.specs.Names.{names, renamed, AllBelow};
ghost use Rattle.beta_fragment.specs.Moves.{IsMove};
ghost use Rattle.level_terms.specs.Values.{IsVarOf, value_of};
ghost use Rattle.beta_fragment.specs.HeadForm.{IsHeadForm, HasLowHead, AllValidAt, all_read, rigid_head, ReadsAsLam};
ghost use Rattle.beta_fragment.specs.Firm.{IsSpine, IsAbstractionNode};
ghost use Rattle.beta_fragment.specs.inside.Spine.{args_in};
ghost use Rattle.beta_fragment.specs.Body.{IsLam};
ghost use Rattle.beta_fragment.specs.inside.Turn.{IsTurn, StaysAfter, NoneReady, IsFirst, FirstReady, IsFirstArg};

use crate::answer::{RigidHead, Whnf};
use crate::glance::{Readiness, bare_var_of, is_abstraction, looked_at};
use crate::levels::Levels;
use crate::renaming::{moved_levels, moved_node, sum_of};
use crate::rigid_form::rigid_application;
use crate::settling::settled;
use crate::standing::placed;
use level_terms::{Heap, Node, TermId, TermIds, VarId, made_lam};
use std::alloc::{AllocError, Global};

/// How many arguments inside each other are looked into, to see whether an abstraction takes them.
const NESTING: usize = 1000;

/// What the term is: an abstraction exactly where it reads as one, and else its head with all its
/// arguments. Makes no variable. Answers `AllocError` on want of memory alone.
pub fn whnf(alloc: Global, heap: &mut Heap, t: TermId, depth: usize) -> Result<Whnf, AllocError>
    requires { IsValid heap.old t.index depth }
    ensures form { IfOk result (λ w. IsHeadForm heap.new depth (read heap.old t.index names) w) }
    ensures low { IfOk result (λ w. HasLowHead depth w) }
    ensures variables { heap.new.depths ≡ heap.old.depths }
    ensures grows { Grows heap.old heap.new [] [] }
{
    whnf_within(alloc, heap, t, depth, NESTING)
}

/// The argument that an abstraction stands before, where no look tells whether it takes it.
fn asked(heap: &Heap, head: TermId, args: &[TermId], depth: usize) -> Option<TermId>
    requires head { head.index < length heap.now.nodes }
    requires args { AllValidAt heap.now (reverse args.now) depth }
    ensures { IfSome result (λ a. IsFirstArg a (reverse args.now)) }
{
    heap.is_sound();
    if !matches!(heap.view(head), Node::Lam { .. }) {
        return None;
    }
    match args.last() {
        Some(arg) => match looked_at(heap, *arg) {
            Readiness::Unknown => Some(*arg),
            _ => None,
        },
        None => None,
    }
}

/// Whether the form is of a rigid head.
fn is_rigid_form(form: &Whnf) -> bool
    ensures { (g : Graph) (depth : ℕ) (u : Term) → IsHeadForm g depth u form.now → IsTrue result → ready u ≡ true }
{
    matches!(form, Whnf::Rigid(_, _))
}

/// Whether an abstraction stands at the head before an argument that is ready, where only the
/// argument's own form tells.
#[cycle(head)]
fn takes_first(
    alloc: Global,
    heap: &mut Heap,
    head: TermId,
    args: &[TermId],
    depth: usize,
    nesting: usize,
) -> Result<bool, AllocError>
    requires head { head.index < length heap.old.nodes }
    requires args { AllValidAt heap.old (reverse args.now) depth }
    ensures ready { IfOk result (λ r. IsTrue r → FirstReady heap.new (reverse args.now)) }
    ensures variables { heap.new.depths ≡ heap.old.depths }
    ensures grows { Grows heap.old heap.new [] [] }
{
    heap.is_sound();
    if nesting == 0 {
        return Ok(false);
    }
    match asked(heap, head, args, depth) {
        Some(arg) => {
            let form = whnf_within(alloc, heap, arg, depth, nesting - 1)?;
            Ok(is_rigid_form(&form))
        }
        None => Ok(false),
    }
}

/// The same, where so many arguments inside each other are looked into.
#[cycle(head)]
fn whnf_within(
    alloc: Global,
    heap: &mut Heap,
    t: TermId,
    depth: usize,
    nesting: usize,
) -> Result<Whnf, AllocError>
    requires { IsValid heap.old t.index depth }
    ensures form { IfOk result (λ w. IsHeadForm heap.new depth (read heap.old t.index names) w) }
    ensures variables { heap.new.depths ≡ heap.old.depths }
    ensures grows { Grows heap.old heap.new [] [] }
{
    heap.is_sound();
    if let Some(form) = rigid_application(alloc, heap, t, depth)? {
        return Ok(form);
    }
    let mut levels = Levels::own(alloc, depth);
    let mut fixed = depth;
    let mut args = Vec::new(alloc);
    let mut puts = Vec::new(alloc);
    let mut to = depth;
    let mut head = t;
    loop {
        heap.is_sound();
        let known = takes_first(alloc, heap, head, args.as_slice(), to, nesting)?;
        heap.is_sound();
        match one_turn(
            alloc,
            heap,
            head,
            to,
            &mut levels,
            &mut fixed,
            &mut args,
            known,
        )? {
            Turn::Goes(next) => head = next,
            Turn::Takes(next, arg) => {
                to = sum_of(to, 1)?;
                puts.push(arg)?;
                head = next;
            }
            Turn::Ends(form) => return placed(alloc, heap, depth, to, puts, form),
        }
    }
}

/// What a turn comes to.
#[derive(Drop)]
enum Turn {
    /// This node is at the head now.
    Goes(TermId),
    /// The first node is at the head now, and the name of the depth stands for the second one.
    Takes(TermId, TermId),
    /// The form is found.
    Ends(Whnf),
}

/// An argument of an application.
fn arg_of(heap: &Heap, t: TermId, i: usize) -> TermId
    requires there { t.index < length heap.now.nodes }
    requires within { i < length (args_in (node_at heap.now.nodes t.index)) }
    ensures { Some result ≡ slice_get (args_in (node_at heap.now.nodes t.index)) i }
{
    match heap.view(t) {
        Node::App { args, .. } => args.as_slice()[i],
        _ => t,
    }
}

/// Puts the arguments of an application, renamed, before those that are there.
fn push_args(
    alloc: Global,
    heap: &mut Heap,
    levels: &Levels,
    fixed: usize,
    depth: usize,
    t: TermId,
    count: usize,
    args: &mut Vec<TermId>,
) -> Result<(), AllocError>
    requires moves { IsMove levels.now fixed depth }
    requires there { t.index < length heap.old.nodes }
    requires count { count ≡ length (args_in (node_at heap.old.nodes t.index)) }
    requires valid { AllValidAt heap.old (args_in (node_at heap.old.nodes t.index)) (length levels.now) }
    requires args { AllValidAt heap.old (reverse args.old.items) depth }
    ensures reads { OnOk result (all_read heap.new (reverse args.new.items) ≡ map (λ a. read heap.old a.index (renamed levels.now)) (args_in (node_at heap.old.nodes t.index)) ++ all_read heap.old (reverse args.old.items)) }
    ensures valid { OnOk result (AllValidAt heap.new (reverse args.new.items) depth) }
    ensures variables { heap.new.depths ≡ heap.old.depths }
    ensures grows { Grows heap.old heap.new [] [] }
{
    heap.is_sound();
    let mut i = count;
    while i > 0 {
        i -= 1;
        heap.is_sound();
        let arg = arg_of(heap, t, i);
        let r = moved_node(alloc, heap, levels, fixed, depth, arg)?;
        args.push(r)?;
    }
    Ok(())
}

/// The nodes of the first list, and then those of the second from its last one on.
pub(crate) fn in_order(
    alloc: Global,
    first: &[TermId],
    stack: &[TermId],
) -> Result<TermIds, AllocError>
    ensures { IfOk result (λ list. list ≡ first.now ++ reverse stack.now) }
{
    let mut list = TermIds::from_slice(alloc, first)?;
    let mut i = stack.len();
    while i > 0 {
        i -= 1;
        list.push(stack[i])?;
    }
    Ok(list)
}

/// The head that is an integer.
fn int_head(n: i64) -> RigidHead
    ensures { result ≡ RigidHead.Int n }
{
    RigidHead::Int(n)
}

/// The form of a head that no assignment changes.
fn rigid(
    alloc: Global,
    heap: &Heap,
    t: TermId,
    head: RigidHead,
    levels: &Levels,
    depth: usize,
    args: &[TermId],
) -> Result<Whnf, AllocError>
    requires head { read heap.now t.index (renamed levels.now) ≡ term.At (rigid_head head) }
    ensures { IfOk result (λ w. (u : Term) → IsSpine heap.now depth u t.index levels.now args.now → IsHeadForm heap.now depth u w) }
{
    let list = in_order(alloc, &[], args)?;
    Ok(Whnf::Rigid(head, list))
}

/// The form of a variable that has no value: it has the levels below `count` as its first arguments.
fn flex(
    alloc: Global,
    heap: &mut Heap,
    t: TermId,
    v: VarId,
    count: usize,
    levels: &Levels,
    depth: usize,
    args: &[TermId],
) -> Result<Whnf, AllocError>
    requires known { v.index < length heap.old.depths }
    requires free { value_in heap.old.assigned v.index ≡ None }
    requires open_at { IsVarOf v.index count (value_of heap.old t) }
    requires count { count ≤ length levels.now }
    requires below { AllBelow levels.now depth }
    ensures form { IfOk result (λ w. (u : Term) → IsSpine heap.old depth u t.index levels.now args.now → IsHeadForm heap.new depth u w) }
    ensures variables { heap.new.depths ≡ heap.old.depths }
    ensures grows { Grows heap.old heap.new [] [] }
{
    heap.is_sound();
    let first = moved_levels(alloc, heap, levels, levels.len(), depth, count)?;
    let list = in_order(alloc, first.as_slice(), args)?;
    Ok(Whnf::Flex(v, list))
}

/// An abstraction with its levels renamed. Where these stay it is the same node.
fn renamed_lam(
    alloc: Global,
    heap: &mut Heap,
    t: TermId,
    made: usize,
    body: TermId,
    levels: &mut Levels,
    fixed: usize,
    depth: usize,
) -> Result<TermId, AllocError>
    requires here { node_at heap.old.nodes t.index ≡ Some (lam_node made body) }
    requires valid { IsValid heap.old t.index (length levels.old) }
    requires moves { IsMove levels.old fixed depth }
    ensures reads { IfOk result (λ r. read heap.new r.index names ≡ read heap.old t.index (renamed levels.old)) }
    ensures lam { IfOk result (λ r. IsLam (node_at heap.new.nodes r.index)) }
    ensures valid { IfOk result (λ r. IsValid heap.new r.index depth) }
    ensures variables { heap.new.depths ≡ heap.old.depths }
    ensures grows { Grows heap.old heap.new [] [] }
{
    heap.is_sound();
    if made <= fixed {
        return Ok(t);
    }
    let inner = sum_of(depth, 1)?;
    levels.truncate(made);
    levels.push(depth)?;
    let r = moved_node(alloc, heap, levels, fixed, inner, body)?;
    made_lam(heap, depth, r)
}

/// The form of an abstraction that is certain to be one, before its arguments, if any: the first of
/// them doesn't become ready.
fn stuck(
    alloc: Global,
    heap: &mut Heap,
    t: TermId,
    made: usize,
    body: TermId,
    levels: &mut Levels,
    fixed: usize,
    depth: usize,
    args: &[TermId],
) -> Result<Whnf, AllocError>
    requires here { node_at heap.old.nodes t.index ≡ Some (lam_node made body) }
    requires valid { IsValid heap.old t.index (length levels.old) }
    requires moves { IsMove levels.old fixed depth }
    requires certain { IsAbstractionNode heap.old t.index }
    requires unready { NoneReady heap.old (reverse args.now) }
    ensures form { IfOk result (λ w. (u : Term) → IsSpine heap.old depth u t.index levels.old args.now → IsHeadForm heap.new depth u w) }
    ensures variables { heap.new.depths ≡ heap.old.depths }
    ensures grows { Grows heap.old heap.new [] [] }
{
    heap.is_sound();
    let r = renamed_lam(alloc, heap, t, made, body, levels, fixed, depth)?;
    if args.is_empty() {
        return Ok(Whnf::Lam(r));
    }
    let list = in_order(alloc, &[], args)?;
    Ok(Whnf::Redex(r, list))
}

/// The form of an abstraction, before its arguments, if any: the first of them doesn't become ready.
fn held(
    alloc: Global,
    heap: &mut Heap,
    t: TermId,
    made: usize,
    body: TermId,
    levels: &mut Levels,
    fixed: usize,
    depth: usize,
    args: &[TermId],
) -> Result<Whnf, AllocError>
    requires here { node_at heap.old.nodes t.index ≡ Some (lam_node made body) }
    requires valid { IsValid heap.old t.index (length levels.old) }
    requires moves { IsMove levels.old fixed depth }
    requires args { AllValidAt heap.old (reverse args.now) depth }
    requires unready { NoneReady heap.old (reverse args.now) }
    ensures form { IfOk result (λ w. (u : Term) → IsSpine heap.old depth u t.index levels.old args.now → IsHeadForm heap.new depth u w) }
    ensures variables { heap.new.depths ≡ heap.old.depths }
    ensures grows { Grows heap.old heap.new [] [] }
{
    heap.is_sound();
    if is_abstraction(heap, t) {
        return stuck(alloc, heap, t, made, body, levels, fixed, depth, args);
    }
    match bare_var_of(heap, t, made) {
        Some(v) => flex(alloc, heap, t, v, made, levels, depth, args),
        None => settled(alloc, heap, t, levels, args, depth),
    }
}

/// How many levels stay where an abstraction takes a name, which is the last one in the list now.
/// Where it is that of the abstraction's own level, this one stays too, so that nothing is renamed.
fn fixed_after(levels: &Levels, fixed: usize, made: usize, name: usize) -> usize
    ensures { StaysAfter fixed made name (length levels.now) result }
{
    if name == made && made <= fixed {
        levels.len()
    } else {
        fixed.min(made)
    }
}

/// A turn at an abstraction.
fn turn_lam(
    alloc: Global,
    heap: &mut Heap,
    head: TermId,
    made: usize,
    body: TermId,
    depth: usize,
    levels: &mut Levels,
    fixed: &mut usize,
    args: &mut Vec<TermId>,
    known: bool,
) -> Result<Turn, AllocError>
    requires here { node_at heap.old.nodes head.index ≡ Some (lam_node made body) }
    requires moves { IsMove levels.old fixed.old depth }
    requires valid { IsValid heap.old head.index (length levels.old) }
    requires args { AllValidAt heap.old (reverse args.old.items) depth }
    requires known { IsTrue known → FirstReady heap.old (reverse args.old.items) }
    ensures turn { IfOk result (λ w. IsTurn depth heap.old heap.new head.index levels.old levels.new fixed.new args.old.items args.new.items w) }
    ensures variables { heap.new.depths ≡ heap.old.depths }
    ensures grows { Grows heap.old heap.new [] [] }
{
    heap.is_sound();
    match first_of(heap, args.as_slice(), depth, known) {
        Readiness::Level(k) => {
            args.pop();
            levels.truncate(made);
            levels.push(k)?;
            *fixed = fixed_after(levels, *fixed, made, k);
            Ok(Turn::Goes(body))
        }
        Readiness::Unready => {
            let form = held(
                alloc,
                heap,
                head,
                made,
                body,
                levels,
                *fixed,
                depth,
                args.as_slice(),
            )?;
            Ok(Turn::Ends(form))
        }
        Readiness::Ready(arg) => {
            args.pop();
            levels.truncate(made);
            levels.push(depth)?;
            *fixed = (*fixed).min(made);
            Ok(Turn::Takes(body, arg))
        }
        Readiness::Unknown => {
            let form = settled(alloc, heap, head, levels, args.as_slice(), depth)?;
            Ok(Turn::Ends(form))
        }
    }
}

/// Whether the first argument is ready, where that is known, and else as far as a look can say.
/// Without an argument, none is.
fn first_of(heap: &Heap, args: &[TermId], depth: usize, known: bool) -> Readiness
    requires args { AllValidAt heap.now (reverse args.now) depth }
    requires known { IsTrue known → FirstReady heap.now (reverse args.now) }
    ensures { IsFirst heap.now depth (reverse args.now) result }
{
    heap.is_sound();
    match args.last() {
        Some(arg) => {
            if known {
                return Readiness::Ready(*arg);
            }
            looked_at(heap, *arg)
        }
        None => Readiness::Unready,
    }
}

/// A turn: what is at the head is taken apart, or the form is found.
fn one_turn(
    alloc: Global,
    heap: &mut Heap,
    head: TermId,
    depth: usize,
    levels: &mut Levels,
    fixed: &mut usize,
    args: &mut Vec<TermId>,
    known: bool,
) -> Result<Turn, AllocError>
    requires moves { IsMove levels.old fixed.old depth }
    requires valid { IsValid heap.old head.index (length levels.old) }
    requires args { AllValidAt heap.old (reverse args.old.items) depth }
    requires known { IsTrue known → FirstReady heap.old (reverse args.old.items) }
    ensures turn { IfOk result (λ w. IsTurn depth heap.old heap.new head.index levels.old levels.new fixed.new args.old.items args.new.items w) }
    ensures variables { heap.new.depths ≡ heap.old.depths }
    ensures grows { Grows heap.old heap.new [] [] }
{
    heap.is_sound();
    match heap.view(head) {
        Node::Con(c) => {
            let form = rigid(
                alloc,
                heap,
                head,
                RigidHead::Con(*c),
                levels,
                depth,
                args.as_slice(),
            )?;
            Ok(Turn::Ends(form))
        }
        Node::Int(n) => {
            let n = *n;
            let name = int_head(n);
            let form = rigid(alloc, heap, head, name, levels, depth, args.as_slice())?;
            Ok(Turn::Ends(form))
        }
        Node::Str(s) => {
            let form = rigid(
                alloc,
                heap,
                head,
                RigidHead::Str(*s),
                levels,
                depth,
                args.as_slice(),
            )?;
            Ok(Turn::Ends(form))
        }
        Node::Level(l) => {
            let name = RigidHead::Level(levels.name(*l));
            let form = rigid(alloc, heap, head, name, levels, depth, args.as_slice())?;
            Ok(Turn::Ends(form))
        }
        Node::Lam { depth: made, body } => {
            let made = *made;
            let body = *body;
            turn_lam(
                alloc, heap, head, made, body, depth, levels, fixed, args, known,
            )
        }
        Node::App {
            head: inner,
            args: list,
        } => {
            let inner = *inner;
            let count = list.len();
            push_args(alloc, heap, levels, *fixed, depth, head, count, args)?;
            Ok(Turn::Goes(inner))
        }
        Node::Var(v) => {
            let v = *v;
            turn_var(alloc, heap, head, v, depth, levels, *fixed, args.as_slice())
        }
    }
}

/// A turn at a variable.
fn turn_var(
    alloc: Global,
    heap: &mut Heap,
    head: TermId,
    v: VarId,
    depth: usize,
    levels: &Levels,
    fixed: usize,
    args: &[TermId],
) -> Result<Turn, AllocError>
    requires here { node_at heap.old.nodes head.index ≡ Some (var_node v) }
    requires moves { IsMove levels.now fixed depth }
    requires valid { IsValid heap.old head.index (length levels.now) }
    ensures turn { IfOk result (λ w. IsTurn depth heap.old heap.new head.index levels.now levels.now fixed args.now args.now w) }
    ensures variables { heap.new.depths ≡ heap.old.depths }
    ensures grows { Grows heap.old heap.new [] [] }
{
    heap.is_sound();
    if let Some(value) = heap.value(v) {
        return Ok(Turn::Goes(value));
    }
    let count = heap.var_depth(v);
    let form = flex(alloc, heap, head, v, count, levels, depth, args)?;
    Ok(Turn::Ends(form))
}
