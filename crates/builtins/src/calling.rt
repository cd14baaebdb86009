//! Calls of built-ins.

ghost use Rattle.std.specs.Prelude.{◌≡◌, [], ◌∷◌, IfOk, IfErr, OnOk, OnErr, MatchBool, None};
ghost use Rattle.level_terms.specs.Growth.{Grows};
ghost use Rattle.level_terms.specs.Reading.{read};
ghost use Rattle.level_terms.specs.Valid.{IsValid};
ghost use Rattle.ref_terms.specs.search.Formula.{reserved_goal};
ghost use Rattle.beta_fragment.specs.HeadForm.{AllValidAt, all_read};
ghost use Rattle.beta_fragment.specs.Names.{names};
ghost use Rattle.goal_form.specs.Builtins.{builtin_word};
ghost use Rattle.builtins.specs.Laws.{OutcomesMove};
ghost use Rattle.builtins.specs.Moves.{GoesOn, FailsSo, BreaksOff};
ghost use Rattle.builtins.specs.Outcome.{outcome, printed_after, Succeeds, Fails, Stops};

use crate::applying::apply_whole;
use crate::evaluating::evaluate;
use crate::events::Events;
use crate::printing::print;
use crate::questions::{is_less, is_name, is_same, is_variable};
use beta_fragment::UnifyStop;
use goal_form::Builtin;
use level_terms::{Change, Heap, TermId};
use lp_resolve::Symbols;
use pattern_unify::unify;
use ref_terms::Fault;
use std::alloc::Global;
use trail::Trail;

/// Does what the built-in does with these arguments, and answers whether it succeeds. After `true`
/// the heap has its bindings, and `Events` what it printed. So it makes the move of the search for
/// a goal of this kind, whose event is what `Events` holds afterwards, where it held nothing before.
///
/// `UnifyStop::Fault` comes exactly where the reference comes to that fault: redex, pattern, scope
/// or number, and arity with another number of arguments than the built-in has.
/// `UnifyStop::Memory` comes for want of memory alone. After a stop the events are as before. After
/// every answer, undoing to an earlier mark of the heap takes all changes back.
///
/// Costs: `var` and `name` look at the head alone. `lt` and `is` take no memory on integers, but
/// for the node of the value.
pub fn call_builtin(
    alloc: Global,
    heap: &mut Heap,
    trail: &mut Trail<Change>,
    symbols: &Symbols,
    kind: Builtin,
    args: &[TermId],
    depth: usize,
    events: &mut Events,
) -> Result<bool, UnifyStop>
    requires { AllValidAt heap.old args.now depth }
    ensures answer { IfOk result (λ b. MatchBool b
        (Succeeds heap.old heap.new depth (outcome kind (all_read heap.old args.now)))
        (Fails heap.old depth (outcome kind (all_read heap.old args.now)))) }
    ensures stops { IfErr result (Stops heap.old depth (outcome kind (all_read heap.old args.now))) }
    ensures printed { OnOk result (events.new ≡ printed_after symbols.now (outcome kind (all_read heap.old args.now)) events.old) }
    ensures unprinted { OnErr result (events.new ≡ events.old) }
    ensures moves { IfOk result (λ b. events.old ≡ None → MatchBool b
        (GoesOn symbols.now heap.old heap.new depth (reserved_goal (builtin_word kind) (all_read heap.old args.now)) events.new)
        (FailsSo symbols.now heap.old depth (reserved_goal (builtin_word kind) (all_read heap.old args.now)))) }
    ensures breaks_off { IfErr result (BreaksOff symbols.now heap.old depth (reserved_goal (builtin_word kind) (all_read heap.old args.now))) }
    ensures grows { Grows heap.old heap.new trail.old.entries trail.new.entries }
{
    call_by_count(alloc, heap, trail, symbols, kind, args, depth, events)
}

/// The call, by the number of arguments.
fn call_by_count(
    alloc: Global,
    heap: &mut Heap,
    trail: &mut Trail<Change>,
    symbols: &Symbols,
    kind: Builtin,
    args: &[TermId],
    depth: usize,
    events: &mut Events,
) -> Result<bool, UnifyStop>
    requires { AllValidAt heap.old args.now depth }
    ensures answer { IfOk result (λ b. MatchBool b
        (Succeeds heap.old heap.new depth (outcome kind (all_read heap.old args.now)))
        (Fails heap.old depth (outcome kind (all_read heap.old args.now)))) }
    ensures stops { IfErr result (Stops heap.old depth (outcome kind (all_read heap.old args.now))) }
    ensures printed { OnOk result (events.new ≡ printed_after symbols.now (outcome kind (all_read heap.old args.now)) events.old) }
    ensures unprinted { OnErr result (events.new ≡ events.old) }
    ensures grows { Grows heap.old heap.new trail.old.entries trail.new.entries }
{
    match args {
        [a] => call_one(alloc, heap, symbols, kind, *a, depth, events),
        [a, b] => call_two(alloc, heap, trail, kind, *a, *b, depth),
        [a, b, c] => call_three(alloc, heap, trail, kind, *a, *b, *c, depth),
        _ => Err(UnifyStop::Fault(Fault::Arity)),
    }
}

/// A call with one argument.
fn call_one(
    alloc: Global,
    heap: &mut Heap,
    symbols: &Symbols,
    kind: Builtin,
    a: TermId,
    depth: usize,
    events: &mut Events,
) -> Result<bool, UnifyStop>
    requires { IsValid heap.old a.index depth }
    ensures answer { IfOk result (λ b. MatchBool b
        (Succeeds heap.old heap.new depth (outcome kind (read heap.old a.index names ∷ [])))
        (Fails heap.old depth (outcome kind (read heap.old a.index names ∷ [])))) }
    ensures stops { IfErr result (Stops heap.old depth (outcome kind (read heap.old a.index names ∷ []))) }
    ensures printed { OnOk result (events.new ≡ printed_after symbols.now (outcome kind (read heap.old a.index names ∷ [])) events.old) }
    ensures unprinted { OnErr result (events.new ≡ events.old) }
    ensures grows { Grows heap.old heap.new [] [] }
{
    heap.is_sound();
    match kind {
        Builtin::Var => {
            let answer = is_variable(alloc, heap, a, depth)?;
            Ok(answer)
        }
        Builtin::Name => {
            let answer = is_name(alloc, heap, a, depth)?;
            Ok(answer)
        }
        Builtin::Print => {
            print(alloc, heap, symbols, a, depth, events)?;
            Ok(true)
        }
        _ => Err(UnifyStop::Fault(Fault::Arity)),
    }
}

/// A call with two arguments.
fn call_two(
    alloc: Global,
    heap: &mut Heap,
    trail: &mut Trail<Change>,
    kind: Builtin,
    a: TermId,
    b: TermId,
    depth: usize,
) -> Result<bool, UnifyStop>
    requires left { IsValid heap.old a.index depth }
    requires right { IsValid heap.old b.index depth }
    ensures answer { IfOk result (λ c. MatchBool c
        (Succeeds heap.old heap.new depth (outcome kind (read heap.old a.index names ∷ read heap.old b.index names ∷ [])))
        (Fails heap.old depth (outcome kind (read heap.old a.index names ∷ read heap.old b.index names ∷ [])))) }
    ensures stops { IfErr result (Stops heap.old depth (outcome kind (read heap.old a.index names ∷ read heap.old b.index names ∷ []))) }
    ensures grows { Grows heap.old heap.new trail.old.entries trail.new.entries }
{
    heap.is_sound();
    match kind {
        Builtin::Equal => unify(alloc, heap, trail, a, b, depth),
        Builtin::Same => {
            let answer = is_same(alloc, heap, a, b, depth)?;
            Ok(answer)
        }
        Builtin::Is => is_value(alloc, heap, trail, a, b, depth),
        Builtin::Less => is_less(alloc, heap, a, b, depth),
        _ => Err(UnifyStop::Fault(Fault::Arity)),
    }
}

/// `X is E`: the variable is the left side.
fn is_value(
    alloc: Global,
    heap: &mut Heap,
    trail: &mut Trail<Change>,
    x: TermId,
    e: TermId,
    depth: usize,
) -> Result<bool, UnifyStop>
    requires variable { IsValid heap.old x.index depth }
    requires expression { IsValid heap.old e.index depth }
    ensures answer { IfOk result (λ b. MatchBool b
        (Succeeds heap.old heap.new depth (outcome Builtin.Is (read heap.old x.index names ∷ read heap.old e.index names ∷ [])))
        (Fails heap.old depth (outcome Builtin.Is (read heap.old x.index names ∷ read heap.old e.index names ∷ [])))) }
    ensures stops { IfErr result (Stops heap.old depth (outcome Builtin.Is (read heap.old x.index names ∷ read heap.old e.index names ∷ []))) }
    ensures grows { Grows heap.old heap.new trail.old.entries trail.new.entries }
{
    heap.is_sound();
    let z = evaluate(alloc, heap, e, depth)?;
    heap.is_sound();
    let value = heap.int(z)?;
    heap.is_sound();
    unify(alloc, heap, trail, x, value, depth)
}

/// A call with three arguments.
fn call_three(
    alloc: Global,
    heap: &mut Heap,
    trail: &mut Trail<Change>,
    kind: Builtin,
    f: TermId,
    a: TermId,
    r: TermId,
    depth: usize,
) -> Result<bool, UnifyStop>
    requires function { IsValid heap.old f.index depth }
    requires argument { IsValid heap.old a.index depth }
    requires result { IsValid heap.old r.index depth }
    ensures answer { IfOk result (λ b. MatchBool b
        (Succeeds heap.old heap.new depth (outcome kind (read heap.old f.index names ∷ read heap.old a.index names ∷ read heap.old r.index names ∷ [])))
        (Fails heap.old depth (outcome kind (read heap.old f.index names ∷ read heap.old a.index names ∷ read heap.old r.index names ∷ [])))) }
    ensures stops { IfErr result (Stops heap.old depth (outcome kind (read heap.old f.index names ∷ read heap.old a.index names ∷ read heap.old r.index names ∷ []))) }
    ensures grows { Grows heap.old heap.new trail.old.entries trail.new.entries }
{
    match kind {
        Builtin::Beta => beta(alloc, heap, trail, f, a, r, depth),
        _ => Err(UnifyStop::Fault(Fault::Arity)),
    }
}

/// `beta F A R`: the term applied is the left side.
fn beta(
    alloc: Global,
    heap: &mut Heap,
    trail: &mut Trail<Change>,
    f: TermId,
    a: TermId,
    r: TermId,
    depth: usize,
) -> Result<bool, UnifyStop>
    requires function { IsValid heap.old f.index depth }
    requires argument { IsValid heap.old a.index depth }
    requires result { IsValid heap.old r.index depth }
    ensures answer { IfOk result (λ b. MatchBool b
        (Succeeds heap.old heap.new depth (outcome Builtin.Beta (read heap.old f.index names ∷ read heap.old a.index names ∷ read heap.old r.index names ∷ [])))
        (Fails heap.old depth (outcome Builtin.Beta (read heap.old f.index names ∷ read heap.old a.index names ∷ read heap.old r.index names ∷ [])))) }
    ensures stops { IfErr result (Stops heap.old depth (outcome Builtin.Beta (read heap.old f.index names ∷ read heap.old a.index names ∷ read heap.old r.index names ∷ []))) }
    ensures grows { Grows heap.old heap.new trail.old.entries trail.new.entries }
{
    heap.is_sound();
    let whole = apply_whole(alloc, heap, f, a, depth)?;
    heap.is_sound();
    unify(alloc, heap, trail, whole, r, depth)
}

/// The reference's move of a built-in's goal is that of what the built-in comes to.
pub fn law_outcomes_move()
    ensures { OutcomesMove }
{}
