//! The lines of suspended goals.

ghost use Rattle.std.specs.Prelude.{◌≡◌, [], IfOk, OnOk, map};
ghost use Rattle.level_terms.specs.Growth.{Grows};
ghost use Rattle.ref_terms.specs.search.Branch.{Constraint as ReadConstraint};
ghost use Rattle.suspend.specs.Store.{stored};
ghost use Rattle.search_moves.specs.Reading.{constraint_in};
ghost use Rattle.goal_run.specs.inside.Lines.{Adds};
ghost use Rattle.goal_run.specs.inside.Suspended.{suspended_line, suspended_lines, assumed_terms, IsShowable, AllShowable, ShowsAs};

use hyp_context::Context;
use lam_io::ByteText;
use level_terms::{Heap, TermId};
use lp_resolve::Symbols;
use std::alloc::{AllocError, Global};
use suspend::{Constraint, Store};
use term_print::{Namer, print_sequent};

/// The terms that were assumed.
fn assumed_terms(alloc: Global, context: &Context) -> Result<Vec<TermId>, AllocError>
    ensures { IfOk result (λ terms. terms.items ≡ assumed_terms context.now) }
{
    let mut terms = Vec::new(alloc);
    let mut rest = context.iter();
    while let Some(hyp) = rest.next() {
        terms.push(hyp.term)?;
    }
    Ok(terms)
}

/// Writes the line of a suspended goal: its names, what was assumed, and the goal.
fn write_suspended(
    alloc: Global,
    heap: &mut Heap,
    symbols: &Symbols,
    suspended: &Constraint<Context>,
    namer: &mut Namer,
    text: &mut ByteText,
) -> Result<(), AllocError>
    requires { IsShowable heap.old suspended.now }
    ensures writes { OnOk result ((c : ReadConstraint) → ShowsAs heap.old suspended.now c
        → Adds text.old namer.old (suspended_line symbols.now c) text.new namer.new) }
    ensures grows { Grows heap.old heap.new [] [] }
{
    let assumed = assumed_terms(alloc, &suspended.context)?;
    text.push_slice(b"  ")?;
    print_sequent(
        alloc,
        heap,
        symbols,
        assumed.as_slice(),
        suspended.goal,
        suspended.names,
        namer,
        text,
    )?;
    text.push_slice(b"\n")?;
    Ok(())
}

/// Writes the lines of all suspended goals, in order of declaration.
pub(crate) fn write_store(
    alloc: Global,
    heap: &mut Heap,
    symbols: &Symbols,
    store: &Store<Context>,
    namer: &mut Namer,
    text: &mut ByteText,
) -> Result<(), AllocError>
    requires { AllShowable heap.old (stored store.now) }
    ensures writes { OnOk result (Adds text.old namer.old (suspended_lines symbols.now (map (constraint_in heap.old) (stored store.now))) text.new namer.new) }
    ensures grows { Grows heap.old heap.new [] [] }
{
    heap.is_sound();
    let mut rest = store.iter();
    while let Some((_, suspended)) = rest.next() {
        write_suspended(alloc, heap, symbols, suspended, namer, text)?;
    }
    Ok(())
}
