//! Sequents.

ghost use Rattle.std.specs.Prelude.{◌≡◌, [], ◌∷◌, ◌++◌, ◌<◌, length, OnOk, OnErr, decimal};
ghost use Rattle.level_terms.specs.Growth.{Grows};
ghost use Rattle.level_terms.specs.Reading.{read};
ghost use Rattle.level_terms.specs.Valid.{IsValid};
ghost use Rattle.ref_terms.specs.search.Branch.{Constraint};
ghost use Rattle.ref_terms.specs.texts.Answer.{sequent_parts};
ghost use Rattle.ref_terms.specs.texts.Numbering.{numbered};
ghost use Rattle.beta_fragment.specs.Names.{names};
ghost use Rattle.beta_fragment.specs.HeadForm.{AllValidAt, all_read};
ghost use Rattle.term_print.specs.Sequents.{IsSequent, names_bytes, more_names, scope_bytes, more_lines, all_lines, sequent_line};
ghost use Rattle.term_print.specs.Pieces.{page};
ghost use Rattle.term_print.specs.Written.{seen_after, GainsFront, Prints, Stops};

use crate::namer::Namer;
use crate::print::print_term;
use lam_io::ByteText;
use level_terms::{Heap, TermId};
use lp_resolve::Symbols;
use std::alloc::{AllocError, Global};

/// Writes a name after a space.
fn write_next_name(alloc: Global, level: usize, out: &mut ByteText) -> Result<(), AllocError>
    ensures ok { OnOk result (out.new ≡ out.old ++ 32 ∷ 35 ∷ decimal level) }
    ensures err { OnErr result (out.new ≡ out.old) }
{
    let text = format!(in alloc; " #{level}")?;
    out.push_slice(text.as_bytes())
}

/// Writes the names of a scope.
fn write_names(alloc: Global, depth: usize, out: &mut ByteText) -> Result<(), AllocError>
    ensures ok { OnOk result (out.new ≡ out.old ++ names_bytes depth) }
    ensures err { OnErr result (GainsFront (names_bytes depth) out.old out.new) }
{
    if depth == 0 {
        return Ok(());
    }
    out.push_slice(b"#0")?;
    for level in 1..depth {
        write_next_name(alloc, level, out)?;
    }
    Ok(())
}

/// Writes a sequent up to its assumptions.
fn write_scope(alloc: Global, depth: usize, out: &mut ByteText) -> Result<(), AllocError>
    ensures ok { OnOk result (out.new ≡ out.old ++ scope_bytes depth) }
    ensures err { OnErr result (GainsFront (scope_bytes depth) out.old out.new) }
{
    out.push_slice(b"delayed [")?;
    write_names(alloc, depth, out)?;
    out.push_slice(b"] [")
}

/// Puts the top forms of terms last, each after a semicolon and a space.
fn print_more(
    alloc: Global,
    heap: &mut Heap,
    symbols: &Symbols,
    terms: &[TermId],
    depth: usize,
    namer: &mut Namer,
    out: &mut ByteText,
) -> Result<(), AllocError>
    requires { AllValidAt heap.old terms.now depth }
    ensures prints { OnOk result (Prints (page out.old namer.old) (more_lines symbols.now (all_read heap.old terms.now)) (page out.new namer.new) []) }
    ensures stops { OnErr result (Stops (page out.old namer.old) (more_lines symbols.now (all_read heap.old terms.now)) out.new) }
    ensures variables { heap.new.depths ≡ heap.old.depths }
    ensures grows { Grows heap.old heap.new [] [] }
{
    heap.is_sound();
    for term in terms {
        out.push_slice(b"; ")?;
        print_term(alloc, heap, symbols, *term, depth, namer, out)?;
    }
    Ok(())
}

/// Puts the top forms of terms last, with a semicolon and a space between two.
fn print_all(
    alloc: Global,
    heap: &mut Heap,
    symbols: &Symbols,
    terms: &[TermId],
    depth: usize,
    namer: &mut Namer,
    out: &mut ByteText,
) -> Result<(), AllocError>
    requires { AllValidAt heap.old terms.now depth }
    ensures prints { OnOk result (Prints (page out.old namer.old) (all_lines symbols.now (all_read heap.old terms.now)) (page out.new namer.new) []) }
    ensures stops { OnErr result (Stops (page out.old namer.old) (all_lines symbols.now (all_read heap.old terms.now)) out.new) }
    ensures variables { heap.new.depths ≡ heap.old.depths }
    ensures grows { Grows heap.old heap.new [] [] }
{
    heap.is_sound();
    if terms.len() == 0 {
        return Ok(());
    }
    print_term(alloc, heap, symbols, terms[0], depth, namer, out)?;
    print_more(alloc, heap, symbols, &terms[1..], depth, namer, out)
}

/// Puts a sequent last, by the terms of its assumptions and of its goal.
fn print_line(
    alloc: Global,
    heap: &mut Heap,
    symbols: &Symbols,
    hyps: &[TermId],
    goal: TermId,
    depth: usize,
    namer: &mut Namer,
    out: &mut ByteText,
) -> Result<(), AllocError>
    requires hyps { AllValidAt heap.old hyps.now depth }
    requires goal { IsValid heap.old goal.index depth }
    ensures prints { OnOk result (Prints (page out.old namer.old) (sequent_line symbols.now depth (all_read heap.old hyps.now) (read heap.old goal.index names)) (page out.new namer.new) []) }
    ensures stops { OnErr result (Stops (page out.old namer.old) (sequent_line symbols.now depth (all_read heap.old hyps.now) (read heap.old goal.index names)) out.new) }
    ensures variables { heap.new.depths ≡ heap.old.depths }
    ensures grows { Grows heap.old heap.new [] [] }
{
    heap.is_sound();
    write_scope(alloc, depth, out)?;
    print_all(alloc, heap, symbols, hyps, depth, namer, out)?;
    out.push_slice(b"] ?- ")?;
    print_term(alloc, heap, symbols, goal, depth, namer, out)
}

/// Puts the sequent last: its names, the assumptions in the order in which they are tried, and the
/// goal. A variable has one number in all of it.
///
/// Errors: want of memory, after which the text has gained a front of that form, and the namer
/// isn't used again.
pub fn print_sequent(
    alloc: Global,
    heap: &mut Heap,
    symbols: &Symbols,
    hyps: &[TermId],
    goal: TermId,
    depth: usize,
    namer: &mut Namer,
    out: &mut ByteText,
) -> Result<(), AllocError>
    requires hyps { AllValidAt heap.old hyps.now depth }
    requires goal { IsValid heap.old goal.index depth }
    ensures text { OnOk result ((c : Constraint) → IsSequent heap.old depth hyps.now goal c → out.new ≡ out.old ++ numbered namer.old (sequent_parts symbols.now c)) }
    ensures seen { OnOk result ((c : Constraint) → IsSequent heap.old depth hyps.now goal c → namer.new ≡ seen_after namer.old (sequent_parts symbols.now c)) }
    ensures front { OnErr result ((c : Constraint) → IsSequent heap.old depth hyps.now goal c → GainsFront (numbered namer.old (sequent_parts symbols.now c)) out.old out.new) }
    ensures variables { heap.new.depths ≡ heap.old.depths }
    ensures grows { Grows heap.old heap.new [] [] }
{
    print_line(alloc, heap, symbols, hyps, goal, depth, namer, out)
}
