//! Terms.

ghost use Rattle.std.specs.Prelude.{◌≡◌, [], ◌∷◌, ◌++◌, IfOk, OnOk, OnErr};
ghost use Rattle.level_terms.specs.Growth.{Grows};
ghost use Rattle.level_terms.specs.Reading.{read};
ghost use Rattle.level_terms.specs.Valid.{IsValid};
ghost use Rattle.ref_terms.specs.texts.Answer.{term_line};
ghost use Rattle.ref_terms.specs.texts.Numbering.{numbered};
ghost use Rattle.beta_fragment.specs.Names.{names};
ghost use Rattle.term_print.specs.Written.{seen_after, GainsFront};
ghost use Rattle.term_print.specs.declared.piece.Piece.TheVariants.{Top as top_piece};

use crate::namer::Namer;
use crate::piece::Piece;
use crate::step::write_piece;
use lam_io::ByteText;
use level_terms::{Heap, TermId};
use lp_resolve::Symbols;
use std::alloc::{AllocError, Global};

/// The list of one term.
fn first_piece(alloc: Global, node: TermId, depth: usize) -> Result<Vec<Piece>, AllocError>
    ensures { IfOk result (λ work. work.items ≡ top_piece node depth 0 ∷ []) }
{
    let mut work = Vec::new(alloc);
    work.push(Piece::Top {
        node,
        depth,
        kept: 0,
    })?;
    Ok(work)
}

/// Puts the top form of the term last. A term is given at the depth of its names, which print as
/// `#` and their number; a bound name prints as `@` and how many abstractions stand outside its own.
///
/// Errors: want of memory, after which the text has gained a front of that form, and the namer
/// isn't used again.
pub fn print_term(
    alloc: Global,
    heap: &mut Heap,
    symbols: &Symbols,
    t: TermId,
    depth: usize,
    namer: &mut Namer,
    out: &mut ByteText,
) -> Result<(), AllocError>
    requires { IsValid heap.old t.index depth }
    ensures text { OnOk result (out.new ≡ out.old ++ numbered namer.old (term_line symbols.now (read heap.old t.index names))) }
    ensures seen { OnOk result (namer.new ≡ seen_after namer.old (term_line symbols.now (read heap.old t.index names))) }
    ensures front { OnErr result (GainsFront (numbered namer.old (term_line symbols.now (read heap.old t.index names))) out.old out.new) }
    ensures variables { heap.new.depths ≡ heap.old.depths }
    ensures grows { Grows heap.old heap.new [] [] }
{
    heap.is_sound();
    let mut work = first_piece(alloc, t, depth)?;
    while let Some(piece) = work.pop() {
        write_piece(alloc, heap, symbols, depth, piece, &mut work, namer, out)?;
    }
    Ok(())
}
