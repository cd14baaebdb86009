//! Printed lines.

ghost use Rattle.std.specs.Prelude.{◌≡◌, [], Some, OnOk, OnErr};
ghost use Rattle.level_terms.specs.Growth.{Grows};
ghost use Rattle.level_terms.specs.Reading.{read};
ghost use Rattle.level_terms.specs.Valid.{IsValid};
ghost use Rattle.beta_fragment.specs.Names.{names};
ghost use Rattle.builtins.specs.Outcome.{line_of};

use crate::events::Events;
use lam_io::ByteText;
use level_terms::{Heap, TermId};
use lp_resolve::Symbols;
use std::alloc::{AllocError, Global};
use term_print::{Namer, print_term};

/// Keeps the line of the term, in which variables are numbered anew.
///
/// Errors: want of memory, after which the events are as before.
pub(crate) fn print(
    alloc: Global,
    heap: &mut Heap,
    symbols: &Symbols,
    t: TermId,
    depth: usize,
    events: &mut Events,
) -> Result<(), AllocError>
    requires { IsValid heap.old t.index depth }
    ensures printed { OnOk result (events.new ≡ Some (line_of symbols.now (read heap.old t.index names))) }
    ensures unprinted { OnErr result (events.new ≡ events.old) }
    ensures variables { heap.new.depths ≡ heap.old.depths }
    ensures grows { Grows heap.old heap.new [] [] }
{
    let mut namer = Namer::new(alloc);
    let mut text = ByteText::new(alloc);
    print_term(alloc, heap, symbols, t, depth, &mut namer, &mut text)?;
    text.push_slice(b"\n")?;
    events.put(text);
    Ok(())
}
