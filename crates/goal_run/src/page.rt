//! The lines of an answer.

ghost use Rattle.std.specs.Prelude.{◌≡◌, ◌∷◌, [], OnOk};
ghost use Rattle.level_terms.specs.Growth.{Grows};
ghost use Rattle.level_terms.specs.Reading.{read};
ghost use Rattle.level_terms.specs.Valid.{IsValid};
ghost use Rattle.beta_fragment.specs.HeadForm.{AllValidAt, all_read};
ghost use Rattle.beta_fragment.specs.Names.{names};
ghost use Rattle.ref_terms.specs.texts.Text.{symbol};
ghost use Rattle.goal_run.specs.inside.Lines.{Adds, value_line, lines_of};

use crate::suspended::write_store;
use hyp_context::Context;
use lam_io::ByteText;
use level_terms::{Heap, TermId};
use lp_resolve::{QueryVar, Symbols};
use ref_terms::Sym;
use search_moves::Visitor;
use std::alloc::{AllocError, Global};
use suspend::Store;
use term_print::{Namer, print_term};

/// The lines that were written of an answer, over the texts of the symbols and the query's variables.
#[derive(Drop)]
pub(crate) struct Page<'p> {
    pub(crate) symbols: &'p Symbols,
    pub(crate) variables: &'p [QueryVar],
    pub(crate) namer: Namer,
    pub(crate) text: ByteText,
}

/// The text of a symbol; none where the table doesn't have it.
fn symbol_text(symbols: &Symbols, c: Sym) -> &[u8]
    ensures { result.now ≡ symbol symbols.now c.0 }
{
    if c.0 < symbols.len() {
        symbols.name_of(c)
    } else {
        &[]
    }
}

/// Writes the line of a variable, whose term this is.
fn write_value(
    alloc: Global,
    heap: &mut Heap,
    symbols: &Symbols,
    name: Sym,
    term: TermId,
    namer: &mut Namer,
    text: &mut ByteText,
) -> Result<(), AllocError>
    requires { IsValid heap.old term.index 0 }
    ensures writes { OnOk result (Adds text.old namer.old (value_line symbols.now name.0 (read heap.old term.index names)) text.new namer.new) }
    ensures grows { Grows heap.old heap.new [] [] }
{
    text.push_slice(b"  ")?;
    text.push_slice(symbol_text(symbols, name))?;
    text.push_slice(b" = ")?;
    print_term(alloc, heap, symbols, term, 0, namer, text)?;
    text.push_slice(b"\n")?;
    Ok(())
}

/// Writes the line of a variable, if it is shown.
fn write_variable(
    alloc: Global,
    heap: &mut Heap,
    symbols: &Symbols,
    variable: QueryVar,
    term: TermId,
    namer: &mut Namer,
    text: &mut ByteText,
) -> Result<(), AllocError>
    requires { IsValid heap.old term.index 0 }
    ensures writes { OnOk result (Adds text.old namer.old (lines_of symbols.now (variable ∷ []) (read heap.old term.index names ∷ [])) text.new namer.new) }
    ensures grows { Grows heap.old heap.new [] [] }
{
    if variable.shown {
        return write_value(alloc, heap, symbols, variable.name, term, namer, text);
    }
    Ok(())
}

/// Writes the lines of the shown variables.
fn write_variables(
    alloc: Global,
    heap: &mut Heap,
    symbols: &Symbols,
    variables: &[QueryVar],
    query: &[TermId],
    namer: &mut Namer,
    text: &mut ByteText,
) -> Result<(), AllocError>
    requires { AllValidAt heap.old query.now 0 }
    ensures writes { OnOk result (Adds text.old namer.old (lines_of symbols.now variables.now (all_read heap.old query.now)) text.new namer.new) }
    ensures grows { Grows heap.old heap.new [] [] }
{
    heap.is_sound();
    let mut place = 0;
    while place < variables.len() && place < query.len() {
        write_variable(
            alloc,
            heap,
            symbols,
            variables[place],
            query[place],
            namer,
            text,
        )?;
        place += 1;
    }
    Ok(())
}

impl Visitor for Page<'_> {
    ghost use Rattle.goal_run.specs.inside.Lines.{Writes};

    ghost sees = { Writes };

    fn visit(
        &mut self,
        alloc: Global,
        heap: &mut Heap,
        query: &[TermId],
        store: &Store<Context>,
    ) -> Result<(), AllocError> {
        heap.is_sound();
        write_variables(
            alloc,
            heap,
            self.symbols,
            self.variables,
            query,
            &mut self.namer,
            &mut self.text,
        )?;
        write_store(
            alloc,
            heap,
            self.symbols,
            store,
            &mut self.namer,
            &mut self.text,
        )
    }
}
