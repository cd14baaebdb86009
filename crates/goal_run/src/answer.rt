//! The head of an answer.

ghost use Rattle.std.specs.Prelude.{◌≡◌, IfOk};
ghost use Rattle.std.specs.String.{string_bytes};
ghost use Rattle.goal_run.specs.inside.Heading.{heading, HasHeading};

use crate::page::Page;
use lam_io::ByteText;
use lp_resolve::{QueryVar, Symbols};
use std::alloc::{AllocError, Global};
use term_print::Namer;

/// The first line of the answer with this number.
fn heading(alloc: Global, number: u64) -> Result<String, AllocError>
    ensures { IfOk result (λ text. string_bytes text ≡ heading number) }
{
    format!(in alloc; "answer {number}\n")
}

/// A page with the first line of the answer with this number.
pub(crate) fn begin_page<'p>(
    alloc: Global,
    symbols: &'p Symbols,
    variables: &'p [QueryVar],
    number: u64,
) -> Result<Page<'p>, AllocError>
    ensures { IfOk result (HasHeading symbols.now variables.now number) }
{
    let line = heading(alloc, number)?;
    let text = ByteText::from_slice(alloc, line.as_bytes())?;
    Ok(Page {
        symbols,
        variables,
        namer: Namer::new(alloc),
        text,
    })
}

impl Page<'_> {
    /// What was written. Takes no memory.
    pub(crate) fn into_text(self) -> ByteText
        ensures { result ≡ self.entry.text }
    {
        self.text
    }
}
