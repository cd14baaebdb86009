//! Terms and variables as the parts of clauses and rules.
ghost use Rattle.std.specs.Prelude.{◌≡◌, [], ◌∷◌, IfOk, OnOk};
ghost use Rattle.lp_resolve.specs.Symbols.{Begins, interned_all};
ghost use Rattle.lp_resolve.specs.Texts.{texts_of};
ghost use Rattle.lp_resolve.specs.ProgramReading.{read_tree, read_variable};
ghost use Rattle.lp_resolve.specs.inside.ReadsAs.{ReadsAs};

use crate::read::{read_term, read_variable};
use crate::symbols::Symbols;
use crate::variables::Variables;
use lp_parser::{AstTerm, Word};
use ref_terms::Tree;
use std::alloc::{AllocError, Global};

/// The tree of a term, over this table and each later one.
pub(crate) fn read_part(
    alloc: Global,
    term: &AstTerm,
    symbols: &mut Symbols,
    variables: &mut Variables,
) -> Result<Tree, AllocError>
    ensures begins { Begins symbols.old symbols.new }
    ensures table { OnOk result (symbols.new ≡ interned_all symbols.old (texts_of term.now)) }
    ensures read { IfOk result (λ tree. ReadsAs read_tree symbols.new variables.old term.now tree variables.new) }
{
    let tree = read_term(alloc, term, symbols, variables)?;
    Ok(tree)
}

/// The number of a variable that stands outside a term, over this table and each later one.
pub(crate) fn read_word(
    word: &Word,
    symbols: &mut Symbols,
    variables: &mut Variables,
) -> Result<usize, AllocError>
    ensures begins { Begins symbols.old symbols.new }
    ensures table { OnOk result (symbols.new ≡ interned_all symbols.old (word.now.text ∷ [])) }
    ensures read { IfOk result (λ number. ReadsAs read_variable symbols.new variables.old word.now number variables.new) }
{
    let number = read_variable(word, symbols, variables)?;
    Ok(number)
}
