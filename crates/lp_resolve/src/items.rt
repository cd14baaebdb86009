//! Reads the items of a program.
ghost use Rattle.std.specs.Prelude.{◌≡◌, [], ◌∷◌, ◌++◌, ℕ, List, flat_map, map, IfOk, OnOk};
ghost use Rattle.lp_resolve.specs.Symbols.{Begins, interned_all};
ghost use Rattle.lp_resolve.specs.ProgramTexts.{rule_texts, decl_texts, block_texts, item_texts, program_texts};
ghost use Rattle.lp_resolve.specs.ProgramReading.{symbol_of, lines_of, rule_of, block_rules, item_lines, item_clauses, item_rules};

use crate::clauses::read_clause;
use crate::program::{ClauseTree, PredLine, RuleTree};
use crate::rules::read_rule;
use crate::symbols::Symbols;
use lp_parser::{AstArg, Block, Decl, Item, Rule, Word};
use ref_terms::{Sequence, Sym};
use std::alloc::{AllocError, Global};

// The symbol of a word.
fn read_symbol(word: &Word, symbols: &mut Symbols) -> Result<Sym, AllocError>
    ensures begins { Begins symbols.old symbols.new }
    ensures table { OnOk result (symbols.new ≡ interned_all symbols.old (word.now.text ∷ [])) }
    ensures symbol { IfOk result (λ it. (later : List (List ℕ)) → Begins symbols.new later → it ≡ symbol_of later word.now) }
{
    let symbol = symbols.intern(word.text.as_slice())?;
    Ok(symbol)
}

// The symbols of words.
fn read_names(alloc: Global, words: &[Word], symbols: &mut Symbols) -> Result<Vec<Sym>, AllocError>
    ensures begins { Begins symbols.old symbols.new }
    ensures table { OnOk result (symbols.new ≡ interned_all symbols.old (map (λ w. w.text) words.now)) }
    ensures names { IfOk result (λ it. (later : List (List ℕ)) → Begins symbols.new later → it.items ≡ map (symbol_of later) words.now) }
{
    let mut names = Vec::new(alloc);
    for word in words {
        let name = read_symbol(word, symbols)?;
        names.push(name)?;
    }
    Ok(names)
}

// For each argument whether it is an input.
fn inputs_of(alloc: Global, args: &[AstArg]) -> Result<Sequence<bool>, AllocError>
    ensures { IfOk result (λ inputs. inputs ≡ map (λ a. a.input) args.now) }
{
    let mut inputs = Sequence::new(alloc);
    for arg in args {
        inputs.push(arg.input)?;
    }
    Ok(inputs)
}

// The declaration of a predicate is put last.
fn read_decl(
    alloc: Global,
    decl: &Decl,
    symbols: &mut Symbols,
    lines: &mut Sequence<PredLine>,
) -> Result<(), AllocError>
    ensures begins { Begins symbols.old symbols.new }
    ensures table { OnOk result (symbols.new ≡ interned_all symbols.old (decl_texts decl.now)) }
    ensures lines { OnOk result ((later : List (List ℕ)) → Begins symbols.new later → lines.new ≡ lines.old ++ lines_of later decl.now) }
{
    match decl {
        Decl::KindDecl(_, _) => Ok(()),
        Decl::TypeDecl(_, _) => Ok(()),
        Decl::PredDecl(name, args) => {
            let symbol = read_symbol(name, symbols)?;
            let inputs = inputs_of(alloc, args.as_slice())?;
            lines.push(PredLine {
                name: symbol,
                place: name.place,
                inputs,
            })?;
            Ok(())
        }
    }
}

// The rules of a block with these names are put last.
fn read_rules(
    alloc: Global,
    names: &[Sym],
    read: &[Rule],
    symbols: &mut Symbols,
    rules: &mut Sequence<RuleTree>,
) -> Result<(), AllocError>
    ensures begins { Begins symbols.old symbols.new }
    ensures table { OnOk result (symbols.new ≡ interned_all symbols.old (flat_map rule_texts read.now)) }
    ensures rules { OnOk result ((later : List (List ℕ)) → Begins symbols.new later → rules.new ≡ rules.old ++ map (rule_of later names.now) read.now) }
{
    for rule in read {
        let it = read_rule(alloc, names, rule, symbols)?;
        rules.push(it)?;
    }
    Ok(())
}

// The rules of a block are put last.
fn read_block(
    alloc: Global,
    block: &Block,
    symbols: &mut Symbols,
    rules: &mut Sequence<RuleTree>,
) -> Result<(), AllocError>
    ensures begins { Begins symbols.old symbols.new }
    ensures table { OnOk result (symbols.new ≡ interned_all symbols.old (block_texts block.now)) }
    ensures rules { OnOk result ((later : List (List ℕ)) → Begins symbols.new later → rules.new ≡ rules.old ++ block_rules later block.now) }
{
    let names = read_names(alloc, block.names.as_slice(), symbols)?;
    read_rules(
        alloc,
        names.as_slice(),
        block.rules.as_slice(),
        symbols,
        rules,
    )?;
    Ok(())
}

/// What items make, in the order of the text.
#[derive(Debug, Drop)]
pub(crate) struct ItemLists {
    pub(crate) lines: Sequence<PredLine>,
    pub(crate) clauses: Sequence<ClauseTree>,
    pub(crate) rules: Sequence<RuleTree>,
}

// What an item makes is put last.
fn read_item(
    alloc: Global,
    item: &Item,
    symbols: &mut Symbols,
    lists: &mut ItemLists,
) -> Result<(), AllocError>
    ensures begins { Begins symbols.old symbols.new }
    ensures table { OnOk result (symbols.new ≡ interned_all symbols.old (item_texts item.now)) }
    ensures lines { OnOk result ((later : List (List ℕ)) → Begins symbols.new later → lists.new.lines ≡ lists.old.lines ++ item_lines later item.now) }
    ensures clauses { OnOk result ((later : List (List ℕ)) → Begins symbols.new later → lists.new.clauses ≡ lists.old.clauses ++ item_clauses later item.now) }
    ensures rules { OnOk result ((later : List (List ℕ)) → Begins symbols.new later → lists.new.rules ≡ lists.old.rules ++ item_rules later item.now) }
{
    match item {
        Item::Decl(decl) => {
            read_decl(alloc, decl, symbols, &mut lists.lines)?;
            Ok(())
        }
        Item::Clause(clause) => {
            let it = read_clause(alloc, clause, symbols)?;
            lists.clauses.push(it)?;
            Ok(())
        }
        Item::Block(block) => {
            read_block(alloc, block, symbols, &mut lists.rules)?;
            Ok(())
        }
    }
}

/// What the items make.
///
/// Errors: want of memory.
pub(crate) fn read_items(
    alloc: Global,
    items: &[Item],
    symbols: &mut Symbols,
) -> Result<ItemLists, AllocError>
    ensures begins { Begins symbols.old symbols.new }
    ensures table { OnOk result (symbols.new ≡ interned_all symbols.old (program_texts items.now)) }
    ensures lines { IfOk result (λ it. it.lines ≡ flat_map (item_lines symbols.new) items.now) }
    ensures clauses { IfOk result (λ it. it.clauses ≡ flat_map (item_clauses symbols.new) items.now) }
    ensures rules { IfOk result (λ it. it.rules ≡ flat_map (item_rules symbols.new) items.now) }
{
    let mut lists = ItemLists {
        lines: Sequence::new(alloc),
        clauses: Sequence::new(alloc),
        rules: Sequence::new(alloc),
    };
    for item in items {
        read_item(alloc, item, symbols, &mut lists)?;
    }
    Ok(lists)
}
