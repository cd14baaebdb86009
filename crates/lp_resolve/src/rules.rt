//! Reads constraint rules.
ghost use Rattle.std.specs.Prelude.{◌≡◌, ◌++◌, ℕ, List, flat_map, drop, map, IfOk, OnOk};
ghost use Rattle.lp_resolve.specs.Symbols.{Begins, interned_all};
ghost use Rattle.lp_resolve.specs.Texts.{texts_of};
ghost use Rattle.lp_resolve.specs.Places.{first_token};
ghost use Rattle.lp_resolve.specs.ProgramTexts.{head_texts, word_texts, pair_texts, term_texts, rule_texts};
ghost use Rattle.lp_resolve.specs.ProgramReading.{read_option, read_all, read_variable, read_tree, read_head, read_pair, read_parts, rule_with, rule_of};
ghost use Rattle.lp_resolve.specs.inside.ReadsAs.{ReadsAs};

use crate::clauses::first_token;
use crate::parts::{read_part, read_word};
use crate::placed::{PlacedHead, RuleParts};
use crate::program::{HeadTree, PairTree, RulePlaces, RuleTree};
use crate::symbols::Symbols;
use crate::variables::Variables;
use lp_parser::{AstTerm, Place, Rule, RuleHead, Word, WordPair};
use ref_terms::{Sequence, Sym, Tree};
use std::alloc::{AllocError, Global};

// The context of a head, where it has one.
fn read_context(
    context: &Option<Word>,
    symbols: &mut Symbols,
    variables: &mut Variables,
) -> Result<Option<usize>, AllocError>
    ensures begins { Begins symbols.old symbols.new }
    ensures table { OnOk result (symbols.new ≡ interned_all symbols.old (word_texts context.now)) }
    ensures read { IfOk result (λ it. ReadsAs (λ table. read_option (read_variable table)) symbols.new variables.old context.now it variables.new) }
{
    match context {
        Some(word) => Ok(Some(read_word(word, symbols, variables)?)),
        None => Ok(None),
    }
}

// The places that were met from this one on.
fn places_from(
    alloc: Global,
    variables: &Variables,
    from: usize,
) -> Result<Sequence<Place>, AllocError>
    ensures { IfOk result (λ places. places ≡ drop from variables.now.places) }
{
    let places = variables.places();
    let from = if from < places.len() {
        from
    } else {
        places.len()
    };
    Ok(Sequence::from_vec(Vec::from_slice(alloc, &places[from..])?))
}

// A head: its context stands before its goal.
fn read_head(
    alloc: Global,
    head: &RuleHead,
    symbols: &mut Symbols,
    variables: &mut Variables,
) -> Result<PlacedHead, AllocError>
    ensures begins { Begins symbols.old symbols.new }
    ensures table { OnOk result (symbols.new ≡ interned_all symbols.old (head_texts head.now)) }
    ensures read { IfOk result (λ it. ReadsAs read_head symbols.new variables.old head.now it variables.new) }
{
    let context = read_context(&head.context, symbols, variables)?;
    let first = variables.places().len();
    let goal = read_part(alloc, &head.goal, symbols, variables)?;
    let vars = places_from(alloc, variables, first)?;
    Ok(PlacedHead {
        head: HeadTree { context, goal },
        place: first_token(&head.goal),
        vars,
    })
}

// Heads, one after another.
fn read_heads(
    alloc: Global,
    heads: &[RuleHead],
    symbols: &mut Symbols,
    variables: &mut Variables,
) -> Result<Sequence<PlacedHead>, AllocError>
    ensures begins { Begins symbols.old symbols.new }
    ensures table { OnOk result (symbols.new ≡ interned_all symbols.old (flat_map head_texts heads.now)) }
    ensures read { IfOk result (λ it. ReadsAs (λ table. read_all (read_head table)) symbols.new variables.old heads.now it variables.new) }
{
    let mut read = Sequence::new(alloc);
    for head in heads {
        let it = read_head(alloc, head, symbols, variables)?;
        read.push(it)?;
    }
    Ok(read)
}

// A pair.
fn read_pair(
    pair: &WordPair,
    symbols: &mut Symbols,
    variables: &mut Variables,
) -> Result<PairTree, AllocError>
    ensures begins { Begins symbols.old symbols.new }
    ensures table { OnOk result (symbols.new ≡ interned_all symbols.old (pair_texts pair.now)) }
    ensures read { IfOk result (λ it. ReadsAs read_pair symbols.new variables.old pair.now it variables.new) }
{
    let left = read_word(&pair.left, symbols, variables)?;
    let right = read_word(&pair.right, symbols, variables)?;
    Ok(PairTree { left, right })
}

// Pairs, one after another.
fn read_pairs(
    alloc: Global,
    pairs: &[WordPair],
    symbols: &mut Symbols,
    variables: &mut Variables,
) -> Result<Sequence<PairTree>, AllocError>
    ensures begins { Begins symbols.old symbols.new }
    ensures table { OnOk result (symbols.new ≡ interned_all symbols.old (flat_map pair_texts pairs.now)) }
    ensures read { IfOk result (λ it. ReadsAs (λ table. read_all (read_pair table)) symbols.new variables.old pairs.now it variables.new) }
{
    let mut read = Sequence::new(alloc);
    for pair in pairs {
        let it = read_pair(pair, symbols, variables)?;
        read.push(it)?;
    }
    Ok(read)
}

// Tests, one after another.
fn read_tests(
    alloc: Global,
    tests: &[AstTerm],
    symbols: &mut Symbols,
    variables: &mut Variables,
) -> Result<Sequence<Tree>, AllocError>
    ensures begins { Begins symbols.old symbols.new }
    ensures table { OnOk result (symbols.new ≡ interned_all symbols.old (flat_map texts_of tests.now)) }
    ensures read { IfOk result (λ it. ReadsAs (λ table. read_all (read_tree table)) symbols.new variables.old tests.now it variables.new) }
{
    let mut read = Sequence::new(alloc);
    for test in tests {
        let it = read_part(alloc, test, symbols, variables)?;
        read.push(it)?;
    }
    Ok(read)
}

// The body, where there is one.
fn read_body(
    alloc: Global,
    body: &Option<AstTerm>,
    symbols: &mut Symbols,
    variables: &mut Variables,
) -> Result<Option<Tree>, AllocError>
    ensures begins { Begins symbols.old symbols.new }
    ensures table { OnOk result (symbols.new ≡ interned_all symbols.old (term_texts body.now)) }
    ensures read { IfOk result (λ it. ReadsAs (λ table. read_option (read_tree table)) symbols.new variables.old body.now it variables.new) }
{
    match body {
        Some(term) => Ok(Some(read_part(alloc, term, symbols, variables)?)),
        None => Ok(None),
    }
}

// The parts of a rule, from the left.
fn read_parts(
    alloc: Global,
    rule: &Rule,
    symbols: &mut Symbols,
    variables: &mut Variables,
) -> Result<RuleParts, AllocError>
    ensures begins { Begins symbols.old symbols.new }
    ensures table { OnOk result (symbols.new ≡ interned_all symbols.old (rule_texts rule.now)) }
    ensures read { IfOk result (λ it. ReadsAs read_parts symbols.new variables.old rule.now it variables.new) }
{
    let kept = read_heads(alloc, rule.kept.as_slice(), symbols, variables)?;
    let removed = read_heads(alloc, rule.removed.as_slice(), symbols, variables)?;
    let pairs = read_pairs(alloc, rule.pairs.as_slice(), symbols, variables)?;
    let tests = read_tests(alloc, rule.tests.as_slice(), symbols, variables)?;
    let body = read_body(alloc, &rule.body, symbols, variables)?;
    Ok(RuleParts {
        kept,
        removed,
        pairs,
        tests,
        body,
    })
}

// The heads alone; their places and those of their variables are put last into these lists.
fn take_apart(
    alloc: Global,
    heads: Sequence<PlacedHead>,
    places: &mut Sequence<Place>,
    vars: &mut Sequence<Sequence<Place>>,
) -> Result<Sequence<HeadTree>, AllocError>
    ensures trees { IfOk result (λ trees. trees ≡ map (λ h. h.head) heads) }
    ensures places { OnOk result (places.new ≡ places.old ++ map (λ h. h.place) heads) }
    ensures vars { OnOk result (vars.new ≡ vars.old ++ map (λ h. h.vars) heads) }
{
    let mut trees = Sequence::new(alloc);
    for placed in heads.into_vec() {
        let PlacedHead {
            head,
            place,
            vars: tokens,
        } = placed;
        trees.push(head)?;
        places.push(place)?;
        vars.push(tokens)?;
    }
    Ok(trees)
}

// The places of the left words of pairs.
fn pair_places(alloc: Global, pairs: &[WordPair]) -> Result<Sequence<Place>, AllocError>
    ensures { IfOk result (λ places. places ≡ map (λ p. p.left.place) pairs.now) }
{
    let mut places = Sequence::new(alloc);
    for pair in pairs {
        places.push(pair.left.place)?;
    }
    Ok(places)
}

// The first tokens of tests that aren't `(`.
fn test_places(alloc: Global, tests: &[AstTerm]) -> Result<Sequence<Place>, AllocError>
    ensures { IfOk result (λ places. places ≡ map first_token tests.now) }
{
    let mut places = Sequence::new(alloc);
    for test in tests {
        places.push(first_token(test))?;
    }
    Ok(places)
}

// The rule of these parts.
fn rule_with(
    alloc: Global,
    names: &[Sym],
    rule: &Rule,
    parts: RuleParts,
    vars: usize,
) -> Result<RuleTree, AllocError>
    ensures { IfOk result (λ it. it ≡ rule_with names.now rule.now parts vars) }
{
    let RuleParts {
        kept,
        removed,
        pairs,
        tests,
        body,
    } = parts;
    let mut heads = Sequence::new(alloc);
    let mut tokens = Sequence::new(alloc);
    let kept = take_apart(alloc, kept, &mut heads, &mut tokens)?;
    let removed = take_apart(alloc, removed, &mut heads, &mut tokens)?;
    let places = RulePlaces {
        rule: rule.place,
        heads,
        vars: tokens,
        pairs: pair_places(alloc, rule.pairs.as_slice())?,
        tests: test_places(alloc, rule.tests.as_slice())?,
    };
    Ok(RuleTree {
        names: Sequence::from_vec(Vec::from_slice(alloc, names)?),
        vars,
        kept,
        removed,
        pairs,
        tests,
        body,
        places,
    })
}

/// The rule of a block with these names that a rule of the text is read as.
///
/// Errors: want of memory.
pub(crate) fn read_rule(
    alloc: Global,
    names: &[Sym],
    rule: &Rule,
    symbols: &mut Symbols,
) -> Result<RuleTree, AllocError>
    ensures begins { Begins symbols.old symbols.new }
    ensures table { OnOk result (symbols.new ≡ interned_all symbols.old (rule_texts rule.now)) }
    ensures rule { IfOk result (λ it. (later : List (List ℕ)) → Begins symbols.new later → it ≡ rule_of later names.now rule.now) }
{
    let mut variables = Variables::new(alloc);
    let parts = read_parts(alloc, rule, symbols, &mut variables)?;
    let it = rule_with(alloc, names, rule, parts, variables.len())?;
    Ok(it)
}
