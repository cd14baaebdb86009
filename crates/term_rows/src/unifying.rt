//! Unification and matching with ample memory. The answers and the texts are by hand, from the rules.

ghost use Rattle.std.specs.Prelude.{◌≡◌, [], IfOk};
ghost use Rattle.level_terms.specs.Growth.{Grows};
ghost use Rattle.level_terms.specs.Valid.{IsValid};

use crate::builder::{Builder, expect, number};
use beta_fragment::UnifyStop;
use input_match::match_arg;
use lam_io::ByteText;
use level_terms::{Change, Heap, TermId, VarId};
use lp_resolve::Symbols;
use pattern_unify::unify;
use std::alloc::{AllocError, Global};
use std::test::Fail;
use term_print::{Namer, print_term};
use trail::Trail;

/// Two sides at a depth. Where a variable is given, the older ones are frozen.
#[derive(Clone, Copy)]
struct Problem {
    left: TermId,
    right: TermId,
    depth: usize,
    first_fresh: Option<VarId>,
}

/// A line of a table: the answer, and where that is `true` the text that both sides have then.
#[derive(Clone, Copy)]
struct Row<'a> {
    line: &'a str,
    answer: &'a str,
    text: &'a str,
}

/// The word for an answer.
fn word_of(answer: Result<bool, UnifyStop>) -> &'static str {
    match answer {
        Ok(true) => "true",
        Ok(false) => "false",
        Err(UnifyStop::Fault(fault)) => fault.name(),
        Err(UnifyStop::Memory) => "memory",
    }
}

/// Fails where the word isn't the wanted answer.
fn expect_answer(word: &str, wanted: &str, line: &str) -> Result<(), Fail> {
    if word == wanted {
        Ok(())
    } else {
        Err(Fail::new(format_args!("{word}: {line}")))
    }
}

/// The word for what the call answers.
fn answered(
    alloc: Global,
    heap: &mut Heap,
    trail: &mut Trail<Change>,
    problem: Problem,
) -> Result<&'static str, Fail>
    requires left { IsValid heap.old problem.left.index problem.depth }
    requires right { IsValid heap.old problem.right.index problem.depth }
    ensures grows { Grows heap.old heap.new trail.old.entries trail.new.entries }
{
    let Problem {
        left,
        right,
        depth,
        first_fresh,
    } = problem;
    let Some(first) = first_fresh else {
        return Ok(word_of(unify(alloc, heap, trail, left, right, depth)));
    };
    if first.index > heap.next_var().index {
        return Err(Fail::new("no such variable"));
    }
    Ok(word_of(match_arg(alloc, heap, trail, left, right, depth, first)))
}

/// The texts of both sides. Each numbers its variables by itself.
fn texts_of(
    alloc: Global,
    heap: &mut Heap,
    symbols: &Symbols,
    problem: Problem,
) -> Result<ByteText, AllocError>
    requires left { IsValid heap.old problem.left.index problem.depth }
    requires right { IsValid heap.old problem.right.index problem.depth }
    ensures grows { Grows heap.old heap.new [] [] }
{
    heap.is_sound();
    let mut out = ByteText::new(alloc);
    let mut left_namer = Namer::new(alloc);
    let mut right_namer = Namer::new(alloc);
    print_term(
        alloc,
        heap,
        symbols,
        problem.left,
        problem.depth,
        &mut left_namer,
        &mut out,
    )?;
    out.push_slice(" ≟ ".as_bytes())?;
    print_term(
        alloc,
        heap,
        symbols,
        problem.right,
        problem.depth,
        &mut right_namer,
        &mut out,
    )?;
    Ok(out)
}

/// Fails where the answer isn't the row's, or where it is `true` and the sides have other texts.
fn try_call(
    alloc: Global,
    heap: &mut Heap,
    trail: &mut Trail<Change>,
    symbols: &Symbols,
    problem: Problem,
    row: Row<'_>,
) -> Result<(), Fail>
    requires left { IsValid heap.old problem.left.index problem.depth }
    requires right { IsValid heap.old problem.right.index problem.depth }
    ensures grows { Grows heap.old heap.new trail.old.entries trail.new.entries }
{
    heap.is_sound();
    let word = answered(alloc, heap, trail, problem)?;
    expect_answer(word, row.answer, row.line)?;
    if word == "true" {
        let wanted = format!(in alloc; "{} ≟ {}", row.text, row.text)?;
        heap.is_sound();
        let texts = texts_of(alloc, heap, symbols, problem)?;
        expect(&texts, wanted.as_str(), row.line)?;
    }
    Ok(())
}

/// The same, and fails where undoing to a mark before the call leaves other texts than there were.
fn try_problem(
    alloc: Global,
    heap: &mut Heap,
    symbols: &Symbols,
    problem: Problem,
    row: Row<'_>,
) -> Result<(), Fail>
    requires left { IsValid heap.old problem.left.index problem.depth }
    requires right { IsValid heap.old problem.right.index problem.depth }
    requires unassigned { heap.old.assigned ≡ [] }
{
    let mut trail = Trail::new(alloc);
    heap.is_sound();
    let mark = heap.mark(&trail);
    let before = texts_of(alloc, heap, symbols, problem)?;
    try_call(alloc, heap, &mut trail, symbols, problem, row)?;
    heap.undo(&mut trail, mark);
    let after = texts_of(alloc, heap, symbols, problem)?;
    if !after.equals(before.as_slice()) {
        return Err(Fail::new(format_args!("not undone: {}", row.line)));
    }
    Ok(())
}

/// The problem of the two newest terms.
fn problem_of(
    builder: &mut Builder,
    depth: usize,
    first_fresh: Option<VarId>,
) -> Result<Problem, Fail>
    ensures left { IfOk result (λ p. IsValid builder.new.heap p.left.index p.depth) }
    ensures right { IfOk result (λ p. IsValid builder.new.heap p.right.index p.depth) }
{
    let right = builder.pop_at(depth)?;
    let left = builder.pop_at(depth)?;
    Ok(Problem {
        left,
        right,
        depth,
        first_fresh,
    })
}

/// Tries the problem of two terms that words make.
fn try_words(
    alloc: Global,
    depth: usize,
    left: &str,
    right: &str,
    first_fresh: Option<VarId>,
    row: Row<'_>,
) -> Result<(), Fail> {
    let mut builder = Builder::new(alloc)?;
    builder.words(depth, left)?;
    builder.words(depth, right)?;
    let problem = problem_of(&mut builder, depth, first_fresh)?;
    let Builder {
        mut heap,
        symbols,
        ..
    } = builder;
    try_problem(alloc, &mut heap, &symbols, problem, row)
}

/// Tries two terms that words make, in both orders. Swapped they may have another text.
fn try_both(
    alloc: Global,
    depth: usize,
    left: &str,
    right: &str,
    first_fresh: Option<VarId>,
    row: Row<'_>,
    swapped: &str,
) -> Result<(), Fail> {
    try_words(alloc, depth, left, right, first_fresh, row)?;
    let row = Row {
        line: row.line,
        answer: row.answer,
        text: swapped,
    };
    try_words(alloc, depth, right, left, first_fresh, row)
}

/// Tries a row of unification: a depth, the words of two sides, the answer, the text, and the text
/// for swapped sides, where that is another one.
fn try_unification(alloc: Global, line: &str) -> Result<(), Fail> {
    let mut columns = line.split('⇒');
    let front = columns.next().ok_or("no sides")?;
    let answer = columns.next().ok_or("no answer")?.trim();
    let text = columns.next().unwrap_or("").trim();
    let swapped = columns.next().unwrap_or(text).trim();
    let (depth, words) = front.split_once(' ').ok_or("no depth")?;
    let (left, right) = words.split_once('≟').ok_or("one side")?;
    let depth = number(depth)? as usize;
    let row = Row { line, answer, text };
    try_both(alloc, depth, left, right, None, row, swapped)
}

/// Tries a row of matching: a depth, the first variable that isn't frozen, the words of the pattern
/// and of the argument, the answer, and the text.
fn try_matching(alloc: Global, line: &str) -> Result<(), Fail> {
    let mut columns = line.split('⇒');
    let front = columns.next().ok_or("no sides")?;
    let answer = columns.next().ok_or("no answer")?.trim();
    let text = columns.next().unwrap_or("").trim();
    let (depth, front) = front.split_once(' ').ok_or("no depth")?;
    let (first, words) = front.split_once(' ').ok_or("no first variable")?;
    let (pattern, argument) = words.split_once('≟').ok_or("one side")?;
    let depth = number(depth)? as usize;
    let first = VarId {
        index: number(first)? as u32,
    };
    let row = Row { line, answer, text };
    try_both(alloc, depth, pattern, argument, Some(first), row, text)
}

/// Puts the term of a side last: that of its words, or where these begin with `^` that of the others,
/// inside 1,000,000 applications.
fn put_side(builder: &mut Builder, depth: usize, words: &str) -> Result<(), Fail> {
    match words.split_once('^') {
        Some((_, inner)) => builder.deep(depth, inner),
        None => builder.words(depth, words),
    }
}

/// Tries a row of deep terms: a depth, the words of two sides, and the answer.
fn try_deep(alloc: Global, line: &str) -> Result<(), Fail> {
    let (front, answer) = line.split_once('⇒').ok_or("no answer")?;
    let (depth, words) = front.split_once(' ').ok_or("no depth")?;
    let (left, right) = words.split_once('≟').ok_or("one side")?;
    let depth = number(depth)? as usize;
    let mut builder = Builder::new(alloc)?;
    put_side(&mut builder, depth, left)?;
    put_side(&mut builder, depth, right)?;
    let problem = problem_of(&mut builder, depth, None)?;
    let Builder { mut heap, .. } = builder;
    let mut trail = Trail::new(alloc);
    let word = answered(alloc, &mut heap, &mut trail, problem)?;
    expect_answer(word, answer.trim(), line)
}

/// Rows of unification.
const UNIFICATIONS: &str = r#"0 a ≟ a ⇒ true ⇒ a
0 a ≟ b ⇒ false
0 f a @1 ≟ f b @1 ⇒ false
0 f a @1 ≟ f a b @2 ⇒ false
0 f ≟ f a @1 ⇒ false
1 #0 ≟ #0 ⇒ true ⇒ #0
2 #0 ≟ #1 ⇒ false
1 #0 ≟ a ⇒ false
1 #0 a @1 ≟ #0 ?0 @1 ⇒ true ⇒ #0 a
0 7 ≟ 7 ⇒ true ⇒ 7
0 7 ≟ -7 ⇒ false
0 7 ≟ "7 ⇒ false
0 "a ≟ "a ⇒ true ⇒ "a"
0 "a ≟ "b ⇒ false
0 "a ≟ a ⇒ false
0 f 1 ?0 @2 ≟ f ?1 "1 @2 ⇒ true ⇒ f 1 "1"
0 f g ?0 @1 b @2 ≟ f g a @1 ?1 @2 ⇒ true ⇒ f (g a) b
0 f g h ?0 @1 @1 @1 ≟ f g ?1 @1 @1 ⇒ true ⇒ f (g (h ?0))
0 f ?0 ?0 @2 ≟ f a b @2 ⇒ false
0 f ?0 ?0 @2 ≟ f a a @2 ⇒ true ⇒ f a a
0 f ?0 ?1 @2 ≟ f ?1 a @2 ⇒ true ⇒ f a a
0 f a ?0 a @1 @2 ≟ f b b @2 ⇒ false
0 f ?0 a @1 a @2 ≟ f b b @2 ⇒ pattern
0 f #0 #0 @2 \0 ≟ f #0 #0 @2 \0 ⇒ true ⇒ @0\ f @0 @0
0 f #0 #0 @2 \0 ≟ f #0 a @2 \0 ⇒ false
0 f #0 #0 @2 \0 ≟ f a @1 ⇒ false
1 f #0 #1 @2 \1 ≟ f #1 #0 @2 \1 ⇒ false
0 f #0 #1 @2 \1 \0 ≟ f ⇒ true ⇒ f
0 f g #0 @1 \0 @1 ≟ f g @1 ⇒ true ⇒ f g
0 f ?0 @1 ≟ f #0 a @2 \0 ⇒ false
0 #0 \0 ≟ a ⇒ false
0 7 ≟ #0 \0 ⇒ false
0 ?0 ≟ a ⇒ true ⇒ a
0 ?0 ≟ f ?1 @1 ⇒ true ⇒ f ?0
1 ?0 #0 @1 ≟ #0 ⇒ true ⇒ #0
1 ?0 ≟ #0 ⇒ false
2 ?0 #1 #0 @2 ≟ f #0 #1 @2 ⇒ true ⇒ f #0 #1
2 ?0 #0 @1 ≟ #1 ⇒ false
2 ?0 #0 @1 ≟ f #0 #1 @2 ⇒ false
0 ?0 a @1 ≟ b ⇒ pattern
1 ?0 #0 #0 @2 ≟ #0 ⇒ pattern
0 ?0 ≟ f #0 #0 @2 \0 ⇒ true ⇒ @0\ f @0 @0
0 ?0 #0 @1 \0 ≟ f ⇒ true ⇒ f
0 f ?0 #0 @1 \0 @1 ≟ f g @1 ⇒ true ⇒ f g
1 f #1 ?0 #1 @1 @2 \1 ≟ ?1 #0 @1 ⇒ true ⇒ @0\ f @0 (?0 @0)
1 ?0 #0 @1 ≟ g ?1 #1 #0 @2 \1 @1 ⇒ true ⇒ g (@0\ ?0 @0 #0)
2 ?0 #0 @1 ≟ g ?1 #2 #1 @2 \2 @1 ⇒ true ⇒ g ?0
2 ?0 #0 @1 ≟ f ?1 #0 #1 @2 @1 ⇒ true ⇒ f (?0 #0)
3 ?0 #0 @1 ≟ f ?1 #0 #1 #2 @3 @1 ⇒ true ⇒ f (?0 #0)
2 ?0 #0 @1 ≟ f ?1 #0 #1 @2 ?1 #1 #0 @2 @2 ⇒ true ⇒ f ?0 ?0
8 ?0 ≟ f ?1 #0 #1 #2 #3 #4 #5 #6 #7 @8 @1 ⇒ true ⇒ f ?0
9 ?2 ≟ f ?1 #8 #0 #7 #6 #5 #4 #3 #2 #1 @9 a @2 ⇒ true ⇒ f (?0 #0) a
8 g ?0 ?1 #0 #1 #2 #3 #4 #5 #6 #7 @8 @2 ≟ g f ?1 #0 #1 #2 #3 #4 #5 #6 #7 @8 @1 f ?2 #1 #2 #3 #4 #5 #6 #7 @7 @1 @2 ⇒ true ⇒ g (f (f ?0)) (f ?0)
3 ?2 ≟ f ?1 ?0 a @1 b @2 ?1 #1 #2 @2 @2 ⇒ redex
2 ?0 #0 @1 ≟ f ?3 @1 ⇒ true ⇒ f (?0 #0)
1 ?0 ≟ f ?2 @1 ⇒ true ⇒ f ?0
1 ?2 ≟ f #0 @1 ⇒ true ⇒ f #0
1 ?2 a @1 ≟ f #0 @1 ⇒ pattern
2 ?2 #1 @1 ≟ f #1 #0 @2 ⇒ true ⇒ f #1 #0
2 ?2 #0 @1 ≟ f #0 @1 ⇒ pattern
2 ?2 ≟ #1 ⇒ false
2 ?3 ≟ f #1 #0 @2 ⇒ true ⇒ f #1 #0
1 ?2 ≟ f #1 #1 @2 \1 ⇒ true ⇒ @0\ f @0 @0
0 ?2 \0 ≟ f ⇒ true ⇒ f
0 ?3 \1 \0 ≟ f #0 #0 @2 \0 ⇒ true ⇒ @0\ f @0 @0
0 ?0 ≟ f ?0 @1 ⇒ false
1 ?0 #0 @1 ≟ f ?0 #0 @1 @1 ⇒ false
1 ?0 #0 @1 ≟ f ?0 a @1 @1 ⇒ false
2 ?0 #0 #1 @2 ≟ #0 ?0 #1 @1 @1 ⇒ false
1 ?2 ≟ f ?2 @1 ⇒ false
0 ?0 ≟ f ?1 ?0 @1 @1 ⇒ scope
0 ?0 ≟ ?1 f ?0 @1 @1 ⇒ scope
0 ?1 ≟ ?0 ?1 @1 ⇒ scope
1 ?0 ≟ ?1 a #0 @2 ⇒ scope
2 ?0 #0 @1 ≟ ?1 ?3 @1 ⇒ scope
0 ?0 ≟ ?0 ⇒ true ⇒ ?0
2 ?0 #0 #1 @2 ≟ ?0 #0 #1 @2 ⇒ true ⇒ ?0 #0 #1
2 ?0 #0 #1 @2 ≟ ?0 #1 #0 @2 ⇒ true ⇒ ?0
3 ?0 #0 #1 @2 ≟ ?0 #0 #2 @2 ⇒ true ⇒ ?0 #0
2 ?0 #0 @1 ≟ ?0 #0 #1 @2 ⇒ false
1 ?2 ≟ ?2 ⇒ true ⇒ ?0 #0
2 ?2 ≟ ?2 #1 @1 ⇒ false
2 ?2 #1 @1 ≟ ?2 #1 @1 ⇒ true ⇒ ?0 #0 #1
0 ?0 a @1 ≟ ?0 a @1 ⇒ pattern
1 ?0 #0 @1 ≟ ?0 a @1 ⇒ pattern
0 ?0 ≟ ?0 #0 #0 @2 \0 ⇒ pattern
0 ?0 ≟ ?1 ⇒ true ⇒ ?0
1 ?0 ≟ ?1 #0 @1 ⇒ true ⇒ ?0
2 ?0 #0 #1 @2 ≟ ?1 #1 #0 @2 ⇒ true ⇒ ?0 #0 #1 ⇒ ?0 #1 #0
3 ?0 #0 #1 @2 ≟ ?1 #2 #1 @2 ⇒ true ⇒ ?0 #1
3 ?0 #0 #1 #2 @3 ≟ ?1 #2 #0 @2 ⇒ true ⇒ ?0 #0 #2 ⇒ ?0 #2 #0
2 ?2 ≟ ?3 ⇒ true ⇒ ?0 #0
2 ?3 ≟ ?0 #1 @1 ⇒ true ⇒ ?0 #1
0 ?0 ≟ ?2 \0 ⇒ true ⇒ ?0
0 g ?0 #0 #1 @2 \1 \0 @1 ≟ g ?1 #1 #0 @2 \1 \0 @1 ⇒ true ⇒ g ?0 ⇒ g (@0\ @1\ ?0 @1 @0)
0 ?0 ≟ ?1 a @1 ⇒ true ⇒ ?0 a
1 ?0 #0 @1 ≟ ?1 a @1 ⇒ true ⇒ ?0 a
1 ?0 #0 @1 ≟ ?1 #0 a @2 ⇒ true ⇒ ?0 #0 a
0 ?0 a @1 ≟ ?1 b @1 ⇒ pattern
0 f #0 #0 @2 \0 ?1 @1 ≟ b ⇒ redex
0 f #0 #0 @2 \0 ?1 @1 ≟ ?0 ⇒ redex
0 f #0 #0 @2 \0 ?1 @1 ≟ #0 \0 ⇒ redex
0 f #0 #0 @2 \0 ?1 @1 ≟ f #0 #0 @2 \0 ?1 @1 ⇒ redex
0 ?0 ≟ g f #0 #0 @2 \0 ?1 @1 @1 ⇒ redex
0 f a f #0 #0 @2 \0 ?1 @1 @2 ≟ f b b @2 ⇒ false
2 ?0 #0 @1 ≟ g #1 f #0 #0 @2 \0 ?1 @1 @2 ⇒ false
2 ?0 #0 @1 ≟ g f #0 #0 @2 \0 ?1 @1 #1 @2 ⇒ redex
1 f #1 #1 @2 \1 #0 @1 ≟ f #0 #0 @2 ⇒ true ⇒ f #0 #0
0 f #0 #0 @2 \0 a ! ≟ f a ?0 @2 ⇒ true ⇒ f a a
0 f ?0 ?0 ?1 @1 @2 ≟ f #0 #0 @1 \0 b @2 ⇒ redex
0 f ?0 ?0 a @1 @2 ≟ f #0 #0 @1 \0 b @2 ⇒ false
0 f #0 #0 @2 \0 #0 \0 @1 ≟ b ⇒ redex
0 f #0 #0 @2 \0 ?0 a @1 @1 ≟ b ⇒ redex
0 f #0 #0 @2 \0 g a @1 @1 ≟ f g a @1 ?0 @2 ⇒ true ⇒ f (g a) (g a)
0 #0 b @1 \0 g ?1 @1 @1 ≟ g 3 b @2 ⇒ true ⇒ g 3 b
0 f #0 #0 @2 \0 "s @1 ≟ f "s "t @2 ⇒ false
0 f ?0 f #0 #0 @2 \0 ?0 @1 @2 ≟ f a f a a @2 @2 ⇒ true ⇒ f a (f a a)
0 ?0 ≟ a \0 b @1 ⇒ true ⇒ a
0 a \0 g ?0 @1 @1 ≟ ?0 ⇒ true ⇒ a
0 ?0 ≟ a \0 g ?0 @1 @1 ⇒ true ⇒ a
0 ?0 ≟ f #0 #0 @2 \0 g ?0 @1 @1 ⇒ false
0 ?0 ≟ f a \0 g ?0 @1 @1 #0 \0 @2 ⇒ true ⇒ f a (@0\ @0)
1 ?2 ≟ a \1 g ?2 @1 @1 ⇒ true ⇒ a
1 ?0 ≟ a \1 f #0 ?0 @2 @1 ⇒ true ⇒ a
1 ?0 #0 @1 ≟ f #0 a \1 g ?0 @1 @1 @2 ⇒ true ⇒ f #0 a
2 ?0 #1 @1 ≟ f #1 a \2 g ?0 @1 @1 @2 ⇒ true ⇒ f #1 a
0 f ?0 ?0 a @1 @2 ≟ f g g a @1 @2 ⇒ true ⇒ f g (g a)
0 f ?0 a @1 ?0 @2 ≟ f g a @1 g @2 ⇒ pattern"#;

/// Rows of matching.
const MATCHINGS: &str = r#"0 1 f ?1 @1 ≟ ?0 ⇒ false
0 1 ?1 ≟ ?0 ⇒ true ⇒ ?0
0 1 ?1 ≟ f ?0 @1 ⇒ true ⇒ f ?0
0 1 f ?1 ?1 @2 ≟ f ?0 ?0 @2 ⇒ true ⇒ f ?0 ?0
0 1 f ?1 ?1 @2 ≟ f a ?0 @2 ⇒ false
1 1 ?1 ≟ ?0 #0 @1 ⇒ false
1 1 ?1 #0 @1 ≟ ?0 #0 @1 ⇒ true ⇒ ?0 #0
2 1 ?1 #0 @1 ≟ ?0 #1 #0 @2 ⇒ false
2 1 ?0 #0 @1 ≟ ?0 #1 @1 ⇒ false
2 1 f ?0 #0 @1 @1 ≟ f ?0 #0 @1 @1 ⇒ true ⇒ f (?0 #0)
0 1 ?0 a @1 ≟ ?0 a @1 ⇒ true ⇒ ?0 a
0 1 ?0 a @1 ≟ ?0 ?1 @1 ⇒ true ⇒ ?0 a
0 1 ?1 ≟ ?0 ?1 @1 ⇒ false
0 1 ?1 a @1 ≟ ?0 ⇒ pattern
0 2 ?0 ≟ ?1 ⇒ false
1 1 ?2 ≟ ?0 ⇒ true ⇒ ?0
2 3 ?3 ≟ ?2 ⇒ true ⇒ ?0 #0
2 3 ?2 ≟ ?2 ⇒ true ⇒ ?0 #0
0 1 f #0 ?0 #0 @1 @2 \0 ≟ f #0 ?1 @2 \0 ⇒ false
0 1 ?1 ≟ f #0 #0 @2 \0 ?0 @1 ⇒ redex
0 1 ?1 ≟ f #0 #0 @2 \0 g ?0 @1 @1 ⇒ true ⇒ f (g ?0) (g ?0)
0 1 ?1 ≟ a \0 g ?1 @1 @1 ⇒ true ⇒ a"#;

/// Rows of unification where a side with `^` stands inside 1,000,000 applications.
const DEEP: &str = r#"0 ^ a ≟ ^ ?0 ⇒ true
0 ^ a ≟ ^ b ⇒ false
0 ?0 ≟ ^ a ⇒ true
2 ?0 #1 @1 ≟ ^ #1 ⇒ true
0 ?0 ≟ ^ ?0 ⇒ false"#;

#[test]
fn equations_have_their_answers(rt: HostRuntime) -> Result<(), Fail> {
    for line in UNIFICATIONS.lines() {
        try_unification(rt.alloc(), line)?;
    }
    Ok(())
}

#[test]
fn matches_have_their_answers(rt: HostRuntime) -> Result<(), Fail> {
    for line in MATCHINGS.lines() {
        try_matching(rt.alloc(), line)?;
    }
    Ok(())
}

#[test]
fn deep_terms_have_their_answers(rt: HostRuntime) -> Result<(), Fail> {
    for line in DEEP.lines() {
        try_deep(rt.alloc(), line)?;
    }
    Ok(())
}
