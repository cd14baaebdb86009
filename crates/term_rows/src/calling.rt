//! Calls of built-ins with ample memory. The answers and the texts are by hand, from the rules.

ghost use Rattle.std.specs.Prelude.{◌≡◌, [], IfOk};
ghost use Rattle.level_terms.specs.Growth.{Grows};
ghost use Rattle.level_terms.specs.Valid.{IsValid};

use crate::builder::{Builder, expect, number};
use beta_fragment::UnifyStop;
use builtins::{Events, call_builtin};
use goal_form::{GoalKind, goal_kind_of};
use lam_io::ByteText;
use level_terms::{Change, Heap, TermId};
use lp_resolve::Symbols;
use std::alloc::{AllocError, Global};
use std::test::Fail;
use term_print::{Namer, print_term};
use trail::Trail;

/// A line of a table: the answer, and where that is `true` the text of the goal and the printed line.
#[derive(Clone, Copy)]
struct Row<'a> {
    line: &'a str,
    answer: &'a str,
    text: &'a str,
    printed: &'a str,
}

/// The word for an answer.
fn word_of(answer: Result<bool, UnifyStop>) -> &'static str {
    match answer {
        Ok(true) => "true",
        Ok(false) => "false",
        Err(UnifyStop::Fault(fault)) => fault.name(),
        Err(UnifyStop::Memory) => "memory",
    }
}

/// Fails where the word isn't the wanted answer.
fn expect_answer(word: &str, wanted: &str, line: &str) -> Result<(), Fail> {
    if word == wanted {
        Ok(())
    } else {
        Err(Fail::new(format_args!("{word}: {line}")))
    }
}

/// The word for what the goal answers.
fn answered(
    alloc: Global,
    heap: &mut Heap,
    trail: &mut Trail<Change>,
    symbols: &Symbols,
    goal: TermId,
    depth: usize,
    events: &mut Events,
) -> Result<&'static str, Fail>
    requires { IsValid heap.old goal.index depth }
    ensures grows { Grows heap.old heap.new trail.old.entries trail.new.entries }
{
    heap.is_sound();
    let kind = goal_kind_of(alloc, heap, goal, depth)?;
    match kind {
        GoalKind::Builtin(builtin, args) => Ok(word_of(call_builtin(
            alloc,
            heap,
            trail,
            symbols,
            builtin,
            args.as_slice(),
            depth,
            events,
        ))),
        GoalKind::Wrong(fault) => Ok(fault.name()),
        _ => Err(Fail::new("no built-in")),
    }
}

/// The text of the goal.
fn text_of(
    alloc: Global,
    heap: &mut Heap,
    symbols: &Symbols,
    goal: TermId,
    depth: usize,
) -> Result<ByteText, AllocError>
    requires { IsValid heap.old goal.index depth }
    ensures grows { Grows heap.old heap.new [] [] }
{
    let mut out = ByteText::new(alloc);
    let mut namer = Namer::new(alloc);
    print_term(alloc, heap, symbols, goal, depth, &mut namer, &mut out)?;
    Ok(out)
}

/// Fails where another line is printed than the row has.
fn expect_printed(alloc: Global, events: &mut Events, row: Row<'_>) -> Result<(), Fail> {
    match events.take() {
        Some(text) => {
            let wanted = format!(in alloc; "{}\n", row.printed)?;
            expect(&text, wanted.as_str(), row.line)
        }
        None => expect_answer("", row.printed, row.line),
    }
}

/// Fails where the answer isn't the row's, or where it is `true` and the goal has another text then,
/// or where another line is printed.
fn try_call(
    alloc: Global,
    heap: &mut Heap,
    trail: &mut Trail<Change>,
    symbols: &Symbols,
    goal: TermId,
    depth: usize,
    row: Row<'_>,
) -> Result<(), Fail>
    requires { IsValid heap.old goal.index depth }
    ensures grows { Grows heap.old heap.new trail.old.entries trail.new.entries }
{
    heap.is_sound();
    let mut events = Events::new();
    let word = answered(alloc, heap, trail, symbols, goal, depth, &mut events)?;
    expect_answer(word, row.answer, row.line)?;
    expect_printed(alloc, &mut events, row)?;
    if word != "true" {
        return Ok(());
    }
    heap.is_sound();
    let text = text_of(alloc, heap, symbols, goal, depth)?;
    expect(&text, row.text, row.line)
}

/// The same, and fails where undoing to a mark before the call leaves another text than there was.
fn try_goal(
    alloc: Global,
    heap: &mut Heap,
    symbols: &Symbols,
    goal: TermId,
    depth: usize,
    row: Row<'_>,
) -> Result<(), Fail>
    requires valid { IsValid heap.old goal.index depth }
    requires unassigned { heap.old.assigned ≡ [] }
{
    let mut trail = Trail::new(alloc);
    heap.is_sound();
    let mark = heap.mark(&trail);
    let before = text_of(alloc, heap, symbols, goal, depth)?;
    try_call(alloc, heap, &mut trail, symbols, goal, depth, row)?;
    heap.undo(&mut trail, mark);
    let after = text_of(alloc, heap, symbols, goal, depth)?;
    if !after.equals(before.as_slice()) {
        return Err(Fail::new(format_args!("not undone: {}", row.line)));
    }
    Ok(())
}

/// Tries the newest term as a goal.
fn try_newest(mut builder: Builder, depth: usize, row: Row<'_>) -> Result<(), Fail> {
    let goal = builder.pop_at(depth)?;
    let Builder {
        alloc,
        mut heap,
        symbols,
        ..
    } = builder;
    try_goal(alloc, &mut heap, &symbols, goal, depth, row)
}

/// Tries a row: a depth, the words of a goal, the answer, the text of the goal then, and the line
/// that is printed.
fn try_row(alloc: Global, line: &str) -> Result<(), Fail> {
    let mut columns = line.split('⇒');
    let front = columns.next().ok_or("no goal")?;
    let answer = columns.next().ok_or("no answer")?.trim();
    let text = columns.next().unwrap_or("").trim();
    let printed = columns.next().unwrap_or("").trim();
    let (depth, words) = front.split_once(' ').ok_or("no depth")?;
    let depth = number(depth)? as usize;
    let mut builder = Builder::new(alloc)?;
    builder.words(depth, words)?;
    let row = Row {
        line,
        answer,
        text,
        printed,
    };
    try_newest(builder, depth, row)
}

/// Rows of unification, equality and tests.
const QUESTIONS: &str = r#"0 = ?0 a @2 ⇒ true ⇒ a = a
0 = a b @2 ⇒ false
0 = ?0 a @1 b @2 ⇒ pattern
0 = f #0 #0 @2 \0 ?1 @1 b @2 ⇒ redex
0 = ?0 f ?1 ?0 @1 @1 @2 ⇒ scope
1 = ?0 #0 @2 ⇒ false
1 = ?0 #0 @1 f #0 @1 @2 ⇒ true ⇒ (f #0) = (f #0)
0 = a @1 ⇒ arity
0 = a a a @3 ⇒ arity
0 same a a @2 ⇒ true ⇒ same a a
0 same a b @2 ⇒ false
0 same 7 7 @2 ⇒ true ⇒ same 7 7
0 same 7 "7 @2 ⇒ false
0 same "a "a @2 ⇒ true ⇒ same "a" "a"
0 same ?0 ?0 @2 ⇒ true ⇒ same ?0 ?0
0 same ?0 ?1 @2 ⇒ false
0 same ?0 a @2 ⇒ false
1 same #0 #0 @2 ⇒ true ⇒ same #0 #0
2 same #0 #1 @2 ⇒ false
0 same f ?0 @1 f ?0 @1 @2 ⇒ true ⇒ same (f ?0) (f ?0)
0 same f #0 @1 \0 f @2 ⇒ true ⇒ same f f
0 same f #0 #0 @2 \0 f #0 #0 @2 \0 @2 ⇒ true ⇒ same (@0\ f @0 @0) (@0\ f @0 @0)
0 same f #0 #0 @2 \0 f #0 a @2 \0 @2 ⇒ false
0 same f #0 #0 @2 \0 ?0 @1 f #0 #0 @2 \0 ?0 @1 @2 ⇒ true ⇒ same ((@0\ f @0 @0) ?0) ((@0\ f @0 @0) ?0)
0 same f #0 #0 @2 \0 ?0 @1 f #0 #0 @2 \0 ?1 @1 @2 ⇒ false
0 var ?0 @1 ⇒ true ⇒ var ?0
0 var ?0 a @1 @1 ⇒ true ⇒ var (?0 a)
0 var ?0 #0 @1 \0 @1 ⇒ true ⇒ var ?0
0 var ?0 #0 #0 @2 \0 @1 ⇒ false
0 var a @1 ⇒ false
0 var f ?0 @1 @1 ⇒ false
0 var 7 @1 ⇒ false
0 var "a @1 ⇒ false
1 var #0 @1 ⇒ false
0 var f #0 #0 @2 \0 ?0 @1 @1 ⇒ false
0 var ⇒ arity
0 var ?0 ?0 @2 ⇒ arity
1 name #0 @1 ⇒ true ⇒ name #0
1 name #0 a @1 @1 ⇒ false
0 name a @1 ⇒ false
0 name 7 @1 ⇒ false
0 name "a @1 ⇒ false
0 name ?0 @1 ⇒ false
1 name ?2 @1 ⇒ false
1 name f #1 #0 @2 \1 @1 ⇒ false
1 name f #1 #1 @2 \1 ?0 @1 @1 ⇒ false
1 name #1 \1 #0 ! @1 ⇒ true ⇒ name #0"#;

/// Rows of integers and expressions.
const NUMBERS: &str = r#"0 lt 1 2 @2 ⇒ true ⇒ lt 1 2
0 lt 2 2 @2 ⇒ false
0 lt 2 1 @2 ⇒ false
0 lt -1 0 @2 ⇒ true ⇒ lt -1 0
0 lt -9223372036854775808 9223372036854775807 @2 ⇒ true ⇒ lt -9223372036854775808 9223372036854775807
0 lt 9223372036854775807 -9223372036854775808 @2 ⇒ false
0 lt a 2 @2 ⇒ number
0 lt 1 ?0 @2 ⇒ number
0 lt "1 2 @2 ⇒ number
1 lt #0 2 @2 ⇒ number
0 lt 1 f a @1 @2 ⇒ number
0 lt 1 2 a @1 @2 ⇒ number
0 lt + 1 1 @2 3 @2 ⇒ number
0 lt f #0 #0 @2 \0 1 @2 ⇒ number
0 lt f #0 #0 @2 \0 ?0 @1 1 @2 ⇒ redex
0 lt 1 f #0 #0 @2 \0 ?0 @1 @2 ⇒ redex
0 lt a f #0 #0 @2 \0 ?0 @1 @2 ⇒ number
0 lt f #0 #0 @2 \0 ?0 @1 a @2 ⇒ redex
0 lt 1 @1 ⇒ arity
0 is ?0 7 @2 ⇒ true ⇒ 7 is 7
0 is 7 7 @2 ⇒ true ⇒ 7 is 7
0 is a 7 @2 ⇒ false
0 is ?0 + 1 2 @2 @2 ⇒ true ⇒ 3 is (1 + 2)
0 is 4 + 1 2 @2 @2 ⇒ false
0 is ?0 - 1 2 @2 @2 ⇒ true ⇒ -1 is (1 - 2)
0 is ?0 * 6 7 @2 @2 ⇒ true ⇒ 42 is (6 * 7)
0 is ?0 + * 2 3 @2 - 10 4 @2 @2 @2 ⇒ true ⇒ 12 is ((2 * 3) + (10 - 4))
0 is ?0 - 10 - 4 3 @2 @2 @2 ⇒ true ⇒ 9 is (10 - (4 - 3))
1 is ?0 #0 @1 7 @2 ⇒ true ⇒ 7 is 7
0 is ?0 #0 \0 3 @1 @2 ⇒ true ⇒ 3 is 3
0 is ?0 + 9223372036854775806 1 @2 @2 ⇒ true ⇒ 9223372036854775807 is (9223372036854775806 + 1)
0 is ?0 + 9223372036854775807 1 @2 @2 ⇒ number
0 is ?0 - -9223372036854775807 1 @2 @2 ⇒ true ⇒ -9223372036854775808 is (-9223372036854775807 - 1)
0 is ?0 - -9223372036854775808 1 @2 @2 ⇒ number
0 is ?0 - 0 -9223372036854775808 @2 @2 ⇒ number
0 is ?0 * -4611686018427387904 2 @2 @2 ⇒ true ⇒ -9223372036854775808 is (-4611686018427387904 * 2)
0 is ?0 * 4611686018427387904 2 @2 @2 ⇒ number
0 is ?0 * -9223372036854775808 -1 @2 @2 ⇒ number
0 is ?0 - + 9223372036854775807 1 @2 1 @2 @2 ⇒ number
0 is ?0 a @2 ⇒ number
0 is ?0 ?1 @2 ⇒ number
0 is ?0 "1 @2 ⇒ number
1 is ?0 #0 @2 ⇒ number
0 is ?0 + @2 ⇒ number
0 is ?0 + 1 @1 @2 ⇒ number
0 is ?0 + 1 2 3 @3 @2 ⇒ number
0 is ?0 f 1 2 @2 @2 ⇒ number
0 is ?0 ?1 1 2 @2 @2 ⇒ number
1 is ?0 #0 1 2 @2 @2 ⇒ number
0 is ?0 1 2 @1 @2 ⇒ number
0 is ?0 f #0 #0 @2 \0 @2 ⇒ number
0 is ?0 f #0 #0 @2 \0 ?1 @1 @2 ⇒ redex
0 is ?0 + a f #0 #0 @2 \0 ?1 @1 @2 @2 ⇒ number
0 is ?0 + f #0 #0 @2 \0 ?1 @1 a @2 @2 ⇒ redex
0 is ?0 + + 9223372036854775807 1 @2 f #0 #0 @2 \0 ?1 @1 @2 @2 ⇒ number
0 is ?0 + f #0 #0 @2 \0 ?1 @1 + 9223372036854775807 1 @2 @2 @2 ⇒ redex
0 is ?0 * 9223372036854775807 + 2 a @2 @2 @2 ⇒ number
0 is ?0 a @1 7 @2 ⇒ pattern
0 is ?0 a @1 b @2 ⇒ number
0 is f #0 #0 @2 \0 ?0 @1 7 @2 ⇒ redex
0 is ?0 7 8 @3 ⇒ arity"#;

/// Rows of printing and of application.
const OTHERS: &str = r#"0 print a @1 ⇒ true ⇒ print a ⇒ a
0 print -7 @1 ⇒ true ⇒ print -7 ⇒ -7
0 print "a"b @1 ⇒ true ⇒ print "a\"b" ⇒ "a\"b"
0 print ?1 @1 ⇒ true ⇒ print ?0 ⇒ ?0
0 print f ?1 ?0 ?1 @3 @1 ⇒ true ⇒ print (f ?0 ?1 ?0) ⇒ f ?0 ?1 ?0
1 print #0 @1 ⇒ true ⇒ print #0 ⇒ #0
0 print , a b @2 @1 ⇒ true ⇒ print (a , b) ⇒ a , b
0 print f #0 #0 @2 \0 @1 ⇒ true ⇒ print (@0\ f @0 @0) ⇒ @0\ f @0 @0
1 print f #1 #0 @2 \1 @1 ⇒ true ⇒ print (@0\ f @0 #0) ⇒ @0\ f @0 #0
0 print f #0 #0 @2 \0 ?0 @1 @1 ⇒ true ⇒ print ((@0\ f @0 @0) ?0) ⇒ (@0\ f @0 @0) ?0
0 print ⇒ arity
0 print a b @2 ⇒ arity
0 beta f #0 #0 @2 \0 a ?0 @3 ⇒ true ⇒ beta (@0\ f @0 @0) a (f a a)
0 beta f #0 #0 @2 \0 ?1 ?0 @3 ⇒ true ⇒ beta (@0\ f @0 @0) ?0 (f ?0 ?0)
0 beta f #0 #0 @2 \0 g ?1 @1 ?0 @3 ⇒ true ⇒ beta (@0\ f @0 @0) (g ?0) (f (g ?0) (g ?0))
0 beta f #0 #0 @2 \0 a f a b @2 @3 ⇒ false
0 beta f #0 #0 @2 \0 a f a a @2 @3 ⇒ true ⇒ beta (@0\ f @0 @0) a (f a a)
0 beta #0 a @1 \0 f #0 #0 @2 \0 ?0 @3 ⇒ true ⇒ beta (@0\ @0 a) (@0\ f @0 @0) (f a a)
1 beta f #1 #0 @2 \1 #0 f #0 #0 @2 @3 ⇒ true ⇒ beta (@0\ f @0 #0) #0 (f #0 #0)
0 beta f a ?0 @3 ⇒ true ⇒ beta f a (f a)
0 beta f b @1 a ?0 @3 ⇒ true ⇒ beta (f b) a (f b a)
0 beta 7 a ?0 @3 ⇒ true ⇒ beta 7 a (7 a)
0 beta "s a ?0 @3 ⇒ true ⇒ beta "s" a ("s" a)
1 beta #0 a f #0 @1 @3 ⇒ false
0 beta ?1 a ?0 @3 ⇒ true ⇒ beta ?0 a (?0 a)
0 beta ?1 a b @3 ⇒ pattern
0 beta f #0 #0 @2 \0 ?1 @1 a ?0 @3 ⇒ redex
0 beta a b @2 ⇒ arity
0 beta a b c d @4 ⇒ arity"#;

/// Tries whether a number is the sum of 1,000,000 ones, whose sums stand inside each other on one side.
fn try_sum(alloc: Global, value: &str, is_left: bool, wanted: &str) -> Result<(), Fail> {
    let mut builder = Builder::new(alloc)?;
    builder.constant("is")?;
    builder.words(0, value)?;
    builder.deep_sum(is_left)?;
    builder.application(2)?;
    let goal = builder.pop_at(0)?;
    let Builder {
        mut heap,
        symbols,
        ..
    } = builder;
    let mut trail = Trail::new(alloc);
    let mut events = Events::new();
    let word = answered(alloc, &mut heap, &mut trail, &symbols, goal, 0, &mut events)?;
    expect_answer(word, wanted, "a deep sum")
}

/// Tries each line of a table.
fn try_rows(alloc: Global, table: &str) -> Result<(), Fail> {
    for line in table.lines() {
        try_row(alloc, line)?;
    }
    Ok(())
}

#[test]
fn built_ins_that_ask(rt: HostRuntime) -> Result<(), Fail> {
    try_rows(rt.alloc(), QUESTIONS)
}

#[test]
fn built_ins_with_integers(rt: HostRuntime) -> Result<(), Fail> {
    try_rows(rt.alloc(), NUMBERS)
}

#[test]
fn built_ins_that_print_and_apply(rt: HostRuntime) -> Result<(), Fail> {
    try_rows(rt.alloc(), OTHERS)
}

#[test]
fn deep_sums_have_values(rt: HostRuntime) -> Result<(), Fail> {
    try_sum(rt.alloc(), "1000000", true, "true")?;
    try_sum(rt.alloc(), "1000000", false, "true")?;
    try_sum(rt.alloc(), "999999", false, "false")
}
