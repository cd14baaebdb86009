//! Printed forms with ample memory. The texts are by hand.

ghost use Rattle.std.specs.Prelude.{◌≡◌, [], IfOk};
ghost use Rattle.level_terms.specs.Valid.{IsValid};

use crate::builder::{Builder, expect, number};
use lam_io::ByteText;
use level_terms::{Change, Heap, TermId};
use lp_resolve::Symbols;
use ref_terms::Sym;
use std::alloc::{AllocError, Global};
use std::test::Fail;
use term_print::{Namer, print_term};
use trail::Trail;

/// The depth of a line, its words, and the text that is wanted of them.
fn columns(line: &str) -> Result<(usize, &str, &str), Fail> {
    let (front, wanted) = line.split_once('⇒').ok_or("no arrow")?;
    let (depth, words) = front.split_once(' ').ok_or("no depth")?;
    Ok((number(depth)? as usize, words, wanted.trim()))
}

/// A term of a line is printed as the line says.
fn try_term(alloc: Global, line: &str) -> Result<(), Fail> {
    let (depth, words, wanted) = columns(line)?;
    let mut builder = Builder::new(alloc)?;
    builder.words(depth, words)?;
    let shown = builder.term(depth)?;
    expect(&shown, wanted, line)
}

/// A sequent of a line is printed as the line says.
fn try_sequent(alloc: Global, line: &str) -> Result<(), Fail> {
    let (depth, words, wanted) = columns(line)?;
    let mut builder = Builder::new(alloc)?;
    builder.words(depth, words)?;
    let shown = builder.sequent(depth)?;
    expect(&shown, wanted, line)
}

/// The depth, the words of a term, and its text.
const TERMS: &str = r#"0 #1 #0 @1 \1 \0 ⇒ @0\ @1\ @1 @0
0 f #0 @1 \0 ⇒ f
0 f #0 #0 @2 \0 a ! ⇒ f a a
0 f ⇒ f
0 f g a @1 b @2 ⇒ f (g a) b
0 f #0 #0 @1 \0 @1 ⇒ f (@0\ @0 @0)
0 é "é @1 ⇒ é "é"
1 #0 ⇒ #0
12 #11 ⇒ #11
3 #2 #0 #1 @2 ⇒ #2 #0 #1
1 f #0 a @1 @1 ⇒ f (#0 a)
2 #2 #0 @1 \2 ⇒ @0\ @0 #0
2 f #2 #1 @2 \2 ⇒ @0\ f @0 #1
2 f #2 #1 @2 \2 #0 @1 ⇒ f #0 #1
0 g , , a b @2 , c d @2 @2 , a @1 , a b c @3 @3 ⇒ g ((a , b) , (c , d)) (, a) (, a b c)
0 g ; ; a b @2 ; c d @2 @2 ; a @1 ; a b c @3 @3 ⇒ g ((a ; b) ; (c ; d)) (; a) (; a b c)
0 g => => a b @2 => c d @2 @2 => a @1 => a b c @3 @3 ⇒ g ((a => b) => (c => d)) (=> a) (=> a b c)
0 g :- :- a b @2 :- c d @2 @2 :- a @1 :- a b c @3 @3 ⇒ g ((a :- b) :- (c :- d)) (:- a) (:- a b c)
0 g = = a b @2 = c d @2 @2 = a @1 = a b c @3 @3 ⇒ g ((a = b) = (c = d)) (= a) (= a b c)
0 g is is a b @2 is c d @2 @2 is a @1 is a b c @3 @3 ⇒ g ((a is b) is (c is d)) (is a) (is a b c)
0 g :: :: a b @2 :: c d @2 @2 :: a @1 :: a b c @3 @3 ⇒ g ((a :: b) :: (c :: d)) (:: a) (:: a b c)
0 g + + a b @2 + c d @2 @2 + a @1 + a b c @3 @3 ⇒ g ((a + b) + (c + d)) (+ a) (+ a b c)
0 g - - a b @2 - c d @2 @2 - a @1 - a b c @3 @3 ⇒ g ((a - b) - (c - d)) (- a) (- a b c)
0 g * * a b @2 * c d @2 @2 * a @1 * a b c @3 @3 ⇒ g ((a * b) * (c * d)) (* a) (* a b c)
0 , a b @2 ⇒ a , b
0 - - 1 2 @2 3 @2 ⇒ (1 - 2) - 3
0 :: a :: b [] @2 @2 ⇒ a :: (b :: [])
0 f + @1 ⇒ f +
0 lt a b @2 ⇒ lt a b
0 , #0 #0 @1 \0 a @2 ⇒ (@0\ @0 @0) , a
0 , #0 a @2 \0 ⇒ @0\ @0 , a
0 , a #0 @2 \0 ⇒ , a
0 pi #0 #0 @1 \0 @1 ⇒ pi (@0\ @0 @0)
0 -7 ⇒ -7
0 f -7 0 12 @3 ⇒ f -7 0 12
0 - -1 -2 @2 ⇒ -1 - -2
0 -9223372036854775808 ⇒ -9223372036854775808
0 f "ab " @2 ⇒ f "ab" ""
0 "a\b"c ⇒ "a\\b\"c"
0 ?0 ⇒ ?0
0 f ?1 ?0 ?1 @3 ⇒ f ?0 ?1 ?0
0 , ?1 ?0 ?1 @1 @2 ⇒ ?0 , (?1 ?0)
0 ?1 a ?0 @2 ⇒ ?0 a ?1
0 ?0 f a @1 @1 ⇒ ?0 (f a)
1 ?2 ⇒ ?0 #0
1 f ?2 @1 ⇒ f (?0 #0)
2 ?3 ?0 @1 ⇒ ?0 #0 #1 ?1
0 ?2 \0 ⇒ ?0
0 f ?2 @1 \0 ⇒ @0\ f (?0 @0)
0 ?3 \1 \0 ⇒ ?0
1 ?3 \1 ⇒ ?0 #0
0 f #0 #0 @2 \0 ?0 @1 ⇒ (@0\ f @0 @0) ?0
0 f #0 #0 @2 \0 a @1 ⇒ f a a
0 f #0 #0 @2 \0 g ?0 @1 @1 ⇒ f (g ?0) (g ?0)
0 a \0 g ?0 @1 @1 ⇒ a
0 #0 b @1 \0 f 3 @1 @1 ⇒ f 3 b
0 f #0 #0 @2 \0 ?0 b @2 ⇒ (@0\ f @0 @0) ?0 b
0 g f #0 #0 @2 \0 ?0 @1 @1 ⇒ g ((@0\ f @0 @0) ?0)
0 , f #0 #0 @2 \0 ?0 @1 b @2 ⇒ ((@0\ f @0 @0) ?0) , b
0 f #0 #1 #1 @1 \1 ?0 @1 @2 \0 ?1 @1 ⇒ (@0\ f @0 ((@1\ @1 @1) ?0)) ?1
1 f #1 #1 @2 \1 #0 @1 ⇒ f #0 #0
1 f #1 #1 @2 \1 #0 a @2 ⇒ f #0 #0 a
1 f #1 #1 @2 \1 ?0 #0 @2 ⇒ (@0\ f @0 @0) ?0 #0
1 f #2 #1 @2 \2 \1 #0 ?0 @2 ⇒ (@0\ f @0 #0) ?0
0 f #1 #1 @2 \1 #0 @1 \0 ⇒ @0\ f @0 @0
0 f #0 #0 @2 \0 #0 @1 \0 ⇒ @0\ f @0 @0
0 g #0 f #0 #0 @2 \0 @2 \0 ⇒ @0\ g @0 (@1\ f @1 @1)
2 f #0 #0 @2 \0 ⇒ @0\ f @0 @0
2 g f #0 #0 @2 \0 #1 @2 ⇒ g (@0\ f @0 @0) #1
0 g f #0 #0 @2 \0 #1 #0 @3 \1 \0 ⇒ @0\ @1\ g (@2\ f @2 @2) @1 @0
0 g #0 #1 #0 @1 \1 @2 \0 f #0 #0 @2 \0 ! ⇒ g (@0\ f @0 @0) (@0\ @0 (@1\ f @1 @1))
0 f #0 #1 @2 \1 \0 ⇒ f
0 f #1 #0 @2 \1 \0 ⇒ @0\ @1\ f @1 @0
0 f #0 #1 #2 @3 \2 \1 \0 ⇒ f
0 f #1 #2 @2 \2 \1 \0 ⇒ @0\ f
0 g f #0 @1 \0 @1 ⇒ g f
0 f #0 #1 @1 \1 @1 \0 ⇒ f
0 f g #1 #1 @2 \1 ?0 @1 #0 @2 \0 ⇒ f ((@0\ g @0 @0) ?0)
0 f #1 #1 @2 \1 ?0 #0 @2 \0 ⇒ (@0\ f @0 @0) ?0
0 f #1 #0 #1 @3 \1 ?0 #0 @2 \0 ⇒ @0\ (@1\ f @1 @0 @1) ?0 @0"#;

/// The depth, the words of assumptions and of a goal, and the text of the sequent.
const SEQUENTS: &str = r#"2 f ?0 @1 #1 f ?1 ?0 @2 ⇒ delayed [#0 #1] [f ?0; #1] ?- f ?1 ?0
0 a ⇒ delayed [] [] ?- a
1 , a b @2 f ?2 @1 \1 = ?2 #0 @2 ⇒ delayed [#0] [a , b; @0\ f (?0 #0)] ?- (?0 #0) = #0
3 f ⇒ delayed [#0 #1 #2] [] ?- f"#;

#[test]
fn terms_have_their_texts(rt: HostRuntime) -> Result<(), Fail> {
    for line in TERMS.lines() {
        try_term(rt.alloc(), line)?;
    }
    Ok(())
}

#[test]
fn sequents_have_their_texts(rt: HostRuntime) -> Result<(), Fail> {
    for line in SEQUENTS.lines() {
        try_sequent(rt.alloc(), line)?;
    }
    Ok(())
}

#[test]
fn strings_have_escapes(rt: HostRuntime) -> Result<(), Fail> {
    let mut builder = Builder::new(rt.alloc())?;
    builder.string("a\tb\n\"\\c")?;
    let shown = builder.term(0)?;
    expect(&shown, r#""a\tb\n\"\\c""#, "four escapes")
}

#[test]
fn numbers_go_on(rt: HostRuntime) -> Result<(), Fail> {
    let mut builder = Builder::new(rt.alloc())?;
    let mut namer = Namer::new(rt.alloc());
    let mut out = ByteText::new(rt.alloc());
    builder.words(2, "g ?0 ?3 @2 f ?3 ?1 @2")?;
    builder.print(2, &mut namer, &mut out)?;
    out.push_slice(b"; ")?;
    builder.print(2, &mut namer, &mut out)?;
    expect(&out, "f (?0 #0 #1) ?1; g ?2 (?0 #0 #1)", "two terms")
}

/// Gives a variable the value `x\ f x x`, and makes the variable applied to the name `#0`.
fn assigned(heap: &mut Heap, trail: &mut Trail<Change>, f: Sym) -> Result<TermId, AllocError>
    requires { heap.old ≡ record { nodes = []; depths = []; assigned = [] } }
    ensures { IfOk result (λ term. IsValid heap.new term.index 1) }
{
    let v = heap.fresh_var(0)?;
    let head = heap.con(f)?;
    let x = heap.level(0)?;
    let body = heap.app(head, [x, x].as_slice())?;
    let lam = heap.lam(0, body)?;
    let y = heap.var(v)?;
    let term = heap.app(y, [x].as_slice())?;
    trail.reserve(1)?;
    heap.assign(trail, v, lam);
    Ok(term)
}

/// The printed form of that term.
fn value_text(alloc: Global, symbols: &Symbols, f: Sym) -> Result<ByteText, AllocError> {
    let mut heap = Heap::new(alloc);
    let mut trail = Trail::new(alloc);
    let term = assigned(&mut heap, &mut trail, f)?;
    let mut namer = Namer::new(alloc);
    let mut out = ByteText::new(alloc);
    print_term(alloc, &mut heap, symbols, term, 1, &mut namer, &mut out)?;
    Ok(out)
}

#[test]
fn values_are_printed(rt: HostRuntime) -> Result<(), Fail> {
    let mut symbols = Symbols::new(rt.alloc())?;
    let f = symbols.intern(b"f")?;
    let shown = value_text(rt.alloc(), &symbols, f)?;
    expect(&shown, "f #0 #0", "a value")
}

#[test]
fn deep_terms_are_printed_whole(rt: HostRuntime) -> Result<(), Fail> {
    let mut builder = Builder::new(rt.alloc())?;
    builder.deep(0, "a")?;
    let shown = builder.term(0)?;
    assert_eq!(rt; shown.len(), 3_999_999);
    Ok(())
}
