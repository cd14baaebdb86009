//! Queries, from texts to what they are resolved to, worked by hand.
use crate::table::{columns, expect_same};
use lp_lexer::tokens;
use lp_parser::parse_query;
use lp_resolve::{Symbols, resolve_query};
use ref_terms::{Head, Sym, Tree};
use std::alloc::Global;
use std::test::Fail;

/// Writes a head with the number of its arguments: `c` stands before the number of a constant, `s` of a string, `#` of
/// a bound name, and `?` of a variable; `!` is a stuck abstraction.
fn show_head(alloc: Global, text: &mut String, head: &Head, count: usize) -> Result<(), Fail> {
    let piece = match head {
        Head::Con(symbol) => {
            let number = symbol.0;
            format!(in alloc; "c{number}/{count} ")?
        }
        Head::Int(value) => format!(in alloc; "{value}/{count} ")?,
        Head::Str(symbol) => {
            let number = symbol.0;
            format!(in alloc; "s{number}/{count} ")?
        }
        Head::Bound(index) => format!(in alloc; "#{index}/{count} ")?,
        Head::ClauseVar(number) => format!(in alloc; "?{number}/{count} ")?,
        Head::Stuck(_) => format!(in alloc; "!/{count} ")?,
    };
    text.push_str(piece.as_str())?;
    Ok(())
}

/// Puts the parts of a tree before what is left, the last part first.
fn push_parts<'a>(left: &mut Vec<&'a Tree>, tree: &'a Tree) -> Result<(), Fail> {
    match tree {
        Tree::Lam(body) => left.push(body.get())?,
        Tree::Ap(head, arguments) => {
            for argument in arguments.as_slice().iter().rev() {
                left.push(argument)?;
            }
            if let Head::Stuck(abstraction) = head {
                left.push(abstraction.get())?;
            }
        }
    }
    Ok(())
}

/// Writes a tree: each node before its parts, a stuck abstraction before its arguments.
fn show(alloc: Global, text: &mut String, tree: &Tree) -> Result<(), Fail> {
    let mut left: Vec<&Tree> = Vec::new(alloc);
    left.push(tree)?;
    for _ in 0..100 {
        let Some(tree) = left.pop() else {
            return Ok(());
        };
        match tree {
            Tree::Lam(_) => text.push_str("\\ ")?,
            Tree::Ap(head, arguments) => show_head(alloc, text, head, arguments.len())?,
        }
        push_parts(&mut left, tree)?;
    }
    Err(Fail::new("too large a tree"))
}

/// What the query of a text is resolved to: its tree, and its variables, those behind a `-` not shown.
fn shown_query(alloc: Global, text: &str) -> Result<String, Fail> {
    let goal = parse_query(alloc, &tokens(alloc, text.as_bytes())?)?;
    let mut symbols = Symbols::new(alloc)?;
    let query = resolve_query(alloc, &goal, &mut symbols)?;
    let mut shown = String::new(alloc);
    show(alloc, &mut shown, &query.goal)?;
    for variable in query.vars.as_slice() {
        let sign = if variable.shown { "+" } else { "-" };
        let number = variable.name.0;
        let piece = format!(in alloc; "{sign}{number} ")?;
        shown.push_str(piece.as_str())?;
    }
    Ok(shown)
}

/// The words of a text have the numbers from 25 on, in the order of their first places.
const QUERIES: &str = "p ⇒ c25/0
p a b ⇒ c25/2 c26/0 c27/0
f Y X Y ⇒ c25/3 ?0/0 ?1/0 ?0/0 +26 +27
f _ _ ⇒ c25/2 ?0/0 ?1/0 -26 -26
p X _Y _ ⇒ c25/3 ?0/0 ?1/0 ?2/0 +26 -27 -28
x\\ f x ⇒ c26/0
x\\ f x x ⇒ \\ c26/2 #0/0 #0/0
x\\ y\\ f x y ⇒ c27/0
x\\ y\\ f y x ⇒ \\ \\ c27/2 #0/0 #1/0
(x\\ x) a ⇒ !/1 \\ #0/0 c26/0
(x\\ p x) a ⇒ c26/1 c27/0
(x\\ f x x) a b ⇒ !/2 \\ c26/2 #0/0 #0/0 c27/0 c28/0
y\\ (x\\ f x x) y ⇒ \\ c27/2 #0/0 #0/0
y\\ (x\\ z\\ f z x) y y ⇒ \\ c28/2 #0/0 #0/0
X (x\\ x) ⇒ ?0/1 \\ #0/0 +25
x\\ x\\ x ⇒ \\ \\ #0/0
x\\ y\\ x ⇒ \\ \\ #1/0
p (X\\ q X X) X ⇒ c25/2 \\ c27/2 #0/0 #0/0 ?0/0 +26
p (x\\ q x x) x ⇒ c25/2 \\ c27/2 #0/0 #0/0 c26/0
x\\ q (x\\ r x x) x x ⇒ \\ c26/3 \\ c27/2 #0/0 #0/0 #0/0 #0/0
_\\ q _ ⇒ \\ c26/1 ?0/0 -25
a , b ⇒ c3/2 c25/0 c26/0
a ; b => c ⇒ c4/2 c25/0 c5/2 c26/0 c27/0
a :- b ⇒ c6/2 c25/0 c26/0
X = Y ⇒ c9/2 ?0/0 ?1/0 +25 +26
X is 1 + 2 - -3 * 4 ⇒ c13/2 ?0/0 c21/2 c20/2 1/0 2/0 c22/2 -3/0 4/0 +25
pi x\\ sigma y\\ p x y y ⇒ c7/1 \\ c8/1 \\ c27/3 #1/0 #0/0 #0/0
pi x y\\ p x y y ⇒ c7/1 \\ c7/1 \\ c27/3 #1/0 #0/0 #0/0
pi F ⇒ c7/1 ?0/0 +25
! ⇒ c2/0
true ⇒ c0/0
[] ⇒ c18/0
[a, b | T] ⇒ c19/2 c25/0 c19/2 c26/0 ?0/0 +27
[1, 2] ⇒ c19/2 1/0 c19/2 2/0 c18/0
a :: [] ⇒ c19/2 c25/0 c18/0
p \"a\" a ⇒ c25/2 s26/0 c26/0
nonvar X, distinct X X ⇒ c3/2 c23/1 ?0/0 c24/2 ?0/0 ?0/0 +25";

#[test]
fn queries_have_their_trees(rt: HostRuntime) -> Result<(), Fail> {
    for line in QUERIES.lines() {
        let (text, wanted) = columns(line)?;
        let shown = shown_query(rt.alloc(), text)?;
        expect_same(text, shown.as_str(), wanted)?;
    }
    Ok(())
}

#[test]
fn texts_have_one_number_each(rt: HostRuntime) -> Result<(), Fail> {
    let mut symbols = Symbols::new(rt.alloc())?;
    assert_eq!(rt; symbols.len(), 25);
    assert_eq!(rt; symbols.intern(b"p")?, Sym(25));
    assert_eq!(rt; symbols.intern(b"q")?, Sym(26));
    assert_eq!(rt; symbols.intern(b"p")?, Sym(25));
    assert_eq!(rt; symbols.intern(b"beta")?, Sym(16));
    assert_eq!(rt; symbols.name_of(Sym(26)), b"q".as_slice());
    assert_eq!(rt; symbols.len(), 27);
    Ok(())
}
