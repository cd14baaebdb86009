//! Programs that break a static rule, with the first breach, and programs that break none.
use crate::table::{columns, expect_same};
use lp_lexer::tokens;
use lp_parser::{Ast, parse_program};
use lp_resolve::{StaticRule, Symbols, law_first_breach, law_predicates, resolve_program};
use mode_check::{StaticError, check};
use std::alloc::Global;
use std::test::Fail;

fn name_of(rule: StaticRule) -> &'static str {
    match rule {
        StaticRule::S1 => "S1",
        StaticRule::S2 => "S2",
        StaticRule::S3 => "S3",
        StaticRule::S4 => "S4",
        StaticRule::S5 => "S5",
        StaticRule::S6 => "S6",
        StaticRule::S7 => "S7",
        StaticRule::S8 => "S8",
    }
}

/// The items of files, which stand one behind the other with `‖` between.
fn items_of(alloc: Global, texts: &str) -> Result<Ast, Fail> {
    let mut ast = Ast::new(alloc);
    let mut file = 0;
    for text in texts.split('‖') {
        ast.append(parse_program(alloc, &tokens(alloc, text.as_bytes())?, file)?)?;
        file = 1;
    }
    Ok(ast)
}

/// The first broken rule with its file and its byte, or `ok`.
fn outcome(alloc: Global, texts: &str) -> Result<String, Fail> {
    let mut symbols = Symbols::new(alloc)?;
    let program = resolve_program(alloc, &items_of(alloc, texts)?, &mut symbols)?;
    match check(alloc, program) {
        Ok(_) => Ok(format!(in alloc; "ok")?),
        Err(StaticError::Broken(rule, place)) => {
            let (name, file, at) = (name_of(rule), place.file, place.at);
            Ok(format!(in alloc; "{name} {file}:{at}")?)
        }
        Err(StaticError::Memory) => Err(Fail::new("out of memory")),
    }
}

/// Programs and their first breach.
const PROGRAMS: &str = "⇒ ok
pred p o:t. pred q o:t. ⇒ ok
pred p o:t. pred p o:t. ⇒ S1 0:17
pred p o:t.‖pred q o:t. pred p o:t. ⇒ S1 1:17
pred p o:t. pred q o:t.‖pred p o:t. ⇒ S1 1:5
pred p o:t. pred beta o:t. ⇒ S5 0:17
pred beta o:t. pred p o:t. ⇒ S5 0:5
pred beta o:t. pred beta o:t. ⇒ S5 0:5
pred nonvar o:t. distinct a. ⇒ ok
X a. ⇒ S2 0:0
(X a) :- q. ⇒ S2 0:1
1 :- q. ⇒ S2 0:0
p a. p. ⇒ S3 0:5
p a. p. p b c. ⇒ S3 0:5
pred p o:t. p. ⇒ S3 0:12
pred p o:t. p a. ⇒ ok
p a.‖p b. p. ⇒ S3 1:5
fail. ⇒ S5 0:0
true a. ⇒ S5 0:0
true. pred true i:t. ⇒ S3 0:0
p (X a). ⇒ S4 0:3
p (_ a). ⇒ S4 0:3
p (x\\ y\\ X y x). ⇒ ok
p (x\\ y\\ X x x). ⇒ S4 0:9
p ((x\\ X x) a). ⇒ S4 0:7
p ((x\\ f (X x)) b). ⇒ ok
p :- q (X a). ⇒ ok
constraint q { rule (q X) (q Y) \\ (q Z) > X ~ Y | var X <=> true. } ⇒ ok
constraint q { rule (q X) (q Y) (q Z) \\ (q W). } ⇒ S6 0:15
constraint q { rule (q X) (q Y) > Y ~ X. } ⇒ S7 0:34
constraint q { rule (q X) (q Y) > X ~ X. } ⇒ S7 0:34
constraint q { rule (q X) (q Y) > X ~ Z. } ⇒ S7 0:34
constraint q { rule (q X) | q X. } ⇒ S8 0:28
constraint q { rule (q X) | var. } ⇒ S8 0:28
constraint q { rule (q X) | nonvar X, distinct X X. } ⇒ ok
constraint q { rule (X q). } ⇒ S2 0:21";

#[test]
fn programs_have_their_first_breach(rt: HostRuntime) -> Result<(), Fail> {
    for line in PROGRAMS.lines() {
        let (texts, wanted) = columns(line)?;
        let shown = outcome(rt.alloc(), texts)?;
        expect_same(texts, shown.as_str(), wanted)?;
    }
    Ok(())
}

#[test]
fn laws_are_called() {
    law_first_breach();
    law_predicates();
}
