//! Programs with the first rule of types that they break, and programs that have types.
use decl_read::read_declarations;
use decl_trees::TypeRule;
use lp_lexer::tokens;
use lp_parser::{Ast, parse_program};
use lp_resolve::{Symbols, resolve_program};
use std::alloc::Global;
use std::test::Fail;
use type_check::{TypeError, infer};

fn name_of(rule: TypeRule) -> &'static str {
    match rule {
        TypeRule::Y1 => "Y1",
        TypeRule::Y2 => "Y2",
        TypeRule::Y3 => "Y3",
        TypeRule::Y4 => "Y4",
    }
}

/// The items of files, which stand one behind the other with `‖` between.
fn items_of(alloc: Global, texts: &str) -> Result<Ast, Fail> {
    let mut ast = Ast::new(alloc);
    let mut file = 0;
    for text in texts.split('‖') {
        ast.append(parse_program(alloc, &tokens(alloc, text.as_bytes())?, file)?)?;
        file = 1;
    }
    Ok(ast)
}

/// The first broken rule with its file and its byte, or `ok`.
fn outcome(alloc: Global, texts: &str) -> Result<String, Fail> {
    let ast = items_of(alloc, texts)?;
    let mut symbols = Symbols::new(alloc)?;
    let program = resolve_program(alloc, &ast, &mut symbols)?;
    let decls = read_declarations(alloc, &ast, &mut symbols)?;
    match infer(alloc, &symbols, decls.as_slice(), &program) {
        Ok(_) => Ok(format!(in alloc; "ok")?),
        Err(TypeError::Broken(rule, place)) => {
            let (name, file, at) = (name_of(rule), place.file, place.at);
            Ok(format!(in alloc; "{name} {file}:{at}")?)
        }
        Err(TypeError::Memory) => Err(Fail::new("out of memory")),
    }
}

/// Programs and the first rule of types that they break.
const PROGRAMS: &str = "⇒ ok
p a. p b. ⇒ ok
p 1. p \"a\". ⇒ Y4 0:5
p 1.‖q. p \"a\". ⇒ Y4 1:3
pred q i:t. ⇒ Y3 0:9
kind int type. ⇒ Y1 0:5
kind t type. kind t type. ⇒ Y1 0:18
kind t, u type. ⇒ ok
type true prop. ⇒ Y2 0:5
type a prop. pred a. ⇒ Y2 0:18
type a, b, a prop. ⇒ Y2 0:11
type x k int. kind k type. kind k type -> type. ⇒ Y3 0:7
type x k. kind k type. type x k. ⇒ Y2 0:28
type f list. ⇒ Y3 0:7
type f A int. ⇒ Y3 0:7
type f A -> _x. ⇒ ok
type i A -> A. p (i 1). q (i \"a\"). ⇒ ok
type n list A. type c A -> list A -> list A. p (c 1 n). p (c 2 (c \"a\" n)). ⇒ Y4 0:56
kind t type. type a t. type b int. p a. p b. ⇒ Y4 0:40
pred p i:A, o:list A. p 1 [2]. p \"a\" []. ⇒ ok
pred p i:A, o:list A. p 1 [\"a\"]. ⇒ Y4 0:22
p (x\\ x x). ⇒ Y4 0:0
p (x\\ x). p (x\\ 1). q X :- p X. ⇒ ok
p X :- X is X + \"a\". ⇒ Y4 0:0
p X Y :- beta X 1 Y. p (x\\ [x]) [2]. ⇒ ok
p X Y :- beta X 1 Y. p (x\\ [x]) 2. ⇒ Y4 0:21
constraint q { rule (q X) | lt X 1. } q \"a\". ⇒ Y4 0:38
constraint q { rule (q X) (r Y) > X ~ Y. } q 1. r \"a\". ⇒ Y4 0:48
constraint q { rule (q X) | nonvar X, distinct X 1. } q 1. ⇒ ok
constraint q { rule (q X) | distinct X 1. } q \"a\". ⇒ Y4 0:44
constraint q { rule (G ?- q X) <=> p G. } p [true]. ⇒ ok
constraint q { rule (G ?- q X) <=> p G. } p [1]. ⇒ Y4 0:42";

#[test]
fn programs_have_types(rt: HostRuntime) -> Result<(), Fail> {
    for line in PROGRAMS.lines() {
        let (texts, wanted) = line.split_once('⇒').ok_or("no arrow")?;
        let shown = outcome(rt.alloc(), texts.trim())?;
        if shown.as_str() != wanted.trim() {
            return Err(Fail::new(format_args!("{texts}: {shown}")));
        }
    }
    Ok(())
}
