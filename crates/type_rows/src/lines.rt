//! Programs with the lines of their types.
use decl_read::read_declarations;
use lp_lexer::tokens;
use lp_parser::parse_program;
use lp_resolve::{Symbols, resolve_program};
use std::alloc::Global;
use std::test::Fail;
use type_check::infer;
use type_texts::type_lines;

/// The lines of a program's types, with `;` in the place of line feeds and a blank between them.
fn shown(alloc: Global, text: &str) -> Result<Vec<u8>, Fail> {
    let ast = parse_program(alloc, &tokens(alloc, text.as_bytes())?, 0)?;
    let mut symbols = Symbols::new(alloc)?;
    let program = resolve_program(alloc, &ast, &mut symbols)?;
    let decls = read_declarations(alloc, &ast, &mut symbols)?;
    let Ok(typing) = infer(alloc, &symbols, decls.as_slice(), &program) else {
        return Err(Fail::new("no types"));
    };
    let lines = type_lines(alloc, &symbols, decls.as_slice(), &program, &typing)?;
    let mut all = Vec::new(alloc);
    for line in &lines {
        if !all.is_empty() {
            all.push(b' ')?;
        }
        for byte in line.as_slice() {
            all.push(if *byte == b'\n' { b';' } else { *byte })?;
        }
    }
    Ok(all)
}

/// Programs and the lines of their types, each line ended by `;`.
const PROGRAMS: &str = "⇒
p a. p b. ⇒ a : A0; b : A0; p : A0 -> prop;
p 1 \"a\" [2]. ⇒ p : int -> string -> list int -> prop;
p (x\\ x 1) [2]. ⇒ p : ((int -> A0) -> A0) -> list int -> prop;
q X :- r X (x\\ X). ⇒ q : A0 -> prop; r : A0 -> (A1 -> A0) -> prop;
z X Y. b Y. ⇒ b : A0 -> prop; z : A1 -> A2 -> prop;
f [[1]] g. ⇒ f : list (list int) -> A0 -> prop; g : A0;
p _ _. ⇒ p : A0 -> A1 -> prop;
p X Y :- X = [Y]. ⇒ p : list A0 -> A0 -> prop;
kind pair type -> type -> type. type mk A -> B -> pair A B. p (mk 1 (mk \"a\" [X])). ⇒ p : pair int (pair string (list A0)) -> prop;
kind t type. type a, c t. pred p i:t. p a. p b. ⇒ b : t;
p nonvar. q :- p X, var X. ⇒ nonvar : A0; p : A0 -> prop; q : prop;
pred s i:int. constraint s k { rule (s X) | distinct X (h 1) <=> true. } ⇒ h : int -> int;";

#[test]
fn programs_have_lines(rt: HostRuntime) -> Result<(), Fail> {
    for line in PROGRAMS.lines() {
        let (text, wanted) = line.split_once('⇒').ok_or("no arrow")?;
        let found = shown(rt.alloc(), text.trim())?;
        if found.as_slice() != wanted.trim().as_bytes() {
            return Err(Fail::new(format_args!("{text}")));
        }
    }
    Ok(())
}
