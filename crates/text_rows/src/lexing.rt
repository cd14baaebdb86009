//! Texts and their tokens, and texts that are refused.
use crate::table::{columns, expect_same};
use lp_lexer::{
    Keyword, LexError, Symbol, Token, TokenKind, one_list_of_tokens, tokens, tokens_in_order,
};
use std::alloc::{AllocError, Global};
use std::test::Fail;

/// The tokens with a bar behind each, or `refused`.
fn shown(alloc: Global, text: &[u8]) -> Result<Vec<u8>, AllocError> {
    let mut out = Vec::new(alloc);
    match tokens(alloc, text) {
        Ok(found) => {
            for i in 0..found.len() {
                out.extend_from_slice(found.text_of(i))?;
                out.push(b'|')?;
            }
        }
        Err(LexError::Memory) => return Err(AllocError),
        Err(_) => out.extend_from_slice(b"refused".as_slice())?,
    }
    Ok(out)
}

/// Fails where the tokens of the text aren't those that are wanted.
fn expect_tokens(alloc: Global, text: &str, wanted: &str) -> Result<(), Fail> {
    let found = shown(alloc, text.as_bytes())?;
    expect_same(text, str::from_utf8(found.as_slice())?, wanted)
}

/// Texts and their tokens.
const TEXTS: &str = "⇒
a/* b */c % d ⇒ a|c|
a/*/ b */c/***/d ⇒ a|c|d|
pi is pin ⇒ pi|is|pin|
X _ _x 'Y ⇒ refused
X _ _x x' a-b a- b a--b ⇒ X|_|_x|x'|a-b|a|-|b|a|-|-|b|
N - 1 N -1 N-1 ⇒ N|-|1|N|-1|N-1|
12abc 007 ⇒ 12|abc|007|
é Éa ⇒ é|Éa|
_.x 1.x \"a\".x (a).x ⇒ _|.|x|1|.|x|\"a\"|.|x|(|a|)|.|x|
p. X. is. ⇒ p|.|X|.|is|.|
\"a\\n\\t\\\\\\\"b\" c ⇒ \"a\\n\\t\\\\\\\"b\"|c|
<=>=>=::-: ⇒ <=>|=>|=|::|-|:|
:-->?- ⇒ :-|->|?-|
()[]{}|\\ ⇒ (|)|[|]|{|}|||\\|
,;.!=:+-*>~ ⇒ ,|;|.|!|=|:|+|-|*|>|~|
true ⇒ true|
p.q ⇒ refused
<= ⇒ refused
/ ⇒ refused
? ⇒ refused";

#[test]
fn texts_have_their_tokens(rt: HostRuntime) -> Result<(), Fail> {
    for line in TEXTS.lines() {
        let (text, wanted) = columns(line)?;
        expect_tokens(rt.alloc(), text, wanted)?;
    }
    expect_tokens(rt.alloc(), " \t\r\n", "")?;
    expect_tokens(rt.alloc(), "p :- q, r.%end\nq.", "p|:-|q|,|r|.|q|.|")?;
    expect_tokens(rt.alloc(), "\"a\nb\"", "\"a\nb\"|")?;
    Ok(())
}

#[test]
fn tokens_have_their_kinds_and_bytes(rt: HostRuntime) -> Result<(), Fail> {
    let found = tokens(
        rt.alloc(),
        "é _ X 9223372036854775807 -9223372036854775808 -0 \"é\" type\\".as_bytes(),
    )?;
    let wanted: [(TokenKind, usize, usize); 9] = [
        (TokenKind::Name, 0, 2),
        (TokenKind::Hole, 3, 4),
        (TokenKind::Var, 5, 6),
        (TokenKind::Int(i64::MAX), 7, 26),
        (TokenKind::Int(i64::MIN), 27, 47),
        (TokenKind::Int(0), 48, 50),
        (TokenKind::Str, 51, 55),
        (TokenKind::Key(Keyword::TypeWord), 56, 60),
        (TokenKind::Sym(Symbol::Lambda), 60, 61),
    ];
    assert_eq!(rt; found.len(), 9);
    assert_eq!(rt; found.text_len(), 61);
    let mut index = 0;
    for (kind, at, end) in wanted {
        assert!(rt; index < found.len() && found.get(index) == Token { kind, at, end });
        index += 1;
    }
    Ok(())
}

/// The rule that the text breaks, with its byte, or `tokens`.
fn fault(alloc: Global, text: &[u8]) -> Result<String, Fail> {
    let (rule, at) = match tokens(alloc, text) {
        Ok(_) => ("tokens", 0),
        Err(LexError::Memory) => return Err(Fail::new("out of memory")),
        Err(LexError::NotUtf8(at)) => ("utf8", at),
        Err(LexError::BadChar(at)) => ("char", at),
        Err(LexError::OpenString(at)) => ("string", at),
        Err(LexError::OpenComment(at)) => ("comment", at),
        Err(LexError::LongName(at)) => ("name-length", at),
        Err(LexError::WideNumber(at)) => ("number", at),
    };
    Ok(format!(in alloc; "{rule} {at}")?)
}

/// Fails where the text isn't refused by this rule at this byte.
fn expect_fault(alloc: Global, text: &[u8], wanted: &str) -> Result<(), Fail> {
    expect_same(wanted, fault(alloc, text)?.as_str(), wanted)
}

/// Texts, each from behind its bar on, with the rule that each breaks and its byte.
const FAULTS: &str = "|a & \" ⇒ char 2
|p.q ⇒ char 1
|p._x ⇒ char 1
| X.y ⇒ char 2
|is.y ⇒ char 2
|é 'a ⇒ char 3
|\"ab\\c ⇒ char 3
| \"ab ⇒ string 1
| \"ab\\ ⇒ string 1
|\"\\\" ⇒ string 0
|a /*/ ⇒ comment 2
|9223372036854775808 ⇒ number 0
|a -9223372036854775809 ⇒ number 2
|99999999999999999999999999999999999999999 ⇒ number 0
|1 / ⇒ char 2
|a 1 ⇒ tokens 0";

#[test]
fn faults_have_their_bytes(rt: HostRuntime) -> Result<(), Fail> {
    for line in FAULTS.lines() {
        let (text, wanted) = columns(line)?;
        let text = text.strip_prefix('|').ok_or("no bar")?;
        expect_fault(rt.alloc(), text.as_bytes(), wanted)?;
    }
    expect_fault(rt.alloc(), b"a & \xff", "utf8 4")?;
    expect_fault(rt.alloc(), b"\xc3", "utf8 0")?;
    Ok(())
}

#[test]
fn a_name_has_at_most_255_bytes(rt: HostRuntime) -> Result<(), Fail> {
    let mut name = Vec::new(rt.alloc());
    name.push(b' ')?;
    for _ in 0..127 {
        name.extend_from_slice("é".as_bytes())?;
    }
    name.push(b'n')?;
    assert_eq!(rt; tokens(rt.alloc(), name.as_slice())?.len(), 1);
    name.push(b'n')?;
    expect_fault(rt.alloc(), name.as_slice(), "name-length 1")
}

#[test]
fn laws_are_called() {
    one_list_of_tokens();
    tokens_in_order();
}
