//! Trees and refusals of texts, worked by hand.
use crate::table::{columns, expect_same};
use lam_io::ByteText;
use lp_lexer::tokens;
use lp_parser::{
    Ast, AstTerm, AstType, Decl, GrammarRule, Item, Operator, ParseError, Place, RuleHead, Word,
    WordKind, one_program, one_query, parse_program, parse_query, program_deep, program_read,
    program_unexpected, query_deep, query_read, query_unexpected,
};
use std::alloc::Global;
use std::test::Fail;

fn symbol(operator: Operator) -> &'static str {
    match operator {
        Operator::Implied => ":-",
        Operator::Or => ";",
        Operator::Comma => ",",
        Operator::Implies => "=>",
        Operator::Equal => "=",
        Operator::Is => "is",
        Operator::Cons => "::",
        Operator::Plus => "+",
        Operator::Minus => "-",
        Operator::Times => "*",
    }
}

/// Variables are shown behind a `?`, so that a name's kind is seen.
fn mark_of(kind: WordKind) -> &'static str {
    match kind {
        WordKind::Name => "",
        WordKind::Var => "?",
        WordKind::Hole => "?",
    }
}

fn show_named(
    alloc: Global,
    text: &mut String,
    front: &str,
    name: &ByteText,
    behind: &str,
    place: Place,
) -> Result<(), Fail> {
    let name = str::from_utf8(name.as_slice())?;
    let at = place.at;
    let piece = format!(in alloc; "{front}{name}{behind}@{at} ")?;
    text.push_str(piece.as_str())?;
    Ok(())
}

/// A term without its parts, and its place where it has one.
fn show_node(alloc: Global, text: &mut String, term: &AstTerm) -> Result<(), Fail> {
    let piece = match term {
        AstTerm::Word(kind, name, place) => {
            return show_named(alloc, text, mark_of(*kind), name, "", *place);
        }
        AstTerm::Str(name, place) => return show_named(alloc, text, "\"", name, "\"", *place),
        AstTerm::Bind(name, place, _) => return show_named(alloc, text, "", name, "\\", *place),
        AstTerm::Int(number, place) => {
            let at = place.at;
            format!(in alloc; "{number}@{at} ")?
        }
        AstTerm::App(_, arguments) => {
            let count = arguments.len();
            format!(in alloc; "app{count} ")?
        }
        AstTerm::Op(operator, place, _, _) => {
            let name = symbol(*operator);
            let at = place.at;
            format!(in alloc; "{name}@{at} ")?
        }
        AstTerm::Quant(all, place, _) => {
            let name = if *all { "pi" } else { "sigma" };
            let at = place.at;
            format!(in alloc; "{name}@{at} ")?
        }
        AstTerm::List(place, elements, tail) => {
            let count = elements.len();
            let bar = if tail.is_some() { "|" } else { "" };
            let at = place.at;
            format!(in alloc; "list{count}{bar}@{at} ")?
        }
    };
    text.push_str(piece.as_str())?;
    Ok(())
}

/// Puts the parts of a term before what is left, the last part first.
fn push_parts<'a>(left: &mut Vec<&'a AstTerm>, term: &'a AstTerm) -> Result<(), Fail> {
    match term {
        AstTerm::Word(_, _, _) | AstTerm::Int(_, _) | AstTerm::Str(_, _) => {}
        AstTerm::App(head, arguments) => {
            for argument in arguments.as_slice().iter().rev() {
                left.push(argument)?;
            }
            left.push(head.get())?;
        }
        AstTerm::Bind(_, _, body) => left.push(body.get())?,
        AstTerm::Op(_, _, first, second) => {
            left.push(second.get())?;
            left.push(first.get())?;
        }
        AstTerm::Quant(_, _, body) => left.push(body.get())?,
        AstTerm::List(_, elements, tail) => {
            if let Some(tail) = tail {
                left.push(tail.get())?;
            }
            for element in elements.as_slice().iter().rev() {
                left.push(element)?;
            }
        }
    }
    Ok(())
}

/// Writes a term: each node before its parts.
fn show(alloc: Global, text: &mut String, term: &AstTerm) -> Result<(), Fail> {
    let mut left: Vec<&AstTerm> = Vec::new(alloc);
    left.push(term)?;
    for _ in 0..100 {
        let Some(term) = left.pop() else {
            return Ok(());
        };
        show_node(alloc, text, term)?;
        push_parts(&mut left, term)?;
    }
    Err(Fail::new("too large a term"))
}

fn shown_query(alloc: Global, text: &str) -> Result<String, Fail> {
    let goal = parse_query(alloc, &tokens(alloc, text.as_bytes())?)?;
    let mut shown = String::new(alloc);
    show(alloc, &mut shown, &goal.term)?;
    Ok(shown)
}

/// Writes a type: each node before its parts.
fn show_type(alloc: Global, text: &mut String, ty: &AstType) -> Result<(), Fail> {
    let mut left: Vec<&AstType> = Vec::new(alloc);
    left.push(ty)?;
    for _ in 0..100 {
        let Some(ty) = left.pop() else {
            return Ok(());
        };
        match ty {
            AstType::Named(word, arguments) => {
                for argument in arguments.as_slice().iter().rev() {
                    left.push(argument)?;
                }
                let count = arguments.len();
                let behind = format!(in alloc; "{count}")?;
                show_named(alloc, text, "", &word.text, behind.as_str(), word.place)?;
            }
            AstType::Arrow(first, second) => {
                left.push(second.get())?;
                left.push(first.get())?;
                text.push_str("-> ")?;
            }
        }
    }
    Err(Fail::new("too large a type"))
}

fn show_words(alloc: Global, text: &mut String, words: &[Word]) -> Result<(), Fail> {
    for word in words {
        show_named(alloc, text, "", &word.text, "", word.place)?;
    }
    Ok(())
}

fn show_heads(alloc: Global, text: &mut String, heads: &[RuleHead]) -> Result<(), Fail> {
    for head in heads {
        if let Some(context) = &head.context {
            show_named(alloc, text, "", &context.text, "?-", context.place)?;
        }
        show(alloc, text, &head.goal)?;
    }
    Ok(())
}

fn show_decl(alloc: Global, text: &mut String, decl: &Decl) -> Result<(), Fail> {
    match decl {
        Decl::KindDecl(names, arrows) => {
            let piece = format!(in alloc; "kind{arrows} ")?;
            text.push_str(piece.as_str())?;
            show_words(alloc, text, names.as_slice())
        }
        Decl::TypeDecl(names, ty) => {
            text.push_str("type ")?;
            show_words(alloc, text, names.as_slice())?;
            show_type(alloc, text, ty)
        }
        Decl::PredDecl(name, arguments) => {
            text.push_str("pred ")?;
            show_named(alloc, text, "", &name.text, "", name.place)?;
            for argument in arguments.as_slice() {
                text.push_str(if argument.input { "i: " } else { "o: " })?;
                show_type(alloc, text, &argument.ty)?;
            }
            Ok(())
        }
    }
}

fn show_item(alloc: Global, text: &mut String, item: &Item) -> Result<(), Fail> {
    match item {
        Item::Decl(decl) => show_decl(alloc, text, decl),
        Item::Clause(clause) => {
            let at = clause.place.at;
            let piece = format!(in alloc; "clause@{at} ")?;
            text.push_str(piece.as_str())?;
            show(alloc, text, &clause.term)
        }
        Item::Block(block) => {
            text.push_str("block ")?;
            show_words(alloc, text, block.names.as_slice())?;
            for rule in block.rules.as_slice() {
                let at = rule.place.at;
                let piece = format!(in alloc; "rule@{at} ")?;
                text.push_str(piece.as_str())?;
                show_heads(alloc, text, rule.kept.as_slice())?;
                text.push_str("\\ ")?;
                show_heads(alloc, text, rule.removed.as_slice())?;
                for pair in rule.pairs.as_slice() {
                    show_named(alloc, text, "", &pair.left.text, "~", pair.left.place)?;
                    show_named(alloc, text, "", &pair.right.text, "", pair.right.place)?;
                }
                for test in rule.tests.as_slice() {
                    text.push_str("| ")?;
                    show(alloc, text, test)?;
                }
                if let Some(body) = &rule.body {
                    text.push_str("<=> ")?;
                    show(alloc, text, body)?;
                }
            }
            Ok(())
        }
    }
}

fn shown_program(alloc: Global, text: &str) -> Result<String, Fail> {
    let ast = parse_program(alloc, &tokens(alloc, text.as_bytes())?, 0)?;
    let mut shown = String::new(alloc);
    for item in ast.as_slice() {
        show_item(alloc, &mut shown, item)?;
    }
    Ok(shown)
}

/// Where the tokens of a text are refused: the index of the token and the rule, the rule `deep` too.
fn refusal(alloc: Global, error: ParseError) -> Result<String, Fail> {
    let (index, rule) = match error {
        ParseError::Unexpected(index, rule) => (index, rule_name(rule)),
        ParseError::Deep(index) => (index, "deep"),
        ParseError::Memory => return Err(Fail::from(ParseError::Memory)),
    };
    Ok(format!(in alloc; "{index} {rule}")?)
}

fn rule_name(rule: GrammarRule) -> &'static str {
    match rule {
        GrammarRule::Item => "item",
        GrammarRule::Kind => "kind",
        GrammarRule::TypeItem => "type",
        GrammarRule::Pred => "pred",
        GrammarRule::Constraint => "constraint",
        GrammarRule::Rule => "rule",
        GrammarRule::Clause => "clause",
        GrammarRule::Query => "query",
    }
}

/// The refusal of a program, or its number of items.
fn program_outcome(alloc: Global, text: &str) -> Result<String, Fail> {
    match parse_program(alloc, &tokens(alloc, text.as_bytes())?, 0) {
        Ok(ast) => {
            let items = ast.len();
            Ok(format!(in alloc; "{items} items")?)
        }
        Err(error) => refusal(alloc, error),
    }
}

/// The refusal of a query.
fn query_outcome(alloc: Global, text: &str) -> Result<String, Fail> {
    match parse_query(alloc, &tokens(alloc, text.as_bytes())?) {
        Ok(_) => Ok(format!(in alloc; "a query")?),
        Err(error) => refusal(alloc, error),
    }
}

/// The text with the piece so many times between front and end.
fn repeated(
    alloc: Global,
    front: &str,
    piece: &str,
    times: usize,
    end: &str,
) -> Result<String, Fail> {
    let mut text = String::new(alloc);
    text.push_str(front)?;
    for _ in 0..times {
        text.push_str(piece)?;
    }
    text.push_str(end)?;
    Ok(text)
}

/// Queries and their trees, each node before its parts, with its place.
const TERMS: &str = "p ⇒ p@0
p. ⇒ p@0
! ⇒ !@0
p X _ 12 -3 ⇒ app4 p@0 ?X@2 ?_@4 12@6 -3@9
(p) a ⇒ app1 p@1 a@4
((p a)) b ⇒ app1 app1 p@2 a@4 b@8
p (q a) ! ⇒ app2 p@0 app1 q@3 a@5 !@8
a :- b, c ; d ⇒ :-@2 a@0 ;@10 ,@6 b@5 c@8 d@12
a ; b ; c ⇒ ;@2 a@0 ;@6 b@4 c@8
a , b , c ⇒ ,@2 a@0 ,@6 b@4 c@8
a => b => c ⇒ =>@2 a@0 =>@7 b@5 c@10
a, b => c = d ⇒ ,@1 a@0 =>@5 b@3 =@10 c@8 d@12
X is Y + 1 ⇒ is@2 ?X@0 +@7 ?Y@5 1@9
a :: b :: c ⇒ ::@2 a@0 ::@7 b@5 c@10
a - b - c ⇒ -@6 -@2 a@0 b@4 c@8
a + b * c - d ⇒ -@10 +@2 a@0 *@6 b@4 c@8 d@12
a * b * c ⇒ *@6 *@2 a@0 b@4 c@8
a * (b * c) ⇒ *@2 a@0 *@7 b@5 c@9
x\\ p x, q ⇒ x\\@0 ,@6 app1 p@3 x@5 q@8
f a x\\ b ⇒ app2 f@0 a@2 x\\@4 b@7
a = x\\ b = c ⇒ =@2 a@0 x\\@4 =@9 b@7 c@11
_\\ X\\ a ⇒ _\\@0 X\\@3 a@6
pi (f a) ⇒ pi@0 app1 f@4 a@6
sigma x\\ p x ⇒ sigma@0 x\\@6 app1 p@9 x@11
pi x Y\\ p ⇒ pi@0 x\\@3 pi@0 Y\\@5 p@8
[] ⇒ list0@0
[a, b c, x\\ d | [e | T]] ⇒ list3|@0 a@1 app1 b@4 c@6 x\\@9 d@12 list1|@16 e@17 ?T@21";

#[test]
fn terms_have_their_trees(rt: HostRuntime) -> Result<(), Fail> {
    for line in TERMS.lines() {
        let (text, wanted) = columns(line)?;
        let shown = shown_query(rt.alloc(), text)?;
        expect_same(text, shown.as_str(), wanted)?;
    }
    Ok(())
}

#[test]
fn strings_have_their_characters(rt: HostRuntime) -> Result<(), Fail> {
    let shown = shown_query(rt.alloc(), "p \"a\\n\\\"\\t\\\\b\"")?;
    assert_eq!(rt; shown.as_str(), "app1 p@0 \"a\n\"\t\\b\"@2 ");
    Ok(())
}

/// Programs and their trees.
const ITEMS: &str = "⇒ 
% only a comment ⇒ 
p. (q) :- r. ⇒ clause@0 p@0 clause@3 :-@7 q@4 r@10
p, q. ⇒ clause@0 ,@1 p@0 q@3
x\\ p. ⇒ clause@0 x\\@0 p@3
kind a type. ⇒ kind0 a@5
kind a, b type -> type -> type. ⇒ kind2 a@5 b@8
type a, b c. ⇒ type a@5 b@8 c0@10
type f a -> (b -> c) -> d. ⇒ type f@5 -> a0@7 -> -> b0@13 c0@18 d0@24
type f list A (g b) -> (c). ⇒ type f@5 -> list2@7 A0@12 g1@15 b0@17 c0@24
pred p. ⇒ pred p@5
pred p i:a, o:b -> c. ⇒ pred p@5 i: a0@9 o: -> b0@14 c0@19
constraint { } ⇒ block
constraint p q { rule (p X). } ⇒ block p@11 q@13 rule@17 app1 p@23 ?X@25 \\
constraint { rule (G ?- p X) (q) \\ (D ?- r) > X ~ Y, A ~ B | var X, lt (1 + 2) 3 <=> s, t. } ⇒ block rule@13 G?-@19 app1 p@24 ?X@26 q@30 \\ D?-@36 r@41 X~@46 Y@50 A~@53 B@57 | app1 var@61 ?X@65 | app2 lt@68 +@74 1@72 2@76 3@79 <=> ,@86 s@85 t@88
constraint { rule \\ (p) <=> true. rule (X). } ⇒ block rule@13 \\ p@21 <=> true@28 rule@34 ?X@40 \\
constraint { rule (p) | [a, x\\ b] . } ⇒ block rule@13 p@19 \\ | list2@24 a@25 x\\@28 b@31
constraint { rule (p) | a, pi f . } p. ⇒ block rule@13 p@19 \\ | a@24 | pi@27 f@30 clause@36 p@36";

#[test]
fn items_have_their_trees(rt: HostRuntime) -> Result<(), Fail> {
    for line in ITEMS.lines() {
        let (text, wanted) = columns(line)?;
        let shown = shown_program(rt.alloc(), text)?;
        expect_same(text, shown.as_str(), wanted)?;
    }
    Ok(())
}

/// Programs and the index of the refused token, with the rule.
const PROGRAMS: &str = ") ⇒ 0 item
p. -> q. ⇒ 2 item
{ p } ⇒ 0 item
rule (p). ⇒ 0 item
constraint { } } ⇒ 3 item
p ⇒ 1 clause
p :- q ⇒ 3 clause
p :- . ⇒ 2 clause
p :- q :- r. ⇒ 3 clause
p ?- q. ⇒ 1 clause
p : q. ⇒ 1 clause
p | q. ⇒ 1 clause
p kind a. ⇒ 1 clause
p } ⇒ 1 clause
1 a. ⇒ 1 clause
! a. ⇒ 1 clause
[a] b. ⇒ 3 clause
a ; ; b. ⇒ 2 clause
a , . ⇒ 2 clause
=> a. ⇒ 0 item
a = b = c. ⇒ 3 clause
a is b = c. ⇒ 3 clause
a = b is c. ⇒ 3 clause
a + . ⇒ 2 clause
a * - b. ⇒ 2 clause
a :: . ⇒ 2 clause
x\\ . ⇒ 2 clause
\\ a. ⇒ 0 item
1\\ a. ⇒ 1 clause
(x)\\ a. ⇒ 3 clause
f x\\ a = b = c. ⇒ 6 clause
pi. ⇒ 1 clause
pi 1 2. ⇒ 2 clause
pi x (a). ⇒ 2 clause
pi x y. ⇒ 3 clause
pi x y z ( ⇒ 4 clause
pi pi x\\ a. ⇒ 1 clause
f pi x\\ a. ⇒ 1 clause
pi (x)\\ a. ⇒ 4 clause
(p ⇒ 2 clause
(p]. ⇒ 2 clause
(). ⇒ 1 clause
(p, . ⇒ 3 clause
[p. ⇒ 2 clause
[p). ⇒ 2 clause
[a,]. ⇒ 3 clause
[a :- b]. ⇒ 2 clause
[a ; b]. ⇒ 2 clause
[a | b, c]. ⇒ 4 clause
[a | b | c]. ⇒ 4 clause
[ | b]. ⇒ 1 clause
[a | ]. ⇒ 3 clause
(a | b). ⇒ 2 clause
kind ⇒ 1 kind
kind X type. ⇒ 1 kind
kind a. ⇒ 2 kind
kind a, type. ⇒ 3 kind
kind a b type. ⇒ 2 kind
kind a type ⇒ 3 kind
kind a type -> . ⇒ 4 kind
kind a type -> b. ⇒ 4 kind
kind a type type. ⇒ 3 kind
type a. ⇒ 2 type
type a, b. ⇒ 4 type
type X a. ⇒ 1 type
type a _. ⇒ 2 type
type a b -> . ⇒ 4 type
type a (b. ⇒ 4 type
type a (b) c. ⇒ 5 type
type a b, c. ⇒ 3 type
type a b = c. ⇒ 3 type
type a 1. ⇒ 2 type
type a [b]. ⇒ 2 type
pred. ⇒ 1 pred
pred a b:t. ⇒ 2 pred
pred a i t. ⇒ 3 pred
pred a i:. ⇒ 4 pred
pred a i:t o:t. ⇒ 6 pred
pred a i:t,. ⇒ 6 pred
pred X. ⇒ 1 pred
constraint ⇒ 1 constraint
constraint X { } ⇒ 1 constraint
constraint a, b { } ⇒ 2 constraint
constraint a. ⇒ 2 constraint
constraint { p. } ⇒ 2 constraint
constraint { ⇒ 2 constraint
constraint { rule (p). p. } ⇒ 7 constraint
constraint { rule (p).  ⇒ 7 constraint";

#[test]
fn programs_are_refused_at_their_first_bad_token(rt: HostRuntime) -> Result<(), Fail> {
    for line in PROGRAMS.lines() {
        let (text, wanted) = columns(line)?;
        let shown = program_outcome(rt.alloc(), text)?;
        expect_same(text, shown.as_str(), wanted)?;
    }
    Ok(())
}

/// The same of texts behind `constraint { rule`, which are the tokens 0 to 2.
const RULES: &str = "⇒ 3 rule
. ⇒ 3 rule
p. ⇒ 3 rule
() ⇒ 4 rule
(p ⇒ 5 rule
(p q r) } ⇒ 8 rule
(X ?- ) . ⇒ 6 rule
(a ?- b). ⇒ 5 rule
(X Y ?- b). ⇒ 6 rule
((X ?- b)). ⇒ 6 rule
(X ?- Y ?- b). ⇒ 7 rule
(_ ?- b). ⇒ 5 rule
\\ . ⇒ 4 rule
(a) \\ . ⇒ 7 rule
(a) \\ (b) \\ (c). ⇒ 10 rule
(a) <=> . ⇒ 7 rule
(a) <=> b | c. ⇒ 8 rule
(a) <=> b ⇒ 8 rule
(a) > . ⇒ 7 rule
(a) > x ~ Y. ⇒ 7 rule
(a) > X Y. ⇒ 8 rule
(a) > X ~ y. ⇒ 9 rule
(a) > X ~ Y, . ⇒ 11 rule
(a) > X ~ Y (b). ⇒ 10 rule
(a) | . ⇒ 7 rule
(a) | x\\ b. ⇒ 8 rule
(a) | b = c. ⇒ 8 rule
(a) | f x\\ b. ⇒ 9 rule
(a) | pi x y\\ b. ⇒ 9 rule
(a) | pi x\\ b. ⇒ 9 rule
(a) | b, . ⇒ 9 rule
(a) | b :- c. ⇒ 8 rule
(a) | (b :- c), [x\\ d] > X ~ Y. ⇒ 18 rule
(a) | b > X ~ Y. ⇒ 8 rule";

#[test]
fn rules_are_refused_at_their_first_bad_token(rt: HostRuntime) -> Result<(), Fail> {
    for line in RULES.lines() {
        let (text, wanted) = columns(line)?;
        let program = format!(in rt.alloc(); "constraint {{ rule {text}")?;
        let shown = program_outcome(rt.alloc(), program.as_str())?;
        expect_same(text, shown.as_str(), wanted)?;
    }
    Ok(())
}

/// The same of queries.
const QUERIES: &str = "⇒ 0 query
. ⇒ 0 query
p :- q ⇒ a query
p. ⇒ a query
p. q ⇒ 2 query
p. . ⇒ 2 query
p :- q :- r ⇒ 3 query
p , ⇒ 2 query
kind a type. ⇒ 0 query
(p ⇒ 2 query
pi f g % and no body ⇒ 3 query";

#[test]
fn queries_are_refused_at_their_first_bad_token(rt: HostRuntime) -> Result<(), Fail> {
    for line in QUERIES.lines() {
        let (text, wanted) = columns(line)?;
        let shown = query_outcome(rt.alloc(), text)?;
        expect_same(text, shown.as_str(), wanted)?;
    }
    Ok(())
}

/// Tries the query of front, so many pieces and end.
fn try_query(
    alloc: Global,
    front: &str,
    piece: &str,
    times: usize,
    end: &str,
    wanted: &str,
) -> Result<(), Fail> {
    let text = repeated(alloc, front, piece, times, end)?;
    let outcome = query_outcome(alloc, text.as_str())?;
    expect_same(piece, outcome.as_str(), wanted)
}

/// Tries the program of front, so many pieces and end.
fn try_program(
    alloc: Global,
    front: &str,
    piece: &str,
    times: usize,
    end: &str,
    wanted: &str,
) -> Result<(), Fail> {
    let text = repeated(alloc, front, piece, times, end)?;
    let outcome = program_outcome(alloc, text.as_str())?;
    expect_same(piece, outcome.as_str(), wanted)
}

#[test]
fn operators_and_words_nest_at_most_2000(rt: HostRuntime) -> Result<(), Fail> {
    try_query(rt.alloc(), "", "x\\ ", 2000, "p", "a query")?;
    try_query(rt.alloc(), "", "x\\ ", 2001, "p", "4001 deep")?;
    try_query(rt.alloc(), "", "p , ", 2000, "p", "a query")?;
    try_query(rt.alloc(), "", "p , ", 2001, "p", "4001 deep")?;
    try_query(rt.alloc(), "[a", ", a", 1999, "]", "a query")?;
    try_query(rt.alloc(), "[a", ", a", 2000, "]", "4000 deep")?;
    try_query(rt.alloc(), "pi x", " x", 1999, "\\ p", "a query")?;
    try_query(rt.alloc(), "pi x", " x", 2000, "\\ p", "2002 deep")?;
    Ok(())
}

#[test]
fn brackets_nest_at_most_2000(rt: HostRuntime) -> Result<(), Fail> {
    try_query(rt.alloc(), "", "f (", 2000, "p", "4001 query")?;
    try_query(rt.alloc(), "", "f (", 2001, "p", "4001 deep")?;
    try_query(rt.alloc(), "", "(p, p), ", 1999, "p", "a query")?;
    try_query(rt.alloc(), "", "(p, p), ", 2000, "p", "11996 deep")?;
    try_query(rt.alloc(), "p ", "(a = b) ", 3000, "", "a query")?;
    try_query(rt.alloc(), "p ", "p ", 10000, "", "a query")?;
    try_query(rt.alloc(), "(p", " :- (p", 999, "", "2999 query")?;
    try_query(rt.alloc(), "a = b, ", "p * ", 1998, "p", "a query")?;
    try_query(rt.alloc(), "a = b, ", "p * ", 1999, "p", "4001 deep")?;
    try_query(rt.alloc(), "p - ", "1 - ", 1999, "p", "a query")?;
    Ok(())
}

#[test]
fn items_are_nested_from_0(rt: HostRuntime) -> Result<(), Fail> {
    try_program(rt.alloc(), "", "p, p. ", 3000, "", "3000 items")?;
    try_program(rt.alloc(), "type a ", "a -> ", 2000, "a.", "1 items")?;
    try_program(rt.alloc(), "type a ", "a -> ", 2001, "a.", "4003 deep")?;
    try_program(
        rt.alloc(),
        "kind a ",
        "type -> ",
        2001,
        "type.",
        "4003 deep",
    )?;
    try_program(rt.alloc(), "kind a", ", a", 2001, " type.", "4002 deep")?;
    Ok(())
}

#[test]
fn rules_are_nested_from_0(rt: HostRuntime) -> Result<(), Fail> {
    try_program(
        rt.alloc(),
        "constraint { ",
        "rule (p, p) \\ (p) | p, p <=> p, p. ",
        1000,
        "}",
        "1 items",
    )?;
    try_program(
        rt.alloc(),
        "constraint { rule (p) | p",
        ", p",
        2000,
        ". }",
        "1 items",
    )?;
    try_program(
        rt.alloc(),
        "constraint { rule (p) | p",
        ", p",
        2001,
        ". }",
        "4008 deep",
    )?;
    try_program(rt.alloc(), "constraint ", "a ", 3000, "{ }", "1 items")?;
    Ok(())
}

#[test]
fn programs_are_appended(rt: HostRuntime) -> Result<(), Fail> {
    let alloc = rt.alloc();
    let mut ast = parse_program(alloc, &tokens(alloc, b"p a.".as_slice())?, 0)?;
    let more = parse_program(alloc, &tokens(alloc, b"p b.".as_slice())?, 1)?;
    ast.append(more)?;
    assert_eq!(rt; ast.len(), 2);
    assert_eq!(rt;
        first_place(&ast).ok_or("no clause")?,
        Place { file: 0, at: 0 }
    );
    Ok(())
}

/// The place of the first clause.
fn first_place(ast: &Ast) -> Option<Place> {
    match ast.as_slice() {
        [Item::Clause(clause), ..] => Some(clause.place),
        _ => None,
    }
}

#[test]
fn laws_are_called() {
    one_program();
    one_query();
    program_read();
    query_read();
    program_unexpected();
    query_unexpected();
    program_deep();
    query_deep();
}
