// From the bytes of texts to their trees, or the lines that refuse them.
ghost use Rattle.std.specs.Prelude.{◌≡◌, ◌≤◌, length, IfOk};
ghost use Rattle.std.specs.String.{string_bytes};
ghost use Rattle.elpi_cli.specs.Words.{most_files};
ghost use Rattle.elpi_cli.specs.Texts.{items_of, goal_of, refused_line, token_line, grammar_name, byte_of, grammar_line};
ghost use Rattle.elpi_cli.specs.Begins.{IsReading, IsReadGoal, IsRefusal, IsGrammarStop, ReadsProgram};
ghost use Rattle.elpi_cli.specs.inside.Sources.{entries_of};

use crate::positions::{column_at, line_at};
use crate::sources::Source;
use lp_lexer::{LexError, Tokens, tokens};
use lp_parser::{Ast, AstGoal, GrammarRule, Item, ParseError, parse_program, parse_query};
use std::alloc::{AllocError, Global};

/// Why a text isn't run: the line that refuses it, or want of memory.
#[derive(Debug, Drop)]
pub enum TextStop {
    Refused(String),
    Memory,
}

impl From<AllocError> for TextStop {
    ghost use Rattle.std.specs.Prelude.{◌≡◌};
    ghost use Rattle.elpi_cli.specs.declared.texts.TextStop.TheVariants.{Memory};

    ghost from_gives = { λ _ e. e ≡ Memory };

    fn from(_: AllocError) -> Self {
        TextStop::Memory
    }
}

// The refusal of a text that breaks a token rule.
fn token_stop(alloc: Global, name: &str, text: &[u8], error: LexError) -> TextStop
    ensures refusal { IsRefusal (token_line name.now text.now error) result }
    ensures memory { error ≡ LexError.Memory → result ≡ TextStop.Memory }
{
    match error {
        LexError::NotUtf8(at) => refuse(alloc, name, text, at, "utf8"),
        LexError::BadChar(at) => refuse(alloc, name, text, at, "char"),
        LexError::OpenString(at) => refuse(alloc, name, text, at, "string"),
        LexError::OpenComment(at) => refuse(alloc, name, text, at, "comment"),
        LexError::LongName(at) => refuse(alloc, name, text, at, "name-length"),
        LexError::WideNumber(at) => refuse(alloc, name, text, at, "number"),
        LexError::Memory => TextStop::Memory,
    }
}

// The refusal of a text by a rule at a byte.
pub fn refuse(alloc: Global, name: &str, text: &[u8], at: usize, rule: &str) -> TextStop
    ensures { IsRefusal (refused_line name.now text.now at rule.now) result }
{
    match refused_text(alloc, name, text, at, rule) {
        Ok(line) => TextStop::Refused(line),
        Err(_) => TextStop::Memory,
    }
}

fn refused_text(
    alloc: Global,
    name: &str,
    text: &[u8],
    at: usize,
    rule: &str,
) -> Result<String, AllocError>
    ensures { IfOk result (λ line. string_bytes line ≡ refused_line name.now text.now at rule.now) }
{
    let line = line_at(text, at);
    let column = column_at(text, at);
    format!(in alloc; "refused: {name}:{line}:{column}: {rule}\n")
}

// The name of a rule of the grammar.
fn grammar_name(rule: GrammarRule) -> &'static str
    ensures { result.now ≡ grammar_name rule }
{
    match rule {
        GrammarRule::Item => "item",
        GrammarRule::Kind => "kind",
        GrammarRule::TypeItem => "type",
        GrammarRule::Pred => "pred",
        GrammarRule::Constraint => "constraint",
        GrammarRule::Rule => "rule",
        GrammarRule::Clause => "clause",
        GrammarRule::Query => "query",
    }
}

// The first byte of the token with an index, or the end of the text where there is none.
fn byte_of(tokens: &Tokens, index: usize) -> usize
    ensures { result ≡ byte_of tokens.now index }
{
    if index < tokens.len() {
        tokens.get(index).at
    } else {
        tokens.text_len()
    }
}

// The refusal of a text by a rule at the token with an index.
fn refuse_at(
    alloc: Global,
    name: &str,
    text: &[u8],
    tokens: &Tokens,
    index: usize,
    rule: &str,
) -> TextStop
    requires { tokens.now.text ≡ text.now }
    ensures { IsRefusal (grammar_line name.now tokens.now index rule.now) result }
{
    refuse(alloc, name, text, byte_of(tokens, index), rule)
}

// The refusal of a text that the grammar or its nesting refuses.
fn grammar_stop(
    alloc: Global,
    name: &str,
    text: &[u8],
    tokens: &Tokens,
    error: ParseError,
) -> TextStop
    requires { tokens.now.text ≡ text.now }
    ensures { IsGrammarStop name.now tokens.now error result }
{
    match error {
        ParseError::Unexpected(index, rule) => {
            refuse_at(alloc, name, text, tokens, index, grammar_name(rule))
        }
        ParseError::Deep(index) => refuse_at(alloc, name, text, tokens, index, "deep"),
        ParseError::Memory => TextStop::Memory,
    }
}

// The items of the file with this number, or the refusal of its text by its tokens or the grammar.
fn read_items(alloc: Global, name: &str, file: u32, text: &[u8]) -> Result<Ast, TextStop>
    ensures { IsReading (items_of name.now file text.now) result }
{
    match tokens(alloc, text) {
        Err(error) => Err(token_stop(alloc, name, text, error)),
        Ok(tokens) => match parse_program(alloc, &tokens, file) {
            Err(error) => Err(grammar_stop(alloc, name, text, &tokens, error)),
            Ok(ast) => Ok(ast),
        },
    }
}

/// The items of the files, each numbered by its place among them, or the refusal of the first text that its tokens or the
/// grammar refuse.
pub fn read_program(alloc: Global, sources: &[Source]) -> Result<Ast, TextStop>
    requires { length sources.now ≤ most_files }
    ensures { ReadsProgram (entries_of sources.now) result }
{
    let mut ast = Ast::new(alloc);
    for number in 0..sources.len() {
        let source = &sources[number];
        let text = source.text.as_slice();
        match read_items(alloc, source.name.as_str(), number as u32, text) {
            Err(stop) => return Err(stop),
            Ok(items) => {
                ast.append(items)?;
            }
        }
    }
    Ok(ast)
}

// The goal of a query's text, or the refusal of the text by its tokens or the grammar.
pub fn read_goal(alloc: Global, text: &[u8]) -> Result<AstGoal, TextStop>
    ensures { IsReadGoal (goal_of text.now) result }
{
    match tokens(alloc, text) {
        Err(error) => Err(token_stop(alloc, "query", text, error)),
        Ok(tokens) => match parse_query(alloc, &tokens) {
            Err(error) => Err(grammar_stop(alloc, "query", text, &tokens, error)),
            Ok(goal) => Ok(goal),
        },
    }
}
