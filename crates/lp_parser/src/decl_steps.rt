//! Reads declarations from the left, behind their first word.
ghost use Rattle.std.specs.Prelude.{◌≡◌, [], ◌∷◌, ◌++◌, IfOk, Some, None, Bool, option_map};
ghost use Rattle.lp_parser.specs.Declarations.{mode_of};
ghost use Rattle.lp_parser.specs.inside.DeclMachine.{decl_name, kind_named, in_type, decl_named, kind_type, kind_typed, pred_name, with_mode, pred_mode, pred_named, pred_colon, pred_argument, pred_typed, in_arg_type, decl_move};
ghost use Rattle.lp_parser.specs.inside.TypeMachine.{type_step, type_settled, type_whole};

use crate::ast::{AstArg, AstArgs, AstType, Decl, Operator, Word, WordKind, Words};
use crate::item_state::{DeclState, Given, Moved, TypeState};
use crate::lexeme::{Lexeme, Mark};
use crate::stack::Stack;
use sqlite_items::Items;
use std::alloc::{AllocError, Global};

/// Where a lexeme leads in a declaration, if one goes on so.
type DeclMoved = Option<Moved<DeclState, Decl>>;

/// A name, behind these.
fn name(given: Given, mut names: Words, lexeme: Lexeme) -> Result<DeclMoved, AllocError>
    ensures { IfOk result (λ it. it ≡ decl_name given names lexeme) }
{
    match lexeme {
        Lexeme::Word(WordKind::Name, text, place) => {
            names.push(Word { text, place })?;
            Ok(Some(Moved::To(DeclState::Named(given, names))))
        }
        _ => Ok(None),
    }
}

/// Behind the last name of a kind.
fn kind_named(names: Words, lexeme: Lexeme) -> DeclMoved
    ensures { result ≡ kind_named names lexeme }
{
    match lexeme {
        Lexeme::Mark(Mark::TypeWord, _) => Some(Moved::To(DeclState::Kinded(names, 0))),
        _ => None,
    }
}

/// In the type of these names.
fn in_type(
    alloc: Global,
    names: Words,
    state: TypeState,
    lexeme: Lexeme,
) -> Result<DeclMoved, AllocError>
    ensures { IfOk result (λ it. it ≡ in_type names (type_step state lexeme) lexeme (type_whole (type_settled state))) }
{
    match lexeme {
        Lexeme::Mark(Mark::Dot, _) => match state.into_whole(alloc)? {
            Some(ty) => Ok(Some(Moved::Done(Decl::TypeDecl(names, ty)))),
            None => Ok(None),
        },
        lexeme => match state.step(alloc, lexeme)? {
            Some(state) => Ok(Some(Moved::To(DeclState::Type(names, state)))),
            None => Ok(None),
        },
    }
}

/// Behind the last name.
fn named(alloc: Global, given: Given, names: Words, lexeme: Lexeme) -> Result<DeclMoved, AllocError>
    ensures { IfOk result (λ it. it ≡ decl_named given names lexeme) }
{
    match lexeme {
        Lexeme::Infix(Operator::Comma, _) => Ok(Some(Moved::To(DeclState::Name(given, names)))),
        lexeme => match given {
            Given::Kind => Ok(kind_named(names, lexeme)),
            Given::TypeOf => in_type(alloc, names, TypeState::Want(Stack::new(alloc)), lexeme),
        },
    }
}

/// The word `type`, behind so many arrows.
fn kind_type(names: Words, arrows: usize, lexeme: Lexeme) -> DeclMoved
    ensures { result ≡ kind_type names arrows lexeme }
{
    match lexeme {
        Lexeme::Mark(Mark::TypeWord, _) => Some(Moved::To(DeclState::Kinded(names, arrows))),
        _ => None,
    }
}

/// Behind the word `type`. Arrows that can't be counted are want of memory.
fn kind_typed(names: Words, arrows: usize, lexeme: Lexeme) -> Result<DeclMoved, AllocError>
    ensures { IfOk result (λ it. it ≡ kind_typed names arrows lexeme) }
{
    match lexeme {
        Lexeme::Mark(Mark::Arrow, _) => {
            let Some(arrows) = arrows.checked_add(1) else {
                return Err(AllocError);
            };
            Ok(Some(Moved::To(DeclState::Kind(names, arrows))))
        }
        Lexeme::Mark(Mark::Dot, _) => Ok(Some(Moved::Done(Decl::KindDecl(names, arrows)))),
        _ => Ok(None),
    }
}

/// The name of a predicate.
fn pred_name(lexeme: Lexeme) -> DeclMoved
    ensures { result ≡ pred_name lexeme }
{
    match lexeme {
        Lexeme::Word(WordKind::Name, text, place) => Some(Moved::To(DeclState::PredNamed(Word {
            text,
            place,
        }))),
        _ => None,
    }
}

/// The mode that the name is: whether it is that of inputs.
fn mode_of(text: &[u8]) -> Option<bool>
    ensures { result ≡ mode_of text.now }
{
    if text == b"i".as_slice() {
        Some(true)
    } else if text == b"o".as_slice() {
        Some(false)
    } else {
        None
    }
}

/// A mode, behind these arguments.
fn pred_mode(name: Word, arguments: AstArgs, lexeme: Lexeme) -> DeclMoved
    ensures { result ≡ pred_mode name arguments lexeme }
{
    match lexeme {
        Lexeme::Word(WordKind::Name, text, _) => match mode_of(text.as_slice()) {
            Some(input) => Some(Moved::To(DeclState::Colon(name, arguments, input))),
            None => None,
        },
        _ => None,
    }
}

/// Behind the name of a predicate.
fn pred_named(alloc: Global, name: Word, lexeme: Lexeme) -> DeclMoved
    ensures { result ≡ pred_named name lexeme }
{
    match lexeme {
        Lexeme::Mark(Mark::Dot, _) => Some(Moved::Done(Decl::PredDecl(name, Items::new(alloc)))),
        lexeme => pred_mode(name, Items::new(alloc), lexeme),
    }
}

/// The `:` behind a mode.
fn pred_colon(
    alloc: Global,
    name: Word,
    arguments: AstArgs,
    input: bool,
    lexeme: Lexeme,
) -> DeclMoved
    ensures { result ≡ pred_colon name arguments input lexeme }
{
    match lexeme {
        Lexeme::Mark(Mark::Colon, _) => {
            let state = TypeState::Want(Stack::new(alloc));
            Some(Moved::To(DeclState::ArgType(name, arguments, input, state)))
        }
        _ => None,
    }
}

/// The arguments with one more, where its type is over.
fn with_argument(
    mut arguments: AstArgs,
    input: bool,
    ty: Option<AstType>,
) -> Result<Option<AstArgs>, AllocError>
    ensures { IfOk result (λ it. it ≡ option_map (λ t. arguments ++ record { input = input; ty = t } ∷ []) ty) }
{
    match ty {
        Some(ty) => {
            arguments.push(AstArg { input, ty })?;
            Ok(Some(arguments))
        }
        None => Ok(None),
    }
}

/// In the type of an argument.
fn in_arg_type(
    alloc: Global,
    name: Word,
    arguments: AstArgs,
    input: bool,
    state: TypeState,
    lexeme: Lexeme,
) -> Result<DeclMoved, AllocError>
    ensures { IfOk result (λ it. it ≡ in_arg_type name arguments input (type_step state lexeme) lexeme (type_whole (type_settled state))) }
{
    match lexeme {
        Lexeme::Infix(Operator::Comma, _) => {
            match with_argument(arguments, input, state.into_whole(alloc)?)? {
                Some(arguments) => Ok(Some(Moved::To(DeclState::Mode(name, arguments)))),
                None => Ok(None),
            }
        }
        Lexeme::Mark(Mark::Dot, _) => {
            match with_argument(arguments, input, state.into_whole(alloc)?)? {
                Some(arguments) => Ok(Some(Moved::Done(Decl::PredDecl(name, arguments)))),
                None => Ok(None),
            }
        }
        lexeme => match state.step(alloc, lexeme)? {
            Some(state) => Ok(Some(Moved::To(DeclState::ArgType(name, arguments, input, state)))),
            None => Ok(None),
        },
    }
}

impl DeclState {
    /// Where the lexeme leads, if a declaration goes on so.
    pub fn step(self, alloc: Global, lexeme: Lexeme) -> Result<DeclMoved, AllocError>
        ensures { IfOk result (λ it. it ≡ decl_move self lexeme) }
    {
        match self {
            DeclState::Name(given, names) => name(given, names, lexeme),
            DeclState::Named(given, names) => named(alloc, given, names, lexeme),
            DeclState::Kind(names, arrows) => Ok(kind_type(names, arrows, lexeme)),
            DeclState::Kinded(names, arrows) => kind_typed(names, arrows, lexeme),
            DeclState::Type(names, state) => in_type(alloc, names, state, lexeme),
            DeclState::Pred => Ok(pred_name(lexeme)),
            DeclState::PredNamed(name) => Ok(pred_named(alloc, name, lexeme)),
            DeclState::Mode(name, arguments) => Ok(pred_mode(name, arguments, lexeme)),
            DeclState::Colon(name, arguments, input) => Ok(pred_colon(
                alloc, name, arguments, input, lexeme,
            )),
            DeclState::ArgType(name, arguments, input, state) => in_arg_type(
                alloc, name, arguments, input, state, lexeme,
            ),
        }
    }
}
