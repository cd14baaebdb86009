//! Reads types from the left, and keeps the phrases that are not over on a stack.
ghost use Rattle.std.specs.Prelude.{◌≡◌, [], ◌∷◌, ◌++◌, IfOk, Some, None};
ghost use Rattle.lp_parser.specs.inside.TypeMachine.{type_word, type_of, type_settle, type_settled, type_close, type_closing, type_closer, with_type_word, type_worded, type_opened, type_arrow, type_marked, type_step, type_whole};

use crate::ast::{AstType, Place, Word, WordKind};
use crate::item_state::{TypeFrame, TypeFront, TypeState};
use crate::lexeme::{Closer, Lexeme, Mark};
use crate::stack::Stack;
use lam_io::ByteText;
use sqlite_items::{Boxed, Items};
use std::alloc::{AllocError, Global};

impl TypeFront {
    /// The application as a type.
    fn into_type(self) -> AstType
        ensures { result ≡ type_of self }
    {
        match self {
            TypeFront::Named(word, arguments) => AstType::Named(word, arguments),
            TypeFront::Whole(ty) => ty,
        }
    }
}

fn arrow(alloc: Global, left: AstType, right: AstType) -> Result<AstType, AllocError>
    ensures { IfOk result (λ ty. ty ≡ AstType.Arrow left right) }
{
    let left = Boxed::new(alloc, left)?;
    let right = Boxed::new(alloc, right)?;
    Ok(AstType::Arrow(left, right))
}

/// Ends all arrows up to a bracket.
fn settle_type(
    alloc: Global,
    ty: AstType,
    mut frames: Stack<TypeFrame>,
) -> Result<(AstType, Stack<TypeFrame>), AllocError>
    ensures { IfOk result (λ after. after ≡ type_settle ty frames) }
{
    let mut inner = ty;
    while let Some(frame) = frames.pop() {
        match frame {
            TypeFrame::Arrow(left) => inner = arrow(alloc, left, inner)?,
            frame => {
                frames.push(frame)?;
                return Ok((inner, frames));
            }
        }
    }
    Ok((inner, frames))
}

/// The state behind a type in brackets.
fn close_type(ty: AstType, mut frames: Stack<TypeFrame>) -> Result<Option<TypeState>, AllocError>
    ensures { IfOk result (λ after. after ≡ type_close ty frames) }
{
    match frames.pop() {
        Some(TypeFrame::Group) => Ok(Some(TypeState::Have(TypeFront::Whole(ty), frames))),
        Some(TypeFrame::Argument(word, mut arguments)) => {
            arguments.push(ty)?;
            Ok(Some(TypeState::Have(TypeFront::Named(word, arguments), frames)))
        }
        Some(TypeFrame::Arrow(_)) | None => Ok(None),
    }
}

/// The state behind a `)`.
fn with_type_end(alloc: Global, state: TypeState) -> Result<Option<TypeState>, AllocError>
    ensures { IfOk result (λ after. after ≡ type_closing state) }
{
    match state {
        TypeState::Want(_) => Ok(None),
        TypeState::Have(front, frames) => {
            let (ty, frames) = settle_type(alloc, front.into_type(), frames)?;
            close_type(ty, frames)
        }
    }
}

/// The state behind a word that may stand in a type.
fn with_word(alloc: Global, state: TypeState, word: Word) -> Result<Option<TypeState>, AllocError>
    ensures { IfOk result (λ after. after ≡ with_type_word state word) }
{
    match state {
        TypeState::Want(frames) => Ok(Some(TypeState::Have(
            TypeFront::Named(word, Items::new(alloc)),
            frames,
        ))),
        TypeState::Have(front, frames) => match front {
            TypeFront::Named(head, mut arguments) => {
                arguments.push(AstType::Named(word, Items::new(alloc)))?;
                Ok(Some(TypeState::Have(TypeFront::Named(head, arguments), frames)))
            }
            TypeFront::Whole(_) => Ok(None),
        },
    }
}

/// The state behind a word of that kind.
fn with_any_word(
    alloc: Global,
    state: TypeState,
    kind: WordKind,
    text: ByteText,
    place: Place,
) -> Result<Option<TypeState>, AllocError>
    ensures { IfOk result (λ after. after ≡ type_worded state (type_word kind text place)) }
{
    match kind {
        WordKind::Name | WordKind::Var => with_word(alloc, state, Word { text, place }),
        WordKind::Hole => Ok(None),
    }
}

/// The state behind a `(`.
fn with_type_group(state: TypeState) -> Result<Option<TypeState>, AllocError>
    ensures { IfOk result (λ after. after ≡ type_opened state) }
{
    match state {
        TypeState::Want(mut frames) => {
            frames.push(TypeFrame::Group)?;
            Ok(Some(TypeState::Want(frames)))
        }
        TypeState::Have(front, mut frames) => match front {
            TypeFront::Named(word, arguments) => {
                frames.push(TypeFrame::Argument(word, arguments))?;
                Ok(Some(TypeState::Want(frames)))
            }
            TypeFront::Whole(_) => Ok(None),
        },
    }
}

/// The state behind a `->`.
fn with_arrow(state: TypeState) -> Result<Option<TypeState>, AllocError>
    ensures { IfOk result (λ after. after ≡ type_arrow state) }
{
    match state {
        TypeState::Want(_) => Ok(None),
        TypeState::Have(front, mut frames) => {
            frames.push(TypeFrame::Arrow(front.into_type()))?;
            Ok(Some(TypeState::Want(frames)))
        }
    }
}

impl TypeState {
    /// The state behind one more lexeme, where a type goes on so.
    pub fn step(self, alloc: Global, lexeme: Lexeme) -> Result<Option<TypeState>, AllocError>
        ensures { IfOk result (λ after. after ≡ type_step self lexeme) }
    {
        match lexeme {
            Lexeme::Word(kind, text, place) => with_any_word(alloc, self, kind, text, place),
            Lexeme::OpenRound(_) => with_type_group(self),
            Lexeme::Closer(closer, _) => match closer {
                Closer::Round => with_type_end(alloc, self),
                Closer::Square | Closer::Bar => Ok(None),
            },
            Lexeme::Mark(mark, _) => match mark {
                Mark::Arrow => with_arrow(self),
                _ => Ok(None),
            },
            Lexeme::Literal(_, _)
            | Lexeme::Quantifier(_, _)
            | Lexeme::Infix(_, _)
            | Lexeme::Lambda(_)
            | Lexeme::OpenSquare(_) => Ok(None),
        }
    }

    /// The type that was read, where it may end here.
    pub fn into_whole(self, alloc: Global) -> Result<Option<AstType>, AllocError>
        ensures { IfOk result (λ ty. ty ≡ type_whole (type_settled self)) }
    {
        match self {
            TypeState::Want(_) => Ok(None),
            TypeState::Have(front, frames) => {
                let (ty, frames) = settle_type(alloc, front.into_type(), frames)?;
                if frames.is_empty() {
                    Ok(Some(ty))
                } else {
                    Ok(None)
                }
            }
        }
    }
}
