//! Reads terms from the left, and keeps the phrases that are not over on a stack.
ghost use Rattle.std.specs.Prelude.{◌≡◌, [], ◌∷◌, ◌++◌, IfOk, option_map, Some, None};
ghost use Rattle.lp_parser.specs.Grammar.{level, left_level, right_level, literal_term, quantified};
ghost use Rattle.lp_parser.specs.inside.TermMachine.{atom_of, joined, front_after, separated, onto, attach, settle, settled_at, close, at_once, closing, atom, opened, opened_list, front_at, stack_at, may_be_open, second_bound, second_word, worded, body_frame, body, bound, quantifier, infixed, step, atom_place};

use crate::ast::{AstTerm, AstTerms, Operator, Place, Word, WordKind, Words};
use crate::lexeme::{Closer, Lexeme, Literal};
use crate::stack::Stack;
use crate::state::{Frame, Front, Latest, State};
use lam_io::ByteText;
use sqlite_items::{Boxed, Items};
use std::alloc::{AllocError, Global};

impl Operator {
    /// The level of a phrase with the operator.
    fn level(self) -> u8
        ensures { result ≡ level self }
    {
        match self {
            Operator::Implied => 1,
            Operator::Or => 2,
            Operator::Comma => 3,
            Operator::Implies => 4,
            Operator::Equal | Operator::Is => 5,
            Operator::Cons => 6,
            Operator::Plus | Operator::Minus => 7,
            Operator::Times => 8,
        }
    }

    /// The level of its left side.
    fn left_level(self) -> u8
        ensures { result ≡ left_level self }
    {
        match self {
            Operator::Implied => 2,
            Operator::Or => 3,
            Operator::Comma => 4,
            Operator::Implies => 5,
            Operator::Equal | Operator::Is => 6,
            Operator::Cons | Operator::Plus | Operator::Minus => 7,
            Operator::Times => 8,
        }
    }

    /// The level of its right side.
    fn right_level(self) -> u8
        ensures { result ≡ right_level self }
    {
        match self {
            Operator::Implied | Operator::Or => 2,
            Operator::Comma => 3,
            Operator::Implies => 4,
            Operator::Equal | Operator::Is | Operator::Cons => 6,
            Operator::Plus | Operator::Minus => 8,
            Operator::Times => 9,
        }
    }
}

/// The term of a literal at its place.
fn literal_term(alloc: Global, literal: Literal, place: Place) -> Result<AstTerm, AllocError>
    ensures { IfOk result (λ term. term ≡ literal_term literal place) }
{
    match literal {
        Literal::Int(number) => Ok(AstTerm::Int(number, place)),
        Literal::Str(text) => Ok(AstTerm::Str(text, place)),
        Literal::Cut => {
            let mut text = ByteText::new(alloc);
            text.push(b'!')?;
            Ok(AstTerm::Word(WordKind::Name, text, place))
        }
    }
}

impl Latest {
    /// The atom as a term.
    pub fn into_term(self) -> AstTerm
        ensures { result ≡ atom_of self }
    {
        match self {
            Latest::Word(kind, text, place) => AstTerm::Word(kind, text, place),
            Latest::Group(term) => term,
            Latest::Plain(term) => term,
        }
    }
}

impl Front {
    /// The phrase that the atom ends.
    pub fn join(self, alloc: Global, atom: AstTerm) -> Result<AstTerm, AllocError>
        ensures { IfOk result (λ term. term ≡ joined self atom) }
    {
        match self {
            Front::Nothing => Ok(atom),
            Front::Applied(head, mut arguments) => {
                arguments.push(atom)?;
                Ok(AstTerm::App(Boxed::new(alloc, head)?, arguments))
            }
            Front::Quantifier(all, place) => Ok(AstTerm::Quant(
                all,
                place,
                Boxed::new(alloc, atom)?,
            )),
        }
    }

    /// The front of a further atom, where one may follow.
    fn extend(self, alloc: Global, latest: Latest) -> Result<Option<Front>, AllocError>
        ensures { IfOk result (λ front. front ≡ front_after self latest) }
    {
        match self {
            Front::Applied(head, mut arguments) => {
                arguments.push(latest.into_term())?;
                Ok(Some(Front::Applied(head, arguments)))
            }
            Front::Nothing => match latest {
                Latest::Plain(_) => Ok(None),
                Latest::Word(kind, text, place) => Ok(Some(Front::Applied(
                    AstTerm::Word(kind, text, place),
                    Items::new(alloc),
                ))),
                Latest::Group(term) => Ok(Some(Front::Applied(term, Items::new(alloc)))),
            },
            Front::Quantifier(_, _) => Ok(None),
        }
    }
}

fn infix(
    alloc: Global,
    operator: Operator,
    place: Place,
    left: AstTerm,
    right: AstTerm,
) -> Result<AstTerm, AllocError>
    ensures { IfOk result (λ term. term ≡ AstTerm.Op operator place left right) }
{
    let left = Boxed::new(alloc, left)?;
    let right = Boxed::new(alloc, right)?;
    Ok(AstTerm::Op(operator, place, left, right))
}

fn bind(alloc: Global, word: Word, body: AstTerm) -> Result<AstTerm, AllocError>
    ensures { IfOk result (λ term. term ≡ AstTerm.Bind word.text word.place body) }
{
    let Word { text, place } = word;
    Ok(AstTerm::Bind(text, place, Boxed::new(alloc, body)?))
}

/// The body under a quantifier for each of the words.
fn quantify(
    alloc: Global,
    all: bool,
    place: Place,
    mut words: Words,
    body: AstTerm,
) -> Result<AstTerm, AllocError>
    ensures { IfOk result (λ term. term ≡ quantified all place words body) }
{
    let mut inner = body;
    while let Some(word) = words.pop() {
        let bound = bind(alloc, word, inner)?;
        inner = AstTerm::Quant(all, place, Boxed::new(alloc, bound)?);
    }
    Ok(inner)
}

/// Puts the operator on the stack with its left side, where that has its level.
fn put(
    mut frames: Stack<Frame>,
    operator: Operator,
    place: Place,
    level: u8,
    left: AstTerm,
) -> Result<Option<Stack<Frame>>, AllocError>
    ensures { IfOk result (λ after. after ≡ onto operator place level left frames) }
{
    if level < operator.left_level() {
        return Ok(None);
    }
    frames.push(Frame::Left(operator, place, left))?;
    Ok(Some(frames))
}

/// Puts an element into a list, where the operator is the comma behind it.
fn separate(
    mut frames: Stack<Frame>,
    operator: Operator,
    element: AstTerm,
    front: Front,
    place: Place,
    mut elements: AstTerms,
) -> Result<Option<Stack<Frame>>, AllocError>
    ensures { IfOk result (λ after. after ≡ separated operator element front place elements frames) }
{
    match operator {
        Operator::Comma => {
            elements.push(element)?;
            frames.push(Frame::List(front, place, elements))?;
            Ok(Some(frames))
        }
        Operator::Implied
        | Operator::Or
        | Operator::Implies
        | Operator::Equal
        | Operator::Is
        | Operator::Cons
        | Operator::Plus
        | Operator::Minus
        | Operator::Times => Ok(None),
    }
}

/// Puts the operator on the stack with its left side, which is the term and the frames that bind tighter.
fn attach_to(
    alloc: Global,
    operator: Operator,
    place: Place,
    term: AstTerm,
    mut frames: Stack<Frame>,
) -> Result<Option<Stack<Frame>>, AllocError>
    ensures { IfOk result (λ after. after ≡ attach operator place 9 term frames) }
{
    let mut left = term;
    let mut left_is = 9;
    while let Some(frame) = frames.pop() {
        match frame {
            Frame::Left(outer, outer_place, outer_left) if operator.level() < outer.right_level() =>
                {
                    left = infix(alloc, outer, outer_place, outer_left, left)?;
                    left_is = outer.level();
                }
            Frame::List(front, list_place, elements) if operator.level() < 4 => return separate(
                frames, operator, left, front, list_place, elements,
            ),
            Frame::Tail(_, _, _) if operator.level() < 4 => return Ok(None),
            Frame::Test => return Ok(None),
            frame => {
                frames.push(frame)?;
                return put(frames, operator, place, left_is, left);
            }
        }
    }
    put(frames, operator, place, left_is, left)
}

/// Ends all phrases up to a bracket.
fn settle_all(
    alloc: Global,
    term: AstTerm,
    mut frames: Stack<Frame>,
) -> Result<(AstTerm, Stack<Frame>), AllocError>
    ensures { IfOk result (λ after. after ≡ settle term frames) }
{
    let mut inner = term;
    while let Some(frame) = frames.pop() {
        match frame {
            Frame::Left(operator, place, left) => inner = infix(
                alloc, operator, place, left, inner,
            )?,
            Frame::Body(front, word) => inner = front.join(alloc, bind(alloc, word, inner)?)?,
            Frame::Quantified(all, place, words) => inner = quantify(
                alloc, all, place, words, inner,
            )?,
            frame => {
                frames.push(frame)?;
                return Ok((inner, frames));
            }
        }
    }
    Ok((inner, frames))
}

/// The state behind a phrase and what ends it, with the frames that `into_settled` gives.
pub fn close_with(
    alloc: Global,
    closer: Closer,
    term: AstTerm,
    mut frames: Stack<Frame>,
) -> Result<Option<State>, AllocError>
    ensures { IfOk result (λ after. after ≡ close closer term frames) }
{
    match (closer, frames.pop()) {
        (Closer::Round, Some(Frame::Group(front))) => Ok(Some(State::Have(
            front,
            Latest::Group(term),
            frames,
        ))),
        (Closer::Square, Some(Frame::List(front, place, mut elements))) => {
            elements.push(term)?;
            Ok(Some(State::Have(
                front,
                Latest::Plain(AstTerm::List(place, elements, None)),
                frames,
            )))
        }
        (Closer::Square, Some(Frame::Tail(front, place, elements))) => {
            let tail = Boxed::new(alloc, term)?;
            Ok(Some(State::Have(
                front,
                Latest::Plain(AstTerm::List(place, elements, Some(tail))),
                frames,
            )))
        }
        (Closer::Bar, Some(Frame::List(front, place, mut elements))) => {
            elements.push(term)?;
            frames.push(Frame::Tail(front, place, elements))?;
            Ok(Some(State::Want(frames)))
        }
        _ => Ok(None),
    }
}

/// The state behind one more atom.
fn with_atom(alloc: Global, state: State, latest: Latest) -> Result<Option<State>, AllocError>
    ensures { IfOk result (λ after. after ≡ atom (front_at state) latest (stack_at state)) }
{
    match state {
        State::Want(frames) => Ok(Some(State::Have(Front::Nothing, latest, frames))),
        State::Quantifier(all, place, frames) => Ok(Some(State::Have(
            Front::Quantifier(all, place),
            latest,
            frames,
        ))),
        State::Have(front, before, frames) => match front.extend(alloc, before)? {
            Some(front) => Ok(Some(State::Have(front, latest, frames))),
            None => Ok(None),
        },
        State::Words(_, _, _, _, _) => Ok(None),
    }
}

/// The front of the atom that a bracket begins, and the frames around it.
fn front_of(alloc: Global, state: State) -> Result<Option<(Front, Stack<Frame>)>, AllocError>
    ensures { IfOk result (λ found. found ≡ atom_place state) }
{
    match state {
        State::Want(frames) => Ok(Some((Front::Nothing, frames))),
        State::Quantifier(all, place, frames) => Ok(Some((Front::Quantifier(all, place), frames))),
        State::Have(front, before, frames) => match front.extend(alloc, before)? {
            Some(front) => Ok(Some((front, frames))),
            None => Ok(None),
        },
        State::Words(_, _, _, _, _) => Ok(None),
    }
}

fn with_group(alloc: Global, state: State) -> Result<Option<State>, AllocError>
    ensures { IfOk result (λ after. after ≡ opened (front_at state) (stack_at state)) }
{
    match front_of(alloc, state)? {
        Some((front, mut frames)) => {
            frames.push(Frame::Group(front))?;
            Ok(Some(State::Want(frames)))
        }
        None => Ok(None),
    }
}

fn with_list(alloc: Global, state: State, place: Place) -> Result<Option<State>, AllocError>
    ensures { IfOk result (λ after. after ≡ opened_list (front_at state) place (stack_at state)) }
{
    match front_of(alloc, state)? {
        Some((front, mut frames)) => {
            frames.push(Frame::List(front, place, Items::new(alloc)))?;
            Ok(Some(State::Want(frames)))
        }
        None => Ok(None),
    }
}

/// Whether a phrase on this stack may end in a body that goes on to its end.
fn may_be_open(frames: &Stack<Frame>) -> bool
    ensures { result ≡ may_be_open frames.now }
{
    match frames.last() {
        Some(Frame::Test) => false,
        _ => true,
    }
}

/// The state behind the second word of a quantifier.
fn with_second_bound(
    alloc: Global,
    all: bool,
    place: Place,
    first: Word,
    second: Word,
    frames: Stack<Frame>,
) -> Result<Option<State>, AllocError>
    ensures { IfOk result (λ after. after ≡ second_bound all place first second frames) }
{
    if !may_be_open(&frames) {
        return Ok(None);
    }
    let mut words = Items::new(alloc);
    words.push(first)?;
    Ok(Some(State::Words(all, place, words, second, frames)))
}

/// The state behind a further word, with an atom before it.
fn with_next_word(
    alloc: Global,
    front: Front,
    latest: Latest,
    frames: Stack<Frame>,
    kind: WordKind,
    word: Word,
) -> Result<Option<State>, AllocError>
    ensures { IfOk result (λ after. after ≡ second_word front latest frames kind word) }
{
    match front {
        Front::Quantifier(all, place) => match latest {
            Latest::Word(_, text, first_place) => {
                let first = Word {
                    text,
                    place: first_place,
                };
                with_second_bound(alloc, all, place, first, word, frames)
            }
            Latest::Group(_) | Latest::Plain(_) => Ok(None),
        },
        front => {
            let Word { text, place } = word;
            with_atom(
                alloc,
                State::Have(front, latest, frames),
                Latest::Word(kind, text, place),
            )
        }
    }
}

fn with_word(
    alloc: Global,
    state: State,
    kind: WordKind,
    word: Word,
) -> Result<Option<State>, AllocError>
    ensures { IfOk result (λ after. after ≡ worded state kind word) }
{
    match state {
        State::Have(front, latest, frames) => with_next_word(
            alloc, front, latest, frames, kind, word,
        ),
        State::Words(all, place, mut words, last, frames) => {
            words.push(last)?;
            Ok(Some(State::Words(all, place, words, word, frames)))
        }
        state => {
            let Word { text, place } = word;
            with_atom(alloc, state, Latest::Word(kind, text, place))
        }
    }
}

/// The frame of the body of the word, behind that front.
fn body_frame(alloc: Global, front: Front, word: Word) -> Result<Frame, AllocError>
    ensures { IfOk result (λ frame. frame ≡ body_frame front word) }
{
    match front {
        Front::Quantifier(all, place) => {
            let mut words = Items::new(alloc);
            words.push(word)?;
            Ok(Frame::Quantified(all, place, words))
        }
        front => Ok(Frame::Body(front, word)),
    }
}

/// The state behind the `\` of a binder, with an atom before it.
fn with_body(
    alloc: Global,
    front: Front,
    latest: Latest,
    mut frames: Stack<Frame>,
) -> Result<Option<State>, AllocError>
    ensures { IfOk result (λ after. after ≡ body front latest frames) }
{
    match latest {
        Latest::Word(_, text, place) => {
            if !may_be_open(&frames) {
                return Ok(None);
            }
            let frame = body_frame(alloc, front, Word { text, place })?;
            frames.push(frame)?;
            Ok(Some(State::Want(frames)))
        }
        Latest::Group(_) | Latest::Plain(_) => Ok(None),
    }
}

fn with_lambda(alloc: Global, state: State) -> Result<Option<State>, AllocError>
    ensures { IfOk result (λ after. after ≡ bound state) }
{
    match state {
        State::Have(front, latest, frames) => with_body(alloc, front, latest, frames),
        State::Words(all, place, mut words, last, mut frames) => {
            words.push(last)?;
            frames.push(Frame::Quantified(all, place, words))?;
            Ok(Some(State::Want(frames)))
        }
        State::Want(_) | State::Quantifier(_, _, _) => Ok(None),
    }
}

fn with_quantifier(state: State, all: bool, place: Place) -> Option<State>
    ensures { result ≡ quantifier state all place }
{
    match state {
        State::Want(frames) => Some(State::Quantifier(all, place, frames)),
        State::Quantifier(_, _, _) | State::Have(_, _, _) | State::Words(_, _, _, _, _) => None,
    }
}

/// The list that is closed where it begins.
fn close_at_once(alloc: Global, mut frames: Stack<Frame>) -> Option<State>
    ensures { result ≡ at_once frames }
{
    let frame = frames.pop()?;
    match frame {
        Frame::List(front, place, elements) => {
            if !elements.is_empty() {
                return None;
            }
            let list = AstTerm::List(place, Items::new(alloc), None);
            Some(State::Have(front, Latest::Plain(list), frames))
        }
        Frame::Left(_, _, _)
        | Frame::Body(_, _)
        | Frame::Quantified(_, _, _)
        | Frame::Group(_)
        | Frame::Tail(_, _, _)
        | Frame::Test => None,
    }
}

fn with_closer(alloc: Global, state: State, closer: Closer) -> Result<Option<State>, AllocError>
    ensures { IfOk result (λ after. after ≡ closing state closer) }
{
    match state {
        State::Want(frames) => match closer {
            Closer::Square => Ok(close_at_once(alloc, frames)),
            Closer::Round | Closer::Bar => Ok(None),
        },
        State::Have(front, latest, frames) => {
            let term = front.join(alloc, latest.into_term())?;
            let (term, frames) = settle_all(alloc, term, frames)?;
            close_with(alloc, closer, term, frames)
        }
        State::Quantifier(_, _, _) | State::Words(_, _, _, _, _) => Ok(None),
    }
}

fn with_infix(
    alloc: Global,
    state: State,
    operator: Operator,
    place: Place,
) -> Result<Option<State>, AllocError>
    ensures { IfOk result (λ after. after ≡ infixed state operator place) }
{
    match state {
        State::Have(front, latest, frames) => {
            let term = front.join(alloc, latest.into_term())?;
            Ok(attach_to(alloc, operator, place, term, frames)?.map(State::Want))
        }
        State::Want(_) | State::Quantifier(_, _, _) | State::Words(_, _, _, _, _) => Ok(None),
    }
}

impl State {
    /// The phrase that is read where all phrases up to a bracket end.
    pub fn into_settled(self, alloc: Global) -> Result<Option<(AstTerm, Stack<Frame>)>, AllocError>
        ensures { IfOk result (λ found. found ≡ settled_at self) }
    {
        match self {
            State::Have(front, latest, frames) => {
                let term = front.join(alloc, latest.into_term())?;
                Ok(Some(settle_all(alloc, term, frames)?))
            }
            State::Want(_) | State::Quantifier(_, _, _) | State::Words(_, _, _, _, _) => Ok(None),
        }
    }

    /// The state behind one more lexeme, where a term goes on so.
    pub fn step(self, alloc: Global, lexeme: Lexeme) -> Result<Option<State>, AllocError>
        ensures { IfOk result (λ after. after ≡ step self lexeme) }
    {
        match lexeme {
            Lexeme::Word(kind, text, place) => with_word(alloc, self, kind, Word { text, place }),
            Lexeme::Literal(literal, place) => with_atom(
                alloc,
                self,
                Latest::Plain(literal_term(alloc, literal, place)?),
            ),
            Lexeme::Quantifier(all, place) => Ok(with_quantifier(self, all, place)),
            Lexeme::OpenRound(_) => with_group(alloc, self),
            Lexeme::OpenSquare(place) => with_list(alloc, self, place),
            Lexeme::Lambda(_) => with_lambda(alloc, self),
            Lexeme::Infix(operator, place) => with_infix(alloc, self, operator, place),
            Lexeme::Closer(closer, _) => with_closer(alloc, self, closer),
            Lexeme::Mark(_, _) => Ok(None),
        }
    }
}
